ghost use Rattle.std.specs.Prelude.{◌≡◌, IfOk};
ghost use Rattle.artery_cli.specs.Command.{command_named, check_alone, audit_with, replay_with, number_in, generate_named, pair_named, check_named, command_of};

use artery_base::{Bytes, NoMemory, Text};
use artery_replay::Form;
use artery_text::{WordFault, read_number, read_word};
use std::alloc::Global;

/// The scripts are numbered from 1 to this.
const MOST_SCRIPTS: u64 = 10_000;

/// What is done with an input that was read to its end.
#[derive(Debug, Drop)]
pub enum Task {
    /// A script is played and told in a form (`replay`, `replay --bytes`, `replay --moments`).
    Replay { form: Form },
    /// The bytes that lines describe are written (`make`).
    Make,
    /// A payload is told as the control message of this manifest (`check control`).
    CheckControl { manifest: Bytes },
    /// A journal is judged (`check journal`).
    CheckJournal,
    /// The journals of several incarnations are audited (`audit`), and the lawful merge written (`audit --merge`).
    Audit { merge: bool },
}

/// What the words of a call ask for.
#[derive(Debug, Drop)]
pub enum Command {
    /// The bytes of a connection are told as they come (`show`).
    Show,
    /// The input is read whole first.
    Whole(Task),
    /// The script with this number is played and its summary told; the input is not read (`gen`).
    Generate { number: u32 },
}

/// The command of one word.
fn command_named(word: &[u8]) -> Option<Command>
    ensures { result ≡ command_named word.now }
{
    if word == b"show".as_slice() {
        return Some(Command::Show);
    }
    if word == b"make".as_slice() {
        return Some(Command::Whole(Task::Make));
    }
    if word == b"replay".as_slice() {
        return Some(Command::Whole(Task::Replay { form: Form::Plain }));
    }
    if word == b"audit".as_slice() {
        return Some(Command::Whole(Task::Audit { merge: false }));
    }
    None
}

/// `check journal`.
fn check_alone(word: &[u8], what: &[u8]) -> Option<Command>
    ensures { result ≡ check_alone word.now what.now }
{
    if word != b"check".as_slice() {
        return None;
    }
    if what != b"journal".as_slice() {
        return None;
    }
    Some(Command::Whole(Task::CheckJournal))
}

/// `audit --merge`.
fn audit_with(word: &[u8], option: &[u8]) -> Option<Command>
    ensures { result ≡ audit_with word.now option.now }
{
    if word != b"audit".as_slice() {
        return None;
    }
    if option != b"--merge".as_slice() {
        return None;
    }
    Some(Command::Whole(Task::Audit { merge: true }))
}

/// `replay --bytes` and `replay --moments`.
fn replay_with(word: &[u8], option: &[u8]) -> Option<Command>
    ensures { result ≡ replay_with word.now option.now }
{
    if word != b"replay".as_slice() {
        return None;
    }
    if option == b"--bytes".as_slice() {
        return Some(Command::Whole(Task::Replay { form: Form::Bytes }));
    }
    if option == b"--moments".as_slice() {
        return Some(Command::Whole(Task::Replay {
            form: Form::Stamped,
        }));
    }
    None
}

/// The number of a script, from 1 to 10,000.
fn number_in(word: &[u8]) -> Option<u32>
    ensures { result ≡ number_in word.now }
{
    let number = read_number(word)?;
    if number < 1 || number > MOST_SCRIPTS {
        return None;
    }
    Some(number as u32)
}

/// `gen N`.
fn generate_named(word: &[u8], number: &[u8]) -> Option<Command>
    ensures { result ≡ generate_named word.now number.now }
{
    if word != b"gen".as_slice() {
        return None;
    }
    let number = number_in(number)?;
    Some(Command::Generate { number })
}

/// The command of two words.
fn pair_named(word: &[u8], what: &[u8]) -> Option<Command>
    ensures { result ≡ pair_named word.now what.now }
{
    if let Some(command) = check_alone(word, what) {
        return Some(command);
    }
    if let Some(command) = audit_with(word, what) {
        return Some(command);
    }
    if let Some(command) = replay_with(word, what) {
        return Some(command);
    }
    generate_named(word, what)
}

/// `check control` with a manifest.
fn check_named(
    alloc: Global,
    word: &[u8],
    what: &[u8],
    manifest: &[u8],
) -> Result<Option<Command>, NoMemory>
    ensures { IfOk result (λ command. command ≡ check_named word.now what.now manifest.now) }
{
    if word != b"check".as_slice() {
        return Ok(None);
    }
    if what != b"control".as_slice() {
        return Ok(None);
    }
    match read_word(alloc, manifest) {
        Ok(manifest) => Ok(Some(Command::Whole(Task::CheckControl { manifest }))),
        Err(WordFault::BadWord { at: _ }) => Ok(None),
        Err(WordFault::NoMemory) => Err(NoMemory),
    }
}

/// The command that the words name; `None` where they name none.
pub fn command_of(alloc: Global, words: &[Text]) -> Result<Option<Command>, NoMemory>
    ensures { IfOk result (λ command. command ≡ command_of words.now) }
{
    match words {
        [word] => Ok(command_named(word.as_slice())),
        [word, what] => Ok(pair_named(word.as_slice(), what.as_slice())),
        [word, what, manifest] => check_named(
            alloc,
            word.as_slice(),
            what.as_slice(),
            manifest.as_slice(),
        ),
        _ => Ok(None),
    }
}
