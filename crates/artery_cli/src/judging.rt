ghost use Rattle.std.specs.Prelude.{◌≡◌, IfOk};
ghost use Rattle.artery_journal_reading.specs.Journals.{journal_of as journal_told};
ghost use Rattle.artery_cli.specs.Answers.{law_word, text_line, verdict_answer, judged, journal_answer};
ghost use Rattle.artery_cli.specs.Telling.{AnswersOrStops};
ghost use Rattle.artery_judge.specs.declared.verdict.Verdict.TheVariants.{Broken};

use crate::refusal::{Refusal, refuse};
use crate::stop::Stop;
use crate::telling::tell;
use artery_base::{Bytes, NoMemory};
use artery_io::Sink;
use artery_journal::Journal;
use artery_journal_reading::{JournalFault, read_journal};
use artery_judge::{Law, Verdict, lawful_journal};
use artery_text::print_number;
use std::alloc::Global;

/// The word for a law.
pub(crate) fn law_word(law: Law) -> &'static [u8]
    ensures { result.now ≡ law_word law }
{
    match law {
        Law::Prefix => b"prefix",
        Law::Closed => b"closed",
        Law::Watch => b"watch",
        Law::Ordinary => b"ordinary",
        Law::Stopped => b"stopped",
        Law::Moment => b"moment",
    }
}

/// The number in the text of a line of a journal, counted from 1.
fn text_line(journal: &Journal, line: u64) -> Result<u64, NoMemory>
    ensures { IfOk result (λ n. n ≡ text_line journal.now line) }
{
    match journal {
        Journal::Plain(_) => Ok(line),
        Journal::Stamped(_) => match line.checked_add(1) {
            Some(number) => Ok(number),
            None => Err(NoMemory),
        },
    }
}

/// The line that tells which line of a journal breaks a law.
fn broken_line(alloc: Global, journal: &Journal, line: u64, law: Law) -> Result<Bytes, NoMemory>
    ensures { IfOk result (λ text. text ≡ (verdict_answer journal.now (Broken line law)).written) }
{
    let number = text_line(journal, line)?;
    let mut text = Bytes::from_slice(alloc, b"fault journal ")?;
    print_number(number, &mut text)?;
    text.extend_from_slice(b" ")?;
    text.extend_from_slice(law_word(law))?;
    text.extend_from_slice(b"\n")?;
    Ok(text)
}

/// Tells the verdict on a journal.
fn judge<K: Sink>(alloc: Global, journal: &Journal, output: &mut K) -> Result<u8, Stop>
    ensures { AnswersOrStops (judged journal.now) result (K.held output.old) (K.held output.new) (K.faults output.old) (K.faults output.new) }
{
    match lawful_journal(alloc, journal)? {
        Verdict::Lawful => tell(output, b"lawful\n", 0),
        Verdict::Broken { line, law } => {
            let text = broken_line(alloc, journal, line, law)?;
            tell(output, text.as_slice(), 1)
        }
    }
}

/// Answers a journal with the verdict on it, or tells its first bad line.
pub fn judge_text<K: Sink>(alloc: Global, text: &[u8], output: &mut K) -> Result<u8, Stop>
    ensures { AnswersOrStops (journal_answer (journal_told text.now)) result (K.held output.old) (K.held output.new) (K.faults output.old) (K.faults output.new) }
{
    match read_journal(alloc, text) {
        Ok(journal) => judge(alloc, &journal, output),
        Err(JournalFault::BadLine { line }) => refuse(alloc, Refusal::BadLine { line }, output),
        Err(JournalFault::TooManyLines) => refuse(alloc, Refusal::TooManyLines, output),
        Err(JournalFault::NoMemory) => Err(Stop::NoMemory),
    }
}
