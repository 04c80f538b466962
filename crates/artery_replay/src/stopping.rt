//! Why a run stopped.
ghost use Rattle.std.specs.Prelude.{◌≡◌, ◌++◌, codes, decimal, IfOk};
ghost use Rattle.artery_replay.specs.Texts.{limit_word, stop_status, stop_text, why_word};
ghost use Rattle.artery_machine.specs.declared.world.WorldFault.TheVariants.{NoMemory as without_memory};

use artery_base::{Bytes, NoMemory};
use artery_machine::{Why, WorldFault, WorldLimit};
use artery_text::print_number;
use std::alloc::Global;

/// The word for an event that is not allowed.
fn why_word(why: Why) -> &'static [u8]
    ensures { result.now ≡ why_word why }
{
    match why {
        Why::UsedUid => b"used-uid",
        Why::AddressLive => b"address-live",
        Why::NotLive => b"not-live",
        Why::OwnAddress => b"own-address",
        Why::MomentBack => b"moment-back",
        Why::NoDial => b"no-dial",
        Why::Nobody => b"nobody",
        Why::NoConnection => b"no-connection",
        Why::FarEnded => b"far-ended",
        Why::NearEnded => b"near-ended",
        Why::TooMany => b"too-many",
        Why::NotStarted => b"not-started",
    }
}

/// The word for a limit.
fn limit_word(which: WorldLimit) -> &'static [u8]
    ensures { result.now ≡ limit_word which }
{
    match which {
        WorldLimit::Nodes => b"nodes",
        WorldLimit::Undelivered => b"undelivered",
        WorldLimit::Connections => b"connections",
    }
}

/// A fault line with a verb and a word.
fn told(alloc: Global, line: u64, verb: &[u8], word: &[u8]) -> Result<Bytes, NoMemory>
    ensures { IfOk result (λ text. text ≡ codes "fault line " ++ decimal line ++ verb.now ++ word.now ++ codes "\n") }
{
    let mut text = Bytes::new(alloc);
    text.extend_from_slice(b"fault line ")?;
    print_number(line, &mut text)?;
    text.extend_from_slice(verb)?;
    text.extend_from_slice(word)?;
    text.extend_from_slice(b"\n")?;
    Ok(text)
}

/// The line that tells at which line of its script a run stopped, and why.
pub fn stop_text(alloc: Global, line: u64, fault: WorldFault) -> Result<Bytes, NoMemory>
    ensures { IfOk result (λ text. text ≡ stop_text line fault) }
{
    match fault {
        WorldFault::NotAllowed { why } => told(alloc, line, b" not-allowed ", why_word(why)),
        WorldFault::Limit { which } => told(alloc, line, b" limit ", limit_word(which)),
        WorldFault::NoMemory => Bytes::from_slice(alloc, b"fault memory\n"),
    }
}

/// The status of a run that stopped.
pub fn stop_status(fault: WorldFault) -> u8
    ensures value { result ≡ stop_status fault }
    ensures plain { (result ≡ 3 → ⊥) × (result ≡ 4 → ⊥) × (result ≡ 9 → fault ≡ without_memory) }
{
    match fault {
        WorldFault::NotAllowed { .. } => 5,
        WorldFault::Limit { .. } => 6,
        WorldFault::NoMemory => 9,
    }
}
