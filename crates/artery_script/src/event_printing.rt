ghost use Rattle.std.specs.Prelude.{◌≡◌, ◌++◌, [], ◌∷◌, length, take, decimal, OnOk, OnErr};
ghost use Rattle.artery_script.specs.Texts.{event_text, spaced};

use crate::event::Event;
use crate::message_text::{put_address, put_field, put_number};
use crate::request_text::put_request;
use artery_base::{Bytes, NoMemory};

// The word of an event and a number.
#[tactic(auto, using(artery_base::proofs::Appending::keeps_front, artery_base::proofs::Appending::keeps_on))]
fn put_one(word: &[u8], number: u64, out: &mut Bytes) -> Result<(), NoMemory>
    ensures ok { OnOk result (out.new ≡ out.old ++ word.now ++ spaced (decimal number ∷ [])) }
    ensures kept { take (length out.old) out.new ≡ out.old }
{
    out.extend_from_slice(word)?;
    put_number(number, out)
}

// The same, and another number.
#[tactic(auto, using(artery_base::proofs::Appending::keeps_front, artery_base::proofs::Appending::keeps_on))]
fn put_two(word: &[u8], first: u64, second: u64, out: &mut Bytes) -> Result<(), NoMemory>
    ensures ok { OnOk result (out.new ≡ out.old ++ word.now ++ spaced (decimal first ∷ decimal second ∷ [])) }
    ensures kept { take (length out.old) out.new ≡ out.old }
{
    put_one(word, first, out)?;
    put_number(second, out)
}

#[tactic(auto, using(artery_base::proofs::Appending::keeps_front, artery_base::proofs::Appending::keeps_on))]
fn put_event(event: &Event, out: &mut Bytes) -> Result<(), NoMemory>
    ensures ok { OnOk result (out.new ≡ out.old ++ event_text event.now) }
    ensures kept { take (length out.old) out.new ≡ out.old }
{
    match event {
        Event::Start { unique } => {
            out.extend_from_slice(b"start")?;
            put_address(&unique.address, out)?;
            put_number(unique.uid, out)
        }
        Event::Stop { uid } => put_one(b"stop", *uid, out),
        Event::At { uid, request } => {
            put_one(b"at", *uid, out)?;
            put_request(request, out)
        }
        Event::Tick { uid, moment } => put_two(b"tick", *uid, *moment, out),
        Event::Answer { uid, dial } => put_two(b"answer", *uid, *dial, out),
        Event::Fail { uid, dial } => put_two(b"fail", *uid, *dial, out),
        Event::Carry { uid, dial, count } => {
            put_two(b"carry", *uid, *dial, out)?;
            put_number(*count, out)
        }
        Event::Cut { uid, dial } => put_two(b"cut", *uid, *dial, out),
        Event::End { uid, dial } => put_two(b"end", *uid, *dial, out),
        Event::CutAll { uid } => {
            put_one(b"cut", *uid, out)?;
            put_field(b"all", out)
        }
        Event::EndAll { uid } => {
            put_one(b"end", *uid, out)?;
            put_field(b"all", out)
        }
        Event::Pass { rounds } => put_one(b"pass", *rounds, out),
    }
}

/// Appends the line that tells the event, without its line feed. Without memory `out` stays as it
/// was.
pub fn print_event(event: &Event, out: &mut Bytes) -> Result<(), NoMemory>
    ensures ok { OnOk result (out.new ≡ out.old ++ event_text event.now) }
    ensures err { OnErr result (out.new ≡ out.old) }
{
    let before = out.len();
    let appended = put_event(event, out);
    out.settle(before, appended)
}
