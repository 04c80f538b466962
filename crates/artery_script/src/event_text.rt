ghost use Rattle.std.specs.Prelude.{◌≡◌, Some, IfOk};
ghost use Rattle.artery_lines.specs.Lines.{Tells};
ghost use Rattle.artery_script.specs.declared.event.Event.{Event as EventValue};
ghost use Rattle.artery_script.specs.Valid.{IsEvent, EventHasBytes};
ghost use Rattle.artery_script.specs.Texts.{event_text};
ghost use Rattle.artery_script.specs.Reading.{Reads, two_numbers, uid_dials, cut_of, end_of, connection_named, event_named, by_word, event_of};

use crate::event::Event;
use crate::fields::{take_address, take_count, take_dials, take_moment, take_number, take_rounds};
use crate::laws::events_are_spelled;
use crate::request_text::take_request;
use artery_base::UniqueAddress;
use artery_lines::{LineFault, Tokens};
use std::alloc::Global;

fn take_two(fields: &mut Tokens<'_>) -> Result<(u64, u64), LineFault>
    ensures { Reads result fields.new (two_numbers fields.old) }
{
    let uid = take_number(fields)?;
    let number = take_number(fields)?;
    Ok((uid, number))
}

fn take_uid_dials(fields: &mut Tokens<'_>) -> Result<(u64, Option<u64>), LineFault>
    ensures { Reads result fields.new (uid_dials fields.old) }
{
    let uid = take_number(fields)?;
    let dials = take_dials(fields)?;
    Ok((uid, dials))
}

fn cut_of(uid: u64, dials: Option<u64>) -> Event
    ensures { result ≡ cut_of uid dials }
{
    match dials {
        Some(dial) => Event::Cut { uid, dial },
        None => Event::CutAll { uid },
    }
}

fn end_of(uid: u64, dials: Option<u64>) -> Event
    ensures { result ≡ end_of uid dials }
{
    match dials {
        Some(dial) => Event::End { uid, dial },
        None => Event::EndAll { uid },
    }
}

// An event of a dial or a connection, from the fields behind its word.
fn take_connection(word: &[u8], fields: &mut Tokens<'_>) -> Result<Event, LineFault>
    ensures { Reads result fields.new (connection_named word.now fields.old) }
{
    if word == b"answer".as_slice() {
        let (uid, dial) = take_two(fields)?;
        return Ok(Event::Answer { uid, dial });
    }
    if word == b"fail".as_slice() {
        let (uid, dial) = take_two(fields)?;
        return Ok(Event::Fail { uid, dial });
    }
    if word == b"carry".as_slice() {
        let (uid, dial) = take_two(fields)?;
        let count = take_count(fields)?;
        return Ok(Event::Carry { uid, dial, count });
    }
    if word == b"cut".as_slice() {
        let (uid, dials) = take_uid_dials(fields)?;
        return Ok(cut_of(uid, dials));
    }
    if word == b"end".as_slice() {
        let (uid, dials) = take_uid_dials(fields)?;
        return Ok(end_of(uid, dials));
    }
    if word == b"pass".as_slice() {
        let rounds = take_rounds(fields)?;
        return Ok(Event::Pass { rounds });
    }
    Err(LineFault::BadLine)
}

// An event, from the fields behind its word.
fn take_event_named(alloc: Global, word: &[u8], fields: &mut Tokens<'_>) -> Result<Event, LineFault>
    ensures { Reads result fields.new (event_named word.now fields.old) }
{
    if word == b"start".as_slice() {
        let address = take_address(alloc, fields)?;
        let uid = take_number(fields)?;
        return Ok(Event::Start {
            unique: UniqueAddress { address, uid },
        });
    }
    if word == b"stop".as_slice() {
        let uid = take_number(fields)?;
        return Ok(Event::Stop { uid });
    }
    if word == b"at".as_slice() {
        let uid = take_number(fields)?;
        let request = take_request(alloc, fields)?;
        return Ok(Event::At { uid, request });
    }
    if word == b"tick".as_slice() {
        let uid = take_number(fields)?;
        let moment = take_moment(fields)?;
        return Ok(Event::Tick { uid, moment });
    }
    take_connection(word, fields)
}

fn take_event(alloc: Global, fields: &mut Tokens<'_>) -> Result<Event, LineFault>
    ensures { Reads result fields.new (by_word event_named fields.old) }
{
    let Some(word) = fields.next() else {
        return Err(LineFault::BadLine);
    };
    take_event_named(alloc, word, fields)
}

fn event_from(alloc: Global, line: &[u8]) -> Result<Event, LineFault>
    ensures { Tells result (event_of line.now) }
{
    let mut fields = Tokens::new(line);
    let event = take_event(alloc, &mut fields)?;
    if !fields.is_empty() {
        return Err(LineFault::BadLine);
    }
    Ok(event)
}

/// The event that a line of a script tells, without its line feed: exactly the one whose only text
/// the line is. `BadLine` where the line tells none.
pub fn read_event(alloc: Global, line: &[u8]) -> Result<Event, LineFault>
    ensures exact { Tells result (event_of line.now) }
    ensures found { IfOk result (λ e. IsEvent e × (line.now ≡ event_text e)) }
    ensures only { (e : EventValue) → IsEvent e → EventHasBytes e → line.now ≡ event_text e → Tells result (Some e) }
{
    events_are_spelled();
    event_from(alloc, line)
}
