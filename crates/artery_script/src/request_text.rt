ghost use Rattle.std.specs.Prelude.{◌≡◌, ◌++◌, [], ◌∷◌, length, take, Bool, Some, IfOk, OnOk};
ghost use Rattle.artery_base.specs.declared.message.Request.{Request as RequestValue};
ghost use Rattle.artery_lines.specs.Lines.{Tells};
ghost use Rattle.artery_script.specs.Valid.{IsAsked, RequestHasBytes};
ghost use Rattle.artery_script.specs.Texts.{request_fields, asked_text, spaced};
ghost use Rattle.artery_script.specs.Reading.{Reads, bearing_named, request_named, bearing_in, request_in, asked_named, by_word, asked_of};

use crate::actor_text::{take_path, take_reference};
use crate::fields::take_address;
use crate::laws::requests_are_spelled;
use crate::message_text::{
    put_field, put_message, put_tell, put_word_address, take_message, take_tell,
};
use artery_base::{Bytes, NoMemory, Request};
use artery_lines::{LineFault, Tokens};
use std::alloc::Global;

#[tactic(auto, using(artery_base::proofs::Appending::keeps_front, artery_base::proofs::Appending::keeps_on))]
pub(crate) fn put_request(request: &Request, out: &mut Bytes) -> Result<(), NoMemory>
    ensures ok { OnOk result (out.new ≡ out.old ++ spaced (request_fields request.now)) }
    ensures kept { take (length out.old) out.new ≡ out.old }
{
    match request {
        Request::Pair { address } => put_word_address(b"pair", address, out),
        Request::Send { address, message } => {
            put_word_address(b"send", address, out)?;
            put_message(message, out)
        }
        Request::Tell { address, message } => {
            put_word_address(b"tell", address, out)?;
            put_tell(message, out)
        }
        Request::Watch { path, watchee } => {
            put_field(b"watch", out)?;
            put_field(path.as_slice(), out)?;
            put_field(watchee.as_slice(), out)
        }
        Request::Unwatch { path, watchee } => {
            put_field(b"unwatch", out)?;
            put_field(path.as_slice(), out)?;
            put_field(watchee.as_slice(), out)
        }
        Request::Spawn { path } => {
            put_field(b"spawn", out)?;
            put_field(path.as_slice(), out)
        }
        Request::Kill { path } => {
            put_field(b"kill", out)?;
            put_field(path.as_slice(), out)
        }
        Request::Quarantine { address } => put_word_address(b"quarantine", address, out),
    }
}

// A request that bears a message, from the fields behind its word.
fn take_bearing_named(
    alloc: Global,
    word: &[u8],
    fields: &mut Tokens<'_>,
) -> Result<Request, LineFault>
    ensures { Reads result fields.new (bearing_named word.now fields.old) }
{
    if word == b"send".as_slice() {
        let address = take_address(alloc, fields)?;
        let message = take_message(alloc, fields)?;
        return Ok(Request::Send { address, message });
    }
    if word == b"tell".as_slice() {
        let address = take_address(alloc, fields)?;
        let message = take_tell(alloc, fields)?;
        return Ok(Request::Tell { address, message });
    }
    Err(LineFault::BadLine)
}

// A request, from the fields behind its word.
fn take_request_named(
    alloc: Global,
    word: &[u8],
    fields: &mut Tokens<'_>,
) -> Result<Request, LineFault>
    ensures { Reads result fields.new (request_named word.now fields.old) }
{
    if word == b"pair".as_slice() {
        let address = take_address(alloc, fields)?;
        return Ok(Request::Pair { address });
    }
    if word == b"watch".as_slice() {
        let path = take_path(alloc, fields)?;
        let watchee = take_reference(alloc, fields)?;
        return Ok(Request::Watch { path, watchee });
    }
    if word == b"unwatch".as_slice() {
        let path = take_path(alloc, fields)?;
        let watchee = take_reference(alloc, fields)?;
        return Ok(Request::Unwatch { path, watchee });
    }
    if word == b"spawn".as_slice() {
        let path = take_path(alloc, fields)?;
        return Ok(Request::Spawn { path });
    }
    if word == b"kill".as_slice() {
        let path = take_path(alloc, fields)?;
        return Ok(Request::Kill { path });
    }
    if word == b"quarantine".as_slice() {
        let address = take_address(alloc, fields)?;
        return Ok(Request::Quarantine { address });
    }
    take_bearing_named(alloc, word, fields)
}

fn take_bearing(alloc: Global, fields: &mut Tokens<'_>) -> Result<Request, LineFault>
    ensures { Reads result fields.new (bearing_in fields.old) }
{
    let Some(word) = fields.next() else {
        return Err(LineFault::BadLine);
    };
    take_bearing_named(alloc, word, fields)
}

pub(crate) fn take_request(alloc: Global, fields: &mut Tokens<'_>) -> Result<Request, LineFault>
    ensures { Reads result fields.new (request_in fields.old) }
{
    let Some(word) = fields.next() else {
        return Err(LineFault::BadLine);
    };
    take_request_named(alloc, word, fields)
}

fn take_asked_named(
    alloc: Global,
    word: &[u8],
    fields: &mut Tokens<'_>,
) -> Result<(bool, Request), LineFault>
    ensures { Reads result fields.new (asked_named word.now fields.old) }
{
    if word == b"same".as_slice() {
        let request = take_bearing(alloc, fields)?;
        return Ok((true, request));
    }
    let request = take_request_named(alloc, word, fields)?;
    Ok((false, request))
}

fn take_asked(alloc: Global, fields: &mut Tokens<'_>) -> Result<(bool, Request), LineFault>
    ensures { Reads result fields.new (by_word asked_named fields.old) }
{
    let Some(word) = fields.next() else {
        return Err(LineFault::BadLine);
    };
    take_asked_named(alloc, word, fields)
}

fn asked_from(alloc: Global, line: &[u8]) -> Result<(bool, Request), LineFault>
    ensures { Tells result (asked_of line.now) }
{
    let mut fields = Tokens::new(line);
    let asked = take_asked(alloc, &mut fields)?;
    if !fields.is_empty() {
        return Err(LineFault::BadLine);
    }
    Ok(asked)
}

/// The request that a line of a node tells, without its line feed, and whether `same` stands before
/// it: exactly the one whose only text the line is. `same` may stand before `send` and `tell`.
/// `BadLine` where the line tells none.
pub fn read_request(alloc: Global, line: &[u8]) -> Result<(bool, Request), LineFault>
    ensures exact { Tells result (asked_of line.now) }
    ensures found { IfOk result (λ a. IsAsked a × (line.now ≡ asked_text a)) }
    ensures only { (a : Bool × RequestValue) → IsAsked a → RequestHasBytes a.1 → line.now ≡ asked_text a → Tells result (Some a) }
{
    requests_are_spelled();
    asked_from(alloc, line)
}
