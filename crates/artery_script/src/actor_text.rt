//! Actors, as text: the path of an actor, and a system's address with a path behind it.
ghost use Rattle.std.specs.Prelude.{◌≡◌, ◌+◌, ◌≤◌, ◌<◌, length, take, drop, position, IfSome};
ghost use Rattle.std.specs.List.{list_all};
ghost use Rattle.artery_text.specs.Spelling.{is_plain};
ghost use Rattle.artery_lines.specs.Lines.{Tells};
ghost use Rattle.artery_script.specs.Valid.{is_actor_path};
ghost use Rattle.artery_script.specs.Reading.{Reads, field, actor_path_told, path_told, is_slash, path_start, actor_at, actor_told, reference_told};

use crate::fields::{address_from, ascii_from};
use crate::limits::{MOST_PATH, MOST_REFERENCE};
use artery_base::Text;
use artery_lines::{LineFault, Tokens};
use std::alloc::Global;

fn are_plain(text: &[u8]) -> bool
    ensures { result ≡ list_all is_plain text.now }
{
    text.iter()
        .all(|byte| matches!(*byte, 33..=126) && *byte != b'%')
}

fn is_actor_path(text: &[u8]) -> bool
    ensures { result ≡ is_actor_path text.now }
{
    text.len() > 1 && text[0] == b'/' && are_plain(text)
}

fn actor_path_from(alloc: Global, text: &[u8]) -> Result<Text, LineFault>
    ensures { Tells result (actor_path_told text.now) }
{
    if !is_actor_path(text) {
        return Err(LineFault::BadLine);
    }
    ascii_from(alloc, text)
}

fn path_from(alloc: Global, text: &[u8]) -> Result<Text, LineFault>
    ensures { Tells result (path_told text.now) }
{
    let path = actor_path_from(alloc, text)?;
    if path.len() > MOST_PATH {
        return Err(LineFault::BadLine);
    }
    Ok(path)
}

fn find_slash(text: &[u8]) -> Option<usize>
    ensures found { result ≡ position is_slash text.now }
    ensures within { IfSome result (λ at. at < length text.now) }
{
    text.iter().position(|byte| *byte == b'/')
}

fn path_start(text: &[u8]) -> Option<usize>
    ensures found { result ≡ path_start text.now }
    ensures within { IfSome result (λ at. at ≤ length text.now) }
{
    let first = find_slash(text)?;
    let rest = &text[first + 1..];
    let second = find_slash(rest)?;
    let rest = &rest[second + 1..];
    let third = find_slash(rest)?;
    Some(first + second + third + 2)
}

fn actor_at(alloc: Global, text: &[u8], at: usize) -> Result<Text, LineFault>
    requires { at ≤ length text.now }
    ensures { Tells result (actor_at text.now at) }
{
    let _address = address_from(alloc, &text[..at])?;
    if !is_actor_path(&text[at..]) {
        return Err(LineFault::BadLine);
    }
    ascii_from(alloc, text)
}

fn actor_from(alloc: Global, text: &[u8]) -> Result<Text, LineFault>
    ensures { Tells result (actor_told text.now) }
{
    let Some(at) = path_start(text) else {
        return Err(LineFault::BadLine);
    };
    actor_at(alloc, text, at)
}

fn reference_from(alloc: Global, text: &[u8]) -> Result<Text, LineFault>
    ensures { Tells result (reference_told text.now) }
{
    let actor = actor_from(alloc, text)?;
    if actor.len() > MOST_REFERENCE {
        return Err(LineFault::BadLine);
    }
    Ok(actor)
}

pub(crate) fn take_path(alloc: Global, fields: &mut Tokens<'_>) -> Result<Text, LineFault>
    ensures { Reads result fields.new (field path_told fields.old) }
{
    let Some(text) = fields.next() else {
        return Err(LineFault::BadLine);
    };
    let path = path_from(alloc, text)?;
    Ok(path)
}

pub(crate) fn take_reference(alloc: Global, fields: &mut Tokens<'_>) -> Result<Text, LineFault>
    ensures { Reads result fields.new (field reference_told fields.old) }
{
    let Some(text) = fields.next() else {
        return Err(LineFault::BadLine);
    };
    let actor = reference_from(alloc, text)?;
    Ok(actor)
}
