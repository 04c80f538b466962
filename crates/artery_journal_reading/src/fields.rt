//! The fields of a line, taken one after the other.
ghost use Rattle.std.specs.Prelude.{◌≡◌, ◌+◌, ◌≤◌, ◌<◌, length, take, drop, position, Some, IfSome, IsTrue};
ghost use Rattle.std.specs.List.{list_all};
ghost use Rattle.artery_text.specs.Spelling.{is_plain};
ghost use Rattle.artery_text.specs.Reading.{number_of, int32_of};
ghost use Rattle.artery_lines.specs.Lines.{Tells};
ghost use Rattle.artery_script.specs.Valid.{is_actor_path};
ghost use Rattle.artery_script.specs.Reading.{Reads, field, address_told, word_told, hex_told, ascii_told, moment_told, actor_path_told, is_slash, path_start, actor_at, actor_told};
ghost use Rattle.artery_journal_reading.specs.Reading.{unique_told, name_told, nonce_told, kind_told, which_told, cause_told, reason_told, path_told};

use crate::path_text::path_from;
use crate::recent::Recent;
use crate::word_text::{cause_from, kind_from, reason_from, which_from};
use artery_base::{Address, Bytes, Text, UniqueAddress};
use artery_journal::{Cause, Kind, Path, Reason, Which};
use artery_lines::{LineFault, Tokens};
use artery_script::MOMENT_END;
use artery_text::{
    TextFault, read_address, read_hex, read_int32, read_number, read_word, spellings_are_read,
    text_of,
};
use std::alloc::Global;

#[tactic(auto, using(artery_script::proofs::Told::tells_address))]
fn address_from(alloc: Global, text: &[u8]) -> Result<Address, LineFault>
    ensures { Tells result (address_told text.now) }
{
    Ok(read_address(alloc, text)?)
}

// Whether a text is the word for its own bytes: most words are, and then need not be read byte by byte.
fn is_own_word(text: &[u8]) -> bool
    ensures { IsTrue result → word_told text.now ≡ Some text.now }
{
    spellings_are_read();
    if text == b"-".as_slice() {
        return false;
    }
    if text.is_empty() {
        return false;
    }
    if text[0] == b'@' {
        return false;
    }
    are_plain(text)
}

#[tactic(auto, using(artery_script::proofs::Told::tells_bytes))]
fn word_from(alloc: Global, text: &[u8]) -> Result<Bytes, LineFault>
    ensures { Tells result (word_told text.now) }
{
    if is_own_word(text) {
        return Ok(Bytes::from_slice(alloc, text)?);
    }
    Ok(read_word(alloc, text)?)
}

#[tactic(auto, using(artery_script::proofs::Told::tells_bytes))]
fn hex_from(alloc: Global, text: &[u8]) -> Result<Bytes, LineFault>
    ensures { Tells result (hex_told text.now) }
{
    Ok(read_hex(alloc, text)?)
}

fn ascii_from(alloc: Global, bytes: &[u8]) -> Result<Text, LineFault>
    ensures { Tells result (ascii_told bytes.now) }
{
    match text_of(alloc, bytes) {
        Ok(text) => Ok(text),
        Err(TextFault::NotAscii { at: _ }) => Err(LineFault::BadLine),
        Err(TextFault::NoMemory) => Err(LineFault::NoMemory),
    }
}

fn name_from(alloc: Global, text: &[u8]) -> Result<Text, LineFault>
    ensures { Tells result (name_told text.now) }
{
    if is_own_word(text) {
        return ascii_from(alloc, text);
    }
    let bytes = word_from(alloc, text)?;
    ascii_from(alloc, bytes.as_slice())
}

fn nonce_from(text: &[u8]) -> Option<Option<u64>>
    ensures { result ≡ nonce_told text.now }
{
    if text == b"-".as_slice() {
        return Some(None);
    }
    let nonce = read_number(text)?;
    Some(Some(nonce))
}

fn moment_from(text: &[u8]) -> Option<u64>
    ensures { result ≡ moment_told text.now }
{
    let moment = read_number(text)?;
    if moment < MOMENT_END {
        Some(moment)
    } else {
        None
    }
}

fn are_plain(text: &[u8]) -> bool
    ensures { result ≡ list_all is_plain text.now }
{
    text.iter()
        .all(|byte| matches!(*byte, 33..=126) && *byte != b'%')
}

fn is_actor_path(text: &[u8]) -> bool
    ensures { result ≡ is_actor_path text.now }
{
    text.len() > 1 && text[0] == b'/' && are_plain(text)
}

fn actor_path_from(alloc: Global, text: &[u8]) -> Result<Text, LineFault>
    ensures { Tells result (actor_path_told text.now) }
{
    if !is_actor_path(text) {
        return Err(LineFault::BadLine);
    }
    ascii_from(alloc, text)
}

fn find_slash(text: &[u8]) -> Option<usize>
    ensures found { result ≡ position is_slash text.now }
    ensures within { IfSome result (λ at. at < length text.now) }
{
    text.iter().position(|byte| *byte == b'/')
}

// Where the path begins behind its system's address: at the third slash.
fn path_start(text: &[u8]) -> Option<usize>
    ensures found { result ≡ path_start text.now }
    ensures within { IfSome result (λ at. at ≤ length text.now) }
{
    let first = find_slash(text)?;
    let rest = &text[first + 1..];
    let second = find_slash(rest)?;
    let rest = &rest[second + 1..];
    let third = find_slash(rest)?;
    Some(first + second + third + 2)
}

fn actor_at(alloc: Global, text: &[u8], at: usize) -> Result<Text, LineFault>
    requires { at ≤ length text.now }
    ensures { Tells result (actor_at text.now at) }
{
    let _address = address_from(alloc, &text[..at])?;
    if !is_actor_path(&text[at..]) {
        return Err(LineFault::BadLine);
    }
    ascii_from(alloc, text)
}

fn actor_from(alloc: Global, text: &[u8]) -> Result<Text, LineFault>
    ensures { Tells result (actor_told text.now) }
{
    let Some(at) = path_start(text) else {
        return Err(LineFault::BadLine);
    };
    actor_at(alloc, text, at)
}

pub(crate) fn take_unique<'a>(
    alloc: Global,
    recent: &mut Recent<'a>,
    fields: &mut Tokens<'a>,
) -> Result<UniqueAddress, LineFault>
    ensures { Reads result fields.new (field unique_told fields.old) }
{
    let Some(text) = fields.next() else {
        return Err(LineFault::BadLine);
    };
    let unique = recent.unique(alloc, text)?;
    Ok(unique)
}

pub(crate) fn take_word(alloc: Global, fields: &mut Tokens<'_>) -> Result<Bytes, LineFault>
    ensures { Reads result fields.new (field word_told fields.old) }
{
    let Some(text) = fields.next() else {
        return Err(LineFault::BadLine);
    };
    let word = word_from(alloc, text)?;
    Ok(word)
}

pub(crate) fn take_payload(alloc: Global, fields: &mut Tokens<'_>) -> Result<Bytes, LineFault>
    ensures { Reads result fields.new (field hex_told fields.old) }
{
    let Some(text) = fields.next() else {
        return Err(LineFault::BadLine);
    };
    let payload = hex_from(alloc, text)?;
    Ok(payload)
}

pub(crate) fn take_name(alloc: Global, fields: &mut Tokens<'_>) -> Result<Text, LineFault>
    ensures { Reads result fields.new (field name_told fields.old) }
{
    let Some(text) = fields.next() else {
        return Err(LineFault::BadLine);
    };
    let name = name_from(alloc, text)?;
    Ok(name)
}

pub(crate) fn take_actor_path(alloc: Global, fields: &mut Tokens<'_>) -> Result<Text, LineFault>
    ensures { Reads result fields.new (field actor_path_told fields.old) }
{
    let Some(text) = fields.next() else {
        return Err(LineFault::BadLine);
    };
    let actor_path = actor_path_from(alloc, text)?;
    Ok(actor_path)
}

pub(crate) fn take_actor(alloc: Global, fields: &mut Tokens<'_>) -> Result<Text, LineFault>
    ensures { Reads result fields.new (field actor_told fields.old) }
{
    let Some(text) = fields.next() else {
        return Err(LineFault::BadLine);
    };
    let actor = actor_from(alloc, text)?;
    Ok(actor)
}

pub(crate) fn take_number(fields: &mut Tokens<'_>) -> Result<u64, LineFault>
    ensures { Reads result fields.new (field number_of fields.old) }
{
    let Some(text) = fields.next() else {
        return Err(LineFault::BadLine);
    };
    let Some(number) = read_number(text) else {
        return Err(LineFault::BadLine);
    };
    Ok(number)
}

pub(crate) fn take_serializer(fields: &mut Tokens<'_>) -> Result<i32, LineFault>
    ensures { Reads result fields.new (field int32_of fields.old) }
{
    let Some(text) = fields.next() else {
        return Err(LineFault::BadLine);
    };
    let Some(serializer) = read_int32(text) else {
        return Err(LineFault::BadLine);
    };
    Ok(serializer)
}

pub(crate) fn take_nonce(fields: &mut Tokens<'_>) -> Result<Option<u64>, LineFault>
    ensures { Reads result fields.new (field nonce_told fields.old) }
{
    let Some(text) = fields.next() else {
        return Err(LineFault::BadLine);
    };
    let Some(nonce) = nonce_from(text) else {
        return Err(LineFault::BadLine);
    };
    Ok(nonce)
}

pub(crate) fn take_moment(fields: &mut Tokens<'_>) -> Result<u64, LineFault>
    ensures { Reads result fields.new (field moment_told fields.old) }
{
    let Some(text) = fields.next() else {
        return Err(LineFault::BadLine);
    };
    let Some(moment) = moment_from(text) else {
        return Err(LineFault::BadLine);
    };
    Ok(moment)
}

pub(crate) fn take_path(fields: &mut Tokens<'_>) -> Result<Path, LineFault>
    ensures { Reads result fields.new (field path_told fields.old) }
{
    let Some(text) = fields.next() else {
        return Err(LineFault::BadLine);
    };
    let Some(path) = path_from(text) else {
        return Err(LineFault::BadLine);
    };
    Ok(path)
}

pub(crate) fn take_kind(fields: &mut Tokens<'_>) -> Result<Kind, LineFault>
    ensures { Reads result fields.new (field kind_told fields.old) }
{
    let Some(text) = fields.next() else {
        return Err(LineFault::BadLine);
    };
    let Some(kind) = kind_from(text) else {
        return Err(LineFault::BadLine);
    };
    Ok(kind)
}

pub(crate) fn take_which(fields: &mut Tokens<'_>) -> Result<Which, LineFault>
    ensures { Reads result fields.new (field which_told fields.old) }
{
    let Some(text) = fields.next() else {
        return Err(LineFault::BadLine);
    };
    let Some(which) = which_from(text) else {
        return Err(LineFault::BadLine);
    };
    Ok(which)
}

pub(crate) fn take_cause(fields: &mut Tokens<'_>) -> Result<Cause, LineFault>
    ensures { Reads result fields.new (field cause_told fields.old) }
{
    let Some(text) = fields.next() else {
        return Err(LineFault::BadLine);
    };
    let Some(cause) = cause_from(text) else {
        return Err(LineFault::BadLine);
    };
    Ok(cause)
}

pub(crate) fn take_reason(fields: &mut Tokens<'_>) -> Result<Reason, LineFault>
    ensures { Reads result fields.new (field reason_told fields.old) }
{
    let Some(text) = fields.next() else {
        return Err(LineFault::BadLine);
    };
    let Some(reason) = reason_from(text) else {
        return Err(LineFault::BadLine);
    };
    Ok(reason)
}
