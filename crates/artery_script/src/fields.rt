//! The fields of a line, taken one after the other.
ghost use Rattle.std.specs.Prelude.{◌≡◌};
ghost use Rattle.artery_text.specs.Reading.{number_of, int32_of};
ghost use Rattle.artery_lines.specs.Lines.{Tells};
ghost use Rattle.artery_script.specs.Reading.{Reads, field, address_told, word_told, hex_told, ascii_told, manifest_told, payload_told, name_told, ordinary_told, moment_told, count_told, rounds_told, dials_told};

use crate::limits::{MOMENT_END, MOST_NAME, MOST_PAYLOAD, MOST_ROUNDS};
use artery_base::{Address, Bytes, Text};
use artery_lines::{LineFault, Tokens};
use artery_text::{TextFault, read_address, read_hex, read_int32, read_number, read_word, text_of};
use std::alloc::Global;

/// The serializer of control messages, which no ordinary message has.
const CONTROL_SERIALIZER: i32 = 17;

#[tactic(auto, using(crate::proofs::Told::tells_address))]
pub(crate) fn address_from(alloc: Global, text: &[u8]) -> Result<Address, LineFault>
    ensures { Tells result (address_told text.now) }
{
    Ok(read_address(alloc, text)?)
}

#[tactic(auto, using(crate::proofs::Told::tells_bytes))]
fn word_from(alloc: Global, text: &[u8]) -> Result<Bytes, LineFault>
    ensures { Tells result (word_told text.now) }
{
    Ok(read_word(alloc, text)?)
}

#[tactic(auto, using(crate::proofs::Told::tells_bytes))]
fn hex_from(alloc: Global, text: &[u8]) -> Result<Bytes, LineFault>
    ensures { Tells result (hex_told text.now) }
{
    Ok(read_hex(alloc, text)?)
}

pub(crate) fn ascii_from(alloc: Global, bytes: &[u8]) -> Result<Text, LineFault>
    ensures { Tells result (ascii_told bytes.now) }
{
    match text_of(alloc, bytes) {
        Ok(text) => Ok(text),
        Err(TextFault::NotAscii { at: _ }) => Err(LineFault::BadLine),
        Err(TextFault::NoMemory) => Err(LineFault::NoMemory),
    }
}

fn manifest_from(alloc: Global, text: &[u8]) -> Result<Bytes, LineFault>
    ensures { Tells result (manifest_told text.now) }
{
    let manifest = word_from(alloc, text)?;
    if manifest.len() > MOST_NAME {
        return Err(LineFault::BadLine);
    }
    Ok(manifest)
}

fn payload_from(alloc: Global, text: &[u8]) -> Result<Bytes, LineFault>
    ensures { Tells result (payload_told text.now) }
{
    let payload = hex_from(alloc, text)?;
    if payload.len() > MOST_PAYLOAD {
        return Err(LineFault::BadLine);
    }
    Ok(payload)
}

fn name_from(alloc: Global, text: &[u8]) -> Result<Text, LineFault>
    ensures { Tells result (name_told text.now) }
{
    let bytes = manifest_from(alloc, text)?;
    ascii_from(alloc, bytes.as_slice())
}

fn ordinary_from(text: &[u8]) -> Option<i32>
    ensures { result ≡ ordinary_told text.now }
{
    let serializer = read_int32(text)?;
    if serializer == CONTROL_SERIALIZER {
        return None;
    }
    Some(serializer)
}

fn moment_from(text: &[u8]) -> Option<u64>
    ensures { result ≡ moment_told text.now }
{
    let moment = read_number(text)?;
    if moment < MOMENT_END {
        Some(moment)
    } else {
        None
    }
}

fn count_from(text: &[u8]) -> Option<u64>
    ensures { result ≡ count_told text.now }
{
    let count = read_number(text)?;
    if count == 0 {
        return None;
    }
    Some(count)
}

fn rounds_from(text: &[u8]) -> Option<u64>
    ensures { result ≡ rounds_told text.now }
{
    let rounds = read_number(text)?;
    if rounds == 0 {
        return None;
    }
    if rounds > MOST_ROUNDS {
        return None;
    }
    Some(rounds)
}

fn dials_from(text: &[u8]) -> Option<Option<u64>>
    ensures { result ≡ dials_told text.now }
{
    if text == b"all".as_slice() {
        return Some(None);
    }
    let dial = read_number(text)?;
    Some(Some(dial))
}

pub(crate) fn take_address(alloc: Global, fields: &mut Tokens<'_>) -> Result<Address, LineFault>
    ensures { Reads result fields.new (field address_told fields.old) }
{
    let Some(text) = fields.next() else {
        return Err(LineFault::BadLine);
    };
    let address = address_from(alloc, text)?;
    Ok(address)
}

pub(crate) fn take_manifest(alloc: Global, fields: &mut Tokens<'_>) -> Result<Bytes, LineFault>
    ensures { Reads result fields.new (field manifest_told fields.old) }
{
    let Some(text) = fields.next() else {
        return Err(LineFault::BadLine);
    };
    let manifest = manifest_from(alloc, text)?;
    Ok(manifest)
}

pub(crate) fn take_payload(alloc: Global, fields: &mut Tokens<'_>) -> Result<Bytes, LineFault>
    ensures { Reads result fields.new (field payload_told fields.old) }
{
    let Some(text) = fields.next() else {
        return Err(LineFault::BadLine);
    };
    let payload = payload_from(alloc, text)?;
    Ok(payload)
}

pub(crate) fn take_name(alloc: Global, fields: &mut Tokens<'_>) -> Result<Text, LineFault>
    ensures { Reads result fields.new (field name_told fields.old) }
{
    let Some(text) = fields.next() else {
        return Err(LineFault::BadLine);
    };
    let name = name_from(alloc, text)?;
    Ok(name)
}

pub(crate) fn take_serializer(fields: &mut Tokens<'_>) -> Result<i32, LineFault>
    ensures { Reads result fields.new (field int32_of fields.old) }
{
    let Some(text) = fields.next() else {
        return Err(LineFault::BadLine);
    };
    let Some(serializer) = read_int32(text) else {
        return Err(LineFault::BadLine);
    };
    Ok(serializer)
}

pub(crate) fn take_ordinary(fields: &mut Tokens<'_>) -> Result<i32, LineFault>
    ensures { Reads result fields.new (field ordinary_told fields.old) }
{
    let Some(text) = fields.next() else {
        return Err(LineFault::BadLine);
    };
    let Some(serializer) = ordinary_from(text) else {
        return Err(LineFault::BadLine);
    };
    Ok(serializer)
}

pub(crate) fn take_number(fields: &mut Tokens<'_>) -> Result<u64, LineFault>
    ensures { Reads result fields.new (field number_of fields.old) }
{
    let Some(text) = fields.next() else {
        return Err(LineFault::BadLine);
    };
    let Some(number) = read_number(text) else {
        return Err(LineFault::BadLine);
    };
    Ok(number)
}

pub(crate) fn take_moment(fields: &mut Tokens<'_>) -> Result<u64, LineFault>
    ensures { Reads result fields.new (field moment_told fields.old) }
{
    let Some(text) = fields.next() else {
        return Err(LineFault::BadLine);
    };
    let Some(moment) = moment_from(text) else {
        return Err(LineFault::BadLine);
    };
    Ok(moment)
}

pub(crate) fn take_count(fields: &mut Tokens<'_>) -> Result<u64, LineFault>
    ensures { Reads result fields.new (field count_told fields.old) }
{
    let Some(text) = fields.next() else {
        return Err(LineFault::BadLine);
    };
    let Some(count) = count_from(text) else {
        return Err(LineFault::BadLine);
    };
    Ok(count)
}

pub(crate) fn take_rounds(fields: &mut Tokens<'_>) -> Result<u64, LineFault>
    ensures { Reads result fields.new (field rounds_told fields.old) }
{
    let Some(text) = fields.next() else {
        return Err(LineFault::BadLine);
    };
    let Some(rounds) = rounds_from(text) else {
        return Err(LineFault::BadLine);
    };
    Ok(rounds)
}

pub(crate) fn take_dials(fields: &mut Tokens<'_>) -> Result<Option<u64>, LineFault>
    ensures { Reads result fields.new (field dials_told fields.old) }
{
    let Some(text) = fields.next() else {
        return Err(LineFault::BadLine);
    };
    let Some(dials) = dials_from(text) else {
        return Err(LineFault::BadLine);
    };
    Ok(dials)
}
