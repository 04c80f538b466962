//! Faults of control messages, as text.
ghost use Rattle.std.specs.Prelude.{◌≡◌};
ghost use Rattle.artery_script.specs.Reading.{Reads};
ghost use Rattle.artery_journal_reading.specs.Reading.{place_path, field_fault_named, fault_named, fault_in};

use crate::fields::{take_number, take_path};
use artery_journal::{Fault, Path};
use artery_lines::{LineFault, Tokens};

fn take_place_path(fields: &mut Tokens<'_>) -> Result<(u64, Path), LineFault>
    ensures { Reads result fields.new (place_path fields.old) }
{
    let at = take_number(fields)?;
    let path = take_path(fields)?;
    Ok((at, path))
}

// A fault of a field, or one of the others, from the fields behind its word.
#[tactic(auto, unfolding(crate::specs::Reading::field_fault_named))]
fn take_field_fault(word: &[u8], fields: &mut Tokens<'_>) -> Result<Fault, LineFault>
    ensures { Reads result fields.new (field_fault_named word.now fields.old) }
{
    if word == b"missing".as_slice() {
        let path = take_path(fields)?;
        return Ok(Fault::Missing { path });
    }
    if word == b"bad-text".as_slice() {
        let path = take_path(fields)?;
        return Ok(Fault::BadText { path });
    }
    if word == b"range".as_slice() {
        let path = take_path(fields)?;
        return Ok(Fault::Range { path });
    }
    if word == b"unequal".as_slice() {
        let keys = take_number(fields)?;
        let values = take_number(fields)?;
        return Ok(Fault::Unequal { keys, values });
    }
    if word == b"unknown-manifest".as_slice() {
        return Ok(Fault::UnknownManifest);
    }
    Err(LineFault::BadLine)
}

// A fault, from the fields behind its word.
#[tactic(auto, unfolding(crate::specs::Reading::fault_named))]
fn take_fault_named(word: &[u8], fields: &mut Tokens<'_>) -> Result<Fault, LineFault>
    ensures { Reads result fields.new (fault_named word.now fields.old) }
{
    if word == b"varint".as_slice() {
        let (at, path) = take_place_path(fields)?;
        return Ok(Fault::Varint { at, path });
    }
    if word == b"wire-type".as_slice() {
        let (at, path) = take_place_path(fields)?;
        return Ok(Fault::WireType { at, path });
    }
    if word == b"truncated".as_slice() {
        let (at, path) = take_place_path(fields)?;
        return Ok(Fault::Truncated { at, path });
    }
    if word == b"field-number".as_slice() {
        let (at, path) = take_place_path(fields)?;
        return Ok(Fault::FieldNumber { at, path });
    }
    take_field_fault(word, fields)
}

pub(crate) fn take_fault(fields: &mut Tokens<'_>) -> Result<Fault, LineFault>
    ensures { Reads result fields.new (fault_in fields.old) }
{
    let Some(word) = fields.next() else {
        return Err(LineFault::BadLine);
    };
    take_fault_named(word, fields)
}
