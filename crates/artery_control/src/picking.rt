ghost use Rattle.std.specs.Prelude.{◌≡◌, ◌++◌, [], IfOk, IfSome};
ghost use Rattle.std.specs.Option.{option_map};
ghost use Rattle.artery_wire.specs.Record.{field_of};
ghost use Rattle.artery_base.specs.Words.{Gives};
ghost use Rattle.artery_control.specs.Outcome.{to_field, is_memory, seen_by};
ghost use Rattle.artery_control.specs.Picking.{fields_in, varint_in, bytes_in, last_number, last_payload, sound, packed_sound, sound_as, where_present, each_payload, joined, embedded};
ghost use Rattle.artery_control.specs.Embedded.{bytes_of};

use crate::fault::ControlFault;
use crate::fields::Fields;
use crate::path::Path;
use crate::record::Record;
use artery_base::{Bytes, NoMemory};
use artery_wire::{Cursor, Field, Value};
use std::alloc::Global;

/// What the payload of a field is.
#[derive(Clone, Copy)]
pub(crate) enum Form {
    /// A record.
    Record,
    /// A packed list of numbers.
    Packed,
}

/// The number of the field, where it has this field number and is a varint.
pub(crate) fn varint(number: u8, field: &Field<'_>) -> Option<u64>
    ensures { result ≡ varint_in number (field_of field.now) }
{
    match field.value {
        Value::Varint(value) if field.number == number as u32 => Some(value),
        _ => None,
    }
}

/// The payload of the field, where it has this field number and is a payload.
pub(crate) fn payload<'a>(number: u8, field: &Field<'a>) -> Option<&'a [u8]>
    ensures { option_map (λ p. p.now) result ≡ bytes_in number (field_of field.now) }
{
    match field.value {
        Value::Bytes(payload) if field.number == number as u32 => Some(payload),
        _ => None,
    }
}

/// The last number of the field: of several scalars the last one counts.
#[tactic(auto, using(crate::proofs::Picks::last_steps))]
pub(crate) fn last_varint(number: u8, bytes: &[u8]) -> Option<u64>
    ensures { result ≡ last_number number bytes.now }
{
    let mut fields = Fields::new(bytes);
    let mut last = None;
    while let Some(field) = fields.next() {
        last = varint(number, &field).or(last);
    }
    last
}

/// The last payload of the field.
#[tactic(auto, using(crate::proofs::Picks::last_steps))]
pub(crate) fn last_bytes(number: u8, bytes: &[u8]) -> Option<&[u8]>
    ensures { option_map (λ p. p.now) result ≡ last_payload number bytes.now }
{
    let mut fields = Fields::new(bytes);
    let mut last = None;
    while let Some(field) = fields.next() {
        last = payload(number, &field).or(last);
    }
    last
}

/// The first wire fault of a record, as one at the path.
#[tactic(auto, unfolding(crate::specs::Picking::sound))]
pub(crate) fn check_record(path: Path, bytes: &[u8]) -> Result<(), ControlFault>
    ensures { Gives is_memory result (sound path bytes.now) }
{
    let mut cursor = Cursor::new(bytes);
    loop {
        match cursor.next_field() {
            Ok(Some(_)) => {}
            Ok(None) => return Ok(()),
            Err(fault) => return Err(ControlFault::Wire { path, fault }),
        }
    }
}

/// The first wire fault of a packed list, as one at the path.
#[tactic(auto, unfolding(crate::specs::Picking::packed_sound))]
fn check_packed(path: Path, bytes: &[u8]) -> Result<(), ControlFault>
    ensures { Gives is_memory result (packed_sound path bytes.now) }
{
    let mut cursor = Cursor::new(bytes);
    loop {
        match cursor.next_packed() {
            Ok(Some(_)) => {}
            Ok(None) => return Ok(()),
            Err(fault) => return Err(ControlFault::Wire { path, fault }),
        }
    }
}

/// A payload has its form.
fn check(form: Form, path: Path, payload: &[u8]) -> Result<(), ControlFault>
    ensures { Gives is_memory result (sound_as form path payload.now) }
{
    match form {
        Form::Record => check_record(path, payload),
        Form::Packed => check_packed(path, payload),
    }
}

/// An occurrence that is there has its form.
fn check_occurrence(form: Form, path: Path, payload: Option<&[u8]>) -> Result<(), ControlFault>
    ensures { Gives is_memory result (where_present (sound_as form path) (option_map (λ p. p.now) payload.entry)) }
{
    match payload {
        Some(payload) => check(form, path, payload),
        None => Ok(()),
    }
}

/// Each occurrence of a field has its form by itself.
#[tactic(auto, unfolding(crate::specs::Picking::each_payload))]
pub(crate) fn check_each(
    form: Form,
    path: Path,
    number: u8,
    bytes: &[u8],
) -> Result<(), ControlFault>
    ensures { Gives is_memory result (each_payload (sound_as form path) number (fields_in bytes.now)) }
{
    let mut fields = Fields::new(bytes);
    while let Some(field) = fields.next() {
        check_occurrence(form, path, payload(number, &field))?;
    }
    Ok(())
}

/// The payloads of all occurrences of a field, one after the other.
#[tactic(auto, unfolding(crate::specs::Picking::joined))]
fn joined_bytes(alloc: Global, number: u8, bytes: &[u8]) -> Result<Bytes, NoMemory>
    ensures { IfOk result (λ b. b ≡ joined number (fields_in bytes.now)) }
{
    let mut fields = Fields::new(bytes);
    let mut record = Bytes::new(alloc);
    while let Some(field) = fields.next() {
        record.extend_from_slice(payload(number, &field).unwrap_or(&[]))?;
    }
    Ok(record)
}

/// The payload of a field that occurs once.
#[tactic(auto, using(crate::proofs::Picks::alone), unfolding(crate::specs::Picking::joined))]
fn only_bytes(number: u8, bytes: &[u8]) -> Option<&[u8]>
    ensures { IfSome result (λ p. p.now ≡ joined number (fields_in bytes.now)) }
{
    let mut fields = Fields::new(bytes);
    let mut only = None;
    while let Some(field) = fields.next() {
        if let Some(payload) = payload(number, &field) {
            if only.is_some() {
                return None;
            }
            only = Some(payload);
        }
    }
    only
}

/// The record of an embedded message, whose occurrences are merged; of a single one it is the payload itself.
#[tactic(auto, unfolding(crate::specs::Picking::embedded))]
pub(crate) fn embedded_record<'a>(
    alloc: Global,
    path: Path,
    number: u8,
    bytes: &'a [u8],
) -> Result<Record<'a>, ControlFault>
    ensures { Gives is_memory (seen_by bytes_of result) (embedded path number bytes.now) }
{
    let path = path.to(number);
    if last_bytes(number, bytes).is_none() {
        return Err(ControlFault::Missing { path });
    }
    check_each(Form::Record, path, number, bytes)?;
    if let Some(payload) = only_bytes(number, bytes) {
        return Ok(Record::InPlace(payload));
    }
    let record = joined_bytes(alloc, number, bytes)?;
    Ok(Record::Merged(record))
}
