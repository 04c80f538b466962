ghost use Rattle.std.specs.Prelude.{◌≡◌, [], ◌∷◌, length, map};
ghost use Rattle.std.specs.Option.{option_map, option_to_list};
ghost use Rattle.std.specs.List.{filter_map, flat_map};
ghost use Rattle.artery_wire.specs.Record.{field_of};
ghost use Rattle.artery_control.specs.declared.fault.ControlFault.TheVariants as faults;
ghost use Rattle.artery_base.specs.Words.{Gives};
ghost use Rattle.artery_control.specs.Outcome.{each_of, appended, is_memory, seen_by};
ghost use Rattle.artery_control.specs.Picking.{fields_in, bytes_in};
ghost use Rattle.artery_control.specs.Parts.{is_key};
ghost use Rattle.artery_wire.specs.Reading.{numbers_of};
ghost use Rattle.artery_control.specs.Message.{low32, keys_at, is_value, repeated_in, values_at, table_in};

use crate::fault::ControlFault;
use crate::fields::Fields;
use crate::packed::Packed;
use crate::parts::is_key_text;
use crate::path::Path;
use crate::picking::{Form, check_each, payload};
use crate::reading::{TWO_TO_32, Table, number, sequence, unique, version};
use artery_base::{Names, Text, Values};
use artery_wire::{Field, Value};
use std::alloc::Global;

/// Adds the text of an occurrence to the keys.
#[tactic(auto, unfolding(crate::specs::Outcome::each_of))]
fn add_key(
    alloc: Global,
    path: Path,
    text: Option<&[u8]>,
    keys: &mut Names,
) -> Result<(), ControlFault>
    ensures { Gives is_memory (seen_by (λ _. keys.new) result) (appended keys.old (each_of is_key (faults.BadText path) (option_to_list (option_map (λ p. p.now) text.entry)))) }
{
    let Some(text) = text else {
        return Ok(());
    };
    if !is_key_text(text) {
        return Err(ControlFault::BadText { path });
    }
    keys.push(Text::from_ascii(alloc, text)?)?;
    Ok(())
}

/// The keys of a table: all texts of the field, in order.
#[tactic(auto, using(crate::proofs::Gathers::keys_begin), unfolding(crate::specs::Message::keys_at, crate::proofs::Gathers::keys_from))]
fn table_keys(alloc: Global, path: Path, number: u8, bytes: &[u8]) -> Result<Names, ControlFault>
    ensures { Gives is_memory result (keys_at path number bytes.now) }
{
    let path = path.to(number);
    let mut keys = Names::new(alloc);
    let mut fields = Fields::new(bytes);
    while let Some(field) = fields.next() {
        add_key(alloc, path, payload(number, &field), &mut keys)?;
    }
    Ok(keys)
}

/// Adds a number to the values: its low 32 bits, which are at most 65,535.
#[tactic(auto, unfolding(crate::specs::Outcome::each_of))]
fn add_value(path: Path, number: u64, values: &mut Values) -> Result<(), ControlFault>
    ensures { Gives is_memory (seen_by (λ _. values.new) result) (appended values.old (each_of is_value (faults.Range path) (low32 number ∷ []))) }
{
    let value = number % TWO_TO_32;
    if value > u16::MAX as u64 {
        return Err(ControlFault::Range { path });
    }
    values.push(value as u16)?;
    Ok(())
}

/// Adds the numbers of a packed occurrence.
#[tactic(auto, using(crate::proofs::Gathers::numbers_begin), unfolding(crate::proofs::Gathers::numbers_from))]
fn add_packed(path: Path, packed: &[u8], values: &mut Values) -> Result<(), ControlFault>
    ensures { Gives is_memory (seen_by (λ _. values.new) result) (appended values.old (each_of is_value (faults.Range path) (map low32 (numbers_of packed.now).0))) }
{
    let mut numbers = Packed::new(packed);
    while let Some(number) = numbers.next() {
        add_value(path, number, values)?;
    }
    Ok(())
}

/// Adds the numbers of an occurrence, packed or not.
#[tactic(auto, unfolding(crate::specs::Outcome::each_of))]
fn add_values(
    path: Path,
    number: u8,
    field: &Field<'_>,
    values: &mut Values,
) -> Result<(), ControlFault>
    ensures { Gives is_memory (seen_by (λ _. values.new) result) (appended values.old (each_of is_value (faults.Range path) (repeated_in number (field_of field.now)))) }
{
    if field.number != number as u32 {
        return Ok(());
    }
    match field.value {
        Value::Varint(value) => add_value(path, value, values),
        Value::Bytes(packed) => add_packed(path, packed, values),
        _ => Ok(()),
    }
}

/// The values of a table: all numbers of the field, in order, packed or not.
#[tactic(auto, using(crate::proofs::Gathers::values_begin), unfolding(crate::specs::Message::values_at, crate::proofs::Gathers::values_from))]
fn table_values(alloc: Global, path: Path, number: u8, bytes: &[u8]) -> Result<Values, ControlFault>
    ensures { Gives is_memory result (values_at path number bytes.now) }
{
    let path = path.to(number);
    check_each(Form::Packed, path, number, bytes)?;
    let mut values = Values::new(alloc);
    let mut fields = Fields::new(bytes);
    while let Some(field) = fields.next() {
        add_values(path, number, &field, &mut values)?;
    }
    Ok(values)
}

/// A table and who announces it, with as many keys as values.
#[tactic(auto, unfolding(crate::specs::Message::table_in))]
pub(crate) fn table_message(alloc: Global, bytes: &[u8]) -> Result<Table, ControlFault>
    ensures { Gives is_memory result (table_in bytes.now) }
{
    let from = unique(alloc, Path::Message, 1, bytes)?;
    let origin_uid = number(Path::Message, 2, bytes)?;
    let version = version(Path::Message, 3, bytes)?;
    let keys = table_keys(alloc, Path::Message, 4, bytes)?;
    let values = table_values(alloc, Path::Message, 5, bytes)?;
    let sequence = sequence(Path::Message, 6, version, bytes)?;
    if keys.len() != values.len() {
        return Err(ControlFault::Unequal {
            keys: keys.len(),
            values: values.len(),
        });
    }
    Ok(Table {
        from,
        origin_uid,
        version,
        keys,
        values,
        sequence,
    })
}
