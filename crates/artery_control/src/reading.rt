ghost use Rattle.std.specs.Prelude.{◌≡◌, ◌≤◌, IfOk};
ghost use Rattle.std.specs.Option.{option_map};
ghost use Rattle.artery_wire.specs.Record.{field_of};
ghost use Rattle.artery_base.specs.Words.{Gives};
ghost use Rattle.artery_control.specs.Outcome.{to_field, is_memory};
ghost use Rattle.artery_control.specs.Message.{number_at, ranged, ranged_at, part_text, part_at, address_in, address_at, unique_in, unique_at, agreeing, sequence_at, table_ack_in, counted_in};

use crate::fault::ControlFault;
use crate::parts::is_part_text;
use crate::path::Path;
use crate::picking::{embedded_record, last_bytes, last_varint};
use artery_base::{Address, Names, Text, UniqueAddress, Values};
use std::alloc::Global;

/// A table and who announces it.
#[derive(Drop)]
pub(crate) struct Table {
    pub(crate) from: UniqueAddress,
    pub(crate) origin_uid: u64,
    pub(crate) version: u8,
    pub(crate) keys: Names,
    pub(crate) values: Values,
    pub(crate) sequence: Option<u64>,
}

/// An adopted table and who adopted it.
#[derive(Drop)]
pub(crate) struct TableAck {
    pub(crate) from: UniqueAddress,
    pub(crate) version: u8,
    pub(crate) sequence: Option<u64>,
}

/// A number and who tells it.
#[derive(Drop)]
pub(crate) struct Counted {
    pub(crate) n: u64,
    pub(crate) from: UniqueAddress,
}

/// What a 32-bit number is below.
pub(crate) const TWO_TO_32: u64 = 0x1_0000_0000;

/// How many versions there are but 0: after the last the first comes again.
const VERSIONS: u64 = 127;

/// A required number.
#[tactic(auto, unfolding(crate::specs::Message::number_at))]
pub(crate) fn number(path: Path, number: u8, bytes: &[u8]) -> Result<u64, ControlFault>
    ensures { Gives is_memory result (number_at path number bytes.now) }
{
    match last_varint(number, bytes) {
        Some(value) => Ok(value),
        None => Err(ControlFault::Missing {
            path: path.to(number),
        }),
    }
}

/// A required 32-bit number of a range: the low 32 bits of its varint.
#[tactic(auto, unfolding(crate::specs::Message::ranged_at))]
fn ranged_number(
    path: Path,
    field: u8,
    least: u16,
    most: u16,
    bytes: &[u8],
) -> Result<u16, ControlFault>
    ensures value { Gives is_memory result (ranged_at path field least most bytes.now) }
    ensures within { IfOk result (λ n. n ≤ most) }
{
    let value = number(path, field, bytes)? % TWO_TO_32;
    if (least as u64) <= value && value <= most as u64 {
        Ok(value as u16)
    } else {
        Err(ControlFault::Range {
            path: path.to(field),
        })
    }
}

/// A required part of an address.
#[tactic(auto, unfolding(crate::specs::Message::part_at))]
fn part(alloc: Global, path: Path, number: u8, bytes: &[u8]) -> Result<Text, ControlFault>
    ensures { Gives is_memory result (part_at path number bytes.now) }
{
    let path = path.to(number);
    let Some(text) = last_bytes(number, bytes) else {
        return Err(ControlFault::Missing { path });
    };
    if !is_part_text(text) {
        return Err(ControlFault::BadText { path });
    }
    let text = Text::from_ascii(alloc, text)?;
    Ok(text)
}

/// The address that a record is.
#[tactic(auto, unfolding(crate::specs::Message::address_in))]
fn address_of_record(alloc: Global, path: Path, bytes: &[u8]) -> Result<Address, ControlFault>
    ensures { Gives is_memory result (address_in path bytes.now) }
{
    let protocol = part(alloc, path, 1, bytes)?;
    let system = part(alloc, path, 2, bytes)?;
    let host = part(alloc, path, 3, bytes)?;
    let port = ranged_number(path, 4, 1, u16::MAX, bytes)?;
    Ok(Address {
        protocol,
        system,
        host,
        port,
    })
}

/// A required address.
#[tactic(auto, unfolding(crate::specs::Message::address_at))]
pub(crate) fn address(
    alloc: Global,
    path: Path,
    number: u8,
    bytes: &[u8],
) -> Result<Address, ControlFault>
    ensures { Gives is_memory result (address_at path number bytes.now) }
{
    let record = embedded_record(alloc, path, number, bytes)?;
    address_of_record(alloc, path.to(number), record.as_slice())
}

/// The unique address that a record is.
#[tactic(auto, unfolding(crate::specs::Message::unique_in))]
fn unique_of_record(alloc: Global, path: Path, bytes: &[u8]) -> Result<UniqueAddress, ControlFault>
    ensures { Gives is_memory result (unique_in path bytes.now) }
{
    let address = address(alloc, path, 1, bytes)?;
    let uid = number(path, 2, bytes)?;
    Ok(UniqueAddress { address, uid })
}

/// A required unique address.
#[tactic(auto, unfolding(crate::specs::Message::unique_at))]
pub(crate) fn unique(
    alloc: Global,
    path: Path,
    number: u8,
    bytes: &[u8],
) -> Result<UniqueAddress, ControlFault>
    ensures { Gives is_memory result (unique_at path number bytes.now) }
{
    let record = embedded_record(alloc, path, number, bytes)?;
    unique_of_record(alloc, path.to(number), record.as_slice())
}

/// A required version of a table.
pub(crate) fn version(path: Path, number: u8, bytes: &[u8]) -> Result<u8, ControlFault>
    ensures { Gives is_memory result (ranged_at path number 0 255 bytes.now) }
{
    let version = ranged_number(path, number, 0, 255, bytes)?;
    Ok(version as u8)
}

/// The number of a table, where it is there: at least 1, and one whose version this is.
#[tactic(auto, unfolding(crate::specs::Message::sequence_at))]
pub(crate) fn sequence(
    path: Path,
    number: u8,
    version: u8,
    bytes: &[u8],
) -> Result<Option<u64>, ControlFault>
    ensures { Gives is_memory result (sequence_at path number version bytes.now) }
{
    let Some(sequence) = last_varint(number, bytes) else {
        return Ok(None);
    };
    if 1 <= sequence && version as u64 == (sequence - 1) % VERSIONS + 1 {
        Ok(Some(sequence))
    } else {
        Err(ControlFault::Range {
            path: path.to(number),
        })
    }
}

/// An adopted table and who adopted it.
#[tactic(auto, unfolding(crate::specs::Message::table_ack_in))]
pub(crate) fn table_ack_message(alloc: Global, bytes: &[u8]) -> Result<TableAck, ControlFault>
    ensures { Gives is_memory result (table_ack_in bytes.now) }
{
    let from = unique(alloc, Path::Message, 1, bytes)?;
    let version = version(Path::Message, 2, bytes)?;
    let sequence = sequence(Path::Message, 3, version, bytes)?;
    Ok(TableAck {
        from,
        version,
        sequence,
    })
}

/// A number and who tells it.
#[tactic(auto, unfolding(crate::specs::Message::counted_in))]
pub(crate) fn counted_message(alloc: Global, bytes: &[u8]) -> Result<Counted, ControlFault>
    ensures { Gives is_memory result (counted_in bytes.now) }
{
    let n = number(Path::Message, 1, bytes)?;
    let from = unique(alloc, Path::Message, 2, bytes)?;
    Ok(Counted { n, from })
}
