ghost use Rattle.std.specs.Prelude.{◌≡◌};
ghost use Rattle.std.specs.Int.{w32, w64};
ghost use Rattle.artery_base.specs.Words.{Shows};
ghost use Rattle.artery_wire.specs.Record.{value_of, field_of};
ghost use Rattle.artery_wire.specs.Reading.{split_at, fixed_at, payload_at, value_at, field_at};

use crate::fault::FaultKind;
use crate::varint::varint_front;

/// The largest number of a field; the smallest is 1.
pub(crate) const MAX_NUMBER: u64 = 536_870_911;

/// The value of a field, by its wire type.
#[derive(Clone, Copy, Debug, PartialEq, Eq)]
pub enum Value<'a> {
    /// Wire type 0: a number below 2^64.
    Varint(u64),
    /// Wire type 1: eight bytes, the lowest first.
    Fixed64(u64),
    /// Wire type 2: the payload, borrowed.
    Bytes(&'a [u8]),
    /// Wire type 5: four bytes, the lowest first.
    Fixed32(u32),
}

/// A field of a record: its number from 1 to 536,870,911, and its value.
#[derive(Clone, Copy, Debug, PartialEq, Eq)]
pub struct Field<'a> {
    pub number: u32,
    pub value: Value<'a>,
}

fn split_front(len: u64, bytes: &[u8]) -> Result<(&[u8], &[u8]), FaultKind>
    ensures { Shows (λ x. (x.0.now, x.1.now)) result (split_at len bytes.now) }
{
    if (bytes.len() as u64) < len {
        return Err(FaultKind::Truncated);
    }
    let (front, rest) = bytes.split_at(len as usize);
    Ok((front, rest))
}

fn u64_front(bytes: &[u8]) -> Result<(u64, &[u8]), FaultKind>
    ensures { Shows (λ x. (x.0, x.1.now)) result (fixed_at w64 bytes.now) }
{
    let (front, rest) = split_front(8, bytes)?;
    let number = u64::from_le_bytes([
        front[0], front[1], front[2], front[3], front[4], front[5], front[6], front[7],
    ]);
    Ok((number, rest))
}

fn u32_front(bytes: &[u8]) -> Result<(u32, &[u8]), FaultKind>
    ensures { Shows (λ x. (x.0, x.1.now)) result (fixed_at w32 bytes.now) }
{
    let (front, rest) = split_front(4, bytes)?;
    let number = u32::from_le_bytes([front[0], front[1], front[2], front[3]]);
    Ok((number, rest))
}

#[tactic(auto, unfolding(crate::specs::Reading::payload_at))]
fn payload_front(bytes: &[u8]) -> Result<(&[u8], &[u8]), FaultKind>
    ensures { Shows (λ x. (x.0.now, x.1.now)) result (payload_at bytes.now) }
{
    let (len, rest) = varint_front(bytes)?;
    split_front(len, rest)
}

#[tactic(auto, unfolding(crate::specs::Reading::value_at))]
fn value_front(kind: u64, bytes: &[u8]) -> Result<(Value<'_>, &[u8]), FaultKind>
    ensures { Shows (λ x. (value_of x.0, x.1.now)) result (value_at kind bytes.now) }
{
    match kind {
        0 => {
            let (number, rest) = varint_front(bytes)?;
            Ok((Value::Varint(number), rest))
        }
        1 => {
            let (number, rest) = u64_front(bytes)?;
            Ok((Value::Fixed64(number), rest))
        }
        2 => {
            let (payload, rest) = payload_front(bytes)?;
            Ok((Value::Bytes(payload), rest))
        }
        5 => {
            let (number, rest) = u32_front(bytes)?;
            Ok((Value::Fixed32(number), rest))
        }
        _ => Err(FaultKind::WireType),
    }
}

/// The field at the front, and the bytes after it.
#[tactic(auto, unfolding(crate::specs::Reading::field_at))]
pub(crate) fn field_front(bytes: &[u8]) -> Result<(Field<'_>, &[u8]), FaultKind>
    ensures { Shows (λ x. (field_of x.0, x.1.now)) result (field_at bytes.now) }
{
    let (key, rest) = varint_front(bytes)?;
    let number = key / 8;
    if number == 0 || number > MAX_NUMBER {
        return Err(FaultKind::FieldNumber);
    }
    let (value, rest) = value_front(key % 8, rest)?;
    Ok((
        Field {
            number: number as u32,
            value,
        },
        rest,
    ))
}
