ghost use Rattle.std.specs.Prelude.{◌≡◌, ◌+◌, ◌*◌, ◌++◌, ◌≤◌, length, take, OnOk, OnErr};
ghost use Rattle.std.specs.Int.{w64, cast_unsigned};
ghost use Rattle.artery_wire.specs.Writing.{IsNumber, varint_of, head_bytes, field_bytes, uint_field, bytes_field, BeginsWith};

use crate::varint::BASE;
use artery_base::{Bytes, NoMemory};

/// Appends a field whose value is a number (wire type 0), in the shortest form.
/// Without memory `out` stays as it was.
pub fn put_uint(number: u32, value: u64, out: &mut Bytes) -> Result<(), NoMemory>
    requires { IsNumber number }
    ensures ok { OnOk result (out.new ≡ out.old ++ field_bytes (uint_field number value)) }
    ensures err { OnErr result (out.new ≡ out.old) }
{
    let before = out.len();
    let appended = append_uint(number, value, out);
    out.settle(before, appended)
}

/// Appends a field whose value is a signed number (wire type 0): a negative one as its two's complement
/// of 64 bits, in ten bytes after the key. Without memory `out` stays as it was.
pub fn put_int32(number: u32, value: i32, out: &mut Bytes) -> Result<(), NoMemory>
    requires { IsNumber number }
    ensures ok { OnOk result (out.new ≡ out.old ++ field_bytes (uint_field number (cast_unsigned w64 value))) }
    ensures err { OnErr result (out.new ≡ out.old) }
{
    put_uint(number, (value as i64).cast_unsigned(), out)
}

/// Appends a field whose value is a payload (wire type 2): the key, the length and the bytes, copied once.
/// Without memory `out` stays as it was.
pub fn put_bytes(number: u32, bytes: &[u8], out: &mut Bytes) -> Result<(), NoMemory>
    requires { IsNumber number }
    ensures ok { OnOk result (out.new ≡ out.old ++ field_bytes (bytes_field number bytes.now)) }
    ensures err { OnErr result (out.new ≡ out.old) }
{
    let before = out.len();
    let appended = append_bytes(number, bytes, out);
    out.settle(before, appended)
}

/// How many bytes `put_uint` appends.
#[tactic(auto, using(crate::proofs::Appends::size_steps), unfolding(crate::specs::Writing::field_bytes))]
pub fn uint_size(number: u32, value: u64) -> usize
    ensures size { result ≡ length (field_bytes (uint_field number value)) }
    ensures small { result ≤ 20 }
{
    varint_size(number as u64 * 8) + varint_size(value)
}

/// How many bytes `put_head` appends.
#[tactic(auto, using(crate::proofs::Appends::size_steps))]
pub fn head_size(number: u32, len: usize) -> usize
    ensures size { result ≡ length (head_bytes number len) }
    ensures small { result ≤ 20 }
{
    varint_size(number as u64 * 8 + 2) + varint_size(len as u64)
}

/// Appends what stands before a payload of this length: the key and the length. The field is whole
/// when so many bytes have been appended after it. Without memory `out` stays as it was.
pub fn put_head(number: u32, len: usize, out: &mut Bytes) -> Result<(), NoMemory>
    requires { IsNumber number }
    ensures ok { OnOk result (out.new ≡ out.old ++ head_bytes number len) }
    ensures err { OnErr result (out.new ≡ out.old) }
{
    let before = out.len();
    let appended = append_head(number, len, out);
    out.settle(before, appended)
}

/// How many bytes the shortest varint of a number has.
#[tactic(auto, using(crate::proofs::Appends::size_steps))]
fn varint_size(value: u64) -> usize
    ensures size { result ≡ length (varint_of value) }
    ensures small { result ≤ 10 }
{
    let base = BASE as u64;
    let mut left = value;
    let mut size = 1;
    while left >= base {
        size += 1;
        left /= base;
    }
    size
}

#[tactic(auto, using(crate::proofs::Appends::append_steps), unfolding(crate::specs::Writing::field_bytes))]
fn append_uint(number: u32, value: u64, out: &mut Bytes) -> Result<(), NoMemory>
    ensures ok { OnOk result (out.new ≡ out.old ++ field_bytes (uint_field number value)) }
    ensures err { OnErr result (BeginsWith out.old out.new) }
{
    append_varint(number as u64 * 8, out)?;
    append_varint(value, out)?;
    Ok(())
}

#[tactic(auto, using(crate::proofs::Appends::append_steps))]
fn append_head(number: u32, len: usize, out: &mut Bytes) -> Result<(), NoMemory>
    ensures ok { OnOk result (out.new ≡ out.old ++ head_bytes number len) }
    ensures err { OnErr result (BeginsWith out.old out.new) }
{
    append_varint(number as u64 * 8 + 2, out)?;
    append_varint(len as u64, out)?;
    Ok(())
}

#[tactic(auto, using(crate::proofs::Appends::append_steps), unfolding(crate::specs::Writing::field_bytes))]
fn append_bytes(number: u32, bytes: &[u8], out: &mut Bytes) -> Result<(), NoMemory>
    ensures ok { OnOk result (out.new ≡ out.old ++ field_bytes (bytes_field number bytes.now)) }
    ensures err { OnErr result (BeginsWith out.old out.new) }
{
    append_head(number, bytes.len(), out)?;
    out.extend_from_slice(bytes)?;
    Ok(())
}

/// Appends the shortest varint of a number.
#[tactic(auto, using(crate::proofs::Appends::varint_steps))]
fn append_varint(value: u64, out: &mut Bytes) -> Result<(), NoMemory>
    ensures ok { OnOk result (out.new ≡ out.old ++ varint_of value) }
    ensures err { OnErr result (BeginsWith out.old out.new) }
{
    let base = BASE as u64;
    let mut left = value;
    while left >= base {
        out.push((left % base + base) as u8)?;
        left /= base;
    }
    out.push(left as u8)?;
    Ok(())
}
