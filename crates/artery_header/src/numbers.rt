ghost use Rattle.std.specs.Prelude.{◌≡◌, ◌+◌, ◌≤◌, length, drop, nat_lt};
ghost use Rattle.std.specs.List.{list_all};
ghost use Rattle.std.specs.Int.{cast_signed, w32};
ghost use Rattle.byteorder.specs.Endian.{little_number};
ghost use Rattle.artery_header.specs.Envelope.{is_text};

use byteorder::{ByteOrder, LittleEndian};

/// The number in the two bytes from this place.
pub fn u16_at(bytes: &[u8], at: usize) -> u16
    requires { at + 2 ≤ length bytes.now }
    ensures { result ≡ little_number 2 (drop at bytes.now) }
{
    LittleEndian::read_u16(&bytes[at..])
}

/// The number in the four bytes from this place.
pub fn u32_at(bytes: &[u8], at: usize) -> u32
    requires { at + 4 ≤ length bytes.now }
    ensures { result ≡ little_number 4 (drop at bytes.now) }
{
    LittleEndian::read_u32(&bytes[at..])
}

/// The signed number in the four bytes from this place.
pub fn i32_at(bytes: &[u8], at: usize) -> i32
    requires { at + 4 ≤ length bytes.now }
    ensures { result ≡ cast_signed w32 (little_number 4 (drop at bytes.now)) }
{
    LittleEndian::read_i32(&bytes[at..])
}

/// The number in the eight bytes from this place.
pub fn u64_at(bytes: &[u8], at: usize) -> u64
    requires { at + 8 ≤ length bytes.now }
    ensures { result ≡ little_number 8 (drop at bytes.now) }
{
    LittleEndian::read_u64(&bytes[at..])
}

/// Whether all bytes are ASCII.
pub fn is_text(bytes: &[u8]) -> bool
    ensures { result ≡ is_text bytes.now }
{
    let mut ascii = true;
    for byte in bytes {
        ascii &= *byte < 128;
    }
    ascii
}
