ghost use Rattle.std.specs.Prelude.{◌≡◌, true, [], ℕ, ◌<◌, ◌*◌, ◌%◌, List, ◌++◌, length, take, flat_map, if◌then◌else◌, Some, None, Ok, IfSome, IfOk, OnOk, OnErr};
ghost use Rattle.std.specs.List.{list_all};
ghost use Rattle.hex.specs.Hex.{encode_lower};
ghost use Rattle.artery_text.specs.Spelling.{AreBytes, hex_digit, hex_pair, hex_text};
ghost use Rattle.artery_text.specs.Reading.{Gives, word_memory, is_hex_digit, hex_value, pair_of, pairs_value, pairs_from, hex_of};

use crate::fault::WordFault;
use artery_base::{Bytes, NoMemory};
use std::alloc::Global;

/// How many bytes are made digits at a time. Whole blocks go through a loop of our own, which is
/// several times as fast on long payloads; what is shorter goes through the crate `hex`.
const BLOCK: usize = 64;

fn hex_digit(value: u8) -> u8
    requires { value < 16 }
    ensures { result ≡ hex_digit value }
{
    if value < 10 {
        b'0' + value
    } else {
        b'a' - 10 + value
    }
}

/// A byte as two lower-case digits.
pub(crate) fn hex_pair(byte: u8) -> [u8; 2]
    ensures { result ≡ hex_pair byte }
{
    [hex_digit(byte / 16), hex_digit(byte % 16)]
}

fn digit(byte: u8) -> Option<u8>
    ensures value { result ≡ (if is_hex_digit byte then Some (hex_value byte) else None) }
    ensures below { IfSome result (λ d. d < 16) }
{
    match byte {
        b'0'..=b'9' => Some(byte - b'0'),
        b'a'..=b'f' => Some(byte - b'a' + 10),
        _ => None,
    }
}

/// The byte of two lower-case digits.
pub(crate) fn pair(high: u8, low: u8) -> Option<u8>
    ensures { result ≡ pair_of high low }
{
    let high = digit(high)?;
    let low = digit(low)?;
    Some(16 * high + low)
}

#[tactic(auto, using(crate::proofs::HexPairs::front_goes, crate::proofs::HexPairs::front_fails, crate::proofs::HexPairs::lone_fails, crate::proofs::HexPairs::pairs_end))]
fn read_by_pairs(alloc: Global, text: &[u8]) -> Result<Bytes, WordFault>
    ensures { Gives word_memory result (pairs_from [] 0 text.now) }
{
    let mut bytes = Bytes::new(alloc);
    let mut rest = text;
    let mut at = 0;
    while rest.len() > 1 {
        let Some(byte) = pair(rest[0], rest[1]) else {
            return Err(WordFault::BadWord { at });
        };
        bytes.push(byte)?;
        rest = &rest[2..];
        at += 2;
    }
    if !rest.is_empty() {
        return Err(WordFault::BadWord { at });
    }
    Ok(bytes)
}

// It looks at all bytes, so that LLVM makes it sixteen bytes at a time.
fn are_digits(text: &[u8]) -> bool
    ensures { result ≡ list_all is_hex_digit text.now }
{
    let mut digits = true;
    for byte in text {
        digits &= (b'0' <= *byte && *byte <= b'9') || (b'a' <= *byte && *byte <= b'f');
    }
    digits
}

fn digit_value(byte: u8) -> u8
    requires { is_hex_digit byte ≡ true }
    ensures value { result ≡ hex_value byte }
    ensures below { result < 16 }
{
    if byte < b'a' {
        byte - b'0'
    } else {
        byte - b'a' + 10
    }
}

#[tactic(auto, using(crate::proofs::HexBlocks::digit_at, crate::proofs::HexBlocks::byte_read, crate::proofs::HexBlocks::all_read))]
fn fill_bytes(text: &[u8], bytes: &mut [u8])
    requires digits { list_all is_hex_digit text.now ≡ true }
    requires room { length text.now ≡ 2 * length bytes.old }
    ensures read { bytes.new ≡ pairs_value text.now }
    ensures len { length bytes.new ≡ length bytes.old }
{
    for at in 0..bytes.len() {
        bytes[at] = 16 * digit_value(text[2 * at]) + digit_value(text[2 * at + 1]);
    }
}

#[tactic(auto, using(crate::proofs::HexBlocks::digits_read))]
fn read_long(alloc: Global, text: &[u8]) -> Result<Bytes, WordFault>
    requires even { length text.now % 2 ≡ 0 }
    requires digits { list_all is_hex_digit text.now ≡ true }
    ensures { Gives word_memory result (pairs_from [] 0 text.now) }
{
    let Ok(mut bytes) = vec![in alloc; 0u8; text.len() / 2] else {
        return Err(WordFault::NoMemory);
    };
    fill_bytes(text, bytes.as_mut_slice());
    Ok(Bytes::from_vec(bytes))
}

#[tactic(auto, using(crate::proofs::HexKit::kit_reads))]
fn read_pairs(alloc: Global, text: &[u8]) -> Result<Bytes, WordFault>
    ensures { Gives word_memory result (pairs_from [] 0 text.now) }
{
    if text.len() % 2 != 0 || !are_digits(text) {
        return read_by_pairs(alloc, text);
    }
    if text.len() > 2 * BLOCK {
        return read_long(alloc, text);
    }
    match hex::decode(alloc, text) {
        Ok(bytes) => Ok(Bytes::from_vec(bytes)),
        Err(_) => Err(WordFault::NoMemory),
    }
}

fn bytes_in(alloc: Global, text: &[u8]) -> Result<Bytes, WordFault>
    ensures { Gives word_memory result (hex_of text.now) }
{
    if text == b"-".as_slice() {
        return Ok(Bytes::new(alloc));
    }
    if text.is_empty() {
        return Err(WordFault::BadWord { at: 0 });
    }
    read_pairs(alloc, text)
}

// A digit by a test, and not by a table, is what LLVM makes sixteen at a time.
#[tactic(auto, using(crate::proofs::HexBlocks::pair_written, crate::proofs::HexBlocks::all_written))]
fn fill_block(bytes: &[u8], text: &mut [u8])
    requires { length text.old ≡ 2 * length bytes.now }
    ensures { text.new ≡ flat_map hex_pair bytes.now }
{
    for at in 0..bytes.len() {
        text[2 * at] = hex_digit(bytes[at] / 16);
        text[2 * at + 1] = hex_digit(bytes[at] % 16);
    }
}

#[tactic(auto, using(crate::proofs::HexKit::kit_pairs))]
fn fill_pairs(bytes: &[u8], text: &mut [u8])
    requires { length text.old ≡ 2 * length bytes.now }
    ensures { text.new ≡ flat_map hex_pair bytes.now }
{
    if bytes.len() >= BLOCK {
        return fill_block(bytes, text);
    }
    let filled = hex::encode_to_slice(bytes, text);
    prove!(filled.is_ok());
}

#[tactic(auto, using(artery_base::proofs::Appending::keeps_front, crate::proofs::HexBlocks::block_goes))]
fn put_pairs(bytes: &[u8], out: &mut Bytes) -> Result<(), NoMemory>
    ensures ok { OnOk result (out.new ≡ out.old ++ flat_map hex_pair bytes.now) }
    ensures kept { take (length out.old) out.new ≡ out.old }
{
    let mut block = [0u8; 2 * BLOCK];
    let mut rest = bytes;
    while !rest.is_empty() {
        let (front, more) = rest.split_at(rest.len().min(BLOCK));
        let (text, _) = block.split_at_mut(2 * front.len());
        fill_pairs(front, text);
        out.extend_from_slice(text)?;
        rest = more;
    }
    Ok(())
}

/// The bytes that the text spells in hexadecimal, two lower-case digits a byte and `-` for no bytes.
/// `BadWord` tells the first byte of the first pair that is not two lower-case digits, where a lone
/// last byte counts as a pair; its place is 0 for the empty text.
pub fn read_hex(alloc: Global, text: &[u8]) -> Result<Bytes, WordFault>
    ensures exact { Gives word_memory result (hex_of text.now) }
    ensures found { IfOk result (λ b. text.now ≡ hex_text b) }
    ensures only { (bytes : List ℕ) → AreBytes bytes → text.now ≡ hex_text bytes → Gives word_memory result (Ok bytes) }
{
    bytes_in(alloc, text)
}

/// Appends the bytes in hexadecimal: two lower-case digits a byte, and `-` for no bytes. Without
/// memory `out` stays as it was.
#[tactic(auto, using(crate::proofs::HexKit::kit_pairs))]
pub fn print_hex(bytes: &[u8], out: &mut Bytes) -> Result<(), NoMemory>
    ensures ok { OnOk result (out.new ≡ out.old ++ hex_text bytes.now) }
    ensures encoded { OnOk result (0 < length bytes.now → out.new ≡ out.old ++ encode_lower bytes.now) }
    ensures err { OnErr result (out.new ≡ out.old) }
{
    if bytes.is_empty() {
        return out.push(b'-');
    }
    let before = out.len();
    let appended = put_pairs(bytes, out);
    out.settle(before, appended)
}
