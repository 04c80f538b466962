ghost use Rattle.std.specs.Prelude.{◌≡◌, [], ◌∷◌, ℕ, ◌+◌, ◌<◌, ◌^◌, List, ◌++◌, length, take, flat_map, IfOk, Ok, OnOk, OnErr};
ghost use Rattle.std.specs.List.{list_all};
ghost use Rattle.artery_text.specs.Spelling.{AreBytes, is_plain, escaped, word_piece, is_reserved, first_piece, word_text};
ghost use Rattle.artery_text.specs.Reading.{Gives, word_memory, escape_of, pieces_from, word_of};

use crate::fault::WordFault;
use crate::hexadecimal::{hex_pair, pair};
use artery_base::{Bytes, NoMemory};
use std::alloc::Global;

fn is_plain(byte: u8) -> bool
    ensures { result ≡ is_plain byte }
{
    33 <= byte && byte <= 126 && byte != b'%'
}

// The byte of an escape at the front of the text.
fn escape(text: &[u8]) -> Option<u8>
    ensures { result ≡ escape_of text.now }
{
    if text.len() < 3 || text[0] != b'%' {
        return None;
    }
    let byte = pair(text[1], text[2])?;
    if is_plain(byte) {
        return None;
    }
    Some(byte)
}

// Reads pieces to the end, behind the bytes of those that stand before place `from`.
fn read_pieces(front: Bytes, from: usize, text: &[u8]) -> Result<Bytes, WordFault>
    requires { from + length text.now < 2 ^ 64 }
    ensures { Gives word_memory result (pieces_from front from text.now) }
{
    let mut bytes = front;
    let mut rest = text;
    let mut at = from;
    while !rest.is_empty() {
        if is_plain(rest[0]) {
            bytes.push(rest[0])?;
            rest = &rest[1..];
            at += 1;
            continue;
        }
        let Some(byte) = escape(rest) else {
            return Err(WordFault::BadWord { at });
        };
        bytes.push(byte)?;
        rest = &rest[3..];
        at += 3;
    }
    Ok(bytes)
}

fn bytes_in(alloc: Global, text: &[u8]) -> Result<Bytes, WordFault>
    ensures { Gives word_memory result (word_of text.now) }
{
    if text == b"-".as_slice() {
        return Ok(Bytes::new(alloc));
    }
    if text.is_empty() {
        return Err(WordFault::BadWord { at: 0 });
    }
    if text[0] == b'@' {
        return Err(WordFault::BadWord { at: 0 });
    }
    if text == b"%2d".as_slice() {
        return Ok(Bytes::from_slice(alloc, b"-")?);
    }
    if text.starts_with(b"%40") {
        let front = Bytes::from_slice(alloc, b"@")?;
        return read_pieces(front, 3, &text[3..]);
    }
    read_pieces(Bytes::new(alloc), 0, text)
}

/// The bytes that the text spells as a word. `BadWord` tells the first place at which it has neither
/// a byte nor a `%` with two digits that a word has there; 0 for the empty text.
pub fn read_word(alloc: Global, text: &[u8]) -> Result<Bytes, WordFault>
    ensures exact { Gives word_memory result (word_of text.now) }
    ensures found { IfOk result (λ b. text.now ≡ word_text b) }
    ensures only { (bytes : List ℕ) → AreBytes bytes → text.now ≡ word_text bytes → Gives word_memory result (Ok bytes) }
{
    bytes_in(alloc, text)
}

fn put_escaped(byte: u8, out: &mut Bytes) -> Result<(), NoMemory>
    ensures ok { OnOk result (out.new ≡ out.old ++ escaped byte) }
    ensures err { OnErr result (out.new ≡ out.old) }
{
    let digits = hex_pair(byte);
    out.extend_from_slice(&[b'%', digits[0], digits[1]])
}

fn put_piece(byte: u8, out: &mut Bytes) -> Result<(), NoMemory>
    ensures ok { OnOk result (out.new ≡ out.old ++ word_piece byte) }
    ensures err { OnErr result (out.new ≡ out.old) }
{
    if is_plain(byte) {
        return out.push(byte);
    }
    put_escaped(byte, out)
}

fn is_reserved(byte: u8, others: &[u8]) -> bool
    ensures { result ≡ is_reserved byte others.now }
{
    byte == b'@' || (byte == b'-' && others.is_empty())
}

// It looks at all bytes, so that LLVM makes it sixteen bytes at a time.
fn are_plain(bytes: &[u8]) -> bool
    ensures { result ≡ list_all is_plain bytes.now }
{
    let mut plain = true;
    for byte in bytes {
        plain &= is_plain(*byte);
    }
    plain
}

fn put_first(byte: u8, others: &[u8], out: &mut Bytes) -> Result<(), NoMemory>
    ensures ok { OnOk result (out.new ≡ out.old ++ first_piece byte others.now) }
    ensures err { OnErr result (out.new ≡ out.old) }
{
    if is_reserved(byte, others) {
        return put_escaped(byte, out);
    }
    put_piece(byte, out)
}

#[tactic(auto, using(artery_base::proofs::Appending::keeps_front))]
fn put_pieces(bytes: &[u8], out: &mut Bytes) -> Result<(), NoMemory>
    ensures ok { OnOk result (out.new ≡ out.old ++ flat_map word_piece bytes.now) }
    ensures kept { take (length out.old) out.new ≡ out.old }
{
    for byte in bytes {
        put_piece(*byte, out)?;
    }
    Ok(())
}

#[tactic(auto, using(artery_base::proofs::Appending::keeps_front))]
fn put_by_pieces(first: u8, others: &[u8], out: &mut Bytes) -> Result<(), NoMemory>
    ensures ok { OnOk result (out.new ≡ out.old ++ word_text (first ∷ others.now)) }
    ensures kept { take (length out.old) out.new ≡ out.old }
{
    put_first(first, others, out)?;
    put_pieces(others, out)
}

#[tactic(auto, using(artery_base::proofs::Appending::keeps_front, crate::proofs::WordPieces::word_as_it_is))]
fn put_word(bytes: &[u8], out: &mut Bytes) -> Result<(), NoMemory>
    ensures ok { OnOk result (out.new ≡ out.old ++ word_text bytes.now) }
    ensures kept { take (length out.old) out.new ≡ out.old }
{
    let [first, others @ ..] = bytes else {
        return out.push(b'-');
    };
    if is_reserved(*first, others) || !are_plain(bytes) {
        return put_by_pieces(*first, others, out);
    }
    out.extend_from_slice(bytes)
}

/// Appends the bytes as a word: `-` for none; each visible ASCII byte but `%` as itself; any other
/// byte, and a first `@` and a lone `-`, as `%` and two lower-case digits. Without memory `out` stays
/// as it was.
pub fn print_word(bytes: &[u8], out: &mut Bytes) -> Result<(), NoMemory>
    ensures ok { OnOk result (out.new ≡ out.old ++ word_text bytes.now) }
    ensures err { OnErr result (out.new ≡ out.old) }
{
    let before = out.len();
    let appended = put_word(bytes, out);
    out.settle(before, appended)
}
