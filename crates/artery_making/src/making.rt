//! The bytes of a stream, made line by line.
ghost use Rattle.std.specs.Prelude.{◌≡◌, ◌≤◌, ◌++◌, [], false, length, option_map, None, Some, OnOk, IfErr};
ghost use Rattle.artery_text.specs.Reading.{Gives};
ghost use Rattle.artery_frame.specs.Stream.{preamble, framed};
ghost use Rattle.artery_header.specs.Envelope.{HasTexts, canonical, envelope_of as contents, refusal, name_of as header_named};
ghost use Rattle.artery_lines.specs.Lines.{line_fault, lines_of};
ghost use Rattle.artery_lines.specs.Lines.{most_lines};
ghost use Rattle.artery_making.specs.Made.{told_name, told_contents, Adds, canonical_unless, encode_memory, frame_told, stream_told, told_at, added, before_others, frames_from, stream_from, stream_made, make_memory};

use crate::fault::MakeFault;
use crate::told::{ToldFrame, ToldName, read_frame};
use artery_base::Bytes;
use artery_frame::{Stream, write_preamble};
use artery_header::{EncodeFault, Envelope, Name, write_envelope, written_len};
use artery_lines::{LineFault, TextLines, has_few_lines};
use std::alloc::Global;

fn name_of(name: &ToldName) -> Name<'_>
    ensures { header_named result ≡ told_name name.now }
{
    match name {
        ToldName::Literal { text } => Name::Literal(text.as_slice()),
        ToldName::Index { index } => Name::Index(*index),
    }
}

fn envelope_of(frame: &ToldFrame) -> Envelope<'_>
    ensures { contents result ≡ told_contents frame.now }
{
    Envelope {
        uid: frame.uid,
        refs_version: frame.refs_version,
        manifests_version: frame.manifests_version,
        serializer: frame.serializer,
        sender: name_of(&frame.sender),
        recipient: name_of(&frame.recipient),
        manifest: name_of(&frame.manifest),
        payload: frame.payload.as_slice(),
    }
}

fn fault_of(fault: EncodeFault) -> LineFault
    ensures { result ≡ line_fault (encode_memory fault) }
{
    match fault {
        EncodeFault::NoMemory => LineFault::NoMemory,
        EncodeFault::LiteralLong { which: _ } => LineFault::BadLine,
        EncodeFault::FrameLong { len: _ } => LineFault::BadLine,
    }
}

/// Appends the frame of an envelope, whose bytes are written where they stay. What fails may leave a front of it.
#[tactic(auto, using(crate::proofs::Bytes::framed_here))]
fn append_envelope(envelope: &Envelope<'_>, out: &mut Bytes) -> Result<(), EncodeFault>
    requires { HasTexts (contents envelope.now) }
    ensures ok { OnOk result (out.new ≡ out.old ++ framed (canonical (contents envelope.now))) }
    ensures written { OnOk result (refusal (contents envelope.now) ≡ None) }
    ensures refused { IfErr result (λ fault. encode_memory fault ≡ false → refusal (contents envelope.now) ≡ Some fault) }
{
    let len = written_len(envelope)? as u32;
    out.extend_from_slice(&len.to_le_bytes())?;
    write_envelope(envelope, out)
}

#[tactic(auto, using(crate::proofs::Bytes::added_frame, crate::proofs::Bytes::refused_frame))]
fn append_frame(frame: &ToldFrame, out: &mut Bytes) -> Result<(), LineFault>
    requires { HasTexts (told_contents frame.now) }
    ensures { Adds result out.old out.new (option_map framed (canonical_unless (told_contents frame.now) (refusal (told_contents frame.now)))) }
{
    let envelope = envelope_of(frame);
    match append_envelope(&envelope, out) {
        Ok(()) => Ok(()),
        Err(fault) => Err(fault_of(fault)),
    }
}

fn append_told(alloc: Global, line: &[u8], out: &mut Bytes) -> Result<(), LineFault>
    ensures { Adds result out.old out.new (frame_told line.now) }
{
    let frame = read_frame(alloc, line)?;
    append_frame(&frame, out)
}

fn append_line(alloc: Global, n: u64, line: &[u8], out: &mut Bytes) -> Result<(), MakeFault>
    ensures { Gives make_memory (added result out.new) (told_at n (option_map (λ bytes. out.old ++ bytes) (frame_told line.now))) }
{
    match append_told(alloc, line, out) {
        Ok(()) => Ok(()),
        Err(LineFault::BadLine) => Err(MakeFault::BadLine { line: n }),
        Err(LineFault::NoMemory) => Err(MakeFault::NoMemory),
    }
}

#[tactic(auto, using(crate::proofs::Lines::line_on, crate::proofs::Lines::line_fails, crate::proofs::Lines::lines_end))]
fn append_frames(alloc: Global, front: Bytes, lines: TextLines<'_>) -> Result<Bytes, MakeFault>
    requires { length lines ≤ most_lines }
    ensures { Gives make_memory result (before_others front (frames_from 2 lines.entry)) }
{
    let mut left = lines;
    let mut out = front;
    let mut n = 1;
    while let Some(line) = left.next() {
        n += 1;
        append_line(alloc, n, line, &mut out)?;
    }
    Ok(out)
}

fn stream_in(line: &[u8]) -> Option<Stream>
    ensures { result ≡ stream_told line.now }
{
    if line == b"stream 1".as_slice() {
        return Some(Stream::Control);
    }
    if line == b"stream 2".as_slice() {
        return Some(Stream::Ordinary);
    }
    None
}

fn begin_stream(alloc: Global, line: &[u8]) -> Result<Bytes, MakeFault>
    ensures { Gives make_memory result (told_at 1 (option_map preamble (stream_told line.now))) }
{
    let Some(stream) = stream_in(line) else {
        return Err(MakeFault::BadLine { line: 1 });
    };
    let mut out = Bytes::new(alloc);
    write_preamble(stream, &mut out)?;
    Ok(out)
}

#[tactic(auto, using(crate::proofs::Lines::begun, crate::proofs::Lines::not_begun))]
fn make_lines(alloc: Global, text: &[u8]) -> Result<Bytes, MakeFault>
    requires { length (lines_of text.now) ≤ most_lines }
    ensures { Gives make_memory result (stream_from (lines_of text.now)) }
{
    let mut lines = TextLines::new(text);
    let Some(first) = lines.next() else {
        return Err(MakeFault::BadLine { line: 1 });
    };
    let out = begin_stream(alloc, first)?;
    append_frames(alloc, out, lines)
}

/// The bytes that a text of lines describes: first `stream 1` or `stream 2`, then
/// `frame UID REFS MANIFESTS SERIALIZER SENDER RECIPIENT MANIFEST HEX` for each frame, with one space between two
/// tokens. UID is a number below 2^64; REFS and MANIFESTS, the versions of the tables, are at most 255; SERIALIZER is an
/// `i32`. A name is a word of ASCII bytes, or `@` and its place in the table, at most 65,535; HEX is the payload in
/// hexadecimal. Lines end with a line feed, which the last may lack; none is passed over.
/// `TooManyLines` where there are more than 1,000,000 lines; else `BadLine` names the first line, counted from 1, that is
/// not so, or whose literals have more than 65,535 bytes or whose envelope has more than 262,144; 1 where the text is
/// empty.
pub fn make_stream(alloc: Global, text: &[u8]) -> Result<Bytes, MakeFault>
    ensures exact { Gives make_memory result (stream_made text.now) }
{
    if !has_few_lines(text) {
        return Err(MakeFault::TooManyLines);
    }
    make_lines(alloc, text)
}
