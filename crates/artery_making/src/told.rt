//! A line that describes a frame, and what each of its tokens tells.
ghost use Rattle.std.specs.Prelude.{◌≡◌, IfOk};
ghost use Rattle.artery_text.specs.Reading.{number_of, int32_of};
ghost use Rattle.artery_header.specs.Envelope.{HasTexts, IsAsciiName, is_text};
ghost use Rattle.artery_lines.specs.Lines.{Tells};
ghost use Rattle.artery_making.specs.Made.{TellsAs, TellsNext, next_told, version_told, payload_told, index_told, literal_told, name_told, fields_told, contents_told, told_name, told_contents};

use artery_base::Bytes;
use artery_lines::{LineFault, Tokens};
use artery_text::{read_hex, read_int32, read_number, read_word};
use std::alloc::Global;

/// A name as a token tells it.
#[derive(Drop)]
pub(crate) enum ToldName {
    /// ASCII text.
    Literal { text: Bytes },
    /// The place in a table, from 0.
    Index { index: u16 },
}

/// A frame as a line tells it.
#[derive(Drop)]
pub(crate) struct ToldFrame {
    pub(crate) uid: u64,
    pub(crate) refs_version: u8,
    pub(crate) manifests_version: u8,
    pub(crate) serializer: i32,
    pub(crate) sender: ToldName,
    pub(crate) recipient: ToldName,
    pub(crate) manifest: ToldName,
    pub(crate) payload: Bytes,
}

fn number_in(token: &[u8]) -> Result<u64, LineFault>
    ensures { Tells result (number_of token.now) }
{
    read_number(token).ok_or(LineFault::BadLine)
}

fn next_number(fields: &mut Tokens<'_>) -> Result<u64, LineFault>
    ensures { TellsNext (λ n. n) result fields.new (next_told number_of fields.old) }
{
    let Some(token) = fields.next() else {
        return Err(LineFault::BadLine);
    };
    let number = number_in(token)?;
    Ok(number)
}

fn version_in(token: &[u8]) -> Result<u8, LineFault>
    ensures { Tells result (version_told token.now) }
{
    let version = number_in(token)?;
    if version > 255 {
        return Err(LineFault::BadLine);
    }
    Ok(version as u8)
}

fn next_version(fields: &mut Tokens<'_>) -> Result<u8, LineFault>
    ensures { TellsNext (λ n. n) result fields.new (next_told version_told fields.old) }
{
    let Some(token) = fields.next() else {
        return Err(LineFault::BadLine);
    };
    let version = version_in(token)?;
    Ok(version)
}

fn next_serializer(fields: &mut Tokens<'_>) -> Result<i32, LineFault>
    ensures { TellsNext (λ n. n) result fields.new (next_told int32_of fields.old) }
{
    let Some(token) = fields.next() else {
        return Err(LineFault::BadLine);
    };
    let Some(serializer) = read_int32(token) else {
        return Err(LineFault::BadLine);
    };
    Ok(serializer)
}

fn index_in(digits: &[u8]) -> Result<ToldName, LineFault>
    ensures told { TellsAs told_name result (index_told digits.now) }
    ensures ascii { IfOk result (λ name. IsAsciiName (told_name name)) }
{
    let index = number_in(digits)?;
    if index > 65_535 {
        return Err(LineFault::BadLine);
    }
    Ok(ToldName::Index {
        index: index as u16,
    })
}

fn is_ascii(text: &[u8]) -> bool
    ensures { result ≡ is_text text.now }
{
    text.iter().all(|byte| *byte < 128)
}

#[tactic(auto, using(crate::proofs::Telling::tells_literal))]
fn literal_in(alloc: Global, token: &[u8]) -> Result<ToldName, LineFault>
    ensures told { TellsAs told_name result (literal_told token.now) }
    ensures ascii { IfOk result (λ name. IsAsciiName (told_name name)) }
{
    let text = read_word(alloc, token)?;
    if !is_ascii(text.as_slice()) {
        return Err(LineFault::BadLine);
    }
    Ok(ToldName::Literal { text })
}

#[tactic(auto, using(crate::proofs::Telling::tells_index, crate::proofs::Telling::tells_name))]
fn name_in(alloc: Global, token: &[u8]) -> Result<ToldName, LineFault>
    ensures told { TellsAs told_name result (name_told token.now) }
    ensures ascii { IfOk result (λ name. IsAsciiName (told_name name)) }
{
    let [first, digits @ ..] = token else {
        return Err(LineFault::BadLine);
    };
    if *first == b'@' {
        return index_in(digits);
    }
    literal_in(alloc, token)
}

fn next_name(alloc: Global, fields: &mut Tokens<'_>) -> Result<ToldName, LineFault>
    ensures told { TellsNext told_name result fields.new (next_told name_told fields.old) }
    ensures ascii { IfOk result (λ name. IsAsciiName (told_name name)) }
{
    let Some(token) = fields.next() else {
        return Err(LineFault::BadLine);
    };
    let name = name_in(alloc, token)?;
    Ok(name)
}

#[tactic(auto, using(crate::proofs::Telling::tells_hex))]
fn payload_in(alloc: Global, token: &[u8]) -> Result<Bytes, LineFault>
    ensures { Tells result (payload_told token.now) }
{
    let payload = read_hex(alloc, token)?;
    Ok(payload)
}

fn next_payload(alloc: Global, fields: &mut Tokens<'_>) -> Result<Bytes, LineFault>
    ensures { TellsNext (λ b. b) result fields.new (next_told payload_told fields.old) }
{
    let Some(token) = fields.next() else {
        return Err(LineFault::BadLine);
    };
    let payload = payload_in(alloc, token)?;
    Ok(payload)
}

#[tactic(auto, unfolding(crate::specs::Made::fields_told))]
fn read_fields(alloc: Global, fields: &mut Tokens<'_>) -> Result<ToldFrame, LineFault>
    ensures told { TellsAs told_contents result (fields_told fields.old) }
    ensures texts { IfOk result (λ frame. HasTexts (told_contents frame)) }
{
    let uid = next_number(fields)?;
    let refs_version = next_version(fields)?;
    let manifests_version = next_version(fields)?;
    let serializer = next_serializer(fields)?;
    let sender = next_name(alloc, fields)?;
    let recipient = next_name(alloc, fields)?;
    let manifest = next_name(alloc, fields)?;
    let payload = next_payload(alloc, fields)?;
    if !fields.is_empty() {
        return Err(LineFault::BadLine);
    }
    Ok(ToldFrame {
        uid,
        refs_version,
        manifests_version,
        serializer,
        sender,
        recipient,
        manifest,
        payload,
    })
}

/// The frame that a line tells; its literals are ASCII. `BadLine` where it tells none.
pub(crate) fn read_frame(alloc: Global, line: &[u8]) -> Result<ToldFrame, LineFault>
    ensures told { TellsAs told_contents result (contents_told line.now) }
    ensures texts { IfOk result (λ frame. HasTexts (told_contents frame)) }
{
    let mut fields = Tokens::new(line);
    let Some(word) = fields.next() else {
        return Err(LineFault::BadLine);
    };
    if word != b"frame".as_slice() {
        return Err(LineFault::BadLine);
    }
    read_fields(alloc, &mut fields)
}
