ghost use Rattle.std.specs.Prelude.{◌≡◌, ◌+◌, ◌*◌, ◌^◌, ◌<◌, ◌≤◌, ◌++◌, false, length, take, drop, IsOkUnless, IfSome, IfOk, IfErr, None, Some, Ok, Err, FitsSigned, OnOk, OnErr};
ghost use Rattle.artery_header.specs.Envelope.{envelope_of, name_of, canonical, canonical_len, refusal, HasTexts, spelled, spelled_len, tag_of, is_long, numbers, tags, IsFrontOf, IsName, IsEnvelope, read_of};
ghost use Rattle.std.specs.Int.{cast_unsigned, w32};
ghost use Rattle.byteorder.specs.Endian.{little_bytes};

use crate::envelope::{Envelope, Name, Which};
use crate::fault::EncodeFault;
use crate::laws::written_is_read;
use crate::read::HEADER_LEN;
use artery_base::{Bytes, NoMemory};

/// The most bytes of a literal.
pub const LITERAL_LIMIT: usize = 65_535;

/// The most bytes of an envelope.
pub const FRAME_LIMIT: usize = 262_144;

/// The tag of the first name of a table.
const INDEX_TAG: u32 = 0xFF00_0000;

/// Whether the name is a literal whose length needs more than two bytes.
fn is_long(name: &Name<'_>) -> bool
    ensures { result ≡ is_long (name_of name.now) }
{
    match name {
        Name::Literal(text) => text.len() > LITERAL_LIMIT,
        Name::Index(_) => false,
    }
}

/// How many bytes the name takes behind the header.
fn spelled_len(name: &Name<'_>) -> usize
    requires { is_long (name_of name.now) ≡ false }
    ensures value { result ≡ spelled_len (name_of name.now) }
    ensures small { result ≤ 65537 }
{
    match name {
        Name::Literal(text) => 2 + text.len(),
        Name::Index(_) => 0,
    }
}

/// The name's tag, where its literal would stand at this place of the envelope.
fn tag_of(name: &Name<'_>, at: usize) -> u32
    requires { at < 2 ^ 32 }
    ensures tag { result ≡ tag_of at (name_of name.now) }
    ensures fits { IsName (name_of name.now) }
{
    match name {
        Name::Literal(_) => at as u32,
        Name::Index(index) => INDEX_TAG + *index as u32,
    }
}

/// Appends what stands behind the header for the name. Without memory nothing changes.
fn append_name(name: &Name<'_>, out: &mut Bytes) -> Result<(), NoMemory>
    requires { is_long (name_of name.now) ≡ false }
    ensures ok { OnOk result (out.new ≡ out.old ++ spelled (name_of name.now)) }
    ensures err { OnErr result (out.new ≡ out.old) }
{
    match name {
        Name::Literal(text) => append_text(text, out),
        Name::Index(_) => Ok(()),
    }
}

/// Appends a text behind its length. Without memory nothing changes.
fn append_text(text: &[u8], out: &mut Bytes) -> Result<(), NoMemory>
    requires { length text.now ≤ 65535 }
    ensures ok { OnOk result (out.new ≡ out.old ++ (little_bytes 2 (length text.now) ++ text.now)) }
    ensures err { OnErr result (out.new ≡ out.old) }
{
    let before = out.len();
    let len = text.len() as u16;
    out.extend_from_slice(&len.to_le_bytes())?;
    let appended = out.extend_from_slice(text);
    out.settle(before, appended)
}

/// How many bytes the envelope has.
fn envelope_len(envelope: &Envelope<'_>) -> usize
    requires sender { is_long (name_of envelope.now.sender) ≡ false }
    requires recipient { is_long (name_of envelope.now.recipient) ≡ false }
    requires manifest { is_long (name_of envelope.now.manifest) ≡ false }
    ensures { result ≡ canonical_len (envelope_of envelope.now) }
{
    let names = spelled_len(&envelope.sender)
        + spelled_len(&envelope.recipient)
        + spelled_len(&envelope.manifest);
    HEADER_LEN + names + envelope.payload.len()
}

/// Why the envelope can't be written, if so.
fn refusal(envelope: &Envelope<'_>) -> Option<EncodeFault>
    ensures { result ≡ refusal (envelope_of envelope.now) }
{
    if is_long(&envelope.sender) {
        return Some(EncodeFault::LiteralLong {
            which: Which::Sender,
        });
    }
    if is_long(&envelope.recipient) {
        return Some(EncodeFault::LiteralLong {
            which: Which::Recipient,
        });
    }
    if is_long(&envelope.manifest) {
        return Some(EncodeFault::LiteralLong {
            which: Which::Manifest,
        });
    }
    let len = envelope_len(envelope);
    if len > FRAME_LIMIT {
        return Some(EncodeFault::FrameLong { len });
    }
    None
}

/// The serializer's number as it is written.
fn serializer_of(envelope: &Envelope<'_>) -> [u8; 4]
    ensures bytes { result ≡ little_bytes 4 (cast_unsigned w32 envelope.now.serializer) }
    ensures fits { FitsSigned w32 envelope.now.serializer }
{
    envelope.serializer.to_le_bytes()
}

/// The first 16 bytes of the header.
fn numbers_of(envelope: &Envelope<'_>) -> [u8; 16]
    ensures bytes { result ≡ numbers (envelope_of envelope.now) }
    ensures uid { envelope.now.uid < 2 ^ 64 }
    ensures serializer { FitsSigned w32 envelope.now.serializer }
{
    let uid = envelope.uid.to_le_bytes();
    let serializer = serializer_of(envelope);
    [
        0,
        0,
        envelope.refs_version,
        envelope.manifests_version,
        uid[0],
        uid[1],
        uid[2],
        uid[3],
        uid[4],
        uid[5],
        uid[6],
        uid[7],
        serializer[0],
        serializer[1],
        serializer[2],
        serializer[3],
    ]
}

/// The other 12 bytes of the header, which are the tags of the names.
fn tags_of(envelope: &Envelope<'_>) -> [u8; 12]
    requires sender { is_long (name_of envelope.now.sender) ≡ false }
    requires recipient { is_long (name_of envelope.now.recipient) ≡ false }
    ensures bytes { result ≡ tags (envelope_of envelope.now) }
    ensures sender { IsName (name_of envelope.now.sender) }
    ensures recipient { IsName (name_of envelope.now.recipient) }
    ensures manifest { IsName (name_of envelope.now.manifest) }
{
    let recipient_at = HEADER_LEN + spelled_len(&envelope.sender);
    let manifest_at = recipient_at + spelled_len(&envelope.recipient);
    let sender = tag_of(&envelope.sender, HEADER_LEN).to_le_bytes();
    let recipient = tag_of(&envelope.recipient, recipient_at).to_le_bytes();
    let manifest = tag_of(&envelope.manifest, manifest_at).to_le_bytes();
    [
        sender[0],
        sender[1],
        sender[2],
        sender[3],
        recipient[0],
        recipient[1],
        recipient[2],
        recipient[3],
        manifest[0],
        manifest[1],
        manifest[2],
        manifest[3],
    ]
}

/// Appends the envelope; without memory only a front of it.
#[tactic(auto, using(crate::proofs::Canonical::in_front, crate::proofs::Canonical::front_more, crate::proofs::Canonical::front_same))]
fn append_parts(envelope: &Envelope<'_>, out: &mut Bytes) -> Result<(), NoMemory>
    requires sender { is_long (name_of envelope.now.sender) ≡ false }
    requires recipient { is_long (name_of envelope.now.recipient) ≡ false }
    requires manifest { is_long (name_of envelope.now.manifest) ≡ false }
    ensures ok { OnOk result (out.new ≡ out.old ++ canonical (envelope_of envelope.now)) }
    ensures fits { OnOk result (IsEnvelope (envelope_of envelope.now)) }
    ensures err { OnErr result (IsFrontOf out.old out.new) }
{
    out.extend_from_slice(&numbers_of(envelope))?;
    out.extend_from_slice(&tags_of(envelope))?;
    append_name(&envelope.sender, out)?;
    append_name(&envelope.recipient, out)?;
    append_name(&envelope.manifest, out)?;
    out.extend_from_slice(envelope.payload)
}

/// Appends the envelope. Without memory nothing changes.
fn append_envelope(envelope: &Envelope<'_>, out: &mut Bytes) -> Result<(), NoMemory>
    requires sender { is_long (name_of envelope.now.sender) ≡ false }
    requires recipient { is_long (name_of envelope.now.recipient) ≡ false }
    requires manifest { is_long (name_of envelope.now.manifest) ≡ false }
    ensures ok { OnOk result (out.new ≡ out.old ++ canonical (envelope_of envelope.now)) }
    ensures fits { OnOk result (IsEnvelope (envelope_of envelope.now)) }
    ensures err { OnErr result (out.new ≡ out.old) }
{
    let before = out.len();
    let appended = append_parts(envelope, out);
    out.settle(before, appended)
}

/// How many bytes the canonical envelope has, at most 262,144; or why it is not written: `LiteralLong` names the
/// first literal above 65,535 bytes, and `FrameLong` comes where the whole has more than 262,144.
pub fn written_len(envelope: &Envelope<'_>) -> Result<usize, EncodeFault>
    ensures refused { IfErr result (λ fault. refusal (envelope_of envelope.now) ≡ Some fault) }
    ensures written { IfOk result (λ _. refusal (envelope_of envelope.now) ≡ None) }
    ensures len { IfOk result (λ n. n ≡ length (canonical (envelope_of envelope.now))) }
    ensures small { IfOk result (λ n. n ≤ 262144) }
{
    written_is_read();
    if let Some(fault) = refusal(envelope) {
        return Err(fault);
    }
    let len = envelope_len(envelope);
    Ok(len)
}

/// Appends the canonical bytes of the envelope, whose literals are ASCII. `LiteralLong` names the first
/// literal above 65,535 bytes; `FrameLong` comes where the whole has more than 262,144. What is refused,
/// and want of memory, changes nothing. What was appended is read as the same envelope.
pub fn write_envelope(envelope: &Envelope<'_>, out: &mut Bytes) -> Result<(), EncodeFault>
    requires { HasTexts (envelope_of envelope.now) }
    ensures refused { IfSome (refusal (envelope_of envelope.now)) (λ fault. result ≡ Err fault) }
    ensures memory { refusal (envelope_of envelope.now) ≡ None → IsOkUnless result EncodeFault.NoMemory }
    ensures ok { OnOk result (out.new ≡ out.old ++ canonical (envelope_of envelope.now)) }
    ensures read { OnOk result (read_of (drop (length out.old) out.new) ≡ Ok (envelope_of envelope.now)) }
    ensures err { OnErr result (out.new ≡ out.old) }
{
    if let Some(fault) = refusal(envelope) {
        return Err(fault);
    }
    append_envelope(envelope, out)?;
    Ok(())
}
