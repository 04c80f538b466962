ghost use Rattle.std.specs.Prelude.{◌≡◌, ◌+◌, ◌≤◌, ℕ, List, length, drop, IfOk, IfErr, Ok, Err};
ghost use Rattle.artery_base.specs.Words.{Shows};
ghost use Rattle.artery_header.specs.FirstFault.{IsFirstFault};
ghost use Rattle.artery_header.specs.Envelope.{EnvelopeOf, IsLaidOut, HasTexts, envelope_of, name_of, text_at, name_at, body_of, read_of};

use crate::envelope::{Envelope, Name, Which};
use crate::fault::HeaderFault;
use crate::numbers::{i32_at, is_text, u16_at, u32_at, u64_at};

/// How many bytes the header has.
pub const HEADER_LEN: usize = 28;

/// From this tag on a bit of the mask 0xFF000000 is set.
const FIRST_INDEX_TAG: u32 = 0x0100_0000;

/// The bit that says that metadata follows the header.
const METADATA_FLAG: u8 = 1;

/// The text at the front, and the bytes behind it.
#[tactic(auto, unfolding(crate::specs::Envelope::text_at))]
fn text_at(which: Which, bytes: &[u8]) -> Result<(Name<'_>, &[u8]), HeaderFault>
    ensures { Shows (λ x. (name_of x.0, x.1.now)) result (text_at which bytes.now) }
{
    if bytes.len() < 2 {
        return Err(HeaderFault::LiteralPast { which });
    }
    let len = u16_at(bytes, 0) as usize;
    let more = &bytes[2..];
    if more.len() < len {
        return Err(HeaderFault::LiteralPast { which });
    }
    let (text, rest) = more.split_at(len);
    if is_text(text) {
        Ok((Name::Literal(text), rest))
    } else {
        Err(HeaderFault::NotAscii { which })
    }
}

/// The name with this tag, and the bytes behind its text, if it has one.
#[tactic(auto, unfolding(crate::specs::Envelope::name_at))]
fn name_at(which: Which, tag: u32, bytes: &[u8]) -> Result<(Name<'_>, &[u8]), HeaderFault>
    ensures { Shows (λ x. (name_of x.0, x.1.now)) result (name_at which tag bytes.now) }
{
    if tag < FIRST_INDEX_TAG {
        text_at(which, bytes)
    } else {
        Ok((Name::Index((tag % 65_536) as u16), bytes))
    }
}

/// The envelope with this header and what follows it.
#[tactic(auto, unfolding(crate::specs::Envelope::body_of))]
fn body_of<'a>(bytes: &'a [u8], texts: &'a [u8]) -> Result<Envelope<'a>, HeaderFault>
    requires { 28 ≤ length bytes.now }
    ensures { Shows envelope_of result (body_of bytes.now texts.now) }
{
    let (sender, rest) = name_at(Which::Sender, u32_at(bytes, 16), texts)?;
    let (recipient, rest) = name_at(Which::Recipient, u32_at(bytes, 20), rest)?;
    let (manifest, payload) = name_at(Which::Manifest, u32_at(bytes, 24), rest)?;
    Ok(Envelope {
        uid: u64_at(bytes, 4),
        refs_version: bytes[2],
        manifests_version: bytes[3],
        serializer: i32_at(bytes, 12),
        sender,
        recipient,
        manifest,
        payload,
    })
}

/// The envelope or the first fault, by the definition.
#[tactic(auto, unfolding(crate::specs::Envelope::read_of))]
fn read_exactly(bytes: &[u8]) -> Result<Envelope<'_>, HeaderFault>
    ensures { Shows envelope_of result (read_of bytes.now) }
{
    if bytes.len() < HEADER_LEN {
        return Err(HeaderFault::Short { len: bytes.len() });
    }
    if bytes[0] != 0 {
        return Err(HeaderFault::Version { v: bytes[0] });
    }
    if bytes[1] % 2 == METADATA_FLAG {
        return Err(HeaderFault::Metadata);
    }
    body_of(bytes, &bytes[HEADER_LEN..])
}

/// The envelope that the bytes stand for, exactly where they are laid out as one; else their first fault:
/// `Short`, `Version`, `Metadata`, and then for the literal of the sender, the recipient and the manifest
/// in turn `LiteralPast` and `NotAscii`. Takes no memory.
pub fn read_envelope(bytes: &[u8]) -> Result<Envelope<'_>, HeaderFault>
    ensures found { IfOk result (λ e. IsLaidOut bytes.now (envelope_of e)) }
    ensures only { (e : EnvelopeOf) → IsLaidOut bytes.now e → Shows envelope_of result (Ok e) }
    ensures fault { IfErr result (IsFirstFault bytes.now) }
    ensures refused { (fault : HeaderFault) → IsFirstFault bytes.now fault → result ≡ Err fault }
    ensures texts { IfOk result (λ e. HasTexts (envelope_of e)) }
    ensures exact { Shows envelope_of result (read_of bytes.now) }
{
    read_exactly(bytes)
}
