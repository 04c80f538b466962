ghost use Rattle.std.specs.Prelude.{◌≡◌, ℤ, [], ◌∷◌, ◌++◌, length, take, codes, decimal, OnOk, OnErr, Ok, Err};
ghost use Rattle.std.specs.Fmt.{signed_decimal};
ghost use Rattle.artery_text.specs.Spelling.{word_text, hex_text};
ghost use Rattle.artery_control.specs.Message.{message_of};
ghost use Rattle.artery_header.specs.declared.fault.HeaderFault.TheVariants.{LiteralPast, NotAscii};
ghost use Rattle.artery_header.specs.Envelope.{EnvelopeOf as Contents, Index as Number, name_of as named, envelope_of as contents, read_of};
ghost use Rattle.artery_capture.specs.ControlText.{control_text, fault_text, control_line};
ghost use Rattle.artery_capture.specs.FrameText.{name_text, numbers_text, names_text, contents_text, frame_line, which_word, header_fault_text, drop_line, is_control_serializer, literal_lines, message_lines, frame_lines};

use crate::control_text::print_control;
use crate::fault_text::print_control_fault;
use artery_base::{Bytes, NoMemory};
use artery_control::{Control, ControlFault, read_control};
use artery_header::{Envelope, HeaderFault, Name, Which, read_envelope};
use artery_text::{print_hex, print_int32, print_number, print_word};
use std::alloc::Global;

/// The serializer of control messages.
const CONTROL_SERIALIZER: i32 = 17;

fn put_index(index: u16, out: &mut Bytes) -> Result<(), NoMemory>
    ensures ok { OnOk result (out.new ≡ out.old ++ name_text (Number index)) }
    ensures err { OnErr result (out.new ≡ out.old) }
{
    let before = out.len();
    out.push(b'@')?;
    let added = print_number(u64::from(index), out);
    if added.is_err() {
        out.truncate(before);
    }
    added
}

fn put_name(name: &Name<'_>, out: &mut Bytes) -> Result<(), NoMemory>
    ensures ok { OnOk result (out.new ≡ out.old ++ name_text (named name.now)) }
    ensures err { OnErr result (out.new ≡ out.old) }
{
    match name {
        Name::Literal(text) => print_word(text, out),
        Name::Index(index) => put_index(*index, out),
    }
}

#[tactic(auto, using(crate::proofs::Appending::keeps_front, crate::proofs::Appending::keeps_on))]
fn put_numbers(envelope: &Envelope<'_>, out: &mut Bytes) -> Result<(), NoMemory>
    ensures ok { OnOk result (out.new ≡ out.old ++ numbers_text (contents envelope.now)) }
    ensures kept { take (length out.old) out.new ≡ out.old }
{
    print_number(envelope.uid, out)?;
    out.push(b' ')?;
    print_number(u64::from(envelope.refs_version), out)?;
    out.push(b' ')?;
    print_number(u64::from(envelope.manifests_version), out)?;
    out.push(b' ')?;
    print_int32(envelope.serializer, out)
}

#[tactic(auto, using(crate::proofs::Appending::keeps_front, crate::proofs::Appending::keeps_on))]
fn put_names(envelope: &Envelope<'_>, out: &mut Bytes) -> Result<(), NoMemory>
    ensures ok { OnOk result (out.new ≡ out.old ++ names_text (contents envelope.now)) }
    ensures kept { take (length out.old) out.new ≡ out.old }
{
    put_name(&envelope.sender, out)?;
    out.push(b' ')?;
    put_name(&envelope.recipient, out)?;
    out.push(b' ')?;
    put_name(&envelope.manifest, out)
}

#[tactic(auto, using(crate::proofs::Appending::keeps_front, crate::proofs::Appending::keeps_on))]
fn put_contents(envelope: &Envelope<'_>, out: &mut Bytes) -> Result<(), NoMemory>
    ensures ok { OnOk result (out.new ≡ out.old ++ contents_text (contents envelope.now)) }
    ensures kept { take (length out.old) out.new ≡ out.old }
{
    put_numbers(envelope, out)?;
    out.push(b' ')?;
    put_names(envelope, out)?;
    out.push(b' ')?;
    print_hex(envelope.payload, out)
}

#[tactic(auto, using(crate::proofs::Appending::keeps_front, crate::proofs::Appending::keeps_on))]
fn put_frame_line(envelope: &Envelope<'_>, out: &mut Bytes) -> Result<(), NoMemory>
    ensures ok { OnOk result (out.new ≡ out.old ++ frame_line (contents envelope.now)) }
    ensures kept { take (length out.old) out.new ≡ out.old }
{
    out.extend_from_slice(b"frame ")?;
    put_contents(envelope, out)?;
    out.push(b'\n')
}

fn which_word(which: Which) -> &'static [u8]
    ensures { result.now ≡ which_word which }
{
    match which {
        Which::Sender => b"sender",
        Which::Recipient => b"recipient",
        Which::Manifest => b"manifest",
    }
}

fn put_which(which: Which, out: &mut Bytes) -> Result<(), NoMemory>
    ensures ok { OnOk result (out.new ≡ out.old ++ which_word which) }
    ensures err { OnErr result (out.new ≡ out.old) }
{
    out.extend_from_slice(which_word(which))
}

// A word and a number.
#[tactic(auto, using(crate::proofs::Appending::keeps_front, crate::proofs::Appending::keeps_on))]
fn put_count(word: &[u8], count: u64, out: &mut Bytes) -> Result<(), NoMemory>
    ensures ok { OnOk result (out.new ≡ out.old ++ word.now ++ decimal count) }
    ensures kept { take (length out.old) out.new ≡ out.old }
{
    out.extend_from_slice(word)?;
    print_number(count, out)
}

#[tactic(auto, using(crate::proofs::Appending::keeps_front, crate::proofs::Appending::keeps_on))]
fn put_literal_past(which: Which, out: &mut Bytes) -> Result<(), NoMemory>
    ensures ok { OnOk result (out.new ≡ out.old ++ header_fault_text (LiteralPast which)) }
    ensures kept { take (length out.old) out.new ≡ out.old }
{
    out.extend_from_slice(b"literal-past ")?;
    put_which(which, out)
}

#[tactic(auto, using(crate::proofs::Appending::keeps_front, crate::proofs::Appending::keeps_on))]
fn put_not_ascii(which: Which, out: &mut Bytes) -> Result<(), NoMemory>
    ensures ok { OnOk result (out.new ≡ out.old ++ header_fault_text (NotAscii which)) }
    ensures kept { take (length out.old) out.new ≡ out.old }
{
    out.extend_from_slice(b"not-ascii ")?;
    put_which(which, out)
}

#[tactic(auto, using(crate::proofs::Appending::keeps_front, crate::proofs::Appending::keeps_on))]
fn put_header_fault(fault: HeaderFault, out: &mut Bytes) -> Result<(), NoMemory>
    ensures ok { OnOk result (out.new ≡ out.old ++ header_fault_text fault) }
    ensures kept { take (length out.old) out.new ≡ out.old }
{
    match fault {
        HeaderFault::Short { len } => put_count(b"short ", len as u64, out),
        HeaderFault::Version { v } => put_count(b"version ", u64::from(v), out),
        HeaderFault::Metadata => out.extend_from_slice(b"metadata"),
        HeaderFault::LiteralPast { which } => put_literal_past(which, out),
        HeaderFault::NotAscii { which } => put_not_ascii(which, out),
    }
}

#[tactic(auto, using(crate::proofs::Appending::keeps_front, crate::proofs::Appending::keeps_on))]
fn put_drop_line(fault: HeaderFault, out: &mut Bytes) -> Result<(), NoMemory>
    ensures ok { OnOk result (out.new ≡ out.old ++ drop_line fault) }
    ensures kept { take (length out.old) out.new ≡ out.old }
{
    out.extend_from_slice(b"drop ")?;
    put_header_fault(fault, out)?;
    out.push(b'\n')
}

#[tactic(auto, using(crate::proofs::Appending::keeps_front, crate::proofs::Appending::keeps_on))]
fn put_control_line(control: &Control, out: &mut Bytes) -> Result<(), NoMemory>
    ensures ok { OnOk result (out.new ≡ out.old ++ control_line (Ok control.now)) }
    ensures kept { take (length out.old) out.new ≡ out.old }
{
    out.extend_from_slice(b"control ")?;
    print_control(control, out)?;
    out.push(b'\n')
}

#[tactic(auto, using(crate::proofs::Appending::keeps_front, crate::proofs::Appending::keeps_on))]
fn put_fault_line(fault: ControlFault, out: &mut Bytes) -> Result<(), NoMemory>
    ensures ok { OnOk result (out.new ≡ out.old ++ control_line (Err fault)) }
    ensures kept { take (length out.old) out.new ≡ out.old }
{
    out.extend_from_slice(b"control fault ")?;
    print_control_fault(fault, out)?;
    out.push(b'\n')
}

fn put_literal_lines(
    alloc: Global,
    manifest: &[u8],
    payload: &[u8],
    out: &mut Bytes,
) -> Result<(), NoMemory>
    ensures ok { OnOk result (out.new ≡ out.old ++ control_line (message_of manifest.now payload.now)) }
    ensures kept { take (length out.old) out.new ≡ out.old }
{
    match read_control(alloc, manifest, payload) {
        Ok(control) => put_control_line(&control, out),
        Err(ControlFault::NoMemory) => Err(NoMemory),
        Err(fault) => put_fault_line(fault, out),
    }
}

fn is_control(serializer: i32) -> bool
    ensures { result ≡ is_control_serializer serializer }
{
    serializer == CONTROL_SERIALIZER
}

fn put_message_lines(
    alloc: Global,
    envelope: &Envelope<'_>,
    out: &mut Bytes,
) -> Result<(), NoMemory>
    ensures ok { OnOk result (out.new ≡ out.old ++ message_lines (contents envelope.now)) }
    ensures kept { take (length out.old) out.new ≡ out.old }
{
    if !is_control(envelope.serializer) {
        return Ok(());
    }
    match envelope.manifest {
        Name::Literal(manifest) => put_literal_lines(alloc, manifest, envelope.payload, out),
        Name::Index(_) => Ok(()),
    }
}

#[tactic(auto, using(crate::proofs::Appending::keeps_front, crate::proofs::Appending::keeps_on))]
fn put_frame(alloc: Global, bytes: &[u8], out: &mut Bytes) -> Result<(), NoMemory>
    ensures ok { OnOk result (out.new ≡ out.old ++ frame_lines bytes.now) }
    ensures kept { take (length out.old) out.new ≡ out.old }
{
    match read_envelope(bytes) {
        Ok(envelope) => {
            put_frame_line(&envelope, out)?;
            put_message_lines(alloc, &envelope, out)
        }
        Err(fault) => put_drop_line(fault, out),
    }
}

/// Appends the lines of a frame: what its envelope carries, and behind an envelope of a control message
/// with a literal manifest the message or its first fault; or why the frame is no envelope. Without
/// memory `out` stays as it was.
pub fn print_frame(alloc: Global, bytes: &[u8], out: &mut Bytes) -> Result<(), NoMemory>
    ensures ok { OnOk result (out.new ≡ out.old ++ frame_lines bytes.now) }
    ensures err { OnErr result (out.new ≡ out.old) }
{
    let before = out.len();
    let appended = put_frame(alloc, bytes, out);
    out.settle(before, appended)
}
