ghost use Rattle.std.specs.Prelude.{◌≡◌, ◌+◌, ◌^◌, ◌<◌, ◌≤◌, ◌++◌, length, IsOkUnless, IfOk, OnOk, OnErr};
ghost use Rattle.artery_header.specs.Envelope.{canonical, refusal, IsFrontOf};
ghost use Rattle.artery_control.specs.Payload.{payload_of};
ghost use Rattle.artery_control_frame.specs.ControlFrame.{control_envelope, control_head, control_frame, Answers};

use crate::laws::control_frame_is_read;
use artery_base::{Bytes, NoMemory};
use artery_control::{Control, manifest_of, write_control};
use artery_header::{EncodeFault, Envelope, Name, write_envelope};

/// The serializer of all control messages.
pub const CONTROL_SERIALIZER: i32 = 17;

/// The most bytes of a payload that a frame has room for.
pub const MOST_PAYLOAD: usize = 262_109;

/// How many bytes an envelope has beside its payload: 28 of the header, 2 for the length of each of three names,
/// and the letter.
const ENVELOPE_LEN: usize = 35;

/// How many bytes the canonical payload has. It is written behind `out` to be counted, and taken off again.
fn payload_len(control: &Control, out: &mut Bytes) -> Result<usize, NoMemory>
    ensures len { IfOk result (λ n. n ≡ length (payload_of control.now)) }
    ensures small { IfOk result (λ n. n < 2 ^ 63) }
    ensures same { out.new ≡ out.old }
{
    let before = out.len();
    write_control(control, out)?;
    let len = out.as_slice()[before..].len();
    out.truncate(before);
    Ok(len)
}

/// Appends the envelope before its payload. Without memory nothing changes.
#[tactic(auto, using(crate::proofs::Frames::letter_is_text))]
fn append_head(control: &Control, uid: u64, out: &mut Bytes) -> Result<(), EncodeFault>
    ensures ok { OnOk result (out.new ≡ out.old ++ canonical (control_head control.now uid)) }
    ensures memory { IsOkUnless result EncodeFault.NoMemory }
    ensures err { OnErr result (out.new ≡ out.old) }
{
    let manifest = [manifest_of(control)];
    let head = Envelope {
        uid,
        refs_version: 0,
        manifests_version: 0,
        serializer: CONTROL_SERIALIZER,
        sender: Name::Literal(&[]),
        recipient: Name::Literal(&[]),
        manifest: Name::Literal(&manifest),
        payload: &[],
    };
    write_envelope(&head, out)
}

/// Appends the frame of a payload of this length; without memory only a front of it.
#[tactic(auto, using(crate::proofs::Frames::frame_steps))]
fn append_frame(
    control: &Control,
    uid: u64,
    payload_len: usize,
    out: &mut Bytes,
) -> Result<(), EncodeFault>
    requires len { payload_len ≡ length (payload_of control.now) }
    requires small { payload_len ≤ 262109 }
    ensures ok { OnOk result (out.new ≡ out.old ++ control_frame control.now uid) }
    ensures memory { IsOkUnless result EncodeFault.NoMemory }
    ensures err { OnErr result (IsFrontOf out.old out.new) }
{
    control_frame_is_read();
    let len = (ENVELOPE_LEN + payload_len) as u32;
    out.extend_from_slice(&len.to_le_bytes())?;
    append_head(control, uid, out)?;
    write_control(control, out)?;
    Ok(())
}

/// Appends the canonical frame of a control message of the incarnation with this UID: the length of its envelope in
/// four bytes, the lowest first, and the envelope. `FrameLong` comes exactly where that has more than 262,144 bytes:
/// where the payload has more than 262,109. What is refused, and want of memory, changes nothing.
pub fn write_control_frame(control: &Control, uid: u64, out: &mut Bytes) -> Result<(), EncodeFault>
    ensures answer { Answers result (refusal (control_envelope control.now uid)) }
    ensures ok { OnOk result (out.new ≡ out.old ++ control_frame control.now uid) }
    ensures err { OnErr result (out.new ≡ out.old) }
{
    let len = payload_len(control, out)?;
    if len > MOST_PAYLOAD {
        return Err(EncodeFault::FrameLong {
            len: ENVELOPE_LEN + len,
        });
    }
    let before = out.len();
    let appended = append_frame(control, uid, len, out);
    out.settle(before, appended)
}
