ghost use Rattle.std.specs.Prelude.{◌≡◌, ◌++◌, ◌≤◌, length, OnOk, OnErr};
ghost use Rattle.artery_frame.specs.Stream.{frame_limit, preamble, framed};

use crate::stream::Stream;
use artery_base::{Bytes, NoMemory};

/// Appends the five bytes that a stream begins with. Without memory nothing changes.
pub fn write_preamble(stream: Stream, out: &mut Bytes) -> Result<(), NoMemory>
    ensures ok { OnOk result (out.new ≡ out.old ++ preamble stream) }
    ensures err { OnErr result (out.new ≡ out.old) }
{
    match stream {
        Stream::Control => out.extend_from_slice(&[b'A', b'K', b'K', b'A', 1]),
        Stream::Ordinary => out.extend_from_slice(&[b'A', b'K', b'K', b'A', 2]),
    }
}

/// Appends a frame: its length in four bytes, the lowest first, and its bytes, at most 262,144.
/// Without memory nothing changes.
pub fn write_frame(bytes: &[u8], out: &mut Bytes) -> Result<(), NoMemory>
    requires { length bytes.now ≤ frame_limit }
    ensures ok { OnOk result (out.new ≡ out.old ++ framed bytes.now) }
    ensures err { OnErr result (out.new ≡ out.old) }
{
    let before = out.len();
    let len = bytes.len() as u32;
    out.extend_from_slice(&len.to_le_bytes())?;
    let appended = out.extend_from_slice(bytes);
    out.settle(before, appended)
}
