ghost use Rattle.std.specs.Prelude.{◌≡◌, ◌+◌, ◌≤◌, length, take, drop};
ghost use Rattle.artery_frame.specs.Stream.{front_of, front_by};
ghost use Rattle.artery_frame.specs.Kept.{FindsFront};

use crate::fault::FrameFault;
use byteorder::{ByteOrder, LittleEndian};

/// The most bytes of a frame.
pub const FRAME_LIMIT: u32 = 262_144;

/// How many bytes spell a frame's length.
pub const LENGTH_LEN: usize = 4;

/// The length of the whole frame that stands at the front of the bytes, behind its length.
#[tactic(auto, unfolding(crate::specs::Stream::front_of))]
pub fn frame_len(bytes: &[u8]) -> Result<Option<usize>, FrameFault>
    ensures { FindsFront result bytes.now }
{
    if bytes.len() < LENGTH_LEN {
        return Ok(None);
    }
    let len = LittleEndian::read_u32(bytes);
    if len > FRAME_LIMIT {
        return Err(FrameFault::TooLong { len });
    }
    let len = len as usize;
    if bytes.len() - LENGTH_LEN < len {
        return Ok(None);
    }
    Ok(Some(len))
}
