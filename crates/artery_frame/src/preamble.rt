ghost use Rattle.std.specs.Prelude.{◌≡◌, ◌+◌, ◌≤◌, length, IsSome, IfOk};
ghost use Rattle.artery_frame.specs.Stream.{mismatch, preamble_of};

use crate::fault::FrameFault;
use crate::stream::Stream;

/// How many bytes stand before the first frame.
pub const PREAMBLE_LEN: usize = 5;

const MAGIC: [u8; 4] = *b"AKKA";

const CONTROL_ID: u8 = 1;

const ORDINARY_ID: u8 = 2;

/// The place of the first byte that differs from the wanted one, counted on from `at`.
fn mismatch(at: u64, wanted: &[u8], bytes: &[u8]) -> Option<u64>
    requires { at + length wanted.now ≤ 4 }
    ensures { result ≡ mismatch at wanted.now bytes.now }
{
    match wanted {
        [] => None,
        [first, wanted @ ..] => match bytes {
            [] => None,
            [byte, bytes @ ..] => {
                if *byte == *first {
                    mismatch(at + 1, wanted, bytes)
                } else {
                    Some(at)
                }
            }
        },
    }
}

/// What the stream that begins with these bytes carries, where they tell it, or why it is none.
#[tactic(auto, unfolding(crate::specs::Stream::preamble_of))]
pub fn preamble_of(bytes: &[u8]) -> Result<Option<Stream>, FrameFault>
    ensures value { result ≡ preamble_of bytes.now }
    ensures whole { IfOk result (λ stream. IsSome stream → 5 ≤ length bytes.now) }
{
    if let Some(at) = mismatch(0, &MAGIC, bytes) {
        return Err(FrameFault::BadMagic { at });
    }
    match bytes.get(4).copied() {
        None => Ok(None),
        Some(CONTROL_ID) => Ok(Some(Stream::Control)),
        Some(ORDINARY_ID) => Ok(Some(Stream::Ordinary)),
        Some(id) => Err(FrameFault::BadStream { id }),
    }
}
