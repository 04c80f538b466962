ghost use Rattle.std.specs.Prelude.{◌≡◌};
ghost use Rattle.artery_base.specs.Words.{Shows};
ghost use Rattle.artery_wire.specs.Reading.{digits_at, varint_at};

use crate::fault::FaultKind;

/// The most bytes that a varint has.
pub(crate) const MAX_LEN: u32 = 10;

/// The lowest number that doesn't fit one byte of a varint; in a byte, the bit that says that more follow.
pub(crate) const BASE: u8 = 128;

#[tactic(auto, unfolding(crate::specs::Reading::digits_at))]
fn digits_front(left: u32, bytes: &[u8]) -> Result<(u64, &[u8]), FaultKind>
    ensures { Shows (λ x. (x.0, x.1.now)) result (digits_at left bytes.now) }
{
    if left == 0 {
        return Err(FaultKind::Varint);
    }
    match bytes {
        [] => Err(FaultKind::Truncated),
        [byte, rest @ ..] => {
            if *byte < BASE {
                return Ok((*byte as u64, rest));
            }
            let (high, rest) = digits_front(left - 1, rest)?;
            let low = (*byte % BASE) as u64;
            Ok((high.wrapping_mul(BASE as u64).wrapping_add(low), rest))
        }
    }
}

/// The varint at the front, modulo 2^64, and the bytes after it.
#[tactic(auto, unfolding(crate::specs::Reading::varint_at, crate::specs::Reading::digits_at))]
pub(crate) fn varint_front(bytes: &[u8]) -> Result<(u64, &[u8]), FaultKind>
    ensures { Shows (λ x. (x.0, x.1.now)) result (varint_at bytes.now) }
{
    match bytes {
        [byte, rest @ ..] if *byte < BASE => Ok((*byte as u64, rest)),
        [low, byte, rest @ ..] if *byte < BASE => {
            let high = *byte as u64;
            let low = (*low % BASE) as u64;
            Ok((high.wrapping_mul(BASE as u64).wrapping_add(low), rest))
        }
        _ => digits_front(MAX_LEN, bytes),
    }
}
