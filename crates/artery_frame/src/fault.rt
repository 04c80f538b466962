use artery_base::NoMemory;
use std::alloc::AllocError;

/// Why a stream can't be read on.
#[derive(Clone, Copy, Debug, PartialEq, Eq)]
pub enum FrameFault {
    /// The byte at this place, from 0 to 3, is not that of `AKKA`.
    BadMagic { at: u64 },
    /// The byte after `AKKA` is neither 1 nor 2.
    BadStream { id: u8 },
    /// A frame's length is above 262,144.
    TooLong { len: u32 },
}

/// Why a piece was not taken.
#[derive(Clone, Copy, Debug, PartialEq, Eq)]
pub enum FeedFault {
    /// A fault of the stream was answered before.
    Broken,
    /// There is no memory for the piece.
    NoMemory,
}

/// A fault of the stream was answered before, so no piece is taken any more.
#[derive(Clone, Copy, Debug, PartialEq, Eq)]
pub struct Broken;

impl From<AllocError> for FeedFault {
    ghost use Rattle.std.specs.Prelude.{◌≡◌};
    ghost use Rattle.artery_frame.specs.declared.fault.FeedFault.TheVariants.{NoMemory as without_memory};

    ghost from_gives = { λ _ e. e ≡ without_memory };

    fn from(_error: AllocError) -> FeedFault {
        FeedFault::NoMemory
    }
}
