use crate::envelope::Which;
use artery_base::NoMemory;

/// Why bytes are no envelope: the first of these that holds.
#[derive(Clone, Copy, Debug, PartialEq, Eq)]
pub enum HeaderFault {
    /// There are fewer than the 28 bytes of the header.
    Short { len: usize },
    /// The version is not 0.
    Version { v: u8 },
    /// The flag for metadata is set.
    Metadata,
    /// This literal's length or text goes past the end.
    LiteralPast { which: Which },
    /// A byte of this literal is above 127.
    NotAscii { which: Which },
}

/// Why an envelope can't be written.
#[derive(Clone, Copy, Debug, PartialEq, Eq)]
pub enum EncodeFault {
    /// This literal, the first such, has more than 65,535 bytes.
    LiteralLong { which: Which },
    /// The envelope has more than 262,144 bytes.
    FrameLong { len: usize },
    /// There is no memory for it.
    NoMemory,
}

impl From<NoMemory> for EncodeFault {
    ghost use Rattle.std.specs.Prelude.{◌≡◌};
    ghost use Rattle.artery_header.specs.declared.fault.EncodeFault.TheVariants.{NoMemory as without_memory};

    ghost from_gives = { λ _ e. e ≡ without_memory };

    fn from(_error: NoMemory) -> EncodeFault {
        EncodeFault::NoMemory
    }
}
