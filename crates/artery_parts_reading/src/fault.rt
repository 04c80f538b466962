ghost use Rattle.std.specs.Prelude.{◌≡◌};
ghost use Rattle.artery_parts_reading.specs.declared.fault.PartsFault.TheVariants as parts_faults;

use artery_base::NoMemory;

/// Why a text tells no parts.
#[derive(Clone, Copy, Debug, PartialEq, Eq)]
pub enum PartsFault {
    /// The first line of the text that is bad, counted from 1.
    BadLine { line: u64 },
    /// There are more than 1,000,000 lines.
    TooManyLines,
    /// There are more than 64 parts.
    TooManyParts,
    /// Memory ran out.
    NoMemory,
}

impl From<NoMemory> for PartsFault {
    ghost from_gives = { λ _ e. e ≡ parts_faults.NoMemory };

    fn from(_error: NoMemory) -> PartsFault {
        PartsFault::NoMemory
    }
}
