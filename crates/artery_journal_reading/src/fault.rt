ghost use Rattle.std.specs.Prelude.{◌≡◌};
ghost use Rattle.artery_journal_reading.specs.declared.fault.JournalFault.TheVariants as journal_faults;

use artery_base::NoMemory;

/// Why a text is no journal.
#[derive(Clone, Copy, Debug, PartialEq, Eq)]
pub enum JournalFault {
    /// The first line of the text, counted from 1, that is no line of its form. In form 2 the line
    /// `journal 2` is counted as the first.
    BadLine { line: u64 },
    /// There are more than 1,000,000 lines.
    TooManyLines,
    /// Memory ran out.
    NoMemory,
}

impl From<NoMemory> for JournalFault {
    ghost from_gives = { λ _ e. e ≡ journal_faults.NoMemory };

    fn from(_error: NoMemory) -> JournalFault {
        JournalFault::NoMemory
    }
}
