ghost use Rattle.std.specs.Prelude.{◌≡◌};
ghost use Rattle.artery_text.specs.Reading.{address_memory, word_memory};
ghost use Rattle.artery_lines.specs.Lines.{line_fault};
ghost use Rattle.artery_lines.specs.declared.fault.LineFault.TheVariants as line_faults;

use artery_base::NoMemory;
use artery_text::{AddressFault, WordFault};

/// Why a line does not tell what is to be read from it.
#[derive(Clone, Copy, Debug, PartialEq, Eq)]
pub enum LineFault {
    /// It is not such a line.
    BadLine,
    /// Memory ran out.
    NoMemory,
}

impl From<AddressFault> for LineFault {
    ghost from_gives = { λ e f. f ≡ line_fault (address_memory e) };

    fn from(fault: AddressFault) -> LineFault {
        match fault {
            AddressFault::NoMemory => LineFault::NoMemory,
            _ => LineFault::BadLine,
        }
    }
}

impl From<WordFault> for LineFault {
    ghost from_gives = { λ e f. f ≡ line_fault (word_memory e) };

    fn from(fault: WordFault) -> LineFault {
        match fault {
            WordFault::NoMemory => LineFault::NoMemory,
            WordFault::BadWord { at: _ } => LineFault::BadLine,
        }
    }
}

impl From<NoMemory> for LineFault {
    ghost from_gives = { λ _ f. f ≡ line_faults.NoMemory };

    fn from(_error: NoMemory) -> LineFault {
        LineFault::NoMemory
    }
}
