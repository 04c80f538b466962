ghost use Rattle.std.specs.Prelude.{◌≡◌};
ghost use Rattle.artery_control.specs.declared.fault.ControlFault.TheVariants as faults;

use crate::path::Path;
use artery_base::NoMemory;
use artery_wire::WireFault;
use std::alloc::{AllocError, AllocFailed};

/// The first fault of a payload that is no control message.
#[derive(Clone, Copy, Debug, PartialEq, Eq)]
pub enum ControlFault {
    /// The manifest is none of the fourteen letters.
    UnknownManifest,
    /// A record, or a packed field, is not well formed. The place in `fault` counts from the first byte
    /// after the key and the length of the occurrence in which it is.
    Wire { path: Path, fault: WireFault },
    /// A required field is missing.
    Missing { path: Path },
    /// A text is none that may stand there.
    BadText { path: Path },
    /// A number is outside its range.
    Range { path: Path },
    /// A table has another number of keys than of values.
    Unequal { keys: usize, values: usize },
    /// Want of memory.
    NoMemory,
}

impl From<NoMemory> for ControlFault {
    ghost from_gives = { λ _ e. e ≡ faults.NoMemory };

    fn from(_error: NoMemory) -> ControlFault {
        ControlFault::NoMemory
    }
}

impl From<AllocError> for ControlFault {
    ghost from_gives = { λ _ e. e ≡ faults.NoMemory };

    fn from(_error: AllocError) -> ControlFault {
        ControlFault::NoMemory
    }
}

impl<T: Drop> From<AllocFailed<T>> for ControlFault {
    ghost from_gives = { λ _ e. e ≡ faults.NoMemory };

    fn from(_error: AllocFailed<T>) -> ControlFault {
        ControlFault::NoMemory
    }
}
