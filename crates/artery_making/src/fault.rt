use artery_base::NoMemory;

/// Why a text describes no connection.
#[derive(Clone, Copy, Debug, PartialEq, Eq)]
pub enum MakeFault {
    /// The first line that is not what it must be, counted from 1: the first line `stream 1` or `stream 2`, each other
    /// a `frame` line whose literals have at most 65,535 bytes and whose envelope has at most 262,144.
    BadLine { line: u64 },
    /// There are more than 1,000,000 lines.
    TooManyLines,
    /// Memory ran out.
    NoMemory,
}

impl From<NoMemory> for MakeFault {
    ghost use Rattle.std.specs.Prelude.{◌≡◌};
    ghost use Rattle.artery_making.specs.declared.fault.MakeFault.TheVariants.{NoMemory as without_memory};

    ghost from_gives = { λ _ e. e ≡ without_memory };

    fn from(_error: NoMemory) -> MakeFault {
        MakeFault::NoMemory
    }
}
