//! A table with its number, and why an index has no name.
ghost use Rattle.std.specs.Prelude.{◌≡◌};
ghost use Rattle.artery_tables.specs.Story.{version_of};

use artery_base::Names;

/// How many versions there are: those of the numbers from 1 on go from 1 to 127 and then begin anew.
pub const VERSIONS: u64 = 127;

/// A table that was announced.
#[derive(Debug, Drop)]
pub struct Table {
    /// Its place among all tables announced, counted from 1.
    pub number: u64,
    /// The version of its number, 1 to 127.
    pub version: u8,
    /// Its names. The index of a name is its place, counted from 0.
    pub names: Names,
}

/// Why an index under a version has no name.
#[derive(Clone, Copy, Debug, PartialEq, Eq)]
pub enum TableFault {
    /// No known table has the version.
    UnknownVersion {
        /// The version.
        v: u8,
    },
    /// The table has no name at the index.
    UnknownIndex {
        /// The version.
        v: u8,
        /// The index.
        i: u16,
    },
}

/// The version of a number: 0 for 0, else 1 to 127, going round.
pub(crate) fn version_of(number: u64) -> u8
    ensures { result ≡ version_of number }
{
    if number == 0 {
        return 0;
    }
    ((number - 1) % VERSIONS + 1) as u8
}
