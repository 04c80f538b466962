//! The forms in which a run is told.

/// How a run is told.
#[derive(Clone, Copy, Debug, PartialEq, Eq)]
pub enum Form {
    /// The lines of its journal.
    Plain,
    /// The lines of its journal, and each write.
    Bytes,
    /// The lines of its journal, each with its moment, as a journal of form 2.
    Stamped,
}
