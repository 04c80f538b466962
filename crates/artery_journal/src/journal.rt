use crate::lines::Lines;
use crate::stamped::StampedLines;

/// A journal in one of its two forms.
#[derive(Debug, Drop)]
pub enum Journal {
    /// Form 1: lines alone.
    Plain(Lines),
    /// Form 2: each line with its moment.
    Stamped(StampedLines),
}
