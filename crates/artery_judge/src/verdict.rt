/// A law of journals.
#[derive(Clone, Copy, Debug, PartialEq, Eq)]
pub enum Law {
    /// What was taken is a prefix of what was sent.
    Prefix,
    /// Nothing is done with an incarnation that was closed.
    Closed,
    /// A watch begins once and ends at most once.
    Watch,
    /// The ordinary messages that came on a connection are a subsequence of those told on it.
    Ordinary,
    /// A stopped incarnation writes nothing more, and an incarnation starts first.
    Stopped,
    /// The moments of an incarnation do not fall.
    Moment,
}

/// Whether a journal is lawful.
#[derive(Clone, Copy, Debug, PartialEq, Eq)]
pub enum Verdict {
    /// No line breaks a law.
    Lawful,
    /// The first line that breaks a law, counted from 1, and the first law that it breaks.
    Broken { line: u64, law: Law },
}
