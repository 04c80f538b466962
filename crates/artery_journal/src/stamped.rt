ghost use Rattle.std.specs.Prelude.{◌≡◌, List, [], ◌∷◌, ◌++◌, length, ◌==◌, OnOk, OnErr};
ghost use Rattle.artery_journal.specs.declared.stamped.Stamped.{Stamped};

use crate::line::Line;
use artery_base::NoMemory;
use std::alloc::Global;
use std::marker::Model;

/// A line of a journal with the moment at which it was written.
#[derive(Debug, PartialEq, Eq, Drop)]
pub struct Stamped {
    /// The moment of the incarnation that wrote the line, in milliseconds, below 2^62.
    pub moment: u64,
    /// What it did.
    pub line: Line,
}

/// Lines of a journal with their moments, in the order written.
#[derive(Debug, Drop)]
pub struct StampedLines {
    items: Vec<Stamped>,
}

impl Model for StampedLines {
    ghost use Rattle.std.specs.Prelude.{List};
    ghost use Rattle.artery_journal.specs.declared.stamped.Stamped.{Stamped};

    ghost Value = { List Stamped };

    ghost view = { λ l. l.items.items };
}

impl StampedLines {
    /// No lines. Takes no memory.
    pub fn new(alloc: Global) -> StampedLines
        ensures { result ≡ [] }
    {
        StampedLines {
            items: Vec::new(alloc),
        }
    }

    /// How many lines there are.
    pub fn len(&self) -> usize
        ensures { result ≡ length self.now }
    {
        self.items.len()
    }

    /// Whether there are none.
    pub fn is_empty(&self) -> bool
        ensures { result ≡ (length self.now == 0) }
    {
        self.items.is_empty()
    }

    /// The lines with their moments, borrowed.
    pub fn as_slice(&self) -> &[Stamped]
        ensures { result.now ≡ self.now }
    {
        self.items.as_slice()
    }

    /// Adds a line at the end. Without memory nothing changes.
    pub fn push(&mut self, line: Stamped) -> Result<(), NoMemory>
        ensures ok { OnOk result (self.new ≡ self.old ++ line ∷ []) }
        ensures err { OnErr result (self.new ≡ self.old) }
    {
        self.items.push(line)?;
        Ok(())
    }
}
