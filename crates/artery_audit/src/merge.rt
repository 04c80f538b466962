//! A merge: lines of several parts in one order.
ghost use Rattle.std.specs.Prelude.{◌≡◌, [], ◌∷◌, ◌++◌, length, ◌==◌, map, OnOk, OnErr};

use artery_base::NoMemory;
use artery_journal::Line;
use std::alloc::Global;
use std::marker::Model;

/// Lines of several parts in one order, borrowed from the parts.
#[derive(Drop)]
pub struct Merge<'a> {
    lines: Vec<&'a Line>,
}

impl<'a> Model for Merge<'a> {
    ghost use Rattle.std.specs.Prelude.{List, map};
    ghost use Rattle.artery_journal.specs.declared.line.Line.{Line};

    ghost Value = { List Line };

    ghost view = { λ m. map (λ l. l.now) m.lines.items };
}

impl<'a> Merge<'a> {
    /// No lines.
    pub(crate) fn new(alloc: Global) -> Merge<'a>
        ensures { result ≡ [] }
    {
        Merge {
            lines: Vec::new(alloc),
        }
    }

    /// Adds a line at the end.
    pub(crate) fn push(&mut self, line: &'a Line) -> Result<(), NoMemory>
        ensures { OnOk result (self.new ≡ self.old ++ line.now ∷ []) }
    {
        self.lines.push(line)?;
        Ok(())
    }

    /// How many lines there are.
    pub fn len(&self) -> usize
        ensures { result ≡ length self.now }
    {
        self.lines.len()
    }

    /// Whether there are none.
    pub fn is_empty(&self) -> bool
        ensures { result ≡ (length self.now == 0) }
    {
        self.lines.is_empty()
    }

    /// The lines in order, borrowed.
    pub fn as_slice(&self) -> &[&'a Line]
        ensures { map (λ l. l.now) result.now ≡ self.now }
    {
        self.lines.as_slice()
    }
}
