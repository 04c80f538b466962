//! Parts: the journals of several incarnations.
ghost use Rattle.std.specs.Prelude.{◌≡◌, [], ◌∷◌, ◌++◌, length, ◌==◌, true, OnOk, OnErr};
ghost use Rattle.artery_judge.specs.Lines.{same};
ghost use Rattle.artery_audit.specs.Parts.{lined, with_line, takes};

use crate::says::writer;
use artery_base::{NoMemory, UniqueAddress};
use artery_journal::{Line, Lines};
use std::alloc::Global;
use std::marker::Model;

/// The journal of one incarnation, in form 1.
#[derive(Drop)]
pub struct Part {
    /// The incarnation.
    pub of: UniqueAddress,
    /// Its lines, in the order written.
    pub lines: Lines,
}

impl Part {
    /// Whether it is the part of this incarnation.
    pub(crate) fn is_of(&self, of: &UniqueAddress) -> bool
        ensures { result ≡ same self.now.of of.now }
    {
        // numbers first, which tell most incarnations apart
        if self.of.uid != of.uid {
            return false;
        }
        self.of == *of
    }

    /// Adds a line at the end. Without memory nothing changes.
    fn push(&mut self, line: Line) -> Result<(), NoMemory>
        ensures { OnOk result (self.new ≡ lined line self.old) }
    {
        self.lines.push(line)?;
        Ok(())
    }
}

/// Parts, in the order given.
#[derive(Drop)]
pub struct Parts {
    items: Vec<Part>,
}

impl Model for Parts {
    ghost use Rattle.std.specs.Prelude.{List};
    ghost use Rattle.artery_audit.specs.declared.part.Part.{Part};

    ghost Value = { List Part };

    ghost view = { λ p. p.items.items };
}

impl Parts {
    /// No parts. Takes no memory.
    pub fn new(alloc: Global) -> Parts
        ensures { result ≡ [] }
    {
        Parts {
            items: Vec::new(alloc),
        }
    }

    /// How many parts there are.
    pub fn len(&self) -> usize
        ensures { result ≡ length self.now }
    {
        self.items.len()
    }

    /// Whether there are none.
    pub fn is_empty(&self) -> bool
        ensures { result ≡ (length self.now == 0) }
    {
        self.items.is_empty()
    }

    /// The parts, borrowed.
    pub fn as_slice(&self) -> &[Part]
        ensures { result.now ≡ self.now }
    {
        self.items.as_slice()
    }

    /// Adds a part at the end. Without memory nothing changes.
    pub fn push(&mut self, part: Part) -> Result<(), NoMemory>
        ensures ok { OnOk result (self.new ≡ self.old ++ part ∷ []) }
        ensures err { OnErr result (self.new ≡ self.old) }
    {
        self.items.push(part)?;
        Ok(())
    }

    /// Whether a line is of the last part's incarnation.
    pub fn takes(&self, line: &Line) -> bool
        ensures { result ≡ takes line.now self.now }
    {
        match self.items.last() {
            Some(part) => part.is_of(writer(line)),
            None => false,
        }
    }

    /// Adds a line of the last part's incarnation at this part's end.
    #[tactic(auto, using(crate::proofs::Building::has_last))]
    pub fn push_line(&mut self, line: Line) -> Result<(), NoMemory>
        requires { takes line self.old ≡ true }
        ensures { OnOk result (self.new ≡ with_line line self.old) }
    {
        let last = self.items.len() - 1;
        let part = &mut self.items[last];
        part.push(line)?;
        Ok(())
    }
}
