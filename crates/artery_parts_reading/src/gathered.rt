//! Parts under way: what the lines of a text have told so far.
ghost use Rattle.std.specs.Prelude.{◌≡◌, [], ◌∷◌, ◌++◌, true, false, OnOk, IfOk, IfErr};
ghost use Rattle.std.specs.List.{list_any};
ghost use Rattle.indexmap.specs.IndexSet.{insert_key};
ghost use Rattle.artery_judge.specs.Lines.{same};
ghost use Rattle.artery_audit.specs.Parts.{begun};
ghost use Rattle.artery_parts_reading.specs.declared.told.Told.TheVariants as says;
ghost use Rattle.artery_parts_reading.specs.declared.fault.PartsFault.TheVariants as parts_faults;
ghost use Rattle.artery_parts_reading.specs.Gathering.{IsGathering, with_told, with_text, Keeps};
ghost use Rattle.artery_parts_reading.specs.Lines.{told_of};
ghost use Rattle.artery_parts_reading.specs.Parts.{at_line, parts_memory};
ghost use Rattle.artery_base.specs.Words.{Gives};

use crate::fault::PartsFault;
use crate::told::{Told, told_from};
use artery_audit::{Part, Parts, parts_are_built};
use artery_base::{NoMemory, UniqueAddress};
use artery_journal::{Line, Lines};
use artery_lines::LineFault;
use indexmap::IndexSet;
use std::alloc::Global;
use std::marker::Model;

/// The parts that lines have told so far.
#[derive(Drop)]
pub struct Gathered {
    parts: Parts,
    /// The incarnations of the parts.
    names: IndexSet<UniqueAddress>,
}

impl Model for Gathered {
    ghost use Rattle.artery_parts_reading.specs.Gathering.{Gathering};

    ghost Value = { Gathering };

    ghost view = { λ g. record { parts = g.parts; names = g.names.keys } };
}

/// What was read of the line with this number, if it is good.
fn good<T: Drop>(n: u64, is_good: bool, read: T) -> Result<T, PartsFault>
    ensures ok { IfOk result (λ kept. (is_good ≡ true) × (kept ≡ read)) }
    ensures err { IfErr result (λ fault. (is_good ≡ false) × (fault ≡ parts_faults.BadLine n)) }
{
    if is_good {
        Ok(read)
    } else {
        Err(PartsFault::BadLine { line: n })
    }
}

/// What the line with this number tells.
fn told_at(alloc: Global, n: u64, text: &[u8]) -> Result<Told, PartsFault>
    ensures { Gives parts_memory result (at_line n (told_of text.now)) }
{
    match told_from(alloc, text) {
        Ok(told) => Ok(told),
        Err(LineFault::BadLine) => Err(PartsFault::BadLine { line: n }),
        Err(LineFault::NoMemory) => Err(PartsFault::NoMemory),
    }
}

impl Gathered {
    /// No parts.
    pub fn new(alloc: Global) -> Gathered
        ensures parts { result.parts ≡ [] }
        ensures gathering { IsGathering result }
    {
        parts_are_built();
        Gathered {
            parts: Parts::new(alloc),
            names: IndexSet::new(alloc),
        }
    }

    /// Whether an incarnation has a part.
    fn has(&self, of: &UniqueAddress) -> bool
        ensures { result ≡ list_any (same of.now) self.now.names }
    {
        self.names.contains(of)
    }

    /// Begins the part of an incarnation.
    fn begin(&mut self, alloc: Global, of: UniqueAddress) -> Result<(), NoMemory>
        ensures parts { OnOk result (self.new.parts ≡ self.old.parts ++ begun of ∷ []) }
        ensures names { OnOk result (self.new.names ≡ insert_key same self.old.names of) }
    {
        let name = of.clone()?;
        let lines = Lines::new(alloc);
        self.parts.push(Part { of, lines })?;
        let _new = self.names.insert(name)?;
        Ok(())
    }

    /// Adds the part of an incarnation, which the line with this number begins.
    #[tactic(auto, using(crate::proofs::Keeping::begins, crate::proofs::Keeping::has_begun))]
    fn add_part(&mut self, alloc: Global, n: u64, of: UniqueAddress) -> Result<(), PartsFault>
        requires { IsGathering self.old }
        ensures { Keeps result self.new (at_line n (with_told self.old.parts (says.Of of))) }
    {
        parts_are_built();
        let is_new = !self.has(&of);
        let of = good(n, is_new, of)?;
        self.begin(alloc, of)?;
        Ok(())
    }

    /// Adds the line with this number.
    #[tactic(auto, using(crate::proofs::Keeping::goes_on, crate::proofs::Keeping::is_other))]
    fn add_line(&mut self, n: u64, line: Line) -> Result<(), PartsFault>
        requires { IsGathering self.old }
        ensures { Keeps result self.new (at_line n (with_told self.old.parts (says.Line line))) }
    {
        parts_are_built();
        let is_own = self.parts.takes(&line);
        let line = good(n, is_own, line)?;
        self.parts.push_line(line)?;
        Ok(())
    }

    /// Adds what the line with this number tells.
    fn add(&mut self, alloc: Global, n: u64, told: Told) -> Result<(), PartsFault>
        requires { IsGathering self.old }
        ensures { Keeps result self.new (at_line n (with_told self.old.parts told)) }
    {
        match told {
            Told::Of { of } => self.add_part(alloc, n, of),
            Told::Line { line } => self.add_line(n, line),
        }
    }

    /// Adds the line of a text with this number.
    pub fn read(&mut self, alloc: Global, n: u64, text: &[u8]) -> Result<(), PartsFault>
        requires { IsGathering self.old }
        ensures { Keeps result self.new (with_text n text.now self.old.parts) }
    {
        let told = told_at(alloc, n, text)?;
        self.add(alloc, n, told)?;
        Ok(())
    }

    /// The parts.
    pub fn parts(self) -> Parts
        ensures { result ≡ self.parts }
    {
        self.parts
    }
}
