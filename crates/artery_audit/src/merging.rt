//! Parts under way into a merge.
ghost use Rattle.std.specs.Prelude.{◌≡◌, ◌∷◌, ◌++◌, [], ℕ, List, Ok, Some, None, OnOk, IfOk, IfSome, option_map, option_copied, slice_get, slice_set, true, false, length, drop, replicate, ◌<◌, is_some};
ghost use Rattle.artery_journal.specs.declared.line.Line.{Line};
ghost use Rattle.artery_judge.specs.Laws.{plain};
ghost use Rattle.artery_audit.specs.Merges.{law_after};
ghost use Rattle.artery_judge.specs.Kept.{Stands};
ghost use Rattle.artery_judge.specs.Views.{kept};
ghost use Rattle.artery_audit.specs.Parts.{AreParts};
ghost use Rattle.artery_audit.specs.Answers.{first_fitting, first_left, IsAnswer, IsStuck};
ghost use Rattle.artery_audit.specs.Merging.{next_at, is_ready, rested, looked, looked_at, place_of, woken, counted, receiver_of, IsUnder, Took, Turned, Found, cut_of, unmerged};

use crate::audited::Audited;
use crate::merge::Merge;
use crate::part::Part;
use crate::says::receiver;
use artery_base::{NoMemory, UniqueAddress};
use artery_journal::Line;
use artery_judge::{Judge, Law};
use std::alloc::Global;
use std::marker::Model;

/// The next line of a part.
#[derive(Clone, Copy)]
struct Next<'a> {
    line: &'a Line,
    /// Its number in the part, counted from 1.
    number: usize,
}

/// A part that is stuck: whose it is, the number of its next line counted from 1, and the law that this line breaks.
#[derive(Clone, Copy)]
struct Stuck<'a> {
    of: &'a UniqueAddress,
    line: u64,
    law: Law,
}

/// So many zeros.
fn zeros(alloc: Global, count: usize) -> Result<Vec<usize>, NoMemory>
    ensures { IfOk result (λ v. v.items ≡ replicate count 0) }
{
    Ok(vec![in alloc; 0; count]?)
}

/// So many flags that are set.
fn flags(alloc: Global, count: usize) -> Result<Vec<bool>, NoMemory>
    ensures { IfOk result (λ v. v.items ≡ replicate count true) }
{
    Ok(vec![in alloc; true; count]?)
}

/// Parts under way into a merge.
#[derive(Drop)]
pub struct Merging<'a> {
    parts: &'a [Part],
    /// The lines merged so far.
    merge: Merge<'a>,
    /// Stands for the lines merged so far.
    judge: Judge<'a>,
    /// How many lines of each part were merged.
    taken: Vec<usize>,
    /// Whether each part is to be looked at. The next line of any other is not there, or breaks a law.
    ready: Vec<bool>,
}

impl<'a> Model for Merging<'a> {
    ghost use Rattle.artery_audit.specs.Merging.{Under};

    ghost Value = { Under };

    ghost view = { λ m. record { parts = m.parts.now; merge = m.merge; judge = m.judge; taken = m.taken.items; ready = m.ready.items } };
}

impl<'a> Merging<'a> {
    /// Parts of which no line was merged yet.
    pub fn new(alloc: Global, parts: &'a [Part]) -> Result<Merging<'a>, NoMemory>
        requires { AreParts parts.now }
        ensures under { IfOk result IsUnder }
        ensures parts { IfOk result (λ m. m.parts ≡ parts.now) }
    {
        let taken = zeros(alloc, parts.len())?;
        let ready = flags(alloc, parts.len())?;
        Ok(Merging {
            parts,
            merge: Merge::new(alloc),
            judge: Judge::new(alloc),
            taken,
            ready,
        })
    }

    /// The part at a place.
    fn part(&self, k: usize) -> Option<&'a Part>
        ensures { option_copied result ≡ slice_get self.now.parts k }
    {
        self.parts.get(k)
    }

    /// The next line of the part at a place.
    fn next(&self, k: usize) -> Option<Next<'a>>
        ensures { option_map (λ n. (n.line.now, n.number)) result ≡ next_at k self.now }
    {
        let part = self.parts.get(k)?;
        let taken = *self.taken.get(k)?;
        let line = part.lines.as_slice().get(taken)?;
        Some(Next {
            line,
            number: taken + 1,
        })
    }

    /// Whether the part at a place is to be looked at.
    fn is_ready(&self, k: usize) -> bool
        ensures { result ≡ is_ready (slice_get self.now.ready k) }
    {
        match self.ready.get(k) {
            Some(ready) => *ready,
            None => false,
        }
    }

    /// The part at a place need not be looked at.
    fn rest(&mut self, k: usize)
        ensures { self.new ≡ rested k self.old }
    {
        if let Some(ready) = self.ready.get_mut(k) {
            *ready = false;
        }
    }

    /// The part at a place is to be looked at.
    fn look(&mut self, k: usize)
        ensures { self.new ≡ looked k self.old }
    {
        if let Some(ready) = self.ready.get_mut(k) {
            *ready = true;
        }
    }

    /// The place of the part of an incarnation.
    fn place(&self, of: &UniqueAddress) -> Option<usize>
        ensures { result ≡ place_of of.now self.now.parts }
    {
        self.parts.iter().position(|part| part.is_of(of))
    }

    /// The part at a place, if there is one, is to be looked at.
    fn look_at(&mut self, place: Option<usize>)
        ensures { self.new ≡ looked_at place self.old }
    {
        if let Some(k) = place {
            self.look(k);
        }
    }

    /// Looks again at the part that a line sends or tells something.
    fn wake(&mut self, line: &Line)
        ensures { self.new ≡ woken (receiver_of line.now) self.old }
    {
        if let Some(other) = receiver(line) {
            let place = self.place(other);
            self.look_at(place);
        }
    }

    /// Merges so many lines of the part at a place.
    fn count(&mut self, k: usize, number: usize)
        ensures { self.new ≡ counted k number self.old }
    {
        if let Some(taken) = self.taken.get_mut(k) {
            *taken = number;
        }
    }

    /// Merges the next line of the part at a place, which breaks no law.
    fn take(
        &mut self,
        alloc: Global,
        k: usize,
        line: &'a Line,
        number: usize,
    ) -> Result<(), NoMemory>
        ensures { OnOk result (Took k line.now number self.old self.new) }
    {
        self.judge.take(alloc, None, line)?;
        self.merge.push(line)?;
        self.count(k, number);
        self.wake(line);
        Ok(())
    }

    /// The first law that a line breaks behind the lines merged so far.
    fn law(&self, line: &'a Line) -> Option<Law>
        ensures { (before : List Line) → Stands (kept self.now.judge) (plain before) → result ≡ law_after before line.now }
    {
        self.judge.breaks(None, line)
    }

    /// Whether a line breaks a law behind the lines merged so far.
    fn breaks(&self, line: &'a Line) -> bool
        ensures { (before : List Line) → Stands (kept self.now.judge) (plain before) → result ≡ is_some (law_after before line.now) }
    {
        self.law(line).is_some()
    }

    /// Merges the next line of the part at a place, if it is to be looked at and its next line is there and breaks no law, and answers
    /// whether it did. Else the part need not be looked at.
    fn turn(&mut self, alloc: Global, k: usize) -> Result<bool, NoMemory>
        requires under { IsUnder self.old }
        requires within { k < length self.old.parts }
        requires first { first_fitting self.old.merge self.old.parts ≡ first_fitting self.old.merge (drop k self.old.parts) }
        ensures { IfOk result (λ merged. Turned k merged self.old self.new) }
    {
        if !self.is_ready(k) {
            return Ok(false);
        }
        let Some(next) = self.next(k) else {
            self.rest(k);
            return Ok(false);
        };
        if self.breaks(next.line) {
            self.rest(k);
            return Ok(false);
        }
        self.take(alloc, k, next.line, next.number)?;
        Ok(true)
    }

    /// Merges the next line: that of the first part whose next line breaks no law. Answers false where there is none.
    pub fn step(&mut self, alloc: Global) -> Result<bool, NoMemory>
        requires { IsUnder self.old }
        ensures under { OnOk result (IsUnder self.new) }
        ensures parts { OnOk result (self.new.parts ≡ self.old.parts) }
        ensures fewer { result ≡ Ok true → unmerged self.new.parts self.new.taken < unmerged self.old.parts self.old.taken }
        ensures ended { result ≡ Ok false → first_fitting self.new.merge self.new.parts ≡ None }
    {
        for k in 0..self.parts.len() {
            if self.turn(alloc, k)? {
                return Ok(true);
            }
        }
        Ok(false)
    }

    /// What the part at a place is stuck at.
    fn stuck_at(&self, k: usize) -> Option<Stuck<'a>>
        requires under { IsUnder self.now }
        requires within { k < length self.now.parts }
        requires ended { first_fitting self.now.merge self.now.parts ≡ None }
        ensures { Found k self.now (option_map (λ s. (s.of.now, s.line, s.law)) result) }
    {
        let next = self.next(k)?;
        let part = self.part(k)?;
        match self.law(next.line) {
            Some(law) => Some(Stuck {
                of: &part.of,
                line: next.number as u64,
                law,
            }),
            None => None,
        }
    }

    /// What the first part that is stuck is stuck at.
    #[tactic(auto, using(crate::proofs::Turns::found_first, crate::proofs::Turns::found_none))]
    fn first_stuck(&self) -> Option<Stuck<'a>>
        requires under { IsUnder self.now }
        requires ended { first_fitting self.now.merge self.now.parts ≡ None }
        ensures none { result ≡ None → first_left (cut_of self.now.merge) self.now.parts ≡ None }
        ensures some { IfSome result (λ s. IsStuck self.now.parts s.of.now s.line s.law) }
    {
        for k in 0..self.parts.len() {
            if let Some(stuck) = self.stuck_at(k) {
                return Some(stuck);
            }
        }
        None
    }

    /// What was found, where no part's next line breaks no law.
    #[tactic(auto, using(crate::proofs::Answering::is_merge))]
    pub fn answer(self) -> Audited<'a>
        requires under { IsUnder self }
        requires ended { first_fitting self.merge self.parts ≡ None }
        ensures { IsAnswer self.entry.parts result }
    {
        match self.first_stuck() {
            Some(stuck) => Audited::Broken {
                of: stuck.of,
                line: stuck.line,
                law: stuck.law,
            },
            None => Audited::Lawful { merge: self.merge },
        }
    }
}
