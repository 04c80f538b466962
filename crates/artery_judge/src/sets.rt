//! The pairs that closed and the watches that began and that ended.
ghost use Rattle.std.specs.Prelude.{◌≡◌, ℕ, [], ◌||◌, OnOk};
ghost use Rattle.artery_base.specs.declared.address.UniqueAddress.{UniqueAddress};
ghost use Rattle.artery_judge.specs.Lines.{is_way};
ghost use Rattle.artery_judge.specs.Laws.{is_watch};
ghost use Rattle.artery_judge.specs.Views.{has_pair, has_watch};

use crate::keys::{Pair, Watch};
use artery_base::{NoMemory, UniqueAddress};
use indexmap::IndexSet;
use std::alloc::Global;
use std::marker::Model;

/// The pairs of which the first incarnation has closed the second.
#[derive(Drop)]
pub struct ClosedPairs<'a> {
    pairs: IndexSet<Pair<'a>>,
}

impl<'a> Model for ClosedPairs<'a> {
    ghost use Rattle.std.specs.Prelude.{List};
    ghost use Rattle.artery_judge.specs.declared.keys.Pair.{Pair};

    ghost Value = { List Pair };

    ghost view = { λ s. s.pairs.keys };
}

impl<'a> ClosedPairs<'a> {
    /// No pair.
    pub fn new(alloc: Global) -> ClosedPairs<'a>
        ensures { result ≡ [] }
    {
        ClosedPairs {
            pairs: IndexSet::new(alloc),
        }
    }

    /// Whether the pair is there.
    pub fn has(&self, of: &'a UniqueAddress, other: &'a UniqueAddress) -> bool
        ensures { result ≡ has_pair of.now other.now self.now }
    {
        self.pairs.contains(&Pair { of, other })
    }

    /// Adds a pair.
    pub fn add(&mut self, of: &'a UniqueAddress, other: &'a UniqueAddress) -> Result<(), NoMemory>
        ensures { OnOk result ((a b : UniqueAddress) → has_pair a b self.new ≡ (is_way a b (of.now, other.now) || has_pair a b self.old)) }
    {
        let _new = self.pairs.insert(Pair { of, other })?;
        Ok(())
    }
}

/// Watches.
#[derive(Drop)]
pub struct Watches<'a> {
    watches: IndexSet<Watch<'a>>,
}

impl<'a> Model for Watches<'a> {
    ghost use Rattle.std.specs.Prelude.{List};
    ghost use Rattle.artery_judge.specs.declared.keys.Watch.{Watch};

    ghost Value = { List Watch };

    ghost view = { λ s. s.watches.keys };
}

impl<'a> Watches<'a> {
    /// No watch.
    pub fn new(alloc: Global) -> Watches<'a>
        ensures { result ≡ [] }
    {
        Watches {
            watches: IndexSet::new(alloc),
        }
    }

    /// Whether the watch is there.
    pub fn has(&self, of: &'a UniqueAddress, id: u64) -> bool
        ensures { result ≡ has_watch of.now id self.now }
    {
        self.watches.contains(&Watch { of, id })
    }

    /// Adds a watch.
    pub fn add(&mut self, of: &'a UniqueAddress, id: u64) -> Result<(), NoMemory>
        ensures { OnOk result ((a : UniqueAddress) (i : ℕ) → has_watch a i self.new ≡ (is_watch a i (of.now, id) || has_watch a i self.old)) }
    {
        let _new = self.watches.insert(Watch { of, id })?;
        Ok(())
    }
}
