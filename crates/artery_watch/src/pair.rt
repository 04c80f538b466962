//! A watcher with what it watches, and how such a pair is looked up.
ghost use Rattle.std.specs.Prelude.{◌≡◌, IfOk};
ghost use Rattle.artery_watch.specs.Keys.{same_pair, pair_of};
ghost use Rattle.artery_watch.specs.contracts.pair.PairHash.TheImpl.Laws.{respects_eq-law};
ghost use Rattle.artery_watch.specs.contracts.pair.PairEq.TheImpl.Laws.{laws-law};

use artery_base::{NoMemory, Text};
use indexmap::Equivalent;

/// A watcher and the one that it watches.
#[derive(Clone, Debug, PartialEq, Eq, Hash, Drop)]
pub struct Pair {
    /// The one that watches.
    pub watcher: Text,
    /// The one that is watched.
    pub watchee: Text,
}

/// The same, borrowed.
#[derive(Clone, Copy, Hash, PartialEq, Eq)]
pub struct PairRef<'a> {
    pub watcher: &'a Text,
    pub watchee: &'a Text,
}

impl<'a> PairRef<'a> {
    /// A copy of its own.
    pub fn copy(&self) -> Result<Pair, NoMemory>
        ensures { IfOk result (λ copy. copy ≡ pair_of self.now.watcher.now self.now.watchee.now) }
    {
        Ok(Pair {
            watcher: self.watcher.clone()?,
            watchee: self.watchee.clone()?,
        })
    }
}

impl<'a> Equivalent<Pair> for PairRef<'a> {
    ghost equivalent = { λ q k. same_pair (pair_of q.watcher.now q.watchee.now) k };

    ghost respects_hash = { λ q. respects_eq-law (pair_of q.watcher.now q.watchee.now) };

    ghost respects_eq = { λ q. laws-law.congr (pair_of q.watcher.now q.watchee.now) };

    fn equivalent(&self, key: &Pair) -> bool {
        *self.watcher == key.watcher && *self.watchee == key.watchee
    }
}
