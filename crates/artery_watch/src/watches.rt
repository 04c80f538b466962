//! The watches of a node.
ghost use Rattle.std.specs.Prelude.{◌≡◌, ◌++◌, ◌+◌, drop, length, map, filter, not, IfOk, OnOk, OnErr};
ghost use Rattle.artery_watch.specs.Keys.{pair_of};
ghost use Rattle.artery_watch.specs.Place.{is_at};
ghost use Rattle.artery_watch.specs.Watcher.{no_watches, id_of, is_full, watching, watched, unwatched, watches_one_at, ids_at, closed};

use crate::Ids;
use crate::answers::Watch;
use crate::entries::insert;
use crate::pair::{Pair, PairRef};
use crate::place::is_at;
use artery_base::{Address, NoMemory, Text};
use indexmap::IndexMap;
use std::alloc::Global;
use std::marker::Model;

/// The most watches.
pub const MOST_WATCHES: usize = 4_096;

/// The watched pairs with their ids, and the number of ids given.
#[derive(Drop)]
pub struct Watches {
    ids: Option<IndexMap<Pair, u64>>,
    given: u64,
}

impl Model for Watches {
    ghost use Rattle.artery_watch.specs.Entries.{entries_in};
    ghost use Rattle.artery_watch.specs.Watcher.{Watches as WatchesKept};

    ghost Value = { WatchesKept };

    ghost view = { λ w. record { list = entries_in w.ids; given = w.given } };
}

/// The ids of the watches of those at an address, in the order given.
fn ids_in(alloc: Global, ids: &IndexMap<Pair, u64>, address: &Address) -> Result<Ids, NoMemory>
    ensures { IfOk result (λ found. found ≡ ids_at address.now ids.now.entries) }
{
    let mut found = Ids::new(alloc);
    for (pair, id) in ids.iter() {
        if is_at(address, pair.watchee.as_slice()) {
            found.push(*id)?;
        }
    }
    Ok(found)
}

/// How many watches there are of those at an address.
#[tactic(auto, using(crate::proofs::Inserted::ids_few))]
fn count_in(ids: &IndexMap<Pair, u64>, address: &Address) -> u64
    ensures { result ≡ length (ids_at address.now ids.now.entries) }
{
    let mut count: u64 = 0;
    for (pair, _id) in ids.iter() {
        if is_at(address, pair.watchee.as_slice()) {
            count += 1;
        }
    }
    count
}

/// Removes the watches of those at an address.
fn close_in(ids: &mut IndexMap<Pair, u64>, address: &Address)
    ensures { ids.new.entries ≡ filter (λ watch. not (watches_one_at address.now watch)) ids.old.entries }
{
    ids.retain(
        |pair: &Pair, id: &mut u64| -> bool
            ensures { (result ≡ not (is_at address.entry.now pair.now.watchee)) × (id.new ≡ id.old) }
        { !is_at(address, pair.watchee.as_slice()) },
    );
}

impl Watches {
    /// No watch, and no id given. Takes no memory.
    pub fn new() -> Watches
        ensures { result ≡ no_watches }
    {
        Watches {
            ids: None,
            given: 0,
        }
    }

    /// No watch, and so many ids given.
    #[cfg(test)]
    pub fn after_ids(given: u64) -> Watches {
        Watches { ids: None, given }
    }

    /// The id of a pair, if it is watched.
    fn id_of(&self, watcher: &Text, watchee: &Text) -> Option<u64>
        ensures { result ≡ id_of (pair_of watcher.now watchee.now) self.now }
    {
        match &self.ids {
            Some(ids) => ids.get(PairRef { watcher, watchee }).copied(),
            None => None,
        }
    }

    /// How many watches there are.
    fn len(&self) -> usize
        ensures { result ≡ length self.now.list }
    {
        match &self.ids {
            Some(ids) => ids.len(),
            None => 0,
        }
    }

    /// Whether no further pair is watched.
    fn is_full(&self) -> bool
        ensures { result ≡ is_full self.now }
    {
        self.len() >= MOST_WATCHES || self.given == u64::MAX
    }

    /// What `watch` does, if it gets its memory.
    pub fn watching(&self, watcher: &Text, watchee: &Text) -> Watch
        ensures { result ≡ watching (pair_of watcher.now watchee.now) self.now }
    {
        if let Some(id) = self.id_of(watcher, watchee) {
            return Watch::Already { id };
        }
        if self.is_full() {
            return Watch::Full;
        }
        Watch::Watching { id: self.given + 1 }
    }

    /// Adds a new pair with the next id.
    #[tactic(auto, using(crate::proofs::Inserted::watch_adds))]
    fn add(&mut self, alloc: Global, pair: Pair, id: u64) -> Result<(), NoMemory>
        requires { watching pair self.old ≡ Watch.Watching id }
        ensures ok { OnOk result (self.new ≡ watched pair self.old) }
        ensures err { OnErr result (self.new ≡ self.old) }
    {
        insert(alloc, &mut self.ids, pair, id)?;
        self.given = id;
        Ok(())
    }

    /// Watches a pair, unless it is watched or full.
    pub fn watch(
        &mut self,
        alloc: Global,
        watcher: &Text,
        watchee: &Text,
    ) -> Result<Watch, NoMemory>
        ensures answer { IfOk result (λ answer. answer ≡ watching (pair_of watcher.now watchee.now) self.old) }
        ensures ok { OnOk result (self.new ≡ watched (pair_of watcher.now watchee.now) self.old) }
        ensures err { OnErr result (self.new ≡ self.old) }
    {
        match self.watching(watcher, watchee) {
            Watch::Watching { id } => {
                self.add(alloc, PairRef { watcher, watchee }.copy()?, id)?;
                Ok(Watch::Watching { id })
            }
            Watch::Already { id } => Ok(Watch::Already { id }),
            Watch::Full => Ok(Watch::Full),
        }
    }

    /// Ends the watch of a pair, and gives its id.
    pub fn unwatch(&mut self, watcher: &Text, watchee: &Text) -> Option<u64>
        ensures answer { result ≡ id_of (pair_of watcher.now watchee.now) self.old }
        ensures rest { self.new ≡ unwatched (pair_of watcher.now watchee.now) self.old }
    {
        match &mut self.ids {
            Some(ids) => ids.shift_remove(PairRef { watcher, watchee }),
            None => None,
        }
    }

    /// The ids of the watches of those at an address, ascending.
    pub fn ids_at(&self, alloc: Global, address: &Address) -> Result<Ids, NoMemory>
        ensures { IfOk result (λ found. found ≡ ids_at address.now self.now.list) }
    {
        match &self.ids {
            Some(ids) => ids_in(alloc, ids, address),
            None => Ok(Ids::new(alloc)),
        }
    }

    /// How many watches there are of those at an address.
    pub fn count_at(&self, address: &Address) -> u64
        ensures { result ≡ length (ids_at address.now self.now.list) }
    {
        match &self.ids {
            Some(ids) => count_in(ids, address),
            None => 0,
        }
    }

    /// Ends the watches of those at an address.
    pub fn close(&mut self, address: &Address)
        ensures { self.new ≡ closed address.now self.old }
    {
        if let Some(ids) = &mut self.ids {
            close_in(ids, address);
        }
    }
}
