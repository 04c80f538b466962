//! The watches, the actors and the remote watches of one node.
ghost use Rattle.std.specs.Prelude.{◌≡◌, length, IfOk, OnOk, OnErr};
ghost use Rattle.artery_watch.specs.Keys.{pair_of, remote_of};
ghost use Rattle.artery_watch.specs.Watcher.{nothing_kept, id_of, watching, unwatching, ids_at, spawning, stopping, remote_watching, remote_unwatching, kept_watched, kept_unwatched, kept_closed, kept_spawned, kept_stopped, kept_remote_watched, kept_remote_unwatched, kept_forgotten};

use crate::Ids;
use crate::actors::Actors;
use crate::answers::{RemoteWatch, Spawn, Stop, Unwatch, Watch};
use crate::watches::Watches;
use artery_base::{Address, NoMemory, Text, UniqueAddress};
use std::alloc::Global;
use std::marker::Model;

/// The watches of a node, each by its id, the actors that run there, and who watches these from elsewhere.
///
/// A pair is watched at most once at a time. Its id is the number of ids given before and one more, so that no id is ever given again.
///
/// A contract sees the watched pairs with their ids, ascending, the number of ids given, and the actors in the order in which they were
/// spawned, each with its remote watches in the order added.
#[derive(Drop)]
pub struct Watcher {
    watches: Watches,
    actors: Actors,
}

impl Model for Watcher {
    ghost use Rattle.artery_watch.specs.Watcher.{Kept};

    ghost Value = { Kept };

    ghost view = { λ w. record { watches = w.watches; actors = w.actors } };
}

impl Watcher {
    /// No watch, no id given, no actor. Takes no memory.
    pub fn new() -> Watcher
        ensures { result ≡ nothing_kept }
    {
        Watcher {
            watches: Watches::new(),
            actors: Actors::new(),
        }
    }

    /// A watcher that gave so many ids, which have all ended.
    #[cfg(test)]
    pub fn after_ids(given: u64) -> Watcher {
        Watcher {
            watches: Watches::after_ids(given),
            actors: Actors::new(),
        }
    }

    /// Watches a pair by the next id, and tells it.
    ///
    /// Already, with its id, exactly where the pair is watched. Full where it is not, and 4,096 others are or no id is left below 2^64.
    /// Nothing changes then, nor without memory.
    pub fn watch(
        &mut self,
        alloc: Global,
        watcher: &Text,
        watchee: &Text,
    ) -> Result<Watch, NoMemory>
        ensures answer { IfOk result (λ answer. answer ≡ watching (pair_of watcher.now watchee.now) self.old.watches) }
        ensures kept { OnOk result (self.new ≡ kept_watched (pair_of watcher.now watchee.now) self.old) }
        ensures err { OnErr result (self.new ≡ self.old) }
    {
        self.watches.watch(alloc, watcher, watchee)
    }

    /// The answer that `watch` gives here, want of memory aside. Takes no memory.
    pub fn would_watch(&self, watcher: &Text, watchee: &Text) -> Watch
        ensures { result ≡ watching (pair_of watcher.now watchee.now) self.now.watches }
    {
        self.watches.watching(watcher, watchee)
    }

    /// Ends the watch of a pair, and tells its id.
    ///
    /// NotWatched exactly where the pair is not watched. Nothing changes then. Takes no memory.
    pub fn unwatch(&mut self, watcher: &Text, watchee: &Text) -> Unwatch
        ensures answer { result ≡ unwatching (pair_of watcher.now watchee.now) self.old.watches }
        ensures kept { self.new ≡ kept_unwatched (pair_of watcher.now watchee.now) self.old }
    {
        match self.watches.unwatch(watcher, watchee) {
            Some(id) => Unwatch::Unwatched { id },
            None => Unwatch::NotWatched,
        }
    }

    /// Ends the watch of an actor that ended, and gives its id, exactly where the pair is watched; else nothing changes. Takes no memory.
    pub fn on_notice(&mut self, watcher: &Text, actor: &Text) -> Option<u64>
        ensures answer { result ≡ id_of (pair_of watcher.now actor.now) self.old.watches }
        ensures kept { self.new ≡ kept_unwatched (pair_of watcher.now actor.now) self.old }
    {
        self.watches.unwatch(watcher, actor)
    }

    /// Ends all watches of those at an address, and gives their ids, ascending. Without memory nothing changes.
    pub fn on_address_closed(&mut self, alloc: Global, address: &Address) -> Result<Ids, NoMemory>
        ensures answer { IfOk result (λ ids. ids ≡ ids_at address.now self.old.watches.list) }
        ensures kept { OnOk result (self.new ≡ kept_closed address.now self.old) }
        ensures err { OnErr result (self.new ≡ self.old) }
    {
        let ids = self.watches.ids_at(alloc, address)?;
        self.watches.close(address);
        Ok(ids)
    }

    /// How many watches there are of those at an address. Takes no memory.
    pub fn watches_at(&self, address: &Address) -> u64
        ensures { result ≡ length (ids_at address.now self.now.watches.list) }
    {
        self.watches.count_at(address)
    }

    /// Spawns an actor, which nobody elsewhere watches yet.
    ///
    /// Exists exactly where it is there. Full where it is not, and 4,096 others are. Nothing changes then, nor without memory.
    pub fn spawn(&mut self, alloc: Global, path: &Text) -> Result<Spawn, NoMemory>
        ensures answer { IfOk result (λ answer. answer ≡ spawning path.now self.old.actors) }
        ensures kept { OnOk result (self.new ≡ kept_spawned path.now self.old) }
        ensures err { OnErr result (self.new ≡ self.old) }
    {
        self.actors.spawn(alloc, path)
    }

    /// Removes an actor and its remote watches, and gives their watchers in the order added, one for each remote watch.
    ///
    /// NotThere exactly where the actor is not there. Nothing changes then, nor without memory.
    pub fn stop(&mut self, alloc: Global, path: &Text) -> Result<Stop, NoMemory>
        ensures answer { IfOk result (λ answer. answer ≡ stopping path.now self.old.actors) }
        ensures kept { OnOk result (self.new ≡ kept_stopped path.now self.old) }
        ensures err { OnErr result (self.new ≡ self.old) }
    {
        self.actors.stop(alloc, path)
    }

    /// Adds the remote watch of the actor with this path by this watcher, told by this origin.
    ///
    /// NotThere exactly where the actor is not there; else There exactly where this remote watch stands; else Full where 262,144 stand.
    /// Nothing changes then, nor without memory; an actor to which 2^64 - 1 were added takes no further one, and answers as without memory.
    /// Takes time by the lengths of the texts alone, amortized.
    pub fn remote_watch(
        &mut self,
        alloc: Global,
        path: &Text,
        watcher: &Text,
        origin: &UniqueAddress,
    ) -> Result<RemoteWatch, NoMemory>
        ensures answer { IfOk result (λ answer. answer ≡ remote_watching path.now (remote_of watcher.now origin.now) self.old.actors) }
        ensures kept { OnOk result (self.new ≡ kept_remote_watched path.now (remote_of watcher.now origin.now) self.old) }
        ensures err { OnErr result (self.new ≡ self.old) }
    {
        self.actors.remote_watch(alloc, path, watcher, origin)
    }

    /// Removes this one remote watch, and answers whether it stood. Takes no memory, and time by the lengths of the texts alone, amortized: once
    /// more than half of an actor's places are of removed watches, a pass over that actor's places gives these up. Where it did not stand,
    /// there is no pass.
    pub fn remote_unwatch(&mut self, path: &Text, watcher: &Text, origin: &UniqueAddress) -> bool
        ensures answer { result ≡ remote_unwatching path.now (remote_of watcher.now origin.now) self.old.actors }
        ensures kept { self.new ≡ kept_remote_unwatched path.now (remote_of watcher.now origin.now) self.old }
    {
        self.actors.remote_unwatch(path, watcher, origin)
    }

    /// Removes all remote watches from this origin and no other. Takes no memory, and one pass over all of them.
    pub fn forget_origin(&mut self, origin: &UniqueAddress)
        ensures { self.new ≡ kept_forgotten origin.now self.old }
    {
        self.actors.forget(origin);
    }
}
