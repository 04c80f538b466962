//! The actors of a node, and who watches them from elsewhere.
ghost use Rattle.std.specs.Prelude.{◌≡◌, ◌+◌, ◌<◌, ◌^◌, [], ◌++◌, drop, take, map, IfOk, OnOk, OnErr};
ghost use Rattle.artery_watch.specs.Keys.{remote_of};
ghost use Rattle.artery_watch.specs.Watcher.{remote_count, spawning, spawned, stopping, stopped, remote_watching, remote_watched, remote_unwatching, remote_unwatched, forgotten};

use crate::answers::{RemoteWatch, Spawn, Stop};
use crate::entries::insert;
use crate::remotes::Remotes;
use artery_base::{NoMemory, Text, UniqueAddress};
use indexmap::IndexMap;
use std::alloc::Global;
use std::marker::Model;

/// The most actors.
pub const MOST_ACTORS: usize = 4_096;

/// The most remote watches.
pub const MOST_REMOTE: usize = 262_144;

/// The actors, each with its remote watches, and how many of these there are in all.
#[derive(Drop)]
pub struct Actors {
    map: Option<IndexMap<Text, Remotes>>,
    remote: usize,
}

impl Model for Actors {
    ghost use Rattle.std.specs.Prelude.{◌≡◌};
    ghost use Rattle.artery_watch.specs.Entries.{entries_in};
    ghost use Rattle.artery_watch.specs.Watcher.{Actors as ActorList, remote_count};

    ghost Value = { ActorList };

    ghost view = { λ a. entries_in a.map };

    ghost invariant = { λ a. a.remote ≡ remote_count (entries_in a.map) };
}

impl Actors {
    /// No actor. Takes no memory.
    pub fn new() -> Actors
        ensures { result ≡ [] }
    {
        Actors {
            map: None,
            remote: 0,
        }
    }

    /// What `spawn` does, if it gets its memory.
    fn spawning(&self, path: &Text) -> Spawn
        ensures { result ≡ spawning path.now self.now }
    {
        match &self.map {
            Some(map) => {
                if map.contains_key(path) {
                    Spawn::Exists
                } else if map.len() >= MOST_ACTORS {
                    Spawn::Full
                } else {
                    Spawn::Spawned
                }
            }
            None => Spawn::Spawned,
        }
    }

    /// Adds a new actor.
    #[tactic(auto, using(crate::proofs::Inserted::spawn_is, crate::proofs::Inserted::spawn_counts))]
    fn add(&mut self, alloc: Global, path: Text) -> Result<(), NoMemory>
        requires { spawning path self.old ≡ Spawn.Spawned }
        ensures ok { OnOk result (self.new ≡ spawned path self.old) }
        ensures err { OnErr result (self.new ≡ self.old) }
    {
        insert(alloc, &mut self.map, path, Remotes::new(alloc))
    }

    /// Spawns an actor, unless it is there or 4,096 others are.
    pub fn spawn(&mut self, alloc: Global, path: &Text) -> Result<Spawn, NoMemory>
        ensures answer { IfOk result (λ answer. answer ≡ spawning path.now self.old) }
        ensures ok { OnOk result (self.new ≡ spawned path.now self.old) }
        ensures err { OnErr result (self.new ≡ self.old) }
    {
        match self.spawning(path) {
            Spawn::Spawned => {
                self.add(alloc, path.clone()?)?;
                Ok(Spawn::Spawned)
            }
            Spawn::Exists => Ok(Spawn::Exists),
            Spawn::Full => Ok(Spawn::Full),
        }
    }

    /// Removes an actor and its remote watches, and gives their watchers.
    #[tactic(auto, using(crate::proofs::Inserted::remove_absent))]
    pub fn stop(&mut self, alloc: Global, path: &Text) -> Result<Stop, NoMemory>
        ensures answer { IfOk result (λ answer. answer ≡ stopping path.now self.old) }
        ensures ok { OnOk result (self.new ≡ stopped path.now self.old) }
        ensures err { OnErr result (self.new ≡ self.old) }
    {
        let Some(map) = &mut self.map else {
            return Ok(Stop::NotThere);
        };
        let Some(remotes) = map.get(path) else {
            return Ok(Stop::NotThere);
        };
        let watchers = remotes.watchers(alloc)?;
        self.remote -= stop_in(map, path);
        Ok(Stop::Stopped { watchers })
    }

    /// What `remote_watch` does, if it gets its memory.
    fn remote_watching(&self, path: &Text, watcher: &Text, origin: &UniqueAddress) -> RemoteWatch
        ensures { result ≡ remote_watching path.now (remote_of watcher.now origin.now) self.now }
    {
        let Some(map) = &self.map else {
            return RemoteWatch::NotThere;
        };
        let Some(remotes) = map.get(path) else {
            return RemoteWatch::NotThere;
        };
        if remotes.contains(watcher, origin) {
            return RemoteWatch::There;
        }
        if self.remote >= MOST_REMOTE {
            return RemoteWatch::Full;
        }
        RemoteWatch::Added
    }

    /// Adds a new remote watch.
    #[tactic(auto, using(crate::proofs::Inserted::added_counts, crate::proofs::Inserted::added_few))]
    fn add_remote(
        &mut self,
        alloc: Global,
        path: &Text,
        watcher: &Text,
        origin: &UniqueAddress,
    ) -> Result<(), NoMemory>
        requires { remote_watching path.now (remote_of watcher.now origin.now) self.old ≡ RemoteWatch.Added }
        ensures ok { OnOk result (self.new ≡ remote_watched path.now (remote_of watcher.now origin.now) self.old) }
        ensures err { OnErr result (self.new ≡ self.old) }
    {
        let Some(map) = &mut self.map else {
            return Err(NoMemory);
        };
        add_in(alloc, map, path, watcher, origin)?;
        self.remote += 1;
        Ok(())
    }

    /// Adds a remote watch, unless its actor is not there, it stands already, or 262,144 others stand.
    pub fn remote_watch(
        &mut self,
        alloc: Global,
        path: &Text,
        watcher: &Text,
        origin: &UniqueAddress,
    ) -> Result<RemoteWatch, NoMemory>
        ensures answer { IfOk result (λ answer. answer ≡ remote_watching path.now (remote_of watcher.now origin.now) self.old) }
        ensures ok { OnOk result (self.new ≡ remote_watched path.now (remote_of watcher.now origin.now) self.old) }
        ensures err { OnErr result (self.new ≡ self.old) }
    {
        match self.remote_watching(path, watcher, origin) {
            RemoteWatch::Added => {
                self.add_remote(alloc, path, watcher, origin)?;
                Ok(RemoteWatch::Added)
            }
            RemoteWatch::There => Ok(RemoteWatch::There),
            RemoteWatch::NotThere => Ok(RemoteWatch::NotThere),
            RemoteWatch::Full => Ok(RemoteWatch::Full),
        }
    }

    /// Removes a remote watch, and answers whether it stood.
    #[tactic(auto, using(crate::proofs::Inserted::dropped_counts, crate::proofs::Inserted::dropped_room, crate::proofs::Inserted::unwatched_nothing))]
    pub fn remote_unwatch(&mut self, path: &Text, watcher: &Text, origin: &UniqueAddress) -> bool
        ensures answer { result ≡ remote_unwatching path.now (remote_of watcher.now origin.now) self.old }
        ensures rest { self.new ≡ remote_unwatched path.now (remote_of watcher.now origin.now) self.old }
    {
        let Some(map) = &mut self.map else {
            return false;
        };
        if !remove_in(map, path, watcher, origin) {
            return false;
        }
        self.remote -= 1;
        true
    }

    /// Removes all remote watches from an origin.
    pub fn forget(&mut self, origin: &UniqueAddress)
        ensures { self.new ≡ forgotten origin.now self.old }
    {
        let Some(map) = &mut self.map else {
            return;
        };
        self.remote = forget_in(map, origin);
    }
}

/// Removes an actor, and counts the remote watches that go with it.
#[tactic(auto, using(crate::proofs::Inserted::remove_absent, crate::proofs::Inserted::stop_counts))]
fn stop_in(map: &mut IndexMap<Text, Remotes>, path: &Text) -> usize
    ensures entries { map.new.entries ≡ stopped path.now map.old.entries }
    ensures count { remote_count map.new.entries + result ≡ remote_count map.old.entries }
{
    match map.shift_remove(path) {
        Some(remotes) => remotes.len(),
        None => 0,
    }
}

/// Adds a new remote watch.
#[tactic(auto, using(std::proofs::lemmas::Map::Steps::set_value_same, crate::proofs::Inserted::added_at, crate::proofs::Inserted::added_room))]
fn add_in(
    alloc: Global,
    map: &mut IndexMap<Text, Remotes>,
    path: &Text,
    watcher: &Text,
    origin: &UniqueAddress,
) -> Result<(), NoMemory>
    requires { remote_watching path.now (remote_of watcher.now origin.now) map.old.entries ≡ RemoteWatch.Added }
    ensures ok { OnOk result (map.new.entries ≡ remote_watched path.now (remote_of watcher.now origin.now) map.old.entries) }
    ensures err { OnErr result (map.new.entries ≡ map.old.entries) }
{
    let Some(remotes) = map.get_mut(path) else {
        return Err(NoMemory);
    };
    remotes.add(alloc, watcher, origin)
}

/// Removes a remote watch, and answers whether it stood.
#[tactic(auto, using(crate::proofs::Inserted::removed_at, crate::proofs::Inserted::unwatched_nowhere))]
fn remove_in(
    map: &mut IndexMap<Text, Remotes>,
    path: &Text,
    watcher: &Text,
    origin: &UniqueAddress,
) -> bool
    ensures answer { result ≡ remote_unwatching path.now (remote_of watcher.now origin.now) map.old.entries }
    ensures entries { map.new.entries ≡ remote_unwatched path.now (remote_of watcher.now origin.now) map.old.entries }
{
    let Some(remotes) = map.get_mut(path) else {
        return false;
    };
    remotes.remove(watcher, origin)
}

/// Removes all remote watches from an origin, and counts the others.
#[tactic(auto, using(crate::proofs::Forgotten::forget_step, crate::proofs::Forgotten::count_step, crate::proofs::Forgotten::count_room, crate::proofs::Forgotten::same_length))]
fn forget_in(map: &mut IndexMap<Text, Remotes>, origin: &UniqueAddress) -> usize
    requires { remote_count map.old.entries < 2 ^ 64 }
    ensures entries { map.new.entries ≡ forgotten origin.now map.old.entries }
    ensures count { result ≡ remote_count map.new.entries }
{
    let mut count = 0;
    for at in 0..map.len() {
        let remotes = &mut map[at];
        remotes.forget(origin);
        count += remotes.len();
    }
    count
}
