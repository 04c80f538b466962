//! A watcher elsewhere with its origin, and how one is looked up.
ghost use Rattle.std.specs.Prelude.{◌≡◌, [], ◌∷◌, ◌++◌, length, IfOk};
ghost use Rattle.std.specs.Cmp.Rules.{comparing, hashing};
ghost use Rattle.std.specs.Hash as fed;
ghost use Rattle.std.proofs.Common.{rules};
ghost use Rattle.artery_watch.specs.Keys.{same_remote, remote_of};

use artery_base::{NoMemory, Text, UniqueAddress};
use indexmap::Equivalent;
use std::alloc::Global;
use std::hash::{Hash, Hasher};

/// A watcher of another node, and the incarnation that its watch came from.
#[derive(Clone, Debug, PartialEq, Eq, Drop)]
pub struct RemoteWatcher {
    /// The one that watches.
    pub watcher: Text,
    /// The incarnation that told of the watch.
    pub origin: UniqueAddress,
}

// Of the origin the UID alone is fed, since incarnations hardly ever share one.
impl Hash for RemoteWatcher {
    ghost hash_input = { λ r. (fed.usize (length r.watcher) ++ r.watcher ∷ []) ++ fed.u64 r.origin.uid };

    ghost respects_eq = { Prim.search (hashing, rules) };

    fn hash<H: Hasher>(&self, state: &mut H) {
        self.watcher.hash(state);
        self.origin.uid.hash(state);
    }
}

/// The same, borrowed.
#[derive(Clone, Copy, PartialEq, Eq)]
pub struct RemoteRef<'a> {
    pub watcher: &'a Text,
    pub origin: &'a UniqueAddress,
}

impl<'a> Hash for RemoteRef<'a> {
    ghost hash_input = { λ r. (fed.usize (length r.watcher.now) ++ r.watcher.now ∷ []) ++ fed.u64 r.origin.now.uid };

    ghost respects_eq = { Prim.search (hashing, rules) };

    fn hash<H: Hasher>(&self, state: &mut H) {
        self.watcher.hash(state);
        self.origin.uid.hash(state);
    }
}

impl<'a> RemoteRef<'a> {
    /// A copy of its own.
    pub fn copy(&self, alloc: Global) -> Result<RemoteWatcher, NoMemory>
        ensures { IfOk result (λ copy. copy ≡ remote_of self.now.watcher.now self.now.origin.now) }
    {
        Ok(RemoteWatcher {
            watcher: Text::from_ascii(alloc, self.watcher.as_slice())?,
            origin: self.origin.clone()?,
        })
    }
}

impl<'a> Equivalent<RemoteWatcher> for RemoteRef<'a> {
    ghost use Rattle.artery_watch.specs.contracts.remote.RemoteWatcherHash.TheImpl.Laws.{respects_eq-law};
    ghost use Rattle.artery_watch.specs.contracts.remote.RemoteWatcherEq.TheImpl.Laws.{laws-law};

    ghost equivalent = { λ q k. same_remote (remote_of q.watcher.now q.origin.now) k };

    ghost respects_hash = { λ q. respects_eq-law (remote_of q.watcher.now q.origin.now) };

    ghost respects_eq = { λ q. laws-law.congr (remote_of q.watcher.now q.origin.now) };

    fn equivalent(&self, key: &RemoteWatcher) -> bool {
        *self.watcher == key.watcher && *self.origin == key.origin
    }
}
