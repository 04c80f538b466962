//! Watches of actors elsewhere, actors, and the notices about them.
ghost use Rattle.std.specs.Prelude.{◌≡◌, OnOk, IfOk, Some, None, is_none, ◌&&◌, nat_lt, length};
ghost use Rattle.artery_delivery.specs.Outbound.{is_full};
ghost use Rattle.artery_watch.specs.Keys.{pair_of};
ghost use Rattle.artery_watch.specs.Watcher.{Kept as Watching, kept_watched, kept_unwatched, kept_remote_unwatched};
ghost use Rattle.artery_watch.specs.Keys.{remote_of};
ghost use Rattle.artery_machine.specs.Parts.{kept};
ghost use Rattle.artery_machine.specs.Node.{peer_at};
ghost use Rattle.artery_machine.specs.Doing.{in_bytes, stays, each, tells_of};
ghost use Rattle.artery_machine.specs.Making.{may_have, at_request};
ghost use Rattle.artery_machine.specs.Watching.{unwatch_kind, notice, watches_at, after_last_watch, begins_watch, watches_as, watches_pair, ends_watch, unwatches_pair, watches, unwatches, spawns, tells_ended, kills, is_watched, is_unwatched, at_own, terminates, acts_as};
ghost use Rattle.artery_notices.specs.Telling.{told};
ghost use Rattle.artery_node.specs.Steps.{unwatch_told};
ghost use Rattle.artery_journal.specs.declared.line.Line.TheVariants as lines;

use crate::work::Work;
use artery_base::{Address, NoMemory, Text, UniqueAddress};
use artery_journal::{Line, Reason};
use artery_notices::{NoticeKind, Told, address_in, notice, path_at, reference};
use artery_watch::{Notice, RemoteWatch, Spawn, Stop, Unwatch, Watch, is_at};

impl Work {
    /// Whether an actor at the address is watched.
    pub fn watches_at(&self, address: &Address) -> bool
        ensures { result ≡ watches_at address.now self.now.node }
    {
        self.watching.watches_at(address) > 0
    }

    /// Where no actor at the address is watched any more, the detector is removed.
    fn after_last_watch(&mut self, address: &Address)
        ensures { self.new ≡ after_last_watch address.now self.old }
    {
        if self.watches_at(address) {
            return;
        }
        self.remove_detector(address);
    }

    /// The peer that a request names is made where it is missing, and used; beside 64 peers no other is made, and the request is refused.
    /// Tells whether it may go on.
    pub fn at_request(&mut self, address: &Address) -> Result<bool, NoMemory>
        ensures may { IfOk result (λ may. may ≡ may_have address.now self.old.node) }
        ensures work { OnOk result (self.new ≡ at_request address.now stays self.old) }
    {
        if !self.may_have(address) {
            self.refuses(Reason::Peers)?;
            return Ok(false);
        }
        self.makes_missing(address)?;
        self.uses(address)?;
        Ok(true)
    }

    // ---- watching

    /// Whether a message to the peer at an address would be one too many, with no incarnation to close for it.
    fn would_overflow(&self, address: &Address) -> bool
        ensures { result ≡ (is_full (peer_at address.now self.now.node).out && is_none (peer_at address.now self.now.node).incarnations.current) }
    {
        match self.peer(address) {
            None => false,
            Some(peer) => peer.is_full() && peer.current().is_none(),
        }
    }

    /// It is told that a watch with this id begins.
    fn tells_watched(&mut self, id: u64, watcher: Text, watchee: Text) -> Result<(), NoMemory>
        ensures { OnOk result (self.new ≡ tells_of (λ me. lines.Watched me id watcher watchee) self.old) }
    {
        let of = self.me.clone()?;
        self.tell(Line::Watched {
            of,
            id,
            watcher,
            watchee,
        })
    }

    /// A watch with this id begins: it is told, and the other system is asked to tell of the actor's end.
    fn begins_watch(
        &mut self,
        address: &Address,
        id: u64,
        watcher: Text,
        watchee: Text,
    ) -> Result<(), NoMemory>
        ensures { OnOk result (self.new ≡ begins_watch address.now (pair_of watcher watchee) id self.old) }
    {
        let begins = notice(self.alloc, NoticeKind::Watch, &watchee, &watcher)?;
        self.watching.watch(self.alloc, &watcher, &watchee)?;
        self.tells_watched(id, watcher, watchee)?;
        self.sends(address, begins)?;
        Ok(())
    }

    /// A pair is to be watched.
    #[tactic(auto, using(crate::proofs::Overflows::overflows))]
    fn watches_pair(
        &mut self,
        address: &Address,
        watcher: Text,
        watchee: Text,
    ) -> Result<(), NoMemory>
        ensures { OnOk result (self.new ≡ watches_pair address.now (pair_of watcher watchee) self.old) }
    {
        match self.watching.would_watch(&watcher, &watchee) {
            Watch::Already { .. } => self.refuses(Reason::Watching),
            Watch::Full => self.refuses(Reason::Watches),
            Watch::Watching { id } => {
                if self.would_overflow(address) {
                    return self.refuses(Reason::Waiting);
                }
                self.begins_watch(address, id, watcher, watchee)
            }
        }
    }

    /// The own actor with this path is to watch another one.
    pub fn watches(&mut self, path: &Text, watchee: Text) -> Result<(), NoMemory>
        ensures { OnOk result (self.new ≡ watches path.now watchee self.old) }
    {
        let Some(address) = address_in(self.alloc, &watchee)? else {
            return Ok(());
        };
        let watcher = reference(self.alloc, &self.me.address, path)?;
        if !self.at_request(&address)? {
            return Ok(());
        }
        self.watches_pair(&address, watcher, watchee)
    }

    /// It is told that the watch with this id has ended.
    fn tells_unwatch(&mut self, id: u64) -> Result<(), NoMemory>
        ensures { OnOk result (self.new ≡ tells_of (λ me. lines.Unwatched me id) self.old) }
    {
        let of = self.me.clone()?;
        self.tell(Line::Unwatched { of, id })
    }

    /// It is told that the watch with this id has ended, and the other system is told so. With the last one at the address the detector is
    /// removed.
    fn tells_unwatched(
        &mut self,
        address: &Address,
        id: u64,
        watcher: &Text,
        watchee: &Text,
    ) -> Result<(), NoMemory>
        ensures { OnOk result (self.new ≡ unwatch_told address.now id (notice unwatch_kind watchee.now watcher.now) self.old) }
    {
        let ends = notice(self.alloc, NoticeKind::Unwatch, watchee, watcher)?;
        self.tells_unwatch(id)?;
        self.sends(address, ends)?;
        self.after_last_watch(address);
        Ok(())
    }

    /// A pair is to be watched no longer.
    #[tactic(auto, using(crate::proofs::Unwatched::not_watched))]
    fn unwatches_pair(
        &mut self,
        address: &Address,
        watcher: &Text,
        watchee: &Text,
    ) -> Result<(), NoMemory>
        ensures { OnOk result (self.new ≡ unwatches_pair address.now (pair_of watcher.now watchee.now) self.old) }
    {
        match self.watching.unwatch(watcher, watchee) {
            Unwatch::NotWatched => self.refuses(Reason::NotWatched),
            Unwatch::Unwatched { id } => self.tells_unwatched(address, id, watcher, watchee),
        }
    }

    /// The own actor with this path is to watch another one no longer.
    pub fn unwatches(&mut self, path: &Text, watchee: Text) -> Result<(), NoMemory>
        ensures { OnOk result (self.new ≡ unwatches path.now watchee self.old) }
    {
        let Some(address) = address_in(self.alloc, &watchee)? else {
            return Ok(());
        };
        let watcher = reference(self.alloc, &self.me.address, path)?;
        if !self.at_request(&address)? {
            return Ok(());
        }
        self.unwatches_pair(&address, &watcher, &watchee)?;
        Ok(())
    }

    // ---- actors

    /// An actor is there from now on, unless it is there already or 4,096 others are.
    pub fn spawns(&mut self, path: Text) -> Result<(), NoMemory>
        ensures { OnOk result (self.new ≡ spawns path self.old) }
    {
        match self.watching.spawn(self.alloc, &path)? {
            Spawn::Spawned => {
                let of = self.me.clone()?;
                self.tell(Line::Spawned { of, path })
            }
            Spawn::Exists => self.refuses(Reason::Exists),
            Spawn::Full => self.refuses(Reason::Actors),
        }
    }

    /// A watcher elsewhere is told that the own actor with this path has ended.
    fn tells_ended(&mut self, path: &Text, watcher: &Text) -> Result<(), NoMemory>
        ensures { OnOk result (self.new ≡ tells_ended path.now watcher.now self.old) }
    {
        let Some(address) = address_in(self.alloc, watcher)? else {
            return Ok(());
        };
        let actor = reference(self.alloc, &self.me.address, path)?;
        let ended = notice(self.alloc, NoticeKind::Ended, &actor, watcher)?;
        self.sends(&address, ended)
    }

    /// Each of these watchers is told so, in order.
    #[tactic(auto, using(crate::proofs::Each::each_next))]
    fn tells_all_ended(&mut self, path: &Text, watchers: &[Text]) -> Result<(), NoMemory>
        ensures { OnOk result (self.new ≡ each watchers.now (tells_ended path.now) self.old) }
    {
        for watcher in watchers {
            self.tells_ended(path, watcher)?;
        }
        Ok(())
    }

    /// An actor is to end: it is told, and each of its watchers elsewhere is told so, in the order in which they came.
    #[tactic(auto, using(crate::proofs::Unwatched::not_there))]
    pub fn kills(&mut self, path: &Text) -> Result<(), NoMemory>
        ensures { OnOk result (self.new ≡ kills path.now self.old) }
    {
        match self.watching.stop(self.alloc, path)? {
            Stop::NotThere => self.refuses(Reason::NotThere),
            Stop::Stopped { watchers } => {
                let of = self.me.clone()?;
                let copy = path.clone()?;
                self.tell(Line::Ended { of, path: copy })?;
                self.tells_all_ended(path, watchers.as_slice())?;
                Ok(())
            }
        }
    }

    // ---- notices that came

    /// An own actor is to be watched from elsewhere. Where it is not there, the watcher is told that it has ended.
    #[tactic(auto, using(crate::proofs::Unwatched::not_added))]
    fn is_watched(&mut self, v: &UniqueAddress, told: &Notice, path: &Text) -> Result<(), NoMemory>
        ensures { OnOk result (self.new ≡ is_watched v.now told.now path.now self.old) }
    {
        match self
            .watching
            .remote_watch(self.alloc, path, &told.watcher, v)?
        {
            RemoteWatch::Added | RemoteWatch::There => Ok(()),
            RemoteWatch::Full => self.refuses(Reason::RemoteWatches),
            RemoteWatch::NotThere => {
                let ended = notice(self.alloc, NoticeKind::Ended, &told.actor, &told.watcher)?;
                self.sends(&v.address, ended)?;
                Ok(())
            }
        }
    }

    /// A watch elsewhere of an own actor is removed.
    fn is_unwatched(&mut self, v: &UniqueAddress, told: &Notice, path: &Text)
        ensures { self.new ≡ is_unwatched v.now told.now path.now self.old }
    {
        let _stood = self.watching.remote_unwatch(path, &told.watcher, v);
    }

    /// A watched actor has ended: its watch is terminated, where it stands.
    #[tactic(auto, using(crate::proofs::Unwatched::not_watched))]
    fn terminates(&mut self, address: &Address, told: &Notice) -> Result<(), NoMemory>
        ensures { OnOk result (self.new ≡ terminates address.now (pair_of told.now.watcher told.now.actor) self.old) }
    {
        match self.watching.unwatch(&told.watcher, &told.actor) {
            Unwatch::NotWatched => Ok(()),
            Unwatch::Unwatched { id } => {
                self.tells_end(id)?;
                self.after_last_watch(address);
                Ok(())
            }
        }
    }

    /// What an origin told of a watch acts: a watch begins where the actor is the node's own and the watcher the origin's; it ends where the
    /// actor is the node's own; an actor has ended where it is the origin's.
    pub fn acts_as(&mut self, v: &UniqueAddress, what: Told) -> Result<(), NoMemory>
        ensures { OnOk result (self.new ≡ acts_as v.now self.old.node.me.address (told what) self.old) }
    {
        match what {
            Told::Begins(n) => {
                if !is_at(&v.address, n.watcher.as_slice()) {
                    return Ok(());
                }
                match path_at(self.alloc, &self.me.address, &n.actor)? {
                    None => Ok(()),
                    Some(path) => self.is_watched(v, &n, &path),
                }
            }
            Told::Ends(n) => match path_at(self.alloc, &self.me.address, &n.actor)? {
                None => Ok(()),
                Some(path) => {
                    self.is_unwatched(v, &n, &path);
                    Ok(())
                }
            },
            Told::HasEnded(n) => {
                if !is_at(&v.address, n.actor.as_slice()) {
                    return Ok(());
                }
                self.terminates(&v.address, &n)
            }
            Told::Nothing => Ok(()),
        }
    }
}
