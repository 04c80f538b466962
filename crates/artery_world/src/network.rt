//! The incarnations, dials and connections of a network.
ghost use Rattle.std.specs.Prelude.{◌≡◌, ◌<◌, length, position, is_some, IfSome};
ghost use Rattle.std.specs.Option.{option_copied};
ghost use Rattle.artery_machine.specs.World.{nothing, has_uid, lives_at, live_of, live_at, is_pending, pending_of, was_started};

use crate::live::Live;
use crate::pending::Pending;
use artery_base::Address;
use artery_connections::Connections;
use artery_machine::{Outcome, WorldLimit};
use indexmap::IndexSet;
use std::alloc::Global;
use std::collections::VecDeque;
use std::marker::Model;

/// A network: the UIDs that were started, the live incarnations in the order started, the pending dials and the connections in the order
/// made, what came of the event at hand, and the limit at which it ended.
#[derive(Drop)]
pub struct Network {
    pub(crate) alloc: Global,
    pub(crate) started: IndexSet<u64>,
    pub(crate) live: Vec<Live>,
    pub(crate) pending: VecDeque<Pending>,
    pub(crate) connections: Connections,
    pub(crate) outcomes: Vec<Outcome>,
    pub(crate) ended: Option<WorldLimit>,
}

impl Model for Network {
    ghost use Rattle.artery_machine.specs.Parts.{kept};
    ghost use Rattle.artery_machine.specs.Ways.{kept_ways};
    ghost use Rattle.artery_machine.specs.World.{World};

    ghost Value = { World kept kept_ways };

    ghost view = { λ n. record { started = n.started.keys; live = n.live.items; pending = n.pending.items; connections = n.connections; outcomes = n.outcomes.items; ended = n.ended } };
}

impl Network {
    /// Nothing has happened.
    pub fn new(alloc: Global) -> Network
        ensures { result ≡ nothing }
    {
        Network {
            alloc,
            started: IndexSet::new(alloc),
            live: Vec::new(alloc),
            pending: VecDeque::new(alloc),
            connections: Connections::new(alloc),
            outcomes: Vec::new(alloc),
            ended: None,
        }
    }

    /// Whether it has ended at a limit.
    pub(crate) fn has_ended(&self) -> bool
        ensures { result ≡ is_some self.now.ended }
    {
        self.ended.is_some()
    }

    /// The place of the live incarnation with this UID.
    pub(crate) fn place_of(&self, uid: u64) -> Option<usize>
        ensures place { result ≡ position (has_uid uid) self.now.live }
        ensures within { IfSome result (λ at. at < length self.now.live) }
    {
        self.live.iter().position(|l| l.has_uid(uid))
    }

    /// The live incarnation with this UID.
    pub(crate) fn live_of(&self, uid: u64) -> Option<&Live>
        ensures { option_copied result ≡ live_of uid self.now }
    {
        self.live.iter().find(|l| l.has_uid(uid))
    }

    /// The live incarnation at this address.
    pub(crate) fn live_at(&self, address: &Address) -> Option<&Live>
        ensures { option_copied result ≡ live_at address.now self.now }
    {
        self.live.iter().find(|l| l.lives_at(address))
    }

    /// The place of the pending dial with this dialer and number.
    pub(crate) fn place_pending(&self, uid: u64, dial: u64) -> Option<usize>
        ensures place { result ≡ position (is_pending uid dial) self.now.pending }
        ensures within { IfSome result (λ at. at < length self.now.pending) }
    {
        self.pending.iter().position(|p| p.is(uid, dial))
    }

    /// The pending dial with this dialer and number.
    pub(crate) fn pending_of(&self, uid: u64, dial: u64) -> Option<&Pending>
        ensures { option_copied result ≡ pending_of uid dial self.now }
    {
        self.pending.iter().find(|p| p.is(uid, dial))
    }

    /// Whether this UID was started.
    pub(crate) fn was_started(&self, uid: u64) -> bool
        ensures { result ≡ was_started uid self.now }
    {
        self.started.contains(&uid)
    }
}
