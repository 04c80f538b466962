//! What nodes do in a network.
ghost use Rattle.std.specs.Prelude.{◌≡◌, ◌+◌, ◌&&◌, nat_lt, OnOk};
ghost use Rattle.artery_machine.specs.World.{by_found, by_connection, connection_becomes, comes_out, dials, each, ends, most_undelivered, undelivered};
ghost use Rattle.artery_machine.specs.Connections.{near_ended, far_ended, place_dialed, place_inward};
ghost use Rattle.artery_machine.specs.declared.world.Outcome.TheVariants as outcomes;
ghost use Rattle.artery_world.specs.Acting.{acts, writes_bytes};

use crate::network::Network;
use crate::pending::Pending;
use artery_base::{Address, Bytes, NoMemory};
use artery_journal::Line;
use artery_machine::{Conn, Effect, Outcome, WorldLimit};
use std::collections::VecDeque;

/// At most so many bytes are undelivered.
const MOST_UNDELIVERED: u64 = 268_435_456;

impl Network {
    /// Something came of an event.
    pub(crate) fn comes_out(&mut self, outcome: Outcome) -> Result<(), NoMemory>
        ensures { OnOk result (self.new ≡ comes_out outcome self.old) }
    {
        self.outcomes.push(outcome)?;
        Ok(())
    }

    /// The network ends at a limit.
    pub(crate) fn ends(&mut self, limit: WorldLimit)
        ensures { self.new ≡ ends limit self.old }
    {
        self.ended = Some(limit);
    }

    /// Whether a write of so many bytes on a connection with this far side would bring the undelivered bytes above the limit.
    fn is_too_much(&self, count: usize, far_open: bool) -> bool
        ensures { result ≡ (far_open && nat_lt most_undelivered (undelivered self.now + count)) }
    {
        let undelivered = self.connections.undelivered();
        far_open && undelivered.saturating_add(count as u64) > MOST_UNDELIVERED
    }

    /// Bytes are written on the connection at a place.
    fn writes_at(&mut self, uid: u64, dial: u64, bytes: Bytes, place: usize) -> Result<(), NoMemory>
        ensures { OnOk result (self.new ≡ by_connection (writes_bytes uid dial bytes) place self.old) }
    {
        let Some(connection) = self.connections.get(place) else {
            return Ok(());
        };
        if !connection.near_open() {
            return Ok(());
        }
        let far_open = connection.far_open();
        if self.is_too_much(bytes.len(), far_open) {
            self.ends(WorldLimit::Undelivered);
            return Ok(());
        }
        self.connections.write(place, bytes.as_slice())?;
        self.comes_out(Outcome::Wrote { uid, dial, bytes })
    }

    /// The node with this UID writes bytes on its connection with this dial number.
    fn writes(&mut self, uid: u64, dial: u64, bytes: Bytes) -> Result<(), NoMemory>
        ensures { OnOk result (self.new ≡ by_found (by_connection (writes_bytes uid dial bytes)) (place_dialed uid dial self.old.connections) self.old) }
    {
        match self.connections.place_dialed(uid, dial) {
            Some(place) => self.writes_at(uid, dial, bytes, place),
            None => Ok(()),
        }
    }

    /// A dial is pending behind the others.
    fn dials(&mut self, uid: u64, dial: u64, address: Address) -> Result<(), NoMemory>
        ensures { OnOk result (self.new ≡ dials uid dial address self.old) }
    {
        self.pending.push_back(Pending::new(uid, dial, address))?;
        Ok(())
    }

    /// The node with this UID hangs up an own connection.
    fn hangs_own(&mut self, uid: u64, dial: u64)
        ensures { self.new ≡ by_found (connection_becomes near_ended) (place_dialed uid dial self.old.connections) self.old }
    {
        if let Some(place) = self.connections.place_dialed(uid, dial) {
            self.connections.end_near(place);
        }
    }

    /// The node with this UID hangs up an inbound connection.
    fn hangs_inbound(&mut self, uid: u64, number: u64)
        ensures { self.new ≡ by_found (connection_becomes far_ended) (place_inward uid number self.old.connections) self.old }
    {
        if let Some(place) = self.connections.place_inward(uid, number) {
            self.connections.end_far(place);
        }
    }

    /// The node with this UID does something, at its moment.
    pub(crate) fn acts(&mut self, uid: u64, moment: u64, effect: Effect) -> Result<(), NoMemory>
        ensures { OnOk result (self.new ≡ acts uid moment effect self.old) }
    {
        match effect {
            Effect::Dial { dial, address } => self.dials(uid, dial, address),
            Effect::Write { dial, bytes } => self.writes(uid, dial, bytes),
            Effect::Hang {
                conn: Conn::Outward(dial),
            } => {
                self.hangs_own(uid, dial);
                Ok(())
            }
            Effect::Hang {
                conn: Conn::Inward(number),
            } => {
                self.hangs_inbound(uid, number);
                Ok(())
            }
            Effect::Line(line) => self.comes_out(Outcome::Line { moment, line }),
        }
    }

    /// The node with this UID does all this, at its moment, unless the network ends before.
    #[tactic(auto, using(crate::proofs::Coming::next_act, crate::proofs::Coming::no_act))]
    pub(crate) fn acts_all(
        &mut self,
        uid: u64,
        moment: u64,
        effects: Vec<Effect>,
    ) -> Result<(), NoMemory>
        ensures { OnOk result (self.new ≡ each effects.items (acts uid moment) self.old) }
    {
        let mut left = VecDeque::from(effects);
        while !self.has_ended() {
            let Some(effect) = left.pop_front() else {
                return Ok(());
            };
            self.acts(uid, moment, effect)?;
        }
        Ok(())
    }
}
