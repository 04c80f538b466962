//! Peers and dials.
ghost use Rattle.std.specs.Prelude.{◌≡◌, ◌<◌, ◌+◌, OnOk};
ghost use Rattle.artery_machine.specs.Parts.{kept};
ghost use Rattle.artery_machine.specs.Node.{peer_at, with_link};
ghost use Rattle.artery_machine.specs.Doing.{in_bytes, peer_becomes, tells_of};
ghost use Rattle.artery_machine.specs.Making.{dials, dials_as, link_dialing, link_gone, link_lost, makes_missing, used_now, uses, wakes, loses, last_dial};

use crate::work::Work;
use artery_base::{Address, NoMemory};
use artery_frame::Stream;
use artery_peer::Peer;

impl Work {
    /// The connection to the peer at an address that carries this is being dialed with this number.
    #[tactic(auto, using(crate::proofs::Places::set_is_change, crate::proofs::Places::no_place_same))]
    fn set_dialing(&mut self, stream: Stream, address: &Address, dial: u64)
        ensures { self.new ≡ peer_becomes address.now (with_link stream (link_dialing stream dial)) self.old }
    {
        let Some(at) = self.place_of(address) else {
            return;
        };
        let peer = &mut self.peers[at];
        peer.set_dialing(stream, dial);
    }

    /// A connection to the address is dialed with this number, the next one.
    fn dials_as(&mut self, stream: Stream, address: &Address) -> Result<(), NoMemory>
        requires { self.old.node.dials < last_dial }
        ensures { OnOk result (self.new ≡ dials_as stream address.now (self.old.node.dials + 1) self.old) }
    {
        self.dials += 1;
        let dial = self.dials;
        self.set_dialing(stream, address, dial);
        let copy = address.clone()?;
        self.dial(dial, copy)
    }

    /// A connection is dialed with the next number. Once the last number was taken, no dial is made.
    pub fn dials(&mut self, stream: Stream, address: &Address) -> Result<(), NoMemory>
        ensures { OnOk result (self.new ≡ dials stream address.now self.old) }
    {
        if self.dials >= u64::MAX {
            return Ok(());
        }
        self.dials_as(stream, address)
    }

    /// A peer that is missing is made, and its control connection is dialed.
    pub fn makes_missing(&mut self, address: &Address) -> Result<(), NoMemory>
        ensures { OnOk result (self.new ≡ makes_missing address.now self.old) }
    {
        if self.has_peer(address) {
            return Ok(());
        }
        let peer = Peer::new(self.alloc, address)?;
        self.peers.push(peer)?;
        self.dials(Stream::Control, address)
    }

    /// The peer at an address is used now, and awake.
    #[tactic(auto, using(crate::proofs::Places::set_is_change, crate::proofs::Places::no_place_same))]
    fn set_used(&mut self, address: &Address)
        ensures { self.new ≡ peer_becomes address.now (used_now self.old.node.moment) self.old }
    {
        let now = self.moment;
        let Some(at) = self.place_of(address) else {
            return;
        };
        let peer = &mut self.peers[at];
        peer.set_used(now);
    }

    /// Whether the peer at an address is asleep.
    pub fn is_asleep(&self, address: &Address) -> bool
        ensures { result ≡ (peer_at address.now self.now.node).asleep }
    {
        match self.peer(address) {
            None => false,
            Some(peer) => peer.is_asleep(),
        }
    }

    /// A peer is used: the time without use begins anew, and where it was asleep it wakes, with a dial of its control connection.
    pub fn uses(&mut self, address: &Address) -> Result<(), NoMemory>
        ensures { OnOk result (self.new ≡ uses address.now self.old) }
    {
        let asleep = self.is_asleep(address);
        self.set_used(address);
        if asleep {
            self.dials(Stream::Control, address)
        } else {
            Ok(())
        }
    }

    /// An own connection of the peer at an address is gone, and may be dialed again 1,000 ms from now.
    #[tactic(auto, using(crate::proofs::Places::set_is_change, crate::proofs::Places::no_place_same))]
    pub fn loses(&mut self, stream: Stream, address: &Address)
        ensures { self.new ≡ loses stream address.now self.old }
    {
        let now = self.moment;
        let Some(at) = self.place_of(address) else {
            return;
        };
        let peer = &mut self.peers[at];
        peer.set_lost(stream, now);
    }

    /// An own connection of the peer at an address is gone.
    #[tactic(auto, using(crate::proofs::Places::set_is_change, crate::proofs::Places::no_place_same))]
    pub fn set_gone(&mut self, stream: Stream, address: &Address)
        ensures { self.new ≡ peer_becomes address.now (with_link stream link_gone) self.old }
    {
        let Some(at) = self.place_of(address) else {
            return;
        };
        let peer = &mut self.peers[at];
        peer.set_gone(stream);
    }
}
