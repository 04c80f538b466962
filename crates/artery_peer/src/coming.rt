//! The bytes of an inbound connection, and what is owed to a peer.
ghost use Rattle.std.specs.Prelude.{◌≡◌, not, false};
ghost use Rattle.artery_frame.specs.Kept.{nothing_kept};
ghost use Rattle.artery_machine.specs.Parts.{kept};
ghost use Rattle.artery_machine.specs.Reacting.{with_bytes};
ghost use Rattle.artery_machine.specs.Ticking.{owes_nothing};

use crate::inbound::Inbound;
use crate::peer::Peer;
use artery_frame::Deframer;
use std::alloc::Global;
use std::mem;

impl Inbound {
    /// What came is set aside, and nothing came since.
    pub fn take_bytes(&mut self, alloc: Global) -> Deframer
        ensures bytes { result ≡ self.old.bytes }
        ensures inbound { self.new ≡ with_bytes (nothing_kept false) self.old }
    {
        mem::replace(&mut self.bytes, Deframer::new(alloc))
    }

    /// These bytes came.
    pub fn put_bytes(&mut self, bytes: Deframer)
        ensures { self.new ≡ with_bytes bytes self.old }
    {
        self.bytes = bytes;
    }
}

impl Peer {
    /// Whether messages to the peer are kept, wait or are held.
    pub fn owes(&self) -> bool
        ensures { result ≡ not (owes_nothing self.now) }
    {
        !(self.keeps_nothing() && self.held() == 0)
    }
}
