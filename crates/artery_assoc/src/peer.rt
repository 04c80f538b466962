//! A peer's incarnations.
ghost use Rattle.std.specs.Prelude.{◌≡◌, ℕ, true, IfOk};
ghost use Rattle.artery_assoc.specs.Peer.{new_peer, is_closed, is_current, is_full, learning, peer_learnt, closing, peer_closed};

use artery_base::{Address, NoMemory};
use std::alloc::Global;
use std::marker::Model;

/// The most UIDs that are known of a peer: those that are closed and the current one together.
pub const MOST_CLOSED: usize = 1_024;

/// What `learn` did.
#[derive(Clone, Copy, Debug, PartialEq, Eq)]
pub enum Learn {
    /// The UID is current now. A former one is closed.
    Learnt { former: Option<u64> },
    /// The UID was current. Nothing changed.
    Same,
    /// The UID was closed. Nothing changed.
    WasClosed,
    /// The UID is new, and 1,024 others are known. Nothing changed.
    ClosedFull,
}

/// What `close` did.
#[derive(Clone, Copy, Debug, PartialEq, Eq)]
pub enum Close {
    /// The UID was current and is closed. No UID is current.
    Closed,
    /// The UID was closed before. Nothing changed.
    AlreadyClosed,
    /// The UID is neither current nor closed. Nothing changed.
    NotCurrent,
}

/// The incarnations of the peer at an address, each with the UID that it drew: which one is current, if any, and which ones are closed.
#[derive(Drop)]
pub struct Peer {
    address: Address,
    current: Option<u64>,
    closed: Vec<u64>,
}

impl Model for Peer {
    ghost use Rattle.std.specs.Prelude.{◌+◌, ◌≤◌, vec_capacity, length, option_to_list};
    ghost use Rattle.artery_assoc.specs.declared.peer.TheConstants.{MOST_CLOSED};
    ghost use Rattle.artery_assoc.specs.Peer.{PeerState};

    ghost Value = { PeerState };

    ghost view = { λ p. record { address = p.address; current = p.current; closed = p.closed.items } };

    ghost invariant = { λ p. (length p.closed.items + length (option_to_list p.current) ≤ MOST_CLOSED) × (MOST_CLOSED ≤ vec_capacity p.closed) };
}

impl Peer {
    /// A peer with no incarnation, and room for 1,024 closed ones. No other call takes memory.
    pub fn new(alloc: Global, address: Address) -> Result<Peer, NoMemory>
        ensures { IfOk result (λ peer. peer ≡ new_peer address) }
    {
        let closed = Vec::with_capacity(alloc, MOST_CLOSED)?;
        Ok(Peer {
            address,
            current: None,
            closed,
        })
    }

    /// The address of the peer.
    pub fn address(&self) -> &Address
        ensures { result.now ≡ self.now.address }
    {
        &self.address
    }

    /// The UID of the current incarnation, if one is known.
    pub fn current(&self) -> Option<u64>
        ensures { result ≡ self.now.current }
    {
        self.current
    }

    /// Whether a UID is closed.
    pub fn is_closed(&self, uid: u64) -> bool
        ensures { result ≡ is_closed uid self.now }
    {
        self.closed.contains(&uid)
    }

    /// Whether a UID is the current one.
    fn is_current(&self, uid: u64) -> bool
        ensures { result ≡ is_current uid self.now }
    {
        match self.current {
            Some(current) => current == uid,
            None => false,
        }
    }

    /// Whether 1,024 UIDs are known.
    fn is_full(&self) -> bool
        ensures { result ≡ is_full self.now }
    {
        let known = match self.current {
            Some(_current) => self.closed.len() + 1,
            None => self.closed.len(),
        };
        known >= MOST_CLOSED
    }

    /// The answer that `learn` gives here; nothing changes.
    pub fn would_learn(&self, uid: u64) -> Learn
        ensures { result ≡ learning uid self.now }
    {
        if self.is_closed(uid) {
            return Learn::WasClosed;
        }
        if self.is_current(uid) {
            return Learn::Same;
        }
        if self.is_full() {
            return Learn::ClosedFull;
        }
        Learn::Learnt {
            former: self.current,
        }
    }

    /// Makes a UID the current one. A former one is then closed, and is told.
    ///
    /// WasClosed for a closed UID, Same for the current one, ClosedFull where 1,024 others are known: then nothing changes.
    pub fn learn(&mut self, uid: u64) -> Learn
        ensures answer { result ≡ learning uid self.old }
        ensures peer { self.new ≡ peer_learnt uid self.old }
        ensures stays { (other : ℕ) → is_closed other self.old ≡ true → is_closed other self.new ≡ true }
    {
        if self.is_closed(uid) {
            return Learn::WasClosed;
        }
        if self.is_current(uid) {
            return Learn::Same;
        }
        if self.is_full() {
            return Learn::ClosedFull;
        }
        let former = self.current;
        if let Some(former) = former {
            self.closed.push_reserved(former);
        }
        self.current = Some(uid);
        Learn::Learnt { former }
    }

    /// Closes the current UID. Then none is current.
    ///
    /// AlreadyClosed for a closed UID, NotCurrent for any other that is not current: then nothing changes.
    pub fn close(&mut self, uid: u64) -> Close
        ensures answer { result ≡ closing uid self.old }
        ensures peer { self.new ≡ peer_closed uid self.old }
        ensures stays { (other : ℕ) → is_closed other self.old ≡ true → is_closed other self.new ≡ true }
    {
        if self.is_closed(uid) {
            return Close::AlreadyClosed;
        }
        if !self.is_current(uid) {
            return Close::NotCurrent;
        }
        self.closed.push_reserved(uid);
        self.current = None;
        Close::Closed
    }
}
