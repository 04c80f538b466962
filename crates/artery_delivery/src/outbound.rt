//! The messages to one peer that are not acknowledged yet.
ghost use Rattle.std.specs.Prelude.{◌≡◌, ◌+◌, ◌<◌, ◌≤◌, true, false, length, OnOk, OnErr, IsOk, is_some, IfSome, IfNone, None};
ghost use Rattle.std.specs.Option.{option_copied, option_map};
ghost use Rattle.std.specs.Borrow.{sem};
ghost use Rattle.artery_delivery.specs.Rings.{IsInOrder};
ghost use Rattle.artery_delivery.specs.Lending.{EndsPumped, Pumps};
ghost use Rattle.artery_delivery.specs.Outbound.{State, Stands, nothing_kept, is_full, given, acceptance, kept_accepted, kept_learnt, kept_forgotten, acknowledgement, kept_acknowledged, kept_refused, kept_rewound, kept_message, next_to_write, room_reserved, answer_to, accepted, learnt, forgotten, answer_to_ack, acknowledged, refused, rewound, next_sent};

use artery_base::{NoMemory, SysMsg};
use circular_buffer::HeapCircularBuffer;
use std::alloc::Global;
use std::marker::Model;

/// The most messages that are kept.
pub const MOST_KEPT: u64 = 20_000;

/// How far the number of a written message may be above the acknowledged number.
pub const WINDOW: u64 = 1_024;

/// The last number that is given to a message.
pub const LAST_NUMBER: u64 = 18_446_744_073_709_551_614;

/// The places of a ring when it is made.
const FIRST_ROOM: usize = 16;

/// How a message was accepted.
#[derive(Debug, PartialEq, Eq, Drop)]
pub enum Accept {
    /// It has the number `n`.
    Accepted { n: u64 },
    /// No UID is learnt, and it waits at this place, counted from 1.
    Waiting { place: u64 },
    /// It is not kept, and comes back.
    Overflow(SysMsg),
}

/// What an acknowledgement did.
#[derive(Clone, Copy, Debug, PartialEq, Eq)]
pub enum Acked {
    /// So many messages are kept no longer.
    Cleared { count: u64 },
    /// Its number is above the last number given. Nothing changed.
    Past,
}

/// The system messages to one peer, numbered for its current incarnation, until they are acknowledged.
///
/// A contract sees the places that are reserved and what is kept, which stands for the whole list sent.
#[derive(Drop)]
pub struct Outbound {
    ring: Option<HeapCircularBuffer<SysMsg>>,
    learnt: bool,
    acknowledged: u64,
    written: u64,
}

impl Model for Outbound {
    ghost use Rattle.artery_delivery.specs.Outbound.{Outbox};

    ghost Value = { Outbox };

    ghost use Rattle.artery_delivery.specs.Rings.{messages_in, places_in, IsInOrder};

    ghost view = { λ o. record { room = places_in o.ring; kept = record { messages = messages_in o.ring; learnt = o.learnt; acknowledged = o.acknowledged; written = o.written } } };

    ghost invariant = { λ o. IsInOrder (record { room = places_in o.ring; kept = record { messages = messages_in o.ring; learnt = o.learnt; acknowledged = o.acknowledged; written = o.written } }) };
}

impl Outbound {
    /// Nothing kept and no UID learnt. Takes no memory.
    pub fn new() -> Outbound
        ensures kept { result.kept ≡ nothing_kept }
        ensures room { result.room ≡ 0 }
    {
        Outbound {
            ring: None,
            learnt: false,
            acknowledged: 0,
            written: 0,
        }
    }

    /// How many messages are kept.
    pub fn kept(&self) -> u64
        ensures count { result ≡ length self.now.kept.messages }
        ensures order { IsInOrder self.now }
    {
        match &self.ring {
            Some(ring) => ring.len() as u64,
            None => 0,
        }
    }

    /// The kept message at a place, counted from 1. None exactly at 0 and past the number of kept messages.
    pub fn message(&self, place: u64) -> Option<&SysMsg>
        ensures { option_copied result ≡ kept_message place self.now.kept }
    {
        if place == 0 {
            return None;
        }
        match &self.ring {
            Some(ring) => ring.get((place - 1) as usize),
            None => None,
        }
    }

    /// The last number given to a message, and 0 where no UID is learnt.
    fn given(&self) -> u64
        ensures { result ≡ given self.now.kept }
    {
        if self.learnt {
            self.acknowledged + self.kept()
        } else {
            0
        }
    }

    /// Whether `accept` would overflow.
    pub fn is_full(&self) -> bool
        ensures { result ≡ is_full self.now.kept }
    {
        self.kept() >= MOST_KEPT || self.given() >= LAST_NUMBER
    }

    /// Makes room for one more message, unless it would overflow: then nothing is done. Keeps what is kept.
    ///
    /// Takes memory only where no place is free, and then for twice as many places, at most 20,000. Without memory nothing changes.
    pub fn reserve(&mut self, alloc: Global) -> Result<(), NoMemory>
        ensures kept { self.new.kept ≡ self.old.kept }
        ensures room { OnOk result (self.new.room ≡ room_reserved self.old) }
        ensures free { OnOk result (is_full self.new.kept ≡ false → length self.new.kept.messages < self.new.room) }
        ensures full { is_full self.old.kept ≡ true → IsOk result × (self.new ≡ self.old) }
        ensures had { length self.old.kept.messages < self.old.room → IsOk result × (self.new ≡ self.old) }
        ensures err { OnErr result (self.new ≡ self.old) }
    {
        if self.is_full() {
            return Ok(());
        }
        match &mut self.ring {
            Some(ring) => {
                if ring.is_full() {
                    let places = (2 * ring.capacity()).max(FIRST_ROOM);
                    ring.resize(places.min(MOST_KEPT as usize))?;
                }
            }
            None => self.ring = Some(HeapCircularBuffer::with_capacity(alloc, FIRST_ROOM)?),
        }
        Ok(())
    }

    /// Keeps a message as the newest, if there is room for it; else hands it back.
    ///
    /// Wants room for one more message, which `reserve` makes, unless it overflows.
    pub fn accept(&mut self, message: SysMsg) -> Accept
        requires { is_full self.old.kept ≡ false → length self.old.kept.messages < self.old.room }
        ensures answer { result ≡ acceptance message self.old.kept }
        ensures kept { self.new.kept ≡ kept_accepted message self.old.kept }
        ensures room { self.new.room ≡ self.old.room }
        ensures history { (s : State) → Stands self.old.kept s → (result ≡ answer_to message s) × Stands self.new.kept (accepted message s) }
    {
        if self.is_full() {
            return Accept::Overflow(message);
        }
        let place = self.kept() + 1;
        let Some(ring) = &mut self.ring else {
            return Accept::Overflow(message);
        };
        let _none = ring.push_back(message);
        if self.learnt {
            Accept::Accepted {
                n: self.acknowledged + place,
            }
        } else {
            Accept::Waiting { place }
        }
    }

    /// Learns a UID: numbers all waiting messages from 1, and answers how many these are.
    ///
    /// Wants that no UID is learnt.
    pub fn learn(&mut self) -> u64
        requires { self.old.kept.learnt ≡ false }
        ensures answer { result ≡ length self.old.kept.messages }
        ensures kept { self.new.kept ≡ kept_learnt self.old.kept }
        ensures room { self.new.room ≡ self.old.room }
        ensures history { (s : State) → Stands self.old.kept s → (result ≡ length s.waiting) × Stands self.new.kept (learnt s) }
    {
        self.learnt = true;
        self.kept()
    }

    /// Forgets the UID: gives up all kept messages. Numbers begin anew. The reserved room stays.
    ///
    /// Wants that a UID is learnt.
    pub fn forget(&mut self)
        requires { self.old.kept.learnt ≡ true }
        ensures kept { self.new.kept ≡ kept_forgotten }
        ensures room { self.new.room ≡ self.old.room }
        ensures history { Stands self.new.kept forgotten }
    {
        self.learnt = false;
        self.acknowledged = 0;
        self.written = 0;
        if let Some(ring) = &mut self.ring {
            ring.clear();
        }
    }

    /// Begins the writing anew at the first kept message.
    pub fn rewind(&mut self)
        ensures kept { self.new.kept ≡ kept_rewound self.old.kept }
        ensures room { self.new.room ≡ self.old.room }
        ensures history { (s : State) → Stands self.old.kept s → Stands self.new.kept (rewound s) }
    {
        self.written = self.acknowledged;
    }

    /// Clears the kept messages up to number `n`, and answers how many these were. Past, with nothing changed, exactly where `n` is
    /// above the last number given.
    pub fn ack(&mut self, n: u64) -> Acked
        ensures answer { result ≡ acknowledgement n self.old.kept }
        ensures kept { self.new.kept ≡ kept_acknowledged n self.old.kept }
        ensures room { self.new.room ≡ self.old.room }
        ensures history { (s : State) → Stands self.old.kept s → (result ≡ answer_to_ack n s) × Stands self.new.kept (acknowledged n s) }
    {
        if n > self.given() {
            return Acked::Past;
        }
        let count = n.saturating_sub(self.acknowledged);
        let left = self.kept() - count;
        if let Some(ring) = &mut self.ring {
            ring.truncate_front(left as usize);
        }
        self.acknowledged = self.acknowledged.max(n);
        self.written = self.written.max(n);
        Acked::Cleared { count }
    }

    /// Does what `ack` does and then, unless that was Past, what `rewind` does.
    pub fn nack(&mut self, n: u64) -> Acked
        ensures answer { result ≡ acknowledgement n self.old.kept }
        ensures kept { self.new.kept ≡ kept_refused n self.old.kept }
        ensures room { self.new.room ≡ self.old.room }
        ensures history { (s : State) → Stands self.old.kept s → (result ≡ answer_to_ack n s) × Stands self.new.kept (refused n s) }
    {
        let answer = self.ack(n);
        if let Acked::Cleared { .. } = answer {
            self.rewind();
        }
        answer
    }

    /// Counts the next message to write as written, and answers its number and its place among the kept ones, counted from 1.
    fn advance(&mut self) -> Option<(u64, u64)>
        ensures some { IfSome result (λ p. is_some (kept_message p.1 self.new.kept) ≡ true) }
        ensures next { IfSome result (λ p. next_to_write self.old.kept ≡ option_map (λ m. (p.0, m)) (kept_message p.1 self.new.kept)) }
        ensures none { IfNone result (next_to_write self.old.kept ≡ None) }
        ensures pumps { Pumps self.old self.new }
    {
        let ahead = self.written - self.acknowledged;
        if !self.learnt || ahead >= WINDOW || ahead >= self.kept() {
            return None;
        }
        self.written += 1;
        Some((self.written, ahead + 1))
    }

    /// The next message to write with its number, which then counts as written. None exactly where no UID is learnt, or where there
    /// is no message with a number up to 1,024 above the acknowledged one that is not written.
    pub fn pump(&mut self) -> Option<(u64, &SysMsg)>
        ensures* after { sem 𝓛 (EndsPumped self.entry) }
        ensures next { option_map (λ p. (p.0, p.1.now)) result ≡ next_to_write self.old.kept }
        ensures history { (s : State) → Stands self.old.kept s → option_map (λ p. (p.0, p.1.now)) result ≡ next_sent s }
    {
        let (n, place) = self.advance()?;
        let message = self.message(place).unwrap();
        Some((n, message))
    }
}
