//! All connections that were ever made.
ghost use Rattle.std.specs.Prelude.{◌≡◌, ◌<◌, List, [], ◌∷◌, ◌++◌, length, map, slice_get, OnOk, OnErr, IfOk, IfSome};
ghost use Rattle.std.specs.Option.{option_copied, option_map};
ghost use Rattle.artery_machine.specs.Lists.{change_at};
ghost use Rattle.artery_machine.specs.Connections.{connected, place_dialed, place_inward, loads, is_loaded, far_open, near_ended, far_ended, ended_with, with_delivered};
ghost use Rattle.artery_connections.specs.Change.{with_bytes, taken, counts_of};
ghost use Rattle.artery_connections.specs.Next.{IsNext};

use crate::connection::{Connection, Counts};
use crate::end::{End, find, note};
use crate::places::{add_to_both, next_in, unload, write_on};
use artery_base::{Bytes, NoMemory};
use indexmap::IndexMap;
use std::alloc::Global;
use std::collections::BTreeSet;
use std::marker::Model;

/// All connections that were ever made, in the order made. The place of one is how many were made before it.
///
/// A contract sees the list of them. Where each is found, on which bytes are on their way, which sides are open, and how many bytes are on
/// their way on all, is kept beside.
#[derive(Drop)]
pub struct Connections {
    made: Vec<Connection>,
    by_dial: IndexMap<End, usize>,
    by_number: IndexMap<End, usize>,
    loaded: BTreeSet<usize>,
    near: BTreeSet<usize>,
    far: BTreeSet<usize>,
    undelivered: u64,
}

impl Model for Connections {
    ghost use Rattle.std.specs.Prelude.{List};
    ghost use Rattle.artery_machine.specs.Ways.{kept_ways};
    ghost use Rattle.artery_machine.specs.Connections as machine;
    ghost use Rattle.artery_connections.specs.Kept.{IsIndexed};

    ghost Value = { List (machine.Connection kept_ways) };

    ghost view = { λ c. c.made.items };

    ghost invariant = { λ c. IsIndexed c.made.items c.by_dial.entries c.by_number.entries c.loaded.keys c.near.keys c.far.keys c.undelivered };
}

impl Connections {
    /// No connections. Takes no memory; what is made later takes it from this allocator.
    pub fn new(alloc: Global) -> Connections
        ensures { result ≡ [] }
    {
        Connections {
            made: Vec::new(alloc),
            by_dial: IndexMap::new(alloc),
            by_number: IndexMap::new(alloc),
            loaded: BTreeSet::new(alloc),
            near: BTreeSet::new(alloc),
            far: BTreeSet::new(alloc),
            undelivered: 0,
        }
    }

    /// How many connections were ever made.
    pub fn len(&self) -> usize
        ensures { result ≡ length self.now }
    {
        self.made.len()
    }

    /// The connection at a place.
    pub fn get(&self, place: usize) -> Option<&Connection>
        ensures { option_copied result ≡ slice_get self.now place }
    {
        self.made.get(place)
    }

    /// The place of the first connection with this dialer and dial number.
    pub fn place_dialed(&self, uid: u64, dial: u64) -> Option<usize>
        ensures place { result ≡ place_dialed uid dial self.now }
        ensures within { IfSome result (λ at. at < length self.now) }
    {
        find(&self.by_dial, uid, dial)
    }

    /// The place of the first connection that reaches this incarnation under this number.
    pub fn place_inward(&self, uid: u64, number: u64) -> Option<usize>
        ensures place { result ≡ place_inward uid number self.now }
        ensures within { IfSome result (λ at. at < length self.now) }
    {
        find(&self.by_number, uid, number)
    }

    /// How many bytes are on their way on all connections.
    pub fn undelivered(&self) -> u64
        ensures { result ≡ loads self.now }
    {
        self.undelivered
    }

    /// Makes a connection, with both sides open: from the incarnation with the UID `dialer`, which dialed it by its dial number `dial`, to the
    /// one with the UID `far`, at which it has this number. Without memory nothing changes.
    pub fn push(&mut self, dialer: u64, dial: u64, far: u64, number: u64) -> Result<(), NoMemory>
        ensures ok { OnOk result (self.new ≡ self.old ++ connected dialer dial far number ∷ []) }
        ensures err { OnErr result (self.new ≡ self.old) }
    {
        self.made.reserve(1)?;
        self.by_dial.reserve(1)?;
        self.by_number.reserve(1)?;
        let place = self.made.len();
        add_to_both(&mut self.near, &mut self.far, place)?;
        let dialed = End {
            uid: dialer,
            number: dial,
        };
        note(&mut self.by_dial, dialed, place)?;
        note(&mut self.by_number, End { uid: far, number }, place)?;
        let alloc = *self.made.allocator();
        self.made
            .push(Connection::new(alloc, dialer, dial, far, number))?;
        Ok(())
    }

    /// Writes bytes on the connection at a place, if there is one: they count as written, and are on their way where its far side is open.
    /// Without memory nothing changes; so too where more than 18,446,744,073,709,551,615 bytes would be on their way on all connections.
    #[tactic(auto, using(crate::proofs::Changed::set_is_change))]
    pub fn write(&mut self, place: usize, bytes: &[u8]) -> Result<(), NoMemory>
        ensures ok { OnOk result (self.new ≡ change_at place (with_bytes bytes.now) self.old) }
        ensures err { OnErr result (self.new ≡ self.old) }
    {
        if place >= self.made.len() {
            return Ok(());
        }
        let connection = &mut self.made[place];
        let Some(undelivered) = self.undelivered.checked_add(connection.gained(bytes)) else {
            return Err(NoMemory);
        };
        write_on(&mut self.loaded, place, connection, bytes)?;
        self.undelivered = undelivered;
        Ok(())
    }

    /// Takes the first `count` of the bytes that are on their way on the connection at a place, at most all, and counts them as delivered; none
    /// where there is no connection. Where all are taken at once they are not copied. Without memory nothing changes.
    #[tactic(auto, using(crate::proofs::Changed::set_is_change))]
    pub fn take(&mut self, alloc: Global, place: usize, count: usize) -> Result<Bytes, NoMemory>
        ensures bytes { IfOk result (λ b. b ≡ taken count (slice_get self.old place)) }
        ensures ok { OnOk result (self.new ≡ change_at place (with_delivered count) self.old) }
        ensures err { OnErr result (self.new ≡ self.old) }
    {
        if place >= self.made.len() {
            return Ok(Bytes::new(alloc));
        }
        let connection = &mut self.made[place];
        let taken = connection.take(alloc, count)?;
        unload(&mut self.loaded, place, connection);
        self.undelivered -= taken.len() as u64;
        Ok(taken)
    }

    /// Ends the near side of the connection at a place, if there is one. What is on its way stays so.
    #[tactic(auto, using(crate::proofs::Changed::set_is_change))]
    pub fn end_near(&mut self, place: usize)
        ensures { self.new ≡ change_at place near_ended self.old }
    {
        if place >= self.made.len() {
            return;
        }
        let connection = &mut self.made[place];
        connection.end_near();
        let _there = self.near.remove(&place);
    }

    /// Ends the far side of the connection at a place, if there is one. What is on its way on it is lost.
    #[tactic(auto, using(crate::proofs::Changed::set_is_change, crate::proofs::Changed::load_within))]
    pub fn end_far(&mut self, place: usize)
        ensures { self.new ≡ change_at place far_ended self.old }
    {
        if place >= self.made.len() {
            return;
        }
        let connection = &mut self.made[place];
        self.undelivered -= connection.load() as u64;
        connection.end_far();
        let _there = self.far.remove(&place);
        let _there = self.loaded.remove(&place);
    }

    /// Ends each near side and each far side of the incarnation with this UID. One pass over all connections.
    #[tactic(auto, using(crate::proofs::Stopped::one_more))]
    pub fn end_all_with(&mut self, uid: u64)
        ensures { self.new ≡ map (ended_with uid) self.old }
    {
        for place in 0..self.made.len() {
            self.end_with(uid, place);
        }
    }

    /// Ends the sides of the incarnation with this UID on the connection at a place.
    #[tactic(auto, using(crate::proofs::Stopped::both_end, crate::proofs::Stopped::far_ends, crate::proofs::Stopped::near_ends, crate::proofs::Stopped::none_ends))]
    fn end_with(&mut self, uid: u64, place: usize)
        ensures { self.new ≡ change_at place (ended_with uid) self.old }
    {
        let Some(connection) = self.get(place) else {
            return;
        };
        match (connection.far() == uid, connection.dialer() == uid) {
            (true, true) => {
                self.end_far(place);
                self.end_near(place);
            }
            (true, false) => self.end_far(place),
            (false, true) => self.end_near(place),
            (false, false) => {}
        }
    }

    /// The place of the next connection, from one place on, on which bytes are on their way.
    pub fn next_loaded(&self, from: usize) -> Option<usize>
        ensures { IsNext is_loaded from self.now result }
    {
        next_in(&self.loaded, from)
    }

    /// The place of the next connection, from one place on, of which the near side is open.
    pub fn next_near(&self, from: usize) -> Option<usize>
        ensures { IsNext (λ c. c.near_open) from self.now result }
    {
        next_in(&self.near, from)
    }

    /// The place of the next connection, from one place on, of which the far side is open.
    pub fn next_far(&self, from: usize) -> Option<usize>
        ensures { IsNext far_open from self.now result }
    {
        next_in(&self.far, from)
    }

    /// Who dialed the connection at a place, and how many bytes were written on it and delivered.
    pub fn counts(&self, place: usize) -> Option<Counts>
        ensures { result ≡ option_map counts_of (slice_get self.now place) }
    {
        let connection = self.made.get(place)?;
        Some(connection.counts())
    }
}
