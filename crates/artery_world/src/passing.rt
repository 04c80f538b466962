//! Dials that are settled, and rounds of delivery.
ghost use Rattle.std.specs.Prelude.{◌≡◌, OnOk};
ghost use Rattle.artery_machine.specs.Connections.{is_loaded};
ghost use Rattle.artery_machine.specs.World.{going_on, by_connection, by_pending, gives, settles, settles_next, connects, joins, fails, for_each, where_it, carries_all, cuts, ends_far, passes_once, times};
ghost use Rattle.artery_machine.specs.declared.input.Input.TheVariants as inputs;
ghost use Rattle.artery_world.specs.Acting.{answers_by, counts_one, is_near_of, is_far_of};

use crate::network::Network;
use crate::pending::Pending;
use artery_base::NoMemory;
use artery_machine::{Input, WorldLimit};

/// At most so many connections are made.
const MOST_CONNECTIONS: usize = 100_000;

impl Network {
    /// One more connection reaches an incarnation.
    #[tactic(auto, using(crate::proofs::Places::set_is_change, crate::proofs::Places::no_place_same))]
    fn counts_one(&mut self, far: u64) -> Result<(), NoMemory>
        ensures { OnOk result (self.new ≡ counts_one far self.old) }
    {
        let Some(at) = self.place_of(far) else {
            return Ok(());
        };
        let live = &mut self.live[at];
        live.counts_one()
    }

    /// A connection is made.
    fn joins(&mut self, uid: u64, dial: u64, far: u64, number: u64) -> Result<(), NoMemory>
        ensures { OnOk result (self.new ≡ joins uid dial far number self.old) }
    {
        self.counts_one(far)?;
        self.connections.push(uid, dial, far, number)
    }

    /// The dialer is told that its dial is up, unless the network has ended.
    #[tactic(auto, using(crate::proofs::Coming::dialed_fits))]
    fn tells_dialed(&mut self, uid: u64, dial: u64) -> Result<(), NoMemory>
        ensures { OnOk result (self.new ≡ going_on (gives uid (inputs.Dialed dial)) self.old) }
    {
        if self.has_ended() {
            return Ok(());
        }
        self.gives(uid, Input::Dialed { dial })
    }

    /// A connection is made and told to both.
    #[tactic(auto, using(crate::proofs::Coming::accepted_fits))]
    fn connects(&mut self, uid: u64, dial: u64, far: u64, number: u64) -> Result<(), NoMemory>
        ensures { OnOk result (self.new ≡ connects uid dial far number self.old) }
    {
        self.joins(uid, dial, far, number)?;
        self.gives(far, Input::Accepted { conn: number })?;
        self.tells_dialed(uid, dial)
    }

    /// A dial is answered by the live incarnation with this UID, which so many connections reached before.
    fn answers(&mut self, dialed: &Pending, far: u64, accepted: u64) -> Result<(), NoMemory>
        ensures { OnOk result (self.new ≡ answers_by dialed.now far accepted self.old) }
    {
        if self.connections.len() >= MOST_CONNECTIONS {
            self.ends(WorldLimit::Connections);
            return Ok(());
        }
        let Some(number) = accepted.checked_add(1) else {
            return Err(NoMemory);
        };
        self.connects(dialed.dialer(), dialed.dial(), far, number)
    }

    /// A dial that is no longer pending fails.
    #[tactic(auto, using(crate::proofs::Coming::failed_fits))]
    fn fails(&mut self, dialed: &Pending) -> Result<(), NoMemory>
        ensures { OnOk result (self.new ≡ fails dialed.now self.old) }
    {
        let dial = dialed.dial();
        self.gives(dialed.dialer(), Input::DialFailed { dial })
    }

    /// A dial that is no longer pending is answered where a live incarnation has its address, and fails else.
    fn settles(&mut self, dialed: &Pending) -> Result<(), NoMemory>
        ensures { OnOk result (self.new ≡ settles dialed.now self.old) }
    {
        let Some(live) = self.live_at(dialed.address()) else {
            return self.fails(dialed);
        };
        let far = live.uid();
        let accepted = live.accepted();
        self.answers(dialed, far, accepted)
    }

    /// The pending dial with this dialer and number is answered.
    pub(crate) fn is_answered(&mut self, uid: u64, dial: u64) -> Result<(), NoMemory>
        ensures { OnOk result (self.new ≡ by_pending uid dial settles self.old) }
    {
        let Some(at) = self.place_pending(uid, dial) else {
            return Ok(());
        };
        let Some(dialed) = self.pending.remove(at) else {
            return Ok(());
        };
        self.settles(&dialed)
    }

    /// The pending dial with this dialer and number fails.
    pub(crate) fn is_failed(&mut self, uid: u64, dial: u64) -> Result<(), NoMemory>
        ensures { OnOk result (self.new ≡ by_pending uid dial fails self.old) }
    {
        let Some(at) = self.place_pending(uid, dial) else {
            return Ok(());
        };
        let Some(dialed) = self.pending.remove(at) else {
            return Ok(());
        };
        self.fails(&dialed)
    }

    /// The first pending dial is settled, where there is one.
    fn settles_next(&mut self) -> Result<(), NoMemory>
        ensures { OnOk result (self.new ≡ settles_next self.old) }
    {
        match self.pending.pop_front() {
            Some(dialed) => self.settles(&dialed),
            None => Ok(()),
        }
    }

    /// The first pending dial is settled, unless the network has ended.
    fn settles_on(&mut self) -> Result<(), NoMemory>
        ensures { OnOk result (self.new ≡ going_on settles_next self.old) }
    {
        if self.has_ended() {
            return Ok(());
        }
        self.settles_next()
    }

    /// So many pending dials are settled, unless the network ends before.
    #[tactic(auto, using(crate::proofs::Rounds::once_more))]
    fn settles_most(&mut self, count: usize) -> Result<(), NoMemory>
        ensures { OnOk result (self.new ≡ times count settles_next self.old) }
    {
        let mut left = count;
        while left > 0 {
            self.settles_on()?;
            left -= 1;
        }
        Ok(())
    }

    /// The connection at a place carries all its undelivered bytes, where it has some.
    fn carries_all(&mut self, place: usize) -> Result<(), NoMemory>
        ensures { OnOk result (self.new ≡ by_connection (where_it is_loaded carries_all) place self.old) }
    {
        let Some(connection) = self.connections.get(place) else {
            return Ok(());
        };
        let count = connection.load();
        if count == 0 {
            return Ok(());
        }
        self.carries(count, place)
    }

    /// Each connection made by now that has undelivered bytes at its turn carries them all, in the order made.
    #[tactic(auto, using(crate::proofs::Rounds::loaded_turn, crate::proofs::Rounds::loaded_done, crate::proofs::Rounds::loaded_past, crate::proofs::Rounds::ended_stays))]
    fn delivers(&mut self) -> Result<(), NoMemory>
        ensures { OnOk result (self.new ≡ for_each is_loaded carries_all self.old) }
    {
        let made = self.connections.len();
        let mut from = 0;
        while !self.has_ended() {
            let Some(place) = self.connections.next_loaded(from) else {
                return Ok(());
            };
            if place >= made {
                return Ok(());
            }
            self.carries_all(place)?;
            from = place + 1;
        }
        Ok(())
    }

    /// The near side of the connection at a place ends, where it is open and this UID dialed it.
    fn cuts_own(&mut self, uid: u64, place: usize) -> Result<(), NoMemory>
        ensures { OnOk result (self.new ≡ by_connection (where_it (is_near_of uid) cuts) place self.old) }
    {
        let Some(connection) = self.connections.get(place) else {
            return Ok(());
        };
        if connection.dialer() != uid || !connection.near_open() {
            return Ok(());
        }
        self.cuts(place)
    }

    /// Each open near side of the connections that this UID dialed ends, in the order made.
    #[tactic(auto, using(crate::proofs::Rounds::near_turn, crate::proofs::Rounds::near_done, crate::proofs::Rounds::near_past, crate::proofs::Rounds::ended_stays))]
    pub(crate) fn cuts_all(&mut self, uid: u64) -> Result<(), NoMemory>
        ensures { OnOk result (self.new ≡ for_each (is_near_of uid) cuts self.old) }
    {
        let made = self.connections.len();
        let mut from = 0;
        while !self.has_ended() {
            let Some(place) = self.connections.next_near(from) else {
                return Ok(());
            };
            if place >= made {
                return Ok(());
            }
            self.cuts_own(uid, place)?;
            from = place + 1;
        }
        Ok(())
    }

    /// The far side of the connection at a place ends, where it is open and this UID dialed the connection.
    fn ends_own(&mut self, uid: u64, place: usize) -> Result<(), NoMemory>
        ensures { OnOk result (self.new ≡ by_connection (where_it (is_far_of uid) ends_far) place self.old) }
    {
        let Some(connection) = self.connections.get(place) else {
            return Ok(());
        };
        if connection.dialer() != uid || !connection.far_open() {
            return Ok(());
        }
        self.ends_far(place)
    }

    /// Each open far side of the connections that this UID dialed ends, in the order made.
    #[tactic(auto, using(crate::proofs::Rounds::far_turn, crate::proofs::Rounds::far_done, crate::proofs::Rounds::far_past, crate::proofs::Rounds::ended_stays))]
    pub(crate) fn ends_all(&mut self, uid: u64) -> Result<(), NoMemory>
        ensures { OnOk result (self.new ≡ for_each (is_far_of uid) ends_far self.old) }
    {
        let made = self.connections.len();
        let mut from = 0;
        while !self.has_ended() {
            let Some(place) = self.connections.next_far(from) else {
                return Ok(());
            };
            if place >= made {
                return Ok(());
            }
            self.ends_own(uid, place)?;
            from = place + 1;
        }
        Ok(())
    }

    /// What is undelivered is carried, unless the network has ended.
    fn delivers_on(&mut self) -> Result<(), NoMemory>
        ensures { OnOk result (self.new ≡ going_on (for_each is_loaded carries_all) self.old) }
    {
        if self.has_ended() {
            return Ok(());
        }
        self.delivers()
    }

    /// A round: the dials that are pending at its beginning are settled, and then what is undelivered is carried.
    fn passes_once(&mut self) -> Result<(), NoMemory>
        ensures { OnOk result (self.new ≡ passes_once self.old) }
    {
        let pending = self.pending.len();
        self.settles_most(pending)?;
        self.delivers_on()
    }

    /// A round, unless the network has ended.
    fn passes_on(&mut self) -> Result<(), NoMemory>
        ensures { OnOk result (self.new ≡ going_on passes_once self.old) }
    {
        if self.has_ended() {
            return Ok(());
        }
        self.passes_once()
    }

    /// So many rounds, unless the network ends before.
    #[tactic(auto, using(crate::proofs::Rounds::once_more))]
    pub(crate) fn passes(&mut self, rounds: u64) -> Result<(), NoMemory>
        ensures { OnOk result (self.new ≡ times rounds passes_once self.old) }
    {
        let mut left = rounds;
        while left > 0 {
            self.passes_on()?;
            left -= 1;
        }
        Ok(())
    }
}
