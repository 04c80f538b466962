//! What an allowed event does.
ghost use Rattle.std.specs.Prelude.{◌≡◌, ◌==◌, not, filter, false, None, OnOk};
ghost use Rattle.artery_script.specs.declared.event.Event.TheVariants as events;
ghost use Rattle.artery_machine.specs.World.{happens, refusal, was_started, starts_with, stops_one, gone, by_found, live_of, has_uid};
ghost use Rattle.artery_machine.specs.Reacting.{starts};
ghost use Rattle.artery_world.specs.Running.{IsFitEvent};

use crate::live::Live;
use crate::network::Network;
use crate::pending::Pending;
use artery_base::{NoMemory, UniqueAddress};
use artery_core::Node;
use artery_journal::Line;
use artery_machine::{Input, Outcome, WorldLimit};
use artery_script::Event;
use std::collections::VecDeque;

/// At most so many incarnations live.
const MOST_NODES: usize = 64;

/// The incarnation with this UID is no longer among those that live.
fn remove_live(live: &mut Vec<Live>, uid: u64)
    ensures { live.new.items ≡ filter (λ l. not (has_uid uid l)) live.old.items }
{
    live.retain(
        |l: &Live| -> bool
            ensures { result ≡ not (has_uid uid l.now) }
        { !l.has_uid(uid) },
    );
}

/// The dials of the incarnation with this UID are no longer pending.
fn remove_dials(pending: &mut VecDeque<Pending>, uid: u64)
    ensures { pending.new.items ≡ filter (λ p. not (p.dialer == uid)) pending.old.items }
{
    pending.retain(
        |p: &Pending| -> bool
            ensures { result ≡ not (p.now.dialer == uid) }
        { p.dialer() != uid },
    );
}

impl Network {
    /// An incarnation starts.
    #[tactic(auto, using(crate::proofs::Coming::acts_are_deeds))]
    fn starts(&mut self, unique: UniqueAddress) -> Result<(), NoMemory>
        requires { was_started unique.uid self.old ≡ false }
        ensures { OnOk result (self.new ≡ starts_with unique (starts unique) self.old) }
    {
        if self.live.len() >= MOST_NODES {
            self.ends(WorldLimit::Nodes);
            return Ok(());
        }
        let uid = unique.uid;
        let mut effects = Vec::new(self.alloc);
        let node = Node::start(self.alloc, unique, &mut effects)?;
        let moment = node.moment();
        self.started.insert(uid)?;
        self.live.push(Live::new(node))?;
        self.acts_all(uid, moment, effects)?;
        Ok(())
    }

    /// The incarnation with this UID is gone, with its dials and its sides of connections.
    fn is_gone(&mut self, uid: u64)
        ensures { self.new ≡ gone uid self.old }
    {
        remove_live(&mut self.live, uid);
        remove_dials(&mut self.pending, uid);
        self.connections.end_all_with(uid);
    }

    /// The incarnation with this UID stops, where it lives.
    #[tactic(auto, using(crate::proofs::Starting::stopped))]
    fn stops(&mut self, uid: u64) -> Result<(), NoMemory>
        ensures { OnOk result (self.new ≡ by_found stops_one (live_of uid self.old) self.old) }
    {
        let Some(live) = self.live_of(uid) else {
            return Ok(());
        };
        let moment = live.moment();
        let of = live.copy_of_me()?;
        self.comes_out(Outcome::Line {
            moment,
            line: Line::Stopped { of },
        })?;
        self.is_gone(uid);
        Ok(())
    }

    /// So many bytes of a connection arrive.
    fn is_carried(&mut self, uid: u64, dial: u64, count: u64) -> Result<(), NoMemory>
        ensures { OnOk result (self.new ≡ happens (events.Carry uid dial count) self.old) }
    {
        match self.connections.place_dialed(uid, dial) {
            Some(place) => self.carries(count as usize, place),
            None => Ok(()),
        }
    }

    /// The near side of a connection ends.
    fn is_cut(&mut self, uid: u64, dial: u64) -> Result<(), NoMemory>
        ensures { OnOk result (self.new ≡ happens (events.Cut uid dial) self.old) }
    {
        match self.connections.place_dialed(uid, dial) {
            Some(place) => self.cuts(place),
            None => Ok(()),
        }
    }

    /// The far side of a connection ends.
    fn is_ended(&mut self, uid: u64, dial: u64) -> Result<(), NoMemory>
        ensures { OnOk result (self.new ≡ happens (events.End uid dial) self.old) }
    {
        match self.connections.place_dialed(uid, dial) {
            Some(place) => self.ends_far(place),
            None => Ok(()),
        }
    }

    /// An allowed event happens.
    #[tactic(auto, using(crate::proofs::Starting::not_started, crate::proofs::Starting::tick_fits, crate::proofs::Coming::request_fits))]
    pub(crate) fn happens(&mut self, event: Event) -> Result<(), NoMemory>
        requires fit { IsFitEvent event }
        requires allowed { refusal event self.old ≡ None }
        ensures { OnOk result (self.new ≡ happens event self.old) }
    {
        match event {
            Event::Start { unique } => self.starts(unique),
            Event::Stop { uid } => self.stops(uid),
            Event::At { uid, request } => self.gives(uid, Input::Request(request)),
            Event::Tick { uid, moment } => self.gives(uid, Input::Tick { now: moment }),
            Event::Answer { uid, dial } => self.is_answered(uid, dial),
            Event::Fail { uid, dial } => self.is_failed(uid, dial),
            Event::Carry { uid, dial, count } => self.is_carried(uid, dial, count),
            Event::Cut { uid, dial } => self.is_cut(uid, dial),
            Event::End { uid, dial } => self.is_ended(uid, dial),
            Event::CutAll { uid } => self.cuts_all(uid),
            Event::EndAll { uid } => self.ends_all(uid),
            Event::Pass { rounds } => self.passes(rounds),
        }
    }
}
