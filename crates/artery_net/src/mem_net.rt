//! A net in memory.
ghost use Rattle.std.specs.Option.{option_copied};
ghost use Rattle.std.specs.Prelude.{◌≡◌, ◌≢◌, ℕ, List, [], ◌∷◌, ◌++◌, drop, Option, OnOk, IfOk, OnErr, Err, Ok, MatchBool, min, false, true, ◌≤◌, ◌+◌, length};
ghost use Rattle.artery_io.specs.InMemory.{one_more, next_fails};
ghost use Rattle.artery_net.specs.declared.event.Act.{Act};
ghost use Rattle.artery_net.specs.declared.event.Act.TheVariants as act;
ghost use Rattle.artery_net.specs.declared.event.NetFault.TheVariants as fault;
ghost use Rattle.artery_net.specs.declared.event.Step.TheVariants.{Gave, Did};
ghost use Rattle.artery_net.specs.Story.{HasNetCause, GoesOn, MayGoOn, Acted, dialing, writing, IsFit, moment_after};
ghost use Rattle.artery_net.specs.InMemory.{MemState, AreFit, new_net, first, rest, FailsAsListed, GivesNext, acts_told, woven, told, marked, AreMarked};

use crate::acts::Acts;
use crate::event::{Act, NetEvent, NetFault};
use crate::net::Net;
use crate::net_events::NetEvents;
use artery_base::{Address, Bytes, NoMemory, Numbers};
use artery_machine::Conn;
use std::alloc::Global;
use std::marker::Model;

/// A net in memory, which gives a list of events and then `Idle` for ever, keeps what it is asked, and of which given calls fail. A contract
/// sees which events are left, the numbers of the calls that fail, and what a net tells.
#[derive(Drop)]
pub struct MemNet {
    events: NetEvents,
    at: usize,
    acts: Acts,
    // Of each step of the story, whether the net gave an event.
    marks: Vec<bool>,
    telling: bool,
    failing: Numbers,
    calls: u64,
    faults: u64,
    next_faults: u64,
    asked: u64,
    moment: u64,
}

impl Model for MemNet {
    ghost Value = { MemState };

    ghost view = { λ n. record { left = drop n.at n.events; failing = n.failing; calls = n.calls; story = told n.telling (woven n.marks.items n.events n.acts); faults = n.faults; next_faults = n.next_faults; asked = n.asked; moment = n.moment } };

    ghost invariant = { λ n. (n.at ≤ length n.events) × AreFit n.moment (drop n.at n.events) × AreMarked n.telling n.marks.items n.events (drop n.at n.events) n.acts };
}

impl MemNet {
    /// A net that gives these events, of which each piece has 1 to 65,536 bytes, and each moment is not below the one before and below 2^62.
    /// The calls whose numbers are in `failing` fail; those of `next`, `dial` and `write` are counted together, from 1. Takes no memory.
    pub fn new(alloc: Global, events: NetEvents, failing: Numbers) -> MemNet
        requires { AreFit 0 events }
        ensures { result ≡ new_net events failing }
    {
        MemNet {
            events,
            at: 0,
            acts: Acts::new(alloc),
            marks: Vec::new(alloc),
            telling: true,
            failing,
            calls: 0,
            faults: 0,
            next_faults: 0,
            asked: 0,
            moment: 0,
        }
    }

    /// What it was asked, in order, where it tells its story; None exactly where it tells none, since there was no memory to keep a hang-up.
    #[tactic(auto, using(crate::proofs::Stories::acts_are))]
    pub fn acts(&self) -> Option<&Acts>
        ensures { option_copied result ≡ acts_told self.now.story }
    {
        if !self.telling {
            return None;
        }
        Some(&self.acts)
    }

    /// Counts a call, and says whether it is to fail.
    fn is_to_fail(&mut self) -> bool
        ensures result { result ≡ next_fails self.old.failing self.old.calls }
        ensures same { self.new ≡ record self.old { calls = one_more self.old.calls } }
    {
        self.calls = self.calls.saturating_add(1);
        self.failing.as_slice().contains(&self.calls)
    }

    /// Keeps an act, where the story is told.
    #[tactic(auto, using(crate::proofs::Stories::act_marked, crate::proofs::Stories::act_told))]
    fn keep(&mut self, act: Act) -> Result<(), NoMemory>
        ensures ok { OnOk result (GoesOn self.old.story self.new.story (Did act)) }
        ensures rest { self.new ≡ record self.old { story = self.new.story } }
        ensures err { OnErr result (self.new ≡ self.old) }
    {
        if !self.telling {
            return Ok(());
        }
        keep_marked(&mut self.marks, &mut self.acts, act)?;
        Ok(())
    }

    /// The next event of those that are left.
    #[tactic(auto, using(crate::proofs::Stories::event_marked, crate::proofs::Stories::event_told, crate::proofs::Stories::drop_after, crate::proofs::Stories::fit_first, crate::proofs::Stories::fit_after))]
    fn give(&mut self) -> Result<NetEvent, NetFault>
        ensures gives { GivesNext self.old.left self.new.left result }
        ensures story { IfOk result (λ e. GoesOn self.old.story self.new.story (Gave e)) }
        ensures fit { IfOk result (λ e. IsFit self.old.moment e) }
        ensures moment { IfOk result (λ e. self.new.moment ≡ moment_after self.old.moment e) }
        ensures rest { self.new ≡ record self.old { left = self.new.left; story = self.new.story; moment = self.new.moment } }
        ensures memory { result ≢ Err fault.Failed }
        ensures err { OnErr result (self.new ≡ self.old) }
    {
        let (_, left) = self.events.as_slice().split_at(self.at);
        let event = first_of(left)?;
        mark_event(&mut self.marks, self.telling)?;
        self.at = next_place(self.at, self.events.len());
        self.moment = moment_of(self.moment, &event);
        Ok(event)
    }

    /// What an act answers.
    fn answer(&mut self, failed: bool) -> Result<(), NetFault>
        ensures answer { MatchBool failed (result ≡ Err fault.Failed) (result ≡ Ok tt) }
        ensures cause { HasNetCause self.old.faults self.new.faults result }
        ensures rest { self.new ≡ record self.old { faults = self.new.faults } }
    {
        if failed {
            self.faults = self.faults.saturating_add(1);
            return Err(NetFault::Failed);
        }
        Ok(())
    }
}

/// Keeps an act with its mark, or neither.
fn keep_marked(marks: &mut Vec<bool>, acts: &mut Acts, act: Act) -> Result<(), NoMemory>
    ensures mark { OnOk result (marks.new.items ≡ marks.old.items ++ false ∷ []) }
    ensures act { OnOk result (acts.new ≡ acts.old ++ act ∷ []) }
    ensures err { OnErr result ((marks.new.items ≡ marks.old.items) × (acts.new ≡ acts.old)) }
{
    marks.push(false)?;
    if acts.push(act).is_err() {
        let _mark = marks.pop();
        return Err(NoMemory);
    }
    Ok(())
}

/// Marks an event, where the story is told.
fn mark_event(marks: &mut Vec<bool>, telling: bool) -> Result<(), NoMemory>
    ensures ok { OnOk result (marks.new.items ≡ marked telling true marks.old.items) }
    ensures err { OnErr result (marks.new.items ≡ marks.old.items) }
{
    if telling {
        marks.push(true)?;
    }
    Ok(())
}

/// A copy of the first of the events that are left, or `Idle` where none is.
fn first_of(left: &[NetEvent]) -> Result<NetEvent, NoMemory>
    ensures { IfOk result (λ e. e ≡ first left.now) }
{
    match left {
        [] => Ok(NetEvent::Idle),
        [event, ..] => {
            let event = event.clone()?;
            Ok(event)
        }
    }
}

/// The place behind one, or the end.
fn next_place(at: usize, end: usize) -> usize
    requires { at ≤ end }
    ensures { result ≡ min (at + 1) end }
{
    if at == end {
        return end;
    }
    at + 1
}

/// The moment of the last tick, once an event was given.
fn moment_of(last: u64, event: &NetEvent) -> u64
    ensures { result ≡ moment_after last event.now }
{
    match event {
        NetEvent::Tick { now } => *now,
        _ => last,
    }
}

impl Net for MemNet {
    ghost story = { λ n. n.story };

    ghost faults = { λ n. n.faults };

    ghost next_faults = { λ n. n.next_faults };

    ghost asked = { λ n. n.asked };

    ghost moment = { λ n. n.moment };

    /// Gives the next event of its list, and `Idle` for ever behind them. `Failed` comes exactly where the number of the call is listed, and
    /// leaves all events.
    fn next(&mut self, alloc: Global) -> Result<NetEvent, NetFault>
        ensures asked { self.new.asked ≡ one_more self.old.asked }
        ensures story { IfOk result (λ e. GoesOn self.old.story self.new.story (Gave e)) }
        ensures untold { OnErr result (self.new.story ≡ self.old.story) }
        ensures fit { IfOk result (λ e. IsFit self.old.moment e) }
        ensures moment { IfOk result (λ e. self.new.moment ≡ moment_after self.old.moment e) }
        ensures unmoved { OnErr result (self.new.moment ≡ self.old.moment) }
        ensures cause { HasNetCause self.old.faults self.new.faults result }
        ensures next_cause { HasNetCause self.old.next_faults self.new.next_faults result }
        ensures gives { GivesNext self.old.left self.new.left result }
        ensures failed { FailsAsListed self.old result }
        ensures counted { (self.new.failing ≡ self.old.failing) × (self.new.calls ≡ one_more self.old.calls) }
    {
        self.asked = self.asked.saturating_add(1);
        if self.is_to_fail() {
            self.faults = self.faults.saturating_add(1);
            self.next_faults = self.next_faults.saturating_add(1);
            return Err(NetFault::Failed);
        }
        self.give()
    }

    /// Keeps the act. `Failed` comes where the number of the call is listed and there was memory to keep the act as failed, and nowhere else.
    fn dial(&mut self, alloc: Global, dial: u64, address: &Address) -> Result<(), NetFault>
        ensures story { Acted self.old.story self.new.story (dialing dial address.now) result }
        ensures cause { HasNetCause self.old.faults self.new.faults result }
        ensures failed { FailsAsListed self.old result }
        ensures rest { self.new ≡ record self.old { calls = one_more self.old.calls; story = self.new.story; faults = self.new.faults } }
    {
        let failed = self.is_to_fail();
        let Ok(address) = address.clone() else {
            return Err(NetFault::NoMemory);
        };
        self.keep(Act::Dial {
            dial,
            address,
            failed,
        })?;
        self.answer(failed)
    }

    /// Keeps the act. `Failed` comes where the number of the call is listed and there was memory to keep the act as failed, and nowhere else.
    fn write(&mut self, alloc: Global, dial: u64, bytes: &[u8]) -> Result<(), NetFault>
        ensures story { Acted self.old.story self.new.story (writing dial bytes.now) result }
        ensures cause { HasNetCause self.old.faults self.new.faults result }
        ensures failed { FailsAsListed self.old result }
        ensures rest { self.new ≡ record self.old { calls = one_more self.old.calls; story = self.new.story; faults = self.new.faults } }
    {
        let failed = self.is_to_fail();
        let bytes = Bytes::from_slice(alloc, bytes)?;
        self.keep(Act::Write {
            dial,
            bytes,
            failed,
        })?;
        self.answer(failed)
    }

    /// Keeps the act. Where there is no memory for it, this net tells no story from then on.
    fn hang(&mut self, conn: Conn)
        ensures story { MayGoOn self.old.story self.new.story (Did (act.Hang conn)) }
        ensures rest { self.new ≡ record self.old { story = self.new.story } }
    {
        if self.keep(Act::Hang { conn }).is_err() {
            self.telling = false;
        }
    }
}
