//! A node.
ghost use Rattle.std.specs.Prelude.{◌≡◌, ◌<◌, ◌≤◌, ◌^◌, ◌++◌, ◌∷◌, [], length, true, false, OnOk, OnErr, IfOk, IsErr};
ghost use Rattle.artery_journal.specs.declared.line.Line.TheVariants.{Started};
ghost use Rattle.artery_machine.specs.declared.effect.Effect.TheVariants as effects;
ghost use Rattle.artery_machine.specs.Deeds.{effects_of};
ghost use Rattle.artery_machine.specs.Parts.{kept, whole};
ghost use Rattle.artery_machine.specs.Node.{Node, new_node};
ghost use Rattle.artery_machine.specs.Doing.{in_bytes};
ghost use Rattle.artery_machine.specs.Reacting.{reacts, starts, step, owes};
ghost use Rattle.artery_laws.specs.Standing.{NodeStands};
ghost use Rattle.artery_core.specs.Running.{IsFit, DoesAsWhole};

use crate::coming::{comes, ended};
use crate::requests::asked_for;
use artery_base::{NoMemory, UniqueAddress};
use artery_journal::Line;
use artery_laws::{deeds_have_their_bytes, keeping_stands};
use artery_machine::{Effect, Input};
use artery_meeting::{dialed, lost};
use artery_node::Work;
use artery_ticking::ticks;
use std::alloc::Global;
use std::marker::Model;

/// One node: what it keeps, and whether it has stopped for want of memory.
///
/// It runs from its start on. At each input it does what the rules say, and goes on running. Where memory runs out in an input, the node
/// does nothing of that input and has stopped: it takes no further one.
#[derive(Drop)]
pub struct Node {
    work: Work,
    stopped: bool,
}

impl Model for Node {
    ghost use Rattle.std.specs.Prelude.{◌≡◌, []};
    ghost use Rattle.artery_core.specs.Running.{Running};

    ghost Value = { Running };

    ghost view = { λ n. record { node = n.work.node; stopped = n.stopped } };

    ghost invariant = { λ n. n.work.deeds.effects ≡ [] };
}

/// The node does what is to be done at an input.
fn reacts(work: &mut Work, input: Input) -> Result<(), NoMemory>
    requires { IsFit work.old.node input }
    ensures { OnOk result (work.new ≡ reacts input work.old) }
{
    match input {
        Input::Request(request) => asked_for(work, request),
        Input::Accepted { conn } => work.accepts(conn),
        Input::Dialed { dial } => dialed(work, dial),
        Input::DialFailed { dial } => lost(work, dial),
        Input::Bytes { conn, piece } => comes(work, conn, piece.as_slice()),
        Input::Ended { conn } => ended(work, conn),
        Input::Tick { now } => ticks(work, now),
    }
}

/// The node does what is to be done at an input, and what it did comes behind these effects.
fn reacts_and_tells(
    work: &mut Work,
    input: Input,
    effects: &mut Vec<Effect>,
) -> Result<(), NoMemory>
    requires fit { IsFit work.old.node input }
    requires none { work.old.deeds.effects ≡ [] }
    ensures node { OnOk result (work.new.node ≡ (step input work.old.node).node) }
    ensures none { OnOk result (work.new.deeds.effects ≡ []) }
    ensures effects { OnOk result (effects.new.items ≡ effects.old.items ++ effects_of work.old.node.me.uid (step input work.old.node).deeds) }
    ensures err { OnErr result (effects.new.items ≡ effects.old.items) }
{
    deeds_have_their_bytes();
    work.writes_as_itself();
    reacts(work, input)?;
    work.hand_out(effects)?;
    Ok(())
}

impl Node {
    /// A node starts with this unique address, and tells so: its line `started` comes behind these effects. Without memory they stay as they
    /// are.
    pub fn start(
        alloc: Global,
        me: UniqueAddress,
        effects: &mut Vec<Effect>,
    ) -> Result<Node, NoMemory>
        ensures node { IfOk result (λ n. n ≡ record { node = new_node me; stopped = false }) }
        ensures effects { OnOk result (effects.new.items ≡ effects.old.items ++ effects_of me.uid (starts {P = whole} me).deeds) }
        ensures stands { IfOk result (λ n. NodeStands n.node (starts {P = whole} me).node) }
        ensures err { OnErr result (effects.new.items ≡ effects.old.items) }
    {
        keeping_stands();
        let of = me.clone()?;
        effects.push(Effect::Line(Line::Started { of }))?;
        Ok(Node {
            work: Work::new(alloc, me),
            stopped: false,
        })
    }

    /// Takes one input. What the node does at it comes behind these effects, in order.
    ///
    /// The input has to be fit: a piece of bytes has at most 65,536, and a moment is not below the node's and below 2^62 milliseconds. A
    /// request should not name the node's own address: it is done all the same, as the rules say.
    ///
    /// `NoMemory` comes where memory runs out, or a frame that would be written had more than 262,144 bytes or a name more than 65,535. The
    /// effects stay as they are then, and the node has stopped: each later call answers `NoMemory` and changes nothing.
    pub fn react(&mut self, input: Input, effects: &mut Vec<Effect>) -> Result<(), NoMemory>
        requires { IsFit self.old.node input }
        ensures node { OnOk result (self.new ≡ record { node = (step input self.old.node).node; stopped = false }) }
        ensures effects { OnOk result (effects.new.items ≡ effects.old.items ++ effects_of self.old.node.me.uid (step input self.old.node).deeds) }
        ensures whole { OnOk result (DoesAsWhole input self.old.node self.new.node effects.old.items effects.new.items) }
        ensures err { OnErr result (effects.new.items ≡ effects.old.items) }
        ensures stops { OnErr result (self.new.stopped ≡ true) }
        ensures stopped { self.old.stopped ≡ true → IsErr result × (self.new ≡ self.old) }
    {
        keeping_stands();
        if self.stopped {
            return Err(NoMemory);
        }
        match reacts_and_tells(&mut self.work, input, effects) {
            Ok(()) => Ok(()),
            Err(NoMemory) => {
                self.work.forget_effects();
                self.stopped = true;
                Err(NoMemory)
            }
        }
    }

    /// The unique address that the node was started with.
    pub fn me(&self) -> &UniqueAddress
        ensures { result.now ≡ self.now.node.me }
    {
        self.work.me()
    }

    /// The moment of the last tick in milliseconds, 0 before the first.
    pub fn moment(&self) -> u64
        ensures { result ≡ self.now.node.moment }
    {
        self.work.moment()
    }

    /// Whether messages to some peer are kept, wait or are held.
    pub fn owes(&self) -> bool
        ensures { result ≡ owes self.now.node }
    {
        self.work.owes()
    }

    /// Whether the node has stopped for want of memory.
    pub fn has_stopped(&self) -> bool
        ensures { result ≡ self.now.stopped }
    {
        self.stopped
    }
}
