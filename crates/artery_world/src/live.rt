//! An incarnation that lives.
ghost use Rattle.std.specs.Prelude.{◌≡◌, ◌++◌, OnOk, IfOk};
ghost use Rattle.artery_machine.specs.Node.{same_address};
ghost use Rattle.artery_machine.specs.Deeds.{effects_of};
ghost use Rattle.artery_machine.specs.Reacting.{step};
ghost use Rattle.artery_machine.specs.World.{has_uid, lives_at, with_node, one_more};
ghost use Rattle.artery_core.specs.Running.{IsFit};

use artery_base::{Address, NoMemory, UniqueAddress};
use artery_core::Node;
use artery_machine::{Effect, Input};
use std::marker::Model;

/// A live incarnation, and how many connections reached it.
#[derive(Drop)]
pub struct Live {
    node: Node,
    accepted: u64,
}

impl Model for Live {
    ghost use Rattle.artery_machine.specs.Parts.{kept};
    ghost use Rattle.artery_machine.specs.World.{Live};

    ghost Value = { Live kept };

    ghost view = { λ l. record { node = l.node.node; accepted = l.accepted } };
}

impl Live {
    /// An incarnation that no connection has reached yet.
    pub fn new(node: Node) -> Live
        ensures { result ≡ record { node = node.node; accepted = 0 } }
    {
        Live { node, accepted: 0 }
    }

    /// Who it is.
    pub fn me(&self) -> &UniqueAddress
        ensures { result.now ≡ self.now.node.me }
    {
        self.node.me()
    }

    /// A copy of who it is.
    pub fn copy_of_me(&self) -> Result<UniqueAddress, NoMemory>
        ensures { IfOk result (λ me. me ≡ self.now.node.me) }
    {
        let me = self.node.me();
        Ok(me.clone()?)
    }

    /// Its UID.
    pub fn uid(&self) -> u64
        ensures { result ≡ self.now.node.me.uid }
    {
        self.node.me().uid
    }

    /// Whether it has this UID.
    pub fn has_uid(&self, uid: u64) -> bool
        ensures { result ≡ has_uid uid self.now }
    {
        self.node.me().uid == uid
    }

    /// Whether it lives at this address.
    pub fn lives_at(&self, address: &Address) -> bool
        ensures { result ≡ lives_at address.now self.now }
    {
        self.node.me().address == *address
    }

    /// Its moment.
    pub fn moment(&self) -> u64
        ensures { result ≡ self.now.node.moment }
    {
        self.node.moment()
    }

    /// How many connections reached it.
    pub fn accepted(&self) -> u64
        ensures { result ≡ self.now.accepted }
    {
        self.accepted
    }

    /// One more connection reaches it. More than 2^64 - 1 can't be counted, which is told as want of memory.
    pub fn counts_one(&mut self) -> Result<(), NoMemory>
        ensures { OnOk result (self.new ≡ one_more self.old) }
    {
        let Some(more) = self.accepted.checked_add(1) else {
            return Err(NoMemory);
        };
        self.accepted = more;
        Ok(())
    }

    /// It takes one input. What it does at it comes behind these effects.
    pub fn takes(&mut self, input: Input, effects: &mut Vec<Effect>) -> Result<(), NoMemory>
        requires { IsFit self.old.node input }
        ensures live { OnOk result (self.new ≡ with_node (step input self.old.node).node self.old) }
        ensures effects { OnOk result (effects.new.items ≡ effects.old.items ++ effects_of self.old.node.me.uid (step input self.old.node).deeds) }
    {
        self.node.react(input, effects)
    }
}
