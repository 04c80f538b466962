//! What the judge keeps of each incarnation that has a line.
ghost use Rattle.std.specs.Prelude.{◌≡◌, [], Some, OnOk, IfSome, IsTrue, if◌then◌else◌};
ghost use Rattle.artery_base.specs.declared.address.UniqueAddress.{UniqueAddress};
ghost use Rattle.artery_judge.specs.Lines.{same};
ghost use Rattle.artery_judge.specs.Kept.{noted};
ghost use Rattle.artery_judge.specs.Views.{node_at};

use crate::keys::Incarnation;
use artery_base::{NoMemory, UniqueAddress};
use indexmap::IndexMap;
use std::alloc::Global;
use std::marker::Model;

/// An incarnation that has a line.
#[derive(Clone, Copy)]
pub struct Node {
    /// Whether it stopped.
    pub stopped: bool,
    /// Its greatest moment, and 0 where no line has one.
    pub moment: u64,
}

impl Node {
    /// Has a line more.
    fn note(&mut self, stopped: bool, moment: u64)
        ensures { self.new ≡ noted stopped moment (Some self.old) }
    {
        self.stopped = self.stopped || stopped;
        self.moment = self.moment.max(moment);
    }

    /// Whether such a line more changes nothing.
    fn has_noted(&self, stopped: bool, moment: u64) -> bool
        ensures { IsTrue result → noted stopped moment (Some self.now) ≡ self.now }
    {
        self.stopped == (self.stopped || stopped) && self.moment == self.moment.max(moment)
    }
}

/// The incarnations that have a line.
#[derive(Drop)]
pub struct Nodes<'a> {
    nodes: IndexMap<Incarnation<'a>, Node>,
}

impl<'a> Model for Nodes<'a> {
    ghost use Rattle.std.specs.Prelude.{List};
    ghost use Rattle.artery_judge.specs.declared.keys.Incarnation.{Incarnation};
    ghost use Rattle.artery_judge.specs.declared.nodes.Node.{Node};

    ghost Value = { List (Incarnation × Node) };

    ghost view = { λ n. n.nodes.entries };
}

impl<'a> Nodes<'a> {
    /// No incarnation.
    pub fn new(alloc: Global) -> Nodes<'a>
        ensures { result ≡ [] }
    {
        Nodes {
            nodes: IndexMap::new(alloc),
        }
    }

    /// What is kept of an incarnation.
    pub fn get(&self, of: &'a UniqueAddress) -> Option<Node>
        ensures { result ≡ node_at of.now self.now }
    {
        self.nodes.get(&Incarnation { of }).copied()
    }

    /// Notes a line of an incarnation.
    pub fn note(
        &mut self,
        of: &'a UniqueAddress,
        stopped: bool,
        moment: u64,
    ) -> Result<(), NoMemory>
        ensures { OnOk result ((a : UniqueAddress) → node_at a self.new ≡ (if same a of.now then Some (noted stopped moment (node_at a self.old)) else node_at a self.old)) }
    {
        if let Some(node) = self.nodes.get_mut(&Incarnation { of }) {
            node.note(stopped, moment);
            return Ok(());
        }
        self.nodes
            .insert(Incarnation { of }, Node { stopped, moment })?;
        Ok(())
    }

    /// Notes a line of an incarnation, of which it is known what is kept, if that is told.
    #[tactic(auto, using(crate::proofs::KeyTests::node_unchanged))]
    pub fn note_beside(
        &mut self,
        known: Option<Node>,
        of: &'a UniqueAddress,
        stopped: bool,
        moment: u64,
    ) -> Result<(), NoMemory>
        requires { IfSome known (λ node. node_at of.now self.old ≡ Some node) }
        ensures { OnOk result ((a : UniqueAddress) → node_at a self.new ≡ (if same a of.now then Some (noted stopped moment (node_at a self.old)) else node_at a self.old)) }
    {
        if let Some(node) = known {
            if node.has_noted(stopped, moment) {
                return Ok(());
            }
        }
        self.note(of, stopped, moment)
    }
}
