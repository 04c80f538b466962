//! The passes of all senders of a lane.
ghost use Rattle.std.specs.Prelude.{◌≡◌, ℕ, ◌+◌, List, [], ◌∷◌, ◌++◌, length, OnOk, OnErr, MatchOption};
ghost use Rattle.artery_lanes.specs.Calls.{PassState};

use crate::sender_pass::SenderPass;
use artery_base::NoMemory;
use std::alloc::Global;
use std::marker::Model;

/// The passes of a lane, one for each sender, in the order of their numbers.
#[derive(Drop)]
pub struct Passes {
    items: Vec<SenderPass>,
}

impl Model for Passes {
    ghost use Rattle.std.specs.Prelude.{List};
    ghost use Rattle.artery_lanes.specs.Calls.{PassState};

    ghost Value = { List PassState };

    ghost view = { λ p. p.items.items };
}

impl Passes {
    pub(crate) fn new(alloc: Global) -> Passes
        ensures { result ≡ [] }
    {
        Passes {
            items: Vec::new(alloc),
        }
    }

    pub(crate) fn push(&mut self, pass: SenderPass) -> Result<(), NoMemory>
        ensures ok { OnOk result (self.new ≡ self.old ++ pass ∷ []) }
        ensures err { OnErr result (self.new ≡ self.old) }
    {
        self.items.push(pass)?;
        Ok(())
    }

    /// Takes out the last pass, where there is one.
    pub fn pop(&mut self) -> Option<SenderPass>
        ensures { MatchOption result ((self.old ≡ []) × (self.new ≡ [])) (λ p. self.old ≡ self.new ++ p ∷ []) }
    {
        self.items.pop()
    }

    /// The passes as a vector, in the same order.
    pub fn into_vec(self) -> Vec<SenderPass>
        ensures { result.items ≡ self }
    {
        let Passes { items } = self;
        items
    }
}
