ghost use Rattle.std.specs.Prelude.{◌≡◌, ℕ, List, [], ◌∷◌, ◌++◌, length, ◌==◌, OnOk, OnErr};
ghost use Rattle.artery_net.specs.declared.event.Act.{Act};

use crate::event::Act;
use artery_base::NoMemory;
use std::alloc::Global;
use std::marker::Model;

/// A list of what a net was asked, in order.
#[derive(Debug, Drop)]
pub struct Acts {
    items: Vec<Act>,
}

impl Model for Acts {
    ghost Value = { List Act };

    ghost view = { λ a. a.items.items };
}

impl Acts {
    /// The empty list. Takes no memory.
    pub fn new(alloc: Global) -> Acts
        ensures { result ≡ [] }
    {
        Acts {
            items: Vec::new(alloc),
        }
    }

    /// How many there are.
    pub fn len(&self) -> usize
        ensures { result ≡ length self.now }
    {
        self.items.len()
    }

    /// Whether there are none.
    pub fn is_empty(&self) -> bool
        ensures { result ≡ (length self.now == 0) }
    {
        self.items.is_empty()
    }

    /// The list, borrowed.
    pub fn as_slice(&self) -> &[Act]
        ensures { result.now ≡ self.now }
    {
        self.items.as_slice()
    }

    /// Adds an act at the end. Without memory nothing changes.
    pub fn push(&mut self, item: Act) -> Result<(), NoMemory>
        ensures ok { OnOk result (self.new ≡ self.old ++ item ∷ []) }
        ensures err { OnErr result (self.new ≡ self.old) }
    {
        self.items.push(item)?;
        Ok(())
    }
}
