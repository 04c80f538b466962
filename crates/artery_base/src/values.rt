ghost use Rattle.std.specs.Prelude.{◌≡◌, ℕ, List, [], ◌∷◌, ◌++◌, length, ◌==◌, OnOk, OnErr, IfOk};

use crate::memory::NoMemory;
use std::alloc::Global;
use std::marker::Model;

/// The values of a compression table, in order.
#[derive(Clone, Debug, Drop)]
pub struct Values {
    items: Vec<u16>,
}

impl Model for Values {
    ghost Value = { List ℕ };

    ghost view = { λ a. a.items.items };
}

impl Values {
    /// The empty list. Takes no memory.
    pub fn new(alloc: Global) -> Values
        ensures { result ≡ [] }
    {
        Values {
            items: Vec::new(alloc),
        }
    }

    /// How many there are.
    pub fn len(&self) -> usize
        ensures { result ≡ length self.now }
    {
        self.items.len()
    }

    /// Whether there are none.
    pub fn is_empty(&self) -> bool
        ensures { result ≡ (length self.now == 0) }
    {
        self.items.is_empty()
    }

    /// The list, borrowed.
    pub fn as_slice(&self) -> &[u16]
        ensures { result.now ≡ self.now }
    {
        self.items.as_slice()
    }

    /// Adds a value at the end. Without memory nothing changes.
    pub fn push(&mut self, value: u16) -> Result<(), NoMemory>
        ensures ok { OnOk result (self.new ≡ self.old ++ value ∷ []) }
        ensures err { OnErr result (self.new ≡ self.old) }
    {
        self.items.push(value)?;
        Ok(())
    }
}
