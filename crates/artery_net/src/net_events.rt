ghost use Rattle.std.specs.Prelude.{◌≡◌, ℕ, List, [], ◌∷◌, ◌++◌, length, ◌==◌, OnOk, OnErr};
ghost use Rattle.artery_net.specs.declared.event.NetEvent.{NetEvent};

use crate::event::NetEvent;
use artery_base::NoMemory;
use std::alloc::Global;
use std::marker::Model;

/// A list of events that a net gives, in order.
#[derive(Debug, Drop)]
pub struct NetEvents {
    items: Vec<NetEvent>,
}

impl Model for NetEvents {
    ghost Value = { List NetEvent };

    ghost view = { λ a. a.items.items };
}

impl NetEvents {
    /// The empty list. Takes no memory.
    pub fn new(alloc: Global) -> NetEvents
        ensures { result ≡ [] }
    {
        NetEvents {
            items: Vec::new(alloc),
        }
    }

    /// How many there are.
    pub fn len(&self) -> usize
        ensures { result ≡ length self.now }
    {
        self.items.len()
    }

    /// Whether there are none.
    pub fn is_empty(&self) -> bool
        ensures { result ≡ (length self.now == 0) }
    {
        self.items.is_empty()
    }

    /// The list, borrowed.
    pub fn as_slice(&self) -> &[NetEvent]
        ensures { result.now ≡ self.now }
    {
        self.items.as_slice()
    }

    /// Adds an event at the end. Without memory nothing changes.
    pub fn push(&mut self, item: NetEvent) -> Result<(), NoMemory>
        ensures ok { OnOk result (self.new ≡ self.old ++ item ∷ []) }
        ensures err { OnErr result (self.new ≡ self.old) }
    {
        self.items.push(item)?;
        Ok(())
    }
}
