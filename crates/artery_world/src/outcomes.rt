//! What came of events.
ghost use Rattle.std.specs.Prelude.{◌≡◌, [], length, ◌==◌, ◌++◌, if◌then◌else◌, OnOk, OnErr, is_ok};

use artery_base::NoMemory;
use artery_machine::Outcome;
use std::alloc::Global;
use std::marker::Model;

/// What came of events, in order.
#[derive(Debug, Drop)]
pub struct Outcomes {
    items: Vec<Outcome>,
}

impl Model for Outcomes {
    ghost use Rattle.std.specs.Prelude.{List};
    ghost use Rattle.artery_machine.specs.declared.world.Outcome.{Outcome};

    ghost Value = { List Outcome };

    ghost view = { λ o. o.items.items };
}

impl Outcomes {
    /// Nothing came yet. Takes no memory.
    pub fn new(alloc: Global) -> Outcomes
        ensures { result ≡ [] }
    {
        Outcomes {
            items: Vec::new(alloc),
        }
    }

    /// How much came.
    pub fn len(&self) -> usize
        ensures { result ≡ length self.now }
    {
        self.items.len()
    }

    /// Whether nothing came.
    pub fn is_empty(&self) -> bool
        ensures { result ≡ (length self.now == 0) }
    {
        self.items.is_empty()
    }

    /// What came, borrowed.
    pub fn as_slice(&self) -> &[Outcome]
        ensures { result.now ≡ self.now }
    {
        self.items.as_slice()
    }

    /// Forgets all, and keeps the room.
    pub fn clear(&mut self)
        ensures { self.new ≡ [] }
    {
        self.items.clear();
    }

    /// What came more goes behind the rest. Without memory nothing changes.
    pub(crate) fn append(&mut self, more: &mut Vec<Outcome>) -> Result<(), NoMemory>
        ensures ok { OnOk result (self.new ≡ self.old ++ more.old.items) }
        ensures err { OnErr result (self.new ≡ self.old) }
        ensures more { OnOk result (more.new.items ≡ []) }
    {
        self.items.append(more)?;
        Ok(())
    }
}
