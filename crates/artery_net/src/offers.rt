ghost use Rattle.std.specs.Prelude.{◌≡◌, ℕ, List, [], ◌∷◌, ◌++◌, length, ◌==◌, OnOk, OnErr};
ghost use Rattle.artery_net.specs.declared.offer.Offer.{Offer};

use crate::offer::Offer;
use artery_base::NoMemory;
use std::alloc::Global;
use std::marker::Model;

/// A list of what senders offer, in order.
#[derive(Debug, Drop)]
pub struct Offers {
    items: Vec<Offer>,
}

impl Model for Offers {
    ghost Value = { List Offer };

    ghost view = { λ a. a.items.items };
}

impl Offers {
    /// The empty list. Takes no memory.
    pub fn new(alloc: Global) -> Offers
        ensures { result ≡ [] }
    {
        Offers {
            items: Vec::new(alloc),
        }
    }

    /// How many there are.
    pub fn len(&self) -> usize
        ensures { result ≡ length self.now }
    {
        self.items.len()
    }

    /// Whether there are none.
    pub fn is_empty(&self) -> bool
        ensures { result ≡ (length self.now == 0) }
    {
        self.items.is_empty()
    }

    /// The list, borrowed.
    pub fn as_slice(&self) -> &[Offer]
        ensures { result.now ≡ self.now }
    {
        self.items.as_slice()
    }

    /// Adds an offer at the end. Without memory nothing changes.
    pub fn push(&mut self, item: Offer) -> Result<(), NoMemory>
        ensures ok { OnOk result (self.new ≡ self.old ++ item ∷ []) }
        ensures err { OnErr result (self.new ≡ self.old) }
    {
        self.items.push(item)?;
        Ok(())
    }

    /// The offers as a vector, in the same order.
    pub fn into_vec(self) -> Vec<Offer>
        ensures { result.items ≡ self }
    {
        let Offers { items } = self;
        items
    }
}
