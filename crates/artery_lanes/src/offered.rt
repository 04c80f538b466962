//! What a sender may want of an offer, and what it is answered.
use crate::entry::Item;

/// The word of the gate that is loaded before an offer, and the number above which the offer is closed; without a number it never is.
#[derive(Clone, Copy, Debug, PartialEq, Eq)]
pub struct Want {
    pub word: usize,
    pub number: Option<u64>,
}

/// What became of an offer.
#[derive(Debug, PartialEq, Eq, Drop)]
pub enum Offered {
    /// It is queued as the sender's item `k`, from 0. `seen` is the number found at the word of the want, where there was a want.
    Accepted { k: u64, seen: Option<u64> },
    /// The queue was full at one moment of the call. The item comes back.
    Full(Item),
    /// The number `g` was found at the word of the want, above the wanted one. The item comes back, and the queue was not looked at.
    Closed { g: u64, item: Item },
}
