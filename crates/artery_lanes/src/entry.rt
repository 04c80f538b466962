//! What a sender hands over.
use artery_base::Request;

/// What a sender offers.
#[derive(Debug, PartialEq, Eq, Drop)]
pub enum Item {
    /// A request to the node.
    Line(Request),
    /// In the place of a request for an incarnation that is gone: the number of its address that was seen, and the greater one found now.
    Skipped { seen: u64, now: u64 },
    /// The sender is done, and offers nothing more.
    Finished,
}

/// An item with its sender, and its place among the items that were accepted of that sender, from 0.
#[derive(Debug, PartialEq, Eq, Drop)]
pub struct Entry {
    pub sender: u32,
    pub k: u64,
    pub item: Item,
}
