//! What senders offer.
use artery_base::Request;

/// What a sender offers. Senders are numbered from 0.
#[derive(Debug, PartialEq, Eq, Drop)]
pub enum Offer {
    /// A request to the node, and its place among the items of its sender, from 0.
    Line {
        sender: u32,
        k: u64,
        request: Request,
    },
    /// In the place of a request for an incarnation that is gone: the number of its address that was seen, and the greater one found.
    Skipped {
        sender: u32,
        k: u64,
        seen: u64,
        now: u64,
    },
    /// The sender is done, and offers nothing more.
    Finished {
        sender: u32,
    },
}
