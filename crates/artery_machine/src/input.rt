//! What comes to a node.

use artery_base::{Bytes, Request};

/// A connection of a node: one that it dialed, by the number of its dial, or one that came in, by its number among those.
#[derive(Clone, Copy, Debug, PartialEq, Eq)]
pub enum Conn {
    /// The own connection with this dial number.
    Outward(u64),
    /// The inbound connection with this number.
    Inward(u64),
}

/// One thing that comes to a node.
#[derive(Debug, Drop)]
pub enum Input {
    /// A user asks for something. The request does not name the node's own address.
    Request(Request),
    /// A connection came in and has this number.
    Accepted { conn: u64 },
    /// The dial with this number is up.
    Dialed { dial: u64 },
    /// The dial with this number failed.
    DialFailed { dial: u64 },
    /// So many bytes came on an inbound connection, at most 65,536 of them.
    Bytes { conn: u64, piece: Bytes },
    /// A connection ended at the other side.
    Ended { conn: Conn },
    /// It is this moment, in milliseconds: not below the node's, and below 2^62.
    Tick { now: u64 },
}
