//! What contracts know of a pass.
use crate::entry::{Entry, Item};
use std::collections::LinkedList;

/// What a pass of a lane knows: a sender's its number and its accepted items, the taker's how many senders' passes were made, the entries
/// taken, and the accepted items of each ended sender. It stands in contracts alone: no value of it is made.
pub enum LaneView {
    Sender {
        from: u32,
        accepted: LinkedList<Item>,
    },
    Taker {
        made: u32,
        got: LinkedList<Entry>,
        ended: LinkedList<(u32, LinkedList<Item>)>,
    },
    /// The pass was taken in.
    Spent,
}
