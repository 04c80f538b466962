//! What contracts know of a seat.
use std::collections::LinkedList;

/// What a seat of a gate knows: whether it is the owner's, the greatest number that it has seen at each word, and how many loads it made.
/// It stands in contracts alone: no value of it is made.
pub struct SeatView {
    pub owns: bool,
    pub seen: LinkedList<u64>,
    pub loads: u64,
}
