//! The deadline detector of a watched peer: whether it is still available.
//!
//! A [`Detector`] is told each ask (a heartbeat that is sent to the peer) and each heartbeat that the peer answers, with their moments in
//! milliseconds. Where the peer answers nothing, the first ask that comes 1,000 ms or more after the very first counts as a heartbeat, so
//! that a peer that never answered has its time too. A peer is available while no heartbeat was seen, and up to 11,000 ms after the last.
//!
//! A contract says what is kept after each call, by an equation: two moments. Besides it says what that means for every list of asks and
//! heartbeats that these stand for, of which nothing is ever dropped. The law that ties the two stands on [`keeping_stands`], and what the
//! ask that counts is on [`one_ask_counts`]. No call takes memory, and every moment is allowed.
#![tactic(auto)]

mod detector;
mod laws;

pub use detector::Detector;
pub use laws::{keeping_stands, one_ask_counts};

#[cfg(test)]
mod tests;
