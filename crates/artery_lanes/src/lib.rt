//! A gate of words that one thread steps and all threads read, and a lane through which many threads hand items to one.
//!
//! A [`Gate`] is a row of 1 to 65 words, each a count of steps from 0. A thread uses it through its own [`Seat`]: the owner's steps words
//! and reads them, each other one only reads. A seat that is split gives another thread its own, and one that is joined hands on what it
//! has seen. No call of a gate waits for another thread.
//!
//! A [`Lane`] is a queue of 1 to 1,024 places from 1 to 16 senders to one taker, with a gate beside it. A sender offers with its
//! [`SenderPass`], and may name a word of the gate with the number above which the offer is to be closed. The [`Taker`] takes what was
//! accepted, and at the end takes in the passes.
//!
//! Contracts see a seat as what it knows of the gate, a pass as the list of the items that were accepted of it, and a taker as the list
//! of the entries taken. Whatever the threads do, at each moment the entries of a sender that were taken, followed by those that are
//! queued, are its accepted list, each with its place in it: so each take gives the next one of its sender, and what was taken of a
//! sender begins its accepted list, as `take_in` says of the pass that it ends.
//!
//! A [`LaneFeed`] gives what a taker takes as the feed of a node, and ends where each sender's `Finished` was taken.
//!
//! Not promised: the order between senders, fairness, and time.
#![tactic(auto)]

mod entry;
mod gate;
mod gate_view;
mod lane;
mod lane_feed;
mod lane_rule;
mod lane_view;
mod offered;
mod passes;
mod sender_pass;
mod taker;

pub use artery_net::Offer;
pub use entry::{Entry, Item};
pub use gate::{Gate, GateState, Seat};
pub use gate_view::SeatView;
pub use lane::Lane;
pub use lane_feed::LaneFeed;
pub use lane_view::LaneView;
pub use offered::{Offered, Want};
pub use passes::Passes;
pub use sender_pass::SenderPass;
pub use taker::Taker;

#[cfg(test)]
mod tests;
