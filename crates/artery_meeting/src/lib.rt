//! The handshake of one node: dials that are up or lost, requests and answers, and what follows where a connection is bound.
//!
//! Each call takes a node at work (`artery_node`) further exactly as the rule of `artery_machine` with the same name says, over what a node
//! keeps. The crate owns no state. Where memory runs out, what was done before stays done.
#![tactic(auto)]

mod answering;
mod asking;
mod binding;
mod dialing;

pub use answering::answered;
pub use asking::requested;
pub use dialing::{dialed, lost};
