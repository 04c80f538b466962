//! The prefix law of a network (`artery_machine`), at every script in whose network each frame that was written is read back as its message:
//! what one incarnation took from another is a prefix of what that other sent to it. It follows from what is in flight (`artery_flight`) and
//! from what a node takes by itself (`artery_alone`). At every script that a text tells, each such frame is read back (`artery_written`).
//!
//! The crate has no code: its functions do nothing, and their clauses are the laws.
#![tactic(auto)]

mod laws;

pub use laws::{
    a_network_keeps_the_prefix_law, a_network_takes_in_order, a_script_keeps_the_prefix_law,
};
