//! The ordinary law of a network (`artery_machine`), at every script in whose network each frame that was written is read back as its message:
//! what one incarnation gets from another on a connection is a subsequence of what that one told on it. The names in it are those that
//! were told, also where they were written as places in a table whose version has come round. It stands beside what is in flight
//! (`artery_flight`). At every script that a text tells, each such frame is read back (`artery_written`).
//!
//! The crate has no code: its functions do nothing, and their clauses are the laws.
#![tactic(auto)]

mod laws;

pub use laws::{
    a_network_keeps_the_ordinary_law, a_script_keeps_the_ordinary_law, a_version_means_one_number,
};
