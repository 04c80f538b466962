//! What the nodes of a network (`artery_machine`) write is read back as its message, at every script that a text tells: each text that a node
//! keeps is short enough, and each number within its range.
//!
//! The crate has no code: its functions do nothing, and their clauses are the laws.
#![tactic(auto)]

mod laws;

pub use laws::what_is_written_is_read_back;
