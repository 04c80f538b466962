//! What a node does at a moment: its connections are tended, kept messages are written again, heartbeats are written, peers that are not used
//! are put to sleep, and tables are announced.
//!
//! Each function takes a `Work` of `artery_node` further exactly as the rule of `artery_machine` with the same name says, over what a node
//! keeps. Nothing is kept here.
#![tactic(auto)]

mod beats;
mod connections;
mod messages;
mod sleep;
mod tables;
mod tick;

pub use tick::ticks;
