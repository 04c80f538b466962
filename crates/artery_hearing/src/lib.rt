//! What a frame on an inbound connection does: the rules for handshakes, numbered messages, acknowledgements, tables, heartbeats, notices and
//! ordinary messages.
//!
//! `hears` takes a node at work further exactly as the rule of `artery_machine` with this name says, over what a node keeps and over bytes:
//! the frame is dropped by the first rule for which it must be, or what it says is done. The crate owns no state.
#![tactic(auto)]

mod frame;
mod messages;
mod ordinary;
mod tables;

pub use frame::hears;
