//! What one node knows, and the rules that change it beside the handshake, frames and moments: peers and dials, system messages to a peer,
//! ordinary messages told or held, and what follows where an incarnation is closed.
//!
//! A `Work` is a node at work: what it knows by now, and what it did so far at an input, with what it writes as bytes. Each call takes it
//! further exactly as the rule of `artery_machine` with the same name says, over what a node keeps.
#![tactic(auto)]

mod asking;
mod closing;
mod coming;
mod copies;
mod deeds;
mod due;
mod finding;
mod hearing;
mod making;
mod meeting;
mod sending;
mod watching;
mod work;

pub use closing::incarnation;
pub use work::Work;
