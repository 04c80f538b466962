//! A network of nodes that a script drives, over bytes.
//!
//! A [`World`] takes one event after the other: incarnations start and stop, are asked something, are told the time; dials are answered or
//! fail; bytes arrive; connections end at either side; rounds of delivery pass. At each it tells what came of it, lines of the journal and
//! writes, in order, or why the event did not happen, or not to its end.
//!
//! What it does is the network's rule of `artery_machine` at that event, over what nodes keep and over the bytes to come of each connection.
#![tactic(auto)]

mod acting;
mod events;
mod giving;
mod live;
mod network;
mod outcomes;
mod passing;
mod pending;
mod refusing;
mod world;

pub use outcomes::Outcomes;
pub use world::World;

#[cfg(test)]
mod tests;
