//! The generator of scripts: for each number from 1 to 10,000 one script of three systems that send, tell
//! and watch, lose connections and start again.
//!
//! `generate` gives the script with a number, always the same for the same number. Its rule stands in
//! docs/PROTOCOL.md.
#![tactic(auto)]

mod events;
mod generator;
mod live;
mod place;
mod turn;

pub use generator::generate;

#[cfg(test)]
mod tests;
