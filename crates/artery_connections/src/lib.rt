//! The connections of a network in memory: who dialed, whom they reach, and the bytes that are on their way.
//!
//! `Connections` keeps all connections that were ever made, in the order made; the place of one is how many were made before it. A byte that
//! was written is kept once, in the buffer of its connection, until it is taken or its far side ends. A connection is found by its dialer and
//! dial number, or by whom it reaches and its number there, and the next one on which bytes are on their way, or of which a side is open, by
//! its place: none of these walks over all connections. Each call says by an equation what it makes of the list of connections, in the words
//! of the network's rules over what is kept.
#![tactic(auto)]

mod connection;
mod connections;
mod end;
mod places;
#[cfg(test)]
mod tests;

pub use connection::{Connection, Counts};
pub use connections::Connections;
