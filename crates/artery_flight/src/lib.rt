//! What is in flight between the nodes of a network (`artery_machine`), at every script: what was written on a connection is its preamble and
//! then frames in order, what was delivered is a beginning of these bytes, handshake requests bear their dial, and each connection has names of
//! its own. Where each frame that was written is read back, answers name the connection for which they are, and a node knows rightly whom its
//! connections reach and who dialed those that reach it.
//!
//! The crate has no code: its functions do nothing, and their clauses are the laws.
#![tactic(auto)]

mod laws;

pub use laws::{
    answers_name_their_connection, bound_connections_reach_their_uid, frames_are_in_flight,
    frames_are_read_back, known_connections_were_dialed, messages_are_sent_in_order,
    names_are_single, numbers_are_in_flight, requests_bear_their_dial, what_came_was_delivered,
    what_is_taken_was_sent,
};
