//! Laws that hold of one node by itself, whatever comes to it. A node starts, any inputs come to it one after the other, and it tells lines:
//! no line breaks the close, the watch or the stopped law of a journal, and the messages taken from one incarnation are numbered 1, 2, 3 and so
//! on, whatever the inputs are; where their moments do not fall, no line breaks the moment law.
//!
//! And of a network, at every script: in its journal no line breaks one of these four laws, since its lines of one incarnation are those that a
//! node tells by itself, and then its stop.
//!
//! The crate has no code: its functions do nothing, and their clauses are the laws. Each holds of what a program keeps, and of whole histories.
#![tactic(auto)]

mod laws;

pub use laws::{
    a_network_keeps_the_close_law, a_network_keeps_the_moment_law, a_network_keeps_the_stopped_law,
    a_network_keeps_the_watch_law, a_node_keeps_the_close_law, a_node_keeps_the_moment_law,
    a_node_keeps_the_stopped_law, a_node_keeps_the_watch_law, a_node_takes_in_order,
};
