//! What one node of a network does, as definitions: at each input the lines that it tells, the dials that it makes, what it writes on its
//! connections and which of them it hangs up, in order.
//!
//! The rules stand once, in `specs/`, over a record of operations (`Parts`) for what has a whole history and a form in which a program keeps
//! it: the messages to a peer, those taken from origins, the tables announced to an origin and adopted from a peer, the bytes of an inbound
//! connection, and a detector. Over `whole` they give the machine that a reader means: every list whole, from the first message to the last.
//! Over `kept` they give the machine of what a program keeps. `docs/PROTOCOL.md` has the same rules in prose.
//!
//! The crate has no code but the values that go in and come out. The laws at its end run the machine through its first steps, so that the
//! definitions are seen to do what they say.
#![tactic(auto)]

mod effect;
mod input;
mod laws;
mod link;
mod world;

pub use effect::Effect;
pub use input::{Conn, Input};
pub use laws::{
    a_message_is_sent, a_network_ends, a_network_starts, a_node_is_met, a_node_starts,
    a_peer_sleeps, patience_ends,
};
pub use link::{Answer, Link};
pub use world::{Outcome, Why, WorldFault, WorldLimit};
