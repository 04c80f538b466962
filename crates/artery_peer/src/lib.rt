//! What a node knows of one peer, of one inbound connection and of one origin, as `artery_machine` has it over what a node keeps.
//!
//! Each call changes such a value, or reads it, exactly as the definition of the machine with that name says.
#![tactic(auto)]

mod coming;
mod connection;
mod due;
mod hearing;
mod inbound;
mod meeting;
mod origin;
mod peer;

pub use connection::{bound_dial, dial_asked, dial_of, dial_to, has_dial};
pub use due::{answer_to_tick, is_due};
pub use inbound::Inbound;
pub use meeting::answer_on;
pub use origin::Origin;
pub use peer::Peer;
