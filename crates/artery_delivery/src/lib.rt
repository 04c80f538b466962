//! Reliable delivery of system messages, in order and once, to each incarnation of a peer.
//!
//! An [`Outbound`] keeps the messages to one peer until they are acknowledged. Without a UID they wait; `learn` numbers them from 1, and
//! `forget` gives them up. `pump` gives the next one to write, up to 1,024 above the acknowledged number. An [`Inbound`] keeps the number
//! expected of each origin, and takes a message exactly at that number.
//!
//! A contract says what is kept after each call, by an equation, and besides what that means for every history that the kept values stand
//! for: the whole list sent to the current incarnation, or the whole list taken from each origin, neither of which is ever shortened. The
//! laws that tie the two stand on [`keeping_stands`], [`expecting_stands`] and [`origins_stay_known`]. Only `reserve` and `open_origin`
//! take memory, and no message is ever copied.
#![tactic(auto)]

mod inbound;
mod laws;
mod outbound;

pub use inbound::{Inbound, Opened, Take};
pub use laws::{expecting_stands, keeping_stands, origins_stay_known};
pub use outbound::{Accept, Acked, Outbound};

#[cfg(test)]
mod tests;
