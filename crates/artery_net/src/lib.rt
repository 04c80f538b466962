//! The outside of a node: a [`Net`] of connections and moments, and a [`Feed`] of what its users ask.
//!
//! A net gives one event at each `next`, and is asked to dial, to write and to hang up. It counts its faults, those of `next` apart, and
//! tells how often `next` was called and the moment of the last tick. Where it tells its story, that is the list of all events given and all
//! acts received, in order, each dial and write with whether it failed. A call answers `Failed` only where the count of faults rose in it.
//!
//! A feed gives what senders offer, with the list of all that it has given, and says that it has ended exactly where each sender's
//! `Finished` was given.
//!
//! [`MemNet`] and [`ListFeed`] stand in memory: what they answer is a function of how they were made. [`SocketNet`] stands over the sockets of
//! the system. It keeps the promises of a net, and tells no story, since no contract says what a socket delivers.
#![tactic(auto)]

mod acts;
mod event;
mod feed;
mod list_feed;
mod mem_net;
mod net;
mod net_events;
mod offer;
mod offers;
mod socket_net;
mod socket_peer;

pub use acts::Acts;
pub use artery_machine::Conn;
pub use event::{Act, NetEvent, NetFault, Step};
pub use feed::{Fed, Feed};
pub use list_feed::ListFeed;
pub use mem_net::MemNet;
pub use net::Net;
pub use net_events::NetEvents;
pub use offer::Offer;
pub use offers::Offers;
pub use socket_net::SocketNet;

#[cfg(test)]
mod tests;
