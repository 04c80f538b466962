//! The incarnations of one peer: which one is current, and which ones are closed for ever.
//!
//! A [`Peer`] is made for an address. `learn` makes a UID current and closes the former one; `close` closes the current one. A closed UID
//! stays closed: `learn` never answers Learnt or Same for it. At most 1,024 UIDs are known of a peer; after that none is learnt. `new`
//! reserves the room for them, and no later call takes memory. The law stands on [`closed_for_ever`].
#![tactic(auto)]

mod laws;
mod peer;

pub use laws::closed_for_ever;
pub use peer::{Close, Learn, Peer};

#[cfg(test)]
mod tests;
