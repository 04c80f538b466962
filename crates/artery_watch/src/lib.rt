//! Watches, actors, remote watches and the bytes of notices.
//!
//! A [`Watcher`] keeps the watches of a node, each with an id that is given once, the actors that run there, and of each actor the watches
//! from elsewhere. Pairs, paths and remote watches are found by their hashes. [`read_notice`] and [`write_notice`] are inverse on the bytes
//! that a watch, its end, or the end of an actor is told by.
//!
//! A contract sees the lists that are kept: the watched pairs with their ids, ascending, the number of ids given, and the actors in the
//! order in which they were spawned, each with its remote watches in the order added. The law on ids stands on [`ids_never_return`].
#![tactic(auto)]

mod actors;
mod answers;
mod entries;
mod laws;
mod notice;
mod pair;
mod place;
mod remote;
mod remotes;
mod watcher;
mod watches;

pub use answers::{RemoteWatch, Spawn, Stop, Unwatch, Watch};
pub use artery_base::Numbers as Ids;
pub use laws::ids_never_return;
pub use notice::{Notice, NoticeFault, read_notice, write_notice};
pub use pair::Pair;
pub use place::is_at;
pub use remote::RemoteWatcher;
pub use watcher::Watcher;

#[cfg(test)]
mod tests;
