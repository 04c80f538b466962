//! What the calls of a watcher answer.

use artery_base::Names;

/// What `watch` did.
#[derive(Clone, Copy, Debug, PartialEq, Eq)]
pub enum Watch {
    /// The pair is watched from now on, by this id.
    Watching { id: u64 },
    /// The pair is watched already, by this id. Nothing changed.
    Already { id: u64 },
    /// The pair is not watched, and 4,096 others are or no id is left below 2^64. Nothing changed.
    Full,
}

/// What `unwatch` did.
#[derive(Clone, Copy, Debug, PartialEq, Eq)]
pub enum Unwatch {
    /// The watch with this id is no more.
    Unwatched { id: u64 },
    /// The pair is not watched. Nothing changed.
    NotWatched,
}

/// What `spawn` did.
#[derive(Clone, Copy, Debug, PartialEq, Eq)]
pub enum Spawn {
    /// The actor is there from now on, and nobody elsewhere watches it.
    Spawned,
    /// The actor is there already. Nothing changed.
    Exists,
    /// The actor is not there, and 4,096 others are. Nothing changed.
    Full,
}

/// What `stop` did.
#[derive(Debug, Drop)]
pub enum Stop {
    /// The actor is no more, nor are its remote watches, whose watchers these are, in the order added.
    Stopped { watchers: Names },
    /// The actor is not there. Nothing changed.
    NotThere,
}

/// What `remote_watch` did.
#[derive(Clone, Copy, Debug, PartialEq, Eq)]
pub enum RemoteWatch {
    /// The remote watch stands from now on.
    Added,
    /// The remote watch stands already. Nothing changed.
    There,
    /// The actor is not there. Nothing changed.
    NotThere,
    /// The remote watch is new, and 262,144 others stand. Nothing changed.
    Full,
}
