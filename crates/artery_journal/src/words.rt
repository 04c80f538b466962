/// Why an incarnation was closed.
#[derive(Clone, Copy, Debug, PartialEq, Eq)]
pub enum Cause {
    /// `superseded`: another incarnation lives at its address.
    Superseded,
    /// `quarantined`: the user of the node asked for it.
    Quarantined,
    /// `unreachable`: it no longer answered, and actors there were watched.
    Unreachable,
    /// `overflow`: too many messages to it were not acknowledged.
    Overflow,
    /// `undelivered`: no message to it was acknowledged for six hours.
    Undelivered,
}

/// Which of its two tables an origin keeps: that of the names of actors, or that of the manifests.
#[derive(Clone, Copy, Debug, PartialEq, Eq)]
pub enum Kind {
    /// `refs`
    Refs,
    /// `manifests`
    Manifests,
}

/// Why a request or a connection was refused.
#[derive(Clone, Copy, Debug, PartialEq, Eq)]
pub enum Reason {
    /// `peers`: there are 64 peers.
    Peers,
    /// `connections`: there are 256 inbound connections.
    Connections,
    /// `waiting`: too many messages wait for an incarnation to be learnt.
    Waiting,
    /// `held`: 3,072 ordinary messages are held.
    Held,
    /// `watching`: the pair is watched already.
    Watching,
    /// `watches`: there are 4,096 watches, or no number is left for one.
    Watches,
    /// `not-watched`: the pair is not watched.
    NotWatched,
    /// `exists`: there is such an actor already.
    Exists,
    /// `actors`: there is no room for another actor.
    Actors,
    /// `not-there`: there is no such actor.
    NotThere,
    /// `not-current`: no incarnation at the address is current.
    NotCurrent,
    /// `closed-uids`: there is no room for another closed incarnation of the address.
    ClosedUids,
    /// `remote-watches`: 262,144 watches from other nodes stand.
    RemoteWatches,
}

/// Which name of an envelope is meant.
#[derive(Clone, Copy, Debug, PartialEq, Eq)]
pub enum Which {
    /// `sender`
    Sender,
    /// `recipient`
    Recipient,
    /// `manifest`
    Manifest,
}
