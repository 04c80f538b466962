//! What comes of an event of a network, and why one does not happen, or not to its end.
ghost use Rattle.std.specs.Prelude.{◌≡◌};
ghost use Rattle.artery_machine.specs.declared.world.WorldFault.TheVariants as faults;

use artery_base::{Bytes, NoMemory};
use artery_journal::Line;

/// One thing that came of an event.
#[derive(Debug, Drop)]
pub enum Outcome {
    /// An incarnation told a line of the journal, at its moment in milliseconds.
    Line { moment: u64, line: Line },
    /// The incarnation with this UID wrote the bytes, a preamble or one frame, on its connection with this dial number.
    Wrote { uid: u64, dial: u64, bytes: Bytes },
}

/// Which condition of an event fails. Where several fail, the first of the event's own conditions is told.
#[derive(Clone, Copy, Debug, PartialEq, Eq)]
pub enum Why {
    /// The UID was started before.
    UsedUid,
    /// A live incarnation has the address.
    AddressLive,
    /// The incarnation is not live.
    NotLive,
    /// The request names the own address.
    OwnAddress,
    /// The moment is below that of the incarnation.
    MomentBack,
    /// No such dial is pending.
    NoDial,
    /// No live incarnation has the dialed address.
    Nobody,
    /// The connection was not made.
    NoConnection,
    /// The far side of the connection has ended.
    FarEnded,
    /// The near side of the connection has ended.
    NearEnded,
    /// Fewer bytes are undelivered.
    TooMany,
    /// The UID was never started.
    NotStarted,
}

/// A limit of a network.
#[derive(Clone, Copy, Debug, PartialEq, Eq)]
pub enum WorldLimit {
    /// 64 live incarnations.
    Nodes,
    /// 268,435,456 undelivered bytes.
    Undelivered,
    /// 100,000 connections made, those that have ended included.
    Connections,
}

/// Why an event did not happen, or not to its end.
#[derive(Clone, Copy, Debug, PartialEq, Eq)]
pub enum WorldFault {
    /// The event is not allowed here. Nothing changed.
    NotAllowed { why: Why },
    /// The event would pass a limit. What came of it before stands, and the network has ended.
    Limit { which: WorldLimit },
    /// Memory ran out. The network has ended.
    NoMemory,
}

impl From<NoMemory> for WorldFault {
    ghost from_gives = { λ _ e. e ≡ faults.NoMemory };

    fn from(_want: NoMemory) -> WorldFault {
        WorldFault::NoMemory
    }
}
