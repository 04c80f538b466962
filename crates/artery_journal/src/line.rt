use crate::rule::Rule;
use crate::words::{Cause, Kind, Reason};
use artery_base::{SysMsg, Tell, Text, UniqueAddress};

/// One line of a journal: what the incarnation `of` did. `other` is an incarnation of another system. A `nonce` is that
/// of an inbound connection or of an answer, where it has one.
#[derive(Debug, PartialEq, Eq, Drop)]
pub enum Line {
    /// `U started`
    Started {
        of: UniqueAddress,
    },
    /// `U stopped`
    Stopped {
        of: UniqueAddress,
    },
    /// `U learnt V`: it learnt which incarnation lives at V's address.
    Learnt {
        of: UniqueAddress,
        other: UniqueAddress,
    },
    /// `U closed V CAUSE`: it will never speak with V again.
    Closed {
        of: UniqueAddress,
        other: UniqueAddress,
        cause: Cause,
    },
    /// `U sent V N S M H`: it accepted a system message for V and gave it the number `n`, counted from 1.
    Sent {
        of: UniqueAddress,
        other: UniqueAddress,
        n: u64,
        message: SysMsg,
    },
    /// `U took V N S M H`: it took V's system message with the number `n`.
    Took {
        of: UniqueAddress,
        other: UniqueAddress,
        n: u64,
        message: SysMsg,
    },
    /// `U again V N`: V's message with the number `n`, which it had taken before, came again.
    Again {
        of: UniqueAddress,
        other: UniqueAddress,
        n: u64,
    },
    /// `U gap V N`: V's message with the number `n` came too early.
    Gap {
        of: UniqueAddress,
        other: UniqueAddress,
        n: u64,
    },
    /// `U told V DIAL SENDER RECIPIENT S M H`: it wrote an ordinary message to V on its connection with this number.
    Told {
        of: UniqueAddress,
        other: UniqueAddress,
        dial: u64,
        message: Tell,
    },
    /// `U got V NONCE SENDER RECIPIENT S M H`: an ordinary message came from V on a connection with this nonce.
    Got {
        of: UniqueAddress,
        other: UniqueAddress,
        nonce: Option<u64>,
        message: Tell,
    },
    /// `U dropped CONN RULE`: what came on the inbound connection with this number was dropped by the rule.
    Dropped {
        of: UniqueAddress,
        conn: u64,
        rule: Rule,
    },
    /// `U stray V NONCE`: an answer of V belongs to no connection that waits for one.
    Stray {
        of: UniqueAddress,
        other: UniqueAddress,
        nonce: Option<u64>,
    },
    /// `U barred V`: V answered, but was closed before.
    Barred {
        of: UniqueAddress,
        other: UniqueAddress,
    },
    /// `U notice V`: V told that it has closed U.
    Notice {
        of: UniqueAddress,
        other: UniqueAddress,
    },
    /// `U watched ID WATCHER WATCHEE`: an actor of its own began to watch one of another system.
    Watched {
        of: UniqueAddress,
        id: u64,
        watcher: Text,
        watchee: Text,
    },
    /// `U unwatched ID`: that watch was given up.
    Unwatched {
        of: UniqueAddress,
        id: u64,
    },
    /// `U terminated ID`: the watched actor has ended, or its system can't be reached.
    Terminated {
        of: UniqueAddress,
        id: u64,
    },
    /// `U refused REASON`
    Refused {
        of: UniqueAddress,
        reason: Reason,
    },
    /// `U spawned PATH`: it has a new actor with this path.
    Spawned {
        of: UniqueAddress,
        path: Text,
    },
    /// `U ended PATH`: that actor is gone.
    Ended {
        of: UniqueAddress,
        path: Text,
    },
    /// `U advertised V KIND VERSION COUNT`: it offered V a new table with so many entries.
    Advertised {
        of: UniqueAddress,
        other: UniqueAddress,
        kind: Kind,
        version: u64,
        count: u64,
    },
    /// `U adopted V KIND VERSION`: it uses this table of V from now on.
    Adopted {
        of: UniqueAddress,
        other: UniqueAddress,
        kind: Kind,
        version: u64,
    },
    /// `U skipped SENDER K SEEN NOW`: the `k`th message of a sending thread was passed over.
    Skipped {
        of: UniqueAddress,
        sender: u64,
        k: u64,
        seen: u64,
        now: u64,
    },
    /// `U idle V`: V was not used for five minutes, and its connections were given up.
    Idle {
        of: UniqueAddress,
        other: UniqueAddress,
    },
}
