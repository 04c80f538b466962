//! What a net gives, what it is asked, and what it tells of both.
ghost use Rattle.std.specs.Prelude.{◌≡◌};
ghost use Rattle.artery_net.specs.declared.event.NetFault.TheVariants as fault;

use artery_base::{Address, Bytes, NoMemory};
use artery_machine::Conn;
use std::alloc::{AllocError, AllocFailed};

/// One thing that a net gives.
#[derive(Clone, Debug, PartialEq, Eq, Drop)]
pub enum NetEvent {
    /// A connection came in and has this number.
    Accepted { conn: u64 },
    /// The dial with this number is up.
    Dialed { dial: u64 },
    /// The dial with this number failed.
    DialFailed { dial: u64 },
    /// These bytes came on an inbound connection, 1 to 65,536 of them.
    Bytes { conn: u64, piece: Bytes },
    /// A connection ended at the other side.
    Ended { conn: Conn },
    /// It is this moment, in milliseconds: not below the last one, and below 2^62.
    Tick { now: u64 },
    /// Nothing came.
    Idle,
}

/// Why a net did not do what it was asked.
#[derive(Clone, Copy, Debug, PartialEq, Eq)]
pub enum NetFault {
    /// The outside failed. The net's count of faults has risen.
    Failed,
    /// There was no memory. No count has risen.
    NoMemory,
}

/// One thing that a net was asked, with whether it failed.
#[derive(Clone, Debug, PartialEq, Eq, Drop)]
pub enum Act {
    /// To begin a connection to an address, under a dial number.
    Dial {
        dial: u64,
        address: Address,
        failed: bool,
    },
    /// To write bytes on the own connection with this dial number.
    Write {
        dial: u64,
        bytes: Bytes,
        failed: bool,
    },
    /// To hang up a connection. This can't fail.
    Hang {
        conn: Conn,
    },
}

/// One step of a net's story.
#[derive(Clone, Debug, PartialEq, Eq, Drop)]
pub enum Step {
    /// The net gave an event.
    Gave(NetEvent),
    /// The net was asked something.
    Did(Act),
}

impl From<NoMemory> for NetFault {
    ghost from_gives = { λ _ e. e ≡ fault.NoMemory };

    fn from(_error: NoMemory) -> NetFault {
        NetFault::NoMemory
    }
}

impl From<AllocError> for NetFault {
    ghost from_gives = { λ _ e. e ≡ fault.NoMemory };

    fn from(_error: AllocError) -> NetFault {
        NetFault::NoMemory
    }
}

impl<T: Drop> From<AllocFailed<T>> for NetFault {
    ghost from_gives = { λ _ e. e ≡ fault.NoMemory };

    fn from(_error: AllocFailed<T>) -> NetFault {
        NetFault::NoMemory
    }
}
