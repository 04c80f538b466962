//! What is asked of an own connection, where there is one.
ghost use Rattle.std.specs.Prelude.{◌≡◌};
ghost use Rattle.artery_machine.specs.Node.{has_dial, bound_dial, dial_to, dial_asked};
ghost use Rattle.artery_machine.specs.Closing.{dial_of};

use artery_handshake::{OutConn, OutState};

/// Whether a connection has this dial number.
pub fn has_dial(dial: u64, conn: Option<OutConn>) -> bool
    ensures { result ≡ has_dial dial conn }
{
    match conn {
        None => false,
        Some(conn) => conn.dial == dial,
    }
}

/// The dial number of a connection in this state, where it is bound to the UID.
pub fn bound_dial(uid: u64, dial: u64, state: OutState) -> Option<u64>
    ensures { result ≡ bound_dial uid dial state }
{
    match state {
        OutState::Dialing | OutState::Asked { .. } => None,
        OutState::Bound { uid: bound } => { if bound == uid { Some(dial) } else { None } }
    }
}

/// The dial number of a connection, where there is one that is bound to the UID.
pub fn dial_to(uid: u64, conn: Option<OutConn>) -> Option<u64>
    ensures { result ≡ dial_to uid conn }
{
    match conn {
        None => None,
        Some(conn) => bound_dial(uid, conn.dial, conn.state),
    }
}

/// The dial number of a connection, where there is one that was asked or is bound.
pub fn dial_asked(conn: Option<OutConn>) -> Option<u64>
    ensures { result ≡ dial_asked conn }
{
    match conn {
        None => None,
        Some(conn) => match conn.state {
            OutState::Dialing => None,
            OutState::Asked { .. } | OutState::Bound { .. } => Some(conn.dial),
        },
    }
}

/// The dial number of a connection, where there is one.
pub fn dial_of(conn: Option<OutConn>) -> Option<u64>
    ensures { result ≡ dial_of conn }
{
    match conn {
        None => None,
        Some(conn) => Some(conn.dial),
    }
}
