//! An own connection of a peer, and an answer that is owed.

use artery_handshake::OutConn;

/// An own connection of a peer, if there is one, and the moment from which it may be dialed again.
#[derive(Clone, Copy, Debug, PartialEq, Eq)]
pub struct Link {
    /// The connection, from its dial on.
    pub conn: Option<OutConn>,
    /// The moment in milliseconds from which it may be dialed again, where there is none.
    pub redial: u64,
}

/// The answer to a handshake request: the UID that asked and the nonce of its request, or neither where the request had no nonce.
#[derive(Clone, Copy, Debug, PartialEq, Eq)]
pub struct Answer {
    /// The UID that asked.
    pub for_uid: Option<u64>,
    /// The nonce of its request.
    pub nonce: Option<u64>,
}
