use crate::fault::Fault;
use crate::words::Which;

/// The rule by which a frame, or a connection's bytes, were dropped.
#[derive(Clone, Copy, Debug, PartialEq, Eq)]
pub enum Rule {
    /// `short LEN`: an envelope has only so many bytes.
    Short {
        len: u64,
    },
    /// `version V`: the envelope has another version.
    Version {
        version: u64,
    },
    /// `metadata`: the envelope has metadata.
    Metadata,
    /// `literal-past WHICH`: a name ends behind the envelope.
    LiteralPast {
        which: Which,
    },
    /// `not-ascii WHICH`: a name is not ASCII.
    NotAscii {
        which: Which,
    },
    /// `unknown-version WHICH V`: a name is looked up in a table of a version that is not there.
    UnknownVersion {
        which: Which,
        version: u64,
    },
    /// `unknown-index WHICH V I`: the table of that version has no such entry.
    UnknownIndex {
        which: Which,
        version: u64,
        index: u64,
    },
    /// `bad-magic`: a stream does not begin as one.
    BadMagic,
    /// `bad-stream`: the number of a stream is none.
    BadStream,
    /// `too-long`: a frame is longer than frames may be.
    TooLong,
    /// `control FAULT`: the payload is no control message.
    Control {
        fault: Fault,
    },
    /// `uid`: the envelope's UID is not that of the connection's origin.
    Uid,
    /// `stream`: the message does not belong on the stream.
    Stream,
    /// `no-handshake`: the connection has not said whose it is.
    NoHandshake,
    /// `not-me`: the message is meant for another.
    NotMe,
    /// `from`: the message names another origin than its connection or envelope.
    From,
    /// `self`: the message comes from this node's own address.
    Itself,
    /// `origin`: the connection said before that it is another's.
    Origin,
    /// `peers`: there is no room for another peer.
    Peers,
    /// `origins`: there is no room for another origin.
    Origins,
    /// `closed`: the origin is closed.
    Closed,
    /// `not-current`: the origin is not the current incarnation of its address.
    NotCurrent,
    /// `old-table`: the table, or the answer to one, is of an older version.
    OldTable,
    /// `ack-range`: what is acknowledged was never sent.
    AckRange,
    /// `unused`: no node uses such a message.
    Unused,
}
