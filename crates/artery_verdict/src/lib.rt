//! What a frame on an inbound connection says, or the first rule that drops it.
//!
//! `content_in` reads the envelope of a frame, looks its names up in the tables that were announced to the origin of the connection, and
//! reads a control message. It answers what the frame says, its texts and its payload copied once, or the first of these rules that drops
//! it: the frame is no envelope; its UID is not that of the connection's origin; a name means nothing; the message does not belong on the
//! stream; it is no control message; nobody is known to speak on the connection and it is no handshake; it is not from the one that it
//! says. Its contract is the machine's definition of the same name, for every node and every connection with this state and these tables.
#![tactic(auto)]

mod content;
mod verdict;
mod words;

pub use content::{Content, NotSaid};
pub use verdict::{content_in, is_handshake, is_told_closed};
pub use words::stream_rule;
