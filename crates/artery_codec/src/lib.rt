//! The messages of frames, with their names in full.
//!
//! `decode` answers the message that a frame means: each name of its envelope means itself, or the entry of a compression table that its
//! origin was told; else it answers the first rule that drops the frame. `message_of` does so for an envelope that was read before.
//! `encode` writes a message as an envelope, with an index for each name that the tables of its receiver have. `decode` and `message_of`
//! take no memory: names are lent by the frame or by a table.
//!
//! A contract says what an answer is by what the tables keep, and besides what it is by every story of tables that they stand for, as an
//! equation and as a relation of a frame with a message and with a rule. Where the version of a table names its own entries to the
//! receiver, what was encoded means the message. The laws that tie these stand on [`one_outcome`], [`meaning_stands`] and
//! [`written_is_meant`], so that whoever speaks of envelopes need not speak of bytes.
#![tactic(auto)]

mod decoding;
mod encoding;
mod laws;
mod message;

pub use decoding::{decode, message_of};
pub use encoding::encode;
pub use laws::{meaning_stands, one_outcome, written_is_meant};
pub use message::{DropRule, Message};

#[cfg(test)]
mod tests;
