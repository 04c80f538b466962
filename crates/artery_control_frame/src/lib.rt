//! The frame of a control message: the envelope in which a node tells it to another, behind its length.
//!
//! `write_control_frame` appends the one canonical frame: serializer 17, neither sender nor recipient, the message's
//! letter as a literal manifest, both table versions 0, and the canonical payload. What was written is read again:
//! the envelope from its bytes, and the message from the envelope's manifest and payload.
#![tactic(auto)]

mod laws;
#[cfg(test)]
mod tests;
mod write;

pub use laws::{control_frame_is_read, limits_stand};
pub use write::{CONTROL_SERIALIZER, MOST_PAYLOAD, write_control_frame};
