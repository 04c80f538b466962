//! The byte vectors of the protocol, read and written by the crates below: whole frames of the messages
//! that two nodes exchange first, and the fields whose spelling is easily mistaken. They are not the
//! output of this program: it is held against them.
#![tactic(auto)]

mod fields;
mod frames;
mod laws;
#[cfg(test)]
mod tests;

pub use fields::{NEGATIVE_SERIALIZER, VALUES, VALUES_PACKED};
pub use frames::{
    ACKNOWLEDGEMENT, HANDSHAKE_ANSWER, HANDSHAKE_REQUEST, NUMBERED_MESSAGE, PAYLOAD_AT, SECOND_TELL,
};
pub use laws::{fields_are_written, frames_are_framed, second_tell_is_read};
