//! The envelope of a message: its fixed header, the names of sender, recipient and manifest, each a text
//! or a number in a table, and the payload. Reading borrows from the bytes and answers the one envelope
//! that they stand for, or their first fault; writing appends the one canonical spelling.
#![tactic(auto)]

mod envelope;
mod fault;
mod laws;
mod numbers;
mod read;
#[cfg(test)]
mod tests;
mod write;

pub use envelope::{Envelope, Name, Which};
pub use fault::{EncodeFault, HeaderFault};
pub use laws::{limits_stand, one_reading, written_is_read};
pub use read::read_envelope;
pub use write::{FRAME_LIMIT, LITERAL_LIMIT, write_envelope, written_len};
