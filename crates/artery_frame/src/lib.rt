//! The frames of a stream, in whatever pieces it comes. A stream is `AKKA`, a byte that says what it
//! carries, and frames, each behind its length in four bytes, the lowest first. A `Deframer` takes the
//! pieces and gives the frames of the stream in order, and its first fault once all frames before it
//! were given; where the stream was cut changes nothing.
#![tactic(auto)]

mod buffer;
mod deframer;
mod fault;
mod front;
mod laws;
mod preamble;
mod stream;
#[cfg(test)]
mod tests;
mod write;

pub use deframer::{Deframer, HELD_LIMIT, PIECE_LIMIT};
pub use fault::{Broken, FeedFault, FrameFault};
pub use front::FRAME_LIMIT;
pub use laws::{
    holding_stands, keeping_stands, limits_stand, one_reading, pieces_join, readings_are_within,
};
pub use stream::Stream;
pub use write::{write_frame, write_preamble};
