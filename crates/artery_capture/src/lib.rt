//! Captured connections as text: the lines of the bytes of one connection.
//!
//! A `Capture` takes the bytes of a connection in whatever pieces they come and appends its lines: what the stream
//! carries, each frame with its envelope and its control message, or why the frame is dropped, and last what is left
//! over or the fault of the stream.
#![tactic(auto)]

mod capture;
mod control_text;
mod fault_text;
mod frame_text;
mod laws;
mod progress;

pub use capture::Capture;
pub use control_text::print_control;
pub use fault_text::print_control_fault;
pub use frame_text::print_frame;
pub use laws::nothing_told;

#[cfg(test)]
mod tests;
