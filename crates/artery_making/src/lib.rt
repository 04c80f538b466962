//! The bytes of a connection, made of the lines that describe them.
//!
//! `make_stream` reads a text whose first line says what the stream carries and whose other lines each describe one
//! frame, and answers the bytes of the whole stream, or the first line that describes none.
#![tactic(auto)]

mod fault;
mod making;
mod told;

pub use fault::MakeFault;
pub use making::make_stream;

#[cfg(test)]
mod tests;
