//! What a node does.

use crate::input::Conn;
use artery_base::{Address, Bytes};
use artery_journal::Line;

/// One thing that a node does at an input.
#[derive(Debug, Drop)]
pub enum Effect {
    /// The address is dialed, and the dial has this number.
    Dial { dial: u64, address: Address },
    /// The bytes, a preamble or one frame, are written on the own connection with this dial number.
    Write { dial: u64, bytes: Bytes },
    /// The connection is hung up.
    Hang { conn: Conn },
    /// A line of the journal is told.
    Line(Line),
}
