//! The handshake of a connection: when one that this node dialed is bound to an incarnation, and of which incarnation one that came in is.
//!
//! An [`OutConn`] is a connection that was dialed. Once it is up, the far side is asked who it is, with the dial number as nonce, and asked
//! again every 1,000 ms, for 20,000 ms. An answer binds the connection to the UID that it is from, where it bears the own UID and that
//! nonce; an answer that bears only one of the two, or none, is that of a plain peer, and binds it too. An [`InConn`] is a connection that
//! came in. The first request on it opens it, and fixes the origin and the nonce.
//!
//! A contract says what each call answers and leaves, by two equations, and when exactly each answer comes. That only an answer `Bind`
//! makes a connection bound, and that a bound or an opened one stays as it is, stands on [`only_bind_binds`] and [`known_for_ever`].
//! No call takes memory, and every number and moment is allowed.
#![tactic(auto)]

mod in_conn;
mod laws;
mod out_conn;

pub use in_conn::{InConn, InState, OnReq};
pub use laws::{known_for_ever, only_bind_binds};
pub use out_conn::{OnRsp, OnTick, OutConn, OutState};

#[cfg(test)]
mod tests;
