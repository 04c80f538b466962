//! Names of actors, and the notices about their watches as the system messages that they are: pure functions of texts.
//!
//! An actor is named by a reference: the address of its system and its path. A notice tells that a watch begins, that it ends, or that an
//! actor has ended.
#![tactic(auto)]

mod naming;
mod notices;

pub use naming::{address_in, path_at, reference};
pub use notices::{NoticeKind, Told, notice, told_of};
