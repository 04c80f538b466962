//! The journals of several incarnations, read for their audit.
//!
//! [`read_parts`] reads a text: a line `of U` begins the part of the incarnation U, and the lines of its journal follow, in form 1. It
//! answers the parts, which are such as an audit takes, or the first bad line, or that a limit is passed.
#![tactic(auto)]

mod fault;
mod gathered;
mod reading;
mod told;

pub use fault::PartsFault;
pub use reading::{MOST_PARTS, read_parts};
pub use told::Told;
