//! What holds of the rules of one node (`artery_machine`), at every input: what a program keeps stands for whole histories, deeds have their
//! bytes, each frame has one outcome, an expected message is taken, and cuts of a stream do not matter. And of a network, at every script: over
//! what is kept it shows what it shows over whole histories, and what came of it before does not matter.
//!
//! The crate has no code: its functions do nothing, and their clauses are the laws.
#![tactic(auto)]

mod laws;

pub use laws::{
    a_network_goes_on, a_network_is_whole, cutting_does_not_matter, deeds_have_their_bytes,
    each_frame_has_one_outcome, keeping_stands, the_expected_message_is_taken,
};
