//! What a run of a network is told in: the texts of outcomes in each form, of the bytes of connections, of the event at which it stopped, and
//! the summary of its lines.
#![tactic(auto)]

mod form;
mod printing;
mod stopping;
mod tally;

pub use form::Form;
pub use printing::{print_counts, print_front, print_outcomes};
pub use stopping::{stop_status, stop_text};
pub use tally::{Tally, print_tally};

#[cfg(test)]
mod tests;
