//! Journals: what the incarnations of a network did, line by line, and how these lines are printed.
//!
//! A `Line` tells one thing that an incarnation did. A `Journal` is a list of lines, in form 2 each with the moment at
//! which it was written. `print_line` and `print_stamped` append the one text of a line.
#![tactic(auto)]

mod fault;
mod fault_text;
mod journal;
mod line;
mod line_parts;
mod line_printing;
mod lines;
mod path;
mod path_text;
mod rule;
mod rule_text;
mod stamped;
mod word_text;
mod words;

pub use fault::Fault;
pub use journal::Journal;
pub use line::Line;
pub use line_printing::{print_line, print_stamped};
pub use lines::Lines;
pub use path::Path;
pub use rule::Rule;
pub use stamped::{Stamped, StampedLines};
pub use words::{Cause, Kind, Reason, Which};
