//! A text cut into lines, and a line into tokens.
//!
//! `TextLines` gives the lines of a text in order, and `Tokens` the tokens of a line. `has_few_lines` tells whether a
//! text has at most 1,000,000 lines. A `LineFault` says why a line does not tell what is to be read from it.
#![tactic(auto)]

mod fault;
mod lines;
mod tokens;

pub use fault::LineFault;
pub use lines::{MOST_LINES, TextLines, has_few_lines};
pub use tokens::Tokens;

#[cfg(test)]
mod tests;
