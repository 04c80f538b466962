//! The laws of a journal, and the judge that decides them in one pass.
//!
//! A journal is a list of lines, each of one incarnation, in its second form with the moment at which it was written. Six laws say which
//! line breaks them after the lines before it:
//! - the prefix law: what b took from a is, in order and text, a prefix of what a sent to b;
//! - the close law: after `a closed b`, a writes no line of what it does with b;
//! - the watch law: a watch of a begins once, and ends at most once and after it began;
//! - the ordinary law: what b got from a with nonce d is, in order and text, a subsequence of what a told b on its connection d;
//! - the stopped law: no line of a follows `a stopped`, and `a started` is the first line of a;
//! - the moment law: the moments of a do not fall.
//!
//! [`lawful`] and [`lawful_journal`] answer the first line that breaks a law, with the first such law in this order; [`verdicts_tell`]
//! says what that means. A [`Judge`] takes lines one after the other, and tells of the next which law it would break. It keeps the
//! messages that were sent and not taken or told and not passed over, and what is closed, watched and stopped, in tables by key, so that
//! a journal is judged in time linear in its length.
#![tactic(auto)]

mod journals;
mod judge;
mod keys;
mod laws;
mod nodes;
mod sent;
mod sets;
mod told;
mod verdict;

pub use journals::{lawful, lawful_journal};
pub use judge::Judge;
pub use laws::verdicts_tell;
pub use verdict::{Law, Verdict};

#[cfg(test)]
mod tests;
