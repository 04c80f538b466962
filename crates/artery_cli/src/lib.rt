//! The commands of the program, as functions of words, a source and a sink.
//!
//! `run` does the command that its words name: it reads what it reads of the source, writes its
//! answer to the sink and gives the status. What it writes, and the status, are a stated function
//! of the words and the input; only want of memory, a source that fails and a sink that fails
//! change them, and then what was written is a stated part of it.
#![tactic(auto)]

mod auditing;
mod checking;
mod command;
mod copies;
mod fault_text;
mod generating;
mod input;
mod judging;
mod laws;
mod making;
mod playing;
mod refusal;
mod replaying;
mod showing;
mod stop;
mod task;
mod telling;
mod top;

pub use command::{Command, Task};
pub use input::MOST_BYTES;
pub use laws::frames_are_read_again;
pub use refusal::Refusal;
pub use top::run;

#[cfg(test)]
mod audit_tests;
#[cfg(test)]
mod journal_tests;
#[cfg(test)]
mod replay_tests;
#[cfg(test)]
mod tests;
