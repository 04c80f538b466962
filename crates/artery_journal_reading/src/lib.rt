//! Journals read: the lines that a text tells.
//!
//! `read_line` reads one line and `read_journal` a whole journal of either form, or its first bad line.
//! `lines_are_spelled` is the law of their texts: each line has the one text that `print_line` writes,
//! and no other text tells it. The formats of the lines stand in docs/PROTOCOL.md.
#![tactic(auto)]

mod fault;
mod fault_text;
mod fields;
mod journal_text;
mod laws;
mod line_text;
mod message_text;
mod path_text;
mod recent;
mod rule_text;
mod word_text;

pub use fault::JournalFault;
pub use journal_text::read_journal;
pub use laws::lines_are_spelled;
pub use line_text::{read_line, read_stamped};
