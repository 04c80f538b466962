//! The texts of values. Each value has one spelling; a text is read exactly on it, or as its first
//! fault, and a value is printed as it.
#![tactic(auto)]

mod address_text;
mod ascii;
mod fault;
mod hexadecimal;
mod message_text;
mod number;
mod spellings;
mod word;

pub use address_text::{print_address, print_unique, read_address, read_unique};
pub use ascii::text_of;
pub use fault::{AddressFault, Part, TextFault, WordFault};
pub use hexadecimal::{print_hex, read_hex};
pub use message_text::print_message;
pub use number::{print_int32, print_number, read_int32, read_number};
pub use spellings::{readings_are_spelled, spellings_are_read, spellings_are_tokens};
pub use word::{print_word, read_word};

#[cfg(test)]
mod tests;
