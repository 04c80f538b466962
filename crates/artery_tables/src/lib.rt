//! Compression tables: the names that a receiver announces to a sender, and the table that a sender writes with.
//!
//! An [`InTables`] belongs to a receiver and one origin. It counts names and announces the most frequent ones as a table, which the
//! origin confirms. Tables have numbers without end, and each number a version of 1 to 127 that goes round; a frame names a version and
//! an index. Five tables are known: the announced, the current and three older. An [`OutTable`] belongs to a sender: it holds the table
//! that was adopted last and gives the index of a name.
//!
//! A contract says what is kept after each call, by an equation, and besides what that means for every history that the kept values
//! stand for: all names ever counted and the story of all tables ever announced, neither of which is ever shortened. The laws that tie
//! the two stand on [`keeping_stands`], [`adopting_stands`] and [`known_numbers_are_found`]. `resolve`, `number_of`, `index_of` and
//! `count` take time that does not grow with the number of names; `advertise` sorts the names once.
#![tactic(auto)]

mod in_tables;
mod laws;
mod name;
mod out_table;
mod ranking;
mod table;

pub use in_tables::{Advertised, Confirmed, Counted, InTables};
pub use laws::{adopting_stands, keeping_stands, known_numbers_are_found};
pub use out_table::{Adopted, OutTable};
pub use table::{Table, TableFault};

#[cfg(test)]
mod tests;
