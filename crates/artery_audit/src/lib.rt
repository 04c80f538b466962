//! Whether the journals of several incarnations fit together.
//!
//! Each [`Part`] is the journal of one incarnation. A merge of parts is a list of all their lines in which each part's lines stand in
//! its order; [`audit`] answers whether some merge is lawful. It takes one line after the other, each time that of the first part, in
//! the order given, whose next line breaks no law. A law never forbids a line that it allowed because other incarnations have written
//! more, so this goes on as far as any merge does: where it ends, either all lines were taken, and the merge is lawful, or some part is
//! stuck at a line that no lawful merge can take.
//!
//! A part that is stuck is looked at again only when a line came that can free it, one that sends or tells its incarnation something.
//! So a line is looked at once, and once more for each such line that came while its part was stuck at it.
#![tactic(auto)]

mod audited;
mod auditing;
mod deciding;
mod laws;
mod merge;
mod merging;
mod part;
mod says;

pub use audited::Audited;
pub use auditing::audit;
pub use deciding::are_parts;
pub use laws::{answers_tell, parts_are_built};
pub use merge::Merge;
pub use part::{Part, Parts};

#[cfg(test)]
mod tests;
