//! Where bytes come from and where they go: `Source` and `Sink`, with objects in memory and over
//! the readers and writers of std. Each counts its faults.
#![tactic(auto)]

mod adapters;
mod in_memory;
mod sink;
mod source;

pub use adapters::{StdSink, StdSource};
pub use in_memory::{FreeSink, FreeSource, MemSink, MemSource};
pub use sink::{Sink, write_all};
pub use source::{Failed, Source};

#[cfg(test)]
mod tests;
