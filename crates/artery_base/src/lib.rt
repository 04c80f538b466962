//! The values that all crates speak of: bytes and texts on the heap, lists of them, addresses,
//! messages, and what the user of a node asks of it. `specs/` has the words that all definitions
//! share, and which values have a text.
#![tactic(auto)]

mod address;
mod bytes;
mod memory;
mod message;
mod names;
mod numbers;
mod text;
mod values;

pub use address::{Address, UniqueAddress};
pub use bytes::Bytes;
pub use memory::NoMemory;
pub use message::{Request, SysMsg, Tell};
pub use names::Names;
pub use numbers::Numbers;
pub use text::Text;
pub use values::Values;
