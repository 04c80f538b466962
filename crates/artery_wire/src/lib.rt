//! Records in the wire format of Protocol Buffers: a cursor that reads the fields one after the other,
//! and writers that append a field in its shortest form.
//!
//! The cursor gives the one list of fields that stands for the bytes and then `None`; or the longest list
//! of whole fields and then the first fault, again and again. It takes no memory and copies nothing.
#![tactic(auto)]

mod cursor;
mod fault;
mod field;
mod laws;
mod varint;
mod writing;

pub use cursor::Cursor;
pub use fault::WireFault;
pub use field::{Field, Value};
pub use laws::{fields_stand, numbers_stand, written_is_read};
pub use writing::{head_size, put_bytes, put_head, put_int32, put_uint, uint_size};

#[cfg(test)]
mod tests;
