use crate::path::Path;

/// The first fault of a payload that is no control message.
#[derive(Clone, Copy, Debug, PartialEq, Eq)]
pub enum Fault {
    /// `unknown-manifest`: the manifest names no control message.
    UnknownManifest,
    /// `varint AT PATH`: a varint has ten bytes that all continue.
    Varint { at: u64, path: Path },
    /// `wire-type AT PATH`: the wire type is none of 0, 1, 2 and 5.
    WireType { at: u64, path: Path },
    /// `truncated AT PATH`: the bytes end within a field.
    Truncated { at: u64, path: Path },
    /// `field-number AT PATH`: the field's number is 0 or above 536,870,911.
    FieldNumber { at: u64, path: Path },
    /// `missing PATH`: a required field is missing.
    Missing { path: Path },
    /// `bad-text PATH`: a text is none that may stand there.
    BadText { path: Path },
    /// `range PATH`: a number is outside its range.
    Range { path: Path },
    /// `unequal KEYS VALUES`: a table has another number of keys than of values.
    Unequal { keys: u64, values: u64 },
}
