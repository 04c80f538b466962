/// The field of a system message that tells serializer -1: a signed number has ten bytes where it is negative.
pub const NEGATIVE_SERIALIZER: [u8; 11] = [
    0x10, 0xff, 0xff, 0xff, 0xff, 0xff, 0xff, 0xff, 0xff, 0xff, 0x01,
];

/// The values 0 and 1 of a table, each in a field of its own, as they are written.
pub const VALUES: [u8; 4] = [0x28, 0x00, 0x28, 0x01];

/// The same values, packed into one field, as they are read too.
pub const VALUES_PACKED: [u8; 4] = [0x2a, 0x02, 0x00, 0x01];
