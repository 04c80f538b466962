ghost use Rattle.std.specs.Prelude.{◌≡◌};
ghost use Rattle.artery_wire.specs.Fault.{fault_at};

/// The first fault of a record. `at` is the place of the first byte of the faulty field's key,
/// or of the faulty varint of a packed field, counted from the first byte that the cursor was given.
#[derive(Clone, Copy, Debug, PartialEq, Eq)]
pub enum WireFault {
    /// A varint has ten bytes that all continue.
    Varint { at: usize },
    /// The wire type is none of 0, 1, 2 and 5.
    WireType { at: usize },
    /// The bytes end within the field.
    Truncated { at: usize },
    /// The field's number is 0 or above 536,870,911.
    FieldNumber { at: usize },
}

/// What is wrong with a field, apart from its place.
#[derive(Clone, Copy, Debug, PartialEq, Eq)]
pub(crate) enum FaultKind {
    Varint,
    WireType,
    Truncated,
    FieldNumber,
}

impl FaultKind {
    /// This fault, in the field that begins at the place.
    pub(crate) fn at(self, at: usize) -> WireFault
        ensures { result ≡ fault_at self at }
    {
        match self {
            FaultKind::Varint => WireFault::Varint { at },
            FaultKind::WireType => WireFault::WireType { at },
            FaultKind::Truncated => WireFault::Truncated { at },
            FaultKind::FieldNumber => WireFault::FieldNumber { at },
        }
    }
}
