ghost use Rattle.std.specs.Prelude.{◌≡◌};
ghost use Rattle.artery_control.specs.Embedded.{bytes_of};

use artery_base::Bytes;

/// The bytes of an embedded message.
#[derive(Drop)]
pub(crate) enum Record<'a> {
    /// It occurs once, and is read where it lies.
    InPlace(&'a [u8]),
    /// It occurs more than once, and its occurrences were put one after the other.
    Merged(Bytes),
}

impl<'a> Record<'a> {
    pub(crate) fn as_slice(&self) -> &[u8]
        ensures { result.now ≡ bytes_of self.now }
    {
        match self {
            Record::InPlace(payload) => payload,
            Record::Merged(record) => record.as_slice(),
        }
    }
}
