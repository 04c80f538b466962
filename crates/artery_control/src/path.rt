ghost use Rattle.std.specs.Prelude.{◌≡◌};
ghost use Rattle.artery_control.specs.Outcome.{to_field};

/// Where in a message something is: the numbers of the fields that lead there, from the outside in.
#[derive(Clone, Copy, Debug, PartialEq, Eq)]
pub enum Path {
    /// The message itself.
    Message,
    /// A field of the message.
    Field(u8),
    /// A field of an embedded message: the number of the outer field, then its own.
    Inner(u8, u8),
    /// A field two messages deep.
    Innermost(u8, u8, u8),
}

impl Path {
    /// The field with this number in what stands at the path. No message is embedded deeper than two.
    pub(crate) fn to(self, number: u8) -> Path
        ensures { result ≡ to_field self number }
    {
        match self {
            Path::Message => Path::Field(number),
            Path::Field(outer) => Path::Inner(outer, number),
            Path::Inner(outer, middle) => Path::Innermost(outer, middle, number),
            Path::Innermost(..) => self,
        }
    }
}
