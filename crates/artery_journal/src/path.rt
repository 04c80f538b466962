/// Where a field of a control message is: the numbers of the fields that lead there, each 1 to 255.
#[derive(Clone, Copy, Debug, PartialEq, Eq)]
pub enum Path {
    /// `-`: the outer message itself.
    Message,
    /// A field of the message.
    Field(u8),
    /// A field within a field.
    Inner(u8, u8),
    /// A field within a field within a field.
    Innermost(u8, u8, u8),
}
