//! Laws of control messages, as contracts of functions that do nothing else.

ghost use Rattle.artery_control.specs.Belonging.{BelongingIsRead, ReadIsValid};
ghost use Rattle.artery_control.specs.Lengths.{PayloadIsShort};
ghost use Rattle.artery_control.specs.RoundTrip.{WrittenIsReadAgain};

/// The canonical payload of a message is read as the message.
pub fn written_is_read_again()
    ensures { WrittenIsReadAgain }
{
    artery_wire::written_is_read();
}

/// A message is read exactly where it belongs together with the manifest and the payload; so what is read is valid.
pub fn belonging_is_read()
    ensures read { BelongingIsRead }
    ensures valid { ReadIsValid }
{
    artery_wire::fields_stand();
    artery_wire::numbers_stand();
}

/// The canonical payload of a valid message has at most 1,600 bytes; a numbered one has at most 850 more than
/// its manifest and its payload, and a table at most 850 more than its keys and 8 for each.
pub fn payload_is_short()
    ensures { PayloadIsShort }
{
    artery_wire::written_is_read();
}
