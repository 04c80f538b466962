//! Laws of the frames of control messages, as contracts of functions that do nothing else.

ghost use Rattle.std.specs.Prelude.{◌≡◌, pos};
ghost use Rattle.artery_control_frame.specs.ControlFrame.{control_serializer, most_payload, EnvelopeHasLength, FrameHasRoom, FrameIsRead};

use crate::write::{CONTROL_SERIALIZER, MOST_PAYLOAD};

/// The envelope of a control message has 35 bytes and its payload; where the payload has at most 262,109, it is
/// refused no frame, and what is written of a valid message is read again, as the envelope and as the message.
pub fn control_frame_is_read()
    ensures length { EnvelopeHasLength }
    ensures room { FrameHasRoom }
    ensures read { FrameIsRead }
{
    artery_header::written_is_read();
    artery_control::written_is_read_again();
}

/// The numbers that the code writes and compares with are those of the definitions.
pub fn limits_stand()
    ensures serializer { CONTROL_SERIALIZER ≡ control_serializer }
    ensures payload { MOST_PAYLOAD ≡ most_payload }
{}
