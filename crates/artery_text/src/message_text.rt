ghost use Rattle.std.specs.Prelude.{◌≡◌, ◌++◌, length, take, OnOk, OnErr};
ghost use Rattle.artery_text.specs.Spelling.{message_text};

use crate::hexadecimal::print_hex;
use crate::number::print_int32;
use crate::word::print_word;
use artery_base::{Bytes, NoMemory, SysMsg};

#[tactic(auto, using(artery_base::proofs::Appending::keeps_front))]
fn put_message(message: &SysMsg, out: &mut Bytes) -> Result<(), NoMemory>
    ensures ok { OnOk result (out.new ≡ out.old ++ message_text message.now) }
    ensures kept { take (length out.old) out.new ≡ out.old }
{
    print_int32(message.serializer, out)?;
    out.push(b' ')?;
    print_word(message.manifest.as_slice(), out)?;
    out.push(b' ')?;
    print_hex(message.payload.as_slice(), out)
}

/// Appends the message: its serializer, its manifest as a word and its payload in hexadecimal, with
/// one space between them. Without memory `out` stays as it was.
pub fn print_message(message: &SysMsg, out: &mut Bytes) -> Result<(), NoMemory>
    ensures ok { OnOk result (out.new ≡ out.old ++ message_text message.now) }
    ensures err { OnErr result (out.new ≡ out.old) }
{
    let before = out.len();
    let appended = put_message(message, out);
    out.settle(before, appended)
}
