ghost use Rattle.std.specs.Prelude.{◌≡◌, List, position, nat_lt, IsAscii, IfOk, Ok};
ghost use Rattle.artery_text.specs.Reading.{Gives, text_memory, ascii_of};

use crate::fault::TextFault;
use artery_base::Text;
use std::alloc::Global;

/// The last ASCII byte.
const LAST_ASCII: u8 = 127;

fn first_past_ascii(bytes: &[u8]) -> Option<usize>
    ensures { result ≡ position (nat_lt 127) bytes.now }
{
    bytes.iter().position(|byte| *byte > LAST_ASCII)
}

/// The text of these bytes. `NotAscii` tells the place of the first byte above 127.
#[tactic(auto, using(crate::proofs::Places::no_high))]
pub fn text_of(alloc: Global, bytes: &[u8]) -> Result<Text, TextFault>
    ensures exact { Gives text_memory result (ascii_of bytes.now) }
    ensures found { IfOk result (λ t. t ≡ bytes.now) }
    ensures only { IsAscii bytes.now → Gives text_memory result (Ok bytes.now) }
{
    if let Some(at) = first_past_ascii(bytes) {
        return Err(TextFault::NotAscii { at });
    }
    Ok(Text::from_ascii(alloc, bytes)?)
}
