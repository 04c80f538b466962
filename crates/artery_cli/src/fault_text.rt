//! The line that tells a bad line.
ghost use Rattle.std.specs.Prelude.{◌≡◌, ◌++◌, codes, decimal, IfOk};

use artery_base::{Bytes, NoMemory};
use artery_text::print_number;
use std::alloc::Global;

/// The line that tells a bad line of a script.
pub fn bad_line(alloc: Global, line: u64) -> Result<Bytes, NoMemory>
    ensures { IfOk result (λ text. text ≡ codes "fault line " ++ decimal line ++ codes "\n") }
{
    let mut text = Bytes::new(alloc);
    text.extend_from_slice(b"fault line ")?;
    print_number(line, &mut text)?;
    text.extend_from_slice(b"\n")?;
    Ok(text)
}
