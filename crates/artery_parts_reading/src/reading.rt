//! Parts, as text.
ghost use Rattle.std.specs.Prelude.{◌≡◌, ◌≤◌, length, IfOk};
ghost use Rattle.artery_base.specs.Words.{Gives};
ghost use Rattle.artery_lines.specs.Lines.{lines_of, most_lines};
ghost use Rattle.artery_audit.specs.Parts.{AreParts};
ghost use Rattle.artery_parts_reading.specs.Parts.{parts_memory, parts_told, limited, parts_of};

use crate::fault::PartsFault;
use crate::gathered::Gathered;
use artery_audit::Parts;
use artery_lines::{TextLines, has_few_lines};
use std::alloc::Global;

/// The most parts of an audit.
pub const MOST_PARTS: usize = 64;

/// The parts that the lines of a text tell, however many.
#[tactic(auto, using(crate::proofs::Turns::read_on, crate::proofs::Turns::read_fails, crate::proofs::Turns::read_end, crate::proofs::Whole::same_parts))]
fn parts_from(alloc: Global, text: &[u8]) -> Result<Parts, PartsFault>
    requires { length (lines_of text.now) ≤ most_lines }
    ensures parts { Gives parts_memory result (parts_told (lines_of text.now)) }
    ensures apart { IfOk result AreParts }
{
    let mut left = TextLines::new(text);
    let mut gathered = Gathered::new(alloc);
    let mut n = 0;
    while let Some(told) = left.next() {
        n += 1;
        gathered.read(alloc, n, told)?;
    }
    Ok(gathered.parts())
}

/// Parts, unless they are too many.
fn few_parts(parts: Parts) -> Result<Parts, PartsFault>
    ensures parts { Gives parts_memory result (limited parts) }
    ensures same { IfOk result (λ few. few ≡ parts) }
{
    if parts.len() > MOST_PARTS {
        return Err(PartsFault::TooManyParts);
    }
    Ok(parts)
}

/// The parts that a text tells. A line `of U` begins the part of the incarnation U, and the lines of U's journal follow, in form 1. Lines
/// end with a line feed, which the last may lack; there are no empty lines and no remarks.
///
/// `TooManyLines` where there are more than 1,000,000 lines. Else `BadLine` names the first line that is neither `of U` nor a line of a
/// journal, that begins a part of an incarnation which has one, or that is of another incarnation than the last part begun before it.
/// `TooManyParts` where no line is bad and there are more than 64 parts.
#[tactic(auto, unfolding(crate::specs::Parts::parts_of))]
pub fn read_parts(alloc: Global, text: &[u8]) -> Result<Parts, PartsFault>
    ensures parts { Gives parts_memory result (parts_of text.now) }
    ensures apart { IfOk result AreParts }
{
    if !has_few_lines(text) {
        return Err(PartsFault::TooManyLines);
    }
    let parts = parts_from(alloc, text)?;
    few_parts(parts)
}
