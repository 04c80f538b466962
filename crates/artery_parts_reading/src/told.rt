//! What one line tells.
ghost use Rattle.artery_lines.specs.Lines.{Tells};
ghost use Rattle.artery_journal_reading.specs.Reading.{unique_told};
ghost use Rattle.artery_parts_reading.specs.Lines.{begun_in, line_in, told_of};

use artery_base::UniqueAddress;
use artery_journal::Line;
use artery_journal_reading::read_line;
use artery_lines::{LineFault, Tokens};
use artery_text::read_unique;
use std::alloc::Global;

/// What a line tells.
#[derive(Debug, Drop)]
pub enum Told {
    /// The part of an incarnation begins (`of U`).
    Of { of: UniqueAddress },
    /// A line of a journal.
    Line { line: Line },
}

/// An incarnation.
#[tactic(auto, using(crate::proofs::Naming::tells_unique))]
fn unique_from(alloc: Global, text: &[u8]) -> Result<UniqueAddress, LineFault>
    ensures { Tells result (unique_told text.now) }
{
    Ok(read_unique(alloc, text)?)
}

/// The beginning of a part, from the fields behind `of`.
fn begun_from(alloc: Global, fields: &mut Tokens<'_>) -> Result<Told, LineFault>
    ensures { Tells result (begun_in fields.old) }
{
    let Some(name) = fields.next() else {
        return Err(LineFault::BadLine);
    };
    if let Some(_more) = fields.next() {
        return Err(LineFault::BadLine);
    }
    let of = unique_from(alloc, name)?;
    Ok(Told::Of { of })
}

/// A line of a journal.
fn line_from(alloc: Global, text: &[u8]) -> Result<Told, LineFault>
    ensures { Tells result (line_in text.now) }
{
    let line = read_line(alloc, text)?;
    Ok(Told::Line { line })
}

/// What a line tells.
#[tactic(auto, unfolding(crate::specs::Lines::told_of))]
pub(crate) fn told_from(alloc: Global, text: &[u8]) -> Result<Told, LineFault>
    ensures { Tells result (told_of text.now) }
{
    let mut fields = Tokens::new(text);
    let Some(word) = fields.next() else {
        return Err(LineFault::BadLine);
    };
    if word == b"of".as_slice() {
        return begun_from(alloc, &mut fields);
    }
    line_from(alloc, text)
}
