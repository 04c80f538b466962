//! Whole journals, as text.
ghost use Rattle.std.specs.Prelude.{◌≡◌, ◌+◌, ◌≤◌, ◌∷◌, length};
ghost use Rattle.artery_base.specs.Words.{Gives};
ghost use Rattle.artery_lines.specs.Lines.{lines_of, most_lines};
ghost use Rattle.artery_journal_reading.specs.Reading.{line_of, stamped_of};
ghost use Rattle.artery_journal_reading.specs.Journals.{told_at, items_from, as_plain, as_stamped, journal_in, journal_of, journal_memory};

use crate::fault::JournalFault;
use crate::line_text::{line_from, stamped_from};
use crate::recent::Recent;
use artery_journal::{Journal, Line, Lines, Stamped, StampedLines};
use artery_lines::{LineFault, TextLines, has_few_lines};
use std::alloc::Global;

fn line_at<'a>(
    alloc: Global,
    recent: &mut Recent<'a>,
    n: u64,
    text: &'a [u8],
) -> Result<Line, JournalFault>
    ensures { Gives journal_memory result (told_at n (line_of text.now)) }
{
    match line_from(alloc, recent, text) {
        Ok(line) => Ok(line),
        Err(LineFault::BadLine) => Err(JournalFault::BadLine { line: n }),
        Err(LineFault::NoMemory) => Err(JournalFault::NoMemory),
    }
}

fn stamped_at<'a>(
    alloc: Global,
    recent: &mut Recent<'a>,
    n: u64,
    text: &'a [u8],
) -> Result<Stamped, JournalFault>
    ensures { Gives journal_memory result (told_at n (stamped_of text.now)) }
{
    match stamped_from(alloc, recent, text) {
        Ok(stamped) => Ok(stamped),
        Err(LineFault::BadLine) => Err(JournalFault::BadLine { line: n }),
        Err(LineFault::NoMemory) => Err(JournalFault::NoMemory),
    }
}

// The lines of a journal of form 1.
#[tactic(auto, using(crate::proofs::Items::line_on, crate::proofs::Items::line_fails, crate::proofs::Items::lines_end))]
fn read_lines(alloc: Global, text: &[u8]) -> Result<Lines, JournalFault>
    requires { length (lines_of text.now) ≤ most_lines }
    ensures { Gives journal_memory result (items_from line_of 1 (lines_of text.now)) }
{
    let mut left = TextLines::new(text);
    let mut recent = Recent::new();
    let mut lines = Lines::new(alloc);
    let mut n = 0;
    while let Some(told) = left.next() {
        n += 1;
        let line = line_at(alloc, &mut recent, n, told)?;
        lines.push(line)?;
    }
    Ok(lines)
}

// The lines of a journal of form 2, behind its first.
#[tactic(auto, using(crate::proofs::Items::stamped_on, crate::proofs::Items::stamped_fails, crate::proofs::Items::stamped_end))]
fn read_stamped_lines(alloc: Global, mut left: TextLines<'_>) -> Result<StampedLines, JournalFault>
    requires { length left ≤ most_lines }
    ensures { Gives journal_memory result (items_from stamped_of 2 left.entry) }
{
    let mut recent = Recent::new();
    let mut lines = StampedLines::new(alloc);
    let mut n = 1;
    while let Some(told) = left.next() {
        n += 1;
        let line = stamped_at(alloc, &mut recent, n, told)?;
        lines.push(line)?;
    }
    Ok(lines)
}

#[tactic(auto, using(crate::proofs::Forms::first_form, crate::proofs::Forms::second_form, crate::proofs::Forms::plain_fails, crate::proofs::Forms::stamped_fails))]
fn journal_from(alloc: Global, text: &[u8]) -> Result<Journal, JournalFault>
    requires { length (lines_of text.now) ≤ most_lines }
    ensures { Gives journal_memory result (journal_in (lines_of text.now)) }
{
    let mut left = TextLines::new(text);
    let Some(first) = left.next() else {
        return Ok(Journal::Plain(Lines::new(alloc)));
    };
    if first == b"journal 2".as_slice() {
        let lines = read_stamped_lines(alloc, left)?;
        return Ok(Journal::Stamped(lines));
    }
    let lines = read_lines(alloc, text)?;
    Ok(Journal::Plain(lines))
}

/// The journal that a text tells. A text whose first line is `journal 2` is of form 2: each further
/// line is a moment, a space and a line. Any other is of form 1: each line is one of a journal.
/// Lines end with a line feed, which the last may lack; there are no empty lines and no remarks.
/// `TooManyLines` where there are more than 1,000,000 lines; else `BadLine` names the first that is
/// none of its form.
#[tactic(auto, unfolding(crate::specs::Journals::journal_of))]
pub fn read_journal(alloc: Global, text: &[u8]) -> Result<Journal, JournalFault>
    ensures { Gives journal_memory result (journal_of text.now) }
{
    if !has_few_lines(text) {
        return Err(JournalFault::TooManyLines);
    }
    journal_from(alloc, text)
}
