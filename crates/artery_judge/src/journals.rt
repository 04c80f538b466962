//! The verdict on a whole journal.
ghost use Rattle.std.specs.Prelude.{◌≡◌, IfOk};
ghost use Rattle.artery_judge.specs.Laws.{verdict, plain, stamped, lines_of};

use crate::judge::Judge;
use crate::verdict::Verdict;
use artery_base::NoMemory;
use artery_journal::{Journal, Line, Lines, Stamped};
use std::alloc::Global;

/// The verdict on lines that have no moments: Lawful exactly where no line breaks a law; else the first line that breaks one, counted
/// from 1, with the first law that it breaks, in the order of [`Law`](crate::Law).
pub fn lawful(alloc: Global, lines: &Lines) -> Result<Verdict, NoMemory>
    ensures { IfOk result (λ v. v ≡ verdict (plain lines.now)) }
{
    judge_plain(alloc, lines.as_slice())
}

/// The verdict on a journal of either form. The moment law speaks of lines with moments alone.
pub fn lawful_journal(alloc: Global, journal: &Journal) -> Result<Verdict, NoMemory>
    ensures { IfOk result (λ v. v ≡ verdict (lines_of journal.now)) }
{
    match journal {
        Journal::Plain(lines) => judge_plain(alloc, lines.as_slice()),
        Journal::Stamped(lines) => judge_stamped(alloc, lines.as_slice()),
    }
}

/// The verdict on lines without moments.
fn judge_plain(alloc: Global, lines: &[Line]) -> Result<Verdict, NoMemory>
    ensures { IfOk result (λ v. v ≡ verdict (plain lines.now)) }
{
    let mut judge = Judge::new(alloc);
    let mut count = 0;
    for line in lines {
        count += 1;
        if let Some(law) = judge.judge(alloc, None, line)? {
            return Ok(Verdict::Broken { line: count, law });
        }
    }
    Ok(Verdict::Lawful)
}

/// The verdict on lines with moments.
fn judge_stamped(alloc: Global, lines: &[Stamped]) -> Result<Verdict, NoMemory>
    ensures { IfOk result (λ v. v ≡ verdict (stamped lines.now)) }
{
    let mut judge = Judge::new(alloc);
    let mut count = 0;
    for stamped in lines {
        count += 1;
        if let Some(law) = judge.judge(alloc, Some(stamped.moment), &stamped.line)? {
            return Ok(Verdict::Broken { line: count, law });
        }
    }
    Ok(Verdict::Lawful)
}
