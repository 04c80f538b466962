//! How often each kind of line stands in a journal.
ghost use Rattle.std.specs.Prelude.{◌≡◌, ◌++◌, List, [], OnOk, codes, decimal};
ghost use Rattle.artery_journal.specs.declared.line.Line.{Line as LineValue};
ghost use Rattle.artery_replay.specs.Tally.{entry_text, journal_in, one_more, tally_of, tally_text};

use artery_base::{Bytes, NoMemory};
use artery_journal::Line;
use artery_machine::Outcome;
use artery_text::print_number;

/// How many lines a journal has, and how many of some kinds, each number at most 18,446,744,073,709,551,615.
#[derive(Clone, Copy, Debug, PartialEq, Eq)]
pub struct Tally {
    /// All lines.
    pub lines: u64,
    /// Lines of system messages that were accepted.
    pub sent: u64,
    /// Lines of system messages that were taken.
    pub took: u64,
    /// Lines of ordinary messages that were written.
    pub told: u64,
    /// Lines of ordinary messages that came.
    pub got: u64,
    /// Lines of closed incarnations.
    pub closed: u64,
    /// Lines of ends that watchers were told.
    pub terminated: u64,
}

impl Tally {
    /// No line.
    pub fn new() -> Tally
        ensures { result ≡ tally_of [] }
    {
        Tally {
            lines: 0,
            sent: 0,
            took: 0,
            told: 0,
            got: 0,
            closed: 0,
            terminated: 0,
        }
    }

    /// One line more.
    fn counts(self, line: &Line) -> Tally
        ensures { result ≡ one_more line.now self }
    {
        let lines = self.lines.saturating_add(1);
        match line {
            Line::Sent { .. } => Tally {
                lines,
                sent: self.sent.saturating_add(1),
                ..self
            },
            Line::Took { .. } => Tally {
                lines,
                took: self.took.saturating_add(1),
                ..self
            },
            Line::Told { .. } => Tally {
                lines,
                told: self.told.saturating_add(1),
                ..self
            },
            Line::Got { .. } => Tally {
                lines,
                got: self.got.saturating_add(1),
                ..self
            },
            Line::Closed { .. } => Tally {
                lines,
                closed: self.closed.saturating_add(1),
                ..self
            },
            Line::Terminated { .. } => Tally {
                lines,
                terminated: self.terminated.saturating_add(1),
                ..self
            },
            _ => Tally { lines, ..self },
        }
    }

    /// The lines among what came of events more: of a journal that was counted, the count of it with these lines behind.
    pub fn counts_all(self, outcomes: &[Outcome]) -> Tally
        ensures { (before : List LineValue) → self ≡ tally_of before → result ≡ tally_of (before ++ journal_in outcomes.now) }
    {
        let mut tally = self;
        for outcome in outcomes {
            if let Outcome::Line { line, .. } = outcome {
                tally = tally.counts(line);
            }
        }
        tally
    }
}

/// Appends a word and a number as a line.
fn print_entry(word: &[u8], number: u64, out: &mut Bytes) -> Result<(), NoMemory>
    ensures { OnOk result (out.new ≡ out.old ++ entry_text word.now number) }
{
    out.extend_from_slice(word)?;
    out.push(b' ')?;
    print_number(number, out)?;
    out.push(b'\n')
}

/// Appends the lines of a summary: `lines N`, and behind it `sent N`, `took N`, `told N`, `got N`, `closed N` and `terminated N`.
pub fn print_tally(tally: &Tally, out: &mut Bytes) -> Result<(), NoMemory>
    ensures { OnOk result (out.new ≡ out.old ++ tally_text tally.now) }
{
    print_entry(b"lines", tally.lines, out)?;
    print_entry(b"sent", tally.sent, out)?;
    print_entry(b"took", tally.took, out)?;
    print_entry(b"told", tally.told, out)?;
    print_entry(b"got", tally.got, out)?;
    print_entry(b"closed", tally.closed, out)?;
    print_entry(b"terminated", tally.terminated, out)
}
