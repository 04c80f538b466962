ghost use Rattle.std.specs.Prelude.{◌≡◌, ◌≤◌, ◌==◌, [], ◌∷◌, ◌++◌, length, OnOk, OnErr};
ghost use Rattle.artery_base.specs.Words.{Gives};
ghost use Rattle.artery_lines.specs.Lines.{lines_of};
ghost use Rattle.artery_script.specs.declared.script.ScriptFault.TheVariants as script_faults;
ghost use Rattle.artery_script.specs.Scripts.{most_lines, is_passed_over, script_line, told_at, items_from, script_of, script_memory};

use crate::event::Event;
use crate::event_text::read_event;
use artery_base::NoMemory;
use artery_lines::{LineFault, TextLines, has_few_lines};
use std::alloc::Global;
use std::marker::Model;

/// A line of a script: its number and what it tells.
#[derive(Debug, PartialEq, Eq, Drop)]
pub struct ScriptLine {
    /// The number of the line in the text, counted from 1, empty lines and remarks counted.
    pub line: u64,
    /// What happens.
    pub event: Event,
}

/// Why a text is no script, or no input of a node.
#[derive(Clone, Copy, Debug, PartialEq, Eq)]
pub enum ScriptFault {
    /// The first line, counted from 1, that is neither empty nor a remark and does not tell what it
    /// is read for.
    BadLine { line: u64 },
    /// There are more than 1,000,000 lines.
    TooManyLines,
    /// Memory ran out.
    NoMemory,
}

impl From<NoMemory> for ScriptFault {
    ghost from_gives = { λ _ e. e ≡ script_faults.NoMemory };

    fn from(_error: NoMemory) -> ScriptFault {
        ScriptFault::NoMemory
    }
}

/// The events of a script with the numbers of their lines, in order.
#[derive(Debug, Drop)]
pub struct Script {
    items: Vec<ScriptLine>,
}

impl Model for Script {
    ghost use Rattle.std.specs.Prelude.{List};
    ghost use Rattle.artery_script.specs.declared.script.ScriptLine.{ScriptLine};

    ghost Value = { List ScriptLine };

    ghost view = { λ s. s.items.items };
}

impl Script {
    /// No events. Takes no memory.
    pub fn new(alloc: Global) -> Script
        ensures { result ≡ [] }
    {
        Script {
            items: Vec::new(alloc),
        }
    }

    /// How many events there are.
    pub fn len(&self) -> usize
        ensures { result ≡ length self.now }
    {
        self.items.len()
    }

    /// Whether there are none.
    pub fn is_empty(&self) -> bool
        ensures { result ≡ (length self.now == 0) }
    {
        self.items.is_empty()
    }

    /// The events with the numbers of their lines, borrowed.
    pub fn as_slice(&self) -> &[ScriptLine]
        ensures { result.now ≡ self.now }
    {
        self.items.as_slice()
    }

    /// Adds an event at the end. Without memory nothing changes.
    pub fn push(&mut self, line: ScriptLine) -> Result<(), NoMemory>
        ensures ok { OnOk result (self.new ≡ self.old ++ line ∷ []) }
        ensures err { OnErr result (self.new ≡ self.old) }
    {
        self.items.push(line)?;
        Ok(())
    }
}

// Whether a line is empty or a remark.
pub(crate) fn is_passed_over(line: &[u8]) -> bool
    ensures { result ≡ is_passed_over line.now }
{
    if line.is_empty() {
        return true;
    }
    line[0] == b'#'
}

fn line_at(alloc: Global, n: u64, text: &[u8]) -> Result<ScriptLine, ScriptFault>
    ensures { Gives script_memory result (told_at n (script_line n text.now)) }
{
    match read_event(alloc, text) {
        Ok(event) => Ok(ScriptLine { line: n, event }),
        Err(LineFault::BadLine) => Err(ScriptFault::BadLine { line: n }),
        Err(LineFault::NoMemory) => Err(ScriptFault::NoMemory),
    }
}

#[tactic(auto, using(crate::proofs::Items::event_passed, crate::proofs::Items::event_on, crate::proofs::Items::event_fails, crate::proofs::Items::events_end))]
fn read_lines(alloc: Global, text: &[u8]) -> Result<Script, ScriptFault>
    requires { length (lines_of text.now) ≤ most_lines }
    ensures { Gives script_memory result (items_from script_line 1 (lines_of text.now)) }
{
    let mut left = TextLines::new(text);
    let mut script = Script::new(alloc);
    let mut n = 0;
    while let Some(line) = left.next() {
        n += 1;
        if is_passed_over(line) {
            continue;
        }
        let item = line_at(alloc, n, line)?;
        script.push(item)?;
    }
    Ok(script)
}

/// The script that a text tells, one event a line. Lines end with a line feed, which the last may
/// lack. Empty lines and lines that begin with `#` are passed over and still counted.
/// `TooManyLines` where there are more than 1,000,000 lines; else `BadLine` names the first line
/// that tells no event.
pub fn read_script(alloc: Global, text: &[u8]) -> Result<Script, ScriptFault>
    ensures exact { Gives script_memory result (script_of text.now) }
{
    if !has_few_lines(text) {
        return Err(ScriptFault::TooManyLines);
    }
    read_lines(alloc, text)
}
