ghost use Rattle.std.specs.Prelude.{◌≡◌, ◌++◌, flat_map, Some, Ok, IfOk, OnOk};
ghost use Rattle.artery_audit.specs.Parts.{AreParts};
ghost use Rattle.artery_audit.specs.Outcome.{told, outcome};
ghost use Rattle.artery_parts_reading.specs.Parts.{parts_of};
ghost use Rattle.artery_cli.specs.Answers.{ended_line, lines_text, stuck_text, audited_answer, parts_answer};
ghost use Rattle.artery_cli.specs.Telling.{AnswersOrStops};

use crate::judging::law_word;
use crate::refusal::{Refusal, refuse};
use crate::stop::Stop;
use crate::telling::tell;
use artery_audit::{Audited, Merge, Parts, audit};
use artery_base::{Bytes, NoMemory, UniqueAddress};
use artery_io::Sink;
use artery_journal::{Line, print_line};
use artery_judge::Law;
use artery_parts_reading::{PartsFault, read_parts};
use artery_text::{print_number, print_unique};
use std::alloc::Global;

/// Appends a line with its line feed.
#[tactic(auto, unfolding(crate::specs::Answers::ended_line))]
fn put_line(line: &Line, text: &mut Bytes) -> Result<(), NoMemory>
    ensures { OnOk result (text.new ≡ text.old ++ ended_line line.now) }
{
    print_line(line, text)?;
    text.push(b'\n')?;
    Ok(())
}

/// Appends lines, one after the other.
fn put_lines(lines: &[&Line], text: &mut Bytes) -> Result<(), NoMemory>
    ensures { OnOk result (text.new ≡ text.old ++ flat_map (λ line. ended_line line.now) lines.now) }
{
    for line in lines {
        put_line(line, text)?;
    }
    Ok(())
}

/// The lines of a merge.
fn merge_text(alloc: Global, merge: &Merge<'_>) -> Result<Bytes, NoMemory>
    ensures { IfOk result (λ text. text ≡ lines_text merge.now) }
{
    let mut text = Bytes::new(alloc);
    put_lines(merge.as_slice(), &mut text)?;
    Ok(text)
}

/// The line that tells at which line a part is stuck.
fn stuck_line(alloc: Global, of: &UniqueAddress, line: u64, law: Law) -> Result<Bytes, NoMemory>
    ensures { IfOk result (λ text. text ≡ stuck_text (record { of = of.now; number = line; law = Some law })) }
{
    let mut text = Bytes::from_slice(alloc, b"fault audit ")?;
    print_unique(of, &mut text)?;
    text.extend_from_slice(b" ")?;
    print_number(line, &mut text)?;
    text.extend_from_slice(b" ")?;
    text.extend_from_slice(law_word(law))?;
    text.extend_from_slice(b"\n")?;
    Ok(text)
}

/// Tells that parts fit together, by a word or by their merge.
fn tell_merge<K: Sink>(
    alloc: Global,
    wanted: bool,
    merge: &Merge<'_>,
    output: &mut K,
) -> Result<u8, Stop>
    ensures { AnswersOrStops (audited_answer wanted (Ok merge.now)) result (K.held output.old) (K.held output.new) (K.faults output.old) (K.faults output.new) }
{
    if !wanted {
        return tell(output, b"lawful\n", 0);
    }
    let text = merge_text(alloc, merge)?;
    tell(output, text.as_slice(), 0)
}

/// Tells what an audit found.
fn tell_audited<K: Sink>(
    alloc: Global,
    wanted: bool,
    audited: &Audited<'_>,
    output: &mut K,
) -> Result<u8, Stop>
    ensures { AnswersOrStops (audited_answer wanted (told audited.now)) result (K.held output.old) (K.held output.new) (K.faults output.old) (K.faults output.new) }
{
    match audited {
        Audited::Lawful { merge } => tell_merge(alloc, wanted, merge, output),
        Audited::Broken { of, line, law } => {
            let text = stuck_line(alloc, of, *line, *law)?;
            tell(output, text.as_slice(), 1)
        }
    }
}

/// Audits parts, and tells what was found.
fn audit_parts<K: Sink>(
    alloc: Global,
    wanted: bool,
    parts: &Parts,
    output: &mut K,
) -> Result<u8, Stop>
    requires { AreParts parts.now }
    ensures { AnswersOrStops (audited_answer wanted (outcome parts.now)) result (K.held output.old) (K.held output.new) (K.faults output.old) (K.faults output.new) }
{
    let audited = audit(alloc, parts)?;
    tell_audited(alloc, wanted, &audited, output)
}

/// Answers the journals of several incarnations with their audit, or tells why the text tells none.
pub fn audit_text<K: Sink>(
    alloc: Global,
    wanted: bool,
    text: &[u8],
    output: &mut K,
) -> Result<u8, Stop>
    ensures { AnswersOrStops (parts_answer wanted (parts_of text.now)) result (K.held output.old) (K.held output.new) (K.faults output.old) (K.faults output.new) }
{
    match read_parts(alloc, text) {
        Ok(parts) => audit_parts(alloc, wanted, &parts, output),
        Err(PartsFault::BadLine { line }) => refuse(alloc, Refusal::BadLine { line }, output),
        Err(PartsFault::TooManyLines) => refuse(alloc, Refusal::TooManyLines, output),
        Err(PartsFault::TooManyParts) => refuse(alloc, Refusal::TooManyParts, output),
        Err(PartsFault::NoMemory) => Err(Stop::NoMemory),
    }
}
