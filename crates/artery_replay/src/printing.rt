//! The texts of outcomes and of connections.
ghost use Rattle.std.specs.Prelude.{◌≡◌, ◌++◌, OnOk};
ghost use Rattle.artery_replay.specs.Texts.{front_text, told_text, write_text, outcome_text, outcomes_text};
ghost use Rattle.artery_replay.specs.Replay.{count_line};

use crate::form::Form;
use artery_base::{Bytes, NoMemory};
use artery_connections::Counts;
use artery_journal::{Line, print_line};
use artery_machine::Outcome;
use artery_text::{print_hex, print_number};

/// Appends what stands before everything else.
pub fn print_front(form: Form, out: &mut Bytes) -> Result<(), NoMemory>
    ensures { OnOk result (out.new ≡ out.old ++ front_text form) }
{
    match form {
        Form::Stamped => out.extend_from_slice(b"journal 2\n"),
        Form::Plain | Form::Bytes => Ok(()),
    }
}

/// Appends a line of the journal.
fn print_told(form: Form, moment: u64, line: &Line, out: &mut Bytes) -> Result<(), NoMemory>
    ensures { OnOk result (out.new ≡ out.old ++ told_text form moment line.now) }
{
    if form == Form::Stamped {
        print_number(moment, out)?;
        out.push(b' ')?;
    }
    print_line(line, out)?;
    out.push(b'\n')
}

/// Appends a write, where writes are told.
fn print_write(
    form: Form,
    uid: u64,
    dial: u64,
    bytes: &[u8],
    out: &mut Bytes,
) -> Result<(), NoMemory>
    ensures { OnOk result (out.new ≡ out.old ++ write_text form uid dial bytes.now) }
{
    if form != Form::Bytes {
        return Ok(());
    }
    out.extend_from_slice(b"write ")?;
    print_number(uid, out)?;
    out.push(b' ')?;
    print_number(dial, out)?;
    out.push(b' ')?;
    print_hex(bytes, out)?;
    out.push(b'\n')
}

/// Appends what came of an event.
fn print_outcome(form: Form, outcome: &Outcome, out: &mut Bytes) -> Result<(), NoMemory>
    ensures { OnOk result (out.new ≡ out.old ++ outcome_text form outcome.now) }
{
    match outcome {
        Outcome::Line { moment, line } => print_told(form, *moment, line, out),
        Outcome::Wrote { uid, dial, bytes } => print_write(
            form,
            *uid,
            *dial,
            bytes.as_slice(),
            out,
        ),
    }
}

/// Appends what came of events, in order.
pub fn print_outcomes(form: Form, outcomes: &[Outcome], out: &mut Bytes) -> Result<(), NoMemory>
    ensures { OnOk result (out.new ≡ out.old ++ outcomes_text form outcomes.now) }
{
    for outcome in outcomes {
        print_outcome(form, outcome, out)?;
    }
    Ok(())
}

/// Appends the line of a connection: `bytes UID DIAL WRITTEN DELIVERED`.
pub fn print_counts(counts: &Counts, out: &mut Bytes) -> Result<(), NoMemory>
    ensures { OnOk result (out.new ≡ out.old ++ count_line counts.now.uid counts.now.dial counts.now.written counts.now.delivered) }
{
    out.extend_from_slice(b"bytes ")?;
    print_number(counts.uid, out)?;
    out.push(b' ')?;
    print_number(counts.dial, out)?;
    out.push(b' ')?;
    print_number(counts.written, out)?;
    out.push(b' ')?;
    print_number(counts.delivered, out)?;
    out.push(b'\n')
}
