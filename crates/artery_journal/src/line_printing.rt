ghost use Rattle.std.specs.Prelude.{◌≡◌, ◌++◌, length, take, OnOk, OnErr};
ghost use Rattle.artery_journal.specs.Texts.{line_text, stamped_text};

use crate::fault_text::{put_count, put_word};
use crate::line::Line;
use crate::line_parts::{
    put_counts, put_met, put_met_count, put_met_nonce, put_numbered, put_ordinary, put_table,
    put_table_count, put_verb, put_verb_count,
};
use crate::rule_text::put_rule;
use crate::stamped::Stamped;
use crate::word_text::{cause_word, reason_word};
use artery_base::{Bytes, NoMemory};
use artery_text::print_number;

#[tactic(auto, using(artery_base::proofs::Appending::keeps_front, artery_base::proofs::Appending::keeps_on))]
fn put_line(line: &Line, out: &mut Bytes) -> Result<(), NoMemory>
    ensures ok { OnOk result (out.new ≡ out.old ++ line_text line.now) }
    ensures kept { take (length out.old) out.new ≡ out.old }
{
    match line {
        Line::Started { of } => put_verb(of, b"started", out),
        Line::Stopped { of } => put_verb(of, b"stopped", out),
        Line::Learnt { of, other } => put_met(of, b"learnt", other, out),
        Line::Closed { of, other, cause } => {
            put_met(of, b"closed", other, out)?;
            put_word(cause_word(*cause), out)
        }
        Line::Sent {
            of,
            other,
            n,
            message,
        } => put_numbered(of, b"sent", other, *n, message, out),
        Line::Took {
            of,
            other,
            n,
            message,
        } => put_numbered(of, b"took", other, *n, message, out),
        Line::Again { of, other, n } => put_met_count(of, b"again", other, *n, out),
        Line::Gap { of, other, n } => put_met_count(of, b"gap", other, *n, out),
        Line::Told {
            of,
            other,
            dial,
            message,
        } => put_ordinary(of, b"told", other, Some(*dial), message, out),
        Line::Got {
            of,
            other,
            nonce,
            message,
        } => put_ordinary(of, b"got", other, *nonce, message, out),
        Line::Dropped { of, conn, rule } => {
            put_verb(of, b"dropped", out)?;
            put_count(*conn, out)?;
            put_rule(*rule, out)
        }
        Line::Stray { of, other, nonce } => put_met_nonce(of, b"stray", other, *nonce, out),
        Line::Barred { of, other } => put_met(of, b"barred", other, out),
        Line::Notice { of, other } => put_met(of, b"notice", other, out),
        Line::Watched {
            of,
            id,
            watcher,
            watchee,
        } => {
            put_verb(of, b"watched", out)?;
            put_count(*id, out)?;
            put_word(watcher.as_slice(), out)?;
            put_word(watchee.as_slice(), out)
        }
        Line::Unwatched { of, id } => put_verb_count(of, b"unwatched", *id, out),
        Line::Terminated { of, id } => put_verb_count(of, b"terminated", *id, out),
        Line::Refused { of, reason } => {
            put_verb(of, b"refused", out)?;
            put_word(reason_word(*reason), out)
        }
        Line::Spawned { of, path } => {
            put_verb(of, b"spawned", out)?;
            put_word(path.as_slice(), out)
        }
        Line::Ended { of, path } => {
            put_verb(of, b"ended", out)?;
            put_word(path.as_slice(), out)
        }
        Line::Advertised {
            of,
            other,
            kind,
            version,
            count,
        } => put_table_count(of, b"advertised", other, *kind, *version, *count, out),
        Line::Adopted {
            of,
            other,
            kind,
            version,
        } => put_table(of, b"adopted", other, *kind, *version, out),
        Line::Skipped {
            of,
            sender,
            k,
            seen,
            now,
        } => put_counts(of, b"skipped", (*sender, *k), (*seen, *now), out),
        Line::Idle { of, other } => put_met(of, b"idle", other, out),
    }
}

/// Appends the line without its line feed. Without memory `out` stays as it was.
pub fn print_line(line: &Line, out: &mut Bytes) -> Result<(), NoMemory>
    ensures ok { OnOk result (out.new ≡ out.old ++ line_text line.now) }
    ensures err { OnErr result (out.new ≡ out.old) }
{
    let before = out.len();
    let appended = put_line(line, out);
    out.settle(before, appended)
}

#[tactic(auto, using(artery_base::proofs::Appending::keeps_front, artery_base::proofs::Appending::keeps_on))]
fn put_stamped(stamped: &Stamped, out: &mut Bytes) -> Result<(), NoMemory>
    ensures ok { OnOk result (out.new ≡ out.old ++ stamped_text stamped.now) }
    ensures kept { take (length out.old) out.new ≡ out.old }
{
    print_number(stamped.moment, out)?;
    out.push(b' ')?;
    print_line(&stamped.line, out)
}

/// Appends the line of a journal of form 2, its moment and one space before it, without its line
/// feed. Without memory `out` stays as it was.
pub fn print_stamped(stamped: &Stamped, out: &mut Bytes) -> Result<(), NoMemory>
    ensures ok { OnOk result (out.new ≡ out.old ++ stamped_text stamped.now) }
    ensures err { OnErr result (out.new ≡ out.old) }
{
    let before = out.len();
    let appended = put_stamped(stamped, out);
    out.settle(before, appended)
}
