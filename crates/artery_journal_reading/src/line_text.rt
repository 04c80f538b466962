//! Lines of journals, as text.
ghost use Rattle.std.specs.Prelude.{◌≡◌, if◌then◌else◌, Some, None, IfOk};
ghost use Rattle.artery_lines.specs.Lines.{Tells};
ghost use Rattle.artery_script.specs.Reading.{Reads};
ghost use Rattle.artery_journal.specs.declared.line.Line.{Line as LineValue};
ghost use Rattle.artery_journal.specs.declared.stamped.Stamped.{Stamped as StampedValue};
ghost use Rattle.artery_journal.specs.Texts.{line_text, stamped_text};
ghost use Rattle.artery_journal.specs.Valid.{IsLine, IsStamped, HasBytes};
ghost use Rattle.artery_journal_reading.specs.Reading.{two_numbers, other_number, other_nonce, other_table, table_named, message_named, other_more_named, other_named, actor_named, line_named, deed_in, line_in, line_of, moment_line, stamped_of};

use crate::fields::{
    take_actor, take_actor_path, take_cause, take_kind, take_moment, take_nonce, take_number,
    take_reason, take_unique,
};
use crate::laws::lines_are_spelled;
use crate::message_text::{take_message, take_tell};
use crate::recent::Recent;
use crate::rule_text::{take_rule, take_two};
use artery_base::UniqueAddress;
use artery_journal::{Kind, Line, Stamped};
use artery_lines::{LineFault, Tokens};
use std::alloc::Global;

#[tactic(auto, unfolding(crate::specs::Reading::other_number))]
fn take_other_number<'a>(
    alloc: Global,
    recent: &mut Recent<'a>,
    fields: &mut Tokens<'a>,
) -> Result<(UniqueAddress, u64), LineFault>
    ensures { Reads result fields.new (other_number fields.old) }
{
    let other = take_unique(alloc, recent, fields)?;
    let n = take_number(fields)?;
    Ok((other, n))
}

#[tactic(auto, unfolding(crate::specs::Reading::other_nonce))]
fn take_other_nonce<'a>(
    alloc: Global,
    recent: &mut Recent<'a>,
    fields: &mut Tokens<'a>,
) -> Result<(UniqueAddress, Option<u64>), LineFault>
    ensures { Reads result fields.new (other_nonce fields.old) }
{
    let other = take_unique(alloc, recent, fields)?;
    let nonce = take_nonce(fields)?;
    Ok((other, nonce))
}

// Another incarnation, which table of its, and the version.
#[tactic(auto, unfolding(crate::specs::Reading::other_table))]
fn take_other_table<'a>(
    alloc: Global,
    recent: &mut Recent<'a>,
    fields: &mut Tokens<'a>,
) -> Result<(UniqueAddress, (Kind, u64)), LineFault>
    ensures { Reads result fields.new (other_table fields.old) }
{
    let other = take_unique(alloc, recent, fields)?;
    let kind = take_kind(fields)?;
    let version = take_number(fields)?;
    Ok((other, (kind, version)))
}

// A line of tables or of what was dropped, from the fields behind its word.
#[tactic(auto, unfolding(crate::specs::Reading::table_named))]
fn take_table_line<'a>(
    alloc: Global,
    of: UniqueAddress,
    word: &[u8],
    recent: &mut Recent<'a>,
    fields: &mut Tokens<'a>,
) -> Result<Line, LineFault>
    ensures { Reads result fields.new (table_named of word.now fields.old) }
{
    if word == b"advertised".as_slice() {
        let (other, (kind, version)) = take_other_table(alloc, recent, fields)?;
        let count = take_number(fields)?;
        return Ok(Line::Advertised {
            of,
            other,
            kind,
            version,
            count,
        });
    }
    if word == b"adopted".as_slice() {
        let (other, (kind, version)) = take_other_table(alloc, recent, fields)?;
        return Ok(Line::Adopted {
            of,
            other,
            kind,
            version,
        });
    }
    if word == b"skipped".as_slice() {
        let (sender, k) = take_two(fields)?;
        let (seen, now) = take_two(fields)?;
        return Ok(Line::Skipped {
            of,
            sender,
            k,
            seen,
            now,
        });
    }
    if word == b"dropped".as_slice() {
        let conn = take_number(fields)?;
        let rule = take_rule(fields)?;
        return Ok(Line::Dropped { of, conn, rule });
    }
    Err(LineFault::BadLine)
}

// A line of a message, from the fields behind its word.
#[tactic(auto, unfolding(crate::specs::Reading::message_named))]
fn take_message_line<'a>(
    alloc: Global,
    of: UniqueAddress,
    word: &[u8],
    recent: &mut Recent<'a>,
    fields: &mut Tokens<'a>,
) -> Result<Line, LineFault>
    ensures { Reads result fields.new (message_named of word.now fields.old) }
{
    if word == b"sent".as_slice() {
        let (other, n) = take_other_number(alloc, recent, fields)?;
        let message = take_message(alloc, fields)?;
        return Ok(Line::Sent {
            of,
            other,
            n,
            message,
        });
    }
    if word == b"took".as_slice() {
        let (other, n) = take_other_number(alloc, recent, fields)?;
        let message = take_message(alloc, fields)?;
        return Ok(Line::Took {
            of,
            other,
            n,
            message,
        });
    }
    if word == b"told".as_slice() {
        let (other, dial) = take_other_number(alloc, recent, fields)?;
        let message = take_tell(alloc, fields)?;
        return Ok(Line::Told {
            of,
            other,
            dial,
            message,
        });
    }
    if word == b"got".as_slice() {
        let (other, nonce) = take_other_nonce(alloc, recent, fields)?;
        let message = take_tell(alloc, fields)?;
        return Ok(Line::Got {
            of,
            other,
            nonce,
            message,
        });
    }
    take_table_line(alloc, of, word, recent, fields)
}

// A line of another incarnation and one thing more, from the fields behind its word.
#[tactic(auto, unfolding(crate::specs::Reading::other_more_named))]
fn take_other_more_line<'a>(
    alloc: Global,
    of: UniqueAddress,
    word: &[u8],
    recent: &mut Recent<'a>,
    fields: &mut Tokens<'a>,
) -> Result<Line, LineFault>
    ensures { Reads result fields.new (other_more_named of word.now fields.old) }
{
    if word == b"again".as_slice() {
        let (other, n) = take_other_number(alloc, recent, fields)?;
        return Ok(Line::Again { of, other, n });
    }
    if word == b"gap".as_slice() {
        let (other, n) = take_other_number(alloc, recent, fields)?;
        return Ok(Line::Gap { of, other, n });
    }
    if word == b"stray".as_slice() {
        let (other, nonce) = take_other_nonce(alloc, recent, fields)?;
        return Ok(Line::Stray { of, other, nonce });
    }
    if word == b"closed".as_slice() {
        let other = take_unique(alloc, recent, fields)?;
        let cause = take_cause(fields)?;
        return Ok(Line::Closed { of, other, cause });
    }
    take_message_line(alloc, of, word, recent, fields)
}

// A line of another incarnation alone, from the fields behind its word.
#[tactic(auto, unfolding(crate::specs::Reading::other_named))]
fn take_other_line<'a>(
    alloc: Global,
    of: UniqueAddress,
    word: &[u8],
    recent: &mut Recent<'a>,
    fields: &mut Tokens<'a>,
) -> Result<Line, LineFault>
    ensures { Reads result fields.new (other_named of word.now fields.old) }
{
    if word == b"learnt".as_slice() {
        let other = take_unique(alloc, recent, fields)?;
        return Ok(Line::Learnt { of, other });
    }
    if word == b"barred".as_slice() {
        let other = take_unique(alloc, recent, fields)?;
        return Ok(Line::Barred { of, other });
    }
    if word == b"notice".as_slice() {
        let other = take_unique(alloc, recent, fields)?;
        return Ok(Line::Notice { of, other });
    }
    if word == b"idle".as_slice() {
        let other = take_unique(alloc, recent, fields)?;
        return Ok(Line::Idle { of, other });
    }
    take_other_more_line(alloc, of, word, recent, fields)
}

// A line of an actor or of what was refused, from the fields behind its word.
#[tactic(auto, unfolding(crate::specs::Reading::actor_named))]
fn take_actor_line<'a>(
    alloc: Global,
    of: UniqueAddress,
    word: &[u8],
    recent: &mut Recent<'a>,
    fields: &mut Tokens<'a>,
) -> Result<Line, LineFault>
    ensures { Reads result fields.new (actor_named of word.now fields.old) }
{
    if word == b"watched".as_slice() {
        let id = take_number(fields)?;
        let watcher = take_actor(alloc, fields)?;
        let watchee = take_actor(alloc, fields)?;
        return Ok(Line::Watched {
            of,
            id,
            watcher,
            watchee,
        });
    }
    if word == b"refused".as_slice() {
        let reason = take_reason(fields)?;
        return Ok(Line::Refused { of, reason });
    }
    if word == b"spawned".as_slice() {
        let path = take_actor_path(alloc, fields)?;
        return Ok(Line::Spawned { of, path });
    }
    if word == b"ended".as_slice() {
        let path = take_actor_path(alloc, fields)?;
        return Ok(Line::Ended { of, path });
    }
    take_other_line(alloc, of, word, recent, fields)
}

// A line of an incarnation, from the fields behind its word.
#[tactic(auto, unfolding(crate::specs::Reading::line_named))]
fn take_line_named<'a>(
    alloc: Global,
    of: UniqueAddress,
    word: &[u8],
    recent: &mut Recent<'a>,
    fields: &mut Tokens<'a>,
) -> Result<Line, LineFault>
    ensures { Reads result fields.new (line_named of word.now fields.old) }
{
    if word == b"started".as_slice() {
        return Ok(Line::Started { of });
    }
    if word == b"stopped".as_slice() {
        return Ok(Line::Stopped { of });
    }
    if word == b"unwatched".as_slice() {
        let id = take_number(fields)?;
        return Ok(Line::Unwatched { of, id });
    }
    if word == b"terminated".as_slice() {
        let id = take_number(fields)?;
        return Ok(Line::Terminated { of, id });
    }
    take_actor_line(alloc, of, word, recent, fields)
}

fn take_deed<'a>(
    alloc: Global,
    of: UniqueAddress,
    recent: &mut Recent<'a>,
    fields: &mut Tokens<'a>,
) -> Result<Line, LineFault>
    ensures { Reads result fields.new (deed_in of fields.old) }
{
    let Some(word) = fields.next() else {
        return Err(LineFault::BadLine);
    };
    take_line_named(alloc, of, word, recent, fields)
}

fn take_line<'a>(
    alloc: Global,
    recent: &mut Recent<'a>,
    fields: &mut Tokens<'a>,
) -> Result<Line, LineFault>
    ensures { Reads result fields.new (line_in fields.old) }
{
    let of = take_unique(alloc, recent, fields)?;
    take_deed(alloc, of, recent, fields)
}

// What was read, where no field is left.
fn ended<T: Drop>(is_end: bool, read: T) -> Result<T, LineFault>
    ensures { Tells result (if is_end then Some read else None) }
{
    if is_end {
        Ok(read)
    } else {
        Err(LineFault::BadLine)
    }
}

#[tactic(auto, unfolding(crate::specs::Reading::line_of))]
pub(crate) fn line_from<'a>(
    alloc: Global,
    recent: &mut Recent<'a>,
    text: &'a [u8],
) -> Result<Line, LineFault>
    ensures { Tells result (line_of text.now) }
{
    let mut fields = Tokens::new(text);
    let line = take_line(alloc, recent, &mut fields)?;
    ended(fields.is_empty(), line)
}

fn take_moment_line<'a>(
    alloc: Global,
    recent: &mut Recent<'a>,
    fields: &mut Tokens<'a>,
) -> Result<(u64, Line), LineFault>
    ensures { Reads result fields.new (moment_line fields.old) }
{
    let moment = take_moment(fields)?;
    let line = take_line(alloc, recent, fields)?;
    Ok((moment, line))
}

#[tactic(auto, unfolding(crate::specs::Reading::stamped_of))]
pub(crate) fn stamped_from<'a>(
    alloc: Global,
    recent: &mut Recent<'a>,
    text: &'a [u8],
) -> Result<Stamped, LineFault>
    ensures { Tells result (stamped_of text.now) }
{
    let mut fields = Tokens::new(text);
    let (moment, line) = take_moment_line(alloc, recent, &mut fields)?;
    ended(fields.is_empty(), Stamped { moment, line })
}

/// The line of a journal that a text tells, without its line feed: exactly the one whose only text
/// it is, as `print_line` writes it. `BadLine` where it tells none.
pub fn read_line(alloc: Global, text: &[u8]) -> Result<Line, LineFault>
    ensures exact { Tells result (line_of text.now) }
    ensures found { IfOk result (λ l. IsLine l × (text.now ≡ line_text l)) }
    ensures only { (l : LineValue) → IsLine l → HasBytes l → text.now ≡ line_text l → Tells result (Some l) }
{
    lines_are_spelled();
    let mut recent = Recent::none();
    line_from(alloc, &mut recent, text)
}

/// The same of a line of a journal of form 2: its moment, in milliseconds below 2^62, a space, and
/// the line, as `print_stamped` writes them.
pub fn read_stamped(alloc: Global, text: &[u8]) -> Result<Stamped, LineFault>
    ensures exact { Tells result (stamped_of text.now) }
    ensures found { IfOk result (λ s. IsStamped s × (text.now ≡ stamped_text s)) }
    ensures only { (s : StampedValue) → IsStamped s → HasBytes s.line → text.now ≡ stamped_text s → Tells result (Some s) }
{
    lines_are_spelled();
    let mut recent = Recent::none();
    stamped_from(alloc, &mut recent, text)
}
