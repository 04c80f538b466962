//! Rules by which something was dropped, as text.
ghost use Rattle.std.specs.Prelude.{◌≡◌};
ghost use Rattle.artery_script.specs.Reading.{Reads};
ghost use Rattle.artery_journal_reading.specs.Reading.{two_numbers, which_version, table_rule_named, rule_named, rule_in};

use crate::fault_text::take_fault;
use crate::fields::{take_number, take_which};
use crate::word_text::plain_rule_from;
use artery_journal::{Rule, Which};
use artery_lines::{LineFault, Tokens};

pub(crate) fn take_two(fields: &mut Tokens<'_>) -> Result<(u64, u64), LineFault>
    ensures { Reads result fields.new (two_numbers fields.old) }
{
    let first = take_number(fields)?;
    let second = take_number(fields)?;
    Ok((first, second))
}

fn take_which_version(fields: &mut Tokens<'_>) -> Result<(Which, u64), LineFault>
    ensures { Reads result fields.new (which_version fields.old) }
{
    let which = take_which(fields)?;
    let version = take_number(fields)?;
    Ok((which, version))
}

// A rule of a table, of a control message, or one that is a word alone, from the fields behind its word.
#[tactic(auto, unfolding(crate::specs::Reading::table_rule_named))]
fn take_table_rule(word: &[u8], fields: &mut Tokens<'_>) -> Result<Rule, LineFault>
    ensures { Reads result fields.new (table_rule_named word.now fields.old) }
{
    if word == b"unknown-version".as_slice() {
        let (which, version) = take_which_version(fields)?;
        return Ok(Rule::UnknownVersion { which, version });
    }
    if word == b"unknown-index".as_slice() {
        let (which, version) = take_which_version(fields)?;
        let index = take_number(fields)?;
        return Ok(Rule::UnknownIndex {
            which,
            version,
            index,
        });
    }
    if word == b"control".as_slice() {
        let fault = take_fault(fields)?;
        return Ok(Rule::Control { fault });
    }
    let Some(rule) = plain_rule_from(word) else {
        return Err(LineFault::BadLine);
    };
    Ok(rule)
}

// A rule, from the fields behind its word.
#[tactic(auto, unfolding(crate::specs::Reading::rule_named))]
fn take_rule_named(word: &[u8], fields: &mut Tokens<'_>) -> Result<Rule, LineFault>
    ensures { Reads result fields.new (rule_named word.now fields.old) }
{
    if word == b"short".as_slice() {
        let len = take_number(fields)?;
        return Ok(Rule::Short { len });
    }
    if word == b"version".as_slice() {
        let version = take_number(fields)?;
        return Ok(Rule::Version { version });
    }
    if word == b"literal-past".as_slice() {
        let which = take_which(fields)?;
        return Ok(Rule::LiteralPast { which });
    }
    if word == b"not-ascii".as_slice() {
        let which = take_which(fields)?;
        return Ok(Rule::NotAscii { which });
    }
    take_table_rule(word, fields)
}

pub(crate) fn take_rule(fields: &mut Tokens<'_>) -> Result<Rule, LineFault>
    ensures { Reads result fields.new (rule_in fields.old) }
{
    let Some(word) = fields.next() else {
        return Err(LineFault::BadLine);
    };
    take_rule_named(word, fields)
}
