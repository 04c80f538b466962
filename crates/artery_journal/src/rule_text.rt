//! Rules by which something is dropped, as fields of a line.
ghost use Rattle.std.specs.Prelude.{◌≡◌, ◌++◌, [], ◌∷◌, length, take, codes, decimal, OnOk};
ghost use Rattle.artery_journal.specs.Texts.{which_text, fault_fields, rule_fields, spaced};

use crate::fault::Fault;
use crate::fault_text::{put_count, put_fault, put_word, put_word_count};
use crate::rule::Rule;
use crate::word_text::which_word;
use crate::words::Which;
use artery_base::{Bytes, NoMemory};

// A word, and which name.
#[tactic(auto, using(artery_base::proofs::Appending::keeps_front, artery_base::proofs::Appending::keeps_on))]
fn put_word_which(word: &[u8], which: Which, out: &mut Bytes) -> Result<(), NoMemory>
    ensures ok { OnOk result (out.new ≡ out.old ++ spaced (word.now ∷ which_text which ∷ [])) }
    ensures kept { take (length out.old) out.new ≡ out.old }
{
    put_word(word, out)?;
    put_word(which_word(which), out)
}

// A word, which name, and a version.
#[tactic(auto, using(artery_base::proofs::Appending::keeps_front, artery_base::proofs::Appending::keeps_on))]
fn put_word_version(
    word: &[u8],
    which: Which,
    version: u64,
    out: &mut Bytes,
) -> Result<(), NoMemory>
    ensures ok { OnOk result (out.new ≡ out.old ++ spaced (word.now ∷ which_text which ∷ decimal version ∷ [])) }
    ensures kept { take (length out.old) out.new ≡ out.old }
{
    put_word_which(word, which, out)?;
    put_count(version, out)
}

#[tactic(auto, using(artery_base::proofs::Appending::keeps_front, artery_base::proofs::Appending::keeps_on))]
fn put_control(fault: Fault, out: &mut Bytes) -> Result<(), NoMemory>
    ensures ok { OnOk result (out.new ≡ out.old ++ spaced (codes "control" ∷ fault_fields fault)) }
    ensures kept { take (length out.old) out.new ≡ out.old }
{
    put_word(b"control", out)?;
    put_fault(fault, out)
}

#[tactic(auto, using(artery_base::proofs::Appending::keeps_front, artery_base::proofs::Appending::keeps_on))]
pub(crate) fn put_rule(rule: Rule, out: &mut Bytes) -> Result<(), NoMemory>
    ensures ok { OnOk result (out.new ≡ out.old ++ spaced (rule_fields rule)) }
    ensures kept { take (length out.old) out.new ≡ out.old }
{
    match rule {
        Rule::Short { len } => put_word_count(b"short", len, out),
        Rule::Version { version } => put_word_count(b"version", version, out),
        Rule::Metadata => put_word(b"metadata", out),
        Rule::LiteralPast { which } => put_word_which(b"literal-past", which, out),
        Rule::NotAscii { which } => put_word_which(b"not-ascii", which, out),
        Rule::UnknownVersion { which, version } => {
            put_word_version(b"unknown-version", which, version, out)
        }
        Rule::UnknownIndex {
            which,
            version,
            index,
        } => {
            put_word_version(b"unknown-index", which, version, out)?;
            put_count(index, out)
        }
        Rule::BadMagic => put_word(b"bad-magic", out),
        Rule::BadStream => put_word(b"bad-stream", out),
        Rule::TooLong => put_word(b"too-long", out),
        Rule::Control { fault } => put_control(fault, out),
        Rule::Uid => put_word(b"uid", out),
        Rule::Stream => put_word(b"stream", out),
        Rule::NoHandshake => put_word(b"no-handshake", out),
        Rule::NotMe => put_word(b"not-me", out),
        Rule::From => put_word(b"from", out),
        Rule::Itself => put_word(b"self", out),
        Rule::Origin => put_word(b"origin", out),
        Rule::Peers => put_word(b"peers", out),
        Rule::Origins => put_word(b"origins", out),
        Rule::Closed => put_word(b"closed", out),
        Rule::NotCurrent => put_word(b"not-current", out),
        Rule::OldTable => put_word(b"old-table", out),
        Rule::AckRange => put_word(b"ack-range", out),
        Rule::Unused => put_word(b"unused", out),
    }
}
