//! What several lines tell: messages, other incarnations with numbers, and tables.
ghost use Rattle.std.specs.Prelude.{◌≡◌, ◌++◌, [], ◌∷◌, length, take, decimal, OnOk};
ghost use Rattle.artery_text.specs.Spelling.{word_text};
ghost use Rattle.std.specs.Fmt.{signed_decimal};
ghost use Rattle.artery_text.specs.Spelling.{hex_text};
ghost use Rattle.artery_journal.specs.Texts.{who, kind_text, nonce_text, message_fields, tell_fields, spaced};

use crate::fault_text::{put_count, put_word};
use crate::word_text::kind_word;
use crate::words::Kind;
use artery_base::{Bytes, NoMemory, SysMsg, Tell, UniqueAddress};
use artery_text::{print_hex, print_int32, print_message, print_unique, print_word};

// An incarnation.
#[tactic(auto, using(artery_base::proofs::Appending::keeps_front), unfolding(crate::specs::Texts::who))]
pub(crate) fn put_who(unique: &UniqueAddress, out: &mut Bytes) -> Result<(), NoMemory>
    ensures ok { OnOk result (out.new ≡ out.old ++ who unique.now) }
    ensures kept { take (length out.old) out.new ≡ out.old }
{
    print_unique(unique, out)
}

// Whose line it is, and its word.
#[tactic(auto, using(artery_base::proofs::Appending::keeps_front, artery_base::proofs::Appending::keeps_on))]
pub(crate) fn put_verb(of: &UniqueAddress, verb: &[u8], out: &mut Bytes) -> Result<(), NoMemory>
    ensures ok { OnOk result (out.new ≡ out.old ++ who of.now ++ spaced (verb.now ∷ [])) }
    ensures kept { take (length out.old) out.new ≡ out.old }
{
    put_who(of, out)?;
    put_word(verb, out)
}

// The same, and a number.
#[tactic(auto, using(artery_base::proofs::Appending::keeps_front, artery_base::proofs::Appending::keeps_on))]
pub(crate) fn put_verb_count(
    of: &UniqueAddress,
    verb: &[u8],
    n: u64,
    out: &mut Bytes,
) -> Result<(), NoMemory>
    ensures ok { OnOk result (out.new ≡ out.old ++ who of.now ++ spaced (verb.now ∷ decimal n ∷ [])) }
    ensures kept { take (length out.old) out.new ≡ out.old }
{
    put_verb(of, verb, out)?;
    put_count(n, out)
}

// Whose line it is, its word, and another incarnation.
#[tactic(auto, using(artery_base::proofs::Appending::keeps_front, artery_base::proofs::Appending::keeps_on))]
pub(crate) fn put_met(
    of: &UniqueAddress,
    verb: &[u8],
    other: &UniqueAddress,
    out: &mut Bytes,
) -> Result<(), NoMemory>
    ensures ok { OnOk result (out.new ≡ out.old ++ who of.now ++ spaced (verb.now ∷ who other.now ∷ [])) }
    ensures kept { take (length out.old) out.new ≡ out.old }
{
    put_verb(of, verb, out)?;
    out.push(b' ')?;
    put_who(other, out)
}

// The same, and a number.
#[tactic(auto, using(artery_base::proofs::Appending::keeps_front, artery_base::proofs::Appending::keeps_on))]
pub(crate) fn put_met_count(
    of: &UniqueAddress,
    verb: &[u8],
    other: &UniqueAddress,
    n: u64,
    out: &mut Bytes,
) -> Result<(), NoMemory>
    ensures ok { OnOk result (out.new ≡ out.old ++ who of.now ++ spaced (verb.now ∷ who other.now ∷ decimal n ∷ [])) }
    ensures kept { take (length out.old) out.new ≡ out.old }
{
    put_met(of, verb, other, out)?;
    put_count(n, out)
}

// The same with a nonce, `-` where it is absent.
#[tactic(auto, using(artery_base::proofs::Appending::keeps_front, artery_base::proofs::Appending::keeps_on))]
pub(crate) fn put_met_nonce(
    of: &UniqueAddress,
    verb: &[u8],
    other: &UniqueAddress,
    nonce: Option<u64>,
    out: &mut Bytes,
) -> Result<(), NoMemory>
    ensures ok { OnOk result (out.new ≡ out.old ++ who of.now ++ spaced (verb.now ∷ who other.now ∷ nonce_text nonce ∷ [])) }
    ensures kept { take (length out.old) out.new ≡ out.old }
{
    put_met(of, verb, other, out)?;
    match nonce {
        Some(nonce) => put_count(nonce, out),
        None => put_word(b"-", out),
    }
}

#[tactic(auto, using(artery_base::proofs::Appending::keeps_front, artery_base::proofs::Appending::keeps_on))]
fn put_message(message: &SysMsg, out: &mut Bytes) -> Result<(), NoMemory>
    ensures ok { OnOk result (out.new ≡ out.old ++ spaced (message_fields message.now)) }
    ensures kept { take (length out.old) out.new ≡ out.old }
{
    out.push(b' ')?;
    print_message(message, out)
}

// A word, spelled as words are, behind a space.
#[tactic(auto, using(artery_base::proofs::Appending::keeps_front))]
fn put_name(name: &[u8], out: &mut Bytes) -> Result<(), NoMemory>
    ensures ok { OnOk result (out.new ≡ out.old ++ spaced (word_text name.now ∷ [])) }
    ensures kept { take (length out.old) out.new ≡ out.old }
{
    out.push(b' ')?;
    print_word(name, out)
}

// Who sends, and to whom.
#[tactic(auto, using(artery_base::proofs::Appending::keeps_front, artery_base::proofs::Appending::keeps_on))]
fn put_names(sender: &[u8], recipient: &[u8], out: &mut Bytes) -> Result<(), NoMemory>
    ensures ok { OnOk result (out.new ≡ out.old ++ spaced (word_text sender.now ∷ word_text recipient.now ∷ [])) }
    ensures kept { take (length out.old) out.new ≡ out.old }
{
    put_name(sender, out)?;
    put_name(recipient, out)
}

// What is sent: its serializer, its manifest and its payload.
#[tactic(auto, using(artery_base::proofs::Appending::keeps_front, artery_base::proofs::Appending::keeps_on))]
fn put_content(
    serializer: i32,
    manifest: &[u8],
    payload: &[u8],
    out: &mut Bytes,
) -> Result<(), NoMemory>
    ensures ok { OnOk result (out.new ≡ out.old ++ spaced (signed_decimal serializer ∷ word_text manifest.now ∷ hex_text payload.now ∷ [])) }
    ensures kept { take (length out.old) out.new ≡ out.old }
{
    out.push(b' ')?;
    print_int32(serializer, out)?;
    put_name(manifest, out)?;
    out.push(b' ')?;
    print_hex(payload, out)
}

#[tactic(auto, using(artery_base::proofs::Appending::keeps_front, artery_base::proofs::Appending::keeps_on))]
fn put_tell(message: &Tell, out: &mut Bytes) -> Result<(), NoMemory>
    ensures ok { OnOk result (out.new ≡ out.old ++ spaced (tell_fields message.now)) }
    ensures kept { take (length out.old) out.new ≡ out.old }
{
    put_names(message.sender.as_slice(), message.recipient.as_slice(), out)?;
    put_content(
        message.serializer,
        message.manifest.as_slice(),
        message.payload.as_slice(),
        out,
    )
}

// A system message with its number.
#[tactic(auto, using(artery_base::proofs::Appending::keeps_front, artery_base::proofs::Appending::keeps_on))]
pub(crate) fn put_numbered(
    of: &UniqueAddress,
    verb: &[u8],
    other: &UniqueAddress,
    n: u64,
    message: &SysMsg,
    out: &mut Bytes,
) -> Result<(), NoMemory>
    ensures ok { OnOk result (out.new ≡ out.old ++ who of.now ++ spaced (verb.now ∷ who other.now ∷ decimal n ∷ message_fields message.now)) }
    ensures kept { take (length out.old) out.new ≡ out.old }
{
    put_met_count(of, verb, other, n, out)?;
    put_message(message, out)
}

// An ordinary message with the number or the nonce of its connection.
#[tactic(auto, using(artery_base::proofs::Appending::keeps_front, artery_base::proofs::Appending::keeps_on))]
pub(crate) fn put_ordinary(
    of: &UniqueAddress,
    verb: &[u8],
    other: &UniqueAddress,
    nonce: Option<u64>,
    message: &Tell,
    out: &mut Bytes,
) -> Result<(), NoMemory>
    ensures ok { OnOk result (out.new ≡ out.old ++ who of.now ++ spaced (verb.now ∷ who other.now ∷ nonce_text nonce ∷ tell_fields message.now)) }
    ensures kept { take (length out.old) out.new ≡ out.old }
{
    put_met_nonce(of, verb, other, nonce, out)?;
    put_tell(message, out)
}

// Another incarnation's table.
#[tactic(auto, using(artery_base::proofs::Appending::keeps_front, artery_base::proofs::Appending::keeps_on))]
pub(crate) fn put_table(
    of: &UniqueAddress,
    verb: &[u8],
    other: &UniqueAddress,
    kind: Kind,
    version: u64,
    out: &mut Bytes,
) -> Result<(), NoMemory>
    ensures ok { OnOk result (out.new ≡ out.old ++ who of.now ++ spaced (verb.now ∷ who other.now ∷ kind_text kind ∷ decimal version ∷ [])) }
    ensures kept { take (length out.old) out.new ≡ out.old }
{
    put_met(of, verb, other, out)?;
    put_word(kind_word(kind), out)?;
    put_count(version, out)
}

// The same, and how many entries it has.
#[tactic(auto, using(artery_base::proofs::Appending::keeps_front, artery_base::proofs::Appending::keeps_on))]
pub(crate) fn put_table_count(
    of: &UniqueAddress,
    verb: &[u8],
    other: &UniqueAddress,
    kind: Kind,
    version: u64,
    count: u64,
    out: &mut Bytes,
) -> Result<(), NoMemory>
    ensures ok { OnOk result (out.new ≡ out.old ++ who of.now ++ spaced (verb.now ∷ who other.now ∷ kind_text kind ∷ decimal version ∷ decimal count ∷ [])) }
    ensures kept { take (length out.old) out.new ≡ out.old }
{
    put_table(of, verb, other, kind, version, out)?;
    put_count(count, out)
}

#[tactic(auto, using(artery_base::proofs::Appending::keeps_front, artery_base::proofs::Appending::keeps_on))]
fn put_two_counts(first: u64, second: u64, out: &mut Bytes) -> Result<(), NoMemory>
    ensures ok { OnOk result (out.new ≡ out.old ++ spaced (decimal first ∷ decimal second ∷ [])) }
    ensures kept { take (length out.old) out.new ≡ out.old }
{
    put_count(first, out)?;
    put_count(second, out)
}

// Four numbers.
#[tactic(auto, using(artery_base::proofs::Appending::keeps_front, artery_base::proofs::Appending::keeps_on))]
pub(crate) fn put_counts(
    of: &UniqueAddress,
    verb: &[u8],
    first: (u64, u64),
    second: (u64, u64),
    out: &mut Bytes,
) -> Result<(), NoMemory>
    ensures ok { OnOk result (out.new ≡ out.old ++ who of.now ++ spaced (verb.now ∷ decimal first.0 ∷ decimal first.1 ∷ decimal second.0 ∷ decimal second.1 ∷ [])) }
    ensures kept { take (length out.old) out.new ≡ out.old }
{
    put_verb(of, verb, out)?;
    put_two_counts(first.0, first.1, out)?;
    put_two_counts(second.0, second.1, out)
}
