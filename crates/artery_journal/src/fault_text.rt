//! Faults of control messages, as fields of a line.
ghost use Rattle.std.specs.Prelude.{◌≡◌, ◌++◌, [], ◌∷◌, length, take, decimal, OnOk};
ghost use Rattle.artery_journal.specs.Texts.{path_text, fault_fields, spaced};

use crate::fault::Fault;
use crate::path::Path;
use crate::path_text::put_path;
use artery_base::{Bytes, NoMemory};
use artery_text::print_number;

// A word, behind a space.
#[tactic(auto, using(artery_base::proofs::Appending::keeps_front))]
pub(crate) fn put_word(word: &[u8], out: &mut Bytes) -> Result<(), NoMemory>
    ensures ok { OnOk result (out.new ≡ out.old ++ spaced (word.now ∷ [])) }
    ensures kept { take (length out.old) out.new ≡ out.old }
{
    out.push(b' ')?;
    out.extend_from_slice(word)
}

// A number, behind a space.
#[tactic(auto, using(artery_base::proofs::Appending::keeps_front))]
pub(crate) fn put_count(count: u64, out: &mut Bytes) -> Result<(), NoMemory>
    ensures ok { OnOk result (out.new ≡ out.old ++ spaced (decimal count ∷ [])) }
    ensures kept { take (length out.old) out.new ≡ out.old }
{
    out.push(b' ')?;
    print_number(count, out)
}

// A word and a number.
#[tactic(auto, using(artery_base::proofs::Appending::keeps_front, artery_base::proofs::Appending::keeps_on))]
pub(crate) fn put_word_count(word: &[u8], count: u64, out: &mut Bytes) -> Result<(), NoMemory>
    ensures ok { OnOk result (out.new ≡ out.old ++ spaced (word.now ∷ decimal count ∷ [])) }
    ensures kept { take (length out.old) out.new ≡ out.old }
{
    put_word(word, out)?;
    put_count(count, out)
}

// A word and a path.
#[tactic(auto, using(artery_base::proofs::Appending::keeps_front, artery_base::proofs::Appending::keeps_on))]
fn put_word_path(word: &[u8], path: Path, out: &mut Bytes) -> Result<(), NoMemory>
    ensures ok { OnOk result (out.new ≡ out.old ++ spaced (word.now ∷ path_text path ∷ [])) }
    ensures kept { take (length out.old) out.new ≡ out.old }
{
    put_word(word, out)?;
    out.push(b' ')?;
    put_path(path, out)
}

// A word, a place and a path.
#[tactic(auto, using(artery_base::proofs::Appending::keeps_front, artery_base::proofs::Appending::keeps_on))]
fn put_placed(word: &[u8], at: u64, path: Path, out: &mut Bytes) -> Result<(), NoMemory>
    ensures ok { OnOk result (out.new ≡ out.old ++ spaced (word.now ∷ decimal at ∷ path_text path ∷ [])) }
    ensures kept { take (length out.old) out.new ≡ out.old }
{
    put_word_count(word, at, out)?;
    out.push(b' ')?;
    put_path(path, out)
}

#[tactic(auto, using(artery_base::proofs::Appending::keeps_front, artery_base::proofs::Appending::keeps_on))]
pub(crate) fn put_fault(fault: Fault, out: &mut Bytes) -> Result<(), NoMemory>
    ensures ok { OnOk result (out.new ≡ out.old ++ spaced (fault_fields fault)) }
    ensures kept { take (length out.old) out.new ≡ out.old }
{
    match fault {
        Fault::UnknownManifest => put_word(b"unknown-manifest", out),
        Fault::Varint { at, path } => put_placed(b"varint", at, path, out),
        Fault::WireType { at, path } => put_placed(b"wire-type", at, path, out),
        Fault::Truncated { at, path } => put_placed(b"truncated", at, path, out),
        Fault::FieldNumber { at, path } => put_placed(b"field-number", at, path, out),
        Fault::Missing { path } => put_word_path(b"missing", path, out),
        Fault::BadText { path } => put_word_path(b"bad-text", path, out),
        Fault::Range { path } => put_word_path(b"range", path, out),
        Fault::Unequal { keys, values } => {
            put_word_count(b"unequal", keys, out)?;
            put_count(values, out)
        }
    }
}
