//! Where a field of a control message is, as text.
ghost use Rattle.std.specs.Prelude.{◌≡◌, ◌++◌, length, take, decimal, codes, OnOk};
ghost use Rattle.artery_journal.specs.Texts.{path_text};

use crate::path::Path;
use artery_base::{Bytes, NoMemory};
use artery_text::print_number;

#[tactic(auto, using(artery_base::proofs::Appending::keeps_front))]
fn put_two(outer: u8, inner: u8, out: &mut Bytes) -> Result<(), NoMemory>
    ensures ok { OnOk result (out.new ≡ out.old ++ decimal outer ++ codes "." ++ decimal inner) }
    ensures kept { take (length out.old) out.new ≡ out.old }
{
    print_number(u64::from(outer), out)?;
    out.push(b'.')?;
    print_number(u64::from(inner), out)
}

#[tactic(auto, using(artery_base::proofs::Appending::keeps_front, artery_base::proofs::Appending::keeps_on))]
pub(crate) fn put_path(path: Path, out: &mut Bytes) -> Result<(), NoMemory>
    ensures ok { OnOk result (out.new ≡ out.old ++ path_text path) }
    ensures kept { take (length out.old) out.new ≡ out.old }
{
    match path {
        Path::Message => out.push(b'-'),
        Path::Field(number) => print_number(u64::from(number), out),
        Path::Inner(outer, inner) => put_two(outer, inner, out),
        Path::Innermost(outer, middle, inner) => {
            print_number(u64::from(outer), out)?;
            out.push(b'.')?;
            put_two(middle, inner, out)
        }
    }
}
