//! Whether parts are such as an audit takes.
ghost use Rattle.std.specs.Prelude.{◌≡◌, IsTrue, ◌↔◌};
ghost use Rattle.artery_audit.specs.Parts.{AreParts, has_part, is_own, are_parts as decided};

use crate::part::Part;
use crate::says::writer;
use artery_base::UniqueAddress;

/// Whether one of the parts is of this incarnation.
fn has_part(of: &UniqueAddress, parts: &[Part]) -> bool
    ensures { result ≡ has_part of.now parts.now }
{
    parts.iter().any(|part| part.is_of(of))
}

/// Whether each line of a part is of the part's incarnation.
fn is_own(part: &Part) -> bool
    ensures { result ≡ is_own part.now }
{
    part.lines
        .as_slice()
        .iter()
        .all(|line| part.is_of(writer(line)))
}

/// The same of each part, and whether no two are of the same incarnation.
fn decide(parts: &[Part]) -> bool
    ensures { result ≡ decided parts.now }
{
    let mut left = parts;
    while let [part, others @ ..] = left {
        if has_part(&part.of, others) {
            return false;
        }
        if !is_own(part) {
            return false;
        }
        left = others;
    }
    true
}

/// Whether parts are such as [`audit`](crate::audit) takes: no two are of the same incarnation, and each line of a part is of the
/// part's incarnation. Compares each part with each.
#[tactic(auto, using(crate::proofs::TwoConditions::decides))]
pub fn are_parts(parts: &[Part]) -> bool
    ensures { IsTrue result ↔ AreParts parts.now }
{
    decide(parts)
}
