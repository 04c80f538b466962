//! The audit.
ghost use Rattle.std.specs.Prelude.{◌≡◌, None, IfOk};
ghost use Rattle.artery_audit.specs.Parts.{AreParts};
ghost use Rattle.artery_audit.specs.Answers.{first_fitting, IsAnswer};
ghost use Rattle.artery_audit.specs.Merging.{IsUnder};
ghost use Rattle.artery_audit.specs.Outcome.{told, outcome};

use crate::audited::Audited;
use crate::merging::Merging;
use crate::part::Parts;
use artery_base::NoMemory;
use std::alloc::Global;

/// Whether some merge of the parts is lawful.
///
/// Lawful where one is, with the merge in which each next line is that of the first part, in the order given, whose next line breaks no
/// law after the lines before. Else Broken: of all that lawful merges of first lines of the parts reach, the first part in the order
/// given that is not used up, the number of its next line, and the first law that this line breaks behind it.
///
/// What is answered is a function of the parts (`outcome`).
///
/// No two parts may be of the same incarnation, and each line of a part has to be of the part's incarnation.
#[tactic(auto, using(crate::proofs::OneOutcome::one_outcome))]
pub fn audit<'a>(alloc: Global, parts: &'a Parts) -> Result<Audited<'a>, NoMemory>
    requires { AreParts parts.now }
    ensures is_answer { IfOk result (λ answer. IsAnswer parts.now answer) }
    ensures outcome { IfOk result (λ answer. told answer ≡ outcome parts.now) }
{
    let mut merging = Merging::new(alloc, parts.as_slice())?;
    while merging.step(alloc)? {}
    Ok(merging.answer())
}
