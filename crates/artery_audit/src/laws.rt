//! What an answer tells, and how parts are built. These functions do nothing.
ghost use Rattle.std.specs.Prelude.{◌≡◌, ◌++◌, [], ◌∷◌, List, true, false};
ghost use Rattle.artery_base.specs.declared.address.UniqueAddress.{UniqueAddress};
ghost use Rattle.artery_journal.specs.declared.line.Line.{Line};
ghost use Rattle.artery_audit.specs.declared.part.Part.{Part};
ghost use Rattle.artery_audit.specs.declared.audited.Audited.{Audited};
ghost use Rattle.artery_audit.specs.Parts.{AreParts, has_part, takes, begun, with_line};
ghost use Rattle.artery_audit.specs.Merges.{IsLawful, IsMerge};
ghost use Rattle.artery_audit.specs.Answers.{IsAnswer, is_lawful};

/// The answer is Lawful exactly where some merge of the parts is lawful, and so Broken exactly where none is. A journal is a merge of
/// its parts by incarnation: so where it is lawful, the answer on these is Lawful.
pub fn answers_tell()
    ensures lawful { (parts : List Part) (answer : Audited) (lines : List Line) → AreParts parts → IsAnswer parts answer → IsMerge parts lines → IsLawful lines → is_lawful answer ≡ true }
    ensures some { (parts : List Part) (answer : Audited) → IsAnswer parts answer → is_lawful answer ≡ true → (lines : List Line) × IsMerge parts lines × IsLawful lines }
{}

/// No parts are such as an audit takes. So are those to which the part of an incarnation is added that has none, and those whose last
/// part has a line of its own incarnation more.
pub fn parts_are_built()
    ensures none { AreParts [] }
    ensures part { (parts : List Part) (u : UniqueAddress) → AreParts parts → has_part u parts ≡ false → AreParts (parts ++ begun u ∷ []) }
    ensures line { (parts : List Part) (line : Line) → AreParts parts → takes line parts ≡ true → AreParts (with_line line parts) }
{}
