//! What a verdict tells. Its function does nothing.
ghost use Rattle.std.specs.Prelude.{◌≡◌, ◌+◌, List, ◌∷◌, ◌++◌, length, Some};
ghost use Rattle.artery_judge.specs.declared.verdict.Law.{Law};
ghost use Rattle.artery_judge.specs.declared.verdict.Verdict.TheVariants.{Lawful, Broken};
ghost use Rattle.artery_judge.specs.Lines.{Entry};
ghost use Rattle.artery_judge.specs.Laws.{broken_law, verdict, NoneBreaks};

/// A journal is lawful exactly where no line breaks a law, and so is then each part of it from its beginning. Else the verdict names the
/// first line that breaks a law, with the first law that it breaks.
#[tactic(auto, using(crate::proofs::Verdicts::none_breaks, crate::proofs::Verdicts::is_lawful, crate::proofs::Verdicts::begins_lawful))]
pub fn verdicts_tell()
    ensures lawful { (lines : List Entry) → verdict lines ≡ Lawful → NoneBreaks lines }
    ensures none { (lines : List Entry) → NoneBreaks lines → verdict lines ≡ Lawful }
    ensures broken { (before after : List Entry) (e : Entry) (law : Law) → NoneBreaks before → broken_law before e ≡ Some law → verdict (before ++ e ∷ after) ≡ Broken (length before + 1) law }
    ensures part { (before after : List Entry) → verdict (before ++ after) ≡ Lawful → verdict before ≡ Lawful }
{}
