//! The laws that tie what is kept to the whole histories. Their functions do nothing.
ghost use Rattle.std.specs.Prelude.{◌≡◌, ℕ, Bool, List, [], Some};
ghost use Rattle.artery_tables.specs.Story.{Story, IsStory, IsKnown, version_of, number_of, entry_of};
ghost use Rattle.artery_tables.specs.InTables.{Kept, State, Stands, nothing_kept, nothing_used, counting, kept_counted, advertising, kept_advertised, confirming, kept_confirmed, number_kept, entry_kept, answer_to_use, used, answer_to_advertise, advertised, answer_to_confirm, confirmed, announced_in};
ghost use Rattle.artery_tables.specs.OutTable.{Held, State as Pairs, Stands as HeldStands, nothing_held, nothing_adopted, held_adopted, adopted};

/// What an `InTables` keeps stands for the whole history: every call keeps it so and has the answer of the history's step.
#[tactic(auto, using(crate::proofs::Stories::numbers_alike, crate::proofs::Stories::entries_alike, crate::proofs::Histories::counts_alike, crate::proofs::Histories::counted_alike, crate::proofs::Histories::advertises_alike, crate::proofs::Histories::confirms_alike))]
pub fn keeping_stands()
    ensures start { Stands nothing_kept nothing_used }
    ensures counts { (name : List ℕ) (k : Kept) (s : State) → Stands k s → counting name k ≡ answer_to_use name s }
    ensures count { (name : List ℕ) (k : Kept) (s : State) → Stands k s → Stands (kept_counted name k) (used name s) }
    ensures answers { (settled : Bool) (k : Kept) (s : State) → Stands k s → advertising settled k ≡ answer_to_advertise settled s }
    ensures advertise { (settled : Bool) (k : Kept) (s : State) → Stands k s → Stands (kept_advertised settled k) (advertised settled s) }
    ensures confirms { (number : ℕ) (k : Kept) (s : State) → Stands k s → confirming number k ≡ answer_to_confirm number s }
    ensures confirm { (number : ℕ) (k : Kept) (s : State) → Stands k s → Stands (kept_confirmed number k) (confirmed number s) }
    ensures announced { (k : Kept) (s : State) → Stands k s → k.announced ≡ announced_in s.story }
    ensures number { (version : ℕ) (k : Kept) (s : State) → Stands k s → number_kept k version ≡ number_of s.story version }
    ensures entry { (version index : ℕ) (k : Kept) (s : State) → Stands k s → entry_kept k version index ≡ entry_of s.story version index }
{}

/// The number found for a version is known and has the version, and each known number is found for its version: no two known numbers
/// have one version.
#[tactic(auto, using(crate::proofs::Numbers::known_found))]
pub fn known_numbers_are_found()
    ensures found { (story : Story) (version number : ℕ) → number_of story version ≡ Some number → IsKnown story number × (version_of number ≡ version) }
    ensures known { (story : Story) (number : ℕ) → IsStory story → IsKnown story number → number_of story (version_of number) ≡ Some number }
{}

/// What an `OutTable` holds stands for all pairs that its table came with.
#[tactic(auto, using(crate::proofs::Pairs::adopted_alike))]
pub fn adopting_stands()
    ensures start { HeldStands nothing_held nothing_adopted }
    ensures adopt { (number : ℕ) (keys : List (List ℕ)) (values : List ℕ) (held : Held) (s : Pairs) → HeldStands held s → HeldStands (held_adopted number keys values held) (adopted number keys values s) }
{}
