//! The laws that tie the two moments to the whole list. Their functions do nothing.
ghost use Rattle.std.specs.Prelude.{◌≡◌, ℕ, List, [], ◌∷◌, ◌++◌, Some};
ghost use Rattle.artery_detector.specs.Availability.{Beat, ask, heartbeat, is_available, counted_ask, CountsIn};
ghost use Rattle.artery_detector.specs.Kept.{Kept, nothing_kept, kept_asked, kept_heard, kept_available, Stands};

/// What a `Detector` keeps stands for the whole list of asks and heartbeats: every call keeps it so, and the answer is that of the list.
pub fn keeping_stands()
    ensures start { Stands nothing_kept [] }
    ensures ask { (now : ℕ) (k : Kept) (beats : List Beat) → Stands k beats → Stands (kept_asked now k) (beats ++ ask now ∷ []) }
    ensures heartbeat { (now : ℕ) (k : Kept) (beats : List Beat) → Stands k beats → Stands (kept_heard now k) (beats ++ heartbeat now ∷ []) }
    ensures available { (now : ℕ) (k : Kept) (beats : List Beat) → Stands k beats → kept_available now k ≡ is_available now beats }
{}

/// The ask that counts as a heartbeat has asks and no heartbeat before it, is 1,000 ms or more after the first of these, and none of them
/// is; and an ask of which this holds is the one that counts.
#[tactic(auto, using(crate::proofs::Counted::counts_in))]
pub fn one_ask_counts()
    ensures counts { (now : ℕ) (beats : List Beat) → counted_ask beats ≡ Some now → CountsIn now beats }
    ensures only { (now : ℕ) (beats : List Beat) → CountsIn now beats → counted_ask beats ≡ Some now }
{}
