//! What holds of ids over any list of calls. The function does nothing.
ghost use Rattle.std.specs.Prelude.{◌≡◌, ℕ, ◌+◌, ◌≤◌, List};
ghost use Rattle.artery_watch.specs.Watcher.{nothing_kept};
ghost use Rattle.artery_watch.specs.Story.{Call, after, story, times_given, times_ended, times_in, once_up_to, ids_of, IsLawful, IsAscendingAbove};

/// An id is given once and ends at most once, and none ends that was not given before: the law on ids, for every list of calls on a new
/// watcher. The ids that are given are the numbers from 1 on, each of them once; one that was given is watched still or has ended, and never
/// both; and the watches stand by ascending ids.
#[tactic(auto, using(crate::proofs::Stories::lawful_story, crate::proofs::Stories::story_once, crate::proofs::Stories::story_ends, crate::proofs::Stories::story_given, crate::proofs::Stories::story_stands, crate::proofs::Stories::story_ascends))]
pub fn ids_never_return()
    ensures lawful { (calls : List Call) → IsLawful (story calls) }
    ensures once { (id : ℕ) (calls : List Call) → times_given id (story calls) ≤ 1 }
    ensures ends { (id : ℕ) (calls : List Call) → times_ended id (story calls) ≤ times_given id (story calls) }
    ensures given { (id : ℕ) (calls : List Call) → times_given id (story calls) ≡ once_up_to id (after calls nothing_kept).watches.given }
    ensures stands { (id : ℕ) (calls : List Call) → times_in id (ids_of (after calls nothing_kept)) + times_ended id (story calls) ≡ times_given id (story calls) }
    ensures ascending { (calls : List Call) → IsAscendingAbove 0 (ids_of (after calls nothing_kept)) }
{}
