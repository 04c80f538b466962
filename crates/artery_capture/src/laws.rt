//! Laws of what is shown, as contracts of functions that do nothing else.

ghost use Rattle.std.specs.Prelude.{◌≡◌, []};
ghost use Rattle.artery_capture.specs.Shown.{front_lines};

/// A connection of which no bytes have come has no lines.
#[tactic(auto, using(crate::proofs::Showing::nothing_told))]
pub fn nothing_told()
    ensures lines { front_lines [] ≡ [] }
{}
