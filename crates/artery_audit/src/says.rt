//! Whose line it is, and for whom.
ghost use Rattle.std.specs.Prelude.{◌≡◌, option_copied};
ghost use Rattle.artery_judge.specs.Lines.{of as of_line};
ghost use Rattle.artery_audit.specs.Merging.{receiver_of};

use artery_base::UniqueAddress;
use artery_journal::Line;

/// The incarnation whose line it is.
pub(crate) fn writer(line: &Line) -> &UniqueAddress
    ensures { result.now ≡ of_line line.now }
{
    match line {
        Line::Started { of }
        | Line::Stopped { of }
        | Line::Learnt { of, .. }
        | Line::Closed { of, .. }
        | Line::Sent { of, .. }
        | Line::Took { of, .. }
        | Line::Again { of, .. }
        | Line::Gap { of, .. }
        | Line::Told { of, .. }
        | Line::Got { of, .. }
        | Line::Dropped { of, .. }
        | Line::Stray { of, .. }
        | Line::Barred { of, .. }
        | Line::Notice { of, .. }
        | Line::Watched { of, .. }
        | Line::Unwatched { of, .. }
        | Line::Terminated { of, .. }
        | Line::Refused { of, .. }
        | Line::Spawned { of, .. }
        | Line::Ended { of, .. }
        | Line::Advertised { of, .. }
        | Line::Adopted { of, .. }
        | Line::Skipped { of, .. }
        | Line::Idle { of, .. } => of,
    }
}

/// The incarnation that a line sends or tells something.
pub(crate) fn receiver(line: &Line) -> Option<&UniqueAddress>
    ensures { option_copied result ≡ receiver_of line.now }
{
    match line {
        Line::Sent { other, .. } | Line::Told { other, .. } => Some(other),
        _ => None,
    }
}
