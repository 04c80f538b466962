//! The pass of one sender.
ghost use Rattle.std.specs.Prelude.{◌≡◌, [], length};
ghost use Rattle.crossbeam_queue.specs.Passes.{view as pass_view};
ghost use Rattle.artery_lanes.specs.declared.lane_view.LaneView.TheVariants.{Sender};
ghost use Rattle.artery_lanes.specs.Lane.{accepted_of};
ghost use Rattle.artery_lanes.specs.Calls.{PassState};

use crate::entry::Entry;
use crate::lane_view::LaneView;
use crossbeam_queue::Pass;
use std::marker::Model;

/// One sender's leave to offer, the only one of that sender. A contract sees of which queue and which sender it is, and the list of the
/// items that were accepted. `next` is the length of that list, the place that the next item gets.
#[derive(Drop)]
pub struct SenderPass {
    pub(crate) inner: Pass<Entry, LaneView>,
    pub(crate) sender: u32,
    pub(crate) next: u64,
}

impl Model for SenderPass {
    ghost Value = { PassState };

    ghost view = { λ p. record { queue = p.inner.table_id; sender = p.sender; accepted = accepted_of (pass_view p.inner) } };

    ghost invariant = { λ p. (p.inner.me.1 ≡ []) × (pass_view p.inner ≡ Sender p.sender (accepted_of (pass_view p.inner))) × (p.next ≡ length (accepted_of (pass_view p.inner))) };
}
