//! What the queue of a lane is held to.
ghost use Rattle.std.specs.Prelude.{[]};
ghost use Rattle.artery_lanes.specs.declared.lane_view.LaneView.TheVariants.{Taker, Spent};
ghost use Rattle.artery_lanes.specs.Lane.{IsLane, Told, offers, takes, one_more, new_sender, taken_in};

use crate::entry::Entry;
use crate::lane_view::LaneView;
use crossbeam_queue::RuledArrayQueue;
use crossbeam_queue::protocol::{Join, Lesson, Outcome, Protocol, Split};

/// The rule that the queue keeps, whatever the threads do.
pub struct LaneRule;

impl Protocol<Entry, LaneView> for LaneRule {
    ghost holds = { IsLane };

    ghost first = { Taker 0 [] [] };
}

/// A sender's push.
pub struct Offers;

impl Outcome<Entry, LaneView> for Offers {
    ghost then = { offers };
}

impl Lesson<Entry, LaneView> for Offers {
    ghost fact = { Told };
}

/// The taker's pop.
pub struct Takes;

impl Outcome<Entry, LaneView> for Takes {
    ghost then = { takes };
}

impl Lesson<Entry, LaneView> for Takes {
    ghost fact = { Told };
}

/// The taker makes a sender's pass, or takes one in.
pub struct Senders;

impl Split<LaneView> for Senders {
    ghost left = { one_more };

    ghost right = { new_sender };
}

impl Join<LaneView> for Senders {
    ghost both = { taken_in };

    ghost spent = { Spent };
}

/// The queue of a lane, under its rule.
pub type Queue = RuledArrayQueue<Entry, LaneView, LaneRule>;
