//! The one who takes.
ghost use Rattle.std.specs.Prelude.{◌≡◌, ℕ, List, [], ◌∷◌, ◌++◌, ◌<◌, length, true, IfSome, IfNone};
ghost use Rattle.std.specs.Arc.{arc_value};
ghost use Rattle.std.specs.List.{list_all};
ghost use Rattle.crossbeam_queue.specs.Passes.{view as pass_view, IsPassOf};
ghost use Rattle.artery_lanes.specs.declared.entry.Entry.{Entry};
ghost use Rattle.artery_lanes.specs.declared.lane_view.LaneView.TheVariants as views;
ghost use Rattle.artery_lanes.specs.Lane.{made_of, got_of, ended_of};
ghost use Rattle.artery_lanes.specs.Calls.{TakerState, with_ended, offer_of, Takes as TakesNext, WasEmpty, GotFirst, given_of, finishing, marked};
ghost use Rattle.artery_net.specs.Feeding.{all_finished};

use crate::entry::{Entry, Item};
use crate::lane_rule::{Queue, Senders, Takes};
use crate::lane_view::LaneView;
use crate::sender_pass::SenderPass;
use artery_net::Offer;
use crossbeam_queue::Pass;
use std::alloc::Global;
use std::marker::Model;
use std::sync::{Arc, Wait};

/// The leave to take, the only one of its lane. A contract sees of which queue it is, how many senders' passes were made, the list of the
/// entries taken, and the accepted list of each sender whose pass was taken in.
#[derive(Drop)]
pub struct Taker {
    pub(crate) queue: Arc<Queue, Global>,
    pub(crate) inner: Pass<Entry, LaneView>,
    // Of each sender, whether its `Finished` was taken.
    pub(crate) finished: Vec<bool>,
}

impl Model for Taker {
    ghost Value = { TakerState };

    ghost view = { λ t. record { queue = t.inner.table_id; made = made_of (pass_view t.inner); got = got_of (pass_view t.inner); ended = ended_of (pass_view t.inner) } };

    ghost invariant = { λ t. IsPassOf (arc_value t.queue) t.inner × (pass_view t.inner ≡ views.Taker (made_of (pass_view t.inner)) (got_of (pass_view t.inner)) (ended_of (pass_view t.inner))) × (t.finished.items ≡ finishing (made_of (pass_view t.inner)) (given_of (got_of (pass_view t.inner)))) };
}

/// The offer that an entry is told as.
fn offer_of(entry: Entry) -> Offer
    ensures { result ≡ offer_of entry }
{
    let Entry { sender, k, item } = entry;
    match item {
        Item::Line(request) => Offer::Line { sender, k, request },
        Item::Skipped { seen, now } => Offer::Skipped {
            sender,
            k,
            seen,
            now,
        },
        Item::Finished => Offer::Finished { sender },
    }
}

/// Whether each mark is set.
fn all_marked(marks: &[bool]) -> bool
    ensures { result ≡ list_all (λ m. m) marks.now }
{
    marks.iter().all(|mark| *mark)
}

/// Marks the sender of an entry, where the entry says that it is done.
fn mark(finished: &mut Vec<bool>, entry: &Entry)
    requires { entry.now.sender < length finished.old.items }
    ensures { finished.new.items ≡ marked entry.now.sender entry.now.item finished.old.items }
{
    if matches!(entry.item, Item::Finished) {
        finished[entry.sender as usize] = true;
    }
}

impl Taker {
    /// Takes the oldest item of the queue: the next one of its sender. None only where the queue was empty at one moment of the call. It
    /// may wait for another thread that is at the queue.
    #[tactic(auto, using(crate::proofs::FeedSteps::popped_place, crate::proofs::FeedSteps::popped_marks))]
    pub fn take<R: Wait>(&mut self, rt: &R) -> Option<Offer>
        ensures some { IfSome result (λ o. TakesNext self.old self.new o) }
        ensures none { IfNone result ((self.new ≡ self.old) × WasEmpty self.old) }
        ensures same { (self.new.queue ≡ self.old.queue) × (self.new.made ≡ self.old.made) × (self.new.ended ≡ self.old.ended) }
    {
        let entry = self.queue.pop_as::<Takes, R>(rt, &mut self.inner)?;
        mark(&mut self.finished, &entry);
        Some(offer_of(entry))
    }

    /// Whether the `Finished` of each sender was taken.
    #[tactic(auto, using(crate::proofs::FeedSteps::ended_is))]
    pub fn has_ended(&self) -> bool
        ensures { result ≡ all_finished self.now.made (given_of self.now.got) }
    {
        all_marked(self.finished.as_slice())
    }

    /// Takes in the pass of a sender of this lane, which ends. What was taken of that sender begins the list of what was accepted.
    pub fn take_in(&mut self, ended: SenderPass)
        requires { ended.queue ≡ self.old.queue }
        ensures ended { self.new ≡ with_ended ended self.old }
        ensures first { GotFirst self.old.got ended }
    {
        let SenderPass { inner, .. } = ended;
        self.queue.absorb::<Senders>(&mut self.inner, inner);
        self.queue.learn_as::<Takes>(&mut self.inner);
    }
}
