//! A lane, and how items are offered to it.
ghost use Rattle.std.specs.Prelude.{◌≡◌, ℕ, ◌+◌, ◌^◌, ◌<◌, ◌≤◌, List, [], ◌∷◌, ◌++◌, true, false, length, OnOk, IfOk, IfSome, IfNone, Option, Some, None, MatchResult};
ghost use Rattle.std.specs.Arc.{arc_value};
ghost use Rattle.crossbeam_queue.specs.Passes.{view as pass_view, IsPassOf, IsSamePass, ruled_capacity};
ghost use Rattle.artery_lanes.specs.declared.lane_view.LaneView.TheVariants as views;
ghost use Rattle.artery_lanes.specs.Gate.{SeatState};
ghost use Rattle.artery_lanes.specs.Calls.{LaneState, PassState, with_item, Looks, is_closed, WasFull, Offering, new_passes, new_taker};

use crate::entry::{Entry, Item};
use crate::gate::{Gate, Seat};
use crate::lane_rule::{LaneRule, Offers, Queue, Senders};
use crate::lane_view::LaneView;
use crate::offered::{Offered, Want};
use crate::passes::Passes;
use crate::sender_pass::SenderPass;
use crate::taker::Taker;
use artery_base::NoMemory;
use crossbeam_queue::Pass;
use std::alloc::Global;
use std::marker::Model;
use std::sync::{Arc, Wait};

/// A bounded queue from many senders to one taker, with a gate beside it. Threads share it by reference. A contract sees which queue it is,
/// how many entries that holds at most, and its gate.
#[derive(Drop)]
pub struct Lane {
    queue: Arc<Queue, Global>,
    gate: Gate,
}

impl Model for Lane {
    ghost Value = { LaneState };

    ghost view = { λ l. record { queue = (arc_value l.queue).table.shared.table_id; capacity = ruled_capacity (arc_value l.queue); gate = l.gate } };
}

/// Loads the word of the want, where there is one, and answers the number found; as an error where that is above the wanted number.
fn look(gate: &Gate, seat: &mut Seat, want: Option<Want>) -> Result<Option<u64>, u64>
    requires gate { seat.old.gate ≡ gate.now }
    requires word { IfSome want (λ w. w.word < gate.now.words) }
    ensures { MatchResult result (λ seen. Looks gate.now want seat.old seat.new seen × (is_closed want seen ≡ false)) (λ g. Looks gate.now want seat.old seat.new (Some g) × (is_closed want (Some g) ≡ true)) }
{
    let Some(Want { word, number }) = want else {
        return Ok(None);
    };
    let found = gate.state(seat, word).number;
    match number {
        Some(wanted) if found > wanted => Err(found),
        _ => Ok(Some(found)),
    }
}

/// Puts an item into the queue and answers its place, or gives it back where the queue was full at one moment of the call.
fn put<R: Wait>(rt: &R, queue: &Queue, pass: &mut SenderPass, item: Item) -> Result<u64, Item>
    requires queue { pass.old.queue ≡ queue.now.table.shared.table_id }
    requires few { length pass.old.accepted < 2 ^ 62 }
    ensures { MatchResult result (λ k. (pass.new ≡ with_item item pass.old) × (k ≡ length pass.old.accepted)) (λ x. (x ≡ item) × (pass.new ≡ pass.old) × WasFull (ruled_capacity queue.now) pass.old) }
{
    let k = pass.next;
    let entry = Entry {
        sender: pass.sender,
        k,
        item,
    };
    match queue.push_as::<Offers, R>(rt, &mut pass.inner, entry) {
        Ok(()) => {
            pass.next = k + 1;
            Ok(k)
        }
        Err(back) => {
            let Entry { item, .. } = back;
            Err(item)
        }
    }
}

/// Makes the passes of so many senders.
fn all_passes(
    alloc: Global,
    queue: &Queue,
    pass: &mut Pass<Entry, LaneView>,
    senders: u32,
) -> Result<Passes, NoMemory>
    requires queue { IsPassOf queue.now pass.old }
    requires first { pass_view pass.old ≡ views.Taker 0 [] [] }
    ensures queue { IsSamePass pass.old pass.new }
    ensures taker { OnOk result (pass_view pass.new ≡ views.Taker senders [] []) }
    ensures passes { IfOk result (λ p. p ≡ new_passes queue.now.table.shared.table_id senders) }
{
    let mut passes = Passes::new(alloc);
    for sender in 0..senders {
        let inner = queue.another::<Senders>(pass);
        passes.push(SenderPass {
            inner,
            sender,
            next: 0,
        })?;
    }
    Ok(passes)
}

impl Lane {
    /// A lane of 1 to 1,024 places that holds nothing, with a pass for each of 1 to 16 senders, and its taker. It keeps the gate. Fails only
    /// for want of memory.
    #[tactic(auto, using(crate::proofs::FeedSteps::none_finished))]
    pub fn new(
        alloc: Global,
        capacity: usize,
        senders: u32,
        gate: Gate,
    ) -> Result<(Lane, Passes, Taker), NoMemory>
        requires capacity { (0 < capacity) × (capacity ≤ 1024) }
        requires senders { (0 < senders) × (senders ≤ 16) }
        ensures lane { IfOk result (λ r. (r.0.capacity ≡ capacity) × (r.0.gate ≡ gate)) }
        ensures passes { IfOk result (λ r. r.1 ≡ new_passes r.0.queue senders) }
        ensures taker { IfOk result (λ r. r.2 ≡ new_taker r.0.queue senders) }
    {
        let (queue, mut inner) = Queue::ruled(alloc, capacity)?;
        let passes = all_passes(alloc, &queue, &mut inner, senders)?;
        let finished = Vec::from_elem(alloc, false, senders as usize)?;
        let queue = Arc::new(alloc, queue)?;
        let theirs = Arc::try_clone(&queue)?;
        let taker = Taker {
            queue: theirs,
            inner,
            finished,
        };
        Ok((Lane { queue, gate }, passes, taker))
    }

    /// The lane's gate.
    pub fn gate(&self) -> &Gate
        ensures { result.now ≡ self.now.gate }
    {
        &self.gate
    }

    /// Offers an item. A want is looked at first, by one load of its word: Closed exactly where it has a number, and the one found is above
    /// it. Else the item is queued (Accepted), or comes back (Full) where the queue was full at one moment of the call. The pass has fewer
    /// than 2^62 accepted items. It may wait for another thread that is at the queue.
    pub fn offer<R: Wait>(
        &self,
        rt: &R,
        pass: &mut SenderPass,
        seat: &mut Seat,
        item: Item,
        want: Option<Want>,
    ) -> Offered
        requires pass { pass.old.queue ≡ self.now.queue }
        requires seat { seat.old.gate ≡ self.now.gate }
        requires word { IfSome want (λ w. w.word < self.now.gate.words) }
        requires few { length pass.old.accepted < 2 ^ 62 }
        ensures offering { Offering self.now item want pass.old seat.old pass.new seat.new result }
        ensures pass { (pass.new.queue ≡ pass.old.queue) × (pass.new.sender ≡ pass.old.sender) }
        ensures seat { (seat.new.gate ≡ seat.old.gate) × (seat.new.view.owns ≡ seat.old.view.owns) }
        ensures count { length pass.new.accepted ≤ length pass.old.accepted + 1 }
    {
        match look(&self.gate, seat, want) {
            Err(g) => Offered::Closed { g, item },
            Ok(seen) => match put(rt, &self.queue, pass, item) {
                Ok(k) => Offered::Accepted { k, seen },
                Err(item) => Offered::Full(item),
            },
        }
    }
}
