//! One sender at a small gate and lane, and the largest ones.
ghost use Rattle.std.specs.Prelude.{◌≡◌, ◌+◌, ◌<◌, ◌≤◌, [], length, false, IfSome, IfOk};
ghost use Rattle.artery_lanes.specs.Gate.{owner_view};

use super::*;
use artery_base::{NoMemory, Request, Text};
use artery_net::{Fed, Feed};
use std::alloc::Global;
use std::sync::Wait;
use std::test::Fail;

/// The same line each time.
fn line(alloc: Global) -> Result<Request, NoMemory> {
    let path = Text::from_ascii(alloc, b"/user/a")?;
    Ok(Request::Spawn { path })
}

/// Word 1, at most at this number.
fn want(number: Option<u64>) -> Option<Want>
    ensures { IfSome result (λ w. w.word ≡ 1) }
{
    Some(Want { word: 1, number })
}

/// Whether an item is answered so.
fn answers<R: Wait>(
    rt: &R,
    lane: &Lane,
    pass: &mut SenderPass,
    seat: &mut Seat,
    item: Item,
    want: Option<Want>,
    answer: &Offered,
) -> bool
    requires pass { pass.old.queue ≡ lane.now.queue }
    requires few { length pass.old.accepted < 1000 }
    requires seat { seat.old.gate ≡ lane.now.gate }
    requires word { IfSome want (λ w. w.word < lane.now.gate.words) }
    ensures pass { pass.new.queue ≡ pass.old.queue }
    ensures few { length pass.new.accepted ≤ length pass.old.accepted + 1 }
    ensures seat { (seat.new.gate ≡ seat.old.gate) × (seat.new.view.owns ≡ seat.old.view.owns) }
{
    let offered = lane.offer(rt, pass, seat, item, want);
    offered == *answer
}

/// Whether word 1 is found to have this number, and to be learnt.
fn is_learnt(lane: &Lane, seat: &mut Seat, number: u64) -> bool
    requires seat { seat.old.gate ≡ lane.now.gate }
    requires words { 1 < lane.now.gate.words }
    ensures seat { (seat.new.gate ≡ seat.old.gate) × (seat.new.view.owns ≡ seat.old.view.owns) }
{
    let found = lane.gate().state(seat, 1);
    found
        == GateState {
            number,
            learnt: true,
        }
}

/// Whether the next take gives this.
fn gives<R: Wait>(rt: &R, taker: &mut Taker, want: &Option<Offer>) -> bool
    ensures { taker.new.queue ≡ taker.old.queue }
{
    let given = taker.take(rt);
    given == *want
}

/// Whether a line is accepted, closed once its word was stepped, and skipped in its place.
fn offers_a_line<R: Wait>(
    rt: &R,
    alloc: Global,
    lane: &Lane,
    pass: &mut SenderPass,
    owner: &mut Seat,
    seat: &mut Seat,
) -> Result<bool, NoMemory>
    requires pass { (pass.old.queue ≡ lane.now.queue) × (pass.old.accepted ≡ []) }
    requires owner { (owner.old.gate ≡ lane.now.gate) × (owner.old.view ≡ owner_view 2) }
    requires seat { (seat.old.gate ≡ lane.now.gate) × (seat.old.view.owns ≡ false) }
    requires words { lane.now.gate.words ≡ 2 }
    ensures pass { pass.new.queue ≡ pass.old.queue }
    ensures owner { owner.new.gate ≡ owner.old.gate }
    ensures seat { (seat.new.gate ≡ seat.old.gate) × (seat.new.view.owns ≡ seat.old.view.owns) }
{
    let first = Offered::Accepted {
        k: 0,
        seen: Some(0),
    };
    let closed = Offered::Closed {
        g: 1,
        item: Item::Line(line(alloc)?),
    };
    let last = Offered::Accepted { k: 1, seen: None };
    let again = Item::Line(line(alloc)?);
    let skipped = Item::Skipped { seen: 0, now: 1 };
    let item = Item::Line(line(alloc)?);
    let is_accepted = answers(rt, lane, pass, seat, item, want(None), &first);
    lane.gate().step(owner, 1);
    let is_stepped = is_learnt(lane, seat, 1);
    let is_closed = answers(rt, lane, pass, seat, again, want(Some(0)), &closed);
    let is_skipped = answers(rt, lane, pass, seat, skipped, None, &last);
    Ok(is_accepted && is_stepped && is_closed && is_skipped)
}

/// Whether the line and what stands in the place of the next come out, in order, and nothing more.
fn takes_a_line<R: Wait>(rt: &R, alloc: Global, taker: &mut Taker) -> Result<bool, NoMemory>
    ensures { taker.new.queue ≡ taker.old.queue }
{
    let first = Some(Offer::Line {
        sender: 0,
        k: 0,
        request: line(alloc)?,
    });
    let last = Some(Offer::Skipped {
        sender: 0,
        k: 1,
        seen: 0,
        now: 1,
    });
    let is_first = gives(rt, taker, &first);
    let is_last = gives(rt, taker, &last);
    let is_empty = gives(rt, taker, &None);
    Ok(is_first && is_last && is_empty)
}

/// Whether one sender, at a gate of two words and a lane of four places, is served.
fn is_served<R: Wait>(rt: &R, alloc: Global) -> Result<bool, NoMemory> {
    let (gate, owner) = Gate::new(alloc, 2)?;
    let (lane, mut passes, mut taker) = Lane::new(alloc, 4, 1, gate)?;
    let (mut owner, mut seat) = lane.gate().split(owner);
    let Some(mut pass) = passes.pop() else {
        return Ok(false);
    };
    let offered = offers_a_line(rt, alloc, &lane, &mut pass, &mut owner, &mut seat)?;
    let taken = takes_a_line(rt, alloc, &mut taker)?;
    taker.take_in(pass);
    let _owner = lane.gate().join(owner, seat);
    Ok(offered && taken)
}

#[test]
fn a_line_is_accepted_closed_and_skipped(rt: HostRuntime) -> Result<(), Fail> {
    let served = is_served(&rt, rt.alloc());
    assert!(rt; served == Ok(true));
    Ok(())
}

/// Whether the second line at a lane of one place comes back.
fn comes_back<R: Wait>(rt: &R, alloc: Global) -> Result<bool, NoMemory> {
    let (gate, mut owner) = Gate::new(alloc, 1)?;
    let (lane, mut passes, _taker) = Lane::new(alloc, 1, 1, gate)?;
    let Some(mut pass) = passes.pop() else {
        return Ok(false);
    };
    let accepted = Offered::Accepted { k: 0, seen: None };
    let full = Offered::Full(Item::Line(line(alloc)?));
    let item = Item::Line(line(alloc)?);
    let again = Item::Line(line(alloc)?);
    let is_accepted = answers(rt, &lane, &mut pass, &mut owner, item, None, &accepted);
    let is_full = answers(rt, &lane, &mut pass, &mut owner, again, None, &full);
    Ok(is_accepted && is_full)
}

#[test]
fn a_full_lane_gives_the_item_back(rt: HostRuntime) -> Result<(), Fail> {
    let back = comes_back(&rt, rt.alloc());
    assert!(rt; back == Ok(true));
    Ok(())
}

/// How many passes the largest lane has, beside the largest gate.
fn most_passes(alloc: Global) -> Result<usize, NoMemory> {
    let (gate, _owner) = Gate::new(alloc, 65)?;
    let (_lane, passes, _taker) = Lane::new(alloc, 1_024, 16, gate)?;
    Ok(passes.into_vec().len())
}

#[test]
fn the_largest_gate_and_lane_are_made(rt: HostRuntime) -> Result<(), Fail> {
    let count = most_passes(rt.alloc());
    assert!(rt; count == Ok(16));
    Ok(())
}

/// A lane of one place and one sender, with the sender's pass, the seat of the gate's owner, and the taker.
fn one_sender(alloc: Global) -> Result<Option<(Lane, SenderPass, Seat, Taker)>, NoMemory>
    ensures { IfOk result (λ made. IfSome made (λ r. (r.1.queue ≡ r.0.queue) × (r.1.accepted ≡ []) × (r.2.gate ≡ r.0.gate))) }
{
    let (gate, owner) = Gate::new(alloc, 1)?;
    let (lane, mut passes, taker) = Lane::new(alloc, 1, 1, gate)?;
    let Some(pass) = passes.pop() else {
        return Ok(None);
    };
    Ok(Some((lane, pass, owner, taker)))
}

/// Whether it is accepted that the sender is done, its only item.
fn is_done<R: Wait>(rt: &R, lane: &Lane, pass: &mut SenderPass, owner: &mut Seat) -> bool
    requires pass { (pass.old.queue ≡ lane.now.queue) × (pass.old.accepted ≡ []) }
    requires owner { owner.old.gate ≡ lane.now.gate }
{
    let accepted = Offered::Accepted { k: 0, seen: None };
    answers(rt, lane, pass, owner, Item::Finished, None, &accepted)
}

/// Whether the next take of the feed gives this.
fn feeds<F: Feed>(feed: &mut F, want: &Fed) -> bool {
    let given = feed.take();
    given == *want
}

/// Whether the feed gives that the sender is done, and has ended then.
fn feeds_the_end<F: Feed>(feed: &mut F) -> bool {
    let is_given = feeds(feed, &Fed::Item(Offer::Finished { sender: 0 }));
    let is_ended = feeds(feed, &Fed::Ended);
    is_given && is_ended
}

/// Whether the feed over a lane of one sender is empty, gives that the sender is done, and has ended then.
fn is_fed<R: Wait, S: Wait + Drop>(rt: &R, own: S, alloc: Global) -> Result<bool, NoMemory> {
    let Some((lane, mut pass, mut owner, taker)) = one_sender(alloc)? else {
        return Ok(false);
    };
    let mut feed = LaneFeed::new(own, taker);
    let is_empty = feeds(&mut feed, &Fed::Empty);
    let is_done = is_done(rt, &lane, &mut pass, &mut owner);
    let is_ended = feeds_the_end(&mut feed);
    Ok(is_empty && is_done && is_ended)
}

#[test]
fn a_lane_feeds_and_ends(rt: HostRuntime) -> Result<(), Fail> {
    let fed = is_fed(&rt, rt, rt.alloc());
    assert!(rt; fed == Ok(true));
    Ok(())
}
