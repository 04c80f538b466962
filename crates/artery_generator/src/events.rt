//! What the steps of a script make happen.
ghost use Rattle.std.specs.Prelude.{◌≡◌, ◌++◌, [], ◌∷◌, ◌^◌, ◌≤◌, IfOk, OnOk};
ghost use Rattle.std.specs.Int.{w32, to_be_bytes};
ghost use Rattle.artery_generator.specs.Events.{message_of, tell_of, spawns, starts, sends, tells, watches, ticks, breaks, passes, stops, stops_and_starts, events_of_turn, first_events, last_round};

use crate::live::Live;
use crate::place::Place;
use crate::turn::Turn;
use artery_base::{Bytes, NoMemory, Request, SysMsg, Tell, Text, UniqueAddress};
use artery_script::Event;
use std::alloc::Global;

const WATCHING_PATH: &[u8] = b"/user/w";

const WATCHED_PATH: &[u8] = b"/user/x";

const SYSTEM_SERIALIZER: i32 = 5;

const SYSTEM_MANIFEST: &[u8] = b"x";

const ORDINARY_SERIALIZER: i32 = 4;

const ORDINARY_MANIFEST: &[u8] = b"T";

const LONG_PASS: u64 = 3;

const SHORT_PASS: u64 = 1;

const LAST_PASS: u64 = 9;

const MILLISECONDS_A_STEP: u64 = 1_000;

// The number of a step, as the bytes of a message.
fn payload_of(alloc: Global, number: u32) -> Result<Bytes, NoMemory>
    ensures { IfOk result (λ p. p ≡ to_be_bytes w32 number) }
{
    Bytes::from_slice(alloc, &number.to_be_bytes())
}

fn message_of(alloc: Global, turn: &Turn) -> Result<SysMsg, NoMemory>
    ensures { IfOk result (λ m. m ≡ message_of turn.now) }
{
    let manifest = Bytes::from_slice(alloc, SYSTEM_MANIFEST)?;
    let payload = payload_of(alloc, turn.number)?;
    Ok(SysMsg {
        serializer: SYSTEM_SERIALIZER,
        manifest,
        payload,
    })
}

fn tell_of(alloc: Global, turn: &Turn) -> Result<Tell, NoMemory>
    ensures { IfOk result (λ m. m ≡ tell_of turn.now) }
{
    let sender = turn.from.watching(alloc)?;
    let recipient = turn.to.watched(alloc)?;
    let manifest = Text::from_ascii(alloc, ORDINARY_MANIFEST)?;
    let payload = payload_of(alloc, turn.number)?;
    Ok(Tell {
        sender,
        recipient,
        serializer: ORDINARY_SERIALIZER,
        manifest,
        payload,
    })
}

fn spawn(alloc: Global, uid: u64, events: &mut Vec<Event>) -> Result<(), NoMemory>
    ensures { OnOk result (events.new.items ≡ events.old.items ++ spawns uid ∷ []) }
{
    let path = Text::from_ascii(alloc, WATCHED_PATH)?;
    let request = Request::Spawn { path };
    events.push(Event::At { uid, request })?;
    Ok(())
}

fn start(alloc: Global, place: Place, uid: u64, events: &mut Vec<Event>) -> Result<(), NoMemory>
    ensures { OnOk result (events.new.items ≡ events.old.items ++ starts place uid ∷ []) }
{
    let address = place.address(alloc)?;
    let unique = UniqueAddress { address, uid };
    events.push(Event::Start { unique })?;
    Ok(())
}

fn send(alloc: Global, turn: &Turn, events: &mut Vec<Event>) -> Result<(), NoMemory>
    ensures { OnOk result (events.new.items ≡ events.old.items ++ sends turn.now ∷ []) }
{
    let address = turn.to.address(alloc)?;
    let message = message_of(alloc, turn)?;
    let request = Request::Send { address, message };
    events.push(Event::At {
        uid: turn.uid(),
        request,
    })?;
    Ok(())
}

fn tell(alloc: Global, turn: &Turn, events: &mut Vec<Event>) -> Result<(), NoMemory>
    ensures { OnOk result (events.new.items ≡ events.old.items ++ tells turn.now ∷ []) }
{
    let address = turn.to.address(alloc)?;
    let message = tell_of(alloc, turn)?;
    let request = Request::Tell { address, message };
    events.push(Event::At {
        uid: turn.uid(),
        request,
    })?;
    Ok(())
}

fn watch(alloc: Global, turn: &Turn, events: &mut Vec<Event>) -> Result<(), NoMemory>
    ensures { OnOk result (events.new.items ≡ events.old.items ++ watches turn.now ∷ []) }
{
    let path = Text::from_ascii(alloc, WATCHING_PATH)?;
    let watchee = turn.to.watched(alloc)?;
    let request = Request::Watch { path, watchee };
    events.push(Event::At {
        uid: turn.uid(),
        request,
    })?;
    Ok(())
}

fn tick(number: u64, live: &Live, events: &mut Vec<Event>) -> Result<(), NoMemory>
    requires { number ≤ 2 ^ 33 }
    ensures { OnOk result (events.new.items ≡ events.old.items ++ ticks number live.now) }
{
    let moment = MILLISECONDS_A_STEP * number;
    events.push(Event::Tick {
        uid: live.a,
        moment,
    })?;
    events.push(Event::Tick {
        uid: live.b,
        moment,
    })?;
    events.push(Event::Tick {
        uid: live.c,
        moment,
    })?;
    Ok(())
}

fn cut(uid: u64, events: &mut Vec<Event>) -> Result<(), NoMemory>
    ensures { OnOk result (events.new.items ≡ events.old.items ++ breaks uid) }
{
    events.push(Event::CutAll { uid })?;
    events.push(Event::EndAll { uid })?;
    Ok(())
}

fn pass(rounds: u64, events: &mut Vec<Event>) -> Result<(), NoMemory>
    ensures { OnOk result (events.new.items ≡ events.old.items ++ passes rounds ∷ []) }
{
    events.push(Event::Pass { rounds })?;
    Ok(())
}

// The incarnation stops, and with it what it dialed; the others lose what they dialed.
fn stop(turn: &Turn, events: &mut Vec<Event>) -> Result<(), NoMemory>
    ensures { OnOk result (events.new.items ≡ events.old.items ++ stops turn.now) }
{
    let uid = turn.uid();
    let (first, second) = turn.from.others();
    events.push(Event::Stop { uid })?;
    events.push(Event::EndAll { uid })?;
    cut(turn.live.at(first), events)?;
    cut(turn.live.at(second), events)
}

fn restart(alloc: Global, turn: &Turn, events: &mut Vec<Event>) -> Result<(), NoMemory>
    ensures { OnOk result (events.new.items ≡ events.old.items ++ stops_and_starts turn.now) }
{
    stop(turn, events)?;
    start(alloc, turn.from, turn.successor(), events)?;
    spawn(alloc, turn.successor(), events)
}

/// What one step makes happen.
pub(crate) fn do_turn(alloc: Global, turn: &Turn, events: &mut Vec<Event>) -> Result<(), NoMemory>
    ensures { OnOk result (events.new.items ≡ events.old.items ++ events_of_turn turn.now) }
{
    match turn.deed {
        0..=2 => send(alloc, turn, events),
        3 | 4 => tell(alloc, turn, events),
        5 => pass(LONG_PASS, events),
        6 => watch(alloc, turn, events),
        7 => tick(u64::from(turn.number), &turn.live, events),
        8 => cut(turn.uid(), events),
        _ if turn.restarts() => restart(alloc, turn, events),
        _ => pass(SHORT_PASS, events),
    }
}

/// All three start, and each has an actor.
pub(crate) fn begin(alloc: Global, live: &Live, events: &mut Vec<Event>) -> Result<(), NoMemory>
    ensures { OnOk result (events.new.items ≡ events.old.items ++ first_events live.now) }
{
    start(alloc, Place::A, live.a, events)?;
    start(alloc, Place::B, live.b, events)?;
    start(alloc, Place::C, live.c, events)?;
    spawn(alloc, live.a, events)?;
    spawn(alloc, live.b, events)?;
    spawn(alloc, live.c, events)
}

/// What comes behind the last step: the time goes on, and what was lost is sent again.
pub(crate) fn settle(number: u64, live: &Live, events: &mut Vec<Event>) -> Result<(), NoMemory>
    requires { number ≤ 2 ^ 33 }
    ensures { OnOk result (events.new.items ≡ events.old.items ++ last_round number live.now) }
{
    tick(number, live, events)?;
    pass(LAST_PASS, events)
}
