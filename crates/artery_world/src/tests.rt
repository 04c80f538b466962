//! A network, given the events that the lines of scripts tell: what comes of them, why they do not happen, and the limits.
ghost use Rattle.std.specs.Prelude.{◌≡◌, true};
ghost use Rattle.artery_world.specs.Running.{IsFitEvent};

use crate::{Outcomes, World};
use artery_base::{Bytes, NoMemory};
use artery_connections::Counts;
use artery_journal::print_line;
use artery_machine::{Outcome, Why, WorldFault, WorldLimit};
use artery_script::{Event, read_event};
use artery_text::print_number;
use std::alloc::Global;
use std::test::*;

// The calls with no contract of their own, so that a test's proof does not follow what is known.

/// A network, and what came of its last event.
#[derive(Drop)]
struct Game {
    alloc: Global,
    world: World,
    outcomes: Outcomes,
}

fn begins(alloc: Global) -> Game {
    Game {
        alloc,
        world: World::new(alloc),
        outcomes: Outcomes::new(alloc),
    }
}

/// Whether an event has a moment that a script may tell.
fn is_fit(event: &Event) -> bool
    ensures { result ≡ true → IsFitEvent event.now }
{
    match event {
        Event::Tick { moment, .. } => *moment < 1 << 62,
        _ => true,
    }
}

/// The event of a line comes. A line that tells none is answered as want of memory.
fn applies(play: &mut Game, line: &[u8]) -> Result<(), WorldFault> {
    play.outcomes.clear();
    let Ok(event) = read_event(play.alloc, line) else {
        return Err(WorldFault::NoMemory);
    };
    if !is_fit(&event) {
        return Err(WorldFault::NoMemory);
    }
    play.world.apply(event, &mut play.outcomes)
}

/// Whether the event of a line is answered so.
fn answers(play: &mut Game, line: &[u8], want: Result<(), WorldFault>) -> bool {
    applies(play, line) == want
}

/// A line of the journal, or `write UID DIAL COUNT`.
fn put_outcome(outcome: &Outcome, out: &mut Bytes) -> Result<(), NoMemory> {
    match outcome {
        Outcome::Line { line, .. } => print_line(line, out),
        Outcome::Wrote { uid, dial, bytes } => {
            out.extend_from_slice(b"write ")?;
            print_number(*uid, out)?;
            out.push(b' ')?;
            print_number(*dial, out)?;
            out.push(b' ')?;
            print_number(bytes.len() as u64, out)
        }
    }
}

fn told(alloc: Global, outcomes: &[Outcome]) -> Result<Bytes, NoMemory> {
    let mut out = Bytes::new(alloc);
    for outcome in outcomes {
        put_outcome(outcome, &mut out)?;
        out.push(b'\n')?;
    }
    Ok(out)
}

fn joined(alloc: Global, lines: &[&str]) -> Result<Bytes, NoMemory> {
    let mut out = Bytes::new(alloc);
    for line in lines {
        out.extend_from_slice(line.as_bytes())?;
        out.push(b'\n')?;
    }
    Ok(out)
}

/// Whether this came of the last event.
fn came(play: &Game, want: &[&str]) -> bool {
    let Ok(told) = told(play.alloc, play.outcomes.as_slice()) else {
        return false;
    };
    match joined(play.alloc, want) {
        Ok(want) => told.as_slice() == want.as_slice(),
        Err(NoMemory) => false,
    }
}

/// Whether each of these events happens, and this comes of them.
fn comes_of(play: &mut Game, steps: &[(&str, &[&str])]) -> bool {
    for (line, want) in steps {
        if !answers(play, line.as_bytes(), Ok(())) || !came(play, want) {
            return false;
        }
    }
    true
}

/// Whether the connection at a place was dialed so, and so many bytes were written and delivered.
fn counts(play: &Game, place: usize, want: Option<(u64, u64, u64, u64)>) -> bool {
    let found = play.world.counts(place);
    let told = found.map(|c: Counts| (c.uid, c.dial, c.written, c.delivered));
    told == want
}

/// Two nodes meet, and a message goes from one to the other.
const MESSAGE: [(&str, &[&str]); 6] = [
    (
        "start akka://A@h1:25520 1",
        &["akka://A@h1:25520#1 started"],
    ),
    (
        "start akka://B@h2:25520 2",
        &["akka://B@h2:25520#2 started"],
    ),
    ("at 1 pair akka://B@h2:25520", &[]),
    (
        "pass 9",
        &[
            "write 1 1 5",
            "write 1 1 83",
            "write 2 1 5",
            "write 2 1 83",
            "write 2 1 66",
            "write 1 1 66",
            "akka://A@h1:25520#1 learnt akka://B@h2:25520#2",
            "write 1 2 5",
            "write 1 2 83",
            "akka://B@h2:25520#2 learnt akka://A@h1:25520#1",
            "write 2 1 66",
            "write 2 2 5",
            "write 2 2 83",
            "write 1 1 66",
        ],
    ),
    (
        "at 1 send akka://B@h2:25520 5 x 0102",
        &[
            "akka://A@h1:25520#1 sent akka://B@h2:25520#2 1 5 x 0102",
            "write 1 1 73",
        ],
    ),
    (
        "pass 9",
        &[
            "akka://B@h2:25520#2 took akka://A@h1:25520#1 1 5 x 0102",
            "write 2 1 64",
        ],
    ),
];

#[test]
fn a_message_is_sent_and_taken(rt: HostRuntime) -> Result<(), Fail> {
    let mut play = begins(rt.alloc());
    assert!(rt; comes_of(&mut play, &MESSAGE));
    let connections = [
        Some((1, 1, 293, 293)),
        Some((2, 1, 284, 284)),
        Some((1, 2, 88, 88)),
        Some((2, 2, 88, 88)),
        None,
    ];
    for (place, want) in connections.into_iter().enumerate() {
        assert!(rt; counts(&play, place, want));
    }
    Ok(())
}

const fn refused(why: Why) -> Result<(), WorldFault> {
    Err(WorldFault::NotAllowed { why })
}

/// Whether these events are answered so, one after the other, and nothing comes of one that is refused.
fn is_answered(play: &mut Game, events: &[(&str, Result<(), WorldFault>)]) -> bool {
    for (line, want) in events {
        if !answers(play, line.as_bytes(), *want) {
            return false;
        }
        if want.is_err() && !came(play, &[]) {
            return false;
        }
    }
    true
}

#[test]
fn each_event_that_is_refused(rt: HostRuntime) -> Result<(), Fail> {
    let starting = [
        ("start akka://A@h1:25520 1", Ok(())),
        ("start akka://C@h3:25520 1", refused(Why::UsedUid)),
        ("start akka://A@h1:25520 1", refused(Why::UsedUid)),
        ("start akka://A@h1:25520 2", refused(Why::AddressLive)),
        ("start akka://B@h2:25520 2", Ok(())),
        ("stop 3", refused(Why::NotLive)),
        ("at 3 pair akka://A@h1:25520", refused(Why::NotLive)),
        ("at 1 pair akka://A@h1:25520", refused(Why::OwnAddress)),
        (
            "at 1 watch /user/w akka://A@h1:25520/user/x",
            refused(Why::OwnAddress),
        ),
        ("tick 3 1", refused(Why::NotLive)),
        ("tick 1 5", Ok(())),
        ("tick 1 4", refused(Why::MomentBack)),
        ("tick 1 5", Ok(())),
    ];
    let dialing = [
        ("answer 1 1", refused(Why::NoDial)),
        ("fail 1 1", refused(Why::NoDial)),
        ("at 1 pair akka://D@h4:25520", Ok(())),
        ("answer 1 1", refused(Why::Nobody)),
        ("fail 1 1", Ok(())),
        ("fail 1 1", refused(Why::NoDial)),
        ("at 1 pair akka://B@h2:25520", Ok(())),
        ("answer 2 2", refused(Why::NoDial)),
        ("carry 1 2 1", refused(Why::NoConnection)),
        ("cut 1 2", refused(Why::NoConnection)),
        ("end 1 2", refused(Why::NoConnection)),
        ("answer 1 2", Ok(())),
    ];
    let connected = [
        ("carry 1 2 89", refused(Why::TooMany)),
        ("carry 1 2 1", Ok(())),
        ("carry 1 2 88", refused(Why::TooMany)),
        ("cut 1 2", Ok(())),
        ("cut 1 2", refused(Why::NearEnded)),
        ("carry 1 2 87", Ok(())),
        ("end 1 2", Ok(())),
        ("end 1 2", refused(Why::FarEnded)),
        ("carry 1 2 1", refused(Why::FarEnded)),
        ("cut 3 all", refused(Why::NotStarted)),
        ("end 3 all", refused(Why::NotStarted)),
        ("stop 1", Ok(())),
        ("cut 1 all", Ok(())),
        ("end 1 all", Ok(())),
        ("stop 1", refused(Why::NotLive)),
        ("start akka://A@h1:25520 1", refused(Why::UsedUid)),
    ];
    let mut play = begins(rt.alloc());
    assert!(rt; is_answered(&mut play, &starting));
    assert!(rt; is_answered(&mut play, &dialing));
    assert!(rt; is_answered(&mut play, &connected));
    Ok(())
}

/// A template with a number in the place of each `%`.
fn filled(alloc: Global, template: &str, n: u64) -> Result<Bytes, NoMemory> {
    let mut out = Bytes::new(alloc);
    for byte in template.as_bytes() {
        if *byte == b'%' {
            print_number(n, &mut out)?;
        } else {
            out.push(*byte)?;
        }
    }
    Ok(out)
}

/// Whether the event of a template with a number happens.
fn happens(play: &mut Game, template: &str, n: u64) -> bool {
    match filled(play.alloc, template, n) {
        Ok(line) => answers(play, line.as_slice(), Ok(())),
        Err(NoMemory) => false,
    }
}

/// Whether these events happen, one time after the other, with each of these numbers.
fn repeats(play: &mut Game, from: u64, to: u64, templates: &[&str]) -> bool {
    for n in from..to {
        for template in templates {
            if !happens(play, template, n) {
                return false;
            }
        }
    }
    true
}

/// Whether the network ends at this limit, with the lines that come of the event before, and is ended then.
fn ends(play: &mut Game, line: &str, which: WorldLimit, want: &[&str]) -> bool {
    let limit = Err(WorldFault::Limit { which });
    let is_first = answers(play, line.as_bytes(), limit) && came(play, want);
    let is_again = answers(play, b"start akka://Z@h9:25520 99", limit) && came(play, &[]);
    is_first && is_again
}

#[test]
fn sixty_four_nodes_live(rt: HostRuntime) -> Result<(), Fail> {
    let mut play = begins(rt.alloc());
    assert!(rt; repeats(&mut play, 1, 65, &["start akka://N@h%:1 %"]));
    assert!(rt; came(&play, &["akka://N@h64:1#64 started"]));
    assert!(rt; happens(&mut play, "stop %", 7));
    assert!(rt; happens(&mut play, "start akka://N@h%:1 65", 7));
    assert!(rt; ends(&mut play, "start akka://N@h66:1 66", WorldLimit::Nodes, &[]));
    Ok(())
}

/// Two nodes have started, and one dials the other.
fn dials(play: &mut Game) -> bool {
    happens(play, "start akka://A@h1:25520 1", 0)
        && happens(play, "start akka://B@h2:25520 2", 0)
        && happens(play, "at 1 pair akka://B@h2:25520", 0)
}

/// Whether the connections at the limit are counted, and no further one is.
fn last_are_counted(play: &Game) -> bool {
    counts(play, 0, Some((1, 1, 88, 0)))
        && counts(play, 99_999, Some((1, 100_000, 90, 0)))
        && counts(play, 100_000, None)
}

#[test]
fn a_hundred_thousand_connections_are_made(rt: HostRuntime) -> Result<(), Fail> {
    let mut play = begins(rt.alloc());
    let round = ["answer 1 %", "end 1 %", "cut 1 %", "tick 1 %000"];
    assert!(rt; dials(&mut play));
    assert!(rt; repeats(&mut play, 1, 100_001, &round));
    assert!(rt; last_are_counted(&play));
    assert!(rt; ends(&mut play, "answer 1 100001", WorldLimit::Connections, &[]));
    assert!(rt; last_are_counted(&play));
    Ok(())
}

/// A message from A to B with so many zero bytes.
fn message(alloc: Global, len: u64) -> Result<Bytes, NoMemory> {
    let mut line = Bytes::from_slice(alloc, b"at 1 send akka://B@h2:25520 5 x ")?;
    for _ in 0..len {
        line.extend_from_slice(b"00")?;
    }
    Ok(line)
}

/// Whether a message of so many bytes is sent, so many times.
fn sends(play: &mut Game, len: u64, times: u64) -> bool {
    let Ok(line) = message(play.alloc, len) else {
        return false;
    };
    let mut right = true;
    for _ in 0..times {
        right &= answers(play, line.as_slice(), Ok(()));
    }
    right
}

/// Two nodes have met, and nothing is on its way.
fn meet(play: &mut Game) -> bool {
    dials(play) && happens(play, "pass 9", 0)
}

#[test]
fn undelivered_bytes_have_a_limit(rt: HostRuntime) -> Result<(), Fail> {
    let mut play = begins(rt.alloc());
    assert!(rt; meet(&mut play));
    assert!(rt; sends(&mut play, 131_072, 20));
    assert!(rt; repeats(&mut play, 1, 102, &["tick 1 %000"]));
    assert!(rt; sends(&mut play, 131_072, 6));
    assert!(rt; sends(&mut play, 112_713, 1));
    assert!(rt; counts(&play, 0, Some((1, 1, 268_435_676, 220))));
    let sent = ["akka://A@h1:25520#1 sent akka://B@h2:25520#2 28 5 x -"];
    assert!(rt;
        ends(
            &mut play,
            "at 1 send akka://B@h2:25520 5 x -",
            WorldLimit::Undelivered,
            &sent
        )
    );
    assert!(rt; counts(&play, 0, Some((1, 1, 268_435_676, 220))));
    Ok(())
}
