ghost use Rattle.std.specs.Prelude.{◌≡◌};
ghost use Rattle.artery_generator.specs.Places.{uid_at};
ghost use Rattle.artery_generator.specs.Turns.{next_drawn, turn_of, restarts, successor, live_after};

use crate::live::Live;
use crate::place::Place;

const MULTIPLIER: u64 = 1_103_515_245;

const INCREMENT: u64 = 12_345;

const MODULUS: u64 = 1 << 31;
// What is decided stands in the bits of a drawn number from this one on.
const LOWEST: u32 = 65_536;
// At each step whose number this divides, a place may start again.
const RESTART_EVERY: u32 = 7;
// The UID of a successor is more than its step's number by this, so that it is none of the first three.
const SUCCESSOR: u64 = 3;

/// One step of a script.
#[derive(Clone, Copy, Debug, PartialEq, Eq)]
pub struct Turn {
    /// The number of the step, counted from 1.
    pub number: u32,
    /// The place that does something.
    pub from: Place,
    /// Another place, to which it is done.
    pub to: Place,
    /// What is done, 0 to 9.
    pub deed: u32,
    /// The UIDs that live before it.
    pub live: Live,
}

/// The number drawn after this one.
pub(crate) fn next_drawn(drawn: u32) -> u32
    ensures { result ≡ next_drawn drawn }
{
    ((u64::from(drawn) * MULTIPLIER + INCREMENT) % MODULUS) as u32
}

impl Turn {
    /// The step with this number that is drawn so.
    pub(crate) fn drawn(number: u32, drawn: u32, live: Live) -> Turn
        ensures { result ≡ turn_of number drawn live }
    {
        let high = drawn / LOWEST;
        let from = high % 3;
        let to = (from + 1 + (high / 3) % 2) % 3;
        Turn {
            number,
            from: Place::numbered(from),
            to: Place::numbered(to),
            deed: (high / 6) % 10,
            live,
        }
    }

    /// Whether its place stops and starts again.
    pub(crate) fn restarts(&self) -> bool
        ensures { result ≡ restarts self.now }
    {
        self.deed == 9 && self.number % RESTART_EVERY == 0
    }

    /// The UID of the incarnation that acts.
    pub(crate) fn uid(&self) -> u64
        ensures { result ≡ uid_at self.now.from self.now.live }
    {
        self.live.at(self.from)
    }

    /// The UID of its successor.
    pub(crate) fn successor(&self) -> u64
        ensures { result ≡ successor self.now }
    {
        u64::from(self.number) + SUCCESSOR
    }

    /// The UIDs that live after it.
    pub(crate) fn live_after(&self) -> Live
        ensures { result ≡ live_after self.now }
    {
        let mut live = self.live;
        if self.restarts() {
            live.set(self.from, self.successor());
        }
        live
    }
}
