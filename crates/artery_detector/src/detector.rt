//! When a peer was first asked, and when it was last heard of.
ghost use Rattle.std.specs.Prelude.{◌≡◌, ◌+◌, ◌<◌, ◌↔◌, IsTrue, List, [], ◌∷◌, ◌++◌, nat_le, MatchOption};
ghost use Rattle.artery_detector.specs.Availability.{Beat, ask, heartbeat, is_available};
ghost use Rattle.artery_detector.specs.Kept.{nothing_kept, kept_asked, kept_heard, kept_available, Stands};

use std::marker::Model;

/// From so many milliseconds after the first ask on, an ask counts as a heartbeat where none was seen.
const COUNTS_AFTER_MS: u64 = 1_000;

/// For so many milliseconds from a heartbeat on a peer is available.
const AVAILABLE_FOR_MS: u64 = 11_000;

/// Whether a moment is at least so many milliseconds after an earlier one.
fn is_past(earlier: u64, span: u64, now: u64) -> bool
    ensures { result ≡ nat_le (earlier + span) now }
{
    now >= earlier && now - earlier >= span
}

/// What is known of the heartbeats of one peer. Moments are in milliseconds.
///
/// A contract sees the moment of the first ask and that of the last heartbeat, which stand for the whole list of asks and heartbeats.
#[derive(Clone, Copy, Debug)]
pub struct Detector {
    first_ask: Option<u64>,
    last_heartbeat: Option<u64>,
}

impl Model for Detector {
    ghost use Rattle.artery_detector.specs.Kept.{Kept};

    ghost Value = { Kept };

    ghost view = { λ d. record { first_ask = d.first_ask; last_heartbeat = d.last_heartbeat } };

    ghost inverse = { λ k. record { first_ask = k.first_ask; last_heartbeat = k.last_heartbeat } };
}

impl Detector {
    /// No ask and no heartbeat.
    pub fn new() -> Detector
        ensures kept { result ≡ nothing_kept }
        ensures history { Stands result [] }
    {
        Detector {
            first_ask: None,
            last_heartbeat: None,
        }
    }

    /// Notes an ask. The first one gives its moment; a later one counts as a heartbeat where none was seen and it comes 1,000 ms or more
    /// after the first.
    pub fn ask(&mut self, now: u64)
        ensures kept { self.new ≡ kept_asked now self.old }
        ensures history { (beats : List Beat) → Stands self.old beats → Stands self.new (beats ++ ask now ∷ []) }
    {
        match self.first_ask {
            None => self.first_ask = Some(now),
            Some(first) => {
                if self.last_heartbeat.is_none() && is_past(first, COUNTS_AFTER_MS, now) {
                    self.heartbeat(now);
                }
            }
        }
    }

    /// Notes a heartbeat of the peer.
    pub fn heartbeat(&mut self, now: u64)
        ensures kept { self.new ≡ kept_heard now self.old }
        ensures history { (beats : List Beat) → Stands self.old beats → Stands self.new (beats ++ heartbeat now ∷ []) }
    {
        self.last_heartbeat = Some(now);
    }

    /// Whether the peer is available: true exactly where no heartbeat was seen, or where the last one plus 11,000 ms is after this moment.
    pub fn is_available(&self, now: u64) -> bool
        ensures answer { result ≡ kept_available now self.now }
        ensures exact { MatchOption self.now.last_heartbeat (IsTrue result) (λ last. IsTrue result ↔ (now < last + 11000)) }
        ensures history { (beats : List Beat) → Stands self.now beats → result ≡ is_available now beats }
    {
        match self.last_heartbeat {
            None => true,
            Some(last) => !is_past(last, AVAILABLE_FOR_MS, now),
        }
    }

    /// Forgets every ask and every heartbeat: the detector is as new.
    pub fn remove(&mut self)
        ensures kept { self.new ≡ nothing_kept }
        ensures history { Stands self.new [] }
    {
        *self = Detector::new();
    }
}
