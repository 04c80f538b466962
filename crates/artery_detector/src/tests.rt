use crate::Detector;
use std::test::*;

// The calls with no contract of their own, so that a test's proof does not follow what is kept.

/// A detector that was asked and heard of at these moments, the asks first.
fn after(asks: &[u64], heartbeats: &[u64]) -> Detector {
    let mut detector = Detector::new();
    for now in asks {
        detector.ask(*now);
    }
    for now in heartbeats {
        detector.heartbeat(*now);
    }
    detector
}

fn is_available(detector: &Detector, now: u64) -> bool {
    detector.is_available(now)
}

fn removed(mut detector: Detector) -> Detector {
    detector.remove();
    detector
}

#[test]
fn available_for_eleven_seconds(rt: HostRuntime) -> Result<(), Fail> {
    let detector = after(&[], &[5_000]);
    assert!(rt; is_available(&detector, 0));
    assert!(rt; is_available(&detector, 5_000));
    assert!(rt; is_available(&detector, 15_999));
    assert!(rt; !is_available(&detector, 16_000));
    assert!(rt; !is_available(&detector, u64::MAX));
    assert!(rt; is_available(&removed(detector), 16_000));
    Ok(())
}

#[test]
fn a_later_ask_counts(rt: HostRuntime) -> Result<(), Fail> {
    // nothing counts before 1,000 ms have gone by, so the peer stays available
    assert!(rt; is_available(&after(&[2_000, 2_500, 2_999], &[]), 1_000_000));
    // the third ask counts, and the fourth does not
    let silent = after(&[2_000, 2_999, 3_000, 4_000], &[]);
    assert!(rt; is_available(&silent, 13_999));
    assert!(rt; !is_available(&silent, 14_000));
    Ok(())
}

#[test]
fn no_ask_counts_after_a_heartbeat(rt: HostRuntime) -> Result<(), Fail> {
    let mut detector = after(&[2_000], &[2_100]);
    detector.ask(3_000);
    detector.ask(9_000);
    assert!(rt; is_available(&detector, 13_099));
    assert!(rt; !is_available(&detector, 13_100));
    Ok(())
}
