use crate::{Connections, Counts};
use artery_base::NoMemory;
use std::alloc::Global;
use std::test::*;

// The calls with no contract of their own, so that a test's proof does not follow what is known.

fn push(all: &mut Connections, ends: (u64, u64, u64, u64)) -> Result<(), NoMemory> {
    let (dialer, dial, far, number) = ends;
    all.push(dialer, dial, far, number)
}

fn writes(all: &mut Connections, place: usize, bytes: &[u8]) -> bool {
    all.write(place, bytes).is_ok()
}

fn takes(all: &mut Connections, alloc: Global, place: usize, count: usize, bytes: &[u8]) -> bool {
    match all.take(alloc, place, count) {
        Ok(taken) => taken.as_slice() == bytes,
        Err(NoMemory) => false,
    }
}

fn ends_near(all: &mut Connections, place: usize) -> bool {
    all.end_near(place);
    match all.get(place) {
        Some(connection) => !connection.near_open(),
        None => false,
    }
}

fn ends_far(all: &mut Connections, place: usize) -> bool {
    all.end_far(place);
    match all.get(place) {
        Some(connection) => !connection.far_open() && connection.load() == 0,
        None => false,
    }
}

fn stops(all: &mut Connections, uid: u64) -> bool {
    all.end_all_with(uid);
    true
}

fn has_len(all: &Connections, len: usize) -> bool {
    all.len() == len
}

/// Whether so many bytes are on their way on all.
fn carries(all: &Connections, undelivered: u64) -> bool {
    all.undelivered() == undelivered
}

/// Whether so many bytes were written and delivered at a place.
fn counted(all: &Connections, place: usize, written: u64, delivered: u64) -> bool {
    match all.counts(place) {
        Some(counts) => counts.written == written && counts.delivered == delivered,
        None => false,
    }
}

fn next_loaded(all: &Connections, from: usize, at: Option<usize>) -> bool {
    all.next_loaded(from) == at
}

fn next_near(all: &Connections, from: usize, at: Option<usize>) -> bool {
    all.next_near(from) == at
}

fn next_far(all: &Connections, from: usize, at: Option<usize>) -> bool {
    all.next_far(from) == at
}

fn dialed(all: &Connections, uid: u64, dial: u64, at: Option<usize>) -> bool {
    all.place_dialed(uid, dial) == at
}

fn inward(all: &Connections, uid: u64, number: u64, at: Option<usize>) -> bool {
    all.place_inward(uid, number) == at
}

/// Whether the connection at a place has these ends, and is told with its dialer and dial number.
fn is_of(all: &Connections, place: usize, ends: (u64, u64, u64, u64)) -> bool {
    let Some(c) = all.get(place) else {
        return false;
    };
    let Some(Counts { uid, dial, .. }) = all.counts(place) else {
        return false;
    };
    uid == c.dialer() && dial == c.dial() && (uid, dial, c.far(), c.number()) == ends
}

/// Two from 1 to 2, and one from 2 to 1; the last has the ends of the first.
fn four(alloc: Global) -> Result<Connections, NoMemory> {
    let mut all = Connections::new(alloc);
    for ends in [(1, 1, 2, 1), (1, 2, 2, 2), (2, 1, 1, 1), (1, 1, 2, 1)] {
        push(&mut all, ends)?;
    }
    Ok(all)
}

#[test]
fn bytes_are_taken_in_parts(rt: HostRuntime) -> Result<(), Fail> {
    let alloc = rt.alloc();
    let mut all = four(alloc)?;
    assert!(rt; writes(&mut all, 1, b"abcdefgh"));
    assert!(rt; writes(&mut all, 2, b"xyz"));
    assert!(rt; writes(&mut all, 7, b"nowhere"));
    assert!(rt; carries(&all, 11));
    assert!(rt; takes(&mut all, alloc, 2, 9, b"xyz"));
    assert!(rt; takes(&mut all, alloc, 2, 9, b""));
    assert!(rt; takes(&mut all, alloc, 1, 2, b"ab"));
    assert!(rt; takes(&mut all, alloc, 1, 0, b""));
    assert!(rt; takes(&mut all, alloc, 1, 3, b"cde"));
    assert!(rt; takes(&mut all, alloc, 7, 1, b""));
    assert!(rt; carries(&all, 3));
    assert!(rt; writes(&mut all, 1, b"ijk"));
    assert!(rt; counted(&all, 1, 11, 5));
    assert!(rt; takes(&mut all, alloc, 1, 100, b"fghijk"));
    assert!(rt; takes(&mut all, alloc, 1, 100, b""));
    assert!(rt; counted(&all, 1, 11, 11));
    assert!(rt; carries(&all, 0));
    Ok(())
}

/// Whether the next places, from one on, are these: with bytes on their way, with an open near side, and with an open far side.
fn next(all: &Connections, from: usize, at: (Option<usize>, Option<usize>, Option<usize>)) -> bool {
    let (loaded, near, far) = at;
    next_loaded(all, from, loaded) && next_near(all, from, near) && next_far(all, from, far)
}

/// Whether the four are found by their ends.
fn finds_four(all: &Connections) -> bool {
    let by_dial = dialed(all, 1, 1, Some(0))
        && dialed(all, 1, 2, Some(1))
        && dialed(all, 2, 1, Some(2))
        && dialed(all, 2, 2, None);
    let by_number = inward(all, 2, 1, Some(0))
        && inward(all, 2, 2, Some(1))
        && inward(all, 1, 1, Some(2))
        && inward(all, 1, 2, None);
    by_dial && by_number
}

#[test]
fn ends_and_what_is_lost(rt: HostRuntime) -> Result<(), Fail> {
    let mut all = four(rt.alloc())?;
    assert!(rt; has_len(&all, 4));
    assert!(rt; is_of(&all, 1, (1, 2, 2, 2)));
    assert!(rt; finds_four(&all));
    assert!(rt; next(&all, 0, (None, Some(0), Some(0))));
    for place in 0..4 {
        assert!(rt; writes(&mut all, place, b"12345"));
    }
    assert!(rt; ends_near(&mut all, 0));
    assert!(rt; ends_far(&mut all, 1));
    assert!(rt; !ends_far(&mut all, 4));
    assert!(rt; carries(&all, 15));
    assert!(rt; writes(&mut all, 0, b"678"));
    assert!(rt; writes(&mut all, 1, b"678"));
    assert!(rt; counted(&all, 0, 8, 0) && counted(&all, 1, 8, 0));
    assert!(rt; carries(&all, 18));
    assert!(rt; next(&all, 0, (Some(0), Some(1), Some(0))));
    assert!(rt; next(&all, 1, (Some(2), Some(1), Some(2))));
    assert!(rt; stops(&mut all, 2));
    assert!(rt; carries(&all, 5));
    assert!(rt; next(&all, 0, (Some(2), Some(1), Some(2))));
    assert!(rt; next(&all, 2, (Some(2), Some(3), Some(2))));
    assert!(rt; next(&all, 3, (None, Some(3), None)));
    assert!(rt; stops(&mut all, 1));
    assert!(rt; next(&all, 0, (None, None, None)));
    assert!(rt; carries(&all, 0));
    Ok(())
}

/// So many connections from 1, each to an incarnation of its own.
fn many(alloc: Global, count: u64) -> Result<Connections, NoMemory> {
    let mut all = Connections::new(alloc);
    for dial in 0..count {
        push(&mut all, (1, dial, dial, 1))?;
    }
    Ok(all)
}

/// Whether the connection with a dial number of 1 stands at that place and is found from both its ends.
fn stands(all: &Connections, dial: u64) -> bool {
    dialed(all, 1, dial, Some(dial as usize)) && inward(all, dial, 1, Some(dial as usize))
}

/// Writes to each tenth.
fn writes_to_tenths(all: &mut Connections) -> bool {
    let mut right = true;
    for place in 0..all.len() {
        if place % 10 == 0 {
            right &= writes(all, place, b"abc");
        }
    }
    right
}

/// How many are found to be loaded, one after the other.
fn count_loaded(all: &Connections) -> usize {
    let mut found = 0_usize;
    let mut from = 0_usize;
    for _ in 0..all.len() {
        let Some(place) = all.next_loaded(from) else {
            return found;
        };
        found = found.saturating_add(1);
        from = place.saturating_add(1);
    }
    found
}

fn loaded_ones(all: &Connections, count: usize) -> bool {
    count_loaded(all) == count
}

#[test]
fn a_thousand_are_found(rt: HostRuntime) -> Result<(), Fail> {
    let mut all = many(rt.alloc(), 1_000)?;
    for dial in [0, 1, 499, 998, 999] {
        assert!(rt; stands(&all, dial));
    }
    assert!(rt; !stands(&all, 1_000));
    assert!(rt; writes_to_tenths(&mut all));
    assert!(rt; loaded_ones(&all, 100));
    assert!(rt; carries(&all, 300));
    assert!(rt; next_loaded(&all, 11, Some(20)));
    assert!(rt; stops(&mut all, 20));
    assert!(rt; next(&all, 20, (Some(30), Some(20), Some(21))));
    assert!(rt; stops(&mut all, 1));
    assert!(rt; next(&all, 0, (Some(0), None, Some(0))));
    assert!(rt; carries(&all, 297));
    Ok(())
}
