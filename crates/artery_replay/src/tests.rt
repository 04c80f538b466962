use crate::{
    Form, Tally, print_counts, print_front, print_outcomes, print_tally, stop_status, stop_text,
};
use artery_base::{Address, Bytes, NoMemory, UniqueAddress};
use artery_connections::Counts;
use artery_journal::Line;
use artery_machine::{Outcome, Why, WorldFault, WorldLimit};
use artery_text::text_of;
use std::alloc::Global;
use std::test::Fail;

fn origin(alloc: Global) -> Option<UniqueAddress> {
    let address = Address {
        protocol: text_of(alloc, b"akka").ok()?,
        system: text_of(alloc, b"A").ok()?,
        host: text_of(alloc, b"h1").ok()?,
        port: 1,
    };
    Some(UniqueAddress { address, uid: 7 })
}

/// A line at 5 milliseconds, and a write of two bytes.
fn outcomes(alloc: Global) -> Option<Vec<Outcome>> {
    let of = origin(alloc)?;
    let bytes = Bytes::from_slice(alloc, &[1, 255]).ok()?;
    let mut all = Vec::new(alloc);
    all.push(Outcome::Line {
        moment: 5,
        line: Line::Started { of },
    })
    .ok()?;
    all.push(Outcome::Wrote {
        uid: 7,
        dial: 3,
        bytes,
    })
    .ok()?;
    Some(all)
}

/// Whether a run is told so in a form.
fn tells(alloc: Global, form: Form, told: &[u8]) -> bool {
    let Some(all) = outcomes(alloc) else {
        return false;
    };
    let mut text = Bytes::new(alloc);
    if print_front(form, &mut text).is_err() {
        return false;
    }
    if print_outcomes(form, all.as_slice(), &mut text).is_err() {
        return false;
    }
    text.as_slice() == told
}

/// Whether a line and a write are counted as one line, behind one line more.
fn counts(alloc: Global) -> bool {
    let Some(all) = outcomes(alloc) else {
        return false;
    };
    let tally = Tally::new()
        .counts_all(all.as_slice())
        .counts_all(all.as_slice());
    let mut text = Bytes::new(alloc);
    if print_tally(&tally, &mut text).is_err() {
        return false;
    }
    text.as_slice()
        == b"lines 2\nsent 0\ntook 0\ntold 0\ngot 0\nclosed 0\nterminated 0\n".as_slice()
}

/// Whether a connection is told so.
fn tells_counts(alloc: Global, counts: Counts, told: &[u8]) -> bool {
    let mut text = Bytes::new(alloc);
    print_counts(&counts, &mut text).is_ok() && text.as_slice() == told
}

/// Whether a run that stopped is told so.
fn stops(alloc: Global, line: u64, fault: WorldFault, told: &[u8], status: u8) -> bool {
    match stop_text(alloc, line, fault) {
        Ok(text) => text.as_slice() == told && stop_status(fault) == status,
        Err(NoMemory) => false,
    }
}

#[test]
fn each_form_tells_what_it_tells(rt: HostRuntime) -> Result<(), Fail> {
    let alloc = rt.alloc();
    assert!(rt; tells(alloc, Form::Plain, b"akka://A@h1:1#7 started\n"));
    assert!(rt;
        tells(
            alloc,
            Form::Bytes,
            b"akka://A@h1:1#7 started\nwrite 7 3 01ff\n"
        )
    );
    assert!(rt;
        tells(
            alloc,
            Form::Stamped,
            b"journal 2\n5 akka://A@h1:1#7 started\n"
        )
    );
    Ok(())
}

#[test]
fn counts_are_told(rt: HostRuntime) -> Result<(), Fail> {
    let alloc = rt.alloc();
    let all = Counts {
        uid: 7,
        dial: 3,
        written: 18_446_744_073_709_551_615,
        delivered: 0,
    };
    assert!(rt; counts(alloc));
    assert!(rt; tells_counts(alloc, all, b"bytes 7 3 18446744073709551615 0\n"));
    Ok(())
}

#[test]
fn a_run_that_stopped_tells_where(rt: HostRuntime) -> Result<(), Fail> {
    let alloc = rt.alloc();
    let back = WorldFault::NotAllowed {
        why: Why::MomentBack,
    };
    let full = WorldFault::Limit {
        which: WorldLimit::Undelivered,
    };
    assert!(rt;
        stops(
            alloc,
            12,
            back,
            b"fault line 12 not-allowed moment-back\n",
            5
        )
    );
    assert!(rt; stops(alloc, 1, full, b"fault line 1 limit undelivered\n", 6));
    Ok(())
}
