use super::*;
use artery_base::Bytes;
use artery_script::{Event, Script, print_event};
use std::alloc::Global;
use std::test::*;

/// Whether the event is told by this text.
fn is_told(alloc: Global, event: &Event, text: &[u8]) -> bool {
    let mut out = Bytes::new(alloc);
    print_event(event, &mut out).is_ok() && out.as_slice() == text
}

/// Whether the script has this text on the line with this number.
fn tells(alloc: Global, script: &Script, line: u64, text: &[u8]) -> bool {
    let mut told = false;
    for item in script.as_slice() {
        if item.line == line {
            told = is_told(alloc, &item.event, text);
        }
    }
    told
}

#[test]
fn the_first_script_has_one_step(rt: HostRuntime) -> Result<(), Fail> {
    let script = generate(rt.alloc(), 1)?;
    assert!(rt; script.len() == 19);
    assert!(rt; tells(rt.alloc(), &script, 1, b"start akka://A@h1:25520 1"));
    assert!(rt; tells(rt.alloc(), &script, 6, b"at 3 spawn /user/x"));
    assert!(rt;
        tells(
            rt.alloc(),
            &script,
            7,
            b"at 3 watch /user/w akka://A@h1:25520/user/x"
        )
    );
    assert!(rt; tells(rt.alloc(), &script, 8, b"tick 1 2000"));
    assert!(rt; tells(rt.alloc(), &script, 19, b"pass 9"));
    Ok(())
}

#[test]
fn a_place_starts_again(rt: HostRuntime) -> Result<(), Fail> {
    let script = generate(rt.alloc(), 7)?;
    assert!(rt;
        tells(
            rt.alloc(),
            &script,
            7,
            b"at 2 send akka://A@h1:25520 5 x 00000001"
        )
    );
    assert!(rt; tells(rt.alloc(), &script, 13, b"stop 1"));
    assert!(rt; tells(rt.alloc(), &script, 17, b"cut 3 all"));
    assert!(rt; tells(rt.alloc(), &script, 19, b"start akka://A@h1:25520 10"));
    assert!(rt; tells(rt.alloc(), &script, 20, b"at 10 spawn /user/x"));
    assert!(rt; tells(rt.alloc(), &script, 29, b"tick 10 10000"));
    Ok(())
}

#[test]
fn the_last_script_ends_in_time(rt: HostRuntime) -> Result<(), Fail> {
    let script = generate(rt.alloc(), 10_000)?;
    assert!(rt; script.len() == 14_015);
    assert!(rt; tells(rt.alloc(), &script, 13_965, b"stop 9873"));
    assert!(rt; tells(rt.alloc(), &script, 14_014, b"tick 9978 10003000"));
    Ok(())
}
