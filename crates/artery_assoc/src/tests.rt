use crate::{Close, Learn, Peer};
use artery_base::{Address, NoMemory, Text};
use std::alloc::Global;
use std::test::*;

fn peer(alloc: Global) -> Result<Peer, NoMemory> {
    let address = Address {
        protocol: Text::from_ascii(alloc, b"akka")?,
        system: Text::from_ascii(alloc, b"A")?,
        host: Text::from_ascii(alloc, b"h1")?,
        port: 25_520,
    };
    Ok(Peer::new(alloc, address)?)
}

// The calls with no contract of their own, so that a test's proof does not follow what is known.

fn learn(peer: &mut Peer, uid: u64) -> Learn {
    peer.learn(uid)
}

fn close(peer: &mut Peer, uid: u64) -> Close {
    peer.close(uid)
}

#[test]
fn closes_the_former(rt: HostRuntime) -> Result<(), Fail> {
    let mut peer = peer(rt.alloc())?;
    assert_eq!(rt; peer.address().port, 25_520);
    for (uid, want) in [
        (5, Learn::Learnt { former: None }),
        (5, Learn::Same),
        (6, Learn::Learnt { former: Some(5) }),
        (5, Learn::WasClosed),
    ] {
        assert_eq!(rt; learn(&mut peer, uid), want);
    }
    for (uid, want) in [
        (5, Close::AlreadyClosed),
        (7, Close::NotCurrent),
        (6, Close::Closed),
        (6, Close::AlreadyClosed),
    ] {
        assert_eq!(rt; close(&mut peer, uid), want);
    }
    assert_eq!(rt; peer.current(), None);
    assert!(rt; peer.is_closed(6) && !peer.is_closed(7));
    assert_eq!(rt; learn(&mut peer, 7), Learn::Learnt { former: None });
    Ok(())
}

#[test]
fn knows_1_024_uids(rt: HostRuntime) -> Result<(), Fail> {
    let mut peer = peer(rt.alloc())?;
    for uid in 0..1_024 {
        let former = if uid == 0 { None } else { Some(uid - 1) };
        assert_eq!(rt; learn(&mut peer, uid), Learn::Learnt { former });
    }
    assert_eq!(rt; learn(&mut peer, 1_024), Learn::ClosedFull);
    assert_eq!(rt; learn(&mut peer, 0), Learn::WasClosed);
    assert_eq!(rt; learn(&mut peer, 1_023), Learn::Same);
    assert_eq!(rt; close(&mut peer, 1_023), Close::Closed);
    assert_eq!(rt; learn(&mut peer, 1_024), Learn::ClosedFull);
    Ok(())
}
