use crate::{Accept, Acked, Inbound, Opened, Outbound, Take};
use artery_base::{Address, Bytes, NoMemory, SysMsg, Text, UniqueAddress};
use std::alloc::Global;
use std::test::*;

/// A message that is told from others by its serializer.
fn message(alloc: Global, serializer: i32) -> Result<SysMsg, NoMemory> {
    Ok(SysMsg {
        serializer,
        manifest: Bytes::new(alloc),
        payload: Bytes::from_slice(alloc, &[1, 2])?,
    })
}

fn origin(alloc: Global, uid: u64) -> Result<UniqueAddress, NoMemory> {
    let address = Address {
        protocol: Text::from_ascii(alloc, b"akka")?,
        system: Text::from_ascii(alloc, b"A")?,
        host: Text::from_ascii(alloc, b"h1")?,
        port: 25_520,
    };
    Ok(UniqueAddress { address, uid })
}

// The calls with no contract of their own, so that a test's proof does not follow what is kept.

/// Offers messages with the serializers from `first` to `last`, and answers the last answer.
fn accept(
    alloc: Global,
    outbound: &mut Outbound,
    first: i32,
    last: i32,
) -> Result<Accept, NoMemory> {
    let mut answer = Accept::Waiting { place: 0 };
    for serializer in first..=last {
        outbound.reserve(alloc)?;
        answer = outbound.accept(message(alloc, serializer)?);
    }
    Ok(answer)
}

/// An outbound with a UID and messages with the serializers from 1 to `last`.
fn with_messages(alloc: Global, last: i32) -> Result<Outbound, NoMemory> {
    let mut outbound = Outbound::new();
    let _none = outbound.learn();
    let _last = accept(alloc, &mut outbound, 1, last)?;
    Ok(outbound)
}

fn ack(outbound: &mut Outbound, n: u64) -> Acked {
    outbound.ack(n)
}

fn nack(outbound: &mut Outbound, n: u64) -> Acked {
    outbound.nack(n)
}

/// The number and the serializer of the next message.
fn pump(outbound: &mut Outbound) -> Option<(u64, i32)> {
    let (n, message) = outbound.pump()?;
    Some((n, message.serializer))
}

/// Pumps until there is none, and answers how many there were and the last number.
fn pump_all(outbound: &mut Outbound) -> (u64, u64) {
    let mut last = (0, 0);
    for count in 1..30_000 {
        let Some((n, _serializer)) = pump(outbound) else {
            return last;
        };
        last = (count, n);
    }
    last
}

/// The serializer of the message at a place.
fn at(outbound: &Outbound, place: u64) -> Option<i32> {
    match outbound.message(place) {
        Some(message) => Some(message.serializer),
        None => None,
    }
}

#[test]
fn overflows_beside_20_000(rt: HostRuntime) -> Result<(), Fail> {
    let mut outbound = with_messages(rt.alloc(), 20_000)?;
    let back = accept(rt.alloc(), &mut outbound, 7, 7)?;
    assert_eq!(rt; back, Accept::Overflow(message(rt.alloc(), 7)?));
    assert_eq!(rt; at(&outbound, 20_000), Some(20_000));
    assert_eq!(rt; ack(&mut outbound, 3), Acked::Cleared { count: 3 });
    let next = accept(rt.alloc(), &mut outbound, 7, 7)?;
    assert_eq!(rt; next, Accept::Accepted { n: 20_001 });
    Ok(())
}

#[test]
fn waits_for_a_uid(rt: HostRuntime) -> Result<(), Fail> {
    let mut outbound = Outbound::new();
    let second = accept(rt.alloc(), &mut outbound, 1, 2)?;
    assert_eq!(rt; second, Accept::Waiting { place: 2 });
    assert_eq!(rt; pump(&mut outbound), None);
    assert_eq!(rt; ack(&mut outbound, 1), Acked::Past);
    assert_eq!(rt; at(&outbound, 0), None);
    assert_eq!(rt; at(&outbound, 1), Some(1));
    assert_eq!(rt; at(&outbound, 3), None);
    Ok(())
}

#[test]
fn learns_and_forgets(rt: HostRuntime) -> Result<(), Fail> {
    let mut outbound = Outbound::new();
    outbound.reserve(rt.alloc())?;
    let _first = outbound.accept(message(rt.alloc(), 1)?);
    assert_eq!(rt; outbound.learn(), 1);
    outbound.forget();
    assert_eq!(rt; outbound.learn(), 0);
    Ok(())
}

#[test]
fn keeps_to_the_window(rt: HostRuntime) -> Result<(), Fail> {
    let mut outbound = with_messages(rt.alloc(), 2_000)?;
    assert_eq!(rt; pump_all(&mut outbound), (1_024, 1_024));
    assert_eq!(rt; ack(&mut outbound, 500), Acked::Cleared { count: 500 });
    assert_eq!(rt; pump_all(&mut outbound), (500, 1_524));
    assert_eq!(rt; ack(&mut outbound, 500), Acked::Cleared { count: 0 });
    assert_eq!(rt; ack(&mut outbound, 2_001), Acked::Past);
    assert_eq!(rt; pump_all(&mut outbound), (0, 0));
    assert_eq!(rt; outbound.kept(), 1_500);
    Ok(())
}

#[test]
fn writes_again_after_a_nack(rt: HostRuntime) -> Result<(), Fail> {
    let mut outbound = with_messages(rt.alloc(), 5)?;
    assert_eq!(rt; pump_all(&mut outbound), (5, 5));
    assert_eq!(rt; nack(&mut outbound, 2), Acked::Cleared { count: 2 });
    assert_eq!(rt; pump(&mut outbound), Some((3, 3)));
    assert_eq!(rt; nack(&mut outbound, 6), Acked::Past);
    assert_eq!(rt; pump(&mut outbound), Some((4, 4)));
    outbound.rewind();
    assert_eq!(rt; pump_all(&mut outbound), (3, 5));
    // an acknowledgement of what is not written counts it as written
    outbound.rewind();
    assert_eq!(rt; ack(&mut outbound, 4), Acked::Cleared { count: 2 });
    assert_eq!(rt; pump(&mut outbound), Some((5, 5)));
    Ok(())
}

#[test]
fn knows_1_024_origins(rt: HostRuntime) -> Result<(), Fail> {
    let mut inbound = Inbound::new();
    for uid in 0..1_025 {
        let want = if uid < 1_024 {
            Opened::Opened
        } else {
            Opened::OriginsFull
        };
        assert_eq!(rt;
            inbound.open_origin(rt.alloc(), &origin(rt.alloc(), uid)?)?,
            want
        );
    }
    assert_eq!(rt;
        inbound.open_origin(rt.alloc(), &origin(rt.alloc(), 9)?)?,
        Opened::Known
    );
    Ok(())
}

#[test]
fn takes_each_number_once(rt: HostRuntime) -> Result<(), Fail> {
    let mut inbound = Inbound::new();
    let from = origin(rt.alloc(), 1)?;
    let other = origin(rt.alloc(), 2)?;
    for (n, want) in [
        (1, Take::Taken),
        (1, Take::Again { last: 1 }),
        (3, Take::Gap { last: 1 }),
        (2, Take::Taken),
        (0, Take::Again { last: 2 }),
        (u64::MAX, Take::Gap { last: 2 }),
        (3, Take::Taken),
    ] {
        match inbound.open_origin(rt.alloc(), &from)? {
            Opened::OriginsFull => return Err(Fail::new("full")),
            Opened::Opened | Opened::Known => assert_eq!(rt; inbound.take(&from, n), want),
        }
    }
    match inbound.open_origin(rt.alloc(), &other)? {
        Opened::OriginsFull => return Err(Fail::new("full")),
        Opened::Opened | Opened::Known => {
            assert_eq!(rt; inbound.take(&other, 1), Take::Taken);
        }
    }
    Ok(())
}
