//! Nets and a feed in memory, and two nets over the sockets of this machine.
ghost use Rattle.std.specs.Prelude.{IfOk, []};
ghost use Rattle.std.specs.Str.{IsAscii};
ghost use Rattle.artery_net.specs.Feeding.{AreWhole};
ghost use Rattle.artery_net.specs.InMemory.{AreFit};

use super::*;
use artery_base::{Address, Bytes, NoMemory, Numbers, Request, Text};
use std::alloc::Global;
use std::test::Fail;

/// The address of a system at a host and a port.
fn address(alloc: Global, host: &[u8], port: u16) -> Result<Address, NoMemory>
    requires { IsAscii host.now }
{
    let protocol = Text::from_ascii(alloc, b"akka")?;
    let system = Text::from_ascii(alloc, b"A")?;
    let host = Text::from_ascii(alloc, host)?;
    Ok(Address {
        protocol,
        system,
        host,
        port,
    })
}

/// A connection that comes in, a piece on it, and a tick.
fn events(alloc: Global) -> Result<NetEvents, NoMemory>
    ensures { IfOk result (λ es. AreFit 0 es) }
{
    let piece = Bytes::from_slice(alloc, b"hello")?;
    let mut events = NetEvents::new(alloc);
    events.push(NetEvent::Accepted { conn: 1 })?;
    events.push(NetEvent::Bytes { conn: 1, piece })?;
    events.push(NetEvent::Tick { now: 100 })?;
    Ok(events)
}

/// A net that gives these events, and of which the calls with these numbers fail.
fn memory_net(alloc: Global, failing: &[u64]) -> Result<MemNet, NoMemory> {
    let mut numbers = Numbers::new(alloc);
    for number in failing {
        numbers.push(*number)?;
    }
    Ok(MemNet::new(alloc, events(alloc)?, numbers))
}

/// What an answer is, as a number: 9 where it failed, and 0 for `Idle`.
fn kind(answer: &Result<NetEvent, NetFault>) -> u64 {
    match answer {
        Ok(NetEvent::Accepted { .. }) => 1,
        Ok(NetEvent::Bytes { .. }) => 2,
        Ok(NetEvent::Tick { .. }) => 3,
        Ok(NetEvent::Idle) => 0,
        Err(NetFault::Failed) => 9,
        _ => 8,
    }
}

/// What six calls of `next` give, as such numbers.
fn given(alloc: Global, failing: &[u64]) -> Result<[u64; 6], NoMemory> {
    let mut net = memory_net(alloc, failing)?;
    let mut kinds = [7; 6];
    for found in kinds.iter_mut() {
        let answer = net.next(alloc);
        *found = kind(&answer);
    }
    Ok(kinds)
}

#[test]
fn events_come_and_then_nothing(rt: HostRuntime) -> Result<(), Fail> {
    let alloc = rt.alloc();
    assert_eq!(rt; given(alloc, &[]), Ok([1, 2, 3, 0, 0, 0]));
    assert_eq!(rt; given(alloc, &[2, 5]), Ok([1, 9, 2, 3, 9, 0]));
    Ok(())
}

/// Whether a dial, a write that fails and a hang-up are kept as such.
fn acts_are_kept(alloc: Global) -> Result<bool, NoMemory> {
    let mut net = memory_net(alloc, &[3])?;
    let far = address(alloc, b"h2", 25520)?;
    let is_dialed = net.dial(alloc, 1, &far) == Ok(());
    let is_given = net.next(alloc) == Ok(NetEvent::Accepted { conn: 1 });
    let is_failed = net.write(alloc, 1, b"AKKA") == Err(NetFault::Failed);
    net.hang(Conn::Outward(1));
    let mut acts = Acts::new(alloc);
    acts.push(Act::Dial {
        dial: 1,
        address: far,
        failed: false,
    })?;
    acts.push(Act::Write {
        dial: 1,
        bytes: Bytes::from_slice(alloc, b"AKKA")?,
        failed: true,
    })?;
    acts.push(Act::Hang {
        conn: Conn::Outward(1),
    })?;
    let is_kept = match net.acts() {
        Some(kept) => kept.as_slice() == acts.as_slice(),
        None => false,
    };
    Ok(is_dialed && is_given && is_failed && is_kept)
}

#[test]
fn a_net_in_memory_keeps_its_acts(rt: HostRuntime) -> Result<(), Fail> {
    let kept = acts_are_kept(rt.alloc());
    assert!(rt; kept == Ok(true));
    Ok(())
}

fn line(alloc: Global) -> Result<Request, NoMemory> {
    let path = Text::from_ascii(alloc, b"/user/a")?;
    Ok(Request::Spawn { path })
}

/// Two senders, of which the first has one line, and of the second one was skipped.
fn offers(alloc: Global) -> Result<Offers, NoMemory>
    ensures { IfOk result (λ os. AreWhole 2 [] os) }
{
    let request = line(alloc)?;
    let mut offers = Offers::new(alloc);
    offers.push(Offer::Line {
        sender: 0,
        k: 0,
        request,
    })?;
    offers.push(Offer::Finished { sender: 0 })?;
    offers.push(Offer::Skipped {
        sender: 1,
        k: 0,
        seen: 0,
        now: 1,
    })?;
    offers.push(Offer::Finished { sender: 1 })?;
    Ok(offers)
}

/// A feed of these offers.
fn list_feed(alloc: Global) -> Result<ListFeed, NoMemory> {
    let offers = offers(alloc)?;
    Ok(ListFeed::new(offers, 2))
}

/// Whether the next take gives this.
fn gives<F: Feed>(feed: &mut F, want: &Fed) -> bool {
    let fed = feed.take();
    fed == *want
}

/// Whether the next take gives the line.
fn line_comes<F: Feed>(alloc: Global, feed: &mut F) -> Result<bool, NoMemory> {
    let request = line(alloc)?;
    let first = Fed::Item(Offer::Line {
        sender: 0,
        k: 0,
        request,
    });
    let is_first = gives(feed, &first);
    Ok(is_first)
}

/// Whether the offers between the line and the last one come out then.
fn others_come<F: Feed>(feed: &mut F) -> bool {
    let second = Fed::Item(Offer::Finished { sender: 0 });
    let third = Fed::Item(Offer::Skipped {
        sender: 1,
        k: 0,
        seen: 0,
        now: 1,
    });
    let is_second = gives(feed, &second);
    let is_third = gives(feed, &third);
    is_second && is_third
}

/// Whether the last offer comes out then, and the end, again and again.
fn end_comes<F: Feed>(feed: &mut F) -> bool {
    let last = Fed::Item(Offer::Finished { sender: 1 });
    let is_last = gives(feed, &last);
    let is_end = gives(feed, &Fed::Ended);
    let is_end_again = gives(feed, &Fed::Ended);
    is_last && is_end && is_end_again
}

/// Whether all offers come out in order, and then the end.
fn offers_come(alloc: Global) -> Result<bool, NoMemory> {
    let mut feed = list_feed(alloc)?;
    let is_line = line_comes(alloc, &mut feed)?;
    let is_rest = others_come(&mut feed);
    let is_end = end_comes(&mut feed);
    Ok(is_line && is_rest && is_end)
}

#[test]
fn offers_come_and_then_the_end(rt: HostRuntime) -> Result<(), Fail> {
    let come = offers_come(rt.alloc());
    assert!(rt; come == Ok(true));
    Ok(())
}

/// The next event that is no tick, in at most fifty calls.
fn event<N: Net>(alloc: Global, net: &mut N) -> Option<NetEvent> {
    for _ in 0..50 {
        match net.next(alloc) {
            Ok(NetEvent::Tick { .. } | NetEvent::Idle) => {}
            Ok(event) => return Some(event),
            Err(_) => return None,
        }
    }
    None
}

/// Whether bytes that one net writes on a connection to the other come out there, and the end where it is hung up.
fn crosses<N: Net, M: Net>(
    alloc: Global,
    near: &mut N,
    far: &mut M,
    to: &Address,
) -> Result<bool, NoMemory> {
    let is_begun = near.dial(alloc, 1, to) == Ok(());
    let is_written = near.write(alloc, 1, b"AKKA\x01") == Ok(());
    let is_up = event(alloc, near) == Some(NetEvent::Dialed { dial: 1 });
    let is_accepted = event(alloc, far) == Some(NetEvent::Accepted { conn: 1 });
    let more = near.write(alloc, 1, b"hello") == Ok(());
    let mut got = Bytes::new(alloc);
    for _ in 0..20 {
        let _near = near.next(alloc);
        if let Ok(NetEvent::Bytes { conn: 1, piece }) = far.next(alloc) {
            got.extend_from_slice(piece.as_slice())?;
        }
    }
    near.hang(Conn::Outward(1));
    let end = NetEvent::Ended {
        conn: Conn::Inward(1),
    };
    let is_ended = event(alloc, far) == Some(end);
    let is_same = got.as_slice() == b"AKKA\x01hello".as_slice();
    Ok(is_begun && is_written && is_up && is_accepted && more && is_same && is_ended)
}

#[test]
fn bytes_cross_sockets(rt: HostRuntime) -> Result<(), Fail> {
    let alloc = rt.alloc();
    let near = address(alloc, b"127.83.17.1", 25533).ok().ok_or("memory")?;
    let far = address(alloc, b"127.83.17.2", 25534).ok().ok_or("memory")?;
    let mut one = SocketNet::listen(rt, alloc, &near)
        .ok()
        .ok_or("no near end")?;
    let mut two = SocketNet::listen(rt, alloc, &far).ok().ok_or("no far end")?;
    let there = crosses(alloc, &mut one, &mut two, &far);
    assert!(rt; there == Ok(true));
    let back = crosses(alloc, &mut two, &mut one, &near);
    assert!(rt; back == Ok(true));
    Ok(())
}

/// A mebibyte.
fn block(alloc: Global) -> Result<Bytes, NoMemory> {
    Ok(Bytes::from_vec(Vec::from_elem(alloc, 0, 1_048_576)?))
}

/// Whether 16 MiB may be written on a dial that is not up, and not a byte more, which ends it.
fn is_limited<N: Net>(alloc: Global, net: &mut N, to: &Address) -> Result<bool, NoMemory> {
    let block = block(alloc)?;
    let mut is_kept = net.dial(alloc, 2, to) == Ok(());
    for _ in 0..16 {
        is_kept &= net.write(alloc, 2, block.as_slice()) == Ok(());
    }
    let is_full = net.write(alloc, 2, b"x") == Err(NetFault::Failed);
    let is_gone = net.write(alloc, 2, b"") == Err(NetFault::Failed);
    Ok(is_kept && is_full && is_gone)
}

#[test]
fn sockets_fail(rt: HostRuntime) -> Result<(), Fail> {
    let alloc = rt.alloc();
    let near = address(alloc, b"127.83.17.3", 25533).ok().ok_or("memory")?;
    let nobody = address(alloc, b"127.83.17.4", 25533).ok().ok_or("memory")?;
    let nowhere = address(alloc, b"no-such-host.invalid", 1)
        .ok()
        .ok_or("memory")?;
    let mut one = SocketNet::listen(rt, alloc, &near)
        .ok()
        .ok_or("no near end")?;
    assert!(rt; SocketNet::listen(rt, alloc, &near).is_err());
    assert!(rt; one.dial(alloc, 7, &nowhere) == Err(NetFault::Failed));
    let _dialed = one.dial(alloc, 1, &nobody);
    let failed = event(alloc, &mut one);
    assert!(rt; failed == Some(NetEvent::DialFailed { dial: 1 }));
    assert!(rt; is_limited(alloc, &mut one, &near) == Ok(true));
    Ok(())
}
