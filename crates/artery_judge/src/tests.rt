use crate::{Law, Verdict, lawful, lawful_journal};
use artery_base::{Address, Bytes, NoMemory, SysMsg, Tell, Text, UniqueAddress};
use artery_journal::{Cause, Journal, Line, Lines, Stamped, StampedLines};
use std::alloc::Global;
use std::test::*;

/// An incarnation that is told from others by its UID.
fn node(alloc: Global, uid: u64) -> Result<UniqueAddress, NoMemory> {
    let address = Address {
        protocol: Text::from_ascii(alloc, b"akka")?,
        system: Text::from_ascii(alloc, b"A")?,
        host: Text::from_ascii(alloc, b"h1")?,
        port: 25_520,
    };
    Ok(UniqueAddress { address, uid })
}

fn message(alloc: Global, byte: u8) -> Result<SysMsg, NoMemory> {
    Ok(SysMsg {
        serializer: 5,
        manifest: Bytes::from_slice(alloc, b"x")?,
        payload: Bytes::from_slice(alloc, &[byte])?,
    })
}

fn tell(alloc: Global, byte: u8) -> Result<Tell, NoMemory> {
    Ok(Tell {
        sender: Text::from_ascii(alloc, b"")?,
        recipient: Text::from_ascii(alloc, b"r")?,
        serializer: 5,
        manifest: Text::from_ascii(alloc, b"x")?,
        payload: Bytes::from_slice(alloc, &[byte])?,
    })
}

/// What the lines of a test say, each of one incarnation by its UID, and mostly of another.
#[derive(Clone, Copy)]
enum Say {
    Started(u64),
    Stopped(u64),
    Learnt(u64, u64),
    Closed(u64, u64),
    Sent(u64, u64, u64, u8),
    Took(u64, u64, u64, u8),
    Told(u64, u64, u64, u8),
    Got(u64, u64, Option<u64>, u8),
    Watched(u64, u64),
    Unwatched(u64, u64),
    Terminated(u64, u64),
    Idle(u64, u64),
}

/// The line of messages, if it is one.
fn line_of_message(alloc: Global, say: Say) -> Result<Option<Line>, NoMemory> {
    let line = match say {
        Say::Sent(a, b, n, byte) => Line::Sent {
            of: node(alloc, a)?,
            other: node(alloc, b)?,
            n,
            message: message(alloc, byte)?,
        },
        Say::Took(a, b, n, byte) => Line::Took {
            of: node(alloc, a)?,
            other: node(alloc, b)?,
            n,
            message: message(alloc, byte)?,
        },
        Say::Told(a, b, dial, byte) => Line::Told {
            of: node(alloc, a)?,
            other: node(alloc, b)?,
            dial,
            message: tell(alloc, byte)?,
        },
        Say::Got(a, b, nonce, byte) => Line::Got {
            of: node(alloc, a)?,
            other: node(alloc, b)?,
            nonce,
            message: tell(alloc, byte)?,
        },
        _ => return Ok(None),
    };
    Ok(Some(line))
}

/// The line.
fn line_of(alloc: Global, say: Say) -> Result<Line, NoMemory> {
    if let Some(line) = line_of_message(alloc, say)? {
        return Ok(line);
    }
    Ok(match say {
        Say::Stopped(a) => Line::Stopped {
            of: node(alloc, a)?,
        },
        Say::Learnt(a, b) => Line::Learnt {
            of: node(alloc, a)?,
            other: node(alloc, b)?,
        },
        Say::Closed(a, b) => Line::Closed {
            of: node(alloc, a)?,
            other: node(alloc, b)?,
            cause: Cause::Superseded,
        },
        Say::Watched(a, id) => Line::Watched {
            of: node(alloc, a)?,
            id,
            watcher: Text::from_ascii(alloc, b"w")?,
            watchee: Text::from_ascii(alloc, b"v")?,
        },
        Say::Unwatched(a, id) => Line::Unwatched {
            of: node(alloc, a)?,
            id,
        },
        Say::Terminated(a, id) => Line::Terminated {
            of: node(alloc, a)?,
            id,
        },
        Say::Idle(a, b) => Line::Idle {
            of: node(alloc, a)?,
            other: node(alloc, b)?,
        },
        Say::Started(a)
        | Say::Sent(a, _, _, _)
        | Say::Took(a, _, _, _)
        | Say::Told(a, _, _, _)
        | Say::Got(a, _, _, _) => Line::Started {
            of: node(alloc, a)?,
        },
    })
}

/// The verdict on what is said.
fn judge(alloc: Global, says: &[Say]) -> Result<Verdict, NoMemory> {
    let mut lines = Lines::new(alloc);
    for say in says {
        lines.push(line_of(alloc, *say)?)?;
    }
    let verdict = lawful(alloc, &lines)?;
    if verdict != lawful_journal(alloc, &Journal::Plain(lines))? {
        return Ok(Verdict::Broken {
            line: 0,
            law: Law::Moment,
        });
    }
    Ok(verdict)
}

/// The verdict on what is said at moments.
fn judge_at(alloc: Global, says: &[(u64, Say)]) -> Result<Verdict, NoMemory> {
    let mut lines = StampedLines::new(alloc);
    for (moment, say) in says {
        lines.push(Stamped {
            moment: *moment,
            line: line_of(alloc, *say)?,
        })?;
    }
    lawful_journal(alloc, &Journal::Stamped(lines))
}

/// Whether the verdict is that this line breaks this law.
fn breaks(alloc: Global, line: u64, law: Law, says: &[Say]) -> Result<bool, NoMemory> {
    Ok(judge(alloc, says)? == Verdict::Broken { line, law })
}

/// Whether the verdict is Lawful.
fn is_lawful(alloc: Global, says: &[Say]) -> Result<bool, NoMemory> {
    Ok(judge(alloc, says)? == Verdict::Lawful)
}

#[test]
fn the_prefix_law(rt: HostRuntime) -> Result<(), Fail> {
    let alloc = rt.alloc();
    let sent = Say::Sent(1, 2, 1, 7);
    let second = Say::Sent(1, 2, 2, 8);
    assert!(rt; is_lawful(alloc, &[sent, Say::Took(2, 1, 1, 7), second])?);
    assert!(rt;
        is_lawful(
            alloc,
            &[sent, second, Say::Took(2, 1, 1, 7), Say::Took(2, 1, 2, 8)]
        )?
    );
    assert!(rt; breaks(alloc, 2, Law::Prefix, &[sent, Say::Took(2, 1, 1, 9)])?);
    assert!(rt; breaks(alloc, 2, Law::Prefix, &[sent, Say::Took(2, 1, 2, 7)])?);
    assert!(rt; breaks(alloc, 2, Law::Prefix, &[sent, Say::Took(2, 3, 1, 7)])?);
    assert!(rt; breaks(alloc, 2, Law::Prefix, &[sent, Say::Took(3, 1, 1, 7)])?);
    assert!(rt; breaks(alloc, 1, Law::Prefix, &[Say::Took(2, 1, 1, 7), sent])?);
    assert!(rt;
        breaks(
            alloc,
            3,
            Law::Prefix,
            &[sent, second, Say::Took(2, 1, 2, 8)]
        )?
    );
    assert!(rt;
        breaks(
            alloc,
            3,
            Law::Prefix,
            &[sent, Say::Took(2, 1, 1, 7), Say::Took(2, 1, 1, 7)]
        )?
    );
    Ok(())
}

#[test]
fn the_close_law(rt: HostRuntime) -> Result<(), Fail> {
    let alloc = rt.alloc();
    let closed = Say::Closed(1, 2);
    assert!(rt;
        is_lawful(
            alloc,
            &[
                Say::Learnt(1, 2),
                closed,
                Say::Learnt(1, 3),
                Say::Learnt(2, 1),
                Say::Idle(1, 2)
            ]
        )?
    );
    for after in [
        Say::Learnt(1, 2),
        Say::Closed(1, 2),
        Say::Sent(1, 2, 1, 7),
        Say::Told(1, 2, 1, 7),
    ] {
        assert!(rt; breaks(alloc, 2, Law::Closed, &[closed, after])?);
    }
    // a closed incarnation stays closed when another is learnt
    assert!(rt;
        breaks(
            alloc,
            3,
            Law::Closed,
            &[closed, Say::Learnt(1, 3), Say::Sent(1, 2, 1, 7)]
        )?
    );
    // the first of two laws
    assert!(rt; breaks(alloc, 2, Law::Prefix, &[closed, Say::Took(1, 2, 1, 7)])?);
    assert!(rt; breaks(alloc, 2, Law::Closed, &[closed, Say::Got(1, 2, Some(1), 7)])?);
    Ok(())
}

#[test]
fn the_watch_law(rt: HostRuntime) -> Result<(), Fail> {
    let alloc = rt.alloc();
    let watched = Say::Watched(1, 5);
    assert!(rt;
        is_lawful(
            alloc,
            &[
                watched,
                Say::Watched(2, 5),
                Say::Terminated(1, 5),
                Say::Unwatched(2, 5)
            ]
        )?
    );
    assert!(rt; breaks(alloc, 2, Law::Watch, &[watched, watched])?);
    assert!(rt; breaks(alloc, 1, Law::Watch, &[Say::Terminated(1, 5)])?);
    assert!(rt; breaks(alloc, 2, Law::Watch, &[watched, Say::Unwatched(2, 5)])?);
    assert!(rt;
        breaks(
            alloc,
            3,
            Law::Watch,
            &[watched, Say::Unwatched(1, 5), Say::Terminated(1, 5)]
        )?
    );
    assert!(rt;
        breaks(
            alloc,
            3,
            Law::Watch,
            &[watched, Say::Terminated(1, 5), watched]
        )?
    );
    Ok(())
}

#[test]
fn the_ordinary_law(rt: HostRuntime) -> Result<(), Fail> {
    let alloc = rt.alloc();
    let told = [
        Say::Told(1, 2, 3, 7),
        Say::Told(1, 2, 3, 8),
        Say::Told(1, 2, 3, 7),
        Say::Told(1, 2, 4, 9),
    ];
    for (got, want) in [
        ([(3, 7), (3, 8), (3, 7)], Verdict::Lawful),
        ([(3, 8), (3, 7), (4, 9)], Verdict::Lawful),
        ([(3, 7), (4, 9), (3, 7)], Verdict::Lawful),
        (
            [(3, 8), (3, 8), (3, 7)],
            Verdict::Broken {
                line: 6,
                law: Law::Ordinary,
            },
        ),
        (
            [(3, 7), (3, 7), (3, 8)],
            Verdict::Broken {
                line: 7,
                law: Law::Ordinary,
            },
        ),
        (
            [(3, 9), (3, 7), (3, 8)],
            Verdict::Broken {
                line: 5,
                law: Law::Ordinary,
            },
        ),
    ] {
        let [(d1, b1), (d2, b2), (d3, b3)] = got;
        let says = [
            told[0],
            told[1],
            told[2],
            told[3],
            Say::Got(2, 1, Some(d1), b1),
            Say::Got(2, 1, Some(d2), b2),
            Say::Got(2, 1, Some(d3), b3),
        ];
        assert_eq!(rt; judge(alloc, &says)?, want);
    }
    assert!(rt; breaks(alloc, 2, Law::Ordinary, &[told[0], Say::Got(2, 1, None, 7)])?);
    Ok(())
}

#[test]
fn the_stopped_law(rt: HostRuntime) -> Result<(), Fail> {
    let alloc = rt.alloc();
    let stopped = Say::Stopped(1);
    assert!(rt; is_lawful(alloc, &[])?);
    assert!(rt;
        is_lawful(
            alloc,
            &[Say::Started(1), stopped, Say::Started(2), Say::Learnt(2, 1)]
        )?
    );
    assert!(rt;
        breaks(
            alloc,
            3,
            Law::Stopped,
            &[Say::Started(1), stopped, Say::Idle(1, 2)]
        )?
    );
    assert!(rt; breaks(alloc, 2, Law::Stopped, &[stopped, stopped])?);
    assert!(rt; breaks(alloc, 2, Law::Stopped, &[Say::Idle(1, 2), Say::Started(1)])?);
    Ok(())
}

#[test]
fn the_moment_law(rt: HostRuntime) -> Result<(), Fail> {
    let alloc = rt.alloc();
    let one = Say::Idle(1, 2);
    let two = Say::Idle(2, 1);
    for (first, second, third, want) in [
        ((5, one), (4, two), (5, one), Verdict::Lawful),
        (
            (5, one),
            (6, two),
            (4, one),
            Verdict::Broken {
                line: 3,
                law: Law::Moment,
            },
        ),
        (
            (5, one),
            (4, one),
            (4, two),
            Verdict::Broken {
                line: 2,
                law: Law::Moment,
            },
        ),
        ((0, one), (0, one), (9, one), Verdict::Lawful),
    ] {
        assert_eq!(rt; judge_at(alloc, &[first, second, third])?, want);
    }
    assert_eq!(rt;
        judge_at(alloc, &[(5, Say::Started(1)), (4, Say::Learnt(1, 2))])?,
        Verdict::Broken {
            line: 2,
            law: Law::Moment
        }
    );
    Ok(())
}
