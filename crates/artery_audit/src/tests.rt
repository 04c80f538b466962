use crate::says::writer;
use crate::{Audited, Part, Parts, are_parts, audit};
use artery_base::{Address, Bytes, NoMemory, SysMsg, Text, UniqueAddress};
use artery_journal::{Line, Lines};
use artery_judge::Law;
use std::alloc::Global;
use std::test::*;

/// An incarnation that is told from others by its UID.
fn node(alloc: Global, uid: u64) -> Result<UniqueAddress, NoMemory> {
    let address = Address {
        protocol: Text::from_ascii(alloc, b"akka")?,
        system: Text::from_ascii(alloc, b"A")?,
        host: Text::from_ascii(alloc, b"h1")?,
        port: 25_520,
    };
    Ok(UniqueAddress { address, uid })
}

fn message(alloc: Global, byte: u8) -> Result<SysMsg, NoMemory> {
    Ok(SysMsg {
        serializer: 5,
        manifest: Bytes::from_slice(alloc, b"x")?,
        payload: Bytes::from_slice(alloc, &[byte])?,
    })
}

/// What the lines of a part say, each of one incarnation by its UID, and mostly of another.
#[derive(Clone, Copy)]
enum Say {
    Started(u64),
    Learnt(u64, u64),
    Sent(u64, u64, u64, u8),
    Took(u64, u64, u64, u8),
    Terminated(u64, u64),
}

fn line_of(alloc: Global, say: Say) -> Result<Line, NoMemory> {
    Ok(match say {
        Say::Started(a) => Line::Started {
            of: node(alloc, a)?,
        },
        Say::Learnt(a, b) => Line::Learnt {
            of: node(alloc, a)?,
            other: node(alloc, b)?,
        },
        Say::Sent(a, b, n, byte) => Line::Sent {
            of: node(alloc, a)?,
            other: node(alloc, b)?,
            n,
            message: message(alloc, byte)?,
        },
        Say::Took(a, b, n, byte) => Line::Took {
            of: node(alloc, a)?,
            other: node(alloc, b)?,
            n,
            message: message(alloc, byte)?,
        },
        Say::Terminated(a, id) => Line::Terminated {
            of: node(alloc, a)?,
            id,
        },
    })
}

fn lines_of(alloc: Global, says: &[Say]) -> Result<Lines, NoMemory> {
    let mut lines = Lines::new(alloc);
    for say in says {
        lines.push(line_of(alloc, *say)?)?;
    }
    Ok(lines)
}

fn parts_of(alloc: Global, told: &[(u64, &[Say])]) -> Result<Parts, NoMemory> {
    let mut parts = Parts::new(alloc);
    for (uid, says) in told {
        let of = node(alloc, *uid)?;
        let lines = lines_of(alloc, says)?;
        parts.push(Part { of, lines })?;
    }
    Ok(parts)
}

/// What an audit of parts came to.
#[derive(Clone, Copy, Debug, PartialEq, Eq)]
enum Found {
    /// They are none that are audited.
    NoParts,
    Lawful,
    Broken { of: u64, line: u64, law: Law },
}

fn what_it_found(alloc: Global, told: &[(u64, &[Say])]) -> Result<Found, NoMemory> {
    let parts = parts_of(alloc, told)?;
    if !are_parts(parts.as_slice()) {
        return Ok(Found::NoParts);
    }
    let audited = audit(alloc, &parts)?;
    Ok(match &audited {
        Audited::Lawful { merge: _ } => Found::Lawful,
        Audited::Broken { of, line, law } => Found::Broken {
            of: of.uid,
            line: *line,
            law: *law,
        },
    })
}

/// Whose the lines of the lawful merge are, in their order; none where there is no merge.
fn order(alloc: Global, told: &[(u64, &[Say])]) -> Result<Vec<u64>, NoMemory> {
    let mut uids = Vec::new(alloc);
    let parts = parts_of(alloc, told)?;
    if !are_parts(parts.as_slice()) {
        return Ok(uids);
    }
    let audited = audit(alloc, &parts)?;
    if let Audited::Lawful { merge } = &audited {
        for line in merge.as_slice() {
            uids.push(writer(line).uid)?;
        }
    }
    Ok(uids)
}

/// A part that sends, and the part of who takes it.
const SENDS: [Say; 3] = [Say::Started(1), Say::Learnt(1, 2), Say::Sent(1, 2, 1, 7)];

const TAKES: [Say; 3] = [Say::Started(2), Say::Learnt(2, 1), Say::Took(2, 1, 1, 7)];

#[test]
fn parts_fit_together(rt: HostRuntime) -> Result<(), Fail> {
    let alloc = rt.alloc();
    let cases: [&[(u64, &[Say])]; 5] = [
        &[],
        &[(1, &[])],
        &[(1, &SENDS), (2, &TAKES)],
        &[(2, &TAKES), (1, &SENDS)],
        // each waits for the other in turns
        &[
            (1, &[Say::Sent(1, 2, 1, 7), Say::Took(1, 2, 1, 8)]),
            (2, &[Say::Took(2, 1, 1, 7), Say::Sent(2, 1, 1, 8)]),
        ],
    ];
    for told in cases {
        assert_eq!(rt; what_it_found(alloc, told)?, Found::Lawful);
    }
    assert!(rt;
        order(alloc, &[(1, &SENDS), (2, &TAKES)])?.as_slice() == [1, 1, 1, 2, 2, 2].as_slice()
    );
    assert!(rt;
        order(alloc, &[(2, &TAKES), (1, &SENDS)])?.as_slice() == [2, 2, 1, 1, 1, 2].as_slice()
    );
    Ok(())
}

#[test]
fn the_first_part_that_is_stuck(rt: HostRuntime) -> Result<(), Fail> {
    let alloc = rt.alloc();
    let broken = |of, line, law| Found::Broken { of, line, law };
    let cases: [(&[(u64, &[Say])], Found); 5] = [
        // what was taken is sent nowhere
        (&[(2, &TAKES)], broken(2, 3, Law::Prefix)),
        // each takes before it sends, so whole lists of each pair would agree
        (
            &[
                (1, &[Say::Took(1, 2, 1, 1), Say::Sent(1, 2, 1, 2)]),
                (2, &[Say::Took(2, 1, 1, 2), Say::Sent(2, 1, 1, 1)]),
            ],
            broken(1, 1, Law::Prefix),
        ),
        // a part is left behind one that is used up
        (
            &[
                (1, &SENDS),
                (2, &[Say::Started(2), Say::Terminated(2, 1)]),
                (3, &[Say::Took(3, 1, 1, 7)]),
            ],
            broken(2, 2, Law::Watch),
        ),
        // the message is another one
        (
            &[(2, &TAKES), (1, &[Say::Sent(1, 2, 1, 8)])],
            broken(2, 3, Law::Prefix),
        ),
        (
            &[(1, &[Say::Started(1), Say::Started(1)])],
            broken(1, 2, Law::Stopped),
        ),
    ];
    for (told, want) in cases {
        assert_eq!(rt; what_it_found(alloc, told)?, want);
    }
    Ok(())
}

#[test]
fn what_is_no_part(rt: HostRuntime) -> Result<(), Fail> {
    let alloc = rt.alloc();
    let cases: [&[(u64, &[Say])]; 3] = [
        &[(1, &SENDS), (2, &TAKES), (1, &[])],
        &[(1, &TAKES)],
        &[(1, &SENDS), (2, &[Say::Started(2), Say::Started(1)])],
    ];
    for told in cases {
        assert_eq!(rt; what_it_found(alloc, told)?, Found::NoParts);
    }
    Ok(())
}
