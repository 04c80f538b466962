use crate::{
    DropRule, Message, decode, encode, meaning_stands, message_of, one_outcome, written_is_meant,
};
use artery_base::{Bytes, Names, NoMemory, Text, Values};
use artery_header::{EncodeFault, Envelope, HeaderFault, Name, Which, read_envelope};
use artery_tables::{Advertised, Confirmed, InTables, OutTable, TableFault};
use std::alloc::Global;
use std::test::*;

/// The actor x of B.
const X: &[u8] = b"akka://B@h2:25520/user/x";

/// The second message from A to X: no sender, recipient and manifest by index in version 1.
const SECOND: [u8; 32] = [
    0, 0, 1, 1, 1, 0, 0, 0, 0, 0, 0, 0, 4, 0, 0, 0, 28, 0, 0, 0, 0, 0, 0, 255, 0, 0, 0, 255, 0, 0,
    0, 255,
];

// The calls with no contract of their own, so that a test's proof does not follow what is known.

/// Counts names, announces the top table and confirms it.
fn tell(
    alloc: Global,
    tables: &mut InTables,
    number: u64,
    names: &[&[u8]],
) -> Result<bool, NoMemory> {
    for name in names {
        if name.is_empty() || !name.is_ascii() {
            return Ok(false);
        }
        let _counted = tables.count(alloc, name)?;
    }
    let answer = tables.advertise(alloc, true)?;
    let confirmed = tables.confirm(number);
    Ok(answer == Advertised::New && confirmed == Confirmed::Confirmed)
}

/// Tables whose current one has number 1 and these names.
fn told(alloc: Global, names: &[&[u8]]) -> Result<InTables, NoMemory> {
    let mut tables = InTables::new();
    let _told = tell(alloc, &mut tables, 1, names)?;
    Ok(tables)
}

/// The table with a number and these names, each with its place as its index.
fn adopted(alloc: Global, number: u64, names: &[&[u8]]) -> Result<OutTable, NoMemory> {
    let mut keys = Names::new(alloc);
    let mut values = Values::new(alloc);
    let mut table = OutTable::new();
    let mut place = 0u16;
    for name in names {
        if name.is_ascii() {
            keys.push(Text::from_ascii(alloc, name)?)?;
            values.push(place)?;
            place = place.saturating_add(1);
        }
    }
    if keys.len() == values.len() {
        let _adopted = table.adopt(alloc, number, keys, values)?;
    }
    Ok(table)
}

/// The bytes of an envelope from incarnation 1 with this header version and these table versions; each name is an index, or a literal in
/// the tail.
fn frame_of(
    version: u8,
    refs: u8,
    manifests: u8,
    names: [Option<u8>; 3],
    tail: &[u8],
    out: &mut Bytes,
) -> bool {
    let first = [
        version, 0, refs, manifests, 1, 0, 0, 0, 0, 0, 0, 0, 249, 255, 255, 255,
    ];
    if out.extend_from_slice(&first).is_err() {
        return false;
    }
    for name in names {
        let tag = match name {
            Some(index) => [index, 0, 0, 255],
            None => [0, 0, 0, 0],
        };
        if out.extend_from_slice(&tag).is_err() {
            return false;
        }
    }
    out.extend_from_slice(tail).is_ok()
}

fn means(
    frame: &[u8],
    refs: &InTables,
    manifests: &InTables,
    want: &Result<Message<'_>, DropRule>,
) -> bool {
    decode(frame, refs, manifests) == *want
}

fn envelope_means(frame: &[u8], refs: &InTables, manifests: &InTables, want: &Message<'_>) -> bool {
    match read_envelope(frame) {
        Ok(envelope) => message_of(envelope, refs, manifests) == Ok(*want),
        Err(_) => false,
    }
}

fn laws() {
    one_outcome();
    meaning_stands();
    written_is_meant();
}

fn encodes(
    message: &Message<'_>,
    refs: &OutTable,
    manifests: &OutTable,
    out: &mut Bytes,
) -> Result<(), EncodeFault> {
    if !message.sender.is_ascii() || !message.recipient.is_ascii() || !message.manifest.is_ascii() {
        return Err(EncodeFault::NoMemory);
    }
    encode(message, refs, manifests, out)
}

#[test]
fn the_second_message_is_packed(rt: HostRuntime) -> Result<(), Fail> {
    let alloc = rt.alloc();
    let message = Message {
        uid: 1,
        serializer: 4,
        sender: b"",
        recipient: X,
        manifest: b"T",
        payload: &[0, 255],
    };
    let mut out = Bytes::new(alloc);
    let refs = adopted(alloc, 1, &[X])?;
    let manifests = adopted(alloc, 1, &[b"T"])?;
    assert_eq!(rt; encodes(&message, &refs, &manifests, &mut out), Ok(()));
    assert_eq!(rt; out.as_slice(), SECOND.as_slice());
    let refs = told(alloc, &[X])?;
    let manifests = told(alloc, &[b"T"])?;
    assert!(rt; means(&SECOND, &refs, &manifests, &Ok(message)));
    assert!(rt; envelope_means(&SECOND, &refs, &manifests, &message));
    laws();
    Ok(())
}

#[test]
fn the_first_rule_drops(rt: HostRuntime) -> Result<(), Fail> {
    let sender = Which::Sender;
    let recipient = Which::Recipient;
    let manifest = Which::Manifest;
    let of_version = |v: u8| TableFault::UnknownVersion { v };
    let of_index = |v: u8, i: u16| TableFault::UnknownIndex { v, i };
    let table: [(u8, u8, [Option<u8>; 3], &[u8], Which, TableFault); 12] = [
        (
            9,
            1,
            [Some(0), None, None],
            b"\0\0\0\0",
            sender,
            of_version(9),
        ),
        (
            9,
            1,
            [None, Some(0), None],
            b"\0\0\0\0",
            recipient,
            of_version(9),
        ),
        (
            1,
            9,
            [None, None, Some(0)],
            b"\0\0\0\0",
            manifest,
            of_version(9),
        ),
        (
            1,
            1,
            [Some(2), None, None],
            b"\0\0\0\0",
            sender,
            of_index(1, 2),
        ),
        (
            1,
            1,
            [None, Some(2), None],
            b"\0\0\0\0",
            recipient,
            of_index(1, 2),
        ),
        (
            1,
            1,
            [None, None, Some(1)],
            b"\0\0\0\0",
            manifest,
            of_index(1, 1),
        ),
        (
            0,
            1,
            [Some(0), None, None],
            b"\0\0\0\0",
            sender,
            of_index(0, 0),
        ),
        (
            9,
            8,
            [Some(0), Some(0), Some(0)],
            b"",
            sender,
            of_version(9),
        ),
        (
            9,
            8,
            [None, Some(0), Some(0)],
            b"\0\0",
            recipient,
            of_version(9),
        ),
        (
            1,
            8,
            [Some(5), Some(0), Some(0)],
            b"",
            sender,
            of_index(1, 5),
        ),
        (
            1,
            9,
            [Some(0), Some(7), Some(0)],
            b"",
            recipient,
            of_index(1, 7),
        ),
        (
            1,
            9,
            [Some(0), Some(0), Some(0)],
            b"",
            manifest,
            of_version(9),
        ),
    ];
    let refs = told(rt.alloc(), &[X, b"r"])?;
    let manifests = told(rt.alloc(), &[b"T"])?;
    for (refs_version, manifests_version, names, tail, which, fault) in table {
        let mut frame = Bytes::new(rt.alloc());
        assert!(rt; frame_of(0, refs_version, manifests_version, names, tail, &mut frame));
        let want = Err(DropRule::Table { which, fault });
        assert!(rt;
            means(frame.as_slice(), &refs, &manifests, &want),
            "at {fault:?}"
        );
    }
    Ok(())
}

#[test]
fn the_header_comes_before_the_tables(rt: HostRuntime) -> Result<(), Fail> {
    let which = Which::Manifest;
    let table: [(u8, [Option<u8>; 3], &[u8], HeaderFault); 3] = [
        (
            1,
            [Some(0), Some(0), Some(0)],
            b"",
            HeaderFault::Version { v: 1 },
        ),
        (
            0,
            [Some(0), Some(0), None],
            b"\x05\0ab",
            HeaderFault::LiteralPast { which },
        ),
        (
            0,
            [Some(0), Some(0), None],
            b"\x01\0\x80",
            HeaderFault::NotAscii { which },
        ),
    ];
    let none = InTables::new();
    for (version, names, tail, fault) in table {
        let mut frame = Bytes::new(rt.alloc());
        assert!(rt; frame_of(version, 9, 9, names, tail, &mut frame));
        let want = Err(DropRule::Header(fault));
        assert!(rt; means(frame.as_slice(), &none, &none, &want));
    }
    Ok(())
}

#[test]
fn each_version_has_its_own_table(rt: HostRuntime) -> Result<(), Fail> {
    let alloc = rt.alloc();
    let mut refs = told(alloc, &[b"a"])?;
    assert!(rt; tell(alloc, &mut refs, 2, &[b"b", b"b"])?);
    let manifests = told(alloc, &[b"T", b"T", b"U"])?;
    let table: [(u8, &[u8], u8, &[u8]); 3] = [
        (1, b"a", 0, b"T"),
        (2, b"b", 1, b"U"),
        (2, b"b", 0, b"T"),
    ];
    for (version, recipient, index, manifest) in table {
        let mut frame = Bytes::new(alloc);
        let names = [None, Some(0), Some(index)];
        assert!(rt; frame_of(0, version, 1, names, b"\x02\0mep", &mut frame));
        let want = Ok(Message {
            uid: 1,
            serializer: -7,
            sender: b"me",
            recipient,
            manifest,
            payload: b"p",
        });
        assert!(rt; means(frame.as_slice(), &refs, &manifests, &want));
    }
    Ok(())
}

/// Whether the bytes are an envelope with these table versions and these names.
fn is_written(bytes: &[u8], refs_version: u8, manifests_version: u8, names: [Name<'_>; 3]) -> bool {
    let [sender, recipient, manifest] = names;
    let want = Envelope {
        uid: 1,
        refs_version,
        manifests_version,
        serializer: -7,
        sender,
        recipient,
        manifest,
        payload: b"p",
    };
    read_envelope(bytes) == Ok(want)
}

#[test]
fn names_are_written_as_indices_or_in_full(rt: HostRuntime) -> Result<(), Fail> {
    let alloc = rt.alloc();
    let refs = adopted(alloc, 128, &[b"", b"a", b"b"])?;
    let manifests = adopted(alloc, 3, &[b"", b"m"])?;
    let table: [(&[u8], &[u8], &[u8], [Name<'_>; 3]); 4] = [
        (
            b"a",
            b"b",
            b"m",
            [Name::Index(1), Name::Index(2), Name::Index(1)],
        ),
        (
            b"b",
            b"m",
            b"a",
            [Name::Index(2), Name::Literal(b"m"), Name::Literal(b"a")],
        ),
        (
            b"",
            b"a",
            b"",
            [Name::Literal(b""), Name::Index(1), Name::Literal(b"")],
        ),
        (
            b"m",
            b"",
            b"m",
            [Name::Literal(b"m"), Name::Literal(b""), Name::Index(1)],
        ),
    ];
    for (sender, recipient, manifest, names) in table {
        let message = Message {
            uid: 1,
            serializer: -7,
            sender,
            recipient,
            manifest,
            payload: b"p",
        };
        let mut out = Bytes::new(alloc);
        assert_eq!(rt; encodes(&message, &refs, &manifests, &mut out), Ok(()));
        assert!(rt; is_written(out.as_slice(), 1, 3, names));
    }
    Ok(())
}

#[test]
fn refused_messages_leave_the_bytes_as_before(rt: HostRuntime) -> Result<(), Fail> {
    let alloc = rt.alloc();
    let long = vec![in alloc; b'a'; 65_536]?;
    let payload = vec![in alloc; 0u8; 262_144]?;
    let none = OutTable::new();
    let all = adopted(alloc, 1, &[&long])?;
    let which = Which::Recipient;
    let table: [(&[u8], &[u8], &OutTable, Result<(), EncodeFault>); 4] = [
        (&long, b"", &none, Err(EncodeFault::LiteralLong { which })),
        (&long, b"", &all, Ok(())),
        (
            b"",
            &payload,
            &none,
            Err(EncodeFault::FrameLong { len: 262_178 }),
        ),
        (
            &long,
            &payload,
            &none,
            Err(EncodeFault::LiteralLong { which }),
        ),
    ];
    for (recipient, payload, refs, want) in table {
        let message = Message {
            uid: 1,
            serializer: 4,
            sender: b"",
            recipient,
            manifest: b"",
            payload,
        };
        let mut out = Bytes::from_slice(alloc, b"before")?;
        assert_eq!(rt; encodes(&message, refs, &none, &mut out), want);
        let len = if want.is_ok() { 38 } else { 6 };
        assert_eq!(rt; out.len(), len);
    }
    Ok(())
}
