use super::*;
use artery_base::Bytes;
use std::alloc::AllocError;

/// A handshake request of incarnation 1: no sender, no recipient, manifest `d`, 44 bytes of payload.
const ASKED: [u8; 79] = [
    0, 0, 0, 0, 1, 0, 0, 0, 0, 0, 0, 0, 17, 0, 0, 0, 28, 0, 0, 0, 30, 0, 0, 0, 32, 0, 0, 0, 0, 0,
    0, 0, 1, 0, 100, 10, 21, 10, 17, 10, 4, 97, 107, 107, 97, 18, 1, 65, 26, 2, 104, 49, 32, 176,
    199, 1, 16, 1, 18, 17, 10, 4, 97, 107, 107, 97, 18, 1, 66, 26, 2, 104, 50, 32, 176, 199, 1,
    120, 1,
];

/// A message whose recipient and manifest are the first names of their tables, in version 1.
const PACKED: [u8; 32] = [
    0, 0, 1, 1, 1, 0, 0, 0, 0, 0, 0, 0, 4, 0, 0, 0, 28, 0, 0, 0, 0, 0, 0, 255, 0, 0, 0, 255, 0, 0,
    0, 255,
];

#[test]
fn envelopes_are_read_and_written(rt: HostRuntime) -> Result<(), AllocError> {
    let table: [(&[u8], u8, i32, Name<'_>, Name<'_>, Name<'_>, usize); 2] = [
        (
            &ASKED,
            0,
            17,
            Name::Literal(b""),
            Name::Literal(b""),
            Name::Literal(b"d"),
            44,
        ),
        (
            &PACKED,
            1,
            4,
            Name::Literal(b""),
            Name::Index(0),
            Name::Index(0),
            2,
        ),
    ];
    for (bytes, version, serializer, sender, recipient, manifest, payload) in table {
        let Ok(envelope) = read_envelope(bytes) else {
            return Err(AllocError);
        };
        assert_eq!(rt; envelope.uid, 1);
        assert_eq!(rt; envelope.refs_version, version);
        assert_eq!(rt; envelope.manifests_version, version);
        assert_eq!(rt; envelope.serializer, serializer);
        assert_eq!(rt; envelope.sender, sender);
        assert_eq!(rt; envelope.recipient, recipient);
        assert_eq!(rt; envelope.manifest, manifest);
        assert_eq!(rt; envelope.payload.len(), payload);
        let mut out = Bytes::new(rt.alloc());
        assert!(rt; write_envelope(&envelope, &mut out).is_ok());
        assert_eq!(rt; out.as_slice(), bytes);
    }
    one_reading();
    written_is_read();
    limits_stand();
    Ok(())
}

/// An envelope of 28 bytes and the tail, with these first two bytes and this tag for all three names.
fn envelope_of(version: u8, flags: u8, tag: u8, tail: &[u8], out: &mut Bytes) -> bool {
    let header = [
        version, flags, 0, 0, 0, 0, 0, 0, 0, 0, 0, 128, 255, 255, 255, 255, 0, 0, 0, tag, 0, 0, 0,
        tag, 1, 0, 0, tag,
    ];
    out.extend_from_slice(&header).is_ok() && out.extend_from_slice(tail).is_ok()
}

#[test]
fn first_faults(rt: HostRuntime) -> Result<(), AllocError> {
    let sender = Which::Sender;
    let recipient = Which::Recipient;
    let manifest = Which::Manifest;
    let table: [(u8, u8, &[u8], HeaderFault); 12] = [
        (1, 0, b"", HeaderFault::Version { v: 1 }),
        (1, 1, b"", HeaderFault::Version { v: 1 }),
        (0, 1, b"", HeaderFault::Metadata),
        (0, 3, b"", HeaderFault::Metadata),
        (0, 2, b"", HeaderFault::LiteralPast { which: sender }),
        (0, 0, b"\x01", HeaderFault::LiteralPast { which: sender }),
        (0, 0, b"\x02\0a", HeaderFault::LiteralPast { which: sender }),
        (0, 0, b"\x01\0\x80", HeaderFault::NotAscii { which: sender }),
        (
            0,
            0,
            b"\x01\0a\x01\0",
            HeaderFault::LiteralPast { which: recipient },
        ),
        (
            0,
            0,
            b"\x01\0a\x01\0\x80",
            HeaderFault::NotAscii { which: recipient },
        ),
        (
            0,
            0,
            b"\0\0\0\0\xff\xff",
            HeaderFault::LiteralPast { which: manifest },
        ),
        (
            0,
            0,
            b"\0\0\0\0\x01\0\x80",
            HeaderFault::NotAscii { which: manifest },
        ),
    ];
    for (version, flags, tail, fault) in table {
        let mut bytes = Bytes::new(rt.alloc());
        assert!(rt; envelope_of(version, flags, 0, tail, &mut bytes));
        assert_eq!(rt; read_envelope(bytes.as_slice()).err(), Some(fault));
    }
    assert_eq!(rt;
        read_envelope(&ASKED[..27]).err(),
        Some(HeaderFault::Short { len: 27 })
    );
    assert_eq!(rt;
        read_envelope(b"").err(),
        Some(HeaderFault::Short { len: 0 })
    );
    Ok(())
}

#[test]
fn numbers_and_flags(rt: HostRuntime) -> Result<(), AllocError> {
    let mut bytes = Bytes::new(rt.alloc());
    assert!(rt; envelope_of(0, 254, 1, b"payload", &mut bytes));
    let Ok(envelope) = read_envelope(bytes.as_slice()) else {
        return Err(AllocError);
    };
    assert_eq!(rt; envelope.uid, 1u64 << 63);
    assert_eq!(rt; envelope.serializer, -1);
    assert_eq!(rt; envelope.sender, Name::Index(0));
    assert_eq!(rt; envelope.recipient, Name::Index(0));
    assert_eq!(rt; envelope.manifest, Name::Index(1));
    assert_eq!(rt; envelope.payload, b"payload".as_slice());
    Ok(())
}

#[test]
fn too_long_a_frame(rt: HostRuntime) -> Result<(), AllocError> {
    let mut payload = Vec::new(rt.alloc());
    for _ in 0..4095 {
        payload.extend_from_slice(&[0u8; 64])?;
    }
    payload.extend_from_slice(&[0u8; 33])?;
    for (more, wanted) in [(0usize, true), (1, false)] {
        for _ in 0..more {
            payload.push(0)?;
        }
        let envelope = Envelope {
            uid: 1,
            refs_version: 0,
            manifests_version: 0,
            serializer: 4,
            sender: Name::Index(7),
            recipient: Name::Literal(b"r"),
            manifest: Name::Index(65_535),
            payload: &payload,
        };
        let mut out = Bytes::new(rt.alloc());
        assert_eq!(rt; write_envelope(&envelope, &mut out).is_ok(), wanted);
        assert_eq!(rt; out.is_empty(), !wanted);
    }
    Ok(())
}
