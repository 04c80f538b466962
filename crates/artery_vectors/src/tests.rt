use super::*;
use artery_base::{Address, Bytes, SysMsg, UniqueAddress};
use artery_control::{Control, ControlFault, Path, manifest_of, read_control, write_control};
use artery_frame::{Deframer, PIECE_LIMIT, Stream, write_frame, write_preamble};
use artery_header::{Envelope, FRAME_LIMIT, Name, read_envelope, write_envelope};
use artery_text::{read_address, read_hex, read_unique};
use artery_wire::WireFault;
use std::alloc::Global;
use std::test::Fail;

/// System A with UID 1.
const A: &[u8] = b"akka://A@h1:25520#1";

/// System B with UID 2.
const B: &[u8] = b"akka://B@h2:25520#2";

/// The address of system B.
const B_ADDRESS: &[u8] = b"akka://B@h2:25520";

/// A's unique address as the first field of a message.
const FROM_A: &[u8] = b"0a150a110a04616b6b611201411a02683120b0c7011001";

/// What stands before the values of a table from A of version 1 for its own UID, with the keys `a` and `b`.
const BEFORE_VALUES: &[u8] = b"0a150a110a04616b6b611201411a02683120b0c701100110011801220161220162";

/// Whether it is the unique address that the text spells.
fn is_unique(alloc: Global, unique: &UniqueAddress, text: &[u8]) -> bool {
    match read_unique(alloc, text) {
        Ok(wanted) => *unique == wanted,
        Err(_) => false,
    }
}

/// Whether it is the address that the text spells.
fn is_address(alloc: Global, address: &Address, text: &[u8]) -> bool {
    match read_address(alloc, text) {
        Ok(wanted) => *address == wanted,
        Err(_) => false,
    }
}

/// Whether the message of a vector says what it was made from.
fn says_so(alloc: Global, control: &Control) -> bool {
    match control {
        Control::HandshakeReq { from, to, nonce } => {
            is_unique(alloc, from, A) && is_address(alloc, to, B_ADDRESS) && *nonce == Some(1)
        }
        Control::HandshakeRsp {
            from,
            for_uid,
            nonce,
        } => is_unique(alloc, from, B) && *for_uid == Some(1) && *nonce == Some(1),
        Control::Numbered {
            n,
            message,
            reply_to,
        } => *n == 1 && is_known(message) && is_unique(alloc, reply_to, A),
        Control::Ack { n, from } => *n == 1 && is_unique(alloc, from, B),
        Control::RefsTable { from, values, .. } => {
            is_unique(alloc, from, A) && values.as_slice() == [0, 1].as_slice()
        }
        Control::Heartbeat => true,
        Control::HeartbeatRsp { uid } => *uid == 7,
        _ => false,
    }
}

/// Whether it is the system message of the frame, or the one whose serializer is negative.
fn is_known(message: &SysMsg) -> bool {
    let manifest = message.manifest.as_slice();
    let payload = message.payload.as_slice();
    match message.serializer {
        5 => manifest == b"x".as_slice() && payload == b"\x01\x02".as_slice(),
        -1 => manifest.is_empty() && payload.is_empty(),
        _ => false,
    }
}

/// What came of a payload: its fault; or whether the message says what its vector does, and its bytes.
#[derive(Drop)]
struct Outcome {
    fault: Option<ControlFault>,
    says_so: bool,
    written: Bytes,
}

/// Reads the payload and writes the message.
fn outcome_of(alloc: Global, manifest: &[u8], payload: &[u8]) -> Outcome {
    let mut written = Bytes::new(alloc);
    match read_control(alloc, manifest, payload) {
        Ok(control) => {
            let is_written = write_control(&control, &mut written).is_ok();
            let has_letter = manifest.first() == Some(&manifest_of(&control));
            Outcome {
                fault: None,
                says_so: is_written && has_letter && says_so(alloc, &control),
                written,
            }
        }
        Err(fault) => Outcome {
            fault: Some(fault),
            says_so: false,
            written,
        },
    }
}

/// Whether the payload is read as the message of its vector, and that is written as these bytes.
fn is_the_message(alloc: Global, manifest: &[u8], payload: &[u8], bytes: &[u8]) -> bool {
    let outcome = outcome_of(alloc, manifest, payload);
    outcome.says_so && outcome.written.as_slice() == bytes
}

/// Whether the payload is read, and what was read is written as the same bytes.
fn is_written_again(alloc: Global, manifest: &[u8], payload: &[u8]) -> bool {
    let outcome = outcome_of(alloc, manifest, payload);
    outcome.fault.is_none() && outcome.written.as_slice() == payload
}

/// Whether the payload is refused with a fault of its own.
fn is_refused(alloc: Global, manifest: &[u8], payload: &[u8]) -> bool {
    match outcome_of(alloc, manifest, payload).fault {
        Some(fault) => fault != ControlFault::NoMemory,
        None => false,
    }
}

/// The fault of the payload that the text spells.
fn fault_of(alloc: Global, manifest: &[u8], text: &[u8]) -> Option<ControlFault> {
    match read_hex(alloc, text) {
        Ok(payload) => outcome_of(alloc, manifest, payload.as_slice()).fault,
        Err(_) => None,
    }
}

/// The fault of a message that begins with A's unique address and goes on as the text spells.
fn fault_after_a(alloc: Global, manifest: &[u8], text: &[u8]) -> Option<ControlFault> {
    let mut whole = Bytes::new(alloc);
    if whole.extend_from_slice(FROM_A).is_err() || whole.extend_from_slice(text).is_err() {
        return None;
    }
    fault_of(alloc, manifest, whole.as_slice())
}

/// The bytes that the first and the last text spell, with the field between them.
fn around(alloc: Global, first: &[u8], field: &[u8], last: &[u8]) -> Option<Bytes> {
    let mut whole = read_hex(alloc, first).ok()?;
    let last = read_hex(alloc, last).ok()?;
    whole.extend_from_slice(field).ok()?;
    whole.extend_from_slice(last.as_slice()).ok()?;
    Some(whole)
}

/// Feeds a stream with this one frame.
fn feeds(alloc: Global, deframer: &mut Deframer, stream: Stream, frame: &[u8]) -> bool {
    let mut bytes = Bytes::new(alloc);
    if write_preamble(stream, &mut bytes).is_err() || bytes.extend_from_slice(frame).is_err() {
        return false;
    }
    bytes.len() <= PIECE_LIMIT && deframer.feed(bytes.as_slice()).is_ok()
}

/// Whether the envelope is framed so.
fn is_framed(alloc: Global, envelope: &[u8], frame: &[u8]) -> bool {
    if envelope.len() > FRAME_LIMIT {
        return false;
    }
    let mut out = Bytes::new(alloc);
    write_frame(envelope, &mut out).is_ok() && out.as_slice() == frame
}

/// Whether the frame is given out of its stream, is read as the envelope, and is written so again.
fn is_read_and_written(alloc: Global, stream: Stream, frame: &[u8], wanted: &Envelope<'_>) -> bool {
    let mut deframer = Deframer::new(alloc);
    if !feeds(alloc, &mut deframer, stream, frame) {
        return false;
    }
    let Ok(Some(bytes)) = deframer.next() else {
        return false;
    };
    let Ok(envelope) = read_envelope(bytes) else {
        return false;
    };
    let mut out = Bytes::new(alloc);
    envelope == *wanted
        && write_envelope(&envelope, &mut out).is_ok()
        && is_framed(alloc, out.as_slice(), frame)
}

#[test]
fn frames_are_read_and_written(rt: HostRuntime) {
    let control: [(&[u8], u64, &[u8]); 4] = [
        (&HANDSHAKE_REQUEST, 1, b"d"),
        (&HANDSHAKE_ANSWER, 2, b"e"),
        (&NUMBERED_MESSAGE, 1, b"j"),
        (&ACKNOWLEDGEMENT, 2, b"k"),
    ];
    for (frame, uid, manifest) in control {
        let envelope = Envelope {
            uid,
            refs_version: 0,
            manifests_version: 0,
            serializer: 17,
            sender: Name::Literal(b""),
            recipient: Name::Literal(b""),
            manifest: Name::Literal(manifest),
            payload: payload_of(frame),
        };
        assert!(rt; is_read_and_written(rt.alloc(), Stream::Control, frame, &envelope));
    }
    let tell = Envelope {
        uid: 1,
        refs_version: 1,
        manifests_version: 1,
        serializer: 4,
        sender: Name::Literal(b""),
        recipient: Name::Index(0),
        manifest: Name::Index(0),
        payload: b"\x00\xff",
    };
    assert!(rt; is_read_and_written(rt.alloc(), Stream::Ordinary, &SECOND_TELL, &tell));
}

/// The payload of a control message's frame.
fn payload_of(frame: &[u8]) -> &[u8] {
    if frame.len() < PAYLOAD_AT {
        return frame;
    }
    &frame[PAYLOAD_AT..]
}

#[test]
fn messages_are_read_and_written(rt: HostRuntime) {
    let table: [(&[u8], &[u8], usize, &[usize]); 4] = [
        (&HANDSHAKE_REQUEST, b"d", 44, &[42]),
        (&HANDSHAKE_ANSWER, b"e", 27, &[23, 25]),
        (&NUMBERED_MESSAGE, b"j", 34, &[]),
        (&ACKNOWLEDGEMENT, b"k", 25, &[]),
    ];
    for (frame, manifest, len, lacking) in table {
        let payload = payload_of(frame);
        assert_eq!(rt; payload.len(), len);
        assert!(rt; is_the_message(rt.alloc(), manifest, payload, payload));
        for cut in 0..payload.len() {
            let lacks = lacking.contains(&cut);
            let front = &payload[..cut];
            assert_eq!(rt;
                is_refused(rt.alloc(), manifest, front),
                !lacks,
                "cut at {cut}"
            );
            assert_eq!(rt;
                is_written_again(rt.alloc(), manifest, front),
                lacks,
                "cut at {cut}"
            );
        }
    }
    let short: [(&[u8], &[u8], &[u8]); 3] = [
        (b"m", b"", b""),
        (b"m", b"\x08\x01", b""),
        (b"n", b"\x08\x07", b"\x08\x07"),
    ];
    for (manifest, payload, bytes) in short {
        assert!(rt; is_the_message(rt.alloc(), manifest, payload, bytes));
    }
}

#[test]
fn fields_are_read_and_written(rt: HostRuntime) -> Result<(), Fail> {
    let alloc = rt.alloc();
    let after = b"20012a150a110a04616b6b611201411a02683120b0c7011001";
    let signed = around(alloc, b"0a00", &NEGATIVE_SERIALIZER, after).ok_or(
        "the texts are hexadecimal",
    )?;
    assert!(rt; is_the_message(alloc, b"j", signed.as_slice(), signed.as_slice()));
    let table = around(alloc, BEFORE_VALUES, &VALUES, b"-").ok_or("the text is hexadecimal")?;
    let packed = around(alloc, BEFORE_VALUES, &VALUES_PACKED, b"-").ok_or(
        "the text is hexadecimal",
    )?;
    for table_or_packed in [table.as_slice(), packed.as_slice()] {
        assert!(rt; is_the_message(alloc, b"f", table_or_packed, table.as_slice()));
    }
    Ok(())
}

/// A wire fault of the message itself.
fn in_message(fault: WireFault) -> ControlFault {
    ControlFault::Wire {
        path: Path::Message,
        fault,
    }
}

/// A fault where a required field is missing.
fn missing(path: Path) -> ControlFault {
    ControlFault::Missing { path }
}

#[test]
fn faults_of_records(rt: HostRuntime) {
    let table: [(&[u8], &[u8], ControlFault); 23] = [
        (b"z", b"-", ControlFault::UnknownManifest),
        (b"o", b"-", ControlFault::UnknownManifest),
        (b"", b"-", ControlFault::UnknownManifest),
        (b"dd", b"-", ControlFault::UnknownManifest),
        (b"m", b"0b", in_message(WireFault::WireType { at: 0 })),
        (b"m", b"08", in_message(WireFault::Truncated { at: 0 })),
        (
            b"m",
            b"0801120201",
            in_message(WireFault::Truncated { at: 2 }),
        ),
        (b"m", b"0001", in_message(WireFault::FieldNumber { at: 0 })),
        (
            b"m",
            b"ffffffffffffffffffff",
            in_message(WireFault::Varint { at: 0 }),
        ),
        (
            b"m",
            b"080108ffffffffffffffffffff01",
            in_message(WireFault::Varint { at: 2 }),
        ),
        (
            b"k",
            b"080112010b",
            ControlFault::Wire {
                path: Path::Field(2),
                fault: WireFault::WireType { at: 0 },
            },
        ),
        (
            b"b",
            b"0a030a010b",
            ControlFault::Wire {
                path: Path::Inner(1, 1),
                fault: WireFault::WireType { at: 0 },
            },
        ),
        (b"k", b"0801", missing(Path::Field(2))),
        (b"k", b"08011200", missing(Path::Inner(2, 1))),
        (b"l", b"-", missing(Path::Field(1))),
        (b"n", b"-", missing(Path::Field(1))),
        (b"j", b"-", missing(Path::Field(1))),
        (b"j", b"0a00", missing(Path::Field(2))),
        (b"j", b"0a001005", missing(Path::Field(4))),
        (b"j", b"0a0010052001", missing(Path::Field(5))),
        (b"c", b"-", missing(Path::Field(1))),
        (b"b", b"0a020a00", missing(Path::Innermost(1, 1, 1))),
        (
            b"b",
            b"0a130a110a04616b6b611201411a02683120b0c701",
            missing(Path::Inner(1, 2)),
        ),
    ];
    for (manifest, text, fault) in table {
        assert_eq!(rt; fault_of(rt.alloc(), manifest, text), Some(fault));
    }
}

#[test]
fn faults_of_values(rt: HostRuntime) {
    let table: [(&[u8], &[u8], ControlFault); 4] = [
        (
            b"b",
            b"0a160a120a04616b6b61120241211a02683120b0c7011001",
            ControlFault::BadText {
                path: Path::Innermost(1, 1, 2),
            },
        ),
        (
            b"b",
            b"0a130a0f0a04616b6b611201411a0020b0c7011001",
            ControlFault::BadText {
                path: Path::Innermost(1, 1, 3),
            },
        ),
        (
            b"b",
            b"0a130a0f0a04616b6b611201411a02683120001001",
            ControlFault::Range {
                path: Path::Innermost(1, 1, 4),
            },
        ),
        (
            b"b",
            b"0a150a110a04616b6b611201411a026831208080041001",
            ControlFault::Range {
                path: Path::Innermost(1, 1, 4),
            },
        ),
    ];
    for (manifest, text, fault) in table {
        assert_eq!(rt; fault_of(rt.alloc(), manifest, text), Some(fault));
    }
    let after_a: [(&[u8], &[u8], ControlFault); 10] = [
        (b"a", b"", missing(Path::Field(2))),
        (b"d", b"", missing(Path::Field(2))),
        (
            b"g",
            b"108002",
            ControlFault::Range {
                path: Path::Field(2),
            },
        ),
        (
            b"i",
            b"10011800",
            ControlFault::Range {
                path: Path::Field(3),
            },
        ),
        (
            b"i",
            b"10011802",
            ControlFault::Range {
                path: Path::Field(3),
            },
        ),
        (
            b"h",
            b"100118012201802800",
            ControlFault::BadText {
                path: Path::Field(4),
            },
        ),
        (
            b"h",
            b"1001180122016128808004",
            ControlFault::Range {
                path: Path::Field(5),
            },
        ),
        (
            b"f",
            b"100118012201612a0180",
            ControlFault::Wire {
                path: Path::Field(5),
                fault: WireFault::Truncated { at: 0 },
            },
        ),
        (
            b"f",
            b"100118012201612a020080",
            ControlFault::Wire {
                path: Path::Field(5),
                fault: WireFault::Truncated { at: 1 },
            },
        ),
        (
            b"f",
            b"1001180122016128002801",
            ControlFault::Unequal { keys: 1, values: 2 },
        ),
    ];
    for (manifest, text, fault) in after_a {
        assert_eq!(rt; fault_after_a(rt.alloc(), manifest, text), Some(fault));
    }
}
