use super::*;
use artery_base::Bytes;
use artery_control::read_control;
use std::alloc::Global;
use std::test::*;

/// A control stream with a handshake request of 79 bytes, a frame of 27 zero bytes, an empty frame, and
/// the first 3 bytes of a frame of 5.
const REQUESTED: [u8; 130] = [
    65, 75, 75, 65, 1, 79, 0, 0, 0, 0, 0, 0, 0, 1, 0, 0, 0, 0, 0, 0, 0, 17, 0, 0, 0, 28, 0, 0, 0,
    30, 0, 0, 0, 32, 0, 0, 0, 0, 0, 0, 0, 1, 0, 100, 10, 21, 10, 17, 10, 4, 97, 107, 107, 97, 18,
    1, 65, 26, 2, 104, 49, 32, 176, 199, 1, 16, 1, 18, 17, 10, 4, 97, 107, 107, 97, 18, 1, 66, 26,
    2, 104, 50, 32, 176, 199, 1, 120, 1, 27, 0, 0, 0, 0, 0, 0, 0, 0, 0, 0, 0, 0, 0, 0, 0, 0, 0, 0,
    0, 0, 0, 0, 0, 0, 0, 0, 0, 0, 0, 0, 0, 0, 0, 0, 5, 0, 0, 0, 7, 8, 9,
];

const REQUESTED_LINES: &[u8] =
    b"stream 1\nframe 1 0 0 17 - - d 0a150a110a04616b6b611201411a02683120b0c701100112110a04616b6b611201421a02683220b0c7017801\ncontrol handshake-req akka://A@h1:25520#1 akka://B@h2:25520 1\ndrop short 27\ndrop short 0\nrest 7\n";

/// Whether a connection of these bytes, which come in two pieces, has these lines.
fn has_lines(alloc: Global, bytes: &[u8], cut: usize, lines: &[u8], faulty: bool) -> bool {
    if cut > bytes.len() || bytes.len() > 65_536 {
        return false;
    }
    let Ok(mut capture) = Capture::with_room(alloc) else {
        return false;
    };
    let mut out = Bytes::new(alloc);
    if capture.tell(alloc, &bytes[..cut], &mut out).is_err() {
        return false;
    }
    if capture.tell(alloc, &bytes[cut..], &mut out).is_err() {
        return false;
    }
    match capture.finish(&mut out) {
        Ok(found) => found == faulty && out.as_slice() == lines,
        Err(_) => false,
    }
}

/// Whether a payload is the control message, or has the fault, with this text.
fn has_text(alloc: Global, manifest: &[u8], payload: &[u8], text: &[u8]) -> bool {
    let mut out = Bytes::new(alloc);
    match read_control(alloc, manifest, payload) {
        Ok(control) => print_control(&control, &mut out).is_ok() && out.as_slice() == text,
        Err(fault) => print_control_fault(fault, &mut out).is_ok() && out.as_slice() == text,
    }
}

#[test]
fn connections_are_shown(rt: HostRuntime) -> Result<(), Fail> {
    for cut in 0..131 {
        assert!(rt;
            has_lines(rt.alloc(), &REQUESTED, cut, REQUESTED_LINES, false),
            "cut at {cut}"
        );
    }
    let connections: [(&[u8], &[u8], bool); 8] = [
        (b"", b"rest 0\n", false),
        (b"AKK", b"rest 3\n", false),
        (b"AKXA\x01", b"fault stream bad-magic 2\n", true),
        (b"AKXAAKKA", b"fault stream bad-magic 2\n", true),
        (b"AKKA\x03", b"fault stream bad-stream 4\n", true),
        (
            b"AKKA\x02\x01\0\x04\0\0",
            b"stream 2\nfault stream too-long 5\n",
            true,
        ),
        (
            b"AKKA\x02\x20\0\0\0\0\0\x01\x01\x01\0\0\0\0\0\0\0\x04\0\0\0\x1c\0\0\0\0\0\0\xff\x05\0\0\xff\0\0\0\xff",
            b"stream 2\nframe 1 1 1 4 - @0 @5 00ff\nrest 0\n",
            false,
        ),
        (
            b"AKKA\x02\x23\0\0\0\0\0\x02\x01\x01\0\0\0\0\0\0\0\xff\xff\xff\xff\x1c\0\0\0\0\0\0\xff\x05\0\0\xff\x03\0@ %\0\0",
            b"stream 2\nframe 1 2 1 -1 %40%20%25 @0 @5 0000\nrest 0\n",
            false,
        ),
    ];
    for (bytes, lines, faulty) in connections {
        assert!(rt; has_lines(rt.alloc(), bytes, bytes.len() / 2, lines, faulty));
    }
    Ok(())
}

#[test]
fn control_messages_are_shown(rt: HostRuntime) -> Result<(), Fail> {
    let messages: [(&[u8], &[u8], &[u8]); 14] = [
        (
            b"a",
            b"\x0a\x15\x0a\x11\x0a\x04akka\x12\x01A\x1a\x02h1\x20\xb0\xc7\x01\x10\x01\x12\x15\x0a\x11\x0a\x04akka\x12\x01B\x1a\x02h2\x20\xb0\xc7\x01\x10\x02",
            b"quarantined akka://A@h1:25520#1 akka://B@h2:25520#2",
        ),
        (
            b"b",
            b"\x0a\x15\x0a\x11\x0a\x04akka\x12\x01B\x1a\x02h2\x20\xb0\xc7\x01\x10\x02",
            b"terminating akka://B@h2:25520#2",
        ),
        (
            b"c",
            b"\x0a\x15\x0a\x11\x0a\x04akka\x12\x01B\x1a\x02h2\x20\xb0\xc7\x01\x10\x02",
            b"terminating-ack akka://B@h2:25520#2",
        ),
        (
            b"e",
            b"\x0a\x15\x0a\x11\x0a\x04akka\x12\x01B\x1a\x02h2\x20\xb0\xc7\x01\x10\x02\x78\x01",
            b"handshake-rsp akka://B@h2:25520#2 - 1",
        ),
        (
            b"f",
            b"\x0a\x15\x0a\x11\x0a\x04akka\x12\x01B\x1a\x02h2\x20\xb0\xc7\x01\x10\x02\x10\x01\x18\x01\x22\x01a\x22\x02b=\x28\x00\x28\x01",
            b"refs-table akka://B@h2:25520#2 1 1 2 a=0 b==1",
        ),
        (
            b"g",
            b"\x0a\x15\x0a\x11\x0a\x04akka\x12\x01B\x1a\x02h2\x20\xb0\xc7\x01\x10\x02\x10\x07",
            b"refs-ack akka://B@h2:25520#2 7",
        ),
        (
            b"h",
            b"\x0a\x15\x0a\x11\x0a\x04akka\x12\x01B\x1a\x02h2\x20\xb0\xc7\x01\x10\x02\x10\x01\x18\x01",
            b"manifests-table akka://B@h2:25520#2 1 1 0",
        ),
        (
            b"i",
            b"\x0a\x15\x0a\x11\x0a\x04akka\x12\x01B\x1a\x02h2\x20\xb0\xc7\x01\x10\x02\x10\x07",
            b"manifests-ack akka://B@h2:25520#2 7",
        ),
        (
            b"j",
            b"\x0a\x02\x01\x02\x10\x05\x1a\x01x\x20\x01\x2a\x15\x0a\x11\x0a\x04akka\x12\x01A\x1a\x02h1\x20\xb0\xc7\x01\x10\x01",
            b"numbered 1 5 x 0102 akka://A@h1:25520#1",
        ),
        (
            b"k",
            b"\x08\x01\x12\x15\x0a\x11\x0a\x04akka\x12\x01B\x1a\x02h2\x20\xb0\xc7\x01\x10\x02",
            b"ack 1 akka://B@h2:25520#2",
        ),
        (
            b"l",
            b"\x08\x01\x12\x15\x0a\x11\x0a\x04akka\x12\x01B\x1a\x02h2\x20\xb0\xc7\x01\x10\x02",
            b"nack 1 akka://B@h2:25520#2",
        ),
        (b"m", b"", b"heartbeat"),
        (b"n", b"\x08\x02", b"heartbeat-rsp 2"),
        (b"z", b"", b"unknown-manifest"),
    ];
    for (manifest, payload, text) in messages {
        assert!(rt; has_text(rt.alloc(), manifest, payload, text));
    }
    let faults: [(&[u8], &[u8], &[u8]); 3] = [
        (b"n", b"", b"missing 1"),
        (b"n", b"\x08", b"truncated 0 -"),
        (b"b", b"\x0a\x02\x10\x02", b"missing 1.1"),
    ];
    for (manifest, payload, text) in faults {
        assert!(rt; has_text(rt.alloc(), manifest, payload, text));
    }
    Ok(())
}
