use super::*;
use artery_base::Bytes;
use std::alloc::AllocError;

/// A control stream with a handshake request of 79 bytes, a frame of 27 zero bytes, an empty frame, and
/// the first 3 bytes of a frame of 5.
const WRITTEN: [u8; 130] = [
    65, 75, 75, 65, 1, 79, 0, 0, 0, 0, 0, 0, 0, 1, 0, 0, 0, 0, 0, 0, 0, 17, 0, 0, 0, 28, 0, 0, 0,
    30, 0, 0, 0, 32, 0, 0, 0, 0, 0, 0, 0, 1, 0, 100, 10, 21, 10, 17, 10, 4, 97, 107, 107, 97, 18,
    1, 65, 26, 2, 104, 49, 32, 176, 199, 1, 16, 1, 18, 17, 10, 4, 97, 107, 107, 97, 18, 1, 66, 26,
    2, 104, 50, 32, 176, 199, 1, 120, 1, 27, 0, 0, 0, 0, 0, 0, 0, 0, 0, 0, 0, 0, 0, 0, 0, 0, 0, 0,
    0, 0, 0, 0, 0, 0, 0, 0, 0, 0, 0, 0, 0, 0, 0, 0, 5, 0, 0, 0, 7, 8, 9,
];

/// Notes the lengths of the frames until there is none, and then the fault.
fn told(deframer: &mut Deframer, lens: &mut Vec<usize>) -> Result<Option<FrameFault>, AllocError> {
    for _ in 0..1000 {
        match deframer.next() {
            Ok(Some(frame)) => lens.push(frame.len())?,
            Ok(None) => return Ok(None),
            Err(fault) => return Ok(Some(fault)),
        }
    }
    Ok(None)
}

#[test]
fn frames_come_in_any_two_pieces(rt: HostRuntime) -> Result<(), AllocError> {
    let alloc = rt.alloc();
    for cut in 0..131 {
        let mut deframer = Deframer::new(alloc);
        let mut lens = Vec::new(alloc);
        let front = &WRITTEN[..cut];
        let rest = &WRITTEN[cut..];
        assert!(rt; deframer.feed(front).is_ok());
        assert_eq!(rt; told(&mut deframer, &mut lens)?, None);
        assert!(rt; deframer.feed(rest).is_ok());
        assert_eq!(rt; told(&mut deframer, &mut lens)?, None);
        assert_eq!(rt;
            lens.as_slice(),
            [79usize, 27, 0].as_slice(),
            "cut at {cut}"
        );
        assert_eq!(rt; deframer.stream(), Some(Stream::Control));
        assert_eq!(rt; deframer.offset(), 123);
        assert_eq!(rt; deframer.held(), 7);
    }
    Ok(())
}

#[test]
fn a_stream_says_what_it_is(rt: HostRuntime) -> Result<(), AllocError> {
    let table: [(&[u8], Option<Stream>, Option<FrameFault>, u64, usize); 10] = [
        (b"", None, None, 0, 0),
        (b"AKK", None, None, 0, 3),
        (b"AKKA", None, None, 0, 4),
        (b"AKKA\x01", Some(Stream::Control), None, 5, 0),
        (b"AKKA\x02\x04\0\0", Some(Stream::Ordinary), None, 5, 3),
        (b"AKXA", None, Some(FrameFault::BadMagic { at: 2 }), 2, 4),
        (b"B", None, Some(FrameFault::BadMagic { at: 0 }), 0, 1),
        (
            b"AKKB\x01",
            None,
            Some(FrameFault::BadMagic { at: 3 }),
            3,
            5,
        ),
        (
            b"AKKA\x03",
            None,
            Some(FrameFault::BadStream { id: 3 }),
            4,
            5,
        ),
        (
            b"AKKA\x01\x01\0\0\0\x07\x01\0\x04\0",
            Some(Stream::Control),
            Some(FrameFault::TooLong { len: 262_145 }),
            10,
            4,
        ),
    ];
    for (bytes, stream, fault, offset, held) in table {
        let mut deframer = Deframer::new(rt.alloc());
        let mut lens = Vec::new(rt.alloc());
        if bytes.len() > PIECE_LIMIT {
            return Ok(());
        }
        assert!(rt; deframer.feed(bytes).is_ok());
        assert_eq!(rt; told(&mut deframer, &mut lens)?, fault);
        assert_eq!(rt; deframer.stream(), stream);
        assert_eq!(rt; deframer.offset(), offset);
        assert_eq!(rt; deframer.held(), held);
        assert_eq!(rt; told(&mut deframer, &mut lens)?, fault);
        let after = match fault {
            None => Ok(()),
            Some(_) => Err(FeedFault::Broken),
        };
        assert_eq!(rt; deframer.feed(b""), after);
    }
    Ok(())
}

#[test]
fn the_longest_frame_comes_with_room(rt: HostRuntime) -> Result<(), AllocError> {
    let Ok(mut deframer) = Deframer::with_room(rt.alloc()) else {
        return Err(AllocError);
    };
    let zeros = [0u8; 4096];
    assert_eq!(rt; deframer.feed_room(b"AKKA\x02\0\0\x04\0"), Ok(()));
    for piece in 1..65 {
        assert_eq!(rt; deframer.next(), Ok(None), "before piece {piece}");
        if deframer.held() > 262_144 {
            return Ok(());
        }
        assert_eq!(rt; deframer.feed_room(&zeros), Ok(()));
        assert_eq!(rt; deframer.held(), 4 + 4096 * piece);
    }
    let mut lens = Vec::new(rt.alloc());
    assert_eq!(rt; told(&mut deframer, &mut lens)?, None);
    assert_eq!(rt; lens.as_slice(), [262_144usize].as_slice());
    assert_eq!(rt; deframer.offset(), 262_153);
    Ok(())
}

#[test]
fn what_is_written_is_read(rt: HostRuntime) -> Result<(), AllocError> {
    let mut out = Bytes::new(rt.alloc());
    assert!(rt; write_preamble(Stream::Ordinary, &mut out).is_ok());
    assert_eq!(rt; out.as_slice(), b"AKKA\x02".as_slice());
    assert!(rt; write_frame(b"abc", &mut out).is_ok());
    assert_eq!(rt; out.as_slice(), b"AKKA\x02\x03\0\0\0abc".as_slice());
    out.clear();
    assert!(rt; write_preamble(Stream::Control, &mut out).is_ok());
    assert_eq!(rt; out.as_slice(), b"AKKA\x01".as_slice());
    one_reading();
    readings_are_within();
    pieces_join();
    keeping_stands();
    holding_stands();
    limits_stand();
    Ok(())
}
