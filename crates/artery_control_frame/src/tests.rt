use super::*;
use artery_base::Bytes;
use artery_control::read_control;
use std::alloc::{AllocError, Global};

/// The frame of a handshake request of incarnation 1 from `akka://A@h1:25520#1` to `akka://B@h2:25520`, nonce 1.
const ASKED: [u8; 83] = [
    79, 0, 0, 0, 0, 0, 0, 0, 1, 0, 0, 0, 0, 0, 0, 0, 17, 0, 0, 0, 28, 0, 0, 0, 30, 0, 0, 0, 32, 0,
    0, 0, 0, 0, 0, 0, 1, 0, 100, 10, 21, 10, 17, 10, 4, 97, 107, 107, 97, 18, 1, 65, 26, 2, 104,
    49, 32, 176, 199, 1, 16, 1, 18, 17, 10, 4, 97, 107, 107, 97, 18, 1, 66, 26, 2, 104, 50, 32,
    176, 199, 1, 120, 1,
];

/// The frame of a heartbeat of incarnation 258.
const ALIVE: [u8; 39] = [
    35, 0, 0, 0, 0, 0, 0, 0, 2, 1, 0, 0, 0, 0, 0, 0, 17, 0, 0, 0, 28, 0, 0, 0, 30, 0, 0, 0, 32, 0,
    0, 0, 0, 0, 0, 0, 1, 0, 109,
];

/// Whether the message of this letter, whose payload is the end of the frame, is written as the frame.
fn is_written(alloc: Global, letter: &[u8], uid: u64, frame: &[u8]) -> bool {
    let Ok(control) = read_control(alloc, letter, frame.get(39..).unwrap_or(&[])) else {
        return false;
    };
    let mut out = Bytes::new(alloc);
    write_control_frame(&control, uid, &mut out).is_ok() && *out.as_slice() == *frame
}

#[test]
fn frames_are_written(rt: HostRuntime) -> Result<(), AllocError> {
    let table: [(&[u8], u64, &[u8]); 2] = [(b"d", 1, &ASKED), (b"m", 258, &ALIVE)];
    for (letter, uid, frame) in table {
        assert!(rt; is_written(rt.alloc(), letter, uid, frame));
    }
    control_frame_is_read();
    limits_stand();
    Ok(())
}
