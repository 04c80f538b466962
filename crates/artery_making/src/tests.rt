use super::*;
use artery_base::Bytes;
use artery_text::read_hex;
use std::alloc::Global;
use std::test::*;

/// Whether the text is refused as a bad line of this number.
fn is_refused(alloc: Global, text: &[u8], line: u64) -> bool {
    match make_stream(alloc, text) {
        Err(MakeFault::BadLine { line: bad }) => bad == line,
        Err(_) => false,
        Ok(_) => false,
    }
}

/// Whether the text describes the bytes that are told in hexadecimal.
fn makes(alloc: Global, text: &[u8], hex: &[u8]) -> bool {
    let Ok(wanted) = read_hex(alloc, hex) else {
        return false;
    };
    match make_stream(alloc, text) {
        Ok(bytes) => bytes == wanted,
        Err(_) => false,
    }
}

/// A text with `front`, so many `a` and `back`.
fn long_text(alloc: Global, front: &[u8], len: usize, back: &[u8]) -> Option<Bytes> {
    let mut text = Bytes::from_slice(alloc, front).ok()?;
    for _ in 0..len {
        text.push(b'a').ok()?;
    }
    text.extend_from_slice(back).ok()?;
    Some(text)
}

/// Whether the text with `front`, so many `a` and `back` describes so many bytes.
fn makes_length(alloc: Global, front: &[u8], len: usize, back: &[u8], wanted: usize) -> bool {
    let Some(text) = long_text(alloc, front, len, back) else {
        return false;
    };
    match make_stream(alloc, text.as_slice()) {
        Ok(bytes) => bytes.len() == wanted,
        Err(_) => false,
    }
}

/// Whether the second line is bad of the text with `front`, so many `a` and `back`.
fn refuses_length(alloc: Global, front: &[u8], len: usize, back: &[u8]) -> bool {
    match long_text(alloc, front, len, back) {
        Some(text) => is_refused(alloc, text.as_slice(), 2),
        None => false,
    }
}

/// What stands before a sender.
const BEFORE_SENDER: &[u8] = b"stream 1\nframe 1 0 0 17 ";

/// What stands before a payload, behind names that take no bytes of their own.
const BEFORE_PAYLOAD: &[u8] = b"stream 2\nframe 1 0 0 17 @0 @1 @2 ";

#[test]
fn bad_lines_are_named(rt: HostRuntime) -> Result<(), Fail> {
    let cases: [(&[u8], u64); 28] = [
        (b"", 1),
        (b"\n", 1),
        (b"stream 3", 1),
        (b"stream", 1),
        (b"stream 1 ", 1),
        (b"stream  1", 1),
        (b"frame 1 0 0 17 - - d 00", 1),
        (b"\nstream 1", 1),
        (b"stream 1\n\n", 2),
        (b"stream 1\nstream 1", 2),
        (b"stream 1\n# remark", 2),
        (b"stream 1\nframe 1 0 0 17 - - d 00\nframe", 3),
        (b"stream 1\nframe 1 0 0 17 - - d 00 ", 2),
        (b"stream 1\nframe 1 0 0 17 - - d 00 00", 2),
        (b"stream 1\nframe 1 0 0 17 - - d", 2),
        (b"stream 1\nframe 1 0 0 17 - - d ", 2),
        (b"stream 1\nframe 1 0 0 17 - - d 0", 2),
        (b"stream 1\nframe 18446744073709551616 0 0 17 - - d 00", 2),
        (b"stream 1\nframe 1 256 0 17 - - d 00", 2),
        (b"stream 1\nframe 1 0 256 17 - - d 00", 2),
        (b"stream 1\nframe 1 0 0 2147483648 - - d 00", 2),
        (b"stream 1\nframe 1 0 0 -0 - - d 00", 2),
        (b"stream 1\nframe 1 0 0 17 @65536 - d 00", 2),
        (b"stream 1\nframe 1 0 0 17 - @ d 00", 2),
        (b"stream 1\nframe 1 0 0 17 - - @01 00", 2),
        (b"stream 1\nframe 1 0 0 17 %ff - d 00", 2),
        (b"stream 1\nframe 1 0 0 17 - a%80 d 00", 2),
        (b"stream 1\nframe 1 0 0 17 -  d 00", 2),
    ];
    for (text, line) in cases {
        assert!(rt; is_refused(rt.alloc(), text, line));
    }
    assert!(rt; refuses_length(rt.alloc(), BEFORE_SENDER, 65_536, b" - - -\n"));
    assert!(rt; refuses_length(rt.alloc(), BEFORE_PAYLOAD, 524_234, b""));
    Ok(())
}

#[test]
fn streams_are_made(rt: HostRuntime) -> Result<(), Fail> {
    let cases: [(&[u8], &[u8]); 6] = [
        (b"stream 1", b"414b4b4101"),
        (b"stream 2\n", b"414b4b4102"),
        (
            b"stream 1\nframe 1 0 0 17 - - d 0a150a110a04616b6b611201411a02683120b0c701100112110a04616b6b611201421a02683220b0c7017801\n",
            b"414b4b41014f000000000000000100000000000000110000001c0000001e00000020000000000000000100640a150a110a04616b6b611201411a02683120b0c701100112110a04616b6b611201421a02683220b0c7017801",
        ),
        (
            b"stream 2\nframe 1 1 1 4 - @0 @0 00ff",
            b"414b4b410220000000000001010100000000000000040000001c000000000000ff000000ff000000ff",
        ),
        (
            b"stream 2\nframe 18446744073709551615 255 255 -2147483648 @5 @65535 %40%09 -",
            b"414b4b4102200000000000ffffffffffffffffffff00000080050000ffffff00ff1c00000002004009",
        ),
        (
            b"stream 1\nframe 0 0 0 0 @0 @0 @0 -\nframe 0 0 0 0 @0 @0 @0 -",
            b"414b4b41011c00000000000000000000000000000000000000000000ff000000ff000000ff1c00000000000000000000000000000000000000000000ff000000ff000000ff",
        ),
    ];
    for (text, hex) in cases {
        assert!(rt; makes(rt.alloc(), text, hex));
    }
    assert!(rt; makes_length(rt.alloc(), BEFORE_SENDER, 65_535, b" - - -\n", 65_578));
    assert!(rt; makes_length(rt.alloc(), BEFORE_PAYLOAD, 524_232, b"", 262_153));
    Ok(())
}
