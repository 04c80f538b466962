use super::*;
use artery_base::{Bytes, NoMemory};
use std::alloc::Global;
use std::test::*;

/// Whether the line tells an event that is printed as this line again.
fn is_event(alloc: Global, line: &[u8]) -> bool {
    let Ok(event) = read_event(alloc, line) else {
        return false;
    };
    let mut out = Bytes::new(alloc);
    print_event(&event, &mut out).is_ok() && out.as_slice() == line
}

/// Whether the line tells an event.
fn tells_event(alloc: Global, line: &[u8]) -> bool {
    read_event(alloc, line).is_ok()
}

/// Whether the line tells a request of a node, with `same` before it or without.
fn is_request(alloc: Global, line: &[u8], same: bool) -> bool {
    match read_request(alloc, line) {
        Ok((found, _)) => found == same,
        Err(_) => false,
    }
}

/// A line that is `front`, this many bytes `a`, and `end`.
fn long_line(alloc: Global, front: &[u8], count: usize, end: &[u8]) -> Result<Bytes, NoMemory> {
    let mut line = Bytes::from_slice(alloc, front)?;
    for _ in 0..count {
        line.push(b'a')?;
    }
    line.extend_from_slice(end)?;
    Ok(line)
}

/// Whether such a line tells an event.
fn tells_long(alloc: Global, front: &[u8], count: usize, end: &[u8]) -> bool {
    match long_line(alloc, front, count, end) {
        Ok(line) => tells_event(alloc, line.as_slice()),
        Err(_) => false,
    }
}

/// Whether the script is refused as a bad line of this number.
fn refused(alloc: Global, text: &[u8], line: u64) -> bool {
    match read_script(alloc, text) {
        Err(ScriptFault::BadLine { line: bad }) => bad == line,
        Err(_) => false,
        Ok(_) => false,
    }
}

/// Whether the requests are refused as a bad line of this number.
fn requests_refused(alloc: Global, text: &[u8], line: u64) -> bool {
    match read_requests(alloc, text) {
        Err(ScriptFault::BadLine { line: bad }) => bad == line,
        Err(_) => false,
        Ok(_) => false,
    }
}

/// Whether the script has so many events, the last of them in this line.
fn counted(alloc: Global, text: &[u8], len: usize, last: u64) -> bool {
    let Ok(script) = read_script(alloc, text) else {
        return false;
    };
    match script.as_slice() {
        [] => len == 0,
        [.., event] => script.len() == len && event.line == last,
    }
}

/// Whether the text of so many empty lines, and a bad one, has too many lines.
fn is_too_long(alloc: Global, count: usize) -> bool {
    let mut text = Bytes::new(alloc);
    if text.extend_from_slice(b"jump\n").is_err() {
        return false;
    }
    for _ in 1..count {
        if text.push(b'\n').is_err() {
            return false;
        }
    }
    read_script(alloc, text.as_slice()).is_err_and(|fault| fault == ScriptFault::TooManyLines)
        && read_requests(alloc, text.as_slice()).is_err_and(|fault| fault
            == ScriptFault::TooManyLines)
}

#[test]
fn each_event_is_read_and_printed(rt: HostRuntime) -> Result<(), Fail> {
    let lines: [&[u8]; 24] = [
        b"start akka://A@h1:25520 1",
        b"start akka://A@h1:25520 18446744073709551615",
        b"stop 0",
        b"at 1 pair akka://B@h2:25520",
        b"at 1 send akka://B@h2:25520 5 x 0102",
        b"at 1 send akka://B@h2:25520 17 %ff -",
        b"at 0 send akka://B@h2:25520 -2147483648 - -",
        b"at 1 tell akka://B@h2:25520 - akka://B@h2:25520/user/x 4 T 00ff",
        b"at 1 tell akka://B@h2:25520 %40a %2d -17 - -",
        b"at 1 watch /user/w akka://B@h2:25520/user/x",
        b"at 1 unwatch /user/w akka://B@h2:25520//",
        b"at 1 spawn /user/x",
        b"at 1 kill /user/x",
        b"at 1 quarantine akka://B@h2:25520",
        b"tick 1 4611686018427387903",
        b"answer 1 0",
        b"fail 1 18446744073709551615",
        b"carry 1 1 1",
        b"cut 1 2",
        b"end 1 2",
        b"cut 1 all",
        b"end 1 all",
        b"pass 1",
        b"pass 1000",
    ];
    for line in lines {
        assert!(rt; is_event(rt.alloc(), line));
    }
    Ok(())
}

#[test]
fn no_other_line_is_an_event(rt: HostRuntime) -> Result<(), Fail> {
    let lines: [&[u8]; 40] = [
        b"jump",
        b"",
        b" ",
        b"pass  1",
        b"pass 1 ",
        b" pass 1",
        b"pass 1\r",
        b"pass",
        b"pass 0",
        b"pass 1001",
        b"pass 01",
        b"pass 1 1",
        b"PASS 1",
        b"start akka://A@h1:25520 18446744073709551616",
        b"start akka://A@h1:0 1",
        b"stop",
        b"stop 1 1",
        b"tick 1 4611686018427387904",
        b"carry 1 1 0",
        b"carry 1 1",
        b"cut 1",
        b"cut all all",
        b"cut 1 All",
        b"end 1 all 1",
        b"answer 1 all",
        b"at 1",
        b"at 1 jump akka://B@h2:25520",
        b"at 1 pair akka://B@h2:25520 x",
        b"at 1 send akka://B@h2:25520 -0 x 01",
        b"at 1 send akka://B@h2:25520 5 @x 01",
        b"at 1 send akka://B@h2:25520 5 x 0A",
        b"at 1 send akka://B@h2:25520 5 x",
        b"at 1 same send akka://B@h2:25520 5 x 01",
        b"at 1 tell akka://B@h2:25520 - x 17 T -",
        b"at 1 tell akka://B@h2:25520 - %ff 4 T -",
        b"at 1 spawn /",
        b"at 1 spawn user",
        b"at 1 spawn /a%20",
        b"at 1 watch /user/w akka://B@h2:25520",
        b"at 1 watch /user/w akka://B@h2:25520/",
    ];
    for line in lines {
        assert!(rt; !tells_event(rt.alloc(), line));
    }
    Ok(())
}

#[test]
fn lengths_are_those_of_values(rt: HostRuntime) -> Result<(), Fail> {
    let cases: [(&[u8], usize, &[u8]); 5] = [
        (b"at 1 spawn /", 1_023, b""),
        (b"at 1 watch /w akka://B@h2:1/", 4_082, b""),
        (b"at 1 send akka://B@h2:1 5 ", 4_096, b" -"),
        (b"at 1 send akka://B@h2:1 5 %00", 4_095, b" -"),
        (b"at 1 send akka://B@h2:1 5 x ", 262_144, b""),
    ];
    for (front, count, end) in cases {
        assert!(rt; tells_long(rt.alloc(), front, count, end));
        assert!(rt; !tells_long(rt.alloc(), front, count + 2, end));
    }
    let names: [(&[u8], &[u8]); 3] = [
        (b"at 1 tell akka://B@h2:1 ", b" x 4 T -"),
        (b"at 1 tell akka://B@h2:1 - ", b" 4 T -"),
        (b"at 1 tell akka://B@h2:1 - x 4 ", b" -"),
    ];
    for (front, end) in names {
        assert!(rt; tells_long(rt.alloc(), front, 4_096, end));
        assert!(rt; !tells_long(rt.alloc(), front, 4_097, end));
    }
    Ok(())
}

#[test]
fn requests_of_a_node_are_read(rt: HostRuntime) -> Result<(), Fail> {
    let good: [(&[u8], bool); 5] = [
        (b"pair akka://B@h2:25520", false),
        (b"send akka://B@h2:25520 5 x 0102", false),
        (b"same send akka://B@h2:25520 5 x 0102", true),
        (b"same tell akka://B@h2:25520 - x 4 T 00ff", true),
        (b"spawn /user/0", false),
    ];
    for (line, same) in good {
        assert!(rt; is_request(rt.alloc(), line, same));
    }
    let bad: [&[u8]; 6] = [
        b"same",
        b"same pair akka://B@h2:25520",
        b"same spawn /user/0",
        b"same same send akka://B@h2:25520 5 x 0102",
        b"tell akka://B@h2:25520 - x 17 T 00ff",
        b"at 1 pair akka://B@h2:25520",
    ];
    for line in bad {
        assert!(rt; !is_request(rt.alloc(), line, false) && !is_request(rt.alloc(), line, true));
        assert!(rt; requests_refused(rt.alloc(), line, 1));
    }
    assert!(rt; requests_refused(rt.alloc(), b"#\n\nspawn /a\njump\npair x\n", 4));
    Ok(())
}

#[test]
fn lines_are_counted(rt: HostRuntime) -> Result<(), Fail> {
    let bad: [(&[u8], u64); 4] = [
        (b"pass 1\nstop 1\njump\n", 3),
        (b"# a remark\n\npass 1001", 3),
        (b"\n\njump\npass 0\n", 3),
        (b"jump\npass 0\npass 0\npass 0\npass 0", 1),
    ];
    for (text, line) in bad {
        assert!(rt; refused(rt.alloc(), text, line));
    }
    let good: [(&[u8], usize, u64); 6] = [
        (b"", 0, 0),
        (b"\n#\n\n", 0, 0),
        (b"pass 1", 1, 1),
        (b"pass 1000\n", 1, 1),
        (b"# jump\n\npass 1\n#\npass 2", 2, 5),
        (b"\n\n\nat 18446744073709551615 pair akka://B@h2:1", 1, 4),
    ];
    for (text, len, last) in good {
        assert!(rt; counted(rt.alloc(), text, len, last));
    }
    assert!(rt; is_too_long(rt.alloc(), 1_000_001));
    assert!(rt; refused(rt.alloc(), b"jump\n\n", 1));
    Ok(())
}
