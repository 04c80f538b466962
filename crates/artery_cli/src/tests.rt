use crate::journal_tests::KINDS;
use crate::run;
use artery_base::{Bytes, NoMemory, Numbers, Text};
use artery_io::{MemSink, MemSource};
use artery_text::{print_number, read_hex, text_of};
use std::alloc::Global;
use std::test::Fail;

/// What a run left: its status and what it wrote.
#[derive(Debug, Drop)]
struct Left {
    status: u8,
    written: Bytes,
}

/// The numbers of the calls that fail.
fn numbers(alloc: Global, failing: &[u64]) -> Result<Numbers, NoMemory> {
    let mut list = Numbers::new(alloc);
    for number in failing {
        list.push(*number)?;
    }
    Ok(list)
}

/// The words of a call, which spaces part.
fn words_in(alloc: Global, call: &[u8]) -> Option<Vec<Text>> {
    let mut words = Vec::new(alloc);
    for part in call.split(|byte| *byte == b' ') {
        let word = text_of(alloc, part).ok()?;
        words.push(word).ok()?;
    }
    Some(words)
}

/// Runs a call over an input; the given reads and writes fail.
fn run_once(
    alloc: Global,
    call: &[u8],
    input: &[u8],
    reads: &[u64],
    writes: &[u64],
) -> Option<Left> {
    let words = words_in(alloc, call)?;
    let bytes = Bytes::from_slice(alloc, input).ok()?;
    let reads = numbers(alloc, reads).ok()?;
    let writes = numbers(alloc, writes).ok()?;
    let mut source = MemSource::new(bytes, reads);
    let mut sink = MemSink::new(alloc, writes);
    let status = run(alloc, words.as_slice(), &mut source, &mut sink);
    let written = sink.bytes().clone().ok()?;
    Some(Left { status, written })
}

/// Whether a call of which given reads and writes fail leaves this.
fn leaves(
    alloc: Global,
    call: &[u8],
    input: &[u8],
    reads: &[u64],
    writes: &[u64],
    written: &[u8],
    status: u8,
) -> bool {
    match run_once(alloc, call, input, reads, writes) {
        Some(left) => left.status == status && left.written.as_slice() == written,
        None => false,
    }
}

/// Whether a call answers an input so.
pub fn tells(alloc: Global, call: &[u8], input: &[u8], written: &[u8], status: u8) -> bool {
    leaves(alloc, call, input, &[], &[], written, status)
}

/// Whether `replay` answers a script so.
fn answers(alloc: Global, input: &[u8], written: &[u8], status: u8) -> bool {
    tells(alloc, b"replay", input, written, status)
}

/// Whether `show` answers the bytes of a connection so, which are spelled in hexadecimal.
fn shows(alloc: Global, bytes: &[u8], written: &[u8], status: u8) -> bool {
    match read_hex(alloc, bytes) {
        Ok(input) => tells(alloc, b"show", input.as_slice(), written, status),
        Err(_) => false,
    }
}

/// Whether `make` gives these bytes, which are spelled in hexadecimal.
fn makes(alloc: Global, lines: &[u8], bytes: &[u8]) -> bool {
    match read_hex(alloc, bytes) {
        Ok(made) => tells(alloc, b"make", lines, made.as_slice(), 0),
        Err(_) => false,
    }
}

/// Three nodes that send to each other in turns.
const THREE: &[u8] = b"start akka://A@h1:1 1
start akka://B@h2:1 2
start akka://C@h3:1 3
at 1 pair akka://B@h2:1
at 2 pair akka://C@h3:1
at 3 pair akka://A@h1:1
pass 3
at 1 send akka://B@h2:1 1 - 01
at 2 send akka://C@h3:1 1 - 02
at 3 send akka://A@h1:1 1 - 03
pass 1
at 1 send akka://B@h2:1 1 - 04
at 1 send akka://C@h3:1 1 m -
pass 1
";

/// What the three nodes do.
pub const THREE_JOURNAL: &[u8] = b"akka://A@h1:1#1 started
akka://B@h2:1#2 started
akka://C@h3:1#3 started
akka://A@h1:1#1 learnt akka://B@h2:1#2
akka://B@h2:1#2 learnt akka://C@h3:1#3
akka://C@h3:1#3 learnt akka://A@h1:1#1
akka://B@h2:1#2 learnt akka://A@h1:1#1
akka://C@h3:1#3 learnt akka://B@h2:1#2
akka://A@h1:1#1 learnt akka://C@h3:1#3
akka://A@h1:1#1 sent akka://B@h2:1#2 1 1 - 01
akka://B@h2:1#2 sent akka://C@h3:1#3 1 1 - 02
akka://C@h3:1#3 sent akka://A@h1:1#1 1 1 - 03
akka://B@h2:1#2 took akka://A@h1:1#1 1 1 - 01
akka://C@h3:1#3 took akka://B@h2:1#2 1 1 - 02
akka://A@h1:1#1 took akka://C@h3:1#3 1 1 - 03
akka://A@h1:1#1 sent akka://B@h2:1#2 2 1 - 04
akka://A@h1:1#1 sent akka://C@h3:1#3 1 1 m -
akka://B@h2:1#2 took akka://A@h1:1#1 2 1 - 04
akka://C@h3:1#3 took akka://A@h1:1#1 1 1 m -
";

/// The bytes on their connections.
const THREE_COUNTS: &[u8] = b"bytes 1 1 346 346
bytes 2 1 279 279
bytes 3 1 341 279
bytes 2 2 336 336
bytes 3 2 274 274
bytes 1 2 343 343
bytes 1 3 84 84
bytes 2 3 84 84
bytes 3 3 84 84
bytes 2 4 84 84
bytes 3 4 84 84
bytes 1 4 84 84
";

/// Whether a call answers a script by a journal and counts.
fn answers_both(alloc: Global, script: &[u8], journal: &[u8], counts: &[u8]) -> bool {
    let Ok(mut written) = Bytes::from_slice(alloc, journal) else {
        return false;
    };
    written.extend_from_slice(counts).is_ok() && answers(alloc, script, written.as_slice(), 0)
}

/// Two words around a number, which stands behind the second again, and an end.
fn put_node(
    first: &[u8],
    second: &[u8],
    uid: u64,
    end: &[u8],
    out: &mut Bytes,
) -> Result<(), NoMemory> {
    out.extend_from_slice(first)?;
    print_number(uid, out)?;
    out.extend_from_slice(second)?;
    print_number(uid, out)?;
    out.extend_from_slice(end)
}

fn sixty_five_nodes(alloc: Global) -> Result<bool, NoMemory> {
    let mut script = Bytes::new(alloc);
    let mut written = Bytes::new(alloc);
    for uid in 1..65u64 {
        put_node(b"start akka://N@h", b":1 ", uid, b"\n", &mut script)?;
        put_node(b"akka://N@h", b":1#", uid, b" started\n", &mut written)?;
    }
    script.extend_from_slice(b"start akka://N@h65:1 65\n")?;
    written.extend_from_slice(b"fault line 65 limit nodes\n")?;
    Ok(answers(alloc, script.as_slice(), written.as_slice(), 6))
}

fn sixty_five_peers(alloc: Global) -> Result<bool, NoMemory> {
    let mut script = Bytes::from_slice(alloc, b"start akka://A@h:1 1\n")?;
    for number in 1..66u64 {
        script.extend_from_slice(b"at 1 pair akka://P@h")?;
        print_number(number, &mut script)?;
        script.extend_from_slice(b":1\n")?;
    }
    let written = b"akka://A@h:1#1 started\nakka://A@h:1#1 refused peers\n";
    Ok(answers(alloc, script.as_slice(), written, 0))
}

/// Calls that read nothing, what they write and their status.
const GENERATED: [(&[u8], &[u8], u8); 8] = [
    (
        b"gen 1",
        b"lines 11\nsent 1\ntook 1\ntold 0\ngot 0\nclosed 0\nterminated 0\n",
        0,
    ),
    (
        b"gen 2",
        b"lines 14\nsent 2\ntook 2\ntold 0\ngot 0\nclosed 0\nterminated 0\n",
        0,
    ),
    (
        b"gen 10000",
        b"lines 13835\nsent 2632\ntook 1834\ntold 1347\ngot 1039\nclosed 368\nterminated 332\n",
        0,
    ),
    (b"gen 0", b"fault words\n", 2),
    (b"gen 01", b"fault words\n", 2),
    (b"gen 10001", b"fault words\n", 2),
    (b"gen", b"fault words\n", 2),
    (b"gen x", b"fault words\n", 2),
];

#[test]
fn scripts_are_generated(rt: HostRuntime) -> Result<(), Fail> {
    let alloc = rt.alloc();
    for (call, written, status) in GENERATED {
        assert!(rt; tells(alloc, call, b"", written, status));
    }
    assert!(rt; leaves(alloc, b"gen 1", b"", &[1], &[1], b"", 4));
    Ok(())
}

/// Whether an option of `replay` gives this for one node that starts.
fn replays_with(alloc: Global, call: &[u8], written: &[u8]) -> bool {
    tells(alloc, call, b"start akka://A@h:1 1\n", written, 0)
}

#[test]
fn scripts_are_answered(rt: HostRuntime) -> Result<(), Fail> {
    let alloc = rt.alloc();
    assert!(rt; answers(alloc, b"", b"", 0));
    assert!(rt; sixty_five_nodes(alloc)?);
    assert!(rt; sixty_five_peers(alloc)?);
    assert!(rt;
        answers(
            alloc,
            b"start akka://A@h1:1 1\nstart akka://B@h2:1 1\n",
            b"akka://A@h1:1#1 started\nfault line 2 not-allowed used-uid\n",
            5
        )
    );
    assert!(rt;
        answers(
            alloc,
            b"start akka://A@h1:1 1\nstart akka://A@h1:1 2",
            b"akka://A@h1:1#1 started\nfault line 2 not-allowed address-live\n",
            5
        )
    );
    assert!(rt;
        answers(
            alloc,
            b"# nobody\nat 1 pair akka://A@h1:1",
            b"fault line 2 not-allowed not-live\n",
            5
        )
    );
    assert!(rt;
        answers(
            alloc,
            b"start akka://A@h1:1 1\n\nat 1 pair akka://A@h1:1\n",
            b"akka://A@h1:1#1 started\nfault line 3 not-allowed own-address\n",
            5
        )
    );
    assert!(rt; replays_with(alloc, b"replay --bytes", b"akka://A@h:1#1 started\n"));
    assert!(rt;
        replays_with(
            alloc,
            b"replay --moments",
            b"journal 2\n0 akka://A@h:1#1 started\n"
        )
    );
    assert!(rt; tells(alloc, b"replay --bytes --moments", b"", b"fault words\n", 2));
    assert!(rt; answers_both(alloc, THREE, THREE_JOURNAL, THREE_COUNTS));
    Ok(())
}

/// The bytes of a connection from A to B of which the first frame asks B for its UID.
const HANDSHAKE_BYTES: &[u8] =
    b"414b4b41014f000000000000000100000000000000110000001c0000001e00000020000000000000000100640a150a110a04616b6b611201411a02683120b0c701100112110a04616b6b611201421a02683220b0c7017801";

fn make_and_show_a_handshake(alloc: Global) -> bool {
    let lines = b"stream 1
frame 1 0 0 17 - - d 0a150a110a04616b6b611201411a02683120b0c701100112110a04616b6b611201421a02683220b0c7017801
";
    makes(alloc, lines, HANDSHAKE_BYTES)
}

fn make_and_show_a_handshake_2(alloc: Global) -> bool {
    let lines = b"stream 1
frame 1 0 0 17 - - d 0a150a110a04616b6b611201411a02683120b0c701100112110a04616b6b611201421a02683220b0c7017801
control handshake-req akka://A@h1:25520#1 akka://B@h2:25520 1
rest 0
";
    shows(alloc, HANDSHAKE_BYTES, lines, 0)
}

fn show_faulty_headers_and_preambles(alloc: Global) -> bool {
    let bytes = b"414b4b41011c00000001000000000000000000000000000000000000000000000000000000";
    shows(alloc, bytes, b"stream 1\ndrop version 1\nrest 0\n", 0)
}

fn show_faulty_headers_and_preambles_2(alloc: Global) -> bool {
    let bytes = b"414b4b41011c00000000010000000000000000000000000000000000000000000000000000";
    shows(alloc, bytes, b"stream 1\ndrop metadata\nrest 0\n", 0)
}

fn show_faulty_headers_and_preambles_3(alloc: Global) -> bool {
    shows(alloc, b"414b4b4103", b"fault stream bad-stream 4\n", 1)
}

fn show_faulty_headers_and_preambles_4(alloc: Global) -> bool {
    shows(alloc, b"414b5841", b"fault stream bad-magic 2\n", 1)
}

/// Bytes with so many times 64 zero bytes behind them, and then more.
fn zeros_behind(alloc: Global, first: &[u8], count: u64, more: &[u8]) -> Result<Bytes, NoMemory> {
    let mut bytes = Bytes::from_slice(alloc, first)?;
    for _ in 0..count {
        bytes.extend_from_slice(&[0u8; 64])?;
    }
    bytes.extend_from_slice(more)?;
    Ok(bytes)
}

/// A frame of 262,145 bytes is one byte too long.
fn show_the_longest_frame(alloc: Global) -> Result<bool, NoMemory> {
    let bytes = zeros_behind(alloc, b"AKKA\x01\x01\x00\x04\x00", 4096, &[0])?;
    let lines = b"stream 1\nfault stream too-long 5\n";
    Ok(tells(alloc, b"show", bytes.as_slice(), lines, 1))
}

fn show_the_longest_frame_2(alloc: Global) -> bool {
    let bytes = b"414b4b41011b000000000000000000000000000000000000000000000000000000000000";
    shows(alloc, bytes, b"stream 1\ndrop short 27\nrest 0\n", 0)
}

/// A control stream with one frame of 262,144 zero bytes: behind the header and three empty literals stand
/// 262,110 bytes of payload.
fn a_frame_of_the_most_bytes(alloc: Global) -> Result<bool, NoMemory> {
    let bytes = zeros_behind(alloc, b"AKKA\x01\x00\x00\x04\x00", 4096, &[])?;
    let mut lines = Bytes::from_slice(alloc, b"stream 1\nframe 0 0 0 0 - - - ")?;
    for _ in 0..262_110 {
        lines.extend_from_slice(b"00")?;
    }
    lines.extend_from_slice(b"\nrest 0\n")?;
    Ok(tells(alloc, b"show", bytes.as_slice(), lines.as_slice(), 0))
}

/// A control stream: the answer to a handshake, a numbered message and its Ack.
const CONTROL_BYTES: &[u8] =
    b"414b4b41013e000000000000000200000000000000110000001c0000001e00000020000000000000000100650a150a110a04616b6b611201421a02683220b0c70110027001780145000000000000000100000000000000110000001c0000001e000000200000000000000001006a0a02010210051a017820012a150a110a04616b6b611201411a02683120b0c70110013c000000000000000200000000000000110000001c0000001e000000200000000000000001006b080112150a110a04616b6b611201421a02683220b0c7011002";

/// What `show` tells of it.
const CONTROL_SHOWN: &[u8] = b"stream 1
frame 2 0 0 17 - - e 0a150a110a04616b6b611201421a02683220b0c701100270017801
control handshake-rsp akka://B@h2:25520#2 1 1
frame 1 0 0 17 - - j 0a02010210051a017820012a150a110a04616b6b611201411a02683120b0c7011001
control numbered 1 5 x 0102 akka://A@h1:25520#1
frame 2 0 0 17 - - k 080112150a110a04616b6b611201421a02683220b0c7011002
control ack 1 akka://B@h2:25520#2
rest 0
";

/// An ordinary stream: a message whose recipient and manifest are told by their numbers in tables.
const ORDINARY_BYTES: &[u8] =
    b"414b4b410220000000000001010100000000000000040000001c000000000000ff000000ff000000ff";

/// The lines of a capture but for those that only explain.
fn told_lines(alloc: Global, shown: &[u8]) -> Result<Bytes, NoMemory> {
    let mut lines = Bytes::new(alloc);
    for line in shown.split(|byte| *byte == b'\n') {
        if line.starts_with(b"stream ") || line.starts_with(b"frame ") {
            lines.extend_from_slice(line)?;
            lines.extend_from_slice(b"\n")?;
        }
    }
    Ok(lines)
}

/// Whether `make` gives the bytes of a connection again from the lines that `show` tells of them, but for
/// those that only explain.
fn is_made_again(alloc: Global, text: &[u8]) -> bool {
    let Ok(bytes) = read_hex(alloc, text) else {
        return false;
    };
    let Some(shown) = run_once(alloc, b"show", bytes.as_slice(), &[], &[]) else {
        return false;
    };
    match told_lines(alloc, shown.written.as_slice()) {
        Ok(lines) => tells(alloc, b"make", lines.as_slice(), bytes.as_slice(), 0),
        Err(_) => false,
    }
}

#[test]
fn connections_are_shown(rt: HostRuntime) -> Result<(), Fail> {
    let alloc = rt.alloc();
    assert!(rt; make_and_show_a_handshake_2(alloc));
    assert!(rt; show_faulty_headers_and_preambles(alloc));
    assert!(rt; show_faulty_headers_and_preambles_2(alloc));
    assert!(rt; show_faulty_headers_and_preambles_3(alloc));
    assert!(rt; show_faulty_headers_and_preambles_4(alloc));
    assert!(rt; show_the_longest_frame(alloc)?);
    assert!(rt; show_the_longest_frame_2(alloc));
    assert!(rt; a_frame_of_the_most_bytes(alloc)?);
    assert!(rt; shows(alloc, CONTROL_BYTES, CONTROL_SHOWN, 0));
    assert!(rt;
        shows(
            alloc,
            ORDINARY_BYTES,
            b"stream 2\nframe 1 1 1 4 - @0 @0 00ff\nrest 0\n",
            0
        )
    );
    assert!(rt; shows(alloc, b"-", b"rest 0\n", 0));
    assert!(rt; shows(alloc, b"414b4b", b"rest 3\n", 0));
    assert!(rt;
        shows(
            alloc,
            b"414b4b41021b0000000000000000000000000000000000000000000000000000000000000500000000",
            b"stream 2\ndrop short 27\nrest 5\n",
            0
        )
    );
    assert!(rt;
        shows(
            alloc,
            b"414b4b410101000400",
            b"stream 1\nfault stream too-long 5\n",
            1
        )
    );
    assert!(rt;
        shows(
            alloc,
            b"414b4b41011c000000010000000000000000000000000000000000000000000000000000001c00000000010000000000000000000000000000000000000000000000000000",
            b"stream 1\ndrop version 1\ndrop metadata\nrest 0\n",
            0
        )
    );
    Ok(())
}

#[test]
fn connections_are_made(rt: HostRuntime) -> Result<(), Fail> {
    let alloc = rt.alloc();
    assert!(rt; make_and_show_a_handshake(alloc));
    assert!(rt; is_made_again(alloc, HANDSHAKE_BYTES));
    assert!(rt; is_made_again(alloc, CONTROL_BYTES));
    assert!(rt; is_made_again(alloc, ORDINARY_BYTES));
    assert!(rt; tells(alloc, b"make", b"", b"fault line 1\n", 2));
    assert!(rt; tells(alloc, b"make", b"stream 3\n", b"fault line 1\n", 2));
    assert!(rt; tells(alloc, b"make", b"stream 1", b"AKKA\x01", 0));
    assert!(rt; tells(alloc, b"make", b"stream 1\n\n", b"fault line 2\n", 2));
    assert!(rt;
        tells(
            alloc,
            b"make",
            b"stream 1\nstream 1\n",
            b"fault line 2\n",
            2
        )
    );
    assert!(rt;
        tells(
            alloc,
            b"make",
            b"stream 2\nframe 1 0 0 4 - @7 T -\nframe 1 0 256 4 - @7 T -\n",
            b"fault line 3\n",
            2
        )
    );
    Ok(())
}

fn check_control_payloads(alloc: Global) -> bool {
    tells(
        alloc,
        b"check control n",
        b"0807\n",
        b"control heartbeat-rsp 7\n",
        0,
    )
}

fn check_control_payloads_2(alloc: Global) -> bool {
    tells(
        alloc,
        b"check control k",
        b"0801\n",
        b"fault control missing 2\n",
        1,
    )
}

fn check_control_payloads_3(alloc: Global) -> bool {
    tells(
        alloc,
        b"check control k",
        b"08011200",
        b"fault control missing 2.1\n",
        1,
    )
}

fn check_control_payloads_4(alloc: Global) -> bool {
    tells(
        alloc,
        b"check control m",
        b"0b",
        b"fault control wire-type 0 -\n",
        1,
    )
}

fn check_control_payloads_5(alloc: Global) -> bool {
    tells(
        alloc,
        b"check control z",
        b"-",
        b"fault control unknown-manifest\n",
        1,
    )
}

fn a_moment_goes_back_2(alloc: Global) -> bool {
    tells(alloc, b"replay --bytes --moments", b"", b"fault words\n", 2)
}

#[test]
fn payloads_and_words_are_checked(rt: HostRuntime) -> Result<(), Fail> {
    let alloc = rt.alloc();
    assert!(rt; check_control_payloads(alloc));
    assert!(rt; check_control_payloads_2(alloc));
    assert!(rt; check_control_payloads_3(alloc));
    assert!(rt; check_control_payloads_4(alloc));
    assert!(rt; check_control_payloads_5(alloc));
    assert!(rt; tells(alloc, b"check control m", b"-", b"control heartbeat\n", 0));
    assert!(rt; tells(alloc, b"check control m", b"", b"fault line 1\n", 2));
    assert!(rt; tells(alloc, b"check control m", b"0\n\n", b"fault line 1\n", 2));
    assert!(rt; tells(alloc, b"check control m", b"-\n\n", b"fault line 2\n", 2));
    assert!(rt; tells(alloc, b"check control %6d", b"-\n", b"fault words\n", 2));
    assert!(rt; tells(alloc, b"check control", b"-\n", b"fault words\n", 2));
    assert!(rt; tells(alloc, b"check journal x", b"-\n", b"fault words\n", 2));
    assert!(rt; tells(alloc, b"journal check", b"", b"fault words\n", 2));
    assert!(rt; a_moment_goes_back_2(alloc));
    Ok(())
}

#[test]
fn faults_of_the_outside_are_told(rt: HostRuntime) -> Result<(), Fail> {
    let alloc = rt.alloc();
    let start = b"start akka://A@h1:1 1\n";
    let bytes = b"AKKA\x02\x00\x00\x00\x00".as_slice();
    assert!(rt; leaves(alloc, b"reply", b"", &[], &[], b"fault words\n", 2));
    assert!(rt; leaves(alloc, b"replay", start, &[2], &[], b"fault read\n", 3));
    assert!(rt; leaves(alloc, b"replay", start, &[], &[1], b"", 4));
    assert!(rt; leaves(alloc, b"show", bytes, &[1], &[], b"fault read\n", 3));
    assert!(rt;
        leaves(
            alloc,
            b"show",
            bytes,
            &[2],
            &[],
            b"stream 2\ndrop short 0\nfault read\n",
            3
        )
    );
    assert!(rt;
        leaves(
            alloc,
            b"show",
            bytes,
            &[],
            &[2],
            b"stream 2\ndrop short 0\n",
            4
        )
    );
    assert!(rt; leaves(alloc, b"make", b"stream 1\n", &[], &[1], b"", 4));
    let two = b"start akka://A@h:1 1\nstart akka://B@h:1 2\n".as_slice();
    let first = b"akka://A@h:1#1 started\n".as_slice();
    assert!(rt; leaves(alloc, b"replay", two, &[], &[2], first, 4));
    assert!(rt;
        leaves(
            alloc,
            b"check journal",
            KINDS,
            &[1],
            &[],
            b"fault read\n",
            3
        )
    );
    assert!(rt;
        leaves(
            alloc,
            b"check journal",
            KINDS,
            &[2],
            &[],
            b"fault read\n",
            3
        )
    );
    assert!(rt; leaves(alloc, b"check journal", KINDS, &[], &[1], b"", 4));
    Ok(())
}

/// So many copies of a line.
fn copies(alloc: Global, line: &[u8], count: u64) -> Result<Bytes, NoMemory> {
    let mut text = Bytes::new(alloc);
    for _ in 0..count {
        text.extend_from_slice(line)?;
    }
    Ok(text)
}

/// Whether a call answers so many copies of a line so.
fn answers_copies(
    alloc: Global,
    call: &[u8],
    first: &[u8],
    line: &[u8],
    count: u64,
    written: &[u8],
    status: u8,
) -> Result<bool, NoMemory> {
    let mut input = Bytes::from_slice(alloc, first)?;
    let text = copies(alloc, line, count)?;
    input.extend_from_slice(text.as_slice())?;
    Ok(tells(alloc, call, input.as_slice(), written, status))
}

#[test]
fn limits_are_told(rt: HostRuntime) -> Result<(), Fail> {
    let alloc = rt.alloc();
    let start = b"start akka://A@h:1 1\n".as_slice();
    let started = b"akka://A@h:1#1 started\n".as_slice();
    assert!(rt; answers_copies(alloc, b"replay", start, b"\n", 999_999, started, 0)?);
    assert!(rt;
        answers_copies(
            alloc,
            b"replay",
            start,
            b"\n",
            1_000_000,
            b"fault limit lines\n",
            6
        )?
    );
    assert!(rt;
        answers_copies(
            alloc,
            b"make",
            b"0",
            b"0123456789abcdef0123456789abcdef",
            2_097_152,
            b"fault limit bytes\n",
            6
        )?
    );
    assert!(rt;
        answers_copies(
            alloc,
            b"check journal",
            b"",
            b"\n",
            1_000_001,
            b"fault limit lines\n",
            6
        )?
    );
    assert!(rt;
        answers_copies(
            alloc,
            b"check journal",
            b"",
            b"\n",
            1_000_000,
            b"fault line 1\n",
            2
        )?
    );
    Ok(())
}
