use crate::tests::tells;
use artery_base::{Bytes, NoMemory};
use artery_text::print_number;
use std::alloc::Global;
use std::test::*;

/// The part of A, which sends B a message.
const SENDER: &[u8] = b"of akka://A@h1:25520#1
akka://A@h1:25520#1 started
akka://A@h1:25520#1 learnt akka://B@h2:25520#2
akka://A@h1:25520#1 sent akka://B@h2:25520#2 1 5 x 0102
";

/// The part of B, which takes it.
const TAKER: &[u8] = b"of akka://B@h2:25520#2
akka://B@h2:25520#2 started
akka://B@h2:25520#2 learnt akka://A@h1:25520#1
akka://B@h2:25520#2 took akka://A@h1:25520#1 1 5 x 0102
";

/// The merge of both, where the part of B is the first.
const MERGE: &[u8] = b"akka://B@h2:25520#2 started
akka://B@h2:25520#2 learnt akka://A@h1:25520#1
akka://A@h1:25520#1 started
akka://A@h1:25520#1 learnt akka://B@h2:25520#2
akka://A@h1:25520#1 sent akka://B@h2:25520#2 1 5 x 0102
akka://B@h2:25520#2 took akka://A@h1:25520#1 1 5 x 0102
";

/// Two parts, of which each waits for the other.
const CIRCLE: &[u8] = b"of akka://A@h1:25520#1
akka://A@h1:25520#1 took akka://B@h2:25520#2 1 5 x 01
akka://A@h1:25520#1 sent akka://B@h2:25520#2 1 5 x 02
of akka://B@h2:25520#2
akka://B@h2:25520#2 took akka://A@h1:25520#1 1 5 x 02
akka://B@h2:25520#2 sent akka://A@h1:25520#1 1 5 x 01
";

/// Parts with a bad line, each behind the number of its first bad line, with `;` for a line feed.
const BAD_PARTS: &[u8] = b"\
1 ;
1 # a remark;
1 a://A@h:1#1 started;of a://A@h:1#1;
2 of a://A@h:1#1;a://A@h:1#2 started;
3 of a://A@h:1#1;of a://A@h:1#2;a://A@h:1#1 started;
3 of a://A@h:1#1;of a://A@h:1#2;of a://A@h:1#1;
2 of a://A@h:1#1;;a://A@h:1#1 started
2 of a://A@h:1#1;5 a://A@h:1#1 started
2 of a://A@h:1#1;a://A@h:1#1 started ;
2 of a://A@h:1#1;a://A@h:1#1 Started
1 of a://A@h:1#1 a://A@h:1#2;
1 of a://A@h:1#1 ;
1 of  a://A@h:1#1;
1 of a://A@h:1#01
1 of a://A@h:1;
1 of;
1 Of a://A@h:1#1;
1 journal 2;of a://A@h:1#1";

/// Whether `audit` answers parts so.
fn audits(alloc: Global, parts: &[u8], written: &[u8], status: u8) -> bool {
    tells(alloc, b"audit", parts, written, status)
}

/// Whether `audit --merge` answers parts with their merge.
fn merges(alloc: Global, parts: &[u8], merge: &[u8]) -> bool {
    tells(alloc, b"audit --merge", parts, merge, 0)
}

/// Whether both answer parts so.
fn both_answer(alloc: Global, parts: &[u8], written: &[u8], status: u8) -> bool {
    audits(alloc, parts, written, status) && tells(alloc, b"audit --merge", parts, written, status)
}

/// Two texts, one behind the other.
fn joined(alloc: Global, first: &[u8], second: &[u8]) -> Result<Bytes, NoMemory> {
    let mut text = Bytes::from_slice(alloc, first)?;
    text.extend_from_slice(second)?;
    Ok(text)
}

fn audit_two_parts(alloc: Global) -> bool {
    match joined(alloc, SENDER, TAKER) {
        Ok(parts) => audits(alloc, parts.as_slice(), b"lawful\n", 0),
        Err(_) => false,
    }
}

fn audit_two_parts_2(alloc: Global) -> bool {
    let written = b"fault audit akka://B@h2:25520#2 3 prefix\n";
    both_answer(alloc, TAKER, written, 1)
}

fn audit_two_parts_3(alloc: Global) -> bool {
    match joined(alloc, TAKER, SENDER) {
        Ok(parts) => merges(alloc, parts.as_slice(), MERGE),
        Err(_) => false,
    }
}

fn audit_a_circle(alloc: Global) -> bool {
    let written = b"fault audit akka://A@h1:25520#1 1 prefix\n";
    both_answer(alloc, CIRCLE, written, 1)
}

/// A text with a line feed for each `;`.
fn with_line_feeds(alloc: Global, text: &[u8]) -> Result<Bytes, NoMemory> {
    let mut lines = Bytes::new(alloc);
    for byte in text {
        lines.push(if *byte == b';' { b'\n' } else { *byte })?;
    }
    Ok(lines)
}

/// The line that tells a bad line, which has a number of one digit.
fn bad_line(alloc: Global, digit: u8) -> Result<Bytes, NoMemory> {
    let mut line = Bytes::from_slice(alloc, b"fault line ")?;
    line.push(digit)?;
    line.push(b'\n')?;
    Ok(line)
}

/// Whether a row of `BAD_PARTS` is answered so.
fn is_bad(alloc: Global, row: &[u8]) -> bool {
    let [digit, b' ', text @ ..] = row else {
        return false;
    };
    let (Ok(parts), Ok(line)) = (with_line_feeds(alloc, text), bad_line(alloc, *digit)) else {
        return false;
    };
    both_answer(alloc, parts.as_slice(), line.as_slice(), 2)
}

/// Whether each row of a table like `BAD_PARTS` is answered so.
fn each_is_bad(alloc: Global, table: &[u8]) -> bool {
    for row in table.split(|byte| *byte == b'\n') {
        if !is_bad(alloc, row) {
            return false;
        }
    }
    true
}

/// So many parts without a line, and then this text.
fn many_parts(alloc: Global, count: u64, more: &[u8]) -> Result<Bytes, NoMemory> {
    let mut parts = Bytes::new(alloc);
    for uid in 0..count {
        parts.extend_from_slice(b"of a://A@h:1#")?;
        print_number(uid, &mut parts)?;
        parts.push(b'\n')?;
    }
    parts.extend_from_slice(more)?;
    Ok(parts)
}

/// Whether so many parts without a line, and then this text, are answered so.
fn audits_many(alloc: Global, count: u64, more: &[u8], written: &[u8], status: u8) -> bool {
    match many_parts(alloc, count, more) {
        Ok(parts) => audits(alloc, parts.as_slice(), written, status),
        Err(_) => false,
    }
}

#[test]
fn parts_are_audited(rt: HostRuntime) -> Result<(), Fail> {
    let alloc = rt.alloc();
    assert!(rt; audit_two_parts(alloc));
    assert!(rt; audit_two_parts_2(alloc));
    assert!(rt; audit_two_parts_3(alloc));
    assert!(rt; audit_a_circle(alloc));
    assert!(rt; audits(alloc, b"", b"lawful\n", 0));
    assert!(rt; audits(alloc, b"of a://A@h:1#1", b"lawful\n", 0));
    assert!(rt; merges(alloc, b"of a://A@h:1#1\n", b""));
    Ok(())
}

#[test]
fn the_first_bad_line_of_parts_is_told(rt: HostRuntime) -> Result<(), Fail> {
    let alloc = rt.alloc();
    assert!(rt; each_is_bad(alloc, BAD_PARTS));
    Ok(())
}

#[test]
fn at_most_64_parts(rt: HostRuntime) -> Result<(), Fail> {
    let alloc = rt.alloc();
    assert!(rt; audits_many(alloc, 64, b"", b"lawful\n", 0));
    assert!(rt; audits_many(alloc, 65, b"", b"fault limit parts\n", 6));
    // a bad line is told before
    assert!(rt; audits_many(alloc, 65, b"of a://A@h:1#7\n", b"fault line 66\n", 2));
    assert!(rt; tells(alloc, b"audit --all", b"", b"fault words\n", 2));
    Ok(())
}
