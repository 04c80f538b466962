use crate::tests::{THREE_JOURNAL, tells};
use artery_base::Bytes;
use artery_journal::{Journal, print_line, print_stamped};
use artery_journal_reading::read_journal;
use std::alloc::Global;
use std::test::*;

/// A lawful journal with a line of each kind.
pub const KINDS: &[u8] = b"\
akka://A@h1:1#1 started
akka://B@h2:65535#18446744073709551615 started
akka://A@h1:1#1 learnt akka://B@h2:65535#18446744073709551615
akka://B@h2:65535#18446744073709551615 learnt akka://A@h1:1#1
akka://A@h1:1#1 sent akka://B@h2:65535#18446744073709551615 1 -2147483648 %ff -
akka://A@h1:1#1 sent akka://B@h2:65535#18446744073709551615 2 5 x 0102
akka://B@h2:65535#18446744073709551615 took akka://A@h1:1#1 1 -2147483648 %ff -
akka://B@h2:65535#18446744073709551615 took akka://A@h1:1#1 2 5 x 0102
akka://B@h2:65535#18446744073709551615 again akka://A@h1:1#1 2
akka://B@h2:65535#18446744073709551615 gap akka://A@h1:1#1 18446744073709551615
akka://A@h1:1#1 told akka://B@h2:65535#18446744073709551615 1 - %40a 17 T 00ff
akka://A@h1:1#1 told akka://B@h2:65535#18446744073709551615 1 a - 17 - -
akka://B@h2:65535#18446744073709551615 got akka://A@h1:1#1 1 a - 17 - -
akka://A@h1:1#1 dropped 1 unknown-index manifest 255 65535
akka://A@h1:1#1 stray akka://B@h2:65535#18446744073709551615 7
akka://A@h1:1#1 watched 1 akka://A@h1:1/w akka://B@h2:65535/user/x
akka://A@h1:1#1 watched 2 akka://A@h1:1/w akka://B@h2:65535/user/y
akka://A@h1:1#1 unwatched 1
akka://A@h1:1#1 refused remote-watches
akka://A@h1:1#1 spawned /user/x
akka://A@h1:1#1 ended //
akka://A@h1:1#1 advertised akka://B@h2:65535#18446744073709551615 refs 1 256
akka://A@h1:1#1 adopted akka://B@h2:65535#18446744073709551615 manifests 1
akka://A@h1:1#1 skipped 0 1 2 3
akka://A@h1:1#1 idle akka://B@h2:65535#18446744073709551615
akka://A@h1:1#1 closed akka://B@h2:65535#18446744073709551615 undelivered
akka://A@h1:1#1 terminated 2
akka://A@h1:1#1 barred akka://B@h2:65535#18446744073709551615
akka://B@h2:65535#18446744073709551615 notice akka://A@h1:1#1
akka://A@h1:1#1 stopped
";

/// A dropped line for each form of a rule.
const RULES: &[u8] = b"\
a://A@h:1#1 dropped 1 short 27
a://A@h:1#1 dropped 1 version 1
a://A@h:1#1 dropped 1 literal-past sender
a://A@h:1#1 dropped 1 not-ascii recipient
a://A@h:1#1 dropped 1 unknown-version recipient 5
a://A@h:1#1 dropped 1 old-table
a://A@h:1#1 dropped 1 self
a://A@h:1#1 dropped 1 control unknown-manifest
a://A@h:1#1 dropped 1 control varint 0 -
a://A@h:1#1 dropped 1 control truncated 18446744073709551615 1.255.3
a://A@h:1#1 dropped 1 control range 2.4
a://A@h:1#1 dropped 1 control unequal 1 0
";

/// A lawful journal with moments, which fall from one incarnation's to another's.
const MOMENTS: &[u8] = b"\
journal 2
5 a://A@h:1#1 started
4611686018427387903 a://B@h:1#2 started
5 a://A@h:1#1 learnt a://B@h:1#2
6 a://A@h:1#1 stopped
";

/// Texts that are no line, the first of them empty.
const NO_LINES: &[u8] = b"\
\n\
#\n\
# a remark\n\
a://A@h:1 started\n\
a://A@h:1#01 started\n\
a://A@h:1#1\n\
a://A@h:1#1 started \n\
a://A@h:1#1  started\n\
\x20a://A@h:1#1 started\n\
a://A@h:1#1 started\r\n\
a://A@h:1#1 Started\n\
a://A@h:1#1 learnt\n\
a://A@h:1#1 learnt a://B@h:1#2 1\n\
a://A@h:1#1 closed a://B@h:1#2 idle\n\
a://A@h:1#1 sent a://B@h:1#2 1 -0 x -\n\
a://A@h:1#1 sent a://B@h:1#2 1 5 @x -\n\
a://A@h:1#1 sent a://B@h:1#2 1 5 x 0A\n\
a://A@h:1#1 sent a://B@h:1#2 1 5 x\n\
a://A@h:1#1 told a://B@h:1#2 - - x 5 x -\n\
a://A@h:1#1 got a://B@h:1#2 - %ff x 5 x -\n\
a://A@h:1#1 dropped 1\n\
a://A@h:1#1 dropped 1 control missing 0\n\
a://A@h:1#1 dropped 1 control missing 256\n\
a://A@h:1#1 dropped 1 control missing 1.\n\
a://A@h:1#1 dropped 1 control missing 1.2.3.4\n\
a://A@h:1#1 watched 1 a://A@h:1/w a://B@h:1\n\
a://A@h:1#1 refused idle\n\
a://A@h:1#1 spawned /\n\
a://A@h:1#1 adopted a://B@h:1#2 refs\n\
1 a://A@h:1#1 started";

/// Whether `check journal` answers a text so.
fn judges(alloc: Global, text: &[u8], written: &[u8], status: u8) -> bool {
    tells(alloc, b"check journal", text, written, status)
}

/// Whether a journal is lawful.
fn is_lawful(alloc: Global, text: &[u8]) -> bool {
    judges(alloc, text, b"lawful\n", 0)
}

/// Whether a journal breaks a law, as this line tells.
fn breaks(alloc: Global, text: &[u8], written: &[u8]) -> bool {
    judges(alloc, text, written, 1)
}

/// Whether a text has a bad line, as this line tells.
fn is_bad(alloc: Global, text: &[u8], written: &[u8]) -> bool {
    judges(alloc, text, written, 2)
}

/// Whether each line of a text, alone, is bad.
fn each_is_bad(alloc: Global, text: &[u8]) -> bool {
    for line in text.split(|byte| *byte == b'\n') {
        let mut alone = Bytes::new(alloc);
        if alone.extend_from_slice(line).is_err() || alone.push(b'\n').is_err() {
            return false;
        }
        if !is_bad(alloc, alone.as_slice(), b"fault line 1\n") {
            return false;
        }
    }
    true
}

/// Prints a journal as its text.
fn print_journal(journal: &Journal, out: &mut Bytes) -> bool {
    match journal {
        Journal::Plain(lines) => {
            for line in lines.as_slice() {
                if print_line(line, out).is_err() || out.push(b'\n').is_err() {
                    return false;
                }
            }
        }
        Journal::Stamped(lines) => {
            if out.extend_from_slice(b"journal 2\n").is_err() {
                return false;
            }
            for line in lines.as_slice() {
                if print_stamped(line, out).is_err() || out.push(b'\n').is_err() {
                    return false;
                }
            }
        }
    }
    true
}

/// Whether a text is read as a journal that is printed as this text again.
fn is_printed_again(alloc: Global, text: &[u8]) -> bool {
    let Ok(journal) = read_journal(alloc, text) else {
        return false;
    };
    let mut out = Bytes::new(alloc);
    print_journal(&journal, &mut out) && out.as_slice() == text
}

fn judge_two_journals(alloc: Global) -> bool {
    let journal = b"akka://A@h1:25520#1 sent akka://B@h2:25520#2 1 5 x 01
akka://B@h2:25520#2 took akka://A@h1:25520#1 1 5 x 02
";
    breaks(alloc, journal, b"fault journal 2 prefix\n")
}

fn judge_two_journals_3(alloc: Global) -> bool {
    let journal = b"akka://A@h1:25520#1 started
akka://B@h2:25520#2 started
akka://A@h1:25520#1 learnt akka://B@h2:25520#2
akka://B@h2:25520#2 learnt akka://A@h1:25520#1
akka://A@h1:25520#1 sent akka://B@h2:25520#2 1 5 x 0102
akka://B@h2:25520#2 took akka://A@h1:25520#1 1 5 x 0102
";
    is_lawful(alloc, journal)
}

fn given_up_after_six_hours_2(alloc: Global) -> bool {
    let journal = b"journal 2
0 akka://A@h1:25520#1 started
0 akka://B@h2:25520#2 started
0 akka://A@h1:25520#1 learnt akka://B@h2:25520#2
0 akka://B@h2:25520#2 learnt akka://A@h1:25520#1
0 akka://A@h1:25520#1 sent akka://B@h2:25520#2 1 5 x 01
21600000 akka://A@h1:25520#1 closed akka://B@h2:25520#2 undelivered
";
    is_lawful(alloc, journal)
}

fn a_moment_goes_back(alloc: Global) -> bool {
    let journal = b"journal 2
5 akka://A@h1:25520#1 started
4 akka://A@h1:25520#1 learnt akka://B@h2:25520#2
";
    breaks(alloc, journal, b"fault journal 3 moment\n")
}

#[test]
fn journals_are_lawful_and_printed_again(rt: HostRuntime) -> Result<(), Fail> {
    let alloc = rt.alloc();
    assert!(rt; judge_two_journals_3(alloc));
    assert!(rt; given_up_after_six_hours_2(alloc));
    assert!(rt; is_lawful(alloc, b""));
    assert!(rt; is_lawful(alloc, b"journal 2"));
    assert!(rt; is_lawful(alloc, b"a://A@h:1#1 started"));
    assert!(rt; is_lawful(alloc, THREE_JOURNAL));
    assert!(rt; is_lawful(alloc, KINDS));
    assert!(rt; is_lawful(alloc, RULES));
    assert!(rt; is_lawful(alloc, MOMENTS));
    assert!(rt; is_printed_again(alloc, KINDS));
    assert!(rt; is_printed_again(alloc, RULES));
    assert!(rt; is_printed_again(alloc, MOMENTS));
    Ok(())
}

#[test]
fn the_first_fault_of_a_journal_is_told(rt: HostRuntime) -> Result<(), Fail> {
    let alloc = rt.alloc();
    assert!(rt; judge_two_journals(alloc));
    assert!(rt; a_moment_goes_back(alloc));
    assert!(rt;
        breaks(
            alloc,
            b"a://A@h:1#1 closed a://B@h:2#2 overflow\na://A@h:1#1 learnt a://B@h:2#3\na://A@h:1#1 learnt a://B@h:2#2\n",
            b"fault journal 3 closed\n"
        )
    );
    assert!(rt;
        breaks(
            alloc,
            b"a://A@h:1#1 terminated 1",
            b"fault journal 1 watch\n"
        )
    );
    assert!(rt;
        breaks(
            alloc,
            b"a://A@h:1#1 told a://B@h:2#2 1 - x 5 x 01\na://B@h:2#2 got a://A@h:1#1 2 - x 5 x 01\n",
            b"fault journal 2 ordinary\n"
        )
    );
    assert!(rt;
        breaks(
            alloc,
            b"a://B@h:2#2 got a://A@h:1#1 - - x 5 x 01\n",
            b"fault journal 1 ordinary\n"
        )
    );
    assert!(rt;
        breaks(
            alloc,
            b"a://A@h:1#1 stopped\na://A@h:1#1 spawned /x\n",
            b"fault journal 2 stopped\n"
        )
    );
    assert!(rt;
        breaks(
            alloc,
            b"journal 2\n5 a://A@h:1#1 stopped\n4 a://A@h:1#1 took a://B@h:2#2 1 5 x 02\n",
            b"fault journal 3 prefix\n"
        )
    );
    assert!(rt; each_is_bad(alloc, NO_LINES));
    assert!(rt;
        is_bad(
            alloc,
            b"a://A@h:1#1 terminated 1\n\njump\n",
            b"fault line 2\n"
        )
    );
    assert!(rt;
        is_bad(
            alloc,
            b"a://A@h:1#1 started\njournal 2\n",
            b"fault line 2\n"
        )
    );
    assert!(rt; is_bad(alloc, b"journal 1\n", b"fault line 1\n"));
    assert!(rt;
        is_bad(
            alloc,
            b"journal 2\na://A@h:1#1 started\n",
            b"fault line 2\n"
        )
    );
    assert!(rt;
        is_bad(
            alloc,
            b"journal 2\n5 a://A@h:1#1 started\n4611686018427387904 a://A@h:1#1 stopped",
            b"fault line 3\n"
        )
    );
    assert!(rt; is_bad(alloc, b"journal 2\n# a remark\n", b"fault line 2\n"));
    Ok(())
}
