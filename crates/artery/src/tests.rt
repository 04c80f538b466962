use crate::own::{Own, WordsFault, own_of, own_text, tell, word};
use artery_base::{Numbers, Text};
use artery_io::MemSink;
use std::alloc::Global;
use std::test::*;

fn own_answer(alloc: Global, words: &[&str]) -> Option<Own> {
    let mut list: Vec<Text> = Vec::new(alloc);
    for text in words {
        let text = word(alloc, text).ok()?;
        list.push(text).ok()?;
    }
    own_of(&list)
}

fn is_told(alloc: Global, failing: bool) -> bool {
    let mut numbers = Numbers::new(alloc);
    if failing && numbers.push(1).is_err() {
        return false;
    }
    let mut sink = MemSink::new(alloc, numbers);
    let status = tell(&mut sink, b"fault words\n", 2);
    let wanted: &[u8] = if failing { b"" } else { b"fault words\n" };
    status == 2 && sink.bytes().as_slice() == wanted
}

fn is_usage(text: &[u8]) -> bool {
    text.starts_with(b"artery show < BYTES ")
        && text.ends_with(b"artery --version                  tells the version\n")
}

#[test]
fn words_of_the_program(rt: HostRuntime) -> Result<(), Fail> {
    let alloc = rt.alloc();
    let cases: [(&[&str], Option<Own>); 5] = [
        (&["--help"], Some(Own::Help)),
        (&["--version"], Some(Own::Version)),
        (&[], None),
        (&["replay"], None),
        (&["--help", "--version"], None),
    ];
    for (words, want) in cases {
        assert_eq!(rt; own_answer(alloc, words), want);
    }
    assert_eq!(rt; word(alloc, "\u{e9}").err(), Some(WordsFault::NotAscii));
    assert!(rt; is_usage(own_text(Own::Help)));
    assert!(rt; own_text(Own::Version) == b"artery 0.1.0\n".as_slice());
    assert!(rt; is_told(alloc, false));
    assert!(rt; is_told(alloc, true));
    Ok(())
}
