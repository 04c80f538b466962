use super::*;
use std::test::*;

/// Whether a text has these lines and no more.
fn has_lines(text: &[u8], lines: &[&[u8]]) -> bool {
    let mut left = TextLines::new(text);
    for line in lines {
        let Some(found) = left.next() else {
            return false;
        };
        if found != *line {
            return false;
        }
    }
    left.next().is_none() && has_few_lines(text)
}

/// Whether a line has these tokens and no more.
fn has_tokens(line: &[u8], tokens: &[&[u8]]) -> bool {
    let mut left = Tokens::new(line);
    for token in tokens {
        let Some(found) = left.next() else {
            return false;
        };
        if found != *token {
            return false;
        }
    }
    left.is_empty() && left.next().is_none()
}

#[test]
fn texts_are_cut(rt: HostRuntime) -> Result<(), Fail> {
    let lines: [(&[u8], &[&[u8]]); 7] = [
        (b"", &[]),
        (b"\n", &[b""]),
        (b"\n\n", &[b"", b""]),
        (b"a", &[b"a"]),
        (b"a b\n", &[b"a b"]),
        (b"a\r\nb", &[b"a\r", b"b"]),
        (b"a\n\nb\n", &[b"a", b"", b"b"]),
    ];
    for (text, lines) in lines {
        assert!(rt; has_lines(text, lines));
    }
    let tokens: [(&[u8], &[&[u8]]); 7] = [
        (b"", &[b""]),
        (b" ", &[b"", b""]),
        (b"a", &[b"a"]),
        (b" a", &[b"", b"a"]),
        (b"a ", &[b"a", b""]),
        (b"pass  1", &[b"pass", b"", b"1"]),
        (b"at 1 pair x", &[b"at", b"1", b"pair", b"x"]),
    ];
    for (line, tokens) in tokens {
        assert!(rt; has_tokens(line, tokens));
    }
    Ok(())
}
