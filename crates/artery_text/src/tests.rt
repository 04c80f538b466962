use super::*;
use artery_base::Bytes;
use std::test::*;

#[test]
fn faults_of_addresses(rt: HostRuntime) -> Result<(), Fail> {
    let cases: [(&[u8], AddressFault); 18] = [
        (b"", AddressFault::NoScheme),
        (b"A@h1:1", AddressFault::NoScheme),
        (b"akka:/", AddressFault::NoScheme),
        (b"akka://A", AddressFault::NoAt),
        (b"akka://", AddressFault::NoAt),
        (b"akka://A@h1", AddressFault::NoPort),
        (b"a:k://A@", AddressFault::NoPort),
        (
            b"://A@h1:1",
            AddressFault::PartLength {
                part: Part::Protocol,
                len: 0,
            },
        ),
        (
            b"akka://@h1:1",
            AddressFault::PartLength {
                part: Part::System,
                len: 0,
            },
        ),
        (
            b"a a://A@:0",
            AddressFault::PartLength {
                part: Part::Host,
                len: 0,
            },
        ),
        (b" kka://A@h1:0", AddressFault::BadChar { at: 0 }),
        (b"akka://A @h1:0", AddressFault::BadChar { at: 8 }),
        (b"akka://A@h 1:1", AddressFault::BadChar { at: 10 }),
        (b"akka://A@h1:0", AddressFault::PortRange),
        (b"akka://A@h1:065", AddressFault::PortRange),
        (b"akka://A@h1:65536", AddressFault::PortRange),
        (b"akka://A@h1:1:1", AddressFault::PortRange),
        (b"akka://A@h1:", AddressFault::PortRange),
    ];
    for (text, want) in cases {
        assert_eq!(rt; read_address(rt.alloc(), text).err(), Some(want));
    }
    let uids: [(&[u8], AddressFault); 8] = [
        (b"", AddressFault::NoUid),
        (b"A@h1:1", AddressFault::NoUid),
        (b"akka://A@h1:1#", AddressFault::NoUid),
        (b"akka://A@h1:1#01", AddressFault::NoUid),
        (b"akka://A@h1:1#18446744073709551616", AddressFault::NoUid),
        (b"A@h1:1#1", AddressFault::NoScheme),
        (b"akka://A@h#1:1#1", AddressFault::BadChar { at: 10 }),
        (b"akka://A@h1:1#1#1", AddressFault::PortRange),
    ];
    for (text, want) in uids {
        assert_eq!(rt; read_unique(rt.alloc(), text).err(), Some(want));
    }
    Ok(())
}

#[test]
fn addresses_are_printed_back(rt: HostRuntime) -> Result<(), Fail> {
    let texts: [&[u8]; 3] = [b"akka://A@h1:25520", b"a://b@c:1", b"a-_.9Z://A@h.1:65535"];
    for text in texts {
        let address = read_address(rt.alloc(), text)
            .ok()
            .ok_or("the text is an address")?;
        let mut out = Bytes::new(rt.alloc());
        print_address(&address, &mut out)
            .ok()
            .ok_or("memory is left")?;
        assert_eq!(rt; out.as_slice(), text);
    }
    let text = b"akka://A@h1:25520#18446744073709551615".as_slice();
    let unique = read_unique(rt.alloc(), text)
        .ok()
        .ok_or("the text is a unique address")?;
    assert_eq!(rt; unique.uid, u64::MAX);
    assert_eq!(rt; unique.address.port, 25520);
    let mut out = Bytes::new(rt.alloc());
    print_unique(&unique, &mut out)
        .ok()
        .ok_or("memory is left")?;
    assert_eq!(rt; out.as_slice(), text);
    Ok(())
}

#[test]
fn numbers(rt: HostRuntime) -> Result<(), Fail> {
    let cases: [(&[u8], Option<u64>); 11] = [
        (b"0", Some(0)),
        (b"7", Some(7)),
        (b"10", Some(10)),
        (b"18446744073709551615", Some(u64::MAX)),
        (b"18446744073709551616", None),
        (b"", None),
        (b"00", None),
        (b"01", None),
        (b"-0", None),
        (b"+1", None),
        (b"1 ", None),
    ];
    for (text, want) in cases {
        assert_eq!(rt; read_number(text), want);
    }
    let signed: [(&[u8], Option<i32>); 11] = [
        (b"0", Some(0)),
        (b"-1", Some(-1)),
        (b"2147483647", Some(i32::MAX)),
        (b"2147483648", None),
        (b"-2147483648", Some(i32::MIN)),
        (b"-2147483649", None),
        (b"-0", None),
        (b"-01", None),
        (b"--1", None),
        (b"-", None),
        (b"", None),
    ];
    for (text, want) in signed {
        assert_eq!(rt; read_int32(text), want);
    }
    let mut out = Bytes::new(rt.alloc());
    print_number(u64::MAX, &mut out)
        .ok()
        .ok_or("memory is left")?;
    print_int32(i32::MIN, &mut out)
        .ok()
        .ok_or("memory is left")?;
    assert_eq!(rt;
        out.as_slice(),
        b"18446744073709551615-2147483648".as_slice()
    );
    Ok(())
}

#[test]
fn words_and_hexadecimal(rt: HostRuntime) -> Result<(), Fail> {
    let words: [(&[u8], &[u8]); 9] = [
        (b"-", b""),
        (b"%2d", b"-"),
        (b"-a", b"-a"),
        (b"--", b"--"),
        (b"%40", b"@"),
        (b"%40a@", b"@a@"),
        (b"a@b", b"a@b"),
        (b"a%20%25%7f%ff", b"a %\x7f\xff"),
        (b"!~", b"!~"),
    ];
    for (text, want) in words {
        let bytes = read_word(rt.alloc(), text)
            .ok()
            .ok_or("the text is a word")?;
        assert_eq!(rt; bytes.as_slice(), want);
        let mut out = Bytes::new(rt.alloc());
        print_word(want, &mut out).ok().ok_or("memory is left")?;
        assert_eq!(rt; out.as_slice(), text);
    }
    let bad_words: [(&[u8], usize); 12] = [
        (b"", 0),
        (b"@a", 0),
        (b"%", 0),
        (b"%4", 0),
        (b"a%4", 1),
        (b"%41", 0),
        (b"a%40", 1),
        (b"%2da", 0),
        (b"%40%2d", 3),
        (b"ab%2F", 2),
        (b"a b", 1),
        (b"ab\x7f", 2),
    ];
    for (text, at) in bad_words {
        assert_eq!(rt;
            read_word(rt.alloc(), text).err(),
            Some(WordFault::BadWord { at })
        );
    }
    let hex: [(&[u8], &[u8]); 3] = [(b"-", b""), (b"00", b"\x00"), (b"0102ff", b"\x01\x02\xff")];
    for (text, want) in hex {
        let bytes = read_hex(rt.alloc(), text)
            .ok()
            .ok_or("the text is hexadecimal")?;
        assert_eq!(rt; bytes.as_slice(), want);
        let mut out = Bytes::new(rt.alloc());
        print_hex(want, &mut out).ok().ok_or("memory is left")?;
        assert_eq!(rt; out.as_slice(), text);
    }
    let bad_hex: [(&[u8], usize); 6] = [
        (b"", 0),
        (b"0", 0),
        (b"010", 2),
        (b"FF", 0),
        (b"01fG", 2),
        (b"--", 0),
    ];
    for (text, at) in bad_hex {
        assert_eq!(rt;
            read_hex(rt.alloc(), text).err(),
            Some(WordFault::BadWord { at })
        );
    }
    Ok(())
}

#[test]
fn ascii(rt: HostRuntime) -> Result<(), Fail> {
    let text = text_of(rt.alloc(), b"a\x7f")
        .ok()
        .ok_or("the bytes are ASCII")?;
    assert_eq!(rt; text.as_slice(), b"a\x7f".as_slice());
    assert_eq!(rt;
        text_of(rt.alloc(), b"a\x80\xff").err(),
        Some(TextFault::NotAscii { at: 1 })
    );
    Ok(())
}
