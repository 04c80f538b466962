use super::*;
use artery_base::Bytes;
use std::test::*;

/// How many fields there are, and the fault after them, asked for twice.
fn walk(bytes: &[u8]) -> (usize, Option<WireFault>) {
    let mut cursor = Cursor::new(bytes);
    let mut fields = 0usize;
    for _ in 0..100 {
        match cursor.next_field() {
            Ok(Some(_)) => fields = fields.saturating_add(1),
            Ok(None) => return (fields, None),
            Err(fault) => {
                if cursor.next_field() == Err(fault) {
                    return (fields, Some(fault));
                }
                return (1000, None);
            }
        }
    }
    (1000, None)
}

#[test]
fn each_fault_at_its_place(rt: HostRuntime) {
    let long = [0xffu8; 10];
    let mut value_long = [0xffu8; 11];
    value_long[0] = 0x08;
    let mut later_long = [0xffu8; 12];
    later_long[0] = 0x08;
    later_long[1] = 0x01;
    let cases: [(&[u8], usize, Option<WireFault>); 24] = [
        (&[], 0, None),
        (&[0x08, 0x01], 1, None),
        (&long, 0, Some(WireFault::Varint { at: 0 })),
        (&value_long, 0, Some(WireFault::Varint { at: 0 })),
        (&later_long, 1, Some(WireFault::Varint { at: 2 })),
        (&long[..9], 0, Some(WireFault::Truncated { at: 0 })),
        (&[0x0b], 0, Some(WireFault::WireType { at: 0 })),
        (&[0x0c], 0, Some(WireFault::WireType { at: 0 })),
        (&[0x0e], 0, Some(WireFault::WireType { at: 0 })),
        (&[0x08, 0x01, 0x0f], 1, Some(WireFault::WireType { at: 2 })),
        (&[0x00, 0x01], 0, Some(WireFault::FieldNumber { at: 0 })),
        (&[0x03], 0, Some(WireFault::FieldNumber { at: 0 })),
        (
            &[0x08, 0x01, 0x02, 0x00],
            1,
            Some(WireFault::FieldNumber { at: 2 }),
        ),
        (
            &[0x80, 0x80, 0x80, 0x80, 0x10, 0x00],
            0,
            Some(WireFault::FieldNumber { at: 0 }),
        ),
        (&[0xf8, 0xff, 0xff, 0xff, 0x0f, 0x00], 1, None),
        (&[0x80], 0, Some(WireFault::Truncated { at: 0 })),
        (&[0x08], 0, Some(WireFault::Truncated { at: 0 })),
        (
            &[0x09, 1, 2, 3, 4, 5, 6, 7],
            0,
            Some(WireFault::Truncated { at: 0 }),
        ),
        (&[0x09, 1, 2, 3, 4, 5, 6, 7, 8], 1, None),
        (&[0x0d, 1, 2, 3], 0, Some(WireFault::Truncated { at: 0 })),
        (&[0x0d, 1, 2, 3, 4], 1, None),
        (&[0x0a, 0x02, 0x01], 0, Some(WireFault::Truncated { at: 0 })),
        (
            &[0x08, 0x01, 0x0a, 0x02, 0x01],
            1,
            Some(WireFault::Truncated { at: 2 }),
        ),
        (&[0x0a, 0x02, 0x01, 0x02, 0x0a, 0x00], 2, None),
    ];
    for (bytes, fields, fault) in &cases {
        assert!(rt; walk(bytes) == (*fields, *fault));
    }
}

#[test]
fn values_of_each_wire_type(rt: HostRuntime) {
    let bytes = [
        0x08, 0xff, 0xff, 0xff, 0xff, 0xff, 0xff, 0xff, 0xff, 0xff, 0x7f, 0x11, 1, 0, 0, 0, 0, 0,
        0, 2, 0x1a, 3, 7, 8, 9, 0x25, 1, 0, 0, 2, 0x28, 0x81, 0x00,
    ];
    let mut cursor = Cursor::new(&bytes);
    let values = [
        Value::Varint(u64::MAX),
        Value::Fixed64(0x0200_0000_0000_0001),
        Value::Bytes(&[7, 8, 9]),
        Value::Fixed32(0x0200_0001),
        Value::Varint(1),
    ];
    for (at, value) in values.iter().enumerate() {
        match cursor.next_field() {
            Ok(Some(field)) => {
                assert!(rt; field.number as usize == at.saturating_add(1));
                assert!(rt; field.value == *value);
            }
            _ => assert!(rt; false),
        }
    }
    assert!(rt; cursor.next_field() == Ok(None));
    assert!(rt; cursor.next_field() == Ok(None));
}

#[test]
fn packed_numbers(rt: HostRuntime) {
    let mut record = Cursor::new(&[0x2a, 0x02, 0x00, 0x01]);
    match record.next_field() {
        Ok(
            Some(
                Field {
                    number: 5,
                    value: Value::Bytes(packed),
                },
            ),
        ) => {
            let mut numbers = Cursor::new(packed);
            assert!(rt; numbers.next_packed() == Ok(Some(0)));
            assert!(rt; numbers.next_packed() == Ok(Some(1)));
            assert!(rt; numbers.next_packed() == Ok(None));
        }
        _ => assert!(rt; false),
    }
    let mut cut = Cursor::new(&[0x01, 0x80]);
    assert!(rt; cut.next_packed() == Ok(Some(1)));
    assert!(rt; cut.next_packed() == Err(WireFault::Truncated { at: 1 }));
    assert!(rt; cut.next_packed() == Err(WireFault::Truncated { at: 1 }));
    let mut long = Cursor::new(&[0x80; 10]);
    assert!(rt; long.next_packed() == Err(WireFault::Varint { at: 0 }));
}

#[test]
fn written_fields(rt: HostRuntime) -> Result<(), Fail> {
    let mut out = Bytes::new(rt.alloc());
    put_int32(2, -1, &mut out).ok().ok_or("memory")?;
    assert_eq!(rt;
        out.as_slice(),
        [
            0x10, 0xff, 0xff, 0xff, 0xff, 0xff, 0xff, 0xff, 0xff, 0xff, 0x01
        ]
        .as_slice()
    );
    out.clear();
    put_int32(2, 5, &mut out).ok().ok_or("memory")?;
    put_uint(5, 0, &mut out).ok().ok_or("memory")?;
    put_uint(5, 300, &mut out).ok().ok_or("memory")?;
    put_bytes(1, &[1, 2], &mut out).ok().ok_or("memory")?;
    put_uint(536_870_911, 127, &mut out).ok().ok_or("memory")?;
    assert_eq!(rt;
        out.as_slice(),
        [
            0x10, 0x05, 0x28, 0x00, 0x28, 0xac, 0x02, 0x0a, 0x02, 0x01, 0x02, 0xf8, 0xff, 0xff,
            0xff, 0x0f, 0x7f
        ]
        .as_slice()
    );
    Ok(())
}
