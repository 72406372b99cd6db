//! The bytes of each call of a writer, and what a reader gives of them.
use super::*;
use std::test::*;

#[test]
fn headers_of_fields(rt: HostRuntime) -> Result<(), Fail> {
    let cases: [(i16, i16, u8, &[u8]); 9] = [
        // steps 1, 15, 16 and 32767
        (0, 1, kind::I32, &[0x15]),
        (0, 15, kind::I32, &[0xf5]),
        (0, 16, kind::I32, &[0x05, 0x20]),
        (0, 32767, kind::BINARY, &[0x08, 0xfe, 0xff, 0x03]),
        (3, 4, kind::STRUCT, &[0x1c]),
        (3, 18, kind::STRUCT, &[0xfc]),
        (3, 19, kind::STRUCT, &[0x0c, 0x26]),
        (0, 64, kind::I64, &[0x06, 0x80, 0x01]),
        (32766, 32767, 1, &[0x11]),
    ];
    for (last, id, kind, expected) in cases {
        assert!(rt; 0 <= last && last < id && 1 <= kind && kind <= 12);
        let mut writer = Writer::new(rt.alloc());
        writer.field(last, id, kind)?;
        let bytes = writer.into_bytes();
        assert_eq!(rt; bytes.as_slice(), expected, "{last} {id}");
        let mut reader = Reader::new(&bytes, 0);
        assert_eq!(rt; reader.field(last), Ok(Some(Field { id, kind })));
        assert_eq!(rt; reader.remaining(), 0);
    }
    Ok(())
}

#[test]
fn written_numbers(rt: HostRuntime) -> Result<(), Fail> {
    let cases: [(i64, &[u8]); 10] = [
        (0, &[0x00]),
        (-1, &[0x01]),
        (1, &[0x02]),
        (63, &[0x7e]),
        (64, &[0x80, 0x01]),
        (-64, &[0x7f]),
        (-65, &[0x81, 0x01]),
        (8192, &[0x80, 0x80, 0x01]),
        (
            i64::MAX,
            &[0xfe, 0xff, 0xff, 0xff, 0xff, 0xff, 0xff, 0xff, 0xff, 0x01],
        ),
        (
            i64::MIN,
            &[0xff, 0xff, 0xff, 0xff, 0xff, 0xff, 0xff, 0xff, 0xff, 0x01],
        ),
    ];
    for (number, expected) in cases {
        let mut writer = Writer::new(rt.alloc());
        writer.int(number)?;
        let bytes = writer.into_bytes();
        assert_eq!(rt; bytes.as_slice(), expected, "{number}");
        let mut reader = Reader::new(&bytes, 0);
        assert_eq!(rt; reader.int(kind::I64), Ok(number));
        assert_eq!(rt; reader.remaining(), 0);
    }
    Ok(())
}

#[test]
fn written_binaries(rt: HostRuntime) -> Result<(), Fail> {
    let long = [0x61; 128];
    let cases: [(&[u8], &[u8]); 3] = [(&[], &[0x00]), (b"ab", &[0x02]), (&long, &[0x80, 0x01])];
    for (body, length) in cases {
        let mut writer = Writer::new(rt.alloc());
        writer.binary(body)?;
        let bytes = writer.into_bytes();
        assert!(rt; bytes.starts_with(length));
        assert_eq!(rt; bytes.get(length.len()..), Some(body));
        let mut reader = Reader::new(&bytes, 0);
        assert_eq!(rt; reader.binary(), Ok(body));
        assert_eq!(rt; reader.remaining(), 0);
    }
    Ok(())
}

#[test]
fn headers_of_lists(rt: HostRuntime) -> Result<(), Fail> {
    let cases: [(u8, u32, &[u8]); 6] = [
        (kind::I32, 0, &[0x05]),
        (kind::STRUCT, 1, &[0x1c]),
        (kind::STRUCT, 14, &[0xec]),
        (kind::STRUCT, 15, &[0xfc, 0x0f]),
        (kind::BINARY, 128, &[0xf8, 0x80, 0x01]),
        (kind::I64, 2147483647, &[0xf6, 0xff, 0xff, 0xff, 0xff, 0x07]),
    ];
    for (kind, size, expected) in cases {
        assert!(rt; 1 <= kind && kind <= 12 && size <= 2147483647);
        let mut writer = Writer::new(rt.alloc());
        writer.list(kind, size)?;
        let bytes = writer.into_bytes();
        assert_eq!(rt; bytes.as_slice(), expected, "{kind} {size}");
        let mut reader = Reader::new(&bytes, 0);
        assert_eq!(rt; reader.list(), Ok(ListHead { kind, size }));
        assert_eq!(rt; reader.remaining(), 0);
    }
    Ok(())
}

// A struct with the number -3 in field 2, a list of one binary in field 3 and a struct without fields in field 20.
#[test]
fn a_written_struct(rt: HostRuntime) -> Result<(), Fail> {
    let mut writer = Writer::new(rt.alloc());
    writer.field(0, 2, kind::I32)?;
    writer.int(-3)?;
    writer.field(2, 3, kind::LIST)?;
    writer.list(kind::BINARY, 1)?;
    writer.binary(b"id")?;
    writer.field(3, 20, kind::STRUCT)?;
    writer.stop()?;
    writer.stop()?;
    let bytes = writer.into_bytes();
    assert_eq!(rt;
        bytes.as_slice(),
        b"\x25\x05\x19\x18\x02id\x0c\x28\x00\x00".as_slice()
    );
    let mut reader = Reader::new(&bytes, 0);
    assert_eq!(rt;
        reader.fork().field(0),
        Ok(Some(Field {
            id: 2,
            kind: kind::I32
        }))
    );
    assert_eq!(rt; reader.skip(kind::STRUCT, 0), Ok(()));
    assert_eq!(rt; reader.remaining(), 0);
    Ok(())
}

#[test]
fn nothing_written(rt: HostRuntime) {
    assert_eq!(rt; Writer::new(rt.alloc()).into_bytes().len(), 0);
}
