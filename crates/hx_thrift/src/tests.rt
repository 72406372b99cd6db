use super::*;
use std::test::*;

fn short(at: u64) -> ThriftRefusal {
    ThriftRefusal::Short { at }
}

fn bad_type(at: u64) -> ThriftRefusal {
    ThriftRefusal::BadType { at }
}

fn too_deep(at: u64) -> ThriftRefusal {
    ThriftRefusal::TooDeep { at }
}

fn overlong(at: u64) -> ThriftRefusal {
    ThriftRefusal::Overlong { at }
}

// The bytes at place 0, and at one that is not 0.
const BASES: [u16; 2] = [0, 1000];

fn reader_at(bytes: &[u8], base: u16) -> Reader<'_> {
    Reader::new(bytes, u64::from(base))
}

// What is read at place 0, as it is read at `base`.
fn moved<T>(read: Result<T, ThriftRefusal>, base: u16) -> Result<T, ThriftRefusal> {
    let base = u64::from(base);
    match read {
        Ok(value) => Ok(value),
        Err(ThriftRefusal::Short { at }) => Err(short(at.saturating_add(base))),
        Err(ThriftRefusal::BadType { at }) => Err(bad_type(at.saturating_add(base))),
        Err(ThriftRefusal::TooDeep { at }) => Err(too_deep(at.saturating_add(base))),
        Err(ThriftRefusal::Overlong { at }) => Err(overlong(at.saturating_add(base))),
    }
}

// The reader passed over all but the last `left` bytes where it gave a value, and over none where it refused.
fn stands_right(reader: &Reader<'_>, bytes: &[u8], base: u16, ok: bool, left: usize) -> bool {
    let remaining = if ok { left } else { bytes.len() };
    let place = u64::from(base) + (bytes.len() as u64).saturating_sub(remaining as u64);
    reader.remaining() == remaining && reader.place() == place
}

#[test]
fn fields_of_a_struct(rt: HostRuntime) {
    let mut reader = Reader::new(&[0x15, 0x02, 0x00], 0);
    assert_eq!(rt; reader.field(0), Ok(Some(Field { id: 1, kind: 5 })));
    assert_eq!(rt; reader.fork().int(5), Ok(1));
    assert_eq!(rt; reader.int(5), Ok(1));
    assert_eq!(rt; reader.field(1), Ok(None));
    assert_eq!(rt; reader.place(), 3);

    let mut reader = Reader::new(&[0x15, 0x80], 0);
    assert_eq!(rt; reader.field(0), Ok(Some(Field { id: 1, kind: 5 })));
    assert_eq!(rt; reader.int(5), Err(short(1)));
    assert_eq!(rt; reader.place(), 1);
}

#[test]
fn field_headers(rt: HostRuntime) {
    let cases: [(i16, &[u8], Result<Option<Field>, ThriftRefusal>, usize); 22] = [
        (0, &[], Err(short(0)), 0),
        (0, &[0x00], Ok(None), 0),
        (9, &[0x00, 0x15], Ok(None), 1),
        (0, &[0x1f], Err(bad_type(0)), 0),
        (0, &[0x1d], Err(bad_type(0)), 0),
        (0, &[0x10], Err(bad_type(0)), 0),
        (0, &[0x0d, 0x02], Err(bad_type(0)), 0),
        (0, &[0x11], Ok(Some(Field { id: 1, kind: 1 })), 0),
        (5, &[0xfc, 0x7f], Ok(Some(Field { id: 20, kind: 12 })), 1),
        (32766, &[0x18], Ok(Some(Field { id: 32767, kind: 8 })), 0),
        (32767, &[0x18], Err(overlong(0)), 0),
        (32752, &[0xf8], Ok(Some(Field { id: 32767, kind: 8 })), 0),
        (32753, &[0xf8], Err(overlong(0)), 0),
        (-1, &[0x12], Ok(Some(Field { id: 0, kind: 2 })), 0),
        (-5, &[0x32], Err(overlong(0)), 0),
        (7, &[0x05, 0x00], Ok(Some(Field { id: 0, kind: 5 })), 0),
        (
            7,
            &[0x05, 0xfe, 0xff, 0x03],
            Ok(Some(Field { id: 32767, kind: 5 })),
            0,
        ),
        (7, &[0x05, 0x80, 0x80, 0x04], Err(overlong(1)), 0),
        (7, &[0x05, 0x01], Err(overlong(1)), 0),
        (
            7,
            &[0x05, 0x86, 0x00],
            Ok(Some(Field { id: 3, kind: 5 })),
            0,
        ),
        (7, &[0x05], Err(short(1)), 0),
        (7, &[0x05, 0x80], Err(short(1)), 0),
    ];
    for (last, bytes, expected, left) in cases {
        for base in BASES {
            let mut reader = reader_at(bytes, base);
            let found = reader.field(last);
            let ok = found.is_ok();
            assert_eq!(rt; found, moved(expected, base), "{last} {bytes:?}");
            assert!(rt;
                stands_right(&reader, bytes, base, ok, left),
                "{last} {bytes:?}"
            );
        }
    }
}

#[test]
fn varints(rt: HostRuntime) {
    let cases: [(&[u8], Result<u64, ThriftRefusal>); 22] = [
        (&[0x00], Ok(0)),
        (&[0x7f], Ok(127)),
        (&[0x80, 0x01], Ok(128)),
        (&[0x80, 0x80, 0x01], Ok(16384)),
        (&[0x80, 0x80, 0x80, 0x01], Ok(2097152)),
        (&[0x80, 0x80, 0x80, 0x80, 0x01], Ok(268435456)),
        (&[0x80, 0x80, 0x80, 0x80, 0x80, 0x01], Ok(34359738368)),
        (
            &[0x80, 0x80, 0x80, 0x80, 0x80, 0x80, 0x01],
            Ok(4398046511104),
        ),
        (
            &[0x80, 0x80, 0x80, 0x80, 0x80, 0x80, 0x80, 0x01],
            Ok(562949953421312),
        ),
        (
            &[0x80, 0x80, 0x80, 0x80, 0x80, 0x80, 0x80, 0x80, 0x01],
            Ok(72057594037927936),
        ),
        (
            &[0x80, 0x80, 0x80, 0x80, 0x80, 0x80, 0x80, 0x80, 0x80, 0x01],
            Ok(9223372036854775808),
        ),
        (&[0xac, 0x02], Ok(300)),
        (&[0x80, 0x00], Ok(0)),
        (&[0x81, 0x80, 0x00], Ok(1)),
        (
            &[0x80, 0x80, 0x80, 0x80, 0x80, 0x80, 0x80, 0x80, 0x80, 0x00],
            Ok(0),
        ),
        (
            &[0xff, 0xff, 0xff, 0xff, 0xff, 0xff, 0xff, 0xff, 0xff, 0x01],
            Ok(u64::MAX),
        ),
        (
            &[0x80, 0x80, 0x80, 0x80, 0x80, 0x80, 0x80, 0x80, 0x80, 0x02],
            Err(overlong(0)),
        ),
        (
            &[0xff, 0xff, 0xff, 0xff, 0xff, 0xff, 0xff, 0xff, 0xff, 0x03],
            Err(overlong(0)),
        ),
        (
            &[
                0x80, 0x80, 0x80, 0x80, 0x80, 0x80, 0x80, 0x80, 0x80, 0x80, 0x00,
            ],
            Err(overlong(0)),
        ),
        (
            &[0x80, 0x80, 0x80, 0x80, 0x80, 0x80, 0x80, 0x80, 0x80, 0x80],
            Err(overlong(0)),
        ),
        (
            &[0x80, 0x80, 0x80, 0x80, 0x80, 0x80, 0x80, 0x80, 0x80],
            Err(short(0)),
        ),
        (&[], Err(short(0))),
    ];
    for (bytes, expected) in cases {
        for base in BASES {
            let mut reader = reader_at(bytes, base);
            let found = reader.varint();
            let ok = found.is_ok();
            assert_eq!(rt; found, moved(expected, base), "{bytes:?}");
            assert!(rt; stands_right(&reader, bytes, base, ok, 0), "{bytes:?}");
        }
    }
}

#[test]
fn numbers(rt: HostRuntime) {
    let cases: [(u8, &[u8], Result<i64, ThriftRefusal>); 19] = [
        (4, &[0x00], Ok(0)),
        (4, &[0x01], Ok(-1)),
        (4, &[0x02], Ok(1)),
        (4, &[0xfe, 0xff, 0x03], Ok(32767)),
        (4, &[0xff, 0xff, 0x03], Ok(-32768)),
        (4, &[0x80, 0x80, 0x04], Err(overlong(0))),
        (4, &[0x81, 0x80, 0x04], Err(overlong(0))),
        (4, &[0x83, 0x80, 0x80, 0x00], Ok(-2)),
        (5, &[0xfe, 0xff, 0xff, 0xff, 0x0f], Ok(2147483647)),
        (5, &[0xff, 0xff, 0xff, 0xff, 0x0f], Ok(-2147483648)),
        (5, &[0x80, 0x80, 0x80, 0x80, 0x10], Err(overlong(0))),
        (5, &[0x81, 0x80, 0x80, 0x80, 0x10], Err(overlong(0))),
        (5, &[0x80, 0x80], Err(short(0))),
        (6, &[0x80, 0x80, 0x80, 0x80, 0x10], Ok(2147483648)),
        (6, &[0x81, 0x80, 0x80, 0x80, 0x10], Ok(-2147483649)),
        (
            6,
            &[0xfe, 0xff, 0xff, 0xff, 0xff, 0xff, 0xff, 0xff, 0xff, 0x01],
            Ok(i64::MAX),
        ),
        (
            6,
            &[0xff, 0xff, 0xff, 0xff, 0xff, 0xff, 0xff, 0xff, 0xff, 0x01],
            Ok(i64::MIN),
        ),
        (
            6,
            &[0x80, 0x80, 0x80, 0x80, 0x80, 0x80, 0x80, 0x80, 0x80, 0x02],
            Err(overlong(0)),
        ),
        (6, &[], Err(short(0))),
    ];
    for (kind, bytes, expected) in cases {
        assert!(rt; 4 <= kind && kind <= 6);
        for base in BASES {
            let mut reader = reader_at(bytes, base);
            let found = reader.int(kind);
            let ok = found.is_ok();
            assert_eq!(rt; found, moved(expected, base), "{kind} {bytes:?}");
            assert!(rt;
                stands_right(&reader, bytes, base, ok, 0),
                "{kind} {bytes:?}"
            );
        }
    }
}

#[test]
fn binaries(rt: HostRuntime) {
    let cases: [(&[u8], Result<&[u8], ThriftRefusal>, usize); 8] = [
        (&[0x00], Ok(&[]), 0),
        (&[0x02, 0x61, 0x62], Ok(&[0x61, 0x62]), 0),
        (&[0x82, 0x00, 0x61, 0x62, 0x63], Ok(&[0x61, 0x62]), 1),
        (&[0x03, 0x61, 0x62], Err(short(0)), 0),
        (&[0x80], Err(short(0)), 0),
        (&[], Err(short(0)), 0),
        (&[0xff, 0xff, 0xff, 0xff, 0x07], Err(short(0)), 0),
        (&[0x80, 0x80, 0x80, 0x80, 0x08], Err(overlong(0)), 0),
    ];
    for (bytes, expected, left) in cases {
        for base in BASES {
            let mut reader = reader_at(bytes, base);
            let found = reader.binary();
            let ok = found.is_ok();
            assert_eq!(rt; found, moved(expected, base), "{bytes:?}");
            assert!(rt; stands_right(&reader, bytes, base, ok, left), "{bytes:?}");
        }
    }
}

#[test]
fn list_headers(rt: HostRuntime) {
    let cases: [(&[u8], Result<ListHead, ThriftRefusal>, usize); 13] = [
        (&[0x05], Ok(ListHead { kind: 5, size: 0 }), 0),
        (&[0x1c, 0x00], Ok(ListHead { kind: 12, size: 1 }), 1),
        (&[0xe1], Ok(ListHead { kind: 1, size: 14 }), 0),
        (&[0xf5, 0x0f], Ok(ListHead { kind: 5, size: 15 }), 0),
        (&[0xf5, 0x80, 0x01], Ok(ListHead { kind: 5, size: 128 }), 0),
        (&[0xf5, 0x00], Ok(ListHead { kind: 5, size: 0 }), 0),
        (
            &[0xf8, 0xff, 0xff, 0xff, 0xff, 0x07],
            Ok(ListHead {
                kind: 8,
                size: 2147483647,
            }),
            0,
        ),
        (&[0xf8, 0x80, 0x80, 0x80, 0x80, 0x08], Err(overlong(1)), 0),
        (&[0x10], Err(bad_type(0)), 0),
        (&[0xfd, 0x02], Err(bad_type(0)), 0),
        (&[0xf5], Err(short(1)), 0),
        (&[0xf5, 0x80], Err(short(1)), 0),
        (&[], Err(short(0)), 0),
    ];
    for (bytes, expected, left) in cases {
        for base in BASES {
            let mut reader = reader_at(bytes, base);
            let found = reader.list();
            let ok = found.is_ok();
            assert_eq!(rt; found, moved(expected, base), "{bytes:?}");
            assert!(rt; stands_right(&reader, bytes, base, ok, left), "{bytes:?}");
        }
    }
}

// A struct with a field of every kind.
const EVERY_KIND: [u8; 44] = [
    0x11, 0x12, 0x13, 0xff, 0x14, 0x84, 0x80, 0x00, 0x15, 0x02, 0x16, 0x01, 0x17, 0, 0, 0, 0, 0, 0,
    0xf0, 0x3f, 0x18, 0x02, 0x61, 0x62, 0x19, 0x21, 0x01, 0x02, 0x1a, 0x15, 0x04, 0x1b, 0x01, 0x58,
    0x02, 0x01, 0x61, 0x1c, 0x15, 0x02, 0x00, 0x00, 0x55,
];

#[test]
fn values_passed_over(rt: HostRuntime) {
    let cases: [(u8, &[u8], Result<(), ThriftRefusal>, usize); 33] = [
        (12, &EVERY_KIND, Ok(()), 1),
        (1, &[0x07], Ok(()), 1),
        (2, &[], Ok(()), 0),
        (3, &[0xff, 0x07], Ok(()), 1),
        (3, &[], Err(short(0)), 0),
        (4, &[0x80, 0x80, 0x04], Err(overlong(0)), 0),
        (5, &[0x80, 0x80, 0x04], Ok(()), 0),
        (7, &[1, 2, 3, 4, 5, 6, 7, 8, 9], Ok(()), 1),
        (7, &[1, 2, 3, 4, 5, 6, 7], Err(short(0)), 0),
        (8, &[0x02, 0x61, 0x62, 0x63], Ok(()), 1),
        (8, &[0x03, 0x61, 0x62], Err(short(0)), 0),
        // lists and sets, of flags, numbers and lists
        (9, &[0x21, 0x01, 0x02, 0x01], Ok(()), 1),
        (10, &[0x32, 0x01, 0x02], Err(short(3)), 0),
        (9, &[0x25, 0x02, 0x80, 0x00, 0x09], Ok(()), 1),
        (9, &[0x25, 0x02, 0x80], Err(short(2)), 0),
        (9, &[0x19, 0x25, 0x02, 0x04], Ok(()), 0),
        (9, &[0x19, 0x2f, 0x02, 0x04], Err(bad_type(1)), 0),
        (
            9,
            &[0xf5, 0xff, 0xff, 0xff, 0xff, 0x07, 0x02],
            Err(short(7)),
            0,
        ),
        (10, &[0x05, 0x05], Ok(()), 1),
        // maps
        (11, &[0x00, 0x55], Ok(()), 1),
        (11, &[0x80, 0x00, 0x55], Ok(()), 1),
        (11, &[0x01, 0x58, 0x02, 0x01, 0x61, 0x07], Ok(()), 1),
        (11, &[0x01, 0x85, 0x01, 0x61, 0x02, 0x07], Ok(()), 1),
        (11, &[0x02, 0x12, 0x01, 0x02, 0x01, 0x02, 0x01], Ok(()), 1),
        (11, &[0x01, 0x50, 0x02], Err(bad_type(1)), 0),
        (11, &[0x01, 0x0d, 0x02], Err(bad_type(1)), 0),
        (11, &[0x01], Err(short(1)), 0),
        (11, &[0x80, 0x80, 0x80, 0x80, 0x08], Err(overlong(0)), 0),
        // structs
        (12, &[0x00], Ok(()), 0),
        (12, &[0x15, 0x02], Err(short(2)), 0),
        (12, &[0x15, 0x02, 0x1d, 0x00], Err(bad_type(2)), 0),
        (12, &[], Err(short(0)), 0),
        (12, &[0x1c; 40], Err(too_deep(32)), 0),
    ];
    for (kind, bytes, expected, left) in cases {
        assert!(rt; 1 <= kind && kind <= 12);
        for base in BASES {
            let mut reader = reader_at(bytes, base);
            let found = reader.skip(kind, 0);
            let ok = found.is_ok();
            assert_eq!(rt; found, moved(expected, base), "{kind} {bytes:?}");
            assert!(rt;
                stands_right(&reader, bytes, base, ok, left),
                "{kind} {bytes:?}"
            );
        }
    }
}

#[test]
fn containers_in_containers(rt: HostRuntime) {
    let cases: [(u8, u32, &[u8], Result<(), ThriftRefusal>, usize); 8] = [
        (12, 32, &[0x00], Err(too_deep(0)), 0),
        (9, 32, &[], Err(too_deep(0)), 0),
        (11, 32, &[0x00], Err(too_deep(0)), 0),
        (8, 32, &[0x00], Ok(()), 0),
        (12, 31, &[0x00], Ok(()), 0),
        (12, 31, &[0x15, 0x02, 0x1c, 0x00], Err(too_deep(3)), 0),
        (9, 31, &[0x2a, 0x05], Err(too_deep(1)), 0),
        (9, 30, &[0x2a, 0x05, 0x05], Ok(()), 0),
    ];
    for (kind, depth, bytes, expected, left) in cases {
        assert!(rt; 1 <= kind && kind <= 12 && depth <= 32);
        for base in BASES {
            let mut reader = reader_at(bytes, base);
            let found = reader.skip(kind, depth);
            let ok = found.is_ok();
            assert_eq!(rt; found, moved(expected, base), "{kind} {depth} {bytes:?}");
            assert!(rt;
                stands_right(&reader, bytes, base, ok, left),
                "{kind} {depth} {bytes:?}"
            );
        }
    }
}
