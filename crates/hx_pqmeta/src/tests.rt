use super::*;
use std::alloc::Global;
use std::test::*;

// A file with one leaf, `id`, OPTIONAL INT64, and one row with the value 7.
const ONE_ROW: [u8; 105] = [
    b'P', b'A', b'R', b'1', // 0
    0x15, 0x00, 0x15, 0x1c, 0x15, 0x1c, 0x2c, 0x15, 0x02, 0x15, 0x00, 0x15, 0x06, 0x15, 0x06, 0x00,
    0x00, // 4
    0x02, 0x00, 0x00, 0x00, 0x02, 0x01, // 21
    0x07, 0x00, 0x00, 0x00, 0x00, 0x00, 0x00, 0x00, // 27
    0x15, 0x02, // 35
    0x19, 0x2c, // 37
    0x48, 0x06, b's', b'c', b'h', b'e', b'm', b'a', 0x15, 0x02, 0x00, // 39
    0x15, 0x04, 0x25, 0x02, 0x18, 0x02, b'i', b'd', 0x00, // 50
    0x16, 0x02, // 59
    0x19, 0x1c, 0x19, 0x1c, // 61
    0x26, 0x08, 0x1c, // 65
    0x15, 0x04, 0x19, 0x25, 0x00, 0x06, 0x19, 0x18, 0x02, b'i', b'd', // 68
    0x15, 0x00, 0x16, 0x02, 0x16, 0x3e, 0x16, 0x3e, 0x26, 0x08, 0x00, 0x00, // 79
    0x16, 0x3e, 0x16, 0x02, 0x00, 0x00, // 91
    0x3e, 0x00, 0x00, 0x00, b'P', b'A', b'R', b'1', // 97
];

#[test]
fn a_file_of_one_row(rt: HostRuntime) {
    let footer = match read_footer(rt.alloc(), &ONE_ROW) {
        Ok(footer) => footer,
        Err(refusal) => panic!(rt; "{refusal:?}"),
    };
    assert_eq!(rt; footer.start(), 35);
    assert_eq!(rt; footer.rows(), 1);
    let [leaf] = footer.leaves() else {
        panic!(rt; "leaves");
    };
    assert_eq!(rt; leaf.kind(), Some(2));
    assert_eq!(rt; leaf.repetition(), 1);
    assert_eq!(rt; leaf.name(), b"id".as_slice());
    assert_eq!(rt; leaf.children(), None);
    let [group] = footer.groups() else {
        panic!(rt; "groups");
    };
    assert_eq!(rt; group.rows(), 1);
    let chunk = Chunk {
        has_path: false,
        has_meta: true,
        codec: Some(0),
        values: Some(1),
        plain_size: Some(31),
        stored_size: Some(31),
        data_page: Some(4),
        dictionary_page: None,
    };
    assert_eq!(rt; group.chunks(), [chunk].as_slice());
    let head = PageHead {
        kind: 0,
        plain_size: 14,
        stored_size: 14,
        values: 1,
        encoding: 0,
        levels: Some(3),
        next: 21,
    };
    assert_eq!(rt; read_page_header(&ONE_ROW[4..35], 4), Ok(head));
}

// What is read of a file: its rows, and the number of its leaves and groups.
fn counts(alloc: Global, file: &[u8]) -> Result<(i64, usize, usize), PqRefusal> {
    let footer = read_footer(alloc, file)?;
    Ok((footer.rows(), footer.leaves().len(), footer.groups().len()))
}

#[test]
fn files_without_a_footer(rt: HostRuntime) {
    for len in 0..ONE_ROW.len() {
        assert_eq!(rt;
            counts(rt.alloc(), &ONE_ROW[..len]),
            Err(PqRefusal::NotParquet),
            "{len}"
        );
    }
    let cases: [(usize, u8, Result<(i64, usize, usize), PqRefusal>); 8] = [
        (0, b'p', Err(PqRefusal::NotParquet)),
        (104, b'2', Err(PqRefusal::NotParquet)),
        (97, 0x60, Err(PqRefusal::NotParquet)),
        (97, 0x5e, Err(PqRefusal::NotParquet)),
        (97, 0x5d, Err(PqRefusal::Missing { field: 102 })),
        (100, 0x80, Err(PqRefusal::NotParquet)),
        (59, 0x1d, Err(PqRefusal::Thrift { at: 59 })),
        (96, 0x01, Err(PqRefusal::Thrift { at: 97 })),
    ];
    for (place, byte, expected) in cases {
        let mut file = ONE_ROW;
        file[place % 105] = byte;
        assert_eq!(rt; counts(rt.alloc(), &file), expected, "{place}");
    }
}

// A file without pages, whose footer has these bytes.
fn file_of(alloc: Global, parts: [&[u8]; 3]) -> Result<Vec<u8>, PqRefusal> {
    let mut file = Vec::new(alloc);
    file.extend_from_slice(b"PAR1")?;
    for part in parts {
        file.extend_from_slice(part)?;
    }
    let len = file.len().saturating_sub(4).min(0xffff) as u32;
    file.extend_from_slice(&len.to_le_bytes())?;
    file.extend_from_slice(b"PAR1")?;
    Ok(file)
}

fn counts_of(alloc: Global, parts: [&[u8]; 3]) -> Result<(i64, usize, usize), PqRefusal> {
    let file = file_of(alloc, parts)?;
    counts(alloc, &file)
}

fn missing(field: u16) -> Result<(i64, usize, usize), PqRefusal> {
    Err(PqRefusal::Missing { field })
}

fn thrift(at: u64) -> Result<(i64, usize, usize), PqRefusal> {
    Err(PqRefusal::Thrift { at })
}

const NESTED: Result<(i64, usize, usize), PqRefusal> = Err(PqRefusal::Nested);

const COUNTS: Result<(i64, usize, usize), PqRefusal> = Err(PqRefusal::Counts);

// A root and the REQUIRED leaf `a`; one row; one group of that row without chunks, and the end of the footer.
const LEAF: &[u8] = &[0x29, 0x2c, 0x00, 0x35, 0x00, 0x18, 0x01, b'a', 0x00];

const ROW: &[u8] = &[0x16, 0x02];

const GROUP: &[u8] = &[0x19, 0x1c, 0x19, 0x0c, 0x26, 0x02, 0x00, 0x00];

// A root alone.
const ROOT: &[u8] = &[0x29, 0x1c, 0x00];

#[test]
fn footers(rt: HostRuntime) {
    let cases: [([&[u8]; 3], Result<(i64, usize, usize), PqRefusal>); 50] = [
        ([LEAF, ROW, GROUP], Ok((1, 1, 1))),
        // The footer's struct is cut short, or isn't read.
        ([&[], &[], &[]], thrift(4)),
        (
            [LEAF, ROW, &[0x19, 0x1c, 0x19, 0x0c, 0x26, 0x02, 0x00]],
            thrift(22),
        ),
        ([LEAF, &[0x1d], GROUP], thrift(13)),
        ([&[], ROW, &[0x1d]], thrift(6)),
        // Fields that are absent.
        ([&[], &[], &[0x00]], missing(102)),
        ([&[0x29, 0x0c], ROW, GROUP], missing(102)),
        ([&[0x2a, 0x1c, 0x00], ROW, GROUP], missing(102)),
        ([&[0x29, 0x15, 0x02], ROW, GROUP], missing(102)),
        ([ROOT, &[], &[0x00]], missing(103)),
        ([ROOT, &[0x15, 0x02], GROUP], missing(103)),
        ([ROOT, ROW, &[0x00]], missing(104)),
        ([ROOT, ROW, &[0x19, 0x15, 0x02, 0x00]], missing(104)),
        (
            [&[0x29, 0x2c, 0x00, 0x48, 0x01, b'a', 0x00], ROW, GROUP],
            missing(203),
        ),
        ([&[0x29, 0x2c, 0x00, 0x00], ROW, GROUP], missing(203)),
        (
            [&[0x29, 0x2c, 0x00, 0x35, 0x00, 0x00], ROW, GROUP],
            missing(204),
        ),
        (
            [
                &[0x29, 0x3c, 0x00, 0x35, 0x00, 0x00, 0x00],
                ROW,
                &[0x19, 0x1c, 0x00, 0x00],
            ],
            missing(204),
        ),
        ([LEAF, ROW, &[0x19, 0x1c, 0x00, 0x00]], missing(301)),
        (
            [LEAF, ROW, &[0x19, 0x1c, 0x36, 0x02, 0x00, 0x00]],
            missing(301),
        ),
        (
            [
                LEAF,
                ROW,
                &[0x19, 0x1c, 0x19, 0x15, 0x02, 0x26, 0x02, 0x00, 0x00],
            ],
            missing(301),
        ),
        (
            [LEAF, ROW, &[0x19, 0x1c, 0x19, 0x0c, 0x00, 0x00]],
            missing(303),
        ),
        // Lists of size 0 fit.
        ([ROOT, &[0x16, 0x00], &[0x19, 0x0c, 0x00]], Ok((0, 0, 0))),
        ([ROOT, &[0x16, 0x00], &[0x19, 0x05, 0x00]], Ok((0, 0, 0))),
        (
            [LEAF, ROW, &[0x19, 0x1c, 0x19, 0x05, 0x26, 0x02, 0x00, 0x00]],
            Ok((1, 1, 1)),
        ),
        // Leaves with children, and with other repetitions.
        (
            [
                &[0x29, 0x2c, 0x00, 0x35, 0x00, 0x18, 0x00, 0x15, 0x00, 0x00],
                ROW,
                GROUP,
            ],
            Ok((1, 1, 1)),
        ),
        (
            [
                &[0x29, 0x2c, 0x00, 0x35, 0x00, 0x18, 0x00, 0x15, 0x01, 0x00],
                ROW,
                GROUP,
            ],
            Ok((1, 1, 1)),
        ),
        (
            [
                &[0x29, 0x2c, 0x00, 0x35, 0x00, 0x18, 0x00, 0x15, 0x02, 0x00],
                ROW,
                GROUP,
            ],
            NESTED,
        ),
        (
            [
                &[0x29, 0x2c, 0x00, 0x35, 0x02, 0x18, 0x00, 0x00],
                ROW,
                GROUP,
            ],
            Ok((1, 1, 1)),
        ),
        (
            [
                &[0x29, 0x2c, 0x00, 0x35, 0x04, 0x18, 0x00, 0x00],
                ROW,
                GROUP,
            ],
            NESTED,
        ),
        (
            [
                &[0x29, 0x2c, 0x00, 0x35, 0x01, 0x18, 0x00, 0x00],
                ROW,
                GROUP,
            ],
            NESTED,
        ),
        (
            [
                &[0x29, 0x2c, 0x00, 0x35, 0x04, 0x18, 0x00, 0x00],
                &[0x16, 0x01],
                GROUP,
            ],
            NESTED,
        ),
        // Counts of rows.
        ([LEAF, &[0x16, 0x00], &[0x19, 0x0c, 0x00]], Ok((0, 1, 0))),
        ([LEAF, ROW, &[0x19, 0x0c, 0x00]], COUNTS),
        ([LEAF, &[0x16, 0x01], &[0x19, 0x0c, 0x00]], COUNTS),
        ([LEAF, &[0x16, 0x00], GROUP], COUNTS),
        ([LEAF, &[0x16, 0x04], GROUP], COUNTS),
        (
            [
                LEAF,
                &[0x16, 0x01],
                &[0x19, 0x1c, 0x19, 0x0c, 0x26, 0x01, 0x00, 0x00],
            ],
            COUNTS,
        ),
        (
            [
                LEAF,
                ROW,
                &[
                    0x19, 0x2c, 0x19, 0x0c, 0x26, 0x00, 0x00, 0x19, 0x0c, 0x26, 0x02, 0x00, 0x00,
                ],
            ],
            Ok((1, 1, 2)),
        ),
        (
            [
                LEAF,
                ROW,
                &[
                    0x19, 0x2c, 0x19, 0x0c, 0x26, 0x04, 0x00, 0x19, 0x0c, 0x26, 0x01, 0x00, 0x00,
                ],
            ],
            COUNTS,
        ),
        (
            [
                LEAF,
                &[
                    0x16, 0xfe, 0xff, 0xff, 0xff, 0xff, 0xff, 0xff, 0xff, 0xff, 0x01,
                ],
                &[
                    0x19, 0x2c, 0x19, 0x0c, 0x26, 0xfe, 0xff, 0xff, 0xff, 0xff, 0xff, 0xff, 0xff,
                    0xff, 0x01, 0x00, 0x19, 0x0c, 0x26, 0x02, 0x00, 0x00,
                ],
            ],
            COUNTS,
        ),
        // A field given twice: the last entry counts, if it has the field's kind.
        (
            [LEAF, &[0x16, 0x04, 0x06, 0x06, 0x02], GROUP],
            Ok((1, 1, 1)),
        ),
        ([LEAF, &[0x16, 0x02, 0x06, 0x06, 0x04], GROUP], COUNTS),
        (
            [LEAF, &[0x16, 0x02, 0x05, 0x06, 0x04], GROUP],
            Ok((1, 1, 1)),
        ),
        (
            [
                &[0x29, 0x2c, 0x00, 0x00, 0x09, 0x04, 0x1c, 0x00],
                ROW,
                GROUP,
            ],
            Ok((1, 0, 1)),
        ),
        (
            [&[0x29, 0x1c, 0x00, 0x09, 0x04, 0x15, 0x02], ROW, GROUP],
            Ok((1, 0, 1)),
        ),
        (
            [&[0x29, 0x1c, 0x00, 0x09, 0x04, 0x05], ROW, GROUP],
            missing(102),
        ),
        (
            [
                &[
                    0x29, 0x2c, 0x00, 0x35, 0x04, 0x18, 0x00, 0x05, 0x06, 0x02, 0x00,
                ],
                ROW,
                GROUP,
            ],
            Ok((1, 1, 1)),
        ),
        (
            [
                LEAF,
                ROW,
                &[
                    0x19, 0x1c, 0x19, 0x0c, 0x26, 0x04, 0x06, 0x06, 0x02, 0x00, 0x00,
                ],
            ],
            Ok((1, 1, 1)),
        ),
        // Other fields, of each kind, and bytes behind the struct are passed over.
        (
            [
                LEAF,
                ROW,
                &[
                    0x19, 0x1c, 0x19, 0x0c, 0x26, 0x02, 0x00, // 4
                    0x19, 0x1c, 0x18, 0x01, b'k', 0x18, 0x01, b'v', 0x00, // 5
                    0x18, 0x01, b'x', // 6
                    0x11, 0x12, 0x13, 0xff, 0x14, 0x02, 0x15, 0x02, 0x16, 0x02, // 7 to 12
                    0x17, 0x00, 0x00, 0x00, 0x00, 0x00, 0x00, 0xf0, 0x3f, // 13
                    0x18, 0x00, 0x19, 0x15, 0x02, 0x1a, 0x11, 0x01, // 14 to 16
                    0x1b, 0x01, 0x58, 0x02, 0x01, b'a', 0x1c, 0x00, 0x00, // 17, 18
                ],
            ],
            Ok((1, 1, 1)),
        ),
        (
            [
                LEAF,
                ROW,
                &[0x19, 0x1c, 0x19, 0x0c, 0x26, 0x02, 0x00, 0x00, 0x1d, 0xff],
            ],
            Ok((1, 1, 1)),
        ),
    ];
    for (parts, expected) in cases {
        let [schema, rows, groups] = parts;
        assert_eq!(rt;
            counts_of(rt.alloc(), parts),
            expected,
            "{schema:?} {rows:?} {groups:?}"
        );
    }
}

const NO_CHUNK: Chunk = Chunk {
    has_path: false,
    has_meta: false,
    codec: None,
    values: None,
    plain_size: None,
    stored_size: None,
    data_page: None,
    dictionary_page: None,
};

const WITH_META: Chunk = Chunk {
    has_meta: true,
    ..NO_CHUNK
};

// The one chunk of a file's one group, where there is one.
fn chunk_of(alloc: Global, parts: [&[u8]; 3]) -> Result<Option<Chunk>, PqRefusal> {
    let file = file_of(alloc, parts)?;
    let footer = read_footer(alloc, &file)?;
    match footer.groups() {
        [group] => match group.chunks() {
            [chunk] => Ok(Some(*chunk)),
            _ => Ok(None),
        },
        _ => Ok(None),
    }
}

#[test]
fn chunks(rt: HostRuntime) {
    let cases: [(&[u8], Chunk); 8] = [
        (&[0x00], NO_CHUNK),
        (
            &[0x18, 0x01, b'x', 0x00],
            Chunk {
                has_path: true,
                ..NO_CHUNK
            },
        ),
        (&[0x3c, 0x00, 0x00], WITH_META),
        (&[0x39, 0x0c, 0x00], NO_CHUNK),
        (
            &[
                0x18, 0x01, b'x', 0x16, 0x08, 0x1c, 0x15, 0x02, 0x19, 0x15, 0x00, 0x19, 0x18, 0x01,
                b'a', 0x15, 0x0c, 0x16, 0x02, 0x16, 0x04, 0x16, 0x06, 0x26, 0x08, 0x26, 0x0a, 0x1c,
                0x18, 0x01, b'm', 0x00, 0x00, 0x00,
            ],
            Chunk {
                has_path: true,
                has_meta: true,
                codec: Some(6),
                values: Some(1),
                plain_size: Some(2),
                stored_size: Some(3),
                data_page: Some(4),
                dictionary_page: Some(5),
            },
        ),
        // The last meta data counts whole.
        (
            &[0x3c, 0x45, 0x00, 0x00, 0x0c, 0x06, 0x56, 0x02, 0x00, 0x00],
            Chunk {
                values: Some(1),
                ..WITH_META
            },
        ),
        (&[0x3c, 0x46, 0x00, 0x15, 0x02, 0x00, 0x00], WITH_META),
        (
            &[0x3c, 0x00, 0x18, 0x00, 0x08, 0x02, 0x00, 0x00],
            Chunk {
                has_path: true,
                ..WITH_META
            },
        ),
    ];
    for (chunk, expected) in cases {
        let parts: [&[u8]; 3] = [
            &[0x29, 0x1c, 0x00, 0x16, 0x02, 0x19, 0x1c, 0x19, 0x1c],
            chunk,
            &[0x26, 0x02, 0x00, 0x00],
        ];
        assert_eq!(rt;
            chunk_of(rt.alloc(), parts),
            Ok(Some(expected)),
            "{chunk:?}"
        );
    }
}

fn page(
    kind: i32,
    values: i32,
    encoding: i32,
    levels: Option<i32>,
    next: u64,
) -> Result<PageHead, PqRefusal> {
    Ok(PageHead {
        kind,
        plain_size: 1,
        stored_size: 2,
        values,
        encoding,
        levels,
        next,
    })
}

fn lacks(field: u16) -> Result<PageHead, PqRefusal> {
    Err(PqRefusal::Missing { field })
}

#[test]
fn page_headers(rt: HostRuntime) {
    let cases: [(&[u8], Result<PageHead, PqRefusal>); 18] = [
        (
            &[
                0x15, 0x00, 0x15, 0x02, 0x15, 0x04, 0x2c, 0x15, 0x06, 0x15, 0x10, 0x00, 0x00,
            ],
            page(0, 3, 8, None, 1013),
        ),
        (
            &[
                0x15, 0x00, 0x15, 0x02, 0x15, 0x04, 0x2c, 0x15, 0x06, 0x15, 0x10, 0x15, 0x06, 0x15,
                0x08, 0x00, 0x00, 0xff,
            ],
            page(0, 3, 8, Some(3), 1017),
        ),
        // Pages of other types aren't asked for a data page's header.
        (
            &[0x15, 0x04, 0x15, 0x02, 0x15, 0x04, 0x00],
            page(2, 0, 0, None, 1007),
        ),
        (
            &[
                0x15, 0x06, 0x15, 0x02, 0x15, 0x04, 0x2c, 0x15, 0x06, 0x15, 0x10, 0x15, 0x06, 0x00,
                0x3c, 0x00, 0x00,
            ],
            page(3, 0, 0, None, 1017),
        ),
        (
            &[0x15, 0x01, 0x15, 0x02, 0x15, 0x04, 0x00],
            page(-1, 0, 0, None, 1007),
        ),
        (&[], Err(PqRefusal::Thrift { at: 1000 })),
        (&[0x15, 0x00, 0x15], Err(PqRefusal::Thrift { at: 1003 })),
        (&[0x25, 0x00, 0x1d], Err(PqRefusal::Thrift { at: 1002 })),
        (
            &[0x2c, 0x15, 0x80, 0x80, 0x80, 0x80, 0x10],
            Err(PqRefusal::Thrift { at: 1002 }),
        ),
        (&[0x00], lacks(601)),
        (&[0x16, 0x00, 0x15, 0x02, 0x15, 0x04, 0x00], lacks(601)),
        (&[0x15, 0x00, 0x25, 0x04, 0x00], lacks(602)),
        (&[0x15, 0x04, 0x15, 0x02, 0x00], lacks(603)),
        (&[0x15, 0x00, 0x15, 0x02, 0x15, 0x04, 0x00], lacks(605)),
        (
            &[0x15, 0x00, 0x15, 0x02, 0x15, 0x04, 0x4c, 0x00, 0x00],
            lacks(605),
        ),
        (
            &[
                0x15, 0x00, 0x15, 0x02, 0x15, 0x04, 0x2c, 0x25, 0x00, 0x00, 0x00,
            ],
            lacks(701),
        ),
        (
            &[
                0x15, 0x00, 0x15, 0x02, 0x15, 0x04, 0x2c, 0x15, 0x00, 0x00, 0x00,
            ],
            lacks(702),
        ),
        (
            &[
                0x15, 0x00, 0x15, 0x02, 0x15, 0x04, 0x2c, 0x15, 0x06, 0x15, 0x10, 0x00, 0x0c, 0x0a,
                0x15, 0x06, 0x00, 0x00,
            ],
            lacks(702),
        ),
    ];
    for (bytes, expected) in cases {
        assert_eq!(rt; read_page_header(bytes, 1000), expected, "{bytes:?}");
    }
}
