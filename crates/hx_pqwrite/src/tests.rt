//! Files of rows: their bytes and places as they are counted by hand, and what is read of them.
use super::*;
use crate::writing::write_columns;
use hx_base::{Column, Row};
use hx_pqmeta::{Chunk, PageHead, read_footer, read_page_header};
use hx_pqread::columns;
use hx_rows::parquet_rows;
use std::alloc::{AllocError, Global};
use std::process::Abort;
use std::test::Fail;

const NAMES: [&str; 5] = ["_healpix_29", "id", "cx", "cy", "cz"];

const ROW: Row = Row {
    hp: 216_172_782_113_783_808,
    id: -2,
    x: 600_000_000,
    y: -800_000_000,
    z: 0,
};

// The file of rows, whose positions are below 2^63.
fn written(rt: &impl Abort, alloc: Global, rows: &[Row]) -> Result<Vec<u8>, AllocError> {
    assert!(rt; rows.iter().all(|row| row.hp < 9_223_372_036_854_775_808));
    write(alloc, rows)
}

// The file of that many times `ROW`.
fn written_times(rt: &impl Abort, alloc: Global, count: usize) -> Result<Vec<u8>, AllocError> {
    let rows = vec![in alloc; ROW; count]?;
    written(rt, alloc, &rows)
}

// The file's columns have these values.
fn check(
    rt: &impl Abort,
    alloc: Global,
    file: &[u8],
    expected: &[&[i64]; 5],
) -> Result<(), AllocError> {
    let mut names = Vec::new(alloc);
    for name in NAMES {
        names.push(String::from_str(alloc, name)?)?;
    }
    match columns(alloc, file, &names) {
        Ok(columns) => {
            assert_eq!(rt; columns.count(), 5);
            for i in 0..columns.count().min(5) {
                assert_eq!(rt; columns.column(i), expected[i]);
            }
        }
        Err(refusal) => panic!(rt; "{refusal:?}"),
    }
    Ok(())
}

// The file of `ROW`. A page has a header of 17 bytes and a number of eight.
const ONE_ROW: [&[u8]; 33] = [
    b"PAR1", // 0
    b"\x15\x00\x15\x10\x15\x10\x2c\x15\x02\x15\x00\x15\x06\x15\x06\x00\x00", // 4: a page of one value
    b"\x00\x00\x00\x00\x00\x00\x00\x03",
    b"\x15\x00\x15\x10\x15\x10\x2c\x15\x02\x15\x00\x15\x06\x15\x06\x00\x00", // 29
    b"\xfe\xff\xff\xff\xff\xff\xff\xff",
    b"\x15\x00\x15\x10\x15\x10\x2c\x15\x02\x15\x00\x15\x06\x15\x06\x00\x00", // 54
    b"\x00\x46\xc3\x23\x00\x00\x00\x00",
    b"\x15\x00\x15\x10\x15\x10\x2c\x15\x02\x15\x00\x15\x06\x15\x06\x00\x00", // 79
    b"\x00\xf8\x50\xd0\xff\xff\xff\xff",
    b"\x15\x00\x15\x10\x15\x10\x2c\x15\x02\x15\x00\x15\x06\x15\x06\x00\x00", // 104
    b"\x00\x00\x00\x00\x00\x00\x00\x00",
    b"\x15\x02\x19\x6c", // 129: version 1, a schema of six elements
    b"\x48\x06schema\x15\x0a\x00", // the root, with five children
    b"\x15\x04\x25\x00\x18\x0b_healpix_29\x00",
    b"\x15\x04\x25\x00\x18\x02id\x00",
    b"\x15\x04\x25\x00\x18\x02cx\x00",
    b"\x15\x04\x25\x00\x18\x02cy\x00",
    b"\x15\x04\x25\x00\x18\x02cz\x00",
    b"\x16\x02\x19\x1c\x19\x5c", // one row, a row group, five chunks
    b"\x26\x08\x1c\x15\x04\x19\x25\x00\x06\x19\x18\x0b_healpix_29", // place 4, meta data
    b"\x15\x00\x16\x02\x16\x32\x16\x32\x26\x08\x00\x00", // one value, 25 bytes
    b"\x26\x3a\x1c\x15\x04\x19\x25\x00\x06\x19\x18\x02id",
    b"\x15\x00\x16\x02\x16\x32\x16\x32\x26\x3a\x00\x00",
    b"\x26\x6c\x1c\x15\x04\x19\x25\x00\x06\x19\x18\x02cx",
    b"\x15\x00\x16\x02\x16\x32\x16\x32\x26\x6c\x00\x00",
    b"\x26\x9e\x01\x1c\x15\x04\x19\x25\x00\x06\x19\x18\x02cy",
    b"\x15\x00\x16\x02\x16\x32\x16\x32\x26\x9e\x01\x00\x00",
    b"\x26\xd0\x01\x1c\x15\x04\x19\x25\x00\x06\x19\x18\x02cz",
    b"\x15\x00\x16\x02\x16\x32\x16\x32\x26\xd0\x01\x00\x00",
    b"\x16\xfa\x01\x16\x02\x00", // the group's 125 bytes, its row
    b"\x28\x0ehats profile 1\x00",
    b"\xf1\x00\x00\x00", // the footer's 241 bytes
    b"PAR1",
];

#[test]
fn one_row(rt: HostRuntime) -> Result<(), Fail> {
    let file = written(&rt, rt.alloc(), &[ROW])?;
    let mut rest = file.as_slice();
    for part in ONE_ROW {
        assert!(rt; rest.starts_with(part), "{} bytes from the end", rest.len());
        rest = rest.get(part.len()..).unwrap_or(&[]);
    }
    assert_eq!(rt; rest.len(), 0);
    assert_eq!(rt; file.len(), 378);
    Ok(())
}

// A mark, the footer of 90 bytes with no row group, its length, a mark.
#[test]
fn no_rows(rt: HostRuntime) -> Result<(), Fail> {
    let file = written(&rt, rt.alloc(), &[])?;
    assert_eq!(rt; file.len(), 102);
    assert_eq!(rt; file.get(73..77), Some(b"\x16\x00\x19\x0c".as_slice()));
    check(&rt, rt.alloc(), &file, &[&[], &[], &[], &[], &[]])?;
    Ok(())
}

#[test]
fn three_equal_rows(rt: HostRuntime) -> Result<(), Fail> {
    let row = Row {
        hp: 216_172_782_113_783_808,
        id: 1,
        x: 1_000_000_000,
        y: 0,
        z: 0,
    };
    let file = written(&rt, rt.alloc(), &[row, row, row])?;
    check(
        &rt,
        rt.alloc(),
        &file,
        &[
            &[216_172_782_113_783_808; 3],
            &[1; 3],
            &[1_000_000_000; 3],
            &[0; 3],
            &[0; 3],
        ],
    )?;
    Ok(())
}

// Numbers at the ends of their ranges.
#[test]
fn ends(rt: HostRuntime) -> Result<(), Fail> {
    let low = Row {
        hp: 0,
        id: i64::MIN,
        x: i32::MIN,
        y: -1,
        z: 1,
    };
    let high = Row {
        hp: 9_223_372_036_854_775_807,
        id: i64::MAX,
        x: i32::MAX,
        y: 255,
        z: -256,
    };
    let file = written(&rt, rt.alloc(), &[low, high])?;
    check(
        &rt,
        rt.alloc(),
        &file,
        &[
            &[0, i64::MAX],
            &[i64::MIN, i64::MAX],
            &[-2_147_483_648, 2_147_483_647],
            &[-1, 255],
            &[1, -256],
        ],
    )?;
    Ok(())
}

// Good rows, which are read as they were.
#[test]
fn rows_again(rt: HostRuntime) -> Result<(), Fail> {
    let rows = [ROW, Row { id: 9, ..ROW }, Row { hp: 5, ..ROW }, ROW];
    for count in 0..=rows.len() {
        let rows = rows.get(..count).unwrap_or(&[]);
        let file = written(&rt, rt.alloc(), rows)?;
        match parquet_rows(rt.alloc(), &file) {
            Ok(read) => assert_eq!(rt; read.as_slice(), rows),
            Err(refusal) => panic!(rt; "{refusal:?}"),
        }
    }
    Ok(())
}

// Pages of 65536 values take 524311 bytes, of which 23 are the header's, and pages of one value 25.
const WIDE: u64 = 524_311;

// How many rows, how many bytes the pages of each column take, and of each page its values and their bytes.
const PAGES: [(usize, u64, &[(i32, i32)]); 4] = [
    (65_535, 524_303, &[(65_535, 524_280)]),
    (65_536, WIDE, &[(65_536, 524_288)]),
    (65_537, WIDE + 25, &[(65_536, 524_288), (1, 8)]),
    (131_072, 2 * WIDE, &[(65_536, 524_288), (65_536, 524_288)]),
];

// The header of the page at a place, in the bytes before the footer.
fn head_at(rt: &impl Abort, file: &[u8], place: u64, end: u64) -> PageHead {
    let bytes = file.get(place as usize..end as usize).unwrap_or(&[]);
    match read_page_header(bytes, place.min(1 << 40)) {
        Ok(head) => head,
        Err(refusal) => panic!(rt; "{refusal:?}"),
    }
}

#[test]
fn places(rt: HostRuntime) -> Result<(), Fail> {
    for (rows, size, pages) in PAGES {
        let file = written_times(&rt, rt.alloc(), rows)?;
        let Ok(footer) = read_footer(rt.alloc(), &file) else {
            panic!(rt; "no footer");
        };
        let [group] = footer.groups() else {
            panic!(rt; "groups");
        };
        assert_eq!(rt; group.rows(), rows as i64);
        assert_eq!(rt; footer.start(), size * 5 + 4);
        let mut place = 4u64;
        for chunk in group.chunks() {
            let expected = Chunk {
                has_path: false,
                has_meta: true,
                codec: Some(0),
                values: Some(rows as i64),
                plain_size: Some(size as i64),
                stored_size: Some(size as i64),
                data_page: i64::try_from(place).ok(),
                dictionary_page: None,
            };
            assert_eq!(rt; *chunk, expected);
            for &(values, bytes) in pages {
                let head = head_at(&rt, &file, place, footer.start());
                assert_eq!(rt; (head.kind, head.values, head.encoding), (0, values, 0));
                assert_eq!(rt; (head.plain_size, head.stored_size), (bytes, bytes));
                place = head
                    .next
                    .saturating_add(u64::from(head.plain_size.unsigned_abs()));
            }
        }
        assert_eq!(rt; place, footer.start());
    }
    Ok(())
}

// How many columns, and in the footer the heads of the list of elements, of the root's number of children and of the
// list of chunks. Up to 14 elements have a short head.
const COUNTS: [(usize, &[u8], &[u8], &[u8]); 4] = [
    (13, b"\xec", b"\x1a", b"\xdc"),
    (14, b"\xfc\x0f", b"\x1c", b"\xec"),
    (15, b"\xfc\x10", b"\x1e", b"\xfc\x0f"),
    (64, b"\xfc\x41", b"\x80\x01", b"\xfc\x40"),
];

#[test]
fn many_columns(rt: HostRuntime) -> Result<(), Fail> {
    for (count, elements, children, chunks) in COUNTS {
        let all = [Column::Id; 64];
        let columns = all.get(..count).unwrap_or(&[]);
        assert!(rt; !columns.is_empty());
        let file = write_columns(rt.alloc(), columns, &[ROW])?;
        let Ok(footer) = read_footer(rt.alloc(), &file) else {
            panic!(rt; "no footer");
        };
        assert_eq!(rt; footer.leaves().len(), count);
        let mut rest = file.get(footer.start() as usize..).unwrap_or(&[]);
        for part in [
            b"\x15\x02\x19",
            elements,
            b"\x48\x06schema\x15",
            children,
            b"\x00",
        ] {
            assert!(rt; rest.starts_with(part), "{count} columns");
            rest = rest.get(part.len()..).unwrap_or(&[]);
        }
        for leaf in footer.leaves() {
            assert_eq!(rt; leaf.name(), b"id".as_slice());
            assert!(rt; rest.starts_with(b"\x15\x04\x25\x00\x18\x02id\x00"));
            rest = rest.get(9..).unwrap_or(&[]);
        }
        for part in [b"\x16\x02\x19\x1c\x19", chunks] {
            assert!(rt; rest.starts_with(part), "{count} columns");
            rest = rest.get(part.len()..).unwrap_or(&[]);
        }
        for group in footer.groups() {
            assert_eq!(rt; group.chunks().len(), count);
        }
    }
    Ok(())
}
