//! Columns of files that are made here, or stand here byte by byte. The expected numbers are counted by hand.
mod bodies;
mod files;
mod making;
mod rows;

use super::*;
use hx_pqmeta::PqRefusal;
use std::alloc::{AllocError, Global};
use std::process::Abort;
use std::test::Fail;

type Expected = Result<&'static [&'static [i64]], PqRefusal>;

// The columns of these names.
fn read(alloc: Global, file: &[u8], names: &[&str]) -> Result<Columns, PqRefusal> {
    let mut asked = Vec::new(alloc);
    for name in names {
        asked.push(String::from_str(alloc, name)?)?;
    }
    columns(alloc, file, &asked)
}

// A file's columns of these names have these numbers, or are refused.
fn check(
    rt: &impl Abort,
    alloc: Global,
    file: &[u8],
    names: &[&str],
    expected: Expected,
) -> Result<(), Fail> {
    match (read(alloc, file, names), expected) {
        (Ok(columns), Ok(lists)) => {
            assert_eq!(rt; columns.count(), lists.len());
            for i in 0..columns.count() {
                assert_eq!(rt; Some(columns.column(i)), lists.get(i).copied());
                assert_eq!(rt;
                    rows_in_footer(alloc, file),
                    Ok(columns.column(i).len() as u64)
                );
            }
        }
        (read, expected) => assert_eq!(rt; read.err(), expected.err(), "{}", file.escape_ascii()),
    }
    Ok(())
}

// A file with one leaf, `id`, OPTIONAL INT64, and one row with the value 7.
const ONE_ROW: [u8; 105] = [
    b'P', b'A', b'R', b'1', // 0
    0x15, 0x00, 0x15, 0x1c, 0x15, 0x1c, 0x2c, 0x15, 0x02, 0x15, 0x00, 0x15, 0x06, 0x15, 0x06, 0x00,
    0x00, // 4
    0x02, 0x00, 0x00, 0x00, 0x02, 0x01, // 21
    0x07, 0x00, 0x00, 0x00, 0x00, 0x00, 0x00, 0x00, // 27
    0x15, 0x02, // 35
    0x19, 0x2c, // 37
    0x48, 0x06, b's', b'c', b'h', b'e', b'm', b'a', 0x15, 0x02, 0x00, // 39
    0x15, 0x04, 0x25, 0x02, 0x18, 0x02, b'i', b'd', 0x00, // 50
    0x16, 0x02, // 59
    0x19, 0x1c, 0x19, 0x1c, // 61
    0x26, 0x08, 0x1c, // 65
    0x15, 0x04, 0x19, 0x25, 0x00, 0x06, 0x19, 0x18, 0x02, b'i', b'd', // 68
    0x15, 0x00, 0x16, 0x02, 0x16, 0x3e, 0x16, 0x3e, 0x26, 0x08, 0x00, 0x00, // 79
    0x16, 0x3e, 0x16, 0x02, 0x00, 0x00, // 91
    0x3e, 0x00, 0x00, 0x00, b'P', b'A', b'R', b'1', // 97
];

// A file with the columns `a` of REQUIRED INT32, in two pages and one, and `b` of OPTIONAL INT64. It has two row
// groups of two rows and one; the second value of `b` is absent.
const TWO_GROUPS: [u8; 282] = [
    0x50, 0x41, 0x52, 0x31, // PAR1
    0x15, 0x00, 0x15, 0x08, 0x15, 0x08, 0x2c, 0x15, 0x02, 0x15, 0x00, 0x15, 0x06, 0x15, 0x06, 0x00,
    0x00, // header of a page of 1
    0xff, 0xff, 0xff, 0xff, // -1
    0x15, 0x00, 0x15, 0x08, 0x15, 0x08, 0x2c, 0x15, 0x02, 0x15, 0x00, 0x15, 0x06, 0x15, 0x06, 0x00,
    0x00, // header of a page of 1
    0x05, 0x00, 0x00, 0x00, // 5
    0x15, 0x00, 0x15, 0x1c, 0x15, 0x1c, 0x2c, 0x15, 0x04, 0x15, 0x00, 0x15, 0x06, 0x15, 0x06, 0x00,
    0x00, // header of a page of 2
    0x02, 0x00, 0x00, 0x00, 0x03, 0xfd, 0x07, 0x00, 0x00, 0x00, 0x00, 0x00, 0x00, 0x00, // levels 1 0 in a group, and 7
    0x15, 0x00, 0x15, 0x08, 0x15, 0x08, 0x2c, 0x15, 0x02, 0x15, 0x00, 0x15, 0x06, 0x15, 0x06, 0x00,
    0x00, // header of a page of 1
    0x06, 0x00, 0x00, 0x00, // 6
    0x15, 0x00, 0x15, 0x1c, 0x15, 0x1c, 0x2c, 0x15, 0x02, 0x15, 0x00, 0x15, 0x06, 0x15, 0x06, 0x00,
    0x00, // header of a page of 1
    0x02, 0x00, 0x00, 0x00, 0x04, 0x01, 0xf7, 0xff, 0xff, 0xff, 0xff, 0xff, 0xff, 0xff, // a run of two levels 1, and -9
    0x15, 0x02, 0x19, 0x3c, 0x48, 0x01, 0x73, 0x15, 0x04, 0x00, 0x15, 0x02, 0x25, 0x00, 0x18, 0x01,
    0x61, 0x00, 0x15, 0x04, 0x25, 0x02, 0x18, 0x01, 0x62, 0x00, 0x16, 0x06, 0x19, 0x2c, // version, schema, rows
    0x19, 0x2c, // a row group
    0x26, 0x08, 0x1c, 0x15, 0x02, 0x19, 0x15, 0x00, 0x19, 0x18, 0x01, 0x61, 0x15, 0x00, 0x16, 0x04,
    0x16, 0x00, 0x16, 0x00, 0x26, 0x08, 0x00, 0x00, // chunk of a
    0x26, 0x5c, 0x1c, 0x15, 0x04, 0x19, 0x15, 0x00, 0x19, 0x18, 0x01, 0x62, 0x15, 0x00, 0x16, 0x04,
    0x16, 0x00, 0x16, 0x00, 0x26, 0x5c, 0x00, 0x00, // chunk of b
    0x16, 0x00, 0x16, 0x04, 0x00, // 2 rows
    0x19, 0x2c, // a row group
    0x26, 0x9a, 0x01, 0x1c, 0x15, 0x02, 0x19, 0x15, 0x00, 0x19, 0x18, 0x01, 0x61, 0x15, 0x00, 0x16,
    0x02, 0x16, 0x00, 0x16, 0x00, 0x26, 0x9a, 0x01, 0x00, 0x00, // chunk of a
    0x26, 0xc4, 0x01, 0x1c, 0x15, 0x04, 0x19, 0x15, 0x00, 0x19, 0x18, 0x01, 0x62, 0x15, 0x00, 0x16,
    0x02, 0x16, 0x00, 0x16, 0x00, 0x26, 0xc4, 0x01, 0x00, 0x00, // chunk of b
    0x16, 0x00, 0x16, 0x02, 0x00, // 1 rows
    0x00, // end
    0x91, 0x00, 0x00, 0x00, // length
    0x50, 0x41, 0x52, 0x31, // PAR1
];

// The file of one row with other bytes at some places.
fn changed(alloc: Global, changes: &[(usize, u8)]) -> Result<Vec<u8>, AllocError> {
    let mut file = ONE_ROW.to_vec(alloc)?;
    for &(place, byte) in changes {
        if place < file.len() {
            file[place] = byte;
        }
    }
    Ok(file)
}

#[test]
fn one_row(rt: HostRuntime) -> Result<(), Fail> {
    check(&rt, rt.alloc(), &ONE_ROW, &["id"], Ok(&[&[7]]))?;
    check(&rt, rt.alloc(), &ONE_ROW, &["id", "id"], Ok(&[&[7], &[7]]))?;
    check(&rt, rt.alloc(), &ONE_ROW, &[], Ok(&[]))
}

#[test]
fn first_bytes_of_a_file(rt: HostRuntime) -> Result<(), Fail> {
    for len in [0, 4, 11, 12, 104] {
        let front = &ONE_ROW[..len];
        check(&rt, rt.alloc(), front, &["id"], Err(PqRefusal::NotParquet))?;
    }
    Ok(())
}

#[test]
fn two_groups(rt: HostRuntime) -> Result<(), Fail> {
    check(&rt, rt.alloc(), &TWO_GROUPS, &["a"], Ok(&[&[-1, 5, 6]]))?;
    let null = Err(PqRefusal::Null { row: 2 });
    check(&rt, rt.alloc(), &TWO_GROUPS, &["b"], null)?;
    check(&rt, rt.alloc(), &TWO_GROUPS, &["a", "b"], null)?;
    let no_column = Err(PqRefusal::Column { column: 1 });
    check(&rt, rt.alloc(), &TWO_GROUPS, &["b", "c"], no_column)
}

// Each with another byte at a place.
#[test]
fn changed_bytes(rt: HostRuntime) -> Result<(), Fail> {
    let cases = [
        // The page: its type, its encodings, its sizes, its number of values.
        (5usize, 0x02u8, PqRefusal::Encoding { column: 0 }),
        (14, 0x10, PqRefusal::Encoding { column: 0 }),
        (16, 0x08, PqRefusal::Encoding { column: 0 }),
        (7, 0x1e, PqRefusal::Bounds { column: 0 }),
        (12, 0x04, PqRefusal::Bounds { column: 0 }),
        (12, 0x00, PqRefusal::Bounds { column: 0 }),
        // Fields of its header with another kind than theirs, and one that isn't a kind.
        (4, 0x16, PqRefusal::Missing { field: 601 }),
        (6, 0x16, PqRefusal::Missing { field: 602 }),
        (8, 0x16, PqRefusal::Missing { field: 603 }),
        (10, 0x3c, PqRefusal::Missing { field: 605 }),
        (11, 0x16, PqRefusal::Missing { field: 701 }),
        (13, 0x16, PqRefusal::Missing { field: 702 }),
        (15, 0x16, PqRefusal::Missing { field: 703 }),
        (8, 0x1d, PqRefusal::Thrift { at: 8 }),
        // Its levels: their length, their run, their level.
        (21, 0x03, PqRefusal::Bounds { column: 0 }),
        (25, 0x00, PqRefusal::Bounds { column: 0 }),
        (26, 0x00, PqRefusal::Bounds { column: 0 }),
        (26, 0x02, PqRefusal::Bounds { column: 0 }),
        // The leaf: its type, its name.
        (51, 0x0a, PqRefusal::Column { column: 0 }),
        (56, 0x6a, PqRefusal::Column { column: 0 }),
        // The chunk: its meta data, and of these the codec, the number of values, the place of the page.
        (67, 0x2c, PqRefusal::Missing { field: 403 }),
        (79, 0x16, PqRefusal::Missing { field: 504 }),
        (80, 0x02, PqRefusal::Codec { column: 0 }),
        (81, 0x15, PqRefusal::Missing { field: 505 }),
        (82, 0x04, PqRefusal::Bounds { column: 0 }),
        (87, 0x25, PqRefusal::Missing { field: 509 }),
        (88, 0x06, PqRefusal::Bounds { column: 0 }),
        // The footer's length.
        (97, 0x60, PqRefusal::NotParquet),
    ];
    for (place, byte, refusal) in cases {
        let file = changed(rt.alloc(), &[(place, byte)])?;
        check(&rt, rt.alloc(), &file, &["id"], Err(refusal))?;
    }
    Ok(())
}

// Of several faults the first is answered; and what isn't looked at may be anything.
const CHANGES: [(&[(usize, u8)], Expected); 15] = [
    // A dictionary page without the header of a data page, with sizes that differ, without a size.
    (
        &[(5, 0x04), (10, 0x3c)],
        Err(PqRefusal::Encoding { column: 0 }),
    ),
    (
        &[(5, 0x04), (7, 0x1e)],
        Err(PqRefusal::Encoding { column: 0 }),
    ),
    (
        &[(5, 0x04), (8, 0x16)],
        Err(PqRefusal::Missing { field: 603 }),
    ),
    // The encoding of the numbers, that of the levels, the sizes.
    (
        &[(14, 0x10), (15, 0x16)],
        Err(PqRefusal::Encoding { column: 0 }),
    ),
    (
        &[(7, 0x1e), (15, 0x16)],
        Err(PqRefusal::Missing { field: 703 }),
    ),
    (
        &[(7, 0x1e), (16, 0x08)],
        Err(PqRefusal::Encoding { column: 0 }),
    ),
    // A chunk's fields are there before its codec is looked at.
    (
        &[(80, 0x02), (81, 0x15)],
        Err(PqRefusal::Missing { field: 505 }),
    ),
    (
        &[(80, 0x02), (87, 0x25)],
        Err(PqRefusal::Missing { field: 509 }),
    ),
    // The codec before the pages.
    (
        &[(80, 0x02), (5, 0x04)],
        Err(PqRefusal::Codec { column: 0 }),
    ),
    // A leaf that is repeated.
    (&[(53, 0x04), (80, 0x02)], Err(PqRefusal::Nested)),
    // A REQUIRED leaf: the body, here of eight bytes, is the number, and the encoding of levels isn't looked at.
    (
        &[(53, 0x00), (7, 0x10), (9, 0x10)],
        Ok(&[&[0x0007_0102_0000_0002]]),
    ),
    (
        &[(53, 0x00), (7, 0x10), (9, 0x10), (15, 0x16)],
        Ok(&[&[0x0007_0102_0000_0002]]),
    ),
    (
        &[(53, 0x00), (7, 0x10), (9, 0x10), (16, 0x08)],
        Ok(&[&[0x0007_0102_0000_0002]]),
    ),
    // The encoding of repetition levels, the sizes of the chunk.
    (&[(18, 0x08)], Ok(&[&[7]])),
    (&[(84, 0x00), (86, 0x00)], Ok(&[&[7]])),
];

#[test]
fn several_changes(rt: HostRuntime) -> Result<(), Fail> {
    for (changes, expected) in CHANGES {
        let file = changed(rt.alloc(), changes)?;
        check(&rt, rt.alloc(), &file, &["id"], expected)?;
    }
    Ok(())
}
