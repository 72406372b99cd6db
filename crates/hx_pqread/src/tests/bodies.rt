//! Bodies of pages: plain numbers, and levels in front of them. Each is the one page of a chunk with so many rows.
use super::making::{CHUNK, Chunk, Group, Leaf, Page, file};
use super::{Expected, check};
use hx_pqmeta::PqRefusal;
use std::alloc::Global;
use std::process::Abort;
use std::test::Fail;

const BOUNDS: Expected = Err(PqRefusal::Bounds { column: 0 });

// So many numbers, and nothing else.
const REQUIRED_INT32: [(i64, &'static [u8], Expected); 7] = [
    (1, b"\x05\0\0\0", Ok(&[&[5]])),
    (2, b"\xff\xff\xff\xff\x05\0\0\0", Ok(&[&[-1, 5]])),
    (1, b"\0\0\0\x80", Ok(&[&[-2147483648]])),
    (1, b"\xff\xff\xff\x7f", Ok(&[&[2147483647]])),
    (1, b"\x05\0\0", BOUNDS),
    (1, b"\x05\0\0\0\0", BOUNDS),
    (2, b"\x05\0\0\0", BOUNDS),
];

const REQUIRED_INT64: [(i64, &'static [u8], Expected); 5] = [
    (1, b"\x05\0\0\0\0\0\0\0", Ok(&[&[5]])),
    (
        2,
        b"\xfe\xff\xff\xff\xff\xff\xff\xff\0\0\0\0\0\0\0\x80",
        Ok(&[&[-2, -9223372036854775808]]),
    ),
    (1, b"\x05\0\0\0", BOUNDS),
    (1, b"\x05\0\0\0\0\0\0\0\0", BOUNDS),
    (1, b"", BOUNDS),
];

// The length of the levels in four bytes, runs of levels, a number for each level 1.
const OPTIONAL_INT32: [(i64, &'static [u8], Expected); 39] = [
    // One run of equal levels, and several.
    (
        2,
        b"\x02\0\0\0\x04\x01\xfe\xff\xff\xff\x07\0\0\0",
        Ok(&[&[-2, 7]]),
    ),
    (
        2,
        b"\x04\0\0\0\x02\x01\x02\x01\x05\0\0\0\x07\0\0\0",
        Ok(&[&[5, 7]]),
    ),
    // A run longer than the page; one of no levels; a header in more bytes than it needs.
    (1, b"\x02\0\0\0\x06\x01\x05\0\0\0", Ok(&[&[5]])),
    (1, b"\x04\0\0\0\0\x01\x02\x01\x05\0\0\0", Ok(&[&[5]])),
    (1, b"\x03\0\0\0\x82\0\x01\x05\0\0\0", Ok(&[&[5]])),
    // A group of eight levels, of which two are wanted, and two groups, of which nine are.
    (2, b"\x02\0\0\0\x03\xff\x05\0\0\0\x07\0\0\0", Ok(&[&[5, 7]])),
    (2, b"\x02\0\0\0\x03\x03\x05\0\0\0\x07\0\0\0", Ok(&[&[5, 7]])),
    (
        9,
        b"\x03\0\0\0\x05\xff\x01\x01\0\0\0\x02\0\0\0\x03\0\0\0\x04\0\0\0\x05\0\0\0\x06\0\0\0\x07\0\0\0\x08\0\0\0\x09\0\0\0",
        Ok(&[&[1, 2, 3, 4, 5, 6, 7, 8, 9]]),
    ),
    // A run of no groups; a run of groups behind one of equal levels.
    (1, b"\x03\0\0\0\x01\x02\x01\x05\0\0\0", Ok(&[&[5]])),
    (
        2,
        b"\x04\0\0\0\x02\x01\x03\x01\x05\0\0\0\x07\0\0\0",
        Ok(&[&[5, 7]]),
    ),
    // Eleven levels of two groups, whose last byte has absent ones past them.
    (
        11,
        b"\x03\0\0\0\x05\xff\x07\x01\0\0\0\x02\0\0\0\x03\0\0\0\x04\0\0\0\x05\0\0\0\x06\0\0\0\x07\0\0\0\x08\0\0\0\x09\0\0\0\x0a\0\0\0\x0b\0\0\0",
        Ok(&[&[1, 2, 3, 4, 5, 6, 7, 8, 9, 10, 11]]),
    ),
    // Headers of ten bytes: a run of one level, and one of 2^63 - 1.
    (
        1,
        b"\x0b\0\0\0\x82\x80\x80\x80\x80\x80\x80\x80\x80\0\x01\x05\0\0\0",
        Ok(&[&[5]]),
    ),
    (
        2,
        b"\x0b\0\0\0\xfe\xff\xff\xff\xff\xff\xff\xff\xff\x01\x01\x05\0\0\0\x07\0\0\0",
        Ok(&[&[5, 7]]),
    ),
    // What stands behind the last level is passed over, whatever it is.
    (1, b"\x04\0\0\0\x02\x01\x02\x07\x05\0\0\0", Ok(&[&[5]])),
    (1, b"\x05\0\0\0\x03\x01\xff\xff\xff\x05\0\0\0", Ok(&[&[5]])),
    (1, b"\x03\0\0\0\x02\x01\x80\x05\0\0\0", Ok(&[&[5]])),
    // Absent values, of which the first row is named. In a group the least significant bit comes first.
    (1, b"\x02\0\0\0\x02\0", Err(PqRefusal::Null { row: 1 })),
    (
        2,
        b"\x02\0\0\0\x03\x01\x05\0\0\0",
        Err(PqRefusal::Null { row: 2 }),
    ),
    (
        3,
        b"\x04\0\0\0\x02\x01\x04\0\x05\0\0\0",
        Err(PqRefusal::Null { row: 2 }),
    ),
    (
        8,
        b"\x02\0\0\0\x03\x3f\x01\0\0\0\x02\0\0\0\x03\0\0\0\x04\0\0\0\x05\0\0\0\x06\0\0\0",
        Err(PqRefusal::Null { row: 7 }),
    ),
    (
        10,
        b"\x03\0\0\0\x05\xff\x01\x01\0\0\0\x02\0\0\0\x03\0\0\0\x04\0\0\0\x05\0\0\0\x06\0\0\0\x07\0\0\0\x08\0\0\0\x09\0\0\0",
        Err(PqRefusal::Null { row: 10 }),
    ),
    // 2^31 - 1 levels of one run: absent ones, and ones that are there, over one number and over none.
    (
        2147483647,
        b"\x06\0\0\0\xfe\xff\xff\xff\x0f\0",
        Err(PqRefusal::Null { row: 1 }),
    ),
    (
        2147483647,
        b"\x06\0\0\0\xfe\xff\xff\xff\x0f\x01\x05\0\0\0",
        BOUNDS,
    ),
    (2147483647, b"\x06\0\0\0\xfe\xff\xff\xff\x0f\x01", BOUNDS),
    // A level of 2, also in a run of no levels.
    (1, b"\x02\0\0\0\x02\x02\x05\0\0\0", BOUNDS),
    (1, b"\x04\0\0\0\0\x02\x02\x01\x05\0\0\0", BOUNDS),
    // Runs that are cut short: a level, a group, a header; and no header.
    (1, b"\x01\0\0\0\x02\x01\x05\0\0\0", BOUNDS),
    (2, b"\x02\0\0\0\x05\xff\x05\0\0\0\x07\0\0\0", BOUNDS),
    (1, b"\x01\0\0\0\x82\x05\0\0\0", BOUNDS),
    (
        1,
        b"\x0d\0\0\0\x82\x80\x80\x80\x80\x80\x80\x80\x80\x80\x80\0\x01\x05\0\0\0",
        BOUNDS,
    ),
    (1, b"\0\0\0\0\x05\0\0\0", BOUNDS),
    // A level too few.
    (
        3,
        b"\x02\0\0\0\x04\x01\x05\0\0\0\x07\0\0\0\x09\0\0\0",
        BOUNDS,
    ),
    // Fewer than four bytes; levels past the body.
    (1, b"\x02\0\0", BOUNDS),
    (1, b"\x03\0\0\0\x02\x01", BOUNDS),
    (1, b"\xff\xff\xff\xff\x02\x01\x05\0\0\0", BOUNDS),
    // A number too few, one too many, a part of one.
    (2, b"\x02\0\0\0\x04\x01\x05\0\0\0", BOUNDS),
    (1, b"\x02\0\0\0\x02\x01\x05\0\0\0\x07\0\0\0", BOUNDS),
    (1, b"\x02\0\0\0\x02\x01\x05\0\0", BOUNDS),
    (1, b"\x02\0\0\0\x02\0\x05\0\0\0", BOUNDS),
];

const OPTIONAL_INT64: [(i64, &'static [u8], Expected); 4] = [
    (1, b"\x02\0\0\0\x02\x01\x07\0\0\0\0\0\0\0", Ok(&[&[7]])),
    (
        2,
        b"\x02\0\0\0\x03\x03\xff\xff\xff\xff\xff\xff\xff\xff\x07\0\0\0\0\0\0\0",
        Ok(&[&[-1, 7]]),
    ),
    (
        2,
        b"\x02\0\0\0\x03\x02\x07\0\0\0\0\0\0\0",
        Err(PqRefusal::Null { row: 1 }),
    ),
    (1, b"\x02\0\0\0\x02\x01\x07\0\0\0", BOUNDS),
];

fn check_bodies(
    rt: &impl Abort,
    alloc: Global,
    leaf: Leaf,
    bodies: &[(i64, &'static [u8], Expected)],
) -> Result<(), Fail> {
    for &(rows, body, expected) in bodies {
        let page = Page {
            values: rows,
            body,
            sizes: None,
        };
        let chunk = Chunk {
            pages: &[page],
            ..CHUNK
        };
        let file = file(alloc, &[leaf], &[Group(rows, &[chunk])])?;
        check(rt, alloc, &file, &["a"], expected)?;
    }
    Ok(())
}

#[test]
fn bodies(rt: HostRuntime) -> Result<(), Fail> {
    check_bodies(&rt, rt.alloc(), Leaf("a", Some(1), 0), &REQUIRED_INT32)?;
    check_bodies(&rt, rt.alloc(), Leaf("a", Some(2), 0), &REQUIRED_INT64)?;
    check_bodies(&rt, rt.alloc(), Leaf("a", Some(1), 1), &OPTIONAL_INT32)?;
    check_bodies(&rt, rt.alloc(), Leaf("a", Some(2), 1), &OPTIONAL_INT64)
}
