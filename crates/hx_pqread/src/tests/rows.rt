//! How many rows a footer tells, whatever the pages are.
use super::making::{CHUNK, Group, Leaf, file};
use super::{ONE_ROW, TWO_GROUPS, changed};
use crate::rows_in_footer;
use hx_pqmeta::PqRefusal;
use std::test::Fail;

// The rows of groups whose chunk has no page.
const ROWS: [(&[i64], u64); 5] = [
    (&[], 0),
    (&[0, 0], 0),
    (&[5], 5),
    (&[2, 0, 3, 1], 6),
    (&[0, i64::MAX], 0x7fff_ffff_ffff_ffff),
];

#[test]
fn rows_of_groups(rt: HostRuntime) -> Result<(), Fail> {
    for (counts, expected) in ROWS {
        let mut groups = Vec::new(rt.alloc());
        for &rows in counts {
            groups.push(Group(rows, &[CHUNK]))?;
        }
        let file = file(rt.alloc(), &[Leaf("a", Some(2), 0)], &groups)?;
        assert_eq!(rt;
            rows_in_footer(rt.alloc(), &file),
            Ok(expected),
            "{counts:?}"
        );
    }
    Ok(())
}

#[test]
fn files_by_bytes(rt: HostRuntime) {
    assert_eq!(rt; rows_in_footer(rt.alloc(), &ONE_ROW), Ok(1));
    assert_eq!(rt; rows_in_footer(rt.alloc(), &TWO_GROUPS), Ok(3));
}

// Changes of the file of one row: a mark, the file's count, the group's count, and a page.
const CHANGES: [(usize, u8, Result<u64, PqRefusal>); 4] = [
    (0, b'Q', Err(PqRefusal::NotParquet)),
    (60, 0x04, Err(PqRefusal::Counts)),
    (94, 0x04, Err(PqRefusal::Counts)),
    (5, 0x02, Ok(1)),
];

#[test]
fn changes(rt: HostRuntime) -> Result<(), Fail> {
    for (place, byte, expected) in CHANGES {
        let file = changed(rt.alloc(), &[(place, byte)])?;
        assert_eq!(rt; rows_in_footer(rt.alloc(), &file), expected, "{place}");
    }
    Ok(())
}
