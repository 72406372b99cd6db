//! Files made of numbers by hand, and where they are damaged.
ghost use Rattle.std.specs.Prelude.{◌↔◌, All, IsTrue};
ghost use Rattle.hx_base.specs.Rows.{IsGood};

use crate::{
    Placed, SlicePlace, find_slice, head_width, map_bytes, plan_bytes, read_map, read_plan,
    rows_in_map, rows_in_split, rows_of_slice, slice_of, split_bytes,
};
use hx_align::{Plan, PlanRow};
use hx_base::{Pixel, Row, SpillRefusal};
use hx_hist::Hist;
use std::alloc::{AllocError, Global};
use std::test::Fail;

// A number of some bytes in a file.
type Number = (usize, u64);

// A mark and numbers, the lowest byte of each first.
fn file(alloc: Global, mark: &[u8], numbers: &[Number]) -> Result<Vec<u8>, AllocError> {
    let mut bytes = Vec::from_slice(alloc, mark)?;
    for &(width, number) in numbers {
        let text = number.to_le_bytes();
        for i in 0..width.min(8) {
            bytes.push(text[i])?;
        }
    }
    Ok(bytes)
}

// The same with one number changed.
fn changed(
    alloc: Global,
    mark: &[u8],
    numbers: &[Number],
    index: usize,
    number: u64,
) -> Result<Vec<u8>, AllocError> {
    let mut numbers = Vec::from_slice(alloc, numbers)?;
    if index < numbers.len() {
        numbers[index].1 = number;
    }
    file(alloc, mark, &numbers)
}

// The first so many bytes.
fn front(bytes: &[u8], length: usize) -> &[u8] {
    &bytes[..length.min(bytes.len())]
}

// The place of the item in which the first so many bytes of a file end.
fn place_of_cut(numbers: &[Number], length: usize) -> u64 {
    let mut place = 0;
    let mut end = 4usize;
    for &(width, _) in numbers {
        if length >= end {
            place = end;
        }
        end = end.saturating_add(width);
    }
    place as u64
}

const fn damaged<T>(place: u64) -> Result<T, SpillRefusal> {
    Err(SpillRefusal::Damaged { place })
}

// Order 1, 6 rows, 2 pairs.
const MAP: [Number; 7] = [(4, 1), (8, 6), (8, 2), (8, 3), (8, 2), (8, 5), (8, 4)];

fn map_place(alloc: Global, bytes: &[u8]) -> Option<u64> {
    match read_map(alloc, bytes) {
        Err(SpillRefusal::Damaged { place }) => Some(place),
        _ => None,
    }
}

#[test]
fn a_map_and_its_bytes(rt: HostRuntime) -> Result<(), Fail> {
    let alloc = rt.alloc();
    let mut hist = Hist::new(alloc, 1);
    hist.add(5, 4)?;
    hist.add(3, 2)?;
    let bytes = map_bytes(alloc, &hist)?;
    assert_eq!(rt; bytes.as_slice(), file(alloc, b"HXM1", &MAP)?.as_slice());
    let again = read_map(alloc, &bytes).map_err(|_| "refused")?;
    assert_eq!(rt; again.order(), 1);
    assert_eq!(rt; again.pairs(), hist.pairs());
    let none = map_bytes(alloc, &Hist::new(alloc, 29))?;
    assert_eq!(rt; none.len(), 24);
    assert_eq!(rt; map_place(alloc, &none), None);
    Ok(())
}

#[test]
fn damaged_maps(rt: HostRuntime) -> Result<(), Fail> {
    let alloc = rt.alloc();
    let cases = [
        (0, 30, 4),
        (1, 1_099_511_627_777, 8),
        (1, 5, 8),
        (1, 7, 8),
        (2, 1, 40),
        (2, 3, 56),
        (2, u64::MAX, 56),
        (3, 48, 24),
        (3, 5, 40),
        (3, 6, 40),
        (4, 0, 32),
        (4, 3, 8),
        (4, u64::MAX, 8),
        (5, 3, 40),
        (5, 2, 40),
        (5, 48, 40),
        (6, 0, 48),
        (6, u64::MAX - 1, 8),
    ];
    for (index, number, place) in cases {
        let bytes = changed(alloc, b"HXM1", &MAP, index, number)?;
        assert_eq!(rt; map_place(alloc, &bytes), Some(place), "{index} {number}");
    }
    // Two faults: the first counts, and a wrong sum is looked at last.
    let two = [(4, 1), (8, 9), (8, 2), (8, 3), (8, 2), (8, 5), (8, 0)];
    let bytes = file(alloc, b"HXM1", &two)?;
    assert_eq!(rt; map_place(alloc, &bytes), Some(48));
    let mut bytes = file(alloc, b"HXM1", &MAP)?;
    for length in 0..bytes.len() {
        let place = place_of_cut(&MAP, length);
        assert_eq!(rt;
            map_place(alloc, front(&bytes, length)),
            Some(place),
            "{length}"
        );
    }
    bytes.push(0)?;
    assert_eq!(rt; map_place(alloc, &bytes), Some(56));
    let other = file(alloc, b"HXM2", &MAP)?;
    assert_eq!(rt; map_place(alloc, &other), Some(0));
    Ok(())
}

// Two rows: the first pixel of order 0, and one of order 1 behind it.
const PLAN: [Number; 7] = [
    (8, 2),
    (4, 0),
    (8, 0),
    (8, 5),
    (4, 1),
    (8, 4),
    (8, 1_000_000),
];

fn plan_place(alloc: Global, bytes: &[u8]) -> Option<u64> {
    match read_plan(alloc, bytes) {
        Err(SpillRefusal::Damaged { place }) => Some(place),
        _ => None,
    }
}

#[test]
fn a_plan_and_its_bytes(rt: HostRuntime) -> Result<(), Fail> {
    let alloc = rt.alloc();
    let rows = [
        PlanRow {
            pixel: Pixel {
                order: 0,
                number: 0,
            },
            count: 5,
        },
        PlanRow {
            pixel: Pixel {
                order: 1,
                number: 4,
            },
            count: 1_000_000,
        },
    ];
    let plan = Plan::checked(alloc, Vec::from_slice(alloc, &rows)?)?.ok_or("no plan")?;
    let bytes = plan_bytes(alloc, &plan)?;
    assert_eq!(rt; bytes.as_slice(), file(alloc, b"HXP1", &PLAN)?.as_slice());
    let again = read_plan(alloc, &bytes).map_err(|_| "refused")?;
    assert_eq!(rt; again.rows(), plan.rows());
    Ok(())
}

#[test]
fn damaged_plans(rt: HostRuntime) -> Result<(), Fail> {
    let alloc = rt.alloc();
    let cases = [
        (0, 100_001, 4),
        (0, 1, 32),
        (0, 3, 52),
        (1, 21, 12),
        (2, 12, 16),
        (2, 1, 36),
        (2, 11, 36),
        (3, 0, 24),
        (3, 1_000_001, 24),
        (4, 21, 32),
        (4, 2, 36),
        (5, 48, 36),
        (5, 3, 36),
        (5, 0, 36),
        (6, 0, 44),
        (6, 1_000_001, 44),
    ];
    for (index, number, place) in cases {
        let bytes = changed(alloc, b"HXP1", &PLAN, index, number)?;
        assert_eq!(rt; plan_place(alloc, &bytes), Some(place), "{index} {number}");
    }
    let mut bytes = file(alloc, b"HXP1", &PLAN)?;
    for length in 0..bytes.len() {
        let place = place_of_cut(&PLAN, length);
        assert_eq!(rt;
            plan_place(alloc, front(&bytes, length)),
            Some(place),
            "{length}"
        );
    }
    bytes.push(0)?;
    assert_eq!(rt; plan_place(alloc, &bytes), Some(52));
    let other = file(alloc, b"hXP1", &PLAN)?;
    assert_eq!(rt; plan_place(alloc, &other), Some(0));
    Ok(())
}

// Two entries, of parts 2 and 7, with two rows and one.
const HEAD: [Number; 7] = [(8, 2), (4, 2), (8, 0), (8, 2), (4, 7), (8, 2), (8, 1)];

const X: u64 = 1_000_000_000;

// Their rows: hp, id, x, y and z of each.
const ROWS: [Number; 15] = [
    (8, 5),
    (8, 1),
    (4, X),
    (4, 0),
    (4, 0),
    (8, 5),
    (8, 2),
    (4, X),
    (4, 0),
    (4, 0),
    (8, 1),
    (8, u64::MAX),
    (4, 0),
    (4, 0),
    (4, X),
];

fn row(hp: u64, id: i64, x: i32, z: i32) -> Row {
    Row { hp, id, x, y: 0, z }
}

fn split_file(alloc: Global, head: &[Number], rows: &[Number]) -> Result<Vec<u8>, AllocError> {
    let mut bytes = file(alloc, b"HXS1", head)?;
    bytes.extend_from_slice(&file(alloc, b"", rows)?)?;
    Ok(bytes)
}

fn slice_place(alloc: Global, bytes: &[u8]) -> Option<u64> {
    match slice_of(alloc, bytes, 7) {
        Err(SpillRefusal::Damaged { place }) => Some(place),
        _ => None,
    }
}

#[test]
fn a_split_file_and_its_slices(rt: HostRuntime) -> Result<(), Fail> {
    let alloc = rt.alloc();
    let first = row(5, 1, 1_000_000_000, 0);
    let second = row(5, 2, 1_000_000_000, 0);
    let third = row(1, -1, 0, 1_000_000_000);
    let bytes = split_file(alloc, &HEAD, &ROWS)?;
    assert_eq!(rt; bytes.len(), 136);
    for (part, rows) in [
        (2, [first, second].as_slice()),
        (7, [third].as_slice()),
        (0, [].as_slice()),
        (3, [].as_slice()),
        (u32::MAX, [].as_slice()),
    ] {
        let slice = slice_of(alloc, &bytes, part).map_err(|_| "refused")?;
        assert_eq!(rt; slice.as_slice(), rows, "{part}");
    }
    let head = front(&bytes, 52);
    assert_eq!(rt;
        find_slice(head, 2),
        Ok(Some(SlicePlace { at: 52, rows: 2 }))
    );
    assert_eq!(rt;
        find_slice(head, 7),
        Ok(Some(SlicePlace { at: 108, rows: 1 }))
    );
    assert_eq!(rt; find_slice(head, 3), Ok(None));
    assert_eq!(rt; find_slice(front(&bytes, 51), 2), damaged(44));
    assert_eq!(rt; find_slice(front(&bytes, 53), 2), damaged(52));
    assert_eq!(rt; find_slice(&bytes, 2), damaged(52));
    assert_eq!(rt; find_slice(&[], 2), damaged(0));
    Ok(())
}

#[test]
fn a_part_is_read_alone(rt: HostRuntime) -> Result<(), Fail> {
    let alloc = rt.alloc();
    let bytes = split_file(alloc, &HEAD, &ROWS)?;
    assert_eq!(rt; head_width(front(&bytes, 12)), Ok(52));
    assert_eq!(rt; head_width(front(&bytes, 11)), damaged(4));
    assert_eq!(rt;
        head_width(b"HXS1\xff\xff\xff\xff\xff\xff\xff\xff"),
        Ok(u64::MAX)
    );
    assert_eq!(rt; rows_in_split(&bytes), Ok(3));
    assert_eq!(rt; rows_in_map(&file(alloc, b"HXM1", &MAP)?), Ok(6));
    let place = SlicePlace { at: 52, rows: 2 };
    let part = bytes.get(52..108).unwrap_or(&[]);
    let rows = rows_of_slice(alloc, place, part).map_err(|_| "refused")?;
    let wanted = [row(5, 1, 1_000_000_000, 0), row(5, 2, 1_000_000_000, 0)];
    assert_eq!(rt; rows.as_slice(), wanted.as_slice());
    let cut = rows_of_slice(alloc, place, front(part, 55)).err();
    assert_eq!(rt; cut, Some(SpillRefusal::Damaged { place: 80 }));
    Ok(())
}

fn all_good(rows: &[Placed]) -> bool
    ensures { IsTrue result ↔ All (λ placed. IsGood placed.row) rows.now }
{
    rows.iter().all(|placed| placed.row.is_good())
}

// The file of rows, which are sorted first; None where one isn't good.
fn written(alloc: Global, rows: &[Placed]) -> Result<Option<Vec<u8>>, AllocError> {
    let mut rows = Vec::from_slice(alloc, rows)?;
    rows.sort_unstable();
    if !all_good(&rows) {
        return Ok(None);
    }
    Ok(Some(split_bytes(alloc, &rows)?))
}

const fn placed(part: u32, row: Row) -> Placed {
    Placed { part, row }
}

#[test]
fn split_files_are_written(rt: HostRuntime) -> Result<(), Fail> {
    let alloc = rt.alloc();
    let first = placed(2, row(5, 1, 1_000_000_000, 0));
    let second = placed(2, row(5, 2, 1_000_000_000, 0));
    let third = placed(7, row(1, -1, 0, 1_000_000_000));
    let bytes = written(alloc, &[first, second, third])?.ok_or("not good")?;
    assert_eq!(rt;
        bytes.as_slice(),
        split_file(alloc, &HEAD, &ROWS)?.as_slice()
    );
    let one = written(alloc, &[first])?.ok_or("not good")?;
    assert_eq!(rt; one.len(), 60);
    assert_eq!(rt; slice_place(alloc, &one), None);
    assert_eq!(rt; slice_place(alloc, front(&one, 59)), Some(32));
    Ok(())
}

#[test]
fn no_rows_are_a_head(rt: HostRuntime) -> Result<(), Fail> {
    let none = written(rt.alloc(), &[])?.ok_or("not good")?;
    assert_eq!(rt; none.as_slice(), b"HXS1\0\0\0\0\0\0\0\0".as_slice());
    assert_eq!(rt; find_slice(&none, 0), Ok(None));
    Ok(())
}

#[test]
fn damaged_heads(rt: HostRuntime) -> Result<(), Fail> {
    let alloc = rt.alloc();
    let cases = [
        (0, 1 << 63, 24),
        (0, 3, 52),
        (1, 7, 32),
        (1, 8, 32),
        (2, 1, 16),
        (3, 0, 24),
        (3, 1, 36),
        (3, 3, 36),
        (3, 658_812_288_346_769_698, 36),
        (3, 658_812_288_346_769_699, 24),
        (3, u64::MAX, 24),
        (4, 2, 32),
        (4, 1, 32),
        (5, 1, 36),
        (5, 3, 36),
        (6, 0, 44),
        (6, 658_812_288_346_769_697, 44),
    ];
    for (index, number, place) in cases {
        let head = changed(alloc, b"HXS1", &HEAD, index, number)?;
        assert_eq!(rt; find_slice(&head, 7), damaged(place), "{index} {number}");
        let mut bytes = head;
        bytes.extend_from_slice(&file(alloc, b"", &ROWS)?)?;
        assert_eq!(rt; slice_place(alloc, &bytes), Some(place), "{index} {number}");
    }
    let most = changed(alloc, b"HXS1", &HEAD, 6, 658_812_288_346_769_696)?;
    let rows = 658_812_288_346_769_696;
    assert_eq!(rt;
        find_slice(&most, 7),
        Ok(Some(SlicePlace { at: 108, rows }))
    );
    let head = file(alloc, b"HXS1", &HEAD)?;
    for length in 0..head.len() {
        let place = place_of_cut(&HEAD, length);
        assert_eq!(rt;
            find_slice(front(&head, length), 2),
            damaged(place),
            "{length}"
        );
    }
    Ok(())
}

#[test]
fn damaged_rows(rt: HostRuntime) -> Result<(), Fail> {
    let alloc = rt.alloc();
    let cases = [
        (0, 6, 80),
        (0, 3_458_764_513_820_540_928, 52),
        (1, 3, 80),
        (2, 0, 52),
        (7, X - 3, 80),
        (11, 0, 136),
        (14, X + 2, 108),
    ];
    for (index, number, place) in cases {
        let mut bytes = file(alloc, b"HXS1", &HEAD)?;
        bytes.extend_from_slice(&changed(alloc, b"", &ROWS, index, number)?)?;
        bytes.push(0)?;
        assert_eq!(rt; slice_place(alloc, &bytes), Some(place), "{index} {number}");
    }
    let bytes = split_file(alloc, &HEAD, &ROWS)?;
    for (length, place) in [
        (52, 52),
        (79, 52),
        (80, 80),
        (107, 80),
        (108, 108),
        (135, 108),
    ] {
        assert_eq!(rt;
            slice_place(alloc, front(&bytes, length)),
            Some(place),
            "{length}"
        );
    }
    Ok(())
}
