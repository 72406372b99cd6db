ghost use Rattle.std.specs.Prelude.{◌↔◌, ◌+◌, ◌≤◌, ℕ, List, All, IfOk, IsTrue, OnOk};
ghost use Rattle.std.specs.List.Sorted.{IsSorted};
ghost use Rattle.hx_base.specs.Rows.{IsGood, row_cmp};
ghost use Rattle.hx_cover.specs.Collected.{AreUpTo};
ghost use Rattle.hx_cover.specs.Tested.{AreCoverBoxes};

use crate::{CoverBox, CoverTree, TooNear, add_boxes, boxes, first_too_near, gap2};
use hx_base::{Pixel, Row, are_disjoint_in_order, sort_rows};
use hx_ptree::PixelTree;
use std::alloc::{AllocError, Global};
use std::process::Abort;
use std::test::Fail;

const V: [i32; 3] = [1_000_000_000, 0, 0];

const Y: [i32; 3] = [0, 1_000_000_000, 0];

const Z: [i32; 3] = [0, 0, 1_000_000_000];

fn row(hp: u64, vector: [i32; 3]) -> Row {
    Row {
        hp,
        id: 1,
        x: vector[0],
        y: vector[1],
        z: vector[2],
    }
}

// A position in the pixel of order 1 of a number.
fn in_pixel_1(number: u64) -> u64 {
    number.wrapping_mul(72_057_594_037_927_936)
}

// A position in the pixel of order 2 of a number.
fn in_pixel_2(number: u64) -> u64 {
    number.wrapping_mul(18_014_398_509_481_984)
}

fn are_good(rows: &[Row]) -> bool
    ensures { IsTrue result ↔ All IsGood rows.now }
{
    rows.iter().all(|row| row.is_good())
}

fn are_sorted(rows: &[Row]) -> bool
    ensures { IsTrue result → IsSorted row_cmp rows.now }
{
    rows.is_sorted()
}

fn are_in_the_first_pixel(boxes: &[CoverBox]) -> bool
    ensures { IsTrue result → (pixel : ℕ) → AreUpTo pixel boxes.now }
{
    boxes.iter().all(|seen| seen.pixel == 0)
}

fn boxes_of(
    rt: &impl Abort,
    alloc: Global,
    rows: &[Row],
    order: u8,
) -> Result<Vec<CoverBox>, AllocError>
    requires { order ≤ 29 }
    ensures { IfOk result (λ boxes. AreCoverBoxes order boxes.items) }
{
    let mut sorted = rows.to_vec(alloc)?;
    sort_rows(&mut sorted);
    assert!(rt; are_good(&sorted));
    assert!(rt; are_sorted(&sorted));
    boxes(alloc, &sorted, order)
}

fn tree_of(rt: &impl Abort, alloc: Global, listed: &[(u8, u64)]) -> Result<PixelTree, AllocError> {
    let mut parts = Vec::new(alloc);
    for (order, number) in listed {
        parts.push(Pixel {
            order: *order,
            number: *number,
        })?;
    }
    assert!(rt; parts.len() <= 100_000 && are_disjoint_in_order(&parts));
    PixelTree::build(alloc, &parts)
}

// What a search over all pairs and one by boxes of runs answer, which is the same.
fn found(
    rt: &impl Abort,
    alloc: Global,
    left: &[Row],
    right: &[Row],
    listed: &[(u8, u64)],
    margin_order: u8,
    r2: u64,
) -> Result<Option<(u64, u64, u64)>, AllocError>
    requires { margin_order ≤ 27 }
{
    let left = boxes_of(rt, alloc, left, margin_order + 2)?;
    let right = boxes_of(rt, alloc, right, margin_order + 2)?;
    let tree = tree_of(rt, alloc, listed)?;
    let all_pairs = first_too_near(&left, &right, &tree, margin_order, r2);
    let by_runs = CoverTree::new(alloc, right)?.first_too_near(&left, &tree, margin_order, r2);
    assert_eq!(rt; by_runs, all_pairs, "{margin_order} {r2}");
    Ok(all_pairs.map(|pair| (pair.left, pair.right, pair.gap2)))
}

#[test]
fn pixels_far_apart(rt: HostRuntime) -> Result<(), Fail> {
    let alloc = rt.alloc();
    let left = [row(0, V)];
    let right = [row(2_882_303_761_517_117_440, V)];
    let parts = [(0, 10)];
    let answer = found(&rt, alloc, &left, &right, &parts, 1, 100)?;
    assert_eq!(&rt; answer, Some((0, 640, 0)));
    let answer = found(&rt, alloc, &left, &right, &parts, 1, 0)?;
    assert_eq!(&rt; answer, Some((0, 640, 0)));
    let other = [row(2_882_303_761_517_117_440, Y)];
    let answer = found(&rt, alloc, &left, &other, &parts, 1, 0)?;
    assert_eq!(&rt; answer, None);
    Ok(())
}

#[test]
fn three_rows_at_the_pole(rt: HostRuntime) -> Result<(), Fail> {
    // Pixels 3, 7 and 4 of order 1: the first two touch, and one partition contains the last two.
    let alloc = rt.alloc();
    let a = row(216_172_782_113_783_808, V);
    let b = row(504_403_158_265_495_552, V);
    let c = row(288_230_376_151_711_744, V);
    let answer = found(&rt, alloc, &[a, b], &[a, b], &[(0, 0), (0, 1)], 1, 0)?;
    assert_eq!(&rt; answer, None);
    let answer = found(&rt, alloc, &[a, b, c], &[a, b, c], &[(0, 0), (0, 1)], 1, 0)?;
    assert_eq!(&rt; answer, Some((48, 64, 0)));
    Ok(())
}

#[test]
fn pixels_of_order_1(rt: HostRuntime) -> Result<(), Fail> {
    let cases = [
        // Within a face: the pixel itself, beside it, and corner to corner.
        (0, 0, true),
        (0, 1, true),
        (0, 3, true),
        // Over the edge between two faces, and one step further.
        (3, 6, true),
        (1, 6, true),
        (3, 4, false),
        (0, 7, false),
        // Where three faces meet: pixels with seven neighbours.
        (1, 23, true),
        (6, 23, true),
        // Faces of the north and of the south that meet at one point.
        (0, 35, true),
        (0, 33, false),
        // Round the poles.
        (3, 7, true),
        (3, 11, true),
        (3, 15, true),
        (32, 40, true),
        (36, 44, true),
        (3, 32, false),
        (0, 40, false),
    ];
    let alloc = rt.alloc();
    for (p, q, near) in cases {
        let expected = if near {
            None
        } else {
            Some((16u64.wrapping_mul(p), 16u64.wrapping_mul(q), 0))
        };
        let (left, right) = ([row(in_pixel_1(p), V)], [row(in_pixel_1(q), V)]);
        let answer = found(&rt, alloc, &left, &right, &[], 1, 0)?;
        assert_eq!(&rt; answer, expected, "{p} {q}");
        let turned = found(&rt, alloc, &right, &left, &[], 1, 0)?;
        assert_eq!(&rt; turned.is_none(), near, "{q} {p}");
    }
    Ok(())
}

#[test]
fn partitions_that_contain_both(rt: HostRuntime) -> Result<(), Fail> {
    // Opposite corners of a face, at order 2.
    let alloc = rt.alloc();
    let (left, right) = ([row(0, V)], [row(in_pixel_2(15), V)]);
    let apart = Some((0, 240, 0));
    let cases: [(&[(u8, u64)], _); 5] = [
        (&[(0, 0)], None),
        (&[(0, 0), (0, 1)], None),
        (&[], apart),
        (&[(0, 1)], apart),
        (&[(1, 0), (1, 1), (1, 2), (1, 3)], apart),
    ];
    for (parts, expected) in cases {
        let answer = found(&rt, alloc, &left, &right, parts, 2, 0)?;
        assert_eq!(&rt; answer, expected, "{parts:?}");
    }
    Ok(())
}

#[test]
fn radii(rt: HostRuntime) -> Result<(), Fail> {
    let alloc = rt.alloc();
    let left = [row(0, V)];
    let right = [row(in_pixel_1(40), [600_000_000, 800_000_000, 0])];
    let gap = 800_000_000_000_000_000;
    let some = Some((0, 640, gap));
    let answer = found(&rt, alloc, &left, &right, &[], 1, gap)?;
    assert_eq!(&rt; answer, some);
    let answer = found(&rt, alloc, &left, &right, &[], 1, 799_999_999_999_999_999)?;
    assert_eq!(&rt; answer, None);
    let answer = found(&rt, alloc, &left, &right, &[], 1, 4_000_000_000_000_000_000)?;
    assert_eq!(&rt; answer, some);
    let answer = found(&rt, alloc, &left, &right, &[], 1, 0)?;
    assert_eq!(&rt; answer, None);
    // The furthest that rows are apart is further than the greatest radius.
    let left = [row(0, [1_000_000_001, 0, 0])];
    let right = [row(in_pixel_1(40), [-1_000_000_001, 0, 0])];
    let answer = found(&rt, alloc, &left, &right, &[], 1, 4_000_000_000_000_000_000)?;
    assert_eq!(&rt; answer, None);
    let answer = found(&rt, alloc, &left, &right, &[], 1, 4_000_000_008_000_000_004)?;
    assert_eq!(&rt; answer, Some((0, 640, 4_000_000_008_000_000_004)));
    Ok(())
}

#[test]
fn the_least_of_several_pairs(rt: HostRuntime) -> Result<(), Fail> {
    let alloc = rt.alloc();
    let (p40, p41) = (in_pixel_1(40), in_pixel_1(41));
    let left = [row(0, V), row(in_pixel_1(3), V)];
    let answer = found(&rt, alloc, &left, &[row(p41, V), row(p40, V)], &[], 1, 0)?;
    assert_eq!(&rt; answer, Some((0, 640, 0)));
    // The nearer pair comes later.
    let answer = found(
        &rt,
        alloc,
        &left,
        &[row(p40, Y), row(p41, V)],
        &[],
        1,
        u64::MAX,
    )?;
    assert_eq!(&rt; answer, Some((0, 640, 2_000_000_000_000_000_000)));
    let answer = found(&rt, alloc, &left, &[row(p40, Y), row(p41, V)], &[], 1, 0)?;
    assert_eq!(&rt; answer, Some((0, 656, 0)));
    let answer = found(&rt, alloc, &left, &[row(in_pixel_1(4), V)], &[], 1, 0)?;
    assert_eq!(&rt; answer, Some((0, 64, 0)));
    Ok(())
}

// Left boxes of two partitions, and a right box in the first.
#[test]
fn pixels_of_two_partitions(rt: HostRuntime) -> Result<(), Fail> {
    let alloc = rt.alloc();
    let left = [row(0, V), row(in_pixel_1(40), V)];
    let parts = [(0, 0), (0, 10)];
    let answer = found(&rt, alloc, &left, &[row(0, V)], &parts, 1, 0)?;
    assert_eq!(&rt; answer, Some((640, 0, 0)));
    let answer = found(&rt, alloc, &left, &[row(in_pixel_1(40), V)], &parts, 1, 0)?;
    assert_eq!(&rt; answer, Some((0, 640, 0)));
    Ok(())
}

#[test]
fn no_rows(rt: HostRuntime) -> Result<(), Fail> {
    let alloc = rt.alloc();
    let answer = found(&rt, alloc, &[], &[row(0, V)], &[(0, 0)], 1, u64::MAX)?;
    assert_eq!(&rt; answer, None);
    let answer = found(&rt, alloc, &[row(0, V)], &[], &[], 1, u64::MAX)?;
    assert_eq!(&rt; answer, None);
    let answer = found(&rt, alloc, &[], &[], &[], 1, u64::MAX)?;
    assert_eq!(&rt; answer, None);
    Ok(())
}

#[test]
fn boxes_of_rows(rt: HostRuntime) -> Result<(), Fail> {
    let alloc = rt.alloc();
    let rows = [
        row(in_pixel_1(2), [0, -1_000_000_001, 0]),
        row(0, V),
        row(1, [-600_000_000, 0, 800_000_000]),
        row(2, Y),
        row(in_pixel_1(1), Z),
    ];
    let answer = boxes_of(&rt, alloc, &rows, 1)?;
    let expected = [
        CoverBox {
            pixel: 0,
            lo: [-600_000_000, 0, 0],
            hi: [1_000_000_000, 1_000_000_000, 800_000_000],
        },
        CoverBox {
            pixel: 1,
            lo: Z,
            hi: Z,
        },
        CoverBox {
            pixel: 2,
            lo: [0, -1_000_000_001, 0],
            hi: [0, -1_000_000_001, 0],
        },
    ];
    assert_eq!(&rt; answer.as_slice(), expected.as_slice());
    let whole = boxes_of(&rt, alloc, &rows, 0)?;
    assert_eq!(&rt; whole.len(), 1);
    let each = boxes_of(&rt, alloc, &rows, 29)?;
    assert_eq!(&rt; each.len(), 5);
    let none = boxes_of(&rt, alloc, &[], 29)?;
    assert!(&rt; none.is_empty());
    Ok(())
}

// The gap of the boxes of two lists of rows of one pixel, both ways.
fn check_gap(
    rt: &impl Abort,
    alloc: Global,
    left: &[Row],
    right: &[Row],
    expected: u64,
) -> Result<(), AllocError> {
    let a = boxes_of(rt, alloc, left, 3)?;
    let b = boxes_of(rt, alloc, right, 3)?;
    assert!(rt; a.len() == 1 && b.len() == 1);
    assert_eq!(rt; gap2(&a[0], &b[0]), expected, "{a:?} {b:?}");
    assert_eq!(rt; gap2(&b[0], &a[0]), expected, "{b:?} {a:?}");
    Ok(())
}

#[test]
fn gaps(rt: HostRuntime) -> Result<(), Fail> {
    let alloc = rt.alloc();
    let (x, y, z) = (row(0, V), row(1, Y), row(2, Z));
    check_gap(&rt, alloc, &[x], &[x], 0)?;
    check_gap(&rt, alloc, &[x], &[y], 2_000_000_000_000_000_000)?;
    // The boxes meet on two axes, and on all.
    check_gap(&rt, alloc, &[x, y], &[z], 1_000_000_000_000_000_000)?;
    let down = row(0, [0, 0, -1_000_000_000]);
    check_gap(&rt, alloc, &[x, y, z], &[down], 1_000_000_000_000_000_000)?;
    let between = row(0, [600_000_000, 800_000_000, 0]);
    check_gap(&rt, alloc, &[x, y], &[between], 0)?;
    check_gap(&rt, alloc, &[x, y], &[x, between], 0)?;
    let (most, least) = (
        row(0, [1_000_000_001, 0, 0]),
        row(0, [-1_000_000_001, 0, 0]),
    );
    check_gap(&rt, alloc, &[most], &[least], 4_000_000_008_000_000_004)?;
    check_gap(&rt, alloc, &[most, least], &[x], 0)?;
    Ok(())
}

// Adds rows of the first pixel.
fn add(
    rt: &impl Abort,
    boxes: &mut Vec<CoverBox>,
    rows: &[Row],
    order: u8,
) -> Result<(), AllocError>
    requires order { order ≤ 29 }
    requires boxes { AreCoverBoxes order boxes.old.items }
    ensures { OnOk result (AreCoverBoxes order boxes.new.items) }
{
    assert!(rt; are_good(rows));
    assert!(rt; are_sorted(rows));
    assert!(rt; are_in_the_first_pixel(boxes));
    add_boxes(boxes, rows, order)
}

// The rows of one pixel of the cover order may stand in several partitions of the left catalogue.
#[test]
fn one_pixel_in_two_lists(rt: HostRuntime) -> Result<(), Fail> {
    let alloc = rt.alloc();
    let (first, second, right) = ([row(0, V)], [row(1, Y)], [row(in_pixel_1(40), Z)]);
    let r2 = 1_000_000_000_000_000_000;
    let alone = found(&rt, alloc, &first, &right, &[], 1, r2)?;
    assert_eq!(&rt; alone, None);
    let alone = found(&rt, alloc, &second, &right, &[], 1, r2)?;
    assert_eq!(&rt; alone, None);
    let mut joined = boxes_of(&rt, alloc, &first, 3)?;
    add(&rt, &mut joined, &second, 3)?;
    let tree = tree_of(&rt, alloc, &[])?;
    let right = boxes_of(&rt, alloc, &right, 3)?;
    let expected = TooNear {
        left: 0,
        right: 640,
        gap2: r2,
    };
    assert_eq!(&rt;
        first_too_near(&joined, &right, &tree, 1, r2),
        Some(expected)
    );
    let whole = boxes_of(&rt, alloc, &[row(0, V), row(1, Y)], 3)?;
    assert_eq!(&rt; joined.as_slice(), whole.as_slice());
    Ok(())
}

// A number from a generator's state, and the next state.
fn next(state: &mut u64) -> u64 {
    *state = state
        .wrapping_mul(6_364_136_223_846_793_005)
        .wrapping_add(1_442_695_040_888_963_407);
    *state >> 33
}

// The square root, rounded down, of a number below 2^62.
fn root(number: u64) -> u64 {
    let mut low = 0u64;
    for bit in 0..31u32 {
        let more = low | (1u64 << (30 - bit));
        if more.wrapping_mul(more) <= number {
            low = more;
        }
    }
    low
}

// A coordinate from -0.6 to 0.87: that of a place, and some more.
fn coordinate(of_place: u64, more: u64) -> i32 {
    let sum = of_place % 1_200_000_000 + more % 268_435_456;
    sum as i32 - 600_000_000
}

// A vector of unit length whose x and y are spread round those of a place.
fn vector(place: u64, spread: u64, state: &mut u64) -> [i32; 3] {
    let mut seed = place;
    let x = coordinate(next(&mut seed), next(state) % spread.max(1));
    let y = coordinate(next(&mut seed), next(state) % spread.max(1));
    let (x2, y2) = (u64::from(x.unsigned_abs()), u64::from(y.unsigned_abs()));
    let flat = x2.wrapping_mul(x2).wrapping_add(y2.wrapping_mul(y2));
    let z = root(1_000_000_000_000_000_000u64.saturating_sub(flat));
    [x, y, z.min(1_000_000_000) as i32]
}

// Rows in some pixels of order 4, those of a pixel close together.
fn sky(
    alloc: Global,
    count: u64,
    pixels: u64,
    spread: u64,
    state: &mut u64,
) -> Result<Vec<Row>, AllocError> {
    let mut rows = Vec::new(alloc);
    for _ in 0..count {
        let place = (next(state) % pixels.max(1)).wrapping_mul(7) % 3072;
        let inside = next(state).wrapping_mul(next(state)) % 1_125_899_906_842_624;
        let hp = place
            .wrapping_mul(1_125_899_906_842_624)
            .wrapping_add(inside);
        rows.push(row(hp, vector(place >> 4, spread, state)))?;
    }
    Ok(rows)
}

const SQUARES: [u64; 6] = [
    0,
    1_000_000_000_000,
    100_000_000_000_000,
    10_000_000_000_000_000,
    300_000_000_000_000_000,
    4_000_000_000_000_000_000,
];

// Both searches find the same at each radius.
fn check_sky(
    rt: &impl Abort,
    alloc: Global,
    left: &[Row],
    right: &[Row],
    turn: u64,
) -> Result<(), AllocError> {
    let parts: [&[(u8, u64)]; 3] = [
        &[],
        &[(0, 0), (0, 1), (1, 8), (2, 37), (0, 4), (0, 11)],
        &[(1, 0), (1, 1), (0, 3), (3, 256), (3, 258), (1, 20)],
    ];
    let margin_order = (1 + turn % 4) as u8;
    for r2 in SQUARES {
        found(
            rt,
            alloc,
            left,
            right,
            parts[(turn % 3) as usize],
            margin_order,
            r2,
        )?;
    }
    Ok(())
}

// Rows all over three quarters of the sky, and rows in few pixels.
#[test]
fn random_skies(rt: HostRuntime) -> Result<(), Fail> {
    let alloc = rt.alloc();
    let mut state = 1;
    for turn in 0..200u64 {
        let pixels = if turn % 5 < 2 { 20 } else { 3072 };
        let spread = 1u64 << (turn % 28);
        let left = sky(alloc, turn % 70, pixels, spread, &mut state)?;
        let right = sky(alloc, 80, pixels, spread, &mut state)?;
        check_sky(&rt, alloc, &left, &right, turn)?;
    }
    Ok(())
}

// Enough boxes for several levels.
#[test]
fn larger_skies(rt: HostRuntime) -> Result<(), Fail> {
    let alloc = rt.alloc();
    let mut state = 2;
    for turn in 0..6u64 {
        let left = sky(alloc, 150, 3072, 1u64 << (4 * turn), &mut state)?;
        let right = sky(alloc, 300, 3072, 1u64 << (4 * turn), &mut state)?;
        check_sky(&rt, alloc, &left, &right, turn)?;
    }
    Ok(())
}
