//! Skies of a few rows: where they are placed, and what is gathered of them.
ghost use Rattle.std.specs.Prelude.{◌≡◌, ◌*◌, ◌^◌, ◌<◌, ◌≤◌, ◌↔◌, Some, All, IfOk, IsTrue};
ghost use Rattle.hx_base.specs.Rows.{IsGood};
ghost use Rattle.hx_ptree.specs.Searches.{IsHolder};

use super::*;
use hx_base::{Pixel, Row, are_disjoint_in_order, pixels_of_order};
use hx_nest::{at_order, touch};
use hx_ptree::PixelTree;
use hx_rows::parquet_rows;
use hx_spill::slice_of;
use std::alloc::{AllocError, Global};
use std::process::Abort;
use std::test::Fail;

// A good row of an order-29 position, with its number.
const fn row(hp: u64, id: i64) -> Row {
    Row {
        hp,
        id,
        x: 1_000_000_000,
        y: 0,
        z: 0,
    }
}

// A catalogue's partitions, all rows, and a margin order.
#[derive(Drop)]
struct Sky {
    parts: Vec<Pixel>,
    rows: Vec<Row>,
    margin_order: u8,
}

fn sky_of(
    alloc: Global,
    listed: &[(u8, u64)],
    rows: &[Row],
    margin_order: u8,
) -> Result<Sky, AllocError> {
    let mut parts = Vec::new(alloc);
    for (order, number) in listed {
        parts.push(Pixel {
            order: *order,
            number: *number,
        })?;
    }
    let rows = rows.to_vec(alloc)?;
    Ok(Sky {
        parts,
        rows,
        margin_order,
    })
}

// Whether all orders are below the margin order.
fn are_below(parts: &[Pixel], margin_order: u8) -> bool
    ensures { IsTrue result ↔ All (λ p. p.order < margin_order) parts.now }
{
    parts.iter().all(|part| part.order < margin_order)
}

fn are_good(rows: &[Row]) -> bool
    ensures { IsTrue result ↔ All IsGood rows.now }
{
    rows.iter().all(|row| row.is_good())
}

// Whether a row is good and the partition of a number contains it.
fn is_of(tree: &PixelTree, row: &Row, part: u32) -> bool
    ensures { IsTrue result → IsHolder tree.now row.now.hp (Some part) }
{
    row.is_good() && tree.holder(row.hp) == Some(part)
}

fn are_of(tree: &PixelTree, rows: &[Row], part: u32) -> bool
    ensures { IsTrue result → All (λ row. IsHolder tree.now row.hp (Some part)) rows.now }
{
    rows.iter().all(|row| is_of(tree, row, part))
}

fn tree_of(rt: &impl Abort, alloc: Global, parts: &[Pixel]) -> Result<PixelTree, AllocError>
    ensures { IfOk result (λ tree. tree ≡ parts.now) }
{
    assert!(rt; parts.len() <= 100_000 && are_disjoint_in_order(parts));
    PixelTree::build(alloc, parts)
}

// The margin split file of rows, which the partition of a number contains.
fn split_of(
    rt: &impl Abort,
    alloc: Global,
    parts: &[Pixel],
    rows: &[Row],
    part: u32,
    margin_order: u8,
) -> Result<Vec<u8>, AllocError> {
    let tree = tree_of(rt, alloc, parts)?;
    assert!(rt; are_below(parts, margin_order) && margin_order <= 24);
    assert!(rt; are_good(rows));
    assert!(rt; are_of(&tree, rows, part));
    margin_split(alloc, rows, part, &tree, margin_order)
}

// The margin split file of a partition of a sky.
fn split(rt: &impl Abort, alloc: Global, sky: &Sky, number: u32) -> Result<Vec<u8>, AllocError> {
    let mut rows = Vec::new(alloc);
    if let Some(part) = sky.parts.get(number as usize) {
        for row in &sky.rows {
            if part.holds(row.hp) {
                rows.push(*row)?;
            }
        }
    }
    split_of(rt, alloc, &sky.parts, &rows, number, sky.margin_order)
}

// The rows of a margin split file for the partition of a number.
fn slice(rt: &impl Abort, alloc: Global, file: &[u8], part: u32) -> Result<Vec<Row>, AllocError> {
    match slice_of(alloc, file, part) {
        Ok(rows) => Ok(rows),
        Err(refusal) => panic!(rt; "{refusal:?}"),
    }
}

// The numbers of the partitions around one of a sky.
fn around(rt: &impl Abort, alloc: Global, sky: &Sky, part: Pixel) -> Result<Vec<u32>, AllocError> {
    let tree = tree_of(rt, alloc, &sky.parts)?;
    assert!(rt; part.exists());
    parts_around(alloc, &tree, part)
}

// The rows of a Parquet file.
fn read(rt: &impl Abort, alloc: Global, file: &[u8]) -> Result<Vec<Row>, AllocError> {
    match parquet_rows(alloc, file) {
        Ok(rows) => Ok(rows),
        Err(refusal) => panic!(rt; "{refusal:?}"),
    }
}

// The margin split files of all partitions of a sky.
fn files_of(rt: &impl Abort, alloc: Global, sky: &Sky) -> Result<Vec<Vec<u8>>, AllocError> {
    let mut files = Vec::new(alloc);
    for part in 0..sky.parts.len() {
        files.push(split(rt, alloc, sky, (part % 100_000) as u32)?)?;
    }
    Ok(files)
}

// The margin of the partition of a number, through all files.
fn margin(
    rt: &impl Abort,
    alloc: Global,
    sky: &Sky,
    files: &[Vec<u8>],
    number: u32,
) -> Result<Vec<Row>, AllocError> {
    let mut gathered = Vec::new(alloc);
    if let Some(part) = sky.parts.get(number as usize) {
        for other in &around(rt, alloc, sky, *part)? {
            if let Some(file) = files.get(*other as usize) {
                gathered.extend_from_slice(&slice(rt, alloc, file, number)?)?;
            }
        }
    }
    assert!(rt; are_good(&gathered));
    let file = margin_reduce(alloc, gathered)?;
    read(rt, alloc, &file)
}

// The margin is these rows.
fn check_margin(
    rt: &impl Abort,
    alloc: Global,
    sky: &Sky,
    number: u32,
    expected: &[Row],
) -> Result<(), AllocError> {
    let files = files_of(rt, alloc, sky)?;
    let margin = margin(rt, alloc, sky, &files, number)?;
    assert_eq!(rt; margin.as_slice(), expected, "of {number}");
    Ok(())
}

const FACES: [(u8, u64); 12] = [
    (0, 0),
    (0, 1),
    (0, 2),
    (0, 3),
    (0, 4),
    (0, 5),
    (0, 6),
    (0, 7),
    (0, 8),
    (0, 9),
    (0, 10),
    (0, 11),
];

// Face 0 in four partitions, each other face in one: that of face f has the number f + 3.
const ONE_FACE_CUT: [(u8, u64); 15] = [
    (1, 0),
    (1, 1),
    (1, 2),
    (1, 3),
    (0, 1),
    (0, 2),
    (0, 3),
    (0, 4),
    (0, 5),
    (0, 6),
    (0, 7),
    (0, 8),
    (0, 9),
    (0, 10),
    (0, 11),
];

// A position of a face, told from the face's first.
const fn in_face(face: u64, position: u64) -> u64 {
    (face << 58).wrapping_add(position)
}

// The corners of a face.
const SOUTH: u64 = 0;

const EAST: u64 = 96_076_792_050_570_581;

const WEST: u64 = 192_153_584_101_141_162;

const NORTH: u64 = 288_230_376_151_711_743;

// The middle of the south-west side, and of the face.
const SIDE: u64 = 144_115_188_075_855_872;

const CENTRE: u64 = 216_172_782_113_783_808;

// A row in a sky of the twelve faces: the partitions where it is placed.
fn check_places(
    rt: &impl Abort,
    alloc: Global,
    margin_order: u8,
    hp: u64,
    places: &[u32],
) -> Result<(), AllocError> {
    let sky = sky_of(alloc, &FACES, &[row(hp, 1)], margin_order)?;
    let file = split(rt, alloc, &sky, (hp >> 58) as u32)?;
    for part in 0..12 {
        let rows = slice(rt, alloc, &file, part)?;
        let count = usize::from(places.contains(&part));
        assert_eq!(rt; rows.len(), count, "{hp} at {margin_order} in {part}");
    }
    Ok(())
}

#[test]
fn corners_and_sides_of_faces(rt: HostRuntime) -> Result<(), Fail> {
    let alloc = rt.alloc();
    for order in [1, 2, 10, 24] {
        check_places(&rt, alloc, order, SOUTH, &[4, 5, 8])?;
        check_places(&rt, alloc, order, EAST, &[1, 5])?;
        check_places(&rt, alloc, order, WEST, &[3, 4])?;
        check_places(&rt, alloc, order, NORTH, &[1, 2, 3])?;
        check_places(&rt, alloc, order, in_face(4, SOUTH), &[8, 11])?;
        check_places(&rt, alloc, order, in_face(4, EAST), &[0, 5, 8])?;
        check_places(&rt, alloc, order, in_face(4, WEST), &[3, 7, 11])?;
        check_places(&rt, alloc, order, in_face(4, NORTH), &[0, 3])?;
        check_places(&rt, alloc, order, in_face(8, SOUTH), &[9, 10, 11])?;
    }
    Ok(())
}

#[test]
fn the_same_row_at_two_margin_orders(rt: HostRuntime) -> Result<(), Fail> {
    let alloc = rt.alloc();
    check_places(&rt, alloc, 1, SIDE, &[3, 4])?;
    check_places(&rt, alloc, 2, SIDE, &[4])?;
    check_places(&rt, alloc, 24, SIDE, &[4])?;
    check_places(&rt, alloc, 1, CENTRE, &[1, 2, 3])?;
    check_places(&rt, alloc, 2, CENTRE, &[])?;
    check_places(&rt, alloc, 24, CENTRE, &[])?;
    // The pixel (0, 1) of order 24 lies at the side, the pixel (1, 1) doesn't.
    check_places(&rt, alloc, 24, 2048, &[4])?;
    check_places(&rt, alloc, 24, 3071, &[4])?;
    check_places(&rt, alloc, 24, 3072, &[])?;
    Ok(())
}

#[test]
fn no_rows(rt: HostRuntime) -> Result<(), Fail> {
    let alloc = rt.alloc();
    let sky = sky_of(alloc, &FACES, &[], 10)?;
    let file = split(&rt, alloc, &sky, 0)?;
    assert_eq!(&rt; file.as_slice(), b"HXS1\0\0\0\0\0\0\0\0".as_slice());
    check_margin(&rt, alloc, &sky, 0, &[])?;
    Ok(())
}

// Rows of the pixels 3, 4 and 7 of order 1: the first in face 0, the others in face 1.
#[test]
fn two_faces(rt: HostRuntime) -> Result<(), Fail> {
    let alloc = rt.alloc();
    let a = row(216_172_782_113_783_808, 1);
    let b = row(504_403_158_265_495_552, 2);
    let c = row(288_230_376_151_711_744, 3);
    let sky = sky_of(alloc, &[(0, 0), (0, 1)], &[a, b, c], 1)?;
    check_margin(&rt, alloc, &sky, 0, &[b])?;
    check_margin(&rt, alloc, &sky, 1, &[a])?;
    Ok(())
}

fn check_around(
    rt: &impl Abort,
    alloc: Global,
    listed: &[(u8, u64)],
    part: (u8, u64),
    expected: &[u32],
) -> Result<(), AllocError> {
    let sky = sky_of(alloc, listed, &[], 10)?;
    let part = Pixel {
        order: part.0,
        number: part.1,
    };
    let numbers = around(rt, alloc, &sky, part)?;
    assert_eq!(rt; numbers.as_slice(), expected, "around {part:?}");
    Ok(())
}

#[test]
fn partitions_around(rt: HostRuntime) -> Result<(), Fail> {
    let alloc = rt.alloc();
    check_around(&rt, alloc, &FACES, (0, 0), &[1, 2, 3, 4, 5, 8])?;
    check_around(&rt, alloc, &FACES, (0, 4), &[0, 3, 5, 7, 8, 11])?;
    // Its neighbours are 0, 1, 2, 6, 7, 11, 13 and 15, of which the faces 1 and 3 hold two each.
    check_around(&rt, alloc, &ONE_FACE_CUT, (1, 3), &[0, 1, 2, 4, 5, 6])?;
    // All four parts of face 0, whichever touch.
    check_around(
        &rt,
        alloc,
        &ONE_FACE_CUT,
        (0, 1),
        &[0, 1, 2, 3, 5, 6, 8, 9, 12],
    )?;
    check_around(&rt, alloc, &ONE_FACE_CUT, (0, 11), &[6, 7, 10, 11, 12, 13])?;
    check_around(&rt, alloc, &[(0, 0)], (0, 0), &[])?;
    check_around(&rt, alloc, &[(1, 3), (0, 11)], (0, 0), &[])?;
    check_around(&rt, alloc, &[(1, 3), (0, 1)], (1, 7), &[0, 1])?;
    Ok(())
}

// A row of a pixel of order 2.
const fn in_pixel(number: u64, id: i64) -> Row
    requires { number < 192 }
{
    row(number << 54, id)
}

// The pixels 27 and 30 lie in face 1, beside two neighbours of the partition, which holds 12 to 15. Pixel 26 is beside it no
// more, 6 lies in a partition of its own order, and 47 touches 15 at the pole.
#[test]
fn a_partition_over_two_neighbours(rt: HostRuntime) -> Result<(), Fail> {
    let alloc = rt.alloc();
    let twice = in_pixel(27, 5);
    let rows = [
        in_pixel(47, 1),
        in_pixel(30, 2),
        twice,
        in_pixel(12, 3),
        in_pixel(26, 4),
        twice,
        in_pixel(6, 6),
    ];
    let sky = sky_of(alloc, &ONE_FACE_CUT, &rows, 2)?;
    let expected = [
        in_pixel(6, 6),
        twice,
        twice,
        in_pixel(30, 2),
        in_pixel(47, 1),
    ];
    check_margin(&rt, alloc, &sky, 3, &expected)?;
    // Of the others only 47 touches face 1, at the pole.
    check_margin(&rt, alloc, &sky, 4, &[in_pixel(47, 1)])?;
    Ok(())
}

// Whether a pixel of a margin order touches one that lies in a partition.
fn touches_inside(part: Pixel, margin_order: u8, pixel: u64) -> bool
    requires order { margin_order ≤ 29 }
    requires part { part.order ≤ margin_order }
    requires pixel { pixel < 12 * 4 ^ margin_order }
{
    for number in 0..pixels_of_order(margin_order) {
        let edge = Pixel {
            order: margin_order,
            number,
        };
        let inside = edge.ancestor(margin_order - part.order) == part;
        if inside && touch(margin_order, pixel, number) {
            return true;
        }
    }
    false
}

// The margin of a partition, by its definition.
fn listed_margin(
    alloc: Global,
    rows: &[Row],
    part: Pixel,
    margin_order: u8,
) -> Result<Vec<Row>, AllocError>
    requires order { margin_order ≤ 29 }
    requires part { part.order ≤ margin_order }
{
    let mut margin = Vec::new(alloc);
    for row in rows {
        let there = row.is_good() && !part.holds(row.hp);
        if there && touches_inside(part, margin_order, at_order(row.hp, margin_order)) {
            margin.push(*row)?;
        }
    }
    margin.sort_unstable();
    Ok(margin)
}

fn next(state: u64) -> u64 {
    state
        .wrapping_mul(6_364_136_223_846_793_005)
        .wrapping_add(1_442_695_040_888_963_407)
}

// Faces that are no partition, one, or up to four; and rows in partitions, some of them equal.
fn random_sky(alloc: Global, seed: u64) -> Result<Sky, AllocError> {
    let mut state = next(seed);
    let mut parts = Vec::new(alloc);
    for number in 0..12 {
        state = next(state);
        if (state >> 33) % 4 == 1 {
            parts.push(Pixel { order: 0, number })?;
        }
        for child in 0..4 {
            if (state >> 33) % 4 > 1 && (state >> (36 + child)) % 4 > 0 {
                parts.push(Pixel {
                    order: 1,
                    number: 4 * number + child,
                })?;
            }
        }
    }
    let mut rows = Vec::new(alloc);
    for id in 0..16 {
        state = next(state);
        let hp = (state >> 33) % 192 << 54;
        if parts.iter().any(|part| part.holds(hp)) {
            rows.push(row(hp, id % 3))?;
        }
    }
    Ok(Sky {
        parts,
        rows,
        margin_order: 2,
    })
}

// How many rows are in margins of a sky, each of which is as listed.
fn check_margins(rt: &impl Abort, alloc: Global, sky: &Sky) -> Result<usize, AllocError> {
    let files = files_of(rt, alloc, sky)?;
    let mut total = 0usize;
    let mut number = 0u32;
    for part in &sky.parts {
        assert!(rt; part.order <= sky.margin_order && sky.margin_order <= 29);
        let listed = listed_margin(alloc, &sky.rows, *part, sky.margin_order)?;
        let margin = margin(rt, alloc, sky, &files, number)?;
        assert_eq!(rt; margin.as_slice(), listed.as_slice(), "of {part:?}");
        total = total.saturating_add(listed.len());
        number = number.wrapping_add(1);
    }
    Ok(total)
}

#[test]
fn margins_are_as_listed(rt: HostRuntime) -> Result<(), Fail> {
    let alloc = rt.alloc();
    let mut total = 0usize;
    for seed in 0..300 {
        let sky = random_sky(alloc, seed)?;
        total = total.saturating_add(check_margins(&rt, alloc, &sky)?);
    }
    assert!(&rt; total > 500);
    Ok(())
}
