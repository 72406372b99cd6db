ghost use Rattle.std.specs.Prelude.{◌≡◌, ◌*◌, ◌^◌, ◌<◌, ◌↔◌, IfOk, IsTrue};
ghost use Rattle.hx_base.specs.Pixels.{IsPixel};
ghost use Rattle.hx_ptree.specs.Searches.{IsPartitionList};

use crate::{Piece, PixelTree, Span, pieces};
use hx_base::Pixel;
use std::alloc::{AllocError, Global};
use std::cmp::Ordering;
use std::process::Abort;
use std::test::Fail;

// The pixels of a list that exist and begin at or behind the end of the one before.
fn parts_of(alloc: Global, listed: &[(u8, u64)]) -> Result<Vec<Pixel>, AllocError>
    ensures { IfOk result (λ parts. IsPartitionList parts.items) }
{
    let mut parts = Vec::new(alloc);
    let mut end = 0;
    for (order, number) in listed {
        let pixel = Pixel {
            order: *order,
            number: *number,
        };
        if parts.len() < 100_000 && pixel.exists() && end <= pixel.first_position() {
            parts.push(pixel)?;
            end = pixel.end_position();
        }
    }
    Ok(parts)
}

fn tree_of(alloc: Global, listed: &[(u8, u64)]) -> Result<PixelTree, AllocError> {
    let parts = parts_of(alloc, listed)?;
    PixelTree::build(alloc, &parts)
}

fn check_holder(rt: &impl Abort, tree: &PixelTree, position: u64, holder: Option<u32>)
    requires { position < 12 * 4 ^ 29 }
{
    assert_eq!(rt; tree.holder(position), holder, "at {position}");
}

fn check_spans(rt: &impl Abort, tree: &PixelTree, cases: &[((u8, u64), (u32, u32))]) {
    for ((order, number), (first, count)) in cases {
        let pixel = Pixel {
            order: *order,
            number: *number,
        };
        assert!(rt; pixel.exists());
        let span = Span {
            first: *first,
            count: *count,
        };
        assert_eq!(rt; tree.overlapping(pixel), span, "of {order}, {number}");
    }
}

#[test]
fn four_partitions(rt: HostRuntime) -> Result<(), Fail> {
    let tree = tree_of(rt.alloc(), &[(1, 0), (1, 1), (1, 2), (0, 4)])?;
    check_holder(&rt, &tree, 0, Some(0));
    check_holder(&rt, &tree, 72_057_594_037_927_935, Some(0));
    check_holder(&rt, &tree, 72_057_594_037_927_936, Some(1));
    check_holder(&rt, &tree, 216_172_782_113_783_808, None);
    check_holder(&rt, &tree, 1_152_921_504_606_846_975, None);
    check_holder(&rt, &tree, 1_152_921_504_606_846_976, Some(3));
    check_holder(&rt, &tree, 1_441_151_880_758_558_719, Some(3));
    check_holder(&rt, &tree, 1_441_151_880_758_558_720, None);
    check_holder(&rt, &tree, 3_458_764_513_820_540_927, None);
    let cases = [
        ((0, 0), (0, 3)),
        ((2, 64), (3, 1)),
        // Between two, and behind all.
        ((1, 3), (3, 0)),
        ((0, 1), (3, 0)),
        ((0, 5), (4, 0)),
        ((0, 11), (4, 0)),
    ];
    check_spans(&rt, &tree, &cases);
    Ok(())
}

#[test]
fn the_partition_itself(rt: HostRuntime) -> Result<(), Fail> {
    let tree = tree_of(rt.alloc(), &[(1, 0), (1, 1), (1, 2), (0, 4)])?;
    let cases = [
        (0, Some((1, 0))),
        (72_057_594_037_927_935, Some((1, 0))),
        (72_057_594_037_927_936, Some((1, 1))),
        (216_172_782_113_783_808, None),
        (1_152_921_504_606_846_975, None),
        (1_152_921_504_606_846_976, Some((0, 4))),
        (1_441_151_880_758_558_719, Some((0, 4))),
        (1_441_151_880_758_558_720, None),
        (3_458_764_513_820_540_927, None),
    ];
    for (position, expected) in cases {
        assert!(&rt; position < 3_458_764_513_820_540_928);
        let part = tree.part(position).map(|part| (part.order, part.number));
        assert_eq!(&rt; part, expected, "at {position}");
    }
    let none = tree_of(rt.alloc(), &[])?;
    assert_eq!(&rt; none.part(0), None);
    Ok(())
}

#[test]
fn partitions_of_two_orders(rt: HostRuntime) -> Result<(), Fail> {
    let tree = tree_of(rt.alloc(), &[(1, 5), (2, 40)])?;
    let cases = [
        // Before all, between two and behind all.
        ((0, 0), (0, 0)),
        ((1, 4), (0, 0)),
        ((1, 6), (1, 0)),
        ((2, 39), (1, 0)),
        ((2, 41), (2, 0)),
        ((1, 11), (2, 0)),
        // One of them, one that lies inside, and one that holds it.
        ((1, 5), (0, 1)),
        ((2, 40), (1, 1)),
        ((29, 360_287_970_189_639_680), (0, 1)),
        ((29, 432_345_564_227_567_615), (0, 1)),
        ((29, 432_345_564_227_567_616), (1, 0)),
        ((0, 1), (0, 1)),
        ((1, 10), (1, 1)),
    ];
    check_spans(&rt, &tree, &cases);
    Ok(())
}

#[test]
fn no_partitions(rt: HostRuntime) -> Result<(), Fail> {
    let tree = tree_of(rt.alloc(), &[])?;
    check_holder(&rt, &tree, 0, None);
    check_spans(&rt, &tree, &[((0, 0), (0, 0)), ((29, 7), (0, 0))]);
    Ok(())
}

// The pixel of an order, or of its own where that is lower, in which a pixel lies.
fn ancestor(pixel: Pixel, order: u8) -> u64 {
    let steps = pixel.order.saturating_sub(order);
    pixel.number.checked_shr(2 * u32::from(steps)).unwrap_or(0)
}

// Whether a pixel stands before another, overlaps it or stands behind it.
fn compare(a: Pixel, b: Pixel) -> Ordering {
    let order = a.order.min(b.order);
    ancestor(a, order).cmp(&ancestor(b, order))
}

// The span of a pixel as a loop over all partitions finds it.
fn scanned(parts: &[Pixel], pixel: Pixel) -> Span {
    let mut span = Span { first: 0, count: 0 };
    for part in parts {
        match compare(*part, pixel) {
            Ordering::Less => span.first = span.first.saturating_add(1),
            Ordering::Equal => span.count = span.count.saturating_add(1),
            Ordering::Greater => {}
        }
    }
    span
}

// Whether the search for a position's partition finds what the loop finds.
fn holder_agrees(tree: &PixelTree, parts: &[Pixel], position: u64) -> bool
    requires { position < 12 * 4 ^ 29 }
{
    let pixel = Pixel {
        order: 29,
        number: position,
    };
    let span = scanned(parts, pixel);
    tree.holder(position) == (span.count == 1).then_some(span.first)
}

// Whether both searches find for a pixel, and for its first and last position, what the loop finds.
fn agrees(tree: &PixelTree, parts: &[Pixel], pixel: Pixel) -> bool
    requires { IsPixel pixel }
{
    let first = pixel.first_position();
    let last = pixel.end_position() - 1;
    let holders = holder_agrees(tree, parts, first) && holder_agrees(tree, parts, last);
    holders && tree.overlapping(pixel) == scanned(parts, pixel)
}

// Pixels of orders 0 to 4, some of which overlap.
fn random_pixels(alloc: Global, seed: u64) -> Result<Vec<(u8, u64)>, AllocError> {
    let mut pixels = Vec::new(alloc);
    let mut state = seed;
    for position in 0..3072 {
        state = state
            .wrapping_mul(6_364_136_223_846_793_005)
            .wrapping_add(1_442_695_040_888_963_407);
        let order = ((state >> 33) % 5) as u8;
        if (state >> 40) % 4 == 0 {
            pixels.push((order, position >> (8 - 2 * order)))?;
        }
    }
    Ok(pixels)
}

#[test]
fn searches_find_what_a_loop_finds(rt: HostRuntime) -> Result<(), Fail> {
    let alloc = rt.alloc();
    for seed in 0..8 {
        let parts = parts_of(alloc, &random_pixels(alloc, seed)?)?;
        assert!(&rt; parts.len() > 100);
        let tree = PixelTree::build(alloc, &parts)?;
        for order in 0..=3 {
            for number in 0..768 {
                let pixel = Pixel { order, number };
                assert!(&rt;
                    !pixel.exists() || agrees(&tree, &parts, pixel),
                    "at {order}, {number}"
                );
            }
        }
    }
    Ok(())
}

// Whether the pieces of two lists of partitions are these, as first and count.
fn check_pieces(
    rt: &impl Abort,
    alloc: Global,
    left: &[(u8, u64)],
    right: &[(u8, u64)],
    expected: &[(u32, u32)],
) -> Result<(), AllocError> {
    let left = tree_of(alloc, left)?;
    let right = tree_of(alloc, right)?;
    let found = pieces(alloc, &left, &right)?;
    assert_eq!(rt; found.len(), expected.len());
    for (index, piece) in found.iter().enumerate() {
        assert_eq!(rt; piece.left as usize, index);
        let (first, count) = expected[index];
        assert_eq!(rt; (piece.first, piece.count), (first, count), "of {index}");
    }
    Ok(())
}

#[test]
fn pieces_of_two_lists(rt: HostRuntime) -> Result<(), Fail> {
    let alloc = rt.alloc();
    let parts = [(1, 0), (1, 1), (1, 2), (0, 4)];
    // Equal lists.
    check_pieces(
        &rt,
        alloc,
        &parts,
        &parts,
        &[(0, 1), (1, 1), (2, 1), (3, 1)],
    )?;
    // One over several, with a gap behind.
    check_pieces(
        &rt,
        alloc,
        &[(0, 0), (0, 1), (0, 4)],
        &parts,
        &[(0, 3), (3, 0), (3, 1)],
    )?;
    // Several below one.
    check_pieces(
        &rt,
        alloc,
        &parts,
        &[(0, 0), (1, 17)],
        &[(0, 1), (0, 1), (0, 1), (1, 1)],
    )?;
    // Between and beside.
    check_pieces(&rt, alloc, &[(1, 3), (0, 5)], &parts, &[(3, 0), (4, 0)])?;
    // An empty side.
    check_pieces(&rt, alloc, &parts, &[], &[(0, 0), (0, 0), (0, 0), (0, 0)])?;
    check_pieces(&rt, alloc, &[], &parts, &[])?;
    Ok(())
}

#[test]
fn pieces_are_what_a_loop_finds(rt: HostRuntime) -> Result<(), Fail> {
    let alloc = rt.alloc();
    for seed in 0..8 {
        let left = parts_of(alloc, &random_pixels(alloc, seed)?)?;
        let right = parts_of(alloc, &random_pixels(alloc, seed + 100)?)?;
        let found = pieces(
            alloc,
            &PixelTree::build(alloc, &left)?,
            &PixelTree::build(alloc, &right)?,
        )?;
        assert_eq!(&rt; found.len(), left.len());
        for (index, piece) in found.iter().enumerate() {
            let span = scanned(&right, left[index]);
            let wanted = Piece {
                left: index as u32,
                first: span.first,
                count: span.count,
            };
            assert_eq!(&rt; *piece, wanted, "with {seed}");
        }
    }
    Ok(())
}
