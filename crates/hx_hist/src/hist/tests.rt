ghost use Rattle.std.specs.Prelude.{◌≡◌, ◌≤◌, ◌^◌, IfOk};
ghost use Rattle.hx_hist.specs.Histograms.{total_of};

use super::{Difference, Hist};
use crate::samples::next_random;
use hx_base::Pixel;
use std::alloc::{AllocError, Global};
use std::process::Abort;
use std::test::Fail;

// A histogram of order 1 of pixels and their counts.
fn hist_of(alloc: Global, added: &[(u64, u64)]) -> Result<Hist, AllocError>
    ensures order { IfOk result (λ hist. hist.order ≡ 1) }
    ensures total { IfOk result (λ hist. total_of hist.pairs ≤ 2 ^ 32) }
{
    let mut hist = Hist::new(alloc, 1);
    let mut total = 0;
    for (pixel, count) in added {
        if *pixel < 48 && *count < 1000 && total < 1000000 {
            hist.add(*pixel, *count)?;
            total += *count;
        }
    }
    Ok(hist)
}

fn is_made_of(hist: &Hist, wanted: &[(u64, u64)]) -> bool {
    let pairs = hist.pairs();
    pairs.len() == wanted.len()
        && pairs.iter().zip(wanted).all(|(pair, want)| pair.pixel == want.0 && pair.count == want.1)
}

fn check_added(
    rt: &impl Abort,
    alloc: Global,
    added: &[(u64, u64)],
    wanted: &[(u64, u64)],
) -> Result<(), Fail> {
    let hist = hist_of(alloc, added)?;
    assert!(rt; is_made_of(&hist, wanted));
    Ok(())
}

#[test]
fn pixels_are_added_in_any_order(rt: HostRuntime) -> Result<(), Fail> {
    let alloc = rt.alloc();
    check_added(&rt, alloc, &[], &[])?;
    check_added(
        &rt,
        alloc,
        &[(0, 1), (3, 2), (47, 9)],
        &[(0, 1), (3, 2), (47, 9)],
    )?;
    check_added(
        &rt,
        alloc,
        &[(47, 9), (3, 2), (0, 1)],
        &[(0, 1), (3, 2), (47, 9)],
    )?;
    check_added(
        &rt,
        alloc,
        &[(5, 1), (9, 1), (7, 1), (5, 3), (9, 4), (7, 6)],
        &[(5, 4), (7, 7), (9, 5)],
    )?;
    check_added(&rt, alloc, &[(8, 0), (4, 1), (4, 0), (2, 0)], &[(4, 1)])
}

fn check_merged(
    rt: &impl Abort,
    alloc: Global,
    left: &[(u64, u64)],
    right: &[(u64, u64)],
    wanted: &[(u64, u64)],
) -> Result<(), Fail> {
    let mut hist = hist_of(alloc, left)?;
    let other = hist_of(alloc, right)?;
    hist.merge(&other)?;
    assert!(rt; is_made_of(&hist, wanted));
    Ok(())
}

#[test]
fn counts_of_both_are_merged(rt: HostRuntime) -> Result<(), Fail> {
    let alloc = rt.alloc();
    check_merged(&rt, alloc, &[], &[], &[])?;
    check_merged(&rt, alloc, &[(1, 2)], &[], &[(1, 2)])?;
    check_merged(&rt, alloc, &[], &[(1, 2), (6, 1)], &[(1, 2), (6, 1)])?;
    check_merged(
        &rt,
        alloc,
        &[(1, 2), (9, 3)],
        &[(4, 5), (12, 1)],
        &[(1, 2), (4, 5), (9, 3), (12, 1)],
    )?;
    check_merged(
        &rt,
        alloc,
        &[(1, 2), (4, 1)],
        &[(1, 5), (3, 1), (4, 8)],
        &[(1, 7), (3, 1), (4, 9)],
    )
}

#[test]
fn totals_are_those_of_the_children(rt: HostRuntime) -> Result<(), Fail> {
    let hist = hist_of(rt.alloc(), &[(0, 1), (3, 2), (4, 4), (47, 8)])?;
    for (number, want) in [(0, 3), (1, 4), (2, 0), (10, 0), (11, 8)] {
        assert_eq!(&rt;
            hist.total_in(Pixel { order: 0, number }),
            want,
            "of order 0 at {number}"
        );
    }
    for (number, want) in [(0, 1), (1, 0), (3, 2), (4, 4), (46, 0), (47, 8)] {
        assert_eq!(&rt;
            hist.total_in(Pixel { order: 1, number }),
            want,
            "of order 1 at {number}"
        );
    }
    Ok(())
}

fn check_difference(
    rt: &impl Abort,
    alloc: Global,
    kept: &[(u64, u64)],
    found: &[(u64, u64)],
    wanted: Option<(u64, u64, u64)>,
) -> Result<(), Fail> {
    let hist = hist_of(alloc, kept)?;
    let other = hist_of(alloc, found)?;
    let wanted = wanted.map(|(pixel, kept, found)| Difference { pixel, kept, found });
    assert!(rt; hist.first_difference(&other) == wanted);
    Ok(())
}

#[test]
fn equal_histograms_have_no_difference(rt: HostRuntime) -> Result<(), Fail> {
    let alloc = rt.alloc();
    check_difference(&rt, alloc, &[], &[], None)?;
    check_difference(&rt, alloc, &[(3, 1)], &[(3, 1)], None)?;
    check_difference(
        &rt,
        alloc,
        &[(0, 1), (3, 2), (47, 9)],
        &[(47, 9), (3, 2), (0, 1)],
        None,
    )
}

#[test]
fn first_difference_is_the_least_pixel(rt: HostRuntime) -> Result<(), Fail> {
    let alloc = rt.alloc();
    check_difference(&rt, alloc, &[(1, 2)], &[(1, 3)], Some((1, 2, 3)))?;
    let one = [(3, 1)];
    let two = [(1, 2), (3, 1)];
    let last = [(3, 1), (5, 4)];
    check_difference(&rt, alloc, &two, &one, Some((1, 2, 0)))?;
    check_difference(&rt, alloc, &one, &two, Some((1, 0, 2)))?;
    check_difference(&rt, alloc, &last, &one, Some((5, 4, 0)))?;
    check_difference(&rt, alloc, &one, &last, Some((5, 0, 4)))?;
    check_difference(&rt, alloc, &[], &two, Some((1, 0, 2)))?;
    check_difference(&rt, alloc, &two, &[], Some((1, 2, 0)))?;
    let kept = [(0, 1), (2, 2), (5, 5), (9, 1)];
    let found = [(0, 1), (3, 2), (5, 6)];
    check_difference(&rt, alloc, &kept, &found, Some((2, 2, 0)))?;
    check_difference(&rt, alloc, &found, &kept, Some((2, 0, 2)))
}

// So many pixels of order 1 that look random, each with a count below 8.
fn random_pixels(alloc: Global, first: u64, count: usize) -> Result<Vec<(u64, u64)>, AllocError> {
    let mut number = first;
    let mut pixels = Vec::new(alloc);
    for _ in 0..count {
        number = next_random(number);
        pixels.push((number / 65536 % 48, number / 8192 % 8))?;
    }
    Ok(pixels)
}

// The count of a pixel by a walk over the list.
fn count_of(pixels: &[(u64, u64)], wanted: u64) -> u64 {
    let mut count: u64 = 0;
    for (pixel, more) in pixels {
        if *pixel == wanted {
            count = count.saturating_add(*more);
        }
    }
    count
}

#[test]
fn counts_are_those_of_a_plain_walk(rt: HostRuntime) -> Result<(), Fail> {
    let alloc = rt.alloc();
    let lefts = random_pixels(alloc, 7, 300)?;
    let rights = random_pixels(alloc, 1234567, 200)?;
    let mut hist = hist_of(alloc, lefts.as_slice())?;
    let other = hist_of(alloc, rights.as_slice())?;
    for number in 0..48 {
        let pixel = Pixel { order: 1, number };
        assert_eq!(rt;
            hist.total_in(pixel),
            count_of(&lefts, number),
            "added at {number}"
        );
    }
    hist.merge(&other)?;
    let pairs = hist.pairs();
    for number in 0..48 {
        let wanted = count_of(&lefts, number).saturating_add(count_of(&rights, number));
        let mut found = pairs.iter().filter(|pair| pair.pixel == number);
        let count = found.next().map_or(0, |pair| pair.count);
        assert_eq!(rt; count, wanted, "merged at {number}");
        assert!(rt; found.next().is_none());
    }
    Ok(())
}
