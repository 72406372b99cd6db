ghost use Rattle.std.specs.Prelude.{◌≡◌, ◌↔◌, ◌*◌, ◌^◌, ◌<◌, ◌≤◌, IfOk, IsTrue};
ghost use Rattle.hx_base.specs.Limits.{highest_order, most_in_partition};
ghost use Rattle.hx_base.specs.Partitions.{IsPartition};
ghost use Rattle.hx_align.specs.Plans.{totals_of};

use crate::{AlignRefusal, Plan, PlanRow, align};
use hx_base::{Pixel, Refusal};
use hx_hist::Hist;
use std::alloc::{AllocError, Global};
use std::process::Abort;
use std::test::Fail;

// A histogram of so many pixels of an order, from the counts of some.
fn hist_of(alloc: Global, order: u8, pixels: u64, added: &[(u64, u64)]) -> Result<Hist, AllocError>
    requires order { order ≤ 29 }
    requires pixels { pixels ≤ 12 * 4 ^ order }
    ensures { IfOk result (λ hist. hist.order ≡ order) }
{
    let mut hist = Hist::new(alloc, order);
    let mut total = 0;
    for (pixel, count) in added {
        if *pixel < pixels && *count < 1000 && total < 1000000 {
            hist.add(*pixel, *count)?;
            total += *count;
        }
    }
    Ok(hist)
}

fn is_planned(rows: &[PlanRow], wanted: &[(u8, u64, u64)]) -> bool {
    rows.len() == wanted.len()
        && rows.iter().zip(wanted).all(|(row, want)| {
            row.pixel.order == want.0 && row.pixel.number == want.1 && row.count == want.2
        })
}

// The plan of an order-1 histogram.
fn check_planned(
    rt: &impl Abort,
    alloc: Global,
    added: &[(u64, u64)],
    lowest: u8,
    threshold: u64,
    wanted: &[(u8, u64, u64)],
) -> Result<(), Fail>
    requires lowest { lowest ≤ 1 }
    requires threshold_least { 1 ≤ threshold }
    requires threshold_most { threshold ≤ most_in_partition }
{
    let hist = hist_of(alloc, 1, 48, added)?;
    let plan = align(alloc, &hist, lowest, 1, threshold)?;
    assert!(rt; is_planned(plan.rows(), wanted));
    assert_eq!(rt; plan.pixels().len(), wanted.len());
    assert!(rt;
        plan.pixels()
            .iter()
            .zip(plan.rows())
            .all(|(pixel, row)| *pixel == row.pixel)
    );
    Ok(())
}

#[test]
fn partitions_are_the_largest_pixels(rt: HostRuntime) -> Result<(), Fail> {
    let alloc = rt.alloc();
    check_planned(&rt, alloc, &[], 0, 1, &[])?;
    check_planned(&rt, alloc, &[(0, 2)], 0, 2, &[(0, 0, 2)])?;
    check_planned(
        &rt,
        alloc,
        &[(0, 1), (1, 1), (2, 1), (16, 2)],
        0,
        2,
        &[(1, 0, 1), (1, 1, 1), (1, 2, 1), (0, 4, 2)],
    )?;
    // A count equal to the threshold, and one above it.
    check_planned(
        &rt,
        alloc,
        &[(3, 4), (47, 1)],
        0,
        4,
        &[(0, 0, 4), (0, 11, 1)],
    )?;
    check_planned(&rt, alloc, &[(2, 1), (3, 4)], 0, 4, &[(1, 2, 1), (1, 3, 4)])?;
    check_planned(&rt, alloc, &[(4, 1), (6, 1)], 0, 1, &[(1, 4, 1), (1, 6, 1)])?;
    // The lowest order is the highest, and a pixel is sparse.
    check_planned(
        &rt,
        alloc,
        &[(0, 1), (1, 1), (40, 5)],
        1,
        9,
        &[(1, 0, 1), (1, 1, 1), (1, 40, 5)],
    )
}

const fn row(order: u8, number: u64, count: u64) -> PlanRow {
    let pixel = Pixel { order, number };
    PlanRow { pixel, count }
}

#[test]
fn plans_of_rows(rt: HostRuntime) -> Result<(), Fail> {
    let alloc = rt.alloc();
    let rows = [row(0, 0, 1), row(20, 4 << 40, 1_000_000), row(1, 17, 7)];
    let plan = Plan::checked(alloc, Vec::from_array(alloc, rows)?)?.ok_or("no plan")?;
    assert!(&rt; plan.rows() == rows.as_slice());
    assert!(&rt; plan.pixels() == [rows[0].pixel, rows[1].pixel, rows[2].pixel].as_slice());
    assert!(&rt; Plan::checked(alloc, Vec::new(alloc))?.is_some());
    let refused = [
        // Equal, one in the other, out of order, no pixel.
        [row(3, 8, 1), row(3, 8, 1)],
        [row(0, 1, 1), row(1, 7, 1)],
        [row(0, 1, 1), row(0, 0, 1)],
        [row(0, 0, 1), row(0, 12, 1)],
        // Of too high an order, no row, too many rows.
        [row(0, 0, 1), row(21, 4 << 42, 1)],
        [row(0, 0, 0), row(0, 1, 1)],
        [row(0, 0, 1), row(0, 1, 1_000_001)],
    ];
    for rows in refused {
        assert!(&rt; Plan::checked(alloc, Vec::from_array(alloc, rows)?)?.is_none());
    }
    Ok(())
}

#[test]
fn refusals(rt: HostRuntime) {
    let overfull = AlignRefusal::Overfull { pixel: 5, count: 7 };
    let many = AlignRefusal::TooMany { found: 100_001 };
    assert_eq!(rt;
        Refusal::from(overfull),
        Refusal::Overfull { pixel: 5, count: 7 }
    );
    assert_eq!(rt;
        Refusal::from(many),
        Refusal::TooMany {
            what: 3,
            found: 100_001,
            limit: 100_000
        }
    );
    assert_eq!(rt; Refusal::from(AlignRefusal::Memory), Refusal::Memory);
}

// The refusal, if there is one. Want of memory is an error here.
fn refusal_of(
    alloc: Global,
    hist: &Hist,
    lowest: u8,
    threshold: u64,
) -> Result<Option<AlignRefusal>, AlignRefusal>
    requires lowest { lowest ≤ hist.now.order }
    requires highest { hist.now.order ≤ highest_order }
    requires threshold_least { 1 ≤ threshold }
    requires threshold_most { threshold ≤ most_in_partition }
{
    match align(alloc, hist, lowest, hist.order(), threshold) {
        Ok(_) => Ok(None),
        Err(AlignRefusal::Memory) => Err(AlignRefusal::Memory),
        Err(refusal) => Ok(Some(refusal)),
    }
}

#[test]
fn the_first_overfull_pixel_is_named(rt: HostRuntime) -> Result<(), Fail> {
    let alloc = rt.alloc();
    let cases = [
        ([(0, 3), (9, 1)], 2, Some((0, 3))),
        ([(9, 3), (5, 4)], 2, Some((5, 4))),
        ([(9, 3), (5, 2)], 2, Some((9, 3))),
        ([(9, 3), (5, 2)], 3, None),
    ];
    for (added, threshold, wanted) in cases {
        let hist = hist_of(alloc, 1, 48, &added)?;
        let refusal = wanted.map(|(pixel, count)| AlignRefusal::Overfull { pixel, count });
        assert_eq!(&rt; refusal_of(alloc, &hist, 0, threshold)?, refusal);
    }
    Ok(())
}

// An order-9 histogram of one row in each of the first pixels.
fn row_in_each(alloc: Global, pixels: u64) -> Result<Hist, AllocError>
    requires { pixels ≤ 12 * 4 ^ 9 }
    ensures { IfOk result (λ hist. hist.order ≡ 9) }
{
    let mut hist = Hist::new(alloc, 9);
    for pixel in 0..pixels {
        hist.add(pixel, 1)?;
    }
    Ok(hist)
}

#[test]
fn partitions_are_at_most_100000(rt: HostRuntime) -> Result<(), Fail> {
    let alloc = rt.alloc();
    let most = row_in_each(alloc, 100_000)?;
    let plan = align(alloc, &most, 9, 9, 1)?;
    assert_eq!(&rt; plan.rows().len(), 100_000);
    let more = row_in_each(alloc, 100_001)?;
    let refusal = Some(AlignRefusal::TooMany { found: 100_001 });
    assert_eq!(&rt; refusal_of(alloc, &more, 9, 1)?, refusal);
    // They are fewer where a lower order will do.
    let plan = align(alloc, &more, 8, 9, 4)?;
    assert_eq!(&rt; plan.rows().len(), 25_001);
    Ok(())
}

// Whether a pixel is a partition of an order-2 histogram, by the definition.
fn is_partition(hist: &Hist, lowest: u8, threshold: u64, pixel: Pixel) -> bool
    requires order { hist.now.order ≡ 2 }
    requires within { pixel.order ≤ 2 }
    requires number { pixel.number < 12 * 4 ^ pixel.order }
    requires lowest { lowest ≤ pixel.order }
    ensures { IsTrue result ↔ IsPartition (totals_of hist.now) lowest 2 threshold pixel }
{
    let count = hist.total_in(pixel);
    if count == 0 || count > threshold {
        return false;
    }
    if pixel.order == lowest {
        return true;
    }
    let parent = Pixel {
        order: pixel.order - 1,
        number: pixel.number / 4,
    };
    hist.total_in(parent) > threshold
}

// The partitions of an order-2 histogram: all pixels of its orders are tried, and those that pass are put in
// order.
fn listed(
    alloc: Global,
    hist: &Hist,
    lowest: u8,
    threshold: u64,
) -> Result<Vec<(u64, PlanRow)>, AllocError>
    requires order { hist.now.order ≡ 2 }
    requires lowest { lowest ≤ 2 }
{
    let mut rows = Vec::new(alloc);
    for order in lowest..=2 {
        let pixels: u64 = [12, 48, 192][usize::from(order)];
        for number in 0..pixels {
            let pixel = Pixel { order, number };
            if is_partition(hist, lowest, threshold, pixel) {
                let first = number << (2 * (2 - order));
                let count = hist.total_in(pixel);
                rows.push((first, PlanRow { pixel, count }))?;
            }
        }
    }
    rows.sort_by_key(|row| row.0)?;
    Ok(rows)
}

// Counts from 0 to 7 in the pixels of order 2, more of them 0 for some seeds.
fn random_hist(alloc: Global, seed: u64) -> Result<Hist, AllocError>
    ensures { IfOk result (λ hist. hist.order ≡ 2) }
{
    let mut added = Vec::new(alloc);
    let mut state = seed;
    for pixel in 0..192 {
        state = state
            .wrapping_mul(6_364_136_223_846_793_005)
            .wrapping_add(1_442_695_040_888_963_407);
        if (state >> 40) % 5 >= seed % 5 {
            added.push((pixel, (state >> 33) % 8))?;
        }
    }
    hist_of(alloc, 2, 192, added.as_slice())
}

// The least order-2 pixel with more rows than the threshold.
fn overfull(hist: &Hist, threshold: u64) -> Option<AlignRefusal>
    requires order { hist.now.order ≡ 2 }
{
    for number in 0..192 {
        let count = hist.total_in(Pixel { order: 2, number });
        if count > threshold {
            return Some(AlignRefusal::Overfull {
                pixel: number,
                count,
            });
        }
    }
    None
}

fn agrees(alloc: Global, hist: &Hist, lowest: u8, threshold: u64) -> Result<bool, Fail>
    requires order { hist.now.order ≡ 2 }
    requires lowest { lowest ≤ 2 }
    requires threshold_least { 1 ≤ threshold }
    requires threshold_most { threshold ≤ most_in_partition }
{
    let refusal = overfull(hist, threshold);
    if refusal.is_some() {
        return Ok(refusal_of(alloc, hist, lowest, threshold)? == refusal);
    }
    let wanted = listed(alloc, hist, lowest, threshold)?;
    let plan = align(alloc, hist, lowest, 2, threshold)?;
    let rows = plan.rows();
    Ok(rows.len() == wanted.len() && rows.iter().zip(&wanted).all(|(row, want)| *row == want.1))
}

#[test]
fn plans_are_those_of_the_definition(rt: HostRuntime) -> Result<(), Fail> {
    let alloc = rt.alloc();
    for seed in 0..10 {
        let hist = random_hist(alloc, seed)?;
        for lowest in 0..=2 {
            for threshold in 1..100 {
                assert!(&rt; agrees(alloc, &hist, lowest, threshold)?);
            }
        }
    }
    Ok(())
}
