//! Small inputs: their maps, plans, splits and partitions, counted by hand.
ghost use Rattle.std.specs.Prelude.{◌≡◌, ◌≤◌, All, IfOk, IsTrue, ◌↔◌};
ghost use Rattle.hx_base.specs.Limits.{FitsLimits};
ghost use Rattle.hx_base.specs.Rows.{IsGood};

use super::sorting::{merged, sorted};
use super::*;
use hx_align::{Plan, PlanRow};
use hx_base::{Name, Pixel, Row, Settings};
use hx_hist::{Hist, Pair};
use hx_rows::parquet_rows;
use hx_spill::{read_map, read_plan, slice_of};
use std::alloc::{AllocError, Global};
use std::test::Fail;

// Pixels 0, 16, 1 and 0 of order 1; the first and the last row are equal.
const INPUT: &[u8] =
    b"id,_healpix_29,cx,cy,cz\n7,0,1000000000,0,0\n1,1152921504606846976,0,1000000000,0\n2,72057594037927936,1000000000,0,0\n7,0,1000000000,0,0\n";

// The second row's id is no number.
const BAD: &[u8] = b"id,_healpix_29,cx,cy,cz\n7,0,1000000000,0,0\nx,0,1000000000,0,0\n";

const ONE: i32 = 1_000_000_000;

const fn row(id: i64, hp: u64, x: i32, y: i32) -> Row {
    Row { hp, id, x, y, z: 0 }
}

fn map_of(alloc: Global, bytes: &[u8]) -> Result<Vec<u8>, WorkRefusal> {
    map_task(alloc, "a.csv", bytes, 1)
}

fn split_of(alloc: Global, bytes: &[u8], map: &Hist, plan: &Plan) -> Result<Vec<u8>, WorkRefusal> {
    split_task(alloc, "a.csv", bytes, map, plan)
}

const fn pair(pixel: u64, count: u64) -> Pair {
    Pair { pixel, count }
}

// The histogram of order 1 of some pixels' counts.
fn hist_of(alloc: Global, added: &[Pair]) -> Result<Hist, AllocError>
    ensures { IfOk result (λ hist. hist.order ≡ 1) }
{
    let mut hist = Hist::new(alloc, 1);
    let mut total = 0;
    for pair in added {
        if pair.pixel < 48 && pair.count < 1000 && total < 1_000_000 {
            hist.add(pair.pixel, pair.count)?;
            total += pair.count;
        }
    }
    Ok(hist)
}

// Partitions up to order 1 of at most so many rows.
fn settings_of(alloc: Global, threshold: u64) -> Result<Settings, Fail>
    requires { (1 ≤ threshold) × (threshold ≤ 1000000) }
    ensures fits { IfOk result FitsLimits }
    ensures highest { IfOk result (λ settings. settings.highest ≡ 1) }
{
    Ok(Settings {
        name: Name::new(alloc, "t")?.ok_or("no name")?,
        lowest: 0,
        highest: 1,
        threshold,
        margin_order: 10,
    })
}

const fn planned(order: u8, number: u64, count: u64) -> PlanRow {
    let pixel = Pixel { order, number };
    PlanRow { pixel, count }
}

#[test]
fn maps(rt: HostRuntime) -> Result<(), Fail> {
    let alloc = rt.alloc();
    let bytes = map_of(alloc, INPUT).map_err(|_| "refused")?;
    let map = read_map(alloc, &bytes).map_err(|_| "damaged")?;
    assert_eq!(rt; map.order(), 1);
    let pairs = [pair(0, 2), pair(1, 1), pair(16, 1)];
    assert_eq!(rt; map.pairs(), pairs.as_slice());
    for (input, row, why) in [(b"".as_slice(), 0, 1), (BAD, 2, 4)] {
        let refused = Some(WorkRefusal::Bad { row, why });
        assert_eq!(rt; map_of(alloc, input).err(), refused);
    }
    Ok(())
}

#[test]
fn plans(rt: HostRuntime) -> Result<(), Fail> {
    let alloc = rt.alloc();
    let settings = settings_of(alloc, 2)?;
    let hist = hist_of(alloc, &[pair(0, 1), pair(1, 1), pair(2, 1), pair(16, 2)])?;
    let bytes = plan_task(alloc, &hist, &settings).map_err(|_| "refused")?;
    let plan = read_plan(alloc, &bytes).map_err(|_| "damaged")?;
    let wanted = [
        planned(1, 0, 1),
        planned(1, 1, 1),
        planned(1, 2, 1),
        planned(0, 4, 2),
    ];
    assert_eq!(rt; plan.rows(), wanted.as_slice());
    let overfull = hist_of(alloc, &[pair(3, 2), pair(5, 3), pair(6, 4)])?;
    let refused = Some(WorkRefusal::Overfull { pixel: 5, count: 3 });
    assert_eq!(rt; plan_task(alloc, &overfull, &settings).err(), refused);
    Ok(())
}

// Whether a split file has these rows of a partition.
fn is_slice(alloc: Global, bytes: &[u8], part: u32, wanted: &[Row]) -> bool {
    match slice_of(alloc, bytes, part) {
        Ok(rows) => rows.as_slice() == wanted,
        Err(_) => false,
    }
}

#[test]
fn splits(rt: HostRuntime) -> Result<(), Fail> {
    let alloc = rt.alloc();
    let map = hist_of(alloc, &[pair(0, 2), pair(1, 1), pair(16, 1)])?;
    let rows = [planned(1, 0, 2), planned(1, 1, 1), planned(0, 4, 1)];
    let plan = Plan::checked(alloc, Vec::from_array(alloc, rows)?)?.ok_or("no plan")?;
    let bytes = split_of(alloc, INPUT, &map, &plan).map_err(|_| "refused")?;
    let equal = row(7, 0, ONE, 0);
    let second = row(2, 1 << 56, ONE, 0);
    let last = row(1, 1 << 60, 0, ONE);
    assert!(rt; is_slice(alloc, &bytes, 0, &[equal, equal]));
    assert!(rt; is_slice(alloc, &bytes, 1, &[second]));
    assert!(rt; is_slice(alloc, &bytes, 2, &[last]));
    assert!(rt; is_slice(alloc, &bytes, 3, &[]));
    let kept = hist_of(alloc, &[pair(0, 2), pair(2, 4), pair(16, 2)])?;
    let changed = WorkRefusal::Changed {
        pixel: 1,
        kept: 0,
        found: 1,
    };
    assert_eq!(rt; split_of(alloc, INPUT, &kept, &plan).err(), Some(changed));
    let bad = WorkRefusal::Bad { row: 2, why: 4 };
    assert_eq!(rt; split_of(alloc, BAD, &map, &plan).err(), Some(bad));
    Ok(())
}

fn all_good(rows: &[Row]) -> bool
    ensures { IsTrue result ↔ All IsGood rows.now }
{
    rows.iter().all(|row| row.is_good())
}

#[test]
fn reduced_rows(rt: HostRuntime) -> Result<(), Fail> {
    let alloc = rt.alloc();
    let (first, second, third) = (row(9, 3, ONE, 0), row(1, 4, ONE, 0), row(2, 4, 0, ONE));
    let rows = [third, second, first, second];
    assert!(rt; all_good(&rows));
    let bytes = reduce_task(alloc, Vec::from_array(alloc, rows)?).map_err(|_| "refused")?;
    let read = parquet_rows(alloc, &bytes).map_err(|_| "unread")?;
    let wanted = [first, second, second, third];
    assert_eq!(rt; read.as_slice(), wanted.as_slice());
    Ok(())
}

// As many positions, by so much.
const POSITIONS: u64 = 5000;

const STEP: u64 = 691_752_902_764_108;

// Whether there are two rows at each position, in their order.
fn is_each_twice(rows: &[Row]) -> bool {
    let count = rows.len() as u64;
    let mut places = (0u64..).zip(rows);
    count == 2 * POSITIONS && places.all(|(i, row)| row.hp == (i / 2).wrapping_mul(STEP))
}

#[test]
fn many_rows(rt: HostRuntime) -> Result<(), Fail> {
    let alloc = rt.alloc();
    let mut rows = Vec::new(alloc);
    for i in 0..2 * POSITIONS {
        rows.push(row(7, i * 7919 % POSITIONS * STEP, ONE, 0))?;
    }
    assert!(rt; all_good(&rows));
    let ascending = sorted(alloc, rows)?;
    assert!(rt; is_each_twice(&ascending));
    assert!(rt; all_good(&ascending));
    let again = sorted(alloc, ascending)?;
    assert!(rt; is_each_twice(&again));
    Ok(())
}

#[test]
fn runs(rt: HostRuntime) -> Result<(), Fail> {
    let alloc = rt.alloc();
    let mut rows = Vec::new(alloc);
    for _ in 0..2 {
        for i in 0..POSITIONS {
            rows.push(row(7, i * STEP, ONE, 0))?;
        }
    }
    assert!(rt; all_good(&rows));
    assert!(rt; is_each_twice(&merged(rows)?));
    Ok(())
}
