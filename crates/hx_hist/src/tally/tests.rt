ghost use Rattle.std.specs.Prelude.{◌≤◌};

use super::Tally;
use crate::counting::count_rows;
use crate::samples::{LAST, random_positions, rows_at};
use std::alloc::Global;
use std::process::Abort;
use std::test::Fail;

// A tally of inputs of so many rows has the counts of all rows together.
fn check_tally(rt: &impl Abort, alloc: Global, order: u8, sizes: &[usize]) -> Result<(), Fail>
    requires { order ≤ 29 }
{
    let mut tally = Tally::new(alloc, order)?;
    let mut all = Vec::new(alloc);
    for (input, size) in sizes.iter().enumerate() {
        let positions = random_positions(alloc, input as u64, *size)?;
        let rows = rows_at(alloc, &positions)?;
        all.extend_from_slice(&rows)?;
        tally.add_rows(&rows)?;
    }
    assert_eq!(rt; tally.order(), order);
    let hist = tally.into_hist()?;
    let counted = count_rows(alloc, order, &all)?;
    assert_eq!(rt; hist.order(), order);
    assert!(rt; hist.pairs() == counted.pairs());
    assert!(rt; hist.first_difference(&counted).is_none());
    Ok(())
}

#[test]
fn counts_of_inputs_are_those_of_all_rows(rt: HostRuntime) -> Result<(), Fail> {
    let alloc = rt.alloc();
    for order in [0, 8, 9, 20, 29] {
        check_tally(&rt, alloc, order, &[])?;
        check_tally(&rt, alloc, order, &[0])?;
        check_tally(&rt, alloc, order, &[1])?;
        check_tally(&rt, alloc, order, &[0, 7, 0, 3, 1])?;
        check_tally(&rt, alloc, order, &[100, 10, 1, 20, 200, 0])?;
    }
    Ok(())
}

#[test]
fn many_small_inputs_are_merged(rt: HostRuntime) -> Result<(), Fail> {
    let alloc = rt.alloc();
    for order in [8, 9, 29] {
        check_tally(&rt, alloc, order, &[1; 100])?;
        check_tally(&rt, alloc, order, &[9; 40])?;
    }
    Ok(())
}

// Five inputs of two rows each at the last position.
fn check_last_position(rt: &impl Abort, alloc: Global, order: u8) -> Result<(), Fail>
    requires { order ≤ 29 }
{
    let mut tally = Tally::new(alloc, order)?;
    for _ in 0..5_usize {
        let rows = rows_at(alloc, &[LAST, LAST])?;
        if rows.len() == 2 {
            tally.add_rows(&rows)?;
        }
    }
    let hist = tally.into_hist()?;
    assert_eq!(rt; hist.pairs().len(), 1);
    assert!(rt; hist.pairs().iter().all(|pair| pair.count == 10));
    Ok(())
}

#[test]
fn one_pixel_of_all_inputs_is_counted_once(rt: HostRuntime) -> Result<(), Fail> {
    let alloc = rt.alloc();
    for order in [0, 8, 9, 20, 29] {
        check_last_position(&rt, alloc, order)?;
    }
    Ok(())
}
