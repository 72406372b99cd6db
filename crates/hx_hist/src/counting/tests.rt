ghost use Rattle.std.specs.Prelude.{◌≤◌};

use super::count_rows;
use crate::samples::{LAST, rows_at};
use std::alloc::Global;
use std::process::Abort;
use std::test::Fail;

fn check_counts(
    rt: &impl Abort,
    alloc: Global,
    order: u8,
    positions: &[u64],
    wanted: &[(u64, u64)],
) -> Result<(), Fail>
    requires { order ≤ 29 }
{
    let rows = rows_at(alloc, positions)?;
    let counts = count_rows(alloc, order, &rows)?;
    let pairs = counts.pairs();
    assert_eq!(rt; pairs.len(), wanted.len());
    for (pair, want) in pairs.iter().zip(wanted) {
        assert_eq!(rt; pair.pixel, want.0);
        assert_eq!(rt; pair.count, want.1);
    }
    Ok(())
}

#[test]
fn each_pixel_with_rows_is_counted(rt: HostRuntime) -> Result<(), Fail> {
    let alloc = rt.alloc();
    check_counts(&rt, alloc, 0, &[], &[])?;
    check_counts(&rt, alloc, 0, &[0], &[(0, 1)])?;
    check_counts(&rt, alloc, 0, &[LAST], &[(11, 1)])?;
    check_counts(&rt, alloc, 29, &[LAST], &[(LAST, 1)])?;
    check_counts(&rt, alloc, 0, &[1, 0], &[(0, 2)])?;
    check_counts(&rt, alloc, 29, &[1, 0], &[(0, 1), (1, 1)])?;
    let positions = [LAST, 5, 288230376151711744, 0];
    check_counts(&rt, alloc, 0, &positions, &[(0, 2), (1, 1), (11, 1)])?;
    check_counts(&rt, alloc, 1, &positions, &[(0, 2), (4, 1), (47, 1)])
}
