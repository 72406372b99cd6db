ghost use Rattle.std.specs.Prelude.{All, IfOk};
ghost use Rattle.hx_base.specs.Rows.{IsGood};

use crate::{Kd, Near};
use hx_base::Row;
use std::alloc::{AllocError, Global};
use std::process::Abort;
use std::test::Fail;

const V: [i32; 3] = [1_000_000_000, 0, 0];

fn row(id: i64, hp: u64, vector: [i32; 3]) -> Row {
    Row {
        hp,
        id,
        x: vector[0],
        y: vector[1],
        z: vector[2],
    }
}

// The good ones of some rows.
fn good_rows(alloc: Global, rows: &[Row]) -> Result<Vec<Row>, AllocError>
    ensures { IfOk result (λ good. All IsGood good.items) }
{
    let mut good = Vec::with_capacity(alloc, rows.len())?;
    for row in rows {
        if row.is_good() {
            good.push(*row)?;
        }
    }
    Ok(good)
}

fn tree_of(alloc: Global, rows: &[Row]) -> Result<Kd, AllocError> {
    Kd::new(alloc, good_rows(alloc, rows)?)
}

fn nearest(tree: &Kd, from: &Row, r2: u64) -> Option<Near> {
    if from.is_good() {
        tree.nearest(from, r2)
    } else {
        None
    }
}

// The square of a difference.
fn squared(a: i32, b: i32) -> u64 {
    let gap = u64::from(a.abs_diff(b));
    gap.wrapping_mul(gap)
}

// By what rows are compared.
fn key(near: &Near) -> (u64, i64, u64, i32, i32, i32) {
    let row = &near.row;
    (near.chord2, row.id, row.hp, row.x, row.y, row.z)
}

// The nearest row as a loop over all rows finds it.
fn scanned(rows: &[Row], from: &Row, r2: u64) -> Option<Near> {
    let mut best: Option<Near> = None;
    for row in rows {
        let chord2 = squared(from.x, row.x)
            .wrapping_add(squared(from.y, row.y))
            .wrapping_add(squared(from.z, row.z));
        let near = Near { chord2, row: *row };
        let better = match &best {
            None => true,
            Some(held) => key(&near) < key(held),
        };
        if chord2 <= r2 && better {
            best = Some(near);
        }
    }
    best
}

// The tree finds for each row what the loop finds, within each radius.
fn check(
    rt: &impl Abort,
    alloc: Global,
    rows: &[Row],
    origins: &[Row],
    radii: &[u64],
) -> Result<(), AllocError> {
    let good = good_rows(alloc, rows)?;
    assert_eq!(rt; good.len(), rows.len());
    let tree = Kd::new(alloc, good)?;
    for from in origins {
        assert!(rt; from.is_good());
        for r2 in radii {
            assert_eq!(rt;
                nearest(&tree, from, *r2),
                scanned(rows, from, *r2),
                "{from:?} {r2}"
            );
        }
    }
    Ok(())
}

// A number from a generator's state, and the next state.
fn next(state: &mut u64) -> u64 {
    *state = state
        .wrapping_mul(6_364_136_223_846_793_005)
        .wrapping_add(1_442_695_040_888_963_407);
    *state >> 33
}

// The square root, rounded down, of a number below 2^62.
fn root(n: u64) -> i32 {
    let mut low = 0i32;
    let mut step = 1_073_741_824i32;
    for _ in 0..31 {
        let raised = low.wrapping_add(step);
        if squared(raised, 0) <= n {
            low = raised;
        }
        step /= 2;
    }
    low
}

fn signed(size: i32, negative: bool) -> i32 {
    if negative { size.wrapping_neg() } else { size }
}

// A unit vector anywhere.
fn any_vector(state: &mut u64) -> [i32; 3] {
    let longest = 1_000_000_000_000_000_000u64;
    let x = (next(state) % 1_000_000_001) as i32;
    let left = longest.saturating_sub(squared(x, 0));
    let y = root((left / 1000).wrapping_mul(next(state) % 1001));
    let z = root(left.saturating_sub(squared(y, 0)));
    let signs = next(state);
    [
        signed(x, signs & 1 == 1),
        signed(y, signs & 2 == 2),
        signed(z, signs & 4 == 4),
    ]
}

// One of 78 unit vectors whose coordinates are whole: from many of them others are equally far.
fn coarse_vector(state: &mut u64) -> [i32; 3] {
    let sizes = match next(state) % 4 {
        0 => [1_000_000_000, 0, 0],
        1 => [600_000_000, 800_000_000, 0],
        _ => [360_000_000, 480_000_000, 800_000_000],
    };
    let [a, b, c] = sizes;
    let [x, y, z] = match next(state) % 6 {
        0 => [a, b, c],
        1 => [a, c, b],
        2 => [b, a, c],
        3 => [b, c, a],
        4 => [c, a, b],
        _ => [c, b, a],
    };
    let signs = next(state);
    [
        signed(x, signs & 1 == 1),
        signed(y, signs & 2 == 2),
        signed(z, signs & 4 == 4),
    ]
}

// Rows with a few ids and positions, so that ties go on to the last coordinate.
fn random_rows(
    alloc: Global,
    count: u64,
    coarse: bool,
    state: &mut u64,
) -> Result<Vec<Row>, AllocError> {
    let mut rows = Vec::new(alloc);
    for _ in 0..count {
        let vector = if coarse {
            coarse_vector(state)
        } else {
            any_vector(state)
        };
        let id = (next(state) % 7) as i64 - 3;
        rows.push(row(id, next(state) % 3, vector))?;
    }
    Ok(rows)
}

// No distance, a radius of three arcseconds, larger ones, and more than any distance.
const RADII: [u64; 7] = [
    0,
    211_527_936,
    10_000_000_000_000_000,
    400_000_000_000_000_000,
    800_000_000_000_000_000,
    4_000_000_000_000_000_000,
    18_446_744_073_709_551_615,
];

#[test]
fn ties_go_by_id_then_position(rt: HostRuntime) -> Result<(), Fail> {
    let from = row(1, 0, V);
    let cases = [
        ([(9, 3), (4, 3)], (4, 3)),
        ([(4, 3), (9, 3)], (4, 3)),
        ([(4, 5), (4, 3)], (4, 3)),
        ([(4, 3), (4, 5)], (4, 3)),
        ([(9, 3), (4, 5)], (4, 5)),
        ([(4, 5), (9, 3)], (4, 5)),
        ([(-4, 5), (4, 3)], (-4, 5)),
    ];
    for ([a, b], (id, hp)) in cases {
        let tree = tree_of(rt.alloc(), &[row(a.0, a.1, V), row(b.0, b.1, V)])?;
        let expected = Near {
            chord2: 0,
            row: row(id, hp, V),
        };
        assert_eq!(&rt; nearest(&tree, &from, 0), Some(expected), "{a:?} {b:?}");
    }
    Ok(())
}

#[test]
fn ties_go_by_the_vector(rt: HostRuntime) -> Result<(), Fail> {
    let rows = [
        row(4, 3, [0, 600_000_000, 800_000_000]),
        row(4, 3, [0, 600_000_000, -800_000_000]),
        row(4, 3, [0, -600_000_000, 800_000_000]),
    ];
    let tree = tree_of(rt.alloc(), &rows)?;
    let expected = Near {
        chord2: 2_000_000_000_000_000_000,
        row: rows[2],
    };
    let found = nearest(&tree, &row(1, 0, V), 2_000_000_000_000_000_000);
    assert_eq!(&rt; found, Some(expected));
    Ok(())
}

#[test]
fn radius_is_met_exactly(rt: HostRuntime) -> Result<(), Fail> {
    let from = row(1, 0, V);
    let far = row(2, 5, [-1_000_000_000, 0, 0]);
    let tree = tree_of(rt.alloc(), &[far])?;
    let expected = Near {
        chord2: 4_000_000_000_000_000_000,
        row: far,
    };
    assert_eq!(&rt;
        nearest(&tree, &from, 4_000_000_000_000_000_000),
        Some(expected)
    );
    assert_eq!(&rt; nearest(&tree, &from, 3_999_999_999_999_999_999), None);
    assert_eq!(&rt; nearest(&tree, &from, 3_999_999_996_000_000_001), None);
    Ok(())
}

#[test]
fn no_rows(rt: HostRuntime) -> Result<(), Fail> {
    let tree = tree_of(rt.alloc(), &[])?;
    assert_eq!(&rt;
        nearest(&tree, &row(1, 0, V), 18_446_744_073_709_551_615),
        None
    );
    Ok(())
}

#[test]
fn equal_rows(rt: HostRuntime) -> Result<(), Fail> {
    let alloc = rt.alloc();
    let rows = vec![in alloc; row(4, 3, V); 1000]?;
    let origins = [row(1, 0, V), row(1, 0, [600_000_000, 0, 800_000_000])];
    check(&rt, alloc, &rows, &origins, &RADII)?;
    Ok(())
}

#[test]
fn rows_on_a_great_circle_and_at_the_poles(rt: HostRuntime) -> Result<(), Fail> {
    let alloc = rt.alloc();
    let mut state = 1;
    let mut rows = Vec::new(alloc);
    for id in 0..500 {
        let x = (next(&mut state) % 1_000_000_001) as i32;
        let y = root(1_000_000_000_000_000_000u64.saturating_sub(squared(x, 0)));
        rows.push(row(id, 0, [x, signed(y, id % 2 == 0), 0]))?;
        rows.push(row(id, 1, [0, 0, signed(1_000_000_000, id % 3 == 0)]))?;
    }
    let origins = [
        row(1, 0, V),
        row(1, 0, [-600_000_000, 800_000_000, 0]),
        row(1, 0, [0, 0, 1_000_000_000]),
        row(1, 0, [0, 0, -1_000_000_000]),
        row(1, 0, [0, 600_000_000, 800_000_000]),
    ];
    check(&rt, alloc, &rows, &origins, &RADII)?;
    Ok(())
}

#[test]
fn trees_of_few_rows(rt: HostRuntime) -> Result<(), Fail> {
    let alloc = rt.alloc();
    let mut state = 2;
    for count in 1..60 {
        let rows = random_rows(alloc, count, count % 2 == 0, &mut state)?;
        check(&rt, alloc, &rows, &rows, &RADII)?;
    }
    Ok(())
}

#[test]
fn random_rows_against_a_loop(rt: HostRuntime) -> Result<(), Fail> {
    let alloc = rt.alloc();
    let mut state = 3;
    let rows = random_rows(alloc, 3000, false, &mut state)?;
    let origins = random_rows(alloc, 100, false, &mut state)?;
    check(&rt, alloc, &rows, &origins, &RADII)?;
    Ok(())
}

#[test]
fn random_rows_with_many_ties(rt: HostRuntime) -> Result<(), Fail> {
    let alloc = rt.alloc();
    let mut state = 4;
    let rows = random_rows(alloc, 3000, true, &mut state)?;
    let origins = random_rows(alloc, 100, true, &mut state)?;
    check(&rt, alloc, &rows, &origins, &RADII)?;
    Ok(())
}
