//! Rows for tests.
ghost use Rattle.std.specs.Prelude.{All, IfOk};
ghost use Rattle.hx_base.specs.Rows.{IsGood};

use hx_base::Row;
use std::alloc::{AllocError, Global};

/// The last position.
pub const LAST: u64 = 3458764513820540927;

/// Rows at positions, without those that are no positions.
pub fn rows_at(alloc: Global, positions: &[u64]) -> Result<Vec<Row>, AllocError>
    ensures { IfOk result (λ rows. All IsGood rows.items) }
{
    let mut rows = Vec::new(alloc);
    for position in positions {
        let row = Row {
            hp: *position,
            id: 1,
            x: 0,
            y: -1000000000,
            z: 0,
        };
        if row.is_good() {
            rows.push(row)?;
        }
    }
    Ok(rows)
}

/// The next of a row of numbers below 2^31 that look random.
pub fn next_random(number: u64) -> u64 {
    (number % (1 << 31) * 1103515245 + 12345) % (1 << 31)
}

/// So many positions that look random, among a thousand that lie over the whole sky.
pub fn random_positions(alloc: Global, first: u64, count: usize) -> Result<Vec<u64>, AllocError> {
    let mut number = next_random(first);
    let mut positions = Vec::with_capacity(alloc, count)?;
    for _ in 0..count {
        number = next_random(number);
        positions.push(number / 65536 % 1000 * (LAST / 999))?;
    }
    Ok(positions)
}
