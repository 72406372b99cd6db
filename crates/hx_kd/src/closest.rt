//! What is kept of the rows seen so far: the nearest, with ties by id, position and vector.
ghost use Rattle.std.specs.Prelude.{◌≡◌, ◌++◌, ◌∷◌, ◌≤◌, [], ℕ, List};
ghost use Rattle.std.specs.Ordering.{is_lt};
ghost use Rattle.hx_base.specs.Chords.{chord2_of};
ghost use Rattle.hx_base.specs.Nearest.{tie_cmp};
ghost use Rattle.hx_base.specs.Rows.{IsGood};
ghost use Rattle.hx_base.specs.declared.row.Row.{Row};
ghost use Rattle.hx_kd.specs.Closest.{IsClosestOf, stays};

use hx_base::{Row, chord2, compare_rows};

/// The nearest row so far, and the squared chord beyond which no further row counts: that of the row, or while none
/// is found the square of the radius.
#[derive(Clone, Copy, Debug)]
pub struct Closest {
    pub limit: u64,
    pub found: Option<Row>,
}

// Whether the first of two rows that are as far comes before the other.
fn is_before(a: &Row, b: &Row) -> bool
    ensures { result ≡ is_lt (tie_cmp a.now b.now) }
{
    a.id.cmp(&b.id).then(compare_rows(a, b)).is_lt()
}

// Whether what was found comes before a row that is as far, or is equal to it.
fn stays(found: &Option<Row>, row: &Row) -> bool
    ensures { result ≡ stays found.now row.now }
{
    match found {
        None => false,
        Some(held) => !is_before(row, held),
    }
}

impl Closest {
    /// No row yet, of those within a radius whose square is r2.
    pub fn within(r2: u64) -> Closest
        ensures { (from : Row) → IsClosestOf from r2 [] result }
    {
        Closest {
            limit: r2,
            found: None,
        }
    }

    // Takes a row within the limit, unless the one that was found is as far and stays.
    fn take(&mut self, chord2: u64, row: &Row)
        requires { chord2 ≤ self.old.limit }
        ensures { (from : Row) (r2 : ℕ) (seen : List Row) → chord2 ≡ chord2_of from row.now →
            IsClosestOf from r2 seen self.old → IsClosestOf from r2 (seen ++ row.now ∷ []) self.new }
    {
        if chord2 < self.limit || !stays(&self.found, row) {
            self.limit = chord2;
            self.found = Some(*row);
        }
    }

    /// Looks at a further row.
    pub fn offer(&mut self, from: &Row, row: &Row)
        requires from { IsGood from.now }
        requires row { IsGood row.now }
        ensures { (r2 : ℕ) (seen : List Row) → IsClosestOf from.now r2 seen self.old →
            IsClosestOf from.now r2 (seen ++ row.now ∷ []) self.new }
    {
        let chord2 = chord2(from, row);
        if chord2 <= self.limit {
            self.take(chord2, row);
        }
    }
}
