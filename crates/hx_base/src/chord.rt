ghost use Rattle.std.specs.Prelude.{◌≡◌, ◌≤◌, ◌-ℤ◌, unsigned_abs};
ghost use Rattle.hx_base.specs.Chords.{chord2_of};
ghost use Rattle.hx_base.specs.Rows.{IsGood, square};

use crate::row::Row;

// The square of a difference of two coordinates of good rows.
#[tactic(auto, using(crate::proofs::Chords::square_bound))]
fn squared_gap(a: i32, b: i32) -> u64
    requires a { unsigned_abs a ≤ 1000000001 }
    requires b { unsigned_abs b ≤ 1000000001 }
    ensures value { result ≡ square (a -ℤ b) }
    ensures bound { result ≤ 4000000008000000004 }
{
    let gap = (i64::from(a) - i64::from(b)).unsigned_abs();
    gap * gap
}

/// How far apart two good rows are: the chord between their vectors squared, in 10^-18. It takes no memory.
#[tactic(auto, using(crate::proofs::Chords::x_bound, crate::proofs::Chords::y_bound, crate::proofs::Chords::z_bound))]
pub fn chord2(a: &Row, b: &Row) -> u64
    requires a { IsGood a.now }
    requires b { IsGood b.now }
    ensures { result ≡ chord2_of a.now b.now }
{
    squared_gap(a.x, b.x) + squared_gap(a.y, b.y) + squared_gap(a.z, b.z)
}

#[cfg(test)]
mod tests {
    use super::*;

    fn at(x: i32, y: i32, z: i32) -> Row {
        Row {
            hp: 0,
            id: 1,
            x,
            y,
            z,
        }
    }

    // None where a row isn't good.
    fn squared_chord(a: &Row, b: &Row) -> Option<u64> {
        if a.is_good() && b.is_good() {
            Some(chord2(a, b))
        } else {
            None
        }
    }

    #[test]
    fn squared_chords(rt: HostRuntime) {
        let v = at(1_000_000_000, 0, 0);
        let cases = [
            (v, v, 0),
            (v, at(999_999_999, 0, 0), 1),
            (v, at(-1_000_000_000, 0, 0), 4_000_000_000_000_000_000),
            (
                at(1_000_000_001, 0, 0),
                at(-1_000_000_001, 0, 0),
                4_000_000_008_000_000_004,
            ),
            (v, at(0, 1_000_000_000, 0), 2_000_000_000_000_000_000),
            (v, at(0, 0, -1_000_000_000), 2_000_000_000_000_000_000),
            (v, at(600_000_000, 0, 800_000_000), 800_000_000_000_000_000),
            (
                at(0, 600_000_000, 800_000_000),
                at(0, -600_000_000, 800_000_000),
                1_440_000_000_000_000_000,
            ),
        ];
        for (a, b, expected) in cases {
            assert_eq!(rt; squared_chord(&a, &b), Some(expected), "{a:?} {b:?}");
            assert_eq!(rt; squared_chord(&b, &a), Some(expected), "{b:?} {a:?}");
        }
        assert_eq!(rt; squared_chord(&v, &at(0, 0, 0)), None);
    }
}
