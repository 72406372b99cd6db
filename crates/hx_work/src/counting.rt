//! Rows in order that are counted as a map has it.
ghost use Rattle.std.specs.Prelude.{◌≡◌, ◌≤◌, All, drop, length, take, true};
ghost use Rattle.hx_base.specs.Pixels.{PixelContains};
ghost use Rattle.hx_spill.specs.Values.{AreCountsOf};

use hx_base::{Pixel, Row};
use hx_hist::Hist;

// Whether there are so many rows, and the first of them lie in a pixel.
#[inline]
fn begin_in(rows: &[Row], pixel: Pixel, count: u64) -> bool
    ensures many { result ≡ true → count ≤ length rows.now }
    ensures first { result ≡ true → All (PixelContains pixel) (take count rows.now) }
{
    if count > rows.len() as u64 {
        return false;
    }
    rows[..count as usize].iter().all(|row| pixel.holds(row.hp))
}

// The rows behind the first ones.
#[inline]
fn behind(rows: &[Row], count: u64) -> &[Row]
    requires { count ≤ length rows.now }
    ensures { result.now ≡ drop count rows.now }
{
    &rows[count as usize..]
}

/// Whether rows stand pixel by pixel as a map counts them. Where they ascend that is so exactly where the map is theirs.
pub fn are_counted(map: &Hist, rows: &[Row]) -> bool
    ensures { result ≡ true → AreCountsOf map.now.order rows.now map.now }
{
    let order = map.order();
    let mut rest = rows;
    for pair in map.pairs() {
        let number = pair.pixel;
        if !begin_in(rest, Pixel { order, number }, pair.count) {
            return false;
        }
        rest = behind(rest, pair.count);
    }
    rest.is_empty()
}
