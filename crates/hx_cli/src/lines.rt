//! The text of a histogram.
ghost use Rattle.std.specs.Prelude.{◌≡◌, ◌+◌, ◌*◌, ◌/◌, ◌≤◌, ◌++◌, IfOk, OnOk};
ghost use Rattle.std.specs.List.{flat_map};
ghost use Rattle.hx_hist.specs.Histograms.{IsHistogram};
ghost use Rattle.hx_cli.specs.Histograms.{line_of};

use hx_hist::{Hist, Pair};
use itoa::write_digits;
use std::alloc::{AllocError, Global};

// Two numbers of at most 20 digits, the comma and the newline.
const LONGEST_LINE: usize = 42;

// The bytes of a line of this order, at a count of one digit: a pixel has 2 + 3 * order / 5 digits at most.
fn usual_length(order: u8) -> usize
    requires { order ≤ 29 }
    ensures { result ≡ order * 3 / 5 + 5 }
{
    usize::from(order) * 3 / 5 + 5
}

fn push_line(text: &mut Vec<u8>, pair: Pair) -> Result<(), AllocError>
    ensures { OnOk result (text.new.items ≡ text.old.items ++ line_of pair.pixel pair.count) }
{
    let mut line = [0; LONGEST_LINE];
    line[LONGEST_LINE - 1] = b'\n';
    let comma = write_digits(pair.count, &mut line, LONGEST_LINE - 1) - 1;
    line[comma] = b',';
    let start = write_digits(pair.pixel, &mut line, comma);
    text.extend_from_slice(&line[start..])?;
    Ok(())
}

/// A line `pixel,count` for each pixel of a histogram.
pub fn lines_of(alloc: Global, hist: &Hist) -> Result<Vec<u8>, AllocError>
    ensures lines { IfOk result (λ text. text.items ≡ flat_map (λ pair. line_of pair.pixel pair.count) hist.now.pairs) }
    ensures histogram { IsHistogram hist.now.order hist.now.pairs }
{
    let pairs = hist.pairs();
    let room = pairs.len().saturating_mul(usual_length(hist.order()));
    let mut text = Vec::with_capacity(alloc, room)?;
    for pair in pairs {
        push_line(&mut text, *pair)?;
    }
    Ok(text)
}
