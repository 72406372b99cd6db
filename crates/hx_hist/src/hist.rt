//! Counts of rows by pixel.
ghost use Rattle.std.specs.Prelude.{◌≡◌, ◌↔◌, ◌==◌, ◌+◌, ◌*◌, ◌^◌, ◌<◌, ◌≤◌, ◌∷◌, ◌++◌, ℕ, [], All, if◌then◌else◌, IfOk, IfNone, IfSome, IsNone, OnOk, OnErr};
ghost use Rattle.hx_hist.specs.Histograms.{count_at, total_of, total_in, IsHistogram};
ghost use Rattle.hx_hist.specs.Differences.{IsFirstDifference};

mod children;
mod difference;
mod index;
mod merging;
#[cfg(test)]
mod tests;

use children::total_of_children;
pub use difference::Difference;
use difference::{common_pairs, count_from, least_from};
use hx_base::Pixel;
use index::add_to;
use merging::merged;
use std::alloc::{AllocError, Global};
use std::marker::Model;

/// A pixel of a histogram's order, and how many rows it contains.
#[derive(Clone, Copy, Debug, PartialEq, Eq)]
pub struct Pair {
    pub pixel: u64,
    pub count: u64,
}

/// How many rows each pixel of an order contains. Its pairs ascend by pixel, and no count is 0.
#[derive(Drop)]
pub struct Hist {
    order: u8,
    pairs: Vec<Pair>,
}

impl Model for Hist {
    ghost use Rattle.hx_hist.specs.Histograms as Histograms;

    ghost Value = { Histograms.Histogram };

    ghost view = { λ hist. record { order = hist.order; pairs = hist.pairs.items } };

    ghost invariant = { λ hist. Histograms.IsKept hist.order hist.pairs.items };
}

impl Hist {
    /// A histogram of no rows. The order is at most 29.
    pub fn new(alloc: Global, order: u8) -> Hist
        requires { order ≤ 29 }
        ensures { result ≡ record { order = order; pairs = [] } }
    {
        Hist {
            order,
            pairs: Vec::new(alloc),
        }
    }

    /// A histogram of no rows, with memory for pairs of this many pixels.
    pub fn with_capacity(alloc: Global, order: u8, pixels: usize) -> Result<Hist, AllocError>
        requires { order ≤ 29 }
        ensures { IfOk result (λ hist. hist ≡ record { order = order; pairs = [] }) }
    {
        let pairs = Vec::with_capacity(alloc, pixels)?;
        Ok(Hist { order, pairs })
    }

    pub fn order(&self) -> u8
        ensures value { result ≡ self.now.order }
        ensures range { result ≤ 29 }
    {
        self.order
    }

    /// The pixels that contain rows, ascending, with their counts.
    pub fn pairs(&self) -> &[Pair]
        ensures pairs { result.now ≡ self.now.pairs }
        ensures histogram { IsHistogram self.now.order self.now.pairs }
        ensures total { total_of self.now.pairs < 2 ^ 64 }
    {
        self.pairs.as_slice()
    }

    /// Counts rows of a pixel. A pixel at or after the last one takes constant time.
    pub fn add(&mut self, pixel: u64, count: u64) -> Result<(), AllocError>
        requires pixel { pixel < 12 * 4 ^ self.old.order }
        requires total { total_of self.old.pairs + count < 2 ^ 64 }

        ensures order { self.new.order ≡ self.old.order }
        ensures counts { OnOk result ((p : ℕ) → count_at p self.new.pairs ≡ count_at p self.old.pairs + (if p == pixel then count else 0)) }
        ensures total { OnOk result (total_of self.new.pairs ≡ total_of self.old.pairs + count) }
        ensures err { OnErr result (self.new ≡ self.old) }
    {
        if count == 0 {
            return Ok(());
        }
        add_to(&mut self.pairs, pixel, count)
    }

    /// Puts a pair behind all others, in constant time.
    pub fn push(&mut self, pair: Pair) -> Result<(), AllocError>
        requires below { All (λ other. other.pixel < pair.pixel) self.old.pairs }
        requires some { 0 < pair.count }
        requires pixel { pair.pixel < 12 * 4 ^ self.old.order }
        requires total { total_of self.old.pairs + pair.count < 2 ^ 64 }

        ensures order { self.new.order ≡ self.old.order }
        ensures pairs { OnOk result (self.new.pairs ≡ self.old.pairs ++ pair ∷ []) }
        ensures err { OnErr result (self.new ≡ self.old) }
    {
        self.pairs.push(pair)?;
        Ok(())
    }

    /// Counts the rows of another histogram of the order too, in one pass over both.
    pub fn merge(&mut self, other: &Hist) -> Result<(), AllocError>
        requires order { self.old.order ≡ other.now.order }
        requires total { total_of self.old.pairs + total_of other.now.pairs < 2 ^ 64 }

        ensures order { self.new.order ≡ self.old.order }
        ensures counts { OnOk result ((p : ℕ) → count_at p self.new.pairs ≡ count_at p self.old.pairs + count_at p other.now.pairs) }
        ensures total { OnOk result (total_of self.new.pairs ≡ total_of self.old.pairs + total_of other.now.pairs) }
        ensures err { OnErr result (self.new ≡ self.old) }
    {
        let alloc = *self.pairs.allocator();
        *self = merged(alloc, self.order(), self.pairs(), other.pairs())?;
        Ok(())
    }

    /// How many rows a pixel of this order or a lower one contains. It takes no memory.
    pub fn total_in(&self, pixel: Pixel) -> u64
        requires order { pixel.order ≤ self.now.order }
        requires number { pixel.number < 12 * 4 ^ pixel.order }
        ensures { result ≡ total_in pixel self.now.order self.now.pairs }
    {
        let steps = self.order() - pixel.order;
        total_of_children(self.pairs(), steps, pixel.number)
    }

    /// The least pixel that this histogram and another of its order count differently, with both counts. It takes no
    /// memory, and looks once at each pair.
    pub fn first_difference(&self, other: &Hist) -> Option<Difference>
        requires order { self.now.order ≡ other.now.order }
        ensures none { IsNone result ↔ ((p : ℕ) → count_at p self.now.pairs ≡ count_at p other.now.pairs) }
        ensures same { IfNone result (self.now.pairs ≡ other.now.pairs) }
        ensures first { IfSome result (IsFirstDifference self.now.pairs other.now.pairs) }
    {
        let kept = self.pairs();
        let found = other.pairs();
        let index = common_pairs(kept, found);
        let pixel = least_from(kept, found, index)?;
        Some(Difference {
            pixel,
            kept: count_from(kept, index, pixel),
            found: count_from(found, index, pixel),
        })
    }
}
