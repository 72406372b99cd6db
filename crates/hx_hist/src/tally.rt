//! Counts of the rows of many inputs.
ghost use Rattle.std.specs.Prelude.{◌≡◌, ◌+◌, ◌*◌, ◌^◌, ◌<◌, ◌≤◌, ℕ, All, IfOk, OnOk, length};
ghost use Rattle.hx_base.specs.Pixels.{count_in};
ghost use Rattle.hx_base.specs.Rows.{IsGood};
ghost use Rattle.hx_hist.specs.Histograms.{count_at, total_of};

mod lists;
#[cfg(test)]
mod tests;

use crate::Hist;
use crate::counting::{count_into, count_rows, hist_of_table, zeros};
use hx_base::{Row, pixels_of_order};
use lists::{merge_all, push_merged};
use std::alloc::{AllocError, Global};
use std::marker::Model;

/// Up to this order a tally has a table of all pixels, of at most 6 MiB.
const TABLE_ORDER: u8 = 8;

// How many pixels the table of an order has, 0 where there is none.
fn table_size(order: u8) -> usize
    requires { order ≤ 29 }
    ensures { 0 < result → result ≡ 12 * 4 ^ order }
{
    if order <= TABLE_ORDER {
        pixels_of_order(order) as usize
    } else {
        0
    }
}

/// How many rows each pixel of an order contains, of many inputs together. Up to order 8 an input takes time near its
/// number of rows. Above, all inputs together take time near the sum of their rows times its logarithm.
#[derive(Drop)]
pub struct Tally {
    order: u8,
    // The count of each pixel of the order, or nothing where the order has too many.
    table: Vec<u64>,
    // Where there is no table, the counts so far, of which those of like size are merged.
    hists: Vec<Hist>,
}

impl Model for Tally {
    ghost use Rattle.hx_hist.specs.Tallies as Tallies;

    ghost Value = { Tallies.Counted };

    ghost view = { λ tally. record { order = tally.order; pairs = Tallies.pairs_of tally.table.items tally.hists.items } };

    ghost invariant = { λ tally. Tallies.IsTally tally.order tally.table.items tally.hists.items };
}

impl Tally {
    /// A tally of no rows. The order is at most 29.
    pub fn new(alloc: Global, order: u8) -> Result<Tally, AllocError>
        requires { order ≤ 29 }
        ensures order { IfOk result (λ tally. tally.order ≡ order) }
        ensures counts { IfOk result (λ tally. (p : ℕ) → count_at p tally.pairs ≡ 0) }
        ensures total { IfOk result (λ tally. total_of tally.pairs ≡ 0) }
    {
        let table = zeros(alloc, table_size(order))?;
        Ok(Tally {
            order,
            table,
            hists: Vec::new(alloc),
        })
    }

    pub fn order(&self) -> u8
        ensures value { result ≡ self.now.order }
        ensures range { result ≤ 29 }
    {
        self.order
    }

    /// Counts the rows of an input. A tally that lacked memory for it is spent, and only dropped.
    pub fn add_rows(&mut self, rows: &[Row]) -> Result<(), AllocError>
        requires good { All IsGood rows.now }
        requires room { total_of self.old.pairs + length rows.now < 2 ^ 64 }

        ensures order { self.new.order ≡ self.old.order }
        ensures counts { OnOk result ((p : ℕ) → count_at p self.new.pairs
            ≡ count_at p self.old.pairs + count_in (record { order = self.old.order; number = p }) rows.now) }
        ensures total { OnOk result (total_of self.new.pairs ≡ total_of self.old.pairs + length rows.now) }
    {
        if self.table.is_empty() {
            let alloc = *self.hists.allocator();
            let hist = count_rows(alloc, self.order, rows)?;
            push_merged(&mut self.hists, hist)?;
        } else {
            count_into(&mut self.table, self.order, rows);
        }
        Ok(())
    }

    /// The counts of all inputs as one histogram.
    pub fn into_hist(self) -> Result<Hist, AllocError>
        ensures order { IfOk result (λ hist. hist.order ≡ self.order) }
        ensures counts { IfOk result (λ hist. (p : ℕ) → count_at p hist.pairs ≡ count_at p self.pairs) }
        ensures total { IfOk result (λ hist. total_of hist.pairs ≡ total_of self.pairs) }
    {
        let alloc = *self.hists.allocator();
        if self.table.is_empty() {
            merge_all(alloc, self.order, self.hists)
        } else {
            hist_of_table(alloc, self.order, &self.table)
        }
    }
}
