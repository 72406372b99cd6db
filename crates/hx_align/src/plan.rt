//! Lists of partitions.
ghost use Rattle.std.specs.Prelude.{◌≡◌, ◌↔◌, All, IfOk, IfSome, IsSome, IsTrue};
ghost use Rattle.hx_align.specs.Plans.{IsPlan, IsPlanRow, pixels_of};

use hx_base::{HIGHEST_ORDER, MOST_IN_PARTITION, MOST_PARTITIONS, Pixel, are_disjoint_in_order};
use std::alloc::{AllocError, Global};
use std::marker::Model;

/// A partition, and how many rows it contains.
#[derive(Clone, Copy, Debug, PartialEq, Eq)]
pub struct PlanRow {
    pub pixel: Pixel,
    pub count: u64,
}

impl PlanRow {
    // Whether the pixel's order is at most 20 and the count from 1 to 1000000.
    fn fits(&self) -> bool
        ensures { IsTrue result ↔ IsPlanRow self.now }
    {
        self.pixel.order <= HIGHEST_ORDER && 1 <= self.count && self.count <= MOST_IN_PARTITION
    }
}

/// The partitions of a catalogue, by their first positions: at most 100000 pixels of orders up to 20, of which no two
/// share a position, with 1 to 1000000 rows each. It is seen as the list of its rows.
#[derive(Drop)]
pub struct Plan {
    rows: Vec<PlanRow>,
    pixels: Vec<Pixel>,
}

impl Model for Plan {
    ghost use Rattle.std.specs.Prelude.{List};
    ghost use Rattle.hx_align.specs.declared.plan.PlanRow as row;
    ghost use Rattle.hx_align.specs.Plans as Plans;

    ghost Value = { List row.PlanRow };

    ghost view = { λ plan. plan.rows.items };

    ghost invariant = { λ plan. Plans.AreKept plan.rows.items plan.pixels.items };
}

fn pixels_of(alloc: Global, rows: &[PlanRow]) -> Result<Vec<Pixel>, AllocError>
    ensures { IfOk result (λ pixels. pixels.items ≡ pixels_of rows.now) }
{
    rows.iter().map(|row| row.pixel).collect(alloc)
}

fn all_fit(rows: &[PlanRow]) -> bool
    ensures { IsTrue result ↔ All IsPlanRow rows.now }
{
    rows.iter().all(|row| row.fits())
}

// Whether rows are a plan, by their pixels.
fn is_plan(rows: &[PlanRow], pixels: &[Pixel]) -> bool
    requires { pixels.now ≡ pixels_of rows.now }
    ensures { IsTrue result ↔ IsPlan rows.now }
{
    rows.len() <= MOST_PARTITIONS && all_fit(rows) && are_disjoint_in_order(pixels)
}

impl Plan {
    /// The plan of rows that are one.
    pub fn new(alloc: Global, rows: Vec<PlanRow>) -> Result<Plan, AllocError>
        requires { IsPlan rows.items }
        ensures { IfOk result (λ plan. plan ≡ rows.items) }
    {
        let pixels = pixels_of(alloc, &rows)?;
        Ok(Plan { rows, pixels })
    }

    /// The plan of rows, or None exactly where they aren't one.
    pub fn checked(alloc: Global, rows: Vec<PlanRow>) -> Result<Option<Plan>, AllocError>
        ensures rule { IfOk result (λ plan. IsSome plan ↔ IsPlan rows.items) }
        ensures rows { IfOk result (λ plan. IfSome plan (λ kept. kept ≡ rows.items)) }
    {
        let pixels = pixels_of(alloc, &rows)?;
        if !is_plan(&rows, &pixels) {
            return Ok(None);
        }
        Ok(Some(Plan { rows, pixels }))
    }

    /// The partitions in their order.
    pub fn rows(&self) -> &[PlanRow]
        ensures rows { result.now ≡ self.now }
        ensures plan { IsPlan self.now }
    {
        self.rows.as_slice()
    }

    /// The partitions' pixels in their order.
    pub fn pixels(&self) -> &[Pixel]
        ensures { result.now ≡ pixels_of self.now }
    {
        self.pixels.as_slice()
    }
}
