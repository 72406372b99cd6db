//! The file of a plan task: partitions.
ghost use Rattle.std.specs.Prelude.{◌≡◌, ◌&&◌, ◌+◌, ◌*◌, ◌^◌, ◌≤◌, ◌++◌, IfOk, IfErr, List, Ok, OnOk, length, nat_le, nat_lt};
ghost use Rattle.std.specs.List.{flat_map};
ghost use Rattle.hx_base.specs.Pixels.{IsPixel, end_position, first_position};
ghost use Rattle.hx_align.specs.Plans.{IsPlanRow};
ghost use Rattle.hx_align.specs.declared.plan.PlanRow.{PlanRow};
ghost use Rattle.hx_spill.specs.Items.{Gives, Refuses, each};
ghost use Rattle.hx_spill.specs.Plans.{HaveRead, bytes_of_plan, bytes_of_row, plan_in, row_at, row_behind};

use crate::items::{ended, kept, mark, push, u32_at, u64_at};
use crate::writing::{push_u32, push_u64};
use hx_align::{Plan, PlanRow};
use hx_base::{
    HIGHEST_ORDER, MOST_IN_PARTITION, MOST_PARTITIONS, Pixel, SpillRefusal, ranges_of_pixels,
};
use std::alloc::{AllocError, Global};

const MARK: [u8; 4] = *b"HXP1";

const HEAD_WIDTH: usize = 12;

const ROW_WIDTH: usize = 20;

// Whether a pixel of the order begins at a position or behind it.
#[inline]
fn may_come(pixel: Pixel, least: u64) -> bool
    requires { pixel.order ≤ 20 }
    ensures { result ≡ (nat_lt pixel.number (12 * 4 ^ pixel.order) && nat_le least (first_position pixel)) }
{
    pixel.exists() && least <= pixel.first_position()
}

#[inline]
fn is_count(count: u64) -> bool
    ensures { result ≡ (nat_le 1 count && nat_le count 1000000) }
{
    1 <= count && count <= MOST_IN_PARTITION
}

// A row at a place, whose pixel begins at a position or behind it.
#[inline]
#[tactic(auto, unfolding(crate::specs::Plans::row_at))]
fn row_at(bytes: &[u8], at: usize, least: u64) -> Result<PlanRow, SpillRefusal>
    requires within { at ≤ length bytes.now }
    ensures value { result ≡ row_at (λ position. nat_le least position) at bytes.now }
    ensures there { OnOk result (at + 20 ≤ length bytes.now) }
    ensures exists { IfOk result (λ row. IsPixel row.pixel) }
    ensures fits { IfOk result IsPlanRow }
    ensures least { IfOk result (λ row. least ≤ first_position row.pixel) }
{
    let order = u32_at(bytes, at)?;
    let order = kept(order <= u32::from(HIGHEST_ORDER), order, at)?;
    let number = u64_at(bytes, at + 4)?;
    let pixel = Pixel {
        order: order as u8,
        number,
    };
    let number = kept(may_come(pixel, least), number, at + 4)?;
    let count = u64_at(bytes, at + 12)?;
    let count = kept(is_count(count), count, at + 12)?;
    Ok(PlanRow {
        pixel: Pixel { number, ..pixel },
        count,
    })
}

/// Rows of a plan, and the place behind them.
#[derive(Drop)]
struct Rows {
    rows: Vec<PlanRow>,
    at: usize,
}

fn read_rows(alloc: Global, bytes: &[u8], n: u64) -> Result<Rows, SpillRefusal>
    requires head { 12 ≤ length bytes.now }
    ensures read { IfOk result (λ found. HaveRead n bytes.now found.rows.items found.at) }
    ensures refused { IfErr result (λ refused. Refuses refused (each n (row_behind bytes.now))) }
{
    let room = n.min((bytes.len() / ROW_WIDTH) as u64) as usize;
    let mut rows = Vec::with_capacity(alloc, room)?;
    let mut least = 0;
    let mut at = HEAD_WIDTH;
    for index in 0..n {
        let row = row_at(bytes, at, least)?;
        least = row.pixel.end_position();
        push(&mut rows, row)?;
        at += ROW_WIDTH;
    }
    Ok(Rows { rows, at })
}

/// The plan of a plan file. It is damaged where it isn't a mark, a number of at most 100000 rows and these rows, by
/// pixels of orders up to 20 that are disjoint and in order, with counts from 1 to 1000000.
#[tactic(auto, unfolding(crate::specs::Plans::plan_in))]
pub fn read_plan(alloc: Global, bytes: &[u8]) -> Result<Plan, SpillRefusal>
    ensures { Gives (λ (plan : List PlanRow). plan) result (plan_in bytes.now) }
{
    mark(&MARK, bytes)?;
    let n = u64_at(bytes, 4)?;
    let n = kept(n <= MOST_PARTITIONS as u64, n, 4)?;
    let Rows { rows, at } = read_rows(alloc, bytes, n)?;
    ended(bytes, at as u64)?;
    ranges_of_pixels();
    Ok(Plan::new(alloc, rows)?)
}

#[inline]
fn push_row(bytes: &mut Vec<u8>, row: PlanRow) -> Result<(), AllocError>
    ensures { OnOk result (bytes.new.items ≡ bytes.old.items ++ bytes_of_row row) }
{
    push_u32(bytes, u32::from(row.pixel.order))?;
    push_u64(bytes, row.pixel.number)?;
    push_u64(bytes, row.count)
}

fn push_rows(bytes: &mut Vec<u8>, rows: &[PlanRow]) -> Result<(), AllocError>
    ensures { OnOk result (bytes.new.items ≡ bytes.old.items ++ flat_map bytes_of_row rows.now) }
{
    for row in rows {
        push_row(bytes, *row)?;
    }
    Ok(())
}

/// The file of a plan, which reads back as it.
pub fn plan_bytes(alloc: Global, plan: &Plan) -> Result<Vec<u8>, AllocError>
    ensures bytes { IfOk result (λ bytes. bytes.items ≡ bytes_of_plan plan.now) }
    ensures reads_back { IfOk result (λ bytes. plan_in bytes.items ≡ Ok plan.now) }
{
    ranges_of_pixels();
    let rows = plan.rows();
    let size = rows.len() * ROW_WIDTH + HEAD_WIDTH;
    let mut bytes = Vec::with_capacity(alloc, size)?;
    bytes.extend_from_slice(&MARK)?;
    push_u64(&mut bytes, rows.len() as u64)?;
    push_rows(&mut bytes, rows)?;
    Ok(bytes)
}
