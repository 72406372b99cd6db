//! The margin split and margin reduce tasks.
ghost use Rattle.std.specs.Prelude.{◌≡◌, ◌↔◌, ◌≤◌, Ok, Some, All, IfErr, IfOk, IsTrue, length, slice_get};
ghost use Rattle.hx_base.specs.Limits.{FitsLimits};
ghost use Rattle.hx_base.specs.Pixels.{PixelContains};
ghost use Rattle.hx_base.specs.Rows.{IsGood};
ghost use Rattle.hx_base.specs.declared.refusal.JobFile.TheVariants.{Margin, MarginSplit, Part};
ghost use Rattle.hx_base.specs.declared.refusal.Refusal.TheVariants.{Memory};
ghost use Rattle.hx_book.specs.Books.{job_of};
ghost use Rattle.hx_book.specs.Tasks.{task};
ghost use Rattle.hx_book.specs.Values.{IsFileOf};
ghost use Rattle.hx_import.specs.Given.{GathersAround, IsCutFor};
ghost use Rattle.hx_import.specs.Made.{IsPartRefused, IsUnread};
ghost use Rattle.hx_margin.specs.Around.{AreAround};
ghost use Rattle.hx_rows.specs.Parquet.{parquet_rows};

use crate::tasks::cutting::Cut;
use crate::tasks::damaged;
use hx_base::{JobFile, MOST_ROWS, Pixel, Refusal, Row, Settings, partitions_of_rows};
use hx_book::Job;
use hx_catalog::{ascend, damaged_at};
use hx_margin::{margin_split, parts_around};
use hx_rows::{RowRefusal, read_rows};
use hx_work::reduce_task;
use std::alloc::{AllocError, Global};

// Whether a pixel contains all rows.
fn contains_all(pixel: Pixel, rows: &[Row]) -> bool
    ensures { IsTrue result ↔ All (PixelContains pixel) rows.now }
{
    rows.iter().all(|row| pixel.holds(row.hp))
}

// The rows of a Parquet file of a partition.
#[tactic(auto, unfolding(hx_rows::specs::Reading::rows_of))]
fn rows_in_file<J: Job>(alloc: Global, bytes: &[u8], number: u32) -> Result<Vec<Row>, Refusal>
    requires file { J.of.premises → IsFileOf (job_of J.of) bytes.now (Part number) }
    ensures rows { IfOk result (λ rows. parquet_rows bytes.now ≡ Ok rows.items) }
    ensures good { IfOk result (λ rows. All IsGood rows.items) }
    ensures place { IfErr result (IsPartRefused number bytes.now) }
    ensures cause { IfErr result (IsUnread J.of) }
{
    match read_rows(alloc, ".parquet", bytes) {
        Ok(rows) => Ok(rows),
        Err(RowRefusal::Memory) => Err(Refusal::Memory),
        Err(RowRefusal::Bad { .. }) => {
            let place = damaged_at(alloc, bytes)?;
            Err(damaged(JobFile::Part(number), place))
        }
    }
}

/// The file of the margin split task of a partition, by the partition's file and the job's partitions. `part` is the
/// partition's pixel.
///
/// # Errors
///
/// `Damaged`, which under the premises never comes, where the file has no rows, or rows that the partition doesn't contain
/// or that don't ascend: at the place of a Thrift fault, else at 0. `Memory`.
pub fn margin_split_file<J: Job>(
    alloc: Global,
    bytes: &[u8],
    number: u32,
    part: Pixel,
    settings: &Settings,
    cut: &Cut,
) -> Result<Vec<u8>, Refusal>
    requires settings { settings.now ≡ J.of.settings }
    requires fits { FitsLimits settings.now }
    requires file { J.of.premises → IsFileOf (job_of J.of) bytes.now (Part number) }
    requires cut { IsCutFor J.of cut.now.plan cut.now.tree }
    requires part { slice_get cut.now.tree number ≡ Some part }
    ensures value { IfOk result (λ file. J.of.premises → IsFileOf (job_of J.of) file.items (MarginSplit number)) }
    ensures place { IfErr result (IsPartRefused number bytes.now) }
    ensures cause { IfErr result (IsUnread J.of) }
{
    let rows = rows_in_file::<J>(alloc, bytes, number)?;
    if !contains_all(part, &rows) {
        return Err(damaged(JobFile::Part(number), 0));
    }
    if !ascend(&rows) {
        return Err(damaged(JobFile::Part(number), 0));
    }
    let file = margin_split(alloc, &rows, number, &cut.tree, settings.margin_order)?;
    Ok(file)
}

/// The numbers of the partitions whose margin split files may have rows of a partition's margin, ascending.
///
/// # Errors
///
/// Want of memory.
pub fn numbers_around(
    alloc: Global,
    cut: &Cut,
    number: u32,
    part: Pixel,
) -> Result<Vec<u32>, AllocError>
    requires part { slice_get cut.now.tree number ≡ Some part }
    ensures { IfOk result (λ numbers. AreAround cut.now.tree part numbers.items) }
{
    let _parts = cut.tree.parts();
    parts_around(alloc, &cut.tree, part)
}

/// The file of the margin reduce task of a partition, by what the partitions around it have of its margin. `numbers` are
/// those of these partitions, and `part` is the partition's pixel.
///
/// # Errors
///
/// `Memory`, also where there are more rows than a file may have.
pub fn margin_file<J: Job>(
    alloc: Global,
    rows: Vec<Row>,
    numbers: &[u32],
    number: u32,
    part: Pixel,
    cut: &Cut,
) -> Result<Vec<u8>, Refusal>
    requires fits { FitsLimits J.of.settings }
    requires good { All IsGood rows.items }
    requires cut { IsCutFor J.of cut.now.plan cut.now.tree }
    requires part { slice_get cut.now.tree number ≡ Some part }
    requires around { AreAround cut.now.tree part numbers.now }
    requires gathered { J.of.premises → GathersAround (job_of J.of) number numbers.now rows.items }
    ensures value { IfOk result (λ file. J.of.premises → IsFileOf (job_of J.of) file.items (Margin number)) }
    ensures cause { IfErr result (λ r. r ≡ Memory) }
{
    partitions_of_rows();
    if rows.len() as u64 > MOST_ROWS {
        return Err(Refusal::Memory);
    }
    match reduce_task(alloc, rows) {
        Ok(file) => Ok(file),
        Err(_) => Err(Refusal::Memory),
    }
}
