//! The files of tasks: their names, and how many rows they have.
ghost use Rattle.std.specs.Prelude.{◌≡◌, ◌≤◌, List, IfErr, IfOk, IfSome, IsSome, Ok, length, string_bytes};
ghost use Rattle.hx_align.specs.Plans.{pixels_of};
ghost use Rattle.hx_align.specs.declared.plan.PlanRow.{PlanRow};
ghost use Rattle.hx_base.specs.Limits.{most_partitions};
ghost use Rattle.hx_base.specs.Paths.{path_of};
ghost use Rattle.hx_base.specs.Tasks.{file_of};
ghost use Rattle.hx_base.specs.declared.refusal.Refusal.TheVariants.{Memory};
ghost use Rattle.hx_base.specs.declared.row.Row.{Row};
ghost use Rattle.hx_hist.specs.Histograms.{Histogram, total_of};
ghost use Rattle.hx_journal.specs.Journal.{temporary_file};
ghost use Rattle.hx_rows.specs.Parquet.{parquet_rows};
ghost use Rattle.hx_spill.specs.Maps.{map_in};
ghost use Rattle.hx_spill.specs.Plans.{plan_in};
ghost use Rattle.hx_spill.specs.Splits.{split_in};
ghost use Rattle.hx_spill.specs.declared.split.Placed.{Placed};
ghost use Rattle.hx_book.specs.Recordings.{HasNoRows, IsReadable, of_store, pixel_for};
ghost use Rattle.hx_book.specs.Tasks.{pixel_at};
ghost use Rattle.hx_book.specs.Values.{rows_in_file};

use crate::schedule::PLAN;
use hx_align::Plan;
use hx_base::{JobFile, MOST_PARTITIONS, Name, Pixel, Refusal, Task, job_path};
use hx_outside::StoreError;
use hx_rows::rows_in_parquet;
use hx_spill::{read_plan, rows_in_map, rows_in_split};
use std::alloc::{AllocError, Global};

const NO_PIXEL: Pixel = Pixel {
    order: 0,
    number: 0,
};

// The partition of a number; any where there is none.
fn pixel_at(parts: &[Pixel], number: u32) -> Pixel
    ensures { result ≡ pixel_at parts.now number }
{
    if (number as usize) < parts.len() {
        parts[number as usize]
    } else {
        NO_PIXEL
    }
}

/// The pixel of a partition's own file or of its margin's; any for the other files.
pub(crate) fn pixel_for(parts: &[Pixel], file: JobFile) -> Pixel
    ensures { result ≡ pixel_for parts.now file }
{
    match file {
        JobFile::Part(number) => pixel_at(parts, number),
        JobFile::Margin(number) => pixel_at(parts, number),
        _ => NO_PIXEL,
    }
}

/// The name of a file of the job.
pub(crate) fn file_path(
    alloc: Global,
    name: &Name,
    parts: &[Pixel],
    file: JobFile,
) -> Result<String, AllocError>
    ensures { IfOk result (λ path. string_bytes path ≡ path_of name.now file (pixel_for parts.now file)) }
{
    job_path(alloc, name, file, pixel_for(parts, file))
}

/// The name of the file by way of which others are published.
pub(crate) fn temporary_path(alloc: Global, name: &Name) -> Result<String, AllocError>
    ensures { IfOk result (λ path. string_bytes path ≡ temporary_file name.now) }
{
    let mut path = String::from_str(alloc, name.as_str())?;
    path.push_str(".work/tmp")?;
    Ok(path)
}

/// A store's error as a refusal.
pub(crate) fn of_store(error: StoreError) -> Refusal
    ensures { result ≡ of_store error }
{
    match error {
        StoreError::Failed => Refusal::StoreFault,
        StoreError::Memory => Refusal::Memory,
    }
}

/// What the recording of a task needs.
#[derive(Drop)]
pub(crate) struct Prepared {
    /// The names of its file and of the temporary one.
    pub path: String,
    pub tmp: String,
    /// How many rows its file has, and partitions that of a plan.
    pub rows: u64,
    /// The partitions of a plan.
    pub parts: Vec<Pixel>,
}

// How many rows a file has, and partitions that of a plan.
#[tactic(auto, unfolding(crate::specs::Values::rows_in_file))]
fn rows_in(alloc: Global, file: JobFile, bytes: &[u8]) -> Result<u64, Refusal>
    ensures rows { IfOk result (λ n. IsReadable bytes.now file → n ≡ rows_in_file bytes.now file) }
    ensures none { IfOk result (λ n. HasNoRows file → n ≡ 0) }
    ensures cause { IfErr result (λ r. r ≡ Memory) }
{
    match file {
        JobFile::Map(_) => rows_of_map(bytes),
        JobFile::Plan => plan_rows(alloc, bytes),
        JobFile::Split(_) => rows_of_split(bytes),
        JobFile::Part(_) => parquet_rows(alloc, bytes),
        JobFile::MarginSplit(_) => rows_of_split(bytes),
        JobFile::Margin(_) => parquet_rows(alloc, bytes),
        JobFile::Journal => Ok(0),
        JobFile::List => Ok(0),
        JobFile::MarginList => Ok(0),
        JobFile::MarginProperties => Ok(0),
        JobFile::Properties => Ok(0),
    }
}

// The rows that a map counts.
fn rows_of_map(bytes: &[u8]) -> Result<u64, Refusal>
    ensures rows { IfOk result (λ n. (hist : Histogram) → map_in bytes.now ≡ Ok hist → n ≡ total_of hist.pairs) }
    ensures cause { IfErr result (λ r. r ≡ Memory) }
{
    match rows_in_map(bytes) {
        Ok(rows) => Ok(rows),
        Err(_) => Err(Refusal::Memory),
    }
}

// The rows of a split file.
fn rows_of_split(bytes: &[u8]) -> Result<u64, Refusal>
    ensures rows { IfOk result (λ n. (placed : List Placed) → split_in bytes.now ≡ Ok placed → n ≡ length placed) }
    ensures cause { IfErr result (λ r. r ≡ Memory) }
{
    match rows_in_split(bytes) {
        Ok(rows) => Ok(rows),
        Err(_) => Err(Refusal::Memory),
    }
}

// The partitions of a plan.
fn plan_rows(alloc: Global, bytes: &[u8]) -> Result<u64, Refusal>
    ensures rows { IfOk result (λ n. (plan : List PlanRow) → plan_in bytes.now ≡ Ok plan → n ≡ length plan) }
    ensures cause { IfErr result (λ r. r ≡ Memory) }
{
    match read_plan(alloc, bytes) {
        Ok(plan) => Ok(plan.rows().len() as u64),
        Err(_) => Err(Refusal::Memory),
    }
}

// The rows of a Parquet file, by its footer alone.
fn parquet_rows(alloc: Global, bytes: &[u8]) -> Result<u64, Refusal>
    ensures rows { IfOk result (λ n. (rows : List Row) → parquet_rows bytes.now ≡ Ok rows → n ≡ length rows) }
    ensures cause { IfErr result (λ r. r ≡ Memory) }
{
    match rows_in_parquet(alloc, bytes) {
        Ok(rows) => Ok(rows),
        Err(_) => Err(Refusal::Memory),
    }
}

// The partitions of a plan, none of another file.
fn parts_in(alloc: Global, kind: u8, bytes: &[u8]) -> Result<Vec<Pixel>, Refusal>
    ensures parts { IfOk result (λ parts. kind ≡ 2 → (plan : List PlanRow) → plan_in bytes.now ≡ Ok plan → parts.items ≡ pixels_of plan) }
    ensures few { IfOk result (λ parts. length parts.items ≤ most_partitions) }
    ensures cause { IfErr result (λ r. r ≡ Memory) }
{
    if kind != PLAN {
        return Ok(Vec::new(alloc));
    }
    match read_plan(alloc, bytes) {
        Ok(plan) => Ok(pixels_of(alloc, &plan)?),
        Err(_) => Err(Refusal::Memory),
    }
}

fn pixels_of(alloc: Global, plan: &Plan) -> Result<Vec<Pixel>, AllocError>
    ensures pixels { IfOk result (λ parts. parts.items ≡ pixels_of plan.now) }
    ensures few { IfOk result (λ parts. length parts.items ≤ most_partitions) }
{
    let rows = plan.rows();
    prove!(rows.len() <= MOST_PARTITIONS);
    plan.pixels().to_vec(alloc)
}

/// What the recording of a task needs: it takes all the memory that it asks for.
pub(crate) fn prepare(
    alloc: Global,
    name: &Name,
    parts: &[Pixel],
    task: Task,
    bytes: &[u8],
) -> Result<Prepared, Refusal>
    ensures path { IfOk result (λ p. IfSome (file_of task) (λ file. string_bytes p.path ≡ path_of name.now file (pixel_for parts.now file))) }
    ensures file { IfOk result (λ p. IsSome (file_of task)) }
    ensures tmp { IfOk result (λ p. string_bytes p.tmp ≡ temporary_file name.now) }
    ensures rows { IfOk result (λ p. IfSome (file_of task) (λ file. IsReadable bytes.now file → p.rows ≡ rows_in_file bytes.now file)) }
    ensures no_rows { IfOk result (λ p. IfSome (file_of task) (λ file. HasNoRows file → p.rows ≡ 0)) }
    ensures parts { IfOk result (λ p. task.kind ≡ 2 → (plan : List PlanRow) → plan_in bytes.now ≡ Ok plan → p.parts.items ≡ pixels_of plan) }
    ensures few { IfOk result (λ p. length p.parts.items ≤ most_partitions) }
    ensures cause { IfErr result (λ r. r ≡ Memory) }
{
    let Some(file) = task.file() else {
        return Err(Refusal::Memory);
    };
    let path = file_path(alloc, name, parts, file)?;
    let tmp = temporary_path(alloc, name)?;
    let rows = rows_in(alloc, file, bytes)?;
    let parts = parts_in(alloc, task.kind, bytes)?;
    Ok(Prepared {
        path,
        tmp,
        rows,
        parts,
    })
}
