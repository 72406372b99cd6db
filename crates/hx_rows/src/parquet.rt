ghost use Rattle.std.specs.Prelude.{◌≡◌, ◌↔◌, ◌≤◌, ◌<◌, ◌∷◌, [], ℕ, ℤ, IfErr, IfOk, Err, List, Ok, length, map, slice_get, string_bytes};
ghost use Rattle.std.specs.List.{range_with_len};
ghost use Rattle.hx_base.specs.Columns.{column_names, row_of};
ghost use Rattle.hx_base.specs.declared.row.Row.{Row};
ghost use Rattle.hx_pqmeta.specs.Refusals.{AnswersOrWants};
ghost use Rattle.hx_pqread.specs.Columns.{HaveRows, columns_in};
ghost use Rattle.hx_rows.specs.Parquet.{file_fault, parquet_rows, row_across, rows_of_columns};
ghost use Rattle.hx_rows.specs.Reading.{Reads, Tells};
ghost use Rattle.hx_rows.specs.Rows.{in_row, rows_from};

use crate::fault::Fault;
use crate::read::RowRefusal;
use crate::rows::push_row;
use hx_base::{Row, column_names, row_of};
use hx_pqmeta::PqRefusal;
use hx_pqread::{Columns, columns, rows_in_footer};
use std::alloc::{AllocError, Global};

// The value of a column in a row that it has.
#[inline]
fn value_at(column: &[i64], row: usize) -> Option<i64>
    requires { row < length column.now }
    ensures { result ≡ slice_get column.now row }
{
    Some(column[row])
}

// The row of these values, or the first of its faults.
#[inline]
fn row_across(
    hp: Option<i64>,
    id: Option<i64>,
    x: Option<i64>,
    y: Option<i64>,
    z: Option<i64>,
) -> Result<Row, Fault>
    ensures { result ≡ in_row (row_of (hp ∷ id ∷ x ∷ y ∷ z ∷ [])) }
{
    Ok(row_of(hp, id, x, y, z)?)
}

// The rows of five columns, which have equally many values.
fn rows_across(
    alloc: Global,
    hps: &[i64],
    ids: &[i64],
    xs: &[i64],
    ys: &[i64],
    zs: &[i64],
) -> Result<Vec<Row>, RowRefusal>
    requires ids { length ids.now ≡ length hps.now }
    requires xs { length xs.now ≡ length hps.now }
    requires ys { length ys.now ≡ length hps.now }
    requires zs { length zs.now ≡ length hps.now }
    ensures { Reads result (rows_from (row_across (hps.now ∷ ids.now ∷ xs.now ∷ ys.now ∷ zs.now ∷ [])) 1 (range_with_len 0 (length hps.now))) }
{
    let mut rows = Vec::new(alloc);
    rows.reserve_exact(hps.len())?;
    for i in 0..hps.len() {
        let row = row_across(
            value_at(hps, i),
            value_at(ids, i),
            value_at(xs, i),
            value_at(ys, i),
            value_at(zs, i),
        );
        push_row(&mut rows, i as u64 + 1, row)?;
    }
    Ok(rows)
}

/// The rows of a file's columns, of which the first five are a row's (`column_names` of hx_base) and which have equally
/// many values; or the first fault of a row.
#[tactic(auto, unfolding(crate::specs::Parquet::rows_of_columns))]
pub fn rows_of_columns(alloc: Global, columns: &Columns) -> Result<Vec<Row>, RowRefusal>
    requires five { 5 ≤ length columns.now }
    requires rows { (rows : ℕ) × HaveRows rows columns.now }
    ensures { Reads result (rows_of_columns columns.now) }
{
    rows_across(
        alloc,
        columns.column(0),
        columns.column(1),
        columns.column(2),
        columns.column(3),
        columns.column(4),
    )
}

// The refusal of an input whose columns are refused.
fn refused_file(refusal: PqRefusal) -> RowRefusal
    ensures memory { (result ≡ RowRefusal.Memory) ↔ (refusal ≡ PqRefusal.Memory) }
    ensures fault { Reads (Err result) (Err (file_fault refusal)) }
{
    let why = match refusal {
        PqRefusal::Memory => return RowRefusal::Memory,
        PqRefusal::Null { row } => return RowRefusal::Bad { row, why: 12 },
        PqRefusal::Column { .. } => 1,
        PqRefusal::NotParquet | PqRefusal::Thrift { .. } | PqRefusal::Missing { .. } => 9,
        PqRefusal::Nested | PqRefusal::Codec { .. } | PqRefusal::Encoding { .. } => 10,
        PqRefusal::Counts | PqRefusal::Bounds { .. } => 11,
    };
    RowRefusal::Bad { row: 0, why }
}

// The names of the columns, as the reader of Parquet files takes them.
fn names(alloc: Global) -> Result<[String; 5], AllocError>
    ensures { IfOk result (λ names. map string_bytes names ≡ column_names) }
{
    let [hp, id, x, y, z] = column_names();
    Ok([
        hp.to_owned(alloc)?,
        id.to_owned(alloc)?,
        x.to_owned(alloc)?,
        y.to_owned(alloc)?,
        z.to_owned(alloc)?,
    ])
}

// The five columns of a file.
fn five_columns(alloc: Global, bytes: &[u8]) -> Result<Columns, PqRefusal>
    ensures count { IfOk result (λ columns. length columns ≡ 5) }
    ensures rows { IfOk result (λ columns. (rows : ℕ) × HaveRows rows columns) }
    ensures value { AnswersOrWants (λ (columns : List (List ℤ)). columns) result (columns_in bytes.now column_names) }
{
    let names = names(alloc)?;
    columns(alloc, bytes, &names)
}

/// The rows of a Parquet file, or its first fault: a refusal of its columns comes before every fault of a row.
#[tactic(auto, unfolding(crate::specs::Parquet::parquet_rows))]
pub fn parquet_rows(alloc: Global, bytes: &[u8]) -> Result<Vec<Row>, RowRefusal>
    ensures { Reads result (parquet_rows bytes.now) }
{
    match five_columns(alloc, bytes) {
        Ok(columns) => rows_of_columns(alloc, &columns),
        Err(refusal) => Err(refused_file(refusal)),
    }
}

/// How many rows a Parquet file has that is read as rows, by its footer alone. A refusal tells the file's first fault.
pub fn rows_in_parquet(alloc: Global, bytes: &[u8]) -> Result<u64, RowRefusal>
    ensures rows { IfOk result (λ n. (rows : List Row) → parquet_rows bytes.now ≡ Ok rows → n ≡ length rows) }
    ensures fault { IfErr result (λ refusal. Tells refusal (parquet_rows bytes.now)) }
    ensures cause { IfErr result (λ refusal. (rows : List Row) → parquet_rows bytes.now ≡ Ok rows → refusal ≡ RowRefusal.Memory) }
{
    match rows_in_footer(alloc, bytes) {
        Ok(rows) => Ok(rows),
        Err(refusal) => Err(refused_file(refusal)),
    }
}

#[cfg(test)]
mod tests;
