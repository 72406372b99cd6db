//! The rows of a Parquet file of a catalogue.
ghost use Rattle.std.specs.Prelude.{◌≡◌, ◌≢◌, ◌↔◌, ◌<◌, ◌∷◌, ◌++◌, [], ℕ, ℤ, All, IfErr, IfOk, IsTrue, List, MatchOption, OnOk, Some, length, map, slice_get, string_bytes};
ghost use Rattle.std.specs.List.Sorted.{IsSorted};
ghost use Rattle.hx_base.specs.Columns.{column_names, columns_of_rows, values_of};
ghost use Rattle.hx_base.specs.Pixels.{PixelContains};
ghost use Rattle.hx_base.specs.Rows.{IsGood, row_cmp};
ghost use Rattle.hx_base.specs.declared.row.Row.{Row as RowRecord};
ghost use Rattle.hx_pqmeta.specs.Refusals.{AnswersOrWants};
ghost use Rattle.hx_pqread.specs.Columns.{HaveRows, columns_in};
ghost use Rattle.hx_catalog.specs.Answers.{IsRowsDamage, IsUnread, damage_place, parquet_damage};
ghost use Rattle.hx_catalog.specs.Files.{Belong, HoldsRows};

use hx_base::{Pixel, Row, SpillRefusal, column_names, compare_rows, row_of};
use hx_pqmeta::PqRefusal;
use hx_pqread::{Columns, columns, reading_is_standing};
use std::alloc::{AllocError, Global};

// The names of the columns, as the reader of Parquet files takes them.
fn names(alloc: Global) -> Result<[String; 5], AllocError>
    ensures { IfOk result (λ names. map string_bytes names ≡ column_names) }
{
    let [hp, id, x, y, z] = column_names();
    Ok([
        hp.to_owned(alloc)?,
        id.to_owned(alloc)?,
        x.to_owned(alloc)?,
        y.to_owned(alloc)?,
        z.to_owned(alloc)?,
    ])
}

// The five columns of a file.
fn five_columns(alloc: Global, bytes: &[u8]) -> Result<Columns, PqRefusal>
    ensures count { IfOk result (λ columns. length columns ≡ 5) }
    ensures rows { IfOk result (λ columns. (rows : ℕ) × HaveRows rows columns) }
    ensures value { AnswersOrWants (λ (columns : List (List ℤ)). columns) result (columns_in bytes.now column_names) }
{
    let names = names(alloc)?;
    columns(alloc, bytes, &names)
}

// The value of a column in a row that it has.
#[inline]
fn value_at(column: &[i64], row: usize) -> Option<i64>
    requires { row < length column.now }
    ensures { result ≡ slice_get column.now row }
{
    Some(column[row])
}

// The good row of five values, if there is one.
#[inline]
fn good_row(
    hp: Option<i64>,
    id: Option<i64>,
    x: Option<i64>,
    y: Option<i64>,
    z: Option<i64>,
) -> Option<Row>
    ensures { MatchOption result ((row : RowRecord) → IsGood row → map Some (values_of row) ≢ (hp ∷ id ∷ x ∷ y ∷ z ∷ []))
        (λ row. IsGood row × (map Some (values_of row) ≡ hp ∷ id ∷ x ∷ y ∷ z ∷ [])) }
{
    match row_of(hp, id, x, y, z) {
        Ok(row) => Some(row),
        Err(_) => None,
    }
}

fn push_row(rows: &mut Vec<Row>, row: Row) -> Result<(), AllocError>
    ensures { OnOk result (rows.new.items ≡ rows.old.items ++ row ∷ []) }
{
    rows.push(row)?;
    Ok(())
}

// The good rows of five columns, which have equally many values; none where some values are no good row's.
fn rows_across(
    alloc: Global,
    hps: &[i64],
    ids: &[i64],
    xs: &[i64],
    ys: &[i64],
    zs: &[i64],
) -> Result<Option<Vec<Row>>, AllocError>
    requires ids { length ids.now ≡ length hps.now }
    requires xs { length xs.now ≡ length hps.now }
    requires ys { length ys.now ≡ length hps.now }
    requires zs { length zs.now ≡ length hps.now }
    ensures { IfOk result (λ found. MatchOption found
        ((rows : List RowRecord) → All IsGood rows → columns_of_rows rows ≢ (hps.now ∷ ids.now ∷ xs.now ∷ ys.now ∷ zs.now ∷ []))
        (λ rows. All IsGood rows.items × (columns_of_rows rows.items ≡ (hps.now ∷ ids.now ∷ xs.now ∷ ys.now ∷ zs.now ∷ [])))) }
{
    let mut rows = Vec::with_capacity(alloc, hps.len())?;
    for i in 0..hps.len() {
        let found = good_row(
            value_at(hps, i),
            value_at(ids, i),
            value_at(xs, i),
            value_at(ys, i),
            value_at(zs, i),
        );
        let Some(row) = found else {
            return Ok(None);
        };
        push_row(&mut rows, row)?;
    }
    Ok(Some(rows))
}

// The good rows of a file's columns; none where some values are no good row's.
fn rows_of_columns(alloc: Global, columns: &Columns) -> Result<Option<Vec<Row>>, AllocError>
    requires five { length columns.now ≡ 5 }
    requires rows { (rows : ℕ) × HaveRows rows columns.now }
    ensures { IfOk result (λ found. MatchOption found
        ((rows : List RowRecord) → All IsGood rows → columns_of_rows rows ≢ columns.now)
        (λ rows. All IsGood rows.items × (columns_of_rows rows.items ≡ columns.now))) }
{
    rows_across(
        alloc,
        columns.column(0),
        columns.column(1),
        columns.column(2),
        columns.column(3),
        columns.column(4),
    )
}

/// Whether no row comes before the one in front of it.
pub fn ascend(rows: &[Row]) -> bool
    ensures { IsTrue result ↔ IsSorted row_cmp rows.now }
{
    for i in 1..rows.len() {
        if compare_rows(&rows[i], &rows[i - 1]).is_lt() {
            return false;
        }
    }
    true
}

fn lie_in(rows: &[Row], pixel: &Pixel) -> bool
    ensures { IsTrue result ↔ All (PixelContains pixel.now) rows.now }
{
    rows.iter().all(|row| pixel.holds(row.hp))
}

// Whether rows may stand in a partition's own file, or in that of its margin.
fn belong(rows: &[Row], margin: bool, pixel: &Pixel) -> bool
    ensures { IsTrue result ↔ Belong margin pixel.now rows.now }
{
    margin || lie_in(rows, pixel)
}

// Whether rows ascend and may stand there.
fn are_in_place(rows: &[Row], margin: bool, pixel: &Pixel) -> bool
    ensures { IsTrue result ↔ (IsSorted row_cmp rows.now × Belong margin pixel.now rows.now) }
{
    ascend(rows) && belong(rows, margin, pixel)
}

// Why a file isn't read as its columns.
fn unread(refusal: PqRefusal) -> SpillRefusal
    ensures { result ≡ parquet_damage refusal }
{
    match refusal {
        PqRefusal::Memory => SpillRefusal::Memory,
        PqRefusal::Thrift { at } => SpillRefusal::Damaged { place: at },
        _ => SpillRefusal::Damaged { place: 0 },
    }
}

/// The rows of a partition's own file, or of its margin's: good, ascending, and those of the partition's own file in it.
/// Else the file's damage.
pub(crate) fn rows_of_file(
    alloc: Global,
    bytes: &[u8],
    margin: bool,
    pixel: &Pixel,
) -> Result<Vec<Row>, SpillRefusal>
    ensures holds { IfOk result (λ rows. HoldsRows bytes.now rows.items) }
    ensures belong { IfOk result (λ rows. Belong margin pixel.now rows.items) }
    ensures refused { IfErr result (IsUnread (IsRowsDamage margin pixel.now bytes.now)) }
{
    reading_is_standing();
    let columns = match five_columns(alloc, bytes) {
        Ok(columns) => columns,
        Err(refusal) => return Err(unread(refusal)),
    };
    let Some(rows) = rows_of_columns(alloc, &columns)? else {
        return Err(SpillRefusal::Damaged { place: 0 });
    };
    if !are_in_place(&rows, margin, pixel) {
        return Err(SpillRefusal::Damaged { place: 0 });
    }
    Ok(rows)
}

/// Where a file is damaged that isn't read as rows, in bytes: at a Thrift fault, where the five columns are refused by one,
/// and else at 0.
///
/// # Errors
///
/// Want of memory.
pub fn damaged_at(alloc: Global, bytes: &[u8]) -> Result<u64, AllocError>
    ensures { IfOk result (λ place. place ≡ damage_place (columns_in bytes.now column_names)) }
{
    let Err(refusal) = five_columns(alloc, bytes) else {
        return Ok(0);
    };
    match unread(refusal) {
        SpillRefusal::Damaged { place } => Ok(place),
        SpillRefusal::Memory => Err(AllocError),
    }
}
