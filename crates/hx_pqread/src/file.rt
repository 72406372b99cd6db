ghost use Rattle.std.specs.Prelude.{◌≡◌, ◌<◌, ◌≤◌, ◌^◌, ℕ, map, length, string_bytes, Ok, IfOk};
ghost use Rattle.hx_pqmeta.specs.Refusals.{AnswersOrWants};
ghost use Rattle.hx_pqmeta.specs.Footers.{rows_of};
ghost use Rattle.hx_pqread.specs.Columns.{columns_at, lesser, unless_absent, columns_in, AnswersColumns, HaveRows};

use crate::column::read_column;
use crate::lists::Columns;
use hx_pqmeta::{Footer, PqRefusal, read_footer};
use std::alloc::Global;

/// Reads the columns of these names of a whole file, each of whose numbers is of the type INT32 or INT64.
///
/// The refusals of the footer come first. Then, for each name in order, comes Column, where not exactly one leaf has
/// the name or its type isn't read; then the first refusal of its chunks in the order of the row groups; then that of
/// its pages. Null comes last, and names the least row, from 1, at which a column has no value. `column` is the place
/// of a name.
///
/// All columns that are read have equally many numbers. Memory is taken for the numbers of values that are there alone,
/// eight bytes each: levels and absent values are counted.
pub fn columns(alloc: Global, bytes: &[u8], names: &[String]) -> Result<Columns, PqRefusal>
    ensures count { IfOk result (λ columns. length columns ≡ length names.now) }
    ensures rows { IfOk result (λ columns. (rows : ℕ) × HaveRows rows columns) }
    ensures value { AnswersOrWants (λ columns. columns) result (columns_in bytes.now (map string_bytes names.now)) }
{
    columns_of(alloc, bytes, names)
}

#[tactic(auto, unfolding(crate::specs::Columns::columns_in))]
fn columns_of(alloc: Global, bytes: &[u8], names: &[String]) -> Result<Columns, PqRefusal>
    ensures { AnswersOrWants (λ columns. columns) result (columns_in bytes.now (map string_bytes names.now)) }
{
    let footer = read_footer(alloc, bytes)?;
    let (lists, absent) = read_columns(alloc, &footer, bytes, names)?;
    unless_absent(absent, lists)
}

fn unless_absent(absent: Option<u64>, lists: Vec<Vec<i64>>) -> Result<Columns, PqRefusal>
    ensures { AnswersOrWants (λ columns. columns) result (unless_absent absent (map (λ list. list.items) lists.items)) }
{
    match absent {
        None => Ok(Columns::new(lists)),
        Some(row) => Err(PqRefusal::Null { row }),
    }
}

fn lesser(row: Option<u64>, other: Option<u64>) -> Option<u64>
    ensures { result ≡ lesser row other }
{
    match (row, other) {
        (None, other) => other,
        (Some(row), None) => Some(row),
        (Some(row), Some(other)) => Some(if row < other { row } else { other }),
    }
}

// The place of a name, as refusals name it. No list of names that fits in memory has too many.
fn column_of(i: usize) -> Result<u32, PqRefusal>
    ensures { AnswersOrWants (λ column. column) result (Ok i) }
{
    match u32::try_from(i) {
        Ok(column) => Ok(column),
        Err(_) => Err(PqRefusal::Memory),
    }
}

// The values that are there of each column, and the least row at which one is absent.
fn read_columns(
    alloc: Global,
    footer: &Footer,
    file: &[u8],
    names: &[String],
) -> Result<(Vec<Vec<i64>>, Option<u64>), PqRefusal>
    requires inside { footer.now.start ≤ length file.now }
    requires few { rows_of footer.now.groups < 2 ^ 63 }
    ensures { AnswersColumns (λ x. map (λ list. list.items) x.0.items) (λ x. x.1) result (columns_at footer.now file.now 0 (map string_bytes names.now)) }
{
    let mut lists = Vec::new(alloc);
    let mut absent = None;
    for i in 0..names.len() {
        let kept = read_column(alloc, footer, file, column_of(i)?, names[i].as_bytes())?;
        absent = lesser(absent, kept.absent);
        lists.push(kept.numbers)?;
    }
    Ok((lists, absent))
}
