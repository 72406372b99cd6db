//! The five columns of a row.
ghost use Rattle.std.specs.Prelude.{◌≡◌, ◌≤ℤ◌, ◌<◌, ◌*◌, ◌^◌, ◌∷◌, [], IfOk, Ok, Option, Some, List, ℤ, map, pos};
ghost use Rattle.std.specs.Prelude.{FitsSigned};
ghost use Rattle.std.specs.Int.{w64};
ghost use Rattle.hx_base.specs.Columns.{column_names, columns, coordinate, name_in, position, row_fault_number, row_of, value_in, values_of, with_unit_vector, within};
ghost use Rattle.hx_base.specs.Rows.{IsGood};
ghost use Rattle.hx_base.specs.declared.row.Row.{Row};

use crate::row::Row;

/// The last position.
const LAST_POSITION: i64 = 3_458_764_513_820_540_927;

/// The greatest magnitude of a vector's coordinate, in 10^-9.
const MOST_COORDINATE: i64 = 2_000_000_000;

/// The names of a row's columns, in the order of its values: position, id and the vector's coordinates.
pub fn column_names() -> [&'static str; 5]
    ensures { map (λ name. name.now) result ≡ column_names }
{
    [
        Column::Position.name(),
        Column::Id.name(),
        Column::X.name(),
        Column::Y.name(),
        Column::Z.name(),
    ]
}

/// A column of a row.
#[derive(Clone, Copy, Debug, PartialEq, Eq)]
pub enum Column {
    /// `_healpix_29`, the row's position.
    Position,
    /// `id`.
    Id,
    /// The unit vector's coordinates, `cx`, `cy` and `cz`, in 10^-9.
    X,
    Y,
    Z,
}

impl Column {
    /// The columns, in the order of a row's values.
    pub fn all() -> [Column; 5]
        ensures { result ≡ columns }
    {
        [
            Column::Position,
            Column::Id,
            Column::X,
            Column::Y,
            Column::Z,
        ]
    }

    /// The column's name in a file.
    pub fn name(self) -> &'static str
        ensures { result.now ≡ name_in self }
    {
        match self {
            Column::Position => "_healpix_29",
            Column::Id => "id",
            Column::X => "cx",
            Column::Y => "cy",
            Column::Z => "cz",
        }
    }
}

impl Row {
    /// The row's value in a column.
    #[inline]
    pub fn value(&self, column: Column) -> i64
        requires { self.now.hp < 2 ^ 63 }
        ensures value { result ≡ value_in column self.now }
        ensures fits { FitsSigned w64 result }
    {
        match column {
            Column::Position => self.hp as i64,
            Column::Id => self.id,
            Column::X => i64::from(self.x),
            Column::Y => i64::from(self.y),
            Column::Z => i64::from(self.z),
        }
    }
}

/// What is wrong with a row's values.
#[derive(Clone, Copy, Debug, PartialEq, Eq)]
pub enum RowFault {
    /// `_healpix_29` is no number from 0 to 3458764513820540927.
    Position,
    /// `id` is no number that an i64 holds.
    Id,
    /// `cx` is no number from -2000000000 to 2000000000.
    X,
    /// The same of `cy`.
    Y,
    /// The same of `cz`.
    Z,
    /// The vector isn't of unit length.
    Vector,
}

impl RowFault {
    /// The number by which a refusal tells it.
    pub fn number(&self) -> u8
        ensures { result ≡ row_fault_number self.now }
    {
        match self {
            RowFault::Position => 3,
            RowFault::Id => 4,
            RowFault::X => 5,
            RowFault::Y => 6,
            RowFault::Z => 7,
            RowFault::Vector => 8,
        }
    }
}

// A number from `low` to `high`.
#[inline]
fn within(low: i64, high: i64, fault: RowFault, value: Option<i64>) -> Result<i64, RowFault>
    ensures exact { result ≡ within low high fault value }
    ensures low { IfOk result (λ number. low ≤ℤ number) }
    ensures high { IfOk result (λ number. number ≤ℤ high) }
{
    match value {
        Some(number) if low <= number && number <= high => Ok(number),
        _ => Err(fault),
    }
}

// A pixel of order 29.
#[inline]
fn position(value: Option<i64>) -> Result<i64, RowFault>
    ensures exact { result ≡ position value }
    ensures low { IfOk result (λ hp. pos 0 ≤ℤ hp) }
    ensures high { IfOk result (λ hp. hp ≤ℤ pos 3458764513820540927) }
{
    within(0, LAST_POSITION, RowFault::Position, value)
}

// One coordinate of a vector, in 10^-9.
#[inline]
fn coordinate(fault: RowFault, value: Option<i64>) -> Result<i32, RowFault>
    ensures { result ≡ coordinate fault value }
{
    let number = within(-MOST_COORDINATE, MOST_COORDINATE, fault, value)?;
    Ok(number as i32)
}

// A row whose vector is of unit length, up to rounding.
#[inline]
fn with_unit_vector(row: Row) -> Result<Row, RowFault>
    requires { row.hp < 12 * 4 ^ 29 }
    ensures exact { result ≡ with_unit_vector row }
    ensures good { IfOk result IsGood }
{
    if row.is_good() {
        Ok(row)
    } else {
        Err(RowFault::Vector)
    }
}

/// The row of the values of its columns, each None where it is no number that an i64 holds; or the first of its
/// faults, in the order of the columns, and of the vector last.
#[inline]
#[tactic(auto, unfolding(crate::specs::Columns::row_of))]
pub fn row_of(
    hp: Option<i64>,
    id: Option<i64>,
    x: Option<i64>,
    y: Option<i64>,
    z: Option<i64>,
) -> Result<Row, RowFault>
    ensures exact { result ≡ row_of (hp ∷ id ∷ x ∷ y ∷ z ∷ []) }
    ensures good { IfOk result IsGood }
{
    let hp = position(hp)?;
    let id = id.ok_or(RowFault::Id)?;
    let x = coordinate(RowFault::X, x)?;
    let y = coordinate(RowFault::Y, y)?;
    let z = coordinate(RowFault::Z, z)?;
    with_unit_vector(Row {
        hp: hp.unsigned_abs(),
        id,
        x,
        y,
        z,
    })
}

/// A good row is the row of its own values, and each row of values is good.
pub fn rows_of_values()
    ensures own { (row : Row) → IsGood row → row_of (map Some (values_of row)) ≡ Ok row }
    ensures good { (values : List (Option ℤ)) (row : Row) → row_of values ≡ Ok row → IsGood row }
{}

#[cfg(test)]
mod tests {
    use super::*;

    #[test]
    fn values_of_a_row(rt: HostRuntime) {
        let row = Row {
            hp: 5,
            id: -1,
            x: -600_000_000,
            y: 800_000_000,
            z: 7,
        };
        let cases = [
            ("_healpix_29", 5),
            ("id", -1),
            ("cx", -600_000_000),
            ("cy", 800_000_000),
            ("cz", 7),
        ];
        let columns = Column::all();
        let names = column_names();
        for i in 0..5 {
            let (name, value) = cases[i];
            assert_eq!(rt; names[i], name);
            assert_eq!(rt; columns[i].name(), name);
            assert_eq!(rt; row.value(columns[i]), value);
        }
    }
}
