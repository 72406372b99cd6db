//! Rows halved in place, by count: sorted on the axis on which they are spread the most, then halved several times.
ghost use Rattle.std.specs.Prelude.{◌≡◌, ◌↔◌, ◌<◌, ◌<ℤ◌, ◌-ℤ◌, IsPermutation, IsTrue, length};
ghost use Rattle.hx_base.specs.Rows.{square};
ghost use Rattle.hx_kd.specs.Axes.{coordinate};
ghost use Rattle.hx_kd.specs.Halves.{IsHalved, IsParted, IsRising};

use crate::axis::Axis;
use crate::origin::Origin;
use hx_base::Row;

// The square of a difference.
fn squared_gap(a: i32, b: i32) -> u64
    ensures { result ≡ square (a -ℤ b) }
{
    let gap = (i64::from(a) - i64::from(b)).unsigned_abs();
    gap * gap
}

/// Where rows are parted: those of the first half are at most the split on the axis, those of the second at least.
#[derive(Clone, Copy, Debug)]
pub struct Node {
    pub split: i32,
    pub axis: Axis,
}

impl Node {
    /// Whether the split is past a row.
    pub fn is_past(&self, from: &Origin) -> bool
        ensures { IsTrue result ↔ (coordinate self.now.axis from.now.row <ℤ self.now.split) }
    {
        from.on(self.axis) < self.split
    }

    /// How far the split is from a row: the difference on the axis, squared. No row past the split is nearer.
    pub fn gap2(&self, from: &Origin) -> u64
        ensures { result ≡ square (coordinate self.now.axis from.now.row -ℤ self.now.split) }
    {
        squared_gap(from.on(self.axis), self.split)
    }
}

// The axis on which the rows are spread the most.
fn widest(rows: &[Row]) -> Axis {
    let (mut x_low, mut y_low, mut z_low) = (i32::MAX, i32::MAX, i32::MAX);
    let (mut x_high, mut y_high, mut z_high) = (i32::MIN, i32::MIN, i32::MIN);
    for row in rows {
        x_low = x_low.min(row.x);
        y_low = y_low.min(row.y);
        z_low = z_low.min(row.z);
        x_high = x_high.max(row.x);
        y_high = y_high.max(row.y);
        z_high = z_high.max(row.z);
    }
    let x = x_high.abs_diff(x_low);
    let y = y_high.abs_diff(y_low);
    let z = z_high.abs_diff(z_low);
    if x >= y && x >= z {
        Axis::X
    } else if y >= z {
        Axis::Y
    } else {
        Axis::Z
    }
}

fn sort_on_x(rows: &mut [Row])
    ensures permutation { IsPermutation rows.old rows.new }
    ensures rising { IsRising (λ row. row.x) rows.new }
{
    rows.sort_unstable_by_key(|row| row.x);
}

fn sort_on_y(rows: &mut [Row])
    ensures permutation { IsPermutation rows.old rows.new }
    ensures rising { IsRising (λ row. row.y) rows.new }
{
    rows.sort_unstable_by_key(|row| row.y);
}

fn sort_on_z(rows: &mut [Row])
    ensures permutation { IsPermutation rows.old rows.new }
    ensures rising { IsRising (λ row. row.z) rows.new }
{
    rows.sort_unstable_by_key(|row| row.z);
}

fn sort_on(rows: &mut [Row], axis: Axis)
    ensures permutation { IsPermutation rows.old rows.new }
    ensures rising { IsRising (coordinate axis) rows.new }
{
    match axis {
        Axis::X => sort_on_x(rows),
        Axis::Y => sort_on_y(rows),
        Axis::Z => sort_on_z(rows),
    }
}

// The axis on which rows ascend: the one on which they do already, or where no use of it is left, the widest.
fn sorted_on(rows: &mut [Row], axis: Axis, uses: u32) -> Axis
    requires { 0 < uses → IsRising (coordinate axis) rows.old }
    ensures permutation { IsPermutation rows.old rows.new }
    ensures rising { IsRising (coordinate result) rows.new }
{
    if uses > 0 {
        return axis;
    }
    let axis = widest(rows);
    sort_on(rows, axis);
    axis
}

// How often sorted rows are halved before they are sorted again. More would save sorts, and make boxes that are long
// and thin, which costs searches within large radii.
const USES: u32 = 7;

// The uses of an axis that are left below.
fn uses_left(uses: u32) -> u32 {
    if uses == 0 { USES - 1 } else { uses - 1 }
}

// The node that parts ascending rows by the row in the middle.
fn node_of(rows: &[Row], axis: Axis) -> Node
    requires some { 0 < length rows.now }
    requires rising { IsRising (coordinate axis) rows.now }
    ensures { IsParted (coordinate result.axis) result.split rows.now }
{
    let row = &rows[rows.len() / 2];
    Node {
        split: axis.of(row),
        axis,
    }
}

/// Halves rows again and again, as long as nodes are left: the first node is where all of them are parted, and of the
/// others the first half is for the first half of the rows. The rows ascend on the axis already, where some uses of
/// it are left. It takes no memory.
pub fn halve(rows: &mut [Row], nodes: &mut [Node], axis: Axis, uses: u32)
    requires { 0 < uses → IsRising (coordinate axis) rows.old }
    ensures permutation { IsPermutation rows.old rows.new }
    ensures halved { IsHalved nodes.new rows.new }
{
    if rows.is_empty() {
        return;
    }
    let Some((node, below)) = nodes.split_first_mut() else {
        return;
    };
    let axis = sorted_on(rows, axis, uses);
    let uses = uses_left(uses);
    *node = node_of(rows, axis);
    let (first_nodes, second_nodes) = below.split_at_mut(below.len() / 2);
    let (first, second) = rows.split_at_mut(rows.len() / 2);
    halve(first, first_nodes, axis, uses);
    halve(second, second_nodes, axis, uses);
}
