//! Rows as a k-d tree.
ghost use Rattle.std.specs.Prelude.{◌≡◌, ◌≤◌, All, IfOk, IsPermutation};
ghost use Rattle.hx_base.specs.Nearest.{IsNearest};
ghost use Rattle.hx_base.specs.Rows.{IsGood};
ghost use Rattle.hx_kd.specs.Found.{HasChord, near_of, row_of};

use crate::axis::Axis;
use crate::closest::Closest;
use crate::halves::{Node, halve};
use crate::origin::Origin;
use crate::walk::walk;
use hx_base::Row;
use std::alloc::{AllocError, Global};
use std::marker::Model;

/// A row that was found.
#[derive(Clone, Copy, Debug, PartialEq, Eq)]
pub struct Near {
    /// The squared chord to the row, in 10^-18.
    pub chord2: u64,
    pub row: Row,
}

/// Good rows, to be searched for the nearest to a row. A tree is seen as the list of its rows.
///
/// The rows stand in one vector and are halved by count, again and again, down to a few rows; the nodes stand in
/// another, each before those of its halves. So equal rows, or rows on a line, make no branch longer.
#[derive(Drop)]
pub struct Kd {
    rows: Vec<Row>,
    nodes: Vec<Node>,
}

impl Model for Kd {
    ghost use Rattle.std.specs.Prelude.{List};
    ghost use Rattle.hx_base.specs.declared.row.Row as row;
    ghost use Rattle.hx_kd.specs.Halves as Halves;

    ghost Value = { List row.Row };

    ghost view = { λ tree. tree.rows.items };

    ghost invariant = { λ tree. Halves.IsTree tree.nodes.items tree.rows.items };
}

// The most rows that aren't halved any more.
const LEAF: usize = 12;

// How many times so many rows are halved.
fn levels_of(count: usize) -> u32
    ensures { result ≤ 60 }
{
    let mut levels = 0;
    let mut left = count;
    while left > LEAF && levels < 60 {
        left = left.div_ceil(2);
        levels += 1;
    }
    levels
}

// A node for each time that rows or their halves are halved.
fn empty_nodes(alloc: Global, levels: u32) -> Result<Vec<Node>, AllocError>
    requires { levels ≤ 60 }
{
    let node = Node {
        split: 0,
        axis: Axis::X,
    };
    vec![in alloc; node; (1usize << levels) - 1]
}

// What was found, with its chord.
fn near_of(best: &Closest) -> Option<Near>
    ensures { result ≡ near_of best.now.limit best.now.found }
{
    match best.found {
        None => None,
        Some(row) => Some(Near {
            chord2: best.limit,
            row,
        }),
    }
}

impl Kd {
    /// The tree of good rows: it has these rows in an order of its own. Err where there is no memory for its nodes,
    /// which are fewer than a sixth of the rows.
    pub fn new(alloc: Global, mut rows: Vec<Row>) -> Result<Kd, AllocError>
        requires { All IsGood rows.items }
        ensures { IfOk result (λ tree. IsPermutation rows.items tree) }
    {
        let mut nodes = empty_nodes(alloc, levels_of(rows.len()))?;
        halve(rows.as_mut_slice(), nodes.as_mut_slice(), Axis::X, 0);
        Ok(Kd { rows, nodes })
    }

    /// The nearest of the rows to a good row, within a radius whose square is r2, in 10^-18, with its squared chord:
    /// of rows that are as far the least by id, position, x, y and z. None exactly where no row is within the
    /// radius. It takes no memory.
    pub fn nearest(&self, row: &Row, r2: u64) -> Option<Near>
        requires { IsGood row.now }
        ensures nearest { IsNearest row.now r2 self.now (row_of result) }
        ensures chord { HasChord row.now result }
    {
        let mut best = Closest::within(r2);
        let from = Origin::new(row);
        walk(
            self.rows.as_slice(),
            self.nodes.as_slice(),
            &from,
            &mut best,
        );
        near_of(&best)
    }
}
