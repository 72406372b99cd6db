//! The walk over halved rows. Of what is kept so far it asks the limit alone, and offers it row after row.
ghost use Rattle.std.specs.Prelude.{◌++◌, ℕ, List, All};
ghost use Rattle.hx_base.specs.Rows.{IsGood};
ghost use Rattle.hx_base.specs.declared.row.Row.{Row};
ghost use Rattle.hx_kd.specs.Halves.{IsTree};
ghost use Rattle.hx_kd.specs.Closest.{IsClosestOf};

use crate::closest::Closest;
use crate::halves::Node;
use crate::origin::Origin;
use hx_base::Row;

// Looks at each row.
fn scan(rows: &[Row], from: &Origin, best: &mut Closest)
    requires rows { All IsGood rows.now }
    requires from { IsGood from.now.row }
    ensures { (r2 : ℕ) (seen : List Row) → IsClosestOf from.now.row r2 seen best.old →
        IsClosestOf from.now.row r2 (seen ++ rows.now) best.new }
{
    for row in rows {
        best.offer(&from.row, row);
    }
}

/// Looks at halved rows, but for the halves that are too far by where they were parted: a half is passed over only
/// where the plane between is farther than the limit, and not where it is as far. This is asked before the near half
/// is looked at, and again afterwards. Within small radii the far half is mostly passed over at once, and the near one
/// is then the last call.
pub fn walk(rows: &[Row], nodes: &[Node], from: &Origin, best: &mut Closest)
    requires tree { IsTree nodes.now rows.now }
    requires from { IsGood from.now.row }
    ensures { (r2 : ℕ) (seen : List Row) → IsClosestOf from.now.row r2 seen best.old →
        IsClosestOf from.now.row r2 (seen ++ rows.now) best.new }
{
    let Some((node, below)) = nodes.split_first() else {
        scan(rows, from, best);
        return;
    };
    let (first_nodes, second_nodes) = below.split_at(below.len() / 2);
    let (first, second) = rows.split_at(rows.len() / 2);
    if node.is_past(from) {
        let gap2 = node.gap2(from);
        if gap2 > best.limit {
            walk(first, first_nodes, from, best);
        } else {
            walk(first, first_nodes, from, best);
            if gap2 <= best.limit {
                walk(second, second_nodes, from, best);
            }
        }
    } else {
        let gap2 = node.gap2(from);
        if gap2 > best.limit {
            walk(second, second_nodes, from, best);
        } else {
            walk(second, second_nodes, from, best);
            if gap2 <= best.limit {
                walk(first, first_nodes, from, best);
            }
        }
    }
}
