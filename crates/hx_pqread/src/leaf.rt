ghost use Rattle.std.specs.Prelude.{◌≡◌, ℕ, ℤ, nat_eq, slice_get};
ghost use Rattle.std.specs.Cmp.Lexicographic.{pointwise};
ghost use Rattle.hx_pqread.specs.Columns.{places_of, only, is_wide_kind, layout_of};

use crate::layout::Layout;
use hx_pqmeta::{INT32_TYPE, INT64_TYPE, Leaf, OPTIONAL, PqRefusal};

fn is_named(leaf: &Leaf, name: &[u8]) -> bool
    ensures { result ≡ pointwise nat_eq leaf.now.name name.now }
{
    leaf.name() == name
}

/// The place of the one leaf with a name.
pub fn place_of(column: u32, name: &[u8], leaves: &[Leaf]) -> Result<usize, PqRefusal>
    ensures { result ≡ only column (places_of name.now 0 leaves.now) }
{
    let mut found = None;
    for place in 0..leaves.len() {
        if is_named(&leaves[place], name) {
            if found.is_some() {
                return Err(PqRefusal::Column { column });
            }
            found = Some(place);
        }
    }
    found.ok_or(PqRefusal::Column { column })
}

// Whether numbers of the type take eight bytes.
fn is_wide_kind(column: u32, kind: Option<i32>) -> Result<bool, PqRefusal>
    ensures { result ≡ is_wide_kind column kind }
{
    match kind {
        Some(INT32_TYPE) => Ok(false),
        Some(INT64_TYPE) => Ok(true),
        _ => Err(PqRefusal::Column { column }),
    }
}

/// How the values of the leaf at a place stand.
#[tactic(auto, unfolding(crate::specs::Columns::layout_of))]
pub fn layout_of(column: u32, leaves: &[Leaf], place: usize) -> Result<Layout, PqRefusal>
    ensures { result ≡ layout_of column (slice_get leaves.now place) }
{
    match leaves.get(place) {
        None => Err(PqRefusal::Column { column }),
        Some(leaf) => {
            let is_wide = is_wide_kind(column, leaf.kind())?;
            Ok(Layout {
                is_wide,
                is_optional: leaf.repetition() == OPTIONAL,
            })
        }
    }
}
