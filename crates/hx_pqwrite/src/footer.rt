ghost use Rattle.std.specs.Prelude.{◌≡◌, ◌<◌, ◌≤◌, ◌^◌, ◌==◌, if◌then◌else◌, pos, [], ◌∷◌, length, map, IfOk};
ghost use Rattle.hx_base.specs.Columns.{name_in};
ghost use Rattle.hx_pqwrite.specs.Files.{leaf_of, chunk_of, groups_of};

use hx_base::Column;
use hx_pqmeta::{Chunk, Footer, Group, INT64_TYPE, Leaf, REQUIRED, UNCOMPRESSED};
use std::alloc::{AllocError, Global};

/// The chunk of so many rows whose pages stand at a place and take so many bytes.
pub fn chunk_of(place: usize, rows: usize, size: usize) -> Chunk
    requires place { place < 2 ^ 63 }
    requires rows { rows < 2 ^ 63 }
    requires size { size < 2 ^ 63 }
    ensures { result ≡ chunk_of place rows size }
{
    Chunk {
        has_path: false,
        has_meta: true,
        codec: Some(UNCOMPRESSED),
        values: Some(rows as i64),
        plain_size: Some(size as i64),
        stored_size: Some(size as i64),
        data_page: Some(place as i64),
        dictionary_page: None,
    }
}

/// The footer behind so many bytes, of columns and their chunks.
pub fn footer_of(
    alloc: Global,
    start: usize,
    columns: &[Column],
    rows: usize,
    chunks: Vec<Chunk>,
) -> Result<Footer, AllocError>
    requires { rows < 2 ^ 63 }
    ensures { IfOk result (λ footer. footer ≡ record { start = start; rows = pos rows; leaves = map leaf_of (map name_in columns.now); groups = groups_of rows chunks.items }) }
{
    let leaves = leaves_of(alloc, columns)?;
    let groups = groups_of(alloc, rows, chunks)?;
    Ok(Footer::new(start as u64, rows as i64, leaves, groups))
}

fn leaves_of(alloc: Global, columns: &[Column]) -> Result<Vec<Leaf>, AllocError>
    ensures { IfOk result (λ leaves. leaves.items ≡ map leaf_of (map name_in columns.now)) }
{
    let mut leaves = Vec::with_capacity(alloc, columns.len())?;
    for column in columns {
        leaves.push(leaf_of(alloc, *column)?)?;
    }
    Ok(leaves)
}

fn leaf_of(alloc: Global, column: Column) -> Result<Leaf, AllocError>
    ensures { IfOk result (λ leaf. leaf ≡ leaf_of (name_in column)) }
{
    let name = column.name().as_bytes().to_vec(alloc)?;
    Ok(Leaf::new(Some(INT64_TYPE), REQUIRED, name, None))
}

// One row group, and none where there are no rows.
fn groups_of(alloc: Global, rows: usize, chunks: Vec<Chunk>) -> Result<Vec<Group>, AllocError>
    requires { rows < 2 ^ 63 }
    ensures { IfOk result (λ groups. groups.items ≡ groups_of rows chunks.items) }
{
    let mut groups = Vec::new(alloc);
    if rows != 0 {
        groups.push(Group::new(rows as i64, chunks))?;
    }
    Ok(groups)
}
