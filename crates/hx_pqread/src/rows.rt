ghost use Rattle.std.specs.Prelude.{◌≡◌, ◌⊎◌, ◌<◌, ◌^◌, ℕ, ℤ, List, length, Ok, Err, IfOk, IfErr};
ghost use Rattle.hx_pqmeta.specs.declared.refusal.PqRefusal.TheVariants.{Memory};
ghost use Rattle.hx_pqmeta.specs.Refusals.{AnswersOrWants};
ghost use Rattle.hx_pqmeta.specs.Footers.{rows_of};
ghost use Rattle.hx_pqread.specs.Columns.{columns_in, HaveRows};
ghost use Rattle.hx_pqread.specs.Rows.{rows_in_footer};

use hx_pqmeta::{Group, PqRefusal, natural, read_footer};
use std::alloc::Global;

/// How many rows a whole file has, by its footer alone: the sum of what its row groups tell (`num_rows` of Parquet's
/// RowGroup, which sum to that of FileMetaData). No page is looked at.
///
/// Every column that can be read has as many numbers. A refusal is the footer's, and that of reading columns too.
pub fn rows_in_footer(alloc: Global, bytes: &[u8]) -> Result<u64, PqRefusal>
    ensures value { AnswersOrWants (λ rows. rows) result (rows_in_footer bytes.now) }
    ensures columns { IfOk result (λ rows. (names : List (List ℕ)) (lists : List (List ℤ)) → columns_in bytes.now names ≡ Ok lists →
        (length lists ≡ length names) × HaveRows rows lists) }
    ensures refused { IfErr result (λ refusal. (names : List (List ℕ)) → (refusal ≡ Memory) ⊎ (columns_in bytes.now names ≡ Err refusal)) }
{
    rows_told(alloc, bytes)
}

#[tactic(auto, unfolding(crate::specs::Rows::rows_in_footer))]
fn rows_told(alloc: Global, bytes: &[u8]) -> Result<u64, PqRefusal>
    ensures { AnswersOrWants (λ rows. rows) result (rows_in_footer bytes.now) }
{
    let footer = read_footer(alloc, bytes)?;
    Ok(rows_of(footer.groups()))
}

// How many rows groups have.
fn rows_of(groups: &[Group]) -> u64
    requires { rows_of groups.now < 2 ^ 63 }
    ensures { result ≡ rows_of groups.now }
{
    let mut rows = 0;
    for group in groups {
        rows += natural(group.rows());
    }
    rows
}
