//! Rows that are gathered from the slices of split files.
ghost use Rattle.std.specs.Prelude.{◌≡◌, ◌+◌, ◌++◌, ◌∷◌, [], All, OnOk};
ghost use Rattle.hx_base.specs.Rows.{IsGood};
ghost use Rattle.hx_base.specs.declared.refusal.JobFile.TheVariants.{MarginSplit, Split};
ghost use Rattle.hx_book.specs.Books.{job_of};
ghost use Rattle.hx_book.specs.Slices.{IsSliceOf};
ghost use Rattle.hx_import.specs.Given.{GathersAround, GathersFirst};

use hx_base::Row;
use hx_book::Job;
use hx_spill::slices_of_inputs;
use std::alloc::AllocError;

// Puts rows behind others.
fn append(gathered: &mut Vec<Row>, slice: &[Row]) -> Result<(), AllocError>
    ensures { OnOk result (gathered.new.items ≡ gathered.old.items ++ slice.now) }
{
    gathered.extend_from_slice(slice)
}

/// Puts the slice of a partition in the split file of an input behind those of the inputs before it.
///
/// # Errors
///
/// Want of memory.
pub fn add_slice<J: Job>(
    gathered: &mut Vec<Row>,
    slice: &[Row],
    input: u32,
    part: u32,
) -> Result<(), AllocError>
    requires good { All IsGood gathered.old.items }
    requires more { All IsGood slice.now }
    requires before { J.of.premises → GathersFirst (job_of J.of) part input gathered.old.items }
    requires slice { J.of.premises → IsSliceOf (job_of J.of) (Split input) part slice.now }
    ensures good { OnOk result (All IsGood gathered.new.items) }
    ensures gathered { OnOk result (J.of.premises → GathersFirst (job_of J.of) part (input + 1) gathered.new.items) }
{
    append(gathered, slice)
}

/// Puts the slice of a partition in the margin split file of another behind those of the ones before it. `before` are the
/// numbers of these.
///
/// # Errors
///
/// Want of memory.
pub fn add_margin_slice<J: Job>(
    gathered: &mut Vec<Row>,
    slice: &[Row],
    before: &[u32],
    number: u32,
    part: u32,
) -> Result<(), AllocError>
    requires good { All IsGood gathered.old.items }
    requires more { All IsGood slice.now }
    requires before { J.of.premises → GathersAround (job_of J.of) part before.now gathered.old.items }
    requires slice { J.of.premises → IsSliceOf (job_of J.of) (MarginSplit number) part slice.now }
    ensures good { OnOk result (All IsGood gathered.new.items) }
    ensures gathered { OnOk result (J.of.premises → GathersAround (job_of J.of) part (before.now ++ number ∷ []) gathered.new.items) }
{
    append(gathered, slice)
}
