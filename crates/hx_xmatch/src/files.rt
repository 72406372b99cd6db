//! The files of the two catalogues' partitions.
ghost use Rattle.std.specs.Prelude.{◌≡◌, ◌<◌, ◌⊎◌, All, IfErr, IfOk, Some, false, length, slice_get};
ghost use Rattle.std.specs.List.Sorted.{IsSorted};
ghost use Rattle.hx_base.specs.Pixels.{PixelContains};
ghost use Rattle.hx_base.specs.Rows.{IsGood, row_cmp};
ghost use Rattle.hx_base.specs.declared.pixel.Pixel.{Pixel};
ghost use Rattle.hx_catalog.specs.Answers.{HasFaultCause, store_refusal};
ghost use Rattle.hx_outside.specs.Disk.{Passes};
ghost use Rattle.hx_outside.specs.Folders.{Same};
ghost use Rattle.hx_xmatch.specs.Files.{HasRowsAt, IsLoadRefusal, MayRefuseRows};

use hx_base::{Refusal, Row};
use hx_catalog::Catalogue;
use hx_outside::{Store, StoreError};

/// A store's error as a refusal.
pub(crate) fn store_refusal(error: StoreError) -> Refusal
    ensures { result ≡ store_refusal error }
{
    match error {
        StoreError::Failed => Refusal::StoreFault,
        StoreError::Memory => Refusal::Memory,
    }
}

/// The rows of a partition's own file, or of its margin's.
pub(crate) fn load<S: Store>(
    catalogue: &Catalogue,
    store: &mut S,
    part: u32,
    margin: bool,
) -> Result<Vec<Row>, Refusal>
    requires { part < length catalogue.now.parts }
    ensures unchanged { S.disk.tells store.old → Passes S.disk store.old store.new Same }
    ensures loaded { S.disk.tells store.old → IfOk result (λ rows. HasRowsAt (S.disk.reads store.old) catalogue.now part margin rows.items) }
    ensures refused { S.disk.tells store.old → IfErr result (IsLoadRefusal (S.disk.reads store.old) catalogue.now) }
    ensures good { IfOk result (λ rows. All IsGood rows.items) }
    ensures ascending { IfOk result (λ rows. IsSorted row_cmp rows.items) }
    ensures inside { margin ≡ false → IfOk result (λ rows. (pixel : Pixel) → slice_get catalogue.now.parts part ≡ Some pixel → All (PixelContains pixel) rows.items) }
    ensures kinds { IfErr result (MayRefuseRows catalogue.now.side) }
    ensures cause { HasFaultCause S.disk.faults store.old store.new result }
{
    catalogue.load(store, part, margin)
}
