//! Loading the rows of a partition or of its margin.
ghost use Rattle.std.specs.Prelude.{◌≡◌, ◌<◌, All, IfErr, IfOk, Some, false, length, slice_get};
ghost use Rattle.std.specs.List.Sorted.{IsSorted};
ghost use Rattle.hx_base.specs.Pixels.{PixelContains};
ghost use Rattle.hx_base.specs.Rows.{IsGood, row_cmp};
ghost use Rattle.hx_base.specs.declared.pixel.Pixel.{Pixel as PixelRecord};
ghost use Rattle.hx_outside.specs.Disk.{Passes};
ghost use Rattle.hx_outside.specs.Folders.{Same};
ghost use Rattle.hx_catalog.specs.Answers.{HasFaultCause, IsExact, Loads, MayRefuseLoading, Opened, listed};
ghost use Rattle.hx_catalog.specs.Files.{rows_of_part};

use crate::files::{damaged_file, file_of, rows_of_part};
use crate::opening::Catalogue;
use crate::parquet::rows_of_file;
use hx_base::{Name, Pixel, Refusal, Row};
use hx_outside::Store;
use hx_pqread::reading_is_standing;
use std::alloc::Global;

// Which rows are loaded: those of a partition's own file or of its margin's, by its number and its pixel, and the side
// by which a refusal names the catalogue.
#[derive(Clone, Copy)]
struct Asked {
    side: u8,
    part: u32,
    margin: bool,
    pixel: Pixel,
}

fn load_rows<S: Store>(
    alloc: Global,
    store: &mut S,
    name: &Name,
    asked: Asked,
) -> Result<Vec<Row>, Refusal>
    ensures unchanged { S.disk.tells store.old → Passes S.disk store.old store.new Same }
    ensures exact { S.disk.tells store.old → (opened : Opened) → opened.properties.settings.name ≡ name.now → opened.side ≡ asked.side →
        slice_get opened.parts asked.part ≡ Some asked.pixel →
        IsExact (Loads (S.disk.reads store.old) opened asked.part asked.margin) (listed result) }
    ensures good { IfOk result (λ rows. All IsGood rows.items) }
    ensures ascending { IfOk result (λ rows. IsSorted row_cmp rows.items) }
    ensures inside { asked.margin ≡ false → IfOk result (λ rows. All (PixelContains asked.pixel) rows.items) }
    ensures kinds { IfErr result (MayRefuseLoading asked.side (rows_of_part asked.margin asked.part)) }
    ensures cause { HasFaultCause S.disk.faults store.old store.new result }
{
    reading_is_standing();
    let side = asked.side;
    let file = rows_of_part(asked.margin, asked.part);
    let Some(bytes) = file_of(alloc, store, name, file, asked.pixel)? else {
        return Err(Refusal::Damaged {
            side,
            file,
            place: 0,
        });
    };
    match rows_of_file(alloc, &bytes, asked.margin, &asked.pixel) {
        Ok(rows) => Ok(rows),
        Err(refusal) => Err(damaged_file(side, file, refusal)),
    }
}

impl Catalogue {
    /// The rows of a partition's own file, or of its margin's file. No file changes, and no folder that a crash may
    /// leave is added. Whatever the store, the rows are good and ascend, and those of a partition's own file lie in it.
    ///
    /// Over a store that tells its files, `Damaged` comes exactly where the file is absent, at 0; where it isn't read
    /// as the five columns of a Parquet file, at the place of a Thrift refusal and else at 0; or where its rows aren't
    /// good, don't ascend or, in a partition's own file, don't lie in it, at 0. It yields to `StoreFault`, which comes
    /// only where the store's count of faults rose, and to `Memory`.
    pub fn load<S: Store>(
        &self,
        store: &mut S,
        part: u32,
        margin: bool,
    ) -> Result<Vec<Row>, Refusal>
        requires { part < length self.now.parts }
        ensures unchanged { S.disk.tells store.old → Passes S.disk store.old store.new Same }
        ensures exact { S.disk.tells store.old → IsExact (Loads (S.disk.reads store.old) self.now part margin) (listed result) }
        ensures good { IfOk result (λ rows. All IsGood rows.items) }
        ensures ascending { IfOk result (λ rows. IsSorted row_cmp rows.items) }
        ensures inside { margin ≡ false → IfOk result (λ rows. (pixel : PixelRecord) → slice_get self.now.parts part ≡ Some pixel → All (PixelContains pixel) rows.items) }
        ensures kinds { IfErr result (MayRefuseLoading self.now.side (rows_of_part margin part)) }
        ensures cause { HasFaultCause S.disk.faults store.old store.new result }
    {
        let pixel = self.tree.parts()[part as usize];
        let asked = Asked {
            side: self.side,
            part,
            margin,
            pixel,
        };
        load_rows(self.alloc, store, &self.properties.settings.name, asked)
    }
}
