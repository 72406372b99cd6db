//! Reading the files of a catalogue, and how they are refused.
ghost use Rattle.std.specs.Prelude.{◌≡◌, IfErr, IfOk, option_map};
ghost use Rattle.hx_base.specs.Paths.{path_of};
ghost use Rattle.hx_outside.specs.Disk.{Passes};
ghost use Rattle.hx_outside.specs.Folders.{Same};
ghost use Rattle.hx_catalog.specs.Answers.{HasFaultCause, IsOutside, damaged_file, store_refusal};
ghost use Rattle.hx_catalog.specs.Files.{rows_of_part};

use hx_base::{JobFile, Name, Pixel, Refusal, SpillRefusal, job_path};
use hx_outside::{Store, StoreError};
use hx_publish::read_file;
use std::alloc::Global;

/// The pixel that stands where a file has none.
pub(crate) const NO_PIXEL: Pixel = Pixel {
    order: 0,
    number: 0,
};

/// A partition's own file, or that of its margin.
pub(crate) fn rows_of_part(margin: bool, part: u32) -> JobFile
    ensures { result ≡ rows_of_part margin part }
{
    if margin {
        JobFile::Margin(part)
    } else {
        JobFile::Part(part)
    }
}

// A store's error as a refusal.
fn store_refusal(error: StoreError) -> Refusal
    ensures { result ≡ store_refusal error }
{
    match error {
        StoreError::Failed => Refusal::StoreFault,
        StoreError::Memory => Refusal::Memory,
    }
}

/// The refusal of a file that isn't read.
pub(crate) fn damaged_file(side: u8, file: JobFile, refusal: SpillRefusal) -> Refusal
    ensures { result ≡ damaged_file side file refusal }
{
    match refusal {
        SpillRefusal::Memory => Refusal::Memory,
        SpillRefusal::Damaged { place } => Refusal::Damaged { side, file, place },
    }
}

/// All bytes of a file of a catalogue, None where it is absent. No file changes.
pub(crate) fn file_of<S: Store>(
    alloc: Global,
    store: &mut S,
    name: &Name,
    file: JobFile,
    pixel: Pixel,
) -> Result<Option<Vec<u8>>, Refusal>
    ensures unchanged { S.disk.tells store.old → Passes S.disk store.old store.new Same }
    ensures gives { S.disk.tells store.old → IfOk result (λ found. option_map (λ bytes. bytes.items) found ≡ S.disk.reads store.old (path_of name.now file pixel)) }
    ensures refused { IfErr result IsOutside }
    ensures cause { HasFaultCause S.disk.faults store.old store.new result }
{
    let path = job_path(alloc, name, file, pixel)?;
    match read_file(alloc, store, path.as_str()) {
        Ok(found) => Ok(found),
        Err(error) => Err(store_refusal(error)),
    }
}
