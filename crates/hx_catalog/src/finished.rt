//! Laws of folders that read as catalogues.
ghost use Rattle.std.specs.Prelude.{◌≡◌, ℕ, Bool, List, Ok, Option, Result, Some, false, length, slice_get, true};
ghost use Rattle.hx_base.specs.Contents.{AreMarginRows, partition_rows};
ghost use Rattle.hx_base.specs.Coverage.{IsCutInto};
ghost use Rattle.hx_base.specs.declared.pixel.Pixel.{Pixel};
ghost use Rattle.hx_base.specs.declared.refusal.Refusal.{Refusal};
ghost use Rattle.hx_base.specs.declared.row.Row.{Row};
ghost use Rattle.hx_base.specs.declared.settings.Settings.{Settings};
ghost use Rattle.hx_outside.specs.Folders.{Folder};
ghost use Rattle.hx_catalog.specs.Answers.{Loads, Opened, Opens, opened_of};
ghost use Rattle.hx_catalog.specs.Catalogues.{IsCatalogue, IsFinished, KeepsSentences, properties_with};
ghost use Rattle.hx_catalog.specs.Files.{FileHolds};
ghost use Rattle.hx_catalog.specs.declared.properties.Properties.{Properties};
ghost use Rattle.std.specs.List.Sorted.{IsPermutation};

use hx_base::{partitions_of_rows, sorted_rows_of_lists};
use hx_pqread::reading_is_standing;

/// What the files of a folder read as has one answer to opening a catalogue, and one to loading a partition; and a file
/// holds the rows of one list alone.
pub fn answers_are_one()
    ensures opening { (folder : Folder) (name : List ℕ) (side : ℕ) (a b : Result Opened Refusal) →
        Opens folder name side a → Opens folder name side b → a ≡ b }
    ensures loading { (folder : Folder) (opened : Opened) (part : ℕ) (margin : Bool) (a b : Result (List Row) Refusal) →
        Loads folder opened part margin a → Loads folder opened part margin b → a ≡ b }
    ensures file { (file : Option (List ℕ)) (a b : List Row) → FileHolds file a → FileHolds file b → a ≡ b }
{
    reading_is_standing();
}

/// A folder that reads as a catalogue is opened as that, and of each partition the rows that it contains and those of its
/// margin are loaded. So neither `NoCatalogue` nor `Damaged` comes.
pub fn catalogues_are_read()
    ensures opens { (folder : Folder) (name : List ℕ) (settings : Settings) (rows : List Row) (side : ℕ) (is : IsCatalogue folder name settings rows) →
        Opens folder name side (Ok (opened_of settings (length rows) is.parts side)) }
    ensures rows { (folder : Folder) (name : List ℕ) (settings : Settings) (rows : List Row) (side part : ℕ) (pixel : Pixel) (is : IsCatalogue folder name settings rows) →
        slice_get is.parts part ≡ Some pixel →
        Loads folder (opened_of settings (length rows) is.parts side) part false (Ok (partition_rows pixel rows)) }
    ensures margins { (folder : Folder) (name : List ℕ) (settings : Settings) (rows : List Row) (side part : ℕ) (pixel : Pixel) (is : IsCatalogue folder name settings rows) →
        slice_get is.parts part ≡ Some pixel →
        (margin : List Row) × AreMarginRows pixel settings.margin_order rows margin × Loads folder (opened_of settings (length rows) is.parts side) part true (Ok margin) }
{
    sorted_rows_of_lists();
}

/// A catalogue's rows are cut into its partitions: each row lies in one, no position lies in two, and no partition's order is
/// above the margin order.
pub fn catalogues_are_cut()
    ensures { (folder : Folder) (name : List ℕ) (settings : Settings) (rows : List Row) (is : IsCatalogue folder name settings rows) →
        IsCutInto rows is.parts settings.margin_order }
{
    partitions_of_rows();
}

/// A folder that reads as the catalogue of some rows has a finished catalogue: that of the rows of its own files, which are
/// these rows in another order.
pub fn catalogues_are_finished()
    ensures { (folder : Folder) (name : List ℕ) (settings : Settings) (rows : List Row) → IsCatalogue folder name settings rows →
        (own : List Row) × IsPermutation rows own × IsFinished folder name settings own }
{
    sorted_rows_of_lists();
    partitions_of_rows();
}

/// A folder by itself keeps all sentences exactly where it has a finished catalogue, of the settings in its properties and
/// of the rows of its own files.
pub fn finished_catalogues_keep_sentences()
    ensures finished { (folder : Folder) (name : List ℕ) (properties : Properties) (parts : List Pixel) (rows : List Row) →
        KeepsSentences folder name properties parts rows → IsFinished folder name properties.settings rows }
    ensures sentences { (folder : Folder) (name : List ℕ) (settings : Settings) (rows : List Row) (is : IsFinished folder name settings rows) →
        KeepsSentences folder name (properties_with settings false (length rows) is.catalogue.parts) is.catalogue.parts rows }
{
    sorted_rows_of_lists();
    partitions_of_rows();
}
