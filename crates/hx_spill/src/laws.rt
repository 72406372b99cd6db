ghost use Rattle.std.specs.Prelude.{◌≡◌, ◌++◌, ◌≤◌, [], ℕ, List, Ok, Result, Some, slice_get};
ghost use Rattle.std.specs.List.{AllZip, flat_map};
ghost use Rattle.hx_align.specs.Plans.{IsAligned, totals_of};
ghost use Rattle.hx_align.specs.declared.plan.PlanRow.{PlanRow};
ghost use Rattle.hx_align.specs.declared.refusal.AlignRefusal.{AlignRefusal};
ghost use Rattle.hx_base.specs.Contents.{partition_rows};
ghost use Rattle.hx_base.specs.Pixels.{count_in};
ghost use Rattle.hx_base.specs.Rows.{sorted_rows};
ghost use Rattle.hx_base.specs.declared.pixel.Pixel.{Pixel};
ghost use Rattle.hx_base.specs.declared.row.Row.{Row};
ghost use Rattle.hx_hist.specs.Histograms.{Histogram};
ghost use Rattle.hx_spill.specs.Alone.{HasSlices};
ghost use Rattle.hx_spill.specs.Splits.{HasHead, slice, split_in};
ghost use Rattle.hx_spill.specs.Values.{AreCountsOf, AreMarginSplit, AreSplit, IsPlanFor, IsSumOf, IsSumOfAll};
ghost use Rattle.hx_spill.specs.declared.split.Placed.{Placed};

/// A split file begins with a head of which the search for a part gives the place where the part's rows stand in the
/// file and how many they are, or None where there are none.
pub fn heads_tell_slices()
    ensures { (bytes : List ℕ) (placed : List Placed) → split_in bytes ≡ Ok placed → HasHead bytes placed }
{}

/// A part of a split file can be read alone: the first twelve bytes tell the head's length, the head tells where the
/// part's rows stand, and their bytes are read as these rows.
pub fn slices_are_read_alone()
    ensures { (bytes : List ℕ) (placed : List Placed) → split_in bytes ≡ Ok placed → HasSlices bytes placed }
{}

/// The counts of no rows are none, and those of rows of one list after another are the sums. So the sums of all inputs'
/// counts are the counts of all inputs' rows.
pub fn counts_of_inputs()
    ensures none { (order : ℕ) → AreCountsOf order [] (record { order = order; pairs = [] }) }
    ensures more { (order : ℕ) (rows more : List Row) (a b both : Histogram) → AreCountsOf order rows a →
        AreCountsOf order more b → IsSumOf order a b both → AreCountsOf order (rows ++ more) both }
    ensures all_inputs { (order : ℕ) (inputs : List (List Row)) (hists : List Histogram) (sum : Histogram) →
        AllZip (AreCountsOf order) inputs hists → IsSumOfAll order hists sum →
        AreCountsOf order (flat_map (λ rows. rows) inputs) sum }
{}

/// The alignment of a histogram that counts rows is that of the rows: their partitions with their counts, the first
/// overfull pixel, or how many partitions there are.
pub fn alignments_are_of_rows()
    ensures { (lowest highest threshold : ℕ) (rows : List Row) (hist : Histogram) (answer : Result (List PlanRow) AlignRefusal) →
        highest ≤ 29 → AreCountsOf highest rows hist → IsAligned (totals_of hist) lowest highest threshold answer →
        IsAligned (λ pixel. count_in pixel rows) lowest highest threshold answer }
{}

/// The slices of a partition in the split files of inputs, gathered and sorted, are the partition's rows of these
/// inputs.
pub fn slices_of_inputs()
    ensures none { (pixel : Pixel) → sorted_rows [] ≡ partition_rows pixel [] }
    ensures more { (pixel : Pixel) (rows more gathered there : List Row) →
        sorted_rows gathered ≡ partition_rows pixel rows → there ≡ partition_rows pixel more →
        sorted_rows (gathered ++ there) ≡ partition_rows pixel (rows ++ more) }
    ensures all_inputs { (parts : List Pixel) (part : ℕ) (pixel : Pixel) (inputs : List (List Row)) (splits : List (List Placed)) →
        slice_get parts part ≡ Some pixel → AllZip (AreSplit parts) inputs splits →
        sorted_rows (flat_map (slice part) splits) ≡ partition_rows pixel (flat_map (λ rows. rows) inputs) }
{}

/// Rows have one histogram of an order, one plan, and one list of rows by the partitions that contain them or whose
/// margins have them.
pub fn values_are_one()
    ensures counts { (order : ℕ) (rows : List Row) (a b : Histogram) → AreCountsOf order rows a → AreCountsOf order rows b →
        a ≡ b }
    ensures plan { (lowest highest threshold : ℕ) (rows : List Row) (a b : List PlanRow) →
        IsPlanFor lowest highest threshold rows a → IsPlanFor lowest highest threshold rows b → a ≡ b }
    ensures split { (parts : List Pixel) (rows : List Row) (a b : List Placed) → AreSplit parts rows a →
        AreSplit parts rows b → a ≡ b }
    ensures margin_split { (parts : List Pixel) (margin_order : ℕ) (rows : List Row) (a b : List Placed) →
        AreMarginSplit parts margin_order rows a → AreMarginSplit parts margin_order rows b → a ≡ b }
{}
