ghost use Rattle.std.specs.Prelude.{◌≡◌, ◌↔◌, ◌*◌, ◌^◌, ◌<◌, ◌≤◌, ℕ, List, All, AllPairs, Contains, length};
ghost use Rattle.std.specs.Cmp.{IsTotalOrder};
ghost use Rattle.std.specs.List.Sorted.{IsPermutation, IsSorted};
ghost use Rattle.std.specs.declared.cmp.Ordering.TheVariants.{Equal};
ghost use Rattle.hx_base.specs.declared.row.Row.{Row};
ghost use Rattle.hx_base.specs.declared.pixel.Pixel.{Pixel};
ghost use Rattle.hx_base.specs.Rows.{row_cmp, sorted_rows};
ghost use Rattle.hx_base.specs.Pixels.{AreDisjointInOrder, HoldsPosition, IsPixel, PixelContains, count_in, end_position, first_position, rows_in};
ghost use Rattle.hx_base.specs.Partitions.{ArePartitions, NothingOverfull, holders_of};

/// The order of rows is total, and rows that compare equal are one row.
pub fn order_of_rows()
    ensures total { IsTotalOrder row_cmp }
    ensures exact { (a b : Row) → row_cmp a b ≡ Equal → a ≡ b }
{}

/// The sorted rows of a list ascend, each as often as the list has it, and they are the only such list: lists that
/// have the same rows as often, in whatever order, have the same sorted rows.
pub fn sorted_rows_of_lists()
    ensures ascending { (rows : List Row) → IsSorted row_cmp (sorted_rows rows) }
    ensures as_often { (rows : List Row) → IsPermutation rows (sorted_rows rows) }
    ensures only { (rows others : List Row) → IsSorted row_cmp others → IsPermutation rows others →
        others ≡ sorted_rows rows }
    ensures permutation { (rows others : List Row) → IsPermutation rows others → sorted_rows rows ≡ sorted_rows others }
{}

/// A pixel holds the positions from its first to its end, and exactly these. Pixels are disjoint and in order exactly
/// where each exists and each ends at or before the first position of every later one.
pub fn ranges_of_pixels()
    ensures range { (pixel : Pixel) (position : ℕ) →
        HoldsPosition pixel position ↔ ((first_position pixel ≤ position) × (position < end_position pixel)) }
    ensures ascending { (pixels : List Pixel) →
        AreDisjointInOrder pixels ↔ (All IsPixel pixels × AllPairs (λ a b. end_position a ≤ first_position b) pixels) }
{}

/// The rows of a list in a pixel are those that the list has and the pixel contains.
pub fn rows_in_a_pixel()
    ensures { (pixel : Pixel) (rows : List Row) (row : Row) →
        Contains (rows_in pixel rows) row ↔ (Contains rows row × PixelContains pixel row) }
{}

/// Where no pixel of the highest order is overfull, each row of a list lies in exactly one of its partitions.
/// No position lies in two partitions.
pub fn partitions_of_rows()
    ensures each_once { (rows : List Row) (lowest highest threshold : ℕ) (pixels : List Pixel) →
        All (λ row. row.hp < 12 * 4 ^ 29) rows → lowest ≤ highest → highest ≤ 29 →
        NothingOverfull (λ pixel. count_in pixel rows) highest threshold →
        ArePartitions (λ pixel. count_in pixel rows) lowest highest threshold pixels →
        All (λ row. length (holders_of row.hp pixels) ≡ 1) rows }
    ensures disjoint { (rows : List Row) (lowest highest threshold : ℕ) (pixels : List Pixel) →
        ArePartitions (λ pixel. count_in pixel rows) lowest highest threshold pixels →
        AreDisjointInOrder pixels }
{}
