//! Laws on margins.
ghost use Rattle.std.specs.Prelude.{◌≡◌, ◌⊎◌, ◌↔◌, ◌*◌, ◌/◌, ◌^◌, ◌≤◌, ℕ, Bool, List, Some, All, Any, slice_get};
ghost use Rattle.std.specs.List.{flat_map};
ghost use Rattle.hx_base.specs.declared.pixel.Pixel.{Pixel};
ghost use Rattle.hx_base.specs.declared.row.Row.{Row};
ghost use Rattle.hx_base.specs.Contents.{AreMarginRows, IsInMargin, TellsMargin, partition_rows};
ghost use Rattle.hx_base.specs.Pixels.{AreDisjointInOrder, HoldsPosition, PixelContains, first_position, pixel_of};
ghost use Rattle.hx_base.specs.Rows.{IsGood, sorted_rows};
ghost use Rattle.hx_base.specs.Touching.{Touch};
ghost use Rattle.hx_ptree.specs.Searches.{IsHolder};
ghost use Rattle.hx_spill.specs.Splits.{slice};
ghost use Rattle.hx_spill.specs.declared.split.Placed.{Placed};
ghost use Rattle.hx_margin.specs.Around.{AreAround, IsAround};
ghost use Rattle.hx_margin.specs.Beside.{margin_pixel};
ghost use Rattle.hx_margin.specs.Inner.{IsInner};
ghost use Rattle.hx_margin.specs.Slices.{AreSlices, AreSplitsOf};

use hx_nest::corners_of_faces;

/// Whatever the orders of both, a partition that holds a row of another's margin overlaps a neighbour of that one, at that
/// one's own order. So the other partitions have no row for the margin.
pub fn margins_reach()
    ensures { (part holder : Pixel) (margin_order : ℕ) (row : Row) → margin_order ≤ 29 → holder.order ≤ 29 →
        IsInMargin part margin_order row → PixelContains holder row → IsAround part holder }
{}

/// A row is in a partition's margin exactly where the partition doesn't contain it and holds the first position
/// of a pixel that touches the row's own pixel of the margin order.
pub fn margins_by_holders()
    ensures { (part : Pixel) (margin_order : ℕ) (row : Row) → part.order ≤ margin_order → margin_order ≤ 29 →
        IsInMargin part margin_order row ↔ ((¬ (PixelContains part row)) × (n : ℕ) ×
        Touch margin_order (pixel_of margin_order row.hp) n × HoldsPosition part (first_position (margin_pixel margin_order n))) }
{}

/// A row is in a partition's margin or isn't, so a test tells which are; and a list of rows has exactly one list of a
/// partition's margin.
pub fn margins_of_rows()
    ensures decided { (part : Pixel) (margin_order : ℕ) (row : Row) → IsInMargin part margin_order row ⊎ (¬ (IsInMargin part margin_order row)) }
    ensures test { (part : Pixel) (margin_order : ℕ) → (test : Row → Bool) × TellsMargin part margin_order test }
    ensures some { (part : Pixel) (margin_order : ℕ) (rows : List Row) → (margin : List Row) × AreMarginRows part margin_order rows margin }
    ensures one { (part : Pixel) (margin_order : ℕ) (rows a b : List Row) → AreMarginRows part margin_order rows a →
        AreMarginRows part margin_order rows b → a ≡ b }
{}

/// What the partitions around one have of its margin, each read once, put together and sorted, is exactly its margin. Each
/// row lies in some partition, and no position lies in two.
pub fn margins_whole()
    ensures slices { (rows : List Row) (parts : List Pixel) (part : Pixel) (margin_order : ℕ) (numbers : List ℕ) (slices : List (List Row)) →
        margin_order ≤ 29 → AreDisjointInOrder parts → All (λ row. Any (λ p. PixelContains p row) parts) rows →
        AreAround parts part numbers → AreSlices parts part margin_order rows numbers slices →
        AreMarginRows part margin_order rows (sorted_rows (flat_map (λ slice. slice) slices)) }

    // The same of the rows that the margin split files of these partitions have for the number of the partition.
    ensures splits { (rows : List Row) (parts : List Pixel) (number : ℕ) (part : Pixel) (margin_order : ℕ) (numbers : List ℕ) (splits : List (List Placed)) →
        margin_order ≤ 29 → AreDisjointInOrder parts → All (λ row. Any (λ p. PixelContains p row) parts) rows →
        slice_get parts number ≡ Some part → AreAround parts part numbers → AreSplitsOf parts margin_order rows numbers splits →
        AreMarginRows part margin_order rows (sorted_rows (flat_map (slice number) splits)) }
{}

/// Of the rows of a partition, the partition of that number holds each one's position, and each is good where all rows are:
/// what `margin_split` asks of them.
pub fn rows_of_a_partition()
    ensures held { (parts : List Pixel) (number : ℕ) (part : Pixel) (rows : List Row) → slice_get parts number ≡ Some part →
        All (λ row. IsHolder parts row.hp (Some number)) (partition_rows part rows) }
    ensures good { (part : Pixel) (rows : List Row) → All IsGood rows → All IsGood (partition_rows part rows) }
{}

/// A pixel away from the edge of the pixel so many orders up in which it lies touches only pixels that lie there too.
pub fn inner_pixels()
    ensures { (order steps p q : ℕ) → steps ≤ order → IsInner order steps p → Touch order p q →
        q / 4 ^ steps ≡ p / 4 ^ steps }
{
    corners_of_faces();
}
