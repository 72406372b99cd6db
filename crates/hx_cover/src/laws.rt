//! Laws on boxes, gaps and coverage.
ghost use Rattle.std.specs.Prelude.{[], ◌≡◌, ◌+◌, ◌++◌, ◌<◌, ◌≤◌, ◌^◌, ℕ, List, AllPairs, Contains, Option, None, Some, length};
ghost use Rattle.hx_base.specs.declared.pixel.Pixel.{Pixel};
ghost use Rattle.hx_base.specs.declared.row.Row.{Row};
ghost use Rattle.hx_base.specs.Boxes.{BoundingBox, IsBoxOf, gap2_of};
ghost use Rattle.hx_base.specs.Chords.{chord2_of};
ghost use Rattle.hx_base.specs.Coverage.{AreNear, IsLeastTooNear, IsRead, NoneTooNear};
ghost use Rattle.hx_base.specs.Pixels.{PixelContains, pixel_of, rows_in};
ghost use Rattle.hx_base.specs.Rows.{IsGood};
ghost use Rattle.hx_base.specs.Coverage.{IsCutInto};
ghost use Rattle.hx_cover.specs.TooNear.{AreBoxes, IsFirstTooNear};
ghost use Rattle.hx_cover.specs.declared.bounds.CoverBox.{CoverBox};
ghost use Rattle.hx_cover.specs.declared.bounds.TooNear.{TooNear};
ghost use Rattle.hx_cover.specs.Bounds.{IsBounded, IsInside, IsWithin, joined_box};

/// A pixel that contains rows has one box, and they lie in it.
pub fn boxes_of_pixels()
    ensures some { (pixel : Pixel) (rows : List Row) → 0 < length (rows_in pixel rows) → (box : BoundingBox) × IsBoxOf pixel rows box }
    ensures one { (pixel : Pixel) (rows : List Row) (a b : BoundingBox) → IsBoxOf pixel rows a → IsBoxOf pixel rows b → a ≡ b }
    ensures within { (pixel : Pixel) (rows : List Row) (box : BoundingBox) (row : Row) → IsBoxOf pixel rows box → Contains rows row →
        PixelContains pixel row → IsWithin box row }
{}

/// The squared gap of two boxes is no more than the squared chord of a row in the one and a row in the other, and no more
/// than the squared gap of boxes that lie in them. Of boxes of good rows it fits 64 bits.
pub fn gaps_of_boxes()
    ensures chord { (a b : BoundingBox) (left right : Row) → IsWithin a left → IsWithin b right → gap2_of a b ≤ chord2_of left right }
    ensures round { (a b c d : BoundingBox) → IsInside a c → IsInside b d → gap2_of c d ≤ gap2_of a b }
    ensures fits { (a b : BoundingBox) → IsBounded a.x → IsBounded a.y → IsBounded a.z → IsBounded b.x → IsBounded b.y → IsBounded b.z →
        gap2_of a b < 2 ^ 64 }
{}

/// Where the pixels of two rows are near at the cover order, the search for the left row reads the right row.
/// Where no pair of boxes is too near, it reads each right row within the radius.
pub fn coverage()
    ensures near { (parts : List Pixel) (margin_order : ℕ) (right : List Row) (l r : Row) → IsCutInto right parts margin_order →
        Contains right r →
        AreNear parts margin_order (pixel_of (margin_order + 2) l.hp) (pixel_of (margin_order + 2) r.hp) → IsRead parts margin_order l r }
    ensures read { (parts : List Pixel) (margin_order r2 : ℕ) (left right : List Row) → IsCutInto right parts margin_order →
        NoneTooNear parts margin_order r2 left right → (l r : Row) → Contains left l → Contains right r → chord2_of l r ≤ r2 →
        IsRead parts margin_order l r }
{}

/// The first pair of boxes that is too near is the least pair of pixels that is, of which there is one at most; where no
/// boxes are, no pixels are. Of parts of the left boxes, one after another, the first that has such a pair gives it.
pub fn first_pairs()
    ensures one { (parts : List Pixel) (margin_order r2 : ℕ) (left right : List Row) (p q gap2 a b other : ℕ) →
        IsLeastTooNear parts margin_order r2 left right p q gap2 → IsLeastTooNear parts margin_order r2 left right a b other →
        (p ≡ a) × (q ≡ b) × (gap2 ≡ other) }
    ensures none { (parts : List Pixel) (margin_order r2 : ℕ) (left right : List Row) (lefts rights : List CoverBox) →
        AreBoxes (margin_order + 2) left lefts → AreBoxes (margin_order + 2) right rights →
        IsFirstTooNear parts margin_order r2 lefts rights None → NoneTooNear parts margin_order r2 left right }
    ensures least { (parts : List Pixel) (margin_order r2 : ℕ) (left right : List Row) (lefts rights : List CoverBox) →
        AreBoxes (margin_order + 2) left lefts → AreBoxes (margin_order + 2) right rights → (found : TooNear) →
        IsFirstTooNear parts margin_order r2 lefts rights (Some found) →
        IsLeastTooNear parts margin_order r2 left right found.left found.right found.gap2 }
    ensures later { (parts : List Pixel) (margin_order r2 : ℕ) (first rest right : List CoverBox) (found : Option TooNear) →
        IsFirstTooNear parts margin_order r2 first right None → IsFirstTooNear parts margin_order r2 rest right found →
        IsFirstTooNear parts margin_order r2 (first ++ rest) right found }
    ensures earlier { (parts : List Pixel) (margin_order r2 : ℕ) (first rest right : List CoverBox) (found : TooNear) →
        AllPairs (λ a b. a.pixel < b.pixel) (first ++ rest) → IsFirstTooNear parts margin_order r2 first right (Some found) →
        IsFirstTooNear parts margin_order r2 (first ++ rest) right (Some found) }
{}

/// The box of a pixel over the rows of two lists is the least that has its boxes over each; or the one of them where the
/// other list has no rows there.
pub fn boxes_of_parts()
    ensures joined { (pixel : Pixel) (rows others : List Row) (a b : BoundingBox) → IsBoxOf pixel rows a → IsBoxOf pixel others b →
        IsBoxOf pixel (rows ++ others) (joined_box a b) }
    ensures before { (pixel : Pixel) (rows others : List Row) (box : BoundingBox) → rows_in pixel others ≡ [] → IsBoxOf pixel rows box →
        IsBoxOf pixel (rows ++ others) box }
    ensures behind { (pixel : Pixel) (rows others : List Row) (box : BoundingBox) → rows_in pixel rows ≡ [] → IsBoxOf pixel others box →
        IsBoxOf pixel (rows ++ others) box }
{}
