ghost use Rattle.std.specs.Prelude.{List};
ghost use Rattle.hx_base.specs.declared.pixel.Pixel.{Pixel};
ghost use Rattle.hx_base.specs.Pixels.{AreDisjointInOrder, IsPixel};
ghost use Rattle.hx_ptree.specs.Searches.{AreConsecutive, Overlaps};

/// Of disjoint pixels in order, those that overlap a pixel are consecutive.
pub fn overlaps_are_consecutive()
    ensures { (pixels : List Pixel) (pixel : Pixel) → AreDisjointInOrder pixels → IsPixel pixel →
        AreConsecutive (λ part. Overlaps part pixel) pixels }
{}
