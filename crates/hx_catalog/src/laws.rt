ghost use Rattle.std.specs.Prelude.{◌≡◌, ◌↔◌, ◌<◌, ◌≤◌, ◌⊎◌, [], ℕ, List, take};
ghost use Rattle.hx_base.specs.Limits.{highest_margin_order, highest_order};
ghost use Rattle.hx_base.specs.declared.pixel.Pixel.{Pixel};
ghost use Rattle.hx_catalog.specs.Lines.{IsFirstBroken, NoneBroken};
ghost use Rattle.hx_catalog.specs.Lists.{AreListLines, IsList, list_text};
ghost use Rattle.hx_catalog.specs.Properties.{AreProperties, ArePropertyLines, HaveLines, properties_text, property_lines};
ghost use Rattle.hx_catalog.specs.declared.properties.Properties.{Properties};

/// A text is that of one list of partitions at most; no line of a list's text breaks a rule; and the first line that
/// does has one place.
pub fn lists_have_one_reading()
    ensures one { (a b : List Pixel) → IsList a → IsList b → list_text a ≡ list_text b → a ≡ b }
    ensures unbroken { (pixels : List Pixel) (place : ℕ) → IsList pixels → ¬ (IsFirstBroken AreListLines (list_text pixels) place) }
    ensures place { (text : List ℕ) (a b : ℕ) → IsFirstBroken AreListLines text a → IsFirstBroken AreListLines text b → a ≡ b }
{}

/// The same of properties.
pub fn properties_have_one_reading()
    ensures one { (a b : Properties) → AreProperties a → AreProperties b → properties_text a ≡ properties_text b → a ≡ b }
    ensures unbroken { (of : Properties) (place : ℕ) → AreProperties of → ¬ (IsFirstBroken ArePropertyLines (properties_text of) place) }
    ensures place { (text : List ℕ) (a b : ℕ) → IsFirstBroken ArePropertyLines text a → IsFirstBroken ArePropertyLines text b → a ≡ b }
{}

/// Which lines break a rule. Lines of a list break none exactly where there are none or they are those of pixels that a
/// list may name. Of properties the line of the lowest order breaks none where it is at most 20, that of the highest
/// where it is from the lowest to 20, and that of the margin order where it is above the highest and at most 24; each
/// where no line before does.
pub fn lines_that_break_no_rule()
    ensures list { (lines : List (List ℕ)) → NoneBroken AreListLines lines ↔ ((lines ≡ []) ⊎ AreListLines lines) }
    ensures lowest { (of : Properties) → HaveLines of →
        NoneBroken ArePropertyLines (take 5 (property_lines of)) ↔ (of.settings.lowest ≤ highest_order) }
    ensures highest { (of : Properties) → HaveLines of → NoneBroken ArePropertyLines (take 6 (property_lines of)) ↔
        ((of.settings.lowest ≤ of.settings.highest) × (of.settings.highest ≤ highest_order)) }
    ensures margin_order { (of : Properties) → HaveLines of → NoneBroken ArePropertyLines (take 7 (property_lines of)) →
        NoneBroken ArePropertyLines (take 8 (property_lines of)) ↔
        ((of.settings.highest < of.settings.margin_order) × (of.settings.margin_order ≤ highest_margin_order)) }
{}
