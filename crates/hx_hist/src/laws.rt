ghost use Rattle.std.specs.Prelude.{◌≡◌, ℕ, List};
ghost use Rattle.hx_hist.specs.Histograms.{IsHistogram, count_at};
ghost use Rattle.hx_hist.specs.declared.hist.Pair.{Pair};

/// A histogram is its counts: histograms of an order that count as many rows at each pixel have the same pairs.
pub fn histograms_are_counts()
    ensures { (order : ℕ) (xs ys : List Pair) → IsHistogram order xs → IsHistogram order ys →
        ((p : ℕ) → count_at p xs ≡ count_at p ys) → xs ≡ ys }
{}
