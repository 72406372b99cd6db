ghost use Rattle.std.specs.Prelude.{◌≡◌, ◌↔◌, ◌++◌, ℕ, List, Contains, Option, None, flat_map, fold};
ghost use Rattle.std.specs.Cmp.{IsTotalOrder};
ghost use Rattle.std.specs.List.{AllZip};
ghost use Rattle.std.specs.List.Sorted.{IsPermutation};
ghost use Rattle.std.specs.Ordering.{int_cmp, nat_cmp, ordering_then};
ghost use Rattle.std.specs.declared.cmp.Ordering.TheVariants.{Equal};
ghost use Rattle.hx_base.specs.declared.row.Row.{Row};
ghost use Rattle.hx_base.specs.Chords.{chord2_of};
ghost use Rattle.hx_base.specs.Nearest.{IsNearest, SameWithin, match_cmp, nearer_of};

/// Rows are compared by their squared chord from a row, id, position, x, y and z. This order is total, and rows that
/// compare equal are one row.
pub fn order_of_matches()
    ensures fields { (from a b : Row) → match_cmp from a b ≡ ordering_then (nat_cmp (chord2_of from a) (chord2_of from b))
        (ordering_then (int_cmp a.id b.id) (ordering_then (nat_cmp a.hp b.hp)
        (ordering_then (int_cmp a.x b.x) (ordering_then (int_cmp a.y b.y) (int_cmp a.z b.z))))) }
    ensures total { (from : Row) → IsTotalOrder (match_cmp from) }
    ensures exact { (from a b : Row) → match_cmp from a b ≡ Equal → a ≡ b }
{}

/// A row has exactly one nearest row of a list within a radius, or none. Lists that have the same rows within the
/// radius have the same nearest row: so another order, or rows that stand more often, change nothing. The nearest of
/// two lists one after another is the better of their nearest rows, and that of pieces the best of theirs.
pub fn nearest_rows()
    ensures one { (from : Row) (r2 : ℕ) (rows : List Row) (a b : Option Row) →
        IsNearest from r2 rows a → IsNearest from r2 rows b → a ≡ b }
    ensures some { (from : Row) (r2 : ℕ) (rows : List Row) → (found : Option Row) × IsNearest from r2 rows found }
    ensures same { (from : Row) (r2 : ℕ) (rows others : List Row) (found : Option Row) →
        SameWithin from r2 rows others → IsNearest from r2 rows found → IsNearest from r2 others found }
    ensures permuted { (from : Row) (r2 : ℕ) (rows others : List Row) (found : Option Row) →
        IsPermutation rows others → IsNearest from r2 rows found → IsNearest from r2 others found }
    ensures repeated { (from : Row) (r2 : ℕ) (rows others : List Row) (found : Option Row) →
        ((row : Row) → Contains rows row ↔ Contains others row) → IsNearest from r2 rows found →
        IsNearest from r2 others found }
    ensures both { (from : Row) (r2 : ℕ) (rows others : List Row) (a b : Option Row) →
        IsNearest from r2 rows a → IsNearest from r2 others b →
        IsNearest from r2 (rows ++ others) (nearer_of from a b) }
    ensures pieces { (from : Row) (r2 : ℕ) (pieces : List (List Row)) (answers : List (Option Row)) →
        AllZip (IsNearest from r2) pieces answers →
        IsNearest from r2 (flat_map (λ piece. piece) pieces) (fold (nearer_of from) None answers) }
{}
