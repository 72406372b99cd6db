//! Laws on spots, on corner points and on touching.
ghost use Rattle.std.specs.Prelude.{◌≡◌, ◌↔◌, ◌⊎◌, ◌+◌, ◌/◌, ◌^◌, ◌<◌, ◌≤◌, ℕ};
ghost use Rattle.hx_base.specs.Touching.{IsAt, Touch, corner_point};
ghost use Rattle.hx_nest.specs.Sides.{AreOneCorner};

/// A pixel has one spot on one face.
pub fn spots_of_pixels()
    ensures { (order pixel face x y other a b : ℕ) → IsAt order pixel face x y → IsAt order pixel other a b
        → (face ≡ other) × (x ≡ a) × (y ≡ b) }
{}

/// Two corners of faces of n * n pixels are one point of the sphere exactly where they are the same corner, or
/// lie on a side or at a vertex at which the table of sides joins their faces, at the spots that it gives.
pub fn corners_of_faces()
    ensures { (n face x y other a b : ℕ) → 0 < n → face < 12 → other < 12 → x ≤ n → y ≤ n → a ≤ n → b ≤ n
        → (corner_point n face x y ≡ corner_point n other a b) ↔ AreOneCorner n face x y other a b }
{}

/// A pixel touches another exactly where that one touches it.
pub fn touching_is_symmetric()
    ensures { (order p q : ℕ) → Touch order p q → Touch order q p }
{}

/// Two pixels touch or don't.
pub fn touching_is_decided()
    ensures { (order p q : ℕ) → Touch order p q ⊎ (¬ (Touch order p q)) }
{}

/// The parents of touching pixels are one pixel or touch.
pub fn parents_of_touching()
    ensures { (order p q : ℕ) → Touch (order + 1) p q → (p / 4 ≡ q / 4) ⊎ Touch order (p / 4) (q / 4) }
{}

/// The pixels any number of orders up in which touching pixels lie are one pixel or touch.
pub fn ancestors_of_touching()
    ensures { (order steps p q : ℕ) → Touch (order + steps) p q →
        (p / 4 ^ steps ≡ q / 4 ^ steps) ⊎ Touch order (p / 4 ^ steps) (q / 4 ^ steps) }
{}
