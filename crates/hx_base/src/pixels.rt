//! Lists of pixels.
ghost use Rattle.std.specs.Prelude.{◌≡◌, ◌↔◌, ◌≤◌, All, AllPairs, IsTrue};
ghost use Rattle.hx_base.specs.Pixels.{AreDisjointInOrder, IsPixel, end_position, first_position};

use crate::Pixel;

fn all_exist(pixels: &[Pixel]) -> bool
    ensures { IsTrue result ↔ All IsPixel pixels.now }
{
    pixels.iter().all(|pixel| pixel.exists())
}

// Whether each pixel ends at or before the next one's first position.
fn each_ends_first(pixels: &[Pixel]) -> bool
    requires { All IsPixel pixels.now }
    ensures { IsTrue result ↔ AllPairs (λ a b. end_position a ≤ first_position b) pixels.now }
{
    for i in 1..pixels.len() {
        if pixels[i - 1].end_position() > pixels[i].first_position() {
            return false;
        }
    }
    true
}

/// Whether the pixels of a list exist, share no position, and stand by their first positions. It looks once at each.
pub fn are_disjoint_in_order(pixels: &[Pixel]) -> bool
    ensures { IsTrue result ↔ AreDisjointInOrder pixels.now }
{
    all_exist(pixels) && each_ends_first(pixels)
}

#[cfg(test)]
mod tests {
    use super::*;
    use crate::pixels_of_order;

    const fn at(order: u8, number: u64) -> Pixel
        ensures { result ≡ record { order = order; number = number } }
    {
        Pixel { order, number }
    }

    #[test]
    fn lists(rt: HostRuntime) {
        assert!(rt; are_disjoint_in_order(&[]));
        assert!(rt; are_disjoint_in_order(&[at(0, 0), at(0, 1), at(1, 8), at(0, 11)]));
        assert!(rt; are_disjoint_in_order(&[at(29, 0), at(29, 1), at(28, 1), at(2, 1)]));
        // Equal, one in the other, out of order.
        assert!(rt; !are_disjoint_in_order(&[at(0, 1), at(0, 1)]));
        assert!(rt; !are_disjoint_in_order(&[at(0, 1), at(1, 7)]));
        assert!(rt; !are_disjoint_in_order(&[at(1, 4), at(0, 1)]));
        assert!(rt; !are_disjoint_in_order(&[at(0, 2), at(1, 4)]));
        assert!(rt; !are_disjoint_in_order(&[at(0, 0), at(0, 5), at(0, 1)]));
        // No pixel.
        assert!(rt; !are_disjoint_in_order(&[at(0, 12)]));
        assert!(rt; !are_disjoint_in_order(&[at(0, 0), at(30, 77)]));
    }

    #[test]
    fn pixels(rt: HostRuntime) {
        const LAST: u64 = (12 << 58) - 1;
        assert_eq!(rt; pixels_of_order(0), 12);
        assert_eq!(rt; pixels_of_order(29), LAST + 1);
        assert_eq!(rt; Pixel::holding(0, LAST), at(0, 11));
        assert_eq!(rt; Pixel::holding(29, LAST), at(29, LAST));
        assert_eq!(rt; at(1, 5).first_position(), 5 << 56);
        assert_eq!(rt; at(1, 5).end_position(), 6 << 56);
        assert_eq!(rt; at(0, 11).end_position(), LAST + 1);
        assert!(rt; at(0, 11).holds(LAST) && !at(0, 10).holds(LAST));
        assert!(rt; at(1, 5).begins_by(5 << 56) && !at(1, 5).begins_by((5 << 56) - 1));
        assert!(rt; at(1, 5).ends_by(6 << 56) && !at(1, 5).ends_by((6 << 56) - 1));
        assert_eq!(rt; at(3, 77).ancestor(0), at(3, 77));
        assert_eq!(rt; at(3, 77).ancestor(2), at(1, 4));
        assert_eq!(rt; at(29, LAST).ancestor(29), at(0, 11));
        assert!(rt; at(29, LAST).exists() && !at(29, LAST + 1).exists() && !at(30, 0).exists());
    }
}
