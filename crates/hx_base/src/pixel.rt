//! Pixels of HEALPix's nested scheme. A position is the number of a pixel of order 29.
ghost use Rattle.std.specs.Prelude.{◌≡◌, ◌↔◌, ◌-◌, ◌*◌, ◌/◌, ◌^◌, ◌<◌, ◌≤◌, IsTrue, nat_le};
ghost use Rattle.hx_base.specs.Pixels.{HoldsPosition, IsPixel, LiesIn, ancestor, end_position, first_position, pixel_of};

/// The order at which positions are told.
const POSITIONS: u8 = 29;

/// A pixel of HEALPix's nested scheme. At order k there are 12 * 4^k of them.
#[derive(Clone, Copy, Debug, PartialEq, Eq)]
pub struct Pixel {
    /// The order, 0 to 29.
    pub order: u8,
    /// The nested number at that order, below 12 * 4^order.
    pub number: u64,
}

/// How many pixels an order has, from 12 at order 0 to 3458764513820540928 at order 29.
#[inline]
pub fn pixels_of_order(order: u8) -> u64
    requires { order ≤ 29 }
    ensures { result ≡ 12 * 4 ^ order }
{
    12 << (2 * order)
}

// How many bits a position has more than the number of a pixel of an order; none where the order is above 29.
#[inline]
fn bits_below(order: u8) -> u32
    ensures { result ≡ 2 * (29 - order) }
{
    2 * u32::from(POSITIONS.saturating_sub(order))
}

// The number of the pixel some orders up in which the pixel of a number lies.
#[inline]
#[tactic(auto, using(crate::proofs::Powers::four_is))]
fn number_up(number: u64, steps: u8) -> u64
    requires { steps ≤ 29 }
    ensures { result ≡ number / 4 ^ steps }
{
    number >> (2 * steps)
}

// The number of the pixel of an order that holds a position.
#[inline]
#[tactic(auto, unfolding(crate::specs::Pixels::pixel_of))]
fn number_at(order: u8, position: u64) -> u64
    ensures { result ≡ pixel_of order position }
{
    number_up(position, POSITIONS.saturating_sub(order))
}

impl Pixel {
    /// The pixel of an order that holds a position.
    #[inline]
    pub fn holding(order: u8, position: u64) -> Pixel
        requires order { order ≤ 29 }
        requires position { position < 12 * 4 ^ 29 }
        ensures value { result ≡ record { order = order; number = pixel_of order position } }
        ensures exists { IsPixel result }
    {
        Pixel {
            order,
            number: number_at(order, position),
        }
    }

    /// Whether there is such a pixel: its order is at most 29, and its number below 12 * 4^order.
    #[inline]
    pub fn exists(&self) -> bool
        ensures { IsTrue result ↔ IsPixel self.now }
    {
        self.order <= POSITIONS && self.number < pixels_of_order(self.order)
    }

    /// The first position that the pixel holds.
    #[inline]
    pub fn first_position(&self) -> u64
        requires { IsPixel self.now }
        ensures value { result ≡ first_position self.now }
        ensures range { result < 12 * 4 ^ 29 }
    {
        self.number << bits_below(self.order)
    }

    /// The position behind the last that the pixel holds.
    #[inline]
    pub fn end_position(&self) -> u64
        requires { IsPixel self.now }
        ensures value { result ≡ end_position self.now }
        ensures after { first_position self.now < result }
        ensures range { result ≤ 12 * 4 ^ 29 }
    {
        (self.number + 1) << bits_below(self.order)
    }

    /// Whether the pixel holds a position.
    #[inline]
    pub fn holds(&self, position: u64) -> bool
        ensures { IsTrue result ↔ HoldsPosition self.now position }
    {
        number_at(self.order, position) == self.number
    }

    /// Whether the pixel's first position isn't behind a position.
    #[inline]
    pub fn begins_by(&self, position: u64) -> bool
        ensures { result ≡ nat_le (first_position self.now) position }
    {
        self.number <= number_at(self.order, position)
    }

    /// Whether all that the pixel holds is before a position.
    #[inline]
    pub fn ends_by(&self, position: u64) -> bool
        ensures { result ≡ nat_le (end_position self.now) position }
    {
        self.number < number_at(self.order, position)
    }

    /// The pixel some orders up in which the pixel lies, the pixel itself at 0.
    #[inline]
    pub fn ancestor(&self, steps: u8) -> Pixel
        requires order { self.now.order ≤ 29 }
        requires steps { steps ≤ self.now.order }
        ensures value { result ≡ ancestor steps self.now }
        ensures lies { LiesIn self.now result }
    {
        Pixel {
            order: self.order - steps,
            number: number_up(self.number, steps),
        }
    }
}
