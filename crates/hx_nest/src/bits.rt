//! Bits set apart to the even digits of a number and moved together again, half a block at a time.
ghost use Rattle.std.specs.Prelude.{◌≡◌, ◌^◌, ◌<◌, ◌≤◌, ℕ};
ghost use Rattle.hx_base.specs.Touching.{interleave};
ghost use Rattle.hx_nest.specs.Bits.{even_bits};

// Every second block of 16, 8, 4, 2 and 1 bits.
const BLOCKS_OF_16: u64 = 0x0000_FFFF_0000_FFFF;

const BLOCKS_OF_8: u64 = 0x00FF_00FF_00FF_00FF;

const BLOCKS_OF_4: u64 = 0x0F0F_0F0F_0F0F_0F0F;

const BLOCKS_OF_2: u64 = 0x3333_3333_3333_3333;

const EVEN_BITS: u64 = 0x5555_5555_5555_5555;

/// The number that has the bits of x at its even digits.
pub fn spread(x: u32) -> u64
    ensures { (k : ℕ) → k ≤ 32 → x < 2 ^ k → result ≡ interleave k x 0 }
{
    let bits = u64::from(x);
    let bits = (bits | bits << 16) & BLOCKS_OF_16;
    let bits = (bits | bits << 8) & BLOCKS_OF_8;
    let bits = (bits | bits << 4) & BLOCKS_OF_4;
    let bits = (bits | bits << 2) & BLOCKS_OF_2;
    (bits | bits << 1) & EVEN_BITS
}

/// The bits at the even digits of a number.
pub fn gathered(number: u64) -> u32
    ensures { (k : ℕ) → k ≤ 32 → number < 4 ^ k → result ≡ even_bits k number }
{
    let bits = number & EVEN_BITS;
    let bits = (bits | bits >> 1) & BLOCKS_OF_2;
    let bits = (bits | bits >> 2) & BLOCKS_OF_4;
    let bits = (bits | bits >> 4) & BLOCKS_OF_8;
    let bits = (bits | bits >> 8) & BLOCKS_OF_16;
    ((bits | bits >> 16) & 0xFFFF_FFFF) as u32
}
