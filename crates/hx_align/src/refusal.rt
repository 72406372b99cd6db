//! Why counted rows have no plan.
ghost use Rattle.std.specs.Prelude.{◌≡◌};
ghost use Rattle.hx_align.specs.Refusals.{refusal_of};

use hx_base::{MOST_PARTITIONS, Refusal};
use std::alloc::AllocError;

/// Why there is no plan.
#[derive(Clone, Copy, Debug, PartialEq, Eq)]
pub enum AlignRefusal {
    /// A pixel of the highest order has more rows than the threshold: the least such one, with its count.
    Overfull { pixel: u64, count: u64 },
    /// There are more than 100000 partitions: so many.
    TooMany { found: u64 },
    /// Memory ran out.
    Memory,
}

impl From<AllocError> for AlignRefusal {
    ghost use Rattle.hx_align.specs.declared.refusal.AlignRefusal.TheVariants.{Memory};

    ghost from_gives = { λ _ refusal. refusal ≡ Memory };

    fn from(_error: AllocError) -> AlignRefusal {
        AlignRefusal::Memory
    }
}

impl From<AlignRefusal> for Refusal {
    ghost from_gives = { λ refusal given. given ≡ refusal_of refusal };

    fn from(refusal: AlignRefusal) -> Refusal {
        match refusal {
            AlignRefusal::Overfull { pixel, count } => Refusal::Overfull { pixel, count },
            AlignRefusal::TooMany { found } => Refusal::TooMany {
                what: 3,
                found,
                limit: MOST_PARTITIONS as u64,
            },
            AlignRefusal::Memory => Refusal::Memory,
        }
    }
}
