//! Why a task has no file.
ghost use Rattle.std.specs.Prelude.{◌≡◌};
ghost use Rattle.hx_work.specs.Work.{of_alignment, of_difference, of_rows};

use hx_align::AlignRefusal;
use hx_hist::Difference;
use hx_rows::RowRefusal;
use std::alloc::AllocError;

/// Why a task has no file.
#[derive(Clone, Copy, Debug, PartialEq, Eq)]
pub enum WorkRefusal {
    /// Memory ran out.
    Memory,
    /// The input's first fault: its row (from 1; 0 is the file as a whole) and its number.
    Bad { row: u64, why: u8 },
    /// The first pixel of the highest order of which the input has another number of rows than its map: the number in
    /// the map, and the one found now.
    Changed { pixel: u64, kept: u64, found: u64 },
    /// A pixel of the highest order has more rows than the threshold: the least such one, with its count.
    Overfull { pixel: u64, count: u64 },
    /// There are more than 100000 partitions: so many.
    TooMany { found: u64 },
}

impl From<AllocError> for WorkRefusal {
    ghost use Rattle.hx_work.specs.declared.refusal.WorkRefusal.TheVariants.{Memory};

    ghost from_gives = { λ _ refusal. refusal ≡ Memory };

    fn from(_error: AllocError) -> WorkRefusal {
        WorkRefusal::Memory
    }
}

impl From<RowRefusal> for WorkRefusal {
    ghost from_gives = { λ refusal given. given ≡ of_rows refusal };

    fn from(refusal: RowRefusal) -> WorkRefusal {
        match refusal {
            RowRefusal::Memory => WorkRefusal::Memory,
            RowRefusal::Bad { row, why } => WorkRefusal::Bad { row, why },
        }
    }
}

impl From<AlignRefusal> for WorkRefusal {
    ghost from_gives = { λ refusal given. given ≡ of_alignment refusal };

    fn from(refusal: AlignRefusal) -> WorkRefusal {
        match refusal {
            AlignRefusal::Overfull { pixel, count } => WorkRefusal::Overfull { pixel, count },
            AlignRefusal::TooMany { found } => WorkRefusal::TooMany { found },
            AlignRefusal::Memory => WorkRefusal::Memory,
        }
    }
}

impl From<Difference> for WorkRefusal {
    ghost from_gives = { λ difference given. given ≡ of_difference difference };

    fn from(difference: Difference) -> WorkRefusal {
        WorkRefusal::Changed {
            pixel: difference.pixel,
            kept: difference.kept,
            found: difference.found,
        }
    }
}
