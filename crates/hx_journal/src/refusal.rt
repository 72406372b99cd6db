//! Why a journal isn't opened.
ghost use Rattle.std.specs.Prelude.{◌≡◌};
ghost use Rattle.hx_journal.specs.Refusals.{refusal_of};
ghost use Rattle.hx_journal.specs.declared.refusal.JournalRefusal.TheVariants.{Memory};

use hx_outside::StoreError;
use std::alloc::{AllocError, AllocFailed};

/// Why a journal isn't opened.
#[derive(Clone, Copy, Debug, PartialEq, Eq)]
pub enum JournalRefusal {
    /// There is no such file.
    Absent,
    /// The file is no journal.
    Damaged {
        /// 0 where the file doesn't begin with a header, else the place of the first gate, in bytes, that is absent,
        /// or is open without a body and another gate behind it.
        place: u64,
    },
    /// The store failed, and its count of faults rose, or stands at 2^64 - 1.
    StoreFault,
    /// Memory ran out.
    Memory,
}

impl From<AllocError> for JournalRefusal {
    ghost from_gives = { λ _ refusal. refusal ≡ Memory };

    fn from(_: AllocError) -> Self {
        JournalRefusal::Memory
    }
}

impl<T: Drop> From<AllocFailed<T>> for JournalRefusal {
    ghost from_gives = { λ _ refusal. refusal ≡ Memory };

    fn from(_: AllocFailed<T>) -> Self {
        JournalRefusal::Memory
    }
}

impl From<StoreError> for JournalRefusal {
    ghost from_gives = { λ error refusal. refusal ≡ refusal_of error };

    fn from(error: StoreError) -> Self {
        match error {
            StoreError::Failed => JournalRefusal::StoreFault,
            StoreError::Memory => JournalRefusal::Memory,
        }
    }
}
