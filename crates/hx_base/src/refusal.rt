ghost use Rattle.std.specs.Prelude.{◌≡◌};
ghost use Rattle.hx_base.specs.Refusals.{status_of};

use std::alloc::AllocError;

/// A file that an import or a cross-match reads or writes. A number is that of its input or partition.
#[derive(Clone, Copy, Debug, PartialEq, Eq)]
pub enum JobFile {
    Journal,
    Map(u32),
    Plan,
    Split(u32),
    Part(u32),
    MarginSplit(u32),
    Margin(u32),
    List,
    MarginList,
    MarginProperties,
    Properties,
}

/// Why a command was not done.
#[derive(Clone, Copy, Debug, PartialEq, Eq)]
pub enum Refusal {
    /// The words of the command line have no meaning.
    Usage,
    /// An input (from 0) can't be read as rows: its first fault, at a row (from 1; 0 is the file as a
    /// whole), by the number of the fault.
    BadInput {
        input: u32,
        row: u64,
        why: u8,
    },
    /// A pixel of the highest order has more rows than the threshold.
    Overfull {
        pixel: u64,
        count: u64,
    },
    /// Two pixels of the cover order are nearer than the radius, and no margin joins them.
    TooNarrow {
        left: u64,
        right: u64,
        gap2: u64,
    },
    /// A call of the store failed.
    StoreFault,
    /// A call of an input failed.
    InputFault {
        input: u32,
    },
    /// The output could not be written.
    SinkFault,
    /// Memory ran out.
    Memory,
    /// There is no catalogue of the left or only name (1) or of the right name (2).
    NoCatalogue {
        side: u8,
    },
    /// The folder holds another job, whose journal's header first differs at a place, in bytes.
    OtherJob {
        place: u64,
        kept: u8,
        asked: u8,
    },
    /// A file isn't one of its kind, from a place on, in bytes.
    Damaged {
        side: u8,
        file: JobFile,
        place: u64,
    },
    /// An input has other rows in a pixel than it had when it was counted.
    InputChanged {
        input: u32,
        pixel: u64,
        kept: u64,
        found: u64,
    },
    /// Too many inputs (1), bytes of an input (2) or partitions (3).
    TooMany {
        what: u8,
        found: u64,
        limit: u64,
    },
    /// The name has a catalogue that no journal speaks of.
    NameTaken,
}

impl From<AllocError> for Refusal {
    ghost use Rattle.hx_base.specs.declared.refusal.Refusal.TheVariants.{Memory};

    ghost from_gives = { λ _ refusal. refusal ≡ Memory };

    fn from(_error: AllocError) -> Refusal {
        Refusal::Memory
    }
}

/// Why a work file or a catalogue's text was not read.
#[derive(Clone, Copy, Debug, PartialEq, Eq)]
pub enum SpillRefusal {
    /// Memory ran out.
    Memory,
    /// The bytes aren't such a file, from a place on, in bytes.
    Damaged { place: u64 },
}

impl From<AllocError> for SpillRefusal {
    ghost use Rattle.hx_base.specs.declared.refusal.SpillRefusal.TheVariants.{Memory};

    ghost from_gives = { λ _ refusal. refusal ≡ Memory };

    fn from(_error: AllocError) -> SpillRefusal {
        SpillRefusal::Memory
    }
}

impl Refusal {
    /// The exit status of the program.
    pub fn status(&self) -> u8
        ensures { result ≡ status_of self.now }
    {
        match self {
            Refusal::Usage => 1,
            Refusal::BadInput { .. } => 2,
            Refusal::Overfull { .. } => 3,
            Refusal::TooNarrow { .. } => 4,
            Refusal::StoreFault => 5,
            Refusal::InputFault { .. } => 6,
            Refusal::SinkFault => 7,
            Refusal::Memory => 8,
            Refusal::NoCatalogue { .. } => 9,
            Refusal::OtherJob { .. } => 10,
            Refusal::Damaged { .. } => 11,
            Refusal::InputChanged { .. } => 12,
            Refusal::TooMany { .. } => 13,
            Refusal::NameTaken => 14,
        }
    }
}

#[cfg(test)]
mod tests {
    use super::*;

    #[test]
    fn statuses(rt: HostRuntime) {
        let damaged = Refusal::Damaged {
            side: 1,
            file: JobFile::Part(3),
            place: 7,
        };
        let cases = [
            (Refusal::Usage, 1),
            (Refusal::SinkFault, 7),
            (Refusal::Memory, 8),
            (damaged, 11),
            (Refusal::NameTaken, 14),
        ];
        for (refusal, status) in cases {
            assert_eq!(rt; refusal.status(), status, "{refusal:?}");
        }
    }
}
