//! Where two headers differ.
ghost use Rattle.std.specs.Prelude.{◌≡◌, MatchOption};
ghost use Rattle.hx_journal.specs.Differences.{DifferAt};
ghost use Rattle.hx_journal.specs.Headers.{IsHeader};

/// The first place at which two headers differ, and their bytes there.
#[derive(Clone, Copy, Debug, PartialEq, Eq)]
pub struct Difference {
    /// The place, in bytes.
    pub place: u64,
    /// The byte of the header that was kept.
    pub kept: u8,
    /// The byte of the header that is asked for.
    pub asked: u8,
}

/// Where the header that a journal kept and the one that is asked for first differ, None exactly where they are one.
/// Neither is the front of the other, so both have a byte there. It takes no memory.
pub fn header_difference(kept: &[u8], asked: &[u8]) -> Option<Difference>
    requires kept { IsHeader kept.now }
    requires asked { IsHeader asked.now }
    ensures { MatchOption result (kept.now ≡ asked.now) (λ at. DifferAt kept.now asked.now at.place at.kept at.asked) }
{
    for i in 0..kept.len().min(asked.len()) {
        if kept[i] != asked[i] {
            return Some(Difference {
                place: i as u64,
                kept: kept[i],
                asked: asked[i],
            });
        }
    }
    None
}
