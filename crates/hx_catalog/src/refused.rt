//! Why a text isn't read.
ghost use Rattle.std.specs.Prelude.{◌≡◌, ◌-◌, length};
ghost use Rattle.hx_base.specs.declared.refusal.SpillRefusal.TheVariants.{Damaged};

use hx_base::SpillRefusal;

/// A text is damaged where the rest of it begins.
pub(crate) fn damaged(text: &[u8], rest: &[u8]) -> SpillRefusal
    ensures { result ≡ Damaged (length text.now - length rest.now) }
{
    SpillRefusal::Damaged {
        place: text.len().saturating_sub(rest.len()) as u64,
    }
}
