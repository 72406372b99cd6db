//! The sources of the inputs, at home or with a worker.
ghost use Rattle.std.specs.Prelude.{◌≡◌, ◌<◌, ℕ, None, Some, length, slice_get};
ghost use Rattle.hx_book.specs.Books.{IsPut};

/// Takes a source out of its place.
pub(crate) fn take_source<Src: Drop>(homes: &mut Vec<Option<Src>>, number: u32) -> Option<Src>
    requires { number < length homes.old.items }
    ensures taken { slice_get homes.old.items number ≡ Some result }
    ensures empty { slice_get homes.new.items number ≡ Some None }
    ensures others { (n : ℕ) → (n ≡ number → ⊥) → slice_get homes.new.items n ≡ slice_get homes.old.items n }
    ensures long { length homes.new.items ≡ length homes.old.items }
{
    homes[number as usize].take()
}

/// Puts a source in its place.
pub(crate) fn put_source<Src: Drop>(homes: &mut Vec<Option<Src>>, number: u32, source: Option<Src>)
    ensures { IsPut number source homes.old.items homes.new.items }
{
    if source.is_none() {
        return;
    }
    if number as usize >= homes.len() {
        return;
    }
    homes[number as usize] = source;
}
