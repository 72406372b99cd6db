//! Which task comes next.
ghost use Rattle.std.specs.Prelude.{◌≡◌, ◌↔◌, ◌<◌, ◌≤◌, ℕ, IsTrue, false, true, slice_index_or};
ghost use Rattle.hx_book.specs.Tasks.{count_of};
ghost use Rattle.hx_book.specs.Books.{TakesInput};

/// The kinds of tasks, by number, and the stage after the last.
pub(crate) const MAP: u8 = 1;

pub(crate) const PLAN: u8 = 2;

pub(crate) const SPLIT: u8 = 3;

pub(crate) const REDUCE: u8 = 4;

pub(crate) const MARGIN_REDUCE: u8 = 6;

pub(crate) const LISTS: u8 = 7;

pub(crate) const END: u8 = 9;

/// How many tasks of a kind there are.
pub(crate) fn count_of(inputs: u32, partitions: u32, kind: u8) -> u32
    ensures { result ≡ count_of inputs partitions kind }
{
    match kind {
        1 => inputs,
        2 => 1,
        3 => inputs,
        4 => partitions,
        5 => partitions,
        6 => partitions,
        7 => 3,
        8 => 1,
        _ => 0,
    }
}

/// Whether a task is flagged as recorded.
pub(crate) fn is_flagged(flags: &[bool], number: u32) -> bool
    ensures { result ≡ slice_index_or flags.now number false }
{
    if (number as usize) < flags.len() {
        flags[number as usize]
    } else {
        false
    }
}

/// The first task of the open stage from a number on that wasn't recorded when the stage opened, or the number of its
/// tasks where there is none.
pub(crate) fn next_ready(flags: &[bool], from: u32, count: u32) -> u32
    requires { from ≤ count }
    ensures least { from ≤ result }
    ensures most { result ≤ count }
    ensures skipped { (n : ℕ) → from ≤ n → n < result → slice_index_or flags.now n false ≡ true }
    ensures found { result < count → slice_index_or flags.now result false ≡ false }
{
    for number in from..count {
        if !is_flagged(flags, number) {
            return number;
        }
    }
    count
}

/// The next stage that has tasks.
pub(crate) fn stage_after(stage: u8, inputs: u32, partitions: u32) -> u8
    requires { stage < 9 }
    ensures later { stage < result }
    ensures most { result ≤ 9 }
    ensures empty { (kind : ℕ) → stage < kind → kind < result → count_of inputs partitions kind ≡ 0 }
    ensures some { result < 9 → 0 < count_of inputs partitions result }
{
    for kind in stage + 1..END {
        if count_of(inputs, partitions, kind) > 0 {
            return kind;
        }
    }
    END
}

/// Whether a kind's tasks take an input.
pub(crate) fn takes_input(kind: u8) -> bool
    ensures { IsTrue result ↔ TakesInput kind }
{
    kind == MAP || kind == SPLIT
}
