ghost use Rattle.std.specs.Prelude.{◌≡◌, ◌<◌, ℤ, List, [], map, length, slice_index_or};

use std::marker::Model;

/// Columns that were read, as lists of numbers, in the order of the names that were asked for.
#[derive(Drop)]
pub struct Columns {
    lists: Vec<Vec<i64>>,
}

impl Model for Columns {
    ghost Value = { List (List ℤ) };

    ghost view = { λ columns. map (λ list. list.items) columns.lists.items };
}

impl Columns {
    /// Columns with these lists.
    pub fn new(lists: Vec<Vec<i64>>) -> Columns
        ensures { result ≡ map (λ list. list.items) lists.items }
    {
        Columns { lists }
    }

    /// How many columns there are.
    pub fn count(&self) -> usize
        ensures { result ≡ length self.now }
    {
        self.lists.len()
    }

    /// The numbers of the column of the name at `i`.
    pub fn column(&self, i: usize) -> &[i64]
        requires { i < length self.now }
        ensures { result.now ≡ slice_index_or self.now i [] }
    {
        &self.lists[i]
    }
}
