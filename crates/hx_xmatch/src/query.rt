//! What a cross-match is asked for, and what it hands back.
use hx_base::{Name, Refusal};

/// A cross-match: for each row of the left catalogue the nearest row of the right one is looked for.
#[derive(Drop)]
pub struct Query {
    /// The name of the left catalogue.
    pub left: Name,
    /// The name of the right catalogue, which may be the same.
    pub right: Name,
    /// The radius within which a row is looked for: a chord in 10^-9, at most 2000000000.
    pub radius: u64,
    /// The output's name: the match text becomes the file of this name and `.csv`.
    pub output: Name,
}

/// What became of a cross-match.
#[derive(Drop)]
pub struct Matched<S> {
    /// Why it was not done, none where it was.
    pub refusal: Option<Refusal>,
    /// How many lines the match text has behind its header, one for each left row; 0 where it was not done.
    pub rows: u64,
    /// How many of them have a match.
    pub matched: u64,
    /// The store.
    pub store: S,
}
