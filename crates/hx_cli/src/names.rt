//! The names of catalogues among the words of a line.
ghost use Rattle.std.specs.Prelude.{◌≡◌, ◌≤◌, IfOk, length, map, string_bytes};
ghost use Rattle.hx_base.specs.Names.{IsName};
ghost use Rattle.hx_words.specs.Requests.{word_from_end};

use hx_base::Name;
use std::alloc::{AllocError, Global};

/// The word that stands so far from the end: the last one is the first.
pub fn word_at(words: &[String], place: usize) -> &str
    requires least { 1 ≤ place }
    requires within { place ≤ length words.now }
    ensures { result.now ≡ word_from_end (map string_bytes words.now) place }
{
    words[words.len() - place].as_str()
}

/// The name that it says.
pub fn name_at(alloc: Global, words: &[String], place: usize) -> Result<Name, AllocError>
    requires least { 1 ≤ place }
    requires within { place ≤ length words.now }
    requires named { IsName (word_from_end (map string_bytes words.now) place) }
    ensures { IfOk result (λ name. name ≡ word_from_end (map string_bytes words.now) place) }
{
    match Name::new(alloc, word_at(words, place))? {
        Some(name) => Ok(name),
        None => unreachable!(),
    }
}
