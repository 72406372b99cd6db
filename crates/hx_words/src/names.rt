//! The names of a line's inputs.
ghost use Rattle.std.specs.Prelude.{◌≡◌, IfOk, drop, map, string_bytes};
ghost use Rattle.hx_words.specs.Words.{AreInputNames};

use crate::request::request_of;
use std::alloc::{AllocError, Global};

// Copies of words.
fn copied(alloc: Global, words: &[String]) -> Result<Vec<String>, AllocError>
    ensures { IfOk result (λ copies. map string_bytes copies.items ≡ map string_bytes words.now) }
{
    let mut copies = Vec::with_capacity(alloc, words.len())?;
    for word in words {
        copies.push(String::from_str(alloc, word.as_str())?)?;
    }
    Ok(copies)
}

/// The file words of a line that has a meaning, in order, and else none.
pub fn input_names(alloc: Global, words: &[String]) -> Result<Vec<String>, AllocError>
    ensures { IfOk result (λ names. AreInputNames (map string_bytes words.now) (map string_bytes names.items)) }
{
    match request_of(words) {
        Some(request) => copied(alloc, &words[request.files..]),
        None => Ok(Vec::new(alloc)),
    }
}
