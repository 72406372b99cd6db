//! The header of a job's journal, by its settings and its inputs.
ghost use Rattle.std.specs.Prelude.{◌≡◌, ◌≤◌, ◌++◌, ◌∷◌, [], ℕ, List, IfErr, IfOk, IfSome, OnOk, length, map};
ghost use Rattle.hx_base.specs.FirstRefusals.{Shows};
ghost use Rattle.hx_base.specs.Limits.{FitsLimits, above, most_bytes, most_inputs};
ghost use Rattle.hx_base.specs.Names.{IsName};
ghost use Rattle.hx_base.specs.declared.refusal.Refusal.TheVariants.{Memory};
ghost use Rattle.hx_inputs.specs.Inputs.{too_long};
ghost use Rattle.hx_inputs.specs.Sources.{SameSources, Tell};
ghost use Rattle.hx_journal.specs.Headers.{IsHeader, header_of, heading_of};
ghost use Rattle.hx_outside.specs.Sources.{SameSource};
ghost use Rattle.hx_book.specs.Books.{IsLengthCause, IsLengthsCause};

use hx_base::{FileWord, MOST_BYTES, Refusal, Settings};
use hx_journal::header_text;
use hx_outside::Source;
use std::alloc::{AllocError, Global};

/// Inputs by their file words and their lengths in bytes.
#[derive(Drop)]
struct Listing {
    words: Vec<FileWord>,
    lens: Vec<u64>,
}

// The length of an input, if it isn't too long.
fn length_of<Src: Source>(source: &mut Src, number: u32) -> Result<u64, Refusal>
    ensures len { IfOk result (λ len. IfSome (Src.source.told source.old) (λ bytes. len ≡ length bytes)) }
    ensures same { SameSource Src.source source.old source.new }
    ensures first { IfSome (Src.source.told source.old) (λ bytes. Shows (λ first. first ≡ above 2 most_bytes (length bytes)) result) }
    ensures cause { IfErr result (IsLengthCause Src.source number source.old source.new) }
{
    let Ok(len) = source.len() else {
        return Err(Refusal::InputFault { input: number });
    };
    if len > MOST_BYTES {
        return Err(Refusal::TooMany {
            what: 2,
            found: len,
            limit: MOST_BYTES,
        });
    }
    Ok(len)
}

// The file word of an input.
fn word_of<Src: Source>(alloc: Global, source: &Src) -> Result<FileWord, Refusal>
    ensures word { IfOk result (λ word. word ≡ Src.source.label source.now) }
    ensures cause { IfErr result (λ r. r ≡ Memory) }
{
    match FileWord::new(alloc, source.name()) {
        Ok(Some(word)) => Ok(word),
        _ => Err(Refusal::Memory),
    }
}

impl Listing {
    fn push(&mut self, word: FileWord, len: u64) -> Result<(), AllocError>
        ensures words { OnOk result (self.new.words.items ≡ self.old.words.items ++ word ∷ []) }
        ensures lens { OnOk result (self.new.lens.items ≡ self.old.lens.items ++ len ∷ []) }
    {
        self.words.push(word)?;
        self.lens.push(len)?;
        Ok(())
    }
}

// All inputs, up to the first that is too long or can't be told.
fn list_inputs<Src: Source>(alloc: Global, inputs: &mut Vec<Src>) -> Result<Listing, Refusal>
    requires { length inputs.old.items ≤ most_inputs }
    ensures words { IfOk result (λ listing. listing.words.items ≡ map Src.source.label inputs.old.items) }
    ensures lens { (bytes : List (List ℕ)) → Tell Src.source inputs.old.items bytes → IfOk result (λ listing. listing.lens.items ≡ map length bytes) }
    ensures long { IfOk result (λ listing. length listing.lens.items ≡ length inputs.old.items) }
    ensures first { (bytes : List (List ℕ)) → Tell Src.source inputs.old.items bytes → Shows (λ first. first ≡ too_long bytes) result }
    ensures same { SameSources Src.source inputs.old.items inputs.new.items }
    ensures cause { IfErr result (IsLengthsCause Src.source inputs.old.items inputs.new.items) }
{
    let mut listing = Listing {
        words: Vec::with_capacity(alloc, inputs.len())?,
        lens: Vec::with_capacity(alloc, inputs.len())?,
    };
    for number in 0..inputs.len() {
        let word = word_of(alloc, &inputs[number])?;
        let len = length_of(&mut inputs[number], number as u32)?;
        listing.push(word, len)?;
    }
    Ok(listing)
}

/// The header of a job's journal. The lengths of the inputs are asked in order, up to the first that is too long or can't
/// be told: `TooMany` and `InputFault`.
pub(crate) fn header_bytes<Src: Source>(
    alloc: Global,
    settings: &Settings,
    inputs: &mut Vec<Src>,
) -> Result<Vec<u8>, Refusal>
    requires few { length inputs.old.items ≤ most_inputs }
    requires limits { FitsLimits settings.now }
    ensures header { (bytes : List (List ℕ)) → Tell Src.source inputs.old.items bytes → IfOk result (λ header.
        header.items ≡ header_of (heading_of settings.now (map length bytes) (map Src.source.label inputs.old.items))) }
    ensures first { (bytes : List (List ℕ)) → Tell Src.source inputs.old.items bytes → Shows (λ first. first ≡ too_long bytes) result }
    ensures heading { IfOk result (λ header. IsHeader header.items) }
    ensures name { IfOk result (λ _. IsName settings.now.name) }
    ensures same { SameSources Src.source inputs.old.items inputs.new.items }
    ensures cause { IfErr result (IsLengthsCause Src.source inputs.old.items inputs.new.items) }
{
    let Listing { words, lens } = list_inputs(alloc, inputs)?;
    let header = header_text(alloc, settings, &words, &lens)?;
    Ok(header)
}
