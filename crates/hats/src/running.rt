//! A run behind the arguments: words, their inputs and a store, a sink for the text, and one for a refusal.
ghost use Rattle.std.specs.Prelude.{◌≡◌, ◌⊎◌, IfErr, IfOk, Some, map, string_bytes};
ghost use Rattle.hats.specs.Runs.{GainsLine, IsRunOver, IsTold, line_of};
ghost use Rattle.hx_base.specs.Refusals.{status_after};
ghost use Rattle.hx_base.specs.declared.refusal.Refusal.TheVariants.{Memory};
ghost use Rattle.hx_words.specs.Words.{AreInputNames};

#[cfg(test)]
mod tests;

use hx_base::Refusal;
use hx_cli::{run_plain, text_of};
use hx_outside::{Sink, Source, Store};
use std::alloc::{AllocError, Global};

/// The words after the program's name, the sources of their inputs, and the store.
#[derive(Drop)]
pub struct Asked<Src, S> {
    pub words: Vec<String>,
    pub inputs: Vec<Src>,
    pub store: S,
}

/// How a run ended.
#[derive(Drop)]
pub struct Ended<Src, S> {
    /// 0, or the status of what was told.
    pub status: u8,
    pub refusal: Option<Refusal>,
    /// The refusal, or want of memory where there was none for its text.
    pub told: Option<Refusal>,
    pub inputs: Vec<Src>,
    /// None where the words were not known.
    pub store: Option<S>,
}

// What was answered, with the inputs and the store.
#[derive(Drop)]
struct Answered<Src, S> {
    refusal: Option<Refusal>,
    inputs: Vec<Src>,
    store: Option<S>,
}

// Does what was asked, or hands on why it isn't known.
fn answer<Src: Source, S: Store, O: Sink>(
    alloc: Global,
    asked: Result<Asked<Src, S>, Refusal>,
    out: &mut O,
) -> Answered<Src, S>
    requires { IfOk asked (λ asked. AreInputNames (map string_bytes asked.words.items) (map Src.source.label asked.inputs.items)) }
    ensures run { IfOk asked (λ asked. IsRunOver Src.source S.disk O.sink (map string_bytes asked.words.items)
        asked.inputs.items result.inputs.items asked.store result.store out.old out.new result.refusal) }
    ensures unknown { IfErr asked (λ refusal. (result.refusal ≡ Some refusal) × (out.new ≡ out.old)) }
{
    match asked {
        Ok(
            Asked {
                words,
                inputs,
                store,
            },
        ) => {
            let ran = run_plain(alloc, &words, inputs, store, out);
            Answered {
                refusal: ran.refusal,
                inputs: ran.inputs,
                store: Some(ran.store),
            }
        }
        Err(refusal) => Answered {
            refusal: Some(refusal),
            inputs: Vec::new(alloc),
            store: None,
        },
    }
}

// What is told of a refusal.
fn line_of(alloc: Global, refusal: Refusal) -> Result<Vec<u8>, AllocError>
    ensures { IfOk result (λ line. line.items ≡ line_of refusal) }
{
    let mut line = text_of(alloc, &refusal)?;
    line.push(b'\n')?;
    Ok(line)
}

// Tells a refusal, or that there is no memory for its text. A fault of the sink is passed over.
fn tell<E: Sink>(alloc: Global, refusal: Refusal, errors: &mut E) -> Refusal
    ensures told { (result ≡ refusal) ⊎ (result ≡ Memory) }
    ensures line { GainsLine E.sink (Some result) errors.old errors.new }
{
    match line_of(alloc, refusal) {
        Ok(line) => {
            let _ = errors.write(line.as_slice());
            refusal
        }
        Err(_) => {
            let _ = errors.write(b"out of memory\n");
            Refusal::Memory
        }
    }
}

fn tell_any<E: Sink>(alloc: Global, refusal: Option<Refusal>, errors: &mut E) -> Option<Refusal>
    ensures told { IsTold refusal result }
    ensures line { GainsLine E.sink result errors.old errors.new }
{
    match refusal {
        Some(refusal) => Some(tell(alloc, refusal, errors)),
        None => None,
    }
}

fn status_of(told: Option<Refusal>) -> u8
    ensures { result ≡ status_after told }
{
    match told {
        None => 0,
        Some(refusal) => refusal.status(),
    }
}

/// Does what was asked, tells a refusal, and says with which status the program ends.
pub fn run<Src: Source, S: Store, O: Sink, E: Sink>(
    alloc: Global,
    asked: Result<Asked<Src, S>, Refusal>,
    out: &mut O,
    errors: &mut E,
) -> Ended<Src, S>
    // The inputs' names are the file words of the line.
    requires { IfOk asked (λ asked. AreInputNames (map string_bytes asked.words.items) (map Src.source.label asked.inputs.items)) }

    ensures run { IfOk asked (λ asked. IsRunOver Src.source S.disk O.sink (map string_bytes asked.words.items)
        asked.inputs.items result.inputs.items asked.store result.store out.old out.new result.refusal) }
    ensures unknown { IfErr asked (λ refusal. (result.refusal ≡ Some refusal) × (out.new ≡ out.old)) }
    ensures told { IsTold result.refusal result.told }
    ensures line { GainsLine E.sink result.told errors.old errors.new }
    ensures status { result.status ≡ status_after result.told }
{
    let answered = answer(alloc, asked, out);
    let told = tell_any(alloc, answered.refusal, errors);
    Ended {
        status: status_of(told),
        refusal: answered.refusal,
        told,
        inputs: answered.inputs,
        store: answered.store,
    }
}
