//! The words of the command line, the files that they name, and the folder of the store.
ghost use Rattle.std.specs.Prelude.{◌≡◌, IfOk, codes, map, string_bytes};
ghost use Rattle.std.specs.IoError.{error_kind};
ghost use Rattle.hats.specs.Asking.{refusal_of};
ghost use Rattle.hx_real.specs.Files.{file_source};
ghost use Rattle.hx_words.specs.Words.{AreInputNames};

use crate::running::Asked;
use hx_base::Refusal;
use hx_cli::input_names;
use hx_real::{FileSource, FolderStore};
use std::alloc::{AllocError, Global};
use std::fs::File;
use std::io::ErrorKind;
use std::rt::{Env, Files};
use std::{env, io};

// Why the words are not known: there is no memory for them, or one is no text.
fn refusal_of(error: &io::Error) -> Refusal
    ensures { result ≡ refusal_of (error_kind error.now) }
{
    match error.kind() {
        ErrorKind::OutOfMemory => Refusal::Memory,
        _ => Refusal::Usage,
    }
}

// The words after the program's name.
fn words(rt: &HostRuntime, alloc: Global) -> Result<Vec<String>, Refusal> {
    match env::args(rt) {
        Ok(args) => Ok(args.skip(1).collect(alloc)?),
        Err(error) => Err(refusal_of(&error)),
    }
}

// A source for each name.
fn sources<R: Clone + Drop>(
    rt: &R,
    alloc: Global,
    names: &[String],
) -> Result<Vec<FileSource<R>>, AllocError>
    ensures { IfOk result (λ sources. map file_source.label sources.items ≡ map string_bytes names.now) }
{
    let mut sources = Vec::with_capacity(alloc, names.len())?;
    for name in names {
        sources.push(FileSource::new(rt, alloc, name.as_str())?)?;
    }
    Ok(sources)
}

/// What is asked of real files, in the current folder.
pub type AskedOfFiles<R> = Asked<FileSource<R>, FolderStore<R>>;

/// Words with a file for each of their inputs, over the current folder.
pub fn with_inputs<R: Files<File = File> + Clone + Drop + Send>(
    rt: &R,
    alloc: Global,
    words: Vec<String>,
) -> Result<AskedOfFiles<R>, Refusal>
    ensures inputs { IfOk result (λ asked. AreInputNames (map string_bytes asked.words.items) (map file_source.label asked.inputs.items)) }
    ensures folder { IfOk result (λ asked. asked.store ≡ record { root = codes "."; faults = 0 }) }
{
    let names = input_names(alloc, &words)?;
    let inputs = sources(rt, alloc, &names)?;
    let store = FolderStore::new(rt, alloc, ".")?;
    Ok(Asked {
        words,
        inputs,
        store,
    })
}

/// The words after the program's name, with a file for each of their inputs, over the current folder.
pub fn asked(rt: &HostRuntime, alloc: Global) -> Result<AskedOfFiles<HostRuntime>, Refusal>
    ensures inputs { IfOk result (λ asked. AreInputNames (map string_bytes asked.words.items) (map file_source.label asked.inputs.items)) }
    ensures folder { IfOk result (λ asked. asked.store ≡ record { root = codes "."; faults = 0 }) }
{
    with_inputs(rt, alloc, words(rt, alloc)?)
}
