//! One input, read whole and as rows.
ghost use Rattle.std.specs.Prelude.{◌≡◌, ◌⊎◌, ◌+◌, ◌^◌, ◌<◌, ◌≤◌, Ok, All, IfErr, IfOk, IfSome, length, take, vec_len};
ghost use Rattle.hx_base.specs.FileWords.{IsCsvName, IsParquetName};
ghost use Rattle.hx_base.specs.FirstRefusals.{Shows};
ghost use Rattle.hx_base.specs.Limits.{most_rows};
ghost use Rattle.hx_base.specs.Rows.{IsGood};
ghost use Rattle.hx_outside.specs.Sources.{SameSource};
ghost use Rattle.hx_rows.specs.Reading.{rows_of};
ghost use Rattle.hx_inputs.specs.Causes.{IsInputCause, IsReadCause};
ghost use Rattle.hx_inputs.specs.Inputs.{fault_of, of_rows};

use hx_base::{Refusal, Row};
use hx_outside::Source;
use hx_rows::{RowRefusal, read_rows};
use std::alloc::{AllocError, Global};

// So many bytes are asked for at a time.
const PIECE: usize = 16384;

fn zeros(alloc: Global, count: usize) -> Result<Vec<u8>, AllocError>
    ensures { IfOk result (λ v. vec_len v ≡ count) }
{
    vec![in alloc; 0u8; count]
}

// Reads bytes from `at` on by way of a window, puts them behind those before `at`, and says how many.
fn read_more<Src: Source>(
    source: &mut Src,
    number: u32,
    at: u64,
    window: &mut [u8],
    all: &mut Vec<u8>,
) -> Result<usize, Refusal>
    requires { 0 < length window.old }
    ensures bound { IfOk result (λ count. count ≤ length window.old) }
    ensures more { IfOk result (λ count. IfSome (Src.source.told source.old) (λ bytes.
        all.old.items ≡ take at bytes → all.new.items ≡ take (at + count) bytes)) }
    ensures ended { IfOk result (λ count. IfSome (Src.source.told source.old) (λ bytes. count ≡ 0 → length bytes ≤ at)) }
    ensures same { SameSource Src.source source.old source.new }
    ensures cause { IfErr result (IsReadCause Src.source number source.old source.new) }
{
    let Ok(count) = source.read_at(at, window) else {
        return Err(Refusal::InputFault { input: number });
    };
    all.extend_from_slice(&window[..count])?;
    Ok(count)
}

/// All bytes of an input: those up to its length, or to the first answer of no byte. `number` is the input's,
/// from 0. It is refused where its source fails or memory runs out.
pub fn read_all<Src: Source>(
    alloc: Global,
    source: &mut Src,
    number: u32,
) -> Result<Vec<u8>, Refusal>
    ensures bytes { IfOk result (λ all. IfSome (Src.source.told source.old) (λ bytes. all.items ≡ bytes)) }
    ensures same { SameSource Src.source source.old source.new }
    ensures cause { IfErr result (IsReadCause Src.source number source.old source.new) }
{
    let Ok(len) = source.len() else {
        return Err(Refusal::InputFault { input: number });
    };
    let mut piece = zeros(alloc, PIECE)?;
    let mut all = Vec::with_capacity(alloc, len as usize)?;
    let mut at = 0;
    while at < len {
        let want = (len - at).min(PIECE as u64) as usize;
        let count = read_more(source, number, at, &mut piece[..want], &mut all)?;
        if count == 0 {
            break;
        }
        at += count as u64;
    }
    Ok(all)
}

// The refusal of an input whose rows were refused.
fn refusal_of(number: u32, refusal: RowRefusal) -> Refusal
    ensures { result ≡ of_rows number refusal }
{
    match refusal {
        RowRefusal::Memory => Refusal::Memory,
        RowRefusal::Bad { row, why } => Refusal::BadInput {
            input: number,
            row,
            why,
        },
    }
}

/// The rows of an input in its order, or why there are none: its first fault, or that it couldn't be read. `number`
/// is the input's, from 0.
pub fn read_input<Src: Source>(
    alloc: Global,
    source: &mut Src,
    number: u32,
) -> Result<Vec<Row>, Refusal>
    requires { IsCsvName (Src.source.label source.old) ⊎ IsParquetName (Src.source.label source.old) }
    ensures rows { IfOk result (λ rows. IfSome (Src.source.told source.old) (λ bytes.
        rows_of (Src.source.label source.old) bytes ≡ Ok rows.items)) }
    ensures good { IfOk result (λ rows. All IsGood rows.items) }
    ensures few { IfOk result (λ rows. length rows.items ≤ most_rows) }
    ensures first { IfSome (Src.source.told source.old) (λ bytes.
        Shows (λ first. first ≡ fault_of number (rows_of (Src.source.label source.old) bytes)) result) }
    ensures same { SameSource Src.source source.old source.new }
    ensures cause { IfErr result (IsInputCause Src.source number source.old source.new) }
{
    let bytes = read_all(alloc, source, number)?;
    match read_rows(alloc, source.name(), bytes.as_slice()) {
        Ok(rows) => Ok(rows),
        Err(refusal) => Err(refusal_of(number, refusal)),
    }
}
