//! All inputs of a job: whether they keep to the limits.
ghost use Rattle.std.specs.Prelude.{◌≡◌, ◌≢◌, ◌<◌, ◌≤◌, ℕ, List, Err, IfErr, IfOk, IfSome, length};
ghost use Rattle.std.specs.Option.{option_or};
ghost use Rattle.std.specs.Result.{result_err};
ghost use Rattle.hx_base.specs.FirstRefusals.{Shows};
ghost use Rattle.hx_base.specs.Limits.{above, most_bytes, most_inputs};
ghost use Rattle.hx_base.specs.declared.refusal.Refusal.TheVariants.{Memory, TooMany};
ghost use Rattle.hx_outside.specs.Sources.{SameSource};
ghost use Rattle.hx_inputs.specs.Causes.{IsInputCause, IsInputsCause};
ghost use Rattle.hx_inputs.specs.Inputs.{IsAfterLengths, too_long, too_many_inputs};
ghost use Rattle.hx_inputs.specs.Sources.{SameSources, Tell};

use hx_base::{MOST_BYTES, MOST_INPUTS, Refusal};
use hx_outside::Source;

// The refusal of a quantity that is above its limit.
fn check_limit(what: u8, found: u64, limit: u64) -> Result<(), Refusal>
    ensures { result_err result ≡ above what limit found }
{
    if found > limit {
        return Err(Refusal::TooMany { what, found, limit });
    }
    Ok(())
}

// Whether an input is too long.
fn check_length<Src: Source>(source: &mut Src, number: u32) -> Result<(), Refusal>
    ensures first { IfSome (Src.source.told source.old) (λ bytes.
        Shows (λ first. first ≡ above 2 most_bytes (length bytes)) result) }
    ensures memory { result ≢ Err Memory }
    ensures same { SameSource Src.source source.old source.new }
    ensures cause { IfErr result (IsInputCause Src.source number source.old source.new) }
{
    let Ok(len) = source.len() else {
        return Err(Refusal::InputFault { input: number });
    };
    check_limit(2, len, MOST_BYTES)
}

// Whether all inputs are short enough. None of their bytes is read.
fn check_lengths<Src: Source>(inputs: &mut Vec<Src>) -> Result<(), Refusal>
    requires { length inputs.old.items ≤ most_inputs }
    ensures first { (bytes : List (List ℕ)) → Tell Src.source inputs.old.items bytes →
        Shows (λ first. first ≡ too_long bytes) result }
    ensures in_turn { (bytes : List (List ℕ)) → Tell Src.source inputs.old.items bytes →
        IfErr result (IsAfterLengths bytes) }
    ensures memory { result ≢ Err Memory }
    ensures same { SameSources Src.source inputs.old.items inputs.new.items }
    ensures cause { IfErr result (IsInputsCause Src.source inputs.old.items inputs.new.items) }
{
    for number in 0..inputs.len() {
        check_length(&mut inputs[number], number as u32)?;
    }
    Ok(())
}

/// Whether there are at most 10000 inputs, of at most 67108864 bytes each; if not, the refusal says how many
/// inputs there are, or how many bytes the first that is too long has. Their lengths are asked in order, up to the first
/// that is too long or can't be told. None of their bytes is read, and no memory is taken.
pub fn check_inputs<Src: Source>(inputs: &mut Vec<Src>) -> Result<(), Refusal>
    ensures few { IfOk result (λ u. length inputs.old.items ≤ most_inputs) }
    ensures many { most_inputs < length inputs.old.items →
        result ≡ Err (TooMany 1 (length inputs.old.items) most_inputs) }
    ensures first { (bytes : List (List ℕ)) → Tell Src.source inputs.old.items bytes →
        Shows (λ first. first ≡ option_or (too_many_inputs (length inputs.old.items)) (too_long bytes)) result }
    ensures in_turn { (bytes : List (List ℕ)) → Tell Src.source inputs.old.items bytes →
        IfErr result (IsAfterLengths bytes) }
    ensures memory { result ≢ Err Memory }
    ensures same { SameSources Src.source inputs.old.items inputs.new.items }
    ensures cause { IfErr result (IsInputsCause Src.source inputs.old.items inputs.new.items) }
{
    check_limit(1, inputs.len() as u64, MOST_INPUTS)?;
    check_lengths(inputs)
}
