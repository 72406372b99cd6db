//! The counts of the rows of inputs, by pixel.
ghost use Rattle.std.specs.Prelude.{◌≡◌, ◌⊎◌, ◌+◌, ◌^◌, ◌<◌, ◌≤◌, ℕ, List, All, IfErr, IfOk, IfSome, Ok, OnOk, length, map};
ghost use Rattle.hx_base.specs.FileWords.{IsCsvName, IsFileWord, IsParquetName};
ghost use Rattle.hx_base.specs.FirstRefusals.{Shows};
ghost use Rattle.hx_base.specs.Limits.{most_inputs, most_rows};
ghost use Rattle.hx_base.specs.Pixels.{count_in};
ghost use Rattle.hx_base.specs.declared.row.Row.{Row};
ghost use Rattle.hx_hist.specs.Histograms.{count_at, total_of};
ghost use Rattle.hx_outside.specs.Sources.{SameSource};
ghost use Rattle.hx_rows.specs.Reading.{rows_of};
ghost use Rattle.hx_inputs.specs.Causes.{IsInputCause, IsInputsCause};
ghost use Rattle.hx_inputs.specs.Inputs.{AreRows, IsAfterRows, bad_input, fault_of};
ghost use Rattle.hx_inputs.specs.Sources.{SameSources, Tell};

use crate::input::read_input;
use hx_base::Refusal;
use hx_hist::{Hist, Tally};
use hx_outside::Source;
use std::alloc::Global;

/// Counts the rows of an input, by pixel, with those that were counted before. `number` is the input's, from 0. Its
/// bytes and rows are let go.
pub fn count_input<Src: Source>(
    alloc: Global,
    source: &mut Src,
    number: u32,
    counts: &mut Tally,
) -> Result<(), Refusal>
    requires name { IsCsvName (Src.source.label source.old) ⊎ IsParquetName (Src.source.label source.old) }
    requires room { total_of counts.old.pairs + most_rows < 2 ^ 64 }
    ensures order { counts.new.order ≡ counts.old.order }
    ensures total { OnOk result (total_of counts.new.pairs ≤ total_of counts.old.pairs + most_rows) }
    ensures counts { OnOk result (IfSome (Src.source.told source.old) (λ bytes.
        (rows : List Row) × (rows_of (Src.source.label source.old) bytes ≡ Ok rows) ×
        ((p : ℕ) → count_at p counts.new.pairs ≡ count_at p counts.old.pairs + count_in (record { order = counts.old.order; number = p }) rows))) }
    ensures first { IfSome (Src.source.told source.old) (λ bytes.
        Shows (λ first. first ≡ fault_of number (rows_of (Src.source.label source.old) bytes)) result) }
    ensures same { SameSource Src.source source.old source.new }
    ensures cause { IfErr result (IsInputCause Src.source number source.old source.new) }
{
    let rows = read_input(alloc, source, number)?;
    counts.add_rows(rows.as_slice())?;
    Ok(())
}

// Counts the rows of all inputs, one input after another, in a tally that has counted none.
fn tally_inputs<Src: Source>(
    alloc: Global,
    inputs: &mut Vec<Src>,
    counts: &mut Tally,
) -> Result<(), Refusal>
    requires few { length inputs.old.items ≤ most_inputs }
    requires names { All IsFileWord (map Src.source.label inputs.old.items) }
    requires none { (p : ℕ) → count_at p counts.old.pairs ≡ 0 }
    requires empty { total_of counts.old.pairs ≡ 0 }
    ensures order { counts.new.order ≡ counts.old.order }
    ensures counts { let names = map Src.source.label inputs.old.items in
        (bytes : List (List ℕ)) → Tell Src.source inputs.old.items bytes → OnOk result (
        (rows : List Row) × AreRows names bytes rows ×
        ((p : ℕ) → count_at p counts.new.pairs ≡ count_in (record { order = counts.old.order; number = p }) rows)) }
    ensures first { let names = map Src.source.label inputs.old.items in
        (bytes : List (List ℕ)) → Tell Src.source inputs.old.items bytes →
        Shows (λ first. first ≡ bad_input 0 names bytes) result }
    ensures in_turn { let names = map Src.source.label inputs.old.items in
        (bytes : List (List ℕ)) → Tell Src.source inputs.old.items bytes →
        IfErr result (IsAfterRows names bytes) }
    ensures same { SameSources Src.source inputs.old.items inputs.new.items }
    ensures cause { IfErr result (IsInputsCause Src.source inputs.old.items inputs.new.items) }
{
    for number in 0..inputs.len() {
        count_input(alloc, &mut inputs[number], number as u32, counts)?;
    }
    Ok(())
}

/// The rows of all inputs, counted by pixel of an order. Inputs are read one after the other, up to the first that has a
/// fault or can't be read.
pub fn count_inputs<Src: Source>(
    alloc: Global,
    order: u8,
    inputs: &mut Vec<Src>,
) -> Result<Hist, Refusal>
    requires order { order ≤ 29 }
    requires few { length inputs.old.items ≤ most_inputs }
    requires names { All IsFileWord (map Src.source.label inputs.old.items) }
    ensures order { IfOk result (λ counts. counts.order ≡ order) }
    ensures counts { let names = map Src.source.label inputs.old.items in
        (bytes : List (List ℕ)) → Tell Src.source inputs.old.items bytes → IfOk result (λ counts.
        (rows : List Row) × AreRows names bytes rows ×
        ((p : ℕ) → count_at p counts.pairs ≡ count_in (record { order = order; number = p }) rows)) }
    ensures first { let names = map Src.source.label inputs.old.items in
        (bytes : List (List ℕ)) → Tell Src.source inputs.old.items bytes →
        Shows (λ first. first ≡ bad_input 0 names bytes) result }
    ensures in_turn { let names = map Src.source.label inputs.old.items in
        (bytes : List (List ℕ)) → Tell Src.source inputs.old.items bytes →
        IfErr result (IsAfterRows names bytes) }
    ensures same { SameSources Src.source inputs.old.items inputs.new.items }
    ensures cause { IfErr result (IsInputsCause Src.source inputs.old.items inputs.new.items) }
{
    let mut counts = Tally::new(alloc, order)?;
    tally_inputs(alloc, inputs, &mut counts)?;
    Ok(counts.into_hist()?)
}
