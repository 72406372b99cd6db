//! The commands, each over inputs that keep to the limits.
ghost use Rattle.std.specs.Prelude.{◌≡◌, ◌≤◌, ◌⊎◌, List, ℕ, IfErr, IfOk, None, length, map, string_bytes};
ghost use Rattle.std.specs.List.{flat_map};
ghost use Rattle.hx_align.specs.Plans.{IsPlanOf, totals_of};
ghost use Rattle.hx_align.specs.Refusals.{IsCutCause, IsCutRefusal};
ghost use Rattle.hx_align.specs.declared.plan.PlanRow.{PlanRow};
ghost use Rattle.hx_base.specs.FirstRefusals.{OrElse, Shows};
ghost use Rattle.hx_base.specs.declared.row.Row.{Row};
ghost use Rattle.hx_base.specs.Limits.{highest_order, most_in_partition, most_inputs};
ghost use Rattle.hx_inputs.specs.Causes.{IsInputsCause};
ghost use Rattle.hx_inputs.specs.Inputs.{AreRows, IsAfterRows, bad_input, too_long};
ghost use Rattle.hx_inputs.specs.Sources.{SameSources, Tell};
ghost use Rattle.hx_cli.specs.FirstRefusal.{IsLaterRefusal, IsPlanRefusal, IsRefusalOfFolder};
ghost use Rattle.hx_cli.specs.Neighbours.{IsAroundText};
ghost use Rattle.hx_cli.specs.Histograms.{histogram_text};
ghost use Rattle.hx_cli.specs.Plans.{IsPlanText, partition_line};
ghost use Rattle.hx_cli.specs.Runs.{Answers};
ghost use Rattle.hx_words.specs.Requests.{IsAroundRequest, IsHistogramRequest, IsPlanRequest, IsSound, command_of};
ghost use Rattle.hx_words.specs.Words.{Means};

use crate::folders::{Acted, Cut, clean_folder, import, match_catalogues};
use crate::lines::lines_of;
use crate::neighbours::line_around;
use crate::planning::lines_of_plan;
use hx_align::align;
use hx_base::Refusal;
use hx_hist::Hist;
use hx_inputs::count_inputs;
use hx_outside::{Source, Store};
use hx_words::Action;
use std::alloc::Global;

// The text of a histogram of the inputs' rows.
fn histogram<Src: Source>(
    alloc: Global,
    order: u8,
    inputs: &mut Vec<Src>,
) -> Result<Vec<u8>, Refusal>
    requires request { IsHistogramRequest order (map Src.source.label inputs.old.items) }
    requires few { length inputs.old.items ≤ most_inputs }
    ensures text { let names = map Src.source.label inputs.old.items in
        (bytes : List (List ℕ)) → Tell Src.source inputs.old.items bytes →
        IfOk result (λ text. (rows : List Row) × AreRows names bytes rows × (text.items ≡ histogram_text order rows)) }
    ensures first { let names = map Src.source.label inputs.old.items in
        (bytes : List (List ℕ)) → Tell Src.source inputs.old.items bytes →
        Shows (λ first. first ≡ bad_input 0 names bytes) result }
    ensures in_turn { let names = map Src.source.label inputs.old.items in
        (bytes : List (List ℕ)) → Tell Src.source inputs.old.items bytes →
        IfErr result (IsAfterRows names bytes) }
    ensures same { SameSources Src.source inputs.old.items inputs.new.items }
    ensures cause { IfErr result (IsInputsCause Src.source inputs.old.items inputs.new.items) }
{
    let counts = count_inputs(alloc, order, inputs)?;
    Ok(lines_of(alloc, &counts)?)
}

// The text of the partitions of counted rows.
fn plan_text(
    alloc: Global,
    counts: &Hist,
    lowest: u8,
    highest: u8,
    threshold: u64,
) -> Result<Vec<u8>, Refusal>
    requires order { counts.now.order ≡ highest }
    requires lowest { lowest ≤ highest }
    requires highest { highest ≤ highest_order }
    requires threshold_least { 1 ≤ threshold }
    requires threshold_most { threshold ≤ most_in_partition }
    ensures text { IfOk result (λ text. (plan : List PlanRow) ×
        IsPlanOf (totals_of counts.now) lowest highest threshold plan ×
        (text.items ≡ flat_map (λ row. partition_line row.pixel row.count) plan)) }
    ensures first { Shows (IsCutRefusal (totals_of counts.now) lowest highest threshold) result }
    ensures cause { IfErr result (IsCutCause threshold) }
{
    let plan = align(alloc, counts, lowest, highest, threshold)?;
    Ok(lines_of_plan(alloc, &plan)?)
}

// The text of the partitions of the inputs' rows.
fn plan<Src: Source>(
    alloc: Global,
    lowest: u8,
    highest: u8,
    threshold: u64,
    inputs: &mut Vec<Src>,
) -> Result<Vec<u8>, Refusal>
    requires request { IsPlanRequest lowest highest threshold (map Src.source.label inputs.old.items) }
    requires few { length inputs.old.items ≤ most_inputs }
    ensures text { let names = map Src.source.label inputs.old.items in
        (bytes : List (List ℕ)) → Tell Src.source inputs.old.items bytes →
        IfOk result (λ text. (rows : List Row) × AreRows names bytes rows × IsPlanText lowest highest threshold rows text.items) }
    ensures first { let names = map Src.source.label inputs.old.items in
        (bytes : List (List ℕ)) → Tell Src.source inputs.old.items bytes →
        Shows (OrElse (bad_input 0 names bytes) (IsPlanRefusal lowest highest threshold names bytes)) result }
    ensures in_turn { let names = map Src.source.label inputs.old.items in
        (bytes : List (List ℕ)) → Tell Src.source inputs.old.items bytes →
        IfErr result (IsAfterRows names bytes) }
    ensures same { SameSources Src.source inputs.old.items inputs.new.items }
    ensures cause { IfErr result (λ r.
        IsInputsCause Src.source inputs.old.items inputs.new.items r ⊎
        IsCutCause threshold r) }
{
    let counts = count_inputs(alloc, highest, inputs)?;
    plan_text(alloc, &counts, lowest, highest, threshold)
}

// The line of the pixels round a pixel.
fn around(alloc: Global, order: u8, pixel: u64) -> Result<Vec<u8>, Refusal>
    requires { IsAroundRequest order pixel }
    ensures text { IfOk result (λ text. IsAroundText order pixel text.items) }
    ensures memory { IfErr result (λ r. r ≡ Refusal.Memory) }
{
    Ok(line_around(alloc, order, pixel)?)
}

/// What an action gives over inputs that keep to the limits, and a folder.
pub fn act<Src: Source, S: Store>(
    alloc: Global,
    words: &[String],
    action: Action,
    mut inputs: Vec<Src>,
    mut store: S,
) -> Acted<Src, S>
    requires means { Means (map string_bytes words.now) (command_of action (map string_bytes words.now) (map Src.source.label inputs.items)) }
    requires sound { IsSound action (map string_bytes words.now) (map Src.source.label inputs.items) }
    requires few { length inputs.items ≤ most_inputs }
    requires short { (bytes : List (List ℕ)) → Tell Src.source inputs.items bytes → too_long bytes ≡ None }
    ensures { let command = command_of action (map string_bytes words.now) (map Src.source.label inputs.items) in
        Answers Src.source S.disk command (IsLaterRefusal command) (IsRefusalOfFolder command)
        inputs.items result.inputs.items store result.store result.answer }
{
    match action {
        Action::Histogram { order } => {
            let answer = histogram(alloc, order, &mut inputs);
            Acted {
                answer,
                inputs,
                store,
            }
        }
        Action::Plan {
            lowest,
            highest,
            threshold,
        } => {
            let answer = plan(alloc, lowest, highest, threshold, &mut inputs);
            Acted {
                answer,
                inputs,
                store,
            }
        }
        Action::Around { order, pixel } => {
            let answer = around(alloc, order, pixel);
            Acted {
                answer,
                inputs,
                store,
            }
        }
        Action::Import {
            lowest,
            highest,
            threshold,
            margin_order,
        } => {
            let cut = Cut {
                lowest,
                highest,
                threshold,
                margin_order,
            };
            import(alloc, words, cut, inputs, store)
        }
        Action::Clean => {
            let answer = clean_folder(alloc, words, &mut store);
            Acted {
                answer,
                inputs,
                store,
            }
        }
        Action::Match { radius } => match_catalogues(alloc, words, radius, inputs, store),
    }
}
