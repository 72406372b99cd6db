//! The cross-match by one worker.
ghost use Rattle.std.specs.Prelude.{◌≡◌, ◌≤◌, ◌⊎◌, ◌*◌, ℕ, IfErr, IfOk, IfSome, IsSome, IsSomeAnd, List, None, OnErr, OnOk, Option, Some, length};
ghost use Rattle.hx_base.specs.declared.refusal.Refusal.TheVariants.{StoreFault};
ghost use Rattle.hx_base.specs.declared.refusal.Refusal.{Refusal};
ghost use Rattle.hx_base.specs.declared.row.Row.{Row};
ghost use Rattle.hx_catalog.specs.Answers.{HasFaultCause, IsOutside};
ghost use Rattle.hx_outside.specs.Disk.{Passes};
ghost use Rattle.hx_outside.specs.Faults.{HasFailed};
ghost use Rattle.hx_outside.specs.Folders.{Same, SameBut, SameButBoth};
ghost use Rattle.hx_publish.specs.Publishing.{HasInEach, Publishes};
ghost use Rattle.hx_xmatch.specs.MatchText.{match_text, matched_rows};
ghost use Rattle.hx_xmatch.specs.Outcomes.{AnswersExactly, AreFinished, AreOpened, IsAbsent, IsAsked, IsAskedText, IsMatch, IsMatchOf, IsMatchRefusal, IsOpenRefusal, LeavesText, MayComeFirst, MayRefuseMatch, radius2};
ghost use Rattle.hx_xmatch.specs.Output.{output_file, temporary_file};
ghost use Rattle.hx_xmatch.specs.Tested.{IsTestRefusal, MayRefuseTest};

use crate::coverage::check_coverage;
use crate::laws::finished_catalogues_are_matched;
use crate::query::{Matched, Query};
use crate::writing::{Counts, Pair, write_output};
use hx_base::{Name, Refusal};
use hx_catalog::open_catalogue;
use hx_outside::Store;
use std::alloc::Global;

// Matches two catalogues that were opened.
fn match_pair<S: Store>(
    alloc: Global,
    store: &mut S,
    pair: &Pair,
    output: &Name,
) -> Result<Counts, Refusal>
    ensures whole { S.disk.tells store.old → LeavesText S.disk store.old store.new output.now (IsMatchOf (S.disk.reads store.old) pair.now.left pair.now.right pair.now.r2) }
    ensures before { S.disk.tells store.old → OnErr result (Passes S.disk store.old store.new (SameBut (temporary_file output.now)) ⊎ HasFailed S.disk.faults store.old store.new) }
    ensures written { S.disk.tells store.old → IfOk result (λ counts. (text : List ℕ) × HasInEach S.disk store.new (output_file output.now) text
        × IsMatch (S.disk.reads store.old) pair.now.left pair.now.right pair.now.r2 text counts.rows counts.matched) }
    ensures refused { S.disk.tells store.old → IfErr result (IsTestRefusal (S.disk.reads store.old) pair.now.left pair.now.right pair.now.r2) }
    ensures kinds { IfErr result MayRefuseTest }
    ensures cause { HasFaultCause S.disk.faults store.old store.new result }
{
    check_coverage(alloc, store, &pair.left, &pair.right, pair.r2)?;
    write_output(alloc, store, pair, output)
}

// Opens both catalogues, the left one first.
fn open_pair<S: Store>(alloc: Global, store: &mut S, query: &Query) -> Result<Pair, Refusal>
    requires { query.now.radius ≤ 2000000000 }
    ensures unchanged { S.disk.tells store.old → Passes S.disk store.old store.new Same }
    ensures opened { S.disk.tells store.old → IfOk result (λ pair. AreOpened (S.disk.reads store.old) query.now pair.left pair.right × (pair.r2 ≡ radius2 query.now)) }
    ensures refused { S.disk.tells store.old → IfErr result (IsOpenRefusal (S.disk.reads store.old) query.now) }
    ensures kinds { IfErr result MayRefuseMatch }
    ensures cause { HasFaultCause S.disk.faults store.old store.new result }
{
    let left = open_catalogue(alloc, store, &query.left, 1)?;
    let right = open_catalogue(alloc, store, &query.right, 2)?;
    Ok(Pair {
        left,
        right,
        r2: query.radius * query.radius,
    })
}

// Matches the catalogues of a query.
fn match_query<S: Store>(alloc: Global, store: &mut S, query: &Query) -> Result<Counts, Refusal>
    requires { query.now.radius ≤ 2000000000 }
    ensures whole { S.disk.tells store.old → LeavesText S.disk store.old store.new query.now.output (IsAskedText (S.disk.reads store.old) query.now) }
    ensures before { S.disk.tells store.old → OnErr result (Passes S.disk store.old store.new (SameBut (temporary_file query.now.output)) ⊎ HasFailed S.disk.faults store.old store.new) }
    ensures written { S.disk.tells store.old → IfOk result (λ counts. (text : List ℕ) × HasInEach S.disk store.new (output_file query.now.output) text
        × IsAsked (S.disk.reads store.old) query.now text counts.rows counts.matched) }
    ensures refused { S.disk.tells store.old → IfErr result (IsMatchRefusal (S.disk.reads store.old) query.now) }
    ensures kinds { IfErr result MayRefuseMatch }
    ensures cause { HasFaultCause S.disk.faults store.old store.new result }
{
    let pair = open_pair(alloc, store, query)?;
    match_pair(alloc, store, &pair, &query.output)
}

/// Matches two catalogues: for each left row the nearest right row of the whole sky within the radius is written, a line each,
/// to the file of the output's name. The file has the whole text or stays as it was; no other file but the temporary one beside
/// it is changed.
///
/// In their order it refuses by `NoCatalogue` of the left and of the right name, and by `TooNarrow` with the least pair of
/// pixels of the cover order whose rows may be within the radius, while no margin joins them. `Damaged`, `StoreFault` and
/// `Memory` may come in place of an answer that isn't decided yet. Over a store that keeps two finished catalogues `NoCatalogue`
/// and `Damaged` never come.
pub fn match_one<S: Store>(alloc: Global, query: Query, mut store: S) -> Matched<S>
    requires { query.radius ≤ 2000000000 }
    // what may change, at any moment and whatever is answered
    ensures changes { S.disk.tells store → Passes S.disk store result.store (SameButBoth (temporary_file query.output) (output_file query.output)) }
    // the output's file at any moment, over finished catalogues
    ensures whole { S.disk.tells store → (left right : List Row) → AreFinished S.disk store query left right →
        Passes S.disk store result.store (Publishes (temporary_file query.output) (output_file query.output) (match_text (radius2 query) right left)) }
    // the output's file after a refusal
    ensures before { S.disk.tells store → IsSome result.refusal →
        Passes S.disk store result.store (SameBut (temporary_file query.output)) ⊎ HasFailed S.disk.faults store result.store }
    // a match is exact
    ensures written { S.disk.tells store → (left right : List Row) → AreFinished S.disk store query left right → result.refusal ≡ None →
        HasInEach S.disk result.store (output_file query.output) (match_text (radius2 query) right left) }
    ensures rows { S.disk.tells store → (left right : List Row) → AreFinished S.disk store query left right → result.refusal ≡ None →
        result.rows ≡ length left }
    ensures matched { S.disk.tells store → (left right : List Row) → AreFinished S.disk store query left right → result.refusal ≡ None →
        result.matched ≡ matched_rows (radius2 query) right left }
    ensures none { IsSome result.refusal → (result.rows ≡ 0) × (result.matched ≡ 0) }
    // every refusal has its cause
    ensures refused { S.disk.tells store → IfSome result.refusal (IsMatchRefusal (S.disk.reads store) query) }
    ensures kinds { IfSome result.refusal MayRefuseMatch }
    ensures later { S.disk.faults store ≤ S.disk.faults result.store }
    ensures failed { result.refusal ≡ Some StoreFault → HasFailed S.disk.faults store result.store }
    // the first refusal is answered, and nothing else
    ensures absent { S.disk.tells store → (first : Refusal) → IsAbsent (S.disk.reads store) query first →
        (result.refusal ≡ Some first) ⊎ IsSomeAnd result.refusal MayComeFirst }
    ensures exact { S.disk.tells store → (left right : List Row) → (finished : AreFinished S.disk store query left right) →
        AnswersExactly finished.parts finished.right_settings.margin_order (radius2 query) left right result.refusal }
{
    finished_catalogues_are_matched();
    match match_query(alloc, &mut store, &query) {
        Ok(counts) => Matched {
            refusal: None,
            rows: counts.rows,
            matched: counts.matched,
            store,
        },
        Err(refusal) => Matched {
            refusal: Some(refusal),
            rows: 0,
            matched: 0,
            store,
        },
    }
}
