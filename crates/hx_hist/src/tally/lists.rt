//! Lists of histograms, in which those of like size become one.
ghost use Rattle.std.specs.Prelude.{◌≡◌, ◌+◌, ◌^◌, ◌<◌, ◌≤◌, ◌∷◌, ◌++◌, [], ℕ, IfNone, IfOk, IfSome, OnOk};
ghost use Rattle.hx_hist.specs.Histograms.{count_at, total_of};
ghost use Rattle.hx_hist.specs.Tallies.{AreOfOrder, count_among, total_among};

use crate::Hist;
use std::alloc::{AllocError, Global};

// Takes the last histogram where it has at most about twice so many pairs.
fn pop_of_like_size(hists: &mut Vec<Hist>, pairs: usize) -> Option<Hist>
    ensures taken { IfSome result (λ hist. hists.old.items ≡ hists.new.items ++ hist ∷ []) }
    ensures kept { IfNone result (hists.new.items ≡ hists.old.items) }
{
    let last = hists.last()?;
    if last.pairs().len() / 2 > pairs {
        return None;
    }
    hists.pop()
}

/// Puts a histogram at the end of a list of others of its order, merged with those before it for as long as they are
/// of like size. Then the sizes fall by half or more from each to the next, so that a pair takes part in about as many
/// merges as the logarithm of the number of all pairs. After an error some counts may be missing.
pub fn push_merged(hists: &mut Vec<Hist>, hist: Hist) -> Result<(), AllocError>
    requires orders { AreOfOrder hist.order hists.old.items }
    requires room { total_among hists.old.items + total_of hist.pairs < 2 ^ 64 }
    ensures orders { AreOfOrder hist.order hists.new.items }
    ensures most { total_among hists.new.items ≤ total_among hists.old.items + total_of hist.pairs }
    ensures counts { OnOk result ((p : ℕ) → count_among p hists.new.items ≡ count_among p hists.old.items + count_at p hist.pairs) }
    ensures total { OnOk result (total_among hists.new.items ≡ total_among hists.old.items + total_of hist.pairs) }
{
    let mut last = hist;
    while let Some(before) = pop_of_like_size(hists, last.pairs().len()) {
        last.merge(&before)?;
    }
    hists.push(last)?;
    Ok(())
}

/// The histogram of the counts of histograms of an order, merged from the last on.
pub fn merge_all(alloc: Global, order: u8, mut hists: Vec<Hist>) -> Result<Hist, AllocError>
    requires order { order ≤ 29 }
    requires orders { AreOfOrder order hists.items }
    requires total { total_among hists.items < 2 ^ 64 }
    ensures order { IfOk result (λ all. all.order ≡ order) }
    ensures counts { IfOk result (λ all. (p : ℕ) → count_at p all.pairs ≡ count_among p hists.items) }
    ensures total { IfOk result (λ all. total_of all.pairs ≡ total_among hists.items) }
{
    let Some(mut all) = hists.pop() else {
        return Ok(Hist::new(alloc, order));
    };
    while let Some(hist) = hists.pop() {
        all.merge(&hist)?;
    }
    Ok(all)
}
