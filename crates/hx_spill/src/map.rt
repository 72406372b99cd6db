//! The file of a map task: a histogram.
ghost use Rattle.std.specs.Prelude.{◌⊎◌, List, ℕ, IsSome, ◌≡◌, ◌+◌, ◌*◌, ◌^◌, ◌<◌, ◌≤◌, ◌∷◌, ◌++◌, [], All, IfOk, IfErr, Ok, IfSome, OnOk, OnErr, length, nat_le};
ghost use Rattle.std.specs.List.{flat_map};
ghost use Rattle.hx_base.specs.Limits.{most_rows};
ghost use Rattle.hx_hist.specs.Histograms.{Histogram, total_of};
ghost use Rattle.hx_spill.specs.Items.{Gives, Refuses, each};
ghost use Rattle.hx_spill.specs.Maps.{AreCounted, HaveRead, bytes_of_map, bytes_of_pair, map_in, pair_at, pair_behind, rows_in_head};
ghost use Rattle.hx_hist.specs.declared.hist.Pair.{Pair};

use crate::items::{ended, kept, mark, u32_at, u64_at};
use crate::writing::{push_u32, push_u64};
use hx_base::{MOST_ROWS, SpillRefusal, pixels_of_order};
use hx_hist::{Hist, Pair};
use std::alloc::{AllocError, Global};

const MARK: [u8; 4] = *b"HXM1";

const ROWS_PLACE: usize = 8;

const HEAD_WIDTH: usize = 24;

const PAIR_WIDTH: usize = 16;

// A pair at a place, whose pixel is one of the order and not below the least.
#[inline]
#[tactic(auto, unfolding(crate::specs::Maps::pair_at))]
fn pair_at(bytes: &[u8], at: usize, order: u8, least: u64) -> Result<Pair, SpillRefusal>
    requires order { order ≤ 29 }
    requires within { at ≤ length bytes.now }
    ensures value { result ≡ pair_at order (λ pixel. nat_le least pixel) at bytes.now }
    ensures there { OnOk result (at + 16 ≤ length bytes.now) }
    ensures pixel { IfOk result (λ pair. pair.pixel < 12 * 4 ^ order) }
    ensures fits { IfOk result (λ pair. pair.pixel + 1 < 2 ^ 64) }
    ensures least { IfOk result (λ pair. least ≤ pair.pixel) }
    ensures count { IfOk result (λ pair. 0 < pair.count) }
{
    let pixel = u64_at(bytes, at)?;
    let pixel = kept(pixel < pixels_of_order(order) && least <= pixel, pixel, at)?;
    let count = u64_at(bytes, at + 8)?;
    let count = kept(count > 0, count, at + 8)?;
    Ok(Pair { pixel, count })
}

// Counts a pair behind all others towards a number of rows, of which so many are left; None once they are too many.
fn count_pair(hist: &mut Hist, left: Option<u64>, pair: Pair) -> Result<Option<u64>, AllocError>
    requires below { IsSome left → All (λ other. other.pixel < pair.pixel) hist.old.pairs }
    requires some { 0 < pair.count }
    requires pixel { pair.pixel < 12 * 4 ^ hist.old.order }
    requires total { IfSome left (λ rows. total_of hist.old.pairs + rows < 2 ^ 64) }
    ensures order { hist.new.order ≡ hist.old.order }
    ensures counted { IfOk result (λ now. (rows : ℕ) (pairs : List Pair) → AreCounted rows pairs left hist.old.pairs →
        AreCounted rows (pairs ++ pair ∷ []) now hist.new.pairs) }
{
    match left {
        Some(rows) if pair.count <= rows => {
            hist.push(pair)?;
            Ok(Some(rows - pair.count))
        }
        _ => Ok(None),
    }
}

/// A histogram of pairs, how many of the expected rows they leave, and the place behind them.
#[derive(Drop)]
struct Counted {
    hist: Hist,
    left: Option<u64>,
    at: usize,
}

fn read_pairs(
    alloc: Global,
    bytes: &[u8],
    order: u8,
    rows: u64,
    n: u64,
) -> Result<Counted, SpillRefusal>
    requires order { order ≤ 29 }
    requires head { 24 ≤ length bytes.now }
    ensures read { IfOk result (λ counted. HaveRead order rows n bytes.now counted.hist counted.left counted.at) }
    ensures refused { IfErr result (λ refused. Refuses refused (each n (pair_behind order bytes.now))) }
{
    let room = n.min((bytes.len() / PAIR_WIDTH) as u64) as usize;
    let mut hist = Hist::with_capacity(alloc, order, room)?;
    let mut left = Some(rows);
    let mut least = 0;
    let mut at = HEAD_WIDTH;
    for index in 0..n {
        let pair = pair_at(bytes, at, order, least)?;
        left = count_pair(&mut hist, left, pair)?;
        least = pair.pixel + 1;
        at += PAIR_WIDTH;
    }
    Ok(Counted { hist, left, at })
}

/// The histogram of a map file. It is damaged where it isn't a mark, an order of at most 29, a number of rows of at most
/// 2^40 and of pairs, and these pairs, by pixels of the order that ascend with counts above 0, whose sum is the number of
/// rows.
#[tactic(auto, unfolding(crate::specs::Maps::map_in))]
pub fn read_map(alloc: Global, bytes: &[u8]) -> Result<Hist, SpillRefusal>
    ensures value { Gives (λ (hist : Histogram). hist) result (map_in bytes.now) }
    ensures rows { IfOk result (λ hist. total_of hist.pairs ≤ most_rows) }
{
    mark(&MARK, bytes)?;
    let order = u32_at(bytes, 4)?;
    let order = kept(order <= 29, order, 4)?;
    let rows = u64_at(bytes, ROWS_PLACE)?;
    let rows = kept(rows <= MOST_ROWS, rows, ROWS_PLACE)?;
    let n = u64_at(bytes, 16)?;
    let counted = read_pairs(alloc, bytes, order as u8, rows, n)?;
    ended(bytes, counted.at as u64)?;
    match counted.left {
        Some(0) => Ok(counted.hist),
        _ => Err(SpillRefusal::Damaged {
            place: ROWS_PLACE as u64,
        }),
    }
}

#[tactic(auto, unfolding(crate::specs::Maps::rows_in_head))]
fn rows_told(bytes: &[u8]) -> Result<u64, SpillRefusal>
    ensures { result ≡ rows_in_head bytes.now }
{
    mark(&MARK, bytes)?;
    let order = u32_at(bytes, 4)?;
    kept(order <= 29, order, 4)?;
    let rows = u64_at(bytes, ROWS_PLACE)?;
    kept(rows <= MOST_ROWS, rows, ROWS_PLACE)
}

/// How many rows a map counts, as its head tells. It is damaged where its mark, its order or this number is.
pub fn rows_in_map(bytes: &[u8]) -> Result<u64, SpillRefusal>
    ensures head { result ≡ rows_in_head bytes.now }
    ensures whole { (hist : Histogram) → map_in bytes.now ≡ Ok hist → result ≡ Ok (total_of hist.pairs) }
{
    rows_told(bytes)
}

fn total_of(pairs: &[Pair]) -> u64
    requires { total_of pairs.now < 2 ^ 64 }
    ensures { result ≡ total_of pairs.now }
{
    let mut total = 0;
    for pair in pairs {
        total += pair.count;
    }
    total
}

#[inline]
fn bytes_of_pair(pair: Pair) -> [u8; 16]
    ensures { result ≡ bytes_of_pair pair }
{
    let p = pair.pixel.to_le_bytes();
    let n = pair.count.to_le_bytes();
    [
        p[0], p[1], p[2], p[3], p[4], p[5], p[6], p[7], n[0], n[1], n[2], n[3], n[4], n[5], n[6],
        n[7],
    ]
}

#[inline]
fn push_bytes_of_pair(bytes: &mut Vec<u8>, pair: Pair) -> Result<(), AllocError>
    ensures { OnOk result (bytes.new.items ≡ bytes.old.items ++ bytes_of_pair pair) }
{
    bytes.extend_from_slice(&bytes_of_pair(pair))
}

fn push_pairs(bytes: &mut Vec<u8>, pairs: &[Pair]) -> Result<(), AllocError>
    ensures { OnOk result (bytes.new.items ≡ bytes.old.items ++ flat_map bytes_of_pair pairs.now) }
{
    for pair in pairs {
        push_bytes_of_pair(bytes, *pair)?;
    }
    Ok(())
}

/// The file of a histogram of at most 2^40 rows, which reads back as it.
pub fn map_bytes(alloc: Global, hist: &Hist) -> Result<Vec<u8>, AllocError>
    requires { total_of hist.now.pairs ≤ most_rows }
    ensures bytes { IfOk result (λ bytes. bytes.items ≡ bytes_of_map hist.now) }
    ensures reads_back { IfOk result (λ bytes. map_in bytes.items ≡ Ok hist.now) }
{
    let pairs = hist.pairs();
    let size = pairs
        .len()
        .saturating_mul(PAIR_WIDTH)
        .saturating_add(HEAD_WIDTH);
    let mut bytes = Vec::with_capacity(alloc, size)?;
    bytes.extend_from_slice(&MARK)?;
    push_u32(&mut bytes, u32::from(hist.order()))?;
    push_u64(&mut bytes, total_of(pairs))?;
    push_u64(&mut bytes, pairs.len() as u64)?;
    push_pairs(&mut bytes, pairs)?;
    Ok(bytes)
}
