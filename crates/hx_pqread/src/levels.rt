ghost use Rattle.std.specs.Prelude.{◌≡◌, ◌+◌, ◌<◌, ◌^◌, ◌≤◌, ◌*◌, ◌/◌, ◌%◌, slice_index, min, replicate, length, take, IfSome};
ghost use Rattle.std.specs.List.{flat_map};
ghost use Rattle.std.specs.Option.{option_map};
ghost use Rattle.hx_pqread.specs.Runs.{group_levels};
ghost use Rattle.hx_pqread.specs.Levels.{head_at, equal_at, packed_at, run_at, levels_in, told_of, told_run, joined, IsWithin};

use hx_thrift::{Reader, reading_is_spelling};

/// What the levels of some values say of these.
#[derive(Clone, Copy)]
pub struct Told {
    /// How many values there are, with those that are absent.
    pub count: usize,
    /// How many of them are there.
    pub given: usize,
    /// The index of the first that is absent.
    pub absent: Option<usize>,
}

// What no levels say.
const NONE: Told = Told {
    count: 0,
    given: 0,
    absent: None,
};

// What is said of values, and of others that come behind them.
fn joined(first: Told, second: Told) -> Told
    requires first { IsWithin first }
    requires second { IsWithin second }
    requires few { first.count + second.count < 2 ^ 62 }
    ensures within { IsWithin result }
    ensures count { result.count ≡ first.count + second.count }
    ensures value { result ≡ joined first second }
{
    let absent = match (first.absent, second.absent) {
        (Some(index), _) => Some(index),
        (None, Some(index)) => Some(first.count + index),
        (None, None) => None,
    };
    Told {
        count: first.count + second.count,
        given: first.given + second.given,
        absent,
    }
}

/// What `count` equal levels say, each of them 1 or each of them 0.
#[tactic(auto, using(crate::proofs::Saying::told_none))]
pub fn equal(level: u8, count: usize) -> Told
    requires { level < 2 }
    ensures within { IsWithin result }
    ensures count { result.count ≡ count }
    ensures value { result ≡ told_of (replicate count level) }
{
    if level == 1 {
        Told {
            count,
            given: count,
            absent: None,
        }
    } else if count == 0 {
        NONE
    } else {
        Told {
            count,
            given: 0,
            absent: Some(0),
        }
    }
}

// The level at an index in a group.
fn level(group: u8, index: usize) -> u8
    requires { index < 8 }
    ensures small { result < 2 }
    ensures value { result ≡ group / 2 ^ index % 2 }
{
    (group >> index) % 2
}

// What the first `count` levels of a group say.
fn of_group(group: u8, count: usize) -> Told
    requires { count ≤ 8 }
    ensures within { IsWithin result }
    ensures count { result.count ≡ count }
    ensures value { result ≡ told_of (take count (group_levels group)) }
{
    if group == 0xff {
        return equal(1, count);
    }
    let mut told = NONE;
    for index in 0..count {
        told = joined(told, equal(level(group, index), 1));
    }
    told
}

// What the levels of groups say, at most `wanted` of them.
fn of_groups(groups: &[u8], wanted: usize) -> Told
    requires { wanted < 2 ^ 31 }
    ensures within { IsWithin result }
    ensures count { result.count ≤ wanted }
    ensures value { result ≡ told_of (take wanted (flat_map group_levels groups.now)) }
{
    let mut told = NONE;
    for group in groups {
        let left = wanted - told.count;
        told = joined(told, of_group(*group, least(8, left)));
    }
    told
}

fn least(count: u64, wanted: usize) -> usize
    ensures { result ≡ min count wanted }
{
    if (wanted as u64) > count {
        count as usize
    } else {
        wanted
    }
}

// The header of the run at the front, and the bytes behind it.
#[tactic(auto, unfolding(crate::specs::Levels::head_at))]
fn run_head(bytes: &[u8]) -> Option<(u64, &[u8])>
    ensures { option_map (λ head. (head.0, head.1.now)) result ≡ head_at bytes.now }
{
    reading_is_spelling();
    let mut reader = Reader::new(bytes, 0);
    match reader.varint() {
        Ok(head) => {
            let (_, rest) = bytes.split_at(bytes.len() - reader.remaining());
            Some((head, rest))
        }
        Err(_) => None,
    }
}

// What the levels of a run of equal ones say, at most `wanted` of them, and the bytes behind the run.
#[tactic(auto, unfolding(crate::specs::Levels::equal_at))]
fn equal_run(count: u64, wanted: usize, bytes: &[u8]) -> Option<(Told, &[u8])>
    requires { wanted < 2 ^ 31 }
    ensures within { IfSome result (λ run. IsWithin run.0 × (run.0.count ≤ wanted)) }
    ensures value { option_map (λ run. (run.0, run.1.now)) result ≡ told_run wanted (equal_at count bytes.now) }
{
    if bytes.is_empty() || 2 <= bytes[0] {
        return None;
    }
    let (_, rest) = bytes.split_at(1);
    Some((equal(bytes[0], least(count, wanted)), rest))
}

// The like for a run of groups of eight.
#[tactic(auto, unfolding(crate::specs::Levels::packed_at))]
fn packed_run(count: u64, wanted: usize, bytes: &[u8]) -> Option<(Told, &[u8])>
    requires { wanted < 2 ^ 31 }
    ensures within { IfSome result (λ run. IsWithin run.0 × (run.0.count ≤ wanted)) }
    ensures value { option_map (λ run. (run.0, run.1.now)) result ≡ told_run wanted (packed_at count bytes.now) }
{
    if count > bytes.len() as u64 {
        return None;
    }
    let (groups, rest) = bytes.split_at(count as usize);
    Some((of_groups(groups, wanted), rest))
}

// What the levels of the run at the front say, at most `wanted` of them, and the bytes behind the run; `None` where no
// run stands there.
#[tactic(auto, unfolding(crate::specs::Levels::run_at))]
fn run_at(wanted: usize, bytes: &[u8]) -> Option<(Told, &[u8])>
    requires { wanted < 2 ^ 31 }
    ensures within { IfSome result (λ run. IsWithin run.0 × (run.0.count ≤ wanted)) }
    ensures value { option_map (λ run. (run.0, run.1.now)) result ≡ told_run wanted (run_at bytes.now) }
{
    let (head, rest) = run_head(bytes)?;
    if head % 2 == 0 {
        equal_run(head / 2, wanted, rest)
    } else {
        packed_run(head / 2, wanted, rest)
    }
}

/// What the first `wanted` levels of the runs in these bytes say; `None` where they aren't there. The levels aren't
/// listed: a run of many takes no more than its bytes.
pub fn read_levels(bytes: &[u8], wanted: usize) -> Option<Told>
    requires { wanted < 2 ^ 31 }
    ensures within { IfSome result (λ told. IsWithin told × (told.count ≡ wanted)) }
    ensures value { result ≡ option_map told_of (levels_in wanted bytes.now) }
{
    let mut told = NONE;
    let mut rest = bytes;
    for _ in 0..bytes.len() {
        if told.count == wanted {
            return Some(told);
        }
        match run_at(wanted - told.count, rest) {
            None => return None,
            Some((run, after)) => {
                told = joined(told, run);
                rest = after;
            }
        }
    }
    if told.count == wanted {
        Some(told)
    } else {
        None
    }
}
