//! Writing the lines of all left rows.
ghost use Rattle.std.specs.Prelude.{◌≡◌, ◌<◌, ◌≤◌, ◌+◌, ◌⊎◌, [], ℕ, IfErr, IfOk, List, OnErr, OnOk, Some, length};
ghost use Rattle.hx_catalog.specs.Answers.{HasFaultCause};
ghost use Rattle.hx_outside.specs.Disk.{Passes};
ghost use Rattle.hx_outside.specs.Faults.{HasFailed};
ghost use Rattle.hx_outside.specs.Folders.{SameBut};
ghost use Rattle.hx_publish.specs.Publishing.{HasInEach};
ghost use Rattle.hx_xmatch.specs.Fields.{IsFieldOf};
ghost use Rattle.hx_xmatch.specs.Files.{HasRowsAt, IsEitherLoadRefusal, MayRefuseFiles};
ghost use Rattle.hx_xmatch.specs.MatchText.{header};
ghost use Rattle.hx_xmatch.specs.Outcomes.{LeavesText};
ghost use Rattle.hx_xmatch.specs.Output.{AddsPiece, HasNoFolder, IsTextOf, counted, output_file, temporary_file};

use crate::fields::Field;
use crate::files::load;
use crate::output::{add, begin, finish, output_file, temporary_file};
use crate::pieces::push_piece;
use hx_base::{Name, Refusal};
use hx_catalog::Catalogue;
use hx_outside::Store;
use std::alloc::{AllocError, Global};

const HEADER: &[u8] = b"id,_healpix_29,match_id,match_healpix_29,chord2\n";

/// Two catalogues that are matched within a radius, of which `r2` is the square.
#[derive(Drop)]
pub(crate) struct Pair {
    pub(crate) left: Catalogue,
    pub(crate) right: Catalogue,
    pub(crate) r2: u64,
    ghost left_side: { left.side ≡ 1 },
    ghost right_side: { right.side ≡ 2 },
}

/// How many lines there are, and how many of them have a match. Each number stops at 2^64 - 1.
#[derive(Clone, Copy, Debug, PartialEq, Eq)]
pub(crate) struct Counts {
    pub(crate) rows: u64,
    pub(crate) matched: u64,
}

impl Counts {
    // The sums with further ones.
    fn plus(self, more: Counts) -> Counts
        ensures rows { result.rows ≡ counted (self.rows + more.rows) }
        ensures matched { result.matched ≡ counted (self.matched + more.matched) }
    {
        Counts {
            rows: self.rows.saturating_add(more.rows),
            matched: self.matched.saturating_add(more.matched),
        }
    }
}

// What is kept from one left partition to the next: the right rows that were searched last, and a buffer.
#[derive(Drop)]
struct Work {
    field: Field,
    text: Vec<u8>,
}

// Adds the lines of the rows of a left partition to the temporary file.
fn add_piece<S: Store>(
    alloc: Global,
    store: &mut S,
    pair: &Pair,
    part: u32,
    tmp: &str,
    work: &mut Work,
) -> Result<Counts, Refusal>
    requires { part < length pair.now.left.parts }
    ensures passes { S.disk.tells store.old → Passes S.disk store.old store.new (SameBut tmp.now) }
    ensures field { S.disk.tells store.old →
        IsFieldOf (HasRowsAt (S.disk.reads store.old) pair.now.right) work.old.field.parts.items work.old.field.margin work.old.field.tree → OnOk result
        (IsFieldOf (HasRowsAt (S.disk.reads store.old) pair.now.right) work.new.field.parts.items work.new.field.margin work.new.field.tree) }
    ensures added { S.disk.tells store.old →
        IsFieldOf (HasRowsAt (S.disk.reads store.old) pair.now.right) work.old.field.parts.items work.old.field.margin work.old.field.tree → IfOk result (λ counts.
        AddsPiece (S.disk.reads store.old) pair.now.left pair.now.right part pair.now.r2 (S.disk.reads store.old tmp.now) (S.disk.reads store.new tmp.now) counts.rows counts.matched) }
    ensures few { IfOk result (λ counts. counts.matched ≤ counts.rows) }
    ensures refused { S.disk.tells store.old → IfErr result (IsEitherLoadRefusal (S.disk.reads store.old) pair.now.left pair.now.right) }
    ensures kinds { IfErr result MayRefuseFiles }
    ensures cause { HasFaultCause S.disk.faults store.old store.new result }
{
    let rows = load(&pair.left, store, part, false)?;
    work.text.clear();
    let matched = push_piece(
        alloc,
        store,
        &pair.right,
        &mut work.field,
        &rows,
        pair.r2,
        &mut work.text,
    )?;
    add(store, tmp, &work.text)?;
    Ok(Counts {
        rows: rows.len() as u64,
        matched,
    })
}

// Writes the header and the lines of all left rows to the temporary file.
fn write_lines<S: Store>(
    alloc: Global,
    store: &mut S,
    pair: &Pair,
    tmp: &str,
) -> Result<Counts, Refusal>
    requires { HasNoFolder tmp.now }
    ensures passes { S.disk.tells store.old → Passes S.disk store.old store.new (SameBut tmp.now) }
    ensures written { S.disk.tells store.old → IfOk result (λ counts. (text : List ℕ) × (S.disk.reads store.new tmp.now ≡ Some text)
        × IsTextOf (S.disk.reads store.old) pair.now.left pair.now.right pair.now.r2 text counts.rows counts.matched) }
    ensures refused { S.disk.tells store.old → IfErr result (IsEitherLoadRefusal (S.disk.reads store.old) pair.now.left pair.now.right) }
    ensures kinds { IfErr result MayRefuseFiles }
    ensures cause { HasFaultCause S.disk.faults store.old store.new result }
{
    begin(store, tmp, HEADER)?;
    let mut work = Work {
        field: Field::none(alloc)?,
        text: Vec::new(alloc),
    };
    let mut counts = Counts {
        rows: 0,
        matched: 0,
    };
    for part in 0..pair.left.parts().len() {
        let more = add_piece(alloc, store, pair, part as u32, tmp, &mut work)?;
        counts = counts.plus(more);
    }
    Ok(counts)
}

/// Writes the match text of two catalogues: it becomes the file of the output's name, whole or not at all.
pub(crate) fn write_output<S: Store>(
    alloc: Global,
    store: &mut S,
    pair: &Pair,
    output: &Name,
) -> Result<Counts, Refusal>
    ensures whole { S.disk.tells store.old → LeavesText S.disk store.old store.new output.now
        (λ text. (rows : ℕ) × (matched : ℕ) × IsTextOf (S.disk.reads store.old) pair.now.left pair.now.right pair.now.r2 text rows matched) }
    ensures before { S.disk.tells store.old → OnErr result (Passes S.disk store.old store.new (SameBut (temporary_file output.now)) ⊎ HasFailed S.disk.faults store.old store.new) }
    ensures written { S.disk.tells store.old → IfOk result (λ counts. (text : List ℕ) × HasInEach S.disk store.new (output_file output.now) text
        × IsTextOf (S.disk.reads store.old) pair.now.left pair.now.right pair.now.r2 text counts.rows counts.matched) }
    ensures refused { S.disk.tells store.old → IfErr result (IsEitherLoadRefusal (S.disk.reads store.old) pair.now.left pair.now.right) }
    ensures kinds { IfErr result MayRefuseFiles }
    ensures cause { HasFaultCause S.disk.faults store.old store.new result }
{
    let tmp = temporary_file(alloc, output)?;
    let name = output_file(alloc, output)?;
    let counts = write_lines(alloc, store, pair, tmp.as_str())?;
    finish(store, tmp.as_str(), name.as_str())?;
    Ok(counts)
}
