//! What a task that a worker holds makes of the job's files.
ghost use Rattle.std.specs.Prelude.{◌≡◌, ◌≤◌, ◌<◌, ◌+◌, ◌-◌, ◌*◌, None, Some, IfErr, IfOk, IfSome, length, slice_get};
ghost use Rattle.hx_base.specs.Limits.{most_rows};
ghost use Rattle.hx_base.specs.declared.refusal.JobFile.TheVariants.{Map, Margin, MarginProperties, MarginSplit, Part, Plan as PlanFile, Properties};
ghost use Rattle.hx_base.specs.declared.refusal.Refusal.TheVariants.{Memory};
ghost use Rattle.hx_book.specs.Books.{job_of};
ghost use Rattle.hx_book.specs.Tasks.{task};
ghost use Rattle.hx_book.specs.Values.{IsFileOf, IsValue};
ghost use Rattle.hx_hist.specs.Histograms.{total_of};
ghost use Rattle.hx_import.specs.Given.{CountsBetween, IsCutFor};
ghost use Rattle.hx_import.specs.Working.{IsAsked, IsAtWork, IsFailed, IsStill};

use crate::summing::{count_of_kind, rows_of_kind};
use crate::tasks::{
    Cut, add_counts, add_margin_slice, add_slice, counts_in, list_file, margin_file,
    margin_properties_file, margin_split_file, numbers_around, part_of, plan_file, properties_file,
    read_cut, reduce_file,
};
use hx_base::{JobFile, Refusal, Settings, Task, partitions_of_rows};
use hx_book::{Book, Job};
use hx_hist::Hist;
use hx_outside::{Source, Store};
use std::alloc::Global;

// The counts of an input, by its map file.
fn counts_of<J: Job, Src: Source, S: Store>(
    alloc: Global,
    book: &mut Book<J, Src, S>,
    number: u32,
    settings: &Settings,
) -> Result<Hist, Refusal>
    requires asked { IsAsked J.of }
    requires settings { settings.now ≡ J.of.settings }
    requires work { IsAtWork J.of book.old (task 2 0) }
    requires there { number < length (job_of J.of).inputs }
    ensures order { IfOk result (λ hist. hist.order ≡ J.of.settings.highest) }
    ensures total { IfOk result (λ hist. total_of hist.pairs ≤ most_rows) }
    ensures counts { IfOk result (λ hist. J.of.premises → CountsBetween (job_of J.of) number (number + 1) hist) }
    ensures cause { IfErr result (IsFailed J.of Src.source (task 2 0) None book.new.faults) }
    ensures still { IsStill book.old book.new }
    ensures work { IsAtWork J.of book.new (task 2 0) }
{
    let map = book.read_file(JobFile::Map(number))?;
    counts_in::<J>(alloc, &map, number, settings.highest)
}

// The counts of the inputs from one number up to another: those of each half, together. So each map is read once, and
// its pixels are in as many sums as the inputs can be halved. No more histograms are kept at a time than that.
fn counts_between<J: Job, Src: Source, S: Store>(
    alloc: Global,
    book: &mut Book<J, Src, S>,
    from: u32,
    to: u32,
    settings: &Settings,
) -> Result<Hist, Refusal>
    requires asked { IsAsked J.of }
    requires settings { settings.now ≡ J.of.settings }
    requires work { IsAtWork J.of book.old (task 2 0) }
    requires range { from ≤ to }
    requires there { to ≤ length (job_of J.of).inputs }
    ensures order { IfOk result (λ sum. sum.order ≡ J.of.settings.highest) }
    ensures total { IfOk result (λ sum. total_of sum.pairs ≤ (to - from) * most_rows) }
    ensures counts { IfOk result (λ sum. J.of.premises → CountsBetween (job_of J.of) from to sum) }
    ensures cause { IfErr result (IsFailed J.of Src.source (task 2 0) None book.new.faults) }
    ensures still { IsStill book.old book.new }
    ensures work { IsAtWork J.of book.new (task 2 0) }
{
    let count = to - from;
    if count == 0 {
        return Ok(Hist::new(alloc, settings.highest));
    }
    if count == 1 {
        return counts_of(alloc, book, from, settings);
    }
    let mid = from + count / 2;
    let mut sum = counts_between(alloc, book, from, mid, settings)?;
    let more = counts_between(alloc, book, mid, to, settings)?;
    add_counts::<J>(&mut sum, &more)?;
    Ok(sum)
}

/// The file of the plan task: the counts of all map files are summed and cut into partitions.
pub(crate) fn make_plan<J: Job, Src: Source, S: Store>(
    alloc: Global,
    book: &mut Book<J, Src, S>,
    settings: &Settings,
) -> Result<Vec<u8>, Refusal>
    requires asked { IsAsked J.of }
    requires settings { settings.now ≡ J.of.settings }
    requires work { IsAtWork J.of book.old (task 2 0) }
    ensures value { IfOk result (λ file. J.of.premises → IsFileOf (job_of J.of) file.items PlanFile) }
    ensures cause { IfErr result (IsFailed J.of Src.source (task 2 0) None book.new.faults) }
    ensures still { IsStill book.old book.new }
{
    let inputs = book.inputs();
    let sum = counts_between(alloc, book, 0, inputs, settings)?;
    plan_file::<J>(alloc, &sum, settings)
}

/// The job's partitions, once they are planned: those that are known, or those of the plan's file.
pub(crate) fn known_cut<J: Job, Src: Source, S: Store>(
    alloc: Global,
    book: &mut Book<J, Src, S>,
    known: Option<Cut>,
    settings: &Settings,
    of: Task,
) -> Result<Cut, Refusal>
    requires asked { IsAsked J.of }
    requires settings { settings.now ≡ J.of.settings }
    requires work { IsAtWork J.of book.old of }
    requires planned { 3 ≤ of.kind }
    requires unfinished { of.kind ≤ 7 }
    requires known { IfSome known (λ cut. IsCutFor J.of cut.plan cut.tree) }
    ensures cut { IfOk result (λ cut. IsCutFor J.of cut.plan cut.tree) }
    ensures cause { IfErr result (IsFailed J.of Src.source of None book.new.faults) }
    ensures still { IsStill book.old book.new }
{
    if let Some(cut) = known {
        return Ok(cut);
    }
    let plan = book.read_file(JobFile::Plan)?;
    read_cut::<J>(alloc, &plan, settings)
}

/// The file of a reduce task: what the split files of all inputs have of a partition.
pub(crate) fn make_part<J: Job, Src: Source, S: Store>(
    alloc: Global,
    book: &mut Book<J, Src, S>,
    cut: &Cut,
    number: u32,
) -> Result<Vec<u8>, Refusal>
    requires asked { IsAsked J.of }
    requires work { IsAtWork J.of book.old (task 4 number) }
    requires cut { IsCutFor J.of cut.now.plan cut.now.tree }
    ensures value { IfOk result (λ file. J.of.premises → IsFileOf (job_of J.of) file.items (Part number)) }
    ensures cause { IfErr result (IsFailed J.of Src.source (task 4 number) None book.new.faults) }
    ensures still { IsStill book.old book.new }
{
    part_of::<J>(cut, Task { kind: 4, number })?;
    let mut rows = Vec::new(alloc);
    let inputs = book.inputs();
    for input in 0..inputs {
        let slice = book.read_slice(JobFile::Split(input), number)?;
        add_slice::<J>(&mut rows, &slice, input, number)?;
    }
    reduce_file::<J>(alloc, rows, number)
}

/// The file of a margin split task: a partition's rows by the partitions whose margins have them.
pub(crate) fn make_margin_split<J: Job, Src: Source, S: Store>(
    alloc: Global,
    book: &mut Book<J, Src, S>,
    cut: &Cut,
    number: u32,
    settings: &Settings,
) -> Result<Vec<u8>, Refusal>
    requires asked { IsAsked J.of }
    requires settings { settings.now ≡ J.of.settings }
    requires work { IsAtWork J.of book.old (task 5 number) }
    requires cut { IsCutFor J.of cut.now.plan cut.now.tree }
    ensures value { IfOk result (λ file. J.of.premises → IsFileOf (job_of J.of) file.items (MarginSplit number)) }
    ensures cause { IfErr result (IsFailed J.of Src.source (task 5 number) None book.new.faults) }
    ensures still { IsStill book.old book.new }
{
    let part = part_of::<J>(cut, Task { kind: 5, number })?;
    let rows = book.read_file(JobFile::Part(number))?;
    margin_split_file::<J>(alloc, &rows, number, part, settings, cut)
}

/// The file of a margin reduce task: what the partitions around a partition have of its margin.
pub(crate) fn make_margin<J: Job, Src: Source, S: Store>(
    alloc: Global,
    book: &mut Book<J, Src, S>,
    cut: &Cut,
    number: u32,
) -> Result<Vec<u8>, Refusal>
    requires asked { IsAsked J.of }
    requires work { IsAtWork J.of book.old (task 6 number) }
    requires cut { IsCutFor J.of cut.now.plan cut.now.tree }
    ensures value { IfOk result (λ file. J.of.premises → IsFileOf (job_of J.of) file.items (Margin number)) }
    ensures cause { IfErr result (IsFailed J.of Src.source (task 6 number) None book.new.faults) }
    ensures still { IsStill book.old book.new }
{
    let part = part_of::<J>(cut, Task { kind: 6, number })?;
    let numbers = numbers_around(alloc, cut, number, part)?;
    let mut rows = Vec::new(alloc);
    for i in 0..numbers.len() {
        let slice = book.read_slice(JobFile::MarginSplit(numbers[i]), number)?;
        add_margin_slice::<J>(&mut rows, &slice, &numbers[..i], numbers[i], number)?;
    }
    margin_file::<J>(alloc, rows, &numbers, number, part, cut)
}

// The file of the margin catalogue's properties, by the records of the margins.
fn make_margin_properties<J: Job, Src: Source, S: Store>(
    alloc: Global,
    book: &Book<J, Src, S>,
    cut: &Cut,
    settings: &Settings,
) -> Result<Vec<u8>, Refusal>
    requires asked { IsAsked J.of }
    requires settings { settings.now ≡ J.of.settings }
    requires work { IsAtWork J.of book.now (task 7 2) }
    requires cut { IsCutFor J.of cut.now.plan cut.now.tree }
    ensures value { IfOk result (λ file. J.of.premises → IsFileOf (job_of J.of) file.items MarginProperties) }
    ensures cause { IfErr result (λ r. r ≡ Memory) }
{
    let margin = rows_of_kind(book.records(), 6);
    let partitions = cut.plan.rows().len() as u32;
    margin_properties_file::<J>(alloc, settings, margin, partitions)
}

/// The file of a task of the kind `lists`: the catalogue's partitions, its margin catalogue's, or the latter's properties.
pub(crate) fn make_list<J: Job, Src: Source, S: Store>(
    alloc: Global,
    book: &Book<J, Src, S>,
    cut: &Cut,
    number: u32,
    settings: &Settings,
) -> Result<Vec<u8>, Refusal>
    requires asked { IsAsked J.of }
    requires settings { settings.now ≡ J.of.settings }
    requires work { IsAtWork J.of book.now (task 7 number) }
    requires cut { IsCutFor J.of cut.now.plan cut.now.tree }
    ensures value { IfOk result (λ file. J.of.premises → IsValue (job_of J.of) (task 7 number) file.items) }
    ensures cause { IfErr result (λ r. r ≡ Memory) }
{
    match number {
        0 => list_file::<J>(alloc, cut),
        1 => list_file::<J>(alloc, cut),
        2 => make_margin_properties(alloc, book, cut, settings),
        _ => Err(Refusal::Memory),
    }
}

/// The file of the catalogue's properties, by the records of the partitions.
pub(crate) fn make_properties<J: Job, Src: Source, S: Store>(
    alloc: Global,
    book: &Book<J, Src, S>,
    settings: &Settings,
) -> Result<Vec<u8>, Refusal>
    requires asked { IsAsked J.of }
    requires settings { settings.now ≡ J.of.settings }
    requires work { IsAtWork J.of book.now (task 8 0) }
    ensures value { IfOk result (λ file. J.of.premises → IsFileOf (job_of J.of) file.items Properties) }
    ensures cause { IfErr result (λ r. r ≡ Memory) }
{
    partitions_of_rows();
    let records = book.records();
    let rows = rows_of_kind(records, 4);
    let partitions = count_of_kind(records, 4);
    properties_file::<J>(alloc, settings, rows, partitions)
}
