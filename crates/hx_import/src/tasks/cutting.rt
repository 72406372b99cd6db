//! The job's partitions, as later tasks search them.
ghost use Rattle.std.specs.Prelude.{◌≡◌, ◌↔◌, ◌<◌, Some, All, IfErr, IfOk, IsTrue, slice_get};
ghost use Rattle.hx_base.specs.Limits.{FitsLimits};
ghost use Rattle.hx_base.specs.declared.refusal.JobFile.TheVariants.{Plan as PlanFile};
ghost use Rattle.hx_book.specs.Books.{job_of};
ghost use Rattle.hx_book.specs.Tasks.{GoesByParts, IsTask};
ghost use Rattle.hx_book.specs.Values.{IsFileOf};
ghost use Rattle.hx_import.specs.Given.{HasAskedOrder, IsCutFor};
ghost use Rattle.hx_import.specs.Made.{IsUnread};

use crate::tasks::damaged;
use hx_align::Plan;
use hx_base::{JobFile, Pixel, Refusal, Settings, SpillRefusal, Task};
use hx_book::Job;
use hx_ptree::PixelTree;
use hx_spill::read_plan;
use std::alloc::Global;

/// The job's partitions with their counts, and as they are searched.
#[derive(Drop)]
pub struct Cut {
    pub plan: Plan,
    pub tree: PixelTree,
}

// Whether the order of a partition lies within the asked ones, and below the margin order.
fn is_asked(part: Pixel, settings: &Settings) -> bool
    ensures { IsTrue result ↔ HasAskedOrder settings.now part }
{
    settings.lowest <= part.order
        && part.order <= settings.highest
        && part.order < settings.margin_order
}

// Whether those of all partitions do.
fn are_asked(parts: &[Pixel], settings: &Settings) -> bool
    ensures { IsTrue result ↔ All (HasAskedOrder settings.now) parts.now }
{
    parts.iter().all(|part| is_asked(*part, settings))
}

/// The job's partitions, by the plan's file.
///
/// # Errors
///
/// `Damaged`, where the file isn't a plan, or where an order isn't within the asked ones; under the premises it never
/// comes. `Memory`.
pub fn read_cut<J: Job>(alloc: Global, bytes: &[u8], settings: &Settings) -> Result<Cut, Refusal>
    requires settings { settings.now ≡ J.of.settings }
    requires fits { FitsLimits settings.now }
    requires file { J.of.premises → IsFileOf (job_of J.of) bytes.now PlanFile }
    ensures cut { IfOk result (λ cut. IsCutFor J.of cut.plan cut.tree) }
    ensures cause { IfErr result (IsUnread J.of) }
{
    let plan = match read_plan(alloc, bytes) {
        Ok(plan) => plan,
        Err(SpillRefusal::Damaged { place }) => return Err(damaged(JobFile::Plan, place)),
        Err(SpillRefusal::Memory) => return Err(Refusal::Memory),
    };
    let _rows = plan.rows();
    if !are_asked(plan.pixels(), settings) {
        return Err(damaged(JobFile::Plan, 0));
    }
    let tree = PixelTree::build(alloc, plan.pixels())?;
    Ok(Cut { plan, tree })
}

// The pixel of a partition, if there is one.
fn pixel_at(parts: &[Pixel], number: u32) -> Option<Pixel>
    ensures { result ≡ slice_get parts.now number }
{
    match parts.get(number as usize) {
        Some(part) => Some(*part),
        None => None,
    }
}

/// The partition of a task of the kinds that go by partitions.
///
/// # Errors
///
/// `Damaged` where the plan has no such partition, which under the premises never comes.
pub fn part_of<J: Job>(cut: &Cut, task: Task) -> Result<Pixel, Refusal>
    requires cut { IsCutFor J.of cut.now.plan cut.now.tree }
    requires kind { GoesByParts task.kind }
    requires is { J.of.premises → IsTask (job_of J.of) task }
    ensures part { IfOk result (λ part. slice_get cut.now.tree task.number ≡ Some part) }
    ensures cause { IfErr result (IsUnread J.of) }
{
    match pixel_at(cut.tree.parts(), task.number) {
        Some(part) => Ok(part),
        None => Err(damaged(JobFile::Plan, 0)),
    }
}
