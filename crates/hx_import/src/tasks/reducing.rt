//! The reduce task: a partition's rows are gathered from all inputs.
ghost use Rattle.std.specs.Prelude.{◌≡◌, All, IfErr, IfOk, length};
ghost use Rattle.hx_base.specs.Limits.{FitsLimits};
ghost use Rattle.hx_base.specs.Rows.{IsGood};
ghost use Rattle.hx_base.specs.declared.refusal.JobFile.TheVariants.{Part};
ghost use Rattle.hx_book.specs.Books.{job_of};
ghost use Rattle.hx_book.specs.Tasks.{task};
ghost use Rattle.hx_book.specs.Values.{IsFileOf};
ghost use Rattle.hx_import.specs.Given.{GathersFirst};
ghost use Rattle.hx_import.specs.Made.{IsRefused};

use crate::tasks::refusal_of;
use hx_base::{Refusal, Row};
use hx_book::Job;
use hx_work::reduce_task;
use std::alloc::Global;

/// The file of the reduce task of a partition, by the slices that all inputs have of it, one after another.
///
/// # Errors
///
/// `Memory`.
pub fn reduce_file<J: Job>(alloc: Global, rows: Vec<Row>, number: u32) -> Result<Vec<u8>, Refusal>
    requires fits { FitsLimits J.of.settings }
    requires good { All IsGood rows.items }
    requires gathered { J.of.premises → GathersFirst (job_of J.of) number (length J.of.origins) rows.items }
    ensures value { IfOk result (λ file. J.of.premises → IsFileOf (job_of J.of) file.items (Part number)) }
    ensures cause { IfErr result (IsRefused J.of (task 4 number)) }
{
    match reduce_task(alloc, rows) {
        Ok(file) => Ok(file),
        Err(refusal) => Err(refusal_of(0, refusal)),
    }
}
