//! The map task: an input's rows are counted by pixel.
ghost use Rattle.std.specs.Prelude.{◌≡◌, IfErr, IfOk};
ghost use Rattle.hx_base.specs.Limits.{FitsLimits};
ghost use Rattle.hx_base.specs.declared.refusal.JobFile.TheVariants.{Map};
ghost use Rattle.hx_book.specs.Books.{job_of};
ghost use Rattle.hx_book.specs.Tasks.{task};
ghost use Rattle.hx_book.specs.Values.{IsFileOf};
ghost use Rattle.hx_import.specs.Given.{AreOfInput};
ghost use Rattle.hx_import.specs.Made.{IsRefused};

use crate::tasks::refusal_of;
use hx_base::{Refusal, Settings};
use hx_book::Job;
use hx_work::map_task;
use std::alloc::Global;

/// The file of the map task of an input, by the input's name and bytes.
///
/// # Errors
///
/// `BadInput`: the first fault of the input, exactly where its bytes can't be read as rows. `Memory`.
pub fn map_file<J: Job>(
    alloc: Global,
    name: &str,
    bytes: &[u8],
    number: u32,
    settings: &Settings,
) -> Result<Vec<u8>, Refusal>
    requires settings { settings.now ≡ J.of.settings }
    requires fits { FitsLimits settings.now }
    requires input { AreOfInput J.of number name.now bytes.now }
    ensures value { IfOk result (λ file. J.of.premises → IsFileOf (job_of J.of) file.items (Map number)) }
    ensures cause { IfErr result (IsRefused J.of (task 1 number)) }
{
    match map_task(alloc, name, bytes, settings.highest) {
        Ok(file) => Ok(file),
        Err(refusal) => Err(refusal_of(number, refusal)),
    }
}
