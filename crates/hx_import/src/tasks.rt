//! What each task of an import makes of what it read: the bytes of its file, or why there are none.
//!
//! Under the premises of the job each of the files that were read reads as the value of its own task, and then the bytes
//! that are made read as the value of this one.
ghost use Rattle.std.specs.Prelude.{◌≡◌};
ghost use Rattle.hx_import.specs.Made.{damaged, refusal_of};

use hx_base::{JobFile, MOST_PARTITIONS, Refusal};
use hx_work::WorkRefusal;

mod cutting;
mod gathering;
mod mapping;
mod margins;
mod planning;
mod reducing;
mod splitting;
mod texts;

pub use cutting::{Cut, part_of, read_cut};
pub use gathering::{add_margin_slice, add_slice};
pub use mapping::map_file;
pub use margins::{margin_file, margin_split_file, numbers_around};
pub use planning::{add_counts, counts_in, plan_file};
pub use reducing::reduce_file;
pub use splitting::split_file;
pub use texts::{list_file, margin_properties_file, properties_file};

/// The refusal of a task, by the number of its input.
fn refusal_of(input: u32, refusal: WorkRefusal) -> Refusal
    ensures { result ≡ refusal_of input refusal }
{
    match refusal {
        WorkRefusal::Memory => Refusal::Memory,
        WorkRefusal::Bad { row, why } => Refusal::BadInput { input, row, why },
        WorkRefusal::Changed { pixel, kept, found } => Refusal::InputChanged {
            input,
            pixel,
            kept,
            found,
        },
        WorkRefusal::Overfull { pixel, count } => Refusal::Overfull { pixel, count },
        WorkRefusal::TooMany { found } => Refusal::TooMany {
            what: 3,
            found,
            limit: MOST_PARTITIONS as u64,
        },
    }
}

/// A file of the job is damaged from a place on, in bytes.
fn damaged(file: JobFile, place: u64) -> Refusal
    ensures { result ≡ damaged file place }
{
    Refusal::Damaged {
        side: 1,
        file,
        place,
    }
}
