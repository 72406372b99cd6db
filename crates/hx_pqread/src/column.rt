ghost use Rattle.std.specs.Prelude.{◌<◌, ◌≤◌, ◌^◌, length};
ghost use Rattle.hx_pqmeta.specs.Footers.{rows_of};
ghost use Rattle.hx_pqread.specs.Columns.{spans_at, column_at, values_of};
ghost use Rattle.hx_pqread.specs.Keeping.{KeepsColumn};

use crate::chunk::{Span, spans_of};
use crate::kept::Kept;
use crate::layout::Asked;
use crate::leaf::{layout_of, place_of};
use crate::page::read_pages;
use hx_pqmeta::{Footer, PqRefusal};
use std::alloc::Global;

// What is kept of the values of spans, one after another.
fn read_spans(alloc: Global, asked: Asked, spans: &[Span], file: &[u8]) -> Result<Kept, PqRefusal>
    requires inside { asked.end ≤ length file.now }
    requires few { values_of spans.now < 2 ^ 64 }
    ensures { KeepsColumn result (spans_at asked spans.now file.now) }
{
    let mut kept = Kept::new(alloc);
    for span in spans {
        read_pages(&mut kept, asked, span.count, span.place, file)?;
    }
    Ok(kept)
}

/// What is kept of the values of the column of a name, which has the place `column` in the list of the names that were
/// asked for.
#[tactic(auto, unfolding(crate::specs::Columns::column_at))]
pub fn read_column(
    alloc: Global,
    footer: &Footer,
    file: &[u8],
    column: u32,
    name: &[u8],
) -> Result<Kept, PqRefusal>
    requires inside { footer.now.start ≤ length file.now }
    requires few { rows_of footer.now.groups < 2 ^ 63 }
    ensures { KeepsColumn result (column_at footer.now file.now column name.now) }
{
    let place = place_of(column, name, footer.leaves())?;
    let layout = layout_of(column, footer.leaves(), place)?;
    let spans = spans_of(alloc, column, place, footer.groups())?;
    let asked = Asked {
        column,
        layout,
        end: footer.start(),
    };
    read_spans(alloc, asked, &spans, file)
}
