//! The text of the partitions of counted rows.
ghost use Rattle.std.specs.Prelude.{◌≡◌, ◌++◌, ◌∷◌, [], IfOk, OnOk};
ghost use Rattle.std.specs.Fmt.{decimal};
ghost use Rattle.std.specs.List.{flat_map};
ghost use Rattle.hx_cli.specs.Plans.{partition_line};

use hx_align::{Plan, PlanRow};
use itoa::Buffer;
use std::alloc::{AllocError, Global};

// The bytes of a line whose numbers have a usual length.
const USUAL_LINE: usize = 16;

// A number and the byte behind it.
fn push_number(text: &mut Vec<u8>, number: u64, end: u8) -> Result<(), AllocError>
    ensures { OnOk result (text.new.items ≡ text.old.items ++ decimal number ++ end ∷ []) }
{
    let mut buffer = Buffer::new();
    text.extend_from_slice(buffer.format(number).as_bytes())?;
    text.push(end)?;
    Ok(())
}

fn push_line(text: &mut Vec<u8>, row: &PlanRow) -> Result<(), AllocError>
    ensures { OnOk result (text.new.items ≡ text.old.items ++ partition_line row.now.pixel row.now.count) }
{
    push_number(text, u64::from(row.pixel.order), b',')?;
    push_number(text, row.pixel.number, b',')?;
    push_number(text, row.count, b'\n')
}

/// A line `Norder,Npix,rows` for each partition.
pub fn lines_of_plan(alloc: Global, plan: &Plan) -> Result<Vec<u8>, AllocError>
    ensures { IfOk result (λ text. text.items ≡ flat_map (λ row. partition_line row.pixel row.count) plan.now) }
{
    let rows = plan.rows();
    let mut text = Vec::with_capacity(alloc, rows.len().saturating_mul(USUAL_LINE))?;
    for row in rows {
        push_line(&mut text, row)?;
    }
    Ok(text)
}
