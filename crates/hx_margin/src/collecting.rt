//! The partitions around a partition.
ghost use Rattle.std.specs.Prelude.{IfOk, OnOk};
ghost use Rattle.hx_base.specs.Pixels.{IsPixel};
ghost use Rattle.hx_margin.specs.Around.{AreAround};
ghost use Rattle.hx_margin.specs.Steps.{AddsRange};

use hx_base::Pixel;
use hx_nest::neighbours;
use hx_ptree::PixelTree;
use std::alloc::{AllocError, Global};

// Adds the numbers from one to before another.
fn add_range(numbers: &mut Vec<u32>, from: u32, end: u32) -> Result<(), AllocError>
    ensures { OnOk result (AddsRange from end numbers.old.items numbers.new.items) }
{
    for number in from..end {
        numbers.push(number)?;
    }
    Ok(())
}

/// The numbers of the partitions around a partition, ascending: those that overlap a neighbour of it, at its own order. A
/// margin has rows of no other partitions. One that overlaps several neighbours is there once.
///
/// # Errors
///
/// Want of memory.
pub fn parts_around(alloc: Global, tree: &PixelTree, part: Pixel) -> Result<Vec<u32>, AllocError>
    requires { IsPixel part }
    ensures { IfOk result (λ numbers. AreAround tree.now part numbers.items) }
{
    let mut numbers = Vec::new(alloc);
    let around = neighbours(part.order, part.number);
    let mut next = 0_u32;
    for i in 0..around.count() {
        let neighbour = Pixel {
            order: part.order,
            number: around.get(i),
        };
        let span = tree.overlapping(neighbour);
        let end = span.first + span.count;
        add_range(&mut numbers, next.max(span.first), end)?;
        next = next.max(end);
    }
    Ok(numbers)
}
