//! The list of partitions that is searched.
ghost use Rattle.std.specs.Prelude.{◌≡◌, ◌*◌, ◌^◌, ◌<◌, ◌≤◌, IfOk, length};
ghost use Rattle.hx_base.specs.Limits.{most_partitions};
ghost use Rattle.hx_base.specs.Pixels.{AreDisjointInOrder, IsPixel};
ghost use Rattle.hx_ptree.specs.Searches.{IsHolder, IsHolding, IsPartitionList, IsSpan};

use crate::search::{count_before, count_begun};
use hx_base::Pixel;
use std::alloc::{AllocError, Global};
use std::marker::Model;

/// A run of consecutive partitions: the index of the first, and how many they are.
#[derive(Clone, Copy, Debug, PartialEq, Eq)]
pub struct Span {
    pub first: u32,
    pub count: u32,
}

/// The partitions of a catalogue, to be searched: at most 100000, of which no two share a position, by their first
/// positions. It is seen as the list of its pixels.
///
/// A search looks at a number of partitions that grows with the logarithm of all, and takes no memory.
#[derive(Drop)]
pub struct PixelTree {
    parts: Vec<Pixel>,
}

impl Model for PixelTree {
    ghost use Rattle.std.specs.Prelude.{List};
    ghost use Rattle.hx_base.specs.declared.pixel.Pixel as pixel;
    ghost use Rattle.hx_ptree.specs.Searches as Searches;

    ghost Value = { List pixel.Pixel };

    ghost view = { λ tree. tree.parts.items };

    ghost invariant = { λ tree. Searches.IsPartitionList tree.parts.items };
}

impl PixelTree {
    /// The partitions of a list.
    pub fn build(alloc: Global, parts: &[Pixel]) -> Result<PixelTree, AllocError>
        requires most { length parts.now ≤ most_partitions }
        requires disjoint { AreDisjointInOrder parts.now }
        ensures { IfOk result (λ tree. tree ≡ parts.now) }
    {
        let parts = parts.to_vec(alloc)?;
        Ok(PixelTree { parts })
    }

    /// The pixels of the partitions, by their first positions.
    pub fn parts(&self) -> &[Pixel]
        ensures parts { result.now ≡ self.now }
        ensures list { IsPartitionList self.now }
    {
        &self.parts
    }

    /// The index of the partition that holds a position, or none where none holds it.
    pub fn holder(&self, hp: u64) -> Option<u32>
        requires { hp < 12 * 4 ^ 29 }
        ensures holder { IsHolder self.now hp result }
        ensures list { IsPartitionList self.now }
    {
        let parts = self.parts.as_slice();
        let index = count_before(parts, hp);
        let part = parts.get(index)?;
        part.holds(hp).then_some(index as u32)
    }

    /// The partition that holds a position, or none where none holds it.
    pub fn part(&self, hp: u64) -> Option<Pixel>
        requires { hp < 12 * 4 ^ 29 }
        ensures part { IsHolding self.now hp result }
        ensures list { IsPartitionList self.now }
    {
        let parts = self.parts.as_slice();
        let part = parts.get(count_before(parts, hp))?;
        part.holds(hp).then_some(*part)
    }

    /// The partitions that lie in a pixel or in which it lies. Where there are none, `first` is the number of the
    /// partitions before the pixel.
    pub fn overlapping(&self, pixel: Pixel) -> Span
        requires { IsPixel pixel }
        ensures span { IsSpan self.now pixel result.first result.count }
        ensures list { IsPartitionList self.now }
    {
        let parts = self.parts.as_slice();
        let first = count_before(parts, pixel.first_position());
        let end = count_begun(parts, pixel.end_position() - 1);
        Span {
            first: first as u32,
            count: (end - first) as u32,
        }
    }
}
