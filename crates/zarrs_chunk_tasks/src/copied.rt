//! A copy between two arrays, and the groups of chunks that hold some of its elements.
ghost use Rattle.std.specs.Prelude.{◌≡◌, IfNone, IfOk, IfSome, length, map, slice_index_or};
ghost use Rattle.std.specs.Int.NonZero.{non_zero_u64_get};
ghost use Rattle.zarrs_chunk_base.specs.ArraySubset.{Box, IsBox, IsEmptyBox};
ghost use Rattle.zarrs_chunk_base.specs.Dimension.{array_sizes};
ghost use Rattle.zarrs_chunk_plan.specs.Region.{LiesIn};
ghost use Rattle.zarrs_chunk_tasks.specs.seen.Counts.{AreLists, IsGrouped};
ghost use Rattle.zarrs_chunk_tasks.specs.seen.Tasks.{AreGroups};

use crate::buffer::groups_over;
use crate::groups_along::GroupsAlong;
use std::alloc::{AllocError, Global};
use std::num::NonZeroU64;
use zarrs_chunk_base::ArraySubset;
use zarrs_chunk_parts::found_or_out_of_memory;
use zarrs_chunks::ChunkGridTraits;

/// Where elements lie in two arrays.
#[derive(Drop)]
pub(crate) struct Copied<'a, G, H> {
    /// The grid of the array that they come from, and where the first one lies in it.
    pub(crate) source: &'a G,
    pub(crate) first: &'a [u64],
    /// The grid of the array that they go to, and where the first one goes.
    pub(crate) target: &'a H,
    pub(crate) at: &'a [u64],
}

/// The groups of chunks that hold some of the elements.
#[derive(Drop)]
pub(crate) struct Grouped<'a, K> {
    /// The grid whose chunks are grouped, and how many of them a group joins along each dimension.
    pub(crate) grid: &'a K,
    pub(crate) each: &'a [NonZeroU64],
    /// The elements, as a box of this grid's array, the cover of the box, and its last chunk.
    pub(crate) elements: &'a ArraySubset,
    pub(crate) cover: ArraySubset,
    pub(crate) last: Vec<u64>,
    /// The groups, as a box of their numbers.
    pub(crate) groups: ArraySubset,
}

/// Finds the groups of chunks of a grid that hold some of the elements, which are a box of its array. `None` if there are no elements.
///
/// # Errors
/// Out of memory.
pub(crate) fn groups_with<'a, K: ChunkGridTraits>(
    alloc: Global,
    grid: &'a K,
    each: &'a [NonZeroU64],
    elements: &'a ArraySubset,
) -> Result<Option<Grouped<'a, K>>, AllocError>
    requires lies { LiesIn elements.now (array_sizes (K.dimensions grid.now)) }
    requires each { length each.now ≡ length (K.dimensions grid.now) }
    ensures none { IfOk result (λ found. IfNone found (IsEmptyBox elements.now)) }
    ensures some { IfOk result (λ found. IfSome found
        (IsGrouped K.dimensions grid.now each.now elements.now)) }
    ensures named { IfOk result (λ _. (groups : Box) × IsBox groups
        × AreGroups (K.dimensions grid.now) (map non_zero_u64_get each.now) elements.now groups) }
    ensures is_box { IsBox elements.now }
{
    elements.is_a_box();
    let cover = found_or_out_of_memory(grid.chunks_in_array_subset(alloc, elements))?;
    let groups = groups_over(alloc, grid, elements, each, &cover)?;
    let Some(last) = cover.end_inc(alloc)? else {
        return Ok(None);
    };
    Ok(Some(Grouped {
        grid,
        each,
        elements,
        cover,
        last,
        groups,
    }))
}

/// The groups along a dimension.
pub(crate) fn groups_along<'a, K>(grouped: &Grouped<'a, K>, dimension: usize) -> GroupsAlong<'a, K>
    requires lists { AreLists dimension grouped.now }
    ensures grid { result.grid ≡ grouped.now.grid }
    ensures dimension { result.dimension ≡ dimension }
    ensures each { result.each ≡ slice_index_or grouped.now.each.now dimension result.each }
    ensures at { result.at ≡ slice_index_or grouped.now.elements.now.start dimension 0 }
    ensures size { result.size ≡ slice_index_or grouped.now.elements.now.shape dimension 0 }
    ensures first { result.first ≡ slice_index_or grouped.now.cover.start dimension 0 }
    ensures last { result.last ≡ slice_index_or grouped.now.last.items dimension 0 }
    ensures group { result.group ≡ slice_index_or grouped.now.groups.start dimension 0 }
    ensures groups { result.groups ≡ slice_index_or grouped.now.groups.shape dimension 0 }
{
    GroupsAlong {
        grid: grouped.grid,
        dimension,
        each: grouped.each[dimension],
        at: grouped.elements.start()[dimension],
        size: grouped.elements.shape()[dimension],
        first: grouped.cover.start()[dimension],
        last: grouped.last[dimension],
        group: grouped.groups.start()[dimension],
        groups: grouped.groups.shape()[dimension],
    }
}
