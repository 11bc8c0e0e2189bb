//! What a group of chunks holds of a box of elements.
ghost use Rattle.std.specs.Prelude.{◌≡◌, ◌≢◌, IfOk, length, map};
ghost use Rattle.std.specs.Int.NonZero.{non_zero_u64_get};
ghost use Rattle.zarrs_chunk_base.specs.ArraySubset.{IsBox, IsEmptyBox};
ghost use Rattle.zarrs_chunks.specs.Subsets.{IsCover};
ghost use Rattle.zarrs_chunk_plan.specs.Region.{shifted};
ghost use Rattle.zarrs_chunk_tasks.specs.Groups.{HoldsSomeOf, IsBuffer};
ghost use Rattle.zarrs_chunk_tasks.specs.seen.Tasks.{AreGroups};

use crate::group_numbers::{counts_to, groups_of};
use crate::groups_along::{GroupsAlong, range_of};
use std::alloc::{AllocError, Global};
use std::num::NonZeroU64;
use zarrs_chunk_base::ArraySubset;
use zarrs_chunk_parts::made_box;
use zarrs_chunks::ChunkGridTraits;

/// The groups that hold some of a box of elements, as a box of their numbers. `cover` is the cover of the box.
///
/// # Errors
/// Out of memory.
pub(crate) fn groups_over<G: ChunkGridTraits>(
    alloc: Global,
    grid: &G,
    elements: &ArraySubset,
    each: &[NonZeroU64],
    cover: &ArraySubset,
) -> Result<ArraySubset, AllocError>
    requires empty { IsEmptyBox elements.now → IsEmptyBox cover.now }
    requires cover { (¬ IsEmptyBox elements.now)
        → IsCover (G.dimensions grid.now) elements.now cover.now }
    requires lengths { length each.now ≡ length (G.dimensions grid.now) }
    ensures is_box { IfOk result IsBox }
    ensures groups { IfOk result (AreGroups (G.dimensions grid.now)
        (map non_zero_u64_get each.now) elements.now) }
{
    elements.is_a_box();
    let Some(last) = cover.end_inc(alloc)? else {
        return Ok(cover.clone()?);
    };
    let first = groups_of(alloc, each, cover.start())?;
    let last = groups_of(alloc, each, &last)?;
    let counts = counts_to(alloc, &first, &last)?;
    Ok(made_box(first, counts)?)
}

/// What a group holds of a box of elements, counted from the box's first element. `cover` is the cover of the box.
///
/// # Errors
/// Out of memory.
pub(crate) fn buffer_of<G: ChunkGridTraits>(
    alloc: Global,
    grid: &G,
    elements: &ArraySubset,
    each: &[NonZeroU64],
    cover: &ArraySubset,
    group: &[u64],
) -> Result<ArraySubset, AllocError>
    ensures is_box { IfOk result IsBox }
    ensures buffer { IsCover (G.dimensions grid.now) elements.now cover.now
        → HoldsSomeOf (G.dimensions grid.now) (map non_zero_u64_get each.now) elements.now group.now
        → IfOk result (λ behind. IsBuffer (G.dimensions grid.now) (map non_zero_u64_get each.now)
        elements.now group.now (shifted elements.now.start behind)) }
{
    elements.is_a_box();
    cover.is_a_box();
    let dimensions = group.len();
    if each.len() != dimensions
        || elements.dimensionality() != dimensions
        || cover.dimensionality() != dimensions
    {
        // Never: a group that holds an element has a number for each of its dimensions.
        return Err(AllocError);
    }
    let mut start = Vec::with_capacity(alloc, dimensions)?;
    let mut shape = Vec::with_capacity(alloc, dimensions)?;
    for dimension in 0..dimensions {
        let first = cover.start()[dimension];
        let along = GroupsAlong {
            grid,
            dimension,
            each: each[dimension],
            at: elements.start()[dimension],
            size: elements.shape()[dimension],
            first,
            last: first.saturating_add(cover.shape()[dimension].saturating_sub(1)),
            group: group[dimension],
            groups: 1,
        };
        let (before, size) = range_of(alloc, &along, group[dimension])?;
        start.push(before)?;
        shape.push(size)?;
    }
    Ok(made_box(start, shape)?)
}
