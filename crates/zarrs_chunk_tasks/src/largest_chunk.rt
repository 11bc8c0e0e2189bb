//! The largest chunk of those that hold some of a box of elements.
ghost use Rattle.std.specs.Prelude.{◌≡◌, ◌+◌, ◌-◌, ◌≤◌, ℕ, IfOk, min};
ghost use Rattle.zarrs_chunk_axes.specs.Along.{Along};
ghost use Rattle.zarrs_chunk_base.specs.ArraySubset.{IsEmptyBox};
ghost use Rattle.zarrs_chunk_base.specs.Dimension.{HasEdge, array_sizes};
ghost use Rattle.zarrs_chunk_base.specs.Greatest.{greatest};
ghost use Rattle.zarrs_chunk_plan.specs.Region.{LiesIn};
ghost use Rattle.zarrs_chunk_plan.specs.seen.Used.{HoldsSome};
ghost use Rattle.zarrs_chunk_tasks.specs.Cheapest.{IsLargestChunk};
ghost use Rattle.zarrs_chunk_tasks.specs.seen.LargestChunk.{IsLongestOf};

use crate::groups_along::found;
use std::alloc::{AllocError, Global};
use zarrs_chunk_base::ArraySubset;
use zarrs_chunk_parts::found_or_out_of_memory;
use zarrs_chunks::ChunkGridTraits;

/// How many elements the largest chunk has, whole, of those that hold some of a box of elements, up to the greatest number. The box isn't empty and lies in
/// the array. A chunk counts with the shape that the grid gives it, also where it reaches over the box or the array.
///
/// It takes the time of a look-up for each such chunk along each dimension by itself that isn't regular.
///
/// # Errors
/// Out of memory.
pub(crate) fn largest_chunk<G: ChunkGridTraits>(
    alloc: Global,
    grid: &G,
    elements: &ArraySubset,
) -> Result<u64, AllocError>
    requires lies { LiesIn elements.now (array_sizes (G.dimensions grid.now)) }
    requires some { ¬ IsEmptyBox elements.now }
    ensures { IfOk result (λ largest. (exact : ℕ)
        × IsLargestChunk (G.dimensions grid.now) elements.now exact
        × (largest ≡ min greatest exact)) }
{
    elements.is_a_box();
    let cover = found_or_out_of_memory(grid.chunks_in_array_subset(alloc, elements))?;
    let first = cover.start();
    let many = cover.shape();
    let mut largest = 1u64;
    for dimension in 0..first.len() {
        let edge = longest_along(alloc, grid, dimension, first[dimension], many[dimension])?;
        largest = largest.saturating_mul(edge);
    }
    Ok(largest)
}

/// How long the longest of `many` chunks of a dimension is, from `first` on, in elements. The last one holds an element of the array.
///
/// # Errors
/// Out of memory.
pub(crate) fn longest_along<G: ChunkGridTraits>(
    alloc: Global,
    grid: &G,
    dimension: usize,
    first: u64,
    many: u64,
) -> Result<u64, AllocError>
    requires fits { first + many ≤ greatest }
    requires last { Along (λ d. HoldsSome d (first + (many - 1))) (G.dimensions grid.now)
        dimension }
    ensures { IfOk result (λ edge. Along (IsLongestOf first many edge) (G.dimensions grid.now)
        dimension) }
{
    if many > 1 {
        if let Some(edge) = grid.regular_along(dimension) {
            // All but the last one have this edge.
            let last = edge_along(alloc, grid, dimension, first + (many - 1))?;
            return Ok(last.max(edge.get()));
        }
    }
    let mut longest = 0u64;
    for steps in 0..many {
        longest = longest.max(edge_along(alloc, grid, dimension, first + steps)?);
    }
    Ok(longest)
}

/// How long a chunk of a dimension is, in elements.
///
/// # Errors
/// Out of memory.
pub(crate) fn edge_along<G: ChunkGridTraits>(
    alloc: Global,
    grid: &G,
    dimension: usize,
    chunk: u64,
) -> Result<u64, AllocError>
    ensures { IfOk result (λ edge. Along (λ d. HasEdge d chunk edge) (G.dimensions grid.now)
        dimension) }
{
    let (_, edge) = found(grid.range_along(alloc, dimension, chunk)?)?;
    Ok(edge)
}
