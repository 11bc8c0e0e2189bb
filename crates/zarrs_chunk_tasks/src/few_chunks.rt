//! Whether a copy has few enough chunks to choose its tasks, and to count them.
ghost use Rattle.std.specs.Prelude.{◌≡◌, IfOk, false};
ghost use Rattle.zarrs_chunk_plan.specs.Region.{moved};
ghost use Rattle.zarrs_chunk_tasks.specs.Few.{HasMany, HaveMany, most_to_choose, most_to_count};

use std::alloc::{AllocError, Global};
use zarrs_chunk_base::{ArraySubset, Refusal};
use zarrs_chunk_parts::found_or_out_of_memory;
use zarrs_chunk_plan::moved_box;
use zarrs_chunks::ChunkGridTraits;

/// Up to how many chunks along a dimension tasks are chosen, if a grid isn't regular along it.
const MOST_TO_CHOOSE: u64 = 1 << 17;

/// Up to how many chunks along a dimension tasks are counted, if a grid isn't regular along it.
const MOST_TO_COUNT: u64 = 1 << 20;

/// Whether few enough chunks of the source hold some of a region, and of the target where it goes, to choose tasks. Along a dimension in which both grids are
/// regular any number will do.
///
/// # Errors
/// Out of memory.
pub fn can_choose<G: ChunkGridTraits, H: ChunkGridTraits>(
    alloc: Global,
    source: &G,
    target: &H,
    region: &ArraySubset,
    moved: &ArraySubset,
) -> Result<bool, AllocError>
    ensures { IfOk result (λ can. can ≡ false → HaveMany most_to_choose (G.dimensions source.now)
        (H.dimensions target.now) region.now moved.now) }
{
    have_few(alloc, source, target, region, moved, MOST_TO_CHOOSE)
}

/// Whether few enough chunks of the source hold some of a region, and of the target where it goes from an index on, to count tasks. Along a dimension in which
/// both grids are regular any number will do. A region that doesn't fit the arrays can be counted: it has no tasks.
///
/// # Errors
/// Out of memory.
pub fn can_count<G: ChunkGridTraits, H: ChunkGridTraits>(
    alloc: Global,
    source: &G,
    target: &H,
    region: &ArraySubset,
    at: &[u64],
) -> Result<bool, AllocError>
    ensures { IfOk result (λ can. can ≡ false → HaveMany most_to_count (G.dimensions source.now)
        (H.dimensions target.now) region.now (moved at.now region.now)) }
{
    match moved_box(alloc, source, target, region, at) {
        Ok(moved) => have_few(alloc, source, target, region, &moved, MOST_TO_COUNT),
        Err(Refusal::Refused(_)) => Ok(true),
        Err(Refusal::Memory(error)) => Err(error),
    }
}

/// Whether few enough chunks of the source hold some of a region, and of the target where it goes: at most `most` along each dimension that isn't regular in both.
///
/// # Errors
/// Out of memory.
fn have_few<G: ChunkGridTraits, H: ChunkGridTraits>(
    alloc: Global,
    source: &G,
    target: &H,
    region: &ArraySubset,
    moved: &ArraySubset,
    most: u64,
) -> Result<bool, AllocError>
    ensures { IfOk result (λ few. few ≡ false → HaveMany most (G.dimensions source.now)
        (H.dimensions target.now) region.now moved.now) }
{
    let few = has_few(alloc, source, target, region, most)?;
    if !few {
        return Ok(false);
    }
    has_few(alloc, target, source, moved, most)
}

/// Whether at most `most` chunks hold some of a box of elements, along each dimension in which a grid or another one isn't regular.
///
/// # Errors
/// Out of memory.
fn has_few<G: ChunkGridTraits, H: ChunkGridTraits>(
    alloc: Global,
    grid: &G,
    other: &H,
    elements: &ArraySubset,
    most: u64,
) -> Result<bool, AllocError>
    ensures { IfOk result (λ few. few ≡ false → HasMany most (G.dimensions grid.now) elements.now) }
{
    elements.is_a_box();
    if elements.is_empty() {
        return Ok(true);
    }
    let cover = found_or_out_of_memory(grid.chunks_in_array_subset(alloc, elements))?;
    let chunks = cover.shape();
    for dimension in 0..chunks.len() {
        if chunks[dimension] > most && !are_regular(grid, other, dimension) {
            return Ok(false);
        }
    }
    Ok(true)
}

/// Whether two grids are regular along a dimension.
fn are_regular<G: ChunkGridTraits, H: ChunkGridTraits>(
    grid: &G,
    other: &H,
    dimension: usize,
) -> bool {
    grid.regular_along(dimension).is_some() && other.regular_along(dimension).is_some()
}
