//! How many chunks of a grid hold elements of its array along each dimension, and how many of them a resize keeps.
ghost use Rattle.std.specs.Prelude.{◌≡◌, ◌↔◌, ◌<◌, ◌≤◌, ℕ, IfOk, List, length, replicate};
ghost use Rattle.std.specs.List.{Contains};
ghost use Rattle.zarrs_chunk_axes.specs.InBounds.{AreBelow};
ghost use Rattle.zarrs_chunk_plan.specs.ArrayBoxes.{array_box};
ghost use Rattle.zarrs_chunk_plan.specs.Resize.{AreBelowCounts, AreResized, IsHeld, IsKept, IsUsed};
ghost use Rattle.zarrs_chunk_plan.specs.seen.Used.{HasExtentAlong, KeepsAlong};

use crate::boxes_from_zero::whole_array;
use crate::copy::array_chunks::chunks_of_array;
use crate::copy::chunk_elements::expect_found;
use crate::resize::plan::ChunkContents;
use std::alloc::{AllocError, Global};
use zarrs_chunk_base::{ArrayShape, ArraySubset};
use zarrs_chunk_parts::shared_elements;
use zarrs_chunks::ChunkGridTraits;

/// For each dimension how many chunks hold elements of the grid's array.
///
/// # Errors
/// Out of memory.
pub(crate) fn chunks_along<G: ChunkGridTraits>(
    alloc: Global,
    grid: &G,
) -> Result<ArrayShape, AllocError>
    ensures { IfOk result (λ used. AreBelowCounts (length (G.dimensions grid.now))
        (IsUsed (G.dimensions grid.now)) used.items) }
{
    let array = whole_array(alloc, grid)?;
    let chunks = chunks_of_array(alloc, grid, &array)?;
    let sizes = Vec::from_slice(alloc, chunks.shape())?;
    Ok(sizes)
}

/// What a chunk holds of a grid's array, of which this is the box of all elements.
///
/// # Errors
/// Out of memory.
pub(crate) fn held_by<G: ChunkGridTraits>(
    alloc: Global,
    grid: &G,
    array: &ArraySubset,
    chunk: &[u64],
) -> Result<ChunkContents, AllocError>
    ensures { array.now ≡ array_box (G.dimensions grid.now)
        → IsUsed (G.dimensions grid.now) chunk.now
        → IfOk result (IsHeld (G.dimensions grid.now) chunk.now) }
{
    let shared = shared_elements(alloc, grid, array, chunk)?;
    Ok(ChunkContents {
        elements: shared.in_selection,
        shape: shared.shape,
    })
}

/// Returns how many chunks a resize keeps along each dimension. Two lists say how many hold elements of the array before it, and after it.
///
/// # Errors
/// Out of memory.
pub(crate) fn kept_along<G: ChunkGridTraits, H: ChunkGridTraits>(
    alloc: Global,
    before: &G,
    after: &H,
    used_before: &[u64],
    used_after: &[u64],
) -> Result<ArrayShape, AllocError>
    requires before { length used_before.now ≡ length (G.dimensions before.now) }
    requires after { length used_after.now ≡ length (H.dimensions after.now) }
    requires lengths { length used_before.now ≡ length used_after.now }
    ensures kept { AreResized (G.dimensions before.now) (H.dimensions after.now)
        → ((chunk : List ℕ) → AreBelow used_before.now chunk
        ↔ IsUsed (G.dimensions before.now) chunk)
        → ((chunk : List ℕ) → AreBelow used_after.now chunk
        ↔ IsUsed (H.dimensions after.now) chunk)
        → IfOk result (λ kept. (chunk : List ℕ) → AreBelow kept.items chunk
        ↔ IsKept (G.dimensions before.now) (H.dimensions after.now) chunk) }
    ensures lengths { IfOk result (λ kept. length kept.items ≡ length used_before.now) }
{
    let mut kept = Vec::with_capacity(alloc, used_before.len())?;
    for dimension in 0..used_before.len() {
        let both = used_before[dimension].min(used_after[dimension]);
        kept.push(kept_in(alloc, before, after, dimension, both)?)?;
    }
    Ok(kept)
}

/// The numbers, or zeros if one of them is 0: no list is below either then.
pub(crate) fn unwrap_or_zeros(mut numbers: ArrayShape) -> ArrayShape
    ensures long { length result.items ≡ length numbers.items }
    ensures those { (list : List ℕ) → AreBelow result.items list ↔ AreBelow numbers.items list }
    ensures none { Contains result.items 0 → result.items ≡ replicate (length numbers.items) 0 }
{
    if numbers.contains(&0) {
        numbers.fill(0);
    }
    numbers
}

/// Returns how many of the first `both` chunks along a dimension, which hold elements of both arrays, a resize keeps. Only the last of them may differ.
///
/// # Errors
/// Out of memory.
fn kept_in<G: ChunkGridTraits, H: ChunkGridTraits>(
    alloc: Global,
    before: &G,
    after: &H,
    dimension: usize,
    both: u64,
) -> Result<u64, AllocError>
    requires before { dimension < length (G.dimensions before.now) }
    requires after { dimension < length (H.dimensions after.now) }
    ensures at_most { IfOk result (λ kept. kept ≤ both) }
    ensures kept { 0 < both → IfOk result (KeepsAlong (G.dimensions before.now)
        (H.dimensions after.now) dimension both) }
{
    if both == 0 {
        return Ok(0);
    }
    let last = both - 1;
    let one = extent_along(alloc, before, dimension, last)?;
    let other = extent_along(alloc, after, dimension, last)?;
    Ok(if one == other { both } else { last })
}

/// Returns how long a chunk is along a dimension, and how many elements of the array it holds there.
///
/// # Errors
/// Out of memory.
fn extent_along<G: ChunkGridTraits>(
    alloc: Global,
    grid: &G,
    dimension: usize,
    chunk: u64,
) -> Result<(u64, u64), AllocError>
    requires { dimension < length (G.dimensions grid.now) }
    ensures { IfOk result (HasExtentAlong (G.dimensions grid.now) dimension chunk) }
{
    let range = grid.range_along(alloc, dimension, chunk)?;
    let (start, edge) = expect_found(range)?;
    let size = grid.array_shape()[dimension];
    let held = edge.min(size.saturating_sub(start));
    Ok((edge, held))
}
