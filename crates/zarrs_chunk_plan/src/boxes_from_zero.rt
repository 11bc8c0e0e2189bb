//! The box of all elements of an array, and that of all chunks of a grid.
ghost use Rattle.std.specs.Prelude.{◌≡◌, ℕ, IfOk, List, length, replicate};
ghost use Rattle.zarrs_chunk_base.specs.ArraySubset.{IsBox, IsInside};
ghost use Rattle.zarrs_chunk_parts.specs.Plan.{Meets};
ghost use Rattle.zarrs_chunk_plan.specs.ArrayBoxes.{all_chunks_box, array_box};

use std::alloc::{AllocError, Global};
use zarrs_chunk_base::ArraySubset;
use zarrs_chunk_parts::box_of;
use zarrs_chunks::ChunkGridTraits;

/// The box of all elements of a grid's array.
///
/// # Errors
/// Out of memory.
pub fn whole_array<G: ChunkGridTraits>(alloc: Global, grid: &G) -> Result<ArraySubset, AllocError>
    ensures elements { IfOk result (λ array. array ≡ array_box (G.dimensions grid.now)) }
    ensures is_box { IfOk result (λ _. IsBox (array_box (G.dimensions grid.now))) }
{
    box_from_zero(alloc, grid.array_shape())
}

/// The box of all chunk numbers that a grid counts. Each chunk that holds an element of the array lies in it.
///
/// # Errors
/// Out of memory.
pub fn all_chunks<G: ChunkGridTraits>(alloc: Global, grid: &G) -> Result<ArraySubset, AllocError>
    ensures counted { IfOk result (λ chunks. chunks ≡ all_chunks_box (G.dimensions grid.now)) }
    ensures all { IfOk result (λ chunks. (chunk : List ℕ) → Meets (G.dimensions grid.now)
        (array_box (G.dimensions grid.now)) chunk → IsInside chunks chunk) }
{
    box_from_zero(alloc, grid.grid_shape())
}

/// The box of a shape that begins at 0.
///
/// # Errors
/// Out of memory.
pub(crate) fn box_from_zero(alloc: Global, shape: &[u64]) -> Result<ArraySubset, AllocError>
    ensures value { IfOk result (λ b. b ≡ record {
      start = replicate (length shape.now) 0;
      shape = shape.now;
    }) }
    ensures is_box { IfOk result IsBox }
{
    let start = zeros(alloc, shape.len())?;
    Ok(box_of(start, shape.to_vec(alloc)?))
}

/// So many zeros.
///
/// # Errors
/// Out of memory.
pub(crate) fn zeros(alloc: Global, len: usize) -> Result<Vec<u64>, AllocError>
    ensures { IfOk result (λ v. v.items ≡ replicate len 0) }
{
    let mut numbers = Vec::with_capacity(alloc, len)?;
    numbers.resize(len, 0)?;
    Ok(numbers)
}
