//! A box of elements without those that the array doesn't have.
ghost use Rattle.std.specs.Prelude.{◌≡◌, ◌≢◌, IfErr, IfOk, length};
ghost use Rattle.zarrs_chunk_base.specs.ArraySubset.{Box, IsEmptyBox};
ghost use Rattle.zarrs_chunk_base.specs.Refusal.{HasMemory, OrMemory, TellsLengths};
ghost use Rattle.zarrs_chunks.specs.Subsets.{IsCover};
ghost use Rattle.zarrs_chunk_plan.specs.Clip.{IsClipped};

use crate::boxes_from_zero::whole_array;
use std::alloc::Global;
use zarrs_chunk_base::{ArraySubset, IncompatibleDimensionalityError, Refusal};
use zarrs_chunk_parts::overlap;
use zarrs_chunks::ChunkGridTraits;

/// Clips a box of elements to a grid's array: the result begins where the box does, and has those of its elements whose indices are below the array
/// shape. Along each dimension it has as many indices as are below the array size, so it is empty if no element is. What is counted from the start of
/// the box stays the same. If the result isn't empty, it has a cover, so [`parts`](crate::parts) returns its parts and never `None`.
///
/// # Errors
/// The box has another number of dimensions than the grid; or out of memory.
pub fn clip<G: ChunkGridTraits>(
    alloc: Global,
    grid: &G,
    array_subset: &ArraySubset,
) -> Result<ArraySubset, Refusal<IncompatibleDimensionalityError>>
    ensures clipped { IfOk result (IsClipped (G.dimensions grid.now) array_subset.now) }
    ensures lengths { IfOk result (λ _. length array_subset.now.start
        ≡ length (G.dimensions grid.now)) }
    ensures covered { IfOk result (λ clipped. (¬ IsEmptyBox clipped)
        → (cover : Box) × IsCover (G.dimensions grid.now) clipped cover) }
    ensures refused { IfErr result (OrMemory (λ e.
        (length array_subset.now.start ≢ length (G.dimensions grid.now))
        × TellsLengths (length array_subset.now.start) (length (G.dimensions grid.now)) e)) }
    ensures lengths_first { length array_subset.now.start ≢ length (G.dimensions grid.now)
        → HasMemory result }
{
    array_subset.is_a_box();
    let dimensionality = array_subset.dimensionality();
    let expected = grid.dimensionality();
    if dimensionality != expected {
        let error = IncompatibleDimensionalityError::new(dimensionality, expected);
        return Err(Refusal::Refused(error));
    }
    let array = whole_array(alloc, grid)?;
    Ok(overlap(alloc, &array, array_subset)?)
}
