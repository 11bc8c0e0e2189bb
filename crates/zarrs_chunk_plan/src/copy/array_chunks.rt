//! The chunks that hold elements of an array.
ghost use Rattle.std.specs.Prelude.{◌≡◌, ◌↔◌, ℕ, IfOk, List, length, replicate};
ghost use Rattle.std.specs.List.{AllZip};
ghost use Rattle.zarrs_chunk_base.specs.ArraySubset.{IsEmptyBox, IsInside, zero_box};
ghost use Rattle.zarrs_chunk_parts.specs.Plan.{Meets};
ghost use Rattle.zarrs_chunk_plan.specs.ArrayBoxes.{array_box};
ghost use Rattle.zarrs_chunk_plan.specs.seen.Used.{UsesFirst};

use std::alloc::{AllocError, Global};
use zarrs_chunk_base::ArraySubset;
use zarrs_chunk_parts::found_or_out_of_memory;
use zarrs_chunks::ChunkGridTraits;

/// The box of the chunks that hold elements of a grid's array.
///
/// # Errors
/// Out of memory.
pub(crate) fn chunks_of_array<G: ChunkGridTraits>(
    alloc: Global,
    grid: &G,
    array: &ArraySubset,
) -> Result<ArraySubset, AllocError>
    requires { array.now ≡ array_box (G.dimensions grid.now) }
    ensures lengths { IfOk result (λ chunks. length chunks.start
        ≡ length (G.dimensions grid.now)) }
    ensures named { IfOk result (λ chunks. (chunk : List ℕ) → IsInside chunks chunk
        ↔ Meets (G.dimensions grid.now) (array_box (G.dimensions grid.now)) chunk) }
    ensures start { IfOk result (λ chunks. chunks.start
        ≡ replicate (length (G.dimensions grid.now)) 0) }
    ensures each { IfOk result (λ chunks. AllZip UsesFirst (G.dimensions grid.now) chunks.shape) }
    ensures empty { IsEmptyBox array.now → IfOk result (λ chunks. chunks
        ≡ zero_box (length (G.dimensions grid.now))) }
    ensures some { (¬ IsEmptyBox array.now) → IfOk result (λ chunks. ¬ IsEmptyBox chunks) }
{
    array.is_a_box();
    let cover = grid.chunks_in_array_subset(alloc, array);
    Ok(found_or_out_of_memory(cover)?)
}
