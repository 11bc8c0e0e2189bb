//! The plan of reading a box of elements.
ghost use Rattle.std.specs.Prelude.{◌≡◌, ◌≢◌, ◌⊎◌, IfOk, IfSome, length};
ghost use Rattle.zarrs_chunk_base.specs.ArraySubset.{IsEmptyBox};
ghost use Rattle.zarrs_chunk_plan.specs.seen.Parts.{FindsCovered, FindsSome, IsPlanned};

use crate::read::walk::Parts;
use std::alloc::Global;
use zarrs_chunk_base::{ArraySubset, IncompatibleDimensionalityError, Refusal};
use zarrs_chunk_keys::ChunkKeyEncodingTraits;
use zarrs_chunks::ChunkGridTraits;

/// What to read for a box of elements: which part of which chunk, under which key, and where in the answer it goes. `None` where the box has no
/// cover, since its first or its last element lies in no chunk. An empty box has no parts, whatever its number of dimensions, except
/// in a grid without dimensions.
///
/// It takes the time and the memory of the cover, however many parts there are.
///
/// # Errors
/// The box isn't empty, or the grid has no dimensions, and the two have different numbers of dimensions; or out of memory.
pub fn parts<'a, G: ChunkGridTraits, E: ChunkKeyEncodingTraits>(
    alloc: Global,
    grid: &'a G,
    encoding: &'a E,
    array_subset: &ArraySubset,
) -> Result<Option<Parts<'a, G, E>>, Refusal<IncompatibleDimensionalityError>>
    ensures planned { IfOk result (λ found. IfSome found
        (IsPlanned G.dimensions grid.now encoding.now array_subset.now)) }
    ensures empty { IsEmptyBox array_subset.now → length (G.dimensions grid.now) ≢ 0
        → FindsSome result }
    ensures answers { (¬ IsEmptyBox array_subset.now) ⊎ (length (G.dimensions grid.now) ≡ 0)
        → FindsCovered (G.dimensions grid.now) array_subset.now result }
{
    array_subset.is_a_box();
    let cover = grid.chunks_in_array_subset(alloc, array_subset)?;
    let Some(cover) = cover else {
        return Ok(None);
    };
    Ok(Some(Parts::new(alloc, grid, encoding, array_subset.clone()?, cover)?))
}
