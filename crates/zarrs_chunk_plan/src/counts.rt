//! How much a read takes, without a walk over its plan.
ghost use Rattle.std.specs.Prelude.{◌≡◌, ◌≢◌, ◌⊎◌, IfOk, IfSome, length};
ghost use Rattle.zarrs_chunk_base.specs.ArraySubset.{IsEmptyBox};
ghost use Rattle.zarrs_chunk_plan.specs.seen.Parts.{FindsCovered, FindsSome};
ghost use Rattle.zarrs_chunk_plan.specs.seen.ReadCounts.{AreCountsOf};

use crate::stored_array::StoredArray;
use std::alloc::{AllocError, Global};
use zarrs_chunk_base::{ArrayShape, ArraySubset, IncompatibleDimensionalityError, Refusal};
use zarrs_chunk_keys::ChunkKeyEncodingTraits;
use zarrs_chunks::ChunkGridTraits;

/// How much a read takes. Each count is the product of the numbers in its list, one for each dimension. It may be larger than any integer type holds.
#[derive(Debug, Drop)]
pub struct ReadCounts {
    /// How many chunks are read: the parts of the plan. Along each dimension, how many chunks hold some of the box.
    pub chunks_read: ArrayShape,
    /// How many elements are read. Along each dimension, how many the box has.
    pub elements_moved: ArrayShape,
}

/// Counts what a read of a box of elements takes. `None` if the box has no cover.
///
/// It takes the time and the memory of the cover.
///
/// # Errors
/// As of [`parts`](crate::parts).
pub fn counts_of_read<G: ChunkGridTraits, E: ChunkKeyEncodingTraits>(
    alloc: Global,
    array: &StoredArray<G, E>,
    array_subset: &ArraySubset,
) -> Result<Option<ReadCounts>, Refusal<IncompatibleDimensionalityError>>
    ensures counts { IfOk result (λ found. IfSome found (AreCountsOf
        (G.dimensions array.now.grid) (E.is_key array.now.encoding) array_subset.now)) }
    ensures empty { IsEmptyBox array_subset.now → length (G.dimensions array.now.grid) ≢ 0
        → FindsSome result }
    ensures answers { (¬ IsEmptyBox array_subset.now) ⊎ (length (G.dimensions array.now.grid) ≡ 0)
        → FindsCovered (G.dimensions array.now.grid) array_subset.now result }
{
    array_subset.is_a_box();
    let cover = array.grid.chunks_in_array_subset(alloc, array_subset)?;
    let Some(cover) = cover else {
        return Ok(None);
    };
    Ok(Some(ReadCounts {
        chunks_read: cover.shape().to_vec(alloc)?,
        elements_moved: array_subset.shape().to_vec(alloc)?,
    }))
}
