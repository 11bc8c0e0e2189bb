//! A part of a box of elements: what one chunk holds of it.
ghost use Rattle.std.specs.Prelude.{◌≡◌, IfOk};
ghost use Rattle.zarrs_chunk_parts.specs.Plan.{IsPart, Meets};

use crate::shared::{Shared, shared_elements};
use smallvec::SmallVec;
use std::alloc::{AllocError, Global};
use zarrs_chunk_base::{ArraySubset, StoreKey};
use zarrs_chunk_keys::ChunkKeyEncodingTraits;
use zarrs_chunks::{ArrayIndicesTinyVec, ChunkGridTraits};

/// The edges of a chunk, in elements. Up to four take no memory of their own.
pub type ChunkShapeTinyVec = SmallVec<u64, 4>;

/// What one chunk holds of a box of elements. The two boxes have one shape: the first element of the one is the first of the other, and so on.
#[derive(Debug, Drop)]
pub struct Part {
    /// The key under which the chunk is stored.
    pub key: StoreKey,
    /// The numbers of the chunk.
    pub chunk: ArrayIndicesTinyVec,
    /// The chunk's edges, in elements, as its grid answers them: what is stored under the key has this shape.
    pub shape: ChunkShapeTinyVec,
    /// The part's box, counted from the chunk's first element.
    pub in_chunk: ArraySubset,
    /// The part's box, counted from the first element of the box that was asked for.
    pub in_selection: ArraySubset,
    /// Whether the box that was asked for has all elements of the array that the chunk holds.
    pub whole: bool,
}

/// What a chunk holds of a box of elements, if it holds some.
///
/// # Errors
/// Out of memory.
pub fn part_of<G: ChunkGridTraits, E: ChunkKeyEncodingTraits>(
    alloc: Global,
    grid: &G,
    encoding: &E,
    array_subset: &ArraySubset,
    chunk: ArrayIndicesTinyVec,
) -> Result<Part, AllocError>
    ensures chunk { IfOk result (λ part. part.chunk.items ≡ chunk.items) }
    ensures part { Meets (G.dimensions grid.now) array_subset.now chunk.items
        → IfOk result (IsPart (G.dimensions grid.now) (E.is_key encoding.now)
        array_subset.now chunk.items) }
{
    let shared = shared_elements(alloc, grid, array_subset, chunk.as_slice())?;
    let Shared {
        shape,
        in_chunk,
        in_selection,
        whole,
    } = shared;
    let key = encoding.encode(alloc, chunk.as_slice())?;
    Ok(Part {
        key,
        chunk,
        shape,
        in_chunk,
        in_selection,
        whole,
    })
}
