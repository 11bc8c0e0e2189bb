//! All chunks of a grid, and those that a box of elements meets.
use std::alloc::{AllocError, Global};
use zarrs_chunk_base::{ArraySubset, IncompatibleDimensionalityError, Refusal, StoreKey};
use zarrs_chunk_keys::ChunkKeyEncodingTraits;
use zarrs_chunks::{ChunkGridTraits, ChunkIndicesInSubset};

/// The keys of all chunks that a grid counts, in row-major order of the chunks.
pub fn keys_of_grid<G: ChunkGridTraits, E: ChunkKeyEncodingTraits>(
    alloc: Global,
    grid: &G,
    encoding: &E,
) -> Result<Vec<StoreKey>, AllocError> {
    let mut keys = Vec::new(alloc);
    for chunk in grid.iter_chunk_indices(alloc) {
        keys.push(encoding.encode(alloc, chunk?.as_slice())?)?;
    }
    Ok(keys)
}

/// The keys of the chunks that a box of elements meets, in row-major order of the chunks; `None` where the box reaches past the grid's
/// chunks.
pub fn keys_of_subset<G: ChunkGridTraits, E: ChunkKeyEncodingTraits>(
    alloc: Global,
    grid: &G,
    encoding: &E,
    elements: &ArraySubset,
) -> Result<Option<Vec<StoreKey>>, Refusal<IncompatibleDimensionalityError>> {
    let Some(cover) = grid.chunks_in_array_subset(alloc, elements)? else {
        return Ok(None);
    };
    let mut keys = Vec::new(alloc);
    for chunk in ChunkIndicesInSubset::new(alloc, cover)? {
        keys.push(encoding.encode(alloc, chunk?.as_slice())?)?;
    }
    Ok(Some(keys))
}
