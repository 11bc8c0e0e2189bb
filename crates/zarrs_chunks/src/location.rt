//! Where an element is stored: the key of its chunk, and its place in the chunk.
ghost use Rattle.std.specs.Prelude.{length};
ghost use Rattle.zarrs_chunk_base.specs.Refusal.{AnswersOrMemory};
ghost use Rattle.zarrs_chunks.specs.Located.{IsLocated};
ghost use Rattle.zarrs_chunks.specs.Subsets.{HasNoHome};

use crate::{ChunkGridTraits, Home};
use std::alloc::Global;
use zarrs_chunk_base::{ArrayIndices, IncompatibleDimensionalityError, Refusal, StoreKey};
use zarrs_chunk_keys::ChunkKeyEncodingTraits;

/// Where an element is stored.
#[derive(Debug, Drop)]
pub struct Located {
    /// The numbers of the chunk that holds the element.
    pub chunk: ArrayIndices,
    /// The key under which the chunk is stored.
    pub key: StoreKey,
    /// The element's place in the chunk, counted from the chunk's first element.
    pub element: ArrayIndices,
}

/// Where the element at these indices is stored; `None` where no chunk holds it.
///
/// # Errors
/// The list has another length than the grid has dimensions; or out of memory.
pub fn locate<G: ChunkGridTraits, E: ChunkKeyEncodingTraits>(
    alloc: Global,
    grid: &G,
    encoding: &E,
    array_indices: &[u64],
) -> Result<Option<Located>, Refusal<IncompatibleDimensionalityError>>
    ensures { AnswersOrMemory (length array_indices.now) (length (G.dimensions grid.now))
        (IsLocated (G.dimensions grid.now) (E.is_key encoding.now) array_indices.now)
        (HasNoHome (G.dimensions grid.now) array_indices.now) result }
{
    let mut home = Home::new(alloc);
    if !grid.find_home(array_indices, &mut home)? {
        return Ok(None);
    }
    let key = encoding.encode(alloc, &home.chunk)?;
    Ok(Some(Located {
        chunk: home.chunk,
        key,
        element: home.element,
    }))
}
