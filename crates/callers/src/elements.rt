//! Where an element lies, and under which key its chunk is stored: in any grid, under any encoding.
ghost use Rattle.std.specs.Prelude.{◌≡◌, ◌≢◌, ◌↔◌, ◌⊎◌, ℕ, IfErr, IfOk, IsTrue, List, length};
ghost use Rattle.zarrs_chunk_base.specs.Dimension.{InBox};
ghost use Rattle.zarrs_chunk_base.specs.Refusal.{AnswersOrMemory, OrMemory};
ghost use Rattle.zarrs_chunks.specs.Subsets.{HasNoHome};

use std::alloc::Global;
use zarrs_chunk_base::{IncompatibleDimensionalityError, Refusal, StoreKey};
use zarrs_chunk_keys::ChunkKeyEncodingTraits;
use zarrs_chunks::laws::{answers_of_locate_determine_the_index, chunks_share_no_index};
use zarrs_chunks::{ChunkGridTraits, locate};

/// The key of the chunk that holds an element; `None` where no chunk does.
pub fn key_of_element<G: ChunkGridTraits, E: ChunkKeyEncodingTraits>(
    alloc: Global,
    grid: &G,
    encoding: &E,
    array_indices: &[u64],
) -> Result<Option<StoreKey>, Refusal<IncompatibleDimensionalityError>>
    ensures { AnswersOrMemory (length array_indices.now) (length (G.dimensions grid.now))
        (λ key. (chunk : List ℕ) × InBox (G.dimensions grid.now) chunk array_indices.now
        × E.is_key encoding.now chunk key)
        (HasNoHome (G.dimensions grid.now) array_indices.now) result }
{
    match locate(alloc, grid, encoding, array_indices)? {
        Some(located) => Ok(Some(located.key)),
        None => Ok(None),
    }
}

/// Whether some chunk holds both elements.
pub fn share_a_chunk<G: ChunkGridTraits>(
    alloc: Global,
    grid: &G,
    one: &[u64],
    other: &[u64],
) -> Result<bool, Refusal<IncompatibleDimensionalityError>>
    ensures shared { IfOk result (λ shared. IsTrue shared ↔ ((chunk : List ℕ)
        × InBox (G.dimensions grid.now) chunk one.now
        × InBox (G.dimensions grid.now) chunk other.now)) }
    ensures refused { IfErr result (OrMemory
        (λ _. (length one.now ≢ length (G.dimensions grid.now))
        ⊎ (length other.now ≢ length (G.dimensions grid.now)))) }
{
    // The law: no other chunk holds the one, nor the other.
    chunks_share_no_index(grid);
    let chunk = grid.chunk_indices(alloc, one)?;
    let same = grid.chunk_indices(alloc, other)?;
    Ok(chunk.is_some() && chunk == same)
}

/// Whether two elements are stored under one key and at one place, which makes them one element.
pub fn are_one_element<G: ChunkGridTraits, E: ChunkKeyEncodingTraits>(
    alloc: Global,
    grid: &G,
    encoding: &E,
    one: &[u64],
    other: &[u64],
) -> Result<bool, Refusal<IncompatibleDimensionalityError>>
    ensures same { IfOk result (λ same. IsTrue same → one.now ≡ other.now) }
    ensures exact { ((chunk key other_key : List ℕ) → E.is_key encoding.now chunk key
        → E.is_key encoding.now chunk other_key → key ≡ other_key)
        → IfOk result (λ same. IsTrue same ↔ ((one.now ≡ other.now)
        × (chunk : List ℕ) × InBox (G.dimensions grid.now) chunk one.now)) }
    ensures refused { IfErr result (OrMemory
        (λ _. (length one.now ≢ length (G.dimensions grid.now))
        ⊎ (length other.now ≢ length (G.dimensions grid.now)))) }
{
    // The law: no other chunk holds the one.
    chunks_share_no_index(grid);
    let Some(found) = locate(alloc, grid, encoding, one)? else {
        return Ok(false);
    };
    let Some(also) = locate(alloc, grid, encoding, other)? else {
        return Ok(false);
    };
    if found.key.as_str() != also.key.as_str() || found.element != also.element {
        return Ok(false);
    }
    // The law: one key and one place are those of one index.
    answers_of_locate_determine_the_index(grid, encoding, &found, &also);
    Ok(true)
}
