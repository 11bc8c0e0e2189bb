//! The grid and the encoding that metadata says, which is given as text.
ghost use Rattle.serde_json.specs.Data.{Data, depth};
ghost use Rattle.serde_json.specs.Read.{max_depth};
ghost use Rattle.serde_json.specs.View.{view};
ghost use Rattle.std.specs.Prelude.{◌≡◌, ◌⊎◌, ◌≤◌, IfErr, IfOk, MatchResult, length};
ghost use Rattle.zarrs_chunk_base.specs.Json.{IsJsonOf};
ghost use Rattle.zarrs_chunk_batches.specs.Said.{IsNoEncoding, IsNoGrid, SaysEncoding, SaysGrid};
ghost use Rattle.zarrs_chunk_batches.specs.declared.codes.Fault.TheVariants.{Memory, NotJson};
ghost use Rattle.zarrs_chunk_keys.specs.seen.Encodings.{encoding_in};
ghost use Rattle.zarrs_chunks.specs.seen.Grids.{grid_in};

use crate::codes::Fault;
use serde_json::Value;
use std::alloc::Global;
use zarrs_chunk_base::read_json;
use zarrs_chunk_keys::ChunkKeyEncoding;
use zarrs_chunks::ChunkGrid;

/// The grid that metadata says, of an array of this shape.
///
/// # Errors
/// The text isn't JSON, or no extension's metadata, or the grid can't be made; or out of memory.
pub(crate) fn grid_of(alloc: Global, shape: &[u64], chunk_grid: &[u8]) -> Result<ChunkGrid, Fault>
    ensures width { IfOk result (λ grid. length (grid_in grid).dimensions ≡ length shape.now) }
    ensures made { MatchResult result
        (λ grid. SaysGrid chunk_grid.now shape.now (grid_in grid))
        (λ fault. (fault ≡ Memory) ⊎ IsNoGrid chunk_grid.now shape.now fault) }
{
    let tree = read_tree(alloc, chunk_grid)?;
    Ok(ChunkGrid::from_tree(alloc, &tree, shape)?)
}

/// The encoding that metadata says.
///
/// # Errors
/// The text isn't JSON, or no extension's metadata, or the encoding can't be made; or out of memory.
pub(crate) fn encoding_of(
    alloc: Global,
    chunk_key_encoding: &[u8],
) -> Result<ChunkKeyEncoding, Fault>
    ensures { MatchResult result
        (λ encoding. SaysEncoding chunk_key_encoding.now (encoding_in encoding))
        (λ fault. (fault ≡ Memory) ⊎ IsNoEncoding chunk_key_encoding.now fault) }
{
    let tree = read_tree(alloc, chunk_key_encoding)?;
    Ok(ChunkKeyEncoding::from_tree(alloc, &tree)?)
}

/// The tree of a text. Lists and objects lie within one another at most 127 deep in it: nothing deeper is built.
///
/// # Errors
/// The text isn't JSON, or nests deeper; or out of memory.
fn read_tree(alloc: Global, text: &[u8]) -> Result<Value, Fault>
    ensures nests { IfOk result (λ tree. depth (view tree) ≤ max_depth) }
    ensures said { IfOk result (λ tree. IsJsonOf text.now (view tree)) }
    ensures refused { IfErr result (λ fault. (fault ≡ Memory) ⊎ ((fault ≡ NotJson)
        × ((tree : Data) → ¬ IsJsonOf text.now tree))) }
{
    match read_json(alloc, text)? {
        Some(tree) => Ok(tree),
        None => Err(Fault::NotJson),
    }
}
