//! The chunk grid and the chunk key encoding that a line gives, as in `zarr.json`, and the box.
ghost use Rattle.std.specs.Prelude.{◌≡◌, MatchResult};
ghost use Rattle.serde_json.specs.View.{view};
ghost use Rattle.zarrs_chunk_base.specs.ArraySubset.{IsBox};
ghost use Rattle.zarrs_chunk_base.specs.Refusal.{OrMemory};
ghost use Rattle.zarrs_chunk_keys.specs.KeyKinds.{IsEncodingIn};
ghost use Rattle.zarrs_chunk_keys.specs.seen.Encodings.{encoding_in};
ghost use Rattle.zarrs_chunks.specs.GridKinds.{IsGridIn};
ghost use Rattle.zarrs_chunks.specs.seen.Grids.{grid_in, kind_in};
ghost use Rattle.zarrs_chunk_questions.specs.Trees.{box_of as box_said};
ghost use Rattle.zarrs_chunk_questions.specs.Refused.{IsNoBox, IsNoEncoding, IsNoGrid};
ghost use Rattle.zarrs_chunk_questions.specs.seen.Read.{lists_of};

use crate::asked::Lists;
use crate::line_fault::LineFault;
use serde_json::Value;
use std::alloc::Global;
use zarrs_chunk_base::{ArraySubset, Refusal};
use zarrs_chunk_keys::ChunkKeyEncoding;
use zarrs_chunks::ChunkGrid;

/// The chunk grid that metadata stands for, of an array with this shape.
///
/// # Errors
/// The tree is no extension's metadata, the grid can't be made; or out of memory.
pub(crate) fn make_grid(
    alloc: Global,
    tree: &Value,
    shape: &[u64],
) -> Result<ChunkGrid, Refusal<LineFault>>
    ensures { MatchResult result
        (λ grid. IsGridIn (view tree.now) shape.now (kind_in grid) (grid_in grid))
        (OrMemory (IsNoGrid (view tree.now) shape.now)) }
{
    match ChunkGrid::from_tree(alloc, tree, shape) {
        Ok(grid) => Ok(grid),
        Err(refusal) => Err(refusal.map(LineFault::Extension)),
    }
}

/// The chunk key encoding that metadata stands for.
///
/// # Errors
/// The tree is no extension's metadata, the encoding can't be made; or out of memory.
pub(crate) fn make_encoding(
    alloc: Global,
    tree: &Value,
) -> Result<ChunkKeyEncoding, Refusal<LineFault>>
    ensures { MatchResult result
        (λ encoding. IsEncodingIn (view tree.now) (encoding_in encoding))
        (OrMemory (IsNoEncoding (view tree.now))) }
{
    match ChunkKeyEncoding::from_tree(alloc, tree) {
        Ok(encoding) => Ok(encoding),
        Err(refusal) => Err(refusal.map(LineFault::Extension)),
    }
}

/// The box of a start and a shape.
///
/// # Errors
/// They make no box.
pub(crate) fn box_of(lists: Lists) -> Result<ArraySubset, LineFault>
    ensures { MatchResult result (λ b. (b ≡ box_said (lists_of lists)) × IsBox b)
        (IsNoBox (box_said (lists_of lists))) }
{
    let (start, shape) = lists;
    ArraySubset::new_with_start_shape(start, shape).map_err(LineFault::NotBox)
}
