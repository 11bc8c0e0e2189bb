//! What a chunk grid answers.
ghost use Rattle.std.specs.Prelude.{◌≡◌, IfOk, MatchResult, length};
ghost use Rattle.serde_json.specs.View.{view};
ghost use Rattle.zarrs_chunk_base.specs.ArraySubset.{IsBox};
ghost use Rattle.zarrs_chunk_base.specs.Refusal.{OrMemory};
ghost use Rattle.zarrs_chunks.specs.seen.Grids.{grid_in, kind_in};
ghost use Rattle.zarrs_chunk_questions.specs.Answers.{IsBoxAnswer, IsGridAnswer, IsNumbersAnswer, IsTruthOf};
ghost use Rattle.zarrs_chunk_questions.specs.Refused.{IsBoxRefusal, IsNumbersRefusal};

use crate::call::{OfBox, OfGrid, OfNumbers};
use crate::line_fault::LineFault;
use crate::trees::{box_or_null, list_or_null};
use serde_json::Value;
use std::alloc::{AllocError, Global};
use zarrs_chunk_base::{ArraySubset, Refusal, TreeForm, write_list};
use zarrs_chunks::{ChunkGrid, ChunkGridTraits};

/// What a grid answers that is asked alone.
///
/// # Errors
/// Out of memory.
pub(crate) fn answer_alone(
    alloc: Global,
    call: OfGrid,
    grid: &ChunkGrid,
) -> Result<Value, AllocError>
    ensures { IfOk result (λ tree.
        IsGridAnswer call (kind_in grid.now) (grid_in grid.now) (view tree)) }
{
    match call {
        OfGrid::Dimensionality => Ok(Value::from(grid.dimensionality())),
        OfGrid::ArrayShape => write_list(alloc, grid.array_shape()),
        OfGrid::GridShape => write_list(alloc, grid.grid_shape()),
        OfGrid::Configuration => Ok(Value::Object(grid.configuration(alloc)?)),
        OfGrid::Metadata => grid.metadata(alloc)?.to_tree(alloc),
    }
}

/// What it answers that is asked of a list of numbers.
///
/// # Errors
/// There are more or fewer numbers than dimensions, but where that is an answer; or out of memory.
pub(crate) fn answer_numbers(
    alloc: Global,
    call: OfNumbers,
    grid: &ChunkGrid,
    numbers: &[u64],
) -> Result<Value, Refusal<LineFault>>
    ensures { MatchResult result
        (λ tree. IsNumbersAnswer call (grid_in grid.now) numbers.now (view tree))
        (OrMemory (IsNumbersRefusal call (length numbers.now)
        (length (grid_in grid.now).dimensions))) }
{
    match call {
        OfNumbers::ChunkShape => list_or_null(alloc, grid.chunk_shape(alloc, numbers)),
        OfNumbers::ChunkShapeNumbers => list_or_null(alloc, grid.chunk_shape_u64(alloc, numbers)),
        OfNumbers::ChunkOrigin => list_or_null(alloc, grid.chunk_origin(alloc, numbers)),
        OfNumbers::ChunkIndices => list_or_null(alloc, grid.chunk_indices(alloc, numbers)),
        OfNumbers::ChunkElementIndices => {
            list_or_null(alloc, grid.chunk_element_indices(alloc, numbers))
        }
        OfNumbers::Subset => box_or_null(alloc, grid.subset(alloc, numbers)),
        OfNumbers::ChunkIndicesInbounds => Ok(Value::from(grid.chunk_indices_inbounds(numbers))),
        OfNumbers::ArrayIndicesInbounds => Ok(Value::from(grid.array_indices_inbounds(numbers))),
    }
}

/// What it answers that is asked of a box.
///
/// # Errors
/// The box has another number of dimensions, but where it is empty and the cover is asked; or out of memory.
pub(crate) fn answer_box(
    alloc: Global,
    call: OfBox,
    grid: &ChunkGrid,
    subset: &ArraySubset,
) -> Result<Value, Refusal<LineFault>>
    ensures { MatchResult result
        (λ tree. IsBoxAnswer call (grid_in grid.now).dimensions subset.now (view tree))
        (OrMemory (IsBoxRefusal call (grid_in grid.now).dimensions subset.now)) }
{
    match call {
        OfBox::ChunksSubset => box_or_null(alloc, grid.chunks_subset(alloc, subset)),
        OfBox::ChunksInArraySubset => {
            box_or_null(alloc, grid.chunks_in_array_subset(alloc, subset))
        }
    }
}
