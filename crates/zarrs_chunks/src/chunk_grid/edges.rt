//! Edges of chunks.
ghost use Rattle.std.specs.Prelude.{◌≡◌, IfOk, IsOk, length, map};
ghost use Rattle.std.specs.Int.NonZero.{non_zero_u64_get};
ghost use Rattle.zarrs_chunk_base.specs.DimensionEdges.{equal, rectangular_edges};
ghost use Rattle.zarrs_chunk_base.specs.RunLength.{expansion, rectilinear_edges};

use std::alloc::{AllocError, Global};
use std::num::NonZeroU64;
use zarrs_chunk_base::{
    ArrayShape, ChunkEdgeLengths, RectangularChunkGridDimensionConfiguration, RunLengthElement,
};

/// Edges as plain numbers.
pub(super) fn edge_numbers(alloc: Global, edges: &[NonZeroU64]) -> Result<ArrayShape, AllocError>
    ensures items { IfOk result (λ v. v.items ≡ map non_zero_u64_get edges.now) }
    ensures stores_nothing { length edges.now ≡ 0 → IsOk result }
{
    let mut numbers = Vec::with_capacity(alloc, edges.len())?;
    for edge in edges {
        numbers.push(edge.get())?;
    }
    Ok(numbers)
}

/// Edges, each of which is that of all chunks in its dimension, as a `rectilinear` grid has them.
pub(super) fn scalar_lengths(
    alloc: Global,
    edges: &[NonZeroU64],
) -> Result<Vec<ChunkEdgeLengths>, AllocError>
    ensures { IfOk result (λ lengths. map rectilinear_edges lengths.items
        ≡ map (λ edge. equal (non_zero_u64_get edge)) edges.now) }
{
    let mut lengths = Vec::with_capacity(alloc, edges.len())?;
    for edge in edges {
        lengths.push(ChunkEdgeLengths::Scalar(*edge))?;
    }
    Ok(lengths)
}

/// The edges of the dimensions of a `rectangular` grid, as a `rectilinear` one has them.
pub(super) fn listed_lengths(
    alloc: Global,
    configurations: &[RectangularChunkGridDimensionConfiguration],
) -> Result<Vec<ChunkEdgeLengths>, AllocError>
    ensures { IfOk result (λ lengths. map rectilinear_edges lengths.items
        ≡ map rectangular_edges configurations.now) }
{
    let mut lengths = Vec::with_capacity(alloc, configurations.len())?;
    for configuration in configurations {
        lengths.push(match configuration {
            RectangularChunkGridDimensionConfiguration::Fixed(edge) => {
                ChunkEdgeLengths::Scalar(*edge)
            }
            RectangularChunkGridDimensionConfiguration::Varying(edges) => {
                ChunkEdgeLengths::Varying(single_elements(alloc, edges)?)
            }
        })?;
    }
    Ok(lengths)
}

/// Elements that stand for one edge each.
fn single_elements(alloc: Global, edges: &[NonZeroU64]) -> Result<Vec<RunLengthElement>, AllocError>
    ensures { IfOk result (λ elements. expansion elements.items
        ≡ map non_zero_u64_get edges.now) }
{
    let mut elements = Vec::with_capacity(alloc, edges.len())?;
    for edge in edges {
        elements.push(RunLengthElement::Single(*edge))?;
    }
    Ok(elements)
}
