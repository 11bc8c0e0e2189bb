//! A list of dimensions of one kind.
ghost use Rattle.std.specs.Prelude.{◌≡◌, IfOk, List, map};
ghost use Rattle.std.specs.Int.NonZero.{non_zero_u64_get};
ghost use Rattle.zarrs_chunk_base.specs.Dimension.{Dimension};
ghost use Rattle.zarrs_chunk_base.specs.DimensionEdges.{equal};
ghost use Rattle.zarrs_chunk_axes.specs.EqualOrListed.{AreEqualOrListed};

use std::alloc::Global;
use std::num::NonZeroU64;
use zarrs_chunk_axes::{AxisGrid, EqualAxis};
use zarrs_chunk_base::{ArrayShape, Refusal};

/// How many chunks are counted along each dimension of an array with these sizes, cut into chunks with these edges.
pub fn grid_sizes(
    alloc: Global,
    array_shape: ArrayShape,
    chunk_shape: &[NonZeroU64],
) -> Result<ArrayShape, Refusal<ArrayShape>>
    ensures { IfOk result (λ sizes. (dimensions : List Dimension)
        × AreEqualOrListed dimensions array_shape.items
        (map (λ edge. equal (non_zero_u64_get edge)) chunk_shape.now)
        × (sizes.items ≡ map (λ d. d.grid_size) dimensions)) }
{
    let axes = AxisGrid::<EqualAxis>::new(alloc, array_shape, chunk_shape)?;
    Ok(axes.grid_shape().to_vec(alloc)?)
}
