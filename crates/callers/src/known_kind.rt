//! What is known of a grid whose kind is known.
ghost use Rattle.std.specs.Prelude.{◌≡◌, ◌↔◌, IfOk, IsTrue, map};
ghost use Rattle.std.specs.Int.NonZero.{non_zero_u64_get};
ghost use Rattle.zarrs_chunk_base.specs.Dimension.{array_sizes};
ghost use Rattle.zarrs_chunk_base.specs.DimensionEdges.{equal};
ghost use Rattle.zarrs_chunk_base.specs.Grid.{Grid};
ghost use Rattle.zarrs_chunk_base.specs.Kinds.{IsMetadata};
ghost use Rattle.zarrs_chunk_base.specs.Metadata.{extension_of};
ghost use Rattle.zarrs_chunk_axes.specs.EqualEdges.{AreEqualEdges};
ghost use Rattle.zarrs_chunk_axes.specs.InBounds.{AreIndicesInBounds};
ghost use Rattle.zarrs_chunks.specs.GridKinds.{grid_kind, regular};
ghost use Rattle.zarrs_chunks.specs.seen.Grids.{regular_of};

use std::alloc::{AllocError, Global};
use zarrs_chunk_base::{ArrayShape, ChunkShape, MetadataV3, Refusal};
use zarrs_chunks::{ChunkGridTraits, RegularChunkGrid, RegularChunkGridCreateError};

/// Whether an index is in bounds of an array that is cut into chunks of one shape.
pub fn is_in_bounds(
    alloc: Global,
    array_shape: ArrayShape,
    chunk_shape: ChunkShape,
    array_indices: &[u64],
) -> Result<bool, Refusal<RegularChunkGridCreateError>>
    ensures { IfOk result (λ within. (grid : Grid)
        × AreEqualEdges grid.dimensions array_shape.items (map non_zero_u64_get chunk_shape.items)
        × (grid.edges ≡ map equal (map non_zero_u64_get chunk_shape.items))
        × (IsTrue within ↔ AreIndicesInBounds grid array_indices.now)) }
{
    let grid = RegularChunkGrid::new(alloc, array_shape, chunk_shape)?;
    Ok(grid.array_indices_inbounds(array_indices))
}

/// The metadata of a `regular` grid.
pub fn metadata_of_regular(alloc: Global, grid: &RegularChunkGrid) -> Result<MetadataV3, AllocError>
    ensures { IfOk result (λ metadata. IsMetadata (grid_kind regular)
        (array_sizes (regular_of grid.now).dimensions) (regular_of grid.now)
        (extension_of metadata)) }
{
    let name = String::from_str(alloc, "regular")?;
    let configuration = grid.configuration(alloc)?;
    Ok(MetadataV3::new(name, Some(configuration)))
}
