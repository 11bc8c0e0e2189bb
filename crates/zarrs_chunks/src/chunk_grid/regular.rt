//! The `regular` grid: chunks that all have one shape.
//!
//! ```json
//! {"name": "regular", "configuration": {"chunk_shape": [3]}}
//! ```
//!
//! ```text
//! index    0  1  2   3  4  5   6  7  8   9 ..     RegularChunkGrid, array shape [7], chunk shape [3]
//!        +---------+---------+---------+---
//!        | a  a  a | a  a  a | a  .  . | .        a  an element of the array
//!        +---------+---------+---------+---       .  past the array, where chunks go on
//! chunk       0         1         2      3 ..     chunk_indices
//! place    0  1  2   0  1  2   0  1  2   0 ..     chunk_element_indices
//! edge        3         3         3      3 ..     chunk_shape: edges aren't clipped
//! bounds     yes       yes       yes     no       chunk_indices_inbounds: the grid shape is [3]
//! ```
//!
//! | | |
//! |---|---|
//! | Standard | Zarr V3 core, [regular grid](https://zarr-specs.readthedocs.io/en/latest/v3/chunk-grids/regular-grid/index.html) |
//! | Configuration | `chunk_shape`, a list of edges: one a dimension, from 1 on |
//! | Accepted | array shape and chunk shape have the same number of dimensions |
//! | Chunks | every number names one; those that hold an element of the array are counted |
//! | Differs from zarrs | an origin or an end past 18446744073709551615 is `None`, where zarrs forms a product that can overflow |
ghost use Rattle.std.specs.Prelude.{◌≡◌, map};
ghost use Rattle.std.specs.Int.NonZero.{non_zero_u64_get};
ghost use Rattle.zarrs_chunk_axes.specs.seen.AxisGrid.{dimensions_of};

use super::edges::{edge_numbers, scalar_lengths};
use super::over_axes::{GridOfKind, OverAxes, other};
use std::alloc::{AllocError, Global};
use std::num::NonZeroU64;
use thiserror::Error;
use zarrs_chunk_axes::{AxisGrid, EqualAxis};
use zarrs_chunk_base::{
    ArrayShape, ChunkEdgeLengths, ChunkShape, Configuration, ConfigurationForm,
    IncompatibleDimensionalityError, MetadataV3, PluginCreateError, Refusal,
    RegularChunkGridConfiguration,
};

/// A grid whose chunks all have one shape. Chunk numbers and indices past the array have their
/// chunks and places too.
///
/// Source: Zarr V3 core, regular grid.
#[derive(Debug, Drop)]
pub struct RegularChunkGrid {
    axes: AxisGrid<EqualAxis>,
    chunk_shape: ChunkShape,
    ghost edges: { map non_zero_u64_get chunk_shape.items ≡ map
        (λ d. d.end 0) (dimensions_of axes) },
}

impl RegularChunkGrid {
    ghost use Rattle.zarrs_chunk_base.specs.Dimension.{array_sizes};
    ghost use Rattle.std.specs.Prelude.{◌≡◌, ◌≢◌, IfErr, IfOk, length, map};
    ghost use Rattle.zarrs_chunk_base.specs.Refusal.{HasMemory, OrMemory};
    ghost use Rattle.zarrs_chunk_base.specs.DimensionEdges.{equal};
    ghost use Rattle.zarrs_chunk_axes.specs.EqualEdges.{AreEqualEdges, HaveEqualEdges};
    ghost use Rattle.zarrs_chunks.specs.seen.Grids.{regular_of};

    /// The grid of an array with these sizes, cut into chunks with these edges, both in elements,
    /// one number a dimension.
    ///
    /// # Errors
    /// The two shapes have different lengths, and are handed back; or out of memory.
    pub fn new(
        alloc: Global,
        array_shape: ArrayShape,
        chunk_shape: ChunkShape,
    ) -> Result<RegularChunkGrid, Refusal<RegularChunkGridCreateError>>
        ensures sizes { IfOk result (λ grid. array_sizes (regular_of grid).dimensions
            ≡ array_shape.items) }
        ensures made { IfOk result (λ grid. AreEqualEdges
            (regular_of grid).dimensions
            array_shape.items (map non_zero_u64_get chunk_shape.items)) }
        ensures edges { IfOk result (λ grid. (regular_of grid).edges ≡ map equal
            (map non_zero_u64_get chunk_shape.items)) }
        ensures refused { IfErr result (OrMemory
            (λ _. length chunk_shape.items ≢ length array_shape.items)) }
        ensures handed_back { IfErr result (OrMemory (λ e. (e.0 ≡ array_shape)
            × (e.1 ≡ chunk_shape))) }
        ensures refused_first { length chunk_shape.items ≢ length array_shape.items
            → HasMemory result }
    {
        match AxisGrid::new(alloc, array_shape, &chunk_shape) {
            Ok(axes) => Ok(RegularChunkGrid { axes, chunk_shape }),
            Err(refusal) => {
                Err(refusal.map(|array_shape| RegularChunkGridCreateError(
                    array_shape,
                    chunk_shape,
                )))
            }
        }
    }

    /// The edges of the chunks, in elements, one a dimension.
    pub fn chunk_shape(&self) -> &[NonZeroU64]
        ensures { HaveEqualEdges (regular_of self.now).dimensions
            (map non_zero_u64_get result.now) }
    {
        &self.chunk_shape
    }

    /// The edges of the chunks as plain numbers.
    ///
    /// # Errors
    /// Out of memory.
    pub fn chunk_shape_u64(&self, alloc: Global) -> Result<ArrayShape, AllocError>
        ensures { IfOk result (λ edges. HaveEqualEdges
            (regular_of self.now).dimensions edges.items) }
    {
        edge_numbers(alloc, &self.chunk_shape)
    }

    /// A copy.
    ///
    /// # Errors
    /// Out of memory.
    pub fn clone(&self) -> Result<RegularChunkGrid, AllocError>
        ensures dimensions { IfOk result (λ grid. (regular_of grid).dimensions
            ≡ (regular_of self.now).dimensions) }
        ensures edges { IfOk result (λ grid. (regular_of grid).edges ≡ (regular_of self.now).edges) }
    {
        Ok(RegularChunkGrid {
            axes: self.axes.clone()?,
            chunk_shape: self.chunk_shape.clone()?,
        })
    }
}

impl GridOfKind for RegularChunkGrid {
    ghost use Rattle.zarrs_chunks.specs.GridKinds.{regular};
    ghost use Rattle.zarrs_chunks.specs.seen.Grids.{regular_of};

    ghost kind = { regular };

    ghost grid = { regular_of };
}

impl OverAxes for RegularChunkGrid {
    type Dimension = EqualAxis;

    ghost use Rattle.zarrs_chunks.specs.seen.Grids.{regular_chained};

    ghost axes_chained = { regular_chained };

    fn axes(&self) -> &AxisGrid<EqualAxis> {
        &self.axes
    }

    fn of_metadata(
        alloc: Global,
        metadata: &MetadataV3,
        array_shape: &[u64],
    ) -> Result<RegularChunkGrid, Refusal<PluginCreateError>> {
        let configuration = RegularChunkGridConfiguration::from_metadata(alloc, metadata)?;
        let array_shape = array_shape.to_vec(alloc)?;
        match RegularChunkGrid::new(alloc, array_shape, configuration.chunk_shape) {
            Ok(grid) => Ok(grid),
            Err(refusal) => Err(refusal.try_map(|_| other(alloc, INCONSISTENT_DIMENSIONALITY))),
        }
    }

    fn to_configuration(&self, alloc: Global) -> Result<Configuration, AllocError> {
        let configuration = RegularChunkGridConfiguration {
            chunk_shape: self.axes.configurations(alloc)?,
        };
        configuration.to_tree(alloc)
    }

    fn edge_lengths(&self, alloc: Global) -> Result<Vec<ChunkEdgeLengths>, AllocError> {
        let edges = self.axes.configurations(alloc)?;
        scalar_lengths(alloc, &edges)
    }
}

const INCONSISTENT_DIMENSIONALITY: &str =
    "regular chunk shape and array shape have inconsistent dimensionality";

/// An array shape and a chunk shape of different lengths, handed back.
#[derive(Debug, Drop, Error)]
#[error("regular chunk shape: {1:?} not compatible with array shape {0:?}")]
pub struct RegularChunkGridCreateError(pub ArrayShape, pub ChunkShape);

impl RegularChunkGridCreateError {
    ghost use Rattle.std.specs.Prelude.{◌≡◌, IfOk};

    /// A copy.
    ///
    /// # Errors
    /// Out of memory.
    pub fn clone(&self) -> Result<RegularChunkGridCreateError, AllocError>
        ensures { IfOk result (λ e. (e.0.items ≡ (self.now).0.items)
            × (e.1.items ≡ (self.now).1.items)) }
    {
        Ok(RegularChunkGridCreateError(self.0.clone()?, self.1.clone()?))
    }
}

/// The chunk shape's length is given, and the array shape's expected.
impl From<RegularChunkGridCreateError> for IncompatibleDimensionalityError {
    ghost use Rattle.std.specs.Prelude.{length};
    ghost use Rattle.zarrs_chunk_base.specs.Refusal.{TellsLengths};

    ghost from_gives = { λ e r. TellsLengths (length e.1.items) (length e.0.items) r };

    fn from(error: RegularChunkGridCreateError) -> IncompatibleDimensionalityError {
        let RegularChunkGridCreateError(array_shape, chunk_shape) = error;
        IncompatibleDimensionalityError::new(chunk_shape.len(), array_shape.len())
    }
}
