//! The `zarrs.regular_bounded` grid: chunks that all have one shape, except at the array's end.
//!
//! ```json
//! {"name": "zarrs.regular_bounded", "configuration": {"chunk_shape": [3]}}
//! ```
//!
//! ```text
//! index    0  1  2   3  4  5   6   7  8      RegularBoundedChunkGrid, array shape [7], chunk shape [3]
//!        +---------+---------+---+
//!        | a  a  a | a  a  a | a |           a  an element of the array
//!        +---------+---------+---+
//! chunk       0         1      2   -  -      chunk_indices; - where no chunk holds the index
//! place    0  1  2   0  1  2   0   -  -      chunk_element_indices
//! edge        3         3      1             chunk_shape
//! ```
//!
//! | | |
//! |---|---|
//! | Standard | none: the experimental [regular_bounded](https://chunkgrid.zarrs.dev/regular_bounded), after the regular grid of Zarr V3 core |
//! | Configuration | `chunk_shape`, a list of edges: one a dimension, from 1 on |
//! | Accepted | array shape and chunk shape have the same number of dimensions |
//! | Chunks | those that hold some element of the array; the last one ends where the array does |
//! | A size of 0 | no chunk, so every look-up answers `None`; any index is in bounds, as in zarrs |
//! | Differs from zarrs | the clipped edge is exact at every 64-bit number, where zarrs forms sums that can overflow |
use super::edges::scalar_lengths;
use super::over_axes::{GridOfKind, OverAxes, other};
use std::alloc::{AllocError, Global};
use zarrs_chunk_axes::{AxisGrid, BoundedAxis};
use zarrs_chunk_base::{
    ArrayShape, ChunkEdgeLengths, ChunkShape, Configuration, ConfigurationForm,
    IncompatibleDimensionalityError, MetadataV3, PluginCreateError, Refusal,
    RegularBoundedChunkGridConfiguration,
};

/// A grid whose chunks all have one shape, except that none reaches past the array. There are no chunks past
/// the array, and none along a dimension of size 0.
///
/// Source: the extension `zarrs.regular_bounded`, after the Zarr V3 core regular grid.
#[derive(Debug, Drop)]
pub struct RegularBoundedChunkGrid {
    axes: AxisGrid<BoundedAxis>,
}

impl RegularBoundedChunkGrid {
    ghost use Rattle.zarrs_chunk_base.specs.Dimension.{array_sizes};
    ghost use Rattle.std.specs.Prelude.{◌≡◌, ◌≢◌, IfOk, IfErr, length, map};
    ghost use Rattle.std.specs.Int.NonZero.{non_zero_u64_get};
    ghost use Rattle.zarrs_chunk_base.specs.Refusal.{HasMemory, OrMemory, TellsLengths};
    ghost use Rattle.zarrs_chunk_base.specs.DimensionEdges.{equal};
    ghost use Rattle.zarrs_chunk_axes.specs.Bounded.{AreBounded};
    ghost use Rattle.zarrs_chunks.specs.seen.Grids.{regular_bounded_of};

    /// The grid of an array with these sizes, cut into chunks with these edges, both in elements,
    /// one number a dimension.
    ///
    /// # Errors
    /// The two shapes have different lengths: the chunk shape's is given and the array shape's
    /// expected. Or out of memory.
    pub fn new(
        alloc: Global,
        array_shape: ArrayShape,
        chunk_shape: ChunkShape,
    ) -> Result<RegularBoundedChunkGrid, Refusal<IncompatibleDimensionalityError>>
        ensures sizes { IfOk result (λ grid. array_sizes (regular_bounded_of grid).dimensions
            ≡ array_shape.items) }
        ensures made { IfOk result (λ grid. AreBounded
            (regular_bounded_of grid).dimensions
            array_shape.items (map non_zero_u64_get chunk_shape.items)) }
        ensures edges { IfOk result (λ grid. (regular_bounded_of grid).edges ≡ map equal
            (map non_zero_u64_get chunk_shape.items)) }
        ensures refused { IfErr result (OrMemory
            (λ _. length chunk_shape.items ≢ length array_shape.items)) }
        ensures told { IfErr result (OrMemory
            (TellsLengths (length chunk_shape.items) (length array_shape.items))) }
        ensures refused_first { length chunk_shape.items ≢ length array_shape.items
            → HasMemory result }
    {
        match AxisGrid::new(alloc, array_shape, &chunk_shape) {
            Ok(axes) => Ok(RegularBoundedChunkGrid { axes }),
            Err(refusal) => Err(refusal.map(|array_shape: ArrayShape| {
                IncompatibleDimensionalityError::new(chunk_shape.len(), array_shape.len())
            })),
        }
    }

    /// A copy.
    ///
    /// # Errors
    /// Out of memory.
    pub fn clone(&self) -> Result<RegularBoundedChunkGrid, AllocError>
        ensures dimensions { IfOk result (λ grid. (regular_bounded_of grid).dimensions
            ≡ (regular_bounded_of self.now).dimensions) }
        ensures edges { IfOk result (λ grid. (regular_bounded_of grid).edges ≡ (regular_bounded_of self.now).edges) }
    {
        Ok(RegularBoundedChunkGrid {
            axes: self.axes.clone()?,
        })
    }
}

impl GridOfKind for RegularBoundedChunkGrid {
    ghost use Rattle.zarrs_chunks.specs.GridKinds.{regular_bounded};
    ghost use Rattle.zarrs_chunks.specs.seen.Grids.{regular_bounded_of};

    ghost kind = { regular_bounded };

    ghost grid = { regular_bounded_of };
}

impl OverAxes for RegularBoundedChunkGrid {
    type Dimension = BoundedAxis;

    ghost use Rattle.zarrs_chunks.specs.seen.Grids.{regular_bounded_chained};

    ghost axes_chained = { regular_bounded_chained };

    fn axes(&self) -> &AxisGrid<BoundedAxis> {
        &self.axes
    }

    fn of_metadata(
        alloc: Global,
        metadata: &MetadataV3,
        array_shape: &[u64],
    ) -> Result<RegularBoundedChunkGrid, Refusal<PluginCreateError>> {
        let configuration = RegularBoundedChunkGridConfiguration::from_metadata(alloc, metadata)?;
        let array_shape = array_shape.to_vec(alloc)?;
        match RegularBoundedChunkGrid::new(alloc, array_shape, configuration.chunk_shape) {
            Ok(grid) => Ok(grid),
            Err(refusal) => Err(refusal.try_map(|_| other(alloc, INCONSISTENT_DIMENSIONALITY))),
        }
    }

    fn to_configuration(&self, alloc: Global) -> Result<Configuration, AllocError> {
        let configuration = RegularBoundedChunkGridConfiguration {
            chunk_shape: self.axes.configurations(alloc)?,
        };
        configuration.to_tree(alloc)
    }

    fn edge_lengths(&self, alloc: Global) -> Result<Vec<ChunkEdgeLengths>, AllocError> {
        let edges = self.axes.configurations(alloc)?;
        scalar_lengths(alloc, &edges)
    }
}

const INCONSISTENT_DIMENSIONALITY: &str =
    "`regular_bounded` chunk shape and array shape have inconsistent dimensionality";
