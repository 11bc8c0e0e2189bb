//! The `rectangular` grid: in each dimension chunks of one edge, or with the edges of a list.
//!
//! ```json
//! {"name": "rectangular", "configuration": {"chunk_shape": [[5, 5, 5, 15, 15, 20, 35], 10]}}
//! ```
//!
//! ```text
//! index    0  1   2  3  4  5   6  7  8   9     RectangularChunkGrid, array shape [9], chunk shape [[2, 4, 3]]
//!        +------+------------+---------+
//!        | a  a | a  a  a  a | a  a  a |       a  an element of the array
//!        +------+------------+---------+
//! chunk      0         1          2      -     chunk_indices; - where no chunk holds the index
//! place    0  1   0  1  2  3   0  1  2   -     chunk_element_indices
//! edge       2         4          3            chunk_shape: the edges add up to the array size
//! ```
//!
//! | | |
//! |---|---|
//! | Standard | none yet: the draft [ZEP 3](https://zarr.dev/zeps/draft/ZEP0003.html), variable chunks |
//! | Configuration | `chunk_shape`, an item a dimension: one edge, or a list of the edges of all chunks, each from 1 on |
//! | Accepted | as many items as dimensions; a list isn't empty, and its sum is the array size, so none is accepted for a size of 0 |
//! | Chunks | of one edge: every number; of a list: one for each edge, and each is counted |
//! | Differs from zarrs | an empty list is always refused; so is a sum past 18446744073709551615, where that of zarrs can overflow |
ghost use Rattle.std.specs.Prelude.{map};
ghost use Rattle.zarrs_chunk_axes.specs.Rectangular.{AreRectangular};
ghost use Rattle.zarrs_chunk_base.specs.Dimension.{array_sizes};
ghost use Rattle.zarrs_chunk_axes.specs.lemmas.AcceptedOnce.{are_rectangular_once};
ghost use Rattle.zarrs_chunk_axes.specs.seen.AxisGrid.{dimensions_of, edges_of};

use super::edges::listed_lengths;
use super::over_axes::{GridOfKind, OverAxes, write_incompatible};
use std::alloc::{AllocError, Global};
use std::error::Error;
use std::fmt;
use zarrs_chunk_axes::{AxisGrid, EqualOr, ListedAxis};
use zarrs_chunk_base::{
    ArrayShape, ChunkEdgeLengths, Configuration, ConfigurationForm, MetadataV3, PluginCreateError,
    RectangularChunkGridConfiguration, RectangularChunkGridDimensionConfiguration, Refusal,
};

/// A grid whose chunks have one edge or listed edges in each dimension. Listed edges are those of the whole
/// array, so there are no chunks past it in their dimension.
///
/// Source: ZEP 3, variable chunks.
#[derive(Debug, Drop)]
pub struct RectangularChunkGrid {
    axes: AxisGrid<EqualOr<ListedAxis>>,
    ghost accepted: { AreRectangular (array_sizes (dimensions_of axes)) (edges_of axes) } by { are_rectangular_once _ _ },
}

impl RectangularChunkGrid {
    ghost use Rattle.zarrs_chunk_base.specs.Dimension.{array_sizes};
    ghost use Rattle.std.specs.Prelude.{◌≡◌, IfOk, IfErr, map};
    ghost use Rattle.zarrs_chunk_base.specs.DimensionEdges.{rectangular_edges};
    ghost use Rattle.zarrs_chunk_base.specs.Refusal.{OrMemory};
    ghost use Rattle.zarrs_chunk_axes.specs.EqualOrListed.{AreEqualOrListed};
    ghost use Rattle.zarrs_chunk_axes.specs.Rectangular.{AreRectangular};
    ghost use Rattle.zarrs_chunks.specs.seen.Grids.{rectangular_of};

    /// The grid of an array with these sizes, in elements, and with these edges, one configuration a
    /// dimension.
    ///
    /// # Errors
    /// The two lists have different lengths, or a list of edges is empty or has another sum than the array
    /// size; both are handed back. Or out of memory.
    pub fn new(
        alloc: Global,
        array_shape: ArrayShape,
        chunk_shape: &[RectangularChunkGridDimensionConfiguration],
    ) -> Result<RectangularChunkGrid, Refusal<RectangularChunkGridCreateError>>
        ensures accepted { IfOk result (λ _. AreRectangular array_shape.items
            (map rectangular_edges chunk_shape.now)) }
        ensures sizes { IfOk result (λ grid. array_sizes (rectangular_of grid).dimensions
            ≡ array_shape.items) }
        ensures made { IfOk result (λ grid. AreEqualOrListed
            (rectangular_of grid).dimensions
            array_shape.items (map rectangular_edges chunk_shape.now)) }
        ensures edges { IfOk result (λ grid. (rectangular_of grid).edges
            ≡ map rectangular_edges chunk_shape.now) }
        ensures refused { IfErr result (OrMemory
            (λ _. ¬ AreRectangular array_shape.items (map rectangular_edges chunk_shape.now))) }
        ensures shape_handed_back { IfErr result
            (OrMemory (λ e. e.0 ≡ array_shape)) }
        ensures edges_handed_back { IfErr result
            (OrMemory (λ e. map rectangular_edges e.1.items
            ≡ map rectangular_edges chunk_shape.now)) }
    {
        match AxisGrid::new(alloc, array_shape, chunk_shape) {
            Ok(axes) => Ok(RectangularChunkGrid { axes }),
            Err(refusal) => Err(refusal.try_map(|array_shape| {
                RectangularChunkGridCreateError::new(alloc, array_shape, chunk_shape)
            })),
        }
    }

    /// A copy.
    ///
    /// # Errors
    /// Out of memory.
    pub fn clone(&self) -> Result<RectangularChunkGrid, AllocError>
        ensures dimensions { IfOk result (λ grid. (rectangular_of grid).dimensions
            ≡ (rectangular_of self.now).dimensions) }
        ensures edges { IfOk result (λ grid. (rectangular_of grid).edges ≡ (rectangular_of self.now).edges) }
    {
        Ok(RectangularChunkGrid {
            axes: self.axes.clone()?,
        })
    }
}

impl GridOfKind for RectangularChunkGrid {
    ghost use Rattle.zarrs_chunks.specs.GridKinds.{rectangular};
    ghost use Rattle.zarrs_chunks.specs.seen.Grids.{rectangular_of};

    ghost kind = { rectangular };

    ghost grid = { rectangular_of };
}

impl OverAxes for RectangularChunkGrid {
    type Dimension = EqualOr<ListedAxis>;

    ghost use Rattle.zarrs_chunks.specs.seen.Grids.{rectangular_chained};

    ghost axes_chained = { rectangular_chained };

    fn axes(&self) -> &AxisGrid<EqualOr<ListedAxis>> {
        &self.axes
    }

    fn of_metadata(
        alloc: Global,
        metadata: &MetadataV3,
        array_shape: &[u64],
    ) -> Result<RectangularChunkGrid, Refusal<PluginCreateError>> {
        let configuration = RectangularChunkGridConfiguration::from_metadata(alloc, metadata)?;
        let array_shape = array_shape.to_vec(alloc)?;
        match RectangularChunkGrid::new(alloc, array_shape, &configuration.chunk_shape) {
            Ok(grid) => Ok(grid),
            Err(refusal) => Err(refusal.try_map(|error| {
                Ok(PluginCreateError::Other(error.to_string(alloc)?))
            })),
        }
    }

    fn to_configuration(&self, alloc: Global) -> Result<Configuration, AllocError> {
        let configuration = RectangularChunkGridConfiguration {
            chunk_shape: self.axes.configurations(alloc)?,
        };
        configuration.to_tree(alloc)
    }

    fn edge_lengths(&self, alloc: Global) -> Result<Vec<ChunkEdgeLengths>, AllocError> {
        let configurations = self.axes.configurations(alloc)?;
        listed_lengths(alloc, &configurations)
    }
}

/// An array shape and edges of which there is no rectangular grid, handed back.
#[derive(Debug, Drop)]
pub struct RectangularChunkGridCreateError(
    pub ArrayShape,
    pub Vec<RectangularChunkGridDimensionConfiguration>,
);

impl RectangularChunkGridCreateError {
    ghost use Rattle.std.specs.Prelude.{◌≡◌, IfOk, map};
    ghost use Rattle.zarrs_chunk_base.specs.DimensionEdges.{rectangular_edges};

    /// The error about an array shape and a copy of the edges.
    fn new(
        alloc: Global,
        array_shape: ArrayShape,
        chunk_shape: &[RectangularChunkGridDimensionConfiguration],
    ) -> Result<RectangularChunkGridCreateError, AllocError>
        ensures { IfOk result (λ e. (e.0 ≡ array_shape)
            × (map rectangular_edges e.1.items ≡ map rectangular_edges chunk_shape.now)) }
    {
        Ok(RectangularChunkGridCreateError(array_shape, chunk_shape.to_vec(alloc)?))
    }

    /// A copy.
    ///
    /// # Errors
    /// Out of memory.
    pub fn clone(&self) -> Result<RectangularChunkGridCreateError, AllocError>
        ensures { IfOk result (λ e. (e.0.items ≡ (self.now).0.items)
            × (map rectangular_edges e.1.items ≡ map rectangular_edges (self.now).1.items)) }
    {
        RectangularChunkGridCreateError::new(*self.1.allocator(), self.0.clone()?, &self.1)
    }
}

impl fmt::Display for RectangularChunkGridCreateError {
    fn fmt<W: fmt::Write>(&self, f: &mut fmt::Formatter<W>) -> fmt::Result {
        write_incompatible(f, "rectangular", &self.1, &self.0)
    }
}

impl Error for RectangularChunkGridCreateError {}
