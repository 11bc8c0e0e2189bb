//! The `rectilinear` grid: in each dimension chunks of one edge, or with the edges of run-length elements.
//!
//! ```json
//! {"name": "rectilinear", "configuration": {"kind": "inline", "chunk_shapes": [[[5, 3], [15, 2], 20, 35], 10]}}
//! ```
//!
//! ```text
//! index    0  1  2  3   4  5  6  7   8  9 10 11 12 13  14     RectilinearChunkGrid, array shape [12],
//!        +------------+------------+------------------+       chunk shapes [[[4, 2], 6]]
//!        | a  a  a  a | a  a  a  a | a  a  a  a  .  . |       a  an element of the array
//!        +------------+------------+------------------+       .  past the array, and in the last chunk
//! chunk        0            1               2           -     chunk_indices; - where no chunk holds the index
//! edge         4            4               6                 chunk_shape: edges aren't clipped
//! ```
//!
//! | | |
//! |---|---|
//! | Standard | the extension [rectilinear](https://github.com/zarr-developers/zarr-extensions/tree/main/chunk-grids/rectilinear) |
//! | Configuration | `kind`, the text `inline`, and `chunk_shapes`, an item a dimension: one edge, or a list of edges and of pairs `[edge, count]` |
//! | Accepted | as many items as dimensions; a list isn't empty, and its sum is at least the array size and at most 18446744073709551615 |
//! | Chunks | of one edge: every number; of a list: one for each edge, and each is counted |
//! | In bounds | an index below the array size (any index, where that is 0); where edges are listed, a chunk has to hold it too |
//! | Memory | at most 32 bytes for each edge and each pair of a list, however many chunks a pair counts |
//! | Differs from zarrs | `kind` has to be there; the sum is exact; nothing is expanded |
ghost use Rattle.std.specs.Prelude.{◌≡◌, IfErr, IfOk, IfSome, map, slice_get};
ghost use Rattle.zarrs_chunk_base.specs.RunLength.{edges_of_lengths, rectilinear_edges};
ghost use Rattle.zarrs_chunk_base.specs.GridConfigurations.{rectilinear_lengths};
ghost use Rattle.zarrs_chunk_axes.specs.Rectilinear.{AreRectilinear};
ghost use Rattle.zarrs_chunk_base.specs.Dimension.{array_sizes};
ghost use Rattle.zarrs_chunk_axes.specs.lemmas.AcceptedOnce.{are_rectilinear_once};
ghost use Rattle.zarrs_chunk_axes.specs.seen.AxisGrid.{dimensions_of, edges_of};

use super::over_axes::{GridOfKind, OverAxes, write_incompatible};
use std::alloc::{AllocError, Global};
use std::error::Error;
use std::fmt;
use zarrs_chunk_axes::{AxisGrid, EqualOr, RunsAxis};
use zarrs_chunk_base::{
    ArrayIndices, ArrayShape, ChunkEdgeLengths, Configuration, ConfigurationForm,
    IncompatibleDimensionalityError, MetadataV3, PluginCreateError,
    RectilinearChunkGridConfiguration, Refusal,
};
use zarrs_chunk_runs::Comparisons;

/// A grid whose chunks have one edge or listed edges in each dimension, where a list may say that so many chunks
/// in a row have one edge. Listed edges reach over the array and may reach past it; there are no other chunks in that
/// dimension. The grid's configuration has listed edges in run-length form: equal neighbours as one element, and a pair only
/// where it counts more than one chunk.
///
/// Source: the `rectilinear` extension of zarr-extensions.
#[derive(Debug, Drop)]
pub struct RectilinearChunkGrid {
    axes: AxisGrid<EqualOr<RunsAxis>>,
    ghost accepted: { AreRectilinear (array_sizes (dimensions_of axes)) (edges_of axes) } by { are_rectilinear_once _ _ },
}

impl RectilinearChunkGrid {
    ghost use Rattle.zarrs_chunk_base.specs.Dimension.{array_sizes};
    ghost use Rattle.std.specs.List.{AllZip};
    ghost use Rattle.zarrs_chunk_base.specs.Refusal.{OrMemory};
    ghost use Rattle.zarrs_chunk_base.specs.RunLength.{rectilinear_edges, IsSameChunkEdgeLengths};
    ghost use Rattle.zarrs_chunk_axes.specs.Counted.{AreCounted, AreSearchedInOrder, HasOneForEach, TellsRuns};
    ghost use Rattle.zarrs_chunk_axes.specs.EqualOrListed.{AreEqualOrListed};
    ghost use Rattle.zarrs_chunk_axes.specs.LookUp.{AnswersChunk};
    ghost use Rattle.zarrs_chunk_axes.specs.Rectilinear.{AreRectilinear};
    ghost use Rattle.zarrs_chunk_runs.specs.seen.Comparisons.{count_of};
    ghost use Rattle.zarrs_chunks.specs.seen.Grids.{rectilinear_of};

    /// The grid of an array with these sizes, in elements, and with these edges, one item a dimension.
    ///
    /// # Errors
    /// The two lists have different lengths, or the run-length elements of a dimension are an empty list, or the sum of
    /// their edges is below the array size or past 18446744073709551615; both lists are handed back. Or there was no
    /// memory.
    pub fn new(
        alloc: Global,
        array_shape: ArrayShape,
        chunk_shapes: &[ChunkEdgeLengths],
    ) -> Result<RectilinearChunkGrid, Refusal<RectilinearChunkGridCreateError>>
        ensures accepted { IfOk result (λ _. AreRectilinear array_shape.items
            (map rectilinear_edges chunk_shapes.now)) }
        ensures sizes { IfOk result (λ grid. array_sizes (rectilinear_of grid).dimensions
            ≡ array_shape.items) }
        ensures made { IfOk result (λ grid. AreEqualOrListed
            (rectilinear_of grid).dimensions
            array_shape.items (map rectilinear_edges chunk_shapes.now)) }
        ensures edges { IfOk result (λ grid. (rectilinear_of grid).edges
            ≡ map rectilinear_edges chunk_shapes.now) }
        ensures refused { IfErr result (OrMemory
            (λ _. ¬ AreRectilinear array_shape.items (map rectilinear_edges chunk_shapes.now))) }
        ensures shape_handed_back { IfErr result
            (OrMemory (λ e. e.0 ≡ array_shape)) }
        ensures edges_handed_back { IfErr result
            (OrMemory
            (λ e. AllZip IsSameChunkEdgeLengths e.1.items chunk_shapes.now)) }
    {
        match AxisGrid::new(alloc, array_shape, chunk_shapes) {
            Ok(axes) => Ok(RectilinearChunkGrid { axes }),
            Err(refusal) => Err(refusal.try_map(|array_shape| {
                RectilinearChunkGridCreateError::new(alloc, array_shape, chunk_shapes)
            })),
        }
    }

    /// How many runs of equal edges a dimension has, dimensions being counted from 0; `None` where it has one edge for all chunks, or
    /// there is no such dimension. The configuration has as many elements there.
    pub fn runs(&self, dimension: usize) -> Option<usize>
        ensures { TellsRuns (slice_get (rectilinear_of self.now).edges dimension) result }
    {
        self.axes.runs(dimension)
    }

    /// For each dimension the chunk that holds the index, as `chunk_indices` answers. Each comparison of an index with a running sum of
    /// edges is counted: in a dimension of listed edges at most as many as its number of runs has binary digits, and at least one; none
    /// where one edge is that of all chunks. The first dimension that doesn't hold the index is the last one that is searched.
    ///
    /// # Errors
    /// The list has another length than there are dimensions; or out of memory. Nothing is counted then.
    pub fn chunk_indices_counted(
        &self,
        alloc: Global,
        array_indices: &[u64],
        comparisons: &mut Comparisons,
    ) -> Result<Option<ArrayIndices>, Refusal<IncompatibleDimensionalityError>>
        ensures answers { AnswersChunk (rectilinear_of self.now).dimensions
            array_indices.now result }
        ensures counted { AreCounted (rectilinear_of self.now).edges
            (count_of comparisons.old) (count_of comparisons.new) }
        ensures each { IfOk result (λ found. IfSome found (λ _.
            HasOneForEach (rectilinear_of self.now).edges
            (count_of comparisons.old) (count_of comparisons.new))) }
        ensures in_order { IfOk result (λ _. AreSearchedInOrder
            (rectilinear_of self.now).dimensions (rectilinear_of self.now).edges array_indices.now
            (count_of comparisons.old) (count_of comparisons.new)) }
        ensures unchanged { IfErr result (λ _. count_of comparisons.new
            ≡ count_of comparisons.old) }
    {
        self.axes
            .chunk_indices_counted(alloc, array_indices, comparisons)
    }

    /// A copy.
    ///
    /// # Errors
    /// Out of memory.
    pub fn clone(&self) -> Result<RectilinearChunkGrid, AllocError>
        ensures dimensions { IfOk result (λ grid. (rectilinear_of grid).dimensions
            ≡ (rectilinear_of self.now).dimensions) }
        ensures edges { IfOk result (λ grid. (rectilinear_of grid).edges ≡ (rectilinear_of self.now).edges) }
    {
        Ok(RectilinearChunkGrid {
            axes: self.axes.clone()?,
        })
    }
}

impl GridOfKind for RectilinearChunkGrid {
    ghost use Rattle.zarrs_chunks.specs.GridKinds.{rectilinear};
    ghost use Rattle.zarrs_chunks.specs.seen.Grids.{rectilinear_of};

    ghost kind = { rectilinear };

    ghost grid = { rectilinear_of };
}

impl OverAxes for RectilinearChunkGrid {
    type Dimension = EqualOr<RunsAxis>;

    ghost use Rattle.zarrs_chunks.specs.seen.Grids.{rectilinear_chained};

    ghost axes_chained = { rectilinear_chained };

    fn axes(&self) -> &AxisGrid<EqualOr<RunsAxis>> {
        &self.axes
    }

    fn of_metadata(
        alloc: Global,
        metadata: &MetadataV3,
        array_shape: &[u64],
    ) -> Result<RectilinearChunkGrid, Refusal<PluginCreateError>> {
        let configuration = RectilinearChunkGridConfiguration::from_metadata(alloc, metadata)?;
        let array_shape = array_shape.to_vec(alloc)?;
        match RectilinearChunkGrid::new(alloc, array_shape, chunk_shapes_in(&configuration)) {
            Ok(grid) => Ok(grid),
            Err(refusal) => Err(refusal.try_map(|error| {
                Ok(PluginCreateError::Other(error.to_string(alloc)?))
            })),
        }
    }

    fn to_configuration(&self, alloc: Global) -> Result<Configuration, AllocError> {
        let configuration = RectilinearChunkGridConfiguration::Inline {
            chunk_shapes: self.axes.configurations(alloc)?,
        };
        configuration.to_tree(alloc)
    }

    fn edge_lengths(&self, alloc: Global) -> Result<Vec<ChunkEdgeLengths>, AllocError> {
        self.axes.configurations(alloc)
    }
}

/// The edges in each dimension.
fn chunk_shapes_in(configuration: &RectilinearChunkGridConfiguration) -> &[ChunkEdgeLengths]
    ensures { map rectilinear_edges result.now
        ≡ map edges_of_lengths (rectilinear_lengths configuration.now) }
{
    match configuration {
        RectilinearChunkGridConfiguration::Inline { chunk_shapes } => chunk_shapes,
    }
}

/// An array shape and edges of which there is no rectilinear grid, handed back.
#[derive(Debug, Drop)]
pub struct RectilinearChunkGridCreateError(pub ArrayShape, pub Vec<ChunkEdgeLengths>);

impl RectilinearChunkGridCreateError {
    ghost use Rattle.std.specs.List.{AllZip};
    ghost use Rattle.zarrs_chunk_base.specs.RunLength.{IsSameChunkEdgeLengths};

    /// The error about an array shape and a copy of the edges.
    fn new(
        alloc: Global,
        array_shape: ArrayShape,
        chunk_shapes: &[ChunkEdgeLengths],
    ) -> Result<RectilinearChunkGridCreateError, AllocError>
        ensures { IfOk result (λ e. (e.0 ≡ array_shape)
            × AllZip IsSameChunkEdgeLengths e.1.items chunk_shapes.now) }
    {
        Ok(RectilinearChunkGridCreateError(array_shape, chunk_shapes.to_vec(alloc)?))
    }

    /// A copy.
    ///
    /// # Errors
    /// Out of memory.
    pub fn clone(&self) -> Result<RectilinearChunkGridCreateError, AllocError>
        ensures { IfOk result (λ e. (e.0.items ≡ (self.now).0.items)
            × AllZip IsSameChunkEdgeLengths e.1.items (self.now).1.items) }
    {
        RectilinearChunkGridCreateError::new(*self.1.allocator(), self.0.clone()?, &self.1)
    }
}

impl fmt::Display for RectilinearChunkGridCreateError {
    fn fmt<W: fmt::Write>(&self, f: &mut fmt::Formatter<W>) -> fmt::Result {
        write_incompatible(f, "rectilinear", &self.1, &self.0)
    }
}

impl Error for RectilinearChunkGridCreateError {}
