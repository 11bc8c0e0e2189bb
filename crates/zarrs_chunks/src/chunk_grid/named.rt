//! A chunk grid of any of the kinds, chosen by its extension's name.
//!
//! | Name | Grid |
//! |---|---|
//! | `regular` | [`RegularChunkGrid`] |
//! | `zarrs.regular_bounded` | [`RegularBoundedChunkGrid`] |
//! | `rectangular` | [`RectangularChunkGrid`] |
//! | `rectilinear` | [`RectilinearChunkGrid`] |
//!
//! Unlike zarrs, no grid registers itself, no name has an alias, and no name is warned of: a grid of another crate is passed to
//! functions over [`ChunkGridTraits`] as it is.
ghost use Rattle.std.specs.Prelude.{◌≡◌, ◌↔◌, Contains, IfOk, IsErrAnd, IsTrue, MatchResult, map};
ghost use Rattle.serde_json.specs.View.{members_view, view};
ghost use Rattle.zarrs_chunk_base.specs.Dimension.{array_sizes};
ghost use Rattle.zarrs_chunk_base.specs.Kinds.{IsConfigurationOf, IsMetadata, IsOf, names};
ghost use Rattle.zarrs_chunk_base.specs.Metadata.{extension_of};
ghost use Rattle.zarrs_chunk_base.specs.Refusal.{OrMemory};
ghost use Rattle.zarrs_chunk_base.specs.RunLength.{rectilinear_edges};
ghost use Rattle.zarrs_chunk_axes.specs.InBounds.{AreBelow, AreInBounds, AreIndicesInBounds};
ghost use Rattle.zarrs_chunks.specs.GridKinds.{IsGridFault, IsGridIn, IsNoGridIn, grid_kind, grid_kinds};
ghost use Rattle.zarrs_chunks.specs.declared.chunk_grid.named.ChunkGrid.TheVariants.{Rectangular, Rectilinear, Regular, RegularBounded};
ghost use Rattle.zarrs_chunks.specs.seen.Grids.{chained_in, grid_in, kind_in};

use super::over_axes::{OverAxes, configuration_inside, create_named};
use super::rectangular::RectangularChunkGrid;
use super::rectilinear::RectilinearChunkGrid;
use super::regular::RegularChunkGrid;
use super::regular_bounded::RegularBoundedChunkGrid;
use crate::{ChunkGridTraits, Home};
use serde_json::Value;
use std::alloc::{AllocError, Global};
use std::num::NonZeroU64;
use zarrs_chunk_base::{
    ArrayIndices, ArrayShape, ArraySubset, ChunkEdgeLengths, ChunkShape, Configuration,
    ExtensionError, IncompatibleDimensionalityError, MetadataV3, PluginCreateError, Refusal,
};

const REGULAR: &str = "regular";

const REGULAR_BOUNDED: &str = "zarrs.regular_bounded";

const RECTANGULAR: &str = "rectangular";

const RECTILINEAR: &str = "rectilinear";

/// A chunk grid of any of the library's kinds. It answers every call as the grid inside it.
///
/// Sources: Zarr V3 core, chunk grids; ZEP 3, variable chunks; zarr-extensions.
#[derive(Debug, Drop)]
pub enum ChunkGrid {
    /// The extension `regular`.
    Regular(RegularChunkGrid),
    /// The extension `zarrs.regular_bounded`.
    RegularBounded(RegularBoundedChunkGrid),
    /// The extension `rectangular`.
    Rectangular(RectangularChunkGrid),
    /// The extension `rectilinear`.
    Rectilinear(RectilinearChunkGrid),
}

/// What the grid inside answers.
macro_rules! inside {
    ($any:expr, $grid:ident => $answer:expr) => {
        match $any {
            ChunkGrid::Regular($grid) => $answer,
            ChunkGrid::RegularBounded($grid) => $answer,
            ChunkGrid::Rectangular($grid) => $answer,
            ChunkGrid::Rectilinear($grid) => $answer,
        }
    };
}

impl ChunkGrid {
    /// The grid that an extension's metadata stands for, of an array with these sizes. An absent configuration counts as
    /// one without members.
    ///
    /// # Errors
    /// The first that applies: the name is none of a chunk grid; the configuration isn't of the form of its kind; the
    /// grid doesn't accept it for this array shape. Or out of memory.
    pub fn from_metadata(
        alloc: Global,
        metadata: &MetadataV3,
        array_shape: &[u64],
    ) -> Result<ChunkGrid, Refusal<PluginCreateError>>
        ensures shape { IfOk result (λ grid. array_sizes (grid_in grid).dimensions
            ≡ array_shape.now) }
        ensures made { MatchResult result
            (λ grid. IsOf (grid_kind (kind_in grid)) (extension_of metadata.now)
            array_shape.now (grid_in grid))
            (OrMemory
            (IsGridFault (extension_of metadata.now) array_shape.now)) }
    {
        match metadata.name() {
            REGULAR => Ok(ChunkGrid::Regular(create_named(alloc, metadata, array_shape)?)),
            REGULAR_BOUNDED => Ok(ChunkGrid::RegularBounded(create_named(
                alloc,
                metadata,
                array_shape,
            )?)),
            RECTANGULAR => Ok(ChunkGrid::Rectangular(create_named(alloc, metadata, array_shape)?)),
            RECTILINEAR => Ok(ChunkGrid::Rectilinear(create_named(alloc, metadata, array_shape)?)),
            _ => refuse_name(alloc, metadata, array_shape),
        }
    }

    /// The grid that a tree of JSON is the metadata of, of an array with these sizes.
    ///
    /// # Errors
    /// The first that applies: the tree is no extension's metadata; the grid can't be made, as [`from_metadata`](Self::from_metadata) says. Or
    /// out of memory.
    pub fn from_tree(
        alloc: Global,
        tree: &Value,
        array_shape: &[u64],
    ) -> Result<ChunkGrid, Refusal<ExtensionError>>
        ensures shape { IfOk result (λ grid. array_sizes (grid_in grid).dimensions
            ≡ array_shape.now) }
        ensures made { MatchResult result
            (λ grid. IsGridIn (view tree.now) array_shape.now (kind_in grid) (grid_in grid))
            (OrMemory (IsNoGridIn (view tree.now) array_shape.now)) }
    {
        let metadata = MetadataV3::from_tree(alloc, tree)?;
        Ok(ChunkGrid::from_metadata(alloc, &metadata, array_shape)?)
    }

    /// The metadata of the grid: its extension's name, and its configuration.
    ///
    /// # Errors
    /// Out of memory.
    pub fn metadata(&self, alloc: Global) -> Result<MetadataV3, AllocError>
        ensures { IfOk result (λ metadata. IsMetadata (grid_kind (kind_in self.now))
            (array_sizes (grid_in self.now).dimensions) (grid_in self.now)
            (extension_of metadata)) }
    {
        let name = String::from_str(alloc, self.name())?;
        let configuration = self.configuration(alloc)?;
        Ok(MetadataV3::new(name, Some(configuration)))
    }

    /// The edges in each dimension, as a `rectilinear` grid has them: one edge for all chunks, or the edges of all chunks as run-length elements.
    /// Of a `zarrs.regular_bounded` grid they are those of chunks that end within the array.
    ///
    /// # Errors
    /// Out of memory.
    pub fn edge_lengths(&self, alloc: Global) -> Result<Vec<ChunkEdgeLengths>, AllocError>
        ensures { IfOk result (λ lengths. map rectilinear_edges lengths.items
            ≡ (grid_in self.now).edges) }
    {
        inside!(self, grid => grid.edge_lengths(alloc))
    }

    /// A copy.
    ///
    /// # Errors
    /// Out of memory.
    pub fn clone(&self) -> Result<ChunkGrid, AllocError>
        ensures kind { IfOk result (λ grid. kind_in grid ≡ kind_in self.now) }
        ensures dimensions { IfOk result (λ grid. (grid_in grid).dimensions
            ≡ (grid_in self.now).dimensions) }
        ensures edges { IfOk result (λ grid. (grid_in grid).edges ≡ (grid_in self.now).edges) }
    {
        Ok(match self {
            ChunkGrid::Regular(grid) => ChunkGrid::Regular(grid.clone()?),
            ChunkGrid::RegularBounded(grid) => ChunkGrid::RegularBounded(grid.clone()?),
            ChunkGrid::Rectangular(grid) => ChunkGrid::Rectangular(grid.clone()?),
            ChunkGrid::Rectilinear(grid) => ChunkGrid::Rectilinear(grid.clone()?),
        })
    }

    /// The extension's name.
    fn name(&self) -> &'static str
        ensures { result.now ≡ (grid_kind (kind_in self.now)).name }
    {
        match self {
            ChunkGrid::Regular(_) => REGULAR,
            ChunkGrid::RegularBounded(_) => REGULAR_BOUNDED,
            ChunkGrid::Rectangular(_) => RECTANGULAR,
            ChunkGrid::Rectilinear(_) => RECTILINEAR,
        }
    }
}

/// The refusal of a name that no kind has, whatever the array's sizes.
fn refuse_name(
    alloc: Global,
    metadata: &MetadataV3,
    array_shape: &[u64],
) -> Result<ChunkGrid, Refusal<PluginCreateError>>
    requires { ¬ Contains (names grid_kind grid_kinds) (extension_of metadata.now).name }
    ensures { IsErrAnd result (OrMemory
        (IsGridFault (extension_of metadata.now) array_shape.now)) }
{
    let name = String::from_str(alloc, metadata.name())?;
    Err(Refusal::Refused(PluginCreateError::NameUnsupported(name)))
}

impl ChunkGridTraits for ChunkGrid {
    ghost dimensions = { λ grid. (grid_in grid).dimensions };

    ghost chained = { chained_in };

    fn create(
        alloc: Global,
        metadata: &MetadataV3,
        array_shape: &[u64],
    ) -> Result<ChunkGrid, Refusal<PluginCreateError>>
        ensures shape { IfOk result (λ grid. array_sizes (grid_in grid).dimensions
            ≡ array_shape.now) }
        ensures made { MatchResult result
            (λ grid. IsOf (grid_kind (kind_in grid)) (extension_of metadata.now)
            array_shape.now (grid_in grid))
            (OrMemory
            (IsGridFault (extension_of metadata.now) array_shape.now)) }
    {
        ChunkGrid::from_metadata(alloc, metadata, array_shape)
    }

    fn configuration(&self, alloc: Global) -> Result<Configuration, AllocError>
        ensures { IfOk result (λ c. IsConfigurationOf (grid_kind (kind_in self.now))
            (array_sizes (grid_in self.now).dimensions) (grid_in self.now)
            (members_view c.entries)) }
    {
        inside!(self, grid => configuration_inside(alloc, grid))
    }

    fn dimensionality(&self) -> usize {
        inside!(self, grid => grid.dimensionality())
    }

    fn array_shape(&self) -> &[u64] {
        inside!(self, grid => grid.array_shape())
    }

    fn grid_shape(&self) -> &[u64] {
        inside!(self, grid => grid.grid_shape())
    }

    fn chunk_shape(
        &self,
        alloc: Global,
        chunk_indices: &[u64],
    ) -> Result<Option<ChunkShape>, Refusal<IncompatibleDimensionalityError>> {
        inside!(self, grid => ChunkGridTraits::chunk_shape(grid, alloc, chunk_indices))
    }

    fn chunk_shape_u64(
        &self,
        alloc: Global,
        chunk_indices: &[u64],
    ) -> Result<Option<ArrayShape>, Refusal<IncompatibleDimensionalityError>> {
        inside!(self, grid => ChunkGridTraits::chunk_shape_u64(grid, alloc, chunk_indices))
    }

    // As in the grids inside, the look-ups that a grid is asked most often are inlined.
    #[inline(always)]
    fn chunk_origin(
        &self,
        alloc: Global,
        chunk_indices: &[u64],
    ) -> Result<Option<ArrayIndices>, Refusal<IncompatibleDimensionalityError>> {
        inside!(self, grid => grid.chunk_origin(alloc, chunk_indices))
    }

    #[inline(always)]
    fn chunk_indices(
        &self,
        alloc: Global,
        array_indices: &[u64],
    ) -> Result<Option<ArrayIndices>, Refusal<IncompatibleDimensionalityError>> {
        inside!(self, grid => grid.chunk_indices(alloc, array_indices))
    }

    #[inline(always)]
    fn chunk_element_indices(
        &self,
        alloc: Global,
        array_indices: &[u64],
    ) -> Result<Option<ArrayIndices>, Refusal<IncompatibleDimensionalityError>> {
        inside!(self, grid => grid.chunk_element_indices(alloc, array_indices))
    }

    fn find_home(
        &self,
        array_indices: &[u64],
        home: &mut Home,
    ) -> Result<bool, Refusal<IncompatibleDimensionalityError>> {
        inside!(self, grid => grid.find_home(array_indices, home))
    }

    fn chunk_along(
        &self,
        alloc: Global,
        dimension: usize,
        array_index: u64,
    ) -> Result<Option<u64>, AllocError> {
        inside!(self, grid => grid.chunk_along(alloc, dimension, array_index))
    }

    fn range_along(
        &self,
        alloc: Global,
        dimension: usize,
        chunk_index: u64,
    ) -> Result<Option<(u64, u64)>, AllocError> {
        inside!(self, grid => grid.range_along(alloc, dimension, chunk_index))
    }

    fn regular_along(&self, dimension: usize) -> Option<NonZeroU64> {
        inside!(self, grid => grid.regular_along(dimension))
    }

    fn subset(
        &self,
        alloc: Global,
        chunk_indices: &[u64],
    ) -> Result<Option<ArraySubset>, Refusal<IncompatibleDimensionalityError>> {
        inside!(self, grid => grid.subset(alloc, chunk_indices))
    }

    fn chunks_in_array_subset(
        &self,
        alloc: Global,
        array_subset: &ArraySubset,
    ) -> Result<Option<ArraySubset>, Refusal<IncompatibleDimensionalityError>> {
        inside!(self, grid => grid.chunks_in_array_subset(alloc, array_subset))
    }

    fn array_indices_inbounds(&self, array_indices: &[u64]) -> bool
        ensures within { AreBelow (array_sizes (grid_in self.now).dimensions) array_indices.now
            → IsTrue result }
        ensures only { IsTrue result
            → AreInBounds (array_sizes (grid_in self.now).dimensions) array_indices.now }
        ensures exact { IsTrue result ↔ AreIndicesInBounds (grid_in self.now) array_indices.now }
    {
        inside!(self, grid => grid.array_indices_inbounds(array_indices))
    }
}

impl From<RegularChunkGrid> for ChunkGrid {
    ghost from_gives = { λ grid any. any ≡ Regular grid };

    fn from(grid: RegularChunkGrid) -> ChunkGrid {
        ChunkGrid::Regular(grid)
    }
}

impl From<RegularBoundedChunkGrid> for ChunkGrid {
    ghost from_gives = { λ grid any. any ≡ RegularBounded grid };

    fn from(grid: RegularBoundedChunkGrid) -> ChunkGrid {
        ChunkGrid::RegularBounded(grid)
    }
}

impl From<RectangularChunkGrid> for ChunkGrid {
    ghost from_gives = { λ grid any. any ≡ Rectangular grid };

    fn from(grid: RectangularChunkGrid) -> ChunkGrid {
        ChunkGrid::Rectangular(grid)
    }
}

impl From<RectilinearChunkGrid> for ChunkGrid {
    ghost from_gives = { λ grid any. any ≡ Rectilinear grid };

    fn from(grid: RectilinearChunkGrid) -> ChunkGrid {
        ChunkGrid::Rectilinear(grid)
    }
}
