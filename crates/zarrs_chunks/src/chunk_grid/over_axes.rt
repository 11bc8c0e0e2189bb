//! The grids that are lists of axes, and what all of them answer.
ghost use Rattle.std.specs.Prelude.{◌≡◌, ◌↔◌, IfOk, IsTrue, MatchResult, map};
ghost use Rattle.std.specs.List.{AllByRecursion};
ghost use Rattle.serde_json.specs.View.{members_view};
ghost use Rattle.zarrs_chunk_base.specs.Dimension.{IsChain, array_sizes};
ghost use Rattle.zarrs_chunk_base.specs.Grid.{Grid};
ghost use Rattle.zarrs_chunk_base.specs.Kinds.{IsConfigurationOf, IsFaultOf, IsMadeOf, IsOf};
ghost use Rattle.zarrs_chunk_base.specs.Metadata.{extension_of};
ghost use Rattle.zarrs_chunk_base.specs.Refusal.{OrMemory};
ghost use Rattle.zarrs_chunk_base.specs.RunLength.{rectilinear_edges};
ghost use Rattle.zarrs_chunk_axes.specs.InBounds.{AreBelow, AreInBounds, AreIndicesInBounds};
ghost use Rattle.zarrs_chunk_axes.specs.seen.AxisGrid.{dimensions_of, edges_of};
ghost use Rattle.zarrs_chunks.specs.GridKinds.{GridKind, IsGridFault, grid_kind};
ghost use Rattle.zarrs_chunks.specs.lemmas.Refused.{IsRefusedBy};

use crate::{ChunkGridTraits, Home};
use std::alloc::{AllocError, Global};
use std::fmt;
use std::fmt::Display;
use std::num::NonZeroU64;
use zarrs_chunk_axes::{Axis, AxisGrid};
use zarrs_chunk_base::{
    ArrayIndices, ArrayShape, ArraySubset, ChunkEdgeLengths, ChunkShape, Configuration, InBrackets,
    IncompatibleDimensionalityError, MetadataV3, PluginCreateError, Refusal,
};

/// A grid of one of this library's kinds: which kind, and what a value of it means.
pub trait GridOfKind {
    /// The kind of grid.
    ghost kind: { GridKind };

    /// The dimensions, and the edges that the grid was made with.
    ghost grid: { Self → Grid };
}

/// A grid that is a list of axes.
pub(crate) trait OverAxes: GridOfKind + Sized + Drop {
    /// The kind of its dimensions.
    type Dimension: Axis + Drop;

    /// Its axes.
    fn axes(&self) -> &AxisGrid<Self::Dimension>
        ensures dimensions { dimensions_of result.now ≡ (Self.grid self.now).dimensions }
        ensures edges { edges_of result.now ≡ (Self.grid self.now).edges };

    /// The grid of an array shape and the configuration in an extension's metadata.
    fn of_metadata(
        alloc: Global,
        metadata: &MetadataV3,
        array_shape: &[u64],
    ) -> Result<Self, Refusal<PluginCreateError>>
        ensures shape { IfOk result (λ grid. array_sizes (Self.grid grid).dimensions
            ≡ array_shape.now) }
        ensures made { MatchResult result
            (λ grid. IsMadeOf (grid_kind Self.kind) (extension_of metadata.now)
            array_shape.now (Self.grid grid))
            (OrMemory (IsFaultOf (grid_kind Self.kind)
            (extension_of metadata.now) array_shape.now)) };

    /// The configuration that tells its edges, in the form in which one is written.
    fn to_configuration(&self, alloc: Global) -> Result<Configuration, AllocError>
        ensures { IfOk result (λ c. IsConfigurationOf (grid_kind Self.kind)
            (array_sizes (Self.grid self.now).dimensions) (Self.grid self.now)
            (members_view c.entries)) };

    /// The edges in each dimension, as a `rectilinear` grid has them.
    fn edge_lengths(&self, alloc: Global) -> Result<Vec<ChunkEdgeLengths>, AllocError>
        ensures { IfOk result (λ lengths. map rectilinear_edges lengths.items
            ≡ (Self.grid self.now).edges) };

    /// Each of its dimensions is a chain.
    ghost axes_chained: { (grid : Self) → AllByRecursion IsChain (Self.grid grid).dimensions };
}

impl<G: OverAxes> ChunkGridTraits for G {
    ghost dimensions = { λ grid. (G.grid grid).dimensions };

    ghost chained = { λ grid. G.axes_chained grid };

    fn create(
        alloc: Global,
        metadata: &MetadataV3,
        array_shape: &[u64],
    ) -> Result<G, Refusal<PluginCreateError>>
        ensures shape { IfOk result (λ grid. array_sizes (G.grid grid).dimensions
            ≡ array_shape.now) }
        ensures made { MatchResult result
            (λ grid. IsMadeOf (grid_kind G.kind) (extension_of metadata.now)
            array_shape.now (G.grid grid))
            (OrMemory (IsFaultOf (grid_kind G.kind)
            (extension_of metadata.now) array_shape.now)) }
    {
        G::of_metadata(alloc, metadata, array_shape)
    }

    fn configuration(&self, alloc: Global) -> Result<Configuration, AllocError>
        ensures { IfOk result (λ c. IsConfigurationOf (grid_kind G.kind)
            (array_sizes (G.grid self.now).dimensions) (G.grid self.now)
            (members_view c.entries)) }
    {
        self.to_configuration(alloc)
    }

    fn dimensionality(&self) -> usize {
        self.axes().dimensionality()
    }

    fn array_shape(&self) -> &[u64] {
        self.axes().array_shape()
    }

    fn grid_shape(&self) -> &[u64] {
        self.axes().grid_shape()
    }

    fn chunk_shape(
        &self,
        alloc: Global,
        chunk_indices: &[u64],
    ) -> Result<Option<ChunkShape>, Refusal<IncompatibleDimensionalityError>> {
        self.axes().chunk_shape(alloc, chunk_indices)
    }

    fn chunk_shape_u64(
        &self,
        alloc: Global,
        chunk_indices: &[u64],
    ) -> Result<Option<ArrayShape>, Refusal<IncompatibleDimensionalityError>> {
        self.axes().chunk_sizes(alloc, chunk_indices)
    }

    // The look-ups that a grid is asked most often are inlined where the kind of grid is known.
    #[inline(always)]
    fn chunk_origin(
        &self,
        alloc: Global,
        chunk_indices: &[u64],
    ) -> Result<Option<ArrayIndices>, Refusal<IncompatibleDimensionalityError>> {
        self.axes().chunk_origin(alloc, chunk_indices)
    }

    #[inline(always)]
    fn chunk_indices(
        &self,
        alloc: Global,
        array_indices: &[u64],
    ) -> Result<Option<ArrayIndices>, Refusal<IncompatibleDimensionalityError>> {
        self.axes().chunk_indices(alloc, array_indices)
    }

    #[inline(always)]
    fn chunk_element_indices(
        &self,
        alloc: Global,
        array_indices: &[u64],
    ) -> Result<Option<ArrayIndices>, Refusal<IncompatibleDimensionalityError>> {
        self.axes().chunk_element_indices(alloc, array_indices)
    }

    fn find_home(
        &self,
        array_indices: &[u64],
        home: &mut Home,
    ) -> Result<bool, Refusal<IncompatibleDimensionalityError>> {
        self.axes()
            .find_home(array_indices, &mut home.chunk, &mut home.element)
    }

    fn chunk_along(
        &self,
        _alloc: Global,
        dimension: usize,
        array_index: u64,
    ) -> Result<Option<u64>, AllocError> {
        Ok(self.axes().chunk_along(dimension, array_index))
    }

    fn range_along(
        &self,
        _alloc: Global,
        dimension: usize,
        chunk_index: u64,
    ) -> Result<Option<(u64, u64)>, AllocError> {
        Ok(self.axes().range_along(dimension, chunk_index))
    }

    fn regular_along(&self, dimension: usize) -> Option<NonZeroU64> {
        self.axes().regular_along(dimension)
    }

    fn subset(
        &self,
        alloc: Global,
        chunk_indices: &[u64],
    ) -> Result<Option<ArraySubset>, Refusal<IncompatibleDimensionalityError>> {
        let Some((start, shape)) = self.axes().chunk_ranges(alloc, chunk_indices)? else {
            return Ok(None);
        };
        Ok(ArraySubset::new_with_start_shape(start, shape).ok())
    }

    fn chunks_in_array_subset(
        &self,
        alloc: Global,
        array_subset: &ArraySubset,
    ) -> Result<Option<ArraySubset>, Refusal<IncompatibleDimensionalityError>> {
        array_subset.is_a_box();
        if array_subset.is_empty() && self.dimensionality() > 0 {
            return Ok(Some(ArraySubset::new_empty(alloc, self.dimensionality())?));
        }
        let Some((first, counts)) = self.axes().chunks_over(alloc, array_subset)? else {
            return Ok(None);
        };
        Ok(ArraySubset::new_with_start_shape(first, counts).ok())
    }

    fn array_indices_inbounds(&self, array_indices: &[u64]) -> bool
        ensures within { AreBelow (array_sizes (G.grid self.now).dimensions) array_indices.now
            → IsTrue result }
        ensures only { IsTrue result
            → AreInBounds (array_sizes (G.grid self.now).dimensions) array_indices.now }
        ensures exact { IsTrue result
            ↔ AreIndicesInBounds (G.grid self.now) array_indices.now }
    {
        self.axes().are_in_bounds(array_indices)
    }
}

/// The grid of a kind that has the extension's name, of an array with these sizes.
///
/// # Errors
/// The first that applies: the configuration isn't of the kind's form; the grid doesn't accept it for this array shape. Or out of
/// memory.
pub(super) fn create_named<G: OverAxes>(
    alloc: Global,
    metadata: &MetadataV3,
    array_shape: &[u64],
) -> Result<G, Refusal<PluginCreateError>>
    requires { (extension_of metadata.now).name ≡ (grid_kind G.kind).name }
    ensures shape { IfOk result (λ grid. array_sizes (G.grid grid).dimensions ≡ array_shape.now) }
    ensures made { MatchResult result
        (λ grid. IsOf (grid_kind G.kind) (extension_of metadata.now) array_shape.now (G.grid grid))
        (OrMemory (IsGridFault (extension_of metadata.now) array_shape.now)) }
{
    G::of_metadata(alloc, metadata, array_shape)
}

/// The configuration of a grid, for one that holds it: of its kind, and with the same meaning.
///
/// # Errors
/// Out of memory.
pub(super) fn configuration_inside<G: OverAxes>(
    alloc: Global,
    grid: &G,
) -> Result<Configuration, AllocError>
    ensures { (kind : GridKind) (same : Grid) → kind ≡ G.kind → same ≡ G.grid grid.now
        → IfOk result (λ c. IsConfigurationOf (grid_kind kind) (array_sizes same.dimensions) same
        (members_view c.entries)) }
{
    grid.to_configuration(alloc)
}

/// The refusal that says what a text says.
pub(super) fn other(alloc: Global, text: &str) -> Result<PluginCreateError, AllocError>
    ensures { IfOk result (IsRefusedBy (λ bytes. bytes ≡ text.now) (Unit {0})) }
{
    Ok(PluginCreateError::Other(String::from_str(alloc, text)?))
}

/// Prints why there is no grid of this kind with these edges.
pub(super) fn write_incompatible<W: fmt::Write, C: Display>(
    f: &mut fmt::Formatter<W>,
    kind: &str,
    edges: &[C],
    array_shape: &ArrayShape,
) -> fmt::Result {
    let edges = InBrackets(edges);
    write!(
        f,
        "{kind} chunk grid configuration: {edges} not compatible with array shape {array_shape:?}"
    )
}
