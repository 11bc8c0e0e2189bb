//! What every chunk grid answers.
mod along;
mod boxes;
mod edges;
pub(crate) mod named;
pub(crate) mod over_axes;
pub(crate) mod rectangular;
pub(crate) mod rectilinear;
pub(crate) mod regular;
pub(crate) mod regular_bounded;

ghost use Rattle.std.specs.Prelude.{◌≡◌, ◌≢◌, ◌↔◌, ◌⊎◌, ℕ, ◌-◌, ◌<◌, IfErr, IfOk, IfSome, IsTrue, List, OnErr, length, map, slice_index_or};
ghost use Rattle.std.specs.Int.NonZero.{non_zero_u64_get};
ghost use Rattle.std.specs.List.{AllByRecursion};
ghost use Rattle.zarrs_chunk_base.specs.ArraySubset.{IsEmptyBox};
ghost use Rattle.zarrs_chunk_base.specs.Dimension.{Dimension, IsChain, array_sizes, grid_sizes};
ghost use Rattle.zarrs_chunk_base.specs.Refusal.{OrMemory};
ghost use Rattle.zarrs_chunk_axes.specs.Along.{FindsChunk, FindsRange, IsRegularAlong};
ghost use Rattle.zarrs_chunk_axes.specs.InBounds.{AreBelow, AreInBounds};
ghost use Rattle.zarrs_chunk_axes.specs.LookUp.{AnswersShape, AnswersShapeNumbers, AnswersOrigin, AnswersChunk, AnswersHome, AnswersPlace};
ghost use Rattle.zarrs_chunks.specs.Subsets.{AnswersSubset, AnswersChunksSubset, AnswersCover, AnswersEmptyCover};
ghost use Rattle.zarrs_chunks.specs.Walks.{box_at, boxed, chunks_of};
ghost use Rattle.zarrs_chunks.specs.seen.Walks.{AreBoxesOfGrid, AreChunksOfGrid, boxes_left, chunks_and_boxes_left, chunks_left};

use crate::home::Home;
use crate::walks::chunk_indices::ChunkIndices;
use crate::walks::chunk_indices_and_subsets::ChunkIndicesAndSubsets;
use crate::walks::chunk_subsets::ChunkSubsets;
use along::{answered, number_along};
use boxes::box_up_to;
use edges::edge_numbers;
use std::alloc::{AllocError, Global};
use std::num::NonZeroU64;
use zarrs_chunk_axes::are_in_bounds;
use zarrs_chunk_base::{
    ArrayIndices, ArrayShape, ArraySubset, ChunkShape, Configuration,
    IncompatibleDimensionalityError, MetadataV3, PluginCreateError, Refusal,
};

/// A chunk grid: the chunks into which an array is cut.
///
/// Lists of numbers have one number for each dimension, in the order of the array's shape. Array sizes, indices, origins
/// and edges count elements; chunk numbers count chunks from 0. An array size of 0 is taken as that of an unlimited
/// dimension, as zarrs does: any index is in bounds there, except that along listed edges a chunk has to hold it.
///
/// A look-up refuses a list of another length than the grid has dimensions, and otherwise can answer
/// that it is out of memory; a grid without dimensions needs none, except for the box of a box of chunks and the cover.
///
/// Source: Zarr V3 core, chunk grids; ZEP 3, variable chunks.
pub trait ChunkGridTraits: Sized + Drop {
    /// What the grid's value means: its dimensions.
    ghost dimensions: { Self → List Dimension };

    /// The grid of an array with these sizes, as the configuration in an extension's metadata says. An absent
    /// configuration counts as one without members. A grid of one kind doesn't look at the extension's name.
    ///
    /// # Errors
    /// The first that applies: a grid of several kinds knows no such name (`NameUnsupported`); the configuration isn't of
    /// its form (`ConfigurationUnsupported`); the grid doesn't accept it for this array shape (`Other`). Or there was no
    /// memory.
    fn create(
        alloc: Global,
        metadata: &MetadataV3,
        array_shape: &[u64],
    ) -> Result<Self, Refusal<PluginCreateError>>
        ensures { IfOk result (λ grid. array_sizes (dimensions grid)
            ≡ array_shape.now) };

    /// The configuration of the grid: what the member `configuration` of its metadata is.
    ///
    /// # Errors
    /// Out of memory.
    fn configuration(&self, alloc: Global) -> Result<Configuration, AllocError>;

    /// The number of dimensions.
    fn dimensionality(&self) -> usize
        ensures { result ≡ length (dimensions self.now) };

    /// The sizes of the array, in elements.
    fn array_shape(&self) -> &[u64]
        ensures { result.now ≡ array_sizes (dimensions self.now) };

    /// How many chunks are counted. Every number below is a chunk; a grid may have others.
    fn grid_shape(&self) -> &[u64]
        ensures { result.now ≡ grid_sizes (dimensions self.now) };

    /// The edges of a chunk; `None` where there is no such chunk.
    ///
    /// # Errors
    /// The list has another length than the grid has dimensions; or out of memory.
    fn chunk_shape(
        &self,
        alloc: Global,
        chunk_indices: &[u64],
    ) -> Result<Option<ChunkShape>, Refusal<IncompatibleDimensionalityError>>
        ensures { AnswersShape (dimensions self.now) chunk_indices.now result };

    /// The index of a chunk's first element; `None` where there is no such chunk, or it starts past
    /// 18446744073709551615.
    ///
    /// # Errors
    /// The list has another length than the grid has dimensions; or out of memory.
    fn chunk_origin(
        &self,
        alloc: Global,
        chunk_indices: &[u64],
    ) -> Result<Option<ArrayIndices>, Refusal<IncompatibleDimensionalityError>>
        ensures { AnswersOrigin (dimensions self.now) chunk_indices.now result };

    /// The chunk that holds the element at these indices; `None` where no chunk does.
    ///
    /// # Errors
    /// The list has another length than the grid has dimensions; or out of memory.
    fn chunk_indices(
        &self,
        alloc: Global,
        array_indices: &[u64],
    ) -> Result<Option<ArrayIndices>, Refusal<IncompatibleDimensionalityError>>
        ensures { AnswersChunk (dimensions self.now) array_indices.now result };

    /// The edges of a chunk as plain numbers; `None` where there is no such chunk.
    ///
    /// # Errors
    /// The list has another length than the grid has dimensions; or out of memory.
    fn chunk_shape_u64(
        &self,
        alloc: Global,
        chunk_indices: &[u64],
    ) -> Result<Option<ArrayShape>, Refusal<IncompatibleDimensionalityError>>
        ensures { AnswersShapeNumbers (dimensions self.now) chunk_indices.now result }
    {
        match self.chunk_shape(alloc, chunk_indices)? {
            Some(shape) => Ok(Some(edge_numbers(alloc, &shape)?)),
            None => Ok(None),
        }
    }

    /// The place of the element at these indices in the chunk that holds it, counted from the chunk's
    /// first element; `None` where no chunk holds it.
    ///
    /// # Errors
    /// The list has another length than the grid has dimensions; or out of memory.
    fn chunk_element_indices(
        &self,
        alloc: Global,
        array_indices: &[u64],
    ) -> Result<Option<ArrayIndices>, Refusal<IncompatibleDimensionalityError>>
        ensures { AnswersPlace (dimensions self.now) array_indices.now result }
    {
        let mut home = Home::new(alloc);
        if !self.find_home(array_indices, &mut home)? {
            return Ok(None);
        }
        Ok(Some(home.element))
    }

    /// Finds where the element at these indices lies, and leaves it in `home`: for callers that look many elements up. The grids of
    /// this library use the memory that `home` has; this body gives it new lists. `false` where no chunk holds the element; `home` then
    /// holds anything.
    ///
    /// # Errors
    /// The list has another length than the grid has dimensions; or out of memory. `home` then holds what it held.
    fn find_home(
        &self,
        array_indices: &[u64],
        home: &mut Home,
    ) -> Result<bool, Refusal<IncompatibleDimensionalityError>>
        ensures answers { AnswersHome (dimensions self.now) array_indices.now result
            home.new.chunk.items home.new.element.items }
        ensures unchanged { IfErr result (OrMemory (λ _. home.new ≡ home.old)) }
        ensures chunk_unchanged { OnErr result (home.new.chunk.items ≡ home.old.chunk.items) }
        ensures element_unchanged { OnErr result (home.new.element.items ≡ home.old.element.items) }
    {
        let alloc = *home.chunk.allocator();
        let Some(chunk) = self.chunk_indices(alloc, array_indices)? else {
            return Ok(false);
        };
        let Some(origin) = self.chunk_origin(alloc, &chunk)? else {
            // Never: a chunk that holds an element starts before it.
            return Ok(false);
        };
        home.chunk = chunk;
        home.element = place_from(origin, array_indices);
        Ok(true)
    }

    /// The chunk that holds an index along one dimension, for callers that go through a dimension by itself. The grids of this library
    /// look up one number, in no memory; this body looks up an index that is 0 along the others. `None` only where no element of the array has
    /// the index there.
    ///
    /// # Errors
    /// Out of memory.
    fn chunk_along(
        &self,
        alloc: Global,
        dimension: usize,
        array_index: u64,
    ) -> Result<Option<u64>, AllocError>
        ensures { IfOk result (FindsChunk (dimensions self.now) dimension array_index) }
    {
        if dimension >= self.dimensionality() {
            return Ok(None);
        }
        let indices = number_along(alloc, self.dimensionality(), dimension, array_index)?;
        let found = self.chunk_indices(alloc, &indices);
        match answered(found)? {
            Some(chunk) => Ok(Some(chunk[dimension])),
            None => Ok(None),
        }
    }

    /// Where a chunk starts along one dimension, and how long it is there, in elements. The grids of this library look up one number, in no
    /// memory; this body looks up a chunk that is 0 along the others. `None` only where no chunk that is counted has the number there, or it starts
    /// past 18446744073709551615.
    ///
    /// # Errors
    /// Out of memory.
    fn range_along(
        &self,
        alloc: Global,
        dimension: usize,
        chunk_index: u64,
    ) -> Result<Option<(u64, u64)>, AllocError>
        ensures { IfOk result (FindsRange (dimensions self.now) dimension chunk_index) }
    {
        if dimension >= self.dimensionality() {
            return Ok(None);
        }
        let chunk = number_along(alloc, self.dimensionality(), dimension, chunk_index)?;
        let found = self.chunk_origin(alloc, &chunk);
        let Some(origin) = answered(found)? else {
            return Ok(None);
        };
        let found = self.chunk_shape_u64(alloc, &chunk);
        let Some(shape) = answered(found)? else {
            return Ok(None);
        };
        Ok(Some((origin[dimension], shape[dimension])))
    }

    /// Returns an edge by which an index along one dimension gives its chunk: each element of the array lies in the chunk whose number is the index there
    /// divided by the edge. `None` if the grid doesn't say so, as in this body, and if there is no such dimension.
    fn regular_along(&self, dimension: usize) -> Option<NonZeroU64>
        ensures { IfSome result (λ edge. IsRegularAlong (dimensions self.now) dimension
            (non_zero_u64_get edge)) }
    {
        None
    }

    /// The box of a chunk, in element indices; `None` where there is no such chunk, or it ends past
    /// 18446744073709551615.
    ///
    /// # Errors
    /// The list has another length than the grid has dimensions; or out of memory.
    fn subset(
        &self,
        alloc: Global,
        chunk_indices: &[u64],
    ) -> Result<Option<ArraySubset>, Refusal<IncompatibleDimensionalityError>>
        ensures { AnswersSubset (dimensions self.now) chunk_indices.now result }
    {
        let Some(origin) = self.chunk_origin(alloc, chunk_indices)? else {
            return Ok(None);
        };
        let Some(shape) = self.chunk_shape_u64(alloc, chunk_indices)? else {
            return Ok(None);
        };
        Ok(ArraySubset::new_with_start_shape(origin, shape).ok())
    }

    /// The box of the elements of the chunks in a box of chunk numbers: from where the first of them starts to where the
    /// last one ends. An empty box has the empty box that begins at 0. `None` where the first or the last chunk has no
    /// [`subset`](ChunkGridTraits::subset).
    ///
    /// # Errors
    /// The box has another number of dimensions than the grid; or out of memory.
    fn chunks_subset(
        &self,
        alloc: Global,
        chunks: &ArraySubset,
    ) -> Result<Option<ArraySubset>, Refusal<IncompatibleDimensionalityError>>
        ensures { AnswersChunksSubset (dimensions self.now) chunks.now result }
    {
        if chunks.dimensionality() != self.dimensionality() {
            return Err(Refusal::Refused(IncompatibleDimensionalityError::new(
                chunks.dimensionality(),
                self.dimensionality(),
            )));
        }
        let first = chunks.start();
        let Some(last) = chunks.end_inc(alloc)? else {
            return Ok(Some(ArraySubset::new_empty(alloc, self.dimensionality())?));
        };
        let Some(start) = self.chunk_origin(alloc, first)? else {
            return Ok(None);
        };
        let Some(last_start) = self.chunk_origin(alloc, &last)? else {
            return Ok(None);
        };
        let Some(last_shape) = self.chunk_shape_u64(alloc, &last)? else {
            return Ok(None);
        };
        Ok(box_up_to(start, &last_start, last_shape))
    }

    /// The cover of a box of elements: the box of the numbers of all chunks that hold some of them. An empty box has the
    /// empty cover that begins at 0, whatever its number of dimensions, except in a grid without dimensions. `None` where
    /// the first or the last element lies in no chunk.
    ///
    /// # Errors
    /// The box isn't empty, or the grid has no dimensions, and the two have different numbers of dimensions; or out
    /// of memory.
    fn chunks_in_array_subset(
        &self,
        alloc: Global,
        array_subset: &ArraySubset,
    ) -> Result<Option<ArraySubset>, Refusal<IncompatibleDimensionalityError>>
        ensures empty { IsEmptyBox array_subset.now → length (dimensions self.now) ≢ 0
            → AnswersEmptyCover (dimensions self.now) result }
        ensures answers { (¬ IsEmptyBox array_subset.now) ⊎ (length (dimensions self.now) ≡ 0)
            → AnswersCover (dimensions self.now) array_subset.now result }
    {
        if array_subset.dimensionality() != self.dimensionality() {
            if array_subset.is_empty() && self.dimensionality() > 0 {
                return Ok(Some(ArraySubset::new_empty(alloc, self.dimensionality())?));
            }
            return Err(Refusal::Refused(IncompatibleDimensionalityError::new(
                array_subset.dimensionality(),
                self.dimensionality(),
            )));
        }
        let start = array_subset.start();
        let Some(mut last_element) = array_subset.end_inc(alloc)? else {
            return Ok(Some(ArraySubset::new_empty(alloc, self.dimensionality())?));
        };
        let Some(first) = self.chunk_indices(alloc, start)? else {
            return Ok(None);
        };
        let Some(last) = self.chunk_indices(alloc, &last_element)? else {
            return Ok(None);
        };
        // The last chunk counts as one in each dimension.
        last_element.fill(1);
        Ok(box_up_to(first, &last, last_element))
    }

    /// Whether each chunk number is below the number of chunks that are counted along its dimension, or none are
    /// counted there; `false` for a list of another length.
    fn chunk_indices_inbounds(&self, chunk_indices: &[u64]) -> bool
        ensures { IsTrue result
            ↔ AreInBounds (grid_sizes (dimensions self.now)) chunk_indices.now }
    {
        are_in_bounds(self.grid_shape(), chunk_indices)
    }

    /// Whether each index is below its array size; `false` for a list of another length. Where an array size is 0, a grid
    /// may have bounds of its own, or none.
    fn array_indices_inbounds(&self, array_indices: &[u64]) -> bool
        ensures within { AreBelow (array_sizes (dimensions self.now)) array_indices.now
            → IsTrue result }
        ensures only { IsTrue result
            → AreInBounds (array_sizes (dimensions self.now)) array_indices.now }
    {
        are_in_bounds(self.array_shape(), array_indices)
    }

    /// A walk over the numbers of all chunks that are counted, in row-major order: those of the last dimension change
    /// fastest. It gives nothing where a grid size is 0, and the one item `[]` without dimensions.
    ///
    /// Making the walk takes no memory, and neither does an item of up to four numbers.
    final fn iter_chunk_indices(&self, alloc: Global) -> ChunkIndices<'_>
        ensures { chunks_left result ≡ chunks_of (dimensions self.now) }
    {
        ChunkIndices::new(alloc, self.grid_shape())
    }

    /// A walk over the boxes of these chunks, in the same order. A chunk that ends past 18446744073709551615 is passed over.
    ///
    /// Making the walk takes no memory.
    final fn iter_chunk_subsets(&self, alloc: Global) -> ChunkSubsets<'_, Self>
        ensures over { AreBoxesOfGrid dimensions result }
        ensures left { boxes_left dimensions result ≡ map (box_at (dimensions self.now))
            (boxed (dimensions self.now) (chunks_of (dimensions self.now))) }
    {
        ChunkSubsets::new(alloc, self)
    }

    /// A walk over the numbers of these chunks, each with its box, in the same order. A chunk that ends past
    /// 18446744073709551615 is passed over.
    ///
    /// Making the walk takes no memory.
    final fn iter_chunk_indices_and_subsets(
        &self,
        alloc: Global,
    ) -> ChunkIndicesAndSubsets<'_, Self>
        ensures over { AreChunksOfGrid dimensions result }
        ensures left { chunks_and_boxes_left dimensions result
            ≡ map (λ chunk. (chunk, box_at (dimensions self.now) chunk))
            (boxed (dimensions self.now) (chunks_of (dimensions self.now))) }
    {
        ChunkIndicesAndSubsets::new(alloc, self)
    }

    /// Each dimension is a chain: its chunks lie end to end from 0 and reach over the array.
    ghost chained: { (grid : Self) → AllByRecursion IsChain (dimensions grid) };
}

/// For each dimension how far after the origin the index lies, in the origin's own memory.
fn place_from(mut origin: ArrayIndices, indices: &[u64]) -> ArrayIndices
    requires { length origin.items ≡ length indices.now }
    ensures length { length result.items ≡ length origin.items }
    ensures difference { (k : ℕ) → k < length result.items
        → slice_index_or result.items k 0
        ≡ slice_index_or indices.now k 0 - slice_index_or origin.items k 0 }
{
    for (dimension, index) in indices.iter().enumerate() {
        origin[dimension] = index.saturating_sub(origin[dimension]);
    }
    origin
}
