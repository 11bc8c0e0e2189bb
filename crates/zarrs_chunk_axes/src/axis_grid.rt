//! The dimensions of a grid, and the loops over them that all grids share.
mod along;
mod counted;
mod look_up;

ghost use Rattle.std.specs.Prelude.{◌≡◌, ◌⊎◌, ◌↔◌, ◌≤◌, [], IfErr, IfOk, IsOk, IsTrue, MatchOption, OnErr, cond, length, map};
ghost use Rattle.std.specs.List.{AllByRecursion, AllZip};
ghost use Rattle.std.specs.Vec.{vec_capacity};
ghost use Rattle.zarrs_chunk_base.specs.ArraySubset.{ends, lasts};
ghost use Rattle.zarrs_chunk_base.specs.Greatest.{AllFit};
ghost use Rattle.zarrs_chunk_base.specs.Dimension.{InEach, array_sizes, grid_sizes};
ghost use Rattle.zarrs_chunk_base.specs.Refusal.{Answers, HasMemory, IsRefusedAnd, OrMemory, TellsLengths};
ghost use Rattle.zarrs_chunk_axes.specs.InBounds.{AreBelow, AreInBounds, AreIndicesInBounds, IsIndexInBounds};
ghost use Rattle.zarrs_chunk_axes.specs.LookUp.{AnswersShape, AnswersShapeNumbers, AnswersOrigin, AnswersChunk, AnswersHome, AnswersOverBox, AnswersPlace, AnswersRanges, AreOverBox};
ghost use Rattle.zarrs_chunk_axes.specs.lemmas.LookUpEach.{AreFound, LiesInNone, SomeMisses};

use crate::axis::{Axis, AxisFrom};
use look_up::{ChunkOf, EdgeOf, HomeOf, LookUp, OriginOf, PlaceOf, RangeOf, SizeOf};
use std::alloc::{AllocError, Global};
use zarrs_chunk_base::{
    ArrayIndices, ArrayShape, ArraySubset, ChunkShape, IncompatibleDimensionalityError, Refusal,
};

/// A list of dimensions of one kind.
#[derive(Debug, Drop)]
pub struct AxisGrid<A: Axis> {
    axes: Vec<A>,
    array_shape: ArrayShape,
    grid_shape: ArrayShape,
    ghost array_sizes: { array_shape.items ≡ array_sizes (map A.dimension axes.items) },
    ghost grid_sizes: { grid_shape.items ≡ grid_sizes (map A.dimension axes.items) },
}

impl<A: Axis + Drop> AxisGrid<A> {
    ghost use Rattle.zarrs_chunk_axes.specs.seen.AxisGrid.{dimensions_of, edges_of, grid_of};

    /// The dimensions of these array sizes and configurations, one of each a dimension.
    ///
    /// # Errors
    /// The two lists have different lengths, or there is no such dimension somewhere, and the array sizes are handed
    /// back; or out of memory.
    pub fn new<C>(
        alloc: Global,
        array_shape: ArrayShape,
        configurations: &[C],
    ) -> Result<AxisGrid<A>, Refusal<ArrayShape>>
    where
        A: AxisFrom<C>,
        ensures accepted { IfOk result (λ _. AllZip A.accepted array_shape.items
            (map A.tells configurations.now)) }
        ensures made { IfOk result (λ grid. InEach A.is_made_of
            (dimensions_of grid) array_shape.items (map A.tells configurations.now)) }
        ensures edges { IfOk result (λ grid. edges_of grid ≡ map A.tells configurations.now) }
        ensures sizes { IfOk result (λ grid. array_sizes (dimensions_of grid)
            ≡ array_shape.items) }
        ensures refused { IfErr result (OrMemory
            (λ _. ¬ AllZip A.accepted array_shape.items (map A.tells configurations.now))) }
        ensures handed_back { IfErr result (OrMemory
            (λ shape. shape ≡ array_shape)) }
        ensures refused_first { (¬ AllZip A.accepted array_shape.items
            (map A.tells configurations.now)) → HasMemory result }
    {
        if !are_accepted::<A, C>(&array_shape, configurations) {
            return Err(Refusal::Refused(array_shape));
        }
        let axes = axes_of(alloc, &array_shape, configurations)?;
        let grid_shape = grid_sizes(alloc, &axes)?;
        Ok(AxisGrid {
            axes,
            array_shape,
            grid_shape,
        })
    }

    /// The number of dimensions.
    pub fn dimensionality(&self) -> usize
        ensures { result ≡ length (dimensions_of self.now) }
    {
        self.axes.len()
    }

    /// For each dimension how many elements the array has.
    pub fn array_shape(&self) -> &[u64]
        ensures { result.now ≡ array_sizes (dimensions_of self.now) }
    {
        &self.array_shape
    }

    /// For each dimension how many chunks are counted.
    pub fn grid_shape(&self) -> &[u64]
        ensures { result.now ≡ grid_sizes (dimensions_of self.now) }
    {
        &self.grid_shape
    }

    /// For each dimension how many elements long the chunk is.
    ///
    /// # Errors
    /// The list has another length than there are dimensions; or out of memory.
    pub fn chunk_shape(
        &self,
        alloc: Global,
        chunk: &[u64],
    ) -> Result<Option<ChunkShape>, Refusal<IncompatibleDimensionalityError>>
        ensures { AnswersShape (dimensions_of self.now) chunk.now result }
    {
        self.look_up::<EdgeOf>(alloc, chunk)
    }

    /// The same in plain numbers.
    ///
    /// # Errors
    /// As of [`chunk_shape`](AxisGrid::chunk_shape).
    pub fn chunk_sizes(
        &self,
        alloc: Global,
        chunk: &[u64],
    ) -> Result<Option<ArrayShape>, Refusal<IncompatibleDimensionalityError>>
        ensures { AnswersShapeNumbers (dimensions_of self.now) chunk.now result }
    {
        self.look_up::<SizeOf>(alloc, chunk)
    }

    /// For each dimension where the chunk starts.
    ///
    /// # Errors
    /// The list has another length than there are dimensions; or out of memory.
    #[inline(always)]
    pub fn chunk_origin(
        &self,
        alloc: Global,
        chunk: &[u64],
    ) -> Result<Option<ArrayIndices>, Refusal<IncompatibleDimensionalityError>>
        ensures { AnswersOrigin (dimensions_of self.now) chunk.now result }
    {
        self.look_up::<OriginOf>(alloc, chunk)
    }

    /// For each dimension the chunk that the index lies in.
    ///
    /// # Errors
    /// The list has another length than there are dimensions; or out of memory.
    #[inline(always)]
    pub fn chunk_indices(
        &self,
        alloc: Global,
        indices: &[u64],
    ) -> Result<Option<ArrayIndices>, Refusal<IncompatibleDimensionalityError>>
        ensures { AnswersChunk (dimensions_of self.now) indices.now result }
    {
        self.look_up::<ChunkOf>(alloc, indices)
    }

    /// For each dimension how far after the start of its chunk the index lies.
    ///
    /// # Errors
    /// The list has another length than there are dimensions; or out of memory.
    #[inline(always)]
    pub fn chunk_element_indices(
        &self,
        alloc: Global,
        indices: &[u64],
    ) -> Result<Option<ArrayIndices>, Refusal<IncompatibleDimensionalityError>>
        ensures { AnswersPlace (dimensions_of self.now) indices.now result }
    {
        self.look_up::<PlaceOf>(alloc, indices)
    }

    /// Finds for each dimension the chunk that the index lies in, and how far after the chunk's start it lies, and leaves them in
    /// two lists, whatever these held. `false` where there is no such chunk somewhere; the lists then hold anything.
    ///
    /// # Errors
    /// The list has another length than there are dimensions; or out of memory. The two lists then hold what they held.
    pub fn find_home(
        &self,
        indices: &[u64],
        chunk: &mut ArrayIndices,
        place: &mut ArrayIndices,
    ) -> Result<bool, Refusal<IncompatibleDimensionalityError>>
        ensures answers { AnswersHome (dimensions_of self.now) indices.now result
            chunk.new.items place.new.items }
        ensures unchanged { IfErr result (OrMemory
            (λ _. (chunk.new ≡ chunk.old) × (place.new ≡ place.old))) }
        ensures chunk_unchanged { OnErr result (chunk.new.items ≡ chunk.old.items) }
        ensures place_unchanged { OnErr result (place.new.items ≡ place.old.items) }
    {
        if indices.len() != self.axes.len() {
            return Err(self.other_length(indices));
        }
        // Both have their room before either is cleared.
        chunk.reserve(self.axes.len().saturating_sub(chunk.len()))?;
        place.reserve(self.axes.len().saturating_sub(place.len()))?;
        chunk.clear();
        place.clear();
        Ok(find_each::<A, HomeOf>(&self.axes, indices, chunk, place))
    }

    /// For each dimension where a chunk starts, and how many elements long it is.
    ///
    /// # Errors
    /// The list has another length than there are dimensions; or out of memory.
    pub fn chunk_ranges(
        &self,
        alloc: Global,
        chunk: &[u64],
    ) -> Result<Option<(ArrayIndices, ArrayShape)>, Refusal<IncompatibleDimensionalityError>>
        ensures { AnswersRanges (dimensions_of self.now) chunk.now result }
    {
        if chunk.len() != self.axes.len() {
            return Err(self.other_length(chunk));
        }
        let mut starts = Vec::with_capacity(alloc, self.axes.len())?;
        let mut sizes = Vec::with_capacity(alloc, self.axes.len())?;
        if find_each::<A, RangeOf>(&self.axes, chunk, &mut starts, &mut sizes) {
            Ok(Some((starts, sizes)))
        } else {
            Ok(None)
        }
    }

    /// For each dimension the chunk that holds a box's first index, and how many chunks there are from it to the one that holds the box's last index;
    /// `None` where one of the two lies in no chunk. Where a range of the box is empty, its first number stands for the last.
    ///
    /// # Errors
    /// The box has another number of dimensions; or out of memory.
    pub fn chunks_over(
        &self,
        alloc: Global,
        elements: &ArraySubset,
    ) -> Result<Option<(ArrayIndices, ArrayShape)>, Refusal<IncompatibleDimensionalityError>>
        ensures { AnswersOverBox (dimensions_of self.now) elements.now result }
    {
        let start = elements.start();
        if start.len() != self.axes.len() {
            return Err(self.other_length(start));
        }
        let mut firsts = Vec::with_capacity(alloc, self.axes.len())?;
        let mut counts = Vec::with_capacity(alloc, self.axes.len())?;
        if find_over(
            &self.axes,
            start,
            elements.shape(),
            &mut firsts,
            &mut counts,
        ) {
            Ok(Some((firsts, counts)))
        } else {
            Ok(None)
        }
    }

    /// Whether there is an index for each dimension, and each is in bounds there.
    pub fn are_in_bounds(&self, indices: &[u64]) -> bool
        ensures within { AreBelow (array_sizes (dimensions_of self.now)) indices.now
            → IsTrue result }
        ensures only { IsTrue result
            → AreInBounds (array_sizes (dimensions_of self.now)) indices.now }
        ensures exact { IsTrue result ↔ AreIndicesInBounds (grid_of self.now) indices.now }
    {
        are_in_bounds(&self.axes, indices)
    }

    /// Configurations that tell the edges of the dimensions, in the form in which they are written.
    ///
    /// # Errors
    /// Out of memory.
    pub fn configurations<C>(&self, alloc: Global) -> Result<Vec<C>, AllocError>
    where
        A: AxisFrom<C>,
        C: Drop,
        ensures edges { IfOk result (λ cs. map A.tells cs.items ≡ edges_of self.now) }
        ensures written { IfOk result (λ cs. AllByRecursion A.is_written cs.items) }
    {
        configurations_of(alloc, &self.axes)
    }

    /// A list of the same dimensions, made with the same edges.
    ///
    /// # Errors
    /// Out of memory.
    pub fn clone(&self) -> Result<AxisGrid<A>, AllocError>
        ensures dimensions { IfOk result (λ grid. dimensions_of grid ≡ dimensions_of self.now) }
        ensures edges { IfOk result (λ grid. edges_of grid ≡ edges_of self.now) }
    {
        Ok(AxisGrid {
            axes: clone_each(*self.axes.allocator(), &self.axes)?,
            array_shape: self.array_shape.clone()?,
            grid_shape: self.grid_shape.clone()?,
        })
    }

    /// The refusal of a list that has another length than there are dimensions.
    #[cold]
    fn other_length(&self, numbers: &[u64]) -> Refusal<IncompatibleDimensionalityError>
        ensures { IsRefusedAnd result
            (TellsLengths (length numbers.now) (length self.now.axes.items)) }
    {
        Refusal::Refused(IncompatibleDimensionalityError::new(numbers.len(), self.axes.len()))
    }

    /// Looks each number up in its dimension; `None` where one of the look-ups finds nothing.
    #[inline(always)]
    fn look_up<L: LookUp>(
        &self,
        alloc: Global,
        numbers: &[u64],
    ) -> Result<Option<Vec<L::Found>>, Refusal<IncompatibleDimensionalityError>>
        ensures { Answers (length numbers.now) (length (dimensions_of self.now))
            (λ v. InEach L.finds (dimensions_of self.now) numbers.now v.items)
            (SomeMisses L.misses (dimensions_of self.now) numbers.now) result }
    {
        if numbers.len() != self.axes.len() {
            return Err(self.other_length(numbers));
        }
        Ok(look_up_each::<A, L>(alloc, &self.axes, numbers)?)
    }
}

/// Whether there are as many array sizes as configurations, and in each dimension there is one of them.
fn are_accepted<A: AxisFrom<C>, C>(array_shape: &[u64], configurations: &[C]) -> bool
    ensures { IsTrue result ↔ AllZip A.accepted array_shape.now
        (map A.tells configurations.now) }
{
    if array_shape.len() != configurations.len() {
        return false;
    }
    for (array_size, configuration) in array_shape.iter().zip(configurations) {
        if !A::accepts(*array_size, configuration) {
            return false;
        }
    }
    true
}

/// Looks each number up in its dimension; `None` where one of the look-ups finds nothing.
// With the calls above it is inlined into the grids' look-ups, so that no function is called for each axis.
#[inline(always)]
fn look_up_each<A: Axis, L: LookUp>(
    alloc: Global,
    axes: &[A],
    numbers: &[u64],
) -> Result<Option<Vec<L::Found>>, AllocError>
    requires lengths { length axes.now ≡ length numbers.now }
    ensures found { IfOk result (λ o. MatchOption o
        (SomeMisses L.misses (map A.dimension axes.now) numbers.now)
        (λ v. InEach L.finds (map A.dimension axes.now) numbers.now v.items)) }
    ensures stores_nothing { length axes.now ≡ 0 → IsOk result }
{
    let mut found = Vec::with_capacity(alloc, axes.len())?;
    for (dimension, axis) in axes.iter().enumerate() {
        let Some(value) = L::look_up(axis, numbers[dimension]) else {
            return Ok(None);
        };
        found.push_reserved(value);
    }
    Ok(Some(found))
}

/// Looks each number up in its dimension, where two numbers are found, and puts these into two empty lists that have room for them;
/// `false` where one of the look-ups finds nothing.
fn find_each<A: Axis, L: LookUp<Found = (u64, u64)>>(
    axes: &[A],
    numbers: &[u64],
    firsts: &mut Vec<u64>,
    seconds: &mut Vec<u64>,
) -> bool
    requires lengths { length axes.now ≡ length numbers.now }
    requires empty { firsts.old.items ≡ [] }
    requires also_empty { seconds.old.items ≡ [] }
    requires room { length axes.now ≤ vec_capacity firsts.old }
    requires also_room { length axes.now ≤ vec_capacity seconds.old }
    ensures { cond result
        (AreFound L.finds (map A.dimension axes.now) numbers.now
        firsts.new.items seconds.new.items)
        (SomeMisses L.misses (map A.dimension axes.now) numbers.now) }
{
    for (axis, number) in axes.iter().zip(numbers) {
        let Some((first, second)) = L::look_up(axis, *number) else {
            return false;
        };
        firsts.push_reserved(first);
        seconds.push_reserved(second);
    }
    true
}

/// Finds in each dimension the chunk of a range's first number, and how many chunks there are up to that of its last, and puts these into two empty
/// lists that have room for them; `false` where one of these numbers lies in no chunk.
fn find_over<A: Axis>(
    axes: &[A],
    starts: &[u64],
    sizes: &[u64],
    firsts: &mut Vec<u64>,
    counts: &mut Vec<u64>,
) -> bool
    requires lengths { length axes.now ≡ length starts.now }
    requires sizes { length sizes.now ≡ length starts.now }
    requires fits { AllFit (ends starts.now sizes.now) }
    requires empty { firsts.old.items ≡ [] }
    requires also_empty { counts.old.items ≡ [] }
    requires room { length axes.now ≤ vec_capacity firsts.old }
    requires also_room { length axes.now ≤ vec_capacity counts.old }
    ensures { cond result
        (AreOverBox (map A.dimension axes.now)
        (record { start = starts.now; shape = sizes.now }) firsts.new.items counts.new.items)
        (SomeMisses LiesInNone (map A.dimension axes.now) starts.now
        ⊎ SomeMisses LiesInNone (map A.dimension axes.now) (lasts starts.now sizes.now)) }
{
    for (axis, (start, size)) in axes.iter().zip(starts.iter().zip(sizes)) {
        let Some(first) = axis.chunk_of(*start) else {
            return false;
        };
        // No sum is cut off, since no range ends past u64::MAX.
        let Some(last) = axis.chunk_of(start.saturating_add(size.saturating_sub(1))) else {
            return false;
        };
        firsts.push_reserved(first);
        counts.push_reserved(last.saturating_sub(first).saturating_add(1));
    }
    true
}

/// Whether there are as many indices as axes, and each is in bounds.
fn are_in_bounds<A: Axis>(axes: &[A], indices: &[u64]) -> bool
    ensures { IsTrue result ↔ AllZip (λ index axis. IsIndexInBounds (A.dimension axis)
        index (A.edges axis)) indices.now axes.now }
{
    if indices.len() != axes.len() {
        return false;
    }
    for (index, axis) in indices.iter().zip(axes) {
        if !axis.is_in_bounds(*index) {
            return false;
        }
    }
    true
}

/// For each dimension its axis.
fn axes_of<C, A: AxisFrom<C> + Drop>(
    alloc: Global,
    array_shape: &[u64],
    configurations: &[C],
) -> Result<Vec<A>, AllocError>
    requires { AllZip A.accepted array_shape.now (map A.tells configurations.now) }
    ensures made { IfOk result (λ axes. InEach A.is_made_of (map A.dimension axes.items)
        array_shape.now (map A.tells configurations.now)) }
    ensures edges { IfOk result (λ axes. map A.edges axes.items
        ≡ map A.tells configurations.now) }
{
    let mut axes = Vec::with_capacity(alloc, array_shape.len())?;
    for (array_size, configuration) in array_shape.iter().zip(configurations) {
        axes.push(A::new(alloc, *array_size, configuration)?)?;
    }
    Ok(axes)
}

/// For each dimension how many chunks are counted.
fn grid_sizes<A: Axis>(alloc: Global, axes: &[A]) -> Result<ArrayShape, AllocError>
    ensures { IfOk result (λ v. v.items ≡ grid_sizes (map A.dimension axes.now)) }
{
    let mut sizes = Vec::with_capacity(alloc, axes.len())?;
    for axis in axes {
        sizes.push(axis.grid_size())?;
    }
    Ok(sizes)
}

/// A copy of each dimension.
fn clone_each<A: Axis + Drop>(alloc: Global, axes: &[A]) -> Result<Vec<A>, AllocError>
    ensures dimensions { IfOk result (λ v. map A.dimension v.items ≡ map A.dimension axes.now) }
    ensures edges { IfOk result (λ v. map A.edges v.items ≡ map A.edges axes.now) }
{
    let mut copies = Vec::with_capacity(alloc, axes.len())?;
    for axis in axes {
        copies.push(axis.clone()?)?;
    }
    Ok(copies)
}

/// For each dimension a configuration that tells its edges, in the form in which one is written.
fn configurations_of<C: Drop, A: AxisFrom<C>>(
    alloc: Global,
    axes: &[A],
) -> Result<Vec<C>, AllocError>
    ensures edges { IfOk result (λ cs. map A.tells cs.items ≡ map A.edges axes.now) }
    ensures written { IfOk result (λ cs. AllByRecursion A.is_written cs.items) }
{
    let mut configurations = Vec::with_capacity(alloc, axes.len())?;
    for axis in axes {
        configurations.push(axis.configuration(alloc)?)?;
    }
    Ok(configurations)
}
