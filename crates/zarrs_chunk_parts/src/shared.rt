//! The elements that a chunk and a box share, counted from either.
ghost use Rattle.std.specs.Prelude.{◌≡◌, ◌↔◌, ◌+◌, ◌-◌, IfOk, IsTrue, Ok, Some, length, max, min};
ghost use Rattle.zarrs_chunk_base.specs.ArraySubset.{IsBox};
ghost use Rattle.zarrs_chunk_base.specs.Dimension.{IsShape};
ghost use Rattle.zarrs_chunk_base.specs.Greatest.{greatest};
ghost use Rattle.zarrs_chunk_parts.specs.Plan.{AreShared, HasAllOf, Meets};
ghost use Rattle.zarrs_chunk_parts.specs.seen.Shared.{HoldSome, HoldsRest, Reaches, distances, shared_sizes};

use crate::part::ChunkShapeTinyVec;
use smallvec::SmallVec;
use std::alloc::{AllocError, Global};
use zarrs_chunk_base::{
    ArrayIndices, ArrayShape, ArraySubset, IncompatibleDimensionalityError, Refusal,
};
use zarrs_chunks::ChunkGridTraits;

/// What a chunk shares with a box of elements.
#[derive(Drop)]
pub struct Shared {
    /// The chunk's edges.
    pub shape: ChunkShapeTinyVec,
    /// The shared elements, counted from the chunk's first element.
    pub in_chunk: ArraySubset,
    /// The same, counted from the first element of the box.
    pub in_selection: ArraySubset,
    /// Whether the box has all elements of the array that the chunk holds.
    pub whole: bool,
}

/// The elements that a chunk shares with a box of elements, if it holds some of them. The chunk may end past 18446744073709551615; what the two
/// share doesn't.
///
/// # Errors
/// Out of memory.
pub fn shared_elements<G: ChunkGridTraits>(
    alloc: Global,
    grid: &G,
    array_subset: &ArraySubset,
    chunk: &[u64],
) -> Result<Shared, AllocError>
    ensures boxes { Meets (G.dimensions grid.now) array_subset.now chunk.now
        → IfOk result (λ shared. AreShared (G.dimensions grid.now) array_subset.now
        chunk.now shared.in_chunk shared.in_selection) }
    ensures shape { IfOk result (λ shared. IsShape (G.dimensions grid.now) chunk.now
        shared.shape.items) }
    ensures whole { Meets (G.dimensions grid.now) array_subset.now chunk.now
        → IfOk result (λ shared. IsTrue shared.whole
        ↔ HasAllOf (G.dimensions grid.now) array_subset.now chunk.now) }
{
    let start = array_subset.start();
    let origin = found_or_out_of_memory(grid.chunk_origin(alloc, chunk))?;
    let edges = found_or_out_of_memory(grid.chunk_shape_u64(alloc, chunk))?;
    if start.len() != origin.len() {
        // Never: a chunk that holds an element of the box has a number for each of its dimensions.
        return Err(AllocError);
    }
    let shape = SmallVec::from_slice(alloc, &edges)?;
    let whole = has_all(array_subset, &origin, &edges, grid.array_shape());
    // From here on the lists of the chunk's origin and edges become those of the part.
    let sizes = sizes_shared(&origin, edges, array_subset);
    let from_start = distance(Vec::from_slice(alloc, start)?, &origin);
    let in_selection = made_box(from_start, Vec::from_slice(alloc, &sizes)?)?;
    let in_chunk = made_box(distance(origin, start), sizes)?;
    Ok(Shared {
        shape,
        in_chunk,
        in_selection,
        whole,
    })
}

/// What a look-up for something that is there finds. If it finds nothing, memory ran out.
///
/// # Errors
/// Out of memory.
pub fn found_or_out_of_memory<T: Drop>(
    answer: Result<Option<T>, Refusal<IncompatibleDimensionalityError>>,
) -> Result<T, AllocError>
    ensures { IfOk result (λ value. answer ≡ Ok (Some value)) }
{
    match answer {
        Ok(Some(value)) => Ok(value),
        Ok(None) | Err(_) => Err(AllocError),
    }
}

/// For each dimension how far after the one index the other lies, in the one list's own memory; 0 where it lies before.
pub fn distance(mut from: ArrayIndices, to: &[u64]) -> ArrayIndices
    requires { length from.items ≡ length to.now }
    ensures { result.items ≡ distances from.items to.now }
{
    for (dimension, last) in to.iter().enumerate() {
        from[dimension] = last.saturating_sub(from[dimension]);
    }
    from
}

/// For each dimension how many indices two ranges share: one from a start on, of so many indices, and that of a box. They are given in the memory
/// of the first range's sizes.
pub fn sizes_shared(start: &[u64], mut sizes: ArrayShape, other: &ArraySubset) -> ArrayShape
    requires sizes { length sizes.items ≡ length start.now }
    requires other { length other.now.start ≡ length start.now }
    ensures { result.items ≡ shared_sizes start.now sizes.items other.now.start other.now.shape }
{
    let (starts, also) = (other.start(), other.shape());
    for (dimension, first) in start.iter().enumerate() {
        sizes[dimension] = size_shared(
            *first,
            sizes[dimension],
            starts[dimension],
            also[dimension],
        );
    }
    sizes
}

/// How many indices two ranges share, which are given by their first index and how many they hold. An index past
/// 18446744073709551615 doesn't count.
fn size_shared(first: u64, size: u64, start: u64, other: u64) -> u64
    ensures { result ≡ min (first + size) (min (start + other) greatest) - max first start }
{
    let end = first.saturating_add(size).min(start.saturating_add(other));
    end.saturating_sub(first.max(start))
}

/// Whether a box of elements has all elements of an array that a chunk holds, which begins at an origin and has these edges.
fn has_all(array_subset: &ArraySubset, origin: &[u64], edges: &[u64], array_shape: &[u64]) -> bool
    ensures { length array_subset.now.start ≡ length origin.now
        → length edges.now ≡ length origin.now → length array_shape.now ≡ length origin.now
        → IsTrue result ↔ HoldsRest array_subset.now origin.now edges.now array_shape.now }
{
    if !holds_some(origin, edges, array_shape) {
        return true;
    }
    let chunk = origin.iter().zip(edges).zip(array_shape);
    let mut ranges = chunk.zip(array_subset.start().iter().zip(array_subset.shape()));
    ranges.all(|(((first, edge), size), (start, count))| {
        reaches_from(*first, size_held(*first, *edge, *size), *start, *count)
    })
}

/// Whether a chunk, which begins at an origin and has these edges, holds some element of an array.
fn holds_some(origin: &[u64], edges: &[u64], array_shape: &[u64]) -> bool
    ensures { IsTrue result ↔ HoldSome origin.now edges.now array_shape.now }
{
    let mut ranges = origin.iter().zip(edges).zip(array_shape);
    ranges.all(|((first, edge), size)| size_held(*first, *edge, *size) > 0)
}

/// How many indices of a range, which is given by its first one and how many it holds, are below a size.
fn size_held(first: u64, edge: u64, size: u64) -> u64
    ensures { result ≡ min edge (size - first) }
{
    edge.min(size.saturating_sub(first))
}

/// Whether so many indices from a first one on lie in a range, which is given by its start and how many it holds; some are asked for.
fn reaches_from(first: u64, held: u64, start: u64, count: u64) -> bool
    ensures { IsTrue result ↔ Reaches first held start count }
{
    start <= first && held <= count.saturating_sub(first - start)
}

/// The box of a start and a shape that make one, as those of elements that are there do.
///
/// # Errors
/// They make none.
pub fn made_box(start: ArrayIndices, shape: ArrayShape) -> Result<ArraySubset, AllocError>
    ensures value { IfOk result (λ b. b ≡ record { start = start.items; shape = shape.items }) }
    ensures is_box { IfOk result IsBox }
{
    ArraySubset::new_with_start_shape(start, shape).map_err(|_| AllocError)
}

/// The box of a start and a shape that make one.
pub fn box_of(start: ArrayIndices, shape: ArrayShape) -> ArraySubset
    requires { IsBox (record { start = start.items; shape = shape.items }) }
    ensures { result ≡ record { start = start.items; shape = shape.items } }
{
    match ArraySubset::new_with_start_shape(start, shape) {
        Ok(subset) => subset,
        Err(_) => unreachable!(),
    }
}
