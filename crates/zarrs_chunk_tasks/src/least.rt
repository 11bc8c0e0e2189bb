//! What the tasks of a copy cost at least.
ghost use Rattle.std.specs.Prelude.{◌≡◌, ◌+◌, ◌-◌, ◌<◌, ◌≤◌, ◌++◌, [], ◌∷◌, ℕ, IfNone, IfOk, IfSome, List};
ghost use Rattle.zarrs_chunk_axes.specs.Along.{Along};
ghost use Rattle.zarrs_chunk_base.specs.ArraySubset.{IsEmptyBox};
ghost use Rattle.zarrs_chunk_base.specs.Dimension.{array_sizes};
ghost use Rattle.zarrs_chunk_base.specs.Greatest.{greatest};
ghost use Rattle.zarrs_chunk_plan.specs.Region.{CanBeMoved};
ghost use Rattle.zarrs_chunk_plan.specs.seen.Used.{HoldsSome};
ghost use Rattle.zarrs_chunk_tasks.specs.Limits.{HasPart};
ghost use Rattle.zarrs_chunk_tasks.specs.Stages.{CostAtLeast, NoneFit};
ghost use Rattle.zarrs_chunk_tasks.specs.declared.least.LimitsAlong.{LimitsAlong};
ghost use Rattle.zarrs_chunk_tasks.specs.seen.Least.{AreEnough, AreLimitsAlong, AreLimitsOf, AreNoShorter, HasLimits, cost_of_reads};

use crate::groups_along::found;
use crate::largest_chunk::{edge_along, largest_chunk, longest_along};
use std::alloc::{AllocError, Global};
use zarrs_chunk_base::ArraySubset;
use zarrs_chunks::ChunkGridTraits;

/// What limits the tasks of a copy along one dimension, whatever numbers of chunks they take.
#[derive(Clone, Copy)]
struct LimitsAlong {
    /// How many indices are copied,
    size: u64,
    /// how many of them a chunk of the source has at most,
    longest: u64,
    /// how many chunks of the source have some of them,
    chunks: u64,
    /// how many elements each of these chunks has at least, whole,
    shortest: u64,
    /// and how many of them some chunk of the target has, but no fewer than `longest`.
    larger: u64,
}

/// The same along all dimensions: products of numbers, one a dimension. Each is at most 2^128 - 1, which stands for all greater products too.
#[derive(Clone, Copy)]
struct Limits {
    /// How many elements are copied,
    elements: u128,
    /// and the products of the other numbers.
    longest: u128,
    chunks: u128,
    shortest: u128,
    larger: u128,
}

/// What the tasks of a copy cost at least, in elements, whatever numbers of chunks they take, if they fit under a bound of memory. It is at most 2^128 - 1. `None`
/// if no tasks fit. Tasks fit, and cost, as [`cheapest_tasks`](crate::cheapest_tasks) says. The region isn't empty. `moved` is the box of the target's array to
/// which it goes.
///
/// It is found from how often chunks are read at least. Each chunk of the source that has some of the region is read. And the buffers have no more elements than
/// there is room. Along a dimension, a chunk of the source has at most `longest` of the `size` indices that are copied, and some chunk of the target has `part` of
/// them. So there are no fewer reads than the product of `size * max(longest, part) / longest`, divided by the room:
/// see [`tasks_read_no_fewer`](crate::laws::tasks_read_no_fewer). The reads decode each element that is copied. And each of them decodes a whole chunk, which has no
/// fewer elements than the product of the shortest edges.
///
/// A dimension that isn't regular takes three look-ups for each chunk of the source that has some of the region. It takes one for each such chunk of the target.
///
/// # Errors
/// Out of memory.
pub(crate) fn least_cost<G: ChunkGridTraits, H: ChunkGridTraits>(
    alloc: Global,
    source: &G,
    target: &H,
    region: &ArraySubset,
    moved: &ArraySubset,
    max_elements: u64,
    read_elements: u64,
) -> Result<Option<u128>, AllocError>
    requires can { CanBeMoved (array_sizes (G.dimensions source.now))
        (array_sizes (H.dimensions target.now)) region.now moved.now.start }
    requires same { moved.now.shape ≡ region.now.shape }
    requires some { ¬ IsEmptyBox region.now }
    ensures none { IfOk result (λ least. IfNone least (NoneFit (G.dimensions source.now)
        (H.dimensions target.now) region.now moved.now.start max_elements)) }
    ensures some { IfOk result (λ least. IfSome least (CostAtLeast (G.dimensions source.now)
        (H.dimensions target.now) region.now moved.now.start max_elements read_elements)) }
{
    region.is_a_box();
    moved.is_a_box();
    let read = largest_chunk(alloc, source, region)?;
    let written = largest_chunk(alloc, target, moved)?;
    let room = max_elements.saturating_sub(read.max(written));
    if room == 0 {
        // Each task's buffer has an element.
        return Ok(None);
    }
    let limits = limits_of(alloc, source, target, region, moved)?;
    Ok(Some(cost_within(&limits, room, read_elements)))
}

/// Finds the limits of a copy.
///
/// # Errors
/// Out of memory.
fn limits_of<G: ChunkGridTraits, H: ChunkGridTraits>(
    alloc: Global,
    source: &G,
    target: &H,
    region: &ArraySubset,
    moved: &ArraySubset,
) -> Result<Limits, AllocError>
    requires can { CanBeMoved (array_sizes (G.dimensions source.now))
        (array_sizes (H.dimensions target.now)) region.now moved.now.start }
    requires same { moved.now.shape ≡ region.now.shape }
    requires some { ¬ IsEmptyBox region.now }
    ensures { IfOk result (HasLimits (G.dimensions source.now) (H.dimensions target.now)
        region.now.start moved.now.start region.now.shape) }
{
    region.is_a_box();
    moved.is_a_box();
    let first = region.start();
    let at = moved.start();
    let shape = region.shape();
    let mut limits = Limits {
        elements: 1,
        longest: 1,
        chunks: 1,
        shortest: 1,
        larger: 1,
    };
    for dimension in 0..shape.len() {
        let along = limits_along(
            alloc,
            source,
            target,
            dimension,
            first[dimension],
            at[dimension],
            shape[dimension],
        )?;
        limits = with_along(limits, along);
    }
    Ok(limits)
}

/// The limits along one dimension more.
fn with_along(limits: Limits, along: LimitsAlong) -> Limits
    requires { 0 < along.longest }
    ensures { (all : List LimitsAlong) → AreLimitsOf all limits
        → AreLimitsOf (all ++ along ∷ []) result }
{
    Limits {
        elements: limits.elements.saturating_mul(u128::from(along.size)),
        longest: limits.longest.saturating_mul(u128::from(along.longest)),
        chunks: limits.chunks.saturating_mul(u128::from(along.chunks)),
        shortest: limits.shortest.saturating_mul(u128::from(along.shortest)),
        larger: limits.larger.saturating_mul(u128::from(along.larger)),
    }
}

/// What the tasks cost at least, if the longest buffer has no more than `room` elements.
fn cost_within(limits: &Limits, room: u64, read_elements: u64) -> u128
    requires some { 0 < limits.now.longest }
    requires room { 0 < room }
    ensures { (all : List LimitsAlong) (reads : ℕ) → AreLimitsOf all limits.now
        → AreEnough all room reads → result ≤ cost_of_reads all read_elements reads }
{
    let divisor = limits.longest.saturating_mul(u128::from(room));
    let by_room = if divisor == u128::MAX {
        // It may be cut off.
        0
    } else {
        // If this is cut off, there are more reads.
        limits
            .elements
            .saturating_mul(limits.larger)
            .div_ceil(divisor)
    };
    let reads = limits.chunks.max(by_room);
    let decoded = limits.elements.max(reads.saturating_mul(limits.shortest));
    reads
        .saturating_mul(u128::from(read_elements))
        .saturating_add(decoded)
}

/// Finds the limits along one dimension. `size` indices go from `first` on of the source to `at` on of the target.
///
/// # Errors
/// Out of memory.
fn limits_along<G: ChunkGridTraits, H: ChunkGridTraits>(
    alloc: Global,
    source: &G,
    target: &H,
    dimension: usize,
    first: u64,
    at: u64,
    size: u64,
) -> Result<LimitsAlong, AllocError>
    requires some { 0 < size }
    requires source { Along (λ s. first + size ≤ s.array_size) (G.dimensions source.now)
        dimension }
    requires first { first + size ≤ greatest }
    requires at { at + size ≤ greatest }
    ensures { IfOk result (λ along. Along (λ s. Along (λ t. AreLimitsAlong s t first at size along)
        (H.dimensions target.now) dimension) (G.dimensions source.now) dimension) }
{
    let low = found(source.chunk_along(alloc, dimension, first)?)?;
    let high = found(source.chunk_along(alloc, dimension, first + (size - 1))?)?;
    let many = high.saturating_sub(low).saturating_add(1);
    let longest = longest_along(alloc, source, dimension, low, many)?.min(size);
    let shortest = shortest_along(alloc, source, dimension, low, many)?;
    let part = part_along(alloc, target, dimension, at, size)?;
    Ok(LimitsAlong {
        size,
        longest,
        chunks: many,
        shortest,
        larger: longest.max(part),
    })
}

/// How long each of some chunks of a dimension is at least, in elements: `many` chunks from `first` on. The last one holds an element of the array.
///
/// # Errors
/// Out of memory.
fn shortest_along<G: ChunkGridTraits>(
    alloc: Global,
    grid: &G,
    dimension: usize,
    first: u64,
    many: u64,
) -> Result<u64, AllocError>
    requires some { 0 < many }
    requires fits { first + many ≤ greatest }
    requires last { Along (λ d. HoldsSome d (first + (many - 1))) (G.dimensions grid.now)
        dimension }
    ensures { IfOk result (λ edge. Along (AreNoShorter first many edge) (G.dimensions grid.now)
        dimension) }
{
    let mut shortest = edge_along(alloc, grid, dimension, first + (many - 1))?;
    if let Some(edge) = grid.regular_along(dimension) {
        // All but the last one have this edge.
        return Ok(shortest.min(edge.get()));
    }
    for steps in 0..many {
        shortest = shortest.min(edge_along(alloc, grid, dimension, first + steps)?);
    }
    Ok(shortest)
}

/// How many indices of a range the chunk has that holds the middle one.
///
/// # Errors
/// Out of memory.
fn part_along<H: ChunkGridTraits>(
    alloc: Global,
    grid: &H,
    dimension: usize,
    at: u64,
    size: u64,
) -> Result<u64, AllocError>
    requires some { 0 < size }
    requires fits { at + size ≤ greatest }
    ensures { IfOk result (λ part. Along (λ d. HasPart part d at size) (H.dimensions grid.now)
        dimension) }
{
    let chunk = found(grid.chunk_along(alloc, dimension, at + size / 2)?)?;
    let (start, edge) = found(grid.range_along(alloc, dimension, chunk)?)?;
    let end = start.saturating_add(edge).min(at + size);
    Ok(end.saturating_sub(start.max(at)))
}
