//! Two stages: the chunk shape of the intermediate array by which they cost the least.
ghost use Rattle.std.specs.Prelude.{◌≡◌, ◌≤◌, ◌<◌, IfOk, IfSome, IsTrue, List, Ok, length, map};
ghost use Rattle.std.specs.Int.NonZero.{non_zero_u64_get};
ghost use Rattle.std.specs.List.{AllByRecursion};
ghost use Rattle.std.specs.declared.num.NonZeroU64.{NonZeroU64};
ghost use Rattle.zarrs_chunk_axes.specs.EqualEdges.{AreEqualEdges};
ghost use Rattle.zarrs_chunk_base.specs.Dimension.{array_sizes};
ghost use Rattle.zarrs_chunk_base.specs.Greatest.{greatest};
ghost use Rattle.zarrs_chunk_plan.specs.Counts.{product};
ghost use Rattle.zarrs_chunk_tasks.specs.seen.Between.{AreChosen, AreExactBy, CanBeStaged, ComparesShape, FindsBoth, IsCheaper, IsCompared, IsLeast, IsOneOf, IsShapeAt, Keeps, best_cost, both_are_exact, cost_of_both};
ghost use Rattle.zarrs_chunk_tasks.specs.seen.Choices.{rows_of};
ghost use Rattle.zarrs_chunks.specs.seen.Grids.{regular_of};

use crate::cheapest::{CheapestTasks, cheapest_tasks};
use crate::choices::is_below;
use crate::least::least_cost;
use crate::thinning::choices_of;
use std::alloc::{AllocError, Global};
use std::num::NonZeroU64;
use zarrs_chunk_base::{ArraySubset, ChunkShape, Refusal};
use zarrs_chunk_plan::{RegionError, whole_array};
use zarrs_chunks::{ChunkGridTraits, RegularChunkGrid};

/// A copy of a region that isn't empty, in stages, and what a worker has for it.
#[derive(Drop)]
pub(crate) struct Staged<'a, G, H> {
    pub(crate) source: &'a G,
    pub(crate) target: &'a H,
    /// The elements, as a box of the source's array, and as one of the target's.
    pub(crate) region: &'a ArraySubset,
    pub(crate) moved: &'a ArraySubset,
    /// How many elements a worker holds at most, and what a read is worth in elements.
    pub(crate) max_elements: u64,
    pub(crate) read_elements: u64,
}

/// Two stages, by an intermediate array.
#[derive(Drop)]
pub(crate) struct TwoStages {
    /// The chunk shape of the intermediate array.
    pub(crate) chunks: ChunkShape,
    /// The tasks that write it, and those that read it.
    pub(crate) first: CheapestTasks,
    pub(crate) second: CheapestTasks,
}

impl TwoStages {
    /// What both stages cost together.
    pub(crate) fn cost(&self) -> u128
        ensures { result ≡ cost_of_both self.now }
    {
        self.first.cost.saturating_add(self.second.cost)
    }

    /// Whether no tasks of both stages cost less.
    fn is_exact(&self) -> bool
        ensures { result ≡ both_are_exact self.now }
    {
        self.first.is_exact && self.second.is_exact
    }
}

/// What two stages cost at least: the one that writes the intermediate array, and the one that reads it.
#[derive(Clone, Copy)]
struct LeastOfBoth {
    write: u128,
    read: u128,
}

/// The best two stages of those that were compared.
#[derive(Drop)]
pub(crate) struct Compared {
    pub(crate) best: Option<TwoStages>,
    /// Whether none of those that were compared costs less, with whatever tasks.
    pub(crate) is_exact: bool,
}

/// Compares the intermediate arrays that are cut into chunks of one shape, which has one of some edges along each dimension.
///
/// A shape is left out if its least cost is no less than the cost of the best one before it.
///
/// # Errors
/// Out of memory.
pub(crate) fn cheapest_between<G: ChunkGridTraits, H: ChunkGridTraits>(
    alloc: Global,
    staged: &Staged<G, H>,
    edges: &[Vec<NonZeroU64>],
) -> Result<Compared, AllocError>
    requires can { CanBeStaged G.dimensions H.dimensions staged.now }
    requires long { length edges.now ≡ length staged.now.region.now.shape }
    requires some { AllByRecursion (λ (row : List NonZeroU64). 0 < length row)
        (rows_of edges.now) }
    requires few { product (map length (rows_of edges.now)) ≤ greatest }
    ensures best { IfOk result (λ compared. IfSome compared.best (AreChosen
        (G.dimensions staged.now.source.now) (H.dimensions staged.now.target.now)
        staged.now.region.now staged.now.moved.now.start staged.now.max_elements
        staged.now.read_elements (rows_of edges.now))) }
    ensures exact { IfOk result (λ compared. AreExactBy (G.dimensions staged.now.source.now)
        (H.dimensions staged.now.target.now) staged.now.region.now staged.now.moved.now.start
        staged.now.max_elements staged.now.read_elements (rows_of edges.now)
        → IsTrue compared.is_exact) }
    ensures all { IfOk result (λ compared. (shape : List NonZeroU64)
        → IsOneOf (rows_of edges.now) shape → IsCompared (G.dimensions staged.now.source.now)
        (H.dimensions staged.now.target.now) staged.now.region.now staged.now.moved.now.start
        staged.now.max_elements staged.now.read_elements compared shape) }
{
    let compared = Compared {
        best: None,
        is_exact: true,
    };
    let shapes = choices_of(edges);
    let likely = likely_shape(alloc, staged, edges, shapes)?;
    let mut compared = with_shape(alloc, staged, edges, likely, compared)?;
    for number in 0..shapes {
        compared = with_shape(alloc, staged, edges, number, compared)?;
    }
    Ok(compared)
}

/// The number of the chunk shape by which both stages have the least bound of their cost. If it is compared first, most of the others are left out.
///
/// # Errors
/// Out of memory.
fn likely_shape<G: ChunkGridTraits, H: ChunkGridTraits>(
    alloc: Global,
    staged: &Staged<G, H>,
    edges: &[Vec<NonZeroU64>],
    shapes: u64,
) -> Result<u64, AllocError>
    requires can { CanBeStaged G.dimensions H.dimensions staged.now }
    requires long { length edges.now ≡ length staged.now.region.now.shape }
    requires some { AllByRecursion (λ (row : List NonZeroU64). 0 < length row)
        (rows_of edges.now) }
    ensures { IfOk result (λ number. number ≤ shapes) }
{
    let mut likely = 0u64;
    let mut least = None;
    for number in 0..shapes {
        let chunks = shape_at(alloc, edges, number)?;
        if let Some(both) = least_of_both(alloc, staged, &chunks)? {
            let cost = both.write.saturating_add(both.read);
            if is_below(least, cost) {
                least = Some(cost);
                likely = number;
            }
        }
    }
    Ok(likely)
}

/// Compares the stages by the chunk shape of a number with the best ones before them.
///
/// # Errors
/// Out of memory.
fn with_shape<G: ChunkGridTraits, H: ChunkGridTraits>(
    alloc: Global,
    staged: &Staged<G, H>,
    edges: &[Vec<NonZeroU64>],
    number: u64,
    compared: Compared,
) -> Result<Compared, AllocError>
    requires can { CanBeStaged G.dimensions H.dimensions staged.now }
    requires long { length edges.now ≡ length staged.now.region.now.shape }
    requires some { AllByRecursion (λ (row : List NonZeroU64). 0 < length row)
        (rows_of edges.now) }
    ensures { IfOk result (ComparesShape (G.dimensions staged.now.source.now)
        (H.dimensions staged.now.target.now) staged.now.region.now staged.now.moved.now.start
        staged.now.max_elements staged.now.read_elements (rows_of edges.now) number compared) }
{
    let chunks = shape_at(alloc, edges, number)?;
    let found = both_stages(alloc, staged, chunks, cost_of(&compared.best))?;
    Ok(with_found(compared, found))
}

/// The chunk shape of a number.
///
/// # Errors
/// Out of memory.
fn shape_at(alloc: Global, edges: &[Vec<NonZeroU64>], number: u64) -> Result<ChunkShape, AllocError>
    requires { AllByRecursion (λ (row : List NonZeroU64). 0 < length row) (rows_of edges.now) }
    ensures { IfOk result (λ shape. IsShapeAt (rows_of edges.now) number shape.items) }
{
    let mut left = number;
    let mut shape = Vec::with_capacity(alloc, edges.len())?;
    for row in edges {
        let many = row.as_slice().len() as u64;
        shape.push(row[(left % many) as usize])?;
        left /= many;
    }
    Ok(shape)
}

/// What the best two stages cost, if there are any.
fn cost_of(best: &Option<TwoStages>) -> Option<u128>
    ensures { result ≡ best_cost best.now }
{
    match best {
        Some(best) => Some(best.cost()),
        None => None,
    }
}

/// Compares two stages that are found with the best ones before them.
fn with_found(compared: Compared, found: Option<TwoStages>) -> Compared
    ensures { Keeps compared found result }
{
    let Some(found) = found else {
        return compared;
    };
    let is_exact = compared.is_exact && found.is_exact();
    let best = match compared.best {
        Some(best) => cheaper(best, found),
        None => found,
    };
    Compared {
        best: Some(best),
        is_exact,
    }
}

/// The cheaper one of two, or the first one if both cost the same.
fn cheaper(one: TwoStages, other: TwoStages) -> TwoStages
    ensures { IsCheaper one other result }
{
    if one.cost() <= other.cost() {
        one
    } else {
        other
    }
}

/// Chooses the tasks of both stages, by an intermediate array in chunks of this shape. `None` if no tasks fit, or if they cost the bound or more. The tasks of the
/// second stage aren't looked for if the first one already costs so much.
///
/// # Errors
/// Out of memory.
fn both_stages<G: ChunkGridTraits, H: ChunkGridTraits>(
    alloc: Global,
    staged: &Staged<G, H>,
    chunks: ChunkShape,
    bound: Option<u128>,
) -> Result<Option<TwoStages>, AllocError>
    requires can { CanBeStaged G.dimensions H.dimensions staged.now }
    requires long { length chunks.items ≡ length staged.now.region.now.shape }
    ensures { IfOk result (FindsBoth (G.dimensions staged.now.source.now)
        (H.dimensions staged.now.target.now) staged.now.region.now staged.now.moved.now.start
        staged.now.max_elements staged.now.read_elements chunks.items bound) }
{
    let Some(least) = least_of_both(alloc, staged, &chunks)? else {
        return Ok(None);
    };
    if !is_below(bound, least.write.saturating_add(least.read)) {
        return Ok(None);
    }
    let grid = grid_of(alloc, staged.region.shape(), &chunks)?;
    let array = whole_array(alloc, &grid)?;
    let most = staged.max_elements;
    let worth = staged.read_elements;
    let first = cheapest_tasks(
        alloc,
        staged.source,
        &grid,
        staged.region,
        array.start(),
        most,
        worth,
    );
    let Some(first) = expect_tasks(first)? else {
        return Ok(None);
    };
    if first.is_exact && !is_below(bound, first.cost.saturating_add(least.read)) {
        return Ok(None);
    }
    let at = staged.moved.start();
    let second = cheapest_tasks(alloc, &grid, staged.target, &array, at, most, worth);
    let Some(second) = expect_tasks(second)? else {
        return Ok(None);
    };
    Ok(Some(TwoStages {
        chunks,
        first,
        second,
    }))
}

/// What each stage costs at least, by an intermediate array in chunks of this shape, up to the greatest number. `None` if no tasks fit.
///
/// # Errors
/// Out of memory.
fn least_of_both<G: ChunkGridTraits, H: ChunkGridTraits>(
    alloc: Global,
    staged: &Staged<G, H>,
    chunks: &[NonZeroU64],
) -> Result<Option<LeastOfBoth>, AllocError>
    requires can { CanBeStaged G.dimensions H.dimensions staged.now }
    requires long { length chunks.now ≡ length staged.now.region.now.shape }
    ensures { IfOk result (IsLeast (G.dimensions staged.now.source.now)
        (H.dimensions staged.now.target.now) staged.now.region.now staged.now.moved.now.start
        staged.now.max_elements staged.now.read_elements chunks.now) }
{
    let grid = grid_of(alloc, staged.region.shape(), chunks)?;
    let array = whole_array(alloc, &grid)?;
    let most = staged.max_elements;
    let worth = staged.read_elements;
    let Some(write) = least_cost(
        alloc,
        staged.source,
        &grid,
        staged.region,
        &array,
        most,
        worth,
    )?
    else {
        return Ok(None);
    };
    let Some(read) = least_cost(
        alloc,
        &grid,
        staged.target,
        &array,
        staged.moved,
        most,
        worth,
    )?
    else {
        return Ok(None);
    };
    Ok(Some(LeastOfBoth { write, read }))
}

/// The regular grid of an array in chunks of one shape.
///
/// # Errors
/// Out of memory.
fn grid_of(
    alloc: Global,
    shape: &[u64],
    chunks: &[NonZeroU64],
) -> Result<RegularChunkGrid, AllocError>
    ensures made { IfOk result (λ grid. AreEqualEdges (regular_of grid).dimensions shape.now
        (map non_zero_u64_get chunks.now)) }
    ensures sizes { IfOk result (λ grid. array_sizes (regular_of grid).dimensions ≡ shape.now) }
{
    let shape = Vec::from_slice(alloc, shape)?;
    match RegularChunkGrid::new(alloc, shape, Vec::from_slice(alloc, chunks)?) {
        Ok(grid) => Ok(grid),
        Err(_) => Err(AllocError),
    }
}

/// The tasks that are chosen for a region that lies in both arrays. If it is refused, memory ran out.
///
/// # Errors
/// Out of memory.
fn expect_tasks(
    answer: Result<Option<CheapestTasks>, Refusal<RegionError>>,
) -> Result<Option<CheapestTasks>, AllocError>
    ensures { IfOk result (λ found. answer ≡ Ok found) }
{
    match answer {
        Ok(found) => Ok(found),
        Err(_) => Err(AllocError),
    }
}
