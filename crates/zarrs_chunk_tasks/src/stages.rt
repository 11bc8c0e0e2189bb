//! The cheapest stages under a bound of memory.
ghost use Rattle.std.specs.Prelude.{◌≡◌, IfErr, IfOk, IfSome, IsTrue, MatchOption, None};
ghost use Rattle.zarrs_chunk_base.specs.ArraySubset.{IsEmptyBox};
ghost use Rattle.zarrs_chunk_base.specs.Dimension.{array_sizes};
ghost use Rattle.zarrs_chunk_base.specs.Refusal.{HasMemory, OrMemory};
ghost use Rattle.zarrs_chunk_plan.specs.Region.{CanBeMoved, IsRegionFault};
ghost use Rattle.zarrs_chunk_tasks.specs.Stages.{AreExactIfFew, FindsStages, IsOfEmptyRegion};
ghost use Rattle.zarrs_chunk_tasks.specs.seen.Stages.{IsOfOne, IsOfTwo, IsTheCheaper};

use crate::between::{Staged, TwoStages, cheapest_between};
use crate::cheapest::{CheapestTasks, cheapest_tasks};
use crate::edges::tried_edges;
use std::alloc::{AllocError, Global};
use zarrs_chunk_base::{ArraySubset, ChunkShape, Refusal};
use zarrs_chunk_plan::{RegionError, moved_box};
use zarrs_chunks::ChunkGridTraits;

/// The stages of a copy, one after another, and what they cost.
#[derive(Debug, Drop)]
pub struct CheapestStages {
    /// The chunk shape of each intermediate array. An intermediate array has the region's shape and a regular grid.
    pub chunks: Vec<ChunkShape>,
    /// The tasks of each stage. There is one stage more than there are intermediate arrays.
    pub tasks: Vec<CheapestTasks>,
    /// What all stages cost, in elements. 2^128 - 1 stands for all greater numbers too.
    pub cost: u128,
    /// If `true`, no tasks of one stage that fit cost less, and none of two stages by a chunk shape that is tried. If `false`, some may.
    pub is_exact: bool,
}

/// Chooses whether a region is copied in one stage or in two, and by which tasks, so that all stages cost the least under a bound of memory. The tasks of a stage
/// fit and cost as in [`cheapest_tasks`]. `None` if no tasks fit.
///
/// The first of two stages writes an intermediate array, and the second one reads it. The intermediate array has the region's shape and a regular grid. It isn't
/// counted in `max_elements`, but a largest chunk of it is. To write it costs nothing, and to read it costs what it costs to read the source.
///
/// The chunk shapes that are tried have an edge from a list along each dimension. An edge of the list is a multiple of the longest chunk's edge, in the source or
/// in the target, and is cut to the region's size. It is the least such multiple that cuts the region into at most 1, 2, 3 .. pieces.
///
/// If the region has more than 2^16 such longest chunks along a dimension, or if there are more than 2^17 shapes, not all are tried. Then `is_exact` is `false`.
///
/// An empty region is copied in one stage, which costs nothing.
///
/// It takes some look-ups for each shape, to find what both stages cost at least in this memory. The shape of the least such bound comes first. For each shape that
/// may cost less than the best one before it, it takes the time of [`cheapest_tasks`] twice.
///
/// # Errors
/// As of [`moved_box`]. Or out of memory.
pub fn cheapest_stages<G: ChunkGridTraits, H: ChunkGridTraits>(
    alloc: Global,
    source: &G,
    target: &H,
    region: &ArraySubset,
    at: &[u64],
    max_elements: u64,
    read_elements: u64,
) -> Result<Option<CheapestStages>, Refusal<RegionError>>
    ensures stages { (¬ IsEmptyBox region.now) → IfOk result (FindsStages (G.dimensions source.now)
        (H.dimensions target.now) region.now at.now max_elements read_elements) }
    ensures exact { (¬ IsEmptyBox region.now) → IfOk result (λ found. IfSome found
        (AreExactIfFew (G.dimensions source.now) (H.dimensions target.now) region.now at.now
        max_elements read_elements)) }
    ensures empty { IsEmptyBox region.now → IfOk result (λ found. MatchOption found ⊥
        (IsOfEmptyRegion (G.dimensions source.now))) }
    ensures lies { IfOk result (λ _. CanBeMoved (array_sizes (G.dimensions source.now))
        (array_sizes (H.dimensions target.now)) region.now at.now) }
    ensures refused { IfErr result (OrMemory (IsRegionFault (array_sizes (G.dimensions source.now))
        (array_sizes (H.dimensions target.now)) region.now at.now)) }
    ensures faults_first { (¬ CanBeMoved (array_sizes (G.dimensions source.now))
        (array_sizes (H.dimensions target.now)) region.now at.now) → HasMemory result }
{
    region.is_a_box();
    let moved = moved_box(alloc, source, target, region, at)?;
    let one = cheapest_tasks(
        alloc,
        source,
        target,
        region,
        at,
        max_elements,
        read_elements,
    )?;
    if region.is_empty() {
        return Ok(of_one(alloc, one, true)?);
    }
    let tried = tried_edges(alloc, source, target, region, &moved)?;
    let staged = Staged {
        source,
        target,
        region,
        moved: &moved,
        max_elements,
        read_elements,
    };
    let compared = cheapest_between(alloc, &staged, &tried.rows)?;
    let is_exact = tried.are_all && compared.is_exact;
    Ok(cheaper_of(alloc, one, compared.best, is_exact)?)
}

/// The cheaper ones of one stage and two, if there are any. `is_exact` says whether no two stages cost less than the best ones.
///
/// # Errors
/// Out of memory.
fn cheaper_of(
    alloc: Global,
    one: Option<CheapestTasks>,
    two: Option<TwoStages>,
    is_exact: bool,
) -> Result<Option<CheapestStages>, AllocError>
    ensures { IfOk result (IsTheCheaper one two is_exact) }
{
    let Some(two) = two else {
        return of_one(alloc, one, is_exact);
    };
    let Some(one) = one else {
        return Ok(Some(of_two(alloc, two, is_exact)?));
    };
    if one.cost <= two.cost() {
        of_one(alloc, Some(one), is_exact)
    } else {
        let is_exact = is_exact && one.is_exact;
        Ok(Some(of_two(alloc, two, is_exact)?))
    }
}

/// One stage, if there is one.
///
/// # Errors
/// Out of memory.
fn of_one(
    alloc: Global,
    one: Option<CheapestTasks>,
    is_exact: bool,
) -> Result<Option<CheapestStages>, AllocError>
    ensures none { one ≡ None → IfOk result (λ found. found ≡ None) }
    ensures some { IfSome one (λ tasks. IfOk result (λ found. MatchOption found ⊥
        (IsOfOne tasks is_exact))) }
{
    let Some(tasks) = one else {
        return Ok(None);
    };
    let cost = tasks.cost;
    let is_exact = is_exact && tasks.is_exact;
    let mut stages = Vec::new(alloc);
    stages.push(tasks)?;
    Ok(Some(CheapestStages {
        chunks: Vec::new(alloc),
        tasks: stages,
        cost,
        is_exact,
    }))
}

/// Two stages.
///
/// # Errors
/// Out of memory.
fn of_two(alloc: Global, two: TwoStages, is_exact: bool) -> Result<CheapestStages, AllocError>
    ensures { IfOk result (IsOfTwo two is_exact) }
{
    let cost = two.cost();
    let mut chunks = Vec::new(alloc);
    chunks.push(two.chunks)?;
    let mut tasks = Vec::new(alloc);
    tasks.push(two.first)?;
    tasks.push(two.second)?;
    Ok(CheapestStages {
        chunks,
        tasks,
        cost,
        is_exact,
    })
}
