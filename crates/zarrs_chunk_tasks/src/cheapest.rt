//! The cheapest tasks under a bound of memory.
ghost use Rattle.std.specs.Prelude.{◌≡◌, IfErr, IfOk, IfSome, MatchOption, None, reverse};
ghost use Rattle.zarrs_chunk_base.specs.ArraySubset.{IsEmptyBox};
ghost use Rattle.zarrs_chunk_base.specs.Dimension.{array_sizes};
ghost use Rattle.zarrs_chunk_base.specs.Refusal.{HasMemory, OrMemory};
ghost use Rattle.zarrs_chunk_plan.specs.Region.{CanBeMoved, IsRegionFault};
ghost use Rattle.zarrs_chunk_tasks.specs.Cheapest.{FindsTasks, IsExactIfFew, IsOfNoTasks};

use crate::choices::{Choice, cheapest_choice};
use crate::copied::Copied;
use crate::largest_chunk::largest_chunk;
use crate::tried::tried_sizes;
use std::alloc::Global;
use std::num::NonZeroU64;
use zarrs_chunk_base::{ArraySubset, Refusal};
use zarrs_chunk_plan::{RegionError, moved_box};
use zarrs_chunks::ChunkGridTraits;

/// How many chunks a task takes, and what the tasks cost.
#[derive(Debug, Drop)]
pub struct CheapestTasks {
    /// How many neighbouring chunks of the target a group joins, one number a dimension: what [`tasks`](crate::tasks) takes.
    pub task_chunks: Vec<NonZeroU64>,
    /// What the tasks cost, in elements: the elements of the chunks that they read, and what the reads are worth. 2^128 - 1 stands for all greater numbers too.
    pub cost: u128,
    /// Whether all numbers of chunks were compared. If so, no tasks that fit cost less.
    pub is_exact: bool,
}

/// Chooses how many chunks a task takes, so that the [`tasks`](crate::tasks) of the copy of a region cost the least under a bound of memory. Tasks fit if each
/// buffer has at most `max_elements` elements, together with the largest chunk that any task reads or writes, whole. `None` if no tasks fit.
///
/// Tasks cost the elements of the chunks that they read, whole, and `read_elements` for each of these reads: what one read is worth, in elements. If a store
/// gives ten megabytes while it waits for one request, a read is worth 2,500,000 elements of 4 bytes. What is written costs nothing. So the cost is the product
/// of `chunks_read` in [`task_counts`](crate::task_counts) times `read_elements`, and the product of `elements_decoded`. An empty region has no tasks, which
/// cost nothing.
///
/// A choice is a number of chunks for each dimension. Count the target's chunks from the array's first one to the region's last one, along each dimension. If
/// these counts are at most 2^16, and their product is at most 2^24, all choices are compared. Otherwise `is_exact` is `false`. The tasks cost no more than
/// tasks of one chunk each in any case.
///
/// If not all choices are compared, each number of chunks up to 16 is tried along a dimension. After these, each number is greater than the one before it by a
/// sixteenth. While there are more choices than 2^20, divided by the number of dimensions, every second number is left out along the dimension that has the
/// most. So any number of chunks will do.
///
/// It takes the time to count groups of each number of chunks that is tried, as [`task_counts`](crate::task_counts) does, and some multiplications for each
/// choice.
///
/// # Errors
/// As of [`moved_box`]. Or out of memory.
pub fn cheapest_tasks<G: ChunkGridTraits, H: ChunkGridTraits>(
    alloc: Global,
    source: &G,
    target: &H,
    region: &ArraySubset,
    at: &[u64],
    max_elements: u64,
    read_elements: u64,
) -> Result<Option<CheapestTasks>, Refusal<RegionError>>
    ensures choice { (¬ IsEmptyBox region.now) → IfOk result (FindsTasks (G.dimensions source.now)
        (H.dimensions target.now) region.now at.now max_elements read_elements) }
    ensures exact { (¬ IsEmptyBox region.now) → IfOk result (λ found. IfSome found
        (IsExactIfFew (H.dimensions target.now) region.now at.now)) }
    ensures empty { IsEmptyBox region.now → IfOk result (λ found. MatchOption found ⊥
        (IsOfNoTasks (G.dimensions source.now))) }
    ensures lies { IfOk result (λ _. CanBeMoved (array_sizes (G.dimensions source.now))
        (array_sizes (H.dimensions target.now)) region.now at.now) }
    ensures refused { IfErr result (OrMemory (IsRegionFault (array_sizes (G.dimensions source.now))
        (array_sizes (H.dimensions target.now)) region.now at.now)) }
    ensures faults_first { (¬ CanBeMoved (array_sizes (G.dimensions source.now))
        (array_sizes (H.dimensions target.now)) region.now at.now) → HasMemory result }
{
    region.is_a_box();
    let moved = moved_box(alloc, source, target, region, at)?;
    moved.is_a_box();
    let copied = Copied {
        source,
        first: region.start(),
        target,
        at,
    };
    let Some(tried) = tried_sizes(alloc, &copied, &moved)? else {
        return Ok(Some(CheapestTasks {
            task_chunks: vec![in alloc; NonZeroU64::MIN; at.len()]?,
            cost: 0,
            is_exact: true,
        }));
    };
    let read = largest_chunk(alloc, source, region)?;
    let written = largest_chunk(alloc, target, &moved)?;
    let room = max_elements.saturating_sub(read.max(written));
    let found = cheapest_choice(alloc, &tried.rows, room, read_elements, 1, 1, None)?;
    Ok(outermost_first(found, tried.is_exact))
}

/// Returns the choice in the order of the dimensions.
fn outermost_first(found: Option<Choice>, is_exact: bool) -> Option<CheapestTasks>
    ensures none { found ≡ None → result ≡ None }
    ensures some { IfSome found (λ choice. MatchOption result ⊥ (λ cheapest.
        (cheapest.task_chunks.items ≡ reverse choice.each.items)
        × (cheapest.cost ≡ choice.cost)
        × (cheapest.is_exact ≡ is_exact))) }
{
    let choice = found?;
    let mut task_chunks = choice.each;
    task_chunks.reverse();
    Some(CheapestTasks {
        task_chunks,
        cost: choice.cost,
        is_exact,
    })
}
