//! How much the tasks of a copy read and write, without a walk over them.
ghost use Rattle.std.specs.Prelude.{◌≡◌, ◌≢◌, IfErr, IfOk, List, length, map};
ghost use Rattle.std.specs.Int.NonZero.{non_zero_u64_get};
ghost use Rattle.std.specs.List.{AllByRecursion};
ghost use Rattle.zarrs_chunk_base.specs.ArraySubset.{IsEmptyBox};
ghost use Rattle.zarrs_chunk_base.specs.Dimension.{array_sizes};
ghost use Rattle.zarrs_chunk_base.specs.Refusal.{HasMemory, OrMemory};
ghost use Rattle.zarrs_chunk_plan.specs.Region.{LiesIn};
ghost use Rattle.zarrs_chunk_tasks.specs.Counts.{AreNone, AreTaskCounts};
ghost use Rattle.zarrs_chunk_tasks.specs.Tasks.{AreTasksBySource, AreTasksByTarget, HasTasks, IsTasksFault};
ghost use Rattle.zarrs_chunk_tasks.specs.declared.task.Task.{Task};
ghost use Rattle.zarrs_chunk_tasks.specs.seen.Counts.{AreCopied, AreGroupCounts, AreGrouped};

use crate::copied::{Copied, Grouped, groups_along, groups_with};
use crate::groups_along::sums_along;
use crate::plan::moved_region;
use crate::tasks_error::TasksError;
use std::alloc::{AllocError, Global};
use std::num::NonZeroU64;
use zarrs_chunk_base::{ArraySubset, Refusal};
use zarrs_chunks::ChunkGridTraits;

/// What the tasks of a copy read and write, along one dimension. A count of the tasks is the product of these numbers over all dimensions: it may be
/// larger than any integer type holds. These products are promised, and that each number is 0 without tasks.
#[derive(Clone, Copy, Debug, PartialEq, Eq)]
pub struct CountsAlong {
    /// Groups that hold some of the region. The product is the number of tasks.
    pub tasks: u64,
    /// Indices of the longest buffer. The product is the number of elements of the largest buffer, without the chunks that fill it.
    pub largest_task: u64,
    /// Chunks of the source that groups read. The product counts a chunk once for each task that reads it.
    pub chunks_read: u64,
    /// Indices of these chunks, each whole. The product is the number of elements of all chunks that are read, a chunk once for each task that reads it.
    /// A chunk counts with the shape that the grid gives it, also where it reaches over the region or the array.
    pub elements_decoded: u128,
    /// Chunks of the target that groups write. The product counts a chunk once for each task that writes it. That some have to be read first isn't counted.
    pub chunks_written: u64,
}

/// Counts the [`tasks`](crate::tasks) of the copy of a region, along each dimension. Without dimensions the list is empty, and each product is 1: there is
/// one task, of one element.
///
/// It takes some look-ups for each group along each dimension by itself. Along a dimension that is regular in both arrays it takes a few, however many
/// groups there are.
///
/// # Errors
/// As of [`tasks`](crate::tasks).
pub fn task_counts<G: ChunkGridTraits, H: ChunkGridTraits>(
    alloc: Global,
    source: &G,
    target: &H,
    region: &ArraySubset,
    at: &[u64],
    task_chunks: &[NonZeroU64],
) -> Result<Vec<CountsAlong>, Refusal<TasksError>>
    ensures counts { IfOk result (λ counts. (tasks : List Task)
        → AreTasksByTarget (H.dimensions target.now) (map non_zero_u64_get task_chunks.now)
        region.now at.now tasks
        → AreTaskCounts (G.dimensions source.now) (H.dimensions target.now) tasks counts.items) }
    ensures long { IfOk result (λ counts. length counts.items
        ≡ length (G.dimensions source.now)) }
    ensures empty { IsEmptyBox region.now → IfOk result (λ counts.
        AllByRecursion AreNone counts.items) }
    ensures has { IfOk result (λ _. HasTasks (array_sizes (G.dimensions source.now))
        (array_sizes (H.dimensions target.now)) region.now at.now
        (map non_zero_u64_get task_chunks.now)) }
    ensures refused { IfErr result (OrMemory (IsTasksFault (array_sizes (G.dimensions source.now))
        (array_sizes (H.dimensions target.now)) region.now at.now
        (map non_zero_u64_get task_chunks.now))) }
    ensures faults_first { (¬ HasTasks (array_sizes (G.dimensions source.now))
        (array_sizes (H.dimensions target.now)) region.now at.now
        (map non_zero_u64_get task_chunks.now)) → HasMemory result }
{
    region.is_a_box();
    let moved = moved_region(alloc, source, target, region, at, task_chunks)?;
    moved.is_a_box();
    let copied = Copied {
        source,
        first: region.start(),
        target,
        at,
    };
    Ok(counts_of(alloc, &copied, target, task_chunks, &moved)?)
}

/// Counts the [tasks by groups of the source's chunks](crate::tasks_by_source) in the same way.
///
/// # Errors
/// As of [`tasks`](crate::tasks).
pub fn task_counts_by_source<G: ChunkGridTraits, H: ChunkGridTraits>(
    alloc: Global,
    source: &G,
    target: &H,
    region: &ArraySubset,
    at: &[u64],
    task_chunks: &[NonZeroU64],
) -> Result<Vec<CountsAlong>, Refusal<TasksError>>
    ensures counts { IfOk result (λ counts. (tasks : List Task)
        → AreTasksBySource (G.dimensions source.now) (map non_zero_u64_get task_chunks.now)
        region.now at.now tasks
        → AreTaskCounts (G.dimensions source.now) (H.dimensions target.now) tasks counts.items) }
    ensures long { IfOk result (λ counts. length counts.items
        ≡ length (G.dimensions source.now)) }
    ensures empty { IsEmptyBox region.now → IfOk result (λ counts.
        AllByRecursion AreNone counts.items) }
    ensures has { IfOk result (λ _. HasTasks (array_sizes (G.dimensions source.now))
        (array_sizes (H.dimensions target.now)) region.now at.now
        (map non_zero_u64_get task_chunks.now)) }
    ensures refused { IfErr result (OrMemory (IsTasksFault (array_sizes (G.dimensions source.now))
        (array_sizes (H.dimensions target.now)) region.now at.now
        (map non_zero_u64_get task_chunks.now))) }
    ensures faults_first { (¬ HasTasks (array_sizes (G.dimensions source.now))
        (array_sizes (H.dimensions target.now)) region.now at.now
        (map non_zero_u64_get task_chunks.now)) → HasMemory result }
{
    region.is_a_box();
    let moved = moved_region(alloc, source, target, region, at, task_chunks)?;
    moved.is_a_box();
    let copied = Copied {
        source,
        first: region.start(),
        target,
        at,
    };
    Ok(counts_of(alloc, &copied, source, task_chunks, region)?)
}

/// Counts the groups of chunks of a grid that hold some of the elements, which are a box of its array.
///
/// # Errors
/// Out of memory.
fn counts_of<K: ChunkGridTraits, G: ChunkGridTraits, H: ChunkGridTraits>(
    alloc: Global,
    copied: &Copied<G, H>,
    grid: &K,
    each: &[NonZeroU64],
    elements: &ArraySubset,
) -> Result<Vec<CountsAlong>, AllocError>
    requires lies { LiesIn elements.now (array_sizes (K.dimensions grid.now)) }
    requires each { length each.now ≡ length (K.dimensions grid.now) }
    requires copied { AreCopied (G.dimensions copied.now.source.now)
        (H.dimensions copied.now.target.now) elements.now copied.now.first.now
        copied.now.at.now }
    ensures { IfOk result (λ counts. AreGroupCounts (G.dimensions copied.now.source.now)
        (H.dimensions copied.now.target.now) (K.dimensions grid.now)
        (map non_zero_u64_get each.now) elements.now copied.now.first.now copied.now.at.now
        counts.items) }
{
    let Some(grouped) = groups_with(alloc, grid, each, elements)? else {
        return Ok(vec![in alloc; of_no_tasks(); each.len()]?);
    };
    counts_of_some(alloc, copied, &grouped)
}

/// Counts groups, of which there is one.
///
/// # Errors
/// Out of memory.
fn counts_of_some<K: ChunkGridTraits, G: ChunkGridTraits, H: ChunkGridTraits>(
    alloc: Global,
    copied: &Copied<G, H>,
    grouped: &Grouped<K>,
) -> Result<Vec<CountsAlong>, AllocError>
    requires { AreGrouped K.dimensions (G.dimensions copied.now.source.now)
        (H.dimensions copied.now.target.now) copied.now.first.now copied.now.at.now
        grouped.now }
    ensures { IfOk result (λ counts. AreGroupCounts (G.dimensions copied.now.source.now)
        (H.dimensions copied.now.target.now) (K.dimensions grouped.now.grid.now)
        (map non_zero_u64_get grouped.now.each.now) grouped.now.elements.now
        copied.now.first.now copied.now.at.now counts.items) }
{
    let mut counts = Vec::with_capacity(alloc, grouped.each.len())?;
    for dimension in 0..grouped.each.len() {
        let along = groups_along(grouped, dimension);
        let read = sums_along(alloc, &along, copied.source, copied.first[dimension])?;
        let written = sums_along(alloc, &along, copied.target, copied.at[dimension])?;
        counts.push(CountsAlong {
            tasks: along.groups,
            largest_task: read.largest,
            chunks_read: read.chunks,
            elements_decoded: read.elements,
            chunks_written: written.chunks,
        })?;
    }
    Ok(counts)
}

/// The counts of no tasks, along any dimension.
fn of_no_tasks() -> CountsAlong
    ensures { AreNone result }
{
    CountsAlong {
        tasks: 0,
        largest_task: 0,
        chunks_read: 0,
        elements_decoded: 0,
        chunks_written: 0,
    }
}
