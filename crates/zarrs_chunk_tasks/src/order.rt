//! The tasks of a copy, and their counts, by groups of the chunks of either array.
ghost use Rattle.std.specs.Prelude.{◌≡◌, IfErr, IfOk, List, length, map};
ghost use Rattle.std.specs.Int.NonZero.{non_zero_u64_get};
ghost use Rattle.std.specs.List.{AllByRecursion};
ghost use Rattle.zarrs_chunk_base.specs.ArraySubset.{IsEmptyBox};
ghost use Rattle.zarrs_chunk_base.specs.Dimension.{array_sizes};
ghost use Rattle.zarrs_chunk_base.specs.Refusal.{HasMemory, OrMemory};
ghost use Rattle.zarrs_chunk_tasks.specs.Counts.{AreNone, AreTaskCounts};
ghost use Rattle.zarrs_chunk_tasks.specs.Tasks.{AreTasksBy, HasTasks, IsTasksFault};
ghost use Rattle.zarrs_chunk_tasks.specs.declared.task.Task.{Task};
ghost use Rattle.zarrs_chunk_tasks.specs.seen.Tasks.{ArePlannedBy};

use crate::counts::{CountsAlong, task_counts, task_counts_by_source};
use crate::plan::{tasks, tasks_by_source};
use crate::tasks_error::TasksError;
use crate::walk::Tasks;
use std::alloc::Global;
use std::num::NonZeroU64;
use zarrs_chunk_base::{ArraySubset, Refusal};
use zarrs_chunks::ChunkGridTraits;

/// The array whose chunks are grouped.
#[derive(Clone, Copy, Debug, PartialEq, Eq)]
pub enum Order {
    /// The target: no chunk of it is in two tasks.
    Target,
    /// The source: no chunk of it is in two tasks.
    Source,
}

/// Returns the tasks of the copy of a region, by groups of the chunks of the array that `order` names: [`tasks`] or [`tasks_by_source`].
///
/// # Errors
/// As of [`tasks`].
pub fn tasks_by<'a, G: ChunkGridTraits>(
    alloc: Global,
    order: Order,
    source: &'a G,
    target: &'a G,
    region: &ArraySubset,
    at: &[u64],
    task_chunks: &'a [NonZeroU64],
) -> Result<Tasks<'a, G>, Refusal<TasksError>>
    ensures planned { IfOk result (ArePlannedBy order G.dimensions source.now target.now
        (map non_zero_u64_get task_chunks.now) region.now at.now) }
    ensures has { IfOk result (λ _. HasTasks (array_sizes (G.dimensions source.now))
        (array_sizes (G.dimensions target.now)) region.now at.now
        (map non_zero_u64_get task_chunks.now)) }
    ensures refused { IfErr result (OrMemory (IsTasksFault (array_sizes (G.dimensions source.now))
        (array_sizes (G.dimensions target.now)) region.now at.now
        (map non_zero_u64_get task_chunks.now))) }
    ensures faults_first { (¬ HasTasks (array_sizes (G.dimensions source.now))
        (array_sizes (G.dimensions target.now)) region.now at.now
        (map non_zero_u64_get task_chunks.now)) → HasMemory result }
{
    match order {
        Order::Target => tasks(alloc, source, target, region, at, task_chunks),
        Order::Source => tasks_by_source(alloc, source, target, region, at, task_chunks),
    }
}

/// Counts the tasks of the copy of a region, by groups of the chunks of the array that `order` names: [`task_counts`] or [`task_counts_by_source`].
///
/// # Errors
/// As of [`tasks`].
pub fn task_counts_by<G: ChunkGridTraits, H: ChunkGridTraits>(
    alloc: Global,
    order: Order,
    source: &G,
    target: &H,
    region: &ArraySubset,
    at: &[u64],
    task_chunks: &[NonZeroU64],
) -> Result<Vec<CountsAlong>, Refusal<TasksError>>
    ensures counts { IfOk result (λ counts. (tasks : List Task)
        → AreTasksBy order (G.dimensions source.now) (H.dimensions target.now)
        (map non_zero_u64_get task_chunks.now) region.now at.now tasks
        → AreTaskCounts (G.dimensions source.now) (H.dimensions target.now) tasks counts.items) }
    ensures long { IfOk result (λ counts. length counts.items
        ≡ length (G.dimensions source.now)) }
    ensures empty { IsEmptyBox region.now → IfOk result (λ counts.
        AllByRecursion AreNone counts.items) }
    ensures has { IfOk result (λ _. HasTasks (array_sizes (G.dimensions source.now))
        (array_sizes (H.dimensions target.now)) region.now at.now
        (map non_zero_u64_get task_chunks.now)) }
    ensures refused { IfErr result (OrMemory (IsTasksFault (array_sizes (G.dimensions source.now))
        (array_sizes (H.dimensions target.now)) region.now at.now
        (map non_zero_u64_get task_chunks.now))) }
    ensures faults_first { (¬ HasTasks (array_sizes (G.dimensions source.now))
        (array_sizes (H.dimensions target.now)) region.now at.now
        (map non_zero_u64_get task_chunks.now)) → HasMemory result }
{
    match order {
        Order::Target => task_counts(alloc, source, target, region, at, task_chunks),
        Order::Source => task_counts_by_source(alloc, source, target, region, at, task_chunks),
    }
}
