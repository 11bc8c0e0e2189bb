//! The tasks of the copy of a region.
ghost use Rattle.std.specs.Prelude.{◌≡◌, IfErr, IfOk, map};
ghost use Rattle.std.specs.Int.NonZero.{non_zero_u64_get};
ghost use Rattle.zarrs_chunk_base.specs.Dimension.{array_sizes};
ghost use Rattle.zarrs_chunk_base.specs.Refusal.{HasMemory, OrMemory};
ghost use Rattle.zarrs_chunk_plan.specs.Region.{moved};
ghost use Rattle.zarrs_chunk_tasks.specs.Tasks.{HasTasks, IsTasksFault};
ghost use Rattle.zarrs_chunk_tasks.specs.seen.Tasks.{ArePlanned};

use crate::tasks_error::TasksError;
use crate::walk::Tasks;
use std::alloc::Global;
use std::num::NonZeroU64;
use zarrs_chunk_base::{ArraySubset, IncompatibleDimensionalityError, Refusal};
use zarrs_chunk_plan::moved_box;
use zarrs_chunks::ChunkGridTraits;

/// Returns the tasks of the copy of a region, by groups of the target's chunks. The region is a box of the source's array; it goes to the box of its shape
/// that begins at `at` in the target's array. Along each dimension a group joins `task_chunks` neighbouring chunks: if the numbers of two chunks, divided by
/// `task_chunks` and rounded down, are equal, they are in one group.
///
/// No chunk of the target is in two tasks. An empty region has no tasks; it lies in an array if its end does.
///
/// It takes the time and the memory of a cover of the target.
///
/// # Errors
/// The first that applies: `task_chunks`, the region, the target's array, or `at` has another number of dimensions than the source's array. The region
/// ends past the source's array. It ends past the target's array when it begins at `at`. Or out of memory.
pub fn tasks<'a, G: ChunkGridTraits, H: ChunkGridTraits>(
    alloc: Global,
    source: &G,
    target: &'a H,
    region: &ArraySubset,
    at: &[u64],
    task_chunks: &'a [NonZeroU64],
) -> Result<Tasks<'a, H>, Refusal<TasksError>>
    ensures planned { IfOk result (ArePlanned H.dimensions target.now
        (map non_zero_u64_get task_chunks.now) (moved at.now region.now) region.now.start at.now) }
    ensures has { IfOk result (λ _. HasTasks (array_sizes (G.dimensions source.now))
        (array_sizes (H.dimensions target.now)) region.now at.now
        (map non_zero_u64_get task_chunks.now)) }
    ensures refused { IfErr result (OrMemory (IsTasksFault (array_sizes (G.dimensions source.now))
        (array_sizes (H.dimensions target.now)) region.now at.now
        (map non_zero_u64_get task_chunks.now))) }
    ensures faults_first { (¬ HasTasks (array_sizes (G.dimensions source.now))
        (array_sizes (H.dimensions target.now)) region.now at.now
        (map non_zero_u64_get task_chunks.now)) → HasMemory result }
{
    let moved = moved_region(alloc, source, target, region, at, task_chunks)?;
    let first = Vec::from_slice(alloc, region.start())?;
    let at = Vec::from_slice(alloc, at)?;
    Ok(Tasks::new(alloc, target, task_chunks, moved, first, at)?)
}

/// Returns the tasks by groups of the source's chunks: no chunk of the source is in two tasks.
///
/// # Errors
/// As of [`tasks`].
pub fn tasks_by_source<'a, G: ChunkGridTraits, H: ChunkGridTraits>(
    alloc: Global,
    source: &'a G,
    target: &H,
    region: &ArraySubset,
    at: &[u64],
    task_chunks: &'a [NonZeroU64],
) -> Result<Tasks<'a, G>, Refusal<TasksError>>
    ensures planned { IfOk result (ArePlanned G.dimensions source.now
        (map non_zero_u64_get task_chunks.now) region.now region.now.start at.now) }
    ensures has { IfOk result (λ _. HasTasks (array_sizes (G.dimensions source.now))
        (array_sizes (H.dimensions target.now)) region.now at.now
        (map non_zero_u64_get task_chunks.now)) }
    ensures refused { IfErr result (OrMemory (IsTasksFault (array_sizes (G.dimensions source.now))
        (array_sizes (H.dimensions target.now)) region.now at.now
        (map non_zero_u64_get task_chunks.now))) }
    ensures faults_first { (¬ HasTasks (array_sizes (G.dimensions source.now))
        (array_sizes (H.dimensions target.now)) region.now at.now
        (map non_zero_u64_get task_chunks.now)) → HasMemory result }
{
    let _ = moved_region(alloc, source, target, region, at, task_chunks)?;
    let first = Vec::from_slice(alloc, region.start())?;
    let at = Vec::from_slice(alloc, at)?;
    Ok(Tasks::new(alloc, source, task_chunks, region.clone()?, first, at)?)
}

/// The box of the target's array that a region goes to, if its copy has tasks.
///
/// # Errors
/// As of [`tasks`].
pub(crate) fn moved_region<G: ChunkGridTraits, H: ChunkGridTraits>(
    alloc: Global,
    source: &G,
    target: &H,
    region: &ArraySubset,
    at: &[u64],
    task_chunks: &[NonZeroU64],
) -> Result<ArraySubset, Refusal<TasksError>>
    ensures value { IfOk result (λ b. b ≡ moved at.now region.now) }
    ensures has { IfOk result (λ _. HasTasks (array_sizes (G.dimensions source.now))
        (array_sizes (H.dimensions target.now)) region.now at.now
        (map non_zero_u64_get task_chunks.now)) }
    ensures refused { IfErr result (OrMemory (IsTasksFault (array_sizes (G.dimensions source.now))
        (array_sizes (H.dimensions target.now)) region.now at.now
        (map non_zero_u64_get task_chunks.now))) }
    ensures faults_first { (¬ HasTasks (array_sizes (G.dimensions source.now))
        (array_sizes (H.dimensions target.now)) region.now at.now
        (map non_zero_u64_get task_chunks.now)) → HasMemory result }
{
    let expected = source.dimensionality();
    if task_chunks.len() != expected {
        let lengths = IncompatibleDimensionalityError::new(task_chunks.len(), expected);
        return Err(Refusal::Refused(TasksError::TaskChunks(lengths)));
    }
    match moved_box(alloc, source, target, region, at) {
        Ok(moved) => Ok(moved),
        Err(refusal) => Err(refusal.map(TasksError::Region)),
    }
}
