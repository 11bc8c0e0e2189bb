//! What holds of the tasks of every copy, over any grids. It follows from the laws of [`zarrs_chunks::laws`].
//! The laws are about every answer that the contracts of the calls allow, and don't make the calls.
//!
//! | What holds | The function whose contract says it |
//! |---|---|
//! | What a walk that `tasks` or `tasks_by_source` returns gives, one after another, are the tasks of the copy | [`the_walk_gives_the_tasks`] |
//! | Each element of the region is moved by exactly one task, to where it goes; no task moves anything else | [`the_tasks_are_the_copy`] |
//! | The tasks of two stages, one after another, are the copy | [`two_stages_are_the_copy`] |
//! | Both boxes of a task lie in their arrays | [`each_task_lies_in_both_arrays`] |
//! | Shares of the tasks are together the tasks | [`shares_are_together_the_tasks`] |
//! | No chunk of the grouped array is in two tasks | [`no_chunk_is_in_two_tasks`] |
//! | If a task reads all that a chunk has of the array, no other task reads the chunk; and the same of writing | [`a_whole_chunk_is_in_one_task`] |
//! | The copy the other way round has the same tasks | [`the_other_way_round_has_the_same_tasks`] |
//! | An element that a task reads is written from the place of the buffer to which it was read | [`each_element_goes_by_the_buffer`] |
//! | In a rechunking each part that a task writes is whole | [`a_rechunking_writes_whole_chunks`] |
//! | What is counted of a task's box is what its plan reads or writes: its parts, and the elements of their chunks | [`counts_are_those_of_the_parts`] |
//! | There is a list of tasks for each copy | [`there_are_tasks`] |
//! | Tasks read no fewer chunks than their largest buffer allows | [`tasks_read_no_fewer`] |
ghost use Rattle.std.specs.Prelude.{◌≡◌, ◌↔◌, ◌<◌, ℕ, IsTrue, List, Ok, map};
ghost use Rattle.std.specs.Int.NonZero.{non_zero_u64_get};
ghost use Rattle.std.specs.Iterator.{Drains};
ghost use Rattle.std.specs.List.{AllPairs, Contains, flat_map, range_with_len};
ghost use Rattle.zarrs_chunk_base.specs.ArraySubset.{Box, IsBox};
ghost use Rattle.zarrs_chunk_base.specs.Dimension.{array_sizes};
ghost use Rattle.zarrs_chunk_parts.specs.Plan.{IsPlan, Meets};
ghost use Rattle.zarrs_chunk_plan.specs.Region.{IsDestination, LiesIn, moved};
ghost use Rattle.zarrs_chunk_plan.specs.Shares.{numbered_share};
ghost use Rattle.zarrs_chunk_tasks.specs.Counts.{AreMet, parts_met};
ghost use Rattle.zarrs_chunk_tasks.specs.Limits.{HasAtMost, HasPart, OfParts, ReadNoFewer};
ghost use Rattle.zarrs_chunk_tasks.specs.Tasks.{AreTasks, AreTasksBy, AreTasksBySource, AreTasksByTarget, AreTasksOfRechunking, AreTheCopy, GoesByBoth, GoesByBuffer};
ghost use Rattle.zarrs_chunk_tasks.specs.Tasks.{HasAllAndSome, HasTasks, Moves, exchanged};
ghost use Rattle.zarrs_chunk_tasks.specs.declared.order.Order.{Order as OrderValue};
ghost use Rattle.zarrs_chunk_tasks.specs.seen.Tasks.{ArePlanned, AreTasksToCome, CanGive, GivesTask};

use crate::{Task, Tasks};
use std::num::NonZeroU64;
use zarrs_chunk_base::ArraySubset;
use zarrs_chunk_keys::ChunkKeyEncodingTraits;
use zarrs_chunk_plan::{Part, StoredArray};
use zarrs_chunks::ChunkGridTraits;

/// What a walk gives up to its end is its tasks to come. These are the tasks of the copy, for a walk that `tasks` or `tasks_by_source` returns: one for
/// each group that holds some of the region, in order.
pub fn the_walk_gives_the_tasks<G: ChunkGridTraits>(grid: &G)
    ensures to_come { (walk : Tasks G) (tasks : List Task) → CanGive G.dimensions walk
        → Drains (GivesTask G.dimensions) walk (map Ok tasks)
        → AreTasksToCome G.dimensions walk tasks }
    ensures tasks { (each : List ℕ) (elements : Box) (first at : List ℕ) (walk : Tasks G)
        (tasks : List Task) → ArePlanned G.dimensions grid.now each elements first at walk
        → AreTasksToCome G.dimensions walk tasks
        → AreTasks (G.dimensions grid.now) each elements first at tasks }
{}

/// Each element of the region is moved by some task, to where it goes, and no task moves anything else. No two tasks read one element of the source's
/// array, or write one of the target's.
pub fn the_tasks_are_the_copy<G: ChunkGridTraits, H: ChunkGridTraits>(
    source: &G,
    target: &H,
    region: &ArraySubset,
)
    ensures by_target { (at each : List ℕ) (tasks : List Task)
        → HasTasks (array_sizes (G.dimensions source.now)) (array_sizes (H.dimensions target.now))
        region.now at each → AreTasksByTarget (H.dimensions target.now) each region.now at tasks
        → AreTheCopy region.now at tasks }
    ensures by_source { (at each : List ℕ) (tasks : List Task)
        → HasTasks (array_sizes (G.dimensions source.now)) (array_sizes (H.dimensions target.now))
        region.now at each → AreTasksBySource (G.dimensions source.now) each region.now at tasks
        → AreTheCopy region.now at tasks }
{
    region.is_a_box();
}

/// Two stages are together the copy. The tasks of the first one move the region to an intermediate array of its shape, and the tasks of the second one move that
/// array on. An element goes by a task of each exactly where it goes in one stage.
pub fn two_stages_are_the_copy(region: &ArraySubset)
    ensures { (between : Box) (at : List ℕ) (first second : List Task) → IsBox between
        → between.shape ≡ region.now.shape → AreTheCopy region.now between.start first
        → AreTheCopy between at second → (index to : List ℕ)
        → IsDestination region.now at index to ↔ GoesByBoth first second index to }
{}

/// Both boxes of a task lie in their arrays, so both have a plan.
pub fn each_task_lies_in_both_arrays<G: ChunkGridTraits, H: ChunkGridTraits>(source: &G, target: &H)
    ensures by_target { (region : Box) (at each : List ℕ) (tasks : List Task)
        → HasTasks (array_sizes (G.dimensions source.now)) (array_sizes (H.dimensions target.now))
        region at each → AreTasksByTarget (H.dimensions target.now) each region at tasks
        → (task : Task) → Contains tasks task
        → LiesIn task.source (array_sizes (G.dimensions source.now))
        × LiesIn task.target (array_sizes (H.dimensions target.now)) }
    ensures by_source { (region : Box) (at each : List ℕ) (tasks : List Task)
        → HasTasks (array_sizes (G.dimensions source.now)) (array_sizes (H.dimensions target.now))
        region at each → AreTasksBySource (G.dimensions source.now) each region at tasks
        → (task : Task) → Contains tasks task
        → LiesIn task.source (array_sizes (G.dimensions source.now))
        × LiesIn task.target (array_sizes (H.dimensions target.now)) }
{}

/// The shares of a list of tasks, one after another, are the tasks.
pub fn shares_are_together_the_tasks()
    ensures { (of : ℕ) → 0 < of → (tasks : List Task)
        → flat_map (λ number. numbered_share number of tasks) (range_with_len 0 of) ≡ tasks }
{}

/// No chunk of the target is in two tasks, if its chunks are grouped, so no two tasks write one chunk. If the source's are, no two read one.
pub fn no_chunk_is_in_two_tasks<G: ChunkGridTraits, H: ChunkGridTraits>(source: &G, target: &H)
    ensures by_target { (region : Box) (at each : List ℕ) (tasks : List Task)
        → AreTasksByTarget (H.dimensions target.now) each region at tasks
        → AllPairs (λ one other. (chunk : List ℕ) → Meets (H.dimensions target.now) one.target chunk
        → Meets (H.dimensions target.now) other.target chunk → ⊥) tasks }
    ensures by_source { (region : Box) (at each : List ℕ) (tasks : List Task)
        → AreTasksBySource (G.dimensions source.now) each region at tasks
        → AllPairs (λ one other. (chunk : List ℕ) → Meets (G.dimensions source.now) one.source chunk
        → Meets (G.dimensions source.now) other.source chunk → ⊥) tasks }
{}

/// If a task writes all that a chunk of the target has of its array, no other task writes to the chunk. Such a task needn't read the chunk first. Between
/// two arrays it needs no lock against the other tasks. If a task reads all that a chunk of the source has of its array, no other task reads the chunk.
pub fn a_whole_chunk_is_in_one_task<G: ChunkGridTraits, H: ChunkGridTraits>(
    source: &G,
    target: &H,
    region: &ArraySubset,
)
    ensures written { (order : OrderValue) (at each : List ℕ) (tasks : List Task)
        → HasTasks (array_sizes (G.dimensions source.now)) (array_sizes (H.dimensions target.now))
        region.now at each
        → AreTasksBy order (G.dimensions source.now) (H.dimensions target.now) each region.now at
        tasks
        → AllPairs (λ one other. (chunk : List ℕ)
        → HasAllAndSome (H.dimensions target.now) one.target other.target chunk → ⊥) tasks }
    ensures read { (order : OrderValue) (at each : List ℕ) (tasks : List Task)
        → HasTasks (array_sizes (G.dimensions source.now)) (array_sizes (H.dimensions target.now))
        region.now at each
        → AreTasksBy order (G.dimensions source.now) (H.dimensions target.now) each region.now at
        tasks
        → AllPairs (λ one other. (chunk : List ℕ)
        → HasAllAndSome (G.dimensions source.now) one.source other.source chunk → ⊥) tasks }
{}

/// The copy the other way round takes the moved box back to the region. It can be made if the copy can, with the same numbers of chunks a task. Its tasks,
/// by groups of the same chunks, are the tasks of the copy with their boxes exchanged, in the same order.
pub fn the_other_way_round_has_the_same_tasks<G: ChunkGridTraits>(grid: &G)
    ensures has { (source target : List ℕ) (region : Box) (at each : List ℕ)
        → HasTasks source target region at each
        → HasTasks target source (moved at region) region.start each }
    ensures by_target { (region : Box) (at each : List ℕ) (tasks : List Task)
        → AreTasksByTarget (G.dimensions grid.now) each region at tasks
        → AreTasksBySource (G.dimensions grid.now) each (moved at region) region.start
        (map exchanged tasks) }
    ensures by_source { (region : Box) (at each : List ℕ) (tasks : List Task)
        → AreTasksBySource (G.dimensions grid.now) each region at tasks
        → AreTasksByTarget (G.dimensions grid.now) each (moved at region) region.start
        (map exchanged tasks) }
{}

/// There is a list of tasks for the copy of each region that lies in both arrays, and each list of chunks a task. It may be empty. If the
/// groups are of the target's chunks, the moved box has to be a box.
pub fn there_are_tasks<G: ChunkGridTraits, H: ChunkGridTraits>(
    source: &G,
    target: &H,
    region: &ArraySubset,
    task_chunks: &[NonZeroU64],
)
    ensures by_target { (at : List ℕ) → HasTasks (array_sizes (G.dimensions source.now))
        (array_sizes (H.dimensions target.now)) region.now at (map non_zero_u64_get task_chunks.now)
        → IsBox (moved at region.now) → (tasks : List Task)
        × AreTasksByTarget (H.dimensions target.now) (map non_zero_u64_get task_chunks.now)
        region.now at tasks }
    ensures by_source { (at : List ℕ) → HasTasks (array_sizes (G.dimensions source.now))
        (array_sizes (H.dimensions target.now)) region.now at (map non_zero_u64_get task_chunks.now)
        → (tasks : List Task)
        × AreTasksBySource (G.dimensions source.now) (map non_zero_u64_get task_chunks.now)
        region.now at tasks }
{
    region.is_a_box();
}

/// An element that a task moves is read by a part of the plan of the task's box in the source's array, and written by a part of the plan of its box in the
/// target's array. Both parts have it at one place of the buffer. That there is only one such part of either plan is a law of
/// [plans](zarrs_chunk_plan::laws::each_element_lies_in_one_part).
pub fn each_element_goes_by_the_buffer<
    G: ChunkGridTraits,
    E: ChunkKeyEncodingTraits,
    H: ChunkGridTraits,
    F: ChunkKeyEncodingTraits,
>(source: &StoredArray<G, E>, target: &StoredArray<H, F>)
    ensures { (task : Task) (from into : List Part) → IsBox task.source → IsBox task.target
        → task.source.shape ≡ task.target.shape
        → IsPlan (G.dimensions source.now.grid) (E.is_key source.now.encoding) task.source from
        → IsPlan (H.dimensions target.now.grid) (F.is_key target.now.encoding) task.target into
        → (index to : List ℕ) → Moves task index to → GoesByBuffer task from into index to }
{}

/// In a rechunking each part that a task writes is whole, so no chunk of the target is read.
pub fn a_rechunking_writes_whole_chunks<H: ChunkGridTraits, F: ChunkKeyEncodingTraits>(
    target: &StoredArray<H, F>,
)
    ensures { (each : List ℕ) (tasks : List Task)
        → AreTasksOfRechunking (H.dimensions target.now.grid) each tasks
        → (task : Task) → Contains tasks task → (parts : List Part)
        → IsPlan (H.dimensions target.now.grid) (F.is_key target.now.encoding) task.target parts
        → (part : Part) → Contains parts part → IsTrue part.whole }
{}

/// What is counted of a box that a task reads or writes are the parts of the box's plan, and the elements of their chunks, each whole.
pub fn counts_are_those_of_the_parts<G: ChunkGridTraits, E: ChunkKeyEncodingTraits>(
    array: &StoredArray<G, E>,
)
    ensures { (elements : Box) (met : ℕ × ℕ) (parts : List Part)
        → AreMet (G.dimensions array.now.grid) elements met
        → IsPlan (G.dimensions array.now.grid) (E.is_key array.now.encoding) elements parts
        → met ≡ parts_met parts }
{}

/// Tasks read no fewer chunks than their largest buffer allows, whatever numbers of chunks they take: `chunks * parts * buffer >= elements * larger`. There are
/// `chunks` reads, the largest buffer has `buffer` elements, and `elements` are copied. Along each dimension no chunk of the source has more than a part of what
/// is copied, and some chunk of the target has all of another part. `parts` is the product of the former, and `larger` is the product of the larger ones of both.
pub fn tasks_read_no_fewer<G: ChunkGridTraits, H: ChunkGridTraits>(
    source: &G,
    target: &H,
    region: &ArraySubset,
    task_chunks: &[NonZeroU64],
)
    ensures { (at : List ℕ) (tasks : List Task) (parts others : List ℕ)
        → HasTasks (array_sizes (G.dimensions source.now)) (array_sizes (H.dimensions target.now))
        region.now at (map non_zero_u64_get task_chunks.now)
        → IsBox (moved at region.now)
        → AreTasksByTarget (H.dimensions target.now) (map non_zero_u64_get task_chunks.now)
        region.now at tasks
        → OfParts HasAtMost (G.dimensions source.now) parts region.now.start region.now.shape
        → OfParts HasPart (H.dimensions target.now) others at region.now.shape
        → ReadNoFewer (G.dimensions source.now) (H.dimensions target.now) region.now.shape parts
        others tasks }
{
    region.is_a_box();
}
