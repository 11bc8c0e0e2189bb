//! How many chunks of the source a task of a rechunking reads, at most.
use std::alloc::Global;
use std::num::NonZeroU64;
use zarrs_chunk_base::Refusal;
use zarrs_chunk_keys::ChunkKeyEncodingTraits;
use zarrs_chunk_parts::found_or_out_of_memory;
use zarrs_chunk_plan::{StoredArray, parts, whole_array};
use zarrs_chunk_tasks::{TasksError, tasks};
use zarrs_chunks::ChunkGridTraits;

/// The greatest number of chunks of the source that one task reads.
pub fn most_sources<G: ChunkGridTraits, E: ChunkKeyEncodingTraits, H: ChunkGridTraits>(
    alloc: Global,
    source: &StoredArray<G, E>,
    target: &H,
    task_chunks: &[NonZeroU64],
) -> Result<u64, Refusal<TasksError>> {
    let array = whole_array(alloc, target)?;
    let mut most = 0u64;
    for task in tasks(
        alloc,
        &source.grid,
        target,
        &array,
        array.start(),
        task_chunks,
    )? {
        let task = task?;
        let read = found_or_out_of_memory(parts(
            alloc,
            &source.grid,
            &source.encoding,
            &task.source,
        ))?;
        let mut count = 0u64;
        for part in read {
            // It goes from `part.in_chunk` of the chunk under `part.key` to `part.in_selection` of the task's buffer.
            let _part = part?;
            count = count.saturating_add(1);
        }
        most = most.max(count);
    }
    Ok(most)
}
