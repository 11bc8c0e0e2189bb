//! What is counted of tasks, by its name.
ghost use Rattle.std.specs.Prelude.{◌≡◌};
ghost use Rattle.zarrs_chunk_tasks.specs.Counts.{count_along};

use crate::counts::CountsAlong;

/// What is counted of tasks: a field of [`CountsAlong`].
#[derive(Clone, Copy, Debug, PartialEq, Eq)]
pub enum Count {
    /// Chunks of the source, each once for each task that reads it.
    ChunksRead,
    /// Chunks of the target, each once for each task that writes it.
    ChunksWritten,
    /// Elements of the chunks that are read, each chunk whole.
    ElementsDecoded,
    /// Elements of the largest buffer.
    LargestTask,
    /// Tasks.
    Tasks,
}

impl Count {
    /// Returns the count along one dimension. The product over all dimensions is the count.
    pub fn along(self, counts: &CountsAlong) -> u128
        ensures { result ≡ count_along self counts.now }
    {
        match self {
            Count::ChunksRead => counts.chunks_read as u128,
            Count::ChunksWritten => counts.chunks_written as u128,
            Count::ElementsDecoded => counts.elements_decoded,
            Count::LargestTask => counts.largest_task as u128,
            Count::Tasks => counts.tasks as u128,
        }
    }
}
