//! Why a copy has no tasks.
use thiserror::Error;
use zarrs_chunk_base::IncompatibleDimensionalityError;
use zarrs_chunk_plan::RegionError;

/// A copy has no tasks: its arrays don't fit together, or the list of chunks a task has another length.
#[derive(Clone, Copy, Debug, PartialEq, Eq, Error)]
pub enum TasksError {
    /// There are more or fewer numbers of chunks a task than dimensions.
    #[error("the chunks a task: {0}")]
    TaskChunks(IncompatibleDimensionalityError),
    /// The region, the two arrays and the index to begin at don't fit together.
    #[error("{0}")]
    Region(RegionError),
}
