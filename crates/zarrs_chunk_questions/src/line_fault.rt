//! Why a line has no answer.
use crate::unreadable::Unreadable;
use thiserror::Error;
use zarrs_chunk_base::{
    ArraySubsetError, ExtensionError, IncompatibleDimensionalityError, StoreKeyError,
};
use zarrs_chunk_tasks::TasksError;

/// Why a line has no answer: it can't be read, or the library refuses.
#[derive(Debug, Drop, Error)]
pub(crate) enum LineFault {
    /// The line can't be read.
    #[error("{0}")]
    Unreadable(Unreadable),
    /// The chunk grid or the chunk key encoding can't be made of its tree.
    #[error("{0}")]
    Extension(ExtensionError),
    /// The same of the target.
    #[error("field `target`: {0}")]
    TargetExtension(ExtensionError),
    /// The grid of the new shape can't be made of the array's own tree.
    #[error("field `resize`: {0}")]
    ResizedExtension(ExtensionError),
    /// The box that the call is asked of can't be made.
    #[error("{0}")]
    NotBox(ArraySubsetError),
    /// The text that the call is asked of is no store key.
    #[error("{0}")]
    Key(StoreKeyError),
    /// What the call is asked of has another number of dimensions than the grid.
    #[error("{0}")]
    Lengths(IncompatibleDimensionalityError),
    /// The copy that is asked for has no tasks.
    #[error("{0}")]
    Tasks(TasksError),
    /// There are too many chunks to count the tasks.
    #[error("more than 1048576 chunks along a dimension, so the tasks aren't counted")]
    TooManyToCount,
}
