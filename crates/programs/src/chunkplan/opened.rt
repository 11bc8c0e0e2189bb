//! Arrays in a grid and under an encoding of the library's kinds, as a document stores them.
use zarrs_chunk_keys::ChunkKeyEncoding;
use zarrs_chunk_plan::{Parts, StoredArray};
use zarrs_chunk_tasks::Tasks;
use zarrs_chunks::ChunkGrid;

/// An array.
pub(crate) type OpenedArray = StoredArray<ChunkGrid, ChunkKeyEncoding>;

/// A walk over the parts of a read.
pub(crate) type OpenedParts<'a> = Parts<'a, ChunkGrid, ChunkKeyEncoding>;

/// A walk over the tasks of a copy.
pub(crate) type OpenedTasks<'a> = Tasks<'a, ChunkGrid>;
