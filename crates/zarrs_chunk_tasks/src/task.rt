//! One task of a copy.
use zarrs_chunk_base::ArraySubset;
use zarrs_chunks::ArrayIndicesTinyVec;

/// A task of a copy: it fills a buffer from the source's array and writes it to the target's. Both boxes have the buffer's shape: its first element is the
/// first one of either, and so on.
#[derive(Debug, Drop)]
pub struct Task {
    /// The group whose elements these are: along each dimension the numbers of its chunks, divided by how many a task takes and rounded down.
    pub group: ArrayIndicesTinyVec,
    /// The elements to read, as a box of the source's array.
    pub source: ArraySubset,
    /// Where they go, as a box of the target's array.
    pub target: ArraySubset,
}
