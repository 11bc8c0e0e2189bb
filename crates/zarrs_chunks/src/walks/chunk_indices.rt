//! The walk over chunk numbers.
ghost use Rattle.std.specs.Prelude.{◌≡◌};
ghost use Rattle.zarrs_chunk_axes.specs.RowMajor.{row_major};

use std::alloc::{AllocError, Global};
use zarrs_chunk_axes::{ArrayIndicesTinyVec, RowMajorWalk};

/// The numbers of all chunks that a grid counts, in row-major order: those of the last dimension change fastest.
///
/// An item of up to four numbers takes no memory. After an `Err` or the end the walk gives nothing more.
#[derive(Debug, Drop)]
pub struct ChunkIndices<'a> {
    walk: RowMajorWalk<'a>,
}

impl<'a> ChunkIndices<'a> {
    ghost use Rattle.zarrs_chunks.specs.seen.Walks.{chunks_left};

    /// A walk over all numbers below a shape: that of a grid, or that of a cover, whose start is then to be added to each of them.
    /// Making it takes no memory.
    pub fn new(alloc: Global, shape: &'a [u64]) -> ChunkIndices<'a>
        ensures { chunks_left result ≡ row_major shape.now }
    {
        ChunkIndices {
            walk: RowMajorWalk::new(alloc, shape),
        }
    }
}

impl Iterator for ChunkIndices<'_> {
    ghost use Rattle.std.specs.Iterator.{item_count};
    ghost use Rattle.zarrs_chunk_axes.specs.RowMajor.{NeedsMemory};
    ghost use Rattle.zarrs_chunks.specs.Walks.{Gives};
    ghost use Rattle.zarrs_chunks.specs.seen.Walks.{chunks_left};

    type Item = Result<ArrayIndicesTinyVec, AllocError>;

    ghost next_gives = { Gives chunks_left chunks_left (λ chunk. chunk.items) NeedsMemory };

    ghost remaining = { item_count chunks_left };

    // It is inlined, with its step and its copy, into the loops over all chunks.
    #[inline(always)]
    fn next(&mut self) -> Option<Result<ArrayIndicesTinyVec, AllocError>> {
        match self.walk.step() {
            Ok(true) => Some(self.walk.indices()),
            Ok(false) => None,
            Err(error) => Some(Err(error)),
        }
    }
}
