//! The walk over the chunk numbers in a box.
ghost use Rattle.std.specs.Prelude.{◌≡◌, IfOk};
ghost use Rattle.zarrs_chunk_axes.specs.seen.RowMajorWalk.{shape_of};
ghost use Rattle.zarrs_chunks.specs.Walks.{chunks_in};

use std::alloc::{AllocError, Global};
use zarrs_chunk_axes::row_major::count_from;
use zarrs_chunk_axes::{ArrayIndicesTinyVec, RowMajorWalk};
use zarrs_chunk_base::ArraySubset;

/// The chunks in a box of chunk numbers, as a cover is one, in row-major order: the numbers of the last dimension change
/// fastest.
///
/// The walk over all chunks of a grid is the one over the box that begins at 0 and has the grid's shape. It is a type of its own,
/// [`ChunkIndices`](crate::ChunkIndices), since it borrows that shape and so takes no memory to make.
///
/// An item of up to four numbers takes no memory. After an `Err` or the end the walk gives nothing more.
#[derive(Debug, Drop)]
pub struct ChunkIndicesInSubset {
    chunks: ArraySubset,
    /// The chunks, counted from the first one of the box.
    offsets: RowMajorWalk<'static>,
    ghost shape: { shape_of offsets ≡ chunks.shape },
}

impl ChunkIndicesInSubset {
    ghost use Rattle.std.specs.Prelude.{[]};
    ghost use Rattle.zarrs_chunks.specs.seen.Walks.{chunks_in_left, offsets_left};

    /// A walk over the chunks in a box.
    ///
    /// # Errors
    /// Out of memory.
    pub fn new(alloc: Global, chunks: ArraySubset) -> Result<ChunkIndicesInSubset, AllocError>
        ensures { IfOk result (λ walk. chunks_in_left walk ≡ chunks_in chunks) }
    {
        let shape = chunks.shape().to_vec(alloc)?;
        Ok(ChunkIndicesInSubset {
            chunks,
            offsets: RowMajorWalk::owning(alloc, shape),
        })
    }

    /// Ends the walk.
    pub fn end(&mut self)
        ensures ends { chunks_in_left self.new ≡ [] }
        ensures ahead { offsets_left self.new ≡ [] }
    {
        self.offsets.end();
    }
}

impl Iterator for ChunkIndicesInSubset {
    ghost use Rattle.std.specs.Iterator.{item_count};
    ghost use Rattle.zarrs_chunk_axes.specs.RowMajor.{NeedsMemory};
    ghost use Rattle.zarrs_chunks.specs.Walks.{Gives};
    ghost use Rattle.zarrs_chunks.specs.seen.Walks.{chunks_in_left, offsets_left};

    type Item = Result<ArrayIndicesTinyVec, AllocError>;

    ghost next_gives = { Gives offsets_left chunks_in_left (λ chunk. chunk.items) NeedsMemory };

    ghost remaining = { item_count offsets_left };

    fn next(&mut self) -> Option<Result<ArrayIndicesTinyVec, AllocError>> {
        match self.offsets.step() {
            Ok(true) => (),
            Ok(false) => return None,
            Err(error) => return Some(Err(error)),
        }
        match self.offsets.indices() {
            Ok(mut chunk) => {
                count_from(chunk.as_mut_slice(), self.chunks.start());
                Some(Ok(chunk))
            }
            Err(error) => Some(Err(error)),
        }
    }
}
