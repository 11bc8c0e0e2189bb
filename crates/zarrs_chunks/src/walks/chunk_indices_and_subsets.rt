//! The walk over chunk numbers and boxes.
ghost use Rattle.std.specs.Prelude.{◌≡◌, map};

use crate::ChunkGridTraits;
use crate::walks::chunk_boxes::ChunkBoxes;
use std::alloc::{AllocError, Global};
use zarrs_chunk_axes::ArrayIndicesTinyVec;
use zarrs_chunk_base::ArraySubset;

/// The numbers of all chunks that a grid counts, each with the chunk's box, in row-major order. A chunk that ends past
/// 18446744073709551615 has no box, and is passed over.
///
/// After an `Err` or the end the walk gives nothing more.
#[derive(Debug, Drop)]
pub struct ChunkIndicesAndSubsets<'a, G> {
    boxes: ChunkBoxes<'a, G>,
}

impl<'a, G: ChunkGridTraits> ChunkIndicesAndSubsets<'a, G> {
    ghost use Rattle.zarrs_chunks.specs.Walks.{box_at, boxed, chunks_of};
    ghost use Rattle.zarrs_chunks.specs.seen.Walks.{AreChunksOfGrid, chunks_and_boxes_left};

    /// A walk over a grid's chunks and their boxes. It takes no memory.
    pub(crate) fn new(alloc: Global, grid: &'a G) -> ChunkIndicesAndSubsets<'a, G>
        ensures over { AreChunksOfGrid G.dimensions result }
        ensures left { chunks_and_boxes_left G.dimensions result
            ≡ map (λ chunk. (chunk, box_at (G.dimensions grid.now) chunk))
            (boxed (G.dimensions grid.now) (chunks_of (G.dimensions grid.now))) }
    {
        ChunkIndicesAndSubsets {
            boxes: ChunkBoxes::new(alloc, grid),
        }
    }
}

impl<'a, G: ChunkGridTraits> Iterator for ChunkIndicesAndSubsets<'a, G> {
    ghost use Rattle.std.specs.Prelude.{◌≢◌, []};
    ghost use Rattle.std.specs.Iterator.{item_count};
    ghost use Rattle.zarrs_chunks.specs.Walks.{Gives};
    ghost use Rattle.zarrs_chunks.specs.seen.Walks.{AreChunksOfGrid, chunks_ahead, chunks_and_boxes_left};

    type Item = Result<(ArrayIndicesTinyVec, ArraySubset), AllocError>;

    ghost next_gives = { λ before given after. AreChunksOfGrid G.dimensions before
        → AreChunksOfGrid G.dimensions after
        × Gives (λ walk. chunks_ahead G.dimensions walk.boxes) (chunks_and_boxes_left G.dimensions)
        (λ item. (item.0.items, item.1)) (λ chunks. chunks ≢ []) before given after };

    ghost remaining = { item_count (λ walk. chunks_ahead G.dimensions walk.boxes) };

    fn next(&mut self) -> Option<Result<(ArrayIndicesTinyVec, ArraySubset), AllocError>> {
        let subset = match self.boxes.step().transpose()? {
            Ok(subset) => subset,
            Err(error) => return Some(Err(error)),
        };
        match self.boxes.indices() {
            Ok(indices) => Some(Ok((indices, subset))),
            Err(error) => Some(Err(error)),
        }
    }
}
