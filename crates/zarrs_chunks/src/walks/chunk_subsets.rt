//! The walk over boxes of chunks.
ghost use Rattle.std.specs.Prelude.{◌≡◌, map};

use crate::ChunkGridTraits;
use crate::walks::chunk_boxes::ChunkBoxes;
use std::alloc::{AllocError, Global};
use zarrs_chunk_base::ArraySubset;

/// The boxes of all chunks that a grid counts, in row-major order. A chunk that ends past 18446744073709551615 has none, and
/// is passed over.
///
/// After an `Err` or the end the walk gives nothing more.
#[derive(Debug, Drop)]
pub struct ChunkSubsets<'a, G> {
    boxes: ChunkBoxes<'a, G>,
}

impl<'a, G: ChunkGridTraits> ChunkSubsets<'a, G> {
    ghost use Rattle.zarrs_chunks.specs.Walks.{box_at, boxed, chunks_of};
    ghost use Rattle.zarrs_chunks.specs.seen.Walks.{AreBoxesOfGrid, boxes_left};

    /// A walk over the boxes of a grid's chunks. It takes no memory.
    pub(crate) fn new(alloc: Global, grid: &'a G) -> ChunkSubsets<'a, G>
        ensures over { AreBoxesOfGrid G.dimensions result }
        ensures left { boxes_left G.dimensions result
            ≡ map (box_at (G.dimensions grid.now))
            (boxed (G.dimensions grid.now) (chunks_of (G.dimensions grid.now))) }
    {
        ChunkSubsets {
            boxes: ChunkBoxes::new(alloc, grid),
        }
    }
}

impl<'a, G: ChunkGridTraits> Iterator for ChunkSubsets<'a, G> {
    ghost use Rattle.std.specs.Prelude.{◌≢◌, []};
    ghost use Rattle.std.specs.Iterator.{item_count};
    ghost use Rattle.zarrs_chunks.specs.Walks.{Gives};
    ghost use Rattle.zarrs_chunks.specs.seen.Walks.{AreBoxesOfGrid, boxes_left, chunks_ahead};

    type Item = Result<ArraySubset, AllocError>;

    ghost next_gives = { λ before given after. AreBoxesOfGrid G.dimensions before
        → AreBoxesOfGrid G.dimensions after
        × Gives (λ walk. chunks_ahead G.dimensions walk.boxes) (boxes_left G.dimensions)
        (λ subset. subset) (λ chunks. chunks ≢ []) before given after };

    ghost remaining = { item_count (λ walk. chunks_ahead G.dimensions walk.boxes) };

    fn next(&mut self) -> Option<Result<ArraySubset, AllocError>> {
        self.boxes.step().transpose()
    }
}
