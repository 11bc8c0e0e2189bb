//! The walk over chunks that have a box, which stands under the two walks that give boxes.
ghost use Rattle.std.specs.Prelude.{◌≡◌, IfOk, OnErr, OnOk, []};

use crate::ChunkGridTraits;
use std::alloc::{AllocError, Global};
use zarrs_chunk_axes::{ArrayIndicesTinyVec, RowMajorWalk};
use zarrs_chunk_base::ArraySubset;

/// A walk over the chunks that a grid counts and that end at 18446744073709551615 or before it.
#[derive(Debug, Drop)]
pub(crate) struct ChunkBoxes<'a, G> {
    alloc: Global,
    grid: &'a G,
    walk: RowMajorWalk<'a>,
}

impl<'a, G: ChunkGridTraits> ChunkBoxes<'a, G> {
    ghost use Rattle.zarrs_chunk_axes.specs.seen.RowMajorWalk.{numbers_at};
    ghost use Rattle.zarrs_chunks.specs.Walks.{chunks_of};
    ghost use Rattle.zarrs_chunks.specs.seen.Walks.{GoesOn, IsOverGrid, StepsTo, chunks_ahead};

    /// A walk over the chunks of a grid. It takes no memory.
    pub(crate) fn new(alloc: Global, grid: &'a G) -> ChunkBoxes<'a, G>
        ensures grid { result.grid.now ≡ grid.now }
        ensures over { IsOverGrid G.dimensions result }
        ensures ahead { chunks_ahead G.dimensions result ≡ chunks_of (G.dimensions grid.now) }
    {
        ChunkBoxes {
            alloc,
            grid,
            walk: RowMajorWalk::new(alloc, grid.grid_shape()),
        }
    }

    /// Goes to the next chunk that has a box, and answers that box; `None` at the end.
    ///
    /// A chunk has none where it ends past 18446744073709551615 in some dimension. Then no chunk has one that is at least
    /// as far along every dimension, and all of these that come next are passed over at once. So the grid is asked for a
    /// box at most once for each dimension, and once more, however many chunks it counts.
    ///
    /// # Errors
    /// Out of memory. The walk has ended then.
    pub(crate) fn step(&mut self) -> Result<Option<ArraySubset>, AllocError>
        ensures steps { IsOverGrid G.dimensions self.old
            → StepsTo G.dimensions self.old result self.new }
        ensures fewer { GoesOn G.dimensions self.old result self.new }
        ensures over { IsOverGrid G.dimensions self.old → IsOverGrid G.dimensions self.new }
        ensures grid { self.new.grid.now ≡ self.old.grid.now }
    {
        let mut found = self.walk.step()?;
        while found {
            match self.grid.subset(self.alloc, self.walk.numbers()) {
                Ok(Some(subset)) => return Ok(Some(subset)),
                Ok(None) => found = self.walk.pass_over(),
                // Out of memory: a walk over its grid's shape has as many numbers as the grid has dimensions.
                Err(_) => {
                    self.walk.end();
                    return Err(AllocError);
                }
            }
        }
        Ok(None)
    }

    /// The numbers of the chunk at which the walk stands.
    ///
    /// # Errors
    /// Out of memory. The walk has ended then.
    pub(crate) fn indices(&mut self) -> Result<ArrayIndicesTinyVec, AllocError>
        ensures copy { IfOk result (λ indices. indices.items ≡ numbers_at self.old.walk) }
        ensures stays { OnOk result (self.new ≡ self.old) }
        ensures ends { OnErr result (chunks_ahead G.dimensions self.new ≡ []) }
        ensures over { IsOverGrid G.dimensions self.old → IsOverGrid G.dimensions self.new }
        ensures grid { self.new.grid.now ≡ self.old.grid.now }
    {
        self.walk.indices()
    }
}
