//! What becomes of the chunks of an array that gets another shape, by three lists of numbers.
ghost use Rattle.std.specs.Prelude.{◌≡◌, ◌≢◌, IfErr, IfOk, length};
ghost use Rattle.zarrs_chunk_base.specs.Refusal.{HasMemory, OrMemory, TellsLengths};
ghost use Rattle.zarrs_chunk_plan.specs.Resize.{AreChangedChunks, AreResized};

use crate::resize::plan::{expect_as_many, uses_of};
use std::alloc::Global;
use zarrs_chunk_base::{ArrayShape, IncompatibleDimensionalityError, Refusal};
use zarrs_chunks::ChunkGridTraits;

/// How many chunks hold elements of an array before and after a resize, and how many of them stay as they are stored, along each dimension.
///
/// | Chunks that | have numbers |
/// |---|---|
/// | are kept | below `kept` |
/// | are rewritten | below `before` and below `after`, and not below `kept` |
/// | are deleted | below `before`, and not below `after` |
/// | are created | below `after`, and not below `before` |
///
/// The numbers of a chunk are below a list if each is less than the list's number of that dimension. A list that no chunk is below has only zeros.
#[derive(Debug, Drop)]
pub struct ChangedChunks {
    /// The chunks that hold elements of the array before the resize.
    pub before: ArrayShape,
    /// The chunks that hold elements of the array after it.
    pub after: ArrayShape,
    /// The chunks that hold the same elements in both, and have the same shape.
    pub kept: ArrayShape,
}

/// Returns what becomes of the chunks of an array that gets another shape, by its grid before and after. [`changes`](crate::changes) walks over the
/// same chunks, and says what each holds.
///
/// The grids are those that one configuration makes of the two array shapes, or others by which, along each dimension, an index below both
/// array sizes lies in the same chunk; of other grids nothing is said.
///
/// It takes the time and the memory of a few covers, however many chunks there are.
///
/// # Errors
/// The two grids have different numbers of dimensions; or out of memory.
pub fn changed_chunks<G: ChunkGridTraits, H: ChunkGridTraits>(
    alloc: Global,
    before: &G,
    after: &H,
) -> Result<ChangedChunks, Refusal<IncompatibleDimensionalityError>>
    ensures changed { AreResized (G.dimensions before.now) (H.dimensions after.now)
        → IfOk result (AreChangedChunks (G.dimensions before.now) (H.dimensions after.now)) }
    ensures lengths { IfOk result (λ _. length (H.dimensions after.now)
        ≡ length (G.dimensions before.now)) }
    ensures refused { IfErr result (OrMemory (λ e.
        (length (H.dimensions after.now) ≢ length (G.dimensions before.now))
        × TellsLengths (length (H.dimensions after.now)) (length (G.dimensions before.now)) e)) }
    ensures lengths_first { length (H.dimensions after.now) ≢ length (G.dimensions before.now)
        → HasMemory result }
{
    expect_as_many(before, after)?;
    Ok(uses_of(alloc, before, after)?)
}
