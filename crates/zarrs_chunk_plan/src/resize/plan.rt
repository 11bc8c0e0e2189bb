//! The plan of a resize: which chunks of an array that gets another shape stay as they are stored, and which don't.
ghost use Rattle.std.specs.Prelude.{◌≡◌, ◌≢◌, ◌↔◌, ◌⊎◌, ℕ, IfErr, IfOk, List, MatchResult, length};
ghost use Rattle.std.specs.List.{Contains};
ghost use Rattle.zarrs_chunk_base.specs.Refusal.{HasMemory, OrMemory, RefusesLength, TellsLengths};
ghost use Rattle.zarrs_chunk_plan.specs.Resize.{AreChangedChunks, AreChanged, AreResized};
ghost use Rattle.zarrs_chunk_plan.specs.seen.Changes.{CanChange, IsAboutResize, all_changes, changes_to_come};
ghost use Rattle.zarrs_chunk_plan.specs.seen.Outside.{AreOnce, IsOutside, IsToldBefore, chunks_of_boxes};

use crate::resize::changed::ChangedChunks;
use crate::resize::chunk_changes::Changes;
use crate::resize::outside::{below, outside};
use crate::resize::used::{chunks_along, kept_along, unwrap_or_zeros};
use std::alloc::{AllocError, Global};
use zarrs_chunk_base::{ArraySubset, IncompatibleDimensionalityError, Refusal, StoreKey};
use zarrs_chunk_keys::ChunkKeyEncodingTraits;
use zarrs_chunk_parts::ChunkShapeTinyVec;
use zarrs_chunks::{ArrayIndicesTinyVec, ChunkGridTraits};

/// What becomes of a chunk when its array gets another shape.
#[derive(Clone, Copy, Debug, PartialEq, Eq)]
pub enum Change {
    /// It stays as it is stored: it holds the same elements, and has the same shape.
    Keep,
    /// It must be rewritten: elements leave it or come, or it gets another shape.
    Rewrite,
    /// It must be deleted: it holds no element of the array any more.
    Delete,
    /// It must be created: it held no element of the array.
    Create,
}

/// What a chunk holds of an array.
#[derive(Debug, Drop)]
pub struct ChunkContents {
    /// The elements of the array that lie in the chunk, as a box of the array. It begins with the chunk's first element.
    pub elements: ArraySubset,
    /// The chunk's edges, in elements, as its grid answers them: what is stored has this shape.
    pub shape: ChunkShapeTinyVec,
}

/// What becomes of one chunk.
#[derive(Debug, Drop)]
pub struct ChunkChange {
    /// The key under which the chunk is stored.
    pub key: StoreKey,
    /// The numbers of the chunk.
    pub chunk: ArrayIndicesTinyVec,
    /// What it holds of the array as it was; `None` where that is nothing.
    pub before: Option<ChunkContents>,
    /// What it is to hold of the array as it is to be; `None` where that is nothing.
    pub after: Option<ChunkContents>,
    /// What becomes of it.
    pub what: Change,
}

/// What becomes of the chunks of an array that gets another shape: the chunks that hold elements of the array as it was, by one grid, or as it
/// is to be, by another one. Those that stay as they are stored are left out, unless they are wanted.
///
/// The grids are those that one configuration makes of the two array shapes, or others by which, along each dimension, an index below both
/// array sizes lies in the same chunk; of other grids nothing is said. The chunks come in no order that is promised.
///
/// It takes the time and the memory of a few covers, however many chunks there are, and none for chunks that are left out.
///
/// # Errors
/// The two grids have different numbers of dimensions; or out of memory.
pub fn changes<'a, G: ChunkGridTraits, H: ChunkGridTraits, E: ChunkKeyEncodingTraits>(
    alloc: Global,
    before: &'a G,
    after: &'a H,
    encoding: &'a E,
    include_unchanged: bool,
) -> Result<Changes<'a, G, H, E>, Refusal<IncompatibleDimensionalityError>>
    ensures changed { AreResized (G.dimensions before.now) (H.dimensions after.now)
        → IfOk result (λ walk. AreChanged (G.dimensions before.now) (H.dimensions after.now)
        include_unchanged (changes_to_come walk)) }
    ensures can_change { AreResized (G.dimensions before.now) (H.dimensions after.now)
        → IfOk result (CanChange G.dimensions H.dimensions) }
    ensures about { IfOk result (IsAboutResize before.now after.now encoding.now) }
    ensures all { IfOk result (λ walk. all_changes walk ≡ changes_to_come walk) }
    ensures lengths { IfOk result (λ _. length (H.dimensions after.now)
        ≡ length (G.dimensions before.now)) }
    ensures refused { IfErr result (OrMemory (λ e.
        (length (H.dimensions after.now) ≢ length (G.dimensions before.now))
        × TellsLengths (length (H.dimensions after.now)) (length (G.dimensions before.now)) e)) }
    ensures lengths_first { length (H.dimensions after.now) ≢ length (G.dimensions before.now)
        → HasMemory result }
{
    expect_as_many(before, after)?;
    let uses = uses_of(alloc, before, after)?;
    let boxes = boxes_of_changes(alloc, &uses, include_unchanged)?;
    Ok(Changes::new(alloc, before, after, encoding, uses, boxes)?)
}

/// Refuses two grids with different numbers of dimensions.
///
/// # Errors
/// They have different numbers of dimensions.
pub(crate) fn expect_as_many<G: ChunkGridTraits, H: ChunkGridTraits>(
    before: &G,
    after: &H,
) -> Result<(), Refusal<IncompatibleDimensionalityError>>
    ensures { MatchResult result (λ _. length (H.dimensions after.now)
        ≡ length (G.dimensions before.now))
        (RefusesLength (length (H.dimensions after.now)) (length (G.dimensions before.now))) }
{
    if after.dimensionality() != before.dimensionality() {
        return Err(Refusal::Refused(IncompatibleDimensionalityError::new(
            after.dimensionality(),
            before.dimensionality(),
        )));
    }
    Ok(())
}

/// How many chunks two grids' arrays use along each dimension, and how many of them are kept.
///
/// # Errors
/// Out of memory.
pub(crate) fn uses_of<G: ChunkGridTraits, H: ChunkGridTraits>(
    alloc: Global,
    before: &G,
    after: &H,
) -> Result<ChangedChunks, AllocError>
    requires { length (H.dimensions after.now) ≡ length (G.dimensions before.now) }
    ensures changed { AreResized (G.dimensions before.now) (H.dimensions after.now)
        → IfOk result (AreChangedChunks (G.dimensions before.now) (H.dimensions after.now)) }
    ensures lengths { IfOk result (λ uses. length uses.after.items ≡ length uses.before.items) }
    ensures kept_lengths { IfOk result (λ uses. length uses.kept.items
        ≡ length uses.before.items) }
{
    let used_before = chunks_along(alloc, before)?;
    let used_after = chunks_along(alloc, after)?;
    let kept = kept_along(alloc, before, after, &used_before, &used_after)?;
    Ok(ChangedChunks {
        before: used_before,
        after: used_after,
        kept: unwrap_or_zeros(kept),
    })
}

/// The chunks of which a change is asked for, in boxes: those that the array as it was uses, and those that only the array as it is to be does.
///
/// # Errors
/// Out of memory.
fn boxes_of_changes(
    alloc: Global,
    uses: &ChangedChunks,
    include_unchanged: bool,
) -> Result<Vec<ArraySubset>, AllocError>
    requires kept { length uses.now.kept.items ≡ length uses.now.before.items }
    requires after { length uses.now.after.items ≡ length uses.now.before.items }
    ensures those { IfOk result (λ boxes. (chunk : List ℕ)
        → Contains (chunks_of_boxes boxes.items) chunk
        ↔ (IsToldBefore include_unchanged uses.now.before.items uses.now.kept.items chunk
        ⊎ IsOutside uses.now.before.items uses.now.after.items chunk)) }
    ensures once { IfOk result (λ boxes. AreOnce (chunks_of_boxes boxes.items)) }
{
    let mut boxes = boxes_before(alloc, uses, include_unchanged)?;
    let mut added = outside(alloc, &uses.before, &uses.after)?;
    boxes.append(&mut added)?;
    Ok(boxes)
}

/// The chunks that the array as it was uses, in boxes: all, or those that aren't kept.
///
/// # Errors
/// Out of memory.
fn boxes_before(
    alloc: Global,
    uses: &ChangedChunks,
    include_unchanged: bool,
) -> Result<Vec<ArraySubset>, AllocError>
    requires { length uses.now.kept.items ≡ length uses.now.before.items }
    ensures those { IfOk result (λ boxes. (chunk : List ℕ)
        → Contains (chunks_of_boxes boxes.items) chunk
        ↔ IsToldBefore include_unchanged uses.now.before.items uses.now.kept.items chunk) }
    ensures once { IfOk result (λ boxes. AreOnce (chunks_of_boxes boxes.items)) }
{
    if include_unchanged {
        return below(alloc, &uses.before);
    }
    outside(alloc, &uses.kept, &uses.before)
}
