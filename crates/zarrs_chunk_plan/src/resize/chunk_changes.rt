//! The walk over the changes of a resize.
use crate::boxes_from_zero::whole_array;
use crate::resize::changed::ChangedChunks;
use crate::resize::plan::{Change, ChunkChange, ChunkContents};
use crate::resize::used::held_by;
use crate::shares::chunk_iter::ChunkIter;
use crate::shares::numbered_chunks::count_of;
use crate::shares::share::Share;
use std::alloc::{AllocError, Global};
use zarrs_chunk_base::ArraySubset;
use zarrs_chunk_keys::ChunkKeyEncodingTraits;
use zarrs_chunks::{ArrayIndicesTinyVec, ChunkGridTraits};

/// What becomes of the chunks of an array that gets another shape, one chunk after another, each once, in no order that is promised.
///
/// A change is made when it is asked for. After an `Err` or the end the walk gives nothing more.
#[derive(Debug, Drop)]
pub struct Changes<'a, G, H, E> {
    alloc: Global,
    before: &'a G,
    after: &'a H,
    encoding: &'a E,
    /// The box of all elements of the array as it was, and of the array as it is to be.
    array_before: ArraySubset,
    array_after: ArraySubset,
    uses: ChangedChunks,
    /// The chunks, in boxes, and which box comes next.
    boxes: Vec<ArraySubset>,
    next_box: usize,
    chunks: ChunkIter,
}

impl<'a, G: ChunkGridTraits, H: ChunkGridTraits, E: ChunkKeyEncodingTraits> Changes<'a, G, H, E> {
    ghost use Rattle.std.specs.Prelude.{◌≡◌, ◌≢◌, ◌↔◌, ◌+◌, ◌<◌, [], ℕ, IfOk, OnErr, OnOk, length};
    ghost use Rattle.zarrs_chunks.specs.Walks.{Gives};
    ghost use Rattle.zarrs_chunk_axes.specs.InBounds.{AreBelow};
    ghost use Rattle.zarrs_chunk_plan.specs.Counted.{counted};
    ghost use Rattle.zarrs_chunk_plan.specs.ArrayBoxes.{array_box};
    ghost use Rattle.zarrs_chunk_plan.specs.Resize.{AreChangedChunks, IsChange, IsUsed};
    ghost use Rattle.zarrs_chunk_plan.specs.seen.Changes.{CanChange, IsAboutResize, IsSameWalk, all_changes, changes_to_come};
    ghost use Rattle.zarrs_chunk_plan.specs.seen.ChunkIter.{chunks_between};
    ghost use Rattle.zarrs_chunk_plan.specs.seen.Outside.{chunks_of_boxes};

    /// A walk over the chunks in some boxes.
    ///
    /// # Errors
    /// Out of memory.
    pub(crate) fn new(
        alloc: Global,
        before: &'a G,
        after: &'a H,
        encoding: &'a E,
        uses: ChangedChunks,
        boxes: Vec<ArraySubset>,
    ) -> Result<Changes<'a, G, H, E>, AllocError>
        ensures left { IfOk result (λ walk. changes_to_come walk ≡ chunks_of_boxes boxes.items) }
        ensures about { IfOk result (IsAboutResize before.now after.now encoding.now) }
        ensures all { IfOk result (λ walk. all_changes walk ≡ chunks_of_boxes boxes.items) }
        ensures can_change { AreChangedChunks (G.dimensions before.now) (H.dimensions after.now) uses
            → IfOk result (CanChange G.dimensions H.dimensions) }
    {
        let none = ArraySubset::new_empty(alloc, 1)?;
        Ok(Changes {
            alloc,
            before,
            after,
            encoding,
            array_before: whole_array(alloc, before)?,
            array_after: whole_array(alloc, after)?,
            uses,
            boxes,
            next_box: 0,
            chunks: ChunkIter::new(alloc, none, &Share::whole())?,
        })
    }

    /// How many changes there are in all, from the first one on; `None` past 18446744073709551615.
    pub fn in_all(&self) -> Option<u64>
        ensures { result ≡ counted (length (all_changes self.now)) }
    {
        let mut count = Some(0);
        for chunks in &self.boxes {
            count = sum_of(count, count_of(chunks.shape()));
        }
        count
    }

    /// Leaves no change to come.
    fn end(&mut self)
        ensures none { changes_to_come self.new ≡ [] }
        ensures same { IsSameWalk self.old self.new }
    {
        self.chunks.end();
        self.next_box = self.boxes.len();
    }

    /// Goes to the chunks of the next box, where none are left of the one before.
    ///
    /// # Errors
    /// Out of memory. An empty box takes none.
    fn go_to_next_box(&mut self) -> Result<(), AllocError>
        requires within { self.old.next_box < length self.old.boxes.items }
        requires none { chunks_between self.old.chunks ≡ [] }
        ensures left { OnOk result (changes_to_come self.new ≡ changes_to_come self.old) }
        ensures next { OnOk result (self.new.next_box ≡ self.old.next_box + 1) }
        ensures some { OnErr result (changes_to_come self.old ≢ []) }
        ensures same { IsSameWalk self.old self.new }
    {
        if self.boxes[self.next_box].is_empty() {
            self.next_box += 1;
            return Ok(());
        }
        match walk_over(self.alloc, &self.boxes[self.next_box]) {
            Ok(chunks) => {
                self.chunks = chunks;
                self.next_box += 1;
                Ok(())
            }
            Err(error) => Err(error),
        }
    }

    /// The next chunk, if one is to come.
    fn next_chunk(&mut self) -> Option<Result<ArrayIndicesTinyVec, AllocError>>
        ensures gives { Gives changes_to_come changes_to_come (λ chunk. chunk.items)
            (λ left. left ≢ []) self.old result self.new }
        ensures same { IsSameWalk self.old self.new }
    {
        loop {
            match self.chunks.next() {
                Some(Ok(chunk)) => return Some(Ok(chunk)),
                Some(Err(error)) => {
                    self.end();
                    return Some(Err(error));
                }
                None => {}
            }
            if self.next_box >= self.boxes.len() {
                return None;
            }
            if let Err(error) = self.go_to_next_box() {
                self.end();
                return Some(Err(error));
            }
        }
    }

    /// What becomes of a chunk.
    ///
    /// # Errors
    /// Out of memory; or neither array uses the chunk.
    fn change_of(&self, chunk: ArrayIndicesTinyVec) -> Result<ChunkChange, AllocError>
        ensures change { CanChange G.dimensions H.dimensions self.now → IfOk result
            (IsChange (G.dimensions self.now.before.now) (H.dimensions self.now.after.now)
            (E.is_key self.now.encoding.now) chunk.items) }
        ensures chunk { IfOk result (λ change. change.chunk.items ≡ chunk.items) }
    {
        let numbers = chunk.as_slice();
        let before = may_hold(
            self.alloc,
            self.before,
            &self.array_before,
            &self.uses.before,
            numbers,
        )?;
        let after = may_hold(
            self.alloc,
            self.after,
            &self.array_after,
            &self.uses.after,
            numbers,
        )?;
        let kept = are_below(&self.uses.kept, numbers);
        let Some(what) = what_becomes(before.is_some(), after.is_some(), kept) else {
            // Never: the walk goes over chunks that one of the arrays uses.
            return Err(AllocError);
        };
        let key = self.encoding.encode(self.alloc, numbers)?;
        Ok(ChunkChange {
            key,
            chunk,
            before,
            after,
            what,
        })
    }
}

impl<G: ChunkGridTraits, H: ChunkGridTraits, E: ChunkKeyEncodingTraits> Iterator
    for Changes<'_, G, H, E> {
    ghost use Rattle.std.specs.Iterator.{item_count};
    ghost use Rattle.zarrs_chunk_plan.specs.seen.Changes.{GivesChange, changes_to_come};

    type Item = Result<ChunkChange, AllocError>;

    ghost next_gives = { GivesChange G.dimensions H.dimensions E.is_key };

    ghost remaining = { item_count changes_to_come };

    fn next(&mut self) -> Option<Result<ChunkChange, AllocError>> {
        let chunk = match self.next_chunk()? {
            Ok(chunk) => chunk,
            Err(error) => return Some(Err(error)),
        };
        match self.change_of(chunk) {
            Ok(change) => Some(Ok(change)),
            Err(error) => {
                self.end();
                Some(Err(error))
            }
        }
    }
}

ghost use Rattle.std.specs.Prelude.{◌≡◌, ◌↔◌, ◌+◌, ℕ, IfOk, IsTrue};
ghost use Rattle.zarrs_chunk_axes.specs.InBounds.{AreBelow};
ghost use Rattle.zarrs_chunks.specs.Walks.{chunks_in};
ghost use Rattle.zarrs_chunk_plan.specs.Counted.{counted};
ghost use Rattle.zarrs_chunk_plan.specs.ArrayBoxes.{array_box};
ghost use Rattle.zarrs_chunk_plan.specs.Resize.{IsUsed, MayHold};
ghost use Rattle.zarrs_chunk_plan.specs.seen.Changes.{what_becomes};
ghost use Rattle.zarrs_chunk_plan.specs.seen.ChunkIter.{chunks_between};

/// A walk over the chunks in a box.
///
/// # Errors
/// Out of memory.
fn walk_over(alloc: Global, chunks: &ArraySubset) -> Result<ChunkIter, AllocError>
    ensures { IfOk result (λ walk. chunks_between walk ≡ chunks_in chunks.now) }
{
    ChunkIter::new(alloc, chunks.clone()?, &Share::whole())
}

/// What becomes of a chunk, by which array uses it, and whether it is one that is kept where both do; nothing where none does.
fn what_becomes(before: bool, after: bool, kept: bool) -> Option<Change>
    ensures { result ≡ what_becomes before after kept }
{
    match (before, after) {
        (true, true) if kept => Some(Change::Keep),
        (true, true) => Some(Change::Rewrite),
        (true, false) => Some(Change::Delete),
        (false, true) => Some(Change::Create),
        (false, false) => None,
    }
}

/// The sum of two counts.
fn sum_of(one: Option<u64>, other: Option<u64>) -> Option<u64>
    ensures { (m n : ℕ) → one ≡ counted m → other ≡ counted n → result ≡ counted (m + n) }
{
    match (one, other) {
        (Some(one), Some(other)) => one.checked_add(other),
        _ => None,
    }
}

/// What a chunk holds of a grid's array, of which this is the box of all elements; nothing past so many chunks along each dimension.
///
/// # Errors
/// Out of memory.
fn may_hold<G: ChunkGridTraits>(
    alloc: Global,
    grid: &G,
    array: &ArraySubset,
    used: &[u64],
    chunk: &[u64],
) -> Result<Option<ChunkContents>, AllocError>
    ensures { array.now ≡ array_box (G.dimensions grid.now)
        → (AreBelow used.now chunk.now ↔ IsUsed (G.dimensions grid.now) chunk.now)
        → IfOk result (MayHold (G.dimensions grid.now) chunk.now) }
{
    if are_below(used, chunk) {
        Ok(Some(held_by(alloc, grid, array, chunk)?))
    } else {
        Ok(None)
    }
}

/// Whether each number is below its size; `false` for a list of another length.
fn are_below(sizes: &[u64], numbers: &[u64]) -> bool
    ensures { IsTrue result ↔ AreBelow sizes.now numbers.now }
{
    numbers.len() == sizes.len()
        && numbers
            .iter()
            .zip(sizes)
            .all(|(number, size)| number < size)
}
