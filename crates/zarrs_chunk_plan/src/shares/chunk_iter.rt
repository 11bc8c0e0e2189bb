//! The walk over some of the chunks in a box of chunk numbers.
ghost use Rattle.std.specs.Prelude.{◌*◌, ◌/◌, ◌%◌, ◌≡◌, ◌↔◌, ◌⊎◌, ◌+◌, ◌<◌, IfOk, IsTrue, drop, false, length};
ghost use Rattle.std.specs.List.{Contains};
ghost use Rattle.std.specs.Option.{ForSome};
ghost use Rattle.zarrs_chunk_axes.specs.InBounds.{AreBelow};
ghost use Rattle.zarrs_chunk_axes.specs.RowMajor.{row_major};
ghost use Rattle.zarrs_chunk_axes.specs.lemmas.BelowOnce.{are_below_if_once};
ghost use Rattle.zarrs_chunks.specs.Walks.{chunks_in};
ghost use Rattle.zarrs_chunk_plan.specs.Shares.{before_share, share_of};
ghost use Rattle.zarrs_chunk_plan.specs.lemmas.EndOnce.{end_below_once};
ghost use Rattle.zarrs_chunk_plan.specs.seen.Between.{IsEnd, digits, end_rank, rank};

use crate::boxes_from_zero::box_from_zero;
use crate::shares::numbered_chunks::{chunk_at, count_of, long_count};
use crate::shares::share::Share;
use smallvec::SmallVec;
use std::alloc::{AllocError, Global};
use zarrs_chunk_axes::row_major::{advance, count_from};
use zarrs_chunk_base::ArraySubset;
use zarrs_chunks::ArrayIndicesTinyVec;

/// The chunks in a box of chunk numbers, from one on up to another, in row-major order. After an `Err` or the end it gives nothing more, until it goes to
/// a [`share`](ChunkIter::share) or [to a chunk](ChunkIter::skip_to).
#[derive(Debug, Drop)]
pub struct ChunkIter {
    alloc: Global,
    chunks: ArraySubset,
    /// The next chunk, counted from the first one of the box.
    next: ArrayIndicesTinyVec,
    /// The one before which the walk ends, counted alike; `None`: it ends with the last one of the box.
    end: Option<ArrayIndicesTinyVec>,
    over: bool,
    ghost below: { over ≡ false → AreBelow chunks.shape next.items } by { are_below_if_once chunks.shape next.items },
    ghost end_below: { ForSome end (λ e. AreBelow chunks.shape e.items) } by { end_below_once chunks.shape end },
    ghost before: { over ≡ false → rank chunks.shape next.items < end_rank chunks.shape end },
}

impl ChunkIter {
    ghost use Rattle.std.specs.Prelude.{[], OnErr, OnOk};
    ghost use Rattle.zarrs_chunk_plan.specs.Counted.{counted};
    ghost use Rattle.zarrs_chunk_plan.specs.seen.ChunkIter.{all_between, box_of, chunks_between, offsets_between};

    /// A walk over a share of the chunks in a box.
    ///
    /// # Errors
    /// Out of memory.
    pub fn new(alloc: Global, chunks: ArraySubset, share: &Share) -> Result<ChunkIter, AllocError>
        ensures left { IfOk result (λ walk. chunks_between walk
            ≡ share_of share.now (chunks_in chunks)) }
        ensures chunks { IfOk result (λ walk. box_of walk ≡ chunks) }
    {
        if chunks.is_empty() {
            return Ok(ChunkIter {
                alloc,
                chunks,
                next: SmallVec::new(alloc),
                end: None,
                over: true,
            });
        }
        let next = first_of_share(alloc, chunks.shape(), share)?;
        let end = end_of_share(alloc, chunks.shape(), share)?;
        let over = is_end(&end, next.as_slice());
        Ok(ChunkIter {
            alloc,
            chunks,
            next,
            end,
            over,
        })
    }

    /// A walk over the chunks in a box from the one with this number on; they are numbered from 0 in row-major order. It is over where there is none.
    ///
    /// # Errors
    /// Out of memory.
    pub fn from_number(
        alloc: Global,
        chunks: ArraySubset,
        number: u64,
    ) -> Result<ChunkIter, AllocError>
        ensures left { IfOk result (λ walk. chunks_between walk
            ≡ drop number (chunks_in chunks)) }
        ensures chunks { IfOk result (λ walk. box_of walk ≡ chunks) }
    {
        if number as u128 >= long_count(chunks.shape()) {
            return Ok(ChunkIter {
                alloc,
                chunks,
                next: SmallVec::new(alloc),
                end: None,
                over: true,
            });
        }
        let next = list_at(alloc, chunks.shape(), number)?;
        Ok(ChunkIter {
            alloc,
            chunks,
            next,
            end: None,
            over: false,
        })
    }

    /// The box.
    pub fn chunks(&self) -> &ArraySubset
        ensures { result.now ≡ box_of self.now }
    {
        &self.chunks
    }

    /// How many chunks the box has; `None` past 18446744073709551615.
    pub fn in_all(&self) -> Option<u64>
        ensures { result ≡ counted (length (all_between self.now)) }
    {
        count_of(self.chunks.shape())
    }

    /// Goes to a share of all chunks of the box, wherever the walk is, and returns how many come before it; `None` past 18446744073709551615. Those take
    /// no time.
    ///
    /// # Errors
    /// Out of memory. The walk is as it was then.
    pub fn share(&mut self, share: &Share) -> Result<Option<u64>, AllocError>
        ensures left { OnOk result (chunks_between self.new
            ≡ share_of share.now (all_between self.old)) }
        ensures before { IfOk result (λ before. before
            ≡ counted (before_share share.now.number share.now.of (length (all_between self.old)))) }
        ensures unchanged { OnErr result (self.new ≡ self.old) }
        ensures chunks { box_of self.new ≡ box_of self.old }
    {
        let chunks = self.chunks.clone()?;
        let before = share.lines_before(long_count(chunks.shape()));
        *self = ChunkIter::new(self.alloc, chunks, share)?;
        Ok(before)
    }

    /// Goes to the chunk with this number, counted from 0 among all chunks of the box, wherever the walk is; nothing is left if there are no more. Those
    /// before it take no time.
    ///
    /// # Errors
    /// Out of memory. The walk is as it was then.
    pub fn skip_to(&mut self, first: u64) -> Result<(), AllocError>
        ensures left { OnOk result (chunks_between self.new ≡ drop first (all_between self.old)) }
        ensures unchanged { OnErr result (self.new ≡ self.old) }
        ensures chunks { box_of self.new ≡ box_of self.old }
    {
        let chunks = self.chunks.clone()?;
        *self = ChunkIter::from_number(self.alloc, chunks, first)?;
        Ok(())
    }

    /// Leaves no chunk to come.
    pub fn end(&mut self)
        ensures ends { (chunks_between self.new ≡ []) × (offsets_between self.new ≡ []) }
        ensures chunks { box_of self.new ≡ box_of self.old }
    {
        self.over = true;
    }
}

impl Iterator for ChunkIter {
    ghost use Rattle.std.specs.Iterator.{item_count};
    ghost use Rattle.zarrs_chunk_plan.specs.seen.ChunkIter.{GivesChunk, offsets_between};

    type Item = Result<ArrayIndicesTinyVec, AllocError>;

    ghost next_gives = { GivesChunk };

    ghost remaining = { item_count offsets_between };

    fn next(&mut self) -> Option<Result<ArrayIndicesTinyVec, AllocError>> {
        if self.over {
            return None;
        }
        match SmallVec::from_slice(self.alloc, self.next.as_slice()) {
            Ok(mut chunk) => {
                count_from(chunk.as_mut_slice(), self.chunks.start());
                let found = advance(self.chunks.shape(), self.next.as_mut_slice());
                self.over = is_over(found, &self.end, self.next.as_slice());
                Some(Ok(chunk))
            }
            Err(error) => {
                self.over = true;
                Some(Err(error))
            }
        }
    }
}

/// Whether these are the numbers before which a walk ends.
fn is_end(end: &Option<ArrayIndicesTinyVec>, numbers: &[u64]) -> bool
    ensures { IsTrue result ↔ IsEnd end.now numbers.now }
{
    match end {
        Some(end) => end.as_slice() == numbers,
        None => false,
    }
}

/// Whether a walk is over where it goes on: no list was found, or the one before which it ends.
fn is_over(found: bool, end: &Option<ArrayIndicesTinyVec>, numbers: &[u64]) -> bool
    ensures { IsTrue result ↔ (found ≡ false) ⊎ IsEnd end.now numbers.now }
{
    !found || is_end(end, numbers)
}

/// Of the lists below a shape, the first that belongs to a share.
///
/// # Errors
/// Out of memory.
fn first_of_share(
    alloc: Global,
    shape: &[u64],
    share: &Share,
) -> Result<ArrayIndicesTinyVec, AllocError>
    ensures { (¬ Contains shape.now 0) → IfOk result (λ first. AreBelow shape.now first.items
        × (rank shape.now first.items ≡ before_share share.now.number share.now.of
        (length (row_major shape.now)))) }
{
    let first = list_before(alloc, shape, share.number, share.of)?;
    Ok(first)
}

/// The first that belongs to the share behind it, if there is one.
///
/// # Errors
/// Out of memory.
fn end_of_share(
    alloc: Global,
    shape: &[u64],
    share: &Share,
) -> Result<Option<ArrayIndicesTinyVec>, AllocError>
    ensures below { (¬ Contains shape.now 0)
        → IfOk result (λ end. ForSome end (λ e. AreBelow shape.now e.items)) }
    ensures rank { (¬ Contains shape.now 0) → IfOk result (λ end. end_rank shape.now end
        ≡ before_share (share.now.number + 1) share.now.of (length (row_major shape.now))) }
{
    if share.number + 1 == share.of {
        return Ok(None);
    }
    let end = list_before(alloc, shape, share.number + 1, share.of)?;
    Ok(Some(end))
}

/// The list below a shape with this number; they are numbered from 0 in row-major order.
///
/// # Errors
/// Out of memory.
fn list_at(alloc: Global, shape: &[u64], number: u64) -> Result<ArrayIndicesTinyVec, AllocError>
    requires { number < length (row_major shape.now) }
    ensures { IfOk result (λ list. AreBelow shape.now list.items
        × (rank shape.now list.items ≡ number)) }
{
    let lists = box_from_zero(alloc, shape)?;
    let list = chunk_at(alloc, &lists, number)?;
    Ok(list)
}

/// The list below a shape before which so many of `of` equal parts of all of them come.
///
/// # Errors
/// Out of memory.
fn list_before(
    alloc: Global,
    shape: &[u64],
    number: u64,
    of: u64,
) -> Result<ArrayIndicesTinyVec, AllocError>
    requires { number < of }
    ensures { IfOk result (λ first. first.items ≡ digits shape.now number of) }
{
    let mut first = ArrayIndicesTinyVec::with_capacity(alloc, shape.len())?;
    let mut rest = number;
    for size in shape {
        let (next, left) = next_of_list(rest, *size, of);
        first.push(next)?;
        rest = left;
    }
    Ok(first)
}

/// The next number of that list, and how many parts of `of` are left after it.
fn next_of_list(rest: u64, size: u64, of: u64) -> (u64, u64)
    requires { rest < of }
    ensures next { result.0 ≡ rest * size / of }
    ensures left { result.1 ≡ rest * size % of }
{
    if rest == 0 {
        return (0, 0);
    }
    let lists = rest as u128 * size as u128;
    ((lists / of as u128) as u64, (lists % of as u128) as u64)
}
