//! The walk over the parts of a box of elements.
use crate::shares::chunk_iter::ChunkIter;
use crate::shares::share::Share;
use std::alloc::{AllocError, Global};
use zarrs_chunk_base::ArraySubset;
use zarrs_chunk_keys::ChunkKeyEncodingTraits;
use zarrs_chunk_parts::{Part, part_of};
use zarrs_chunks::ChunkGridTraits;

/// The parts of a box of elements: one for each chunk of its cover, in row-major order of the chunks.
///
/// A part is made when it is asked for, so the first one comes without a walk over the others. After an `Err` or the end the walk gives
/// nothing more, until it goes to a [`share`](Parts::share) or [to a part](Parts::skip_to).
#[derive(Debug, Drop)]
pub struct Parts<'a, G, E> {
    alloc: Global,
    grid: &'a G,
    encoding: &'a E,
    array_subset: ArraySubset,
    chunks: ChunkIter,
}

impl<'a, G: ChunkGridTraits, E: ChunkKeyEncodingTraits> Parts<'a, G, E> {
    ghost use Rattle.std.specs.Prelude.{◌≡◌, [], IfOk, OnErr, OnOk, drop, length};
    ghost use Rattle.zarrs_chunks.specs.Walks.{chunks_in};
    ghost use Rattle.zarrs_chunk_plan.specs.Counted.{counted};
    ghost use Rattle.zarrs_chunk_plan.specs.Shares.{before_share, share_of};
    ghost use Rattle.zarrs_chunk_plan.specs.seen.Parts.{IsAbout, IsSameRead, all_chunks, chunks_to_come, offsets_to_come};

    /// A walk over the parts that the chunks in a box of chunk numbers hold.
    ///
    /// # Errors
    /// Out of memory.
    pub(crate) fn new(
        alloc: Global,
        grid: &'a G,
        encoding: &'a E,
        array_subset: ArraySubset,
        chunks: ArraySubset,
    ) -> Result<Parts<'a, G, E>, AllocError>
        ensures left { IfOk result (λ walk. chunks_to_come walk ≡ chunks_in chunks) }
        ensures about { IfOk result (IsAbout grid.now encoding.now array_subset) }
        ensures all { IfOk result (λ walk. all_chunks walk ≡ chunks_in chunks) }
    {
        Ok(Parts {
            alloc,
            grid,
            encoding,
            array_subset,
            chunks: ChunkIter::new(alloc, chunks, &Share::whole())?,
        })
    }

    /// How many parts there are in all, from the first one on; `None` past 18446744073709551615.
    pub fn in_all(&self) -> Option<u64>
        ensures { result ≡ counted (length (all_chunks self.now)) }
    {
        self.chunks.in_all()
    }

    /// Goes to a share of all parts, wherever the walk is, and gives how many come before it; `None` past 18446744073709551615. Those take no time.
    ///
    /// # Errors
    /// Out of memory. The walk is as it was then.
    pub fn share(&mut self, share: &Share) -> Result<Option<u64>, AllocError>
        ensures left { OnOk result (chunks_to_come self.new
            ≡ share_of share.now (all_chunks self.old)) }
        ensures before { IfOk result (λ before. before
            ≡ counted (before_share share.now.number share.now.of (length (all_chunks self.old)))) }
        ensures unchanged { OnErr result (chunks_to_come self.new ≡ chunks_to_come self.old) }
        ensures all { all_chunks self.new ≡ all_chunks self.old }
        ensures about { IsSameRead self.old self.new }
    {
        self.chunks.share(share)
    }

    /// Goes to the part with this number, counted from 0 among all parts, wherever the walk is; nothing is left where there are no more. Those before
    /// it take no time.
    ///
    /// # Errors
    /// Out of memory. The walk is as it was then.
    pub fn skip_to(&mut self, first: u64) -> Result<(), AllocError>
        ensures left { OnOk result (chunks_to_come self.new ≡ drop first (all_chunks self.old)) }
        ensures unchanged { OnErr result (chunks_to_come self.new ≡ chunks_to_come self.old) }
        ensures all { all_chunks self.new ≡ all_chunks self.old }
        ensures about { IsSameRead self.old self.new }
    {
        self.chunks.skip_to(first)
    }

    /// The grid of the chunks.
    pub(crate) fn grid(&self) -> &'a G
        ensures { result.now ≡ self.now.grid.now }
    {
        self.grid
    }

    /// The box of the chunks of all parts.
    pub(crate) fn box_of_all(&self) -> &ArraySubset
        ensures { chunks_in result.now ≡ all_chunks self.now }
    {
        self.chunks.chunks()
    }

    /// Leaves no part to come.
    pub(crate) fn end(&mut self)
        ensures all { all_chunks self.new ≡ all_chunks self.old }
        ensures none { (chunks_to_come self.new ≡ []) × (offsets_to_come self.new ≡ []) }
        ensures about { IsSameRead self.old self.new }
    {
        self.chunks.end();
    }
}

impl<G: ChunkGridTraits, E: ChunkKeyEncodingTraits> Iterator for Parts<'_, G, E> {
    ghost use Rattle.std.specs.Iterator.{item_count};
    ghost use Rattle.zarrs_chunk_plan.specs.seen.Parts.{GivesPart, offsets_to_come};

    type Item = Result<Part, AllocError>;

    ghost next_gives = { GivesPart G.dimensions E.is_key };

    ghost remaining = { item_count offsets_to_come };

    fn next(&mut self) -> Option<Result<Part, AllocError>> {
        let chunk = match self.chunks.next()? {
            Ok(chunk) => chunk,
            Err(error) => return Some(Err(error)),
        };
        let part = part_of(
            self.alloc,
            self.grid,
            self.encoding,
            &self.array_subset,
            chunk,
        );
        match part {
            Ok(part) => Some(Ok(part)),
            Err(error) => {
                self.chunks.end();
                Some(Err(error))
            }
        }
    }
}
