//! Which of the chunks that a plan writes a store has.
ghost use Rattle.std.specs.Int.{bit_at};
ghost use Rattle.std.specs.Prelude.{◌≡◌, ◌≢◌, ◌==◌, ◌↔◌, ◌+◌, ◌*◌, ◌<◌, ◌≤◌, ◌^◌, ℕ, IfOk, List, MatchOption, Some, length};
ghost use Rattle.std.specs.List.{slice_get};
ghost use Rattle.zarrs_chunk_base.specs.ArraySubset.{IsBox, IsInside};
ghost use Rattle.zarrs_chunk_axes.specs.RowMajor.{row_major};
ghost use Rattle.zarrs_chunks.specs.Walks.{chunks_in};

use crate::boxes_from_zero::{whole_array, zeros};
use crate::copy::array_chunks::chunks_of_array;
use crate::read::walk::Parts;
use crate::shares::numbered_chunks::count_below;
use crate::stored_array::StoredArray;
use std::alloc::{AllocError, Global};
use zarrs_chunk_base::{ArrayIndices, ArraySubset, StoreKey};
use zarrs_chunk_keys::ChunkKeyEncodingTraits;
use zarrs_chunks::ChunkGridTraits;

/// Which of the chunks that a plan writes a store has, a bit for each, by the keys that it lists.
#[derive(Debug, Drop)]
pub struct StoredChunks {
    /// The chunks that hold elements of the target's array.
    held: ArraySubset,
    /// Those of them that the plan writes.
    targets: ArraySubset,
    /// For each of these, in row-major order, a bit, 64 in a number, the first one in its lowest bit: whether its key was listed.
    bits: Vec<u64>,
    ghost few: { length (chunks_in targets) < 2 ^ 29 },
    ghost enough: { length (chunks_in targets) ≤ 64 * length bits.items },
}

impl StoredChunks {
    ghost use Rattle.std.specs.Prelude.{◌↔◌, ◌∷◌, IsTrue, OnErr};
    ghost use Rattle.zarrs_chunk_plan.specs.StoredChunks.{IsOfArray};
    ghost use Rattle.zarrs_chunk_plan.specs.seen.StoredChunks.{IsMarked, Knows, has_mark, is_stored};

    /// Marks the chunk of a key that a store lists as stored, if the plan writes it. Tells whether the key is that of a chunk that holds elements
    /// of the target's array; such a chunk needn't be one that the plan writes.
    ///
    /// # Errors
    /// Out of memory. Nothing is marked then.
    pub fn note<H: ChunkGridTraits, F: ChunkKeyEncodingTraits>(
        &mut self,
        alloc: Global,
        target: &StoredArray<H, F>,
        key: &StoreKey,
    ) -> Result<bool, AllocError>
        ensures noted { (targets keys : List (List ℕ)) → Knows (H.dimensions target.now.grid)
            (F.is_key target.now.encoding) targets keys self.old
            → IfOk result (λ _. Knows (H.dimensions target.now.grid)
            (F.is_key target.now.encoding) targets (key.now ∷ keys) self.new) }
        ensures of_array { (targets keys : List (List ℕ)) → Knows (H.dimensions target.now.grid)
            (F.is_key target.now.encoding) targets keys self.old
            → IfOk result (λ is. IsTrue is ↔ IsOfArray (H.dimensions target.now.grid)
            (F.is_key target.now.encoding) key.now) }
        ensures unchanged { OnErr result (self.new ≡ self.old) }
    {
        let held = chunk_in(alloc, &target.encoding, &self.held, key)?;
        let written = chunk_in(alloc, &target.encoding, &self.targets, key)?;
        if let Some(chunk) = &written {
            self.mark(chunk);
        }
        Ok(held.is_some())
    }

    /// Whether the plan writes a chunk, and the chunk is stored. A chunk that isn't written whole must be written even then: it may have been there
    /// before.
    pub fn has(&self, chunk: &[u64]) -> bool
        ensures { result ≡ has_mark self.now chunk.now }
    {
        self.targets.contains(chunk) && self.has_number(number_in(&self.targets, chunk))
    }

    /// Whether the chunk with this number, counted from 0 in row-major order among those that the plan writes, is marked.
    fn has_number(&self, number: u64) -> bool
        ensures { result ≡ is_stored self.now number }
    {
        match self.bits.get((number / 64) as usize) {
            Some(word) => has_bit(*word, number % 64),
            None => false,
        }
    }

    /// Marks a chunk that the plan writes.
    fn mark(&mut self, chunk: &[u64])
        requires { IsInside self.old.targets chunk.now }
        ensures { IsMarked chunk.now self.old self.new }
    {
        let number = number_in(&self.targets, chunk);
        let word = &mut self.bits[(number / 64) as usize];
        *word = with_bit(*word, number % 64);
    }
}

impl<G: ChunkGridTraits, E: ChunkKeyEncodingTraits> Parts<'_, G, E> {
    ghost use Rattle.std.specs.Prelude.{[], IfSome};
    ghost use Rattle.zarrs_chunk_plan.specs.seen.Parts.{all_chunks, encoding_of, grid_of};
    ghost use Rattle.zarrs_chunk_plan.specs.seen.StoredChunks.{Knows};

    /// Returns marks for the chunks of all parts, wherever the walk is: no chunk is known to be stored. `None` if there are 536870912 chunks or more.
    /// The marks take a bit for each chunk.
    ///
    /// # Errors
    /// Out of memory.
    pub fn none_stored(&self, alloc: Global) -> Result<Option<StoredChunks>, AllocError>
        ensures none { IfOk result (λ found. MatchOption found
            (2 ^ 29 ≤ length (all_chunks self.now))
            (Knows (G.dimensions (grid_of self.now)) (E.is_key (encoding_of self.now))
            (all_chunks self.now) [])) }
        ensures few { IfOk result (λ found. IfSome found
            (λ _. length (all_chunks self.now) < 2 ^ 29)) }
    {
        let targets = self.box_of_all();
        targets.is_a_box();
        let Some(words) = words_for(targets.shape()) else {
            return Ok(None);
        };
        let grid = self.grid();
        let array = whole_array(alloc, grid)?;
        Ok(Some(StoredChunks {
            held: chunks_of_array(alloc, grid, &array)?,
            targets: targets.clone()?,
            bits: zeros(alloc, words)?,
        }))
    }
}

/// How many chunks have a bit each, at most.
const MOST: u64 = (1 << 29) - 1;

/// How many numbers of 64 bits have a bit for each list below a shape; `None` where there are 536870912 or more of these.
fn words_for(shape: &[u64]) -> Option<usize>
    ensures { MatchOption result (2 ^ 29 ≤ length (row_major shape.now))
        (λ words. (length (row_major shape.now) < 2 ^ 29)
        × (length (row_major shape.now) ≤ 64 * words)) }
{
    let count = count_below(shape);
    if count <= MOST {
        Some(count.div_ceil(64) as usize)
    } else {
        None
    }
}

/// The chunk in a box of chunk numbers whose key this is; `None` if there is none.
///
/// # Errors
/// Out of memory.
fn chunk_in<F: ChunkKeyEncodingTraits>(
    alloc: Global,
    encoding: &F,
    chunks: &ArraySubset,
    key: &StoreKey,
) -> Result<Option<ArrayIndices>, AllocError>
    ensures found { IfOk result (λ found. (chunk : List ℕ) → (IsInside chunks.now chunk
        × F.is_key encoding.now chunk key.now) ↔ MatchOption found ⊥ (λ it. it.items ≡ chunk)) }
    ensures is_box { IsBox chunks.now }
{
    chunks.is_a_box();
    let found = encoding.decode(alloc, chunks.dimensionality(), key)?;
    let Some(chunk) = found else {
        return Ok(None);
    };
    if !chunks.contains(&chunk) {
        return Ok(None);
    }
    Ok(Some(chunk))
}

/// The number of a chunk among those in a box of chunk numbers, counted from 0 in row-major order.
fn number_in(chunks: &ArraySubset, chunk: &[u64]) -> u64
    requires inside { IsInside chunks.now chunk.now }
    requires few { length (chunks_in chunks.now) < 2 ^ 29 }
    ensures number { slice_get (chunks_in chunks.now) result ≡ Some chunk.now }
    ensures is_box { IsBox chunks.now }
{
    let (start, shape) = (chunks.start(), chunks.shape());
    let mut number = 0u64;
    for dimension in 0..shape.len() {
        // Nothing is cut off, since the chunks of the box are few.
        let steps = chunk[dimension].saturating_sub(start[dimension]);
        number = number
            .saturating_mul(shape[dimension])
            .saturating_add(steps);
    }
    number
}

/// Whether a bit of a number is set, counted from its lowest one.
fn has_bit(word: u64, bit: u64) -> bool
    requires { bit < 64 }
    ensures { result ≡ (bit_at word bit == 1) }
{
    word >> bit & 1 == 1
}

/// The number with this bit set.
fn with_bit(word: u64, bit: u64) -> u64
    requires { bit < 64 }
    ensures set { bit_at result bit ≡ 1 }
    ensures others { (other : ℕ) → other ≢ bit → bit_at result other ≡ bit_at word other }
{
    word | 1 << bit
}
