//! Which bytes of a chunk's object hold the elements of a box, where the chunk is stored uncompressed.
ghost use Rattle.std.specs.Prelude.{◌≡◌, ◌≢◌, ◌*◌, ◌+◌, ◌<◌, ◌≤◌, ◌∷◌, [], ℕ, IfErr, IfOk, IfSome, List, length, option_map, true, false, Contains};
ghost use Rattle.std.specs.Int.NonZero.{non_zero_u64_get};
ghost use Rattle.zarrs_chunk_base.specs.Greatest.{greatest};
ghost use Rattle.zarrs_chunk_base.specs.Refusal.{HasMemory, OrMemory, TellsLengths};
ghost use Rattle.zarrs_chunk_plan.specs.Bytes.{FindsRanges, HasPast, begins, in_order};
ghost use Rattle.zarrs_chunk_plan.specs.Region.{EndWithin};
ghost use Rattle.zarrs_chunk_plan.specs.Strided.{form_of, no_ranges, ranges_of};
ghost use Rattle.zarrs_chunk_plan.specs.seen.Rows.{HasRanges, IsStrided};

use crate::copy::moved::lies_in;
use std::alloc::{AllocError, Global};
use std::num::NonZeroU64;
use zarrs_chunk_base::{ArraySubset, IncompatibleDimensionalityError, Refusal};

/// Ranges of bytes of one length, as many as the product of `counts`. For each list of numbers `k`, with `k[d]` below `counts[d]`, one begins at
/// `first` + `k[0]` * `strides[0]` + `k[1]` * `strides[1]` and so on. Where the lists are empty, there is one.
#[derive(Debug, Drop)]
pub struct ByteRanges {
    /// Where the first range begins, counted from the object's first byte.
    pub first: u64,
    /// How many bytes each range has.
    pub length: u64,
    /// How many ranges follow one another along each dimension of ranges, the outermost first.
    pub counts: Vec<u64>,
    /// As many numbers as `counts`: how many bytes there are from the beginning of one to that of the next along each of these dimensions.
    pub strides: Vec<u64>,
}

/// In which order the elements of a chunk are stored.
#[derive(Clone, Copy, Debug, PartialEq, Eq)]
pub enum MemoryOrder {
    /// Row-major: along the last dimension one element follows another. So the codec `bytes` writes a chunk.
    C,
    /// Column-major: along the first dimension one element follows another. So does `bytes` behind the codec `transpose` with all dimensions
    /// reversed, and Zarr V2 where `order` is `F`.
    F,
}

/// Which bytes of a chunk's object hold the elements of a box of the chunk, whose indices are counted from the chunk's first element; `edges` are the
/// chunk's. The object is the chunk's elements, stored in `order`, each in `item_size` bytes, and nothing else: it isn't compressed.
///
/// The ranges come in order, no byte is in two of them, and no two can be joined. The bytes that they have, one range behind another, are the box's
/// elements in the same order as the chunk's. An empty box has no range. `None` is answered exactly where the box doesn't lie in the chunk, or isn't
/// empty and the object would be longer than 18446744073709551615 bytes.
///
/// # Errors
/// The box has another number of dimensions than the chunk; or out of memory.
pub fn byte_ranges(
    alloc: Global,
    edges: &[u64],
    elements: &ArraySubset,
    item_size: NonZeroU64,
    order: MemoryOrder,
) -> Result<Option<ByteRanges>, Refusal<IncompatibleDimensionalityError>>
    ensures found { IfOk result (FindsRanges (non_zero_u64_get item_size) order edges.now
        elements.now.start elements.now.shape) }
    ensures form { IfOk result (λ found. option_map form_of found
        ≡ ranges_of (non_zero_u64_get item_size) order edges.now elements.now.start
        elements.now.shape) }
    ensures fit { IfOk result (λ found. IfSome found (λ ranges.
        ¬ HasPast (begins ranges.first ranges.counts.items ranges.strides.items))) }
    ensures lengths { IfOk result (λ _. length elements.now.start ≡ length edges.now) }
    ensures lengths_first { length elements.now.start ≢ length edges.now → HasMemory result }
    ensures refused { IfErr result (OrMemory (λ e.
        (length elements.now.start ≢ length edges.now)
        × TellsLengths (length elements.now.start) (length edges.now) e)) }
{
    if elements.dimensionality() != edges.len() {
        return Err(Refusal::Refused(IncompatibleDimensionalityError::new(
            elements.dimensionality(),
            edges.len(),
        )));
    }
    if !lies_in(elements.start(), elements.shape(), edges) {
        return Ok(None);
    }
    if elements.is_empty() {
        return Ok(Some(no_ranges(alloc)?));
    }
    let edges = in_order(alloc, edges, order)?;
    let start = in_order(alloc, elements.start(), order)?;
    let shape = in_order(alloc, elements.shape(), order)?;
    let found = some_ranges(alloc, &edges, &start, &shape, item_size)?;
    Ok(found)
}

/// A list of a number for each dimension, the outermost in this order first.
///
/// # Errors
/// Out of memory.
fn in_order(alloc: Global, numbers: &[u64], order: MemoryOrder) -> Result<Vec<u64>, AllocError>
    ensures { IfOk result (λ v. v.items ≡ in_order order numbers.now) }
{
    let mut numbers = Vec::from_slice(alloc, numbers)?;
    match order {
        MemoryOrder::C => {}
        MemoryOrder::F => numbers.reverse(),
    }
    Ok(numbers)
}

/// The byte ranges of a box that isn't empty and lies in a row-major chunk; `None` where the chunk's object would be too long.
///
/// # Errors
/// Out of memory.
#[tactic(auto, using(crate::proofs::MovedBoxes::within_long, crate::proofs::MovedBoxes::within_starts, crate::proofs::StridedForms::at_each))]
fn some_ranges(
    alloc: Global,
    edges: &[u64],
    start: &[u64],
    shape: &[u64],
    item_size: NonZeroU64,
) -> Result<Option<ByteRanges>, AllocError>
    requires within { EndWithin start.now shape.now edges.now }
    requires some { ¬ Contains shape.now 0 }
    ensures { IfOk result (IsStrided (non_zero_u64_get item_size) edges.now start.now shape.now) }
{
    let mut rows = Rows::of_an_element(alloc, item_size);
    for dimension in (0..edges.len()).rev() {
        let is_counted = rows.go_out(start[dimension], shape[dimension], edges[dimension])?;
        if !is_counted {
            return Ok(None);
        }
    }
    Ok(Some(rows.ranges))
}

/// No ranges.
///
/// # Errors
/// Out of memory.
fn no_ranges(alloc: Global) -> Result<ByteRanges, AllocError>
    ensures { IfOk result (λ ranges. form_of ranges ≡ no_ranges) }
{
    let mut counts = Vec::with_capacity(alloc, 1)?;
    counts.push(0)?;
    let mut strides = Vec::with_capacity(alloc, 1)?;
    strides.push(0)?;
    Ok(ByteRanges {
        first: 0,
        length: 0,
        counts,
        strides,
    })
}

/// The byte ranges of a box along some inner dimensions, in one row of the chunk along the next outer one.
#[derive(Drop)]
struct Rows {
    ranges: ByteRanges,
    /// How many bytes a row has.
    row: u64,
    /// Whether the box has all of the row.
    whole: bool,
}

impl Rows {
    /// The range of one element.
    fn of_an_element(alloc: Global, item_size: NonZeroU64) -> Rows
        ensures { HasRanges (non_zero_u64_get item_size) [] [] [] result }
    {
        let ranges = ByteRanges {
            first: 0,
            length: item_size.get(),
            counts: Vec::new(alloc),
            strides: Vec::new(alloc),
        };
        Rows {
            ranges,
            row: item_size.get(),
            whole: true,
        }
    }

    /// Goes to the next outer dimension, along which the box has so many rows from one on, and the chunk has so many in all. Tells whether the bytes
    /// of these are counted by a number.
    ///
    /// # Errors
    /// Out of memory.
    fn go_out(&mut self, start: u64, count: u64, edge: u64) -> Result<bool, AllocError>
        requires some { 0 < count }
        requires within { start + count ≤ edge }
        ensures outer { IfOk result (λ is_counted. is_counted ≡ true
            → (item : ℕ) (edges starts shape : List ℕ) → HasRanges item edges starts shape self.old
            → HasRanges item (edge ∷ edges) (start ∷ starts) (count ∷ shape) self.new) }
        ensures too_long { IfOk result (λ is_counted. is_counted ≡ false
            → greatest < edge * self.old.row) }
    {
        let Some(outer) = edge.checked_mul(self.row) else {
            return Ok(false);
        };
        // No product and no sum is cut off, since none is past that of all rows.
        let before = start.saturating_mul(self.row);
        self.ranges.first = self.ranges.first.saturating_add(before);
        if self.whole {
            self.ranges.length = count.saturating_mul(self.row);
            self.whole = count == edge;
        } else {
            self.ranges.counts.insert(0, count)?;
            self.ranges.strides.insert(0, self.row)?;
        }
        self.row = outer;
        Ok(true)
    }
}
