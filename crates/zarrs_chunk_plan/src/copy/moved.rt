//! Whether a box lies in an array, and boxes that are shifted.
ghost use Rattle.std.specs.Prelude.{◌≡◌, ◌↔◌, ◌+◌, ◌≤◌, IfOk, IsTrue, length};
ghost use Rattle.zarrs_chunk_base.specs.ArraySubset.{IsBox};
ghost use Rattle.zarrs_chunks.specs.Walks.{counted_from};
ghost use Rattle.zarrs_chunk_plan.specs.Region.{EndWithin, shifted};

use std::alloc::{AllocError, Global};
use zarrs_chunk_base::{ArrayIndices, ArraySubset};
use zarrs_chunk_parts::made_box;

/// Whether a box lies in an array: along no dimension it ends past the array's size.
pub(crate) fn lies_in(start: &[u64], shape: &[u64], array_shape: &[u64]) -> bool
    requires starts { length start.now ≡ length array_shape.now }
    requires sizes { length shape.now ≡ length array_shape.now }
    ensures lies { IsTrue result ↔ EndWithin start.now shape.now array_shape.now }
    ensures is_box { IsTrue result → IsBox (record { start = start.now; shape = shape.now }) }
{
    let mut ranges = start.iter().zip(shape).zip(array_shape);
    ranges.all(|((first, count), size)| ends_within(*first, *count, *size))
}

/// Whether a range, which is given by its first index and how many it holds, ends at a size or before it.
fn ends_within(first: u64, count: u64, size: u64) -> bool
    ensures { IsTrue result ↔ (first + count ≤ size) }
{
    first <= size && count <= size - first
}

/// A box, shifted by as many numbers as it has dimensions.
///
/// # Errors
/// Out of memory; or the box would end past 18446744073709551615.
pub fn shifted_box(alloc: Global, first: &[u64], b: &ArraySubset) -> Result<ArraySubset, AllocError>
    ensures value { IfOk result (λ moved. moved ≡ shifted first.now b.now) }
    ensures is_box { IfOk result IsBox }
{
    let start = sums(alloc, first, b.start())?;
    made_box(start, Vec::from_slice(alloc, b.shape())?)
}

/// For each dimension the sum of two numbers.
///
/// # Errors
/// Out of memory; or a sum is past 18446744073709551615.
fn sums(alloc: Global, first: &[u64], steps: &[u64]) -> Result<ArrayIndices, AllocError>
    ensures { IfOk result (λ v. v.items ≡ counted_from first.now steps.now) }
{
    let mut sums = Vec::with_capacity(alloc, steps.len())?;
    for (start, step) in first.iter().zip(steps) {
        match start.checked_add(*step) {
            Some(sum) => sums.push(sum)?,
            None => return Err(AllocError),
        }
    }
    Ok(sums)
}
