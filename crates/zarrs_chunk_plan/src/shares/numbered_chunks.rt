//! The chunks in a box of chunk numbers, by their number.
ghost use Rattle.std.specs.Prelude.{◌≡◌, ◌-◌, ◌<◌, ◌^◌, IfOk, Some, length, min};
ghost use Rattle.std.specs.List.{slice_get};
ghost use Rattle.zarrs_chunk_base.specs.ArraySubset.{IsBox};
ghost use Rattle.zarrs_chunk_base.specs.Greatest.{greatest};
ghost use Rattle.zarrs_chunk_axes.specs.RowMajor.{row_major};
ghost use Rattle.zarrs_chunks.specs.Walks.{chunks_in};
ghost use Rattle.zarrs_chunk_plan.specs.Counted.{counted};

use std::alloc::{AllocError, Global};
use zarrs_chunk_base::ArraySubset;
use zarrs_chunks::ArrayIndicesTinyVec;

/// How many lists of numbers are below a shape; 18446744073709551615 means that many or more.
pub fn count_below(shape: &[u64]) -> u64
    ensures { result ≡ min (length (row_major shape.now)) greatest }
{
    count_of(shape).unwrap_or(u64::MAX)
}

/// How many lists of numbers are below a shape; `None` past 18446744073709551615.
pub(crate) fn count_of(shape: &[u64]) -> Option<u64>
    ensures { result ≡ counted (length (row_major shape.now)) }
{
    let count = long_count(shape);
    if count <= u64::MAX as u128 {
        Some(count as u64)
    } else {
        None
    }
}

/// How many lists of numbers are below a shape; 2 ^ 128 - 1 means that many or more.
pub(crate) fn long_count(shape: &[u64]) -> u128
    ensures { result ≡ min (length (row_major shape.now)) (2 ^ 128 - 1) }
{
    let mut count = 1u128;
    for size in shape {
        count = count.saturating_mul(*size as u128);
    }
    count
}

/// The chunk with this number, which has to be one of those in a box of chunk numbers. They are numbered from 0 in row-major order, and those before it
/// take no time: so a walk over [all chunks of a grid](crate::all_chunks) can begin at each that a number of 64 bits counts.
///
/// # Errors
/// Out of memory.
pub fn chunk_at(
    alloc: Global,
    chunks: &ArraySubset,
    number: u64,
) -> Result<ArrayIndicesTinyVec, AllocError>
    requires { number < length (chunks_in chunks.now) }
    ensures { IfOk result (λ chunk. slice_get (chunks_in chunks.now) number ≡ Some chunk.items) }
{
    let mut chunk = ArrayIndicesTinyVec::from_slice(alloc, chunks.start())?;
    write_chunk(chunks.start(), chunks.shape(), number, chunk.as_mut_slice());
    Ok(chunk)
}

/// Writes the chunk with this number, of those in the box of a start and a shape.
fn write_chunk(start: &[u64], shape: &[u64], number: u64, chunk: &mut [u64])
    requires length { length chunk.old ≡ length start.now }
    requires is_box { IsBox (record { start = start.now; shape = shape.now }) }
    requires within { number < length (chunks_in
        (record { start = start.now; shape = shape.now })) }
    ensures { slice_get (chunks_in (record { start = start.now; shape = shape.now })) number
        ≡ Some chunk.new }
{
    let mut rest = number;
    for dimension in (0..shape.len()).rev() {
        chunk[dimension] = start[dimension] + rest % shape[dimension];
        rest /= shape[dimension];
    }
}
