//! Where a chunk starts and how long it is, dimension by dimension.
ghost use Rattle.std.specs.Prelude.{◌≡◌, ◌<◌, ℕ, IsTrue, false, length, slice_index_or};
ghost use Rattle.zarrs_chunk_prepared.specs.seen.PreparedGrid.{HasNoRangeIn, HasSomeRangeIn, IsRangeIn, table_at};

use crate::axis::PreparedAxis;

/// Whether each number is that of a chunk that ends at 18446744073709551615 or before.
pub(crate) fn have_ranges(axes: &[PreparedAxis<'_>], chunk: &[u64]) -> bool
    requires { length chunk.now ≡ length axes.now }
    ensures each { IsTrue result → (k : ℕ) → k < length axes.now
        → HasSomeRangeIn (table_at axes.now k) (slice_index_or chunk.now k 0) }
    ensures one { result ≡ false → (k : ℕ) × (k < length axes.now)
        × HasNoRangeIn (table_at axes.now k) (slice_index_or chunk.now k 0) }
{
    for (dimension, axis) in axes.iter().enumerate() {
        if axis.range_of(chunk[dimension]).is_none() {
            return false;
        }
    }
    true
}

/// Writes where each chunk starts along its dimension, and how long it is.
pub(crate) fn write_box(
    axes: &[PreparedAxis<'_>],
    chunk: &[u64],
    origin: &mut [u64],
    shape: &mut [u64],
)
    requires chunk { length chunk.now ≡ length axes.now }
    requires origin { length origin.old ≡ length axes.now }
    requires shape { length shape.old ≡ length axes.now }
    requires ranges { (k : ℕ) → k < length axes.now
        → HasSomeRangeIn (table_at axes.now k) (slice_index_or chunk.now k 0) }
    ensures { (k : ℕ) → k < length axes.now → IsRangeIn (table_at axes.now k)
        (slice_index_or chunk.now k 0) (slice_index_or origin.new k 0) (slice_index_or shape.new k 0) }
{
    for (dimension, axis) in axes.iter().enumerate() {
        let (start, size) = axis.range_of(chunk[dimension]).unwrap_or((0, 0));
        origin[dimension] = start;
        shape[dimension] = size;
    }
}
