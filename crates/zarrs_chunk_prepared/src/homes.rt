//! In which chunk an element lies, dimension by dimension.
ghost use Rattle.std.specs.Prelude.{◌≡◌, ◌<◌, ◌≤◌, ℕ, IsTrue, false, length, map, slice_index_or, slice_set};
ghost use Rattle.zarrs_chunk_prepared.specs.seen.PreparedGrid.{IsChunkIn, IsPlaceIn, Misses, Reaches, table_at};

use crate::axis::PreparedAxis;

/// Whether each index lies in a chunk along its dimension.
pub(crate) fn reach(axes: &[PreparedAxis<'_>], index: &[u64]) -> bool
    requires { length index.now ≡ length axes.now }
    ensures each { IsTrue result → (k : ℕ) → k < length axes.now
        → Reaches (table_at axes.now k) (slice_index_or index.now k 0) }
    ensures one { result ≡ false → (k : ℕ) × (k < length axes.now)
        × Misses (table_at axes.now k) (slice_index_or index.now k 0) }
{
    for (dimension, axis) in axes.iter().enumerate() {
        if !axis.reaches(index[dimension]) {
            return false;
        }
    }
    true
}

/// Writes the chunk that each index lies in along its dimension, and the index's place there, as far as there is room for places.
pub(crate) fn write_home(
    axes: &[PreparedAxis<'_>],
    index: &[u64],
    chunk: &mut [u64],
    place: &mut [u64],
)
    requires index { length index.now ≡ length axes.now }
    requires chunk { length chunk.old ≡ length axes.now }
    requires reach { (k : ℕ) → k < length axes.now
        → Reaches (table_at axes.now k) (slice_index_or index.now k 0) }
    ensures chunks { (k : ℕ) → k < length axes.now → IsChunkIn (table_at axes.now k)
        (slice_index_or index.now k 0) (slice_index_or chunk.new k 0) }
    ensures places { (k : ℕ) → k < length axes.now → k < length place.new
        → IsPlaceIn (table_at axes.now k) (slice_index_or index.now k 0)
        (slice_index_or chunk.new k 0) (slice_index_or place.new k 0) }
{
    for (dimension, axis) in axes.iter().enumerate() {
        let (at, behind) = axis.home_of(index[dimension]);
        chunk[dimension] = at;
        put(place, dimension, behind);
    }
}

/// Writes a number where there is room for it.
fn put(numbers: &mut [u64], place: usize, number: u64)
    ensures written { place < length numbers.old
        → numbers.new ≡ slice_set numbers.old place number }
    ensures kept { length numbers.old ≤ place → numbers.new ≡ numbers.old }
{
    if place < numbers.len() {
        numbers[place] = number;
    }
}
