//! From which chunk to which a box of elements reaches, and how many chunks there are.
ghost use Rattle.std.specs.List.{AllZip};
ghost use Rattle.std.specs.Prelude.{◌≡◌, ◌⊎◌, ◌+◌, ◌-◌, ◌<◌, ◌≤◌, ℕ, List, cond, false, length, map, slice_index_or};
ghost use Rattle.zarrs_chunk_base.specs.Dimension.{Dimension, InBox};
ghost use Rattle.zarrs_chunk_base.specs.Greatest.{greatest};
ghost use Rattle.zarrs_chunk_prepared.specs.Prepared.{IsTableOf};
ghost use Rattle.zarrs_chunk_prepared.specs.seen.Axis.{table_of};
ghost use Rattle.zarrs_chunk_prepared.specs.seen.PreparedGrid.{table_at};
ghost use Rattle.zarrs_chunks.specs.Subsets.{HasNoHome};

use crate::axis::PreparedAxis;
use crate::homes::{reach, write_home};

/// Writes the chunks of a first and of a last element, and answers whether there are any. Where one of the two lies in no chunk, nothing is written.
pub(crate) fn find_chunks(
    axes: &[PreparedAxis<'_>],
    start: &[u64],
    end: &[u64],
    first: &mut [u64],
    last: &mut [u64],
) -> bool
    requires start { length start.now ≡ length axes.now }
    requires end { length end.now ≡ length axes.now }
    requires first { length first.old ≡ length axes.now }
    requires last { length last.old ≡ length axes.now }
    ensures chunks { (ds : List Dimension) → AllZip IsTableOf ds (map table_of axes.now)
        → cond result (InBox ds first.new start.now × InBox ds last.new end.now)
        (HasNoHome ds start.now ⊎ HasNoHome ds end.now) }
    ensures kept { result ≡ false → (first.new ≡ first.old) × (last.new ≡ last.old) }
{
    if !reach(axes, start) {
        return false;
    }
    if !reach(axes, end) {
        return false;
    }
    write_home(axes, start, first, &mut []);
    write_home(axes, end, last, &mut []);
    true
}

/// Writes in place of each last chunk how many there are from the first one on.
pub(crate) fn count_from(first: &[u64], last: &mut [u64])
    requires { length first.now ≡ length last.old }
    ensures { (k : ℕ) → k < length first.now
        → slice_index_or first.now k 0 ≤ slice_index_or last.old k 0
        → slice_index_or last.old k 0 < greatest
        → slice_index_or last.new k 0
        ≡ slice_index_or last.old k 0 - slice_index_or first.now k 0 + 1 }
{
    for (dimension, chunk) in first.iter().enumerate() {
        last[dimension] = last[dimension].saturating_sub(*chunk).saturating_add(1);
    }
}

/// Writes how many chunks are counted along each dimension.
pub(crate) fn write_sizes(axes: &[PreparedAxis<'_>], sizes: &mut [u64])
    requires { length sizes.old ≡ length axes.now }
    ensures { (k : ℕ) → k < length axes.now
        → slice_index_or sizes.new k 0 ≡ (table_at axes.now k).grid_size }
{
    for (dimension, axis) in axes.iter().enumerate() {
        sizes[dimension] = axis.grid_size;
    }
}
