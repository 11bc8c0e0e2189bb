//! Boxes that are made of starts and sizes, in the memory of these.
ghost use Rattle.std.specs.Prelude.{◌≡◌, ◌+◌, ◌-◌, ◌<◌, ◌≤◌, ℕ, IfSome, MatchOption, length, slice_index_or};
ghost use Rattle.std.specs.List.{AllZip};
ghost use Rattle.zarrs_chunk_base.specs.ArraySubset.{IsBox, ends};
ghost use Rattle.zarrs_chunk_base.specs.Greatest.{AllFit};

use zarrs_chunk_base::{ArrayIndices, ArrayShape, ArraySubset};

/// The box from a start to where other ranges end, of which the starts and sizes are given; `None` where one of them ends past
/// 18446744073709551615.
pub(super) fn box_up_to(
    start: ArrayIndices,
    last_start: &[u64],
    last_shape: ArrayShape,
) -> Option<ArraySubset>
    requires before { AllZip ◌≤◌ start.items last_start.now }
    requires lengths { length last_shape.items ≡ length last_start.now }
    ensures { MatchOption result (¬ AllFit (ends last_start.now last_shape.items))
        (λ b. IsBox b × (b.start ≡ start.items)
        × (ends b.start b.shape ≡ ends last_start.now last_shape.items)) }
{
    let shape = sizes_up_to(&start, last_start, last_shape)?;
    ArraySubset::new_with_start_shape(start, shape).ok()
}

/// For each range, how many numbers there are from a start before it to its end, in the memory of the sizes; `None` where one of these is
/// past 18446744073709551615.
fn sizes_up_to(start: &[u64], last_start: &[u64], mut sizes: ArrayShape) -> Option<ArrayShape>
    requires before { length start.now ≡ length last_start.now }
    requires lengths { length sizes.items ≡ length last_start.now }
    ensures { MatchOption result (¬ AllFit (ends last_start.now sizes.items))
        (λ v. (length v.items ≡ length sizes.items) × ((k : ℕ) → k < length v.items
        → slice_index_or v.items k 0 ≡ slice_index_or last_start.now k 0
        - slice_index_or start.now k 0 + slice_index_or sizes.items k 0)) }
{
    for (dimension, last) in last_start.iter().enumerate() {
        let before = last.saturating_sub(start[dimension]);
        sizes[dimension] = before.checked_add(sizes[dimension])?;
    }
    Some(sizes)
}
