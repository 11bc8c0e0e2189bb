//! Counting through the lists of numbers below a shape in row-major order.
ghost use Rattle.std.specs.Prelude.{◌≡◌, ◌≢◌, ◌↔◌, ◌+◌, ◌<◌, ◌≤◌, ℕ, IsTrue, List, MatchOption, length, slice_index_or};
ghost use Rattle.std.specs.Bool.{MatchBool};
ghost use Rattle.std.specs.List.{AllPairs, Contains};
ghost use Rattle.zarrs_chunk_base.specs.Greatest.{greatest};
ghost use Rattle.zarrs_chunk_axes.specs.InBounds.{AreBelow};
ghost use Rattle.zarrs_chunk_axes.specs.RowMajor.{IsBefore, row_major};
ghost use Rattle.zarrs_chunk_axes.specs.seen.Counting.{AreFull, IsPassed, IsRaisable, after, from, raised};

/// Goes from a list below the shape to the one that comes next; `false` where it was the last.
pub fn advance(shape: &[u64], numbers: &mut [u64]) -> bool
    requires { AreBelow shape.now numbers.old }
    ensures below { IsTrue result → AreBelow shape.now numbers.new }
    ensures next { after shape.now numbers.old ≡ from result shape.now numbers.new }
{
    raise_last(shape, numbers, shape.len())
}

/// Goes from a list below the shape to a later one, over those all of whose numbers are at least its own: past the last
/// number that isn't 0, into the number before. `false` where it passed over all that are left.
pub(crate) fn pass_over(shape: &[u64], numbers: &mut [u64]) -> bool
    requires { AreBelow shape.now numbers.old }
    ensures below { IsTrue result → AreBelow shape.now numbers.new }
    ensures passed { (passed : List (List ℕ))
        × IsPassed shape.now numbers.old (from result shape.now numbers.new) passed }
{
    match last_not_zero(numbers) {
        Some(place) => raise_last(shape, numbers, place),
        None => false,
    }
}

/// Adds a start to numbers that were counted from it.
pub fn count_from(numbers: &mut [u64], start: &[u64])
    requires lengths { length numbers.old ≡ length start.now }
    requires fits { (k : ℕ) → slice_index_or start.now k 0 + slice_index_or numbers.old k 0
        ≤ greatest }
    ensures length { length numbers.new ≡ length numbers.old }
    ensures sum { (k : ℕ) → slice_index_or numbers.new k 0
        ≡ slice_index_or start.now k 0 + slice_index_or numbers.old k 0 }
{
    for (dimension, first) in start.iter().enumerate() {
        numbers[dimension] += first;
    }
}

/// The lists in row-major order are all that are below the shape, each once and each after those before it.
pub fn row_major_gives_each_list_once()
    ensures each { (shape numbers : List ℕ)
        → Contains (row_major shape) numbers ↔ AreBelow shape numbers }
    ensures in_order { (shape : List ℕ) → AllPairs IsBefore (row_major shape) }
    ensures once { (shape : List ℕ) → AllPairs (λ one other. one ≢ other) (row_major shape) }
{}

/// Raises the last of the first `width` numbers that stays below its size, and sets those after it to 0; `false` where
/// there is none.
fn raise_last(shape: &[u64], numbers: &mut [u64], width: usize) -> bool
    requires lengths { length numbers.old ≡ length shape.now }
    requires width { width ≤ length shape.now }
    ensures { MatchBool result ((k : ℕ) × IsRaisable shape.now numbers.old width k
        × (numbers.new ≡ raised k numbers.old)) (AreFull shape.now numbers.old 0 width) }
{
    let Some(place) = last_raisable(shape, numbers, width) else {
        return false;
    };
    numbers[place] += 1;
    numbers[place + 1..].fill(0);
    true
}

/// The last of the first `width` places at which the number can be raised and stays below its size.
fn last_raisable(shape: &[u64], numbers: &[u64], width: usize) -> Option<usize>
    requires lengths { length numbers.now ≡ length shape.now }
    requires width { width ≤ length shape.now }
    ensures { MatchOption result (AreFull shape.now numbers.now 0 width)
        (λ k. IsRaisable shape.now numbers.now width k) }
{
    for place in (0..width).rev() {
        if shape[place].saturating_sub(numbers[place]) > 1 {
            return Some(place);
        }
    }
    None
}

/// The last place with a number that isn't 0.
fn last_not_zero(numbers: &[u64]) -> Option<usize>
    ensures { MatchOption result ((k : ℕ) → slice_index_or numbers.now k 0 ≡ 0)
        (λ place. (place < length numbers.now) × ((k : ℕ) → place < k
        → slice_index_or numbers.now k 0 ≡ 0)) }
{
    numbers.iter().rposition(|number| *number != 0)
}
