//! The search in runs.
ghost use Rattle.std.specs.Prelude.{◌≡◌, ◌≤◌, ◌<◌, length, slice_index_or};
ghost use Rattle.std.specs.List.Sorted.{IsNonDecreasing};
ghost use Rattle.zarrs_chunk_prepared.specs.Prepared.{IsLastUpTo};

/// The place of the last number up to another, in numbers of which the first is one. It halves the numbers that are left, in as many steps whatever is
/// sought.
pub(crate) fn last_up_to(numbers: &[u64], sought: u64) -> usize
    requires { 0 < length numbers.now }
    ensures within { result < length numbers.now }
    ensures last { IsNonDecreasing numbers.now → slice_index_or numbers.now 0 0 ≤ sought
        → IsLastUpTo numbers.now sought result }
{
    let mut place = 0;
    let mut left = numbers.len();
    while left > 1 {
        let half = left / 2;
        place += step(half, numbers[place + half], sought);
        left -= half;
    }
    place
}

/// A step of so many places where the number there isn't past the one that is sought, and else none.
///
/// Of an `if` the compiler makes a branch here, and the processor guesses it wrong every other time. The difference of the two as numbers of 128 bits has
/// ones from its 64th bit on where it is below 0.
fn step(places: usize, number: u64, sought: u64) -> usize
    ensures up_to { number ≤ sought → result ≡ places }
    ensures past { sought < number → result ≡ 0 }
{
    let past = (u128::from(sought).wrapping_sub(u128::from(number)) >> 64) as usize;
    places & !past
}
