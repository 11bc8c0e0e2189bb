//! Lists of one length, one after another.
ghost use Rattle.std.specs.Prelude.{◌≡◌, ◌≢◌, ℕ, ◌+◌, ◌*◌, ◌↔◌, IsTrue, MatchResult, drop, length};
ghost use Rattle.zarrs_chunk_batches.specs.Batch.{AreLengths, list_at};
ghost use Rattle.zarrs_chunk_batches.specs.KeyCalls.{AreTextLengths};
ghost use Rattle.zarrs_chunk_batches.specs.declared.codes.Fault.TheVariants.{Length};
ghost use Rattle.zarrs_chunk_batches.specs.seen.Lists.{HasList};

use crate::codes::Fault;

/// Sees that each of some arrays has exactly so many numbers as this many lists of this length have.
///
/// # Errors
/// One has more or fewer.
pub(crate) fn check_lengths(totals: &[usize], width: usize, count: usize) -> Result<(), Fault>
    ensures { MatchResult result (λ _. AreLengths width count totals.now)
        (λ fault. (fault ≡ Length) × ¬ AreLengths width count totals.now) }
{
    for total in totals {
        if !is_length(*total, width, count) {
            return Err(Fault::Length);
        }
    }
    Ok(())
}

/// How many texts there are offsets for, which are one more, where each of some arrays has exactly as many numbers as so many lists have.
///
/// # Errors
/// There is no offset, or an array has more numbers or fewer.
pub(crate) fn count_of_texts(offsets: usize, totals: &[usize], width: usize) -> Result<usize, Fault>
    ensures { MatchResult result (AreTextLengths width offsets totals.now)
        (λ fault. (fault ≡ Length) × ¬ ((count : ℕ)
        × AreTextLengths width offsets totals.now count)) }
{
    let Some(count) = offsets.checked_sub(1) else {
        return Err(Fault::Length);
    };
    check_lengths(totals, width, count)?;
    Ok(count)
}

/// Whether so many numbers are as many as this many lists of this length have.
fn is_length(total: usize, width: usize, count: usize) -> bool
    ensures { IsTrue result ↔ (total ≡ width * count) }
{
    width.checked_mul(count) == Some(total)
}

/// The list with this number, counted from 0.
pub(crate) fn list_of(numbers: &[u64], width: usize, number: usize) -> &[u64]
    requires { HasList width numbers.now number }
    ensures { result.now ≡ list_at width numbers.now number }
{
    let start = number * width;
    &numbers[start..start + width]
}

/// Writes the list with this number.
pub(crate) fn write_list(numbers: &mut [u64], width: usize, number: usize, list: &[u64])
    requires room { HasList width numbers.old number }
    requires long { length list.now ≡ width }
    ensures written { list_at width numbers.new number ≡ list.now }
    ensures others { (other : ℕ) → other ≢ number
        → list_at width numbers.new other ≡ list_at width numbers.old other }
    ensures behind { drop ((number + 1) * width) numbers.new
        ≡ drop ((number + 1) * width) numbers.old }
{
    let start = number * width;
    numbers[start..start + width].copy_from_slice(list);
}
