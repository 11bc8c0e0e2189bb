//! Where byte ranges begin, one after another.
ghost use Rattle.std.specs.Prelude.{◌≡◌, ◌≢◌, ◌+◌, ◌<◌, ◌≤◌, ◌⊎◌, IfOk, IfSome, MatchOption, None, length, map, min};
ghost use Rattle.zarrs_chunk_base.specs.Greatest.{greatest};
ghost use Rattle.zarrs_chunk_plan.specs.Bytes.{HasPast, begins, repeated};
ghost use Rattle.zarrs_chunk_plan.specs.Counts.{product};

use crate::bytes::ranges::ByteRanges;
use std::alloc::{AllocError, Global};

impl ByteRanges {
    /// Where each range begins, in order, if there are at most so many. `None` is answered exactly where there are more, where `counts` and `strides`
    /// differ in length, or where one begins past 18446744073709551615: of those that [`byte_ranges`](crate::byte_ranges) answers, only where there are
    /// more.
    ///
    /// # Errors
    /// Out of memory.
    #[tactic(auto, using(crate::proofs::bytes::RangeStarts::begins_length))]
    pub fn starts(&self, alloc: Global, most: u64) -> Result<Option<Vec<u64>>, AllocError>
        ensures starts { IfOk result (λ found. IfSome found (λ starts. starts.items
            ≡ begins self.now.first self.now.counts.items self.now.strides.items)) }
        ensures few { IfOk result (λ found. IfSome found (λ starts. length starts.items ≤ most)) }
        ensures lists { IfOk result (λ found. IfSome found (λ _. length self.now.counts.items
            ≡ length self.now.strides.items)) }
        ensures none { IfOk result (λ found. found ≡ None
            → (length self.now.counts.items ≢ length self.now.strides.items)
            ⊎ (most < length (begins self.now.first self.now.counts.items self.now.strides.items))
            ⊎ HasPast (begins self.now.first self.now.counts.items self.now.strides.items)) }
    {
        if self.counts.len() != self.strides.len() {
            return Ok(None);
        }
        let many = saturating_product(&self.counts);
        if many > most {
            return Ok(None);
        }
        // No memory holds as many numbers, or more.
        if many == u64::MAX {
            return Err(AllocError);
        }
        if many == 0 {
            return Ok(Some(Vec::new(alloc)));
        }
        some_starts(alloc, self.first, &self.counts, &self.strides)
    }
}

/// Where each of some ranges begins; `None` where one begins past 18446744073709551615.
///
/// # Errors
/// Out of memory.
#[tactic(auto, using(crate::proofs::bytes::RangeStarts::one_more_dimension, crate::proofs::bytes::RangeStarts::inner_of_all))]
fn some_starts(
    alloc: Global,
    first: u64,
    counts: &[u64],
    strides: &[u64],
) -> Result<Option<Vec<u64>>, AllocError>
    requires lists { length counts.now ≡ length strides.now }
    requires some { 0 < product counts.now }
    ensures { IfOk result (λ found. MatchOption found (HasPast (begins first counts.now strides.now))
        (λ starts. starts.items ≡ begins first counts.now strides.now)) }
{
    let mut starts = Vec::with_capacity(alloc, 1)?;
    starts.push(first)?;
    for dimension in (0..counts.len()).rev() {
        match repeated(alloc, counts[dimension], strides[dimension], &starts)? {
            Some(all) => starts = all,
            None => return Ok(None),
        }
    }
    Ok(Some(starts))
}

/// The numbers, so many times, each time greater by a stride than before; `None` where one is past 18446744073709551615.
///
/// # Errors
/// Out of memory.
fn repeated(
    alloc: Global,
    count: u64,
    stride: u64,
    numbers: &[u64],
) -> Result<Option<Vec<u64>>, AllocError>
    requires { 0 < length numbers.now }
    ensures { IfOk result (λ found. MatchOption found (HasPast (repeated count stride numbers.now))
        (λ all. all.items ≡ repeated count stride numbers.now)) }
{
    let mut all = Vec::new(alloc);
    for times in 0..count {
        let Some(shift) = times.checked_mul(stride) else {
            return Ok(None);
        };
        match later(alloc, numbers, shift)? {
            Some(next) => all.extend_from_slice(&next)?,
            None => return Ok(None),
        }
    }
    Ok(Some(all))
}

/// Each number, greater by a shift; `None` where one is past 18446744073709551615.
///
/// # Errors
/// Out of memory.
fn later(alloc: Global, numbers: &[u64], shift: u64) -> Result<Option<Vec<u64>>, AllocError>
    ensures { IfOk result (λ found. MatchOption found
        (HasPast (map (λ n. n + shift) numbers.now))
        (λ sums. sums.items ≡ map (λ n. n + shift) numbers.now)) }
{
    let mut sums = Vec::with_capacity(alloc, numbers.len())?;
    for number in numbers {
        match number.checked_add(shift) {
            Some(sum) => sums.push(sum)?,
            None => return Ok(None),
        }
    }
    Ok(Some(sums))
}

/// A product, as far as a number of 64 bits counts it.
fn saturating_product(numbers: &[u64]) -> u64
    ensures { result ≡ min greatest (product numbers.now) }
{
    let mut held = 1u64;
    for number in numbers {
        held = held.saturating_mul(*number);
    }
    held
}
