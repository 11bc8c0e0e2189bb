//! The groups of chunks, and the chunks of a group, along each dimension.
ghost use Rattle.std.specs.Prelude.{◌≡◌, ◌+◌, ◌-◌, ◌*◌, ◌/◌, IfOk, max, min};
ghost use Rattle.std.specs.Int.NonZero.{non_zero_u64_get};
ghost use Rattle.zarrs_chunk_base.specs.Greatest.{greatest};
ghost use Rattle.zarrs_chunk_tasks.specs.seen.GroupNumbers.{counts_to, groups_of};

use std::alloc::{AllocError, Global};
use std::num::NonZeroU64;

/// For each dimension the group that joins a chunk.
///
/// # Errors
/// Out of memory.
pub(crate) fn groups_of(
    alloc: Global,
    each: &[NonZeroU64],
    chunk: &[u64],
) -> Result<Vec<u64>, AllocError>
    ensures { IfOk result (λ v. v.items ≡ groups_of each.now chunk.now) }
{
    let mut groups = Vec::with_capacity(alloc, each.len())?;
    let pairs = each.iter().zip(chunk);
    groups.extend(pairs.map(|(each, chunk)| *chunk / *each))?;
    Ok(groups)
}

/// For each dimension how many numbers there are from one up to another, which counts too.
///
/// # Errors
/// Out of memory.
pub(crate) fn counts_to(alloc: Global, first: &[u64], last: &[u64]) -> Result<Vec<u64>, AllocError>
    ensures { IfOk result (λ v. v.items ≡ counts_to first.now last.now) }
{
    let mut counts = Vec::with_capacity(alloc, first.len())?;
    let pairs = first.iter().zip(last);
    counts.extend(pairs.map(|(first, last)| last.saturating_sub(*first).saturating_add(1)))?;
    Ok(counts)
}

/// The first chunk of a group, not before a first one.
pub(crate) fn first_chunk(each: NonZeroU64, group: u64, first: u64) -> u64
    ensures { result ≡ max (min (group * non_zero_u64_get each) greatest) first }
{
    group.saturating_mul(each.get()).max(first)
}

/// The last chunk of a group, not past a last one.
pub(crate) fn last_chunk(each: NonZeroU64, group: u64, last: u64) -> u64
    ensures { result ≡ min (min (group * non_zero_u64_get each
        + (non_zero_u64_get each - 1)) greatest) last }
{
    let each = each.get();
    group
        .saturating_mul(each)
        .saturating_add(each - 1)
        .min(last)
}
