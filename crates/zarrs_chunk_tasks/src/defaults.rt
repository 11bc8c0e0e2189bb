//! What is taken if a copy doesn't say where it begins, or how many chunks a task takes.
ghost use Rattle.std.specs.Prelude.{◌≡◌, IfOk, map, option_map, replicate, unwrap_or};
ghost use Rattle.std.specs.Int.NonZero.{non_zero_u64_get};

use std::alloc::{AllocError, Global};
use std::num::NonZeroU64;

/// Returns the index, or 0 along each of this many dimensions.
///
/// # Errors
/// Out of memory.
pub fn at_or_zeros(
    alloc: Global,
    at: Option<Vec<u64>>,
    dimensionality: usize,
) -> Result<Vec<u64>, AllocError>
    ensures { IfOk result (λ v. v.items
        ≡ unwrap_or (option_map (λ ns. ns.items) at) (replicate dimensionality 0)) }
{
    match at {
        Some(at) => Ok(at),
        None => {
            let mut zeros = Vec::with_capacity(alloc, dimensionality)?;
            zeros.resize(dimensionality, 0)?;
            Ok(zeros)
        }
    }
}

/// Returns the numbers of chunks, or 1 along each of this many dimensions.
///
/// # Errors
/// Out of memory.
pub fn task_chunks_or_ones(
    alloc: Global,
    task_chunks: Option<Vec<NonZeroU64>>,
    dimensionality: usize,
) -> Result<Vec<NonZeroU64>, AllocError>
    ensures { IfOk result (λ v. map non_zero_u64_get v.items
        ≡ unwrap_or (option_map (λ ns. map non_zero_u64_get ns.items) task_chunks)
        (replicate dimensionality 1)) }
{
    match task_chunks {
        Some(task_chunks) => Ok(task_chunks),
        None => {
            let mut ones = Vec::with_capacity(alloc, dimensionality)?;
            ones.resize(dimensionality, NonZeroU64::MIN)?;
            Ok(ones)
        }
    }
}
