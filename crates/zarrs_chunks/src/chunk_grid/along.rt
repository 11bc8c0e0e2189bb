//! Look-ups along one dimension, by those of lists.
ghost use Rattle.std.specs.Prelude.{◌≡◌, ◌<◌, IfOk, Ok, replicate, slice_set};

use std::alloc::{AllocError, Global};
use zarrs_chunk_base::{ArrayIndices, IncompatibleDimensionalityError, Refusal};

/// A number along one dimension, and 0 along the others.
///
/// # Errors
/// Out of memory.
pub(super) fn number_along(
    alloc: Global,
    dimensionality: usize,
    dimension: usize,
    number: u64,
) -> Result<ArrayIndices, AllocError>
    requires { dimension < dimensionality }
    ensures { IfOk result (λ numbers. numbers.items
        ≡ slice_set (replicate dimensionality 0) dimension number) }
{
    let mut numbers = Vec::with_capacity(alloc, dimensionality)?;
    numbers.resize(dimensionality, 0)?;
    numbers[dimension] = number;
    Ok(numbers)
}

/// What is found of a list that has a number for each dimension.
///
/// # Errors
/// Out of memory.
pub(super) fn answered<T: Drop>(
    found: Result<Option<T>, Refusal<IncompatibleDimensionalityError>>,
) -> Result<Option<T>, AllocError>
    ensures { IfOk result (λ answer. found ≡ Ok answer) }
{
    match found {
        Ok(answer) => Ok(answer),
        Err(_) => Err(AllocError),
    }
}
