//! What two boxes have in common.
ghost use Rattle.std.specs.Prelude.{◌≡◌, ◌↔◌, ℕ, IfOk, List, length};
ghost use Rattle.zarrs_chunk_base.specs.ArraySubset.{IsBox, IsInside};
ghost use Rattle.zarrs_chunk_parts.specs.seen.Shared.{later_starts, shared_sizes};

use crate::shared::{box_of, sizes_shared};
use std::alloc::{AllocError, Global};
use zarrs_chunk_base::{ArrayIndices, ArraySubset};

/// The box of what lies in both of two boxes, which have the same number of dimensions; an empty box where nothing does.
///
/// # Errors
/// Out of memory.
pub fn overlap(
    alloc: Global,
    one: &ArraySubset,
    other: &ArraySubset,
) -> Result<ArraySubset, AllocError>
    requires { length one.now.start ≡ length other.now.start }
    ensures is_box { IfOk result (λ both. IsBox both) }
    ensures start { IfOk result (λ both. both.start
        ≡ later_starts one.now.start other.now.start) }
    ensures shape { IfOk result (λ both. both.shape
        ≡ shared_sizes one.now.start one.now.shape other.now.start other.now.shape) }
    ensures common { IfOk result (λ both. (index : List ℕ)
        → IsInside both index ↔ (IsInside one.now index × IsInside other.now index)) }
{
    let start = later_starts(alloc, one.start(), other.start())?;
    let shape = sizes_shared(one.start(), Vec::from_slice(alloc, one.shape())?, other);
    Ok(box_of(start, shape))
}

/// For each dimension the later of two starts.
///
/// # Errors
/// Out of memory.
fn later_starts(alloc: Global, one: &[u64], other: &[u64]) -> Result<ArrayIndices, AllocError>
    ensures { IfOk result (λ v. v.items ≡ later_starts one.now other.now) }
{
    let mut starts = Vec::with_capacity(alloc, one.len())?;
    let pairs = one.iter().zip(other);
    starts.extend(pairs.map(|(first, start)| (*first).max(*start)))?;
    Ok(starts)
}
