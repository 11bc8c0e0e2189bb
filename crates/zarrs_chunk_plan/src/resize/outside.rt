//! The chunks that are below one list of numbers and not below another, as boxes.
ghost use Rattle.std.specs.Prelude.{◌≡◌, ◌↔◌, ◌⊎◌, ◌<◌, ◌≤◌, ◌++◌, ℕ, IfOk, List, OnOk, get_or, length, set};
ghost use Rattle.std.specs.List.{Contains};
ghost use Rattle.zarrs_chunk_base.specs.ArraySubset.{IsBox, IsInside};
ghost use Rattle.zarrs_chunk_axes.specs.InBounds.{AreBelow};
ghost use Rattle.zarrs_chunks.specs.Walks.{chunks_in};
ghost use Rattle.zarrs_chunk_plan.specs.seen.Outside.{AreOnce, IsOutside, chunks_of_boxes, pairwise_min};

use crate::boxes_from_zero::{box_from_zero, zeros};
use std::alloc::{AllocError, Global};
use zarrs_chunk_base::{ArrayShape, ArraySubset};
use zarrs_chunk_parts::made_box;

/// The chunks that are below some numbers, in one box; no box, where there are none.
///
/// # Errors
/// Out of memory.
pub(crate) fn below(alloc: Global, sizes: &[u64]) -> Result<Vec<ArraySubset>, AllocError>
    ensures those { IfOk result (λ boxes. (chunk : List ℕ)
        → Contains (chunks_of_boxes boxes.items) chunk ↔ AreBelow sizes.now chunk) }
    ensures once { IfOk result (λ boxes. AreOnce (chunks_of_boxes boxes.items)) }
{
    let mut boxes = Vec::with_capacity(alloc, 1)?;
    push_some(&mut boxes, box_from_zero(alloc, sizes)?)?;
    Ok(boxes)
}

/// The chunks that are below one list of numbers and not below another, in boxes of which no two have one chunk.
///
/// # Errors
/// Out of memory.
pub(crate) fn outside(
    alloc: Global,
    inner: &[u64],
    outer: &[u64],
) -> Result<Vec<ArraySubset>, AllocError>
    requires { length inner.now ≡ length outer.now }
    ensures those { IfOk result (λ boxes. (chunk : List ℕ)
        → Contains (chunks_of_boxes boxes.items) chunk ↔ IsOutside inner.now outer.now chunk) }
    ensures once { IfOk result (λ boxes. AreOnce (chunks_of_boxes boxes.items)) }
{
    let mut shape = pairwise_min(alloc, inner, outer)?;
    let mut boxes = Vec::with_capacity(alloc, outer.len())?;
    for dimension in (0..outer.len()).rev() {
        let added = added_part(alloc, &shape, dimension, outer[dimension])?;
        push_some(&mut boxes, added)?;
        shape[dimension] = outer[dimension];
    }
    Ok(boxes)
}

/// Returns the lesser of each two numbers.
///
/// # Errors
/// Out of memory.
fn pairwise_min(alloc: Global, one: &[u64], other: &[u64]) -> Result<ArrayShape, AllocError>
    ensures { IfOk result (λ v. v.items ≡ pairwise_min one.now other.now) }
{
    let mut least = Vec::with_capacity(alloc, one.len())?;
    let pairs = one.iter().zip(other);
    least.extend(pairs.map(|(size, limit)| (*size).min(*limit)))?;
    Ok(least)
}

/// Appends a box, unless it is empty.
///
/// # Errors
/// Out of memory.
fn push_some(boxes: &mut Vec<ArraySubset>, added: ArraySubset) -> Result<(), AllocError>
    ensures chunks { OnOk result (chunks_of_boxes boxes.new.items
        ≡ chunks_of_boxes boxes.old.items ++ chunks_in added) }
{
    if added.is_empty() {
        return Ok(());
    }
    boxes.push(added)?;
    Ok(())
}

/// What a box that begins at 0 gets when it grows to a size along one dimension.
///
/// # Errors
/// Out of memory.
fn added_part(
    alloc: Global,
    shape: &[u64],
    dimension: usize,
    size: u64,
) -> Result<ArraySubset, AllocError>
    requires within { dimension < length shape.now }
    requires grows { get_or shape.now dimension 0 ≤ size }
    ensures together { IfOk result (λ added. (chunk : List ℕ)
        → AreBelow (set shape.now dimension size) chunk
        ↔ (AreBelow shape.now chunk ⊎ IsInside added chunk)) }
    ensures apart { IfOk result (λ added. (chunk : List ℕ) → AreBelow shape.now chunk
        → ¬ IsInside added chunk) }
    ensures is_box { IfOk result IsBox }
{
    let mut start = zeros(alloc, shape.len())?;
    let mut sizes = Vec::from_slice(alloc, shape)?;
    start[dimension] = shape[dimension];
    sizes[dimension] = size - shape[dimension];
    let added = made_box(start, sizes)?;
    Ok(added)
}
