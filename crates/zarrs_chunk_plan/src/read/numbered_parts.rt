//! Some of the parts of a box of elements, from any one on.
ghost use Rattle.std.specs.Prelude.{◌≡◌, ◌≢◌, ◌⊎◌, ◌-◌, ◌≤◌, IfOk, IfSome, drop, length, take};
ghost use Rattle.std.specs.List.{AllByRecursion, AllZip};
ghost use Rattle.zarrs_chunk_base.specs.ArraySubset.{IsEmptyBox};
ghost use Rattle.zarrs_chunks.specs.Walks.{chunks_in};
ghost use Rattle.zarrs_chunk_parts.specs.Plan.{IsPart, Meets};
ghost use Rattle.zarrs_chunk_plan.specs.SomeParts.{AreSomeParts};
ghost use Rattle.zarrs_chunk_plan.specs.seen.Parts.{FindsCovered, FindsSome};

use crate::shares::numbered_chunks::{chunk_at, count_below};
use std::alloc::{AllocError, Global};
use zarrs_chunk_base::{ArraySubset, IncompatibleDimensionalityError, Refusal};
use zarrs_chunk_keys::ChunkKeyEncodingTraits;
use zarrs_chunk_parts::{Part, part_of};
use zarrs_chunks::ChunkGridTraits;

/// Some of the parts of a plan.
#[derive(Debug, Drop)]
pub struct SomeParts {
    /// How many parts the plan has in all; 18446744073709551615 means that many or more.
    pub in_all: u64,
    /// Those that were asked for, in the order of the plan.
    pub parts: Vec<Part>,
}

/// Of the parts that [`parts`](crate::parts) gives the one with the number `first`, counted from 0, and those after it, at most `most` in all.
/// Those before it aren't made, so a plan can be taken a page at a time, or shared out. `None` where the box has no cover, as there.
///
/// Only parts whose number is below 18446744073709551615 can be asked for.
///
/// # Errors
/// Those of [`parts`](crate::parts).
pub fn some_parts<G: ChunkGridTraits, E: ChunkKeyEncodingTraits>(
    alloc: Global,
    grid: &G,
    encoding: &E,
    array_subset: &ArraySubset,
    first: u64,
    most: usize,
) -> Result<Option<SomeParts>, Refusal<IncompatibleDimensionalityError>>
    ensures parts { IfOk result (λ found. IfSome found (λ some. AreSomeParts
        (G.dimensions grid.now) (E.is_key encoding.now) array_subset.now
        first most some.in_all some.parts.items)) }
    ensures empty { IsEmptyBox array_subset.now → length (G.dimensions grid.now) ≢ 0
        → FindsSome result }
    ensures answers { (¬ IsEmptyBox array_subset.now) ⊎ (length (G.dimensions grid.now) ≡ 0)
        → FindsCovered (G.dimensions grid.now) array_subset.now result }
{
    array_subset.is_a_box();
    let cover = grid.chunks_in_array_subset(alloc, array_subset)?;
    let Some(cover) = cover else {
        return Ok(None);
    };
    let in_all = count_below(cover.shape());
    let end = first.saturating_add(most as u64).min(in_all);
    let parts = parts_between(alloc, grid, encoding, array_subset, &cover, (first, end))?;
    Ok(Some(SomeParts { in_all, parts }))
}

/// The parts of the chunks with these numbers, of those in a box of chunk numbers, each of which holds some element: from the first number up to
/// the second one.
///
/// # Errors
/// Out of memory.
fn parts_between<G: ChunkGridTraits, E: ChunkKeyEncodingTraits>(
    alloc: Global,
    grid: &G,
    encoding: &E,
    array_subset: &ArraySubset,
    chunks: &ArraySubset,
    numbers: (u64, u64),
) -> Result<Vec<Part>, AllocError>
    requires meet { AllByRecursion (Meets (G.dimensions grid.now) array_subset.now)
        (chunks_in chunks.now) }
    requires within { numbers.1 ≤ length (chunks_in chunks.now) }
    ensures { IfOk result (λ parts. AllZip
        (IsPart (G.dimensions grid.now) (E.is_key encoding.now) array_subset.now)
        (take (numbers.1 - numbers.0) (drop numbers.0 (chunks_in chunks.now))) parts.items) }
{
    let (first, end) = numbers;
    let mut parts = Vec::new(alloc);
    for number in first..end {
        let chunk = chunk_at(alloc, chunks, number)?;
        parts.push(part_of(alloc, grid, encoding, array_subset, chunk)?)?;
    }
    Ok(parts)
}
