//! The elements of an array that chunks hold.
ghost use Rattle.std.specs.Prelude.{◌≡◌, ◌≢◌, ◌<◌, ◌≤◌, ◌↔◌, ℕ, IfErr, IfOk, List, Some, length};
ghost use Rattle.zarrs_chunk_base.specs.ArraySubset.{IsEmptyBox, IsInside};
ghost use Rattle.zarrs_chunk_base.specs.Dimension.{InBox, array_sizes};
ghost use Rattle.zarrs_chunk_base.specs.Refusal.{HasMemory, OrMemory, TellsLengths};
ghost use Rattle.zarrs_chunk_axes.specs.Along.{Along};
ghost use Rattle.zarrs_chunk_axes.specs.InBounds.{AreBelow};
ghost use Rattle.zarrs_chunk_parts.specs.Plan.{Meets};
ghost use Rattle.zarrs_chunk_plan.specs.ArrayBoxes.{AreElementsOf, array_box};
ghost use Rattle.zarrs_chunk_plan.specs.Region.{LiesIn};
ghost use Rattle.zarrs_chunk_plan.specs.seen.Used.{HoldsSome, IsHeldRange};

use crate::boxes_from_zero::whole_array;
use crate::copy::array_chunks::chunks_of_array;
use crate::laws::all_fit;
use std::alloc::{AllocError, Global};
use zarrs_chunk_base::{ArraySubset, IncompatibleDimensionalityError, Refusal};
use zarrs_chunk_parts::{box_of, overlap};
use zarrs_chunks::ChunkGridTraits;

/// Returns the elements of a grid's array that the chunks in a box of chunk numbers hold, as a box of the array. It is empty if they hold none.
///
/// # Errors
/// The box has another number of dimensions than the grid; or out of memory.
pub fn elements_of_chunks<G: ChunkGridTraits>(
    alloc: Global,
    grid: &G,
    chunks: &ArraySubset,
) -> Result<ArraySubset, Refusal<IncompatibleDimensionalityError>>
    ensures elements { IfOk result (AreElementsOf (G.dimensions grid.now) chunks.now) }
    ensures lengths { IfOk result (λ _. length chunks.now.start ≡ length (G.dimensions grid.now)) }
    ensures refused { IfErr result (OrMemory (λ e.
        (length chunks.now.start ≢ length (G.dimensions grid.now))
        × TellsLengths (length chunks.now.start) (length (G.dimensions grid.now)) e)) }
    ensures lengths_first { length chunks.now.start ≢ length (G.dimensions grid.now)
        → HasMemory result }
{
    let dimensionality = chunks.dimensionality();
    let expected = grid.dimensionality();
    if dimensionality != expected {
        let error = IncompatibleDimensionalityError::new(dimensionality, expected);
        return Err(Refusal::Refused(error));
    }
    let array = whole_array(alloc, grid)?;
    let written = chunks_of_array(alloc, grid, &array)?;
    let chosen = overlap(alloc, &written, chunks)?;
    let elements = elements_in(alloc, grid, &chosen)?;
    elements.is_a_box();
    Ok(elements)
}

/// The box of the elements of the array that chunks hold, which each hold some. Of no chunks it is an empty box.
///
/// # Errors
/// Out of memory.
pub(crate) fn elements_in<G: ChunkGridTraits>(
    alloc: Global,
    grid: &G,
    chunks: &ArraySubset,
) -> Result<ArraySubset, AllocError>
    requires meet { (chunk : List ℕ) → IsInside chunks.now chunk
        → Meets (G.dimensions grid.now) (array_box (G.dimensions grid.now)) chunk }
    requires long { length chunks.now.start ≡ length (G.dimensions grid.now) }
    ensures elements { IfOk result (λ b. (index : List ℕ) → IsInside b index
        ↔ (AreBelow (array_sizes (G.dimensions grid.now)) index × ((chunk : List ℕ)
        × IsInside chunks.now chunk × InBox (G.dimensions grid.now) chunk index))) }
    ensures empty { IfOk result (λ b. IsEmptyBox b ↔ IsEmptyBox chunks.now) }
    ensures lies { IfOk result (λ b. LiesIn b (array_sizes (G.dimensions grid.now))) }
{
    chunks.is_a_box();
    let Some(last) = chunks.end_inc(alloc)? else {
        return Ok(ArraySubset::new_empty(alloc, grid.dimensionality())?);
    };
    let first = chunks.start();
    let mut start = Vec::with_capacity(alloc, first.len())?;
    let mut shape = Vec::with_capacity(alloc, first.len())?;
    for dimension in 0..first.len() {
        let range = elements_along(alloc, grid, dimension, first[dimension], last[dimension])?;
        start.push(range.0)?;
        shape.push(range.1)?;
    }
    Ok(box_of(start, shape))
}

/// The elements of the array that the chunks of a dimension hold from one up to another, which both hold some: the first one, and how many they are.
///
/// # Errors
/// Out of memory.
fn elements_along<G: ChunkGridTraits>(
    alloc: Global,
    grid: &G,
    dimension: usize,
    first: u64,
    last: u64,
) -> Result<(u64, u64), AllocError>
    requires first { Along (λ d. HoldsSome d first) (G.dimensions grid.now) dimension }
    requires last { Along (λ d. HoldsSome d last) (G.dimensions grid.now) dimension }
    requires in_order { first ≤ last }
    requires dimension { dimension < length (G.dimensions grid.now) }
    ensures { IfOk result (λ range. Along (λ d. IsHeldRange d first last range.0 range.1)
        (G.dimensions grid.now) dimension) }
{
    let (start, _) = expect_found(grid.range_along(alloc, dimension, first)?)?;
    let (last_start, edge) = expect_found(grid.range_along(alloc, dimension, last)?)?;
    let sizes = grid.array_shape();
    all_fit(sizes);
    let end = last_start.saturating_add(edge).min(sizes[dimension]);
    Ok((start, end.saturating_sub(start)))
}

/// Returns what was found of a number that a chunk has. Nothing is found only if it is out of memory.
///
/// # Errors
/// Out of memory.
pub(crate) fn expect_found<T: Drop>(found: Option<T>) -> Result<T, AllocError>
    ensures { IfOk result (λ value. found ≡ Some value) }
{
    found.ok_or(AllocError)
}
