//! The call that prepares a grid, and what is asked of a prepared one.
ghost use Rattle.std.specs.Prelude.{◌≡◌, ◌⊎◌, IfOk, List, MatchResult, OnOk, drop, length};
ghost use Rattle.zarrs_chunk_base.specs.Grid.{Grid};
ghost use Rattle.zarrs_chunk_batches.specs.Batch.{AreLengths};
ghost use Rattle.zarrs_chunk_batches.specs.Calls.{IfWritten, IsEndOf, IsKeptIfShort};
ghost use Rattle.zarrs_chunk_batches.specs.GridCalls.{chunk_boxes_request, chunk_indices_request, covers_request, grid_shape_request, homes_request};
ghost use Rattle.zarrs_chunk_batches.specs.PreparedCalls.{AreKeptForPrepared, EndsForPrepared, prepare_grid_call};
ghost use Rattle.zarrs_chunk_batches.specs.declared.codes.Fault.TheVariants.{Length, Memory, NotPrepared};
ghost use Rattle.zarrs_chunk_prepared.specs.Prepared.{AreTables, IsPreparedGrid, Table};
ghost use Rattle.zarrs_chunk_prepared.specs.seen.PreparedGrid.{IsReadOf, width_of};

use crate::batch::answer_all;
use crate::buffers::write_front;
use crate::codes::Fault;
use crate::lists::check_lengths;
use crate::metadata::grid_of;
use crate::questions::{ChunkBoxes, Covers, Homes};
use std::alloc::Global;
use zarrs_chunk_prepared::PreparedGrid;

/// Writes the numbers of the grid, and how many they are, even where the buffer is shorter.
///
/// # Errors
/// The first that applies: the grid can't be made; the numbers are more than their buffer holds. Or out of memory.
pub fn prepare_grid(
    alloc: Global,
    shape: &[u64],
    chunk_grid: &[u8],
    numbers: &mut [u64],
    needed: &mut usize,
) -> Result<(), Fault>
    ensures ends { IsEndOf (prepare_grid_call
        shape.now chunk_grid.now numbers.new needed.new) result }
    ensures kept_if_short { IsKeptIfShort numbers.old numbers.new result }
    ensures kept_behind { IfWritten
        (drop needed.new numbers.new ≡ drop needed.new numbers.old) result }
{
    let grid = grid_of(alloc, shape, chunk_grid)?;
    let prepared = zarrs_chunk_prepared::prepare_grid(alloc, &grid)?;
    write_front(&prepared, numbers, needed)
}

/// Reads the grid whose numbers these are, for up to this many look-ups.
///
/// # Errors
/// The numbers aren't a grid's; or out of memory.
fn read_grid<'a>(
    alloc: Global,
    numbers: &'a [u64],
    look_ups: usize,
) -> Result<PreparedGrid<'a>, Fault>
    ensures read { MatchResult result
        (λ prepared. (grid : Grid) → IsPreparedGrid numbers.now grid → IsReadOf grid prepared)
        (λ fault. (fault ≡ Memory) ⊎ ((fault ≡ NotPrepared)
        × ((grid : Grid) → ¬ IsPreparedGrid numbers.now grid))) }
    ensures tables { IfOk result (λ _. (tables : List Table) × AreTables numbers.now tables) }
{
    match PreparedGrid::read(alloc, numbers, look_ups)? {
        Some(grid) => Ok(grid),
        None => Err(Fault::NotPrepared),
    }
}

/// Reads it, and checks that each of some arrays has as many numbers as `count` lists have, with a number for each dimension.
///
/// # Errors
/// The numbers aren't a grid's; or, if they are, an array has more numbers or fewer. Or out of memory.
fn read_fitting<'a>(
    alloc: Global,
    numbers: &'a [u64],
    totals: &[usize],
    count: usize,
) -> Result<PreparedGrid<'a>, Fault>
    ensures fits { IfOk result (λ prepared. AreLengths (width_of prepared) count totals.now) }
    ensures read { (grid : Grid) → IsPreparedGrid numbers.now grid → MatchResult result
        (λ prepared. IsReadOf grid prepared × AreLengths (length grid.dimensions) count totals.now)
        (λ fault. (fault ≡ Memory) ⊎ ((fault ≡ Length)
        × ¬ AreLengths (length grid.dimensions) count totals.now)) }
    ensures of_none { ((tables : List Table) → ¬ AreTables numbers.now tables)
        → MatchResult result (λ _. ⊥) (λ fault. (fault ≡ Memory) ⊎ (fault ≡ NotPrepared)) }
{
    let grid = read_grid(alloc, numbers, count)?;
    check_lengths(totals, grid.dimensionality(), count)?;
    Ok(grid)
}

/// Writes how many chunks are counted along each dimension.
///
/// # Errors
/// The numbers aren't a grid's; or, if they are, the grid shape has another length. Or out of memory.
pub fn grid_shape_in(alloc: Global, numbers: &[u64], grid_shape: &mut [u64]) -> Result<(), Fault>
    ensures { EndsForPrepared numbers.now (grid_shape_request grid_shape.new) result }
{
    Ok(read_grid(alloc, numbers, 0)?.write_grid_shape(grid_shape)?)
}

/// Writes the chunk of each element.
///
/// # Errors
/// The numbers aren't a grid's; or, if they are, the lengths don't fit. Or out of memory.
pub fn chunk_indices_in(
    alloc: Global,
    numbers: &[u64],
    indices: &[u64],
    chunks: &mut [u64],
    found: &mut [u8],
) -> Result<(), Fault>
    ensures ends { EndsForPrepared numbers.now
        (chunk_indices_request indices.now chunks.new found.new) result }
    ensures chunks_kept { OnOk result
        (AreKeptForPrepared numbers.now chunks.old chunks.new found.new) }
{
    let totals = [indices.len(), chunks.len()];
    let grid = read_fitting(alloc, numbers, &totals, found.len())?;
    let homes = Homes {
        grid,
        indices,
        with_places: false,
    };
    answer_all(alloc, &homes, chunks, &mut [], found, &mut 0)
}

/// Writes the chunk of each element, and the element's place there.
///
/// # Errors
/// The numbers aren't a grid's; or, if they are, the lengths don't fit. Or out of memory.
pub fn homes_in(
    alloc: Global,
    numbers: &[u64],
    indices: &[u64],
    chunks: &mut [u64],
    places: &mut [u64],
    found: &mut [u8],
) -> Result<(), Fault>
    ensures ends { EndsForPrepared numbers.now
        (homes_request indices.now chunks.new places.new found.new) result }
    ensures chunks_kept { OnOk result
        (AreKeptForPrepared numbers.now chunks.old chunks.new found.new) }
    ensures places_kept { OnOk result
        (AreKeptForPrepared numbers.now places.old places.new found.new) }
{
    let totals = [indices.len(), chunks.len(), places.len()];
    let grid = read_fitting(alloc, numbers, &totals, found.len())?;
    let homes = Homes {
        grid,
        indices,
        with_places: true,
    };
    answer_all(alloc, &homes, chunks, places, found, &mut 0)
}

/// Writes the box of each chunk.
///
/// # Errors
/// The numbers aren't a grid's; or, if they are, the lengths don't fit. Or out of memory.
pub fn chunk_boxes_in(
    alloc: Global,
    numbers: &[u64],
    chunks: &[u64],
    origins: &mut [u64],
    shapes: &mut [u64],
    found: &mut [u8],
) -> Result<(), Fault>
    ensures ends { EndsForPrepared numbers.now
        (chunk_boxes_request chunks.now origins.new shapes.new found.new) result }
    ensures origins_kept { OnOk result
        (AreKeptForPrepared numbers.now origins.old origins.new found.new) }
    ensures shapes_kept { OnOk result
        (AreKeptForPrepared numbers.now shapes.old shapes.new found.new) }
{
    let totals = [chunks.len(), origins.len(), shapes.len()];
    let grid = read_fitting(alloc, numbers, &totals, found.len())?;
    let boxes = ChunkBoxes { grid, chunks };
    answer_all(alloc, &boxes, origins, shapes, found, &mut 0)
}

/// Writes the cover of each box of elements.
///
/// # Errors
/// The numbers aren't a grid's; or, if they are, the first that applies: the lengths don't fit; a box ends past 18446744073709551615, and
/// `wrong` says which is the first such. Or out of memory.
pub fn covers_in(
    alloc: Global,
    numbers: &[u64],
    starts: &[u64],
    shapes: &[u64],
    first_chunks: &mut [u64],
    chunk_counts: &mut [u64],
    found: &mut [u8],
    wrong: &mut usize,
) -> Result<(), Fault>
    ensures ends { EndsForPrepared numbers.now
        (covers_request starts.now shapes.now
        first_chunks.new chunk_counts.new found.new wrong.new) result }
    ensures first_chunks_kept { OnOk result
        (AreKeptForPrepared numbers.now first_chunks.old first_chunks.new found.new) }
    ensures chunk_counts_kept { OnOk result
        (AreKeptForPrepared numbers.now chunk_counts.old chunk_counts.new found.new) }
{
    let totals = [
        starts.len(),
        shapes.len(),
        first_chunks.len(),
        chunk_counts.len(),
    ];
    let grid = read_fitting(alloc, numbers, &totals, found.len())?;
    let covers = Covers {
        grid,
        starts,
        shapes,
    };
    answer_all(alloc, &covers, first_chunks, chunk_counts, found, wrong)
}
