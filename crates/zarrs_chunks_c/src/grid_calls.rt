//! The calls of a prepared grid, and the call that prepares one.
ghost use Rattle.std.specs.Prelude.{◌≡◌, OnOk, drop};
ghost use Rattle.zarrs_chunk_batches.specs.Calls.{IfWritten, IsEndOf, IsKeptIfShort};
ghost use Rattle.zarrs_chunk_batches.specs.Codes.{Ends};
ghost use Rattle.zarrs_chunk_batches.specs.GridCalls.{chunk_boxes_request, chunk_indices_request, covers_request, grid_shape_request, homes_request};
ghost use Rattle.zarrs_chunk_batches.specs.PreparedCalls.{AreKeptForPrepared, EndsForPrepared, prepare_grid_call};

use std::alloc::Global;
use zarrs_chunk_batches::{
    chunk_boxes_in, chunk_indices_in, code_of, covers_in, grid_shape_in, homes_in, prepare_grid,
};

/// The numbers of the grid, by which the calls of a prepared grid answer as it does.
#[unsafe(no_mangle)]
pub extern "C" fn zarrs_prepare_grid(
    alloc: Global,
    shape: &[u64],
    chunk_grid: &[u8],
    numbers: &mut [u64],
    needed: &mut usize,
) -> i32
    ensures ends { Ends (IsEndOf (prepare_grid_call
        shape.now chunk_grid.now numbers.new needed.new)) result }
    ensures kept_if_short { Ends (IsKeptIfShort numbers.old numbers.new) result }
    ensures kept_behind { Ends (λ end. IfWritten
        (drop needed.new numbers.new ≡ drop needed.new numbers.old) end) result }
{
    code_of(prepare_grid(alloc, shape, chunk_grid, numbers, needed))
}

/// How many chunks are counted along each dimension.
#[unsafe(no_mangle)]
pub extern "C" fn zarrs_prepared_grid_shape(
    alloc: Global,
    numbers: &[u64],
    grid_shape: &mut [u64],
) -> i32
    ensures { Ends (EndsForPrepared numbers.now
        (grid_shape_request grid_shape.new)) result }
{
    code_of(grid_shape_in(alloc, numbers, grid_shape))
}

/// The chunk of each element.
#[unsafe(no_mangle)]
pub extern "C" fn zarrs_prepared_chunk_indices_of(
    alloc: Global,
    numbers: &[u64],
    indices: &[u64],
    chunks: &mut [u64],
    found: &mut [u8],
) -> i32
    ensures ends { Ends (EndsForPrepared numbers.now
        (chunk_indices_request indices.now chunks.new found.new)) result }
    ensures chunks_kept { Ends (λ end. OnOk end
        (AreKeptForPrepared numbers.now chunks.old chunks.new found.new)) result }
{
    code_of(chunk_indices_in(alloc, numbers, indices, chunks, found))
}

/// The chunk of each element, and the element's place there.
#[unsafe(no_mangle)]
pub extern "C" fn zarrs_prepared_homes_of(
    alloc: Global,
    numbers: &[u64],
    indices: &[u64],
    chunks: &mut [u64],
    places: &mut [u64],
    found: &mut [u8],
) -> i32
    ensures ends { Ends (EndsForPrepared numbers.now
        (homes_request indices.now chunks.new places.new found.new)) result }
    ensures chunks_kept { Ends (λ end. OnOk end
        (AreKeptForPrepared numbers.now chunks.old chunks.new found.new)) result }
    ensures places_kept { Ends (λ end. OnOk end
        (AreKeptForPrepared numbers.now places.old places.new found.new)) result }
{
    code_of(homes_in(alloc, numbers, indices, chunks, places, found))
}

/// The box of each chunk, as its origin and its shape.
#[unsafe(no_mangle)]
pub extern "C" fn zarrs_prepared_chunk_boxes_of(
    alloc: Global,
    numbers: &[u64],
    chunks: &[u64],
    origins: &mut [u64],
    shapes: &mut [u64],
    found: &mut [u8],
) -> i32
    ensures ends { Ends (EndsForPrepared numbers.now
        (chunk_boxes_request chunks.now origins.new shapes.new found.new)) result }
    ensures origins_kept { Ends (λ end. OnOk end
        (AreKeptForPrepared numbers.now origins.old origins.new found.new)) result }
    ensures shapes_kept { Ends (λ end. OnOk end
        (AreKeptForPrepared numbers.now shapes.old shapes.new found.new)) result }
{
    code_of(chunk_boxes_in(alloc, numbers, chunks, origins, shapes, found))
}

/// The cover of each box of elements. `wrong` says which box is the first that ends past 18446744073709551615.
#[unsafe(no_mangle)]
pub extern "C" fn zarrs_prepared_covers_of(
    alloc: Global,
    numbers: &[u64],
    starts: &[u64],
    shapes: &[u64],
    first_chunks: &mut [u64],
    chunk_counts: &mut [u64],
    found: &mut [u8],
    wrong: &mut usize,
) -> i32
    ensures ends { Ends (EndsForPrepared numbers.now
        (covers_request starts.now shapes.now
        first_chunks.new chunk_counts.new found.new wrong.new)) result }
    ensures first_chunks_kept { Ends (λ end. OnOk end
        (AreKeptForPrepared numbers.now first_chunks.old first_chunks.new found.new)) result }
    ensures chunk_counts_kept { Ends (λ end. OnOk end
        (AreKeptForPrepared numbers.now chunk_counts.old chunk_counts.new found.new)) result }
{
    code_of(covers_in(
        alloc,
        numbers,
        starts,
        shapes,
        first_chunks,
        chunk_counts,
        found,
        wrong,
    ))
}
