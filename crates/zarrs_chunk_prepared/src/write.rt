//! Writing the numbers of a grid.
ghost use Rattle.std.specs.Int.NonZero.{non_zero_u64_get};
ghost use Rattle.std.specs.Prelude.{◌≡◌, ◌++◌, ℕ, IfOk, OnOk};
ghost use Rattle.zarrs_chunk_axes.specs.Listed.{IsListed};
ghost use Rattle.zarrs_chunk_base.specs.Dimension.{Dimension, IsChain};
ghost use Rattle.zarrs_chunk_base.specs.DimensionEdges.{equal, listed};
ghost use Rattle.zarrs_chunk_base.specs.RunLength.{expansion, rectilinear_edges};
ghost use Rattle.zarrs_chunk_prepared.specs.Prepared.{IsWrittenGrid, IsShortest, IsTableOf, Table, row};
ghost use Rattle.zarrs_chunk_prepared.specs.seen.RunTable.{HaveSum, IsCut};
ghost use Rattle.zarrs_chunks.specs.GridKinds.{is_bounded as ends_with_array};
ghost use Rattle.zarrs_chunks.specs.seen.Grids.{grid_in, kind_in};

use crate::grid::GRID_MARK;
use crate::run_table::RunTable;
use std::alloc::{AllocError, Global};
use std::num::NonZeroU64;
use zarrs_chunk_base::{ChunkEdgeLengths, Refusal, RunLengthElement};
use zarrs_chunk_runs::RunEdges;
use zarrs_chunks::{ChunkGrid, ChunkGridTraits};

/// The numbers of a grid, by which [`PreparedGrid`](crate::PreparedGrid) answers as the grid does. There are two, and for each dimension four, and
/// three for each run of equal edges. One edge for all chunks is one run, or none where there is no chunk.
///
/// # Errors
/// Out of memory.
pub fn prepare_grid(alloc: Global, grid: &ChunkGrid) -> Result<Vec<u64>, AllocError>
    ensures { IfOk result (λ numbers. IsWrittenGrid numbers.items (grid_in grid.now)) }
{
    let lengths = grid.edge_lengths(alloc)?;
    let bounded = is_bounded(grid);
    let mut numbers = Vec::new(alloc);
    numbers.push(GRID_MARK)?;
    numbers.push(lengths.len() as u64)?;
    for (dimension, edges) in lengths.iter().enumerate() {
        let size = grid.array_shape()[dimension];
        let count = grid.grid_shape()[dimension];
        append_dimension(alloc, &mut numbers, size, count, bounded, edges)?;
    }
    Ok(numbers)
}

/// Whether chunks of one edge end with the array.
fn is_bounded(grid: &ChunkGrid) -> bool
    ensures { result ≡ ends_with_array (kind_in grid.now) }
{
    match grid {
        ChunkGrid::RegularBounded(_) => true,
        ChunkGrid::Regular(_) | ChunkGrid::Rectangular(_) | ChunkGrid::Rectilinear(_) => false,
    }
}

/// Appends the numbers of a dimension with so many elements and chunks.
///
/// # Errors
/// Out of memory.
fn append_dimension(
    alloc: Global,
    numbers: &mut Vec<u64>,
    size: u64,
    count: u64,
    bounded: bool,
    lengths: &ChunkEdgeLengths,
) -> Result<(), AllocError>
    requires { HaveSum (rectilinear_edges lengths.now) }
    ensures { OnOk result ((d : Dimension) → IsChain d → count ≡ d.grid_size
        → IsCut bounded d size (rectilinear_edges lengths.now)
        → (t : Table) × IsTableOf d t × IsShortest d (rectilinear_edges lengths.now) t
        × (numbers.new.items ≡ numbers.old.items ++ row t)) }
{
    match lengths {
        ChunkEdgeLengths::Scalar(edge) => append_edge(numbers, size, count, bounded, *edge),
        ChunkEdgeLengths::Varying(elements) => append_runs(alloc, numbers, count, elements),
    }
}

/// Appends the numbers of a dimension whose chunks have one edge.
///
/// # Errors
/// Out of memory.
fn append_edge(
    numbers: &mut Vec<u64>,
    size: u64,
    count: u64,
    bounded: bool,
    edge: NonZeroU64,
) -> Result<(), AllocError>
    ensures { OnOk result ((d : Dimension) → IsChain d → count ≡ d.grid_size
        → IsCut bounded d size (equal (non_zero_u64_get edge))
        → (t : Table) × IsTableOf d t × IsShortest d (equal (non_zero_u64_get edge)) t
        × (numbers.new.items ≡ numbers.old.items ++ row t)) }
{
    if !bounded {
        return append_row(
            numbers,
            [count, u64::MAX, u64::MAX, 1],
            &[0],
            &[0],
            &[edge.get()],
        );
    }
    if size == 0 {
        return append_row(numbers, [count, 0, 0, 0], &[], &[], &[]);
    }
    let last_chunk = count.saturating_sub(1);
    append_row(
        numbers,
        [count, size - 1, last_chunk, 1],
        &[0],
        &[0],
        &[edge.get()],
    )
}

/// Appends the numbers of a dimension with the edges of run-length elements.
///
/// # Errors
/// Out of memory.
fn append_runs(
    alloc: Global,
    numbers: &mut Vec<u64>,
    count: u64,
    elements: &[RunLengthElement],
) -> Result<(), AllocError>
    requires { HaveSum (listed (expansion elements.now)) }
    ensures { OnOk result ((d : Dimension) (size : ℕ) → IsChain d → count ≡ d.grid_size
        → IsListed d size (expansion elements.now)
        → (t : Table) × IsTableOf d t × IsShortest d (listed (expansion elements.now)) t
        × (numbers.new.items ≡ numbers.old.items ++ row t)) }
{
    let edges = match RunEdges::new(alloc, elements) {
        Ok(edges) => edges,
        Err(Refusal::Memory(error)) => return Err(error),
        Err(Refusal::Refused(_)) => unreachable!(),
    };
    let table = RunTable::new(alloc, &edges)?;
    let head = [
        count,
        edges.total().saturating_sub(1),
        edges.chunks().saturating_sub(1),
        edges.runs() as u64,
    ];
    append_row(numbers, head, &table.starts, &table.chunks, &table.edges)
}

/// Appends the numbers of a dimension: the first four, and those of its runs.
///
/// # Errors
/// Out of memory.
fn append_row(
    numbers: &mut Vec<u64>,
    head: [u64; 4],
    starts: &[u64],
    chunks: &[u64],
    edges: &[u64],
) -> Result<(), AllocError>
    ensures { OnOk result (numbers.new.items
        ≡ numbers.old.items ++ (head ++ (starts.now ++ (chunks.now ++ edges.now)))) }
{
    numbers.extend_from_slice(&head)?;
    numbers.extend_from_slice(starts)?;
    numbers.extend_from_slice(chunks)?;
    numbers.extend_from_slice(edges)
}
