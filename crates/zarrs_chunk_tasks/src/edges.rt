//! The edges that are tried for the chunks of an intermediate array.
ghost use Rattle.std.specs.Prelude.{◌≡◌, ◌-◌, ◌*◌, ◌≤◌, ◌<◌, ◌↔◌, ℕ, IfOk, IsTrue, List, length, map, min};
ghost use Rattle.std.specs.Int.NonZero.{non_zero_u64_get};
ghost use Rattle.std.specs.List.{AllByRecursion, AllZip, Contains};
ghost use Rattle.zarrs_chunk_base.specs.ArraySubset.{IsEmptyBox};
ghost use Rattle.zarrs_chunk_base.specs.Dimension.{array_sizes};
ghost use Rattle.zarrs_chunk_base.specs.Greatest.{greatest};
ghost use Rattle.zarrs_chunk_plan.specs.Counts.{product};
ghost use Rattle.zarrs_chunk_plan.specs.Region.{LiesIn};
ghost use Rattle.zarrs_chunk_tasks.specs.Edges.{AreFewPieces, AreLongest, IsTriedShape, most_pieces, most_shapes, rounded_up};
ghost use Rattle.zarrs_chunk_tasks.specs.seen.Choices.{rows_of};
ghost use Rattle.zarrs_chunk_tasks.specs.seen.TriedEdges.{AreUnits, HasAllBy, HasPut, IsFew, IsRow, IsSome, edges_in, rows_of_edges};

use crate::largest_chunk::longest_along;
use crate::thinning::{choices_for, choices_of, thinned};
use std::alloc::{AllocError, Global};
use std::num::NonZeroU64;
use zarrs_chunk_base::ArraySubset;
use zarrs_chunk_parts::found_or_out_of_memory;
use zarrs_chunks::ChunkGridTraits;

/// Up to how many pieces along a dimension each edge is tried.
const MOST_PIECES: u64 = 1 << 16;

/// Up to how many shapes each one is tried.
const MOST_SHAPES: u64 = 1 << 17;

/// How many shapes of one dimension are tried at most if they are more.
const SOME_SHAPES: u64 = 1 << 14;

/// The edges that are tried.
#[derive(Drop)]
pub(crate) struct TriedEdges {
    /// Those along each dimension, without repeats.
    pub(crate) rows: Vec<Vec<NonZeroU64>>,
    /// Whether none was left out.
    pub(crate) are_all: bool,
}

/// The size of one dimension, and the units that edges along it are made of, in elements.
#[derive(Clone, Copy)]
struct Units {
    size: u64,
    /// The edge of the longest chunk of the source, cut to the size,
    read: u64,
    /// and the edge of the longest one of the target.
    written: u64,
}

/// Returns the edges that are tried for the chunks of an intermediate array. `region` is a box of the source's array, which isn't empty. `moved` is where it goes in
/// the target's, of the same shape. The intermediate array has this shape, too.
///
/// Along each dimension an edge is made of whole units. A unit is as long as the longest chunk of the source, of those that hold some of the region, or as the
/// longest one of the target. An edge has the least number of units that cuts the region into at most one piece, two, three and so on. It is cut to the region's
/// size. If there are more than 2^16 units along a dimension, the number of pieces at least doubles from one edge to the next. If so, or if there are more than 2^17 shapes,
/// every second edge is left out along the dimension that has the most, until there are no more than 2^14 shapes, divided by
/// the number of dimensions. The shortest edges stay.
///
/// # Errors
/// Out of memory.
pub(crate) fn tried_edges<G: ChunkGridTraits, H: ChunkGridTraits>(
    alloc: Global,
    source: &G,
    target: &H,
    region: &ArraySubset,
    moved: &ArraySubset,
) -> Result<TriedEdges, AllocError>
    requires region { LiesIn region.now (array_sizes (G.dimensions source.now)) }
    requires moved { LiesIn moved.now (array_sizes (H.dimensions target.now)) }
    requires same { moved.now.shape ≡ region.now.shape }
    requires some { ¬ IsEmptyBox region.now }
    ensures long { IfOk result (λ tried. length tried.rows.items ≡ length region.now.shape) }
    ensures some { IfOk result (λ tried. AllByRecursion (λ row. 0 < length row)
        (rows_of_edges tried.rows.items)) }
    ensures few { IfOk result (λ tried. product (map length (rows_of tried.rows.items)) ≤ most_shapes) }
    ensures all { IfOk result (λ tried. IsTrue tried.are_all → (shape : List ℕ)
        → IsTriedShape (G.dimensions source.now) (H.dimensions target.now) region.now
        moved.now.start shape → AllZip Contains (rows_of_edges tried.rows.items) shape) }
    ensures tried { IfOk result (λ tried. (shape : List ℕ) → AllZip Contains
        (rows_of_edges tried.rows.items) shape → IsTriedShape (G.dimensions source.now)
        (H.dimensions target.now) region.now moved.now.start shape) }
    ensures are_all { IfOk result (λ tried. AreFewPieces (G.dimensions source.now)
        (H.dimensions target.now) region.now moved.now.start → IsTrue tried.are_all) }
{
    let units = units_along(alloc, source, target, region, moved)?;
    let rows = all_edges(alloc, &units, false)?;
    if are_all_tried(&units, &rows) {
        return Ok(TriedEdges {
            rows,
            are_all: true,
        });
    }
    let rows = all_edges(alloc, &units, true)?;
    let most = choices_for(SOME_SHAPES, units.len());
    Ok(TriedEdges {
        rows: thinned(alloc, rows, most)?,
        are_all: false,
    })
}

/// Finds what the edges along each dimension are made of.
///
/// # Errors
/// Out of memory.
fn units_along<G: ChunkGridTraits, H: ChunkGridTraits>(
    alloc: Global,
    source: &G,
    target: &H,
    region: &ArraySubset,
    moved: &ArraySubset,
) -> Result<Vec<Units>, AllocError>
    requires region { LiesIn region.now (array_sizes (G.dimensions source.now)) }
    requires moved { LiesIn moved.now (array_sizes (H.dimensions target.now)) }
    requires same { moved.now.shape ≡ region.now.shape }
    requires some { ¬ IsEmptyBox region.now }
    ensures { IfOk result (λ units. AreUnits (G.dimensions source.now) (H.dimensions target.now)
        region.now moved.now.start units.items) }
{
    moved.is_a_box();
    let read = longest_edges(alloc, source, region)?;
    let written = longest_edges(alloc, target, moved)?;
    let sizes = region.shape();
    let mut units = Vec::new(alloc);
    for dimension in 0..sizes.len() {
        let size = sizes[dimension];
        units.push(Units {
            size,
            read: read[dimension].min(size),
            written: written[dimension].min(size),
        })?;
    }
    Ok(units)
}

/// How long the longest chunk is along each dimension, of those that hold some of a box of elements. The box isn't empty and lies in the array.
///
/// # Errors
/// Out of memory.
fn longest_edges<G: ChunkGridTraits>(
    alloc: Global,
    grid: &G,
    elements: &ArraySubset,
) -> Result<Vec<u64>, AllocError>
    requires lies { LiesIn elements.now (array_sizes (G.dimensions grid.now)) }
    requires some { ¬ IsEmptyBox elements.now }
    ensures longest { IfOk result (λ edges. AreLongest (G.dimensions grid.now) elements.now
        edges.items) }
    ensures long { IfOk result (λ edges. length edges.items ≡ length elements.now.shape) }
    ensures some { IfOk result (λ edges. AllByRecursion (λ edge. 0 < edge) edges.items) }
{
    elements.is_a_box();
    let cover = found_or_out_of_memory(grid.chunks_in_array_subset(alloc, elements))?;
    let first = cover.start();
    let many = cover.shape();
    let mut edges = Vec::new(alloc);
    for dimension in 0..first.len() {
        edges.push(longest_along(alloc, grid, dimension, first[dimension], many[dimension])?)?;
    }
    Ok(edges)
}

/// Whether each edge is tried along each dimension, and each shape that the edges in these rows make.
fn are_all_tried(units: &[Units], rows: &[Vec<NonZeroU64>]) -> bool
    requires { AllByRecursion IsSome units.now }
    ensures few { IsTrue result → AllByRecursion IsFew units.now }
    ensures few_shapes { IsTrue result → product (map length (rows_of rows.now)) ≤ most_shapes }
    ensures all { AllByRecursion IsFew units.now
        → product (map length (rows_of rows.now)) ≤ most_shapes → IsTrue result }
{
    if !are_few(units) {
        return false;
    }
    choices_of(rows) <= MOST_SHAPES
}

/// Whether each edge is tried along each dimension.
fn are_few(units: &[Units]) -> bool
    requires { AllByRecursion IsSome units.now }
    ensures { IsTrue result ↔ AllByRecursion IsFew units.now }
{
    for along in units {
        if !is_few(along) {
            return false;
        }
    }
    true
}

/// Whether each edge is tried along one dimension.
fn is_few(along: &Units) -> bool
    requires { IsSome along.now }
    ensures { IsTrue result ↔ IsFew along.now }
{
    let read = along.size.div_ceil(along.read);
    let written = along.size.div_ceil(along.written);
    read.max(written) <= MOST_PIECES
}

/// Finds the edges that are tried along each dimension, the shortest first if `in_order`.
///
/// # Errors
/// Out of memory.
fn all_edges(
    alloc: Global,
    units: &[Units],
    in_order: bool,
) -> Result<Vec<Vec<NonZeroU64>>, AllocError>
    requires { AllByRecursion IsSome units.now }
    ensures { IfOk result (λ rows. AllZip IsRow units.now (rows_of_edges rows.items)) }
{
    let mut rows = Vec::new(alloc);
    for along in units {
        rows.push(edges_along(alloc, along, in_order)?)?;
    }
    Ok(rows)
}

/// Finds the edges that are tried along one dimension, the shortest first if `in_order`.
///
/// # Errors
/// Out of memory.
fn edges_along(alloc: Global, along: &Units, in_order: bool) -> Result<Vec<NonZeroU64>, AllocError>
    requires { IsSome along.now }
    ensures { IfOk result (λ edges. IsRow along.now (edges_in edges.items)) }
{
    let mut edges = Vec::new(alloc);
    put_all(&mut edges, along.size, along.read)?;
    put_all(&mut edges, along.size, along.written)?;
    if in_order {
        edges.sort_unstable();
    }
    Ok(edges)
}

/// Adds the edges of whole units to those along a dimension of `size` elements, each one once.
///
/// # Errors
/// Out of memory.
fn put_all(edges: &mut Vec<NonZeroU64>, size: u64, unit: u64) -> Result<(), AllocError>
    requires size { 0 < size }
    requires unit { 0 < unit }
    ensures { IfOk result (λ _. HasAllBy size unit (edges_in edges.old.items)
        (edges_in edges.new.items)) }
{
    let units = size.div_ceil(unit);
    let mut pieces = 1u64;
    let mut multiple = units;
    put(edges, edge_of(size, unit, multiple))?;
    while multiple > 1 {
        pieces = next_pieces(units, multiple, pieces);
        multiple = units.div_ceil(pieces);
        put(edges, edge_of(size, unit, multiple))?;
    }
    Ok(())
}

/// The next number of pieces that is tried, after one that makes pieces of `multiple` units. It is the least one that makes shorter pieces, or at least twice
/// the number before if the units are more than 2^16.
fn next_pieces(units: u64, multiple: u64, pieces: u64) -> u64
    requires { 1 < multiple }
    ensures shorter { units ≤ (multiple - 1) * result }
    ensures least { units ≤ most_pieces → result ≡ rounded_up units (multiple - 1) }
{
    let next = units.div_ceil(multiple - 1);
    if units > MOST_PIECES {
        next.max(pieces.saturating_mul(2))
    } else {
        next
    }
}

/// The edge of `multiple` units, cut to the size.
fn edge_of(size: u64, unit: u64, multiple: u64) -> NonZeroU64
    requires size { 0 < size }
    requires unit { 0 < unit }
    requires multiple { 0 < multiple }
    ensures { non_zero_u64_get result ≡ min size (unit * multiple) }
{
    let edge = unit.saturating_mul(multiple).min(size);
    NonZeroU64::MIN.saturating_add(edge.saturating_sub(1))
}

/// Adds an edge, unless it is there.
///
/// # Errors
/// Out of memory.
fn put(edges: &mut Vec<NonZeroU64>, edge: NonZeroU64) -> Result<(), AllocError>
    ensures { IfOk result (λ _. HasPut (edges_in edges.old.items) (non_zero_u64_get edge)
        (edges_in edges.new.items)) }
{
    if !has_edge(edges, edge) {
        edges.push(edge)?;
    }
    Ok(())
}

/// Whether an edge is one of some.
fn has_edge(edges: &[NonZeroU64], edge: NonZeroU64) -> bool
    ensures { IsTrue result → Contains (edges_in edges.now) (non_zero_u64_get edge) }
{
    for other in edges {
        if other.get() == edge.get() {
            return true;
        }
    }
    false
}
