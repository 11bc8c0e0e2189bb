//! Each caller with its answer, which was computed by hand.
use crate::compared::{check_numbers, check_same, check_that};
use callers::{
    append_keys, are_one_element, bounded, by_name, chunk_of_index, find_chunk, grid_sizes,
    is_in_bounds, key_by_name, key_of_element, keys_of_grid, keys_of_subset, metadata_of,
    metadata_of_regular, rectangular, rectilinear, regular, regular_metadata, share_a_chunk,
};
use serde_json::Value;
use std::alloc::{AllocError, Global};
use std::num::NonZeroU64;
use std::process::Abort;
use std::test::Fail;
use zarrs_chunk_base::{ArraySubset, ChunkShape, MetadataV3, RunLengthElement, StoreKey, TreeForm};
use zarrs_chunk_keys::{ChunkKeyEncoding, DefaultChunkKeyEncoding};
use zarrs_chunks::{
    ChunkGridTraits, RectangularChunkGrid, RectilinearChunkGrid, RegularBoundedChunkGrid,
    RegularChunkGrid,
};

fn non_zero(edge: u64) -> Result<NonZeroU64, Fail> {
    Ok(NonZeroU64::new(edge).ok_or("an edge of 0")?)
}

/// The values that a text stands for.
pub(crate) fn values<T: TreeForm>(alloc: Global, text: &str) -> Result<Vec<T>, Fail> {
    let tree = Value::from_slice(alloc, text.as_bytes())?;
    Ok(Vec::from_tree(alloc, &tree)?.ok_or("other values")?)
}

pub(crate) fn metadata(alloc: Global, text: &str) -> Result<MetadataV3, Fail> {
    Ok(metadata_of(alloc, text)?.ok_or("no metadata")?)
}

fn is_metadata(alloc: Global, text: &str) -> Result<bool, AllocError> {
    Ok(metadata_of(alloc, text)?.is_some())
}

/// The regular grid of these sizes and edges.
fn regular_grid(alloc: Global, shape: &str, edges: &str) -> Result<RegularChunkGrid, Fail> {
    let shape = values(alloc, shape)?;
    Ok(regular(alloc, shape, values(alloc, edges)?)?)
}

/// Five by seven by 52, in chunks of one by two by three.
pub(crate) fn grid(alloc: Global) -> Result<RegularChunkGrid, Fail> {
    regular_grid(alloc, "[5,7,52]", "[1,2,3]")
}

/// Seven in chunks of three, of which the last ends with the array.
fn bounded_grid(alloc: Global) -> Result<RegularBoundedChunkGrid, Fail> {
    let shape = values(alloc, "[7]")?;
    Ok(bounded(alloc, shape, values(alloc, "[3]")?)?)
}

/// The number of chunks in each dimension, and the edges of the chunk.
fn check_grid<G: ChunkGridTraits>(
    rt: &(impl Abort + AllocGlobal),
    grid: G,
    grid_shape: &[u64],
    chunk: &[u64],
    chunk_shape: &[u64],
) -> Result<(), Fail> {
    check_numbers(rt, grid.grid_shape(), grid_shape);
    let shape = grid.chunk_shape_u64(rt.alloc(), chunk)?;
    check_numbers(rt, &shape.ok_or("no chunk")?, chunk_shape);
    Ok(())
}

/// The metadata of a regular grid.
const REGULAR: &str = r#"{"configuration":{"chunk_shape":[1,2,3]},"name":"regular"}"#;

fn written(alloc: Global) -> Result<String, Fail> {
    let tree = regular_metadata(alloc, values(alloc, "[1,2,3]")?)?;
    Ok(tree.to_string(alloc)?)
}

fn sizes(alloc: Global) -> Result<Vec<u64>, Fail> {
    let edges: ChunkShape = values(alloc, "[1,2,3]")?;
    Ok(grid_sizes(alloc, values(alloc, "[5,7,52]")?, &edges)?)
}

#[test]
fn metadata_and_dimensions(rt: HostRuntime) -> Result<(), Fail> {
    check_numbers(&rt, &sizes(rt.alloc())?, &[5, 4, 18]);
    check_same(&rt, written(rt.alloc())?.as_str(), REGULAR);
    for text in ["5", "{"] {
        check_that(&rt, !is_metadata(rt.alloc(), text)?, text);
    }
    Ok(())
}

/// The chunk of an index, in three chunks of five and one of twenty.
fn chunk_in_runs(alloc: Global, index: u64) -> Result<Option<u64>, Fail> {
    let elements: Vec<RunLengthElement> = values(alloc, "[[5,3],20]")?;
    Ok(chunk_of_index(alloc, &elements, index)?)
}

#[test]
fn chunks_of_indices(rt: HostRuntime) -> Result<(), Fail> {
    check_that(
        &rt,
        chunk_in_runs(rt.alloc(), 15)? == Some(3),
        "the chunk 3",
    );
    check_that(&rt, chunk_in_runs(rt.alloc(), 35)?.is_none(), "no chunk");
    Ok(())
}

fn v2_key(alloc: Global) -> Result<StoreKey, Fail> {
    Ok(key_by_name(alloc, &metadata(alloc, r#""v2""#)?, &[3, 2, 16])?)
}

fn appended(alloc: Global) -> Result<String, Fail> {
    let encoding = ChunkKeyEncoding::from(DefaultChunkKeyEncoding::new_slash());
    let chunks: Vec<Vec<u64>> = values(alloc, "[[0,0],[3,2]]")?;
    let mut text = String::new(alloc);
    append_keys(&mut text, &encoding, &chunks)?;
    Ok(text)
}

#[test]
fn keys(rt: HostRuntime) -> Result<(), Fail> {
    check_same(&rt, v2_key(rt.alloc())?.as_str(), "3.2.16");
    check_same(&rt, appended(rt.alloc())?.as_str(), "c/0/0\nc/3/2\n");
    Ok(())
}

#[test]
fn a_grid_of_equal_edges(rt: HostRuntime) -> Result<(), Fail> {
    let grid = regular_grid(rt.alloc(), "[5]", "[3]")?;
    check_grid(&rt, grid, &[2], &[1], &[3])?;
    check_grid(&rt, bounded_grid(rt.alloc())?, &[3], &[2], &[1])
}

fn listed(alloc: Global) -> Result<RectangularChunkGrid, Fail> {
    let shape = values(alloc, "[25,30]")?;
    Ok(rectangular(alloc, shape, values(alloc, "[5,20]")?, non_zero(10)?)?)
}

fn repeated(alloc: Global) -> Result<RectilinearChunkGrid, Fail> {
    let rows = [non_zero(4)?, non_zero(3)?, non_zero(2)?, non_zero(5)?];
    Ok(rectilinear(alloc, values(alloc, "[14,6]")?, rows)?)
}

#[test]
fn grids_of_listed_edges(rt: HostRuntime) -> Result<(), Fail> {
    check_grid(&rt, listed(rt.alloc())?, &[2, 3], &[1, 2], &[20, 10])?;
    check_grid(&rt, repeated(rt.alloc())?, &[4, 2], &[3, 0], &[2, 5])
}

#[test]
fn a_grid_by_its_name(rt: HostRuntime) -> Result<(), Fail> {
    let text = r#"{"name":"rectangular","configuration":{"chunk_shape":[[5,20],10]}}"#;
    let grid = by_name(rt.alloc(), &metadata(rt.alloc(), text)?, &[25, 30])?;
    check_grid(&rt, grid, &[2, 3], &[1, 2], &[20, 10])
}

/// What a prepared grid's numbers tell of the chunk of the element 4, and 9 where they tell none.
fn prepared(alloc: Global, numbers: &[u64]) -> Result<(Option<bool>, u64), Fail> {
    let mut chunk = [9];
    let found = find_chunk(alloc, numbers, &[4], &mut chunk)?;
    Ok((found, chunk[0]))
}

#[test]
fn a_prepared_grid(rt: HostRuntime) -> Result<(), Fail> {
    // A regular grid of two chunks of three elements, counted from `zarrgrid` in ASCII on.
    let numbers = [8818455381055531364, 1, 2, u64::MAX, u64::MAX, 1, 0, 0, 3];
    let (found, chunk) = prepared(rt.alloc(), &numbers)?;
    check_that(
        &rt,
        found == Some(true) && chunk == 1,
        "a chunk holds the element",
    );
    let (found, _) = prepared(rt.alloc(), &[])?;
    check_that(&rt, found.is_none(), "no numbers are no grid");
    Ok(())
}

fn element_key(alloc: Global) -> Result<StoreKey, Fail> {
    let slash = DefaultChunkKeyEncoding::new_slash();
    Ok(key_of_element(alloc, &grid(alloc)?, &slash, &[3, 5, 50])?.ok_or("no chunk")?)
}

/// Whether the element [3, 5, 50] shares its chunk with another one, and whether it is that one.
fn compared(alloc: Global, other: &[u64]) -> Result<(bool, bool), Fail> {
    let (grid, slash) = (grid(alloc)?, DefaultChunkKeyEncoding::new_slash());
    let share = share_a_chunk(alloc, &grid, &[3, 5, 50], other)?;
    let are_one = are_one_element(alloc, &grid, &slash, &[3, 5, 50], other)?;
    Ok((share, are_one))
}

#[test]
fn elements(rt: HostRuntime) -> Result<(), Fail> {
    check_same(&rt, element_key(rt.alloc())?.as_str(), "c/3/2/16");
    let rows = [
        ([3, 4, 48], (true, false)),
        ([3, 6, 50], (false, false)),
        ([3, 5, 50], (true, true)),
        ([3, 5, 49], (true, false)),
    ];
    for (other, expected) in rows {
        check_that(
            &rt,
            compared(rt.alloc(), &other)? == expected,
            "two elements",
        );
    }
    Ok(())
}

fn metadata_of_grid(alloc: Global) -> Result<String, Fail> {
    let metadata = metadata_of_regular(alloc, &grid(alloc)?)?;
    Ok(metadata.to_tree(alloc)?.to_string(alloc)?)
}

#[test]
fn metadata_of_a_grid(rt: HostRuntime) -> Result<(), Fail> {
    check_same(&rt, metadata_of_grid(rt.alloc())?.as_str(), REGULAR);
    Ok(())
}

fn has_no_key(alloc: Global, grid: &RegularBoundedChunkGrid) -> Result<bool, Fail> {
    let slash = DefaultChunkKeyEncoding::new_slash();
    Ok(key_of_element(alloc, grid, &slash, &[7])?.is_none())
}

fn has_no_cover(alloc: Global, grid: &RegularBoundedChunkGrid) -> Result<bool, Fail> {
    let slash = DefaultChunkKeyEncoding::new_slash();
    let past = ArraySubset::new_with_ranges(alloc, &[5..8])?;
    Ok(keys_of_subset(alloc, grid, &slash, &past)?.is_none())
}

#[test]
fn elements_past_the_array(rt: HostRuntime) -> Result<(), Fail> {
    let grid = bounded_grid(rt.alloc())?;
    check_that(&rt, has_no_key(rt.alloc(), &grid)?, "no key");
    check_that(
        &rt,
        !share_a_chunk(rt.alloc(), &grid, &[7], &[7])?,
        "no chunk",
    );
    check_that(&rt, has_no_cover(rt.alloc(), &grid)?, "no cover");
    Ok(())
}

/// Whether an index lies in an array of seven elements.
fn in_bounds(alloc: Global, index: u64) -> Result<bool, Fail> {
    let shape = values(alloc, "[7]")?;
    Ok(is_in_bounds(alloc, shape, values(alloc, "[3]")?, &[index])?)
}

#[test]
fn elements_in_bounds(rt: HostRuntime) -> Result<(), Fail> {
    check_that(&rt, in_bounds(rt.alloc(), 6)?, "6 is in bounds");
    check_that(&rt, !in_bounds(rt.alloc(), 7)?, "7 isn't");
    Ok(())
}

/// Four by seven, in chunks of two by three.
fn plane(alloc: Global) -> Result<RegularChunkGrid, Fail> {
    regular_grid(alloc, "[4,7]", "[2,3]")
}

fn subset_keys(alloc: Global) -> Result<Vec<StoreKey>, Fail> {
    let (grid, slash) = (plane(alloc)?, DefaultChunkKeyEncoding::new_slash());
    let subset = ArraySubset::new_with_ranges(alloc, &[1..3, 4..7])?;
    Ok(keys_of_subset(alloc, &grid, &slash, &subset)?.ok_or("no cover")?)
}

fn grid_keys(alloc: Global) -> Result<Vec<StoreKey>, Fail> {
    let slash = DefaultChunkKeyEncoding::new_slash();
    Ok(keys_of_grid(alloc, &plane(alloc)?, &slash)?)
}

/// The keys are these texts, in this order.
fn check_keys(rt: &impl Abort, keys: &[StoreKey], expected: &[&str]) {
    check_that(rt, keys.len() == expected.len(), "as many keys");
    for (key, expected) in keys.iter().zip(expected) {
        check_same(rt, key.as_str(), expected);
    }
}

#[test]
fn subsets(rt: HostRuntime) -> Result<(), Fail> {
    let expected = ["c/0/1", "c/0/2", "c/1/1", "c/1/2"];
    check_keys(&rt, &subset_keys(rt.alloc())?, &expected);
    let expected = ["c/0/0", "c/0/1", "c/0/2", "c/1/0", "c/1/1", "c/1/2"];
    check_keys(&rt, &grid_keys(rt.alloc())?, &expected);
    Ok(())
}
