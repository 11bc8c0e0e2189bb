//! The grids: how they are created and copied, refusals that are handed back, and the laws.
//!
//! Each look-up, box, cover, bound, walk and configuration of each kind of grid is a vector of `chunkcalls`.
use crate::compared::{check_numbers, check_same, check_that, refusal};
use serde_json::Value;
use std::alloc::{AllocError, Global};
use std::num::NonZeroU64;
use std::process::Abort;
use std::test::Fail;
use zarrs_chunk_base::{
    ArraySubset, ChunkEdgeLengths, IncompatibleDimensionalityError, MetadataV3,
    RectangularChunkGridDimensionConfiguration, TreeForm,
};
use zarrs_chunks::laws::{
    chunk_indices_names_the_home, chunks_share_no_index, grids_of_like_dimensions_answer_alike,
    the_box_of_chunks_is_the_union_of_their_boxes, the_boxes_of_a_walk_are_those_of_its_chunks,
    the_cover_names_the_chunks_that_meet_a_box, the_edges_determine_the_dimensions,
};
use zarrs_chunks::{
    ChunkGrid, ChunkGridTraits, Comparisons, Home, RectangularChunkGrid,
    RectangularChunkGridCreateError, RectilinearChunkGrid, RectilinearChunkGridCreateError,
    RegularBoundedChunkGrid, RegularChunkGrid, RegularChunkGridCreateError,
};

/// The metadata that a text stands for.
pub(crate) fn metadata(alloc: Global, text: &str) -> Result<MetadataV3, Fail> {
    let tree = Value::from_slice(alloc, text.as_bytes())?;
    Ok(MetadataV3::from_tree(alloc, &tree)?)
}

/// The grid that is created of metadata, of an array of these sizes.
pub(crate) fn created<G: ChunkGridTraits>(
    alloc: Global,
    text: &str,
    array_shape: &[u64],
) -> Result<G, Fail> {
    Ok(G::create(alloc, &metadata(alloc, text)?, array_shape)?)
}

/// This number in each dimension.
fn each(alloc: Global, number: u64, dimensions: usize) -> Result<Vec<u64>, AllocError> {
    vec![in alloc; number; dimensions]
}

/// The metadata of a kind of grid, as they are written: what stands before the edges, those of each dimension, and what stands behind them.
#[derive(Clone, Copy)]
struct Kind<'a> {
    before: &'a str,
    edges: &'a str,
    behind: &'a str,
}

/// Of five elements in each dimension, in a chunk of three and another one.
const KINDS: [Kind<'static>; 4] = [
    Kind {
        before: r#"{"configuration":{"chunk_shape":["#,
        edges: "3",
        behind: r#"]},"name":"regular"}"#,
    },
    Kind {
        before: r#"{"configuration":{"chunk_shape":["#,
        edges: "3",
        behind: r#"]},"name":"zarrs.regular_bounded"}"#,
    },
    Kind {
        before: r#"{"configuration":{"chunk_shape":["#,
        edges: "[3,2]",
        behind: r#"]},"name":"rectangular"}"#,
    },
    Kind {
        before: r#"{"configuration":{"chunk_shapes":["#,
        edges: "[3,2]",
        behind: r#"],"kind":"inline"},"name":"rectilinear"}"#,
    },
];

/// The metadata of a grid of this kind.
fn text_of(alloc: Global, kind: &Kind, dimensions: usize) -> Result<String, AllocError> {
    let mut text = String::from_str(alloc, kind.before)?;
    for dimension in 0..dimensions {
        text.push_str(if dimension == 0 { "" } else { "," })?;
        text.push_str(kind.edges)?;
    }
    text.push_str(kind.behind)?;
    Ok(text)
}

/// The grid of five elements in each dimension that is created of the metadata of the copy of such a grid.
fn again(alloc: Global, grid: &ChunkGrid, fives: &[u64]) -> Result<ChunkGrid, Fail> {
    let metadata = grid.clone()?.metadata(alloc)?;
    Ok(ChunkGrid::create(alloc, &metadata, fives)?)
}

/// The same of the grid that a text is the metadata of.
fn made(alloc: Global, text: &str, dimensions: usize) -> Result<ChunkGrid, Fail> {
    let fives = each(alloc, 5, dimensions)?;
    again(alloc, &created(alloc, text, &fives)?, &fives)
}

/// The metadata of a grid's copy, as they are written.
fn written(alloc: Global, grid: &ChunkGrid) -> Result<String, AllocError> {
    let copy = grid.clone()?;
    copy.metadata(alloc)?.to_tree(alloc)?.to_string(alloc)
}

/// The chunk and the place of the last element of a grid's copy.
fn home(alloc: Global, grid: &ChunkGrid, dimensions: usize) -> Result<Home, Fail> {
    let mut home = Home::new(alloc);
    let last = each(alloc, 4, dimensions)?;
    match grid.clone()?.find_home(&last, &mut home)? {
        true => Ok(home),
        false => Err("no chunk".into()),
    }
}

/// The last element of a grid of two chunks in each dimension lies in the second one, behind its first element.
fn check_home(
    rt: &(impl Abort + AllocGlobal),
    grid: &ChunkGrid,
    dimensions: usize,
) -> Result<(), Fail> {
    let home = home(rt.alloc(), grid, dimensions)?;
    let ones = each(rt.alloc(), 1, dimensions)?;
    check_numbers(rt, &home.chunk, &ones);
    check_numbers(rt, &home.element, &ones);
    Ok(())
}

/// The copy of a grid has its shape and that of its array.
fn check_shapes(
    rt: &(impl Abort + AllocGlobal),
    grid: &ChunkGrid,
    dimensions: usize,
) -> Result<(), AllocError> {
    let copy = grid.clone()?;
    check_numbers(rt, copy.array_shape(), &each(rt.alloc(), 5, dimensions)?);
    check_numbers(rt, copy.grid_shape(), &each(rt.alloc(), 2, dimensions)?);
    Ok(())
}

/// A grid of this kind, its copy, and the grid that is created of the copy's metadata.
fn check_kind(rt: &(impl Abort + AllocGlobal), kind: &Kind, dimensions: usize) -> Result<(), Fail> {
    let text = text_of(rt.alloc(), kind, dimensions)?;
    let grid = made(rt.alloc(), text.as_str(), dimensions)?;
    check_same(rt, written(rt.alloc(), &grid)?.as_str(), text.as_str());
    check_shapes(rt, &grid, dimensions)?;
    check_home(rt, &grid, dimensions)
}

#[test]
fn grids_of_each_kind_are_created_and_copied(rt: HostRuntime) -> Result<(), Fail> {
    for kind in &KINDS {
        check_kind(&rt, kind, 1)?;
    }
    Ok(())
}

#[test]
fn grids_of_a_thousand_dimensions_are_created_and_copied(rt: HostRuntime) -> Result<(), Fail> {
    for kind in &KINDS {
        check_kind(&rt, kind, 1000)?;
    }
    Ok(())
}

/// The laws of one grid.
fn call_laws_of_a_grid(grid: &ChunkGrid) {
    chunk_indices_names_the_home(grid);
    chunks_share_no_index(grid);
    the_box_of_chunks_is_the_union_of_their_boxes(grid);
    the_cover_names_the_chunks_that_meet_a_box(grid);
    the_boxes_of_a_walk_are_those_of_its_chunks(grid);
}

/// The laws of two grids.
fn call_laws_of_grids(grid: &ChunkGrid, other: &ChunkGrid) {
    the_edges_determine_the_dimensions(grid, other);
    grids_of_like_dimensions_answer_alike(grid, other);
}

const THREES: &str = r#"{"name":"regular","configuration":{"chunk_shape":[3]}}"#;

#[test]
fn the_laws_of_grids_are_called(rt: HostRuntime) -> Result<(), Fail> {
    let grid = created(rt.alloc(), THREES, &[5])?;
    call_laws_of_a_grid(&grid);
    call_laws_of_grids(&grid, &grid);
    Ok(())
}

/// The second chunk of a grid of five elements begins at 3, and has this edge.
fn check_second<G: ChunkGridTraits>(
    rt: &(impl Abort + AllocGlobal),
    grid: &G,
    edge: u64,
) -> Result<(), Fail> {
    let found = grid.subset(rt.alloc(), &[1])?;
    check_box(rt, &found.ok_or("no box")?, 3, edge);
    Ok(())
}

/// The box of one dimension begins at an index, and has this shape.
fn check_box(rt: &impl Abort, found: &ArraySubset, start: u64, edge: u64) {
    check_numbers(rt, found.start(), &[start]);
    check_numbers(rt, found.shape(), &[edge]);
}

#[test]
fn a_kind_of_grid_looks_at_no_name(rt: HostRuntime) -> Result<(), Fail> {
    let text = r#"{"name":"x","configuration":{"chunk_shape":[3]}}"#;
    let regular: RegularChunkGrid = created(rt.alloc(), text, &[5])?;
    check_second(&rt, &ChunkGrid::from(regular), 3)?;
    let bounded: RegularBoundedChunkGrid = created(rt.alloc(), text, &[5])?;
    check_second(&rt, &ChunkGrid::from(bounded), 2)
}

#[test]
fn nor_does_one_of_listed_edges(rt: HostRuntime) -> Result<(), Fail> {
    let text = r#"{"name":"x","configuration":{"chunk_shape":[[3,2]]}}"#;
    let rectangular: RectangularChunkGrid = created(rt.alloc(), text, &[5])?;
    check_second(&rt, &ChunkGrid::from(rectangular), 2)?;
    let text = r#"{"name":"x","configuration":{"chunk_shapes":[[3,2]],"kind":"inline"}}"#;
    let rectilinear: RectilinearChunkGrid = created(rt.alloc(), text, &[5])?;
    check_second(&rt, &ChunkGrid::from(rectilinear), 2)
}

/// The values that a text stands for.
fn values<T: TreeForm>(alloc: Global, text: &str) -> Result<Vec<T>, Fail> {
    let tree = Value::from_slice(alloc, text.as_bytes())?;
    Ok(Vec::from_tree(alloc, &tree)?.ok_or("other values")?)
}

/// Why there is no grid of one dimension with three edges.
fn refused_regular(alloc: Global) -> Result<RegularChunkGridCreateError, Fail> {
    let edges: Vec<NonZeroU64> = values(alloc, "[1,2,3]")?;
    refusal(RegularChunkGrid::new(alloc, each(alloc, 0, 1)?, edges))
}

/// Three numbers were given, and one was expected.
fn check_lengths(rt: &impl Abort, lengths: IncompatibleDimensionalityError) {
    check_that(rt, lengths.given() == 3, "three were given");
    check_that(rt, lengths.expected() == 1, "one was expected");
}

#[test]
fn shapes_of_unequal_lengths_make_no_regular_grid(rt: HostRuntime) -> Result<(), Fail> {
    let text = "regular chunk shape: [1, 2, 3] not compatible with array shape [0]";
    let error = refused_regular(rt.alloc())?.clone()?;
    check_same(&rt, error.to_string(rt.alloc())?.as_str(), text);
    check_lengths(&rt, error.into());
    Ok(())
}

type ListedEdges = Vec<RectangularChunkGridDimensionConfiguration>;

/// Why edges make no grid.
fn refused_edges(
    alloc: Global,
    listed: &ListedEdges,
) -> Result<RectangularChunkGridCreateError, Fail> {
    let error = refusal(RectangularChunkGrid::new(alloc, [123, 100].to_vec(alloc)?, listed))?;
    Ok(error.clone()?)
}

#[test]
fn refused_edges_are_handed_back(rt: HostRuntime) -> Result<(), Fail> {
    let text =
        "rectangular chunk grid configuration: [[5, 5], 10] not compatible with array shape [123, 100]";
    let listed = values(rt.alloc(), "[[5,5],10]")?;
    let error = refused_edges(rt.alloc(), &listed)?;
    check_that(&rt, error.1 == listed, text);
    check_same(&rt, error.to_string(rt.alloc())?.as_str(), text);
    Ok(())
}

/// Why run lengths make no grid.
fn refused_runs(
    alloc: Global,
    runs: &Vec<ChunkEdgeLengths>,
) -> Result<RectilinearChunkGridCreateError, Fail> {
    let error = refusal(RectilinearChunkGrid::new(alloc, [123, 100].to_vec(alloc)?, runs))?;
    Ok(error.clone()?)
}

#[test]
fn refused_run_lengths_are_handed_back(rt: HostRuntime) -> Result<(), Fail> {
    let text =
        "rectilinear chunk grid configuration: [[[5, 3], 20], 10] not compatible with array shape [123, 100]";
    let runs = values(rt.alloc(), "[[[5,3],20],10]")?;
    let error = refused_runs(rt.alloc(), &runs)?;
    check_that(&rt, error.1 == runs, text);
    check_same(&rt, error.to_string(rt.alloc())?.as_str(), text);
    Ok(())
}

/// The copy of a grid that is created of metadata.
fn copied(alloc: Global, text: &str, array_shape: &[u64]) -> Result<ChunkGrid, Fail> {
    let grid: ChunkGrid = created(alloc, text, array_shape)?;
    Ok(grid.clone()?)
}

#[test]
fn a_copy_of_as_many_edges_as_there_are_numbers_finds_room(rt: HostRuntime) -> Result<(), Fail> {
    let text = r#"{"name":"rectilinear","configuration":{"kind":"inline",
        "chunk_shapes":[[[1,18446744073709551615]]]}}"#;
    let copy = copied(rt.alloc(), text, &[u64::MAX])?;
    check_numbers(&rt, copy.grid_shape(), &[u64::MAX]);
    Ok(())
}

/// The chunk of an index list.
fn counted(
    alloc: Global,
    grid: &RectilinearChunkGrid,
    indices: &[u64],
    comparisons: &mut Comparisons,
) -> Result<Vec<u64>, Fail> {
    let chunk = grid.chunk_indices_counted(alloc, indices, comparisons)?;
    Ok(chunk.ok_or("no chunk")?)
}

/// Whether an index list is refused.
fn is_refused(
    alloc: Global,
    grid: &RectilinearChunkGrid,
    indices: &[u64],
    comparisons: &mut Comparisons,
) -> bool {
    grid.chunk_indices_counted(alloc, indices, comparisons)
        .is_err()
}

#[test]
fn a_refused_look_up_counts_no_comparison(rt: HostRuntime) -> Result<(), Fail> {
    let text = r#"{"name":"x","configuration":{"kind":"inline",
        "chunk_shapes":[[[5,3],[15,2],20,35],[[10,10]]]}}"#;
    let grid = created(rt.alloc(), text, &[100, 100])?;
    let mut comparisons = Comparisons::new();
    let chunk = counted(rt.alloc(), &grid, &[17, 17], &mut comparisons)?;
    check_numbers(&rt, &chunk, &[3, 1]);
    check_that(&rt, comparisons.count() == 4, "four comparisons");
    let refused = is_refused(rt.alloc(), &grid, &[17], &mut comparisons);
    check_that(&rt, refused && comparisons.count() == 4, "none more");
    Ok(())
}

/// The edges of a regular grid of one dimension.
fn check_edges(
    rt: &(impl Abort + AllocGlobal),
    grid: &RegularChunkGrid,
    edge: u64,
) -> Result<(), AllocError> {
    let edges = grid.chunk_shape().iter().map(|edge| edge.get());
    check_that(rt, edges.eq([edge]), "an edge");
    check_numbers(rt, &grid.chunk_shape_u64(rt.alloc())?, &[edge]);
    Ok(())
}

#[test]
fn a_regular_grid_tells_its_edges(rt: HostRuntime) -> Result<(), Fail> {
    let grid = created(rt.alloc(), THREES, &[5])?;
    Ok(check_edges(&rt, &grid, 3)?)
}
