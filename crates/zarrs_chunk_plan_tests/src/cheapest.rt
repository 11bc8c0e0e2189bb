//! The cheapest tasks: rows of copies and bounds, and a search of all choices.
//!
//! The expected choices don't come from the call itself. An exhaustive search with `tools/chunk_tasks` gave them, if nothing else is said. If choices cost the
//! same, it takes the one with the smallest numbers, and the first dimension counts first.
ghost use Rattle.std.specs.Prelude.{◌<◌};

use crate::rows::{check_text, edges_of, some_of};
use crate::tasks::{AT, two_rows, why};
use std::alloc::Global;
use std::num::NonZeroU64;
use std::process::Abort;
use std::test::Fail;
use zarrs_chunk_base::{ArraySubset, ChunkEdgeLengths, Refusal, RunLengthElement};
use zarrs_chunk_plan::{RegionError, moved_box, whole_array};
use zarrs_chunk_tasks::{CheapestTasks, CountsAlong, cheapest_tasks, task_counts, tasks};
use zarrs_chunks::{
    ChunkGrid, ChunkGridTraits, ChunkIndicesInSubset, RectilinearChunkGrid,
    RegularBoundedChunkGrid, RegularChunkGrid,
};

/// The chunks of an array.
#[derive(Clone, Copy)]
pub(crate) enum Chunks<'a> {
    /// All have these edges.
    Regular(&'a [u64]),
    /// All have these edges, and end with the array.
    Bounded(&'a [u64]),
    /// They have these edges along each dimension.
    Listed(&'a [&'a [u64]]),
}

/// A copy of some elements of an array to another array. A bound is how many elements a task may hold, how many one read is worth, and what is chosen.
#[derive(Clone, Copy)]
pub(crate) struct Row<'a> {
    /// The sizes of each array, and its chunks.
    pub(crate) source: (&'a [u64], Chunks<'a>),
    pub(crate) target: (&'a [u64], Chunks<'a>),
    /// Where the elements begin, and how many they are along each dimension. `None` stands for all of the source.
    pub(crate) region: Option<(&'a [u64], &'a [u64])>,
    /// Where they go.
    pub(crate) at: &'a [u64],
    pub(crate) bounds: &'a [(u64, u64, &'a str)],
}

/// Edges, or sizes of tasks.
fn edges(alloc: Global, numbers: &[u64]) -> Result<Vec<NonZeroU64>, Fail> {
    let mut edges = Vec::new(alloc);
    for number in numbers {
        edges.push(NonZeroU64::new(*number).ok_or("an edge of 0")?)?;
    }
    Ok(edges)
}

/// A list of edges along one dimension.
fn listed(alloc: Global, numbers: &[u64]) -> Result<ChunkEdgeLengths, Fail> {
    let mut lengths = Vec::new(alloc);
    for edge in edges(alloc, numbers)? {
        lengths.push(RunLengthElement::Single(edge))?;
    }
    Ok(ChunkEdgeLengths::Varying(lengths))
}

/// The grid of an array.
pub(crate) fn grid(
    alloc: Global,
    (sizes, chunks): (&[u64], Chunks<'_>),
) -> Result<ChunkGrid, Fail> {
    let shape = sizes.to_vec(alloc)?;
    match chunks {
        Chunks::Regular(numbers) => {
            let grid = RegularChunkGrid::new(alloc, shape, edges(alloc, numbers)?)?;
            Ok(ChunkGrid::Regular(grid))
        }
        Chunks::Bounded(numbers) => {
            let grid = RegularBoundedChunkGrid::new(alloc, shape, edges(alloc, numbers)?)?;
            Ok(ChunkGrid::RegularBounded(grid))
        }
        Chunks::Listed(lists) => {
            let mut lengths = Vec::new(alloc);
            for list in lists {
                lengths.push(listed(alloc, list)?)?;
            }
            Ok(ChunkGrid::Rectilinear(RectilinearChunkGrid::new(alloc, shape, &lengths)?))
        }
    }
}

/// The line of a choice: chunks a task, the cost, and whether it is exact.
fn line_of(alloc: Global, found: Option<CheapestTasks>) -> Result<String, Fail> {
    match found {
        Some(found) => Ok(format!(in alloc;
            "{:?} {} {}",
            found.task_chunks.as_slice(),
            found.cost,
            found.is_exact
        )?),
        None => Ok(String::from_str(alloc, "none")?),
    }
}

/// The elements that a row copies.
pub(crate) fn region_of(
    alloc: Global,
    row: &Row<'_>,
    source: &ChunkGrid,
) -> Result<ArraySubset, Fail> {
    match row.region {
        Some((start, shape)) => {
            let (start, shape) = (start.to_vec(alloc)?, shape.to_vec(alloc)?);
            Ok(ArraySubset::new_with_start_shape(start, shape)?)
        }
        None => Ok(whole_array(alloc, source)?),
    }
}

/// What is chosen for a row under each of its bounds is what it says.
fn check_row(rt: &(impl Abort + AllocGlobal), row: &Row<'_>) -> Result<(), Fail> {
    let alloc = rt.alloc();
    let (source, target) = (grid(alloc, row.source)?, grid(alloc, row.target)?);
    let region = region_of(alloc, row, &source)?;
    for (most, worth, expected) in row.bounds {
        let found = cheapest_tasks(alloc, &source, &target, &region, row.at, *most, *worth)?;
        check_text(rt, line_of(alloc, found)?.as_str(), expected);
    }
    Ok(())
}

/// Maps, one a chunk, become series of 2 x 2 places. The largest chunk has 48 elements: one of the target. Each task reads all 12 maps, of 16 elements each. So
/// four tasks make 48 reads, two make 24, and one makes 12.
const MAPS_TO_SERIES: Row<'static> = Row {
    source: (&[12, 4, 4], Chunks::Regular(&[1, 4, 4])),
    target: (&[12, 4, 4], Chunks::Regular(&[12, 2, 2])),
    region: None,
    at: &[0, 0, 0],
    bounds: &[
        (0, 100, "none"),
        (47, 100, "none"),
        (95, 100, "none"),
        (96, 100, "[1, 1, 1] 5568 true"),
        (143, 100, "[1, 1, 1] 5568 true"),
        (144, 100, "[1, 1, 2] 2784 true"),
        (239, 100, "[1, 1, 2] 2784 true"),
        (240, 100, "[1, 2, 2] 1392 true"),
        (u64::MAX, 100, "[1, 2, 2] 1392 true"),
    ],
};

/// Along a dimension groups of 1 read 8 chunks of 4, and groups of 2 each of the 6 once. Groups of 3 read 7.
const TILES: Row<'static> = Row {
    source: (&[24, 24], Chunks::Regular(&[4, 4])),
    target: (&[24, 24], Chunks::Regular(&[6, 6])),
    region: None,
    at: &[0, 0],
    bounds: &[
        (71, 10, "none"),
        (72, 10, "[1, 1] 1664 true"),
        (107, 10, "[1, 1] 1664 true"),
        (108, 10, "[1, 2] 1248 true"),
        (179, 10, "[1, 2] 1248 true"),
        (180, 10, "[2, 2] 936 true"),
        (180, 0, "[2, 2] 576 true"),
        (180, 1, "[2, 2] 612 true"),
        (u64::MAX, 10, "[2, 2] 936 true"),
    ],
};

/// Both fit in 10 elements: groups of 7 read 7 chunks that have 24 elements in all, and groups of 8 read 6 chunks that have 25.
const UNEVEN: Row<'static> = Row {
    source: (&[20], Chunks::Listed(&[&[6, 2, 5, 2, 5]])),
    target: (&[20], Chunks::Regular(&[1])),
    region: None,
    at: &[0],
    bounds: &[
        (6, 0, "none"),
        (7, 0, "[1] 94 true"),
        (12, 0, "[6] 30 true"),
        (16, 0, "[7] 24 true"),
        (16, 1, "[7] 31 true"),
        (16, 2, "[8] 37 true"),
        (16, 1_000_000, "[8] 6000025 true"),
        (25, 0, "[13] 20 true"),
    ],
};

/// Edges differ along both dimensions of both arrays. The last chunks of the target reach over its array.
const UNEVEN_TILES: Row<'static> = Row {
    source: (&[9, 8], Chunks::Listed(&[&[2, 4, 3], &[5, 1, 2]])),
    target: (&[9, 8], Chunks::Listed(&[&[1, 3, 5], &[2, 2, 2, 3]])),
    region: None,
    at: &[0, 0],
    bounds: &[
        (30, 0, "[2, 1] 234 true"),
        (30, 4, "[2, 1] 314 true"),
        (40, 4, "[3, 1] 222 true"),
        (56, 4, "[2, 3] 152 true"),
        (80, 4, "[3, 3] 108 true"),
    ],
};

/// The last chunk of the source reaches over the array, and is decoded whole: two groups read 4 chunks of 4, one reads 3.
const OVER_THE_BORDER: Row<'static> = Row {
    source: (&[10], Chunks::Regular(&[4])),
    target: (&[10], Chunks::Regular(&[5])),
    region: None,
    at: &[0],
    bounds: &[
        (9, 1, "none"),
        (10, 1, "[1] 20 true"),
        (14, 1, "[1] 20 true"),
        (15, 1, "[2] 15 true"),
    ],
};

/// Here it ends with the array, and has 2 elements.
const AT_THE_BORDER: Row<'static> = Row {
    source: (&[10], Chunks::Bounded(&[4])),
    target: (&[10], Chunks::Bounded(&[5])),
    region: None,
    at: &[0],
    bounds: &[
        (9, 1, "none"),
        (10, 1, "[1] 18 true"),
        (15, 1, "[2] 13 true"),
    ],
};

/// The only chunk of the source has 4 elements, and the array has 3 of them. Each task reads it.
const LARGER_THAN_THE_ARRAY: Row<'static> = Row {
    source: (&[3], Chunks::Regular(&[4])),
    target: (&[3], Chunks::Regular(&[1])),
    region: None,
    at: &[0],
    bounds: &[
        (4, 5, "none"),
        (5, 5, "[1] 27 true"),
        (6, 5, "[2] 18 true"),
        (7, 5, "[3] 9 true"),
    ],
};

/// The chunk ends with the array.
const ALL_OF_THE_ARRAY: Row<'static> = Row {
    source: (&[3], Chunks::Bounded(&[4])),
    target: (&[3], Chunks::Regular(&[1])),
    region: None,
    at: &[0],
    bounds: &[
        (3, 5, "none"),
        (4, 5, "[1] 24 true"),
        (5, 5, "[2] 16 true"),
        (6, 5, "[3] 8 true"),
    ],
};

/// Seven elements, from 2 on, go to 1 on. Groups of 1 and of 2 read 4 chunks of 4, one group reads 3.
const PART_OF_A_ROW: Row<'static> = Row {
    source: (&[12], Chunks::Regular(&[4])),
    target: (&[9], Chunks::Regular(&[3])),
    region: Some((&[2], &[7])),
    at: &[1],
    bounds: &[
        (6, 1, "none"),
        (7, 1, "[1] 20 true"),
        (10, 1, "[1] 20 true"),
        (11, 1, "[3] 15 true"),
    ],
};

/// A region that begins inside of chunks of both arrays.
const PART_OF_A_TABLE: Row<'static> = Row {
    source: (&[9, 12], Chunks::Regular(&[3, 4])),
    target: (&[10, 9], Chunks::Regular(&[4, 2])),
    region: Some((&[1, 2], &[5, 7])),
    at: &[5, 1],
    bounds: &[
        (16, 3, "none"),
        (18, 3, "[1, 1] 270 true"),
        (24, 3, "[1, 2] 180 true"),
        (32, 3, "[3, 2] 120 true"),
        (47, 3, "[3, 4] 90 true"),
    ],
};

/// Each array is one element in one chunk. One read of one element is made.
const NO_DIMENSIONS: Row<'static> = Row {
    source: (&[], Chunks::Regular(&[])),
    target: (&[], Chunks::Listed(&[])),
    region: None,
    at: &[],
    bounds: &[(1, 7, "none"), (2, 7, "[] 8 true"), (2, 0, "[] 1 true")],
};

/// There are no elements, so there is no task that holds too many.
const EMPTY_REGION: Row<'static> = Row {
    source: (&[4, 4], Chunks::Regular(&[2, 2])),
    target: (&[6, 6], Chunks::Regular(&[3, 3])),
    region: Some((&[1, 2], &[3, 0])),
    at: &[2, 6],
    bounds: &[(0, 100, "[1, 1] 0 true"), (u64::MAX, 0, "[1, 1] 0 true")],
};

/// A chunk of the source leaves no room for even the smallest buffer, of one element.
const LARGE_SOURCE: Row<'static> = Row {
    source: (&[4, 4], Chunks::Regular(&[4, 4])),
    target: (&[4, 4], Chunks::Regular(&[1, 1])),
    region: None,
    at: &[0, 0],
    bounds: &[
        (15, 1, "none"),
        (16, 1, "none"),
        (17, 1, "[1, 1] 272 true"),
        (18, 1, "[1, 2] 136 true"),
    ],
};

#[test]
fn the_cheapest_tasks_that_fit_are_chosen(rt: HostRuntime) -> Result<(), Fail> {
    for row in [
        MAPS_TO_SERIES,
        TILES,
        UNEVEN,
        UNEVEN_TILES,
        OVER_THE_BORDER,
        AT_THE_BORDER,
        LARGER_THAN_THE_ARRAY,
        ALL_OF_THE_ARRAY,
        PART_OF_A_ROW,
        PART_OF_A_TABLE,
        NO_DIMENSIONS,
        EMPTY_REGION,
        LARGE_SOURCE,
    ] {
        check_row(&rt, &row)?;
    }
    Ok(())
}

/// There are 2^16 chunks: all numbers of them are tried. Groups of 2 read each chunk once: 32,768 of two elements.
const LONG: Row<'static> = Row {
    source: (&[65_536], Chunks::Regular(&[2])),
    target: (&[65_536], Chunks::Regular(&[1])),
    region: None,
    at: &[0],
    bounds: &[(4, 1, "[2] 98304 true")],
};

/// There is one chunk more, so not all numbers are tried, but those up to 16 are. Groups of 2 read 32,769 chunks.
const LONGER: Row<'static> = Row {
    source: (&[65_537], Chunks::Regular(&[2])),
    target: (&[65_537], Chunks::Regular(&[1])),
    region: None,
    at: &[0],
    bounds: &[(4, 1, "[2] 98307 false")],
};

/// Groups of 7 read 14,286 chunks of 7 elements, each once.
const EVEN_LONGER: Row<'static> = Row {
    source: (&[100_000], Chunks::Regular(&[7])),
    target: (&[100_000], Chunks::Regular(&[1])),
    region: None,
    at: &[0],
    bounds: &[(14, 1, "[7] 114288 false")],
};

/// The source is one chunk of 1,000 elements, which go to 99,503 on. In a room of 500 two tasks have to part at 100,003. That number is prime, so groups of as
/// many chunks are needed. It isn't tried. Groups of 371 part at 99,799 and at 100,170. Groups of 1,307 part at 99,332 and at 100,639, so there is one task.
const LEFT_OUT: Row<'static> = Row {
    source: (&[1000], Chunks::Regular(&[1000])),
    target: (&[100_600], Chunks::Regular(&[1])),
    region: None,
    at: &[99_503],
    bounds: &[
        (1500, 0, "[371] 3000 false"),
        (2000, 0, "[1307] 1000 false"),
    ],
};

/// A task is a column of 2^62 elements. It reads as many chunks of 2^62 elements, so 15 columns cost 15 * 2^124.
const FIFTEEN_COLUMNS: Row<'static> = Row {
    source: (&[1 << 62, 15], Chunks::Regular(&[1, 1 << 62])),
    target: (&[1 << 62, 15], Chunks::Regular(&[1 << 62, 1])),
    region: None,
    at: &[0, 0],
    bounds: &[
        ((1 << 63) - 1, 0, "none"),
        (
            1 << 63,
            0,
            "[1, 1] 319014718988379809496913694467282698240 true",
        ),
    ],
};

/// Sixteen cost 2^128. The choice says one less, the greatest number. In twice the room two go together, and eight tasks cost 2^127.
const SIXTEEN_COLUMNS: Row<'static> = Row {
    source: (&[1 << 62, 16], Chunks::Regular(&[1, 1 << 62])),
    target: (&[1 << 62, 16], Chunks::Regular(&[1 << 62, 1])),
    region: None,
    at: &[0, 0],
    bounds: &[
        (
            1 << 63,
            0,
            "[1, 1] 340282366920938463463374607431768211455 true",
        ),
        (
            3 << 62,
            0,
            "[1, 2] 170141183460469231731687303715884105728 true",
        ),
    ],
};

/// Each array has as many chunks as are tried along a dimension, or more, or its tasks cost about as much as the greatest number. The choices were found by
/// hand.
#[test]
fn a_choice_tells_whether_it_is_exact(rt: HostRuntime) -> Result<(), Fail> {
    for row in [
        LONG,
        LONGER,
        EVEN_LONGER,
        LEFT_OUT,
        FIFTEEN_COLUMNS,
        SIXTEEN_COLUMNS,
    ] {
        check_row(&rt, &row)?;
    }
    Ok(())
}

/// A copy between grids of edges that are equal or listed.
#[derive(Drop)]
struct Copied {
    source: RectilinearChunkGrid,
    target: RectilinearChunkGrid,
    region: ArraySubset,
    at: Vec<u64>,
}

/// A bound, and what one read is worth, in elements.
#[derive(Clone, Copy)]
pub(crate) struct Bound {
    pub(crate) most: u64,
    pub(crate) worth: u64,
}

/// What tasks cost, in elements, and how many the largest buffer has.
pub(crate) fn told_by(counts: &[CountsAlong], worth: u64) -> (u128, u64) {
    let (mut reads, mut decoded, mut largest) = (1u128, 1u128, 1u64);
    for along in counts {
        reads = reads.saturating_mul(u128::from(along.chunks_read));
        decoded = decoded.saturating_mul(along.elements_decoded);
        largest = largest.saturating_mul(along.largest_task);
    }
    let cost = reads.saturating_mul(u128::from(worth));
    (cost.saturating_add(decoded), largest)
}

/// What the tasks by groups of `each` chunks cost. `None` if a buffer and a chunk of `chunk` elements are too large.
fn cost_of(
    alloc: Global,
    copied: &Copied,
    each: &[NonZeroU64],
    chunk: u64,
    bound: Bound,
) -> Result<Option<u128>, Fail> {
    let (from, into) = (&copied.source, &copied.target);
    let counts = task_counts(alloc, from, into, &copied.region, &copied.at, each)?;
    let (cost, largest) = told_by(&counts, bound.worth);
    if largest.saturating_add(chunk) > bound.most {
        return Ok(None);
    }
    Ok(Some(cost))
}

/// How many elements the chunk has, whole, that holds an element.
fn elements_of_chunk(
    alloc: Global,
    grid: &RectilinearChunkGrid,
    element: &[u64],
) -> Result<u64, Fail> {
    let chunk = grid
        .chunk_indices(alloc, element)?
        .ok_or("no chunk holds the element")?;
    let shape = grid
        .chunk_shape_u64(alloc, &chunk)?
        .ok_or("there is no such chunk")?;
    let mut elements = 1u64;
    for edge in shape {
        elements = elements.saturating_mul(edge);
    }
    Ok(elements)
}

/// How many the largest chunk has of those that hold one of these elements. The elements are gone through one by one.
fn largest_of(
    alloc: Global,
    grid: &RectilinearChunkGrid,
    elements: ArraySubset,
) -> Result<u64, Fail> {
    let mut largest = 0u64;
    for element in ChunkIndicesInSubset::new(alloc, elements)? {
        largest = largest.max(elements_of_chunk(alloc, grid, element?.as_slice())?);
    }
    Ok(largest)
}

/// How many the largest chunk has that is read or written.
fn largest_of_both(alloc: Global, copied: &Copied) -> Result<u64, Fail> {
    let (from, into) = (&copied.source, &copied.target);
    let moved = moved_box(alloc, from, into, &copied.region, &copied.at)?;
    let read = largest_of(alloc, from, copied.region.clone()?)?;
    let written = largest_of(alloc, into, moved)?;
    Ok(read.max(written))
}

/// Up to which number all numbers of chunks a task are gone through. No array that is drawn has more elements along a dimension.
const SIZES: u64 = 14;

/// The least cost of all choices that fit.
fn least_cost(
    alloc: Global,
    copied: &Copied,
    chunk: u64,
    bound: Bound,
) -> Result<Option<u128>, Fail> {
    let mut least = None;
    for first in 0..SIZES {
        for second in 0..SIZES {
            let mut each = vec![in alloc; NonZeroU64::MIN.saturating_add(first); 1]?;
            if copied.at.len() == 2 {
                each.push(NonZeroU64::MIN.saturating_add(second))?;
            }
            if let Some(cost) = cost_of(alloc, copied, &each, chunk, bound)? {
                least = Some(cost.min(least.unwrap_or(cost)));
            }
        }
    }
    Ok(least)
}

/// Under a bound the choice costs as little as any that fits, and as much as it says. Nothing is chosen if nothing fits.
fn check_bound(
    rt: &(impl Abort + AllocGlobal),
    copied: &Copied,
    chunk: u64,
    bound: Bound,
) -> Result<Option<u128>, Fail> {
    let alloc = rt.alloc();
    let (from, into) = (&copied.source, &copied.target);
    let (most, worth) = (bound.most, bound.worth);
    let found = cheapest_tasks(alloc, from, into, &copied.region, &copied.at, most, worth)?;
    let least = least_cost(alloc, copied, chunk, bound)?;
    let Some(found) = found else {
        assert!(rt;
            least.is_none(),
            "nothing is chosen, and {least:?} is the least cost"
        );
        return Ok(least);
    };
    let cost = cost_of(alloc, copied, &found.task_chunks, chunk, bound)?;
    assert!(rt; cost == Some(found.cost), "{found:?} costs {cost:?}");
    assert!(rt; least == cost, "{found:?} costs more than {least:?}");
    assert!(rt; found.is_exact, "{found:?} isn't exact");
    Ok(least)
}

/// Numbers that follow one another as if they were drawn.
#[derive(Drop)]
struct Drawn {
    number: u64,
}

impl Drawn {
    /// The next number, from 0 to before `end`.
    fn below(&mut self, end: u64) -> u64
        requires { 0 < end }
    {
        self.number = self
            .number
            .wrapping_mul(6364136223846793005)
            .wrapping_add(1442695040888963407);
        (self.number >> 33) % end
    }
}

/// Edges from 1 to 5: one for all chunks, or one for each of 14.
fn drawn_edges(alloc: Global, drawn: &mut Drawn) -> Result<ChunkEdgeLengths, Fail> {
    if drawn.below(2) == 0 {
        let edge = NonZeroU64::MIN.saturating_add(drawn.below(5));
        return Ok(ChunkEdgeLengths::Scalar(edge));
    }
    let mut lengths = Vec::new(alloc);
    for _ in 0..SIZES {
        let edge = NonZeroU64::MIN.saturating_add(drawn.below(5));
        lengths.push(RunLengthElement::Single(edge))?;
    }
    Ok(ChunkEdgeLengths::Varying(lengths))
}

/// The grid of an array of these sizes, with edges that are drawn.
fn drawn_grid(
    alloc: Global,
    drawn: &mut Drawn,
    sizes: Vec<u64>,
) -> Result<RectilinearChunkGrid, Fail> {
    let mut lengths = Vec::new(alloc);
    for _ in 0..sizes.len() {
        lengths.push(drawn_edges(alloc, drawn)?)?;
    }
    Ok(RectilinearChunkGrid::new(alloc, sizes, &lengths)?)
}

/// A list of numbers below 4, one a dimension.
fn drawn_starts(alloc: Global, drawn: &mut Drawn, dimensions: usize) -> Result<Vec<u64>, Fail> {
    let mut numbers = Vec::new(alloc);
    for _ in 0..dimensions {
        numbers.push(drawn.below(4))?;
    }
    Ok(numbers)
}

/// The sizes of an array in which a box of these sizes begins there: up to 3 elements come after it.
fn drawn_sizes(
    alloc: Global,
    drawn: &mut Drawn,
    start: &[u64],
    shape: &[u64],
) -> Result<Vec<u64>, Fail> {
    let mut sizes = Vec::new(alloc);
    for (start, size) in start.iter().zip(shape) {
        sizes.push(start.saturating_add(*size).saturating_add(drawn.below(4)))?;
    }
    Ok(sizes)
}

/// A copy of up to 8 elements along each dimension.
fn drawn_copy(alloc: Global, drawn: &mut Drawn, dimensions: usize) -> Result<Copied, Fail> {
    let mut shape = Vec::new(alloc);
    for _ in 0..dimensions {
        shape.push(drawn.below(9))?;
    }
    let start = drawn_starts(alloc, drawn, dimensions)?;
    let at = drawn_starts(alloc, drawn, dimensions)?;
    let sizes = drawn_sizes(alloc, drawn, &start, &shape)?;
    let source = drawn_grid(alloc, drawn, sizes)?;
    let sizes = drawn_sizes(alloc, drawn, &at, &shape)?;
    let target = drawn_grid(alloc, drawn, sizes)?;
    Ok(Copied {
        source,
        target,
        region: ArraySubset::new_with_start_shape(start, shape)?,
        at,
    })
}

/// A copy under three bounds: no room for a buffer, room for up to 63 elements, and room for all of the 64 at most.
fn check_copy(
    rt: &(impl Abort + AllocGlobal),
    drawn: &mut Drawn,
    dimensions: usize,
) -> Result<(), Fail> {
    let copied = drawn_copy(rt.alloc(), drawn, dimensions)?;
    let chunk = largest_of_both(rt.alloc(), &copied)?;
    for room in [0, drawn.below(64), 64] {
        let bound = Bound {
            most: chunk.saturating_add(room),
            worth: drawn.below(3).saturating_mul(drawn.below(40)),
        };
        let least = check_bound(rt, &copied, chunk, bound)?;
        assert!(rt;
            room > 0 || least.is_some() == copied.region.is_empty(),
            "no room"
        );
        assert!(rt; room < 64 || least.is_some(), "room for all");
    }
    Ok(())
}

#[test]
fn no_choice_that_fits_costs_less(rt: HostRuntime) -> Result<(), Fail> {
    let mut drawn = Drawn { number: 1 };
    for _ in 0..20 {
        for dimensions in [1, 2] {
            check_copy(&rt, &mut drawn, dimensions)?;
        }
    }
    Ok(())
}

/// A grid of 211 elements along each of five dimensions, in chunks of one edge.
fn five_dimensions(alloc: Global, edge: u64) -> Result<RectilinearChunkGrid, Fail> {
    let mut lengths = Vec::new(alloc);
    for edge in edges(alloc, &[edge; 5])? {
        lengths.push(ChunkEdgeLengths::Scalar(edge))?;
    }
    let sizes = [211; 5].to_vec(alloc)?;
    Ok(RectilinearChunkGrid::new(alloc, sizes, &lengths)?)
}

/// How many elements such a grid has.
const ELEMENTS: u64 = 211 * 211 * 211 * 211 * 211;

/// Under a bound the choice fits and costs what it says, and doesn't count as exact.
fn check_inexact(
    rt: &(impl Abort + AllocGlobal),
    copied: &Copied,
    bound: Bound,
) -> Result<(), Fail> {
    let alloc = rt.alloc();
    let (from, into) = (&copied.source, &copied.target);
    let (most, worth) = (bound.most, bound.worth);
    let found = cheapest_tasks(alloc, from, into, &copied.region, &copied.at, most, worth)?;
    let found = found.ok_or("nothing is chosen")?;
    let cost = cost_of(alloc, copied, &found.task_chunks, ELEMENTS, bound)?;
    assert!(rt; cost == Some(found.cost), "{found:?} costs {cost:?}");
    assert!(rt; !found.is_exact, "{found:?} counts as exact");
    Ok(())
}

/// The source is one chunk. The target has 211 chunks along each dimension, so there are 211^5 choices, which are more than 2^24.
#[test]
fn some_of_too_many_choices_are_left_out(rt: HostRuntime) -> Result<(), Fail> {
    let alloc = rt.alloc();
    let source = five_dimensions(alloc, 211)?;
    let copied = Copied {
        region: whole_array(alloc, &source)?,
        source,
        target: five_dimensions(alloc, 1)?,
        at: vec![in alloc; 0; 5]?,
    };
    for room in [1, 1_000_000] {
        let most = ELEMENTS.saturating_add(room);
        check_inexact(&rt, &copied, Bound { most, worth: 1 })?;
    }
    Ok(())
}

/// Why nothing is chosen.
fn why_none(
    alloc: Global,
    answer: Result<Option<CheapestTasks>, Refusal<RegionError>>,
) -> Result<String, Fail> {
    match answer {
        Err(Refusal::Refused(error)) => Ok(format!(in alloc; "{error}")?),
        Err(Refusal::Memory(error)) => Err(error.into()),
        Ok(found) => line_of(alloc, found),
    }
}

/// A copy between two rows is refused by this text, and has no tasks for the same reason.
fn check_refused(
    rt: &(impl Abort + AllocGlobal),
    region: &ArraySubset,
    at: &[u64],
    expected: &str,
) -> Result<(), Fail> {
    let alloc = rt.alloc();
    let (source, target) = two_rows(alloc)?;
    let (from, into) = (&source.grid, &target.grid);
    let told = why_none(alloc, cheapest_tasks(alloc, from, into, region, at, 100, 1))?;
    check_text(rt, told.as_str(), expected);
    let each = edges_of(alloc, 2)?;
    let told = why(alloc, tasks(alloc, from, into, region, at, &each))?;
    check_text(rt, told.as_str(), expected);
    Ok(())
}

#[test]
fn what_has_no_tasks_is_refused(rt: HostRuntime) -> Result<(), Fail> {
    let alloc = rt.alloc();
    let (past_source, past_target) = (some_of(alloc, 4, 9)?, some_of(alloc, 2, 9)?);
    let (inside, other) = (some_of(alloc, 2, 7)?, ArraySubset::new_empty(alloc, 2)?);
    let text = "the region has to end within the source's array";
    check_refused(&rt, &past_source, &AT, text)?;
    let text = "the region, moved to the index to begin at, has to end within the target's array";
    check_refused(&rt, &past_target, &AT, text)?;
    let text = "the index to begin at: incompatible dimensionality 1, expected 5";
    check_refused(&rt, &inside, &[1], text)?;
    let text = "the region: incompatible dimensionality 2, expected 5";
    check_refused(&rt, &other, &AT, text)
}
