//! The cheapest stages: rows of copies and bounds, and stages that are found by hand.
//!
//! The expected costs don't come from the call itself. An exhaustive search gave them, if nothing else is said. It goes through all numbers of chunks a task, and
//! through all chunk shapes of an intermediate array that `specs/Edges.antt` of `zarrs_chunk_tasks` calls tried. `tools/chunk_tasks` found the same.
use crate::cheapest::{Bound, Chunks, Row, grid, region_of, told_by};
use crate::rows::{check_text, some_of};
use crate::tasks::{AT, two_rows};
use std::alloc::Global;
use std::process::Abort;
use std::test::Fail;
use zarrs_chunk_base::{ArraySubset, ChunkShape, Refusal};
use zarrs_chunk_plan::{RegionError, whole_array};
use zarrs_chunk_tasks::{
    CheapestStages, CheapestTasks, cheapest_stages, cheapest_tasks, task_counts,
};
use zarrs_chunks::{ChunkGridTraits, RegularChunkGrid};

/// The line of a choice: what all stages cost, how many there are, and whether it is exact.
fn line_of(alloc: Global, found: Option<CheapestStages>) -> Result<String, Fail> {
    match found {
        Some(found) => Ok(format!(in alloc;
            "{} {} {}",
            found.cost,
            found.tasks.as_slice().len(),
            found.is_exact
        )?),
        None => Ok(String::from_str(alloc, "none")?),
    }
}

/// What is chosen for a row under each of its bounds is what it says.
fn check_row(rt: &(impl Abort + AllocGlobal), row: &Row<'_>) -> Result<(), Fail> {
    let alloc = rt.alloc();
    let (source, target) = (grid(alloc, row.source)?, grid(alloc, row.target)?);
    let region = region_of(alloc, row, &source)?;
    for (most, worth, expected) in row.bounds {
        let found = cheapest_stages(alloc, &source, &target, &region, row.at, *most, *worth)?;
        check_text(rt, line_of(alloc, found)?.as_str(), expected);
    }
    Ok(())
}

/// Seven rows become seven columns. With 20 elements the best intermediate chunks are [3, 1]. An edge of 3 cuts the seven into three pieces.
const ROWS_TO_COLUMNS: Row<'static> = Row {
    source: (&[7, 7], Chunks::Regular(&[1, 7])),
    target: (&[7, 7], Chunks::Regular(&[7, 1])),
    region: None,
    at: &[0, 0],
    bounds: &[
        (13, 10, "none"),
        (14, 1, "154 2 true"),
        (14, 10, "658 2 true"),
        (20, 10, "511 2 true"),
        (35, 10, "238 1 true"),
    ],
};

/// Maps, one a chunk, become series of one place each. With 19 elements no tasks of one stage fit.
const MAPS_TO_SERIES: Row<'static> = Row {
    source: (&[4, 4, 4], Chunks::Regular(&[1, 4, 4])),
    target: (&[4, 4, 4], Chunks::Regular(&[4, 1, 1])),
    region: None,
    at: &[0, 0, 0],
    bounds: &[
        (16, 3, "none"),
        (18, 3, "768 2 true"),
        (19, 3, "768 2 true"),
        (20, 3, "416 2 true"),
        (80, 3, "76 1 true"),
    ],
};

/// Chunks of like shapes: one stage is best.
const TILES: Row<'static> = Row {
    source: (&[12, 12], Chunks::Regular(&[4, 4])),
    target: (&[12, 12], Chunks::Regular(&[6, 6])),
    region: None,
    at: &[0, 0],
    bounds: &[
        (71, 10, "none"),
        (72, 10, "416 1 true"),
        (108, 10, "312 1 true"),
    ],
};

/// The chunks of the source are the larger ones: they leave no room for a chunk of the target until there are 12 elements.
const LARGE_SOURCE: Row<'static> = Row {
    source: (&[8, 4], Chunks::Regular(&[8, 1])),
    target: (&[8, 4], Chunks::Regular(&[1, 4])),
    region: None,
    at: &[0, 0],
    bounds: &[
        (8, 2, "none"),
        (9, 2, "416 2 true"),
        (11, 2, "216 2 true"),
        (12, 2, "144 2 true"),
        (40, 2, "40 1 true"),
    ],
};

/// Edges differ along a dimension of each array.
const UNEVEN: Row<'static> = Row {
    source: (&[9, 8], Chunks::Listed(&[&[1, 3, 2, 3], &[8]])),
    target: (&[9, 8], Chunks::Listed(&[&[9], &[1, 2, 1, 1, 3]])),
    region: None,
    at: &[0, 0],
    bounds: &[
        (53, 2, "none"),
        (54, 2, "238 2 true"),
        (63, 2, "160 1 true"),
    ],
};

/// Edges differ along both dimensions of both arrays. The last chunks of the target reach over its array.
const UNEVEN_TILES: Row<'static> = Row {
    source: (&[9, 8], Chunks::Listed(&[&[2, 4, 3], &[5, 1, 2]])),
    target: (&[9, 8], Chunks::Listed(&[&[1, 3, 5], &[2, 2, 2, 3]])),
    region: None,
    at: &[0, 0],
    bounds: &[
        (29, 4, "none"),
        (30, 4, "314 1 true"),
        (50, 4, "152 1 true"),
    ],
};

/// Some chunks of the source have fewer elements than the longest ones along a dimension, so what reads decode is less than that many longest ones.
const SHORT_AND_LONG: Row<'static> = Row {
    source: (&[8, 7], Chunks::Listed(&[&[4, 8], &[4, 1, 2]])),
    target: (&[8, 7], Chunks::Regular(&[2, 7])),
    region: None,
    at: &[0, 0],
    bounds: &[(48, 1, "158 2 true")],
};

/// The same of a region.
const PART_OF_SHORT_AND_LONG: Row<'static> = Row {
    source: (&[8, 6], Chunks::Listed(&[&[4, 1, 1, 5], &[5, 6]])),
    target: (&[9, 6], Chunks::Regular(&[8, 2])),
    region: Some((&[1, 1], &[7, 5])),
    at: &[2, 1],
    bounds: &[(58, 1, "174 2 true")],
};

/// The last chunks end with the arrays.
const AT_THE_BORDER: Row<'static> = Row {
    source: (&[7, 5], Chunks::Bounded(&[1, 4])),
    target: (&[7, 5], Chunks::Bounded(&[4, 1])),
    region: None,
    at: &[0, 0],
    bounds: &[(7, 1, "none"), (8, 1, "119 2 true"), (12, 1, "84 1 true")],
};

/// Seven elements, from 2 on, go to 1 on.
const PART_OF_A_ROW: Row<'static> = Row {
    source: (&[12], Chunks::Regular(&[4])),
    target: (&[9], Chunks::Regular(&[3])),
    region: Some((&[2], &[7])),
    at: &[1],
    bounds: &[(6, 1, "none"), (7, 1, "20 1 true"), (11, 1, "15 1 true")],
};

/// A region that begins inside of a chunk of each array.
const PART_OF_A_TABLE: Row<'static> = Row {
    source: (&[9, 12], Chunks::Regular(&[1, 5])),
    target: (&[10, 9], Chunks::Regular(&[7, 1])),
    region: Some((&[1, 2], &[6, 6])),
    at: &[3, 1],
    bounds: &[
        (10, 3, "none"),
        (11, 3, "186 2 true"),
        (14, 3, "168 2 true"),
        (19, 3, "96 1 true"),
    ],
};

/// The longest chunk along the source's first dimension has 3 elements and lies outside of the region. So does the chunk of 4 elements along the target's second one. Those
/// that hold some of it have 2 and 1. So the edges that are tried are 2, 4 and 6, and 1, 2, 3 and 5.
const LONGEST_OUTSIDE: Row<'static> = Row {
    source: (&[9, 7], Chunks::Listed(&[&[1, 1, 2, 1, 1, 3], &[7]])),
    target: (&[6, 9], Chunks::Listed(&[&[6], &[4, 1, 1, 1, 1, 1]])),
    region: Some((&[0, 1], &[6, 5])),
    at: &[0, 4],
    bounds: &[
        (14, 2, "none"),
        (17, 2, "320 2 true"),
        (20, 2, "164 2 true"),
        (26, 2, "100 2 true"),
    ],
};

/// Along the first dimension the edges that are tried are 2, 4 and 5. Two stages by chunks of [1, 1] would fit with 13 elements, and cost 120 with 15.
const NOT_TRIED: Row<'static> = Row {
    source: (&[6, 7], Chunks::Bounded(&[2, 6])),
    target: (&[7, 6], Chunks::Bounded(&[8, 1])),
    region: Some((&[1, 3], &[5, 4])),
    at: &[1, 1],
    bounds: &[
        (13, 1, "none"),
        (15, 1, "246 2 true"),
        (17, 1, "126 1 true"),
        (18, 1, "116 2 true"),
        (22, 1, "87 1 true"),
    ],
};

/// Each array is one element in one chunk. Two stages would read it twice.
const NO_DIMENSIONS: Row<'static> = Row {
    source: (&[], Chunks::Regular(&[])),
    target: (&[], Chunks::Listed(&[])),
    region: None,
    at: &[],
    bounds: &[(1, 7, "none"), (2, 7, "8 1 true")],
};

/// There are no elements, so there is one stage without tasks.
const EMPTY_REGION: Row<'static> = Row {
    source: (&[4, 4], Chunks::Regular(&[2, 2])),
    target: (&[6, 6], Chunks::Regular(&[3, 3])),
    region: Some((&[1, 2], &[3, 0])),
    at: &[2, 6],
    bounds: &[(0, 100, "0 1 true"), (u64::MAX, 0, "0 1 true")],
};

#[test]
fn the_cheapest_stages_that_fit_are_chosen(rt: HostRuntime) -> Result<(), Fail> {
    for row in [
        ROWS_TO_COLUMNS,
        MAPS_TO_SERIES,
        TILES,
        LARGE_SOURCE,
        UNEVEN,
        UNEVEN_TILES,
        SHORT_AND_LONG,
        PART_OF_SHORT_AND_LONG,
        AT_THE_BORDER,
        PART_OF_A_ROW,
        PART_OF_A_TABLE,
        LONGEST_OUTSIDE,
        NOT_TRIED,
        NO_DIMENSIONS,
        EMPTY_REGION,
    ] {
        check_row(&rt, &row)?;
    }
    Ok(())
}

/// One stage: the elements of a region go from one grid to another.
#[derive(Drop)]
struct Stage<'a, G, H> {
    source: &'a G,
    target: &'a H,
    region: &'a ArraySubset,
    at: &'a [u64],
}

/// How many chunks a task takes, what the tasks cost, and whether this is exact.
fn line_of_tasks(alloc: Global, tasks: &CheapestTasks) -> Result<String, Fail> {
    Ok(format!(in alloc;
        "{:?} {} {}",
        tasks.task_chunks.as_slice(),
        tasks.cost,
        tasks.is_exact
    )?)
}

/// The tasks of a stage are the cheapest ones between its two grids, they fit and cost what they say. The largest chunk of both has `chunk` elements.
/// Appends the line of the stage: chunks read, elements decoded, elements of the largest buffer, and the cost.
fn check_stage<G: ChunkGridTraits, H: ChunkGridTraits>(
    rt: &(impl Abort + AllocGlobal),
    lines: &mut String,
    stage: &Stage<G, H>,
    chosen: &CheapestTasks,
    chunk: u64,
    bound: Bound,
) -> Result<(), Fail> {
    let alloc = rt.alloc();
    let (from, into, region, at) = (stage.source, stage.target, stage.region, stage.at);
    let alone = cheapest_tasks(alloc, from, into, region, at, bound.most, bound.worth)?;
    let alone = line_of_tasks(alloc, &alone.ok_or("no tasks fit")?)?;
    check_text(rt, line_of_tasks(alloc, chosen)?.as_str(), alone.as_str());
    let counts = task_counts(alloc, from, into, region, at, &chosen.task_chunks)?;
    let (decoded, _) = told_by(&counts, 0);
    let (cost, largest) = told_by(&counts, bound.worth);
    assert!(rt; cost == chosen.cost, "{chosen:?} costs {cost}");
    let held = largest.saturating_add(chunk);
    assert!(rt; held <= bound.most, "{chosen:?} holds {held}");
    let (with_reads, _) = told_by(&counts, 1);
    let reads = with_reads.saturating_sub(decoded);
    let line = format!(in alloc; "{reads} {decoded} {largest} {cost}\n")?;
    lines.push_str(line.as_str())?;
    Ok(())
}

/// The same of two stages, by an intermediate array in chunks of a shape. `chunks` are how many elements the largest chunk of each stage has.
fn check_two<G: ChunkGridTraits, H: ChunkGridTraits>(
    rt: &(impl Abort + AllocGlobal),
    lines: &mut String,
    copied: &Stage<G, H>,
    stages: &[CheapestTasks],
    shape: ChunkShape,
    chunks: (u64, u64),
    bound: Bound,
) -> Result<(), Fail> {
    let alloc = rt.alloc();
    let sizes = copied.region.shape().to_vec(alloc)?;
    let between = RegularChunkGrid::new(alloc, sizes, shape)?;
    let array = whole_array(alloc, &between)?;
    let write = Stage {
        source: copied.source,
        target: &between,
        region: copied.region,
        at: array.start(),
    };
    let read = Stage {
        source: &between,
        target: copied.target,
        region: &array,
        at: copied.at,
    };
    let first = stages.first().ok_or("there is no stage")?;
    check_stage(rt, lines, &write, first, chunks.0, bound)?;
    let second = stages.get(1).ok_or("there is one stage")?;
    check_stage(rt, lines, &read, second, chunks.1, bound)
}

/// The stages of a row are these lines: the intermediate chunks, the cost of all stages, and whether it is exact. Then a line for each stage.
fn check_stages(
    rt: &(impl Abort + AllocGlobal),
    row: &Row<'_>,
    chunks: (u64, u64),
    bound: Bound,
    expected: &str,
) -> Result<(), Fail> {
    let alloc = rt.alloc();
    let (source, target) = (grid(alloc, row.source)?, grid(alloc, row.target)?);
    let region = region_of(alloc, row, &source)?;
    let (most, worth) = (bound.most, bound.worth);
    let found = cheapest_stages(alloc, &source, &target, &region, row.at, most, worth)?;
    let found = found.ok_or("nothing is chosen")?;
    let (shapes, stages) = (found.chunks.as_slice(), found.tasks.as_slice());
    assert_eq!(rt; stages.len(), shapes.len().saturating_add(1));
    let mut lines = format!(in alloc; "{shapes:?} {} {}\n", found.cost, found.is_exact)?;
    let copied = Stage {
        source: &source,
        target: &target,
        region: &region,
        at: row.at,
    };
    if let Some(shape) = shapes.first() {
        check_two(
            rt,
            &mut lines,
            &copied,
            stages,
            shape.clone()?,
            chunks,
            bound,
        )?;
    } else {
        let one = stages.first().ok_or("there is no stage")?;
        check_stage(rt, &mut lines, &copied, one, chunks.0, bound)?;
    }
    check_text(rt, lines.as_str(), expected);
    let mut sum = 0u128;
    for stage in stages {
        sum = sum.saturating_add(stage.cost);
    }
    assert_eq!(rt; found.cost, sum);
    Ok(())
}

/// Eight rows become eight columns.
const SQUARE: Row<'static> = Row {
    source: (&[8, 8], Chunks::Regular(&[1, 8])),
    target: (&[8, 8], Chunks::Regular(&[8, 1])),
    region: None,
    at: &[0, 0],
    bounds: &[],
};

/// With 16 elements, there is room for a buffer of 8 beside a row or a column. In one stage it is a column, and each one reads all 8 rows: 64 reads of 8
/// elements. That is 512.
///
/// If a read is worth nothing, it is best to decode each element once in each stage. The first stage's buffer is a row: 8 reads of 8 elements. The second one's
/// is a column. So that it decodes no other column, each element is a chunk: 64 reads of 1 element. That is 64 + 64.
const BY_ELEMENTS: &str = "\
[[1, 1]] 128 true
8 64 8 64
64 64 8 64
";

/// If a read is worth 10 elements, one stage costs 640 + 512.
///
/// The first stage's buffer is half of two rows, so each row is read twice: 16 reads of 8 elements, 160 + 128. The second one's is a column, of 4 chunks of 2
/// elements: 32 reads of 2 elements, 320 + 64.
const BY_PAIRS: &str = "\
[[2, 1]] 672 true
16 128 8 288
32 64 8 384
";

/// With 24 elements there is room for a buffer of 16. In one stage it is two columns, so 4 tasks read 8 rows each: 320 + 256.
///
/// The first stage's buffer is two rows: 8 reads of 8 elements, 80 + 64. The second one's is two columns, of 4 chunks of 4 elements: 16 reads of 4 elements,
/// 160 + 64.
const BY_SQUARES: &str = "\
[[2, 2]] 368 true
8 64 16 144
16 64 16 224
";

/// With 72 elements there is room for all 64 in one buffer, which reads each row once: 8 reads of 8 elements, 80 + 64.
const BY_ONE: &str = "\
[] 144 true
8 64 64 144
";

/// Five rows, from 1 on, and four columns, from 3 on. With 15 elements a chunk of the source, of 12, leaves room for a buffer of 3: one chunk of [2, 1].
///
/// In the first stage the chunks of the first two rows are the source's rows 1 and 2, in two of its chunks. The chunks of the next two are in two, and the
/// last row is in one: 5 reads of 2 rows. Along the columns three lie in one chunk of 6, and the last one in one of 1: 4 reads of 19 columns in all. Together
/// they are 20 reads of 10 * 19 elements.
///
/// In the second stage each of the 4 columns reads 3 chunks of 2 elements: 12 reads of 24 elements in all.
const BY_PARTS: &str = "\
[[2, 1]] 246 true
20 190 2 210
12 24 5 36
";

/// With 22 elements there is room for a buffer of 10, two columns. The target's columns 1 to 4 fall into pairs as 1, then 2 and 3, then 4. The first two groups
/// lie in chunks of 6 columns, and the last one in one of 1. Each group meets three chunks of 2 rows. So there are 9 reads, of 6 * 13 elements in all.
const BY_PARTS_AT_ONCE: &str = "\
[] 87 true
9 78 10 87
";

#[test]
fn stages_are_those_found_by_hand(rt: HostRuntime) -> Result<(), Fail> {
    for (most, worth, expected) in [
        (16, 0, BY_ELEMENTS),
        (16, 10, BY_PAIRS),
        (24, 10, BY_SQUARES),
        (72, 10, BY_ONE),
    ] {
        check_stages(&rt, &SQUARE, (8, 8), Bound { most, worth }, expected)?;
    }
    for (most, worth, expected) in [(15, 1, BY_PARTS), (22, 1, BY_PARTS_AT_ONCE)] {
        check_stages(&rt, &NOT_TRIED, (12, 7), Bound { most, worth }, expected)?;
    }
    Ok(())
}

/// All elements become one chunk, from chunks of one each: each element is read once. By way of one more chunk all are decoded once more.
const MANY_PIECES: Row<'static> = Row {
    source: (&[65_536], Chunks::Regular(&[1])),
    target: (&[65_536], Chunks::Regular(&[65_536])),
    region: None,
    at: &[0],
    bounds: &[(131_072, 1, "131072 1 true")],
};

/// There is one more piece than all are tried for.
const TOO_MANY_PIECES: Row<'static> = Row {
    source: (&[65_537], Chunks::Regular(&[1])),
    target: (&[65_537], Chunks::Regular(&[65_537])),
    region: None,
    at: &[0],
    bounds: &[(131_074, 1, "131074 1 false")],
};

/// The costs were found by hand.
#[test]
fn stages_tell_whether_they_are_exact(rt: HostRuntime) -> Result<(), Fail> {
    for row in [MANY_PIECES, TOO_MANY_PIECES] {
        check_row(&rt, &row)?;
    }
    Ok(())
}

/// Why no stages are chosen.
fn why_none(
    alloc: Global,
    answer: Result<Option<CheapestStages>, Refusal<RegionError>>,
) -> Result<String, Fail> {
    match answer {
        Err(Refusal::Refused(error)) => Ok(format!(in alloc; "{error}")?),
        Err(Refusal::Memory(error)) => Err(error.into()),
        Ok(found) => line_of(alloc, found),
    }
}

/// A copy between two rows is refused by this text.
fn check_refused(
    rt: &(impl Abort + AllocGlobal),
    region: &ArraySubset,
    at: &[u64],
    expected: &str,
) -> Result<(), Fail> {
    let alloc = rt.alloc();
    let (source, target) = two_rows(alloc)?;
    let (from, into) = (&source.grid, &target.grid);
    let told = why_none(
        alloc,
        cheapest_stages(alloc, from, into, region, at, 100, 1),
    )?;
    check_text(rt, told.as_str(), expected);
    Ok(())
}

#[test]
fn what_has_no_stages_is_refused(rt: HostRuntime) -> Result<(), Fail> {
    let alloc = rt.alloc();
    let (past_source, past_target) = (some_of(alloc, 4, 9)?, some_of(alloc, 2, 9)?);
    let (inside, other) = (some_of(alloc, 2, 7)?, ArraySubset::new_empty(alloc, 2)?);
    let text = "the region has to end within the source's array";
    check_refused(&rt, &past_source, &AT, text)?;
    let text = "the region, moved to the index to begin at, has to end within the target's array";
    check_refused(&rt, &past_target, &AT, text)?;
    let text = "the index to begin at: incompatible dimensionality 1, expected 5";
    check_refused(&rt, &inside, &[1], text)?;
    let text = "the region: incompatible dimensionality 2, expected 5";
    check_refused(&rt, &other, &AT, text)
}
