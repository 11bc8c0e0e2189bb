//! Walks that stay ended, after an error too, and walks that go to any part.
use crate::rows::{OpenedArray, append_part, check_text, row, some_of};
use std::alloc::Global;
use std::process::Abort;
use std::test::Fail;
use zarrs_chunk_keys::DefaultChunkKeyEncoding;
use zarrs_chunk_plan::{Parts, parts};
use zarrs_chunks::RegularChunkGrid;

type Walk<'a> = Parts<'a, RegularChunkGrid, DefaultChunkKeyEncoding>;

/// The walk over the parts of so many elements of a row, from one on.
fn walk_over(alloc: Global, array: &OpenedArray, first: u64, count: u64) -> Result<Walk<'_>, Fail> {
    let subset = some_of(alloc, first, count)?;
    Ok(parts(alloc, &array.grid, &array.encoding, &subset)?.ok_or("no cover")?)
}

/// Appends the line of the next part, or an empty one where the walk has ended. After an error it has ended.
fn append_next(
    rt: &(impl Abort + AllocGlobal),
    lines: &mut String,
    walk: &mut Walk<'_>,
) -> Result<(), Fail> {
    match walk.next() {
        Some(Ok(part)) => append_part(rt.alloc(), lines, &part),
        Some(Err(error)) => {
            assert!(rt; walk.next().is_none(), "a walk goes on after an error");
            Err(error.into())
        }
        None => Ok(lines.push('\n')?),
    }
}

/// Appends the line of the part with a number, or of the next one.
fn append_from(
    rt: &(impl Abort + AllocGlobal),
    lines: &mut String,
    walk: &mut Walk<'_>,
    number: Option<u64>,
) -> Result<(), Fail> {
    if let Some(number) = number {
        walk.skip_to(number)?;
    }
    append_next(rt, lines, walk)
}

/// The part with the number 2, the last one, none twice, the first one and the one after it; then the last one, and none twice.
const ANY_PARTS: &str = "\
c/0/0/0/0/2 [0, 0, 0, 0, 0] [0, 0, 0, 0, 5] [1, 1, 1, 1, 3]
c/0/0/0/0/1000 [0, 0, 0, 0, 0] [0, 0, 0, 0, 2999] [1, 1, 1, 1, 1]


c/0/0/0/0/0 [0, 0, 0, 0, 1] [0, 0, 0, 0, 0] [1, 1, 1, 1, 2]
c/0/0/0/0/1 [0, 0, 0, 0, 0] [0, 0, 0, 0, 2] [1, 1, 1, 1, 3]
c/0/0/0/0/1000 [0, 0, 0, 0, 0] [0, 0, 0, 0, 2999] [1, 1, 1, 1, 1]


";

/// Of the elements 1 to 3000 two are in the first chunk, three in each of 999, and one in the last.
#[test]
fn a_walk_goes_to_any_part_and_stays_ended(rt: HostRuntime) -> Result<(), Fail> {
    let array = row(rt.alloc(), 3001, 3)?;
    let mut walk = walk_over(rt.alloc(), &array, 1, 3000)?;
    let mut lines = String::new(rt.alloc());
    for number in [
        Some(2),
        Some(1000),
        Some(1001),
        Some(u64::MAX),
        Some(0),
        None,
        Some(1000),
        None,
        None,
    ] {
        append_from(&rt, &mut lines, &mut walk, number)?;
    }
    check_text(&rt, lines.as_str(), ANY_PARTS);
    Ok(())
}
