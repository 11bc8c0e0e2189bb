//! The walks over the chunks of a grid: more than four dimensions, what follows the end and an error, and a walk that ends at once.
mod overlong;

use crate::compared::{check_numbers, check_that};
use overlong::Overlong;
use std::alloc::{AllocError, Global};
use std::cell::Cell;
use std::num::NonZeroU64;
use std::process::Abort;
use std::test::Fail;
use zarrs_chunks::{ChunkGridTraits, ChunkIndices, ChunkIndicesAndSubsets, RegularChunkGrid};

/// A regular grid of one chunk an element.
fn grid_of_elements(alloc: Global, array_shape: &[u64]) -> Result<RegularChunkGrid, Fail> {
    let chunk_shape = vec![in alloc; NonZeroU64::MIN; array_shape.len()]?;
    Ok(RegularChunkGrid::new(alloc, array_shape.to_vec(alloc)?, chunk_shape)?)
}

/// The walk gives this chunk. An error is handed on, and the walk stays ended after it.
fn check_chunk(
    rt: &impl Abort,
    walk: &mut ChunkIndices<'_>,
    chunk: &[u64],
) -> Result<(), AllocError> {
    match walk.next() {
        Some(Ok(found)) => check_numbers(rt, &found, chunk),
        Some(Err(error)) => {
            check_that(rt, walk.next().is_none(), "a walk ends after an error");
            return Err(error);
        }
        None => check_that(rt, false, "the walk has a further chunk"),
    }
    Ok(())
}

/// The walk gives this chunk and the box of its element. An error is handed on, and the walk stays ended after it.
fn check_both(
    rt: &impl Abort,
    walk: &mut ChunkIndicesAndSubsets<'_, RegularChunkGrid>,
    chunk: &[u64],
) -> Result<(), AllocError> {
    match walk.next() {
        Some(Ok((found, subset))) => {
            check_numbers(rt, &found, chunk);
            check_numbers(rt, subset.start(), chunk);
        }
        Some(Err(error)) => {
            check_that(rt, walk.next().is_none(), "a walk ends after an error");
            return Err(error);
        }
        None => check_that(rt, false, "the walk has a further chunk"),
    }
    Ok(())
}

#[test]
fn more_than_four_dimensions_are_walked(rt: HostRuntime) -> Result<(), Fail> {
    let grid = grid_of_elements(rt.alloc(), &[1, 1, 1, 1, 2])?;
    let mut walk = grid.iter_chunk_indices(rt.alloc());
    check_chunk(&rt, &mut walk, &[0, 0, 0, 0, 0])?;
    check_chunk(&rt, &mut walk, &[0, 0, 0, 0, 1])?;
    let has_ended = walk.next().is_none() && walk.next().is_none();
    check_that(&rt, has_ended, "the walk has ended, and stays so");
    Ok(())
}

#[test]
fn more_than_four_dimensions_are_walked_with_boxes(rt: HostRuntime) -> Result<(), Fail> {
    let grid = grid_of_elements(rt.alloc(), &[1, 1, 1, 1, 2])?;
    let mut walk = grid.iter_chunk_indices_and_subsets(rt.alloc());
    check_both(&rt, &mut walk, &[0, 0, 0, 0, 0])?;
    check_both(&rt, &mut walk, &[0, 0, 0, 0, 1])?;
    let has_ended = walk.next().is_none() && walk.next().is_none();
    check_that(&rt, has_ended, "the walk has ended, and stays so");
    Ok(())
}

/// What a walk over boxes gives that has to end at once: nothing, or an error, where there is no memory.
fn check_end<T: Drop>(rt: &impl Abort, item: Option<Result<T, AllocError>>, has_memory: bool) {
    let is_right = match item {
        None => has_memory,
        Some(item) => item.is_err() && !has_memory,
    };
    check_that(rt, is_right, "no box, or an error where there is no memory");
}

/// Where no chunk has a box, one is asked for its box, and all others are passed over.
#[test]
fn a_walk_over_boxes_ends_at_once(rt: HostRuntime) {
    for has_memory in [true, false] {
        let grid = Overlong {
            asked: Cell::new(0),
            has_memory,
        };
        let mut boxes = grid.iter_chunk_subsets(rt.alloc());
        check_end(&rt, boxes.next(), has_memory);
        let ended = boxes.next().is_none() && boxes.next().is_none();
        check_that(&rt, ended && grid.asked.get() == 1, "one box was asked for");
        let mut both = grid.iter_chunk_indices_and_subsets(rt.alloc());
        check_end(&rt, both.next(), has_memory);
        let ended = both.next().is_none() && both.next().is_none();
        check_that(
            &rt,
            ended && grid.asked.get() == 2,
            "two boxes were asked for",
        );
    }
}
