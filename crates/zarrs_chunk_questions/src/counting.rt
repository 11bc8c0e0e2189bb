//! How much the tasks of a copy read and write, and which of them a share has.
ghost use Rattle.std.specs.Prelude.{◌≡◌, IfOk, MatchResult, map};
ghost use Rattle.serde_json.specs.View.{view};
ghost use Rattle.zarrs_chunk_base.specs.Refusal.{OrMemory};
ghost use Rattle.zarrs_chunk_base.specs.Json.{size_tree};
ghost use Rattle.zarrs_chunk_plan.specs.Counted.{counted};
ghost use Rattle.zarrs_chunk_plan.specs.Counts.{product};
ghost use Rattle.zarrs_chunk_tasks.specs.Counts.{count_along};
ghost use Rattle.zarrs_chunk_questions.specs.Refused.{HasNoCounts};
ghost use Rattle.zarrs_chunk_questions.specs.Tasks.{IsCountsAnswer, count_tree as tree_of_count, counts_tree as tree_of_counts, share_tree as tree_of_share};
ghost use Rattle.zarrs_chunk_questions.specs.Trees.{or_null};
ghost use Rattle.zarrs_chunk_questions.specs.seen.Copies.{copy_of};
ghost use Rattle.zarrs_chunk_questions.specs.seen.Read.{share_of};

use crate::copying::Copying;
use crate::line_fault::LineFault;
use serde_json::{Map, Value};
use std::alloc::{AllocError, Global};
use zarrs_chunk_base::{ArrayShape, ArraySubset, Refusal, write_list};
use zarrs_chunk_plan::Share;
use zarrs_chunk_tasks::{Count, CountsAlong, can_count, task_counts_by};

/// The tree of how much the tasks of a copy read and write, and of the numbers of a share's tasks.
///
/// # Errors
/// The first that applies: the copy has no tasks; there are too many chunks to count them. Or out of memory.
pub(crate) fn counts_of(
    alloc: Global,
    copying: &Copying,
    share: &Share,
) -> Result<Value, Refusal<LineFault>>
    ensures { MatchResult result
        (λ tree. IsCountsAnswer (copy_of copying.now) (share_of share.now) (view tree))
        (OrMemory (HasNoCounts (copy_of copying.now))) }
{
    copying.tasks(alloc)?;
    let Copying {
        source,
        target,
        region,
        at,
        order,
        task_chunks,
    } = copying;
    let (from, into) = (&source.grid, &target.grid);
    let can = can_count(alloc, from, into, region, at)?;
    if !can {
        return Err(Refusal::Refused(LineFault::TooManyToCount));
    }
    match task_counts_by(alloc, *order, from, into, region, at, task_chunks) {
        Ok(counts) => Ok(counts_tree(alloc, &counts, region, share)?),
        Err(refusal) => Err(refusal.map(LineFault::Tasks)),
    }
}

/// The tree of counts, one number a dimension, and of the numbers of a share's tasks.
///
/// # Errors
/// Out of memory.
fn counts_tree(
    alloc: Global,
    counts: &[CountsAlong],
    region: &ArraySubset,
    share: &Share,
) -> Result<Value, AllocError>
    ensures { IfOk result (λ tree. view tree
        ≡ tree_of_counts (share_of share.now) region.now counts.now) }
{
    let chunks_read = count_tree(alloc, counts, Count::ChunksRead)?;
    let chunks_written = count_tree(alloc, counts, Count::ChunksWritten)?;
    let elements_decoded = count_tree(alloc, counts, Count::ElementsDecoded)?;
    let elements_moved = write_list(alloc, region.shape())?;
    let largest_task = count_tree(alloc, counts, Count::LargestTask)?;
    let numbers = share_tree(alloc, share, &tasks_along(alloc, counts)?)?;
    let tasks = count_tree(alloc, counts, Count::Tasks)?;
    let mut members = Map::new(alloc);
    serde_json::put(&mut members, alloc, "chunks_read", chunks_read)?;
    serde_json::put(&mut members, alloc, "chunks_written", chunks_written)?;
    serde_json::put(&mut members, alloc, "elements_decoded", elements_decoded)?;
    serde_json::put(&mut members, alloc, "elements_moved", elements_moved)?;
    serde_json::put(&mut members, alloc, "largest_task", largest_task)?;
    serde_json::put(&mut members, alloc, "share", numbers)?;
    serde_json::put(&mut members, alloc, "tasks", tasks)?;
    Ok(Value::Object(members))
}

/// The tree of a count: the list of its numbers along each dimension.
///
/// # Errors
/// Out of memory.
fn count_tree(alloc: Global, counts: &[CountsAlong], count: Count) -> Result<Value, AllocError>
    ensures { IfOk result (λ tree. view tree ≡ tree_of_count (count_along count) counts.now) }
{
    let mut numbers = Vec::with_capacity(alloc, counts.len())?;
    for along in counts {
        numbers.push(number_or_null(as_size(count.along(along))))?;
    }
    Ok(Value::Array(numbers))
}

/// How many tasks there are along each dimension.
///
/// # Errors
/// Out of memory.
fn tasks_along(alloc: Global, counts: &[CountsAlong]) -> Result<ArrayShape, AllocError>
    ensures { IfOk result (λ tasks. tasks.items ≡ map (λ along. along.tasks) counts.now) }
{
    let mut tasks = Vec::with_capacity(alloc, counts.len())?;
    for along in counts {
        tasks.push(along.tasks)?;
    }
    Ok(tasks)
}

/// The tree of the numbers of a share's tasks, of as many tasks as the product of these numbers.
///
/// # Errors
/// Out of memory.
fn share_tree(alloc: Global, share: &Share, tasks: &[u64]) -> Result<Value, AllocError>
    ensures { IfOk result (λ tree. view tree
        ≡ tree_of_share (share_of share.now) (product tasks.now)) }
{
    let (first, end) = share.line_numbers(tasks);
    let mut numbers = Vec::with_capacity(alloc, 2)?;
    numbers.push(number_or_null(first))?;
    numbers.push(number_or_null(end))?;
    Ok(Value::Array(numbers))
}

/// The number as 64 bits; `None` past 18446744073709551615.
fn as_size(number: u128) -> Option<u64>
    ensures { result ≡ counted number }
{
    if number <= u64::MAX as u128 {
        Some(number as u64)
    } else {
        None
    }
}

/// The tree of a number, or `null` where there is none.
fn number_or_null(number: Option<u64>) -> Value
    ensures { view result ≡ or_null size_tree number }
{
    match number {
        Some(number) => Value::from(number),
        None => Value::Null,
    }
}
