//! The counts of a read, and the counts of all stages of a copy by tasks, as one line.
ghost use Rattle.std.specs.Prelude.{◌≡◌, ◌++◌, ◌⊎◌};
ghost use Rattle.programs.specs.chunkplan.Common.{ℕ, IfOk, List, MatchResult, Memory, OnOk, map, option_map, print, json_tokens, IsNumeral, in_all, product};
ghost use Rattle.programs.specs.chunkplan.CountsLine.{IsCountedStage, IsCountsLine, IsStageObject, IsStagesLine, flag_text, shape_text};
ghost use Rattle.programs.specs.chunkplan.Line.{numbers_json};
ghost use Rattle.programs.specs.chunkplan.Stages.{AreStageCounts, IsCountFault, IsFaultOfSome};
ghost use Rattle.zarrs_chunk_tasks.specs.Counts.{count_along};
ghost use Rattle.programs.specs.chunkplan.seen.Pieces.{comma_but_first};
ghost use Rattle.programs.specs.chunkplan.seen.Routes.{stage_of};

use crate::chunkplan::RunFault;
use crate::chunkplan::line::write_list;
use crate::chunkplan::product::{count_text, product_text};
use crate::chunkplan::route::Stage;
use crate::chunkplan::stages::numbers_of;
use crate::chunkplan::task_lines::tasks_of;
use json::Writer;
use std::alloc::{AllocError, Global};
use zarrs_chunk_plan::ReadCounts;
use zarrs_chunk_tasks::{Count, CountsAlong, can_count, task_counts_by};

/// How many bytes the line is given room for at first.
const LINE_LEN: usize = 192;

/// How many bytes the line of all stages is given room for at first.
const STAGES_LEN: usize = 640;

/// How many bytes a shape is given room for at first.
const SHAPE_LEN: usize = 64;

/// The line of the counts of a read.
///
/// # Errors
/// Out of memory.
pub(crate) fn counts_line(alloc: Global, counts: &ReadCounts) -> Result<Vec<u8>, AllocError>
    ensures { IfOk result (λ line. IsCountsLine counts.now line.items) }
{
    let mut line = Vec::with_capacity(alloc, LINE_LEN)?;
    append_product(alloc, &mut line, b"{\"chunks_read\":", &counts.chunks_read)?;
    append_product(
        alloc,
        &mut line,
        b",\"elements_moved\":",
        &counts.elements_moved,
    )?;
    line.extend_from_slice(b"}\n")?;
    Ok(line)
}

/// Appends a text, and then the digits of a product.
///
/// # Errors
/// Out of memory.
fn append_product(
    alloc: Global,
    line: &mut Vec<u8>,
    before: &[u8],
    factors: &[u64],
) -> Result<(), AllocError>
    ensures { OnOk result ((text : List ℕ) × IsNumeral (product factors.now) text
        × (line.new.items ≡ line.old.items ++ (before.now ++ text))) }
{
    line.extend_from_slice(before)?;
    let digits = product_text(alloc, factors)?;
    line.extend_from_slice(&digits)?;
    Ok(())
}

/// The line of the counts of all stages of a copy.
///
/// # Errors
/// A stage has no tasks; there are too many chunks to count them; or out of memory.
pub(crate) fn stages_line(
    alloc: Global,
    is_exact: Option<bool>,
    stages: &[Stage<'_>],
) -> Result<Vec<u8>, RunFault>
    ensures { MatchResult result
        (λ line. IsStagesLine (is_exact, map stage_of stages.now) line.items)
        (λ fault. (fault ≡ Memory) ⊎ IsFaultOfSome (map stage_of stages.now) fault) }
{
    let mut line = Vec::with_capacity(alloc, STAGES_LEN)?;
    line.extend_from_slice(b"{\"exact\":")?;
    append_flag(&mut line, is_exact)?;
    line.extend_from_slice(b",\"stages\":[")?;
    for (number, stage) in stages.iter().enumerate() {
        append_comma(&mut line, number)?;
        append_stage(alloc, &mut line, stage)?;
    }
    line.extend_from_slice(b"]}\n")?;
    Ok(line)
}

/// Appends a comma, but before the first of a list.
///
/// # Errors
/// Out of memory.
fn append_comma(line: &mut Vec<u8>, number: usize) -> Result<(), AllocError>
    ensures { OnOk result (line.new.items ≡ line.old.items ++ comma_but_first number) }
{
    if number > 0 {
        line.extend_from_slice(b",")?;
    }
    Ok(())
}

/// Appends the object of the counts of a stage.
///
/// # Errors
/// The stage has no tasks; there are too many chunks to count them; or out of memory.
fn append_stage(alloc: Global, line: &mut Vec<u8>, stage: &Stage<'_>) -> Result<(), RunFault>
    ensures { MatchResult result
        (λ _. (object : List ℕ) × IsCountedStage (stage_of stage.now) object
        × (line.new.items ≡ line.old.items ++ object))
        (λ fault. (fault ≡ Memory) ⊎ IsCountFault (stage_of stage.now) fault) }
{
    let counts = counts_of_stage(alloc, stage)?;
    append_counts_of_stage(alloc, line, stage, &counts)?;
    Ok(())
}

/// Counts the tasks of a stage.
///
/// # Errors
/// The first that applies: the stage has no tasks; there are too many chunks to count them. Or out of memory.
fn counts_of_stage(alloc: Global, stage: &Stage<'_>) -> Result<Vec<CountsAlong>, RunFault>
    ensures { MatchResult result (λ counts. AreStageCounts (stage_of stage.now) counts.items)
        (λ fault. (fault ≡ Memory) ⊎ IsCountFault (stage_of stage.now) fault) }
{
    tasks_of(alloc, stage)?;
    let (source, target) = (&stage.source.grid, &stage.target.grid);
    let at = stage.at.as_slice();
    let can = can_count(alloc, source, target, &stage.region, at)?;
    if !can {
        return Err(RunFault::TooManyToCount);
    }
    let counts = task_counts_by(
        alloc,
        stage.order,
        source,
        target,
        &stage.region,
        at,
        stage.each,
    )?;
    Ok(counts)
}

/// Appends the object of these counts of a stage.
///
/// # Errors
/// Out of memory.
fn append_counts_of_stage(
    alloc: Global,
    line: &mut Vec<u8>,
    stage: &Stage<'_>,
    counts: &[CountsAlong],
) -> Result<(), AllocError>
    ensures { OnOk result ((object : List ℕ) × IsStageObject (stage_of stage.now) counts.now object
        × (line.new.items ≡ line.old.items ++ object)) }
{
    append_of_tasks(alloc, line, b"{\"chunks_read\":", counts, Count::ChunksRead)?;
    append_of_tasks(
        alloc,
        line,
        b",\"chunks_written\":",
        counts,
        Count::ChunksWritten,
    )?;
    append_of_tasks(
        alloc,
        line,
        b",\"elements_decoded\":",
        counts,
        Count::ElementsDecoded,
    )?;
    append_product(alloc, line, b",\"elements_moved\":", stage.region.shape())?;
    append_shape(alloc, line, b",\"intermediate\":", stage.intermediate)?;
    append_of_tasks(
        alloc,
        line,
        b",\"largest_task\":",
        counts,
        Count::LargestTask,
    )?;
    let each = numbers_of(alloc, stage.each)?;
    append_shape(alloc, line, b",\"task_chunks\":", Some(&each))?;
    append_of_tasks(alloc, line, b",\"tasks\":", counts, Count::Tasks)?;
    line.extend_from_slice(b"}")?;
    Ok(())
}

/// Appends a text, and then the digits of a count of tasks.
///
/// # Errors
/// Out of memory.
fn append_of_tasks(
    alloc: Global,
    line: &mut Vec<u8>,
    before: &[u8],
    counts: &[CountsAlong],
    count: Count,
) -> Result<(), AllocError>
    ensures { OnOk result ((text : List ℕ) × IsNumeral (in_all (count_along count) counts.now) text
        × (line.new.items ≡ line.old.items ++ (before.now ++ text))) }
{
    line.extend_from_slice(before)?;
    let digits = count_text(alloc, counts, count)?;
    line.extend_from_slice(&digits)?;
    Ok(())
}

/// Appends a text, and then a list of numbers, or `null` without one.
///
/// # Errors
/// Out of memory.
fn append_shape(
    alloc: Global,
    line: &mut Vec<u8>,
    before: &[u8],
    shape: Option<&[u64]>,
) -> Result<(), AllocError>
    ensures { OnOk result (line.new.items ≡ line.old.items
        ++ (before.now ++ shape_text (option_map (λ s. s.now) shape.entry))) }
{
    line.extend_from_slice(before)?;
    match shape {
        Some(shape) => line.extend_from_slice(&list_text(alloc, shape)?)?,
        None => line.extend_from_slice(b"null")?,
    }
    Ok(())
}

/// A list of numbers.
///
/// # Errors
/// Out of memory.
fn list_text(alloc: Global, numbers: &[u64]) -> Result<Vec<u8>, AllocError>
    ensures { IfOk result (λ text. text.items ≡ print (json_tokens (numbers_json numbers.now))) }
{
    let mut json = Writer::new(Vec::with_capacity(alloc, SHAPE_LEN)?);
    write_list(&mut json, numbers)?;
    Ok(json.into_inner())
}

/// Appends `true` or `false`, or `null` if there is no flag.
///
/// # Errors
/// Out of memory.
fn append_flag(line: &mut Vec<u8>, flag: Option<bool>) -> Result<(), AllocError>
    ensures { OnOk result (line.new.items ≡ line.old.items ++ flag_text flag) }
{
    match flag {
        Some(true) => line.extend_from_slice(b"true")?,
        Some(false) => line.extend_from_slice(b"false")?,
        None => line.extend_from_slice(b"null")?,
    }
    Ok(())
}
