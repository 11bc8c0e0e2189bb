//! The tasks of a copy: their boxes, walks that go to any task, and what is refused.
use crate::rows::{OpenedArray, check_text, edges_of, row, some_of};
use std::alloc::Global;
use std::num::NonZeroU64;
use std::process::Abort;
use std::test::Fail;
use zarrs_chunk_base::Refusal;
use zarrs_chunk_plan::Share;
use zarrs_chunk_tasks::laws::{
    a_rechunking_writes_whole_chunks, a_whole_chunk_is_in_one_task, counts_are_those_of_the_parts,
    each_element_goes_by_the_buffer, each_task_lies_in_both_arrays, no_chunk_is_in_two_tasks,
    shares_are_together_the_tasks, the_other_way_round_has_the_same_tasks, the_tasks_are_the_copy,
    the_walk_gives_the_tasks, there_are_tasks, two_stages_are_the_copy,
};
use zarrs_chunk_tasks::{
    CountsAlong, Task, Tasks, TasksError, task_counts, task_counts_by_source, tasks,
    tasks_by_source,
};
use zarrs_chunks::RegularChunkGrid;

/// The index in the target that the first element goes to.
pub(crate) const AT: [u64; 5] = [0, 0, 0, 0, 1];

/// Appends the line of a task: its group, where its boxes begin, and the shape of its buffer.
fn append_task(alloc: Global, lines: &mut String, task: &Task) -> Result<(), Fail> {
    let line = format!(in alloc;
        "{:?} {:?} {:?} {:?}\n",
        task.group.as_slice(),
        task.source.start(),
        task.target.start(),
        task.source.shape()
    )?;
    lines.push_str(line.as_str())?;
    Ok(())
}

/// The lines of all tasks that a walk gives.
fn lines_of(alloc: Global, walk: &mut Tasks<'_, RegularChunkGrid>) -> Result<String, Fail> {
    let mut lines = String::new(alloc);
    while let Some(task) = walk.next() {
        append_task(alloc, &mut lines, &task?)?;
    }
    Ok(lines)
}

/// Twelve elements in chunks of four, and nine in chunks of three.
pub(crate) fn two_rows(alloc: Global) -> Result<(OpenedArray, OpenedArray), Fail> {
    Ok((row(alloc, 12, 4)?, row(alloc, 9, 3)?))
}

/// Seven elements, from 2 on, go to 1 on: the target's first two chunks take five of them, the third takes two.
const BY_TARGET: &str = "\
[0, 0, 0, 0, 0] [0, 0, 0, 0, 2] [0, 0, 0, 0, 1] [1, 1, 1, 1, 5]
[0, 0, 0, 0, 1] [0, 0, 0, 0, 7] [0, 0, 0, 0, 6] [1, 1, 1, 1, 2]
";

/// The second task alone.
const LAST: &str = "[0, 0, 0, 0, 1] [0, 0, 0, 0, 7] [0, 0, 0, 0, 6] [1, 1, 1, 1, 2]\n";

/// The source's first two chunks have six of them, the third has one.
const BY_SOURCE: &str = "\
[0, 0, 0, 0, 0] [0, 0, 0, 0, 2] [0, 0, 0, 0, 1] [1, 1, 1, 1, 6]
[0, 0, 0, 0, 1] [0, 0, 0, 0, 8] [0, 0, 0, 0, 7] [1, 1, 1, 1, 1]
";

#[test]
fn tasks_group_the_chunks_of_either_array(rt: HostRuntime) -> Result<(), Fail> {
    let alloc = rt.alloc();
    let (source, target) = two_rows(alloc)?;
    let (region, each) = (some_of(alloc, 2, 7)?, edges_of(alloc, 2)?);
    let mut walk = tasks(alloc, &source.grid, &target.grid, &region, &AT, &each)?;
    assert_eq!(rt; walk.in_all(), Some(2));
    check_text(&rt, lines_of(alloc, &mut walk)?.as_str(), BY_TARGET);
    let mut walk = tasks_by_source(alloc, &source.grid, &target.grid, &region, &AT, &each)?;
    check_text(&rt, lines_of(alloc, &mut walk)?.as_str(), BY_SOURCE);
    Ok(())
}

#[test]
fn a_walk_goes_to_any_task(rt: HostRuntime) -> Result<(), Fail> {
    let alloc = rt.alloc();
    let (source, target) = two_rows(alloc)?;
    let (region, each) = (some_of(alloc, 2, 7)?, edges_of(alloc, 2)?);
    let mut walk = tasks(alloc, &source.grid, &target.grid, &region, &AT, &each)?;
    for (number, expected) in [(2, ""), (1, LAST), (u64::MAX, ""), (0, BY_TARGET)] {
        walk.skip_to(number)?;
        check_text(&rt, lines_of(alloc, &mut walk)?.as_str(), expected);
        assert!(rt; walk.next().is_none(), "a walk goes on after its end");
    }
    Ok(())
}

#[test]
fn a_share_of_two_has_one_task(rt: HostRuntime) -> Result<(), Fail> {
    let alloc = rt.alloc();
    let (source, target) = two_rows(alloc)?;
    let (region, each) = (some_of(alloc, 2, 7)?, edges_of(alloc, 2)?);
    let mut walk = tasks(alloc, &source.grid, &target.grid, &region, &AT, &each)?;
    let mut lines = String::new(alloc);
    for number in 0..2 {
        let share = Share::new(number, 2).ok_or("no such share")?;
        assert_eq!(rt; walk.share(&share)?, Some(number));
        lines.push_str(lines_of(alloc, &mut walk)?.as_str())?;
    }
    check_text(&rt, lines.as_str(), BY_TARGET);
    Ok(())
}

#[test]
fn an_empty_region_has_no_tasks(rt: HostRuntime) -> Result<(), Fail> {
    let alloc = rt.alloc();
    let (source, target) = two_rows(alloc)?;
    let (region, each) = (some_of(alloc, 12, 0)?, edges_of(alloc, 2)?);
    let mut walk = tasks(alloc, &source.grid, &target.grid, &region, &AT, &each)?;
    assert_eq!(rt; walk.in_all(), Some(0));
    check_text(&rt, lines_of(alloc, &mut walk)?.as_str(), "");
    Ok(())
}

/// The counts along each dimension, a line each: tasks, elements of the largest, chunks read, elements decoded, chunks written.
fn lines_of_counts(alloc: Global, counts: &[CountsAlong]) -> Result<String, Fail> {
    let mut lines = String::new(alloc);
    for along in counts {
        let line = format!(in alloc;
            "{} {} {} {} {}\n",
            along.tasks,
            along.largest_task,
            along.chunks_read,
            along.elements_decoded,
            along.chunks_written
        )?;
        lines.push_str(line.as_str())?;
    }
    Ok(lines)
}

/// Along four dimensions there is one element. Along the last one the first task reads chunks 0 and 1, and writes 0 and 1. The second reads 1 and 2, and
/// writes 2.
const COUNTS_BY_TARGET: &str = "1 1 1 1 1\n1 1 1 1 1\n1 1 1 1 1\n1 1 1 1 1\n2 5 4 16 3\n";

/// The first task reads chunks 0 and 1 and writes all three, the second reads chunk 2 and writes chunk 2.
const COUNTS_BY_SOURCE: &str = "1 1 1 1 1\n1 1 1 1 1\n1 1 1 1 1\n1 1 1 1 1\n2 6 3 12 4\n";

/// Ten elements from chunks of four to chunks of five: each task reads two chunks. The last one reaches over the array by two elements, and is decoded whole.
const COUNTS_AT_THE_BORDER: &str = "1 1 1 1 1\n1 1 1 1 1\n1 1 1 1 1\n1 1 1 1 1\n2 5 4 16 2\n";

/// Nothing along any dimension.
const NO_COUNTS: &str = "0 0 0 0 0\n0 0 0 0 0\n0 0 0 0 0\n0 0 0 0 0\n0 0 0 0 0\n";

#[test]
fn counts_are_those_of_the_tasks(rt: HostRuntime) -> Result<(), Fail> {
    let alloc = rt.alloc();
    let (source, target) = two_rows(alloc)?;
    let (region, none, each) = (
        some_of(alloc, 2, 7)?,
        some_of(alloc, 12, 0)?,
        edges_of(alloc, 2)?,
    );
    let (from, into) = (&source.grid, &target.grid);
    let counts = task_counts(alloc, from, into, &region, &AT, &each)?;
    check_text(
        &rt,
        lines_of_counts(alloc, &counts)?.as_str(),
        COUNTS_BY_TARGET,
    );
    let counts = task_counts_by_source(alloc, from, into, &region, &AT, &each)?;
    check_text(
        &rt,
        lines_of_counts(alloc, &counts)?.as_str(),
        COUNTS_BY_SOURCE,
    );
    let counts = task_counts(alloc, from, into, &none, &AT, &each)?;
    check_text(&rt, lines_of_counts(alloc, &counts)?.as_str(), NO_COUNTS);
    let counts = task_counts_by_source(alloc, from, into, &none, &AT, &each)?;
    check_text(&rt, lines_of_counts(alloc, &counts)?.as_str(), NO_COUNTS);
    Ok(())
}

#[test]
fn a_border_chunk_is_decoded_whole(rt: HostRuntime) -> Result<(), Fail> {
    let alloc = rt.alloc();
    let (source, target) = (row(alloc, 10, 4)?, row(alloc, 10, 5)?);
    let (region, each) = (some_of(alloc, 0, 10)?, edges_of(alloc, 1)?);
    let (from, into) = (&source.grid, &target.grid);
    let counts = task_counts(alloc, from, into, &region, &[0; 5], &each)?;
    check_text(
        &rt,
        lines_of_counts(alloc, &counts)?.as_str(),
        COUNTS_AT_THE_BORDER,
    );
    Ok(())
}

/// 10^18 elements from chunks of 4 to chunks of 3, two of these a task. Chunks and tasks begin together at each twelfth element.
const MANY_BY_TARGET: &str = "\
1 1 1 1 1
1 1 1 1 1
1 1 1 1 1
1 1 1 1 1
166666666666666667 6 333333333333333333 1333333333333333332 333333333333333334
";

/// The same by two chunks of the source a task, so each is read once.
const MANY_BY_SOURCE: &str = "\
1 1 1 1 1
1 1 1 1 1
1 1 1 1 1
1 1 1 1 1
125000000000000000 8 250000000000000000 1000000000000000000 416666666666666667
";

/// From 1 on to 2 on, chunks and tasks never begin together.
const MANY_MOVED: &str = "\
1 1 1 1 1
1 1 1 1 1
1 1 1 1 1
1 1 1 1 1
166666666666666667 6 416666666666666666 1666666666666666664 333333333333333333
";

#[test]
fn many_tasks_are_counted(rt: HostRuntime) -> Result<(), Fail> {
    let alloc = rt.alloc();
    let size = 1_000_000_000_000_000_000;
    let (source, target) = (row(alloc, size, 4)?, row(alloc, size, 3)?);
    let (all, most, each) = (
        some_of(alloc, 0, size)?,
        some_of(alloc, 1, size - 3)?,
        edges_of(alloc, 2)?,
    );
    let (from, into) = (&source.grid, &target.grid);
    let counts = task_counts(alloc, from, into, &all, &[0; 5], &each)?;
    check_text(
        &rt,
        lines_of_counts(alloc, &counts)?.as_str(),
        MANY_BY_TARGET,
    );
    let counts = task_counts_by_source(alloc, from, into, &all, &[0; 5], &each)?;
    check_text(
        &rt,
        lines_of_counts(alloc, &counts)?.as_str(),
        MANY_BY_SOURCE,
    );
    let counts = task_counts(alloc, from, into, &most, &[0, 0, 0, 0, 2], &each)?;
    check_text(&rt, lines_of_counts(alloc, &counts)?.as_str(), MANY_MOVED);
    Ok(())
}

/// Why a copy has no tasks.
pub(crate) fn why(
    alloc: Global,
    answer: Result<Tasks<'_, RegularChunkGrid>, Refusal<TasksError>>,
) -> Result<String, Fail> {
    match answer {
        Err(Refusal::Refused(error)) => Ok(format!(in alloc; "{error}")?),
        Err(Refusal::Memory(error)) => Err(error.into()),
        Ok(_) => Ok(String::from_str(alloc, "it is accepted")?),
    }
}

#[test]
fn what_does_not_fit_is_refused(rt: HostRuntime) -> Result<(), Fail> {
    let alloc = rt.alloc();
    let (source, target) = two_rows(alloc)?;
    let (long, region, each) = (
        some_of(alloc, 2, 9)?,
        some_of(alloc, 2, 7)?,
        edges_of(alloc, 2)?,
    );
    let told = why(
        alloc,
        tasks(alloc, &source.grid, &target.grid, &long, &AT, &each),
    )?;
    let past = "the region, moved to the index to begin at, has to end within the target's array";
    check_text(&rt, told.as_str(), past);
    let few = vec![in alloc; NonZeroU64::MIN; 1]?;
    let told = why(
        alloc,
        tasks_by_source(alloc, &source.grid, &target.grid, &region, &AT, &few),
    )?;
    let lengths = "the chunks a task: incompatible dimensionality 1, expected 5";
    check_text(&rt, told.as_str(), lengths);
    Ok(())
}

#[test]
fn the_laws_hold(rt: HostRuntime) -> Result<(), Fail> {
    let (source, target) = two_rows(rt.alloc())?;
    let region = some_of(rt.alloc(), 2, 7)?;
    let each = edges_of(rt.alloc(), 2)?;
    the_walk_gives_the_tasks(&target.grid);
    the_tasks_are_the_copy(&source.grid, &target.grid, &region);
    two_stages_are_the_copy(&region);
    no_chunk_is_in_two_tasks(&source.grid, &target.grid);
    a_whole_chunk_is_in_one_task(&source.grid, &target.grid, &region);
    the_other_way_round_has_the_same_tasks(&target.grid);
    each_element_goes_by_the_buffer(&source, &target);
    a_rechunking_writes_whole_chunks(&target);
    each_task_lies_in_both_arrays(&source.grid, &target.grid);
    shares_are_together_the_tasks();
    counts_are_those_of_the_parts(&source);
    there_are_tasks(&source.grid, &target.grid, &region, &each);
    Ok(())
}
