//! The tasks of a copy, from one of them on: those before it take no time.
ghost use Rattle.std.specs.Prelude.{◌≡◌, ◌+◌, ◌*◌, ◌≤◌, IfOk, List, MatchOption, MatchResult, length, map, take};
ghost use Rattle.std.specs.List.{AllZip};
ghost use Rattle.serde_json.specs.View.{view};
ghost use Rattle.zarrs_chunk_base.specs.ArraySubset.{IsBox};
ghost use Rattle.zarrs_chunk_base.specs.Refusal.{OrMemory};
ghost use Rattle.zarrs_chunk_parts.specs.declared.part.Part.{Part as PartValue};
ghost use Rattle.zarrs_chunk_tasks.specs.Tasks.{TaskPlan};
ghost use Rattle.zarrs_chunk_tasks.specs.seen.Tasks.{CanGive, groups_to_come};
ghost use Rattle.zarrs_chunk_questions.specs.Refused.{HasNoTasks};
ghost use Rattle.zarrs_chunk_questions.specs.Tasks.{IsTasksAnswer, source_dimensions, task_tree as tree_of_task};
ghost use Rattle.zarrs_chunk_questions.specs.seen.Copies.{CanGiveParts, HasPartsBetween, HavePlans, IsPlanOf, PartsToCome, copy_of, dimensions_in, parts_in, parts_of};
ghost use Rattle.zarrs_chunk_questions.specs.seen.Lines.{IsGiven};

use crate::copying::{Copying, OpenedArray};
use crate::limits::Limits;
use crate::line_fault::LineFault;
use crate::pages::page_tree;
use crate::plan_trees::task_tree;
use serde_json::Value;
use std::alloc::{AllocError, Global};
use zarrs_chunk_base::Refusal;
use zarrs_chunk_keys::ChunkKeyEncoding;
use zarrs_chunk_parts::found_or_out_of_memory;
use zarrs_chunk_plan::{Part, Parts, parts};
use zarrs_chunk_tasks::{Task, Tasks};
use zarrs_chunks::{ChunkGrid, ChunkGridTraits};

/// The tree of the tasks of a copy, from the one with this number on; `None` where they have too many parts. A task is made at a time, and no more of its
/// parts than there is room for.
///
/// # Errors
/// The copy has no tasks; or out of memory.
pub(crate) fn tasks_from(
    alloc: Global,
    copying: &Copying,
    first: u64,
    limits: &Limits,
) -> Result<Option<Value>, Refusal<LineFault>>
    ensures { MatchResult result (IsGiven (limits.now.too_many
        * (2 * (5 * length (source_dimensions (copy_of copying.now))) + 1))
        (IsTasksAnswer (copy_of copying.now) first limits.now.most))
        (OrMemory (HasNoTasks (copy_of copying.now))) }
{
    let mut walk = copying.tasks(alloc)?;
    let in_all = walk.in_all().unwrap_or(u64::MAX);
    let most = limits.most.min(in_all.saturating_sub(first));
    walk.skip_to(first)?;
    let (source, target) = (&copying.source, &copying.target);
    let too_many = limits.too_many;
    let Some(trees) = task_trees(alloc, source, target, &mut walk, most as usize, too_many)? else {
        return Ok(None);
    };
    let count = trees.len() as u64;
    Ok(Some(page_tree(alloc, trees, first, count, in_all)?))
}

/// The trees of the tasks that a walk has left, up to `most`; `None` if they have `too_many` parts, or more.
///
/// # Errors
/// Out of memory.
fn task_trees(
    alloc: Global,
    source: &OpenedArray,
    target: &OpenedArray,
    walk: &mut Tasks<'_, ChunkGrid>,
    most: usize,
    too_many: u128,
) -> Result<Option<Vec<Value>>, AllocError>
    requires can { CanGive dimensions_in walk.old }
    requires have { HavePlans source.now target.now walk.old (groups_to_come walk.old) }
    ensures { IfOk result (λ found. (plans : List TaskPlan)
        × AllZip (IsPlanOf source.now target.now walk.old)
        (take most (groups_to_come walk.old)) plans
        × MatchOption found (too_many ≤ parts_in plans)
        (λ trees. map view trees.items ≡ map tree_of_task plans)) }
{
    let mut trees = Vec::new(alloc);
    let mut left = too_many;
    'tasks: while trees.len() < most {
        let task = match walk.next() {
            Some(task) => task?,
            None => return Ok(Some(trees)),
        };
        let Some((tree, parts)) = tree_of(alloc, source, target, &task, left)? else {
            return Ok(None);
        };
        left = left.saturating_sub(parts);
        trees.push(tree)?;
    }
    Ok(Some(trees))
}

/// The tree of a task, and how many parts it has; `None` if they are `too_many`, or more.
///
/// # Errors
/// Out of memory.
fn tree_of(
    alloc: Global,
    source: &OpenedArray,
    target: &OpenedArray,
    task: &Task,
    too_many: u128,
) -> Result<Option<(Value, u128)>, AllocError>
    ensures { IfOk result (λ found. (plan : TaskPlan) × (plan.0 ≡ task.now)
        × HasPartsBetween source.now target.now plan
        × MatchOption found (too_many ≤ parts_of plan)
        (λ made. (made.1 ≡ parts_of plan) × (view made.0 ≡ tree_of_task plan))) }
{
    task.source.is_a_box();
    task.target.is_a_box();
    let from = found_or_out_of_memory(parts(alloc, &source.grid, &source.encoding, &task.source))?;
    let into = found_or_out_of_memory(parts(alloc, &target.grid, &target.encoding, &task.target))?;
    let Some(read) = parts_below(alloc, from, too_many)? else {
        return Ok(None);
    };
    let count = read.len() as u128;
    let Some(written) = parts_below(alloc, into, too_many.saturating_sub(count))? else {
        return Ok(None);
    };
    let tree = task_tree(alloc, task, &read, &written)?;
    Ok(Some((tree, count + written.len() as u128)))
}

/// The parts that a walk has left; `None` if they are `too_many`, or more.
///
/// # Errors
/// Out of memory.
fn parts_below(
    alloc: Global,
    walk: Parts<'_, ChunkGrid, ChunkKeyEncoding>,
    too_many: u128,
) -> Result<Option<Vec<Part>>, AllocError>
    requires meet { CanGiveParts walk }
    requires is_box { IsBox walk.array_subset }
    ensures { IfOk result (λ found. MatchOption found
        ((parts : List PartValue) × PartsToCome walk.entry parts × (too_many ≤ length parts))
        (λ all. PartsToCome walk.entry all.items)) }
{
    let mut all = Vec::new(alloc);
    for part in walk {
        all.push(part?)?;
        if all.len() as u128 >= too_many {
            return Ok(None);
        }
    }
    Ok(Some(all))
}
