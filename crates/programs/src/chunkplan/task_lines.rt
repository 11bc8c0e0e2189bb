//! The lines of the tasks of a copy, sent as they are made.
ghost use Rattle.std.specs.Prelude.{◌≡◌, ◌++◌, ◌⊎◌};
ghost use Rattle.programs.specs.chunkplan.Common.{ℕ, IfOk, List, MatchResult, Memory, length, option_map, IsBox, counted, Part as PartValue, TaskPlan, written};
ghost use Rattle.zarrs_chunk_parts.specs.Plan.{IsPlan};
ghost use Rattle.zarrs_chunk_tasks.specs.seen.Tasks.{CanGive, all_groups, groups_to_come};
ghost use Rattle.programs.specs.chunkplan.Line.{lines_from, task_lines};
ghost use Rattle.programs.specs.chunkplan.Stages.{IsStageFault, plans_in};
ghost use Rattle.programs.specs.chunkplan.seen.Resume.{are_stored, is_left_out as left_out, is_stored_whole, line_unless_stored, share_unless_stored};
ghost use Rattle.programs.specs.chunkplan.seen.Opened.{CanGiveParts, PartsToCome, dimensions_in, dimensions_of, key_of};
ghost use Rattle.programs.specs.chunkplan.seen.Pieces.{text_as};
ghost use Rattle.programs.specs.chunkplan.seen.PlannedTasks.{HasPartsOf, HasPlansOf, HavePlans, PlansToCome};
ghost use Rattle.programs.specs.chunkplan.seen.Routes.{stage_of};
ghost use Rattle.programs.specs.chunkplan.seen.Steps.{IsMade, Leaves, StepLeaves};
ghost use Rattle.documents.specs.Reading.{made_of};

use crate::chunkplan::RunFault;
use crate::chunkplan::copying::{next_number, send_text, write_parts};
use crate::chunkplan::line::{Form, task_begin, task_end, task_middle};
use crate::chunkplan::opened::{OpenedArray, OpenedParts, OpenedTasks};
use crate::chunkplan::route::Stage;
use std::alloc::{AllocError, Global};
use std::io::Write;
use streams::Sink;
use zarrs_chunk_base::ArraySubset;
use zarrs_chunk_parts::found_or_out_of_memory;
use zarrs_chunk_plan::laws::all_fit;
use zarrs_chunk_plan::{Part, Share, StoredChunks, parts};
use zarrs_chunk_tasks::{Task, tasks_by};
use zarrs_chunks::ChunkGridTraits;

/// Sends a share of the lines of a stage's tasks.
///
/// # Errors
/// The stage has no tasks, and nothing has been written; a write failed; or out of memory.
pub(crate) fn write_stage<W: Write>(
    alloc: Global,
    stage: &Stage<'_>,
    share: &Share,
    sink: &mut Sink<W>,
) -> Result<(), RunFault>
    ensures { Leaves (made_of (plans_in (stage_of stage.now)) (λ plans text. text
        ≡ task_lines share.now plans)) result
        (written W.contents sink.old) (written W.contents sink.new) }
{
    let walk = tasks_of(alloc, stage)?;
    write_share(alloc, walk, stage.source, stage.target, share, None, sink)
}

/// The walk over the tasks of a stage.
///
/// # Errors
/// The stage has no tasks; or out of memory.
pub(crate) fn tasks_of<'a>(alloc: Global, stage: &Stage<'a>) -> Result<OpenedTasks<'a>, RunFault>
    ensures { MatchResult result (HasPlansOf stage.now)
        (λ fault. (fault ≡ Memory) ⊎ IsStageFault (stage_of stage.now) fault) }
{
    all_fit(stage.source.grid.array_shape());
    all_fit(stage.target.grid.array_shape());
    let (from, into) = (&stage.source.grid, &stage.target.grid);
    let at = stage.at.as_slice();
    Ok(tasks_by(
        alloc,
        stage.order,
        from,
        into,
        &stage.region,
        at,
        stage.each,
    )?)
}

/// Sends the lines of a share of all tasks that a walk gives, which is at its beginning. A task is left out if all chunks that it writes are known to be stored,
/// and would be written whole.
pub(crate) fn write_share<W: Write>(
    alloc: Global,
    mut walk: OpenedTasks<'_>,
    source: &OpenedArray,
    target: &OpenedArray,
    share: &Share,
    stored: Option<&StoredChunks>,
    sink: &mut Sink<W>,
) -> Result<(), RunFault>
    requires can { CanGive dimensions_in walk }
    requires have { HavePlans source.now target.now walk (groups_to_come walk) }
    requires all { all_groups walk ≡ groups_to_come walk }
    ensures { StepLeaves
        (λ text. (plans : List TaskPlan) × PlansToCome source.now target.now walk.entry plans
        × (text ≡ share_unless_stored (option_map (λ s. s.now) stored.entry) share.now plans))
        (λ _. ⊥) result
        (written W.contents sink.old) (written W.contents sink.new) }
{
    let first = walk.share(share)?;
    write_tasks(alloc, walk, source, target, first, stored, sink)
}

/// Sends a line for each task that a walk has left; the first one has the number `first`. The line of a task is left out of which all chunks are known to be
/// stored, and would be written whole.
fn write_tasks<W: Write>(
    alloc: Global,
    walk: OpenedTasks<'_>,
    source: &OpenedArray,
    target: &OpenedArray,
    first: Option<u64>,
    stored: Option<&StoredChunks>,
    sink: &mut Sink<W>,
) -> Result<(), RunFault>
    requires can { CanGive dimensions_in walk }
    requires have { HavePlans source.now target.now walk (groups_to_come walk) }
    ensures { (begin : ℕ) → first ≡ counted begin → StepLeaves
        (λ text. (plans : List TaskPlan) × PlansToCome source.now target.now walk.entry plans
        × (text ≡ lines_from (λ number. line_unless_stored
        (option_map (λ s. s.now) stored.entry) (counted number)
        (counted (length (all_groups walk.entry)))) begin plans))
        (λ _. ⊥) result
        (written W.contents sink.old) (written W.contents sink.new) }
{
    let of = walk.in_all();
    let mut number = first;
    for task in walk {
        write_task(alloc, source, target, &task?, number, of, stored, sink)?;
        number = next_number(number);
    }
    Ok(())
}

/// Sends the line of one task, unless all chunks that it writes are known to be stored, and would be written whole.
fn write_task<W: Write>(
    alloc: Global,
    source: &OpenedArray,
    target: &OpenedArray,
    task: &Task,
    number: Option<u64>,
    of: Option<u64>,
    stored: Option<&StoredChunks>,
    sink: &mut Sink<W>,
) -> Result<(), RunFault>
    ensures { StepLeaves
        (λ text. (plan : TaskPlan) × (plan.0 ≡ task.now) × HasPartsOf source.now target.now plan
        × (text ≡ line_unless_stored (option_map (λ s. s.now) stored.entry) number of plan))
        (λ _. ⊥) result
        (written W.contents sink.old) (written W.contents sink.new) }
{
    task.source.is_a_box();
    task.target.is_a_box();
    let from = found_or_out_of_memory(parts(alloc, &source.grid, &source.encoding, &task.source))?;
    let into = found_or_out_of_memory(parts(alloc, &target.grid, &target.encoding, &task.target))?;
    let left_out = is_left_out(alloc, target, &task.target, stored)?;
    if left_out {
        return Ok(());
    }
    let begin = task_begin(alloc, task.source.shape());
    write_items(alloc, begin, from, Form::Overlap(false), sink)?;
    let middle = task_middle(alloc, number, of);
    write_items(alloc, middle, into, Form::Overlap(true), sink)?;
    send_text(task_end(alloc), sink)
}

/// Whether all chunks that hold some of a box of elements are known to be stored, and would be written whole.
///
/// # Errors
/// Out of memory.
fn is_left_out(
    alloc: Global,
    target: &OpenedArray,
    elements: &ArraySubset,
    stored: Option<&StoredChunks>,
) -> Result<bool, AllocError>
    ensures { IfOk result (λ is. (plan : TaskPlan)
        → IsPlan (dimensions_of target.now) (key_of target.now) elements.now plan.1.1
        → is ≡ left_out (option_map (λ s. s.now) stored.entry) plan) }
{
    let Some(stored) = stored else {
        return Ok(false);
    };
    elements.is_a_box();
    let into = found_or_out_of_memory(parts(alloc, &target.grid, &target.encoding, elements))?;
    all_stored(into, stored)
}

/// Whether each chunk of which a walk has a part left is known to be stored, and has all its elements in that part.
///
/// # Errors
/// Out of memory.
fn all_stored(walk: OpenedParts<'_>, stored: &StoredChunks) -> Result<bool, AllocError>
    requires meet { CanGiveParts walk }
    ensures { IfOk result (λ are. (parts : List PartValue) → PartsToCome walk.entry parts
        → are ≡ are_stored stored.now parts) }
{
    for part in walk {
        let stands = is_stored_whole(&part?, stored);
        if !stands {
            return Ok(false);
        }
    }
    Ok(true)
}

/// Whether a chunk is known to be stored, and has all its elements in this part.
fn is_stored_whole(part: &Part, stored: &StoredChunks) -> bool
    ensures { result ≡ is_stored_whole stored.now part.now }
{
    part.whole && stored.has(&part.chunk)
}

/// Sends a text, and after it the parts that a walk has left as the items of a list.
fn write_items<W: Write>(
    alloc: Global,
    before: Result<Vec<u8>, AllocError>,
    walk: OpenedParts<'_>,
    form: Form,
    sink: &mut Sink<W>,
) -> Result<(), RunFault>
    requires meet { CanGiveParts walk }
    requires is_box { IsBox walk.array_subset }
    ensures { StepLeaves
        (λ text. (first : List ℕ) × (parts : List PartValue) × IsMade before first
        × PartsToCome walk.entry parts
        × (text ≡ first ++ lines_from (λ number. text_as form (counted number)) 0 parts))
        (λ _. ⊥) result
        (written W.contents sink.old) (written W.contents sink.new) }
{
    send_text(before, sink)?;
    write_parts(alloc, walk, form, Some(0), sink)
}
