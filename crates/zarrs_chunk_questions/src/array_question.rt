//! What is asked of the grid of an array, and what answers it.
ghost use Rattle.std.specs.Prelude.{◌≡◌, ◌+◌, Err, IfOk, IsSome, MatchResult, None, Ok, Some, length};
ghost use Rattle.serde_json.specs.View.{view};
ghost use Rattle.zarrs_chunk_base.specs.Refusal.{OrMemory};
ghost use Rattle.zarrs_chunk_keys.specs.ChunkKey.{Encoding};
ghost use Rattle.zarrs_chunk_keys.specs.KeyKinds.{IsEncodingIn};
ghost use Rattle.zarrs_chunks.specs.GridKinds.{IsGridIn};
ghost use Rattle.zarrs_chunks.specs.seen.Grids.{grid_in, kind_in};
ghost use Rattle.zarrs_chunk_questions.specs.Answers.{IsArrayAnswer, IsLocatedAnswer};
ghost use Rattle.zarrs_chunk_questions.specs.Pages.{IsSomePartsAnswer, walk_tree};
ghost use Rattle.zarrs_chunk_questions.specs.Question.{items_asked, of_array};
ghost use Rattle.zarrs_chunk_questions.specs.Refused.{HasNoCounts, HasNoTasks, IsArrayRefusal, IsCopyRefusal, IsLocatedRefusal, IsSomePartsRefusal};
ghost use Rattle.zarrs_chunk_questions.specs.Tasks.{IsSomeTasksAnswer, IsTaskCountsAnswer};
ghost use Rattle.zarrs_chunk_questions.specs.seen.Lines.{IsGiven};
ghost use Rattle.zarrs_chunk_questions.specs.seen.Read.{asked_of, copy_asked_of, items_of, lists_of, share_of};

use crate::asked::{Asked, CopyAsked, Items, Lists};
use crate::call::WalkOf;
use crate::changed::answer_changed;
use crate::copying::Copying;
use crate::counting::counts_of;
use crate::extensions::{box_of, make_encoding};
use crate::grid_answers::{answer_alone, answer_box, answer_numbers};
use crate::limits::Limits;
use crate::line_fault::LineFault;
use crate::pages::{items_from, parts_from};
use crate::rectilinear_answers::{answer_counted, answer_runs, expect_rectilinear};
use crate::task_pages::tasks_from;
use crate::trees::{found, located_tree};
use crate::walk_items::items_of_walk;
use serde_json::Value;
use std::alloc::{AllocError, Global};
use zarrs_chunk_base::Refusal;
use zarrs_chunk_plan::Share;
use zarrs_chunks::{ChunkGrid, ChunkGridTraits, locate};

/// What the grid of an array with this shape answers, which the tree is the metadata of; `None` where its items are longer than there is room
/// for.
///
/// # Errors
/// The first that applies: the grid's kind hasn't the call; an encoding, a target, a box or a grid of another shape that the call is asked of can't
/// be made, in this order; the call refuses. Or out of memory.
pub(crate) fn answer_asked(
    alloc: Global,
    shape: &[u64],
    chunk_grid: &Value,
    grid: ChunkGrid,
    asked: Asked<'_>,
    room: usize,
) -> Result<Option<Value>, Refusal<LineFault>>
    requires { IsGridIn (view chunk_grid.now) shape.now (kind_in grid) (grid_in grid) }
    ensures answer { MatchResult result (IsGiven (room + 1)
        (IsArrayAnswer shape.now (view chunk_grid.now) (asked_of asked.entry) (kind_in grid)
        (grid_in grid)))
        (OrMemory (IsArrayRefusal shape.now (view chunk_grid.now) (asked_of asked.entry)
        (kind_in grid) (grid_in grid))) }
    ensures long { IfOk result (λ found. found ≡ None → IsSome
        (items_asked (of_array shape.now (view chunk_grid.now) (asked_of asked.entry)))) }
{
    match asked {
        Asked::OfGrid(call) => Ok(Some(answer_alone(alloc, call, &grid)?)),
        Asked::OfNumbers(call, numbers) => there(answer_numbers(alloc, call, &grid, &numbers)),
        Asked::OfBox(call, lists) => match box_of(lists) {
            Ok(subset) => there(answer_box(alloc, call, &grid, &subset)),
            Err(fault) => Err(Refusal::Refused(fault)),
        },
        Asked::OfWalk(walk, items) => Ok(some_items(alloc, &grid, walk, items, room)?),
        Asked::Runs(dimension) => {
            let grid = expect_rectilinear(alloc, "runs", grid)?;
            Ok(Some(answer_runs(&grid, dimension)))
        }
        Asked::Counted(index) => {
            let grid = expect_rectilinear(alloc, "chunk_indices_counted", grid)?;
            there(answer_counted(alloc, &grid, &index))
        }
        Asked::Located(encoding, index) => { there(answer_located(alloc, &grid, encoding, &index)) }
        Asked::Parts(encoding, items, lists) => {
            some_parts(alloc, &grid, encoding, items, lists, room)
        }
        Asked::Tasks(encoding, copy, items) => {
            some_tasks(alloc, shape, grid, encoding, copy, items, room)
        }
        Asked::TaskCounts(encoding, copy, share) => {
            there(answer_counts(alloc, shape, grid, encoding, copy, share))
        }
        Asked::ChangedChunks(resize) => there(answer_changed(alloc, &grid, chunk_grid, &resize)),
    }
}

/// An answer that there is room for, whatever it is.
fn there(answer: Result<Value, Refusal<LineFault>>) -> Result<Option<Value>, Refusal<LineFault>>
    ensures { MatchResult answer (λ tree. result ≡ Ok (Some tree)) (λ fault. result ≡ Err fault) }
{
    match answer {
        Ok(tree) => Ok(Some(tree)),
        Err(fault) => Err(fault),
    }
}

/// Where the grid's array stores an element.
///
/// # Errors
/// The first that applies: the encoding can't be made; there are more or fewer indices than dimensions. Or out of memory.
fn answer_located(
    alloc: Global,
    grid: &ChunkGrid,
    encoding_tree: &Value,
    index: &[u64],
) -> Result<Value, Refusal<LineFault>>
    ensures { MatchResult result
        (λ tree. (encoding : Encoding) × IsEncodingIn (view encoding_tree.now) encoding
        × IsLocatedAnswer (grid_in grid.now) encoding index.now (view tree))
        (OrMemory (IsLocatedRefusal (view encoding_tree.now) (length index.now)
        (length (grid_in grid.now).dimensions))) }
{
    let encoding = make_encoding(alloc, encoding_tree)?;
    match found(locate(alloc, grid, &encoding, index))? {
        Some(located) => Ok(located_tree(alloc, &located)?),
        None => Ok(Value::Null),
    }
}

/// Some of the items of a walk; `None` where they are longer than there is room for.
///
/// # Errors
/// Out of memory.
fn some_items(
    alloc: Global,
    grid: &ChunkGrid,
    walk: WalkOf,
    items: Items,
    room: usize,
) -> Result<Option<Value>, AllocError>
    ensures { IfOk result (IsGiven (room + 1)
        (λ tree. tree ≡ walk_tree walk (grid_in grid.now).dimensions (items_of items))) }
{
    let limits = Limits::new(items.most, walk.lists(), grid.dimensionality(), room);
    match items.first {
        Some(first) => items_from(alloc, grid, walk, first, &limits),
        None => items_of_walk(alloc, grid, walk, &limits),
    }
}

/// Some of the parts of the plan of reading a box of elements of the grid's array; `None` where they are longer than there is room for.
///
/// # Errors
/// The first that applies: the encoding can't be made; the start and the shape make no box; the box has another number of dimensions. Or out of
/// memory.
fn some_parts(
    alloc: Global,
    grid: &ChunkGrid,
    encoding_tree: &Value,
    items: Items,
    lists: Lists,
    room: usize,
) -> Result<Option<Value>, Refusal<LineFault>>
    ensures { MatchResult result (IsGiven (room + 1) (IsSomePartsAnswer
        (view encoding_tree.now) (items_of items) (lists_of lists) (grid_in grid.now)))
        (OrMemory (IsSomePartsRefusal (view encoding_tree.now) (lists_of lists)
        (grid_in grid.now))) }
{
    let encoding = make_encoding(alloc, encoding_tree)?;
    let elements = match box_of(lists) {
        Ok(elements) => elements,
        Err(fault) => return Err(Refusal::Refused(fault)),
    };
    let limits = Limits::new(items.most, 5, grid.dimensionality(), room);
    let first = items.first.unwrap_or(0);
    parts_from(alloc, grid, &encoding, &elements, first, &limits)
}

/// Some of the tasks of a copy of the grid's array, which has this shape; `None` where they are longer than there is room for.
///
/// # Errors
/// The first that applies: the encoding can't be made; the target's grid or its encoding; the start and the shape make no box; the copy has no tasks. Or
/// out of memory.
fn some_tasks(
    alloc: Global,
    shape: &[u64],
    grid: ChunkGrid,
    encoding_tree: &Value,
    copy: CopyAsked<'_>,
    items: Items,
    room: usize,
) -> Result<Option<Value>, Refusal<LineFault>>
    ensures { MatchResult result (IsGiven (room + 1) (IsSomeTasksAnswer shape.now
        (view encoding_tree.now) (copy_asked_of copy.entry) (items_of items) (grid_in grid)))
        (OrMemory (IsCopyRefusal HasNoTasks shape.now (view encoding_tree.now)
        (copy_asked_of copy.entry) (grid_in grid))) }
{
    let limits = Limits::new(items.most, 5, grid.dimensionality(), room);
    let copying = Copying::new(alloc, shape, grid, encoding_tree, copy)?;
    tasks_from(alloc, &copying, items.first.unwrap_or(0), &limits)
}

/// How much the tasks of a copy of the grid's array read and write, which has this shape, and which of them a share has.
///
/// # Errors
/// As of [`some_tasks`]; or there are too many chunks to count the tasks.
fn answer_counts(
    alloc: Global,
    shape: &[u64],
    grid: ChunkGrid,
    encoding_tree: &Value,
    copy: CopyAsked<'_>,
    share: Share,
) -> Result<Value, Refusal<LineFault>>
    ensures { MatchResult result (λ tree. IsTaskCountsAnswer shape.now (view encoding_tree.now)
        (copy_asked_of copy.entry) (share_of share) (grid_in grid) (view tree))
        (OrMemory (IsCopyRefusal HasNoCounts shape.now (view encoding_tree.now)
        (copy_asked_of copy.entry) (grid_in grid))) }
{
    let copying = Copying::new(alloc, shape, grid, encoding_tree, copy)?;
    counts_of(alloc, &copying, &share)
}
