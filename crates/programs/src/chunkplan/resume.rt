//! What a plan still has to write where a store has some of it.
ghost use Rattle.std.specs.Prelude.{◌≡◌, ◌⊎◌, ◌<◌, ◌≤◌, ◌^◌};
ghost use Rattle.programs.specs.chunkplan.Common.{[], ℕ, Box, List, MatchResult, Memory, Some, TooManyForKeys, has_failed, left, length, moved, watched, written};
ghost use Rattle.zarrs_chunks.specs.Walks.{chunks_in};
ghost use Rattle.zarrs_chunk_parts.specs.Plan.{Covers};
ghost use Rattle.zarrs_chunk_plan.specs.seen.StoredChunks.{Knows};
ghost use Rattle.programs.specs.chunkplan.Document.{AsksForLinesOfCopy, copying_of, document_of};
ghost use Rattle.programs.specs.chunkplan.Planned.{copy_beside, missing_text, text_beside};
ghost use Rattle.programs.specs.chunkplan.Stages.{HasStageTasks};
ghost use Rattle.programs.specs.chunkplan.seen.Opened.{array_in, dimensions_of, key_of};
ghost use Rattle.programs.specs.chunkplan.seen.Reads.{ReadFailsAfter};
ghost use Rattle.programs.specs.chunkplan.seen.Routes.{stage_of};
ghost use Rattle.programs.specs.chunkplan.seen.Steps.{ReadLeaves};

use crate::chunkplan::RunFault;
use crate::chunkplan::copying::send_text;
use crate::chunkplan::document::{Copying, Document, Task, Wanted};
use crate::chunkplan::keys::note_keys;
use crate::chunkplan::opened::OpenedArray;
use crate::chunkplan::plan::{open_target, target_shape};
use crate::chunkplan::route::Stage;
use crate::chunkplan::stages::{asked_stage, find_route, stages_of};
use crate::chunkplan::task_lines::{tasks_of, write_share};
use std::alloc::Global;
use std::io::{Read, Write};
use streams::{Lines, Sink, Watched};
use zarrs_chunk_parts::found_or_out_of_memory;
use zarrs_chunk_plan::{Share, StoredChunks, moved_box, parts};

/// Reads the keys behind a document, and sends the lines that it asks for of what isn't stored under any of them; and behind these the line of each
/// key that is none of the target's.
///
/// # Errors
/// Those of a plan; the plan has too many lines; a read failed; a key is no text; a write failed; or out of memory. Nothing has been written where it
/// is none of the last two.
pub(crate) fn write_beside_keys<R: Read, W: Write>(
    alloc: Global,
    document: Document,
    lines: &mut Lines,
    reader: &mut Watched<R>,
    sink: &mut Sink<W>,
) -> Result<(), RunFault>
    requires { AsksForLinesOfCopy (document_of document) }
    ensures leaves { (bytes : List ℕ)
        → left lines.old (R.remaining (watched reader.old)) ≡ Some bytes
        → ReadLeaves (text_beside (document_of document) bytes) result
        (has_failed reader.old) (has_failed reader.new) (R.remaining (watched reader.new))
        (written W.contents sink.old) (written W.contents sink.new) }
    ensures keys_last { ReadFailsAfter (text_beside (document_of document) []) result }
{
    let Document {
        shape,
        wanted,
        stored,
        task,
        ..
    } = document;
    let array = stored.array(alloc, &shape)?;
    drop(stored);
    match (task, wanted) {
        (Task::Copy(target, copying), Wanted::Lines(share)) => {
            let target = open_target(alloc, target, target_shape(&copying.selection, &shape))?;
            write_copy(alloc, &array, &target, copying, &share, lines, reader, sink)
        }
        // Never: keys stand behind a copy whose lines are asked for.
        _ => unreachable!(),
    }
}

/// As `write_beside_keys`, of a copy to a target.
fn write_copy<R: Read, W: Write>(
    alloc: Global,
    array: &OpenedArray,
    target: &OpenedArray,
    copying: Copying,
    share: &Share,
    lines: &mut Lines,
    reader: &mut Watched<R>,
    sink: &mut Sink<W>,
) -> Result<(), RunFault>
    ensures leaves { (bytes : List ℕ)
        → left lines.old (R.remaining (watched reader.old)) ≡ Some bytes
        → ReadLeaves (copy_beside (copying_of copying) share.now bytes (array_in array.now)
        (array_in target.now)) result
        (has_failed reader.old) (has_failed reader.new) (R.remaining (watched reader.new))
        (written W.contents sink.old) (written W.contents sink.new) }
    ensures keys_last { ReadFailsAfter (copy_beside (copying_of copying) share.now []
        (array_in array.now) (array_in target.now)) result }
{
    let asked = copying.choice.stage();
    let found = find_route(alloc, array, target, copying)?;
    let stages = stages_of(alloc, array, target, &found)?;
    let stage = asked_stage(&stages, asked)?;
    write_missing(alloc, stage, share, lines, reader, sink)
}

/// Reads the keys in the lines that a reader has left, and sends the lines of a share of a stage's tasks. A task is left out if all its chunks are stored under
/// one of the keys, and would be written whole.
fn write_missing<R: Read, W: Write>(
    alloc: Global,
    stage: &Stage<'_>,
    share: &Share,
    lines: &mut Lines,
    reader: &mut Watched<R>,
    sink: &mut Sink<W>,
) -> Result<(), RunFault>
    ensures leaves { (bytes : List ℕ)
        → left lines.old (R.remaining (watched reader.old)) ≡ Some bytes
        → ReadLeaves (missing_text share.now bytes (stage_of stage.now)) result
        (has_failed reader.old) (has_failed reader.new) (R.remaining (watched reader.new))
        (written W.contents sink.old) (written W.contents sink.new) }
    ensures keys_last { ReadFailsAfter (missing_text share.now [] (stage_of stage.now)) result }
{
    let walk = tasks_of(alloc, stage)?;
    let mut stored = none_stored(alloc, stage)?;
    let mut unexpected = Vec::new(alloc);
    note_keys(
        alloc,
        stage.target,
        &mut stored,
        &mut unexpected,
        lines,
        reader,
    )?;
    write_share(
        alloc,
        walk,
        stage.source,
        stage.target,
        share,
        Some(&stored),
        sink,
    )?;
    send_text(Ok(unexpected), sink)
}

/// Returns marks for the chunks that a stage writes: no chunk is known to be stored.
///
/// # Errors
/// The stage has no tasks; it writes too many chunks; or out of memory.
fn none_stored(alloc: Global, stage: &Stage<'_>) -> Result<StoredChunks, RunFault>
    requires has { HasStageTasks (stage_of stage.now) }
    ensures { MatchResult result
        (λ stored. (cover : Box) × Covers (dimensions_of stage.now.target.now)
        (moved stage.now.at.items stage.now.region) cover × (length (chunks_in cover) < 2 ^ 29)
        × Knows (dimensions_of stage.now.target.now) (key_of stage.now.target.now)
        (chunks_in cover) [] stored)
        (λ fault. (fault ≡ Memory) ⊎ ((fault ≡ TooManyForKeys)
        × (cover : Box) × Covers (dimensions_of stage.now.target.now)
        (moved stage.now.at.items stage.now.region) cover
        × (2 ^ 29 ≤ length (chunks_in cover)))) }
{
    let (source, target) = (stage.source, stage.target);
    let moved = moved_box(alloc, &source.grid, &target.grid, &stage.region, &stage.at)?;
    moved.is_a_box();
    let into = found_or_out_of_memory(parts(alloc, &target.grid, &target.encoding, &moved))?;
    match into.none_stored(alloc)? {
        Some(stored) => Ok(stored),
        None => Err(RunFault::TooManyForKeys),
    }
}
