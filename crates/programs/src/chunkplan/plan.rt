//! The plan that a document asks for.
ghost use Rattle.std.specs.Prelude.{◌≡◌, ◌⊎◌};
ghost use Rattle.programs.specs.chunkplan.Common.{IfErr, IfOk, None, length, option_map, unwrap_or, grid_in, array_box, AreResized, IsReadOr};
ghost use Rattle.programs.specs.chunkplan.Common.{stored_of, Memory, written};
ghost use Rattle.programs.specs.chunkplan.CountsLine.{IsCountsLine};
ghost use Rattle.programs.specs.chunkplan.Document.{copying_of, counts_wanted, document_of, lines_wanted, ranges_asked_of, selection_of, wanted_of};
ghost use Rattle.programs.specs.chunkplan.Planned.{IsAsked, IsReadFault, IsResizeText, asked_text, copy_text, read_text, resized_in, target_in, target_shape};
ghost use Rattle.programs.specs.chunkplan.Planned.{text_of};
ghost use Rattle.programs.specs.chunkplan.RunFault.{of_target as fault_of_target};
ghost use Rattle.programs.specs.chunkplan.seen.Opened.{array_in, dimensions_in, dimensions_of, sizes_of};
ghost use Rattle.programs.specs.chunkplan.seen.Steps.{Leaves, StepLeaves};

use crate::chunkplan::RunFault;
use crate::chunkplan::copying::{send_text, write_changes, write_parts};
use crate::chunkplan::counting::{counts_line, stages_line};
use crate::chunkplan::document::{Copying, Document, Selection, Task, Wanted};
use crate::chunkplan::line::Form;
use crate::chunkplan::opened::OpenedArray;
use crate::chunkplan::ranges::RangesAsked;
use crate::chunkplan::stages::{asked_stage, find_route, stages_of};
use crate::chunkplan::task_lines::write_stage;
use documents::{CreateFault, StorageMetadata};
use std::alloc::{AllocError, Global};
use std::io::Write;
use streams::Sink;
use zarrs_chunk_base::{ArraySubset, IncompatibleDimensionalityError, Refusal};
use zarrs_chunk_plan::laws::all_fit;
use zarrs_chunk_plan::{ReadCounts, Share, changes, counts_of_read, parts, whole_array};
use zarrs_chunks::{ChunkGrid, ChunkGridTraits};

/// Sends the plan that a document asks for, line by line.
///
/// # Errors
/// The grid or the encoding can't be made, or those of the target, or the grid of the new shape; the box has another number of dimensions, or no
/// cover, where it isn't clipped; the region doesn't fit the two arrays; no tasks fit, or there is no such stage, or there are several; a write failed; or
/// out of memory. Nothing has been written where it is none of the last two.
pub(crate) fn write_plan<W: Write>(
    alloc: Global,
    document: Document,
    sink: &mut Sink<W>,
) -> Result<(), RunFault>
    ensures { Leaves (text_of (document_of document)) result
        (written W.contents sink.old) (written W.contents sink.new) }
{
    let Document {
        shape,
        wanted,
        stored,
        task,
        ..
    } = document;
    let array = stored.array(alloc, &shape)?;
    match task {
        Task::Read {
            subset,
            clip,
            ranges,
        } => {
            drop(stored);
            let subset = or_whole_array(alloc, subset, &array.grid)?;
            write_read(alloc, &array, subset, clip, &ranges, &wanted, sink)
        }
        Task::Copy(target, copying) => {
            drop(stored);
            let target = open_target(alloc, target, target_shape(&copying.selection, &shape))?;
            write_copy(alloc, &array, &target, copying, &wanted, sink)
        }
        Task::Resize {
            shape,
            include_unchanged,
        } => {
            let after = resized_grid(alloc, stored, &shape)?;
            write_resize(alloc, &array, &after, include_unchanged, sink)
        }
    }
}

/// The shape of the target's array: the array's own, but for a region.
pub(crate) fn target_shape<'a>(selection: &'a Selection, own: &'a [u64]) -> &'a [u64]
    ensures { result.now ≡ target_shape (selection_of selection.now) own.now }
{
    match selection {
        Selection::Region(region) => region.shape.as_slice(),
        _ => own,
    }
}

/// The array as it is to be stored.
pub(crate) fn open_target(
    alloc: Global,
    stored: StorageMetadata,
    shape: &[u64],
) -> Result<OpenedArray, RunFault>
    ensures made { IsReadOr Memory array_in (target_in (stored_of stored) shape.now) result }
    ensures sizes { IfOk result (λ made. sizes_of made ≡ shape.now) }
{
    match stored.open(alloc, shape) {
        Ok(made) => Ok(made),
        Err(fault) => Err(of_target(fault)),
    }
}

/// The fault of a target that can't be made.
fn of_target(fault: CreateFault) -> RunFault
    ensures { result ≡ fault_of_target fault }
{
    match fault {
        CreateFault::Grid(error) => RunFault::TargetGrid(error),
        CreateFault::Encoding(error) => RunFault::TargetEncoding(error),
        CreateFault::Memory => RunFault::Memory,
    }
}

/// The grid that the array's metadata make of another shape.
fn resized_grid(
    alloc: Global,
    stored: StorageMetadata,
    shape: &[u64],
) -> Result<ChunkGrid, RunFault>
    ensures { IsReadOr Memory grid_in (resized_in (stored_of stored) shape.now) result }
{
    match ChunkGrid::from_metadata(alloc, &stored.chunk_grid, shape) {
        Ok(grid) => Ok(grid),
        Err(Refusal::Refused(error)) => Err(RunFault::ResizedGrid(error)),
        Err(Refusal::Memory(_)) => Err(RunFault::Memory),
    }
}

/// The box, or that of all elements of the array.
fn or_whole_array(
    alloc: Global,
    subset: Option<ArraySubset>,
    grid: &ChunkGrid,
) -> Result<ArraySubset, AllocError>
    ensures { IfOk result (λ b. b ≡ unwrap_or subset (array_box (dimensions_in grid.now))) }
{
    match subset {
        Some(subset) => Ok(subset),
        None => whole_array(alloc, grid),
    }
}

/// Sends what is wanted of the plan of reading a box of elements, as it is or clipped to the array.
fn write_read<W: Write>(
    alloc: Global,
    array: &OpenedArray,
    subset: ArraySubset,
    clip: bool,
    ranges: &Option<RangesAsked>,
    wanted: &Wanted,
    sink: &mut Sink<W>,
) -> Result<(), RunFault>
    ensures { Leaves (read_text (wanted_of wanted.now) clip (option_map ranges_asked_of ranges.now)
        (array_in array.now) subset) result
        (written W.contents sink.old) (written W.contents sink.new) }
{
    let asked = asked_box(alloc, &array.grid, subset, clip)?;
    write_asked(alloc, array, &asked, ranges, wanted, sink)
}

/// The box that is read for a box of elements: it itself, or what it has of the array, where it is clipped.
fn asked_box(
    alloc: Global,
    grid: &ChunkGrid,
    subset: ArraySubset,
    clip: bool,
) -> Result<ArraySubset, RunFault>
    ensures asked { IfOk result (IsAsked clip (dimensions_in grid.now) subset) }
    ensures refused { IfErr result (λ fault. (fault ≡ Memory)
        ⊎ IsReadFault clip (dimensions_in grid.now) subset fault) }
{
    if !clip {
        return Ok(subset);
    }
    match zarrs_chunk_plan::clip(alloc, grid, &subset) {
        Ok(clipped) => Ok(clipped),
        Err(Refusal::Refused(error)) => Err(RunFault::SubsetDimensionality(error)),
        Err(Refusal::Memory(_)) => Err(RunFault::Memory),
    }
}

/// Sends what is wanted of the plan of reading a box of elements as it is.
fn write_asked<W: Write>(
    alloc: Global,
    array: &OpenedArray,
    subset: &ArraySubset,
    ranges: &Option<RangesAsked>,
    wanted: &Wanted,
    sink: &mut Sink<W>,
) -> Result<(), RunFault>
    ensures { Leaves (asked_text (wanted_of wanted.now) (option_map ranges_asked_of ranges.now)
        (array_in array.now) subset.now) result
        (written W.contents sink.old) (written W.contents sink.new) }
{
    let dimensionality = subset.start().len();
    let expected = array.grid.dimensionality();
    if dimensionality != expected {
        let error = IncompatibleDimensionalityError::new(dimensionality, expected);
        return Err(RunFault::SubsetDimensionality(error));
    }
    match wanted {
        Wanted::Lines(share) => { write_parts_of(alloc, array, subset, ranges, share, sink) }
        Wanted::Counts => write_counts_of(alloc, array, subset, sink),
    }
}

/// Sends a share of the plan of reading a box of elements, which has as many dimensions as the grid.
fn write_parts_of<W: Write>(
    alloc: Global,
    array: &OpenedArray,
    subset: &ArraySubset,
    ranges: &Option<RangesAsked>,
    share: &Share,
    sink: &mut Sink<W>,
) -> Result<(), RunFault>
    requires lengths { length subset.now.start ≡ length (dimensions_of array.now) }
    ensures { Leaves (asked_text (lines_wanted share.now) (option_map ranges_asked_of ranges.now)
        (array_in array.now) subset.now) result
        (written W.contents sink.old) (written W.contents sink.new) }
{
    subset.is_a_box();
    match parts(alloc, &array.grid, &array.encoding, subset) {
        Ok(Some(mut walk)) => {
            let form = Form::Line(walk.in_all(), *ranges);
            let first = walk.share(share)?;
            write_parts(alloc, walk, form, first, sink)
        }
        Ok(None) => Err(RunFault::Uncovered),
        Err(Refusal::Refused(error)) => Err(RunFault::SubsetDimensionality(error)),
        Err(Refusal::Memory(_)) => Err(RunFault::Memory),
    }
}

/// Sends the counts of that plan.
fn write_counts_of<W: Write>(
    alloc: Global,
    array: &OpenedArray,
    subset: &ArraySubset,
    sink: &mut Sink<W>,
) -> Result<(), RunFault>
    requires lengths { length subset.now.start ≡ length (dimensions_of array.now) }
    ensures { Leaves (asked_text counts_wanted None (array_in array.now) subset.now) result
        (written W.contents sink.old) (written W.contents sink.new) }
{
    subset.is_a_box();
    match counts_of_read(alloc, array, subset) {
        Ok(Some(counts)) => write_counts(alloc, &counts, sink),
        Ok(None) => Err(RunFault::Uncovered),
        Err(Refusal::Refused(error)) => Err(RunFault::SubsetDimensionality(error)),
        Err(Refusal::Memory(_)) => Err(RunFault::Memory),
    }
}

/// Sends the line of a plan's counts.
fn write_counts<W: Write>(
    alloc: Global,
    counts: &ReadCounts,
    sink: &mut Sink<W>,
) -> Result<(), RunFault>
    ensures { StepLeaves (IsCountsLine counts.now) (λ _. ⊥) result
        (written W.contents sink.old) (written W.contents sink.new) }
{
    send_text(counts_line(alloc, counts), sink)
}

/// Sends the lines or the counts of a copy.
fn write_copy<W: Write>(
    alloc: Global,
    source: &OpenedArray,
    target: &OpenedArray,
    copying: Copying,
    wanted: &Wanted,
    sink: &mut Sink<W>,
) -> Result<(), RunFault>
    ensures { Leaves (copy_text (copying_of copying) (wanted_of wanted.now) (array_in source.now)
        (array_in target.now)) result
        (written W.contents sink.old) (written W.contents sink.new) }
{
    let asked = copying.choice.stage();
    let found = find_route(alloc, source, target, copying)?;
    let stages = stages_of(alloc, source, target, &found)?;
    match wanted {
        Wanted::Lines(share) => {
            let stage = asked_stage(&stages, asked)?;
            write_stage(alloc, stage, share, sink)
        }
        Wanted::Counts => {
            let line = stages_line(alloc, found.route.is_exact, &stages)?;
            send_text(Ok(line), sink)
        }
    }
}

/// Sends the plan of a resize: a line for each chunk that changes, or also for each that is kept.
fn write_resize<W: Write>(
    alloc: Global,
    array: &OpenedArray,
    after: &ChunkGrid,
    include_unchanged: bool,
    sink: &mut Sink<W>,
) -> Result<(), RunFault>
    requires resized { AreResized (dimensions_of array.now) (dimensions_in after.now) }
    ensures { StepLeaves (IsResizeText include_unchanged (array_in array.now) (grid_in after.now))
        (λ _. ⊥) result
        (written W.contents sink.old) (written W.contents sink.new) }
{
    all_fit(array.grid.array_shape());
    all_fit(after.array_shape());
    match changes(
        alloc,
        &array.grid,
        after,
        &array.encoding,
        include_unchanged,
    ) {
        Ok(walk) => write_changes(alloc, walk, sink),
        // Never: a resize keeps the number of dimensions.
        Err(Refusal::Refused(_)) => unreachable!(),
        Err(Refusal::Memory(_)) => Err(RunFault::Memory),
    }
}
