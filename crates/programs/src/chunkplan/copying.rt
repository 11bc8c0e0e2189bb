//! The lines of a plan, sent as they are made.
ghost use Rattle.std.specs.Prelude.{◌≡◌, ◌⊎◌};
ghost use Rattle.programs.specs.chunkplan.Common.{ℕ, suc, List, AllByRecursion, IsBox, array_sizes, AllFit, counted, IsUsed, written};
ghost use Rattle.zarrs_chunk_parts.specs.declared.part.Part.{Part as PartValue};
ghost use Rattle.zarrs_chunk_plan.specs.declared.resize.plan.ChunkChange.{ChunkChange as ChangeValue};
ghost use Rattle.zarrs_chunk_plan.specs.seen.Changes.{AreChangesToCome, CanChange, all_changes, changes_to_come};
ghost use Rattle.programs.specs.chunkplan.Line.{lines_from, resize_lines};
ghost use Rattle.programs.specs.chunkplan.seen.Opened.{CanGiveParts, PartsToCome, dimensions_in, key_in};
ghost use Rattle.programs.specs.chunkplan.seen.Pieces.{text_as};
ghost use Rattle.programs.specs.chunkplan.seen.Steps.{IsMade, StepLeaves};

use crate::chunkplan::RunFault;
use crate::chunkplan::line::{Form, change_line, part_text};
use crate::chunkplan::opened::OpenedParts;
use std::alloc::{AllocError, Global};
use std::io::Write;
use streams::Sink;
use zarrs_chunk_keys::ChunkKeyEncoding;
use zarrs_chunk_plan::Changes;
use zarrs_chunks::ChunkGrid;

/// Sends the text of each part that a walk has left, in one form; the first one has the number `first`.
///
/// # Errors
/// A write failed, or out of memory. What was sent by then is a beginning of these texts.
pub(crate) fn write_parts<W: Write>(
    alloc: Global,
    walk: OpenedParts<'_>,
    form: Form,
    first: Option<u64>,
    sink: &mut Sink<W>,
) -> Result<(), RunFault>
    requires meet { CanGiveParts walk }
    requires is_box { IsBox walk.array_subset }
    ensures { (begin : ℕ) → first ≡ counted begin → StepLeaves
        (λ text. (parts : List PartValue) × PartsToCome walk.entry parts
        × (text ≡ lines_from (λ number. text_as form (counted number)) begin parts))
        (λ _. ⊥) result
        (written W.contents sink.old) (written W.contents sink.new) }
{
    let mut number = first;
    for part in walk {
        send_text(part_text(alloc, &part?, number, form), sink)?;
        number = next_number(number);
    }
    Ok(())
}

/// Sends a line for each change that a walk, which is at its beginning, has to give.
///
/// # Errors
/// As `write_parts`.
pub(crate) fn write_changes<W: Write>(
    alloc: Global,
    walk: Changes<'_, ChunkGrid, ChunkGrid, ChunkKeyEncoding>,
    sink: &mut Sink<W>,
) -> Result<(), RunFault>
    requires can { CanChange dimensions_in dimensions_in walk }
    requires used { AllByRecursion (λ chunk. IsUsed (dimensions_in walk.before.now) chunk
        ⊎ IsUsed (dimensions_in walk.after.now) chunk) (changes_to_come walk) }
    requires all { all_changes walk ≡ changes_to_come walk }
    requires fit { AllFit (array_sizes (dimensions_in walk.before.now)) }
    requires also_fit { AllFit (array_sizes (dimensions_in walk.after.now)) }
    ensures { StepLeaves
        (λ text. (changes : List ChangeValue)
        × AreChangesToCome dimensions_in dimensions_in key_in walk.entry changes
        × (text ≡ resize_lines changes))
        (λ _. ⊥) result
        (written W.contents sink.old) (written W.contents sink.new) }
{
    let of = walk.in_all();
    let mut number = Some(0);
    for change in walk {
        send_text(change_line(alloc, &change?, number, of), sink)?;
        number = next_number(number);
    }
    Ok(())
}

/// Sends a text that was made, if there was memory for it.
///
/// # Errors
/// As `write_parts`.
pub(crate) fn send_text<W: Write>(
    text: Result<Vec<u8>, AllocError>,
    sink: &mut Sink<W>,
) -> Result<(), RunFault>
    ensures { StepLeaves (IsMade text) (λ _. ⊥) result
        (written W.contents sink.old) (written W.contents sink.new) }
{
    sink.send(&text?)?;
    Ok(())
}

/// The number after this one.
pub(crate) fn next_number(number: Option<u64>) -> Option<u64>
    ensures { (n : ℕ) → number ≡ counted n → result ≡ counted (suc n) }
{
    match number {
        Some(number) => number.checked_add(1),
        None => None,
    }
}
