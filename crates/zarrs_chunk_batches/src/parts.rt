//! Parts of a plan that are written one after another.
ghost use Rattle.std.specs.List.{AllByRecursion};
ghost use Rattle.std.specs.Prelude.{◌≡◌, ℕ, ◌+◌, ◌<◌, IfErr, IfOk, MatchOption, drop, length, string_bytes};
ghost use Rattle.zarrs_chunk_base.specs.ArraySubset.{IsBox};
ghost use Rattle.zarrs_chunk_batches.specs.Batch.{AreTexts};
ghost use Rattle.zarrs_chunk_batches.specs.Parts.{AreListsKept, AreSameBuffers};
ghost use Rattle.zarrs_chunk_batches.specs.declared.codes.Fault.TheVariants.{Memory};
ghost use Rattle.zarrs_chunk_batches.specs.seen.Parts.{AreWrittenBelow, HasLists, IsKeyOf, IsLongPart, IsWritten};
ghost use Rattle.zarrs_chunk_parts.specs.declared.part.Part.{Part};
ghost use Rattle.zarrs_chunk_plan.specs.SomeParts.{AreSomeParts};
ghost use Rattle.zarrs_chunk_prepared.specs.LookedUp.{HasNoCover};

use crate::codes::Fault;
use crate::keys::byte_length;
use crate::lists::write_list;
use crate::structs::PartBuffers;
use std::alloc::{AllocError, Global};
use zarrs_chunk_base::ArraySubset;
use zarrs_chunk_keys::ChunkKeyEncodingTraits;
use zarrs_chunk_plan::{Part, SomeParts, some_parts};
use zarrs_chunks::ChunkGridTraits;

/// Parts of the plan of reading a box of elements, from the one with the number `first` on, at most so many; `None` where the box has no cover.
///
/// # Errors
/// Out of memory.
pub(crate) fn find_parts<G: ChunkGridTraits, E: ChunkKeyEncodingTraits>(
    alloc: Global,
    grid: &G,
    encoding: &E,
    elements: &ArraySubset,
    first: u64,
    most: usize,
) -> Result<Option<SomeParts>, Fault>
    requires { length elements.now.start ≡ length (G.dimensions grid.now) }
    ensures parts { IfOk result (λ found. MatchOption found
        (HasNoCover (G.dimensions grid.now) elements.now)
        (λ some. AreSomeParts (G.dimensions grid.now) (E.is_key encoding.now) elements.now
        first most some.in_all some.parts.items)) }
    ensures is_box { IsBox elements.now }
    ensures refused { IfErr result (λ fault. fault ≡ Memory) }
{
    elements.is_a_box();
    Ok(some_parts(alloc, grid, encoding, elements, first, most)?)
}

/// Writes of each part where it lies: the chunk's numbers, where the part begins in the chunk and in the box that is read, and its shape.
pub(crate) fn write_parts(parts: &[Part], width: usize, buffers: &mut PartBuffers)
    requires room { (k : ℕ) → k < length parts.now → HasLists width buffers.old k }
    requires long { AllByRecursion (IsLongPart width) parts.now }
    ensures written { AreWrittenBelow (length parts.now) width parts.now buffers.new }
    ensures behind { AreListsKept width (length parts.now) buffers.old buffers.new }
    ensures same_buffers { AreSameBuffers buffers.old buffers.new }
    ensures text_kept { buffers.new.text.now ≡ buffers.old.text.now }
    ensures offsets_kept { buffers.new.offsets ≡ buffers.old.offsets }
{
    for (number, part) in parts.iter().enumerate() {
        write_part(part, width, number, buffers);
    }
}

/// Writes where a part lies, behind the parts with a smaller number.
fn write_part(part: &Part, width: usize, number: usize, buffers: &mut PartBuffers)
    requires room { HasLists width buffers.old number }
    requires long { IsLongPart width part.now }
    ensures written { IsWritten width part.now buffers.new number }
    ensures earlier { (k : ℕ) → k < number → (p : Part)
        → IsWritten width p buffers.old k → IsWritten width p buffers.new k }
    ensures behind { AreListsKept width (number + 1) buffers.old buffers.new }
    ensures same_buffers { AreSameBuffers buffers.old buffers.new }
    ensures text_kept { buffers.new.text.now ≡ buffers.old.text.now }
    ensures offsets_kept { buffers.new.offsets ≡ buffers.old.offsets }
{
    write_list(buffers.chunks, width, number, part.chunk.as_slice());
    write_list(buffers.in_chunk, width, number, part.in_chunk.start());
    write_list(
        buffers.in_selection,
        width,
        number,
        part.in_selection.start(),
    );
    write_list(buffers.shapes, width, number, part.in_chunk.shape());
}

/// The keys of parts, one after another. Where each begins, and at last where the last one ends, is written as offsets in bytes.
///
/// # Errors
/// Out of memory.
pub(crate) fn join_keys(
    alloc: Global,
    parts: &[Part],
    offsets: &mut [u64],
) -> Result<String, AllocError>
    requires { length parts.now < length offsets.old }
    ensures keys { IfOk result (λ keys. AreTexts (IsKeyOf parts.now) (length parts.now)
        (string_bytes keys) offsets.new) }
    ensures behind { IfOk result (λ _. drop (length parts.now + 1) offsets.new
        ≡ drop (length parts.now + 1) offsets.old) }
{
    let mut keys = String::new(alloc);
    offsets[0] = 0;
    for (number, part) in parts.iter().enumerate() {
        keys.push_str(part.key.as_str())?;
        offsets[number + 1] = byte_length(keys.as_str());
    }
    Ok(keys)
}
