//! The call of the plan of reading a box.
ghost use Rattle.std.specs.Prelude.{◌≡◌, ◌⊎◌, ℕ, MatchResult, OnOk, drop, length};
ghost use Rattle.zarrs_chunk_batches.specs.Calls.{IfWritten, IsEndOf, IsKeptIfShort};
ghost use Rattle.zarrs_chunk_batches.specs.Parts.{AreKeptBehind, AreSameBuffers, IsPlanOf, IsPlanTooLong, IsRoomFor};
ghost use Rattle.zarrs_chunk_batches.specs.PlanCall.{HasRoom, IsUncounted, parts_call};
ghost use Rattle.zarrs_chunk_batches.specs.declared.codes.Fault.TheVariants.{Length, Memory, Short};

use crate::buffers::write_front;
use crate::codes::Fault;
use crate::lists::{check_lengths, count_of_texts};
use crate::metadata::{encoding_of, grid_of};
use crate::parts::{find_parts, join_keys, write_parts};
use crate::questions::box_of;
use crate::structs::{ElementBox, PartBuffers, StoredArray};
use std::alloc::Global;
use zarrs_chunk_base::ArraySubset;
use zarrs_chunk_keys::ChunkKeyEncodingTraits;
use zarrs_chunks::ChunkGridTraits;

/// Writes parts of the plan of reading a box of elements, from the one with the number `first` on, as many as there are offsets for; how many they
/// are, how many the plan has in all, how long the keys are together, even where their buffer is shorter, and whether the box has a plan.
///
/// # Errors
/// The first that applies: the grid can't be made; the encoding can't be; the lengths don't fit; the box ends past 18446744073709551615; the keys
/// are longer than their buffer. Or out of memory.
pub fn parts_of(
    alloc: Global,
    array: &StoredArray,
    elements: &ElementBox,
    first: u64,
    buffers: &mut PartBuffers,
) -> Result<(), Fault>
    ensures ends { IsEndOf (parts_call array.now elements.now first buffers.new) result }
    ensures none_counted { OnOk result (IsUncounted buffers.new) }
    ensures kept_if_short { IsKeptIfShort buffers.old.text.now buffers.new.text.now result }
    ensures kept_behind { drop buffers.new.needed buffers.new.text.now
        ≡ drop buffers.new.needed buffers.old.text.now }
    ensures parts_kept { IfWritten (AreKeptBehind (length array.now.shape.now)
        buffers.old buffers.new) result }
    ensures same_buffers { AreSameBuffers buffers.old buffers.new }
{
    let grid = grid_of(alloc, array.shape, array.chunk_grid)?;
    let encoding = encoding_of(alloc, array.chunk_key_encoding)?;
    let room = room_for(grid.dimensionality(), elements, buffers)?;
    let elements = box_of(alloc, elements.start, elements.shape)?;
    write_plan(alloc, &grid, &encoding, &elements, first, room, buffers)
}

/// How many parts there is room for, where a box has one list each.
///
/// # Errors
/// A buffer is longer or shorter than the others demand.
fn room_for(width: usize, elements: &ElementBox, buffers: &PartBuffers) -> Result<usize, Fault>
    ensures { MatchResult result (HasRoom width elements.now buffers.now)
        (λ fault. (fault ≡ Length)
        × ((room : ℕ) → ¬ HasRoom width elements.now buffers.now room)) }
{
    check_lengths(&[elements.start.len(), elements.shape.len()], width, 1)?;
    let totals = [
        buffers.chunks.len(),
        buffers.in_chunk.len(),
        buffers.in_selection.len(),
        buffers.shapes.len(),
    ];
    count_of_texts(buffers.offsets.len(), &totals, width)
}

/// Writes parts of the plan of reading a box of elements, as [`parts_of`] says.
///
/// # Errors
/// The keys are longer than their buffer; or out of memory.
fn write_plan<G: ChunkGridTraits, E: ChunkKeyEncodingTraits>(
    alloc: Global,
    grid: &G,
    encoding: &E,
    elements: &ArraySubset,
    first: u64,
    room: usize,
    buffers: &mut PartBuffers,
) -> Result<(), Fault>
    requires long { length elements.now.start ≡ length (G.dimensions grid.now) }
    requires room { IsRoomFor (length (G.dimensions grid.now)) buffers.old room }
    ensures ends { MatchResult result
        (λ _. IsPlanOf (G.dimensions grid.now) (E.is_key encoding.now)
        elements.now first buffers.new)
        (λ fault. (fault ≡ Memory) ⊎ ((fault ≡ Short)
        × IsPlanTooLong (G.dimensions grid.now) (E.is_key encoding.now)
        elements.now first buffers.new)) }
    ensures none_counted { OnOk result (IsUncounted buffers.new) }
    ensures kept_if_short { IsKeptIfShort buffers.old.text.now buffers.new.text.now result }
    ensures kept_behind { drop buffers.new.needed buffers.new.text.now
        ≡ drop buffers.new.needed buffers.old.text.now }
    ensures parts_kept { IfWritten (AreKeptBehind (length (G.dimensions grid.now))
        buffers.old buffers.new) result }
    ensures same_buffers { AreSameBuffers buffers.old buffers.new }
{
    let Some(some) = find_parts(alloc, grid, encoding, elements, first, room)? else {
        (buffers.needed, buffers.count, buffers.in_all, buffers.found) = (0, 0, 0, 0);
        return Ok(());
    };
    write_parts(&some.parts, grid.dimensionality(), buffers);
    let keys = join_keys(alloc, &some.parts, buffers.offsets)?;
    (buffers.count, buffers.in_all, buffers.found) = (some.parts.len(), some.in_all, 1);
    write_front(keys.as_bytes(), buffers.text, &mut buffers.needed)
}
