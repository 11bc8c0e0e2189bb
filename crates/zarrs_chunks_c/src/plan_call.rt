//! The call of the plan of reading a box.
ghost use Rattle.std.specs.Prelude.{◌≡◌, OnOk, drop, length};
ghost use Rattle.zarrs_chunk_batches.specs.Calls.{IfWritten, IsEndOf, IsKeptIfShort};
ghost use Rattle.zarrs_chunk_batches.specs.Codes.{Ends};
ghost use Rattle.zarrs_chunk_batches.specs.Parts.{AreKeptBehind, AreSameBuffers};
ghost use Rattle.zarrs_chunk_batches.specs.PlanCall.{IsUncounted, parts_call};

use std::alloc::Global;
use zarrs_chunk_batches::{ElementBox, PartBuffers, StoredArray, code_of, parts_of};

/// Parts of the plan of reading a box of elements, from one of them on, and how many the plan has.
#[unsafe(no_mangle)]
pub extern "C" fn zarrs_parts_of(
    alloc: Global,
    array: &StoredArray,
    elements: &ElementBox,
    first: u64,
    buffers: &mut PartBuffers,
) -> i32
    ensures ends { Ends (IsEndOf (parts_call array.now elements.now first buffers.new)) result }
    ensures none_counted { Ends (λ end. OnOk end (IsUncounted buffers.new)) result }
    ensures kept_if_short { Ends (IsKeptIfShort buffers.old.text.now buffers.new.text.now) result }
    ensures kept_behind { drop buffers.new.needed buffers.new.text.now
        ≡ drop buffers.new.needed buffers.old.text.now }
    ensures parts_kept { Ends (IfWritten (AreKeptBehind (length array.now.shape.now)
        buffers.old buffers.new)) result }
    ensures same_buffers { AreSameBuffers buffers.old buffers.new }
{
    code_of(parts_of(alloc, array, elements, first, buffers))
}
