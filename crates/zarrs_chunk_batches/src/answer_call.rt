//! The call that answers any question, as text.
ghost use Rattle.std.specs.Prelude.{◌≡◌, drop};
ghost use Rattle.zarrs_chunk_batches.specs.Calls.{IsEndOf, IsKeptIfShort};
ghost use Rattle.zarrs_chunk_batches.specs.PlanCall.{answer_call};

use crate::buffers::write_front;
use crate::codes::Fault;
use std::alloc::Global;
use zarrs_chunk_questions::answer_within;

/// Writes the line that answers a question, and how long it is. A walk ends where its items alone are longer than the buffer; then the greatest
/// number tells that the length isn't known.
///
/// # Errors
/// The line is longer than its buffer; or out of memory.
pub fn answer_line(
    alloc: Global,
    question: &[u8],
    line: &mut [u8],
    needed: &mut usize,
) -> Result<(), Fault>
    ensures ends { IsEndOf (answer_call question.now line.new needed.new) result }
    ensures kept_if_short { IsKeptIfShort line.old line.new result }
    ensures kept_behind { drop needed.new line.new ≡ drop needed.new line.old }
{
    let Some(answer) = answer_within(alloc, question, line.len())? else {
        *needed = usize::MAX;
        return Err(Fault::Short);
    };
    write_front(&answer, line, needed)
}
