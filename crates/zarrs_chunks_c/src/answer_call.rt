//! The call that answers any question, as text.
ghost use Rattle.std.specs.Prelude.{◌≡◌, drop};
ghost use Rattle.zarrs_chunk_batches.specs.Calls.{IsEndOf, IsKeptIfShort};
ghost use Rattle.zarrs_chunk_batches.specs.Codes.{Ends};
ghost use Rattle.zarrs_chunk_batches.specs.PlanCall.{answer_call};

use std::alloc::Global;
use zarrs_chunk_batches::{answer_line, code_of};

/// The line that answers a question: an answer, or the words of a refusal.
#[unsafe(no_mangle)]
pub extern "C" fn zarrs_answer(
    alloc: Global,
    question: &[u8],
    line: &mut [u8],
    needed: &mut usize,
) -> i32
    ensures ends { Ends (IsEndOf (answer_call question.now line.new needed.new)) result }
    ensures kept_if_short { Ends (IsKeptIfShort line.old line.new) result }
    ensures kept_behind { drop needed.new line.new ≡ drop needed.new line.old }
{
    code_of(answer_line(alloc, question, line, needed))
}
