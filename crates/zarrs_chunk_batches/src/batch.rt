//! A batch: many questions, each answered by two lists of numbers, or by none.
ghost use Rattle.std.specs.Prelude.{◌≡◌, ◌≢◌, ◌⊎◌, ℕ, ◌*◌, ◌<◌, List, IfErr, IfOk, OnOk, cond, false, length};
ghost use Rattle.zarrs_chunk_batches.specs.Batch.{AreAnswered, AreKept, list_at};
ghost use Rattle.zarrs_chunk_batches.specs.Calls.{AreQuestions, IsFirstWrong};
ghost use Rattle.zarrs_chunk_batches.specs.declared.codes.Fault.{Fault as AnyFault};
ghost use Rattle.zarrs_chunk_batches.specs.declared.codes.Fault.TheVariants.{Memory};
ghost use Rattle.zarrs_chunk_batches.specs.seen.Lists.{HasList};

use crate::codes::Fault;
use std::alloc::Global;

/// Questions, numbered from 0, of a grid or of an encoding.
pub(crate) trait Questions {
    /// How long the two lists of an answer are.
    ghost widths: { Self → ℕ × ℕ };

    /// The buffers have what is asked with this number.
    ghost given: { Self → ℕ → Type 0 };

    /// What is asked with this number is a question: it has an answer, or none.
    ghost is_question: { Self → ℕ → Type 0 };

    /// The fault of what isn't one.
    ghost fault: { Self → AnyFault };

    /// The two lists answer the question with this number.
    ghost answered: { Self → ℕ → List ℕ → List ℕ → Type 0 };

    /// The question with this number has no answer.
    ghost unanswered: { Self → ℕ → Type 0 };

    /// How long the two lists of an answer are.
    fn widths(&self) -> (usize, usize)
        ensures { result ≡ widths self.now };

    /// Writes the two lists that answer the question with this number, and answers whether there are any. Where there are none, nothing is written.
    ///
    /// # Errors
    /// What is asked is no question; or out of memory.
    fn answer(
        &self,
        alloc: Global,
        number: usize,
        first: &mut [u64],
        second: &mut [u64],
    ) -> Result<bool, Fault>
        requires given { given self.now number }
        requires first_long { length first.old ≡ (widths self.now).0 }
        requires second_long { length second.old ≡ (widths self.now).1 }
        ensures answers { IfOk result (λ found. cond found
            (answered self.now number first.new second.new)
            (unanswered self.now number)) }
        ensures kept { IfOk result (λ found. found ≡ false
            → (first.new ≡ first.old) × (second.new ≡ second.old)) }
        ensures asked { OnOk result (is_question self.now number) }
        ensures refused { IfErr result (λ told. (told ≡ Memory)
            ⊎ ((told ≡ fault self.now) × ¬ is_question self.now number)) };
}

/// Answers the questions that have a mark, in order. The answers go to lists of one length each, one after another, and each question's
/// mark becomes 1 where it has an answer, and else 0. The lists of a question without an answer stay as they were.
///
/// # Errors
/// Something that is asked is no question, and `wrong` tells which is the first such; or out of memory. What is written by then stays.
pub(crate) fn answer_all<Q: Questions>(
    alloc: Global,
    questions: &Q,
    first: &mut [u64],
    second: &mut [u64],
    found: &mut [u8],
    wrong: &mut usize,
) -> Result<(), Fault>
    requires given { AreQuestions (length found.old) (Q.given questions.now) }
    requires first_room { length first.old ≡ (Q.widths questions.now).0 * length found.old }
    requires second_room { length second.old ≡ (Q.widths questions.now).1 * length found.old }
    ensures answered { OnOk result (AreAnswered (Q.answered questions.now)
        (Q.unanswered questions.now) (Q.widths questions.now) first.new second.new found.new) }
    ensures first_kept { OnOk result (AreKept (Q.widths questions.now).0
        first.old first.new found.new) }
    ensures second_kept { OnOk result (AreKept (Q.widths questions.now).1
        second.old second.new found.new) }
    ensures asked { OnOk result (AreQuestions (length found.new) (Q.is_question questions.now)) }
    ensures refused { IfErr result (λ told. (told ≡ Memory) ⊎ ((told ≡ Q.fault questions.now)
        × IsFirstWrong (length found.new) (Q.is_question questions.now) wrong.new)) }
{
    let widths = questions.widths();
    for number in 0..found.len() {
        match answer_one(alloc, questions, widths, number, first, second) {
            Ok(is_found) => found[number] = mark_of(is_found),
            Err(fault) => {
                *wrong = number;
                return Err(fault);
            }
        }
    }
    Ok(())
}

/// Answers the question with this number, and writes the answer, if there is one, to the lists with this number.
///
/// # Errors
/// What is asked is no question; or out of memory.
fn answer_one<Q: Questions>(
    alloc: Global,
    questions: &Q,
    widths: (usize, usize),
    number: usize,
    first: &mut [u64],
    second: &mut [u64],
) -> Result<bool, Fault>
    requires given { Q.given questions.now number }
    requires widths { widths ≡ Q.widths questions.now }
    requires first_room { HasList widths.0 first.old number }
    requires second_room { HasList widths.1 second.old number }
    ensures answered { IfOk result (λ found. cond found
        (Q.answered questions.now number (list_at widths.0 first.new number)
        (list_at widths.1 second.new number)) (Q.unanswered questions.now number)) }
    ensures asked { OnOk result (Q.is_question questions.now number) }
    ensures refused { IfErr result (λ told. (told ≡ Memory)
        ⊎ ((told ≡ Q.fault questions.now) × ¬ Q.is_question questions.now number)) }
    ensures first_kept { IfOk result (λ found. found ≡ false → first.new ≡ first.old) }
    ensures second_kept { IfOk result (λ found. found ≡ false → second.new ≡ second.old) }
    ensures other_first { (k : ℕ) → k ≢ number
        → list_at widths.0 first.new k ≡ list_at widths.0 first.old k }
    ensures other_second { (k : ℕ) → k ≢ number
        → list_at widths.1 second.new k ≡ list_at widths.1 second.old k }
{
    let (first_start, second_start) = (number * widths.0, number * widths.1);
    questions.answer(
        alloc,
        number,
        &mut first[first_start..first_start + widths.0],
        &mut second[second_start..second_start + widths.1],
    )
}

/// The mark of a question: 1 where it has an answer, and else 0.
fn mark_of(found: bool) -> u8
    ensures { result ≡ (cond found 1 0) }
{
    u8::from(found)
}
