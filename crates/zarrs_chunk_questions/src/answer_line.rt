//! The line that answers a line.
ghost use Rattle.std.specs.Prelude.{◌≡◌, ◌+◌, ℕ, IfOk, IfSome, List, MatchResult, None, string_bytes};
ghost use Rattle.serde_json.specs.View.{view};
ghost use Rattle.streams.specs.OneLine.{IsOneLine, line_of};
ghost use Rattle.zarrs_chunk_base.specs.Refusal.{OrMemory};
ghost use Rattle.zarrs_chunk_questions.specs.AnswerLine.{AsksForItems, HasLongAnswer, IsAnswerLine, Tells};
ghost use Rattle.zarrs_chunk_questions.specs.seen.Lines.{IsAnswerText, IsGiven, IsLineAnswer, IsLineFault, IsTreeAnswer, IsQuestionFault, TreeAsksForItems};

use crate::answering::answer_question;
use crate::line_fault::LineFault;
use crate::question::Question;
use crate::unreadable::Unreadable;
use serde_json::Value;
use std::alloc::{AllocError, Global};
use streams::one_line;
use zarrs_chunk_base::{Refusal, read_json};

/// The line that answers a line: its answer as compact JSON, or why it has none, and a line feed.
///
/// # Errors
/// Out of memory.
pub fn answer(alloc: Global, line: &[u8]) -> Result<Vec<u8>, AllocError>
    ensures one { IfOk result (λ answer. IsOneLine answer.items) }
    ensures says { IfOk result (λ answer. IsAnswerLine line.now answer.items) }
{
    match answer_within(alloc, line, usize::MAX)? {
        Some(answer) => Ok(answer),
        // No memory has more bytes than there are addresses.
        None => Err(AllocError),
    }
}

/// The same, or `None` if the answer is longer than `room` bytes and its items are enough to see that. No more items are made then, so whatever
/// number of them is asked for, no more memory is taken than in proportion to the line and the room.
///
/// # Errors
/// Out of memory.
pub fn answer_within(alloc: Global, line: &[u8], room: usize) -> Result<Option<Vec<u8>>, AllocError>
    ensures one { IfOk result (λ answer. IfSome answer (λ line. IsOneLine line.items)) }
    ensures says { IfOk result (λ found. IfSome found (λ answer.
        IsAnswerLine line.now answer.items)) }
    ensures long { IfOk result (λ found. found ≡ None → AsksForItems line.now) }
    ensures longer { IfOk result (λ found. found ≡ None → HasLongAnswer line.now room) }
{
    match answer_of(alloc, line, room) {
        Ok(Some(tree)) => Ok(Some(write_line(alloc, &Ok(tree))?)),
        Ok(None) => Ok(None),
        Err(refusal) => Ok(Some(write_line(alloc, &Err(refusal))?)),
    }
}

/// The line that says an answer, or why there is none.
///
/// # Errors
/// Out of memory.
fn write_line(
    alloc: Global,
    answered: &Result<Value, Refusal<LineFault>>,
) -> Result<Vec<u8>, AllocError>
    ensures one { IfOk result (λ line. IsOneLine line.items) }
    ensures says { IfOk result (λ line. (text : List ℕ) × IsAnswerText answered.now text
        × (line.items ≡ line_of text)) }
{
    let text = answer_text(alloc, answered)?;
    one_line(alloc, text.into_bytes())
}

/// The text of an answer, or of why there is none.
///
/// # Errors
/// Out of memory.
fn answer_text(
    alloc: Global,
    answered: &Result<Value, Refusal<LineFault>>,
) -> Result<String, AllocError>
    ensures { IfOk result (λ text. IsAnswerText answered.now (string_bytes text)) }
{
    match answered {
        Ok(tree) => tree.to_string(alloc),
        Err(Refusal::Refused(fault)) => fault_text(alloc, fault),
        Err(Refusal::Memory(_)) => Err(AllocError),
    }
}

/// The text that tells a fault.
///
/// # Errors
/// Out of memory.
fn fault_text(alloc: Global, fault: &LineFault) -> Result<String, AllocError>
    ensures { IfOk result (λ text. Tells fault.now (string_bytes text)) }
{
    if let LineFault::Unreadable(fault) = fault {
        return format!(in alloc; "unreadable: {fault}");
    }
    let words = format!(in alloc; "{fault}")?;
    let mut text = String::from_str(alloc, "refused: ")?;
    text.push_str(words.as_str())?;
    Ok(text)
}

/// The tree of the answer to a line; `None` where its items are longer than there is room for.
///
/// # Errors
/// The first fault of the line; or out of memory.
fn answer_of(alloc: Global, line: &[u8], room: usize) -> Result<Option<Value>, Refusal<LineFault>>
    ensures answer { MatchResult result (IsGiven (room + 1) (IsLineAnswer line.now))
        (OrMemory (IsLineFault line.now)) }
    ensures long { IfOk result (λ found. found ≡ None → AsksForItems line.now) }
{
    match read_json(alloc, line)? {
        Some(tree) => answer_tree(alloc, &tree, room),
        None => Err(Refusal::Refused(LineFault::Unreadable(Unreadable::NotJson))),
    }
}

/// The same of a line's tree.
fn answer_tree(
    alloc: Global,
    tree: &Value,
    room: usize,
) -> Result<Option<Value>, Refusal<LineFault>>
    ensures answer { MatchResult result (IsGiven (room + 1) (IsTreeAnswer (view tree.now)))
        (OrMemory (IsQuestionFault (view tree.now))) }
    ensures long { IfOk result (λ found. found ≡ None → TreeAsksForItems (view tree.now)) }
{
    match Question::from_tree(alloc, tree) {
        Ok(question) => answer_question(alloc, question, room),
        Err(Refusal::Refused(fault)) => Err(Refusal::Refused(LineFault::Unreadable(fault))),
        Err(Refusal::Memory(error)) => Err(Refusal::Memory(error)),
    }
}
