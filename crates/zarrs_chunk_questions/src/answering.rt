//! What answers a question.
ghost use Rattle.std.specs.Prelude.{◌≡◌, ◌+◌, IfOk, IsSome, MatchResult, None, string_bytes};
ghost use Rattle.serde_json.specs.View.{view};
ghost use Rattle.zarrs_chunk_base.specs.Refusal.{OrMemory};
ghost use Rattle.zarrs_chunk_questions.specs.Answers.{IsAnswer};
ghost use Rattle.zarrs_chunk_questions.specs.Question.{decode as decoding, encode as encoding, items_asked};
ghost use Rattle.zarrs_chunk_questions.specs.Refused.{IsRefusal};
ghost use Rattle.zarrs_chunk_questions.specs.seen.Lines.{IsGiven};
ghost use Rattle.zarrs_chunk_questions.specs.seen.Read.{question_of};

use crate::array_question::answer_asked;
use crate::bytes::answer_bytes;
use crate::extensions::{make_encoding, make_grid};
use crate::key_answers::{answer_chunk, answer_key, key_of};
use crate::line_fault::LineFault;
use crate::question::Question;
use serde_json::Value;
use std::alloc::Global;
use zarrs_chunk_base::Refusal;

/// The tree of the answer to a question; `None` where its items are longer than there is room for.
///
/// # Errors
/// The first that applies: the grid can't be made; a fault of [`answer_asked`]. Or one of [`key_of_chunk`], [`chunk_of_key`] or [`answer_bytes`]. Or
/// out of memory.
pub(crate) fn answer_question(
    alloc: Global,
    question: Question<'_>,
    room: usize,
) -> Result<Option<Value>, Refusal<LineFault>>
    ensures answer { MatchResult result
        (IsGiven (room + 1) (IsAnswer (question_of question.entry)))
        (OrMemory (IsRefusal (question_of question.entry))) }
    ensures long { IfOk result (λ found. found ≡ None
        → IsSome (items_asked (question_of question.entry))) }
{
    match question {
        Question::OfArray(shape, chunk_grid, asked) => {
            let grid = make_grid(alloc, chunk_grid, &shape)?;
            answer_asked(alloc, &shape, chunk_grid, grid, asked, room)
        }
        Question::Encode(encoding, chunk) => Ok(Some(key_of_chunk(alloc, encoding, &chunk)?)),
        Question::Decode(encoding, key, dimensionality) => Ok(Some(chunk_of_key(
            alloc,
            encoding,
            key,
            dimensionality,
        )?)),
        Question::Bytes(asked) => Ok(Some(answer_bytes(alloc, asked)?)),
    }
}

/// The key of a chunk, in the encoding of which the tree is the metadata.
///
/// # Errors
/// The encoding can't be made; or out of memory.
fn key_of_chunk(alloc: Global, tree: &Value, chunk: &[u64]) -> Result<Value, Refusal<LineFault>>
    ensures { MatchResult result (λ answer. IsAnswer (encoding (view tree.now) chunk.now)
        (view answer)) (OrMemory (IsRefusal (encoding (view tree.now) chunk.now))) }
{
    let encoding = make_encoding(alloc, tree)?;
    Ok(answer_key(alloc, &encoding, chunk)?)
}

/// The chunk of a key, in the encoding of which the tree is the metadata.
///
/// # Errors
/// The first that applies: the encoding can't be made; the text is no store key. Or out of memory.
fn chunk_of_key(
    alloc: Global,
    tree: &Value,
    key: String,
    dimensionality: u64,
) -> Result<Value, Refusal<LineFault>>
    ensures { MatchResult result
        (λ answer. IsAnswer (decoding (view tree.now) (string_bytes key) dimensionality)
        (view answer))
        (OrMemory (IsRefusal (decoding (view tree.now) (string_bytes key) dimensionality))) }
{
    let encoding = make_encoding(alloc, tree)?;
    match key_of(key) {
        Ok(key) => Ok(answer_chunk(alloc, &encoding, &key, dimensionality)?),
        Err(fault) => Err(Refusal::Refused(fault)),
    }
}
