//! What a line asks.
ghost use Rattle.std.specs.Prelude.{Option, None, Some, codes};
ghost use Rattle.serde_json.specs.View.{view};
ghost use Rattle.zarrs_chunk_questions.specs.Calls.{IsNamed};
ghost use Rattle.zarrs_chunk_questions.specs.Question.{IsReading, byte_ranges_in, decode_in, encode_in, of_array_in, text_in};
ghost use Rattle.zarrs_chunk_questions.specs.Reading.{Reading};
ghost use Rattle.zarrs_chunk_questions.specs.Question as question;
ghost use Rattle.zarrs_chunk_questions.specs.seen.Read.{IsRead, question_of};

use crate::asked::{Asked, encoding, numbers};
use crate::bytes::BytesAsked;
use crate::call::{Call, OfArray};
use crate::reading::{in_form, required, required_in};
use crate::unreadable::Unreadable;
use serde_json::Value;
use std::alloc::Global;
use zarrs_chunk_base::Refusal;

/// What a line asks.
#[derive(Drop)]
pub(crate) enum Question<'t> {
    /// Of the grid of an array with this shape, of which the tree is the metadata.
    OfArray(Vec<u64>, &'t Value, Asked<'t>),
    /// The key of a chunk, in the encoding of which the tree is the metadata.
    Encode(&'t Value, Vec<u64>),
    /// The chunk with so many numbers that has a key, in the encoding of which the tree is the metadata.
    Decode(&'t Value, String, u64),
    /// Which bytes of a chunk hold a box.
    Bytes(BytesAsked),
}

impl<'t> Question<'t> {
    /// What a line's tree asks. What else it has says nothing.
    ///
    /// # Errors
    /// The first that applies: the tree is no object; where the call is `encode`, `decode` or `byte_ranges`, a member that it reads is missing or
    /// isn't of its form, in the order in which they are read; and else one of [`of_array`]. Or out of memory.
    pub(crate) fn from_tree(
        alloc: Global,
        tree: &'t Value,
    ) -> Result<Question<'t>, Refusal<Unreadable>>
        ensures { (reading : Reading question.Question) × IsReading (view tree.now) reading
            × IsRead question_of reading result }
    {
        if !tree.is_object() {
            return Err(Refusal::Refused(Unreadable::NotObject));
        }
        match named_in(tree) {
            Some(Call::Encode) => encode(alloc, tree),
            Some(Call::Decode) => decode(alloc, tree),
            Some(Call::ByteRanges) => bytes(alloc, tree),
            Some(Call::OfArray(call)) => of_array(alloc, Some(call), tree),
            None => of_array(alloc, None, tree),
        }
    }
}

/// The call that a line names, if it names one.
fn named_in(tree: &Value) -> Option<Call>
    ensures { IsNamed (text_in (codes "call") (view tree.now)) result }
{
    match tree.get("call").and_then(|call| call.as_str()) {
        Some(name) => Call::named(name),
        None => None,
    }
}

/// What `encode` is asked: the key of a chunk.
fn encode<'t>(alloc: Global, tree: &'t Value) -> Result<Question<'t>, Refusal<Unreadable>>
    ensures { IsRead question_of (encode_in (view tree.now)) result }
{
    let encoding = encoding(tree)?;
    let chunk = numbers(alloc, tree)?;
    Ok(Question::Encode(encoding, chunk))
}

/// What `decode` is asked: the chunk of a key.
fn decode<'t>(alloc: Global, tree: &'t Value) -> Result<Question<'t>, Refusal<Unreadable>>
    ensures { IsRead question_of (decode_in (view tree.now)) result }
{
    let encoding = encoding(tree)?;
    let key = required_in(alloc, "of", tree)?;
    let dimensionality = required_in(alloc, "dimensionality", tree)?;
    Ok(Question::Decode(encoding, key, dimensionality))
}

/// What `byte_ranges` is asked: the bytes of a box of a chunk.
fn bytes<'t>(alloc: Global, tree: &'t Value) -> Result<Question<'t>, Refusal<Unreadable>>
    ensures { IsRead question_of (byte_ranges_in (view tree.now)) result }
{
    let asked = BytesAsked::from_tree(alloc, tree)?;
    Ok(Question::Bytes(asked))
}

/// What an array's grid is asked, by a call of its own, if the line names one.
///
/// # Errors
/// The first that applies: `shape`, `chunk_grid` or `call` is missing, in this order; `shape` is no list of sizes; `call` is no text; there is no
/// such call; a member that the call reads is missing or isn't of its form. Or out of memory.
fn of_array<'t>(
    alloc: Global,
    named: Option<OfArray>,
    tree: &'t Value,
) -> Result<Question<'t>, Refusal<Unreadable>>
    ensures { IsRead question_of (of_array_in named (view tree.now)) result }
{
    let shape = required(tree, "shape")?;
    let chunk_grid = required(tree, "chunk_grid")?;
    let call = required(tree, "call")?;
    let shape = in_form(alloc, "shape", shape)?;
    let name: String = in_form(alloc, "call", call)?;
    let Some(call) = named else {
        return Err(Refusal::Refused(Unreadable::NoCall(name)));
    };
    let asked = Asked::from_tree(alloc, call, tree)?;
    Ok(Question::OfArray(shape, chunk_grid, asked))
}
