//! What a chunk key encoding answers.
ghost use Rattle.std.specs.Prelude.{◌≡◌, IfOk, MatchResult, string_bytes};
ghost use Rattle.serde_json.specs.View.{view};
ghost use Rattle.zarrs_chunk_base.specs.StoreKey.{EndsInSlash};
ghost use Rattle.zarrs_chunk_keys.specs.seen.Encodings.{encoding_in};
ghost use Rattle.zarrs_chunk_questions.specs.Answers.{IsDecodedAnswer, IsKeyAnswer};
ghost use Rattle.zarrs_chunk_questions.specs.Refused.{IsNoKey};

use crate::line_fault::LineFault;
use serde_json::Value;
use std::alloc::{AllocError, Global};
use zarrs_chunk_base::{StoreKey, TreeForm};
use zarrs_chunk_keys::{ChunkKeyEncoding, ChunkKeyEncodingTraits};

/// The key of a chunk.
///
/// # Errors
/// Out of memory.
pub(crate) fn answer_key(
    alloc: Global,
    encoding: &ChunkKeyEncoding,
    chunk: &[u64],
) -> Result<Value, AllocError>
    ensures { IfOk result (λ tree.
        IsKeyAnswer (encoding_in encoding.now) chunk.now (view tree)) }
{
    let key = encoding.encode(alloc, chunk)?;
    let tree = Value::try_from_str(alloc, key.as_str())?;
    Ok(tree)
}

/// The chunk with this many numbers that has a key, or `null`.
///
/// # Errors
/// Out of memory.
pub(crate) fn answer_chunk(
    alloc: Global,
    encoding: &ChunkKeyEncoding,
    key: &StoreKey,
    dimensionality: u64,
) -> Result<Value, AllocError>
    ensures { IfOk result (λ tree.
        IsDecodedAnswer (encoding_in encoding.now) key.now dimensionality (view tree)) }
{
    match encoding.decode(alloc, dimensionality as usize, key)? {
        Some(chunk) => chunk.to_tree(alloc),
        None => Ok(Value::Null),
    }
}

/// The store key that a text is.
///
/// # Errors
/// It ends in a slash.
pub(crate) fn key_of(text: String) -> Result<StoreKey, LineFault>
    ensures { MatchResult result (λ key. (¬ EndsInSlash (string_bytes text))
        × (key ≡ string_bytes text)) (IsNoKey (string_bytes text)) }
{
    match StoreKey::new(text) {
        Ok(key) => Ok(key),
        Err(error) => Err(LineFault::Key(error)),
    }
}
