//! What is asked of a chunk key encoding, key by key.
ghost use Rattle.std.specs.Prelude.{◌≡◌, ℕ, ◌+◌, ◌<◌, IfOk, List, MatchOption, MatchResult, length};
ghost use Rattle.zarrs_chunk_batches.specs.Asked.{IsChunkOf};
ghost use Rattle.zarrs_chunk_batches.specs.Batch.{HasText, text_at};
ghost use Rattle.zarrs_chunk_batches.specs.declared.codes.Fault.TheVariants.{Offsets};

use crate::batch::Questions;
use crate::codes::Fault;
use std::alloc::{AllocError, Global};
use zarrs_chunk_base::{ArrayIndices, StoreKey};
use zarrs_chunk_keys::ChunkKeyEncodingTraits;

/// Whose keys texts are: the chunk with this many numbers that has each.
#[derive(Drop)]
pub(crate) struct ChunksOfKeys<'a, E> {
    pub(crate) encoding: &'a E,
    pub(crate) dimensionality: usize,
    /// The keys, one after another.
    pub(crate) text: &'a [u8],
    /// Where each key begins in the text, in bytes, and at last where the last one ends.
    pub(crate) offsets: &'a [u64],
}

impl<E: ChunkKeyEncodingTraits> Questions for ChunksOfKeys<'_, E> {
    ghost widths = { λ keys. (keys.dimensionality, 0) };

    ghost given = { λ keys number. number + 1 < length keys.offsets.now };

    ghost is_question = { λ keys number. HasText keys.text.now keys.offsets.now number };

    ghost fault = { λ _. Offsets };

    ghost answered = { λ keys number chunk _. IsChunkOf (E.is_key keys.encoding.now) keys.dimensionality
        (text_at keys.text.now keys.offsets.now number) chunk };

    ghost unanswered = { λ keys number. (chunk : List ℕ) → ¬ IsChunkOf (E.is_key keys.encoding.now) keys.dimensionality
        (text_at keys.text.now keys.offsets.now number) chunk };

    fn widths(&self) -> (usize, usize) {
        (self.dimensionality, 0)
    }

    fn answer(
        &self,
        alloc: Global,
        number: usize,
        first: &mut [u64],
        _second: &mut [u64],
    ) -> Result<bool, Fault> {
        let key = text_of(self.text, self.offsets, number)?;
        let Some(chunk) = chunk_of_key(alloc, self.encoding, self.dimensionality, key)? else {
            return Ok(false);
        };
        first.copy_from_slice(&chunk);
        Ok(true)
    }
}

/// The text with this number, counted from 0, among texts one after another: from its own offset up to the next one, in bytes.
///
/// # Errors
/// The offsets descend, or the second lies past the text.
fn text_of<'t>(text: &'t [u8], offsets: &[u64], number: usize) -> Result<&'t [u8], Fault>
    requires { number + 1 < length offsets.now }
    ensures value { IfOk result (λ part. part.now ≡ text_at text.now offsets.now number) }
    ensures refused { MatchResult result (λ _. HasText text.now offsets.now number)
        (λ fault. (fault ≡ Offsets) × ¬ HasText text.now offsets.now number) }
{
    let (start, end) = (offsets[number], offsets[number + 1]);
    if start > end || end > text.len() as u64 {
        return Err(Fault::Offsets);
    }
    Ok(&text[start as usize..end as usize])
}

/// The chunk with this many numbers whose key some bytes are; `None` if there is none. Bytes that are no store key are the key of none.
///
/// # Errors
/// Out of memory.
fn chunk_of_key<E: ChunkKeyEncodingTraits>(
    alloc: Global,
    encoding: &E,
    dimensionality: usize,
    key: &[u8],
) -> Result<Option<ArrayIndices>, AllocError>
    ensures { IfOk result (λ found. MatchOption found
        ((chunk : List ℕ) → ¬ IsChunkOf (E.is_key encoding.now) dimensionality key.now chunk)
        (λ chunk. IsChunkOf (E.is_key encoding.now) dimensionality key.now chunk.items)) }
{
    let Ok(text) = str::from_utf8(key) else {
        return Ok(None);
    };
    match StoreKey::new(String::from_str(alloc, text)?) {
        Ok(key) => encoding.decode(alloc, dimensionality, &key),
        Err(_) => Ok(None),
    }
}
