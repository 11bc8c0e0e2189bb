//! The call that prepares an encoding, and what is asked of a prepared one.
ghost use Rattle.std.specs.Prelude.{◌≡◌, ◌⊎◌, IfOk, MatchResult, OnOk, drop};
ghost use Rattle.zarrs_chunk_batches.specs.Batch.{AreKept};
ghost use Rattle.zarrs_chunk_batches.specs.Calls.{IfWritten, IsEndOf, IsKeptIfShort};
ghost use Rattle.zarrs_chunk_batches.specs.KeyCalls.{chunks_of_keys_request, keys_request};
ghost use Rattle.zarrs_chunk_batches.specs.PreparedCalls.{EndsForPreparedKeys, prepare_encoding_call};
ghost use Rattle.zarrs_chunk_batches.specs.declared.codes.Fault.TheVariants.{Memory, NotPrepared};
ghost use Rattle.zarrs_chunk_keys.specs.ChunkKey.{Encoding};
ghost use Rattle.zarrs_chunk_keys.specs.seen.Encodings.{encoding_in};
ghost use Rattle.zarrs_chunk_prepared.specs.PreparedEncoding.{IsPreparedEncoding};

use crate::batch::answer_all;
use crate::buffers::write_front;
use crate::codes::Fault;
use crate::key_questions::ChunksOfKeys;
use crate::keys::append_keys;
use crate::lists::count_of_texts;
use crate::metadata::encoding_of;
use std::alloc::Global;
use zarrs_chunk_keys::ChunkKeyEncoding;

/// Writes the numbers of the encoding, and how many they are, even where the buffer is shorter.
///
/// # Errors
/// The first that applies: the encoding can't be made; the numbers are more than their buffer holds. Or out of memory.
pub fn prepare_encoding(
    alloc: Global,
    chunk_key_encoding: &[u8],
    numbers: &mut [u64],
    needed: &mut usize,
) -> Result<(), Fault>
    ensures ends { IsEndOf (prepare_encoding_call
        chunk_key_encoding.now numbers.new needed.new) result }
    ensures kept_if_short { IsKeptIfShort numbers.old numbers.new result }
    ensures kept_behind { IfWritten
        (drop needed.new numbers.new ≡ drop needed.new numbers.old) result }
{
    let encoding = encoding_of(alloc, chunk_key_encoding)?;
    let prepared = zarrs_chunk_prepared::prepare_encoding(alloc, &encoding)?;
    write_front(&prepared, numbers, needed)
}

/// Reads the encoding whose numbers these are.
///
/// # Errors
/// The numbers aren't an encoding's; or out of memory.
fn read_keys(alloc: Global, numbers: &[u64]) -> Result<ChunkKeyEncoding, Fault>
    ensures prepared { IfOk result (λ read. IsPreparedEncoding numbers.now (encoding_in read)) }
    ensures one { MatchResult result
        (λ read. (encoding : Encoding) → IsPreparedEncoding numbers.now encoding
        → encoding_in read ≡ encoding)
        (λ fault. (fault ≡ Memory) ⊎ ((fault ≡ NotPrepared)
        × ((encoding : Encoding) → ¬ IsPreparedEncoding numbers.now encoding))) }
{
    match zarrs_chunk_prepared::read_encoding(alloc, numbers)? {
        Some(encoding) => Ok(encoding),
        None => Err(Fault::NotPrepared),
    }
}

/// Writes the key of each chunk, one after another, where each begins, and how long they are together, even where the buffer is shorter.
///
/// # Errors
/// The first that applies: the numbers aren't an encoding's; the lengths don't fit; the keys are longer than their buffer. Or out of memory.
pub fn keys_in(
    alloc: Global,
    numbers: &[u64],
    dimensionality: usize,
    chunks: &[u64],
    text: &mut [u8],
    offsets: &mut [u64],
    needed: &mut usize,
) -> Result<(), Fault>
    ensures ends { EndsForPreparedKeys numbers.now (keys_request dimensionality
        chunks.now text.new offsets.new needed.new) result }
    ensures kept_if_short { IsKeptIfShort text.old text.new result }
    ensures kept_behind { drop needed.new text.new ≡ drop needed.new text.old }
{
    let encoding = read_keys(alloc, numbers)?;
    let count = count_of_texts(offsets.len(), &[chunks.len()], dimensionality)?;
    let keys = append_keys(alloc, &encoding, dimensionality, count, chunks, offsets)?;
    write_front(keys.as_bytes(), text, needed)
}

/// Writes the chunk of each key.
///
/// # Errors
/// The first that applies: the numbers aren't an encoding's; the lengths don't fit; the offsets descend or lie past the text, and `wrong`
/// says at which key first. Or out of memory.
pub fn chunks_in(
    alloc: Global,
    numbers: &[u64],
    dimensionality: usize,
    text: &[u8],
    offsets: &[u64],
    chunks: &mut [u64],
    found: &mut [u8],
    wrong: &mut usize,
) -> Result<(), Fault>
    ensures ends { EndsForPreparedKeys numbers.now (chunks_of_keys_request dimensionality
        text.now offsets.now chunks.new found.new wrong.new) result }
    ensures chunks_kept { OnOk result
        (AreKept dimensionality chunks.old chunks.new found.new) }
{
    let encoding = read_keys(alloc, numbers)?;
    let count = count_of_texts(offsets.len(), &[chunks.len()], dimensionality)?;
    if count != found.len() {
        return Err(Fault::Length);
    }
    let keys = ChunksOfKeys {
        encoding: &encoding,
        dimensionality,
        text,
        offsets,
    };
    answer_all(alloc, &keys, chunks, &mut [], found, wrong)
}
