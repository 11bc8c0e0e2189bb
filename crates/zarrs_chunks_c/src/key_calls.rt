//! The calls of a prepared encoding, and the call that prepares one.
ghost use Rattle.std.specs.Prelude.{◌≡◌, OnOk, drop};
ghost use Rattle.zarrs_chunk_batches.specs.Batch.{AreKept};
ghost use Rattle.zarrs_chunk_batches.specs.Calls.{IfWritten, IsEndOf, IsKeptIfShort};
ghost use Rattle.zarrs_chunk_batches.specs.Codes.{Ends};
ghost use Rattle.zarrs_chunk_batches.specs.KeyCalls.{chunks_of_keys_request, keys_request};
ghost use Rattle.zarrs_chunk_batches.specs.PreparedCalls.{EndsForPreparedKeys, prepare_encoding_call};

use std::alloc::Global;
use zarrs_chunk_batches::{chunks_in, code_of, keys_in, prepare_encoding};

/// The numbers of the encoding, by which the calls of a prepared encoding answer as it does.
#[unsafe(no_mangle)]
pub extern "C" fn zarrs_prepare_encoding(
    alloc: Global,
    chunk_key_encoding: &[u8],
    numbers: &mut [u64],
    needed: &mut usize,
) -> i32
    ensures ends { Ends (IsEndOf (prepare_encoding_call
        chunk_key_encoding.now numbers.new needed.new)) result }
    ensures kept_if_short { Ends (IsKeptIfShort numbers.old numbers.new) result }
    ensures kept_behind { Ends (λ end. IfWritten
        (drop needed.new numbers.new ≡ drop needed.new numbers.old) end) result }
{
    code_of(prepare_encoding(alloc, chunk_key_encoding, numbers, needed))
}

/// The key of each chunk, one after another.
#[unsafe(no_mangle)]
pub extern "C" fn zarrs_prepared_keys_of(
    alloc: Global,
    numbers: &[u64],
    dimensionality: usize,
    chunks: &[u64],
    text: &mut [u8],
    offsets: &mut [u64],
    needed: &mut usize,
) -> i32
    ensures ends { Ends (EndsForPreparedKeys numbers.now (keys_request dimensionality
        chunks.now text.new offsets.new needed.new)) result }
    ensures kept_if_short { Ends (IsKeptIfShort text.old text.new) result }
    ensures kept_behind { drop needed.new text.new ≡ drop needed.new text.old }
{
    code_of(keys_in(
        alloc,
        numbers,
        dimensionality,
        chunks,
        text,
        offsets,
        needed,
    ))
}

/// The chunk of each key. `wrong` says at which key the offsets descend or lie past the text first.
#[unsafe(no_mangle)]
pub extern "C" fn zarrs_prepared_chunks_of_keys(
    alloc: Global,
    numbers: &[u64],
    dimensionality: usize,
    text: &[u8],
    offsets: &[u64],
    chunks: &mut [u64],
    found: &mut [u8],
    wrong: &mut usize,
) -> i32
    ensures ends { Ends (EndsForPreparedKeys numbers.now (chunks_of_keys_request dimensionality
        text.now offsets.now chunks.new found.new wrong.new)) result }
    ensures chunks_kept { Ends (λ end. OnOk end
        (AreKept dimensionality chunks.old chunks.new found.new)) result }
{
    code_of(chunks_in(
        alloc,
        numbers,
        dimensionality,
        text,
        offsets,
        chunks,
        found,
        wrong,
    ))
}
