//! The keys of chunks, one after another.
ghost use Rattle.std.specs.Prelude.{◌≡◌, ◌+◌, ◌-◌, ◌*◌, IfOk, length, string_bytes};
ghost use Rattle.zarrs_chunk_batches.specs.Batch.{AreKeys};

use crate::lists::list_of;
use std::alloc::{AllocError, Global};
use zarrs_chunk_keys::ChunkKeyEncodingTraits;

/// The keys of so many chunks, one after another. Where each begins, and at last where the last one ends, is written as offsets in bytes.
///
/// # Errors
/// Out of memory.
pub(crate) fn append_keys<E: ChunkKeyEncodingTraits>(
    alloc: Global,
    encoding: &E,
    dimensionality: usize,
    count: usize,
    chunks: &[u64],
    offsets: &mut [u64],
) -> Result<String, AllocError>
    requires chunks { length chunks.now ≡ dimensionality * count }
    requires offsets { length offsets.old ≡ count + 1 }
    ensures { IfOk result (λ keys. AreKeys (E.is_key encoding.now) dimensionality
        (length offsets.new - 1) chunks.now (string_bytes keys) offsets.new) }
{
    let mut keys = String::new(alloc);
    offsets[0] = 0;
    for number in 0..count {
        encoding.append_key(&mut keys, list_of(chunks, dimensionality, number))?;
        offsets[number + 1] = byte_length(keys.as_str());
    }
    Ok(keys)
}

/// How many bytes a text has.
pub(crate) fn byte_length(text: &str) -> u64
    ensures { result ≡ length text.now }
{
    text.len() as u64
}
