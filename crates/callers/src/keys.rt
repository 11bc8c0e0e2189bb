//! The keys of chunks.
ghost use Rattle.std.specs.Prelude.{MatchResult};
ghost use Rattle.zarrs_chunk_base.specs.Metadata.{extension_of};
ghost use Rattle.zarrs_chunk_base.specs.Refusal.{OrMemory};
ghost use Rattle.zarrs_chunk_keys.specs.ChunkKey.{Encoding, IsKey};
ghost use Rattle.zarrs_chunk_keys.specs.KeyKinds.{IsEncoding, IsEncodingFault};

use std::alloc::{AllocError, Global};
use zarrs_chunk_base::{ArrayIndices, MetadataV3, PluginCreateError, Refusal, StoreKey};
use zarrs_chunk_keys::{ChunkKeyEncoding, ChunkKeyEncodingTraits};

/// The key of a chunk, under the encoding that the member `chunk_key_encoding` of an array names.
pub fn key_by_name(
    alloc: Global,
    metadata: &MetadataV3,
    chunk_indices: &[u64],
) -> Result<StoreKey, Refusal<PluginCreateError>>
    ensures { MatchResult result
        (λ key. (encoding : Encoding) × IsEncoding (extension_of metadata.now) encoding
        × IsKey encoding chunk_indices.now key)
        (OrMemory (IsEncodingFault (extension_of metadata.now))) }
{
    let encoding = ChunkKeyEncoding::from_metadata(alloc, metadata)?;
    Ok(encoding.encode(alloc, chunk_indices)?)
}

/// Appends the keys of many chunks to a text, a line each.
pub fn append_keys(
    text: &mut String,
    encoding: &ChunkKeyEncoding,
    chunks: &[ArrayIndices],
) -> Result<(), AllocError> {
    for chunk in chunks {
        encoding.append_key(text, chunk)?;
        text.push('\n')?;
    }
    Ok(())
}
