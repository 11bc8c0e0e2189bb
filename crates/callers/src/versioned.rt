//! An encoding of one's own.

use std::alloc::{AllocError, Global};
use zarrs_chunk_base::{
    ArrayIndices, Configuration, MetadataV3, PluginCreateError, Refusal, StoreKey,
};
use zarrs_chunk_keys::ChunkKeyEncodingTraits;

/// The keys of another encoding, each with a version before it.
#[derive(Drop)]
pub struct Versioned<E: ChunkKeyEncodingTraits>(pub E);

impl<E: ChunkKeyEncodingTraits> ChunkKeyEncodingTraits for Versioned<E> {
    ghost use Rattle.callers.specs.Versioned.{IsVersioned, versioned_exact, versioned_has};

    ghost is_key = { λ encoding. IsVersioned (E.is_key encoding.0) };

    ghost exact = { λ encoding chunk other key fit other_fit same.
        versioned_exact (E.is_key encoding.0) chunk other key
        (λ own. E.exact encoding.0 chunk other own fit other_fit same) };

    ghost has_key = { λ encoding chunk fit.
        versioned_has (E.is_key encoding.0) chunk (E.has_key encoding.0 chunk fit) };

    fn create(
        alloc: Global,
        metadata: &MetadataV3,
    ) -> Result<Versioned<E>, Refusal<PluginCreateError>> {
        Ok(Versioned(E::create(alloc, metadata)?))
    }

    fn configuration(&self, alloc: Global) -> Result<Configuration, AllocError> {
        self.0.configuration(alloc)
    }

    fn encode(&self, alloc: Global, chunk_indices: &[u64]) -> Result<StoreKey, AllocError> {
        let key = self.0.encode(alloc, chunk_indices)?;
        let mut text = String::from_str(alloc, "v1.")?;
        text.push_str(key.as_str())?;
        match StoreKey::new(text) {
            Ok(key) => Ok(key),
            // Never: neither text ends in a slash.
            Err(_) => Err(AllocError),
        }
    }

    fn decode(
        &self,
        alloc: Global,
        dimensionality: usize,
        key: &StoreKey,
    ) -> Result<Option<ArrayIndices>, AllocError> {
        let Some(own) = key.as_str().strip_prefix("v1.") else {
            return Ok(None);
        };
        match StoreKey::new(String::from_str(alloc, own)?) {
            Ok(own) => self.0.decode(alloc, dimensionality, &own),
            // Never: the key doesn't end in a slash.
            Err(_) => Ok(None),
        }
    }
}
