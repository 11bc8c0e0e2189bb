//! What every chunk key encoding answers.
pub(crate) mod default;
pub(crate) mod default_suffix;
pub(crate) mod named;
pub(crate) mod of_kind;
pub(crate) mod v2;

ghost use Rattle.std.specs.Prelude.{◌≡◌, ◌++◌, ℕ, IfOk, List, OnErr, OnOk, length, string_bytes};
ghost use Rattle.zarrs_chunk_base.specs.Greatest.{AllFit};
ghost use Rattle.zarrs_chunk_keys.specs.Decoded.{IsDecoded};

use std::alloc::{AllocError, Global};
use zarrs_chunk_base::{
    ArrayIndices, Configuration, MetadataV3, PluginCreateError, Refusal, StoreKey,
};

/// A chunk key encoding: under which key each chunk of an array is stored.
///
/// Source: Zarr V3 core, chunk key encodings.
pub trait ChunkKeyEncodingTraits: Sized + Drop {
    /// What the encoding's value means: which bytes are a key of which chunk.
    ghost is_key: { Self → List ℕ → List ℕ → Type 0 };

    /// The encoding that the configuration in an extension's metadata says. An absent configuration counts as one without
    /// members. An encoding of one kind doesn't look at the extension's name.
    ///
    /// # Errors
    /// The first that applies: an encoding of several kinds knows no such name (`NameUnsupported`); the configuration isn't
    /// of its form (`ConfigurationUnsupported`); the encoding doesn't accept it (`Other`). Or out of memory.
    fn create(alloc: Global, metadata: &MetadataV3) -> Result<Self, Refusal<PluginCreateError>>;

    /// The configuration of the encoding: what the member `configuration` of its metadata is.
    ///
    /// # Errors
    /// Out of memory.
    fn configuration(&self, alloc: Global) -> Result<Configuration, AllocError>;

    /// The key of a chunk, of which the numbers are given, one a dimension.
    ///
    /// # Errors
    /// Out of memory.
    fn encode(&self, alloc: Global, chunk_indices: &[u64]) -> Result<StoreKey, AllocError>
        ensures { IfOk result (is_key self.now chunk_indices.now) };

    /// Appends the key of a chunk to a text, for callers that write many. Here it is copied from what
    /// [`encode`](ChunkKeyEncodingTraits::encode) gives; an encoding that can write it in place does so.
    ///
    /// # Errors
    /// Out of memory; the text is then what it was.
    fn append_key(&self, text: &mut String, chunk_indices: &[u64]) -> Result<(), AllocError>
        ensures appended { OnOk result ((key : List ℕ) × is_key self.now chunk_indices.now key
            × (string_bytes text.new ≡ string_bytes text.old ++ key)) }
        ensures kept { (rest : List ℕ) × (string_bytes text.new ≡ string_bytes text.old ++ rest) }
        ensures unchanged { OnErr result (string_bytes text.new ≡ string_bytes text.old) }
    {
        let key = self.encode(*text.allocator(), chunk_indices)?;
        text.push_str(key.as_str())
    }

    /// The chunk with this many numbers, one a dimension, whose key this is; `None` if there is none. The chunk may lie outside of the
    /// grid.
    ///
    /// # Errors
    /// Out of memory.
    fn decode(
        &self,
        alloc: Global,
        dimensionality: usize,
        key: &StoreKey,
    ) -> Result<Option<ArrayIndices>, AllocError>
        ensures { IfOk result (IsDecoded (λ chunk. is_key self.now chunk key.now) dimensionality) };

    /// Equal keys of equally long lists of 64-bit numbers come from equal lists.
    ghost exact: { (encoding : Self) (chunk other key : List ℕ) → AllFit chunk → AllFit other
        → length chunk ≡ length other → is_key encoding chunk key → is_key encoding other key
        → chunk ≡ other };

    /// Each list of 64-bit numbers has a key.
    ghost has_key: { (encoding : Self) (chunk : List ℕ) → AllFit chunk
        → (key : List ℕ) × is_key encoding chunk key };
}
