//! The encodings of one kind each, and what all of them answer.
ghost use Rattle.std.specs.Prelude.{◌≡◌, ◌++◌, ℕ, IfOk, List, MatchResult, OnOk, string_bytes};
ghost use Rattle.serde_json.specs.View.{members_view};
ghost use Rattle.zarrs_chunk_base.specs.Kinds.{IsConfigurationOf, IsFaultOf, IsMadeOf};
ghost use Rattle.zarrs_chunk_base.specs.Metadata.{extension_of};
ghost use Rattle.zarrs_chunk_base.specs.Refusal.{OrMemory};
ghost use Rattle.zarrs_chunk_base.specs.StoreKey.{EndsInSlash};
ghost use Rattle.zarrs_chunk_keys.specs.ChunkKey.{Encoding, IsKey};
ghost use Rattle.zarrs_chunk_keys.specs.Decoded.{IsDecoded};
ghost use Rattle.zarrs_chunk_keys.specs.KeyKinds.{IsEncoding, IsEncodingFault, KeyKind, key_kind, kind_of};
ghost use Rattle.zarrs_chunk_keys.specs.lemmas.ExactKeys as keys;
ghost use Rattle.zarrs_chunk_keys.specs.lemmas.HaveKeys.{has_key};

use crate::ChunkKeyEncodingTraits;
use crate::cut_back::or_cut_back;
use crate::numerals::room_for;
use std::alloc::{AllocError, Global};
use zarrs_chunk_base::{
    ArrayIndices, Configuration, MetadataV3, PluginCreateError, Refusal, StoreKey,
};

/// An encoding of one of this library's kinds: which kind, and what a value of it means.
pub trait EncodingOfKind {
    /// The kind of encoding.
    ghost kind: { KeyKind };

    /// The encoding of chunk numbers as keys.
    ghost encoding: { Self → Encoding };
}

/// How an encoding of one kind is made, and how it writes and reads keys.
pub(crate) trait OfKind: EncodingOfKind + Sized + Drop {
    /// The encoding that the configuration in an extension's metadata says.
    fn of_metadata(alloc: Global, metadata: &MetadataV3) -> Result<Self, Refusal<PluginCreateError>>
        ensures { MatchResult result
            (λ made. IsMadeOf (key_kind Self.kind) (extension_of metadata.now) tt (Self.encoding made))
            (OrMemory (IsFaultOf (key_kind Self.kind)
            (extension_of metadata.now) tt)) };

    /// Its configuration, in the form in which one is written.
    fn to_configuration(&self, alloc: Global) -> Result<Configuration, AllocError>
        ensures { IfOk result (λ c. IsConfigurationOf (key_kind Self.kind) tt (Self.encoding self.now)
            (members_view c.entries)) };

    /// How many bytes a key has at most beside its numerals, each with a separator.
    fn bytes_beside_numerals(&self) -> usize {
        1
    }

    /// Appends the key of a chunk to a text. It is a store key.
    ///
    /// # Errors
    /// Out of memory; the text then has what it had, and after it what was written by then.
    fn append(&self, text: &mut String, chunk_indices: &[u64]) -> Result<(), AllocError>
        ensures appended { OnOk result ((key : List ℕ)
            × IsKey (Self.encoding self.now) chunk_indices.now key × (¬ EndsInSlash key)
            × (string_bytes text.new ≡ string_bytes text.old ++ key)) }
        ensures kept { (rest : List ℕ) × (string_bytes text.new ≡ string_bytes text.old ++ rest) };

    /// The chunk with this many numbers whose key this text is; `None` if there is none.
    ///
    /// # Errors
    /// Out of memory.
    fn read(
        &self,
        alloc: Global,
        dimensionality: usize,
        key: &[u8],
    ) -> Result<Option<ArrayIndices>, AllocError>
        ensures { IfOk result (IsDecoded (λ chunk. IsKey (Self.encoding self.now) chunk key.now)
            dimensionality) };
}

impl<E: OfKind> ChunkKeyEncodingTraits for E {
    ghost is_key = { λ made. IsKey (E.encoding made) };

    ghost exact = { λ made chunk other key fit other_fit same is also.
        keys.exact (E.encoding made) chunk other key same is also };

    ghost has_key = { λ made. has_key (E.encoding made) };

    fn create(alloc: Global, metadata: &MetadataV3) -> Result<E, Refusal<PluginCreateError>>
        ensures { MatchResult result
            (λ made. IsMadeOf (key_kind E.kind) (extension_of metadata.now) tt (E.encoding made))
            (OrMemory (IsFaultOf (key_kind E.kind)
            (extension_of metadata.now) tt)) }
    {
        E::of_metadata(alloc, metadata)
    }

    fn configuration(&self, alloc: Global) -> Result<Configuration, AllocError>
        ensures { IfOk result (λ c. IsConfigurationOf (key_kind E.kind) tt (E.encoding self.now)
            (members_view c.entries)) }
    {
        self.to_configuration(alloc)
    }

    fn encode(&self, alloc: Global, chunk_indices: &[u64]) -> Result<StoreKey, AllocError> {
        let mut key = String::with_capacity(
            alloc,
            room_for(chunk_indices, self.bytes_beside_numerals()),
        )?;
        self.append(&mut key, chunk_indices)?;
        // A key doesn't end in a slash, so it is a store key.
        Ok(StoreKey::new(key).unwrap())
    }

    fn append_key(&self, text: &mut String, chunk_indices: &[u64]) -> Result<(), AllocError> {
        let length = text.len();
        let appended = self.append(text, chunk_indices);
        or_cut_back(text, length, appended)
    }

    fn decode(
        &self,
        alloc: Global,
        dimensionality: usize,
        key: &StoreKey,
    ) -> Result<Option<ArrayIndices>, AllocError> {
        self.read(alloc, dimensionality, key.as_str().as_bytes())
    }
}

/// The encoding of a kind that has the extension's name.
///
/// # Errors
/// The first that applies: the configuration isn't of the kind's form; the encoding doesn't accept it. Or out of memory.
pub(crate) fn create_named<E: OfKind>(
    alloc: Global,
    metadata: &MetadataV3,
) -> Result<E, Refusal<PluginCreateError>>
    requires { (extension_of metadata.now).name ≡ (key_kind E.kind).name }
    ensures { MatchResult result
        (λ made. IsEncoding (extension_of metadata.now) (E.encoding made))
        (OrMemory (IsEncodingFault (extension_of metadata.now))) }
{
    E::of_metadata(alloc, metadata)
}

/// The configuration of an encoding, for one that holds it: of its kind, and the same encoding of chunk numbers.
///
/// # Errors
/// Out of memory.
pub(crate) fn configuration_inside<E: OfKind>(
    alloc: Global,
    encoding: &E,
) -> Result<Configuration, AllocError>
    ensures { (same : Encoding) → same ≡ E.encoding encoding.now → kind_of same ≡ E.kind
        → IfOk result (λ c. IsConfigurationOf (key_kind (kind_of same)) tt same
        (members_view c.entries)) }
{
    encoding.to_configuration(alloc)
}
