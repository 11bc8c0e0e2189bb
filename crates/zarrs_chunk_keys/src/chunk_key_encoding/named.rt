//! A chunk key encoding of any of the kinds, chosen by its extension's name.
//!
//! | Name | Encoding |
//! |---|---|
//! | `default` | [`DefaultChunkKeyEncoding`] |
//! | `v2` | [`V2ChunkKeyEncoding`] |
//! | `zarrs.default_suffix` | [`DefaultSuffixChunkKeyEncoding`] |
//!
//! Unlike zarrs, no encoding registers itself, and no name has an alias: an encoding of another crate is passed to functions over
//! [`ChunkKeyEncodingTraits`] as it is.
ghost use Rattle.std.specs.Prelude.{◌≡◌, Contains, IfOk, IsErrAnd, MatchResult};
ghost use Rattle.serde_json.specs.View.{members_view, view};
ghost use Rattle.zarrs_chunk_base.specs.Kinds.{IsConfigurationOf, IsMetadata, names};
ghost use Rattle.zarrs_chunk_base.specs.Metadata.{extension_of};
ghost use Rattle.zarrs_chunk_base.specs.Refusal.{OrMemory};
ghost use Rattle.zarrs_chunk_base.specs.StoreKey.{EndsInSlash};
ghost use Rattle.zarrs_chunk_keys.specs.ChunkKey.{IsKey, separator_of, suffix_of};
ghost use Rattle.zarrs_chunk_keys.specs.KeyKinds.{IsEncoding, IsEncodingFault, IsEncodingIn, IsNoEncodingIn, key_kind, key_kinds, kind_of};
ghost use Rattle.zarrs_chunk_keys.specs.declared.chunk_key_encoding.named.ChunkKeyEncoding.TheVariants.{Default, DefaultSuffix, V2};
ghost use Rattle.zarrs_chunk_keys.specs.lemmas.ExactKeys.{exact};
ghost use Rattle.zarrs_chunk_keys.specs.lemmas.HaveKeys.{has_key};
ghost use Rattle.zarrs_chunk_keys.specs.seen.Encodings.{encoding_in};

use crate::ChunkKeyEncodingTraits;
use crate::chunk_key_encoding::default::DefaultChunkKeyEncoding;
use crate::chunk_key_encoding::default_suffix::DefaultSuffixChunkKeyEncoding;
use crate::chunk_key_encoding::of_kind::{configuration_inside, create_named};
use crate::chunk_key_encoding::v2::V2ChunkKeyEncoding;
use serde_json::Value;
use std::alloc::{AllocError, Global};
use zarrs_chunk_base::{
    ArrayIndices, ChunkKeySeparator, Configuration, ExtensionError, MetadataV3, PluginCreateError,
    Refusal, StoreKey,
};

const DEFAULT: &str = "default";

const V2: &str = "v2";

const DEFAULT_SUFFIX: &str = "zarrs.default_suffix";

/// A chunk key encoding of any of the library's kinds. It answers every call as the encoding inside it.
///
/// Sources: Zarr V3 core, chunk key encodings; the extension `zarrs.default_suffix`.
#[derive(Debug, Drop)]
pub enum ChunkKeyEncoding {
    /// The extension `default`.
    Default(DefaultChunkKeyEncoding),
    /// The extension `v2`.
    V2(V2ChunkKeyEncoding),
    /// The extension `zarrs.default_suffix`.
    DefaultSuffix(DefaultSuffixChunkKeyEncoding),
}

/// What the encoding inside answers.
macro_rules! inside {
    ($any:expr, $encoding:ident => $answer:expr) => {
        match $any {
            ChunkKeyEncoding::Default($encoding) => $answer,
            ChunkKeyEncoding::V2($encoding) => $answer,
            ChunkKeyEncoding::DefaultSuffix($encoding) => $answer,
        }
    };
}

impl ChunkKeyEncoding {
    /// The encoding that an extension's metadata stands for. An absent configuration counts as one without members.
    ///
    /// # Errors
    /// The first that applies: the name is none of a chunk key encoding; the configuration isn't of the form of its kind;
    /// the encoding doesn't accept it. Or out of memory.
    pub fn from_metadata(
        alloc: Global,
        metadata: &MetadataV3,
    ) -> Result<ChunkKeyEncoding, Refusal<PluginCreateError>>
        ensures { MatchResult result
            (λ encoding. IsEncoding (extension_of metadata.now) (encoding_in encoding))
            (OrMemory (IsEncodingFault (extension_of metadata.now))) }
    {
        match metadata.name() {
            DEFAULT => Ok(ChunkKeyEncoding::Default(create_named(alloc, metadata)?)),
            V2 => Ok(ChunkKeyEncoding::V2(create_named(alloc, metadata)?)),
            DEFAULT_SUFFIX => Ok(ChunkKeyEncoding::DefaultSuffix(create_named(alloc, metadata)?)),
            _ => refuse_name(alloc, metadata),
        }
    }

    /// The encoding that a tree of JSON is the metadata of.
    ///
    /// # Errors
    /// The first that applies: the tree is no extension's metadata; the encoding can't be made, as [`from_metadata`](Self::from_metadata) says.
    /// Or out of memory.
    pub fn from_tree(
        alloc: Global,
        tree: &Value,
    ) -> Result<ChunkKeyEncoding, Refusal<ExtensionError>>
        ensures { MatchResult result
            (λ encoding. IsEncodingIn (view tree.now) (encoding_in encoding))
            (OrMemory (IsNoEncodingIn (view tree.now))) }
    {
        let metadata = MetadataV3::from_tree(alloc, tree)?;
        Ok(ChunkKeyEncoding::from_metadata(alloc, &metadata)?)
    }

    /// The metadata of the encoding: its extension's name, and its configuration.
    ///
    /// # Errors
    /// Out of memory.
    pub fn metadata(&self, alloc: Global) -> Result<MetadataV3, AllocError>
        ensures { IfOk result (λ metadata. IsMetadata
            (key_kind (kind_of (encoding_in self.now))) tt (encoding_in self.now)
            (extension_of metadata)) }
    {
        let name = String::from_str(alloc, self.name())?;
        let configuration = self.configuration(alloc)?;
        Ok(MetadataV3::new(name, Some(configuration)))
    }

    /// The same encoding.
    ///
    /// # Errors
    /// Out of memory.
    pub fn clone(&self) -> Result<ChunkKeyEncoding, AllocError>
        ensures { IfOk result (λ copy. encoding_in copy ≡ encoding_in self.now) }
    {
        Ok(match self {
            ChunkKeyEncoding::Default(encoding) => ChunkKeyEncoding::Default(encoding.clone()?),
            ChunkKeyEncoding::V2(encoding) => ChunkKeyEncoding::V2(encoding.clone()?),
            ChunkKeyEncoding::DefaultSuffix(encoding) => {
                ChunkKeyEncoding::DefaultSuffix(encoding.clone()?)
            }
        })
    }

    /// What stands between the numbers of a key.
    pub fn separator(&self) -> ChunkKeySeparator
        ensures { result ≡ separator_of (encoding_in self.now) }
    {
        inside!(self, encoding => encoding.separator())
    }

    /// What ends each key. It is empty but for `zarrs.default_suffix`.
    pub fn suffix(&self) -> &str
        ensures value { result.now ≡ suffix_of (encoding_in self.now) }
        ensures no_slash { ¬ EndsInSlash result.now }
    {
        match self {
            ChunkKeyEncoding::Default(_) | ChunkKeyEncoding::V2(_) => "",
            ChunkKeyEncoding::DefaultSuffix(encoding) => encoding.suffix(),
        }
    }

    /// The extension's name.
    fn name(&self) -> &'static str
        ensures { result.now ≡ (key_kind (kind_of (encoding_in self.now))).name }
    {
        match self {
            ChunkKeyEncoding::Default(_) => DEFAULT,
            ChunkKeyEncoding::V2(_) => V2,
            ChunkKeyEncoding::DefaultSuffix(_) => DEFAULT_SUFFIX,
        }
    }
}

/// The refusal of a name that no kind has.
fn refuse_name(
    alloc: Global,
    metadata: &MetadataV3,
) -> Result<ChunkKeyEncoding, Refusal<PluginCreateError>>
    requires { ¬ Contains (names key_kind key_kinds) (extension_of metadata.now).name }
    ensures { IsErrAnd result (OrMemory (IsEncodingFault (extension_of metadata.now))) }
{
    let name = String::from_str(alloc, metadata.name())?;
    Err(Refusal::Refused(PluginCreateError::NameUnsupported(name)))
}

impl ChunkKeyEncodingTraits for ChunkKeyEncoding {
    ghost is_key = { λ encoding. IsKey (encoding_in encoding) };

    ghost exact = { λ encoding chunk other key fit other_fit same is also.
        exact (encoding_in encoding) chunk other key same is also };

    ghost has_key = { λ encoding. has_key (encoding_in encoding) };

    fn create(
        alloc: Global,
        metadata: &MetadataV3,
    ) -> Result<ChunkKeyEncoding, Refusal<PluginCreateError>>
        ensures { MatchResult result
            (λ encoding. IsEncoding (extension_of metadata.now) (encoding_in encoding))
            (OrMemory (IsEncodingFault (extension_of metadata.now))) }
    {
        ChunkKeyEncoding::from_metadata(alloc, metadata)
    }

    fn configuration(&self, alloc: Global) -> Result<Configuration, AllocError>
        ensures { IfOk result (λ c. IsConfigurationOf
            (key_kind (kind_of (encoding_in self.now))) tt (encoding_in self.now)
            (members_view c.entries)) }
    {
        inside!(self, encoding => configuration_inside(alloc, encoding))
    }

    fn encode(&self, alloc: Global, chunk_indices: &[u64]) -> Result<StoreKey, AllocError> {
        inside!(self, encoding => encoding.encode(alloc, chunk_indices))
    }

    fn append_key(&self, text: &mut String, chunk_indices: &[u64]) -> Result<(), AllocError> {
        inside!(self, encoding => encoding.append_key(text, chunk_indices))
    }

    fn decode(
        &self,
        alloc: Global,
        dimensionality: usize,
        key: &StoreKey,
    ) -> Result<Option<ArrayIndices>, AllocError> {
        inside!(self, encoding => encoding.decode(alloc, dimensionality, key))
    }
}

impl From<DefaultChunkKeyEncoding> for ChunkKeyEncoding {
    ghost from_gives = { λ encoding any. any ≡ Default encoding };

    fn from(encoding: DefaultChunkKeyEncoding) -> ChunkKeyEncoding {
        ChunkKeyEncoding::Default(encoding)
    }
}

impl From<V2ChunkKeyEncoding> for ChunkKeyEncoding {
    ghost from_gives = { λ encoding any. any ≡ V2 encoding };

    fn from(encoding: V2ChunkKeyEncoding) -> ChunkKeyEncoding {
        ChunkKeyEncoding::V2(encoding)
    }
}

impl From<DefaultSuffixChunkKeyEncoding> for ChunkKeyEncoding {
    ghost from_gives = { λ encoding any. any ≡ DefaultSuffix encoding };

    fn from(encoding: DefaultSuffixChunkKeyEncoding) -> ChunkKeyEncoding {
        ChunkKeyEncoding::DefaultSuffix(encoding)
    }
}
