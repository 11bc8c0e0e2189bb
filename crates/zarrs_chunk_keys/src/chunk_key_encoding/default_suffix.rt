//! The `zarrs.default_suffix` encoding: the keys of the `default` encoding with a suffix.
//!
//! ```json
//! {"name": "zarrs.default_suffix", "configuration": {"separator": "/", "suffix": ".tiff"}}
//! ```
//!
//! | | |
//! |---|---|
//! | Standard | none: an experimental extension of [zarrs](https://docs.rs/zarrs/0.23.13/zarrs/), after the default encoding of Zarr V3 core |
//! | Configuration | `separator`, `/` or `.`, and where it is absent, `/`; and `suffix`, a text |
//! | Accepted | the suffix doesn't end in a slash; it may be empty |
//! | Keys | of the chunk `[3, 2, 16]` `c/3/2/16.tiff`; of the chunk without numbers `c.tiff` |
//! | Differs from zarrs | a suffix that ends in a slash is refused, since a store key doesn't end in one |
ghost use Rattle.std.specs.Prelude.{◌≡◌, IfOk, MatchResult, string_bytes};
ghost use Rattle.zarrs_chunk_base.specs.StoreKey.{EndsInSlash};
ghost use Rattle.zarrs_chunk_keys.specs.ChunkKey.{separator_of, suffix_of, suffixed_keys};
ghost use Rattle.zarrs_chunk_keys.specs.KeyKinds as kinds;
ghost use Rattle.zarrs_chunk_keys.specs.seen.Encodings.{suffixed_of};

use crate::chunk_key_encoding::default::DefaultChunkKeyEncoding;
use crate::chunk_key_encoding::of_kind::{EncodingOfKind, OfKind};
use crate::chunk_key_suffix_error::ChunkKeySuffixError;
use std::alloc::{AllocError, Global};
use zarrs_chunk_base::{
    ArrayIndices, ChunkKeySeparator, Configuration, ConfigurationForm,
    DefaultSuffixChunkKeyEncodingConfiguration, MetadataV3, PluginCreateError, Refusal, StoreKey,
    StoreKeyError,
};

/// The `zarrs.default_suffix` encoding with a separator and a suffix. The key of a chunk is its key in the `default`
/// encoding, and then the suffix: `c/3/2/16.tiff`.
///
/// Source: the extension `zarrs.default_suffix`.
#[derive(Debug, Drop)]
pub struct DefaultSuffixChunkKeyEncoding {
    keys: DefaultChunkKeyEncoding,
    /// The suffix is itself a store key: a text that doesn't end in a slash.
    suffix: StoreKey,
}

impl DefaultSuffixChunkKeyEncoding {
    /// The encoding with this separator and suffix, which may be empty.
    ///
    /// # Errors
    /// The suffix ends in a slash; it is handed back.
    pub fn new(
        separator: ChunkKeySeparator,
        suffix: String,
    ) -> Result<DefaultSuffixChunkKeyEncoding, ChunkKeySuffixError>
        ensures { MatchResult result
            (λ encoding. (¬ EndsInSlash (string_bytes suffix))
            × (suffixed_of encoding ≡ suffixed_keys separator (string_bytes suffix)))
            (λ error. EndsInSlash (string_bytes suffix) × (error.0 ≡ suffix)) }
    {
        match StoreKey::new(suffix) {
            Ok(suffix) => Ok(DefaultSuffixChunkKeyEncoding {
                keys: DefaultChunkKeyEncoding::new(separator),
                suffix,
            }),
            Err(StoreKeyError(suffix)) => Err(ChunkKeySuffixError(suffix)),
        }
    }

    /// The encoding with the same separator and an equal suffix.
    ///
    /// # Errors
    /// Out of memory.
    pub fn clone(&self) -> Result<DefaultSuffixChunkKeyEncoding, AllocError>
        ensures { IfOk result (λ copy. suffixed_of copy ≡ suffixed_of self.now) }
    {
        Ok(DefaultSuffixChunkKeyEncoding {
            keys: self.keys,
            suffix: self.suffix.clone()?,
        })
    }

    /// What stands before each number.
    pub(crate) fn separator(&self) -> ChunkKeySeparator
        ensures { result ≡ separator_of (suffixed_of self.now) }
    {
        self.keys.separator()
    }

    /// What ends each key.
    pub(crate) fn suffix(&self) -> &str
        ensures value { result.now ≡ suffix_of (suffixed_of self.now) }
        ensures no_slash { ¬ EndsInSlash result.now }
    {
        self.suffix.as_str()
    }
}

impl EncodingOfKind for DefaultSuffixChunkKeyEncoding {
    ghost kind = { kinds.default_suffix };

    ghost encoding = { suffixed_of };
}

impl OfKind for DefaultSuffixChunkKeyEncoding {
    fn of_metadata(
        alloc: Global,
        metadata: &MetadataV3,
    ) -> Result<DefaultSuffixChunkKeyEncoding, Refusal<PluginCreateError>> {
        let configuration = DefaultSuffixChunkKeyEncodingConfiguration::from_metadata(
            alloc, metadata,
        )?;
        let encoding = DefaultSuffixChunkKeyEncoding::new(
            configuration.separator,
            configuration.suffix,
        );
        match encoding {
            Ok(encoding) => Ok(encoding),
            Err(error) => Err(Refusal::Refused(PluginCreateError::Other(error.to_string(alloc)?))),
        }
    }

    fn to_configuration(&self, alloc: Global) -> Result<Configuration, AllocError> {
        let configuration = DefaultSuffixChunkKeyEncodingConfiguration {
            separator: self.keys.separator(),
            suffix: String::from_str(alloc, self.suffix.as_str())?,
        };
        configuration.to_tree(alloc)
    }

    fn bytes_beside_numerals(&self) -> usize {
        self.suffix.as_str().len().saturating_add(1)
    }

    fn append(&self, text: &mut String, chunk_indices: &[u64]) -> Result<(), AllocError> {
        self.keys.append(text, chunk_indices)?;
        text.push_str(self.suffix.as_str())?;
        Ok(())
    }

    fn read(
        &self,
        alloc: Global,
        dimensionality: usize,
        key: &[u8],
    ) -> Result<Option<ArrayIndices>, AllocError> {
        match key.strip_suffix(self.suffix.as_str().as_bytes()) {
            Some(front) => self.keys.read(alloc, dimensionality, front),
            None => Ok(None),
        }
    }
}
