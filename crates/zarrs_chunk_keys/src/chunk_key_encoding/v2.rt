//! The `v2` encoding: the chunk numbers with a separator between them.
//!
//! ```json
//! {"name": "v2", "configuration": {"separator": "."}}
//! ```
//!
//! | | |
//! |---|---|
//! | Standard | Zarr V3 core, [v2](https://zarr-specs.readthedocs.io/en/latest/v3/chunk-key-encodings/v2/index.html) |
//! | Configuration | `separator`, `/` or `.`; where it is absent, `.` |
//! | Keys | of the chunk `[3, 2, 16]` `3.2.16` or `3/2/16`; of the chunk without numbers `0` |
//! | Differs from zarrs | in no key; an unknown member of the configuration is always refused |
ghost use Rattle.std.specs.Prelude.{◌≡◌};
ghost use Rattle.zarrs_chunk_base.specs.declared.chunk_key_separator.ChunkKeySeparator.TheVariants.{Dot, Slash};
ghost use Rattle.zarrs_chunk_keys.specs.ChunkKey.{v2_keys};
ghost use Rattle.zarrs_chunk_keys.specs.KeyKinds as kinds;
ghost use Rattle.zarrs_chunk_keys.specs.seen.Encodings.{v2_of};

use crate::chunk_key_encoding::of_kind::{EncodingOfKind, OfKind};
use crate::numerals::write_joined;
use crate::read_numerals::read_numbers;
use std::alloc::{AllocError, Global};
use zarrs_chunk_base::{
    ArrayIndices, ChunkKeySeparator, Configuration, ConfigurationForm, MetadataV3,
    PluginCreateError, Refusal, V2ChunkKeyEncodingConfiguration,
};

/// The `v2` encoding with a separator. The key of a chunk is its numbers in decimal digits, with the separator between
/// them: `3.2.16`. That of a chunk without numbers is `0`, as that of the chunk `[0]` of one dimension.
///
/// Source: Zarr V3 core, v2 chunk key encoding.
#[derive(Clone, Copy, Debug)]
pub struct V2ChunkKeyEncoding {
    separator: ChunkKeySeparator,
}

impl V2ChunkKeyEncoding {
    /// The encoding with this separator.
    pub fn new(separator: ChunkKeySeparator) -> V2ChunkKeyEncoding
        ensures { v2_of result ≡ v2_keys separator }
    {
        V2ChunkKeyEncoding { separator }
    }

    /// The encoding with the separator `.`.
    pub fn new_dot() -> V2ChunkKeyEncoding
        ensures { v2_of result ≡ v2_keys Dot }
    {
        V2ChunkKeyEncoding::new(ChunkKeySeparator::Dot)
    }

    /// The encoding with the separator `/`.
    pub fn new_slash() -> V2ChunkKeyEncoding
        ensures { v2_of result ≡ v2_keys Slash }
    {
        V2ChunkKeyEncoding::new(ChunkKeySeparator::Slash)
    }

    /// The same encoding. It never fails, and answers as every encoding's `clone`.
    pub fn clone(&self) -> Result<V2ChunkKeyEncoding, AllocError>
        ensures { result ≡ Ok self.now }
    {
        Ok(*self)
    }

    /// What stands between two numbers.
    pub(crate) fn separator(&self) -> ChunkKeySeparator
        ensures { v2_of self.now ≡ v2_keys result }
    {
        self.separator
    }
}

impl EncodingOfKind for V2ChunkKeyEncoding {
    ghost kind = { kinds.v2 };

    ghost encoding = { v2_of };
}

impl OfKind for V2ChunkKeyEncoding {
    fn of_metadata(
        alloc: Global,
        metadata: &MetadataV3,
    ) -> Result<V2ChunkKeyEncoding, Refusal<PluginCreateError>> {
        let configuration = V2ChunkKeyEncodingConfiguration::from_metadata(alloc, metadata)?;
        Ok(V2ChunkKeyEncoding::new(configuration.separator))
    }

    fn to_configuration(&self, alloc: Global) -> Result<Configuration, AllocError> {
        let separator = self.separator;
        V2ChunkKeyEncodingConfiguration { separator }.to_tree(alloc)
    }

    fn append(&self, text: &mut String, chunk_indices: &[u64]) -> Result<(), AllocError> {
        if chunk_indices.is_empty() {
            text.push('0')?;
            return Ok(());
        }
        write_joined(text, self.separator.as_char(), chunk_indices)?;
        Ok(())
    }

    #[tactic(auto, unfolding(crate::specs::ChunkKey::IsKey))]
    fn read(
        &self,
        alloc: Global,
        dimensionality: usize,
        key: &[u8],
    ) -> Result<Option<ArrayIndices>, AllocError> {
        if dimensionality > 0 {
            return read_numbers(alloc, self.separator, dimensionality, key);
        }
        if key == b"0".as_slice() {
            Ok(Some(Vec::new(alloc)))
        } else {
            Ok(None)
        }
    }
}

/// The encoding with the separator `.`.
impl Default for V2ChunkKeyEncoding {
    fn default() -> V2ChunkKeyEncoding
        ensures { v2_of result ≡ v2_keys Dot }
    {
        V2ChunkKeyEncoding::new_dot()
    }
}
