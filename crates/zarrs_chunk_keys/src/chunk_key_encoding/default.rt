//! The `default` encoding: `c`, and for each chunk number the separator and the number.
//!
//! ```json
//! {"name": "default", "configuration": {"separator": "/"}}
//! ```
//!
//! | | |
//! |---|---|
//! | Standard | Zarr V3 core, [default](https://zarr-specs.readthedocs.io/en/latest/v3/chunk-key-encodings/default/index.html) |
//! | Configuration | `separator`, `/` or `.`; where it is absent, `/` |
//! | Keys | of the chunk `[3, 2, 16]` `c/3/2/16` or `c.3.2.16`; of the chunk without numbers `c` |
//! | Differs from zarrs | in no key; an unknown member of the configuration is always refused |
ghost use Rattle.std.specs.Prelude.{◌≡◌};
ghost use Rattle.zarrs_chunk_base.specs.declared.chunk_key_separator.ChunkKeySeparator.TheVariants.{Dot, Slash};
ghost use Rattle.zarrs_chunk_keys.specs.ChunkKey.{default_keys};
ghost use Rattle.zarrs_chunk_keys.specs.KeyKinds as kinds;
ghost use Rattle.zarrs_chunk_keys.specs.seen.Encodings.{default_of};

use crate::chunk_key_encoding::of_kind::{EncodingOfKind, OfKind};
use crate::numerals::write_numerals;
use crate::read_numerals::read_numerals;
use std::alloc::{AllocError, Global};
use zarrs_chunk_base::{
    ArrayIndices, ChunkKeySeparator, Configuration, ConfigurationForm,
    DefaultChunkKeyEncodingConfiguration, MetadataV3, PluginCreateError, Refusal,
};

/// The `default` encoding with a separator. The key of a chunk is `c`, and for each of its numbers the separator and the
/// number in decimal digits: `c/3/2/16`. That of a chunk without numbers is `c`.
///
/// Source: Zarr V3 core, default chunk key encoding.
#[derive(Clone, Copy, Debug)]
pub struct DefaultChunkKeyEncoding {
    separator: ChunkKeySeparator,
}

impl DefaultChunkKeyEncoding {
    /// The encoding with this separator.
    pub fn new(separator: ChunkKeySeparator) -> DefaultChunkKeyEncoding
        ensures { default_of result ≡ default_keys separator }
    {
        DefaultChunkKeyEncoding { separator }
    }

    /// The encoding with the separator `.`.
    pub fn new_dot() -> DefaultChunkKeyEncoding
        ensures { default_of result ≡ default_keys Dot }
    {
        DefaultChunkKeyEncoding::new(ChunkKeySeparator::Dot)
    }

    /// The encoding with the separator `/`.
    pub fn new_slash() -> DefaultChunkKeyEncoding
        ensures { default_of result ≡ default_keys Slash }
    {
        DefaultChunkKeyEncoding::new(ChunkKeySeparator::Slash)
    }

    /// The same encoding. It never fails, and answers as every encoding's `clone`.
    pub fn clone(&self) -> Result<DefaultChunkKeyEncoding, AllocError>
        ensures { result ≡ Ok self.now }
    {
        Ok(*self)
    }

    /// What stands before each number.
    pub(crate) fn separator(&self) -> ChunkKeySeparator
        ensures { default_of self.now ≡ default_keys result }
    {
        self.separator
    }
}

impl EncodingOfKind for DefaultChunkKeyEncoding {
    ghost kind = { kinds.default };

    ghost encoding = { default_of };
}

impl OfKind for DefaultChunkKeyEncoding {
    fn of_metadata(
        alloc: Global,
        metadata: &MetadataV3,
    ) -> Result<DefaultChunkKeyEncoding, Refusal<PluginCreateError>> {
        let configuration = DefaultChunkKeyEncodingConfiguration::from_metadata(alloc, metadata)?;
        Ok(DefaultChunkKeyEncoding::new(configuration.separator))
    }

    fn to_configuration(&self, alloc: Global) -> Result<Configuration, AllocError> {
        let separator = self.separator;
        DefaultChunkKeyEncodingConfiguration { separator }.to_tree(alloc)
    }

    fn append(&self, text: &mut String, chunk_indices: &[u64]) -> Result<(), AllocError> {
        text.push('c')?;
        write_numerals(text, self.separator.as_char(), chunk_indices)?;
        Ok(())
    }

    fn read(
        &self,
        alloc: Global,
        dimensionality: usize,
        key: &[u8],
    ) -> Result<Option<ArrayIndices>, AllocError> {
        match key.strip_prefix(b"c".as_slice()) {
            Some(numerals) => read_numerals(alloc, self.separator, dimensionality, numerals),
            None => Ok(None),
        }
    }
}

/// The encoding with the separator `/`.
impl Default for DefaultChunkKeyEncoding {
    fn default() -> DefaultChunkKeyEncoding
        ensures { default_of result ≡ default_keys Slash }
    {
        DefaultChunkKeyEncoding::new_slash()
    }
}
