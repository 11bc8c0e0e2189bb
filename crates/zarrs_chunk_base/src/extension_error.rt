//! Why a tree of JSON gives no chunk grid or no chunk key encoding.
ghost use Rattle.std.specs.Prelude.{◌≡◌};
ghost use Rattle.zarrs_chunk_base.specs.Refusal.{MatchRefusal};
ghost use Rattle.zarrs_chunk_base.specs.declared.extension_error.ExtensionError.TheVariants.{Create, Metadata};

use crate::metadata_error::MetadataError;
use crate::plugin_create_error::PluginCreateError;
use crate::refusal::Refusal;
use thiserror::Error;

/// Why a JSON tree gives no chunk grid or no chunk key encoding, in the order in which faults are looked for.
#[derive(Debug, Drop, Error)]
pub enum ExtensionError {
    /// The tree is no extension's metadata.
    #[error("{0}")]
    Metadata(MetadataError),
    /// What the metadata ask for can't be made.
    #[error("{0}")]
    Create(PluginCreateError),
}

impl From<Refusal<MetadataError>> for Refusal<ExtensionError> {
    ghost use Rattle.zarrs_chunk_base.specs.declared.refusal.Refusal.TheVariants.{Memory, Refused};

    ghost from_gives = { λ given refusal. MatchRefusal given
        (λ error. refusal ≡ Refused (Metadata error))
        (λ error. refusal ≡ Memory error) };

    fn from(refusal: Refusal<MetadataError>) -> Refusal<ExtensionError> {
        refusal.map(ExtensionError::Metadata)
    }
}

impl From<Refusal<PluginCreateError>> for Refusal<ExtensionError> {
    ghost use Rattle.zarrs_chunk_base.specs.declared.refusal.Refusal.TheVariants.{Memory, Refused};

    ghost from_gives = { λ given refusal. MatchRefusal given
        (λ error. refusal ≡ Refused (Create error))
        (λ error. refusal ≡ Memory error) };

    fn from(refusal: Refusal<PluginCreateError>) -> Refusal<ExtensionError> {
        refusal.map(ExtensionError::Create)
    }
}
