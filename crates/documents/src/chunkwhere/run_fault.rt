//! Why a run of the program stops.
ghost use Rattle.std.specs.Prelude.{◌≡◌};
ghost use Rattle.documents.specs.chunkwhere.RunFault.{of_document, of_create, of_stream};
ghost use Rattle.documents.specs.declared.chunkwhere.run_fault.RunFault.TheVariants.{Memory};

use crate::document_fault::DocumentFault;
use crate::storage_metadata::CreateFault;
use std::alloc::AllocError;
use streams::StreamFault;
use thiserror::Error;
use zarrs_chunk_base::{IncompatibleDimensionalityError, MetadataError, PluginCreateError};

/// Why a run stops. Nothing has been written, except on `Write`.
#[derive(Debug, Drop, Error)]
pub enum RunFault {
    /// A read failed.
    #[error("input failed")]
    Read,
    /// The input is no text of JSON.
    #[error("document is not JSON")]
    NotJson,
    /// The document is no JSON object.
    #[error("document is not an object")]
    NotObject,
    /// A member of the document is missing.
    #[error("missing field `{0}`")]
    Missing(&'static str),
    /// A member of the document isn't of its form.
    #[error("wrong value in field `{0}`")]
    WrongValue(&'static str),
    /// A member of the document is no extension's metadata.
    #[error("field `{0}`: {1}")]
    Metadata(&'static str, MetadataError),
    /// The document's chunk grid can't be made.
    #[error(transparent)]
    Grid(PluginCreateError),
    /// The document's chunk key encoding can't be made.
    #[error(transparent)]
    Encoding(PluginCreateError),
    /// The index list at this position, counted from 0, has a wrong length.
    #[error("index {0}: {1}")]
    Index(usize, IncompatibleDimensionalityError),
    /// A write or the flush failed, or a write took nothing. A beginning of the text may have been written.
    #[error("output failed")]
    Write,
    /// Out of memory.
    #[error("out of memory")]
    Memory,
}

impl From<AllocError> for RunFault {
    ghost from_gives = { λ _ fault. fault ≡ Memory };

    fn from(_error: AllocError) -> RunFault {
        RunFault::Memory
    }
}

impl From<StreamFault> for RunFault {
    ghost from_gives = { λ told fault. fault ≡ of_stream told };

    fn from(told: StreamFault) -> RunFault {
        match told {
            StreamFault::Read => RunFault::Read,
            StreamFault::Write => RunFault::Write,
            StreamFault::Memory => RunFault::Memory,
        }
    }
}

impl From<DocumentFault> for RunFault {
    ghost from_gives = { λ told fault. fault ≡ of_document told };

    fn from(told: DocumentFault) -> RunFault {
        match told {
            DocumentFault::NotJson => RunFault::NotJson,
            DocumentFault::NotObject => RunFault::NotObject,
            DocumentFault::Missing(field) => RunFault::Missing(field),
            DocumentFault::WrongValue(field) => RunFault::WrongValue(field),
            DocumentFault::Metadata(field, error) => RunFault::Metadata(field, error),
            DocumentFault::Memory => RunFault::Memory,
        }
    }
}

impl From<CreateFault> for RunFault {
    ghost from_gives = { λ told fault. fault ≡ of_create told };

    fn from(told: CreateFault) -> RunFault {
        match told {
            CreateFault::Grid(error) => RunFault::Grid(error),
            CreateFault::Encoding(error) => RunFault::Encoding(error),
            CreateFault::Memory => RunFault::Memory,
        }
    }
}
