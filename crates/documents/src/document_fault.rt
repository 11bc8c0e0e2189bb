//! Why an input is no document of an array.
ghost use Rattle.std.specs.Prelude.{◌≡◌};
ghost use Rattle.documents.specs.declared.document_fault.DocumentFault.TheVariants.{Memory};

use std::alloc::AllocError;
use thiserror::Error;
use zarrs_chunk_base::MetadataError;

/// Why an input is no document of an array. A member of a member is called by both names, as `target.chunk_grid`.
#[derive(Debug, Drop, Error)]
pub enum DocumentFault {
    /// The input is no text of JSON.
    #[error("document is not JSON")]
    NotJson,
    /// The document is no JSON object.
    #[error("document is not an object")]
    NotObject,
    /// A member of the document is missing.
    #[error("missing field `{0}`")]
    Missing(&'static str),
    /// A member of the document isn't of its form.
    #[error("wrong value in field `{0}`")]
    WrongValue(&'static str),
    /// A member of the document is no extension's metadata.
    #[error("field `{0}`: {1}")]
    Metadata(&'static str, MetadataError),
    /// Out of memory.
    #[error("out of memory")]
    Memory,
}

impl From<AllocError> for DocumentFault {
    ghost from_gives = { λ _ fault. fault ≡ Memory };

    fn from(_error: AllocError) -> DocumentFault {
        DocumentFault::Memory
    }
}
