//! A text that is no suffix of chunk keys.
ghost use Rattle.std.specs.Prelude.{◌≡◌, IfOk, string_bytes};

use std::alloc::AllocError;
use thiserror::Error;

/// A text that ends in a slash, and so is no suffix of chunk keys.
#[derive(Debug, Drop, Error)]
#[error("chunk key suffix must not end with a slash")]
pub struct ChunkKeySuffixError(pub String);

impl ChunkKeySuffixError {
    /// The error about an equal text.
    ///
    /// # Errors
    /// Out of memory.
    pub fn clone(&self) -> Result<ChunkKeySuffixError, AllocError>
        ensures { IfOk result (λ error. string_bytes error.0 ≡ string_bytes self.now.0) }
    {
        Ok(ChunkKeySuffixError(self.0.clone()?))
    }
}
