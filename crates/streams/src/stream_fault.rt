//! Why bytes don't come, or don't go.
ghost use Rattle.std.specs.Prelude.{◌≡◌};
ghost use Rattle.streams.specs.declared.stream_fault.StreamFault.TheVariants.{Memory};

use std::alloc::{AllocError, AllocFailed};
use thiserror::Error;

/// Why bytes don't come from a reader, or don't go to a writer.
#[derive(Debug, Drop, Error)]
pub enum StreamFault {
    /// A read failed.
    #[error("input failed")]
    Read,
    /// A write or the flush failed, or a write took nothing.
    #[error("output failed")]
    Write,
    /// Out of memory.
    #[error("out of memory")]
    Memory,
}

impl From<AllocError> for StreamFault {
    ghost from_gives = { λ _ fault. fault ≡ Memory };

    fn from(_error: AllocError) -> StreamFault {
        StreamFault::Memory
    }
}

impl<T: Drop> From<AllocFailed<T>> for StreamFault {
    ghost from_gives = { λ _ fault. fault ≡ Memory };

    fn from(_failed: AllocFailed<T>) -> StreamFault {
        StreamFault::Memory
    }
}
