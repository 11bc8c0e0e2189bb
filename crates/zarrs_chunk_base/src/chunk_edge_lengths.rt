//! The chunk edges of one dimension of a `rectilinear` grid.
ghost use Rattle.std.specs.Prelude.{IfOk};
ghost use Rattle.zarrs_chunk_base.specs.RunLength.{IsSameChunkEdgeLengths};

use crate::in_brackets::InBrackets;
use crate::run_length_element::RunLengthElement;
use std::alloc::AllocError;
use std::fmt;
use std::num::NonZeroU64;

/// The chunk edges of one dimension, in elements of the array.
///
/// Source: the `rectilinear` extension of zarr-extensions.
#[derive(Debug, Drop, PartialEq, Eq)]
pub enum ChunkEdgeLengths {
    /// One edge for all chunks.
    Scalar(NonZeroU64),
    /// The edges of the chunks in order, those of each run-length element after those of the one before. An empty list
    /// makes no grid.
    Varying(Vec<RunLengthElement>),
}

impl ChunkEdgeLengths {
    /// Edge lengths of the same elements.
    ///
    /// # Errors
    /// Out of memory.
    pub fn clone(&self) -> Result<ChunkEdgeLengths, AllocError>
        ensures { IfOk result (λ copy. IsSameChunkEdgeLengths copy self.now) }
    {
        Ok(match self {
            ChunkEdgeLengths::Scalar(edge) => ChunkEdgeLengths::Scalar(*edge),
            ChunkEdgeLengths::Varying(elements) => ChunkEdgeLengths::Varying(elements.clone()?),
        })
    }
}

/// For lists of them.
impl Clone for ChunkEdgeLengths {
    ghost is_clone = { λ lengths copy. IsSameChunkEdgeLengths copy lengths };

    fn clone(&self) -> Result<ChunkEdgeLengths, AllocError> {
        ChunkEdgeLengths::clone(self)
    }
}

/// An edge as its number, elements as `[[5, 3], 20]`.
impl fmt::Display for ChunkEdgeLengths {
    fn fmt<W: fmt::Write>(&self, f: &mut fmt::Formatter<W>) -> fmt::Result {
        match self {
            ChunkEdgeLengths::Scalar(edge) => write!(f, "{edge}"),
            ChunkEdgeLengths::Varying(elements) => write!(f, "{}", InBrackets(elements)),
        }
    }
}
