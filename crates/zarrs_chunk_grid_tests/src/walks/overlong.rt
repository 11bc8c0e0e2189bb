//! A grid whose chunks have no box, and which counts how often it is asked for one.
ghost use Rattle.std.specs.Prelude.{◌≡◌, ◌≢◌, MatchResult, length};
ghost use Rattle.zarrs_chunk_base.specs.Refusal.{MatchRefusal, TellsLengths};

use std::alloc::{AllocError, Global};
use std::cell::Cell;
use zarrs_chunk_base::{
    ArrayIndices, ArraySubset, ChunkShape, Configuration, IncompatibleDimensionalityError,
    MetadataV3, PluginCreateError, Refusal,
};
use zarrs_chunks::ChunkGridTraits;

const MAX: u64 = u64::MAX;

/// Two dimensions: along the first one chunk, which ends past the greatest number, so that no chunk has a box; along the
/// second as many chunks of one element as can be counted.
#[derive(Drop)]
pub(super) struct Overlong {
    /// How often a box was asked for.
    pub(super) asked: Cell<u64>,
    /// Whether there is memory to look for one.
    pub(super) has_memory: bool,
}

impl ChunkGridTraits for Overlong {
    ghost use Rattle.zarrs_chunk_grid_tests.specs.Overlong.{overlong, overlong_are_chains};

    ghost dimensions = { λ _. overlong };

    ghost chained = { λ _. overlong_are_chains };

    fn create(
        _alloc: Global,
        _metadata: &MetadataV3,
        _array_shape: &[u64],
    ) -> Result<Overlong, Refusal<PluginCreateError>> {
        Err(Refusal::Memory(AllocError))
    }

    fn configuration(&self, _alloc: Global) -> Result<Configuration, AllocError> {
        Err(AllocError)
    }

    fn dimensionality(&self) -> usize {
        2
    }

    fn array_shape(&self) -> &[u64] {
        &[MAX, MAX]
    }

    fn grid_shape(&self) -> &[u64] {
        &[1, MAX]
    }

    fn chunk_shape(
        &self,
        _alloc: Global,
        chunk_indices: &[u64],
    ) -> Result<Option<ChunkShape>, Refusal<IncompatibleDimensionalityError>> {
        Err(no_memory(chunk_indices))
    }

    fn chunk_origin(
        &self,
        _alloc: Global,
        chunk_indices: &[u64],
    ) -> Result<Option<ArrayIndices>, Refusal<IncompatibleDimensionalityError>> {
        Err(no_memory(chunk_indices))
    }

    fn chunk_indices(
        &self,
        _alloc: Global,
        array_indices: &[u64],
    ) -> Result<Option<ArrayIndices>, Refusal<IncompatibleDimensionalityError>> {
        Err(no_memory(array_indices))
    }

    fn subset(
        &self,
        _alloc: Global,
        chunk_indices: &[u64],
    ) -> Result<Option<ArraySubset>, Refusal<IncompatibleDimensionalityError>> {
        self.asked.set(self.asked.get().saturating_add(1));
        if self.has_memory && chunk_indices.len() == 2 {
            return Ok(None);
        }
        Err(no_memory(chunk_indices))
    }
}

/// No memory, but for a list of another length than two.
fn no_memory(numbers: &[u64]) -> Refusal<IncompatibleDimensionalityError>
    ensures { MatchRefusal result
        (λ error. (length numbers.now ≢ 2) × TellsLengths (length numbers.now) 2 error)
        (λ _. length numbers.now ≡ 2) }
{
    if numbers.len() == 2 {
        return Refusal::Memory(AllocError);
    }
    Refusal::Refused(IncompatibleDimensionalityError::new(numbers.len(), 2))
}
