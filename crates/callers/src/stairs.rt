//! A grid of one's own.
ghost use Rattle.std.specs.Prelude.{◌≡◌, ◌∷◌, [], MatchResult, length};
ghost use Rattle.zarrs_chunk_base.specs.Refusal.{RefusesLength};

use std::alloc::{AllocError, Global};
use std::num::NonZeroU64;
use zarrs_chunk_base::{
    ArrayIndices, ChunkShape, Configuration, IncompatibleDimensionalityError, MetadataV3,
    PluginCreateError, Refusal,
};
use zarrs_chunks::ChunkGridTraits;

/// One dimension of six elements, in chunks of the edges 1, 2 and 3.
#[derive(Debug, Drop)]
pub struct Stairs;

impl ChunkGridTraits for Stairs {
    ghost use Rattle.std.specs.Prelude.{◌∷◌, []};
    ghost use Rattle.callers.specs.Stairs.{stairs, stairs_is_chain};

    ghost dimensions = { λ _. stairs ∷ [] };

    ghost chained = { λ _. (stairs_is_chain, tt) };

    fn create(
        alloc: Global,
        _metadata: &MetadataV3,
        array_shape: &[u64],
    ) -> Result<Stairs, Refusal<PluginCreateError>> {
        match array_shape {
            [6] => Ok(Stairs),
            _ => {
                let text = String::from_str(alloc, "stairs have one dimension of six elements")?;
                Err(Refusal::Refused(PluginCreateError::Other(text)))
            }
        }
    }

    fn configuration(&self, alloc: Global) -> Result<Configuration, AllocError> {
        Ok(Configuration::new(alloc))
    }

    fn dimensionality(&self) -> usize {
        1
    }

    fn array_shape(&self) -> &[u64] {
        &[6]
    }

    fn grid_shape(&self) -> &[u64] {
        &[3]
    }

    fn chunk_shape(
        &self,
        alloc: Global,
        chunk_indices: &[u64],
    ) -> Result<Option<ChunkShape>, Refusal<IncompatibleDimensionalityError>> {
        let edge = match only(chunk_indices)? {
            0 => NonZeroU64::MIN,
            1 => NonZeroU64::new(2).unwrap(),
            2 => NonZeroU64::new(3).unwrap(),
            _ => return Ok(None),
        };
        Ok(Some(vec![in alloc; edge]?))
    }

    fn chunk_origin(
        &self,
        alloc: Global,
        chunk_indices: &[u64],
    ) -> Result<Option<ArrayIndices>, Refusal<IncompatibleDimensionalityError>> {
        let origin = match only(chunk_indices)? {
            0 => 0,
            1 => 1,
            2 => 3,
            _ => return Ok(None),
        };
        Ok(Some(vec![in alloc; origin]?))
    }

    fn chunk_indices(
        &self,
        alloc: Global,
        array_indices: &[u64],
    ) -> Result<Option<ArrayIndices>, Refusal<IncompatibleDimensionalityError>> {
        let chunk = match only(array_indices)? {
            0 => 0,
            1 | 2 => 1,
            3..=5 => 2,
            _ => return Ok(None),
        };
        Ok(Some(vec![in alloc; chunk]?))
    }
}

/// The number of a list of one.
fn only(numbers: &[u64]) -> Result<u64, Refusal<IncompatibleDimensionalityError>>
    ensures { MatchResult result (λ n. numbers.now ≡ n ∷ [])
        (RefusesLength (length numbers.now) 1) }
{
    match numbers {
        [number] => Ok(*number),
        _ => Err(Refusal::Refused(IncompatibleDimensionalityError::new(numbers.len(), 1))),
    }
}
