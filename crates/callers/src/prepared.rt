//! The chunk of an element, by the numbers of a grid that was prepared once.
ghost use Rattle.std.specs.Prelude.{IfOk, MatchOption, cond};
ghost use Rattle.zarrs_chunk_base.specs.Dimension.{InBox};
ghost use Rattle.zarrs_chunk_base.specs.Grid.{Grid};
ghost use Rattle.zarrs_chunk_prepared.specs.Prepared.{IsPreparedGrid};
ghost use Rattle.zarrs_chunks.specs.Subsets.{HasNoHome};

use std::alloc::Global;
use zarrs_chunk_base::{IncompatibleDimensionalityError, Refusal};
use zarrs_chunk_prepared::PreparedGrid;

/// Writes the chunk that holds an element, and answers whether one does. `None` where the numbers aren't those of a grid.
pub fn find_chunk(
    alloc: Global,
    numbers: &[u64],
    array_indices: &[u64],
    chunk_indices: &mut [u64],
) -> Result<Option<bool>, Refusal<IncompatibleDimensionalityError>>
    ensures { (grid : Grid) → IsPreparedGrid numbers.now grid → IfOk result (λ answer.
        MatchOption answer ⊥ (λ found. cond found
        (InBox grid.dimensions chunk_indices.new array_indices.now)
        (HasNoHome grid.dimensions array_indices.now))) }
{
    let Some(grid) = PreparedGrid::read(alloc, numbers, 1)? else {
        return Ok(None);
    };
    match grid.find_home(array_indices, chunk_indices, &mut []) {
        Ok(found) => Ok(Some(found)),
        Err(error) => Err(Refusal::Refused(error)),
    }
}
