//! One dimension of an array that is cut into chunks of one edge.
ghost use Rattle.std.specs.Prelude.{◌≡◌, ◌*◌, ◌/◌, ◌<◌, ◌^◌, SomeIff};
ghost use Rattle.std.specs.Int.NonZero.{non_zero_u64_get};
ghost use Rattle.zarrs_chunk_base.specs.Greatest.{greatest};

use crate::axis::{Axis, AxisFrom};
use crate::in_bounds::is_in_bounds;
use std::alloc::{AllocError, Global};
use std::num::NonZeroU64;

/// One dimension of an array, cut into chunks of one edge.
#[derive(Debug, Drop)]
pub struct EqualAxis {
    /// How many elements the array has.
    array_size: u64,
    /// How many elements a chunk has.
    edge: NonZeroU64,
    /// How often the edge goes into 18446744073709551615.
    inverse: u64,
    ghost is_inverse: { inverse ≡ greatest / non_zero_u64_get edge },
}

impl EqualAxis {
    /// How often the edge goes into a number.
    fn quotient(&self, number: u64) -> u64
        ensures { result ≡ number / non_zero_u64_get self.now.edge }
    {
        // A division takes long. Below 2^32 the product with the inverse is close enough: the quotient is what stands before its last 64 bits.
        if number < 1 << 32 {
            ((u128::from(number + 1) * u128::from(self.inverse)) >> 64) as u64
        } else {
            number / self.edge.get()
        }
    }
}

impl Axis for EqualAxis {
    ghost use Rattle.std.specs.Int.NonZero.{non_zero_u64_get};
    ghost use Rattle.zarrs_chunk_base.specs.DimensionEdges.{equal};
    ghost use Rattle.zarrs_chunk_axes.specs.seen.EqualAxis.{equal_of, equal_is_chain};

    ghost dimension = { equal_of };

    ghost edges = { λ axis. equal (non_zero_u64_get axis.edge) };

    ghost chained = { equal_is_chain };

    fn array_size(&self) -> u64 {
        self.array_size
    }

    fn grid_size(&self) -> u64 {
        self.array_size.div_ceil(self.edge.get())
    }

    fn chunk_of(&self, index: u64) -> Option<u64> {
        Some(self.quotient(index))
    }

    fn origin_of(&self, chunk: u64) -> Option<u64> {
        edges_before(chunk, self.edge)
    }

    fn home_of(&self, index: u64) -> Option<(u64, u64)> {
        let chunk = self.quotient(index);
        Some((chunk, index - chunk * self.edge.get()))
    }

    // As for every axis, but inlined into the loop over all dimensions.
    #[inline(always)]
    fn place_of(&self, index: u64) -> Option<u64> {
        Some(self.home_of(index)?.1)
    }

    fn edge_of(&self, _chunk: u64) -> Option<NonZeroU64> {
        Some(self.edge)
    }

    fn regular_edge(&self) -> Option<NonZeroU64> {
        Some(self.edge)
    }

    fn is_in_bounds(&self, index: u64) -> bool {
        is_in_bounds(self.array_size, index)
    }

    fn clone(&self) -> Result<EqualAxis, AllocError> {
        Ok(EqualAxis {
            array_size: self.array_size,
            edge: self.edge,
            inverse: self.inverse,
        })
    }
}

/// Every array size and edge make a dimension.
impl AxisFrom<NonZeroU64> for EqualAxis {
    ghost use Rattle.std.specs.Int.NonZero.{non_zero_u64_get};
    ghost use Rattle.zarrs_chunk_base.specs.DimensionEdges.{equal};
    ghost use Rattle.zarrs_chunk_axes.specs.EqualOrListed.{IsEqualOrListed};
    ghost use Rattle.zarrs_chunk_axes.specs.lemmas.EqualOrListedSizes.{equal_or_listed_size};

    ghost tells = { λ edge. equal (non_zero_u64_get edge) };

    ghost is_written = { λ _. Unit {0} };

    ghost accepted = { λ _ _. Unit {0} };

    ghost is_made_of = { IsEqualOrListed };

    ghost sized = { equal_or_listed_size };

    fn accepts(_array_size: u64, _edge: &NonZeroU64) -> bool {
        true
    }

    fn new(_alloc: Global, array_size: u64, edge: &NonZeroU64) -> Result<EqualAxis, AllocError> {
        Ok(EqualAxis {
            array_size,
            edge: *edge,
            inverse: u64::MAX / edge.get(),
        })
    }

    fn configuration(&self, _alloc: Global) -> Result<NonZeroU64, AllocError> {
        Ok(self.edge)
    }
}

/// Where a chunk starts that has so many chunks of one edge before it; `None` where that is past the greatest `u64`.
pub(crate) fn edges_before(chunk: u64, edge: NonZeroU64) -> Option<u64>
    ensures { SomeIff result (chunk * non_zero_u64_get edge < 2 ^ 64)
        (chunk * non_zero_u64_get edge) }
{
    // The compiler makes one multiplication of this, and two of `checked_mul`.
    u64::try_from(u128::from(chunk) * u128::from(edge.get())).ok()
}
