//! One dimension of an array that is cut into chunks of one edge, none of which reaches past the array.
use crate::axis::{Axis, AxisFrom};
use crate::equal_axis::edges_before;
use crate::in_bounds::is_in_bounds;
use std::alloc::{AllocError, Global};
use std::num::NonZeroU64;

/// One dimension of an array, cut into chunks of one edge that end with the array at the latest.
#[derive(Debug, Drop)]
pub struct BoundedAxis {
    /// How many elements the array has.
    array_size: u64,
    /// How many elements a chunk has that ends within the array.
    edge: NonZeroU64,
}

impl Axis for BoundedAxis {
    ghost use Rattle.std.specs.Int.NonZero.{non_zero_u64_get};
    ghost use Rattle.zarrs_chunk_base.specs.DimensionEdges.{equal};
    ghost use Rattle.zarrs_chunk_axes.specs.seen.BoundedAxis.{bounded_of, bounded_is_chain};

    ghost dimension = { bounded_of };

    ghost edges = { λ axis. equal (non_zero_u64_get axis.edge) };

    ghost chained = { bounded_is_chain };

    fn array_size(&self) -> u64 {
        self.array_size
    }

    fn grid_size(&self) -> u64 {
        self.array_size.div_ceil(self.edge.get())
    }

    fn chunk_of(&self, index: u64) -> Option<u64> {
        if index < self.array_size {
            Some(index / self.edge.get())
        } else {
            None
        }
    }

    fn origin_of(&self, chunk: u64) -> Option<u64> {
        let start = edges_before(chunk, self.edge)?;
        if start < self.array_size {
            Some(start)
        } else {
            None
        }
    }

    fn home_of(&self, index: u64) -> Option<(u64, u64)> {
        if index < self.array_size {
            let edge = self.edge.get();
            Some((index / edge, index % edge))
        } else {
            None
        }
    }

    fn edge_of(&self, chunk: u64) -> Option<NonZeroU64> {
        let array_size = self.array_size;
        let start = edges_before(chunk, self.edge)?;
        let rest = NonZeroU64::new(array_size.saturating_sub(start))?;
        if rest < self.edge {
            Some(rest)
        } else {
            Some(self.edge)
        }
    }

    fn regular_edge(&self) -> Option<NonZeroU64> {
        Some(self.edge)
    }

    fn is_in_bounds(&self, index: u64) -> bool {
        is_in_bounds(self.array_size, index)
    }

    fn clone(&self) -> Result<BoundedAxis, AllocError> {
        Ok(BoundedAxis {
            array_size: self.array_size,
            edge: self.edge,
        })
    }
}

/// Every array size and edge make a dimension.
impl AxisFrom<NonZeroU64> for BoundedAxis {
    ghost use Rattle.std.specs.Int.NonZero.{non_zero_u64_get};
    ghost use Rattle.zarrs_chunk_base.specs.DimensionEdges.{equal};
    ghost use Rattle.zarrs_chunk_axes.specs.Bounded.{IsBoundedBy};
    ghost use Rattle.zarrs_chunk_axes.specs.seen.BoundedAxis.{bounded_size};

    ghost tells = { λ edge. equal (non_zero_u64_get edge) };

    ghost is_written = { λ _. Unit {0} };

    ghost accepted = { λ _ _. Unit {0} };

    ghost is_made_of = { IsBoundedBy };

    ghost sized = { bounded_size };

    fn accepts(_array_size: u64, _edge: &NonZeroU64) -> bool {
        true
    }

    fn new(_alloc: Global, array_size: u64, edge: &NonZeroU64) -> Result<BoundedAxis, AllocError> {
        Ok(BoundedAxis {
            array_size,
            edge: *edge,
        })
    }

    fn configuration(&self, _alloc: Global) -> Result<NonZeroU64, AllocError> {
        Ok(self.edge)
    }
}
