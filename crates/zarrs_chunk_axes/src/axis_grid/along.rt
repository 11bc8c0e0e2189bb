//! Look-ups along one dimension.
ghost use Rattle.std.specs.Prelude.{◌<◌, ℕ, IfSome, MatchOption};
ghost use Rattle.std.specs.Int.NonZero.{non_zero_u64_get};
ghost use Rattle.zarrs_chunk_base.specs.Greatest.{greatest};
ghost use Rattle.zarrs_chunk_axes.specs.Along.{HoldsAlong, IsRangeAlong, IsRegularAlong};

use super::AxisGrid;
use crate::axis::Axis;
use std::num::NonZeroU64;

impl<A: Axis + Drop> AxisGrid<A> {
    ghost use Rattle.zarrs_chunk_axes.specs.seen.AxisGrid.{dimensions_of};

    /// The chunk of a dimension that an index lies in; `None` where it lies in none, or there is no such dimension.
    pub fn chunk_along(&self, dimension: usize, index: u64) -> Option<u64>
        ensures { MatchOption result
            ((c : ℕ) → ¬ HoldsAlong (dimensions_of self.now) dimension index c)
            (HoldsAlong (dimensions_of self.now) dimension index) }
    {
        let Some(axis) = self.axes.get(dimension) else {
            return None;
        };
        axis.chunk_of(index)
    }

    /// Where a chunk of a dimension starts, and how many elements long it is; `None` where there is no such chunk or dimension, or it starts past the
    /// greatest `u64`.
    pub fn range_along(&self, dimension: usize, chunk: u64) -> Option<(u64, u64)>
        ensures { MatchOption result
            ((range : ℕ × ℕ) → IsRangeAlong (dimensions_of self.now) dimension chunk range
            → greatest < range.0)
            (IsRangeAlong (dimensions_of self.now) dimension chunk) }
    {
        let Some(axis) = self.axes.get(dimension) else {
            return None;
        };
        let start = axis.origin_of(chunk)?;
        let edge = axis.edge_of(chunk)?;
        Some((start, edge.get()))
    }

    /// The edge of a dimension, where each element lies in the chunk whose number is its index along it divided by the edge.
    pub fn regular_along(&self, dimension: usize) -> Option<NonZeroU64>
        ensures { IfSome result (λ edge. IsRegularAlong (dimensions_of self.now) dimension
            (non_zero_u64_get edge)) }
    {
        match self.axes.get(dimension) {
            Some(axis) => axis.regular_edge(),
            None => None,
        }
    }
}
