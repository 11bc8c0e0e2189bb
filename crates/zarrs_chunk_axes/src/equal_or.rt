//! One dimension of an array that is cut into chunks of one edge, or in another way.
ghost use Rattle.std.specs.Prelude.{◌≤◌, SomeIff, map};
ghost use Rattle.std.specs.List.{sum};
ghost use Rattle.std.specs.Int.NonZero.{non_zero_u64_get};
ghost use Rattle.zarrs_chunk_base.specs.Greatest.{greatest};

use crate::axis::{Axis, AxisFrom};
use crate::equal_axis::EqualAxis;
use crate::listed_axis::ListedAxis;
use crate::runs_axis::RunsAxis;
use std::alloc::{AllocError, Global};
use std::num::NonZeroU64;
use zarrs_chunk_base::{ChunkEdgeLengths, RectangularChunkGridDimensionConfiguration};

/// One dimension of an array, cut into chunks of one edge or as an axis of another kind is. It answers every call as the axis inside it.
#[derive(Debug, Drop)]
pub enum EqualOr<A> {
    /// One edge for all chunks.
    Equal(EqualAxis),
    /// An axis of the other kind.
    Other(A),
}

/// What the axis inside answers.
macro_rules! inside {
    ($either:expr, $axis:ident => $answer:expr) => {
        match $either {
            EqualOr::Equal($axis) => $answer,
            EqualOr::Other($axis) => $answer,
        }
    };
}

impl<A: Axis> Axis for EqualOr<A> {
    ghost use Rattle.zarrs_chunk_axes.specs.seen.EqualOr.{equal_or, equal_or_edges, equal_or_is_chain};

    ghost dimension = { equal_or A.dimension };

    ghost edges = { equal_or_edges A.edges };

    ghost chained = { equal_or_is_chain A.dimension A.chained };

    fn array_size(&self) -> u64 {
        inside!(self, axis => axis.array_size())
    }

    fn grid_size(&self) -> u64 {
        inside!(self, axis => axis.grid_size())
    }

    fn chunk_of(&self, index: u64) -> Option<u64> {
        inside!(self, axis => axis.chunk_of(index))
    }

    // It is inlined into the loop over all dimensions, as the look-up of one edge for all is.
    #[inline(always)]
    fn origin_of(&self, chunk: u64) -> Option<u64> {
        inside!(self, axis => axis.origin_of(chunk))
    }

    fn home_of(&self, index: u64) -> Option<(u64, u64)> {
        inside!(self, axis => axis.home_of(index))
    }

    fn place_of(&self, index: u64) -> Option<u64> {
        inside!(self, axis => axis.place_of(index))
    }

    fn edge_of(&self, chunk: u64) -> Option<NonZeroU64> {
        inside!(self, axis => axis.edge_of(chunk))
    }

    fn range_of(&self, chunk: u64) -> Option<(u64, u64)> {
        inside!(self, axis => axis.range_of(chunk))
    }

    fn regular_edge(&self) -> Option<NonZeroU64> {
        inside!(self, axis => axis.regular_edge())
    }

    fn is_in_bounds(&self, index: u64) -> bool {
        inside!(self, axis => axis.is_in_bounds(index))
    }

    fn clone(&self) -> Result<EqualOr<A>, AllocError> {
        Ok(match self {
            EqualOr::Equal(axis) => EqualOr::Equal(axis.clone()?),
            EqualOr::Other(axis) => EqualOr::Other(axis.clone()?),
        })
    }
}

/// A dimension of a `rectangular` grid.
impl AxisFrom<RectangularChunkGridDimensionConfiguration> for EqualOr<ListedAxis> {
    ghost use Rattle.zarrs_chunk_base.specs.DimensionEdges.{rectangular_edges};
    ghost use Rattle.zarrs_chunk_axes.specs.EqualOrListed.{IsEqualOrListed};
    ghost use Rattle.zarrs_chunk_axes.specs.lemmas.EqualOrListedSizes.{equal_or_listed_size};
    ghost use Rattle.zarrs_chunk_axes.specs.Rectangular.{IsRectangular};

    ghost tells = { rectangular_edges };

    ghost is_written = { λ _. Unit {0} };

    ghost accepted = { IsRectangular };

    ghost is_made_of = { IsEqualOrListed };

    ghost sized = { equal_or_listed_size };

    fn accepts(
        array_size: u64,
        configuration: &RectangularChunkGridDimensionConfiguration,
    ) -> bool {
        match configuration {
            RectangularChunkGridDimensionConfiguration::Fixed(_) => true,
            RectangularChunkGridDimensionConfiguration::Varying(edges) => {
                !edges.is_empty() && total(edges) == Some(array_size)
            }
        }
    }

    fn new(
        alloc: Global,
        array_size: u64,
        configuration: &RectangularChunkGridDimensionConfiguration,
    ) -> Result<EqualOr<ListedAxis>, AllocError> {
        Ok(match configuration {
            RectangularChunkGridDimensionConfiguration::Fixed(edge) => {
                EqualOr::Equal(EqualAxis::new(alloc, array_size, edge)?)
            }
            RectangularChunkGridDimensionConfiguration::Varying(edges) => {
                EqualOr::Other(ListedAxis::new(alloc, array_size, edges)?)
            }
        })
    }

    fn configuration(
        &self,
        alloc: Global,
    ) -> Result<RectangularChunkGridDimensionConfiguration, AllocError> {
        Ok(match self {
            EqualOr::Equal(axis) => {
                RectangularChunkGridDimensionConfiguration::Fixed(axis.configuration(alloc)?)
            }
            EqualOr::Other(axis) => {
                RectangularChunkGridDimensionConfiguration::Varying(axis.edges(alloc)?)
            }
        })
    }
}

/// A dimension of a `rectilinear` grid.
impl AxisFrom<ChunkEdgeLengths> for EqualOr<RunsAxis> {
    ghost use Rattle.zarrs_chunk_base.specs.RunLength.{rectilinear_edges, lengths_of, IsWrittenLengths};
    ghost use Rattle.zarrs_chunk_axes.specs.EqualOrListed.{IsEqualOrListed};
    ghost use Rattle.zarrs_chunk_axes.specs.lemmas.EqualOrListedSizes.{equal_or_listed_size};
    ghost use Rattle.zarrs_chunk_axes.specs.Rectilinear.{IsRectilinear};

    ghost tells = { rectilinear_edges };

    ghost is_written = { λ lengths. IsWrittenLengths (lengths_of lengths) };

    ghost accepted = { IsRectilinear };

    ghost is_made_of = { IsEqualOrListed };

    ghost sized = { equal_or_listed_size };

    #[tactic(auto, using(crate::proofs::Expansions::none_of_sum))]
    fn accepts(array_size: u64, lengths: &ChunkEdgeLengths) -> bool {
        match lengths {
            ChunkEdgeLengths::Scalar(_) => true,
            ChunkEdgeLengths::Varying(elements) => match zarrs_chunk_runs::total(elements) {
                // No edge is 0, so only an empty list has the sum 0.
                Some(sum) => sum > 0 && array_size <= sum,
                None => false,
            },
        }
    }

    fn new(
        alloc: Global,
        array_size: u64,
        lengths: &ChunkEdgeLengths,
    ) -> Result<EqualOr<RunsAxis>, AllocError> {
        Ok(match lengths {
            ChunkEdgeLengths::Scalar(edge) => {
                EqualOr::Equal(EqualAxis::new(alloc, array_size, edge)?)
            }
            ChunkEdgeLengths::Varying(elements) => {
                EqualOr::Other(RunsAxis::new(alloc, array_size, elements)?)
            }
        })
    }

    fn configuration(&self, alloc: Global) -> Result<ChunkEdgeLengths, AllocError> {
        Ok(match self {
            EqualOr::Equal(axis) => ChunkEdgeLengths::Scalar(axis.configuration(alloc)?),
            EqualOr::Other(axis) => ChunkEdgeLengths::Varying(axis.elements(alloc)?),
        })
    }
}

/// The sum of the edges, where it is at most the greatest `u64`.
fn total(edges: &[NonZeroU64]) -> Option<u64>
    ensures { SomeIff result (sum (map non_zero_u64_get edges.now) ≤ greatest)
        (sum (map non_zero_u64_get edges.now)) }
{
    let mut total = 0u64;
    for edge in edges {
        total = total.checked_add(edge.get())?;
    }
    Some(total)
}
