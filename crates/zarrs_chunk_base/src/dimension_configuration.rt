//! The chunk edges of one dimension of a `rectangular` grid.
ghost use Rattle.std.specs.Prelude.{◌≡◌, IfOk};
ghost use Rattle.std.specs.declared.num.NonZeroU64.{NonZeroU64};
ghost use Rattle.zarrs_chunk_base.specs.DimensionEdges.{rectangular_edges};
ghost use Rattle.zarrs_chunk_base.specs.declared.dimension_configuration.RectangularChunkGridDimensionConfiguration.TheVariants.{Fixed, Varying};

use std::alloc::AllocError;
use std::fmt;
use std::num::NonZeroU64;

/// The chunk edges of one dimension, in elements.
///
/// Source: ZEP 3, variable chunks.
#[derive(Debug, Drop, PartialEq, Eq)]
pub enum RectangularChunkGridDimensionConfiguration {
    /// One edge for all chunks.
    Fixed(NonZeroU64),
    /// An edge for each chunk, in order.
    Varying(Vec<NonZeroU64>),
}

impl RectangularChunkGridDimensionConfiguration {
    /// A configuration with the same edges.
    ///
    /// # Errors
    /// Out of memory.
    pub fn clone(&self) -> Result<RectangularChunkGridDimensionConfiguration, AllocError>
        ensures { IfOk result (λ copy. rectangular_edges copy ≡ rectangular_edges self.now) }
    {
        Ok(match self {
            RectangularChunkGridDimensionConfiguration::Fixed(edge) => {
                RectangularChunkGridDimensionConfiguration::Fixed(*edge)
            }
            RectangularChunkGridDimensionConfiguration::Varying(edges) => {
                RectangularChunkGridDimensionConfiguration::Varying(edges.clone()?)
            }
        })
    }
}

/// For lists of them.
impl Clone for RectangularChunkGridDimensionConfiguration {
    ghost is_clone = { λ configuration copy. rectangular_edges copy ≡ rectangular_edges configuration };

    fn clone(&self) -> Result<RectangularChunkGridDimensionConfiguration, AllocError> {
        RectangularChunkGridDimensionConfiguration::clone(self)
    }
}

impl From<NonZeroU64> for RectangularChunkGridDimensionConfiguration {
    ghost from_gives = { λ edge configuration. configuration ≡ Fixed edge };

    fn from(edge: NonZeroU64) -> RectangularChunkGridDimensionConfiguration {
        RectangularChunkGridDimensionConfiguration::Fixed(edge)
    }
}

impl From<Vec<NonZeroU64>> for RectangularChunkGridDimensionConfiguration {
    ghost from_gives = { λ edges configuration. configuration ≡ Varying edges };

    fn from(edges: Vec<NonZeroU64>) -> RectangularChunkGridDimensionConfiguration {
        RectangularChunkGridDimensionConfiguration::Varying(edges)
    }
}

/// An edge as its number, a list of edges as `[1, 2]`.
impl fmt::Display for RectangularChunkGridDimensionConfiguration {
    fn fmt<W: fmt::Write>(&self, f: &mut fmt::Formatter<W>) -> fmt::Result {
        match self {
            RectangularChunkGridDimensionConfiguration::Fixed(edge) => write!(f, "{edge}"),
            RectangularChunkGridDimensionConfiguration::Varying(edges) => write!(f, "{edges:?}"),
        }
    }
}
