//! The configuration of the `rectangular` grid.
ghost use Rattle.std.specs.Prelude.{◌≡◌, List, map};
ghost use Rattle.zarrs_chunk_base.specs.DimensionEdges.{DimensionEdges, rectangular_edges};
ghost use Rattle.zarrs_chunk_base.specs.lemmas.Fitting.{rectangular_fits};
ghost use Rattle.zarrs_chunk_base.specs.GridConfigurations.{dimension_edges_of, dimension_edges_tree, rectangular_members, rectangular_table};
ghost use Rattle.zarrs_chunk_base.specs.GridConfigurations.{rectangular_value};

use crate::json::configuration_form::{ConfigurationForm, MemberNames, write_configuration};
use crate::json::members::required_value;
use crate::json::tree_form::TreeForm;
use crate::{
    Configuration, ConfigurationFault, RectangularChunkGridDimensionConfiguration, Refusal,
};
use serde_json::{Map, Value};
use std::alloc::{AllocError, Global};
use std::fmt;
use std::num::NonZeroU64;

const CHUNK_SHAPE: &str = "chunk_shape";

/// The configuration of the `rectangular` grid: `chunk_shape`, a list with one item a dimension, an edge for all of its
/// chunks or a list of their edges.
///
/// ```json
/// {"chunk_shape": [[5, 5, 5, 15, 15, 20, 35], 10]}
/// ```
///
/// Source: ZEP 3, variable chunks.
#[derive(Debug, Drop, PartialEq, Eq)]
pub struct RectangularChunkGridConfiguration {
    /// The edges in each dimension.
    pub chunk_shape: Vec<RectangularChunkGridDimensionConfiguration>,
}

impl RectangularChunkGridConfiguration {
    ghost use Rattle.std.specs.Prelude.{◌≡◌, IfOk, map};
    ghost use Rattle.zarrs_chunk_base.specs.DimensionEdges.{rectangular_edges};

    /// A configuration with the same edges.
    ///
    /// # Errors
    /// Out of memory.
    pub fn clone(&self) -> Result<RectangularChunkGridConfiguration, AllocError>
        ensures { IfOk result (λ copy. map rectangular_edges copy.chunk_shape.items
            ≡ map rectangular_edges (self.now).chunk_shape.items) }
    {
        Ok(RectangularChunkGridConfiguration {
            chunk_shape: self.chunk_shape.clone()?,
        })
    }
}

impl fmt::Display for RectangularChunkGridConfiguration {
    fn fmt<W: fmt::Write>(&self, f: &mut fmt::Formatter<W>) -> fmt::Result {
        let alloc = *self.chunk_shape.allocator();
        write_configuration(f, "rectangular chunk grid", self.to_tree(alloc))
    }
}

impl ConfigurationForm for RectangularChunkGridConfiguration {
    ghost Seen = { List DimensionEdges };

    ghost seen = { λ c. map rectangular_edges c.chunk_shape.items };

    ghost table = { rectangular_table };

    ghost value = { rectangular_value };

    ghost written = { rectangular_members };

    ghost in_order = { (tt, tt) };

    ghost fitting = { rectangular_fits };

    fn names() -> MemberNames {
        MemberNames {
            known: &[CHUNK_SHAPE],
            required: &[CHUNK_SHAPE],
            expected: "`chunk_shape`",
        }
    }

    fn from_members(
        alloc: Global,
        members: &Configuration,
    ) -> Result<RectangularChunkGridConfiguration, Refusal<ConfigurationFault>> {
        Ok(RectangularChunkGridConfiguration {
            chunk_shape: required_value(alloc, members, CHUNK_SHAPE)?,
        })
    }

    fn to_tree(&self, alloc: Global) -> Result<Configuration, AllocError> {
        let mut members = Map::new(alloc);
        serde_json::put(
            &mut members,
            alloc,
            CHUNK_SHAPE,
            self.chunk_shape.to_tree(alloc)?,
        )?;
        Ok(members)
    }
}

/// An edge, or a list of edges.
impl TreeForm for RectangularChunkGridDimensionConfiguration {
    ghost Seen = { DimensionEdges };

    ghost seen = { rectangular_edges };

    ghost form = { dimension_edges_of };

    ghost written = { dimension_edges_tree };

    fn from_tree(
        alloc: Global,
        tree: &Value,
    ) -> Result<Option<RectangularChunkGridDimensionConfiguration>, AllocError> {
        if let Some(edge) = NonZeroU64::from_tree(alloc, tree)? {
            return Ok(Some(RectangularChunkGridDimensionConfiguration::Fixed(edge)));
        }
        let edges = Vec::from_tree(alloc, tree)?;
        Ok(edges.map(RectangularChunkGridDimensionConfiguration::Varying))
    }

    fn to_tree(&self, alloc: Global) -> Result<Value, AllocError> {
        match self {
            RectangularChunkGridDimensionConfiguration::Fixed(edge) => edge.to_tree(alloc),
            RectangularChunkGridDimensionConfiguration::Varying(edges) => edges.to_tree(alloc),
        }
    }
}
