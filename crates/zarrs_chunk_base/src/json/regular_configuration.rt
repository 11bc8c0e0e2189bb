//! The configuration of the `regular` grid, and of the `zarrs.regular_bounded` one.
ghost use Rattle.std.specs.Prelude.{◌≡◌, ℕ, List, map};
ghost use Rattle.std.specs.Int.NonZero.{non_zero_u64_get};
ghost use Rattle.zarrs_chunk_base.specs.lemmas.Fitting.{regular_fits};
ghost use Rattle.zarrs_chunk_base.specs.GridConfigurations.{regular_members, regular_table, regular_value};

use crate::json::configuration_form::{ConfigurationForm, MemberNames, write_configuration};
use crate::json::members::required_value;
use crate::json::tree_form::TreeForm;
use crate::{ChunkShape, Configuration, ConfigurationFault, Refusal};
use serde_json::Map;
use std::alloc::{AllocError, Global};
use std::fmt;

const CHUNK_SHAPE: &str = "chunk_shape";

/// The configuration of the `regular` grid, and of the `zarrs.regular_bounded` one: `chunk_shape`, a list of edges.
///
/// ```json
/// {"chunk_shape": [1, 2, 3]}
/// ```
///
/// Source: Zarr V3 core, regular grid.
#[derive(Debug, Drop, PartialEq, Eq)]
pub struct RegularChunkGridConfiguration {
    /// The edge in each dimension, in elements.
    pub chunk_shape: ChunkShape,
}

/// The configuration of the `zarrs.regular_bounded` grid, which has the members of the `regular` one.
pub type RegularBoundedChunkGridConfiguration = RegularChunkGridConfiguration;

impl RegularChunkGridConfiguration {
    ghost use Rattle.std.specs.Prelude.{◌≡◌, IfOk};

    /// A configuration with the same edges.
    ///
    /// # Errors
    /// Out of memory.
    pub fn clone(&self) -> Result<RegularChunkGridConfiguration, AllocError>
        ensures { IfOk result (λ copy. copy.chunk_shape.items ≡ (self.now).chunk_shape.items) }
    {
        Ok(RegularChunkGridConfiguration {
            chunk_shape: self.chunk_shape.clone()?,
        })
    }
}

impl fmt::Display for RegularChunkGridConfiguration {
    fn fmt<W: fmt::Write>(&self, f: &mut fmt::Formatter<W>) -> fmt::Result {
        let alloc = *self.chunk_shape.allocator();
        write_configuration(f, "regular chunk grid", self.to_tree(alloc))
    }
}

impl ConfigurationForm for RegularChunkGridConfiguration {
    ghost Seen = { List ℕ };

    ghost seen = { λ c. map non_zero_u64_get c.chunk_shape.items };

    ghost table = { regular_table };

    ghost value = { regular_value };

    ghost written = { regular_members };

    ghost in_order = { (tt, tt) };

    ghost fitting = { regular_fits };

    fn names() -> MemberNames {
        MemberNames {
            known: &[CHUNK_SHAPE],
            required: &[CHUNK_SHAPE],
            expected: "`chunk_shape`",
        }
    }

    fn from_members(
        alloc: Global,
        members: &Configuration,
    ) -> Result<RegularChunkGridConfiguration, Refusal<ConfigurationFault>> {
        Ok(RegularChunkGridConfiguration {
            chunk_shape: required_value(alloc, members, CHUNK_SHAPE)?,
        })
    }

    fn to_tree(&self, alloc: Global) -> Result<Configuration, AllocError> {
        let mut members = Map::new(alloc);
        serde_json::put(
            &mut members,
            alloc,
            CHUNK_SHAPE,
            self.chunk_shape.to_tree(alloc)?,
        )?;
        Ok(members)
    }
}
