//! The configuration of the `rectilinear` grid.
ghost use Rattle.std.specs.Prelude.{◌≡◌, ⊤, codes, List, map, refl};
ghost use Rattle.serde_json.specs.Data.{string};
ghost use Rattle.zarrs_chunk_base.specs.RunLength.{EdgeLengths, Element, element_of, lengths_of};
ghost use Rattle.zarrs_chunk_base.specs.lemmas.Fitting.{rectilinear_fits};
ghost use Rattle.zarrs_chunk_base.specs.GridConfigurations.{element_in, element_tree, inline_in, lengths_in, lengths_tree, rectilinear_members};
ghost use Rattle.zarrs_chunk_base.specs.GridConfigurations.{rectilinear_table, rectilinear_value};

use crate::json::configuration_form::{ConfigurationForm, MemberNames, write_configuration};
use crate::json::members::required_value;
use crate::json::tree_form::TreeForm;
use crate::{ChunkEdgeLengths, Configuration, ConfigurationFault, Refusal, RunLengthElement};
use serde_json::{Map, Value};
use std::alloc::{AllocError, Global};
use std::fmt;
use std::num::NonZeroU64;

const CHUNK_SHAPES: &str = "chunk_shapes";

const KIND: &str = "kind";

/// The configuration of the `rectilinear` grid: `kind`, the text `inline`, and `chunk_shapes`, a list with one item a
/// dimension, an edge for all of its chunks or a list of run-length elements. An element is the edge of one chunk, or a
/// list of an edge and how many chunks in a row have it.
///
/// ```json
/// {"kind": "inline", "chunk_shapes": [[[5, 3], [15, 2], 20, 35], 10]}
/// ```
///
/// Source: the `rectilinear` extension of zarr-extensions.
#[derive(Debug, Drop, PartialEq, Eq)]
pub enum RectilinearChunkGridConfiguration {
    /// The edges stand in the configuration itself.
    Inline {
        /// The edges in each dimension.
        chunk_shapes: Vec<ChunkEdgeLengths>,
    },
}

impl RectilinearChunkGridConfiguration {
    ghost use Rattle.std.specs.Prelude.{◌≡◌, IfOk, map};
    ghost use Rattle.zarrs_chunk_base.specs.RunLength.{lengths_of};
    ghost use Rattle.zarrs_chunk_base.specs.GridConfigurations.{rectilinear_lengths};

    /// A configuration with the same edges.
    ///
    /// # Errors
    /// Out of memory.
    pub fn clone(&self) -> Result<RectilinearChunkGridConfiguration, AllocError>
        ensures { IfOk result (λ copy. rectilinear_lengths copy ≡ rectilinear_lengths self.now) }
    {
        match self {
            RectilinearChunkGridConfiguration::Inline { chunk_shapes } => {
                Ok(RectilinearChunkGridConfiguration::Inline {
                    chunk_shapes: chunk_shapes.clone()?,
                })
            }
        }
    }
}

impl fmt::Display for RectilinearChunkGridConfiguration {
    fn fmt<W: fmt::Write>(&self, f: &mut fmt::Formatter<W>) -> fmt::Result {
        let RectilinearChunkGridConfiguration::Inline { chunk_shapes } = self;
        let alloc = *chunk_shapes.allocator();
        write_configuration(f, "rectilinear chunk grid", self.to_tree(alloc))
    }
}

impl ConfigurationForm for RectilinearChunkGridConfiguration {
    ghost use Rattle.zarrs_chunk_base.specs.GridConfigurations.{rectilinear_lengths};

    ghost Seen = { List EdgeLengths };

    ghost seen = { rectilinear_lengths };

    ghost table = { rectilinear_table };

    ghost value = { rectilinear_value };

    ghost written = { rectilinear_members };

    ghost in_order = { ((refl, tt), (tt, tt)) };

    ghost fitting = { rectilinear_fits };

    fn names() -> MemberNames {
        MemberNames {
            known: &[CHUNK_SHAPES, KIND],
            required: &[CHUNK_SHAPES, KIND],
            expected: "`chunk_shapes` or `kind`",
        }
    }

    fn from_members(
        alloc: Global,
        members: &Configuration,
    ) -> Result<RectilinearChunkGridConfiguration, Refusal<ConfigurationFault>> {
        let chunk_shapes = required_value(alloc, members, CHUNK_SHAPES)?;
        let Inline = required_value(alloc, members, KIND)?;
        Ok(RectilinearChunkGridConfiguration::Inline { chunk_shapes })
    }

    fn to_tree(&self, alloc: Global) -> Result<Configuration, AllocError> {
        let RectilinearChunkGridConfiguration::Inline { chunk_shapes } = self;
        let mut members = Map::new(alloc);
        serde_json::put(
            &mut members,
            alloc,
            CHUNK_SHAPES,
            chunk_shapes.to_tree(alloc)?,
        )?;
        serde_json::put(&mut members, alloc, KIND, Inline.to_tree(alloc)?)?;
        Ok(members)
    }
}

/// The kind of configuration whose edges stand in it: the text `inline`.
#[derive(Clone, Copy)]
struct Inline;

impl TreeForm for Inline {
    ghost Seen = { ⊤ };

    ghost seen = { λ _. tt };

    ghost form = { inline_in };

    ghost written = { λ _. string (codes "inline") };

    fn from_tree(_alloc: Global, tree: &Value) -> Result<Option<Inline>, AllocError> {
        match tree.as_str() {
            Some("inline") => Ok(Some(Inline)),
            _ => Ok(None),
        }
    }

    fn to_tree(&self, alloc: Global) -> Result<Value, AllocError> {
        Value::try_from_str(alloc, "inline")
    }
}

/// An edge, or a list of run-length elements.
impl TreeForm for ChunkEdgeLengths {
    ghost Seen = { EdgeLengths };

    ghost seen = { lengths_of };

    ghost form = { lengths_in };

    ghost written = { lengths_tree };

    fn from_tree(alloc: Global, tree: &Value) -> Result<Option<ChunkEdgeLengths>, AllocError> {
        if let Some(edge) = NonZeroU64::from_tree(alloc, tree)? {
            return Ok(Some(ChunkEdgeLengths::Scalar(edge)));
        }
        let elements = Vec::from_tree(alloc, tree)?;
        Ok(elements.map(ChunkEdgeLengths::Varying))
    }

    fn to_tree(&self, alloc: Global) -> Result<Value, AllocError> {
        match self {
            ChunkEdgeLengths::Scalar(edge) => edge.to_tree(alloc),
            ChunkEdgeLengths::Varying(elements) => elements.to_tree(alloc),
        }
    }
}

/// An edge, or a list of an edge and a count.
impl TreeForm for RunLengthElement {
    ghost Seen = { Element };

    ghost seen = { element_of };

    ghost form = { element_in };

    ghost written = { element_tree };

    fn from_tree(alloc: Global, tree: &Value) -> Result<Option<RunLengthElement>, AllocError> {
        if let Some(edge) = NonZeroU64::from_tree(alloc, tree)? {
            return Ok(Some(RunLengthElement::Single(edge)));
        }
        let pair = <(NonZeroU64, NonZeroU64)>::from_tree(alloc, tree)?;
        Ok(pair.map(|(edge, count)| RunLengthElement::Repeated([edge, count])))
    }

    fn to_tree(&self, alloc: Global) -> Result<Value, AllocError> {
        match self {
            RunLengthElement::Single(edge) => edge.to_tree(alloc),
            RunLengthElement::Repeated([edge, count]) => (*edge, *count).to_tree(alloc),
        }
    }
}
