//! What every layer of chunk grids and chunk keys speaks of: boxes of indices, keys in a store, the edges of
//! chunks, what extensions look like in JSON, and why calls are refused.
//!
//! A call that needs memory can answer that there is none. It takes the allocator, except for a few that `docs/MEMORY.md` lists, as `clone`.
//! `CALLING.md` has a caller.
//!
//! ```text
//! ArraySubset, the box [3..5, 5..9]: its start is [3, 5], its shape [2, 4]
//!   contains  [4, 8]       true
//!   contains  [5, 8]       false: a range doesn't hold its end
//!   end_exc                [5, 9]
//!   end_inc                [4, 8]
//! ```
//!
//! | Module | What it holds |
//! |---|---|
//! | `array_subset`, `array_subset_error` | a box of indices, and why there is none |
//! | `store_key` | the key of a value in a store, and a text that is none |
//! | `chunk_key_separator` | what stands between the parts of a chunk key |
//! | `refusal` | a call's own refusal, or out of memory |
//! | `incompatible_dimensionality_error` | a list of another length than there are dimensions |
//! | `dimension_configuration`, `chunk_edge_lengths`, `run_length_element` | the chunk edges of one dimension |
//! | `in_brackets` | a list as a text, for those that refuse one |
//! | `json` | what extensions look like in JSON |
//! | `json::metadata_v3` | the metadata of an extension: its name and its configuration |
//! | `json::configuration_form`, `members` | a configuration as a table of members, and how members are read |
//! | `json::regular_configuration`, `rectangular_..`, `rectilinear_..` | the configurations of chunk grids |
//! | `json::default_configuration`, `v2_..`, `default_suffix_..`, `separator_member` | those of chunk key encodings, and the member that they share |
//! | `json::tree_form` | sizes, edges, texts, boxes and lists in a tree |
//! | `json::text` | the tree of a text |
//! | `plugin_create_error`, `configuration_fault`, `metadata_error` | why an extension isn't made of its metadata |
//! | `extension_error` | why it isn't made of a tree: one of these |
#![tactic(auto)]

use serde_json::{Map, Value};
use std::num::NonZeroU64;

mod array_subset;
mod array_subset_error;
mod chunk_edge_lengths;
mod chunk_key_separator;
mod configuration_fault;
mod dimension_configuration;
mod extension_error;
mod in_brackets;
mod incompatible_dimensionality_error;
mod json;
mod metadata_error;
mod plugin_create_error;
mod refusal;
mod run_length_element;
mod store_key;

pub use array_subset::ArraySubset;
pub use array_subset_error::{ArraySubsetError, BoxEndError};
pub use chunk_edge_lengths::ChunkEdgeLengths;
pub use chunk_key_separator::ChunkKeySeparator;
pub use configuration_fault::ConfigurationFault;
pub use dimension_configuration::RectangularChunkGridDimensionConfiguration;
pub use extension_error::ExtensionError;
pub use in_brackets::InBrackets;
pub use incompatible_dimensionality_error::IncompatibleDimensionalityError;
pub use json::configuration_form::{ConfigurationForm, MemberNames};
pub use json::default_configuration::DefaultChunkKeyEncodingConfiguration;
pub use json::default_suffix_configuration::DefaultSuffixChunkKeyEncodingConfiguration;
pub use json::members::{refuse_unknown, take_member};
pub use json::metadata_v3::MetadataV3;
pub use json::rectangular_configuration::RectangularChunkGridConfiguration;
pub use json::rectilinear_configuration::RectilinearChunkGridConfiguration;
pub use json::regular_configuration::{
    RegularBoundedChunkGridConfiguration, RegularChunkGridConfiguration,
};
pub use json::text::read_json;
pub use json::tree_form::{TreeForm, read_list, write_box, write_list};
pub use json::v2_configuration::V2ChunkKeyEncodingConfiguration;
pub use metadata_error::MetadataError;
pub use plugin_create_error::PluginCreateError;
pub use refusal::Refusal;
pub use run_length_element::RunLengthElement;
pub use store_key::{StoreKey, StoreKeyError};

/// Indices of an element, or the numbers of a chunk, one a dimension.
pub type ArrayIndices = Vec<u64>;

/// Sizes of an array or of a grid, one a dimension.
pub type ArrayShape = Vec<u64>;

/// Edges of a chunk, one a dimension, in elements.
pub type ChunkShape = Vec<NonZeroU64>;

/// The members of an extension's configuration.
pub type Configuration = Map<String, Value>;
