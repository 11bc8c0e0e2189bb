//! The callers that the README and the pages print, which `callers_tests` runs: `docs/check_callers.py` sees that each of them stands here
//! word for word.
//!
//! | Module | What it shows |
//! |---|---|
//! | `metadata` | the metadata of a grid, read from a text and written as a tree |
//! | `dimensions` | a list of dimensions of one kind |
//! | `runs` | the chunk of an index among the edges of run-length elements |
//! | `keys` | the keys of chunks |
//! | `grids` | a grid of each kind |
//! | `known_kind` | what is known of a grid whose kind is known |
//! | `elements` | where an element lies, and under which key its chunk is stored |
//! | `prepared` | the chunk of an element, by the numbers of a grid that was prepared once |
//! | `subsets` | the keys of all chunks of a grid, and of those that a box of elements meets |
//! | `reading` | the elements of a box, read from a store |
//! | `rechunking` | how many chunks of the source a task of a rechunking reads, at most |
//! | `stairs` | a grid of one's own |
//! | `versioned` | an encoding of one's own |
#![tactic(auto)]

mod dimensions;
mod elements;
mod grids;
mod keys;
mod known_kind;
mod metadata;
mod prepared;
mod reading;
mod rechunking;
mod runs;
mod stairs;
mod subsets;
mod versioned;

pub use dimensions::grid_sizes;
pub use elements::{are_one_element, key_of_element, share_a_chunk};
pub use grids::{bounded, by_name, rectangular, rectilinear, regular};
pub use keys::{append_keys, key_by_name};
pub use known_kind::{is_in_bounds, metadata_of_regular};
pub use metadata::{metadata_of, regular_metadata};
pub use prepared::find_chunk;
pub use reading::{ChunkStore, Piece, read_box};
pub use rechunking::most_sources;
pub use runs::chunk_of_index;
pub use stairs::Stairs;
pub use subsets::{keys_of_grid, keys_of_subset};
pub use versioned::Versioned;
