//! Chunk grids: in which chunk of a large array an element lies, and at which place there.
//!
//! Each dimension of a grid is cut into intervals that follow one another, one a chunk. [`ChunkGridTraits`] says what
//! every grid answers, over its dimensions; [`laws`] says what follows for all grids, those of other crates too. A call that needs memory can
//! answer that there is none. It takes the allocator, except for a few that `docs/MEMORY.md` lists, as `clone` and the `next` of a walk.
//! `CALLING.md` has callers and a picture.
//!
//! ```text
//! RegularChunkGrid, array shape [5, 7, 52], chunk shape [1, 2, 3]
//!   grid_shape                                        [5, 4, 18]
//!   chunk_indices          [3, 5, 50]                 [3, 2, 16]
//!   chunk_element_indices  [3, 5, 50]                 [0, 1, 2]
//!   chunk_origin           [3, 2, 16]                 [3, 4, 48]
//!   subset                 [3, 2, 16]                 [3..4, 4..6, 48..51]
//!   chunks_in_array_subset [0..2, 1..3, 5..9]         [0..2, 0..2, 1..3]
//!   iter_chunk_indices                                [0, 0, 0], [0, 0, 1], .. [4, 3, 17]
//!   locate                 [3, 5, 50]                 chunk [3, 2, 16], key c/3/2/16, element [0, 1, 2]
//! ```
//!
//! | Module | What it holds |
//! |---|---|
//! | `chunk_grid` | the trait of all chunk grids |
//! | `chunk_grid::regular`, `regular_bounded`, `rectangular`, `rectilinear` | the grids, and why there is no such grid |
//! | `chunk_grid::named` | a grid of any of these kinds, by its extension's name |
//! | `chunk_grid::over_axes` | of which kind a grid is; the calls of the four grids, over their lists of axes |
//! | `chunk_grid::boxes`, `edges` | boxes that are made of starts and sizes; edges as plain numbers |
//! | `home` | where an element lies: its chunk, and its place there |
//! | `location` | `locate`: where an element is stored: its chunk, the chunk's key, and its place there |
//! | `walks` | the three walks over the chunks of a grid, and the one over the chunks in a box of chunk numbers |
//! | `laws` | what holds of every chunk grid and every encoding |
//!
//! One dimension, its kinds and the loops over dimensions stand in the crate `zarrs_chunk_axes`.
#![tactic(auto)]

mod chunk_grid;
mod home;
pub mod laws;
mod location;
mod walks;

pub use chunk_grid::ChunkGridTraits;
pub use chunk_grid::named::ChunkGrid;
pub use chunk_grid::over_axes::GridOfKind;
pub use chunk_grid::rectangular::{RectangularChunkGrid, RectangularChunkGridCreateError};
pub use chunk_grid::rectilinear::{RectilinearChunkGrid, RectilinearChunkGridCreateError};
pub use chunk_grid::regular::{RegularChunkGrid, RegularChunkGridCreateError};
pub use chunk_grid::regular_bounded::RegularBoundedChunkGrid;
pub use home::Home;
pub use location::{Located, locate};
pub use walks::chunk_indices::ChunkIndices;
pub use walks::chunk_indices_and_subsets::ChunkIndicesAndSubsets;
pub use walks::chunk_indices_in_subset::ChunkIndicesInSubset;
pub use walks::chunk_subsets::ChunkSubsets;
pub use zarrs_chunk_axes::ArrayIndicesTinyVec;
pub use zarrs_chunk_runs::Comparisons;
