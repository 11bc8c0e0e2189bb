//! Chunk grids and chunk key encodings as numbers in a buffer, which whoever asks keeps: they are written once, and read by each call, without reading
//! metadata again.
//!
//! [`prepare_grid`] writes the numbers of a grid, and [`PreparedGrid::read`] reads them. What it answers then is proved to be what the grid answers. Any
//! numbers may be read: others are no grid, or one whose answers mean nothing, and each number is tested where it is used.
//!
//! The numbers are a mark, the number of dimensions, and a row for each dimension: how many chunks are counted, the last index that lies in a chunk,
//! the last number that is a chunk, and how many runs of chunks of one edge there are; then where the first chunk of each run starts, which number it has,
//! and the edge, each list for all runs. The layout is this library's own, and may be another in another version.
//!
//! [`prepare_encoding`] and [`read_encoding`] do the same for an encoding, whose numbers are a mark, its kind, the byte of its separator, and those of its
//! suffix.
//!
//! | Module | What it holds |
//! |---|---|
//! | `write`, `run_table` | the numbers of a grid, and of the runs of a dimension |
//! | `read` | what numbers tell of each dimension |
//! | `grid` | a prepared grid, and what it answers |
//! | `axis` | one dimension |
//! | `encoding` | an encoding as numbers |
//! | `laws` | how many numbers are written |
//! | `search` | the search in runs |
//! | `homes`, `boxes`, `covers` | in which chunk an element lies, where a chunk lies, and which chunks a box reaches, dimension by dimension |
#![tactic(auto)]

mod axis;
mod boxes;
mod covers;
mod encoding;
mod grid;
mod homes;
pub mod laws;
mod read;
mod run_table;
mod search;
mod write;

pub use encoding::{prepare_encoding, read_encoding};
pub use grid::PreparedGrid;
pub use write::prepare_grid;
