//! Plans: which parts of which chunks a box of elements is made of, and what becomes of the chunks of an array that gets another shape.
//!
//! [`parts`] takes a grid, an encoding and a box of elements, and gives a part for each chunk that holds some of the box, one after another. [`changes`]
//! gives what becomes of each chunk of an array that gets another shape, and [`changed_chunks`] says it in three lists of numbers. All ask grids and
//! encodings by their traits alone, so these may come from other crates. Copies from one array to another are in `zarrs_chunk_tasks`. `CALLING.md` has
//! callers.
//!
//! ```text
//! RegularChunkGrid, array shape [6, 6], chunk shape [4, 3], default keys with `/`, box [3..6, 2..4]
//!   key c/0/0  chunk [0, 0]  in_chunk [3..4, 2..3]  in_selection [0..1, 0..1]
//!   key c/0/1  chunk [0, 1]  in_chunk [3..4, 0..1]  in_selection [0..1, 1..2]
//!   key c/1/0  chunk [1, 0]  in_chunk [0..2, 2..3]  in_selection [1..3, 0..1]
//!   key c/1/1  chunk [1, 1]  in_chunk [0..2, 0..1]  in_selection [1..3, 1..2]
//! ```
//!
//! A [`Part`] is of `zarrs_chunk_parts`: a chunk, its key and its shape, two boxes, and whether they are all that the chunk has of the array.
//!
//! | Module | What it holds |
//! |---|---|
//! | `read` | reading a box of elements |
//! | `copy` | the boxes of a copy from one array to another, and what of it is stored |
//! | `resize` | what becomes of the chunks of an array that gets another shape |
//! | `counts` | how much a read takes, without a walk over its plan |
//! | `bytes` | which bytes of an uncompressed chunk hold the elements of a box |
//! | `shares` | the chunks in a box of chunk numbers, by their number and by shares |
//! | `stored_array` | an array as it is stored: a grid and an encoding |
//! | `boxes_from_zero` | the box of all elements of an array, and that of all chunks of a grid |
//! | `laws` | what holds of every plan |
#![tactic(auto)]

mod boxes_from_zero;
mod bytes;
mod copy;
mod counts;
pub mod laws;
mod read;
mod resize;
mod shares;
mod stored_array;

pub use boxes_from_zero::{all_chunks, whole_array};
pub use bytes::ranges::{ByteRanges, MemoryOrder, byte_ranges};
pub use copy::chunk_elements::elements_of_chunks;
pub use copy::moved::shifted_box;
pub use copy::region::moved_box;
pub use copy::region_error::RegionError;
pub use copy::stored_chunks::StoredChunks;
pub use counts::{ReadCounts, counts_of_read};
pub use read::clipping::clip;
pub use read::numbered_parts::{SomeParts, some_parts};
pub use read::plan::parts;
pub use read::walk::Parts;
pub use resize::changed::{ChangedChunks, changed_chunks};
pub use resize::chunk_changes::Changes;
pub use resize::plan::{Change, ChunkChange, ChunkContents, changes};
pub use shares::chunk_iter::ChunkIter;
pub use shares::numbered_chunks::{chunk_at, count_below};
pub use shares::share::Share;
pub use stored_array::StoredArray;
pub use zarrs_chunk_parts::{ChunkShapeTinyVec, Part};
