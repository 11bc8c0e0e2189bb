//! Batches of questions to chunk grids and chunk key encodings, over flat arrays.
//!
//! A grid is prepared once from its array's shape and the bytes of its metadata, an encoding from the bytes of its metadata, each as in `zarr.json`.
//! The caller keeps what is prepared, as numbers. A batch is many lists of one length, one after another in one array. Its call takes the numbers,
//! answers all questions and keeps nothing. A call writes its answer, or ends with a [`Fault`]. Lengths are tested, so a call takes any buffers.
//! `zarrs_chunks_c` exports the calls to C: [`code_of`] turns the end of a call into the code that C sees.
//!
//! | Module | What it holds |
//! |---|---|
//! | `grid_calls` | `prepare_grid`, and the calls of a prepared grid: `grid_shape_in`, `chunk_indices_in`, `homes_in`, `chunk_boxes_in`, `covers_in` |
//! | `key_calls` | `prepare_encoding`, and the calls of a prepared encoding: `keys_in`, `chunks_in` |
//! | `plan_call` | `parts_of`: the plan of reading a box |
//! | `answer_call` | `answer_line`: any question as text |
//! | `fault_calls` | `grid_fault`, `encoding_fault`, `code_words`: why a call is refused, in words |
//! | `structs` | the structs of the header: an array as it is stored, a box, and the buffers for parts |
//! | `batch` | the loop over the questions of a batch |
//! | `lists` | lists of one length, one after another |
//! | `parts` | parts of a plan, one after another |
//! | `buffers` | what is written to the front of a buffer |
//! | `questions` | what is asked of a prepared grid, list by list |
//! | `keys` | the keys of chunks, one after another |
//! | `key_questions` | what is asked of an encoding, key by key |
//! | `metadata` | the grid and the encoding that metadata says |
//! | `codes` | why a call is refused, the code of it, and what the code says |
#![tactic(auto)]

mod answer_call;
mod batch;
mod buffers;
mod codes;
mod fault_calls;
mod grid_calls;
mod key_calls;
mod key_questions;
mod keys;
mod lists;
mod metadata;
mod parts;
mod plan_call;
mod questions;
mod structs;

pub use answer_call::answer_line;
pub use buffers::write_text;
pub use codes::{Fault, code_of};
pub use fault_calls::{code_words, encoding_fault, grid_fault};
pub use grid_calls::{
    chunk_boxes_in, chunk_indices_in, covers_in, grid_shape_in, homes_in, prepare_grid,
};
pub use key_calls::{chunks_in, keys_in, prepare_encoding};
pub use plan_call::parts_of;
pub use structs::{ElementBox, PartBuffers, StoredArray};
