//! The chunk grids and chunk key encodings for C, and for what calls C: batches of questions over flat arrays.
//!
//! A grid is prepared once from its array's shape and the bytes of its metadata, an encoding from the bytes of its metadata, each as in `zarr.json`.
//! The caller keeps what is prepared, as numbers. A batch is many lists of one length, one after another in one array. Its call takes the numbers,
//! answers all questions and keeps nothing. A call answers 0, or a negative code for why it is refused. Lengths are tested, so a call is safe with
//! any valid buffers. `bindings/zarrs_chunks.h` says of each call what it takes and writes.
//!
//! Each export calls a function of `zarrs_chunk_batches`, and returns its code. An export has the contract of that function, over the code in
//! place of the fault. The structs of the header are that crate's, too.
//!
//! | Module | What it exports |
//! |---|---|
//! | `grid_calls` | `zarrs_prepare_grid`, and of a prepared grid `zarrs_prepared_grid_shape`, `zarrs_prepared_chunk_indices_of`, `zarrs_prepared_homes_of`, `zarrs_prepared_chunk_boxes_of`, `zarrs_prepared_covers_of` |
//! | `key_calls` | `zarrs_prepare_encoding`, and of a prepared encoding `zarrs_prepared_keys_of`, `zarrs_prepared_chunks_of_keys` |
//! | `plan_call` | `zarrs_parts_of` |
//! | `answer_call` | `zarrs_answer`: any question as text |
//! | `fault_calls` | `zarrs_grid_fault`, `zarrs_encoding_fault`, `zarrs_code_words`: why a call is refused, in words |
//! | `version` | `zarrs_abi_version`, `zarrs_version` |
#![tactic(auto)]

mod answer_call;
mod fault_calls;
mod grid_calls;
mod key_calls;
mod plan_call;
mod version;
