//! What one chunk holds of a box of elements: the part of a read that comes from it, under its key.
//!
//! `zarrs_chunk_plan` makes plans of such parts. It is a crate of its own so that a change in the arithmetic of boxes proves little again.
//!
//! | Module | What it holds |
//! |---|---|
//! | `part` | `Part` and how it is made: a chunk, its key, its shape, and the elements that it has of a box |
//! | `shared` | the elements that a chunk and a box share, counted from either |
//! | `boxes` | `overlap`: what two boxes have in common |
#![tactic(auto)]

mod boxes;
mod part;
mod shared;

pub use boxes::overlap;
pub use part::{ChunkShapeTinyVec, Part, part_of};
pub use shared::{
    Shared, box_of, distance, found_or_out_of_memory, made_box, shared_elements, sizes_shared,
};
