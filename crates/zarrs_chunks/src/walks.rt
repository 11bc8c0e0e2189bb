//! Walks over the chunks that a grid counts, and over those in a box, in row-major order.
mod chunk_boxes;
pub(crate) mod chunk_indices;
pub(crate) mod chunk_indices_and_subsets;
pub(crate) mod chunk_indices_in_subset;
pub(crate) mod chunk_subsets;
