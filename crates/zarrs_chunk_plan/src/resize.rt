//! What becomes of the chunks of an array that gets another shape.
//!
//! | Module | What it holds |
//! |---|---|
//! | `changed` | `changed_chunks`: what becomes of them, by three lists of numbers |
//! | `chunk_changes` | the walk over what becomes of them |
//! | `outside` | the chunks below one list of numbers and not below another, as boxes |
//! | `plan` | `changes`: what becomes of the chunks of an array that gets another shape |
//! | `used` | how many chunks hold elements of an array along each dimension, and how many of them a resize keeps |

pub(crate) mod changed;
pub(crate) mod chunk_changes;
pub(crate) mod outside;
pub(crate) mod plan;
pub(crate) mod used;
