//! The chunks in a box of chunk numbers, by their number and by shares.
//!
//! | Module | What it holds |
//! |---|---|
//! | `chunk_iter` | the walk over the chunks of a share |
//! | `numbered_chunks` | the chunks in a box of chunk numbers, by their number: `chunk_at`; how many there are: `count_below` |
//! | `share` | one of several shares of a plan |

pub(crate) mod chunk_iter;
pub(crate) mod numbered_chunks;
pub(crate) mod share;
