//! The programs `chunkplan` and `chunkcalls`, over any reader and writers, and the words of their command lines.
//!
//! Each program's `main` is a crate of its own, of a few lines. Its tests stand in `programs_tests`, since a crate with tests is proved twice.
//!
//! | Module | What it holds |
//! |---|---|
//! | `chunkplan` | what a read or a rechunking of an array copies |
//! | `chunkcalls` | what grids and encodings answer, a call a line |
//! | `words` | the words of a command line |
#![tactic(auto)]

pub mod chunkcalls;
pub mod chunkplan;
mod words;

pub use words::{Asked, answer_words, read_words};
