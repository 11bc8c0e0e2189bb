//! Tests of the programs, by readers and writers that fail. What a program prints of an input is data: its `stdin` and `stdout`, and the pages and
//! scripts that `.ci/run` compares it with.
//!
//! They stand apart from `programs`, since a crate with tests is proved twice.
//!
//! | Module | What it tests |
//! |---|---|
//! | `chunkwhere` | where the elements of an array are stored |
//! | `chunkplan` | what a read or a rechunking of an array copies |
//! | `chunkcalls` | what grids and encodings answer, a call a line |
//! | `failing` | nothing: it holds readers and writers that fail |
//! | `ended` | nothing: it compares how a run ended |
#![tactic(auto)]

#[cfg(test)]
mod chunkcalls;
#[cfg(test)]
mod chunkplan;
#[cfg(test)]
mod chunkwhere;
#[cfg(test)]
mod ended;
#[cfg(test)]
mod failing;
