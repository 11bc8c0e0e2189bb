//! Tests of axes, grids, prepared grids and walks: what no program prints. These are copies, refusals that are handed back, calls that no program makes,
//! and a grid whose chunks have no box.
//!
//! Tests stand apart from the library, since a crate with tests is proved twice. A grid of one's own is tested in `callers_tests`. What a program
//! answers is a vector of `chunkcalls`.
//!
//! | Module | What it tests |
//! |---|---|
//! | `axes` | walks through lists of numbers |
//! | `grids` | the grids |
//! | `prepared` | prepared grids and encodings |
//! | `walks`, `walks::overlong` | the walks over chunks, and over a grid whose chunks have no box |
//!
//! By `compared` they compare what a call answers.
#![tactic(auto)]

#[cfg(test)]
mod axes;
#[cfg(test)]
mod compared;
#[cfg(test)]
mod grids;
#[cfg(test)]
mod prepared;
#[cfg(test)]
mod walks;
