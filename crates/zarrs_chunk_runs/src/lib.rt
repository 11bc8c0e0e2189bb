//! The edges of chunks kept as runs of equal ones.
//!
//! A run is an edge and how many chunks in a row have it. [`RunEdges`] answers as the list of all edges does, one for each
//! chunk, and never makes that list: 18446744073709551615 chunks of one edge take as much room as one. A search halves the runs
//! ([`first_above`]) and counts in [`Comparisons`] how often it compares: at most as often as the number of runs has binary digits.
//!
//! ```text
//! elements [5,1], [5,2], 15, 15, [20,1], 35
//!   runs                  3 chunks of 5, 2 of 15, 1 of 20, 1 of 35
//!   chunks, total         7, 100
//!   find_index 15         chunk 3
//!   start, edge 4         30, 15
//! ```
//!
//! | Module | What it holds |
//! |---|---|
//! | `run_edges` | edges as runs |
//! | `run_edges_error` | why they can't be made |
//! | `elements` | run-length elements: their sum, and the runs that they make |
//! | `laws` | what holds of edges and their runs, and of binary digits |
//! | `search` | the search by halving, over truths that are asked for one at a time |
//! | `running_sums`, `comparisons` | running sums that are compared with a number, and how often they are |
#![tactic(auto)]

mod comparisons;
mod elements;
pub mod laws;
mod run_edges;
mod run_edges_error;
mod running_sums;
mod search;

pub use comparisons::Comparisons;
pub use elements::total;
pub use run_edges::RunEdges;
pub use run_edges_error::RunEdgesError;
pub use search::{Probe, first_above};
