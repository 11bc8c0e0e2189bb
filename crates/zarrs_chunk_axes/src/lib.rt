//! One dimension of a chunk grid, its kinds, and the list of dimensions with the loops over it.
//!
//! A dimension is a value with look-ups on single numbers: which chunk holds an index, where a chunk starts, how long it
//! is. [`Axis`] says what they answer, [`AxisFrom`] what a dimension is made of; each kind has a file. [`AxisGrid`] is any
//! number of dimensions of one kind, and goes over the lists of numbers that a grid is asked about. The grids of the
//! crate above hold one list each, and add their names and refusals.
//!
//! ```text
//! AxisGrid<EqualAxis>, array shape [5, 7, 52], edges 1, 2 and 3
//!   grid_shape                      [5, 4, 18]
//!   chunk_indices  [3, 5, 50]       [3, 2, 16]
//! ```
//!
//! `CALLING.md` has a caller.
//!
//! | Module | What it holds |
//! |---|---|
//! | `axis` | one dimension, and what it is made of |
//! | `equal_axis`, `bounded_axis`, `listed_axis`, `runs_axis`, `equal_or` | the kinds of dimension |
//! | `axis_grid` | the list of dimensions; in its module `look_up` what is looked up in each, in `along` look-ups in one dimension, in `counted` look-ups that count comparisons |
//! | `in_bounds` | numbers in bounds of sizes |
//! | `row_major`, `row_major_walk` | counting through the lists of numbers below a shape, and a walk that does so |
//! | `run_lengths` | the run-length form of edges that are kept as runs |
#![tactic(auto)]

mod axis;
mod axis_grid;
mod bounded_axis;
mod equal_axis;
mod equal_or;
mod in_bounds;
mod listed_axis;
pub mod row_major;
mod row_major_walk;
mod run_lengths;
mod runs_axis;

pub use axis::{Axis, AxisFrom};
pub use axis_grid::AxisGrid;
pub use bounded_axis::BoundedAxis;
pub use equal_axis::EqualAxis;
pub use equal_or::EqualOr;
pub use in_bounds::are_in_bounds;
pub use listed_axis::ListedAxis;
pub use row_major_walk::{ArrayIndicesTinyVec, RowMajorWalk};
pub use runs_axis::RunsAxis;
