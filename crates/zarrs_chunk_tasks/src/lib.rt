//! Tasks: a copy from one array to another by way of buffers.
//!
//! A task fills a buffer from the source's array and writes it to the target's. Its buffer is what a group of neighbouring chunks holds of the elements that are
//! copied, so each chunk of the grouped array is in one task at most. [`tasks`] groups the target's chunks, [`tasks_by_source`] the source's.
//! The plan [`parts`](zarrs_chunk_plan::parts) of a task's box in the source's array says what it reads, the plan of its other box what it writes.
//!
//! ```text
//! 4 x 12 elements from chunks [1, 12] to chunks [4, 3], a task takes two chunks of the target along the second dimension
//!   task [0, 0]  source [0..4, 0..6]   target [0..4, 0..6]
//!   task [0, 1]  source [0..4, 6..12]  target [0..4, 6..12]
//! ```
//!
//! | Module | What it holds |
//! |---|---|
//! | `task` | one task |
//! | `plan` | the tasks of a copy |
//! | `walk` | the walk over them, one after another |
//! | `counts` | how much they read and write, without a walk |
//! | `count` | what is counted, by its name |
//! | `order` | both, by groups of the chunks of either array |
//! | `defaults` | what is taken if a copy doesn't say where it begins, or how many chunks a task takes |
//! | `few_chunks` | whether there are few enough chunks to choose tasks, and to count them |
//! | `cheapest` | the tasks that cost the least, under a bound of memory |
//! | `stages` | one stage or two, whichever costs the least |
//! | `between` | two stages, by an intermediate array |
//! | `edges` | the edges that are tried for its chunks |
//! | `least` | what tasks cost at least, under a bound of memory |
//! | `tried` | the numbers of chunks that are tried for them |
//! | `sizes` | what groups of a number of chunks cost, along one dimension |
//! | `choices` | the choice of one number for each dimension |
//! | `largest_chunk` | the largest chunk that holds some of a box of elements |
//! | `groups_along` | the same along one dimension |
//! | `multiples` | how many chunks of an edge ranges of one length meet |
//! | `copied` | the groups of chunks that hold some of the elements of a copy |
//! | `buffer` | what a group holds of a box of elements |
//! | `group_numbers` | the groups of chunks, and the chunks of a group |
//! | `laws` | what holds of the tasks of every copy |
#![tactic(auto)]

mod between;
mod buffer;
mod cheapest;
mod choices;
mod copied;
mod count;
mod counts;
mod defaults;
mod edges;
mod few_chunks;
mod group_numbers;
mod groups_along;
mod largest_chunk;
pub mod laws;
mod least;
mod multiples;
mod order;
mod plan;
mod sizes;
mod stages;
mod task;
mod tasks_error;
mod thinning;
mod tried;
mod walk;

pub use cheapest::{CheapestTasks, cheapest_tasks};
pub use count::Count;
pub use counts::{CountsAlong, task_counts, task_counts_by_source};
pub use defaults::{at_or_zeros, task_chunks_or_ones};
pub use few_chunks::{can_choose, can_count};
pub use order::{Order, task_counts_by, tasks_by};
pub use plan::{tasks, tasks_by_source};
pub use stages::{CheapestStages, cheapest_stages};
pub use task::Task;
pub use tasks_error::TasksError;
pub use walk::Tasks;
