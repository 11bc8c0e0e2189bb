//! What a question to a chunk grid or a chunk key encoding means, and the line that answers it.
//!
//! A question is a JSON object: the `shape` of an array and its `chunk_grid`, as in its `zarr.json`, the name of a `call`, and what it is asked
//! `of`, where it takes something; for a walk, how many `items` to give, and from which on (`first`); for `locate`, `parts`, `tasks` and
//! `task_counts`, a `chunk_key_encoding`; for the last two a `target`, and perhaps the `subset` that is copied, where it begins there (`at`), and which
//! tasks (`task_chunks`, `order`); for the counts perhaps a `share`. The calls `encode` and `decode` take a `chunk_key_encoding` and no grid. [`answer`] gives the line that answers it: the answer
//! as compact JSON, why the library refused, or why the question can't be read.
//! [`answer_within`] ends a walk where its items are longer than there is room for.
//!
//! ```text
//! {"shape":[5,7,52],"chunk_grid":{"name":"regular","configuration":{"chunk_shape":[1,2,3]}},"call":"subset","of":[0,3,17]}
//! [[0,6,51],[1,2,3]]
//! ```
//!
//! A line is answered in three steps: its question is read, it is answered as a tree, and the tree is written.
//!
//! | Module | What it holds |
//! |---|---|
//! | `call` | the calls, by their names |
//! | `question`, `asked` | what a line asks, and what of an array's grid |
//! | `reading` | the members of a line's tree |
//! | `unreadable`, `line_fault` | why a line can't be read, and why it has no answer |
//! | `answering`, `array_question` | what answers a question, and one to an array's grid |
//! | `extensions` | the grid, the encoding and the box that a line gives |
//! | `grid_answers`, `rectilinear_answers`, `key_answers` | what a grid answers, one that is `rectilinear` alone, and an encoding |
//! | `walk_items`, `pages` | the items of a walk; those of a walk and of a plan of a read from one of them on |
//! | `copying` | a copy that a question is about |
//! | `task_pages` | its tasks, from one of them on |
//! | `counting` | how much they read and write |
//! | `bytes` | which bytes of an uncompressed chunk hold a box |
//! | `changed` | what becomes of the chunks of an array that gets another shape |
//! | `limits` | how many of them are given |
//! | `trees`, `plan_trees` | the trees that answers are written as, and the parts of plans and tasks |
//! | `answer_line` | the line that answers a line |
#![tactic(auto)]

mod answer_line;
mod answering;
mod array_question;
mod asked;
mod bytes;
mod call;
mod changed;
mod copying;
mod counting;
mod extensions;
mod grid_answers;
mod key_answers;
mod limits;
mod line_fault;
mod pages;
mod plan_trees;
mod question;
mod reading;
mod rectilinear_answers;
mod task_pages;
mod trees;
mod unreadable;
mod walk_items;

pub use answer_line::{answer, answer_within};
pub use bytes::StoredIn;
