//! Bytes from a reader and to a writer, over any of them, with what a program says of them when it ends.
//!
//! | Module | What it holds |
//! |---|---|
//! | `watched` | a reader or writer that remembers whether one of its calls failed |
//! | `transfer` | all bytes of a reader, bytes to a writer, and the status of a run that moved them |
//! | `lines` | the lines of a reader, one after another |
//! | `sink` | a writer that gets many bytes at a time |
//! | `line_text` | texts as one line |
//! | `stream_fault` | why bytes don't come, or don't go |
#![tactic(auto)]

mod line_text;
mod lines;
mod sink;
mod stream_fault;
mod transfer;
mod watched;

pub use line_text::{one_line, unbroken};
pub use lines::Lines;
pub use sink::Sink;
pub use stream_fault::StreamFault;
pub use transfer::{BUFFER_LEN, finish, read_to_end, write_all};
pub use watched::Watched;
