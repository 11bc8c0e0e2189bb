//! `chunkplan` writes what a read, a rechunking or the copy of a region of a Zarr array copies, or what becomes of its chunks when it is resized: a line
//! for each chunk that is read, for each task, or for each chunk that changes.
//!
//! It reads one JSON document on standard input: an array's `shape`, `chunk_grid` and `chunk_key_encoding`, as in its `zarr.json`. A box is written as
//! its start and its shape. Without a `target` the lines are those of a read of the box `subset`, or of the whole array. With `clip` true the box is
//! clipped to the array. `item_size` adds which bytes of an uncompressed chunk are read.
//!
//! With a `target`, which has a `chunk_grid` and a `chunk_key_encoding` of its own, the array is rechunked. `chunks` is a box of the target's chunk
//! numbers: only elements of these chunks are copied. With `subset` too, this box is copied to the target, whose `shape` is then the shape of an array of
//! its own, and begins there at the index `at`. Each line is a task. A task fills a buffer from chunks of the source, and writes it to chunks of the
//! target. `task_chunks` says how many chunks of the target a task takes along each dimension, and 1 if it is absent. With `order` `source`, they are
//! chunks of the source. `max_elements` bounds what a worker holds: the cheapest tasks are chosen, in one stage or in two. `read_elements` says what one
//! read is worth, and `stage` gives the lines of one stage. With `keys` true the document is the first line, and each line after it a key of the store
//! that is written. Tasks whose chunks are all there are left out, and keys of no chunk are reported at the end.
//!
//! With `resize`, the shape that the array gets, the lines say which chunks must be created, rewritten or deleted. With `include_unchanged` they also say which
//! stay.
//!
//! A line has all that its worker needs, and its number among the lines, so lines can be shared out in any way. `share`, a number and how many shares there
//! are, gives the share with this number, counted from 0. With `counts` true there is one line in place of the plan: how much is read and written. Neither
//! can be combined with `resize`.
//!
//! ```text
//! {"shape":[4],"chunk_grid":{"name":"regular","configuration":{"chunk_shape":[3]}},
//!  "chunk_key_encoding":{"name":"default"},"subset":[[1],[3]]}
//!
//! {"chunk":[0],"in_chunk":[[1],[2]],"in_selection":[[0],[2]],"key":"c/0","number":0,"of":2,"shape":[3],"whole":false}
//! {"chunk":[1],"in_chunk":[[0],[1]],"in_selection":[[2],[1]],"key":"c/1","number":1,"of":2,"shape":[3],"whole":true}
//!
//! with "counts":true
//!
//! {"chunks_read":2,"elements_moved":3}
//! ```
//!
//! With no words it is `run_to_status` of `programs::chunkplan`, over what the process was given; words, which `read_words` reads, are answered by `answer_words`.
#![tactic(auto)]

use programs::chunkplan::{Sink, Watched, run_to_status};
use programs::{answer_words, read_words};
use std::process::ExitCode;

/// What `--help` prints.
const HELP: &str = "\
Writes what a read, a rechunking or the copy of a region of a Zarr array copies,
or what becomes of its chunks when it is resized, as JSON lines.

Usage: chunkplan [--help | --version] < DOCUMENT > LINES

Standard input is one JSON object: the `shape`, `chunk_grid` and
`chunk_key_encoding` of an array, as in its zarr.json. A box is its start and
its shape. Without a `target` the lines are those of a read of the box `subset`,
or of the whole array. With `clip` true the box is clipped to the array.
`item_size` adds which bytes of an uncompressed chunk are read.

With a `target`, which has a `chunk_grid` and a `chunk_key_encoding`, the array
is rechunked. `chunks` is a box of the target's chunk numbers: only elements of
these chunks are copied. With a `subset` too, this box is copied into the
target, whose `shape` is then its own array's, and begins there at the index
`at`. Each line is a task: it fills a buffer from chunks of the source, and
writes it to chunks of the target. `task_chunks` is how many chunks of the
target a task takes along each dimension, 1 if it is absent. With `order`
`source` they are chunks of the source. `max_elements` is how many elements a
worker may hold: the cheapest tasks are chosen, in one stage or two.
`read_elements` is what a read is worth, in elements; `stage`, 1 or 2, gives the
lines of one stage. With `keys` true the document is the first line, and each
line after it a key of the store that is written: tasks whose chunks are all
there are left out, and keys of no chunk are reported at the end.

With `resize`, the shape that the array gets, the lines say which chunks must be
created, rewritten or deleted; with `include_unchanged` true, also which stay.

`share`, a number and how many shares there are, gives the share of the lines
with this number, counted from 0. With `counts` true one line is written in
place of the plan: how much is read and written. Neither can be combined with
`resize`.

  {\"shape\":[4],\"chunk_grid\":{\"name\":\"regular\",\"configuration\":
   {\"chunk_shape\":[3]}},\"chunk_key_encoding\":\"default\",\"subset\":[[1],[3]]}

Ends with the status 0, or with 1 after a fault, which standard error tells.";

fn main(rt: HostRuntime) -> ExitCode {
    let mut errors = Watched::new(rt.stderr());
    let asked = read_words(&rt);
    let mut writer = Watched::new(rt.stdout());
    if let Some(status) = answer_words(
        rt.alloc(),
        asked,
        "chunkplan",
        HELP,
        &mut writer,
        &mut errors,
    ) {
        return ExitCode::from(status);
    }
    let mut reader = Watched::new(rt.stdin());
    let mut sink = Sink::new(rt.alloc(), rt.stdout());
    ExitCode::from(run_to_status(rt.alloc(), &mut reader, &mut sink, &mut errors))
}
