//! `chunkcalls` asks chunk grids and chunk key encodings, a call a line.
//!
//! Each line of standard input is a JSON object: the `shape` of an array and its `chunk_grid`, as
//! in its `zarr.json`, the name of a `call`, and what it is asked `of`, where it takes something; for a walk, how many
//! `items` to give; for `locate` and `parts`, a `chunk_key_encoding`. The call `encode` takes a `chunk_key_encoding` and the numbers of a chunk
//! alone.
//! For each line one line is printed: the answer as compact JSON, why the library refused, or why
//! the line can't be read.
//!
//! ```text
//! {"shape":[5,7,52],"chunk_grid":{"name":"regular","configuration":{"chunk_shape":[1,2,3]}},"call":"subset","of":[0,3,17]}
//! [[0,6,51],[1,2,3]]
//! ```
//!
//! With no words it is `run_to_status` of `programs::chunkcalls`, over what the process was given; words, which `read_words` reads, are answered by `answer_words`.
#![tactic(auto)]

use programs::chunkcalls::{Sink, Watched, run_to_status};
use programs::{answer_words, read_words};
use std::process::ExitCode;

/// What `--help` prints.
const HELP: &str = "\
Asks the chunk grid or the chunk key encoding of a Zarr array, a call a line.

Usage: chunkcalls [--help | --version] < QUESTIONS > ANSWERS

Each line of standard input is a JSON object: `shape` and `chunk_grid`, as in a
zarr.json, the name of a `call`, and what it is asked `of`. For each a line is
written: the answer as JSON, or why there is none.

  {\"shape\":[5,7,52],\"chunk_grid\":{\"name\":\"regular\",\"configuration\":
   {\"chunk_shape\":[1,2,3]}},\"call\":\"chunk_indices\",\"of\":[3,5,50]}

asks, on one line, which chunk holds an element; the answer is [3,2,16].

Ends with the status 0, or with 1 where reading or writing failed or memory ran
out, which standard error tells.";

fn main(rt: HostRuntime) -> ExitCode {
    let mut errors = Watched::new(rt.stderr());
    let asked = read_words(&rt);
    let mut writer = Watched::new(rt.stdout());
    if let Some(status) = answer_words(
        rt.alloc(),
        asked,
        "chunkcalls",
        HELP,
        &mut writer,
        &mut errors,
    ) {
        return ExitCode::from(status);
    }
    let mut reader = Watched::new(rt.stdin());
    let mut sink = Sink::new(rt.alloc(), rt.stdout());
    ExitCode::from(run_to_status(rt.alloc(), &mut reader, &mut sink, &mut errors))
}
