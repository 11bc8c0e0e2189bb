//! `chunkwhere` tells where the elements of a Zarr array are stored.
//!
//! It reads one JSON document on standard input: an array's `shape`, `chunk_grid` and
//! `chunk_key_encoding`, as in its `zarr.json`, and the `indices` to look up. For each index
//! list it prints the key of the chunk that holds the element, and the element's place in it. For
//! each of its `keys`, if it has any, it prints the numbers of the chunk that has the key.
//!
//! It is `run_to_status` of `documents::chunkwhere`, over what the process was given.
#![tactic(auto)]

use documents::chunkwhere::{Watched, run_to_status};
use std::process::ExitCode;

fn main(rt: HostRuntime) -> ExitCode {
    let mut reader = Watched::new(rt.stdin());
    let mut writer = Watched::new(rt.stdout());
    let mut errors = Watched::new(rt.stderr());
    ExitCode::from(run_to_status(rt.alloc(), &mut reader, &mut writer, &mut errors))
}
