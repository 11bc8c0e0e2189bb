//! The chunk of an index among the edges of run-length elements.
ghost use Rattle.std.specs.Prelude.{◌≤◌, IfOk, MatchOption};
ghost use Rattle.std.specs.List.{sum};
ghost use Rattle.zarrs_chunk_base.specs.RunLength.{expansion};
ghost use Rattle.zarrs_chunk_runs.specs.Runs.{IsChunkOf};

use std::alloc::Global;
use zarrs_chunk_base::{Refusal, RunLengthElement};
use zarrs_chunk_runs::{Comparisons, RunEdges, RunEdgesError};

/// The chunk that an index lies in, among chunks with these edges; `None` where it lies past them.
pub fn chunk_of_index(
    alloc: Global,
    elements: &[RunLengthElement],
    index: u64,
) -> Result<Option<u64>, Refusal<RunEdgesError>>
    ensures { IfOk result (λ found. MatchOption found
        (sum (expansion elements.now) ≤ index) (IsChunkOf (expansion elements.now) index)) }
{
    let edges = RunEdges::new(alloc, elements)?;
    Ok(edges.find_index(index, &mut Comparisons::new()))
}
