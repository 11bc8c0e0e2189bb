//! The run-length form of edges that are kept as runs.
ghost use Rattle.std.specs.Prelude.{◌≡◌, IfOk, map, replicate};
ghost use Rattle.std.specs.Int.NonZero.{non_zero_u64_get};
ghost use Rattle.zarrs_chunk_base.specs.RunLength.{edge_in, edges_of_element, element_of, expansion, IsNoPairOfOne, IsRunLengthForm};
ghost use Rattle.zarrs_chunk_runs.specs.seen.RunEdges.{expanded};

use std::alloc::{AllocError, Global};
use std::num::NonZeroU64;
use zarrs_chunk_base::RunLengthElement;
use zarrs_chunk_runs::RunEdges;
use zarrs_chunk_runs::laws::neighbours_differ;

/// The run-length form of edges: one element for each run.
pub(crate) fn run_length_form(
    alloc: Global,
    edges: &RunEdges,
) -> Result<Vec<RunLengthElement>, AllocError>
    ensures edges { IfOk result (λ elements. expansion elements.items ≡ expanded edges.now) }
    ensures form { IfOk result (λ elements. IsRunLengthForm (map element_of elements.items)) }
{
    neighbours_differ();
    let mut elements = Vec::with_capacity(alloc, edges.runs())?;
    while let Some((edge, count)) = edges.run(elements.len()) {
        elements.push(element_of_run(edge, count))?;
    }
    Ok(elements)
}

/// The element of a run of equal edges.
fn element_of_run(edge: NonZeroU64, count: NonZeroU64) -> RunLengthElement
    ensures edges { edges_of_element (element_of result)
        ≡ replicate (non_zero_u64_get count) (non_zero_u64_get edge) }
    ensures edge { edge_in (element_of result) ≡ non_zero_u64_get edge }
    ensures form { IsNoPairOfOne (element_of result) }
{
    if count == NonZeroU64::MIN {
        RunLengthElement::Single(edge)
    } else {
        RunLengthElement::Repeated([edge, count])
    }
}
