//! Run-length elements: their sum, and the runs that they make.
ghost use Rattle.std.specs.Prelude.{◌≡◌, ◌+◌, ◌++◌, ◌<◌, ◌≤◌, IfOk, OnOk, SomeIff, length, map, replicate};
ghost use Rattle.std.specs.List.{sum};
ghost use Rattle.std.specs.Int.NonZero.{non_zero_u64_get};
ghost use Rattle.zarrs_chunk_base.specs.Greatest.{greatest};
ghost use Rattle.zarrs_chunk_base.specs.RunLength.{element_edges, expansion};
ghost use Rattle.zarrs_chunk_runs.specs.Runs.{AreMerged, edges_of_runs, run_of};

use std::alloc::{AllocError, Global};
use std::num::NonZeroU64;
use zarrs_chunk_base::RunLengthElement;

/// The sum of the edges that elements stand for; `None` where it passes 18446744073709551615.
pub fn total(elements: &[RunLengthElement]) -> Option<u64>
    ensures { SomeIff result (sum (expansion elements.now) ≤ greatest)
        (sum (expansion elements.now)) }
{
    let mut total = 0u64;
    for element in elements {
        total = total.checked_add(element_sum(element)?)?;
    }
    Some(total)
}

/// The sum of the edges that an element stands for, where it is at most the greatest `u64`.
fn element_sum(element: &RunLengthElement) -> Option<u64>
    ensures { SomeIff result (sum (element_edges element.now) ≤ greatest)
        (sum (element_edges element.now)) }
{
    let (edge, count) = run(element);
    edge.get().checked_mul(count.get())
}

/// The edge of an element, and how many chunks in a row have it.
fn run(element: &RunLengthElement) -> (NonZeroU64, NonZeroU64)
    ensures { element_edges element.now
        ≡ replicate (non_zero_u64_get result.1) (non_zero_u64_get result.0) }
{
    match element {
        RunLengthElement::Single(edge) => (*edge, NonZeroU64::MIN),
        RunLengthElement::Repeated([edge, count]) => (*edge, *count),
    }
}

/// The runs of the edges that elements stand for; no two that stand side by side have the same edge.
pub(crate) fn merge(
    alloc: Global,
    elements: &[RunLengthElement],
) -> Result<Vec<(NonZeroU64, NonZeroU64)>, AllocError>
    requires { sum (expansion elements.now) ≤ greatest }
    ensures edges { IfOk result (λ runs. edges_of_runs (map run_of runs.items)
        ≡ expansion elements.now) }
    ensures merged { IfOk result (λ runs. AreMerged (map run_of runs.items)) }
    ensures some { 0 < length elements.now → IfOk result (λ runs. 0 < length runs.items) }
{
    let mut runs = Vec::with_capacity(alloc, elements.len())?;
    for element in elements {
        let (edge, count) = run(element);
        append(&mut runs, edge, count)?;
    }
    Ok(runs)
}

/// Appends so many chunks of an edge: to the last run, where that has this edge, and else as a run of their own.
fn append(
    runs: &mut Vec<(NonZeroU64, NonZeroU64)>,
    edge: NonZeroU64,
    count: NonZeroU64,
) -> Result<(), AllocError>
    requires { length (edges_of_runs (map run_of runs.old.items)) + non_zero_u64_get count
        ≤ greatest }
    ensures edges { OnOk result (edges_of_runs (map run_of runs.new.items)
        ≡ edges_of_runs (map run_of runs.old.items)
        ++ replicate (non_zero_u64_get count) (non_zero_u64_get edge)) }
    ensures merged { AreMerged (map run_of runs.old.items)
        → OnOk result (AreMerged (map run_of runs.new.items)) }
    ensures some { OnOk result (0 < length runs.new.items) }
{
    let Some(last) = runs.last_mut() else {
        runs.push((edge, count))?;
        return Ok(());
    };
    if last.0 == edge {
        // No count is cut off, since all chunks together are at most u64::MAX.
        last.1 = last.1.saturating_add(count.get());
    } else {
        runs.push((edge, count))?;
    }
    Ok(())
}
