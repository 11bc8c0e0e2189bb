//! Edges kept as runs: how often a search compares, and the texts of faults.
use crate::compared::{check_text, check_that};
use serde_json::Value;
use std::alloc::Global;
use std::process::Abort;
use std::test::Fail;
use zarrs_chunk_base::{Refusal, RunLengthElement, TreeForm};
use zarrs_chunk_runs::{Comparisons, RunEdges, RunEdgesError};

/// Elements: an edge, and perhaps how many chunks in a row have it.
fn elements(alloc: Global, text: &str) -> Result<Vec<RunLengthElement>, Fail> {
    let tree = Value::from_slice(alloc, text.as_bytes())?;
    Ok(Vec::from_tree(alloc, &tree)?.ok_or("no elements")?)
}

/// Edges that aren't refused.
fn edges(alloc: Global, text: &str) -> Result<RunEdges, Fail> {
    Ok(RunEdges::new(alloc, &elements(alloc, text)?)?)
}

/// The run that a chunk lies in.
fn check_run_of_chunk(
    rt: &impl Abort,
    edges: &RunEdges,
    chunk: u64,
    run: Option<usize>,
    comparisons: &mut Comparisons,
) {
    check_that(rt, edges.find_chunk(chunk, comparisons) == run, "a chunk");
}

/// Searches find what they are to find, with at most three comparisons each.
fn check_searches(rt: &impl Abort, edges: &RunEdges) {
    let mut comparisons = Comparisons::new();
    check_run_of_chunk(rt, edges, 2, Some(0), &mut comparisons);
    check_run_of_chunk(rt, edges, 4, Some(1), &mut comparisons);
    check_run_of_chunk(rt, edges, 6, Some(3), &mut comparisons);
    check_run_of_chunk(rt, edges, 7, None, &mut comparisons);
    let compared = comparisons.count();
    check_that(rt, compared > 0 && compared <= 12, "three comparisons each");
}

#[test]
fn searches_take_few_comparisons(rt: HostRuntime) -> Result<(), Fail> {
    check_searches(&rt, &edges(rt.alloc(), "[[5,1],[5,2],15,15,[20,1],35]")?);
    Ok(())
}

/// Why there are no such edges.
fn refused(alloc: Global, text: &str) -> Result<RunEdgesError, Fail> {
    match RunEdges::new(alloc, &elements(alloc, text)?) {
        Err(Refusal::Refused(error)) => Ok(error),
        Err(Refusal::Memory(error)) => Err(error.into()),
        Ok(_) => Err("edges".into()),
    }
}

#[test]
fn edges_are_refused(rt: HostRuntime) -> Result<(), Fail> {
    check_text(&rt, &refused(rt.alloc(), "[]")?, "no chunk edges")?;
    let error = refused(rt.alloc(), "[[2,9223372036854775808]]")?;
    Ok(check_text(
        &rt,
        &error,
        "sum of chunk edges exceeds 18446744073709551615",
    )?)
}
