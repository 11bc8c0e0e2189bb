//! What a `rectilinear` chunk grid answers alone.
ghost use Rattle.std.specs.Prelude.{◌≡◌, IfErr, IfOk, MatchResult, length};
ghost use Rattle.serde_json.specs.View.{view};
ghost use Rattle.zarrs_chunk_base.specs.Refusal.{OrMemory};
ghost use Rattle.zarrs_chunks.specs.GridKinds.{rectilinear};
ghost use Rattle.zarrs_chunks.specs.seen.Grids.{grid_in, kind_in, rectilinear_of};
ghost use Rattle.zarrs_chunk_questions.specs.Answers.{IsCountedAnswer, IsRunsAnswer, counted_tree as tree_of_counted};
ghost use Rattle.zarrs_chunk_questions.specs.Refused.{IsLengthFault, IsNotOfKind};

use crate::line_fault::LineFault;
use crate::trees::list_or_null;
use crate::unreadable::Unreadable;
use serde_json::{Map, Value};
use std::alloc::{AllocError, Global};
use zarrs_chunk_base::Refusal;
use zarrs_chunks::{ChunkGrid, Comparisons, RectilinearChunkGrid};

/// The grid, where it is `rectilinear`; no other grid has the call of this name.
///
/// # Errors
/// It is of another kind; or out of memory.
pub(crate) fn expect_rectilinear(
    alloc: Global,
    name: &'static str,
    grid: ChunkGrid,
) -> Result<RectilinearChunkGrid, Refusal<LineFault>>
    ensures kind { IfOk result (λ _. kind_in grid ≡ rectilinear) }
    ensures grid { IfOk result (λ same. rectilinear_of same ≡ grid_in grid) }
    ensures refused { IfErr result (OrMemory (IsNotOfKind name.now (kind_in grid))) }
{
    match grid {
        ChunkGrid::Rectilinear(grid) => Ok(grid),
        _ => {
            let name = String::from_str(alloc, name)?;
            Err(Refusal::Refused(LineFault::Unreadable(Unreadable::NoCall(name))))
        }
    }
}

/// How many runs of equal edges a dimension has.
pub(crate) fn answer_runs(grid: &RectilinearChunkGrid, dimension: u64) -> Value
    ensures { IsRunsAnswer (rectilinear_of grid.now) dimension (view result) }
{
    match grid.runs(dimension as usize) {
        Some(runs) => Value::from(runs),
        None => Value::Null,
    }
}

/// The chunk of an index, and how many comparisons that took.
///
/// # Errors
/// There are more or fewer indices than dimensions; or out of memory.
pub(crate) fn answer_counted(
    alloc: Global,
    grid: &RectilinearChunkGrid,
    index: &[u64],
) -> Result<Value, Refusal<LineFault>>
    ensures { MatchResult result
        (λ tree. IsCountedAnswer (rectilinear_of grid.now) index.now (view tree))
        (OrMemory (IsLengthFault (length index.now)
        (length (rectilinear_of grid.now).dimensions))) }
{
    let mut comparisons = Comparisons::new();
    let chunk = grid.chunk_indices_counted(alloc, index, &mut comparisons);
    let answer = list_or_null(alloc, chunk)?;
    Ok(counted_tree(alloc, answer, comparisons.count())?)
}

/// The tree of an answer and of how many comparisons it took: `{"answer":..,"comparisons":n}`.
fn counted_tree(alloc: Global, answer: Value, count: u64) -> Result<Value, AllocError>
    ensures { IfOk result (λ tree. view tree ≡ tree_of_counted (view answer) count) }
{
    let mut members = Map::new(alloc);
    serde_json::put(&mut members, alloc, "answer", answer)?;
    serde_json::put(&mut members, alloc, "comparisons", Value::from(count))?;
    Ok(Value::Object(members))
}
