//! What becomes of the chunks of an array that gets another shape.
ghost use Rattle.std.specs.Prelude.{◌≡◌, ℕ, IfOk, List, MatchResult};
ghost use Rattle.serde_json.specs.View.{view};
ghost use Rattle.zarrs_chunk_base.specs.Refusal.{OrMemory};
ghost use Rattle.zarrs_chunks.specs.GridKinds.{IsGridIn};
ghost use Rattle.zarrs_chunks.specs.seen.Grids.{grid_in, kind_in};
ghost use Rattle.zarrs_chunk_questions.specs.Changed.{IsChangedAnswer, changed_tree as tree_of_changed};
ghost use Rattle.zarrs_chunk_questions.specs.Refused.{IsChangedRefusal};

use crate::line_fault::LineFault;
use serde_json::{Map, Value};
use std::alloc::{AllocError, Global};
use zarrs_chunk_base::{Refusal, write_list};
use zarrs_chunk_plan::{ChangedChunks, changed_chunks};
use zarrs_chunks::ChunkGrid;

/// What becomes of the chunks of an array with this grid, which the tree is the metadata of, when it gets another shape.
///
/// # Errors
/// No grid of that shape can be made of the tree; or out of memory.
pub(crate) fn answer_changed(
    alloc: Global,
    grid: &ChunkGrid,
    chunk_grid: &Value,
    resize: &[u64],
) -> Result<Value, Refusal<LineFault>>
    requires { (shape : List ℕ)
        × IsGridIn (view chunk_grid.now) shape (kind_in grid.now) (grid_in grid.now) }
    ensures { MatchResult result
        (λ tree. IsChangedAnswer (view chunk_grid.now) resize.now (grid_in grid.now) (view tree))
        (OrMemory (IsChangedRefusal (view chunk_grid.now) resize.now)) }
{
    let resized = resized_grid(alloc, chunk_grid, resize)?;
    match changed_chunks(alloc, grid, &resized) {
        Ok(changed) => Ok(changed_tree(alloc, &changed)?),
        // Out of memory: grids that one tree makes have as many dimensions.
        Err(refusal) => Err(refusal.map(LineFault::Lengths)),
    }
}

/// The grid that the tree is the metadata of, of the new shape.
///
/// # Errors
/// It can't be made; or out of memory.
fn resized_grid(
    alloc: Global,
    chunk_grid: &Value,
    resize: &[u64],
) -> Result<ChunkGrid, Refusal<LineFault>>
    ensures { MatchResult result
        (λ grid. IsGridIn (view chunk_grid.now) resize.now (kind_in grid) (grid_in grid))
        (OrMemory (IsChangedRefusal (view chunk_grid.now) resize.now)) }
{
    match ChunkGrid::from_tree(alloc, chunk_grid, resize) {
        Ok(grid) => Ok(grid),
        Err(refusal) => Err(refusal.map(LineFault::ResizedExtension)),
    }
}

/// The tree of what becomes of chunks: `{"after":[..],"before":[..],"kept":[..]}`.
fn changed_tree(alloc: Global, changed: &ChangedChunks) -> Result<Value, AllocError>
    ensures { IfOk result (λ tree. view tree ≡ tree_of_changed changed.now) }
{
    let mut members = Map::new(alloc);
    serde_json::put(
        &mut members,
        alloc,
        "after",
        write_list(alloc, &changed.after)?,
    )?;
    serde_json::put(
        &mut members,
        alloc,
        "before",
        write_list(alloc, &changed.before)?,
    )?;
    serde_json::put(
        &mut members,
        alloc,
        "kept",
        write_list(alloc, &changed.kept)?,
    )?;
    Ok(Value::Object(members))
}
