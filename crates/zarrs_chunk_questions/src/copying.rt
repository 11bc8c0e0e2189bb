//! A copy that a question is about.
ghost use Rattle.std.specs.Prelude.{◌≡◌, IfSome, MatchResult, option_map, unwrap_or};
ghost use Rattle.serde_json.specs.View.{view};
ghost use Rattle.zarrs_chunk_base.specs.ArraySubset.{IsBox};
ghost use Rattle.zarrs_chunk_base.specs.Refusal.{OrMemory};
ghost use Rattle.zarrs_chunks.specs.seen.Grids.{grid_in};
ghost use Rattle.zarrs_chunk_questions.specs.Refused.{HasNoTasks, IsNoBoxOf, IsNoCopy};
ghost use Rattle.zarrs_chunk_questions.specs.Tasks.{HasTasksOf, IsCopyAsked, region_of};
ghost use Rattle.zarrs_chunk_questions.specs.Trees.{box_of as box_said};
ghost use Rattle.zarrs_chunk_questions.specs.seen.Copies.{GivesTasksOf, IsNoStored, IsStoredIn, copy_of};
ghost use Rattle.zarrs_chunk_questions.specs.seen.Read.{copy_asked_of, lists_of};

use crate::asked::{CopyAsked, Lists, TargetArray};
use crate::extensions::{box_of, make_encoding};
use crate::line_fault::LineFault;
use serde_json::Value;
use std::alloc::Global;
use std::num::NonZeroU64;
use zarrs_chunk_base::{ArraySubset, Refusal};
use zarrs_chunk_keys::ChunkKeyEncoding;
use zarrs_chunk_plan::laws::all_fit;
use zarrs_chunk_plan::{StoredArray, whole_array};
use zarrs_chunk_tasks::{Order, Tasks, at_or_zeros, task_chunks_or_ones, tasks_by};
use zarrs_chunks::{ChunkGrid, ChunkGridTraits};

/// An array as it is stored, by metadata.
pub(crate) type OpenedArray = StoredArray<ChunkGrid, ChunkKeyEncoding>;

/// A copy that a question is about: a region of one array goes to another one, by tasks.
#[derive(Drop)]
pub(crate) struct Copying {
    pub(crate) source: OpenedArray,
    pub(crate) target: OpenedArray,
    /// The elements that are copied, as a box of the source's array.
    pub(crate) region: ArraySubset,
    /// The index in the target's array at which they begin.
    pub(crate) at: Vec<u64>,
    /// The array whose chunks a task takes, and how many along each dimension.
    pub(crate) order: Order,
    pub(crate) task_chunks: Vec<NonZeroU64>,
}

impl Copying {
    /// The copy of the array with this shape and this grid that is asked about.
    ///
    /// # Errors
    /// The first that applies: the encoding can't be made; the target's grid; its encoding; the start and the shape make no box. Or out of memory.
    pub(crate) fn new(
        alloc: Global,
        shape: &[u64],
        grid: ChunkGrid,
        encoding_tree: &Value,
        asked: CopyAsked<'_>,
    ) -> Result<Copying, Refusal<LineFault>>
        ensures { MatchResult result
            (λ made. IsCopyAsked shape.now (view encoding_tree.now) (copy_asked_of asked.entry)
            (grid_in grid) (copy_of made))
            (OrMemory (IsNoCopy shape.now (view encoding_tree.now) (copy_asked_of asked.entry))) }
    {
        let CopyAsked {
            target,
            subset,
            at,
            task_chunks,
            order,
        } = asked;
        let encoding = make_encoding(alloc, encoding_tree)?;
        let TargetArray {
            shape: given,
            chunk_grid,
            chunk_key_encoding,
        } = target;
        let sizes = shape_or(&given, shape);
        let target = make_target(alloc, chunk_grid, chunk_key_encoding, sizes)?;
        let region = region_or_all(alloc, subset, &grid)?;
        let at = at_or_zeros(alloc, at, region.dimensionality())?;
        let task_chunks = task_chunks_or_ones(alloc, task_chunks, grid.dimensionality())?;
        let source = StoredArray { grid, encoding };
        Ok(Copying {
            source,
            target,
            region,
            at,
            order,
            task_chunks,
        })
    }

    /// The walk over the copy's tasks.
    ///
    /// # Errors
    /// The copy has no tasks; or out of memory.
    pub(crate) fn tasks(&self, alloc: Global) -> Result<Tasks<'_, ChunkGrid>, Refusal<LineFault>>
        ensures { MatchResult result
            (λ walk. HasTasksOf (copy_of self.now) × GivesTasksOf self.now walk)
            (OrMemory (HasNoTasks (copy_of self.now))) }
    {
        all_fit(self.source.grid.array_shape());
        all_fit(self.target.grid.array_shape());
        let (from, into) = (&self.source.grid, &self.target.grid);
        match tasks_by(
            alloc,
            self.order,
            from,
            into,
            &self.region,
            &self.at,
            &self.task_chunks,
        ) {
            Ok(walk) => Ok(walk),
            Err(refusal) => Err(refusal.map(LineFault::Tasks)),
        }
    }
}

/// The shape that is given, or the array's own.
fn shape_or<'a>(given: &'a Option<Vec<u64>>, own: &'a [u64]) -> &'a [u64]
    ensures { result.now ≡ unwrap_or (option_map (λ shape. shape.items) given.now) own.now }
{
    match given {
        Some(shape) => shape.as_slice(),
        None => own,
    }
}

/// The grid and the encoding of a target, of an array with this shape.
///
/// # Errors
/// The first that applies: the grid can't be made; the encoding can't. Or out of memory.
fn make_target(
    alloc: Global,
    chunk_grid: &Value,
    chunk_key_encoding: &Value,
    shape: &[u64],
) -> Result<OpenedArray, Refusal<LineFault>>
    ensures { MatchResult result
        (IsStoredIn (view chunk_grid.now) (view chunk_key_encoding.now) shape.now)
        (OrMemory (IsNoStored (view chunk_grid.now) (view chunk_key_encoding.now) shape.now)) }
{
    let grid = match ChunkGrid::from_tree(alloc, chunk_grid, shape) {
        Ok(grid) => grid,
        Err(refusal) => return Err(refusal.map(LineFault::TargetExtension)),
    };
    match ChunkKeyEncoding::from_tree(alloc, chunk_key_encoding) {
        Ok(encoding) => Ok(StoredArray { grid, encoding }),
        Err(refusal) => Err(refusal.map(LineFault::TargetExtension)),
    }
}

/// The box that is given, or the box of all elements.
///
/// # Errors
/// The start and the shape make no box; or out of memory.
fn region_or_all(
    alloc: Global,
    subset: Option<Lists>,
    grid: &ChunkGrid,
) -> Result<ArraySubset, Refusal<LineFault>>
    ensures { MatchResult result
        (λ b. (b ≡ region_of (option_map lists_of subset) (grid_in grid.now).dimensions)
        × IfSome (option_map lists_of subset) (λ lists. IsBox (box_said lists)))
        (OrMemory (IsNoBoxOf (option_map lists_of subset))) }
{
    match subset {
        Some(lists) => match box_of(lists) {
            Ok(region) => Ok(region),
            Err(fault) => Err(Refusal::Refused(fault)),
        },
        None => Ok(whole_array(alloc, grid)?),
    }
}
