//! The items of a walk, from its beginning on.
ghost use Rattle.std.specs.Prelude.{◌≡◌, ◌∷◌, [], IfOk, List, map};
ghost use Rattle.serde_json.specs.Data.{Data, array};
ghost use Rattle.serde_json.specs.View.{items_of, view};
ghost use Rattle.zarrs_chunk_questions.specs.Pages.{item_trees};
ghost use Rattle.zarrs_chunk_questions.specs.Trees.{box_tree, numbers_tree};
ghost use Rattle.zarrs_chunk_questions.specs.seen.Walked.{GivesTree, IsFirstPage, both_trees};
ghost use Rattle.zarrs_chunks.specs.Walks.{chunks_of};
ghost use Rattle.zarrs_chunks.specs.seen.Walks.{AreBoxesOfGrid, AreChunksOfGrid, boxes_left, chunks_and_boxes_left, chunks_left};

use crate::call::WalkOf;
use crate::limits::Limits;
use crate::pages::items_tree;
use serde_json::Value;
use std::alloc::{AllocError, Global};
use zarrs_chunk_base::{write_box, write_list};
use zarrs_chunks::{ChunkGridTraits, ChunkIndices, ChunkIndicesAndSubsets, ChunkSubsets};

/// A walk whose items are written as trees.
pub(crate) trait TreeWalk: Drop {
    /// The trees that are still to come.
    ghost left: { Self → List Data };

    /// The walk goes through the chunks of its grid.
    ghost is_walk: { Self → Type 0 };

    /// The tree of the next item; `None` at the end.
    ///
    /// # Errors
    /// Out of memory.
    fn next_tree(&mut self, alloc: Global) -> Result<Option<Value>, AllocError>
        requires { is_walk self.old }
        ensures next { IfOk result (GivesTree (left self.old) (left self.new)) }
        ensures goes_on { IfOk result (λ _. is_walk self.new) };
}

/// The walk over the numbers of the chunks.
impl TreeWalk for ChunkIndices<'_> {
    ghost left = { λ walk. map numbers_tree (chunks_left walk) };

    ghost is_walk = { λ _. Unit {0} };

    fn next_tree(&mut self, alloc: Global) -> Result<Option<Value>, AllocError> {
        match self.next() {
            Some(Ok(chunk)) => Ok(Some(write_list(alloc, chunk.as_slice())?)),
            Some(Err(error)) => Err(error),
            None => Ok(None),
        }
    }
}

/// The walk over their boxes: `[start, shape]`.
impl<G: ChunkGridTraits> TreeWalk for ChunkSubsets<'_, G> {
    ghost left = { λ walk. map box_tree (boxes_left G.dimensions walk) };

    ghost is_walk = { AreBoxesOfGrid G.dimensions };

    fn next_tree(&mut self, alloc: Global) -> Result<Option<Value>, AllocError> {
        match self.next() {
            Some(Ok(subset)) => Ok(Some(write_box(alloc, &subset)?)),
            Some(Err(error)) => Err(error),
            None => Ok(None),
        }
    }
}

/// The walk over both: `[chunk, [start, shape]]`.
impl<G: ChunkGridTraits> TreeWalk for ChunkIndicesAndSubsets<'_, G> {
    ghost left = { λ walk. map both_trees (chunks_and_boxes_left G.dimensions walk) };

    ghost is_walk = { AreChunksOfGrid G.dimensions };

    fn next_tree(&mut self, alloc: Global) -> Result<Option<Value>, AllocError> {
        match self.next() {
            Some(Ok((chunk, subset))) => {
                let numbers = write_list(alloc, chunk.as_slice())?;
                Ok(Some(pair_tree(alloc, numbers, write_box(alloc, &subset)?)?))
            }
            Some(Err(error)) => Err(error),
            None => Ok(None),
        }
    }
}

/// The tree of a list of two.
///
/// # Errors
/// Out of memory.
pub(crate) fn pair_tree(alloc: Global, one: Value, other: Value) -> Result<Value, AllocError>
    ensures { IfOk result (λ tree. view tree
        ≡ array (items_of (view one ∷ view other ∷ []))) }
{
    let mut both = Vec::with_capacity(alloc, 2)?;
    both.push(one)?;
    both.push(other)?;
    Ok(Value::Array(both))
}

/// The tree of the first items of a walk over the chunks of a grid and of whether more follow: `{"items":[..],"more":b}`. `None` where there are too
/// many items.
///
/// # Errors
/// Out of memory.
pub(crate) fn items_of_walk<G: ChunkGridTraits>(
    alloc: Global,
    grid: &G,
    walk: WalkOf,
    limits: &Limits,
) -> Result<Option<Value>, AllocError>
    ensures { IfOk result (IsFirstPage limits.now.most limits.now.too_many
        (item_trees walk (G.dimensions grid.now) (chunks_of (G.dimensions grid.now)))) }
{
    match walk {
        WalkOf::Chunks => first_items(alloc, grid.iter_chunk_indices(alloc), limits),
        WalkOf::Boxes => first_items(alloc, grid.iter_chunk_subsets(alloc), limits),
        WalkOf::ChunksAndBoxes => {
            first_items(alloc, grid.iter_chunk_indices_and_subsets(alloc), limits)
        }
    }
}

/// The same of the items that a walk has left.
///
/// # Errors
/// Out of memory.
fn first_items<W: TreeWalk>(
    alloc: Global,
    mut walk: W,
    limits: &Limits,
) -> Result<Option<Value>, AllocError>
    requires { W.is_walk walk }
    ensures { IfOk result (IsFirstPage limits.now.most limits.now.too_many (W.left walk)) }
{
    let mut items = Vec::new(alloc);
    while let Some(tree) = walk.next_tree(alloc)? {
        if items.len() as u64 == limits.most {
            return Ok(Some(items_tree(alloc, items, true)?));
        }
        items.push(tree)?;
        if limits.is_too_many(items.len()) {
            return Ok(None);
        }
    }
    Ok(Some(items_tree(alloc, items, false)?))
}
