//! The items of a walk, and of a plan, from one of them on: those before it take no time.
ghost use Rattle.std.specs.Prelude.{◌≡◌, ◌<◌, ◌≤◌, ◌+◌, ◌*◌, IfOk, MatchOption, MatchResult, length, map, option_to_list};
ghost use Rattle.serde_json.specs.View.{view};
ghost use Rattle.zarrs_chunk_axes.specs.InBounds.{AreBelow};
ghost use Rattle.zarrs_chunk_base.specs.Dimension.{grid_sizes};
ghost use Rattle.zarrs_chunk_base.specs.Refusal.{OrMemory};
ghost use Rattle.zarrs_chunk_keys.specs.ChunkKey.{IsKey};
ghost use Rattle.zarrs_chunk_keys.specs.seen.Encodings.{encoding_in};
ghost use Rattle.zarrs_chunks.specs.seen.Grids.{grid_in};
ghost use Rattle.zarrs_chunk_plan.specs.ArrayBoxes.{all_chunks_box};
ghost use Rattle.zarrs_chunks.specs.Walks.{chunks_of};
ghost use Rattle.zarrs_chunk_questions.specs.Pages.{IsPartsAnswer, some_from, count_of, is_more, item_trees as trees_of_items, page_from};
ghost use Rattle.zarrs_chunk_questions.specs.Pages.{page_tree as tree_of_page};
ghost use Rattle.zarrs_chunk_questions.specs.Pages.{part_tree as tree_of_part};
ghost use Rattle.zarrs_chunk_questions.specs.Refused.{IsPartsRefusal};
ghost use Rattle.zarrs_chunk_questions.specs.seen.Lines.{IsGiven};
ghost use Rattle.zarrs_chunk_questions.specs.seen.Walked.{IsBoxOf, IsItemOf, lists_in};

use crate::call::WalkOf;
use crate::limits::Limits;
use crate::line_fault::LineFault;
use crate::plan_trees::part_tree;
use crate::trees::found;
use crate::walk_items::pair_tree;
use serde_json::{Map, Value};
use std::alloc::{AllocError, Global};
use zarrs_chunk_base::{ArraySubset, Refusal, write_box, write_list};
use zarrs_chunk_keys::ChunkKeyEncoding;
use zarrs_chunk_plan::{Part, all_chunks, chunk_at, count_below, some_parts};
use zarrs_chunks::{ChunkGrid, ChunkGridTraits};

impl WalkOf {
    /// How many lists of numbers an item has.
    pub(crate) fn lists(self) -> u8
        ensures { result ≡ lists_in self }
    {
        match self {
            WalkOf::Chunks => 1,
            WalkOf::Boxes => 2,
            WalkOf::ChunksAndBoxes => 3,
        }
    }

    /// The tree of what the walk gives of a chunk that a grid counts; `None` where it gives boxes, and the chunk has none.
    ///
    /// # Errors
    /// Out of memory.
    fn item_of<G: ChunkGridTraits>(
        self,
        alloc: Global,
        grid: &G,
        chunk: &[u64],
    ) -> Result<Option<Value>, AllocError>
        requires { AreBelow (grid_sizes (G.dimensions grid.now)) chunk.now }
        ensures { IfOk result (IsItemOf self (G.dimensions grid.now) chunk.now) }
    {
        match self {
            WalkOf::Chunks => Ok(Some(write_list(alloc, chunk)?)),
            WalkOf::Boxes => box_of_chunk(alloc, grid, chunk),
            WalkOf::ChunksAndBoxes => match box_of_chunk(alloc, grid, chunk)? {
                Some(subset) => {
                    let numbers = write_list(alloc, chunk)?;
                    Ok(Some(pair_tree(alloc, numbers, subset)?))
                }
                None => Ok(None),
            },
        }
    }
}

/// The tree of the box of a chunk that a grid counts; `None` where it has none.
///
/// # Errors
/// Out of memory.
fn box_of_chunk<G: ChunkGridTraits>(
    alloc: Global,
    grid: &G,
    chunk: &[u64],
) -> Result<Option<Value>, AllocError>
    requires { AreBelow (grid_sizes (G.dimensions grid.now)) chunk.now }
    ensures { IfOk result (IsBoxOf (G.dimensions grid.now) chunk.now) }
{
    match grid.subset(alloc, chunk) {
        Ok(Some(subset)) => Ok(Some(write_box(alloc, &subset)?)),
        Ok(None) => Ok(None),
        // Out of memory: a chunk that a grid counts has as many numbers as the grid has dimensions.
        Err(_) => Err(AllocError),
    }
}

/// The tree of a walk's items of the chunks that a grid counts, from the one with this number on; `None` where there are too many items. Chunks
/// without a box have no item where the walk gives boxes, and are counted all the same.
///
/// # Errors
/// Out of memory.
pub(crate) fn items_from<G: ChunkGridTraits>(
    alloc: Global,
    grid: &G,
    walk: WalkOf,
    first: u64,
    limits: &Limits,
) -> Result<Option<Value>, AllocError>
    ensures { IfOk result (λ found. MatchOption found
        (limits.now.too_many ≤ length (trees_of_items walk (G.dimensions grid.now)
        (some_from first limits.now.most (chunks_of (G.dimensions grid.now)))))
        (λ tree. view tree ≡ page_from walk (G.dimensions grid.now) first limits.now.most)) }
{
    let chunks = all_chunks(alloc, grid)?;
    let in_all = count_below(chunks.shape());
    let count = limits.most.min(in_all.saturating_sub(first));
    let mut items = Vec::new(alloc);
    for passed in 0..count {
        if let Some(item) = item_at(alloc, grid, walk, &chunks, first + passed)? {
            items.push(item)?;
        }
        if limits.is_too_many(items.len()) {
            return Ok(None);
        }
    }
    Ok(Some(page_tree(alloc, items, first, count, in_all)?))
}

/// The tree of what a walk gives of the chunk with this number, of all chunks that a grid counts; `None` where it gives boxes, and the chunk has
/// none.
///
/// # Errors
/// Out of memory.
fn item_at<G: ChunkGridTraits>(
    alloc: Global,
    grid: &G,
    walk: WalkOf,
    chunks: &ArraySubset,
    number: u64,
) -> Result<Option<Value>, AllocError>
    requires all { chunks.now ≡ all_chunks_box (G.dimensions grid.now) }
    requires within { number < count_of (chunks_of (G.dimensions grid.now)) }
    ensures { IfOk result (λ found. map view (option_to_list found)
        ≡ trees_of_items walk (G.dimensions grid.now)
        (some_from number 1 (chunks_of (G.dimensions grid.now)))) }
{
    let chunk = chunk_at(alloc, chunks, number)?;
    walk.item_of(alloc, grid, chunk.as_slice())
}

/// The tree of the parts of the plan of reading a box of elements, from the one with this number on; `null` where it has no plan. `None` where there
/// are too many parts.
///
/// # Errors
/// The box has another number of dimensions; or out of memory.
pub(crate) fn parts_from(
    alloc: Global,
    grid: &ChunkGrid,
    encoding: &ChunkKeyEncoding,
    elements: &ArraySubset,
    first: u64,
    limits: &Limits,
) -> Result<Option<Value>, Refusal<LineFault>>
    ensures { MatchResult result (IsGiven
        (limits.now.too_many * (2 * (5 * length (grid_in grid.now).dimensions) + 1))
        (IsPartsAnswer (grid_in grid.now).dimensions (IsKey (encoding_in encoding.now))
        elements.now first limits.now.most))
        (OrMemory (IsPartsRefusal (grid_in grid.now).dimensions elements.now)) }
{
    elements.is_a_box();
    let most = limits.wanted() as usize;
    let Some(some) = found(some_parts(alloc, grid, encoding, elements, first, most))? else {
        return Ok(Some(Value::Null));
    };
    if limits.is_too_many(some.parts.len()) {
        return Ok(None);
    }
    let items = part_trees(alloc, &some.parts)?;
    let count = some.parts.len() as u64;
    Ok(Some(page_tree(alloc, items, first, count, some.in_all)?))
}

/// The trees of parts.
///
/// # Errors
/// Out of memory.
fn part_trees(alloc: Global, parts: &[Part]) -> Result<Vec<Value>, AllocError>
    ensures { IfOk result (λ trees. map view trees.items ≡ map tree_of_part parts.now) }
{
    let mut trees = Vec::new(alloc);
    for part in parts {
        trees.push(part_tree(alloc, part)?)?;
    }
    Ok(trees)
}

/// The tree of the items of so many chunks, from the one with the number `first` on, of so many in all.
///
/// # Errors
/// Out of memory.
pub(crate) fn page_tree(
    alloc: Global,
    items: Vec<Value>,
    first: u64,
    count: u64,
    in_all: u64,
) -> Result<Value, AllocError>
    ensures { IfOk result (λ tree.
        view tree ≡ tree_of_page (map view items.items) (is_more first count in_all)) }
{
    items_tree(alloc, items, first.saturating_add(count) < in_all)
}

/// The tree of items, and of whether more follow.
///
/// # Errors
/// Out of memory.
pub(crate) fn items_tree(alloc: Global, items: Vec<Value>, more: bool) -> Result<Value, AllocError>
    ensures { IfOk result (λ tree. view tree ≡ tree_of_page (map view items.items) more) }
{
    let mut members = Map::new(alloc);
    serde_json::put(&mut members, alloc, "items", Value::Array(items))?;
    serde_json::put(&mut members, alloc, "more", Value::from(more))?;
    Ok(Value::Object(members))
}
