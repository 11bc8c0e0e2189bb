//! The sizes of groups that are tried along each dimension.
ghost use Rattle.std.specs.Prelude.{◌≡◌, ◌≤◌, ◌<◌, ◌↔◌, IfOk, IfSome, IfNone, IsTrue, map, min, suc};
ghost use Rattle.std.specs.List.{AllByRecursion, AllZip};
ghost use Rattle.zarrs_chunk_base.specs.ArraySubset.{IsEmptyBox, lasts};
ghost use Rattle.zarrs_chunk_base.specs.Dimension.{array_sizes};
ghost use Rattle.zarrs_chunk_base.specs.Greatest.{greatest};
ghost use Rattle.zarrs_chunks.specs.Subsets.{IsCover};
ghost use Rattle.zarrs_chunk_plan.specs.Counts.{product};
ghost use Rattle.zarrs_chunk_plan.specs.Region.{LiesIn};
ghost use Rattle.zarrs_chunk_tasks.specs.Cheapest.{most_choices, most_sizes};
ghost use Rattle.zarrs_chunk_tasks.specs.seen.Choices.{rows_of};
ghost use Rattle.zarrs_chunk_tasks.specs.seen.Counts.{AreCopied, AreGrouped};
ghost use Rattle.zarrs_chunk_tasks.specs.seen.Sizes.{AreSizes, sides};
ghost use Rattle.zarrs_chunk_tasks.specs.seen.Tried.{AreTriedOver};

use crate::copied::{Copied, Grouped, groups_along, groups_with};
use crate::sizes::{Size, sizes_along};
use crate::thinning::{choices_for, thinned};
use std::alloc::{AllocError, Global};
use std::num::NonZeroU64;
use zarrs_chunk_base::ArraySubset;
use zarrs_chunks::ChunkGridTraits;

/// Up to how many chunks along a dimension each number of chunks is tried.
const MOST_SIZES: u64 = 1 << 16;

/// Up to how many chunks along all dimensions together each choice is.
const MOST_CHOICES: u64 = 1 << 24;

/// How many choices of one dimension there are at most if not all are tried.
const SOME_CHOICES: u64 = 1 << 20;

/// The sizes that are tried.
#[derive(Drop)]
pub(crate) struct Tried {
    /// Those along each dimension. One chunk comes first.
    pub(crate) rows: Vec<Vec<Size>>,
    /// Whether a choice from them is as cheap as any.
    pub(crate) is_exact: bool,
}

/// Returns the sizes that are tried for groups of the target's chunks that hold some of the elements, which are a box of its array. `None` if there are no
/// elements.
///
/// # Errors
/// Out of memory.
pub(crate) fn tried_sizes<G: ChunkGridTraits, H: ChunkGridTraits>(
    alloc: Global,
    copied: &Copied<G, H>,
    elements: &ArraySubset,
) -> Result<Option<Tried>, AllocError>
    requires lies { LiesIn elements.now (array_sizes (H.dimensions copied.now.target.now)) }
    requires copied { AreCopied (G.dimensions copied.now.source.now)
        (H.dimensions copied.now.target.now) elements.now copied.now.first.now
        elements.now.start }
    ensures none { IfOk result (λ tried. IfNone tried (IsEmptyBox elements.now)) }
    ensures some { IfOk result (λ tried. IfSome tried
        (AreTriedOver (G.dimensions copied.now.source.now) (H.dimensions copied.now.target.now)
        copied.now.first.now elements.now)) }
{
    let one_each = vec![in alloc; NonZeroU64::MIN; elements.start().len()]?;
    let Some(grouped) = groups_with(alloc, copied.target, &one_each, elements)? else {
        return Ok(None);
    };
    Ok(Some(sizes_of_groups(alloc, copied, &grouped)?))
}

/// Returns the sizes that are tried. There are elements.
///
/// # Errors
/// Out of memory.
fn sizes_of_groups<G: ChunkGridTraits, H: ChunkGridTraits>(
    alloc: Global,
    copied: &Copied<G, H>,
    grouped: &Grouped<H>,
) -> Result<Tried, AllocError>
    requires same { grouped.now.grid.now ≡ copied.now.target.now }
    requires grouped { AreGrouped H.dimensions (G.dimensions copied.now.source.now)
        (H.dimensions copied.now.target.now) copied.now.first.now grouped.now.elements.now.start
        grouped.now }
    requires cover { IsCover (H.dimensions copied.now.target.now) grouped.now.elements.now
        grouped.now.cover }
    requires last { grouped.now.last.items
        ≡ lasts grouped.now.cover.start grouped.now.cover.shape }
    ensures { IfOk result (AreTriedOver (G.dimensions copied.now.source.now)
        (H.dimensions copied.now.target.now) copied.now.first.now grouped.now.elements.now) }
{
    let is_exact = are_few(&grouped.last);
    let rows = sizes_of_each(alloc, copied, grouped, is_exact)?;
    if is_exact {
        return Ok(Tried { rows, is_exact });
    }
    let most = choices_for(SOME_CHOICES, rows.len());
    Ok(Tried {
        rows: thinned(alloc, rows, most)?,
        is_exact,
    })
}

/// Finds the sizes along each dimension: of each number of chunks if `are_all`, and else of some.
///
/// # Errors
/// Out of memory.
fn sizes_of_each<G: ChunkGridTraits, H: ChunkGridTraits>(
    alloc: Global,
    copied: &Copied<G, H>,
    grouped: &Grouped<H>,
    are_all: bool,
) -> Result<Vec<Vec<Size>>, AllocError>
    requires same { grouped.now.grid.now ≡ copied.now.target.now }
    requires grouped { AreGrouped H.dimensions (G.dimensions copied.now.source.now)
        (H.dimensions copied.now.target.now) copied.now.first.now grouped.now.elements.now.start
        grouped.now }
    ensures { IfOk result (λ rows. AllZip (AreSizes are_all) (sides (G.dimensions copied.now.source.now)
        (H.dimensions copied.now.target.now) copied.now.first.now grouped.now.elements.now.start
        grouped.now.elements.now.shape grouped.now.cover.start grouped.now.last.items)
        (rows_of rows.items)) }
{
    let mut rows = Vec::with_capacity(alloc, grouped.each.len())?;
    for dimension in 0..grouped.each.len() {
        let along = groups_along(grouped, dimension);
        let first = copied.first[dimension];
        rows.push(sizes_along(alloc, &along, copied.source, first, are_all)?)?;
    }
    Ok(rows)
}

/// Whether each number of chunks is tried along each dimension. `last` is the last chunk.
fn are_few(last: &[u64]) -> bool
    ensures { IsTrue result ↔ (AllByRecursion (λ n. n < most_sizes) last.now
        × (product (map suc last.now) ≤ most_choices)) }
{
    if !are_few_along_each(last) {
        return false;
    }
    chunks_to(last) <= MOST_CHOICES
}

/// Whether there are few chunks along each dimension, up to the last one.
fn are_few_along_each(last: &[u64]) -> bool
    ensures { IsTrue result ↔ AllByRecursion (λ n. n < most_sizes) last.now }
{
    last.iter().all(|n| *n < MOST_SIZES)
}

/// How many chunks there are up to the last one, up to the greatest number.
fn chunks_to(last: &[u64]) -> u64
    ensures { AllByRecursion (λ n. n < most_sizes) last.now
        → result ≡ min greatest (product (map suc last.now)) }
{
    let mut chunks = 1u64;
    for dimension in 0..last.len() {
        chunks = chunks.saturating_mul(last[dimension].saturating_add(1));
    }
    chunks
}
