//! How many chunks a group joins along one dimension, and what groups of that size cost.
ghost use Rattle.std.specs.Prelude.{◌≡◌, ◌+◌, ◌<◌, ◌≤◌, IfOk, IsTrue};
ghost use Rattle.std.specs.List.{Contains};
ghost use Rattle.zarrs_chunk_axes.specs.Along.{Along};
ghost use Rattle.zarrs_chunk_base.specs.Greatest.{greatest};
ghost use Rattle.zarrs_chunk_tasks.specs.declared.sizes.Size.{Size};
ghost use Rattle.zarrs_chunk_tasks.specs.seen.Counts.{GroupsTake};
ghost use Rattle.zarrs_chunk_tasks.specs.seen.Sizes.{AreSizes, AreSizesTo, IsNoWorse, IsSize, Keeps, side_of};

use crate::groups_along::{GroupsAlong, sums_along};
use std::alloc::{AllocError, Global};
use std::num::NonZeroU64;
use zarrs_chunks::ChunkGridTraits;

/// Up to how many chunks each number is tried if not all are.
const ONE_BY_ONE: u64 = 16;

/// With how many sizes before it a size is compared at most. A size that is kept though another one beats it only takes time.
const MOST_COMPARED: usize = 16;

/// How many chunks a group joins along a dimension, and what groups of that size cost.
#[derive(Clone, Copy)]
pub(crate) struct Size {
    /// The number of chunks,
    pub(crate) each: NonZeroU64,
    /// how many indices the longest group takes,
    pub(crate) largest: u64,
    /// how many chunks of the source the groups meet, one that several meet in each,
    pub(crate) chunks: u64,
    /// and how many elements these have, whole.
    pub(crate) elements: u128,
}

/// Returns the sizes that are tried. `range` is a range of indices by groups of any number of chunks, and begins at `first` in the array of another grid. The
/// first size is one chunk. Each other size has shorter groups than one before it, or reads or decodes less.
///
/// If `are_all`, each number of chunks is tried. Otherwise each number up to 16 is tried. After these, each number is greater than the one before it by a sixteenth,
/// up to the number that makes one group.
///
/// # Errors
/// Out of memory.
pub(crate) fn sizes_along<K: ChunkGridTraits, G: ChunkGridTraits>(
    alloc: Global,
    range: &GroupsAlong<K>,
    other: &G,
    first: u64,
    are_all: bool,
) -> Result<Vec<Size>, AllocError>
    requires range { Along (GroupsTake range.now) (K.dimensions range.now.grid.now)
        range.now.dimension }
    requires other { Along (λ s. first + range.now.size ≤ s.array_size) (G.dimensions other.now)
        range.now.dimension }
    requires first { first + range.now.size ≤ greatest }
    ensures { IfOk result (λ sizes. Along (λ d. Along (λ s. AreSizes are_all
        (side_of range.now first d s) sizes.items) (G.dimensions other.now) range.now.dimension)
        (K.dimensions range.now.grid.now) range.now.dimension) }
{
    let mut last = first_last(range.last, are_all);
    // No number of a chunk is the greatest number.
    let mut sizes = sizes_to(alloc, range, other, first, last.saturating_add(1))?;
    while last < range.last {
        last = greater(last, range.last);
        let each = NonZeroU64::MIN.saturating_add(last);
        let size = size_of(alloc, range, each, other, first)?;
        keep(&mut sizes, size)?;
    }
    Ok(sizes)
}

/// Up to which chunk each number of chunks is tried.
fn first_last(last: u64, are_all: bool) -> u64
    ensures within { result ≤ last }
    ensures all { IsTrue are_all → result ≡ last }
{
    if are_all {
        last
    } else {
        last.min(ONE_BY_ONE - 1)
    }
}

/// The last chunk of the first group, if groups take more chunks by a sixteenth, but it is no greater than `most`.
fn greater(last: u64, most: u64) -> u64
    requires { last < most }
    ensures greater { last < result }
    ensures within { result ≤ most }
{
    let more = (last + 1) / ONE_BY_ONE;
    last.saturating_add(more.max(1)).min(most)
}

/// Returns the sizes of up to `most` chunks.
///
/// # Errors
/// Out of memory.
fn sizes_to<K: ChunkGridTraits, G: ChunkGridTraits>(
    alloc: Global,
    range: &GroupsAlong<K>,
    other: &G,
    first: u64,
    most: u64,
) -> Result<Vec<Size>, AllocError>
    requires range { Along (GroupsTake range.now) (K.dimensions range.now.grid.now)
        range.now.dimension }
    requires other { Along (λ s. first + range.now.size ≤ s.array_size) (G.dimensions other.now)
        range.now.dimension }
    requires first { first + range.now.size ≤ greatest }
    ensures { IfOk result (λ sizes. Along (λ d. Along (λ s. AreSizesTo (side_of range.now first d s)
        most sizes.items) (G.dimensions other.now) range.now.dimension)
        (K.dimensions range.now.grid.now) range.now.dimension) }
{
    let mut sizes = Vec::new(alloc);
    for before in 0..most {
        let each = NonZeroU64::MIN.saturating_add(before);
        let size = size_of(alloc, range, each, other, first)?;
        keep(&mut sizes, size)?;
    }
    Ok(sizes)
}

/// Counts the groups of `each` chunks.
///
/// # Errors
/// Out of memory.
fn size_of<K: ChunkGridTraits, G: ChunkGridTraits>(
    alloc: Global,
    range: &GroupsAlong<K>,
    each: NonZeroU64,
    other: &G,
    first: u64,
) -> Result<Size, AllocError>
    requires range { Along (GroupsTake range.now) (K.dimensions range.now.grid.now)
        range.now.dimension }
    requires other { Along (λ s. first + range.now.size ≤ s.array_size) (G.dimensions other.now)
        range.now.dimension }
    requires first { first + range.now.size ≤ greatest }
    ensures each { IfOk result (λ size. size.each ≡ each) }
    ensures size { IfOk result (λ size. Along (λ d. Along (λ s. IsSize (side_of range.now first d s)
        size) (G.dimensions other.now) range.now.dimension)
        (K.dimensions range.now.grid.now) range.now.dimension) }
{
    let group = range.first / each;
    let groups = GroupsAlong {
        grid: range.grid,
        dimension: range.dimension,
        each,
        at: range.at,
        size: range.size,
        first: range.first,
        last: range.last,
        group,
        groups: (range.last / each).saturating_sub(group).saturating_add(1),
    };
    let sums = sums_along(alloc, &groups, other, first)?;
    Ok(Size {
        each,
        largest: sums.largest,
        chunks: sums.chunks,
        elements: sums.elements,
    })
}

/// Keeps a size, unless one of the last sizes that are kept has groups that are no longer, and reads and decodes no more.
///
/// # Errors
/// Out of memory.
fn keep(sizes: &mut Vec<Size>, size: Size) -> Result<(), AllocError>
    ensures { IfOk result (λ _. Keeps sizes.old.items size sizes.new.items) }
{
    if !is_beaten(sizes, &size) {
        sizes.push(size)?;
    }
    Ok(())
}

/// Whether one of the last of some sizes takes the place of another one in each choice.
fn is_beaten(sizes: &[Size], size: &Size) -> bool
    ensures { IsTrue result → (other : Size) × Contains sizes.now other × IsNoWorse other size.now }
{
    for place in sizes.len().saturating_sub(MOST_COMPARED)..sizes.len() {
        let other = &sizes[place];
        if other.largest <= size.largest
            && other.chunks <= size.chunks
            && other.elements <= size.elements
        {
            return true;
        }
    }
    false
}
