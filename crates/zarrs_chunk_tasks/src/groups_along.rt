//! The groups that hold some of a range of indices, and what is counted of them, along one dimension.
ghost use Rattle.std.specs.Prelude.{◌≡◌, ◌+◌, ◌-◌, ◌*◌, ◌<◌, ◌≤◌, IfOk, IfSome, Some, length};
ghost use Rattle.std.specs.Int.NonZero.{non_zero_u64_get};
ghost use Rattle.zarrs_chunk_axes.specs.Along.{Along};
ghost use Rattle.zarrs_chunk_base.specs.Greatest.{greatest};
ghost use Rattle.zarrs_chunk_plan.specs.seen.Sources.{TakesSome};
ghost use Rattle.zarrs_chunk_tasks.specs.seen.Counts.{AreJoined, AreMetAlong, AreOver, AreRegular, GroupsSum, GroupsTake, IsTaken, PartSum};
ghost use Rattle.zarrs_chunk_tasks.specs.seen.Grouped.{grouped};

use crate::group_numbers::{first_chunk, last_chunk};
use crate::multiples::chunks_of_ranges;
use std::alloc::{AllocError, Global};
use std::num::NonZeroU64;
use zarrs_chunks::ChunkGridTraits;

/// Some groups along a dimension. Each holds some of a range of indices.
#[derive(Drop)]
pub(crate) struct GroupsAlong<'a, K> {
    /// The grid whose chunks are grouped, and which of its dimensions it is.
    pub(crate) grid: &'a K,
    pub(crate) dimension: usize,
    /// How many chunks a group joins.
    pub(crate) each: NonZeroU64,
    /// Where the range begins, and how many indices it has.
    pub(crate) at: u64,
    pub(crate) size: u64,
    /// The chunks that hold its first index and its last one.
    pub(crate) first: u64,
    pub(crate) last: u64,
    /// The first group, and how many there are.
    pub(crate) group: u64,
    pub(crate) groups: u64,
}

/// What holds some of a range of indices.
#[derive(Drop)]
pub(crate) struct Met {
    /// How many chunks,
    pub(crate) chunks: u64,
    /// and how many elements these have, whole.
    pub(crate) elements: u128,
}

/// What is counted of groups.
#[derive(Drop)]
pub(crate) struct Sums {
    /// How many indices the one takes that takes the most.
    pub(crate) largest: u64,
    /// How many chunks of another array hold some of what they take, all together, and the elements of these.
    pub(crate) chunks: u64,
    pub(crate) elements: u128,
}

/// Groups of the chunks of a regular dimension, beside another regular dimension.
#[derive(Drop)]
pub(crate) struct Regular {
    /// How many indices each group takes but the first one and the last one.
    pub(crate) long: u64,
    /// The edge of the other dimension.
    pub(crate) edge: NonZeroU64,
}

/// Adds up what is counted of groups, where the range begins at `first` in the array of another grid. Between regular dimensions it takes a few look-ups,
/// however many groups there are, and else some for each group.
///
/// # Errors
/// Out of memory.
pub(crate) fn sums_along<K: ChunkGridTraits, G: ChunkGridTraits>(
    alloc: Global,
    groups: &GroupsAlong<K>,
    other: &G,
    first: u64,
) -> Result<Sums, AllocError>
    requires groups { Along (GroupsTake groups.now) (K.dimensions groups.now.grid.now)
        groups.now.dimension }
    requires other { Along (λ s. first + groups.now.size ≤ s.array_size) (G.dimensions other.now)
        groups.now.dimension }
    requires first { first + groups.now.size ≤ greatest }
    ensures { IfOk result (λ sums. Along (λ d. Along (λ s.
        GroupsSum groups.now groups.now.groups first d s sums) (G.dimensions other.now)
        groups.now.dimension) (K.dimensions groups.now.grid.now) groups.now.dimension) }
{
    let Some(regular) = regular_groups(groups, other) else {
        return sums_one_by_one(alloc, groups, 0, groups.groups, other, first);
    };
    let last = groups.groups - 1;
    let head = sums_one_by_one(alloc, groups, 0, 1, other, first)?;
    let inner = sums_between(alloc, groups, &regular, other, first)?;
    let tail = sums_one_by_one(alloc, groups, last, 1, other, first)?;
    Ok(joined(&joined(&head, &inner), &tail))
}

/// How long the groups are, if both dimensions are regular. `None` also if there are fewer than three groups.
fn regular_groups<K: ChunkGridTraits, G: ChunkGridTraits>(
    groups: &GroupsAlong<K>,
    other: &G,
) -> Option<Regular>
    requires groups { Along (GroupsTake groups.now) (K.dimensions groups.now.grid.now)
        groups.now.dimension }
    requires other { groups.now.dimension < length (G.dimensions other.now) }
    ensures some { IfSome result (λ _. 2 < groups.now.groups) }
    ensures regular { IfSome result (λ regular. Along (λ d. Along (λ s.
        AreRegular (non_zero_u64_get groups.now.each) d s regular) (G.dimensions other.now)
        groups.now.dimension) (K.dimensions groups.now.grid.now) groups.now.dimension) }
{
    let edge = groups.grid.regular_along(groups.dimension)?;
    let other_edge = other.regular_along(groups.dimension)?;
    if groups.groups < 3 {
        return None;
    }
    Some(Regular {
        long: edge.get().saturating_mul(groups.each.get()),
        edge: other_edge,
    })
}

/// Adds up what is counted of the groups between the first one and the last one. Each takes as many indices.
///
/// # Errors
/// Out of memory.
fn sums_between<K: ChunkGridTraits, G: ChunkGridTraits>(
    alloc: Global,
    groups: &GroupsAlong<K>,
    regular: &Regular,
    other: &G,
    first: u64,
) -> Result<Sums, AllocError>
    requires groups { Along (GroupsTake groups.now) (K.dimensions groups.now.grid.now)
        groups.now.dimension }
    requires other { Along (λ s. first + groups.now.size ≤ s.array_size) (G.dimensions other.now)
        groups.now.dimension }
    requires first { first + groups.now.size ≤ greatest }
    requires some { 2 < groups.now.groups }
    requires regular { Along (λ d. Along (λ s. AreRegular (non_zero_u64_get groups.now.each) d s
        regular.now) (G.dimensions other.now) groups.now.dimension)
        (K.dimensions groups.now.grid.now) groups.now.dimension }
    ensures { IfOk result (λ sums. Along (λ d. Along (λ s.
        PartSum groups.now 1 (groups.now.groups - 2) first d s sums) (G.dimensions other.now)
        groups.now.dimension) (K.dimensions groups.now.grid.now) groups.now.dimension) }
{
    let many = groups.groups - 2;
    let begin = groups.group.saturating_add(1).saturating_mul(regular.long);
    let start = first.saturating_add(begin.saturating_sub(groups.at));
    let chunks = chunks_of_ranges(regular.edge, regular.long, start, many);
    // The chunk that holds the last index may be longer or shorter than those before it.
    let last = (first + (groups.size - 1)) / regular.edge;
    let (last_start, last_edge) = found(other.range_along(alloc, groups.dimension, last)?)?;
    let before = (last_start.saturating_sub(start) / regular.long).min(many);
    let elements = elements_of(chunks, regular.edge, many - before, last_edge);
    Ok(Sums {
        largest: regular.long,
        chunks,
        elements,
    })
}

/// How many elements chunks have, of which `longer` have another edge.
fn elements_of(chunks: u64, edge: NonZeroU64, longer: u64, last_edge: u64) -> u128
    ensures elements { result ≡ (chunks - longer) * non_zero_u64_get edge + longer * last_edge }
    ensures edge_fits { non_zero_u64_get edge ≤ greatest }
    ensures last_fits { last_edge ≤ greatest }
{
    u128::from(chunks.saturating_sub(longer))
        .saturating_mul(u128::from(edge.get()))
        .saturating_add(u128::from(longer).saturating_mul(u128::from(last_edge)))
}

/// What is counted of groups and of those after them.
fn joined(one: &Sums, other: &Sums) -> Sums
    ensures { AreJoined one.now other.now result }
{
    Sums {
        largest: one.largest.max(other.largest),
        chunks: one.chunks.saturating_add(other.chunks),
        elements: one.elements.saturating_add(other.elements),
    }
}

/// Goes through `many` groups one after another, the first of which comes `before` groups after the first of all, and adds up what is counted of them.
///
/// # Errors
/// Out of memory.
fn sums_one_by_one<K: ChunkGridTraits, G: ChunkGridTraits>(
    alloc: Global,
    groups: &GroupsAlong<K>,
    before: u64,
    many: u64,
    other: &G,
    first: u64,
) -> Result<Sums, AllocError>
    requires groups { Along (GroupsTake groups.now) (K.dimensions groups.now.grid.now)
        groups.now.dimension }
    requires other { groups.now.dimension < length (G.dimensions other.now) }
    requires first { first + groups.now.size ≤ greatest }
    requires many { before + many ≤ groups.now.groups }
    ensures { IfOk result (λ sums. Along (λ d. Along (λ s.
        PartSum groups.now before many first d s sums) (G.dimensions other.now)
        groups.now.dimension) (K.dimensions groups.now.grid.now) groups.now.dimension) }
{
    let mut sums = Sums {
        largest: 0,
        chunks: 0,
        elements: 0,
    };
    for steps in 0..many {
        // No number is cut off, since all groups are of the range, which lies in both arrays.
        let group = groups.group.saturating_add(before).saturating_add(steps);
        let (before, size) = range_of(alloc, groups, group)?;
        let from = first.saturating_add(before);
        let met = met_along(alloc, other, groups.dimension, from, size)?;
        sums.largest = sums.largest.max(size);
        sums.chunks = sums.chunks.saturating_add(met.chunks);
        sums.elements = sums.elements.saturating_add(met.elements);
    }
    Ok(sums)
}

/// What a group takes of the range: how many indices of the range come before, and how many they are.
///
/// # Errors
/// Out of memory.
pub(crate) fn range_of<K: ChunkGridTraits>(
    alloc: Global,
    groups: &GroupsAlong<K>,
    group: u64,
) -> Result<(u64, u64), AllocError>
    ensures { Along (λ d. AreOver d groups.now.at groups.now.size groups.now.first groups.now.last)
        (K.dimensions groups.now.grid.now) groups.now.dimension
        → Along (λ d. TakesSome (grouped d (non_zero_u64_get groups.now.each)) groups.now.at
        groups.now.size group) (K.dimensions groups.now.grid.now) groups.now.dimension
        → IfOk result (λ range. Along (λ d. IsTaken d (non_zero_u64_get groups.now.each)
        groups.now.at groups.now.size group range) (K.dimensions groups.now.grid.now)
        groups.now.dimension) }
{
    let first = first_chunk(groups.each, group, groups.first);
    let last = last_chunk(groups.each, group, groups.last);
    let (start, _) = found(groups.grid.range_along(alloc, groups.dimension, first)?)?;
    let (last_start, edge) = found(groups.grid.range_along(alloc, groups.dimension, last)?)?;
    let before = start.saturating_sub(groups.at);
    let end = last_start
        .saturating_add(edge)
        .saturating_sub(groups.at)
        .min(groups.size);
    Ok((before, end.saturating_sub(before)))
}

/// Counts the chunks that hold some of a range of indices along a dimension, and their elements.
///
/// # Errors
/// Out of memory.
fn met_along<G: ChunkGridTraits>(
    alloc: Global,
    grid: &G,
    dimension: usize,
    first: u64,
    size: u64,
) -> Result<Met, AllocError>
    requires some { 0 < size }
    requires fits { first + size ≤ greatest }
    ensures { IfOk result (λ met. Along (λ d. AreMetAlong d first size met)
        (G.dimensions grid.now) dimension) }
{
    let low = found(grid.chunk_along(alloc, dimension, first)?)?;
    let high = found(grid.chunk_along(alloc, dimension, first + (size - 1))?)?;
    let (start, _) = found(grid.range_along(alloc, dimension, low)?)?;
    let (last_start, edge) = found(grid.range_along(alloc, dimension, high)?)?;
    Ok(Met {
        chunks: high.saturating_sub(low).saturating_add(1),
        elements: elements_to(start, last_start, edge),
    })
}

/// Returns how many elements there are from a start to where a later chunk ends, which is given by its start and how long it is.
fn elements_to(start: u64, last_start: u64, edge: u64) -> u128
    ensures elements { result ≡ last_start - start + edge }
    ensures fits { edge ≤ greatest }
{
    u128::from(last_start.saturating_sub(start)) + u128::from(edge)
}

/// Returns what was found. Nothing is found only if it is out of memory.
///
/// # Errors
/// Out of memory.
pub(crate) fn found<T: Drop>(found: Option<T>) -> Result<T, AllocError>
    ensures { IfOk result (λ value. found ≡ Some value) }
{
    found.ok_or(AllocError)
}
