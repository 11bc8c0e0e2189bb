//! Reading what the numbers of a prepared grid tell of each dimension.
ghost use Rattle.std.specs.Option.{ForSome};
ghost use Rattle.std.specs.Prelude.{◌≡◌, ◌++◌, ◌<◌, ℕ, List, IfOk, IfSome, MatchOption, length, map, slice_index_or};
ghost use Rattle.std.specs.List.{AllByRecursion, flat_map};
ghost use Rattle.zarrs_chunk_division.specs.seen.Divisor.{divisor_of};
ghost use Rattle.zarrs_chunk_prepared.specs.Prepared.{HasAsMany, Table, row};
ghost use Rattle.zarrs_chunk_prepared.specs.seen.Axis.{table_of};

use crate::axis::PreparedAxis;
use std::alloc::{AllocError, Global};
use std::num::NonZeroU64;
use zarrs_chunk_division::Divisor;

/// From how many look-ups on it pays to make what divides by an edge.
const MANY: usize = 16;

/// The dimensions whose numbers these are, for so many look-ups. `None` where some numbers are left that are too few for one more.
///
/// # Errors
/// Out of memory.
pub(crate) fn read_axes(
    alloc: Global,
    numbers: &[u64],
    look_ups: usize,
) -> Result<Option<Vec<PreparedAxis<'_>>>, AllocError>
    ensures tables { IfOk result (λ found. (tables : List Table) → AllByRecursion HasAsMany tables
        → numbers.now ≡ flat_map row tables
        → MatchOption found ⊥ (λ axes. map table_of axes.items ≡ tables)) }
    ensures numbers { IfOk result (λ found. IfSome found (λ axes.
        numbers.now ≡ flat_map row (map table_of axes.items))) }
{
    let mut axes = Vec::new(alloc);
    let mut rest = numbers;
    while let Some((axis, behind)) = next_axis(rest, look_ups) {
        axes.push(axis)?;
        rest = behind;
    }
    if rest.is_empty() {
        Ok(Some(axes))
    } else {
        Ok(None)
    }
}

/// The dimension whose numbers come next, for so many look-ups, and the numbers behind them. `None` where there are fewer than it has.
fn next_axis(numbers: &[u64], look_ups: usize) -> Option<(PreparedAxis<'_>, &[u64])>
    ensures next { (t : Table) (behind : List ℕ) → HasAsMany t → numbers.now ≡ row t ++ behind
        → MatchOption result ⊥ (λ next. (table_of next.0 ≡ t) × (next.1.now ≡ behind)) }
    ensures numbers { IfSome result (λ next.
        numbers.now ≡ row (table_of next.0) ++ next.1.now) }
    ensures shorter { IfSome result (λ next. length next.1.now < length numbers.now) }
{
    let (head, rest) = numbers.split_at_checked(4)?;
    let runs = head[3] as usize;
    let (starts, rest) = rest.split_at_checked(runs)?;
    let (chunks, rest) = rest.split_at_checked(runs)?;
    let (edges, rest) = rest.split_at_checked(runs)?;
    let axis = PreparedAxis {
        grid_size: head[0],
        last_index: head[1],
        last_chunk: head[2],
        starts,
        chunks,
        edges,
        divisor: only_divisor(edges, look_ups),
    };
    Some((axis, rest))
}

/// What divides by the only edge, where there is one and it pays.
fn only_divisor(edges: &[u64], look_ups: usize) -> Option<Divisor>
    ensures { ForSome result (λ d. (length edges.now ≡ 1)
        × (divisor_of d ≡ slice_index_or edges.now 0 0)) }
{
    if edges.len() != 1 || look_ups < MANY {
        return None;
    }
    Some(Divisor::new(NonZeroU64::new(edges[0])?))
}
