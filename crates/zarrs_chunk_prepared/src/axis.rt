//! One dimension of a prepared grid.
ghost use Rattle.std.specs.Prelude.{◌≡◌, ◌⊎◌, ℕ, ◌+◌, ◌*◌, ◌<◌, ◌≤◌, MatchOption, cond, length, slice_index_or};
ghost use Rattle.std.specs.Option.{ForSome};
ghost use Rattle.zarrs_chunk_axes.specs.LookUp.{HasRange};
ghost use Rattle.zarrs_chunk_base.specs.Dimension.{Dimension, Holds};
ghost use Rattle.zarrs_chunk_division.specs.Division.{IsDivision};
ghost use Rattle.zarrs_chunk_division.specs.seen.Divisor.{divisor_of};
ghost use Rattle.zarrs_chunk_prepared.specs.Prepared.{IsTableOf};
ghost use Rattle.zarrs_chunk_prepared.specs.seen.Ranges.{EndsNowhere, IsRange, end_in_run};

use crate::search::last_up_to;
use std::num::NonZeroU64;
use zarrs_chunk_division::Divisor;

/// One dimension, as its numbers tell it: runs of chunks of one edge.
#[derive(Drop)]
pub(crate) struct PreparedAxis<'a> {
    /// How many chunks are counted.
    pub(crate) grid_size: u64,
    /// The last index that lies in a chunk.
    pub(crate) last_index: u64,
    /// The last number that is a chunk.
    pub(crate) last_chunk: u64,
    /// Where the first chunk of each run starts.
    pub(crate) starts: &'a [u64],
    /// The number of that chunk.
    pub(crate) chunks: &'a [u64],
    /// The edge of each run.
    pub(crate) edges: &'a [u64],
    /// What divides by the edge of the only run, where many indices are looked up.
    pub(crate) divisor: Option<Divisor>,
    ghost chunks_long: { length chunks.now ≡ length starts.now },
    ghost edges_long: { length edges.now ≡ length starts.now },
    ghost divides: { ForSome divisor (λ d. (length starts.now ≡ 1)
        × (divisor_of d ≡ slice_index_or edges.now 0 0)) },
}

impl PreparedAxis<'_> {
    ghost use Rattle.zarrs_chunk_prepared.specs.seen.Axis.{table_of};

    /// Whether an index lies in a chunk.
    pub(crate) fn reaches(&self, index: u64) -> bool
        ensures { cond result ((index ≤ self.now.last_index) × (0 < length self.now.starts.now))
            ((self.now.last_index < index) ⊎ (length self.now.starts.now ≡ 0)) }
    {
        index <= self.last_index && !self.starts.is_empty()
    }

    /// Whether a number is that of a chunk, which may end past 18446744073709551615.
    fn has(&self, chunk: u64) -> bool
        ensures { cond result ((chunk ≤ self.now.last_chunk) × (0 < length self.now.starts.now))
            ((self.now.last_chunk < chunk) ⊎ (length self.now.starts.now ≡ 0)) }
    {
        chunk <= self.last_chunk && !self.starts.is_empty()
    }

    /// The chunk that an index lies in, and how far after the chunk's start it lies.
    pub(crate) fn home_of(&self, index: u64) -> (u64, u64)
        requires { 0 < length self.now.starts.now }
        ensures { (d : Dimension) → IsTableOf d (table_of self.now) → index ≤ self.now.last_index
            → Holds d result.0 index × (d.start result.0 + result.1 ≡ index) }
    {
        if let Some(divisor) = &self.divisor {
            return divisor.div_rem(index);
        }
        let run = last_up_to(self.starts, index);
        let rest = index.saturating_sub(self.starts[run]);
        let (chunks, place) = quotient_and_rest(rest, self.edges[run]);
        (self.chunks[run].wrapping_add(chunks), place)
    }

    /// Where a chunk starts and how long it is; `None` where there is no such chunk or it ends past 18446744073709551615.
    pub(crate) fn range_of(&self, chunk: u64) -> Option<(u64, u64)>
        ensures { (d : Dimension) → IsTableOf d (table_of self.now)
            → MatchOption result ((range : ℕ × ℕ) → ¬ HasRange d chunk range) (HasRange d chunk) }
    {
        if !self.has(chunk) {
            return None;
        }
        let run = last_up_to(self.chunks, chunk);
        let before = chunk.saturating_sub(self.chunks[run]);
        range_in_run(self.starts[run], before, self.edges[run], self.last_index)
    }
}

/// Where a chunk starts that has so many before it in its run, and how long it is: as its edge, or up to the last index. `None` where it starts behind
/// that, or ends past 18446744073709551615.
fn range_in_run(run_start: u64, before: u64, edge: u64, last_index: u64) -> Option<(u64, u64)>
    ensures { 0 < edge → MatchOption result
        (EndsNowhere (run_start + before * edge) (end_in_run run_start before edge last_index))
        (IsRange (run_start + before * edge) (end_in_run run_start before edge last_index)) }
{
    let start = run_start.checked_add(before.checked_mul(edge)?)?;
    // From the start to the last index there is one element more than this.
    let behind = last_index.checked_sub(start)?;
    let size = edge.checked_sub(1)?.min(behind) + 1;
    start.checked_add(size)?;
    Some((start, size))
}

/// How often an edge goes into a number, and what is left; 0 and the number where the edge is 0. Where the number is less, no division is made.
fn quotient_and_rest(number: u64, edge: u64) -> (u64, u64)
    ensures { 0 < edge → IsDivision number edge result.0 result.1 }
{
    match NonZeroU64::new(edge) {
        Some(edge) if number >= edge.get() => (number / edge.get(), number % edge.get()),
        _ => (0, number),
    }
}
