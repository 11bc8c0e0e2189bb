//! Edges of chunks, kept as runs of equal ones.
ghost use Rattle.std.specs.Prelude.{◌≡◌, ◌+◌, ◌-◌, ◌/◌, ◌%◌, ◌<◌, ◌≤◌, ℕ, IfErr, IfOk, MatchOption, length, map, slice_index_or, take};
ghost use Rattle.std.specs.List.{sum};
ghost use Rattle.std.specs.Int.NonZero.{non_zero_u64_get};
ghost use Rattle.zarrs_chunk_base.specs.Greatest.{greatest};
ghost use Rattle.zarrs_chunk_base.specs.Refusal.{MatchRefusal};
ghost use Rattle.zarrs_chunk_base.specs.RunLength.{expansion};
ghost use Rattle.zarrs_chunk_runs.specs.Runs.{AreAccepted, AreMerged, IsChunkOf, IsRunEdgesFault, IsRunOf, edges_of_runs, run_of};
ghost use Rattle.zarrs_chunk_runs.specs.Search.{IsCounted};
ghost use Rattle.zarrs_chunk_runs.specs.lemmas.Running.{chunk_ends_of, ends_of};
ghost use Rattle.zarrs_chunk_runs.specs.seen.Comparisons.{count_of};

use crate::comparisons::Comparisons;
use crate::elements::{merge, total};
use crate::run_edges_error::RunEdgesError;
use crate::running_sums::first_greater;
use std::alloc::{AllocError, Global};
use std::num::NonZeroU64;
use zarrs_chunk_base::{Refusal, RunLengthElement};

/// The edges of a dimension's chunks, kept as runs of equal ones.
///
/// Source: the `rectilinear` extension of zarr-extensions.
#[derive(Debug, Drop)]
pub struct RunEdges {
    /// An edge, and how many chunks in a row have it.
    runs: Vec<(NonZeroU64, NonZeroU64)>,
    /// The sum of the edges up to the end of each run.
    ends: Vec<u64>,
    /// How many chunks there are up to the end of each run.
    chunk_ends: Vec<u64>,
    ghost some: { 0 < length runs.items },
    ghost merged: { AreMerged (map run_of runs.items) },
    ghost summed: { ends.items ≡ ends_of (map run_of runs.items) },
    ghost counted: { chunk_ends.items ≡ chunk_ends_of (map run_of runs.items) },
}

/// A run's edge, its first chunk, and where that starts.
#[derive(Clone, Copy)]
struct Place {
    edge: NonZeroU64,
    first: u64,
    start: u64,
}

impl RunEdges {
    ghost use Rattle.zarrs_chunk_runs.specs.seen.RunEdges.{expanded, runs_of};
    ghost use Rattle.zarrs_chunk_runs.specs.seen.Place.{IsPlaceOf};

    /// The edges that elements stand for, joined in order.
    ///
    /// # Errors
    /// There are no elements, or the sum of the edges passes 18446744073709551615; or out of memory.
    pub fn new(
        alloc: Global,
        elements: &[RunLengthElement],
    ) -> Result<RunEdges, Refusal<RunEdgesError>>
        ensures edges { IfOk result (λ edges. expanded edges ≡ expansion elements.now) }
        ensures accepted { IfOk result (λ _. AreAccepted elements.now) }
        ensures refused { IfErr result (λ refusal. MatchRefusal refusal
            (IsRunEdgesFault elements.now) (λ _. AreAccepted elements.now)) }
    {
        if elements.is_empty() {
            return Err(Refusal::Refused(RunEdgesError::NoElements));
        }
        if total(elements).is_none() {
            return Err(Refusal::Refused(RunEdgesError::SumTooLarge));
        }
        let runs = merge(alloc, elements)?;
        Ok(RunEdges::from_runs(alloc, runs)?)
    }

    /// The edges of some runs; no two that stand side by side have the same edge.
    fn from_runs(alloc: Global, runs: Vec<(NonZeroU64, NonZeroU64)>) -> Result<RunEdges, AllocError>
        requires some { 0 < length runs.items }
        requires merged { AreMerged (map run_of runs.items) }
        requires fits { sum (edges_of_runs (map run_of runs.items)) ≤ greatest }
        ensures { IfOk result (λ edges. runs_of edges ≡ map run_of runs.items) }
    {
        let mut ends = Vec::with_capacity(alloc, runs.len())?;
        let mut chunk_ends = Vec::with_capacity(alloc, runs.len())?;
        let mut end = 0;
        let mut chunk_end = 0;
        for (edge, count) in &runs {
            end += edge.get() * count.get();
            ends.push(end)?;
            chunk_end += count.get();
            chunk_ends.push(chunk_end)?;
        }
        Ok(RunEdges {
            runs,
            ends,
            chunk_ends,
        })
    }

    /// The same edges.
    ///
    /// # Errors
    /// Out of memory.
    pub fn clone(&self) -> Result<RunEdges, AllocError>
        ensures { IfOk result (λ edges. runs_of edges ≡ runs_of self.now) }
    {
        Ok(RunEdges {
            runs: self.runs.clone()?,
            ends: self.ends.clone()?,
            chunk_ends: self.chunk_ends.clone()?,
        })
    }

    /// How many runs there are.
    pub fn runs(&self) -> usize
        ensures { result ≡ length (runs_of self.now) }
    {
        self.runs.len()
    }

    /// The edge of a run and how many chunks in a row have it; `None` where there is no such run.
    pub fn run(&self, run: usize) -> Option<(NonZeroU64, NonZeroU64)>
        ensures { MatchOption result (length (runs_of self.now) ≤ run)
            (λ found. (run < length (runs_of self.now))
            × (slice_index_or (runs_of self.now) run (0, 0) ≡ run_of found)) }
    {
        self.runs.get(run).copied()
    }

    /// How many chunks there are.
    pub fn chunks(&self) -> u64
        ensures { result ≡ length (expanded self.now) }
    {
        last_or_zero(&self.chunk_ends)
    }

    /// The sum of the edges.
    pub fn total(&self) -> u64
        ensures { result ≡ sum (expanded self.now) }
    {
        last_or_zero(&self.ends)
    }

    /// The edge of a chunk; `None` where there is no such chunk.
    pub fn edge(&self, chunk: u64) -> Option<NonZeroU64>
        ensures { MatchOption result (length (expanded self.now) ≤ chunk)
            (λ edge. (chunk < length (expanded self.now))
            × (slice_index_or (expanded self.now) chunk 0 ≡ non_zero_u64_get edge)) }
    {
        Some(self.place_of_chunk(chunk)?.edge)
    }

    /// Where a chunk starts: the sum of the edges before it; `None` where there is no such chunk.
    pub fn start(&self, chunk: u64) -> Option<u64>
        ensures { MatchOption result (length (expanded self.now) ≤ chunk)
            (λ start. (chunk < length (expanded self.now))
            × (sum (take chunk (expanded self.now)) ≡ start)) }
    {
        let place = self.place_of_chunk(chunk)?;
        Some(place.start + (chunk - place.first) * place.edge.get())
    }

    /// The chunk that an index lies in; `None` where it lies in none. Each comparison with a running sum is counted.
    pub fn find_index(&self, index: u64, comparisons: &mut Comparisons) -> Option<u64>
        ensures found { MatchOption result (sum (expanded self.now) ≤ index)
            (IsChunkOf (expanded self.now) index) }
        ensures counted { IsCounted (length (runs_of self.now))
            (count_of comparisons.old) (count_of comparisons.new) }
    {
        Some(self.find_home(index, comparisons)?.0)
    }

    /// The chunk that an index lies in, and how far after the chunk's start it lies; `None` where it lies in none. Each
    /// comparison with a running sum is counted.
    pub fn find_home(&self, index: u64, comparisons: &mut Comparisons) -> Option<(u64, u64)>
        ensures found { MatchOption result (sum (expanded self.now) ≤ index)
            (λ home. IsChunkOf (expanded self.now) index home.0
            × (sum (take home.0 (expanded self.now)) + home.1 ≡ index)) }
        ensures counted { IsCounted (length (runs_of self.now))
            (count_of comparisons.old) (count_of comparisons.new) }
    {
        let place = self.place(first_greater(&self.ends, index, comparisons))?;
        let (chunks, rest) = quotient_and_rest(index - place.start, place.edge);
        Some((place.first + chunks, rest))
    }

    /// The run that a chunk lies in, counted from 0; `None` where there is no such chunk. Each comparison with a running sum is
    /// counted.
    pub fn find_chunk(&self, chunk: u64, comparisons: &mut Comparisons) -> Option<usize>
        ensures found { MatchOption result (length (expanded self.now) ≤ chunk)
            (IsRunOf (runs_of self.now) chunk) }
        ensures counted { IsCounted (length (runs_of self.now))
            (count_of comparisons.old) (count_of comparisons.new) }
    {
        let run = first_greater(&self.chunk_ends, chunk, comparisons);
        if run < self.runs.len() {
            Some(run)
        } else {
            None
        }
    }

    /// Where the run of a chunk begins; `None` where there is no such chunk.
    fn place_of_chunk(&self, chunk: u64) -> Option<Place>
        ensures { MatchOption result (length (expanded self.now) ≤ chunk) (λ place.
            (run : ℕ) × IsRunOf (runs_of self.now) chunk run
            × IsPlaceOf (runs_of self.now) run place) }
    {
        self.place(self.find_chunk(chunk, &mut Comparisons::new())?)
    }

    /// Where a run begins; `None` where there is no such run.
    fn place(&self, run: usize) -> Option<Place>
        ensures { MatchOption result (length (runs_of self.now) ≤ run) (λ place.
            (run < length (runs_of self.now)) × IsPlaceOf (runs_of self.now) run place) }
    {
        let (edge, count) = self.run(run)?;
        Some(Place {
            edge,
            first: self.chunk_ends[run] - count.get(),
            start: self.ends[run] - edge.get() * count.get(),
        })
    }
}

/// How often an edge goes into a number, and what is left. A division takes long, and where the number lies in the run's first chunk, as it does
/// in each run of one, none is made.
fn quotient_and_rest(number: u64, edge: NonZeroU64) -> (u64, u64)
    ensures quotient { result.0 ≡ number / non_zero_u64_get edge }
    ensures rest { result.1 ≡ number % non_zero_u64_get edge }
{
    let edge = edge.get();
    if number < edge {
        (0, number)
    } else {
        (number / edge, number % edge)
    }
}

/// The last of running sums, or 0 where there are none.
fn last_or_zero(sums: &[u64]) -> u64
    ensures { result ≡ slice_index_or sums.now (length sums.now - 1) 0 }
{
    sums.last().copied().unwrap_or(0)
}
