//! Look-ups in dimensions whose edges are kept as runs, with a count of their comparisons.
ghost use Rattle.std.specs.Prelude.{◌≡◌, ◌+◌, ◌≤◌, ℕ, IfErr, IfOk, IfSome, IsOk, List, [], ◌∷◌, MatchOption, length, map, min, slice_get};
ghost use Rattle.std.specs.List.{AllZip, sum};
ghost use Rattle.zarrs_chunk_base.specs.Dimension.{InBox, Holds};
ghost use Rattle.zarrs_chunk_base.specs.Greatest.{greatest};
ghost use Rattle.zarrs_chunk_axes.specs.Counted.{AreCounted, AreSearchedInOrder, HasOneForEach, TellsRuns};
ghost use Rattle.zarrs_chunk_axes.specs.LookUp.{AnswersChunk};
ghost use Rattle.zarrs_chunk_axes.specs.seen.EqualOr.{equal_or, equal_or_edges};
ghost use Rattle.zarrs_chunk_axes.specs.seen.RunsAxis.{runs_dimension, runs_edges};
ghost use Rattle.zarrs_chunk_axes.specs.seen.Searched.{AreSearched, IsSearched};
ghost use Rattle.zarrs_chunk_runs.specs.seen.Comparisons.{count_of};

use super::AxisGrid;
use crate::axis::Axis;
use crate::equal_or::EqualOr;
use crate::runs_axis::RunsAxis;
use std::alloc::{AllocError, Global};
use zarrs_chunk_base::{ArrayIndices, IncompatibleDimensionalityError, Refusal};
use zarrs_chunk_runs::Comparisons;

impl AxisGrid<EqualOr<RunsAxis>> {
    ghost use Rattle.zarrs_chunk_axes.specs.seen.AxisGrid.{dimensions_of, edges_of};

    /// How many runs the edges of a dimension have; `None` where it has one edge for all chunks, or there is no such dimension.
    pub fn runs(&self, dimension: usize) -> Option<usize>
        ensures { TellsRuns (slice_get (edges_of self.now) dimension) result }
    {
        match self.axes.get(dimension)? {
            EqualOr::Equal(_) => None,
            EqualOr::Other(axis) => Some(axis.runs()),
        }
    }

    /// For each dimension the chunk that the index lies in, as `chunk_indices` finds it. Each comparison with a running sum is counted.
    ///
    /// # Errors
    /// The list has another length than there are dimensions; or out of memory. Nothing was counted then.
    pub fn chunk_indices_counted(
        &self,
        alloc: Global,
        indices: &[u64],
        comparisons: &mut Comparisons,
    ) -> Result<Option<ArrayIndices>, Refusal<IncompatibleDimensionalityError>>
        ensures answers { AnswersChunk (dimensions_of self.now) indices.now result }
        ensures counted { AreCounted (edges_of self.now)
            (count_of comparisons.old) (count_of comparisons.new) }
        ensures each { IfOk result (λ found. IfSome found (λ _. HasOneForEach (edges_of self.now)
            (count_of comparisons.old) (count_of comparisons.new))) }
        ensures in_order { IfOk result (λ _. AreSearchedInOrder
            (dimensions_of self.now) (edges_of self.now) indices.now
            (count_of comparisons.old) (count_of comparisons.new)) }
        ensures unchanged { IfErr result (λ _. count_of comparisons.new
            ≡ count_of comparisons.old) }
    {
        if indices.len() != self.axes.len() {
            return Err(self.other_length(indices));
        }
        Ok(find_chunks(alloc, &self.axes, indices, comparisons)?)
    }
}

/// Finds for each index the chunk of its dimension; `None` where one of them lies in none.
fn find_chunks(
    alloc: Global,
    axes: &[EqualOr<RunsAxis>],
    indices: &[u64],
    comparisons: &mut Comparisons,
) -> Result<Option<ArrayIndices>, AllocError>
    requires { length axes.now ≡ length indices.now }
    ensures found { IfOk result (λ found. MatchOption found
        ((chunk : List ℕ) → ¬ InBox (map (equal_or runs_dimension) axes.now) chunk indices.now)
        (λ chunk. InBox (map (equal_or runs_dimension) axes.now) chunk.items indices.now)) }
    ensures searched { IfOk result (λ _. AreSearched (map (equal_or runs_dimension) axes.now)
        (map (equal_or_edges runs_edges) axes.now) indices.now
        (count_of comparisons.old) (count_of comparisons.new)) }
    ensures unchanged { IfErr result (λ _. count_of comparisons.new
        ≡ count_of comparisons.old) }
    ensures stores_nothing { length axes.now ≡ 0 → IsOk result }
{
    let mut chunk = Vec::with_capacity(alloc, axes.len())?;
    for (axis, index) in axes.iter().zip(indices) {
        let Some(number) = find_chunk(axis, *index, comparisons) else {
            return Ok(None);
        };
        chunk.push_reserved(number);
    }
    Ok(Some(chunk))
}

/// The chunk of a dimension that an index lies in; `None` where it lies in none. Each comparison with a running sum is counted.
fn find_chunk(axis: &EqualOr<RunsAxis>, index: u64, comparisons: &mut Comparisons) -> Option<u64>
    ensures found { MatchOption result
        ((c : ℕ) → ¬ Holds (equal_or runs_dimension axis.now) c index)
        (λ c. Holds (equal_or runs_dimension axis.now) c index) }
    ensures searched { IsSearched (equal_or_edges runs_edges axis.now)
        (count_of comparisons.old) (count_of comparisons.new) }
{
    match axis {
        EqualOr::Equal(axis) => axis.chunk_of(index),
        EqualOr::Other(axis) => axis.chunk_of_counted(index, comparisons),
    }
}
