//! One dimension of an array that is cut into chunks whose edges are kept as runs of equal ones.
ghost use Rattle.std.specs.Prelude.{◌≡◌, ◌+◌, ◌≤◌, ℕ, IfOk, MatchOption, min};
ghost use Rattle.std.specs.List.{sum};
ghost use Rattle.zarrs_chunk_base.specs.Dimension.{Holds};
ghost use Rattle.zarrs_chunk_base.specs.Greatest.{greatest};
ghost use Rattle.zarrs_chunk_base.specs.RunLength.{element_of, expansion, IsRunLengthForm};
ghost use Rattle.zarrs_chunk_axes.specs.Counted.{IsSearchBound};
ghost use Rattle.zarrs_chunk_runs.specs.Forms.{HasRuns};
ghost use Rattle.zarrs_chunk_runs.specs.seen.Comparisons.{count_of};
ghost use Rattle.zarrs_chunk_runs.specs.seen.RunEdges.{expanded};

use crate::axis::Axis;
use crate::in_bounds::is_in_bounds;
use crate::run_lengths::run_length_form;
use std::alloc::{AllocError, Global};
use std::num::NonZeroU64;
use zarrs_chunk_base::{Refusal, RunLengthElement};
use zarrs_chunk_runs::{Comparisons, RunEdges};

/// One dimension of an array, cut into chunks whose edges reach over the array. A run of many chunks costs no more time or memory
/// than a run of one.
#[derive(Debug, Drop)]
pub struct RunsAxis {
    /// How many elements the array has.
    array_size: u64,
    /// How many elements each chunk has.
    edges: RunEdges,
    ghost covers: { array_size ≤ sum (expanded edges) },
}

impl RunsAxis {
    ghost use Rattle.std.specs.Prelude.{map};
    ghost use Rattle.zarrs_chunk_base.specs.DimensionEdges.{listed};
    ghost use Rattle.zarrs_chunk_axes.specs.Listed.{IsListed};
    ghost use Rattle.zarrs_chunk_axes.specs.Rectilinear.{IsRectilinear};
    ghost use Rattle.zarrs_chunk_axes.specs.seen.RunsAxis.{run_edges_in, runs_dimension, runs_edges};

    /// The dimension of an array size and of run-length elements that a `rectilinear` grid accepts.
    ///
    /// # Errors
    /// Out of memory.
    pub(crate) fn new(
        alloc: Global,
        array_size: u64,
        elements: &[RunLengthElement],
    ) -> Result<RunsAxis, AllocError>
        requires { IsRectilinear array_size (listed (expansion elements.now)) }
        ensures made { IfOk result (λ axis. IsListed (runs_dimension axis) array_size
            (expansion elements.now)) }
        ensures edges { IfOk result (λ axis. run_edges_in axis ≡ expansion elements.now) }
    {
        match RunEdges::new(alloc, elements) {
            Ok(edges) => Ok(RunsAxis { array_size, edges }),
            Err(Refusal::Memory(error)) => Err(error),
            Err(Refusal::Refused(_)) => unreachable!(),
        }
    }

    /// The elements of its edges, in run-length form.
    ///
    /// # Errors
    /// Out of memory.
    pub(crate) fn elements(&self, alloc: Global) -> Result<Vec<RunLengthElement>, AllocError>
        ensures edges { IfOk result (λ elements. expansion elements.items
            ≡ run_edges_in self.now) }
        ensures form { IfOk result (λ elements. IsRunLengthForm
            (map element_of elements.items)) }
    {
        run_length_form(alloc, &self.edges)
    }

    /// How many runs its edges have.
    pub(crate) fn runs(&self) -> usize
        ensures { HasRuns (run_edges_in self.now) result }
    {
        self.edges.runs()
    }

    /// The chunk that an index lies in; `None` where it lies in none. Each comparison with a running sum is counted.
    pub(crate) fn chunk_of_counted(&self, index: u64, comparisons: &mut Comparisons) -> Option<u64>
        ensures found { MatchOption result ((c : ℕ) → ¬ Holds (runs_dimension self.now) c index)
            (λ c. Holds (runs_dimension self.now) c index) }
        ensures grows { count_of comparisons.old ≤ count_of comparisons.new }
        ensures at_most { (most : ℕ) → IsSearchBound (runs_edges self.now) most
            → count_of comparisons.new ≤ count_of comparisons.old + most }
        ensures at_least { min (count_of comparisons.old + 1) greatest
            ≤ count_of comparisons.new }
        ensures stays { count_of comparisons.old ≡ greatest
            → count_of comparisons.new ≡ greatest }
    {
        self.edges.find_index(index, comparisons)
    }
}

impl Axis for RunsAxis {
    ghost use Rattle.zarrs_chunk_axes.specs.seen.RunsAxis.{runs_dimension, runs_edges, runs_is_chain};

    ghost dimension = { runs_dimension };

    ghost edges = { runs_edges };

    ghost chained = { runs_is_chain };

    fn array_size(&self) -> u64 {
        self.array_size
    }

    fn grid_size(&self) -> u64 {
        self.edges.chunks()
    }

    fn chunk_of(&self, index: u64) -> Option<u64> {
        self.chunk_of_counted(index, &mut Comparisons::new())
    }

    fn origin_of(&self, chunk: u64) -> Option<u64> {
        self.edges.start(chunk)
    }

    fn home_of(&self, index: u64) -> Option<(u64, u64)> {
        self.edges.find_home(index, &mut Comparisons::new())
    }

    fn edge_of(&self, chunk: u64) -> Option<NonZeroU64> {
        self.edges.edge(chunk)
    }

    fn is_in_bounds(&self, index: u64) -> bool {
        is_in_bounds(self.array_size, index) && index < self.edges.total()
    }

    fn clone(&self) -> Result<RunsAxis, AllocError> {
        Ok(RunsAxis {
            array_size: self.array_size,
            edges: self.edges.clone()?,
        })
    }
}
