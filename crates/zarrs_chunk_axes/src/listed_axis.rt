//! One dimension of an array that is cut into chunks with the edges of a list.
ghost use Rattle.std.specs.Prelude.{◌≡◌, ◌≤◌, IfOk, MatchOption, length, map};
ghost use Rattle.std.specs.List.{sum};
ghost use Rattle.std.specs.Int.NonZero.{non_zero_u64_get};
ghost use Rattle.zarrs_chunk_base.specs.Greatest.{greatest};
ghost use Rattle.zarrs_chunk_axes.specs.lemmas.Running.{Rises, edges_between, ends_from, rises_once};

use crate::axis::Axis;
use crate::in_bounds::is_in_bounds;
use std::alloc::{AllocError, Global};
use std::num::NonZeroU64;

/// One dimension of an array, cut into chunks with the edges of a list, which reach over the array.
#[derive(Debug, Drop)]
pub struct ListedAxis {
    /// How many elements the array has.
    array_size: u64,
    /// Where each chunk ends: the sum of the edges up to its own. The edges themselves aren't kept beside.
    ends: Vec<u64>,
    ghost rising: { Rises 0 ends.items } by { rises_once 0 ends.items },
    ghost covers: { array_size ≤ sum (edges_between 0 ends.items) },
}

impl ListedAxis {
    ghost use Rattle.zarrs_chunk_axes.specs.Listed.{IsListed};
    ghost use Rattle.zarrs_chunk_axes.specs.seen.ListedAxis.{edges_in, listed_of};
    ghost use Rattle.zarrs_chunk_axes.specs.lemmas.Running.{AreBounds, IsFirstPast};

    /// The dimension of an array size and of edges that reach over the array, and not past 18446744073709551615.
    ///
    /// # Errors
    /// Out of memory.
    pub(crate) fn new(
        alloc: Global,
        array_size: u64,
        edges: &[NonZeroU64],
    ) -> Result<ListedAxis, AllocError>
        requires covers { array_size ≤ sum (map non_zero_u64_get edges.now) }
        requires fits { sum (map non_zero_u64_get edges.now) ≤ greatest }
        ensures made { IfOk result (λ axis. IsListed (listed_of axis) array_size
            (map non_zero_u64_get edges.now)) }
        ensures edges { IfOk result (λ axis. edges_in axis ≡ map non_zero_u64_get edges.now) }
    {
        let ends = ends_of(alloc, edges)?;
        Ok(ListedAxis { array_size, ends })
    }

    /// The edges of its chunks.
    ///
    /// # Errors
    /// Out of memory.
    pub(crate) fn edges(&self, alloc: Global) -> Result<Vec<NonZeroU64>, AllocError>
        ensures { IfOk result (λ edges. map non_zero_u64_get edges.items ≡ edges_in self.now) }
    {
        let mut edges = Vec::with_capacity(alloc, self.ends.len())?;
        let mut start = 0;
        for end in &self.ends {
            // A chunk ends after its start, so its edge isn't 0.
            edges.push(NonZeroU64::new(*end - start).unwrap())?;
            start = *end;
        }
        Ok(edges)
    }

    /// The first chunk that ends past an index, or how many chunks there are where none does.
    fn first_past(&self, index: u64) -> usize
        ensures { IsFirstPast (edges_in self.now) index result }
    {
        self.ends.partition_point(|end| *end <= index)
    }

    /// Where a chunk starts and where it ends; `None` where there is no such chunk.
    fn bounds(&self, chunk: u64) -> Option<(u64, u64)>
        ensures { MatchOption result (length (edges_in self.now) ≤ chunk)
            (AreBounds (edges_in self.now) chunk) }
    {
        let chunk = usize::try_from(chunk).ok()?;
        let end = *self.ends.get(chunk)?;
        let start = match chunk.checked_sub(1) {
            Some(before) => self.ends[before],
            None => 0,
        };
        Some((start, end))
    }
}

impl Axis for ListedAxis {
    ghost use Rattle.zarrs_chunk_base.specs.DimensionEdges.{listed};
    ghost use Rattle.zarrs_chunk_axes.specs.seen.ListedAxis.{edges_in, listed_of, listed_is_chain};

    ghost dimension = { listed_of };

    ghost edges = { λ axis. listed (edges_in axis) };

    ghost chained = { listed_is_chain };

    fn array_size(&self) -> u64 {
        self.array_size
    }

    fn grid_size(&self) -> u64 {
        self.ends.len() as u64
    }

    fn chunk_of(&self, index: u64) -> Option<u64> {
        let chunk = self.first_past(index);
        if chunk < self.ends.len() {
            Some(chunk as u64)
        } else {
            None
        }
    }

    fn origin_of(&self, chunk: u64) -> Option<u64> {
        Some(self.bounds(chunk)?.0)
    }

    fn edge_of(&self, chunk: u64) -> Option<NonZeroU64> {
        let (start, end) = self.bounds(chunk)?;
        NonZeroU64::new(end - start)
    }

    fn range_of(&self, chunk: u64) -> Option<(u64, u64)> {
        let (start, end) = self.bounds(chunk)?;
        Some((start, end - start))
    }

    fn is_in_bounds(&self, index: u64) -> bool {
        is_in_bounds(self.array_size, index) && self.chunk_of(index).is_some()
    }

    fn clone(&self) -> Result<ListedAxis, AllocError> {
        Ok(ListedAxis {
            array_size: self.array_size,
            ends: self.ends.clone()?,
        })
    }
}

/// Where each chunk ends: the sum of the edges up to its own.
fn ends_of(alloc: Global, edges: &[NonZeroU64]) -> Result<Vec<u64>, AllocError>
    requires { sum (map non_zero_u64_get edges.now) ≤ greatest }
    ensures { IfOk result (λ ends. ends.items ≡ ends_from 0 (map non_zero_u64_get edges.now)) }
{
    let mut ends = Vec::with_capacity(alloc, edges.len())?;
    let mut end = 0u64;
    for edge in edges {
        end += edge.get();
        ends.push(end)?;
    }
    Ok(ends)
}
