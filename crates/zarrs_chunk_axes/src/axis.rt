//! One dimension of a chunk grid, and what it is made of.
ghost use Rattle.std.specs.Prelude.{◌≡◌, ◌↔◌, ℕ, ◌+◌, ◌<◌, IfOk, IfSome, IsTrue, MatchOption};
ghost use Rattle.std.specs.Int.NonZero.{non_zero_u64_get};
ghost use Rattle.zarrs_chunk_base.specs.Dimension.{Dimension, Holds, HasEdge, IsChain, StartsAt};
ghost use Rattle.zarrs_chunk_base.specs.DimensionEdges.{DimensionEdges};
ghost use Rattle.zarrs_chunk_base.specs.Greatest.{greatest};
ghost use Rattle.zarrs_chunk_axes.specs.Along.{IsRegular};
ghost use Rattle.zarrs_chunk_axes.specs.InBounds.{IsIndexInBounds};
ghost use Rattle.zarrs_chunk_axes.specs.LookUp.{HasRange, LiesAt};

use std::alloc::{AllocError, Global};
use std::num::NonZeroU64;

/// One dimension of a chunk grid, with its look-ups on single numbers.
pub trait Axis: Sized {
    /// The dimension, as the value is now.
    ghost dimension: { Self → Dimension };

    /// The edges that it was made with.
    ghost edges: { Self → DimensionEdges };

    /// How many elements the array has.
    fn array_size(&self) -> u64
        ensures { result ≡ (dimension self.now).array_size };

    /// How many chunks are counted.
    fn grid_size(&self) -> u64
        ensures { result ≡ (dimension self.now).grid_size };

    /// The chunk that an index lies in; `None` where it lies in none.
    fn chunk_of(&self, index: u64) -> Option<u64>
        ensures { MatchOption result ((c : ℕ) → ¬ Holds (dimension self.now) c index)
            (λ c. Holds (dimension self.now) c index) };

    /// Where a chunk starts; `None` where there is no such chunk, or it starts past the greatest `u64`.
    fn origin_of(&self, chunk: u64) -> Option<u64>
        ensures { MatchOption result ((o : ℕ) → StartsAt (dimension self.now) chunk o
            → greatest < o) (StartsAt (dimension self.now) chunk) };

    /// The chunk that an index lies in, and how far after the chunk's start it lies; `None` where it lies in none.
    fn home_of(&self, index: u64) -> Option<(u64, u64)>
        ensures { MatchOption result ((c : ℕ) → ¬ Holds (dimension self.now) c index)
            (λ home. Holds (dimension self.now) home.0 index
            × ((dimension self.now).start home.0 + home.1 ≡ index)) }
    {
        let chunk = self.chunk_of(index)?;
        let origin = self.origin_of(chunk)?;
        Some((chunk, index - origin))
    }

    /// How far after the start of its chunk an index lies; `None` where it lies in none.
    fn place_of(&self, index: u64) -> Option<u64>
        ensures { MatchOption result ((c : ℕ) → ¬ Holds (dimension self.now) c index)
            (LiesAt (dimension self.now) index) }
    {
        Some(self.home_of(index)?.1)
    }

    /// How many elements long a chunk is; `None` where there is no such chunk.
    fn edge_of(&self, chunk: u64) -> Option<NonZeroU64>
        ensures { MatchOption result (¬ IsTrue ((dimension self.now).has_chunk chunk))
            (λ s. HasEdge (dimension self.now) chunk (non_zero_u64_get s)) };

    /// Where a chunk starts, and how many elements long it is; `None` where there is no such chunk, or it ends past the greatest `u64`.
    fn range_of(&self, chunk: u64) -> Option<(u64, u64)>
        ensures { MatchOption result ((range : ℕ × ℕ) → ¬ HasRange (dimension self.now) chunk range)
            (HasRange (dimension self.now) chunk) }
    {
        let start = self.origin_of(chunk)?;
        let edge = self.edge_of(chunk)?.get();
        start.checked_add(edge)?;
        Some((start, edge))
    }

    /// The edge, where each element of the array lies in the chunk whose number is its index divided by the edge.
    fn regular_edge(&self) -> Option<NonZeroU64>
        ensures { IfSome result (λ edge. IsRegular (dimension self.now) (non_zero_u64_get edge)) }
    {
        None
    }

    /// Whether an index is in bounds: below the array size, or the array size is 0; and where the edges are listed, a chunk holds it too.
    fn is_in_bounds(&self, index: u64) -> bool
        ensures { IsTrue result ↔ IsIndexInBounds (dimension self.now) index (edges self.now) };

    /// An axis of the same dimension, made with the same edges.
    ///
    /// # Errors
    /// Out of memory.
    fn clone(&self) -> Result<Self, AllocError>
        ensures dimension { IfOk result (λ axis. dimension axis ≡ dimension self.now) }
        ensures edges { IfOk result (λ axis. edges axis ≡ edges self.now) };

    /// The dimension is a chain.
    ghost chained: { (axis : Self) → IsChain (dimension axis) };
}

/// An axis that is made of an array size and what a configuration says of its dimension.
pub trait AxisFrom<C>: Axis {
    /// The edges that a configuration tells.
    ghost tells: { C → DimensionEdges };

    /// The configuration is in the form in which it is written.
    ghost is_written: { C → Type 0 };

    /// There is a dimension of this array size and these edges.
    ghost accepted: { ℕ → DimensionEdges → Type 0 };

    /// The dimension is that of an array size and edges.
    ghost is_made_of: { Dimension → ℕ → DimensionEdges → Type 0 };

    /// Whether there is such a dimension.
    fn accepts(array_size: u64, configuration: &C) -> bool
        ensures { IsTrue result ↔ accepted array_size (tells configuration.now) };

    /// The axis of such a dimension.
    ///
    /// # Errors
    /// Out of memory.
    fn new(alloc: Global, array_size: u64, configuration: &C) -> Result<Self, AllocError>
        requires { accepted array_size (tells configuration.now) }
        ensures made { IfOk result (λ axis. is_made_of (Self.dimension axis) array_size
            (tells configuration.now)) }
        ensures edges { IfOk result (λ axis. Self.edges axis ≡ tells configuration.now) };

    /// A configuration that tells the edges of the axis, in the form in which one is written.
    ///
    /// # Errors
    /// Out of memory.
    fn configuration(&self, alloc: Global) -> Result<C, AllocError>
        ensures edges { IfOk result (λ c. tells c ≡ Self.edges self.now) }
        ensures written { IfOk result is_written };

    /// The array size is the dimension's.
    ghost sized: { (d : Dimension) (size : ℕ) (edges : DimensionEdges) → is_made_of d size edges
        → d.array_size ≡ size };
}
