//! The look-ups of single numbers, each as a type, for the loops that look up a list of numbers.
ghost use Rattle.std.specs.Prelude.{◌≡◌, ℕ, ◌+◌, ◌<◌, IsTrue, MatchOption};
ghost use Rattle.std.specs.Int.NonZero.{non_zero_u64_get};
ghost use Rattle.zarrs_chunk_base.specs.Dimension.{Dimension, HasEdge, Holds, StartsAt};
ghost use Rattle.zarrs_chunk_base.specs.Greatest.{greatest};
ghost use Rattle.zarrs_chunk_axes.specs.LookUp.{HasRange, LiesAt};

use crate::axis::Axis;
use std::num::NonZeroU64;

/// A look-up of one number.
// A type and no function value, since a call of a type's method is inlined.
pub(crate) trait LookUp {
    /// What is looked up.
    type Found: Drop;

    /// It is what there is to find for a number of a dimension.
    ghost finds: { Dimension → ℕ → Self.Found → Type 0 };

    /// There is nothing to find.
    ghost misses: { Dimension → ℕ → Type 0 };

    /// Looks a number up; `None` where there is nothing to find.
    fn look_up<A: Axis>(axis: &A, number: u64) -> Option<Self::Found>
        ensures { MatchOption result (misses (A.dimension axis.now) number)
            (finds (A.dimension axis.now) number) };
}

/// The chunk that an index lies in.
pub(crate) struct ChunkOf;

impl LookUp for ChunkOf {
    type Found = u64;

    ghost finds = { λ d index chunk. Holds d chunk index };

    ghost misses = { λ d index. (c : ℕ) → ¬ Holds d c index };

    #[inline(always)]
    fn look_up<A: Axis>(axis: &A, index: u64) -> Option<u64> {
        axis.chunk_of(index)
    }
}

/// How far after the start of its chunk an index lies.
pub(crate) struct PlaceOf;

impl LookUp for PlaceOf {
    type Found = u64;

    ghost finds = { LiesAt };

    ghost misses = { λ d index. (c : ℕ) → ¬ Holds d c index };

    #[inline(always)]
    fn look_up<A: Axis>(axis: &A, index: u64) -> Option<u64> {
        axis.place_of(index)
    }
}

/// The chunk that an index lies in, and how far after the chunk's start it lies.
pub(crate) struct HomeOf;

impl LookUp for HomeOf {
    type Found = (u64, u64);

    ghost finds = { λ d index home. Holds d home.0 index × (d.start home.0 + home.1 ≡ index) };

    ghost misses = { λ d index. (c : ℕ) → ¬ Holds d c index };

    #[inline(always)]
    fn look_up<A: Axis>(axis: &A, index: u64) -> Option<(u64, u64)> {
        axis.home_of(index)
    }
}

/// Where a chunk starts.
pub(crate) struct OriginOf;

impl LookUp for OriginOf {
    type Found = u64;

    ghost finds = { StartsAt };

    ghost misses = { λ d chunk. (o : ℕ) → StartsAt d chunk o → greatest < o };

    #[inline(always)]
    fn look_up<A: Axis>(axis: &A, chunk: u64) -> Option<u64> {
        axis.origin_of(chunk)
    }
}

/// How many elements long a chunk is.
pub(crate) struct EdgeOf;

impl LookUp for EdgeOf {
    type Found = NonZeroU64;

    ghost finds = { λ d chunk s. HasEdge d chunk (non_zero_u64_get s) };

    ghost misses = { λ d chunk. ¬ IsTrue (d.has_chunk chunk) };

    #[inline(always)]
    fn look_up<A: Axis>(axis: &A, chunk: u64) -> Option<NonZeroU64> {
        axis.edge_of(chunk)
    }
}

/// The same as a plain number.
pub(crate) struct SizeOf;

impl LookUp for SizeOf {
    type Found = u64;

    ghost finds = { HasEdge };

    ghost misses = { λ d chunk. ¬ IsTrue (d.has_chunk chunk) };

    #[inline(always)]
    fn look_up<A: Axis>(axis: &A, chunk: u64) -> Option<u64> {
        Some(axis.edge_of(chunk)?.get())
    }
}

/// Where a chunk starts, and how many elements long it is.
pub(crate) struct RangeOf;

impl LookUp for RangeOf {
    type Found = (u64, u64);

    ghost finds = { HasRange };

    ghost misses = { λ d chunk. (range : ℕ × ℕ) → ¬ HasRange d chunk range };

    #[inline(always)]
    fn look_up<A: Axis>(axis: &A, chunk: u64) -> Option<(u64, u64)> {
        axis.range_of(chunk)
    }
}
