//! Where the copy of a region goes.
ghost use Rattle.std.specs.Prelude.{◌≡◌, IfErr, IfOk, MatchResult};
ghost use Rattle.zarrs_chunk_base.specs.ArraySubset.{IsBox};
ghost use Rattle.zarrs_chunk_base.specs.Dimension.{array_sizes};
ghost use Rattle.zarrs_chunk_base.specs.Refusal.{HasMemory, OrMemory};
ghost use Rattle.zarrs_chunk_plan.specs.Region.{CanBeMoved, IsRegionFault, moved};

use crate::copy::moved::lies_in;
use crate::copy::region_error::RegionError;
use std::alloc::Global;
use zarrs_chunk_base::{ArraySubset, IncompatibleDimensionalityError, Refusal};
use zarrs_chunk_parts::box_of;
use zarrs_chunks::ChunkGridTraits;

/// Returns the box of the target's array that a region of the source's array goes to: it has the region's shape and begins at `at`. An empty box lies in an
/// array if its end does.
///
/// # Errors
/// The first that applies: the region, the target's array, or `at` has another number of dimensions than the source's array. The region ends past the
/// source's array. It ends past the target's array when it begins at `at`. Or out of memory.
pub fn moved_box<G: ChunkGridTraits, H: ChunkGridTraits>(
    alloc: Global,
    source: &G,
    target: &H,
    region: &ArraySubset,
    at: &[u64],
) -> Result<ArraySubset, Refusal<RegionError>>
    ensures value { IfOk result (λ b. b ≡ moved at.now region.now) }
    ensures is_box { IfOk result (λ _. IsBox (moved at.now region.now)) }
    ensures lies { IfOk result (λ _. CanBeMoved (array_sizes (G.dimensions source.now))
        (array_sizes (H.dimensions target.now)) region.now at.now) }
    ensures refused { IfErr result (OrMemory (IsRegionFault (array_sizes (G.dimensions source.now))
        (array_sizes (H.dimensions target.now)) region.now at.now)) }
    ensures faults_first { (¬ CanBeMoved (array_sizes (G.dimensions source.now))
        (array_sizes (H.dimensions target.now)) region.now at.now) → HasMemory result }
{
    if let Err(fault) = fit_together(source, target, region, at) {
        return Err(Refusal::Refused(fault));
    }
    let start = Vec::from_slice(alloc, at)?;
    Ok(box_of(start, Vec::from_slice(alloc, region.shape())?))
}

/// That a region of the source's array can go to the target's, to begin at `at`.
///
/// # Errors
/// As of [`moved_box`], but for memory.
fn fit_together<G: ChunkGridTraits, H: ChunkGridTraits>(
    source: &G,
    target: &H,
    region: &ArraySubset,
    at: &[u64],
) -> Result<(), RegionError>
    ensures fits { MatchResult result
        (λ _. CanBeMoved (array_sizes (G.dimensions source.now))
        (array_sizes (H.dimensions target.now)) region.now at.now)
        (IsRegionFault (array_sizes (G.dimensions source.now))
        (array_sizes (H.dimensions target.now)) region.now at.now) }
    ensures is_box { IfOk result (λ _. IsBox (moved at.now region.now)) }
{
    let expected = source.dimensionality();
    if region.dimensionality() != expected {
        let lengths = IncompatibleDimensionalityError::new(region.dimensionality(), expected);
        return Err(RegionError::Region(lengths));
    }
    if target.dimensionality() != expected {
        let lengths = IncompatibleDimensionalityError::new(target.dimensionality(), expected);
        return Err(RegionError::Target(lengths));
    }
    if at.len() != expected {
        let lengths = IncompatibleDimensionalityError::new(at.len(), expected);
        return Err(RegionError::At(lengths));
    }
    if !lies_in(region.start(), region.shape(), source.array_shape()) {
        return Err(RegionError::PastSource);
    }
    if !lies_in(at, region.shape(), target.array_shape()) {
        return Err(RegionError::PastTarget);
    }
    Ok(())
}
