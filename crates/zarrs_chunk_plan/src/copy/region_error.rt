//! Why a region can't be copied.
use thiserror::Error;
use zarrs_chunk_base::IncompatibleDimensionalityError;

/// The region, the two arrays and the index to begin at don't fit together.
#[derive(Clone, Copy, Debug, PartialEq, Eq, Error)]
pub enum RegionError {
    /// The region has another number of dimensions than the source's array.
    #[error("the region: {0}")]
    Region(IncompatibleDimensionalityError),
    /// The target's array has another number of dimensions than the source's.
    #[error("the target's array: {0}")]
    Target(IncompatibleDimensionalityError),
    /// The index in the target's array that the region's first element goes to is of another number of dimensions.
    #[error("the index to begin at: {0}")]
    At(IncompatibleDimensionalityError),
    /// The region doesn't lie in the source's array.
    #[error("the region has to end within the source's array")]
    PastSource,
    /// The region, moved to where it begins in the target's array, doesn't lie in that.
    #[error("the region, moved to the index to begin at, has to end within the target's array")]
    PastTarget,
}
