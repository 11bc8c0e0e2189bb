//! A grid of each kind.
use std::alloc::Global;
use std::num::NonZeroU64;
use zarrs_chunk_base::{
    ArrayShape, ChunkEdgeLengths, ChunkShape, IncompatibleDimensionalityError, MetadataV3,
    PluginCreateError, RectangularChunkGridDimensionConfiguration, Refusal, RunLengthElement,
};
use zarrs_chunks::{
    ChunkGrid, RectangularChunkGrid, RectangularChunkGridCreateError, RectilinearChunkGrid,
    RectilinearChunkGridCreateError, RegularBoundedChunkGrid, RegularChunkGrid,
    RegularChunkGridCreateError,
};

/// `regular`: all chunks have one shape.
pub fn regular(
    alloc: Global,
    array_shape: ArrayShape,
    chunk_shape: ChunkShape,
) -> Result<RegularChunkGrid, Refusal<RegularChunkGridCreateError>> {
    RegularChunkGrid::new(alloc, array_shape, chunk_shape)
}

/// `zarrs.regular_bounded`: the same, and the last chunks end where the array does.
pub fn bounded(
    alloc: Global,
    array_shape: ArrayShape,
    chunk_shape: ChunkShape,
) -> Result<RegularBoundedChunkGrid, Refusal<IncompatibleDimensionalityError>> {
    RegularBoundedChunkGrid::new(alloc, array_shape, chunk_shape)
}

/// `rectangular`: rows of chunks of these heights, which add up to the first size of the array, and all of one width.
pub fn rectangular(
    alloc: Global,
    array_shape: ArrayShape,
    heights: ChunkShape,
    width: NonZeroU64,
) -> Result<RectangularChunkGrid, Refusal<RectangularChunkGridCreateError>> {
    let heights = RectangularChunkGridDimensionConfiguration::from(heights);
    let width = RectangularChunkGridDimensionConfiguration::from(width);
    RectangularChunkGrid::new(alloc, array_shape, &vec![in alloc; heights, width]?)
}

/// `rectilinear`: so many rows of chunks of one height and a last row of another, and all of one width.
pub fn rectilinear(
    alloc: Global,
    array_shape: ArrayShape,
    [height, count, last, width]: [NonZeroU64; 4],
) -> Result<RectilinearChunkGrid, Refusal<RectilinearChunkGridCreateError>> {
    let rows = RunLengthElement::Repeated([height, count]);
    let heights = vec![in alloc; rows, RunLengthElement::Single(last)]?;
    let edges = vec![in alloc;
        ChunkEdgeLengths::Varying(heights),
        ChunkEdgeLengths::Scalar(width),
    ]?;
    RectilinearChunkGrid::new(alloc, array_shape, &edges)
}

/// Any of them, by the member `chunk_grid` of an array.
pub fn by_name(
    alloc: Global,
    metadata: &MetadataV3,
    array_shape: &[u64],
) -> Result<ChunkGrid, Refusal<PluginCreateError>> {
    ChunkGrid::from_metadata(alloc, metadata, array_shape)
}
