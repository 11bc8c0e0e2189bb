//! Rows of elements, the last of five dimensions, and lines of parts of them.
use std::alloc::Global;
use std::num::NonZeroU64;
use std::process::Abort;
use std::test::Fail;
use zarrs_chunk_base::{ArraySubset, ChunkShape};
use zarrs_chunk_keys::DefaultChunkKeyEncoding;
use zarrs_chunk_plan::{Part, StoredArray};
use zarrs_chunks::RegularChunkGrid;

/// An array in a regular grid, under default keys with slashes.
pub(crate) type OpenedArray = StoredArray<RegularChunkGrid, DefaultChunkKeyEncoding>;

/// A chunk of so many elements along the last of five dimensions.
pub(crate) fn edges_of(alloc: Global, edge: u64) -> Result<ChunkShape, Fail> {
    let mut edges = vec![in alloc; NonZeroU64::MIN; 4]?;
    edges.push(NonZeroU64::new(edge).ok_or("an edge of 0")?)?;
    Ok(edges)
}

/// A row of so many elements, in chunks of so many.
pub(crate) fn row(alloc: Global, elements: u64, edge: u64) -> Result<OpenedArray, Fail> {
    let array_shape = [1, 1, 1, 1, elements].to_vec(alloc)?;
    Ok(StoredArray {
        grid: RegularChunkGrid::new(alloc, array_shape, edges_of(alloc, edge)?)?,
        encoding: DefaultChunkKeyEncoding::new_slash(),
    })
}

/// So many of a row, from one on: elements, or chunks.
pub(crate) fn some_of(alloc: Global, first: u64, count: u64) -> Result<ArraySubset, Fail> {
    let start = [0, 0, 0, 0, first].to_vec(alloc)?;
    Ok(ArraySubset::new_with_start_shape(start, [1, 1, 1, 1, count].to_vec(alloc)?)?)
}

/// Appends the line of a part: its key, its start in the chunk and in the subset, and its shape.
pub(crate) fn append_part(alloc: Global, lines: &mut String, part: &Part) -> Result<(), Fail> {
    let line = format!(in alloc;
        "{} {:?} {:?} {:?}\n",
        part.key.as_str(),
        part.in_chunk.start(),
        part.in_selection.start(),
        part.in_chunk.shape()
    )?;
    lines.push_str(line.as_str())?;
    Ok(())
}

/// The text is this one.
pub(crate) fn check_text(rt: &impl Abort, text: &str, expected: &str) {
    assert!(rt; text == expected, "found\n{text}\nexpected\n{expected}");
}
