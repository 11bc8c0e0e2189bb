//! The grid and the encoding of one's own.
use crate::compared::{check_numbers, check_same, check_that};
use crate::tests::{grid, metadata};
use callers::{Stairs, Versioned};
use std::alloc::{AllocError, Global};
use std::process::Abort;
use std::test::Fail;
use zarrs_chunk_base::{ArraySubset, Refusal, StoreKey};
use zarrs_chunk_keys::{ChunkKeyEncodingTraits, DefaultChunkKeyEncoding};
use zarrs_chunks::laws::key_and_place_determine_the_index;
use zarrs_chunks::{ChunkGridTraits, Located, locate};

/// The grid that is created for so many elements.
fn stairs(alloc: Global, elements: u64) -> Result<Option<Stairs>, Fail> {
    match Stairs::create(alloc, &metadata(alloc, r#""stairs""#)?, &[elements]) {
        Ok(grid) => Ok(Some(grid)),
        Err(Refusal::Refused(_)) => Ok(None),
        Err(Refusal::Memory(error)) => Err(error.into()),
    }
}

/// The chunk of an element, and its place there: the greatest numbers where there are none.
fn home<G: ChunkGridTraits>(alloc: Global, grid: &G, index: u64) -> Result<[u64; 2], Fail> {
    let chunk = grid.chunk_indices(alloc, &[index])?;
    let place = grid.chunk_element_indices(alloc, &[index])?;
    Ok([only(chunk), only(place)])
}

/// The one number of a list, and the greatest number where there is none.
fn only(numbers: Option<Vec<u64>>) -> u64 {
    match numbers {
        Some(numbers) => match numbers.as_slice() {
            [number] => *number,
            _ => u64::MAX,
        },
        None => u64::MAX,
    }
}

/// Six elements, in chunks of one, two and three.
#[test]
fn a_grid_of_ones_own(rt: HostRuntime) -> Result<(), Fail> {
    let grid = stairs(rt.alloc(), 6)?.ok_or("no stairs of six elements")?;
    let rows = [
        [0, 0, 0],
        [1, 1, 0],
        [2, 1, 1],
        [3, 2, 0],
        [5, 2, 2],
        [6, u64::MAX, u64::MAX],
    ];
    for [index, chunk, place] in rows {
        check_numbers(&rt, &home(rt.alloc(), &grid, index)?, &[chunk, place]);
    }
    let _configuration = grid.configuration(rt.alloc())?;
    Ok(())
}

#[test]
fn a_grid_of_ones_own_is_refused(rt: HostRuntime) -> Result<(), Fail> {
    check_that(
        &rt,
        stairs(rt.alloc(), 5)?.is_none(),
        "no stairs of five elements",
    );
    Ok(())
}

/// The box of a range.
fn range(alloc: Global, start: u64, end: u64) -> Result<ArraySubset, AllocError> {
    ArraySubset::new_with_ranges(alloc, &[start..end])
}

/// The box is that of a range.
fn check_box(
    rt: &impl Abort,
    found: Option<ArraySubset>,
    start: u64,
    length: u64,
) -> Result<(), Fail> {
    let found = found.ok_or("no box")?;
    check_numbers(rt, found.start(), &[start]);
    check_numbers(rt, found.shape(), &[length]);
    Ok(())
}

/// A chunk of the stairs, the chunks over a box of elements, and the elements of a box of chunks.
fn check_boxes<G: ChunkGridTraits>(rt: &(impl Abort + AllocGlobal), grid: &G) -> Result<(), Fail> {
    let alloc = rt.alloc();
    check_box(rt, grid.subset(alloc, &[2])?, 3, 3)?;
    let elements = range(alloc, 2, 4)?;
    check_box(rt, grid.chunks_in_array_subset(alloc, &elements)?, 1, 2)?;
    let chunks = range(alloc, 1, 3)?;
    check_box(rt, grid.chunks_subset(alloc, &chunks)?, 1, 5)
}

#[test]
fn boxes_of_a_grid_of_ones_own(rt: HostRuntime) -> Result<(), Fail> {
    check_boxes(&rt, &Stairs)
}

/// Three chunks, and six elements.
fn check_bounds<G: ChunkGridTraits>(rt: &(impl Abort + AllocGlobal), grid: &G) -> Result<(), Fail> {
    check_that(
        rt,
        grid.subset(rt.alloc(), &[3])?.is_none(),
        "no fourth chunk",
    );
    check_that(rt, grid.subset(rt.alloc(), &[]).is_err(), "a refusal");
    check_that(rt, grid.chunk_indices_inbounds(&[2]), "the last chunk");
    check_that(rt, !grid.chunk_indices_inbounds(&[3]), "a chunk past it");
    check_that(rt, grid.array_indices_inbounds(&[5]), "the last element");
    check_that(rt, !grid.array_indices_inbounds(&[6]), "an element past it");
    Ok(())
}

#[test]
fn bounds_of_a_grid_of_ones_own(rt: HostRuntime) -> Result<(), Fail> {
    check_bounds(&rt, &Stairs)
}

/// Keys with dots, each with a version before it.
fn versioned(alloc: Global) -> Result<Versioned<DefaultChunkKeyEncoding>, Fail> {
    let dots = metadata(alloc, r#"{"name":"x","configuration":{"separator":"."}}"#)?;
    Ok(Versioned::<DefaultChunkKeyEncoding>::create(alloc, &dots)?)
}

fn located<E: ChunkKeyEncodingTraits>(alloc: Global, encoding: &E) -> Result<Located, Fail> {
    let grid = grid(alloc)?;
    key_and_place_determine_the_index(&grid, encoding);
    Ok(locate(alloc, &grid, encoding, &[3, 5, 50])?.ok_or("no chunk")?)
}

#[test]
fn an_encoding_of_ones_own(rt: HostRuntime) -> Result<(), Fail> {
    let encoding = versioned(rt.alloc())?;
    let _configuration = encoding.configuration(rt.alloc())?;
    let located = located(rt.alloc(), &encoding)?;
    check_numbers(&rt, &located.chunk, &[3, 2, 16]);
    check_same(&rt, located.key.as_str(), "v1.c.3.2.16");
    check_numbers(&rt, &located.element, &[0, 1, 2]);
    Ok(())
}

/// The text behind which the key of a chunk is appended.
fn appended<E: ChunkKeyEncodingTraits>(alloc: Global, encoding: &E) -> Result<String, Fail> {
    let mut text = String::from_str(alloc, "key ")?;
    encoding.append_key(&mut text, &[3, 2, 16])?;
    Ok(text)
}

/// What the key of a chunk is read back as.
fn read_back<E: ChunkKeyEncodingTraits>(alloc: Global, encoding: &E) -> Result<Vec<u64>, Fail> {
    let key = encoding.encode(alloc, &[3, 2, 16])?;
    Ok(encoding.decode(alloc, 3, &key)?.ok_or("no key")?)
}

/// Whether a text is a key of a store, and of no chunk.
fn is_of_no_chunk<E: ChunkKeyEncodingTraits>(
    alloc: Global,
    encoding: &E,
    text: &str,
) -> Result<bool, Fail> {
    let key = StoreKey::new(String::from_str(alloc, text)?)?;
    Ok(encoding.decode(alloc, 3, &key)?.is_none())
}

#[test]
fn keys_of_an_encoding_of_ones_own(rt: HostRuntime) -> Result<(), Fail> {
    let encoding = versioned(rt.alloc())?;
    check_same(
        &rt,
        appended(rt.alloc(), &encoding)?.as_str(),
        "key v1.c.3.2.16",
    );
    check_numbers(&rt, &read_back(rt.alloc(), &encoding)?, &[3, 2, 16]);
    for text in ["c.3.2.16", "v1.c.3.2", "v1/c.3.2.16", "v1."] {
        check_that(&rt, is_of_no_chunk(rt.alloc(), &encoding, text)?, text);
    }
    Ok(())
}
