//! Prepared grids and encodings: their numbers, what they answer with ample memory, and numbers that are those of none.
use crate::compared::{check_numbers, check_same, check_that};
use crate::grids::{created, metadata};
use std::alloc::Global;
use std::process::Abort;
use std::test::Fail;
use zarrs_chunk_base::{ArraySubset, StoreKey};
use zarrs_chunk_keys::{ChunkKeyEncoding, ChunkKeyEncodingTraits};
use zarrs_chunk_prepared::laws::a_grid_has_so_many_numbers;
use zarrs_chunk_prepared::{PreparedGrid, prepare_encoding, prepare_grid, read_encoding};
use zarrs_chunks::ChunkGrid;

const MAX: u64 = u64::MAX;

/// `zarrgrid` in ASCII.
const MARK: u64 = 8818455381055531364;

/// `zarrkeys` in ASCII.
const KEYS_MARK: u64 = 8818455381121792371;

/// Five by six, in chunks of three along the first dimension, and of one, one and four along the second.
const VARYING: &str =
    r#"{"name":"rectilinear","configuration":{"kind":"inline","chunk_shapes":[3,[[1,2],4]]}}"#;

/// The numbers of this grid, and one more.
const NUMBERS: [u64; 20] = [
    MARK, 2, 2, MAX, MAX, 1, 0, 0, 3, 3, 5, 2, 2, 0, 2, 0, 2, 1, 4, 0,
];

/// Its numbers.
fn some_numbers() -> &'static [u64] {
    &NUMBERS[..19]
}

/// The numbers of the grid that metadata say.
fn numbers(alloc: Global, shape: &[u64], text: &str) -> Result<Vec<u64>, Fail> {
    let grid: ChunkGrid = created(alloc, text, shape)?;
    Ok(prepare_grid(alloc, &grid)?)
}

#[test]
fn the_numbers_of_grids_are_written(rt: HostRuntime) -> Result<(), Fail> {
    a_grid_has_so_many_numbers();
    let alloc = rt.alloc();
    let regular = r#"{"name":"regular","configuration":{"chunk_shape":[3]}}"#;
    let bounded = r#"{"name":"zarrs.regular_bounded","configuration":{"chunk_shape":[3,3]}}"#;
    let rows: [(&[u64], &str, &[u64]); 3] = [
        (&[5], regular, &[MARK, 1, 2, MAX, MAX, 1, 0, 0, 3]),
        (
            &[5, 0],
            bounded,
            &[MARK, 2, 2, 4, 1, 1, 0, 0, 3, 0, 0, 0, 0],
        ),
        (&[5, 6], VARYING, some_numbers()),
    ];
    for (shape, text, expected) in rows {
        check_numbers(&rt, &numbers(alloc, shape, text)?, expected);
    }
    Ok(())
}

/// The grid that numbers tell.
fn read<'a>(alloc: Global, numbers: &'a [u64], look_ups: usize) -> Result<PreparedGrid<'a>, Fail> {
    Ok(PreparedGrid::read(alloc, numbers, look_ups)?.ok_or("no prepared grid")?)
}

/// Two lists of two numbers, of which the first comes first.
fn both(one: [u64; 2], other: [u64; 2]) -> [u64; 4] {
    [one[0], one[1], other[0], other[1]]
}

/// The chunk of an element, and its place there; nines where there is none.
fn home(grid: &PreparedGrid<'_>, index: &[u64; 2]) -> Result<([u64; 4], bool), Fail> {
    let (mut chunk, mut place) = ([9; 2], [9; 2]);
    let found = grid.find_home(index, &mut chunk, &mut place)?;
    Ok((both(chunk, place), found))
}

/// The box of a chunk; nines where there is none.
fn box_of(grid: &PreparedGrid<'_>, chunk: &[u64; 2]) -> Result<([u64; 4], bool), Fail> {
    let (mut origin, mut shape) = ([9; 2], [9; 2]);
    let found = grid.find_box(chunk, &mut origin, &mut shape)?;
    Ok((both(origin, shape), found))
}

/// What a look-up found, and whether it found it.
fn check_found(rt: &impl Abort, answer: ([u64; 4], bool), numbers: &[u64; 4], is_found: bool) {
    let (found, is) = answer;
    check_numbers(rt, &found, numbers);
    check_that(rt, is == is_found, "whether it is found");
}

/// Elements and chunks of the grid, and such of none.
fn check_look_ups(rt: &impl Abort, grid: &PreparedGrid<'_>) -> Result<(), Fail> {
    check_found(rt, home(grid, &[4, 1])?, &[1, 1, 1, 0], true);
    check_found(rt, home(grid, &[2, 5])?, &[0, 2, 2, 3], true);
    check_found(rt, box_of(grid, &[1, 2])?, &[3, 2, 3, 4], true);
    check_found(rt, home(grid, &[0, 6])?, &[9; 4], false);
    check_found(rt, box_of(grid, &[0, 3])?, &[9; 4], false);
    Ok(())
}

#[test]
fn elements_and_chunks_are_looked_up(rt: HostRuntime) -> Result<(), Fail> {
    for look_ups in [0, 1, 1000] {
        check_look_ups(&rt, &read(rt.alloc(), some_numbers(), look_ups)?)?;
    }
    Ok(())
}

/// The first chunk and the counts of the chunks that hold a box.
fn cover(alloc: Global, grid: &PreparedGrid<'_>) -> Result<([u64; 4], bool), Fail> {
    let elements = ArraySubset::new_with_ranges(alloc, &[2..4, 1..3])?;
    let (mut first, mut counts) = ([9; 2], [9; 2]);
    let found = grid.find_cover(alloc, &elements, &mut first, &mut counts)?;
    Ok((both(first, counts), found))
}

/// How many chunks the grid has in each dimension.
fn check_sizes(rt: &impl Abort, grid: &PreparedGrid<'_>) -> Result<(), Fail> {
    let mut sizes = [0; 2];
    grid.write_grid_shape(&mut sizes)?;
    check_numbers(rt, &sizes, &[2, 3]);
    Ok(())
}

#[test]
fn covers_and_grid_shapes_are_written(rt: HostRuntime) -> Result<(), Fail> {
    let grid = read(rt.alloc(), some_numbers(), 1)?;
    check_sizes(&rt, &grid)?;
    check_found(&rt, cover(rt.alloc(), &grid)?, &[0, 1, 2, 2], true);
    Ok(())
}

/// Whether numbers are those of a grid.
fn is_grid(alloc: Global, numbers: &[u64]) -> Result<bool, Fail> {
    Ok(PreparedGrid::read(alloc, numbers, 1)?.is_some())
}

#[test]
fn other_numbers_are_those_of_no_grid(rt: HostRuntime) -> Result<(), Fail> {
    let rows: [&[u64]; 7] = [
        &[],
        &[MARK],
        &[MARK + 1, 0],
        &[MARK, 1],
        &[MARK, 1, 0, 0, 0, MAX],
        &NUMBERS,
        &NUMBERS[..18],
    ];
    for numbers in rows {
        check_that(&rt, !is_grid(rt.alloc(), numbers)?, "no grid");
    }
    Ok(())
}

/// The numbers of the encoding that metadata say.
fn numbers_of_encoding(alloc: Global, text: &str) -> Result<Vec<u64>, Fail> {
    let encoding = ChunkKeyEncoding::from_metadata(alloc, &metadata(alloc, text)?)?;
    Ok(prepare_encoding(alloc, &encoding)?)
}

#[test]
fn the_numbers_of_encodings_are_written(rt: HostRuntime) -> Result<(), Fail> {
    let suffixed =
        r#"{"name":"zarrs.default_suffix","configuration":{"separator":".","suffix":".é"}}"#;
    let rows: [(&str, &[u64]); 3] = [
        (r#""default""#, &[KEYS_MARK, 0, 47]),
        (r#""v2""#, &[KEYS_MARK, 1, 46]),
        (suffixed, &[KEYS_MARK, 2, 46, 46, 195, 169]),
    ];
    for (text, expected) in rows {
        check_numbers(&rt, &numbers_of_encoding(rt.alloc(), text)?, expected);
    }
    Ok(())
}

/// The key of the chunk `[3, 2]` under the encoding that numbers tell.
fn key(alloc: Global, numbers: &[u64]) -> Result<StoreKey, Fail> {
    let encoding = read_encoding(alloc, numbers)?.ok_or("no prepared encoding")?;
    Ok(encoding.encode(alloc, &[3, 2])?)
}

#[test]
fn encodings_are_made_of_their_numbers(rt: HostRuntime) -> Result<(), Fail> {
    let rows: [(&[u64], &str); 4] = [
        (&[KEYS_MARK, 0, 46], "c.3.2"),
        (&[KEYS_MARK, 1, 47], "3/2"),
        (&[KEYS_MARK, 2, 47, 46, 195, 169], "c/3/2.é"),
        (&[KEYS_MARK, 2, 47], "c/3/2"),
    ];
    for (numbers, expected) in rows {
        check_same(&rt, key(rt.alloc(), numbers)?.as_str(), expected);
    }
    Ok(())
}

/// Whether numbers are those of an encoding.
fn is_encoding(alloc: Global, numbers: &[u64]) -> Result<bool, Fail> {
    Ok(read_encoding(alloc, numbers)?.is_some())
}

#[test]
fn other_numbers_are_those_of_no_encoding(rt: HostRuntime) -> Result<(), Fail> {
    let rows: [&[u64]; 9] = [
        &[],
        &[KEYS_MARK, 0],
        &[MARK, 0, 47],
        &[KEYS_MARK, 3, 47],
        &[KEYS_MARK, 0, 45],
        &[KEYS_MARK, 1, 46, 46],
        &[KEYS_MARK, 2, 47, 256],
        &[KEYS_MARK, 2, 47, 195],
        &[KEYS_MARK, 2, 47, 47],
    ];
    for numbers in rows {
        check_that(&rt, !is_encoding(rt.alloc(), numbers)?, "no encoding");
    }
    Ok(())
}
