//! The elements of a box, read from chunks in memory.
use crate::compared::{check_numbers, check_that};
use crate::tests::values;
use callers::{ChunkStore, Piece, bounded, read_box, regular};
use std::alloc::Global;
use std::ops::Range;
use std::process::Abort;
use std::test::Fail;
use zarrs_chunk_base::{ArraySubset, StoreKey};
use zarrs_chunk_keys::{ChunkKeyEncodingTraits, DefaultChunkKeyEncoding};
use zarrs_chunks::ChunkGridTraits;

/// The chunks of four rows and three columns of an array of six rows and six columns, each under its key, with its elements in row-major
/// order. The element in row 5 and column 2 is 52.
#[derive(Drop)]
struct Chunks(Vec<(StoreKey, Vec<u64>)>);

impl Chunks {
    fn new(alloc: Global, encoding: &DefaultChunkKeyEncoding) -> Result<Chunks, Fail> {
        let mut chunks = Vec::new(alloc);
        for (row, column) in [(0u64, 0u64), (0, 1), (1, 0), (1, 1)] {
            let mut elements = Vec::new(alloc);
            for at in 0u64..12 {
                elements.push(10 * (4 * row + at / 3) + 3 * column + at % 3)?;
            }
            chunks.push((encoding.encode(alloc, &[row, column])?, elements))?;
        }
        Ok(Chunks(chunks))
    }
}

impl ChunkStore for Chunks {
    ghost answers = { λ _ _ _ _. Unit {0} };

    fn element(&self, key: &StoreKey, place: &[u64]) -> u64 {
        let [row, column] = place else {
            return u64::MAX;
        };
        for (stored, elements) in &self.0 {
            if stored == key {
                let at = row.saturating_mul(3).saturating_add(*column);
                return elements.get(at as usize).copied().unwrap_or(u64::MAX);
            }
        }
        u64::MAX
    }
}

/// What is read of a box of the array's elements.
fn read<G: ChunkGridTraits>(
    alloc: Global,
    grid: &G,
    ranges: &[Range<u64>],
) -> Result<Option<Vec<Piece>>, Fail> {
    let encoding = DefaultChunkKeyEncoding::new_slash();
    let store = Chunks::new(alloc, &encoding)?;
    let subset = ArraySubset::new_with_ranges(alloc, ranges)?;
    Ok(read_box(alloc, grid, &encoding, &store, &subset)?)
}

/// Where the elements of a piece lie in the box, and which these are.
fn check_piece(rt: &impl Abort, piece: &Piece, start: [u64; 2], elements: &[u64]) {
    check_numbers(rt, piece.in_selection.start(), &start);
    check_numbers(rt, &piece.elements, elements);
}

fn check_pieces(rt: &impl Abort, pieces: &[Piece]) {
    check_that(rt, pieces.len() == 4, "four pieces");
    let expected: [([u64; 2], &[u64]); 4] = [
        ([0, 0], &[32]),
        ([0, 1], &[33]),
        ([1, 0], &[42, 52]),
        ([1, 1], &[43, 53]),
    ];
    for (piece, (start, elements)) in pieces.iter().zip(expected) {
        check_piece(rt, piece, start, elements);
    }
}

#[test]
fn a_box_is_read(rt: HostRuntime) -> Result<(), Fail> {
    let shape = values(rt.alloc(), "[6,6]")?;
    let grid = regular(rt.alloc(), shape, values(rt.alloc(), "[4,3]")?)?;
    let pieces = read(rt.alloc(), &grid, &[3..6, 2..4])?;
    check_pieces(&rt, &pieces.ok_or("no cover")?);
    Ok(())
}

#[test]
fn a_box_past_the_array_is_none(rt: HostRuntime) -> Result<(), Fail> {
    let shape = values(rt.alloc(), "[6,6]")?;
    let grid = bounded(rt.alloc(), shape, values(rt.alloc(), "[4,3]")?)?;
    let is_none = read(rt.alloc(), &grid, &[3..7, 2..4])?.is_none();
    check_that(&rt, is_none, "no cover");
    Ok(())
}
