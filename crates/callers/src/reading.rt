//! The elements of a box, read from a store.
ghost use Rattle.std.specs.Prelude.{◌≢◌, ℕ, IfOk, List, length};
ghost use Rattle.zarrs_chunk_base.specs.ArraySubset.{IsEmptyBox};
ghost use Rattle.callers.specs.Reading.{AnswersNoPieces, AnswersPieces, HoldsArray, IsRead};

use std::alloc::{AllocError, Global};
use zarrs_chunk_base::{ArraySubset, IncompatibleDimensionalityError, Refusal, StoreKey};
use zarrs_chunk_keys::ChunkKeyEncodingTraits;
use zarrs_chunk_plan::laws::{each_element_lies_in_one_part, the_parts_tile_the_box};
use zarrs_chunk_plan::{Part, parts};
use zarrs_chunks::{ChunkGridTraits, ChunkIndicesInSubset};

/// A store of chunks: a map from the key of a chunk, and a place in the chunk, to an element.
pub trait ChunkStore {
    /// What the store may answer of a key and a place.
    ghost answers: { Self → List ℕ → List ℕ → ℕ → Type 0 };

    /// The element under a key at a place in the chunk.
    fn element(&self, key: &StoreKey, place: &[u64]) -> u64
        ensures { answers self.now key.now place.now result };
}

/// The elements of a box that one chunk holds.
#[derive(Debug, Drop)]
pub struct Piece {
    /// Where in the box they lie: a box, counted from the first element of the box that was asked for.
    pub in_selection: ArraySubset,
    /// The elements, in row-major order.
    pub elements: Vec<u64>,
}

/// Reads the elements of a box, chunk by chunk. It is proved of every store that answers by an array: the pieces have that array's
/// elements, and tile the box.
///
/// `None` where the box reaches past the grid's chunks. An empty box has no pieces.
pub fn read_box<G: ChunkGridTraits, E: ChunkKeyEncodingTraits, S: ChunkStore>(
    alloc: Global,
    grid: &G,
    encoding: &E,
    store: &S,
    array_subset: &ArraySubset,
) -> Result<Option<Vec<Piece>>, Refusal<IncompatibleDimensionalityError>>
    ensures empty { IsEmptyBox array_subset.now → length (G.dimensions grid.now) ≢ 0
        → AnswersNoPieces result }
    ensures answers { (¬ IsEmptyBox array_subset.now) → AnswersPieces (G.dimensions grid.now)
        (HoldsArray (G.dimensions grid.now) (E.is_key encoding.now) (S.answers store.now))
        array_subset.now result }
{
    // The laws: the parts tile the box, and a part has each element at its place in the chunk.
    the_parts_tile_the_box(grid, encoding, array_subset);
    each_element_lies_in_one_part(grid, encoding, array_subset);
    let Some(walk) = parts(alloc, grid, encoding, array_subset)? else {
        return Ok(None);
    };
    let mut pieces = Vec::new(alloc);
    for part in walk {
        pieces.push(read_part(alloc, store, part?)?)?;
    }
    Ok(Some(pieces))
}

/// Reads the elements of a part from its chunk.
fn read_part<S: ChunkStore>(alloc: Global, store: &S, part: Part) -> Result<Piece, AllocError>
    ensures { IfOk result (IsRead (S.answers store.now) part) }
{
    let mut elements = Vec::new(alloc);
    // The walk over the lists of numbers in a box; here they are places in the chunk.
    for place in ChunkIndicesInSubset::new(alloc, part.in_chunk.clone()?)? {
        let place = place?;
        elements.push(store.element(&part.key, place.as_slice()))?;
    }
    let Part { in_selection, .. } = part;
    Ok(Piece {
        in_selection,
        elements,
    })
}
