//! What holds of every chunk grid and every encoding, whoever wrote them. It follows from the contracts of [`ChunkGridTraits`] and
//! [`ChunkKeyEncodingTraits`] and from their laws: each dimension is a chain, and equal keys of equally long lists come from equal lists.
//! Where a law is about a call, it holds of every answer that the contract of the call allows, and doesn't make the call.
//! The last seven lines of the table are about the grids of this library; the very last is no law but the contract of a call.
//!
//! | What holds | The function whose contract says it |
//! |---|---|
//! | An index lies in a chunk's box exactly where `chunk_indices` names that chunk | [`chunk_indices_names_the_home`] |
//! | Two chunks share no index | [`chunks_share_no_index`] |
//! | The key and the place of an element determine its index | [`key_and_place_determine_the_index`] |
//! | So do the answers of `locate` | [`answers_of_locate_determine_the_index`] |
//! | The cover of a box names exactly the chunks that meet it | [`the_cover_names_the_chunks_that_meet_a_box`] |
//! | The box of a box of chunks is the union of their boxes | [`the_box_of_chunks_is_the_union_of_their_boxes`] |
//! | The walk has each chunk below the grid shape once, in row-major order | [`the_walk_gives_each_chunk_once`] |
//! | Each element of the array lies in exactly one of them | [`each_element_lies_in_one_chunk_of_the_walk`] |
//! | The walk over the chunks in a box gives each that lies in it once, in row-major order | [`the_walk_over_a_box_gives_each_chunk_once`] |
//! | Each element of a box that has a cover lies in a chunk of the cover | [`each_element_of_a_box_lies_in_a_chunk_of_its_cover`] |
//! | A chunk of a cover has an origin, also where it ends past 18446744073709551615 | [`a_chunk_of_a_cover_has_an_origin`] |
//! | A counted chunk has a box exactly where it ends by 18446744073709551615; walks give it | [`the_boxes_of_a_walk_are_those_of_its_chunks`] |
//! | Grids of the same edges have the same dimensions, whether these are written out or in runs | [`the_edges_determine_the_dimensions`] |
//! | A bounded dimension is that of its clipped edges, where the array has elements | [`a_bounded_dimension_is_that_of_its_edges`] |
//! | Grids of like dimensions answer alike | [`grids_of_like_dimensions_answer_alike`] |
//! | A [`ChunkGrid`] is made again of its metadata | [`a_grid_is_made_again_of_its_metadata`] |
//! | A `rectilinear` grid is made again of its own configuration | [`a_rectilinear_grid_is_made_again_of_its_configuration`] |
//! | `rectilinear` grids have equal configurations exactly where they have equal edges | [`equal_edges_are_written_alike`] |
//! | A look-up in runs makes at most as many comparisons as the numbers of runs have binary digits | `RectilinearChunkGrid::chunk_indices_counted` |
ghost use Rattle.std.specs.Prelude.{◌≡◌, ◌≢◌, ◌↔◌, ℕ, ◌<◌, IsTrue, List, Ok, Option, Some, Vec, map, option_map};
ghost use Rattle.std.specs.List.{AllPairs, Contains};
ghost use Rattle.std.specs.declared.alloc.Global.{Global};
ghost use Rattle.serde_json.specs.Data.{Members};
ghost use Rattle.zarrs_chunk_base.specs.ArraySubset.{Box, IsBox, IsEmptyBox, IsInside};
ghost use Rattle.zarrs_chunk_base.specs.Dimension.{Dimension, InBox, IsOrigin, IsPlace, array_sizes, grid_sizes};
ghost use Rattle.zarrs_chunk_base.specs.Greatest.{AllFit};
ghost use Rattle.zarrs_chunk_axes.specs.Listed.{IsListed};
ghost use Rattle.zarrs_chunk_axes.specs.Bounded.{AreBounded, IsBounded};
ghost use Rattle.zarrs_chunk_base.specs.Grid.{Grid};
ghost use Rattle.zarrs_chunk_base.specs.Kinds.{IsConfigurationOf};
ghost use Rattle.zarrs_chunk_base.specs.Metadata.{Extension};
ghost use Rattle.zarrs_chunk_base.specs.RunLength.{EdgeLengths, edges_of_lengths};
ghost use Rattle.zarrs_chunk_base.specs.declared.plugin_create_error.PluginCreateError.{PluginCreateError};
ghost use Rattle.zarrs_chunk_axes.specs.Rectilinear.{AreRectilinear};
ghost use Rattle.zarrs_chunks.specs.GridKinds.{IsGridFault, grid_kind, is_bounded, rectilinear};
ghost use Rattle.zarrs_chunks.specs.Located.{IsLocated};
ghost use Rattle.zarrs_chunks.specs.declared.chunk_grid.rectilinear.RectilinearChunkGrid.{RectilinearChunkGrid};
ghost use Rattle.zarrs_chunks.specs.seen.Grids.{HasMembers, HasMetadata, IsMadeBy, Say, grid_in, kind_in, rectilinear_of, sizes_in};
ghost use Rattle.zarrs_chunks.specs.Alike.{AnswerAlike, AreAlike, AreAllAlike};
ghost use Rattle.zarrs_chunks.specs.Clipped.{AreClipped, AreClippedLists};
ghost use Rattle.zarrs_chunk_axes.specs.InBounds.{AreBelow};
ghost use Rattle.zarrs_chunk_axes.specs.LookUp.{AnswersChunk};
ghost use Rattle.zarrs_chunk_axes.specs.RowMajor.{IsBefore};
ghost use Rattle.zarrs_chunks.specs.Subsets.{AnswersChunksSubset, AnswersCover, IsCover, Spans};
ghost use Rattle.zarrs_chunks.specs.Walks.{box_at, chunks_in, chunks_of, ends_within};

use crate::{ChunkGrid, ChunkGridTraits, Located};
use zarrs_chunk_keys::ChunkKeyEncodingTraits;

/// What `chunk_indices` answers of an index is a chunk exactly where that chunk's box holds the index.
pub fn chunk_indices_names_the_home<G: ChunkGridTraits>(grid: &G)
    ensures { (index chunk : List ℕ) (named : Option (Vec ℕ Global))
        → AnswersChunk (G.dimensions grid.now) index (Ok named)
        → InBox (G.dimensions grid.now) chunk index
        ↔ (option_map (λ v. v.items) named ≡ Some chunk) }
{}

/// An index that two chunks hold makes them one.
pub fn chunks_share_no_index<G: ChunkGridTraits>(grid: &G)
    ensures { (chunk other index : List ℕ) → InBox (G.dimensions grid.now) chunk index
        → InBox (G.dimensions grid.now) other index → chunk ≡ other }
{}

/// A cover that `chunks_in_array_subset` answers of a box that isn't empty names a chunk exactly where that chunk holds some element of the box.
pub fn the_cover_names_the_chunks_that_meet_a_box<G: ChunkGridTraits>(grid: &G)
    ensures { (elements cover : Box) → IsBox elements → (¬ IsEmptyBox elements)
        → AnswersCover (G.dimensions grid.now) elements (Ok (Some cover)) → (chunk : List ℕ)
        → IsInside cover chunk ↔ ((index : List ℕ) × InBox (G.dimensions grid.now) chunk index
        × IsInside elements index) }
{}

/// A box that `chunks_subset` answers of a box of chunks that isn't empty holds an element exactly where one of the chunks does.
pub fn the_box_of_chunks_is_the_union_of_their_boxes<G: ChunkGridTraits>(grid: &G)
    ensures { (chunks union : Box) → IsBox chunks → (¬ IsEmptyBox chunks)
        → AnswersChunksSubset (G.dimensions grid.now) chunks (Ok (Some union)) → (index : List ℕ)
        → IsInside union index ↔ ((chunk : List ℕ) × IsInside chunks chunk
        × InBox (G.dimensions grid.now) chunk index) }
{}

/// The key and the place under which an element is stored determine the element's indices: where `locate` finds two different elements, their
/// keys or their places differ.
pub fn key_and_place_determine_the_index<G: ChunkGridTraits, E: ChunkKeyEncodingTraits>(
    grid: &G,
    encoding: &E,
)
    ensures { (one other chunk other_chunk key place : List ℕ)
        → AllFit chunk → AllFit other_chunk
        → InBox (G.dimensions grid.now) chunk one → InBox (G.dimensions grid.now) other_chunk other
        → E.is_key encoding.now chunk key → E.is_key encoding.now other_chunk key
        → IsPlace (G.dimensions grid.now) chunk one place
        → IsPlace (G.dimensions grid.now) other_chunk other place → one ≡ other }
{}

/// What `locate` answers tells two elements apart: of one key and one place are those of one index.
pub fn answers_of_locate_determine_the_index<G: ChunkGridTraits, E: ChunkKeyEncodingTraits>(
    grid: &G,
    encoding: &E,
    one: &Located,
    other: &Located,
)
    ensures { (index other_index : List ℕ)
        → IsLocated (G.dimensions grid.now) (E.is_key encoding.now) index one.now
        → IsLocated (G.dimensions grid.now) (E.is_key encoding.now) other_index other.now
        → one.now.key ≡ other.now.key → one.now.element.items ≡ other.now.element.items
        → index ≡ other_index }
{
    // The law of encodings is about 64-bit numbers.
    numbers_fit(&one.chunk);
    numbers_fit(&other.chunk);
}

/// The numbers of a list are 64-bit numbers.
fn numbers_fit(numbers: &[u64])
    ensures { AllFit numbers.now }
{
    let _first = numbers.first();
}

/// The walk over chunk numbers, as `iter_chunk_indices` gives it, has each list below the grid shape, once, and each after those that come
/// before it.
pub fn the_walk_gives_each_chunk_once<G: ChunkGridTraits>(grid: &G)
    ensures each { (chunk : List ℕ) → Contains (chunks_of (G.dimensions grid.now)) chunk
        ↔ AreBelow (grid_sizes (G.dimensions grid.now)) chunk }
    ensures in_order { AllPairs IsBefore (chunks_of (G.dimensions grid.now)) }
    ensures once { AllPairs (λ one other. one ≢ other) (chunks_of (G.dimensions grid.now)) }
{}

/// Each element of the array lies in the box of one of the chunks that this walk gives, and of no other.
pub fn each_element_lies_in_one_chunk_of_the_walk<G: ChunkGridTraits>(grid: &G)
    ensures one { (index : List ℕ) → AreBelow (array_sizes (G.dimensions grid.now)) index
        → (chunk : List ℕ) × Contains (chunks_of (G.dimensions grid.now)) chunk
        × InBox (G.dimensions grid.now) chunk index }
    ensures no_other { (index chunk other : List ℕ) → InBox (G.dimensions grid.now) chunk index
        → InBox (G.dimensions grid.now) other index → chunk ≡ other }
{}

/// The walk over the chunks in a box, as [`ChunkIndicesInSubset`](crate::ChunkIndicesInSubset) gives it, has each chunk that lies in it, once,
/// and each after those that come before it.
pub fn the_walk_over_a_box_gives_each_chunk_once()
    ensures each { (chunks : Box) → IsBox chunks → (chunk : List ℕ)
        → Contains (chunks_in chunks) chunk ↔ IsInside chunks chunk }
    ensures in_order { (chunks : Box) → IsBox chunks → AllPairs IsBefore (chunks_in chunks) }
    ensures once { (chunks : Box) → IsBox chunks
        → AllPairs (λ one other. one ≢ other) (chunks_in chunks) }
{}

/// Each element of a box that has a cover lies in a chunk of the cover.
pub fn each_element_of_a_box_lies_in_a_chunk_of_its_cover<G: ChunkGridTraits>(grid: &G)
    ensures { (elements cover : Box) → IsBox elements
        → IsCover (G.dimensions grid.now) elements cover
        → (index : List ℕ) → IsInside elements index → (chunk : List ℕ)
        × IsInside cover chunk × InBox (G.dimensions grid.now) chunk index }
{}

/// A chunk of the cover of a box that isn't empty has an origin of 64-bit numbers: it starts at an element of the box or before one. It may
/// end past 18446744073709551615, and then has no box.
pub fn a_chunk_of_a_cover_has_an_origin<G: ChunkGridTraits>(grid: &G)
    ensures { (elements cover : Box) → IsBox elements → (¬ IsEmptyBox elements)
        → IsCover (G.dimensions grid.now) elements cover → (chunk : List ℕ)
        → IsInside cover chunk → (origin : List ℕ)
        × IsOrigin (G.dimensions grid.now) chunk origin × AllFit origin }
{}

/// A chunk that is counted has a box exactly where it ends at 18446744073709551615 or before it: the one by which the contracts of the
/// walks over boxes name their items.
pub fn the_boxes_of_a_walk_are_those_of_its_chunks<G: ChunkGridTraits>(grid: &G)
    ensures boxed { (chunk : List ℕ) → Contains (chunks_of (G.dimensions grid.now)) chunk
        → IsTrue (ends_within (G.dimensions grid.now) chunk)
        → Spans (G.dimensions grid.now) chunk chunk (box_at (G.dimensions grid.now) chunk) }
    ensures only { (chunk : List ℕ) → (b : Box) → Spans (G.dimensions grid.now) chunk chunk b
        → IsTrue (ends_within (G.dimensions grid.now) chunk)
        × (b ≡ box_at (G.dimensions grid.now) chunk) }
{}

/// An array size and an edge that aren't 0 have a list of clipped edges, and its dimension has the same chunks as
/// the bounded one, from and to the same indices. So have lists of such dimensions.
pub fn a_bounded_dimension_is_that_of_its_edges()
    ensures has_edges { (size edge : ℕ) → 0 < size → 0 < edge → (edges : List ℕ)
        × AreClipped size edge edges }
    ensures alike { (bounded listed : Dimension) (size edge : ℕ) (edges : List ℕ)
        → AreClipped size edge edges
        → IsBounded bounded size edge → IsListed listed size edges → AreAlike bounded listed }
    ensures all { (bounded listed : List Dimension) (sizes edges : List ℕ)
        → AreBounded bounded sizes edges → AreClippedLists listed sizes edges
        → AreAllAlike bounded listed }
{}

/// Grids of one array shape and the same edges have the same dimensions, whatever their kinds, where both end their last chunk at the array's end
/// or neither does; run-length elements count as the edges that they stand for, and one edge for all chunks isn't the same as a list of
/// it. Every look-up, box, cover and walk of a grid goes by its dimensions.
pub fn the_edges_determine_the_dimensions(grid: &ChunkGrid, other: &ChunkGrid)
    ensures { is_bounded (kind_in grid.now) ≡ is_bounded (kind_in other.now)
        → array_sizes (grid_in grid.now).dimensions ≡ array_sizes (grid_in other.now).dimensions
        → (grid_in grid.now).edges ≡ (grid_in other.now).edges
        → (grid_in grid.now).dimensions ≡ (grid_in other.now).dimensions }
{}

/// Of grids whose dimensions are alike, one by one, the other answers as the one does: each look-up, the boxes of chunks and the
/// covers, and the walks. So do a bounded grid and the grid of its clipped edges, where no array size is 0.
pub fn grids_of_like_dimensions_answer_alike<G: ChunkGridTraits, H: ChunkGridTraits>(
    grid: &G,
    other: &H,
)
    ensures { AreAllAlike (G.dimensions grid.now) (H.dimensions other.now)
        → AnswerAlike (G.dimensions grid.now) (H.dimensions other.now) }
{}

/// The configurations of two `rectilinear` grids, as `configuration` answers them, are equal exactly where the grids were made with the same
/// edges, however their run-length elements were given.
pub fn equal_edges_are_written_alike()
    ensures { (shape other_shape : List ℕ) (grid other : Grid) (members others : Members)
        → IsConfigurationOf (grid_kind rectilinear) shape grid members
        → IsConfigurationOf (grid_kind rectilinear) other_shape other others
        → (members ≡ others) ↔ (grid.edges ≡ other.edges) }
{}

/// A grid is made again of its metadata and its array shape: no fault of a grid is theirs, and each grid that is made of them is of the same
/// kind, with the same dimensions and edges.
pub fn a_grid_is_made_again_of_its_metadata()
    ensures accepted { (grid : ChunkGrid) (e : Extension) → HasMetadata grid e
        → (error : PluginCreateError) → ¬ IsGridFault e (sizes_in grid) error }
    ensures kind { (grid again : ChunkGrid) (e : Extension) → HasMetadata grid e
        → IsMadeBy e (sizes_in grid) again → kind_in again ≡ kind_in grid }
    ensures dimensions { (grid again : ChunkGrid) (e : Extension) → HasMetadata grid e
        → IsMadeBy e (sizes_in grid) again
        → (grid_in again).dimensions ≡ (grid_in grid).dimensions }
    ensures edges { (grid again : ChunkGrid) (e : Extension) → HasMetadata grid e
        → IsMadeBy e (sizes_in grid) again → (grid_in again).edges ≡ (grid_in grid).edges }
{}

/// A `rectilinear` grid is made again of its own configuration and its array shape: `new` accepts the edges that the configuration says, and a
/// grid of these edges and this shape has the same dimensions and the same configuration.
pub fn a_rectilinear_grid_is_made_again_of_its_configuration()
    ensures accepted { (grid : RectilinearChunkGrid) (members : Members) (said : List EdgeLengths)
        → HasMembers grid members → Say members said
        → AreRectilinear (array_sizes (rectilinear_of grid).dimensions)
        (map edges_of_lengths said) }
    ensures dimensions { (grid again : RectilinearChunkGrid) (members : Members)
        (said : List EdgeLengths) → HasMembers grid members → Say members said
        → array_sizes (rectilinear_of again).dimensions
        ≡ array_sizes (rectilinear_of grid).dimensions
        → (rectilinear_of again).edges ≡ map edges_of_lengths said
        → (rectilinear_of again).dimensions ≡ (rectilinear_of grid).dimensions }
    ensures configuration { (grid again : RectilinearChunkGrid) (members others : Members)
        (said : List EdgeLengths) → HasMembers grid members → Say members said
        → (rectilinear_of again).edges ≡ map edges_of_lengths said
        → HasMembers again others → others ≡ members }
{}
