//! What holds of every plan, over any grid and encoding. It follows from the laws of [`zarrs_chunks::laws`] and from that of encodings.
//! Where a law is about a call, it holds of every answer that the contract of the call allows, and doesn't make the call.
//!
//! | What holds | The function whose contract says it |
//! |---|---|
//! | What a walk that `parts` answers gives of a box, one after another, is a plan of the box | [`the_walk_gives_the_plan`] |
//! | Each element of the box lies in exactly one part, at its place in that part's chunk | [`each_element_lies_in_one_part`] |
//! | No two parts have one key | [`no_two_parts_have_one_key`] |
//! | The parts' boxes tile the box: each place in it lies in exactly one, they reach nowhere else, and none is empty | [`the_parts_tile_the_box`] |
//! | Shares of a plan are together the plan | [`shares_are_together_the_plan`] |
//! | Each box that has a cover has a plan | [`there_is_a_plan`] |
//! | A chunk is marked as stored if the plan writes it and its key was listed, and only then | [`a_chunk_is_marked_if_its_key_is_listed`] |
//! | Byte ranges of the form that is answered have the bytes of the box's elements, and no other | [`byte_ranges_have_the_bytes_of_the_box`] |
//! | Grids that one configuration makes of two array shapes share their chunks | [`grids_of_one_configuration_share_their_chunks`] |
//! | What a walk that `changes` answers gives, one after another, is the plan of the resize | [`the_walk_gives_the_resize`] |
//! | There is a plan of each resize | [`there_is_a_resize`] |
//! | Each chunk of which a change is asked for has one, and no two are under one key | [`each_chunk_has_one_change`] |
//! | A chunk that is kept holds each element at the place where it held it | [`a_kept_chunk_is_as_it_was`] |
//! | An element that both arrays have stays in its chunk, at its place; its chunk is kept or rewritten | [`each_element_stays_in_its_chunk`] |
//! | The chunk of an element that leaves is rewritten or deleted, the chunk of one that comes is rewritten or created | [`each_element_that_leaves_or_comes_changes_its_chunk`] |
ghost use Rattle.std.specs.Prelude.{◌≡◌, ◌≢◌, ◌↔◌, ◌⊎◌, ◌<◌, ℕ, [], Bool, IsTrue, true, false, List, Ok, Option, length, map, option_map};
ghost use Rattle.std.specs.Iterator.{Drains};
ghost use Rattle.std.specs.List.{AllByRecursion, AllPairs, AllZip, Contains, flat_map, range_with_len};
ghost use Rattle.zarrs_chunk_axes.specs.EqualEdges.{AreEqualEdges};
ghost use Rattle.zarrs_chunk_axes.specs.InBounds.{AreBelow};
ghost use Rattle.zarrs_chunk_base.specs.ArraySubset.{Box, IsBox, IsEmptyBox, IsInside};
ghost use Rattle.zarrs_chunk_base.specs.Dimension.{Dimension, InBox, IsPlace, array_sizes};
ghost use Rattle.zarrs_chunk_base.specs.Greatest.{AllFit};
ghost use Rattle.zarrs_chunk_base.specs.Grid.{Grid};
ghost use Rattle.zarrs_chunk_base.specs.Metadata.{Extension};
ghost use Rattle.zarrs_chunks.specs.GridKinds.{IsGrid};
ghost use Rattle.zarrs_chunks.specs.Subsets.{IsCover};
ghost use Rattle.zarrs_chunk_plan.specs.Bytes.{FindsRanges};
ghost use Rattle.zarrs_chunk_parts.specs.Plan.{HasElement, IsPart, IsPlan};
ghost use Rattle.zarrs_chunk_plan.specs.Resize.{AreChanged, AreChangedChunks, AreResized, HasElementOf, IsAsked, IsChange, IsChanged, IsKept, IsResizePlan, IsUsed};
ghost use Rattle.zarrs_chunk_plan.specs.declared.resize.changed.ChangedChunks.{ChangedChunks};
ghost use Rattle.zarrs_chunk_plan.specs.declared.resize.plan.Change.TheVariants.{Create, Delete, Keep, Rewrite};
ghost use Rattle.zarrs_chunk_plan.specs.Shares.{numbered_share};
ghost use Rattle.zarrs_chunk_plan.specs.StoredChunks.{IsListed};
ghost use Rattle.zarrs_chunk_plan.specs.Strided.{form_of, ranges_of};
ghost use Rattle.zarrs_chunk_plan.specs.declared.bytes.ranges.ByteRanges.{ByteRanges as ByteRangesValue};
ghost use Rattle.zarrs_chunk_plan.specs.declared.copy.stored_chunks.StoredChunks.{StoredChunks as StoredChunksValue};
ghost use Rattle.zarrs_chunk_plan.specs.declared.bytes.ranges.MemoryOrder.{MemoryOrder as MemoryOrderValue};
ghost use Rattle.zarrs_chunk_plan.specs.seen.Changes.{AreChangesToCome, CanChange, GivesChange, IsAboutResize, changes_to_come};
ghost use Rattle.zarrs_chunk_plan.specs.seen.Parts.{ArePartsToCome, GivesPart, IsPlanned, MeetSubset};
ghost use Rattle.zarrs_chunk_plan.specs.seen.StoredChunks.{Knows, has_mark};

use crate::{Change, Changes, ChunkChange, Part, Parts, StoredArray};
use zarrs_chunk_base::ArraySubset;
use zarrs_chunk_keys::ChunkKeyEncodingTraits;
use zarrs_chunks::ChunkGridTraits;

/// What a walk over a box gives up to its end is its parts to come. These are a plan of the box, for a walk that `parts` returns: one for each chunk of
/// its cover, in order. An empty box has no parts.
pub fn the_walk_gives_the_plan<G: ChunkGridTraits, E: ChunkKeyEncodingTraits>(
    grid: &G,
    encoding: &E,
)
    ensures to_come { (walk : Parts G E) (parts : List Part) → MeetSubset G.dimensions walk
        → Drains (GivesPart G.dimensions E.is_key) walk (map Ok parts)
        → ArePartsToCome G.dimensions E.is_key walk parts }
    ensures plan { (elements : Box) (walk : Parts G E) (parts : List Part)
        → IsPlanned G.dimensions grid.now encoding.now elements walk
        → ArePartsToCome G.dimensions E.is_key walk parts
        → IsPlan (G.dimensions grid.now) (E.is_key encoding.now) elements parts }
    ensures none { (elements : Box) (parts : List Part) → IsEmptyBox elements
        → IsPlan (G.dimensions grid.now) (E.is_key encoding.now) elements parts → parts ≡ [] }
{}

/// So many shares of a plan, one behind another, are the plan: nothing of it is in two of them, and nothing is left out.
pub fn shares_are_together_the_plan()
    ensures of_a_read { (of : ℕ) → 0 < of → (parts : List Part)
        → flat_map (λ number. numbered_share number of parts) (range_with_len 0 of) ≡ parts }
{}

/// Each element of the box lies in exactly one part of the plan. The part's chunk holds the element, and the place that the part has it at is the
/// one that `chunk_element_indices` answers.
pub fn each_element_lies_in_one_part<G: ChunkGridTraits, E: ChunkKeyEncodingTraits>(
    grid: &G,
    encoding: &E,
    array_subset: &ArraySubset,
)
    ensures one { (parts : List Part)
        → IsPlan (G.dimensions grid.now) (E.is_key encoding.now) array_subset.now parts
        → (index : List ℕ) → IsInside array_subset.now index → (part : Part)
        × Contains parts part
        × ((place : List ℕ) × HasElement array_subset.now part index place) }
    ensures no_other { (parts : List Part)
        → IsPlan (G.dimensions grid.now) (E.is_key encoding.now) array_subset.now parts
        → AllPairs (λ part other. (index place also : List ℕ)
        → HasElement array_subset.now part index place
        → HasElement array_subset.now other index also → ⊥) parts }
    ensures place { (chunk : List ℕ) (part : Part) (index place : List ℕ)
        → IsPart (G.dimensions grid.now) (E.is_key encoding.now) array_subset.now chunk part
        → HasElement array_subset.now part index place
        → InBox (G.dimensions grid.now) chunk index
        × IsPlace (G.dimensions grid.now) chunk index place }
{
    array_subset.is_a_box();
}

/// No two parts of the plan have one key, so no chunk is read twice.
pub fn no_two_parts_have_one_key<G: ChunkGridTraits, E: ChunkKeyEncodingTraits>(
    grid: &G,
    encoding: &E,
    array_subset: &ArraySubset,
)
    ensures { (parts : List Part)
        → IsPlan (G.dimensions grid.now) (E.is_key encoding.now) array_subset.now parts
        → AllPairs (λ part other. part.key ≢ other.key) parts }
{}

/// A place in the box lies in the box of exactly one part of the plan, and the parts' boxes reach nowhere else. None of them is empty.
pub fn the_parts_tile_the_box<G: ChunkGridTraits, E: ChunkKeyEncodingTraits>(
    grid: &G,
    encoding: &E,
    array_subset: &ArraySubset,
)
    ensures all { (parts : List Part)
        → IsPlan (G.dimensions grid.now) (E.is_key encoding.now) array_subset.now parts
        → (place : List ℕ) → AreBelow array_subset.now.shape place
        ↔ ((part : Part) × Contains parts part × IsInside part.in_selection place) }
    ensures apart { (parts : List Part)
        → IsPlan (G.dimensions grid.now) (E.is_key encoding.now) array_subset.now parts
        → AllPairs (λ part other. (place : List ℕ) → IsInside part.in_selection place
        → IsInside other.in_selection place → ⊥) parts }
    ensures not_empty { (parts : List Part)
        → IsPlan (G.dimensions grid.now) (E.is_key encoding.now) array_subset.now parts
        → (part : Part) → Contains parts part → ¬ IsEmptyBox part.in_selection }
{
    array_subset.is_a_box();
}

/// Each box of elements that has a cover has a plan, and so does an empty one. So no law above is about nothing: every encoding has a key of each chunk.
pub fn there_is_a_plan<G: ChunkGridTraits, E: ChunkKeyEncodingTraits>(source: &StoredArray<G, E>)
    ensures of_a_read { (elements cover : Box) → IsBox elements → (¬ IsEmptyBox elements)
        → IsCover (G.dimensions source.now.grid) elements cover → (parts : List Part)
        × IsPlan (G.dimensions source.now.grid) (E.is_key source.now.encoding) elements parts }
    ensures of_nothing { (elements : Box) → IsEmptyBox elements
        → IsPlan (G.dimensions source.now.grid) (E.is_key source.now.encoding) elements [] }
{}

/// Grids that one configuration makes of two array shapes, of whatever kind it is, hold each index that both arrays have in the same chunk. So they
/// may be the grids of a resize.
pub fn grids_of_one_configuration_share_their_chunks()
    ensures { (e : Extension) (shape other : List ℕ) (before after : Grid)
        → IsGrid e shape before → IsGrid e other after
        → AreResized before.dimensions after.dimensions }
{}

/// What a walk over the changes of a resize gives up to its end is its changes to come. Of a walk that `changes` answers these are the plan
/// of the resize.
pub fn the_walk_gives_the_resize<G: ChunkGridTraits, H: ChunkGridTraits, E: ChunkKeyEncodingTraits>(
    before: &G,
    after: &H,
    encoding: &E,
)
    ensures to_come { (walk : Changes G H E) (changes : List ChunkChange)
        → CanChange G.dimensions H.dimensions walk
        → Drains (GivesChange G.dimensions H.dimensions E.is_key) walk (map Ok changes)
        → AreChangesToCome G.dimensions H.dimensions E.is_key walk changes }
    ensures plan { (include_unchanged : Bool) (walk : Changes G H E) (changes : List ChunkChange)
        → AreChanged (G.dimensions before.now) (H.dimensions after.now) include_unchanged (changes_to_come walk)
        → IsAboutResize before.now after.now encoding.now walk
        → AreChangesToCome G.dimensions H.dimensions E.is_key walk changes
        → IsResizePlan (G.dimensions before.now) (H.dimensions after.now) (E.is_key encoding.now)
        include_unchanged changes }
{}

/// In the plan of a resize each chunk of which a change is asked for has one, and no other chunk has. If the grids are those of a resize, no two
/// changes are under one key. If the kept chunks are wanted too, each chunk that either array uses has one. What becomes of a chunk is one of four
/// things and no other.
pub fn each_chunk_has_one_change<G: ChunkGridTraits, H: ChunkGridTraits, E: ChunkKeyEncodingTraits>(
    before: &G,
    after: &H,
    encoding: &E,
)
    ensures one { (include_unchanged : Bool) (changes : List ChunkChange)
        → IsResizePlan (G.dimensions before.now) (H.dimensions after.now) (E.is_key encoding.now)
        include_unchanged changes → (chunk : List ℕ)
        → IsAsked (G.dimensions before.now) (H.dimensions after.now) include_unchanged chunk
        → (change : ChunkChange) × Contains changes change
        × IsChange (G.dimensions before.now) (H.dimensions after.now) (E.is_key encoding.now)
        chunk change }
    ensures all { (changes : List ChunkChange)
        → IsResizePlan (G.dimensions before.now) (H.dimensions after.now) (E.is_key encoding.now)
        true changes → (chunk : List ℕ)
        → (IsUsed (G.dimensions before.now) chunk ⊎ IsUsed (H.dimensions after.now) chunk)
        → (change : ChunkChange) × Contains changes change
        × IsChange (G.dimensions before.now) (H.dimensions after.now) (E.is_key encoding.now)
        chunk change }
    ensures nothing_else { (include_unchanged : Bool) (changes : List ChunkChange)
        → IsResizePlan (G.dimensions before.now) (H.dimensions after.now) (E.is_key encoding.now)
        include_unchanged changes → (change : ChunkChange) → Contains changes change → (chunk : List ℕ)
        × IsAsked (G.dimensions before.now) (H.dimensions after.now) include_unchanged chunk
        × IsChange (G.dimensions before.now) (H.dimensions after.now) (E.is_key encoding.now)
        chunk change }
    ensures one_key { length (G.dimensions before.now) ≡ length (H.dimensions after.now)
        → (include_unchanged : Bool) (changes : List ChunkChange)
        → IsResizePlan (G.dimensions before.now) (H.dimensions after.now) (E.is_key encoding.now)
        include_unchanged changes → AllPairs (λ change other. change.key ≢ other.key) changes }
    ensures no_other { (chunk : List ℕ) (what other : Change)
        → IsChanged (G.dimensions before.now) (H.dimensions after.now) chunk what
        → IsChanged (G.dimensions before.now) (H.dimensions after.now) chunk other → what ≡ other }
{
    all_fit(before.array_shape());
    all_fit(after.array_shape());
}

/// There is a plan of each resize whose chunks are known, as [`changes`](crate::changes) and [`changed_chunks`](crate::changed_chunks) find them.
pub fn there_is_a_resize<G: ChunkGridTraits, H: ChunkGridTraits, E: ChunkKeyEncodingTraits>(
    before: &G,
    after: &H,
    encoding: &E,
)
    ensures { (uses : ChangedChunks) (include_unchanged : Bool) (chunks : List (List ℕ))
        → AreChangedChunks (G.dimensions before.now) (H.dimensions after.now) uses
        → AreChanged (G.dimensions before.now) (H.dimensions after.now) include_unchanged chunks
        → (changes : List ChunkChange) × IsResizePlan (G.dimensions before.now)
        (H.dimensions after.now) (E.is_key encoding.now) include_unchanged changes }
{
    all_fit(before.array_shape());
    all_fit(after.array_shape());
}

/// Sizes are at most the greatest number, as their type says.
pub fn all_fit(sizes: &[u64])
    ensures { AllFit sizes.now }
{}

/// A chunk that is kept holds the same elements as before, each at the same place.
pub fn a_kept_chunk_is_as_it_was<G: ChunkGridTraits, H: ChunkGridTraits>(before: &G, after: &H)
    ensures elements { (chunk index : List ℕ)
        → IsKept (G.dimensions before.now) (H.dimensions after.now) chunk
        → HasElementOf (G.dimensions before.now) chunk index
        ↔ HasElementOf (H.dimensions after.now) chunk index }
    ensures place { (chunk index place : List ℕ)
        → IsKept (G.dimensions before.now) (H.dimensions after.now) chunk
        → IsPlace (G.dimensions before.now) chunk index place
        ↔ IsPlace (H.dimensions after.now) chunk index place }
{}

/// An element that the array has before and after a resize lies in the same chunk, at the same place. That chunk is kept or rewritten. So no element is moved
/// from one chunk to another.
pub fn each_element_stays_in_its_chunk<G: ChunkGridTraits, H: ChunkGridTraits>(
    before: &G,
    after: &H,
)
    ensures chunk { AreResized (G.dimensions before.now) (H.dimensions after.now)
        → (chunk index : List ℕ) → AreBelow (array_sizes (G.dimensions before.now)) index
        → AreBelow (array_sizes (H.dimensions after.now)) index
        → InBox (G.dimensions before.now) chunk index ↔ InBox (H.dimensions after.now) chunk index }
    ensures place { AreResized (G.dimensions before.now) (H.dimensions after.now)
        → (chunk index : List ℕ) → HasElementOf (G.dimensions before.now) chunk index
        → HasElementOf (H.dimensions after.now) chunk index → (place : List ℕ)
        → IsPlace (G.dimensions before.now) chunk index place
        ↔ IsPlace (H.dimensions after.now) chunk index place }
    ensures what { (chunk index : List ℕ) → HasElementOf (G.dimensions before.now) chunk index
        → HasElementOf (H.dimensions after.now) chunk index → (what : Change)
        → IsChanged (G.dimensions before.now) (H.dimensions after.now) chunk what
        → (what ≡ Keep) ⊎ (what ≡ Rewrite) }
{}

/// The chunk of an element that the array no longer has is rewritten or deleted. The chunk of an element that it gets is rewritten or created. So no kept chunk
/// holds what leaves, or lacks what comes.
pub fn each_element_that_leaves_or_comes_changes_its_chunk<G: ChunkGridTraits, H: ChunkGridTraits>(
    before: &G,
    after: &H,
)
    ensures leaves { (chunk index : List ℕ) → HasElementOf (G.dimensions before.now) chunk index
        → (¬ HasElementOf (H.dimensions after.now) chunk index) → (what : Change)
        → IsChanged (G.dimensions before.now) (H.dimensions after.now) chunk what
        → (what ≡ Rewrite) ⊎ (what ≡ Delete) }
    ensures leaves_asked { (chunk index : List ℕ)
        → HasElementOf (G.dimensions before.now) chunk index
        → (¬ HasElementOf (H.dimensions after.now) chunk index)
        → IsAsked (G.dimensions before.now) (H.dimensions after.now) false chunk }
    ensures comes_asked { (chunk index : List ℕ)
        → HasElementOf (H.dimensions after.now) chunk index
        → (¬ HasElementOf (G.dimensions before.now) chunk index)
        → IsAsked (G.dimensions before.now) (H.dimensions after.now) false chunk }
    ensures comes { (chunk index : List ℕ) → HasElementOf (H.dimensions after.now) chunk index
        → (¬ HasElementOf (G.dimensions before.now) chunk index) → (what : Change)
        → IsChanged (G.dimensions before.now) (H.dimensions after.now) chunk what
        → (what ≡ Rewrite) ⊎ (what ≡ Create) }
{}

/// A chunk is marked exactly if the plan writes it and one of the listed keys is its own. So [`has`](crate::StoredChunks::has) returns `true` of no other chunk.
pub fn a_chunk_is_marked_if_its_key_is_listed<H: ChunkGridTraits, F: ChunkKeyEncodingTraits>(
    target: &StoredArray<H, F>,
)
    ensures { (targets keys : List (List ℕ)) (stored : StoredChunksValue)
        → Knows (H.dimensions target.now.grid) (F.is_key target.now.encoding) targets keys stored
        → (chunk : List ℕ) → IsTrue (has_mark stored chunk)
        ↔ (Contains targets chunk × IsListed (F.is_key target.now.encoding) keys chunk) }
{}

/// The byte ranges that are answered of a box, in their strided form, have the bytes of the box's elements and no other: they ascend, no byte is in
/// two, and no two can be joined. `None` is answered exactly where the box doesn't lie in the chunk, or isn't empty and no number counts the chunk's
/// bytes.
pub fn byte_ranges_have_the_bytes_of_the_box()
    ensures { (item : ℕ) → 0 < item → (order : MemoryOrderValue) → (edges start shape : List ℕ)
        → (found : Option ByteRangesValue) → option_map form_of found
        ≡ ranges_of item order edges start shape
        → FindsRanges item order edges start shape found }
{}
