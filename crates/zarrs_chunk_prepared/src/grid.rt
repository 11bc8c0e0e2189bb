//! A prepared grid, and what it answers of lists of numbers.
ghost use Rattle.std.specs.Prelude.{◌≡◌, ◌≢◌, [], ◌∷◌, IfErr, IfOk, List, MatchOption, MatchResult, OnErr, OnOk, cond, false, length};
ghost use Rattle.zarrs_chunk_base.specs.Grid.{Grid};
ghost use Rattle.zarrs_chunk_base.specs.Dimension.{grid_sizes};
ghost use Rattle.zarrs_chunk_base.specs.Refusal.{MatchRefusal, TellsLengths};
ghost use Rattle.zarrs_chunk_prepared.specs.LookedUp.{AreAsLong, AreRoomForHome, HasNoCover, IsCoverOf, IsHomeIn, TellsFirstOther};
ghost use Rattle.zarrs_chunk_prepared.specs.Prepared.{AreTables, IsPreparedGrid, Table};
ghost use Rattle.zarrs_chunks.specs.Subsets.{HasNoBox, HasNoHome, Spans};

use crate::axis::PreparedAxis;
use crate::boxes::{have_ranges, write_box};
use crate::covers::{count_from, find_chunks, write_sizes};
use crate::homes::{reach, write_home};
use crate::read::read_axes;
use std::alloc::{AllocError, Global};
use zarrs_chunk_base::{ArraySubset, IncompatibleDimensionalityError, Refusal};

/// The number by which those of a grid are told from others: `zarrgrid` in ASCII.
pub(crate) const GRID_MARK: u64 = 0x7a61_7272_6772_6964;

/// A prepared grid, as it was read of its numbers.
#[derive(Drop)]
pub struct PreparedGrid<'a> {
    axes: Vec<PreparedAxis<'a>>,
}

impl<'a> PreparedGrid<'a> {
    ghost use Rattle.zarrs_chunk_prepared.specs.seen.PreparedGrid.{IsReadOf, tables_of, width_of};

    /// The grid that numbers tell, for about so many look-ups. `None` where the first number isn't the mark, or there are more or fewer than the
    /// dimensions have; nothing else of them is tested.
    ///
    /// # Errors
    /// Out of memory.
    pub fn read(
        alloc: Global,
        numbers: &'a [u64],
        look_ups: usize,
    ) -> Result<Option<PreparedGrid<'a>>, AllocError>
        ensures grid { IfOk result (λ found. (grid : Grid) → IsPreparedGrid numbers.now grid
            → MatchOption found ⊥ (IsReadOf grid)) }
        ensures tables { IfOk result (λ found. MatchOption found
            ((tables : List Table) → ¬ AreTables numbers.now tables)
            (λ prepared. AreTables numbers.now (tables_of prepared))) }
    {
        let Some((head, rest)) = numbers.split_at_checked(2) else {
            return Ok(None);
        };
        if head[0] != GRID_MARK {
            return Ok(None);
        }
        let Some(axes) = read_axes(alloc, rest, look_ups)? else {
            return Ok(None);
        };
        if axes.len() as u64 != head[1] {
            return Ok(None);
        }
        Ok(Some(PreparedGrid { axes }))
    }

    /// The number of dimensions.
    pub fn dimensionality(&self) -> usize
        ensures { result ≡ width_of self.now }
    {
        self.axes.len()
    }

    /// Writes the chunk that holds an element, and the element's place there, and answers whether there is one: a number each for each dimension.
    /// `place` may be empty where the place isn't wanted. Where there is no chunk, nothing is written.
    ///
    /// # Errors
    /// A list has another length than there are dimensions. Nothing is written.
    pub fn find_home(
        &self,
        index: &[u64],
        chunk: &mut [u64],
        place: &mut [u64],
    ) -> Result<bool, IncompatibleDimensionalityError>
        ensures lengths { MatchResult result
            (λ _. AreRoomForHome (width_of self.now) index.now chunk.old place.old)
            (λ error. (¬ AreRoomForHome (width_of self.now) index.now chunk.old place.old)
            × TellsFirstOther (width_of self.now)
            (length index.now ∷ length chunk.old ∷ length place.old ∷ []) error) }
        ensures home { (grid : Grid) → IsReadOf grid self.now → IfOk result (λ found. cond found
            (IsHomeIn grid.dimensions index.now chunk.new place.new)
            (HasNoHome grid.dimensions index.now)) }
        ensures kept { IfOk result (λ found. found ≡ false
            → (chunk.new ≡ chunk.old) × (place.new ≡ place.old)) }
        ensures untouched { OnErr result ((chunk.new ≡ chunk.old) × (place.new ≡ place.old)) }
    {
        self.check(index.len())?;
        self.check(chunk.len())?;
        if !place.is_empty() {
            self.check(place.len())?;
        }
        if !reach(&self.axes, index) {
            return Ok(false);
        }
        write_home(&self.axes, index, chunk, place);
        Ok(true)
    }

    /// Writes where a chunk starts and how long it is, and answers whether it is a chunk that ends at 18446744073709551615 or before: a number each
    /// for each dimension. Where it isn't, nothing is written.
    ///
    /// # Errors
    /// A list has another length than there are dimensions. Nothing is written.
    pub fn find_box(
        &self,
        chunk: &[u64],
        origin: &mut [u64],
        shape: &mut [u64],
    ) -> Result<bool, IncompatibleDimensionalityError>
        ensures lengths { MatchResult result
            (λ _. AreAsLong (width_of self.now) chunk.now origin.old shape.old)
            (λ error. (¬ AreAsLong (width_of self.now) chunk.now origin.old shape.old)
            × TellsFirstOther (width_of self.now)
            (length chunk.now ∷ length origin.old ∷ length shape.old ∷ []) error) }
        ensures spans { (grid : Grid) → IsReadOf grid self.now → IfOk result (λ found. cond found
            (Spans grid.dimensions chunk.now chunk.now
            (record { start = origin.new; shape = shape.new }))
            (HasNoBox grid.dimensions chunk.now)) }
        ensures kept { IfOk result (λ found. found ≡ false
            → (origin.new ≡ origin.old) × (shape.new ≡ shape.old)) }
        ensures untouched { OnErr result ((origin.new ≡ origin.old) × (shape.new ≡ shape.old)) }
    {
        self.check_three(chunk.len(), origin.len(), shape.len())?;
        if !have_ranges(&self.axes, chunk) {
            return Ok(false);
        }
        write_box(&self.axes, chunk, origin, shape);
        Ok(true)
    }

    /// Writes the cover of a box of elements: the first of the chunks that hold some of them, and how many such chunks there are along each dimension.
    /// Answers whether the first and the last element lie in chunks; where one doesn't, nothing is written. The cover of an empty box is empty and
    /// begins at 0.
    ///
    /// # Errors
    /// The box or a list has another number of dimensions. Or out of memory. Nothing is written.
    pub fn find_cover(
        &self,
        alloc: Global,
        elements: &ArraySubset,
        first: &mut [u64],
        counts: &mut [u64],
    ) -> Result<bool, Refusal<IncompatibleDimensionalityError>>
        ensures lengths { IfOk result (λ _.
            AreAsLong (width_of self.now) elements.now.start first.old counts.old) }
        ensures refused { IfErr result (λ refusal. MatchRefusal refusal
            (λ error. (¬ AreAsLong (width_of self.now) elements.now.start first.old counts.old)
            × TellsFirstOther (width_of self.now)
            (length elements.now.start ∷ length first.old ∷ length counts.old ∷ []) error)
            (λ _. AreAsLong (width_of self.now) elements.now.start first.old counts.old)) }
        ensures cover { (grid : Grid) → IsReadOf grid self.now → IfOk result (λ found. cond found
            (IsCoverOf grid.dimensions elements.now
            (record { start = first.new; shape = counts.new }))
            (HasNoCover grid.dimensions elements.now)) }
        ensures kept { IfOk result (λ found. found ≡ false
            → (first.new ≡ first.old) × (counts.new ≡ counts.old)) }
        ensures untouched { OnErr result ((first.new ≡ first.old) × (counts.new ≡ counts.old)) }
    {
        self.check_three(elements.dimensionality(), first.len(), counts.len())
            .map_err(Refusal::Refused)?;
        let Some(last) = elements.end_inc(alloc)? else {
            first.fill(0);
            counts.fill(0);
            return Ok(true);
        };
        if !find_chunks(&self.axes, elements.start(), &last, first, counts) {
            return Ok(false);
        }
        count_from(first, counts);
        Ok(true)
    }

    /// Writes how many chunks are counted along each dimension.
    ///
    /// # Errors
    /// The list has another length than there are dimensions. Nothing is written.
    pub fn write_grid_shape(&self, sizes: &mut [u64]) -> Result<(), IncompatibleDimensionalityError>
        ensures lengths { MatchResult result (λ _. length sizes.old ≡ width_of self.now)
            (λ error. (length sizes.old ≢ width_of self.now)
            × TellsLengths (length sizes.old) (width_of self.now) error) }
        ensures sizes { (grid : Grid) → IsReadOf grid self.now
            → OnOk result (sizes.new ≡ grid_sizes grid.dimensions) }
        ensures untouched { OnErr result (sizes.new ≡ sizes.old) }
    {
        self.check(sizes.len())?;
        write_sizes(&self.axes, sizes);
        Ok(())
    }

    /// Sees that three lists have a number for each dimension.
    ///
    /// # Errors
    /// One has more or fewer.
    fn check_three(
        &self,
        one: usize,
        other: usize,
        third: usize,
    ) -> Result<(), IncompatibleDimensionalityError>
        ensures { MatchResult result
            (λ _. (one ≡ width_of self.now) × (other ≡ width_of self.now)
            × (third ≡ width_of self.now))
            (λ error. (¬ ((one ≡ width_of self.now) × (other ≡ width_of self.now)
            × (third ≡ width_of self.now)))
            × TellsFirstOther (width_of self.now) (one ∷ other ∷ third ∷ []) error) }
    {
        self.check(one)?;
        self.check(other)?;
        self.check(third)
    }

    /// Sees that a list has a number for each dimension.
    ///
    /// # Errors
    /// It has more or fewer.
    fn check(&self, length: usize) -> Result<(), IncompatibleDimensionalityError>
        ensures { MatchResult result (λ _. length ≡ width_of self.now)
            (λ error. (length ≢ width_of self.now)
            × TellsLengths length (width_of self.now) error) }
    {
        if length == self.axes.len() {
            Ok(())
        } else {
            Err(IncompatibleDimensionalityError::new(length, self.axes.len()))
        }
    }
}
