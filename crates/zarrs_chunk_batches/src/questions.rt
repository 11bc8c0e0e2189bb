//! What is asked of a prepared grid, list by list.
ghost use Rattle.std.specs.Prelude.{◌≡◌, ◌⊎◌, cond, IfErr, IfOk};
ghost use Rattle.zarrs_chunk_base.specs.ArraySubset.{IsBox};
ghost use Rattle.zarrs_chunk_base.specs.Grid.{Grid};
ghost use Rattle.zarrs_chunk_batches.specs.Batch.{list_at};
ghost use Rattle.zarrs_chunk_batches.specs.GridCalls.{box_asked};
ghost use Rattle.zarrs_chunk_batches.specs.declared.codes.Fault.TheVariants.{Memory, NotBox};
ghost use Rattle.zarrs_chunk_batches.specs.seen.Lists.{HasList};
ghost use Rattle.zarrs_chunk_prepared.specs.LookedUp.{HasNoCover, IsCoverOf, IsHomeIn};
ghost use Rattle.zarrs_chunk_prepared.specs.seen.PreparedGrid.{IsReadOf, width_of};
ghost use Rattle.zarrs_chunks.specs.Subsets.{HasNoBox, HasNoHome, Spans};

use crate::batch::Questions;
use crate::codes::Fault;
use crate::lists::list_of;
use std::alloc::Global;
use zarrs_chunk_base::ArraySubset;
use zarrs_chunk_prepared::PreparedGrid;

/// Where elements lie: the chunk of each, and the place there where it is asked for.
#[derive(Drop)]
pub(crate) struct Homes<'a> {
    pub(crate) grid: PreparedGrid<'a>,
    /// The index lists of the elements.
    pub(crate) indices: &'a [u64],
    /// Whether places are asked for.
    pub(crate) with_places: bool,
}

impl Questions for Homes<'_> {
    ghost widths = { λ homes. (
      width_of homes.grid,
      cond homes.with_places (width_of homes.grid) 0,
    ) };

    ghost given = { λ homes number. HasList (width_of homes.grid) homes.indices.now number };

    ghost is_question = { λ _ _. Unit {0} };

    ghost fault = { λ _. Memory };

    ghost answered = { λ homes number chunk place. (grid : Grid) → IsReadOf grid homes.grid
        → IsHomeIn grid.dimensions
        (list_at (width_of homes.grid) homes.indices.now number) chunk place };

    ghost unanswered = { λ homes number. (grid : Grid) → IsReadOf grid homes.grid
        → HasNoHome grid.dimensions (list_at (width_of homes.grid) homes.indices.now number) };

    fn widths(&self) -> (usize, usize) {
        let width = self.grid.dimensionality();
        (width, if self.with_places { width } else { 0 })
    }

    fn answer(
        &self,
        _alloc: Global,
        number: usize,
        first: &mut [u64],
        second: &mut [u64],
    ) -> Result<bool, Fault> {
        let index = list_of(self.indices, self.grid.dimensionality(), number);
        Ok(self.grid.find_home(index, first, second)?)
    }
}

/// The boxes of chunks: the origin of each, and its shape.
#[derive(Drop)]
pub(crate) struct ChunkBoxes<'a> {
    pub(crate) grid: PreparedGrid<'a>,
    pub(crate) chunks: &'a [u64],
}

impl Questions for ChunkBoxes<'_> {
    ghost widths = { λ boxes. (width_of boxes.grid, width_of boxes.grid) };

    ghost given = { λ boxes number. HasList (width_of boxes.grid) boxes.chunks.now number };

    ghost is_question = { λ _ _. Unit {0} };

    ghost fault = { λ _. Memory };

    ghost answered = { λ boxes number origin shape. (grid : Grid) → IsReadOf grid boxes.grid
        → Spans grid.dimensions (list_at (width_of boxes.grid) boxes.chunks.now number)
        (list_at (width_of boxes.grid) boxes.chunks.now number) (record { start = origin; shape = shape }) };

    ghost unanswered = { λ boxes number. (grid : Grid) → IsReadOf grid boxes.grid
        → HasNoBox grid.dimensions (list_at (width_of boxes.grid) boxes.chunks.now number) };

    fn widths(&self) -> (usize, usize) {
        (self.grid.dimensionality(), self.grid.dimensionality())
    }

    fn answer(
        &self,
        _alloc: Global,
        number: usize,
        first: &mut [u64],
        second: &mut [u64],
    ) -> Result<bool, Fault> {
        let chunk = list_of(self.chunks, self.grid.dimensionality(), number);
        Ok(self.grid.find_box(chunk, first, second)?)
    }
}

/// The covers of boxes of elements: the first chunk of each, and how many chunks it has along each dimension.
#[derive(Drop)]
pub(crate) struct Covers<'a> {
    pub(crate) grid: PreparedGrid<'a>,
    pub(crate) starts: &'a [u64],
    pub(crate) shapes: &'a [u64],
}

impl Questions for Covers<'_> {
    ghost widths = { λ covers. (width_of covers.grid, width_of covers.grid) };

    ghost given = { λ covers number. HasList (width_of covers.grid) covers.starts.now number
        × HasList (width_of covers.grid) covers.shapes.now number };

    ghost is_question = { λ covers number.
        IsBox (box_asked (width_of covers.grid) covers.starts.now covers.shapes.now number) };

    ghost fault = { λ _. NotBox };

    ghost answered = { λ covers number start shape. (grid : Grid) → IsReadOf grid covers.grid
        → IsCoverOf grid.dimensions
        (box_asked (width_of covers.grid) covers.starts.now covers.shapes.now number)
        (record { start = start; shape = shape }) };

    ghost unanswered = { λ covers number. (grid : Grid) → IsReadOf grid covers.grid
        → HasNoCover grid.dimensions
        (box_asked (width_of covers.grid) covers.starts.now covers.shapes.now number) };

    fn widths(&self) -> (usize, usize) {
        (self.grid.dimensionality(), self.grid.dimensionality())
    }

    fn answer(
        &self,
        alloc: Global,
        number: usize,
        first: &mut [u64],
        second: &mut [u64],
    ) -> Result<bool, Fault> {
        let start = list_of(self.starts, self.grid.dimensionality(), number);
        let shape = list_of(self.shapes, self.grid.dimensionality(), number);
        let elements = box_of(alloc, start, shape)?;
        Ok(self.grid.find_cover(alloc, &elements, first, second)?)
    }
}

/// The box of a start and a shape.
///
/// # Errors
/// It ends past 18446744073709551615, or the two have different lengths; or out of memory.
pub(crate) fn box_of(alloc: Global, start: &[u64], shape: &[u64]) -> Result<ArraySubset, Fault>
    ensures value { IfOk result (λ subset. subset
        ≡ record { start = start.now; shape = shape.now }) }
    ensures is_box { IfOk result IsBox }
    ensures refused { IfErr result (λ fault. (fault ≡ Memory) ⊎ ((fault ≡ NotBox)
        × ¬ IsBox (record { start = start.now; shape = shape.now }))) }
{
    let start = Vec::from_slice(alloc, start)?;
    let shape = Vec::from_slice(alloc, shape)?;
    match ArraySubset::new_with_start_shape(start, shape) {
        Ok(subset) => Ok(subset),
        Err(_) => Err(Fault::NotBox),
    }
}
