//! What holds of the numbers that are written.
ghost use Rattle.std.specs.Prelude.{◌≡◌, ◌+◌, ◌*◌, ℕ, List, length};
ghost use Rattle.std.specs.List.{sum};
ghost use Rattle.zarrs_chunk_base.specs.Dimension.{InEach};
ghost use Rattle.zarrs_chunk_base.specs.Grid.{Grid};
ghost use Rattle.zarrs_chunk_prepared.specs.Prepared.{HasRunCount, IsWrittenGrid};

/// The numbers of a grid are as many whenever they are written: two, four for each dimension, and three for each run.
pub fn a_grid_has_so_many_numbers()
    ensures { (grid : Grid) (numbers runs : List ℕ) → IsWrittenGrid numbers grid
        → InEach HasRunCount grid.dimensions runs grid.edges
        → length numbers ≡ 2 + (4 * length grid.dimensions + 3 * sum runs) }
{}
