//! Lists of numbers for the dimensions of a grid, of another length.
ghost use Rattle.std.specs.Prelude.{◌≡◌};
ghost use Rattle.zarrs_chunk_base.specs.Refusal.{expected_length, given_length, TellsLengths};

use thiserror::Error;

/// A list has another length than the grid has dimensions.
#[derive(Clone, Copy, Debug, PartialEq, Eq, Error)]
#[error("incompatible dimensionality {given}, expected {expected}")]
pub struct IncompatibleDimensionalityError {
    given: usize,
    expected: usize,
}

impl IncompatibleDimensionalityError {
    /// An error about a list of `given` numbers where `expected` belong.
    pub fn new(given: usize, expected: usize) -> Self
        ensures { TellsLengths given expected result }
    {
        IncompatibleDimensionalityError { given, expected }
    }

    /// The length of the list.
    pub fn given(&self) -> usize
        ensures { result ≡ given_length self.now }
    {
        self.given
    }

    /// The number of dimensions.
    pub fn expected(&self) -> usize
        ensures { result ≡ expected_length self.now }
    {
        self.expected
    }
}
