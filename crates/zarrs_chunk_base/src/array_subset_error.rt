//! Why there is no box.
use crate::incompatible_dimensionality_error::IncompatibleDimensionalityError;
use thiserror::Error;

/// Why a start and a shape make no box, in the order in which faults are looked for.
#[derive(Clone, Copy, Debug, PartialEq, Eq, Error)]
pub enum ArraySubsetError {
    /// The shape has another length than the start.
    #[error(transparent)]
    Lengths(IncompatibleDimensionalityError),
    /// A range ends past the greatest number.
    #[error(transparent)]
    End(BoxEndError),
}

/// A box ends past 18446744073709551615.
#[derive(Clone, Copy, Debug, PartialEq, Eq, Error)]
#[error("box end exceeds 18446744073709551615 in dimension {dimension}")]
pub struct BoxEndError {
    /// The first dimension whose end is past the greatest number, counted from 0.
    pub dimension: usize,
}
