//! Why runs can't be made.
use thiserror::Error;

/// The elements make no edges of a dimension.
#[derive(Clone, Copy, Debug, PartialEq, Eq, Error)]
pub enum RunEdgesError {
    /// There are no elements.
    #[error("no chunk edges")]
    NoElements,
    /// The sum of the edges passes 18446744073709551615.
    #[error("sum of chunk edges exceeds 18446744073709551615")]
    SumTooLarge,
}
