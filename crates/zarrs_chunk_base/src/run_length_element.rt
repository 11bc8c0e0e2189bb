//! The edge of one chunk, or of several in a row.
use std::alloc::AllocError;
use std::fmt;
use std::num::NonZeroU64;

/// The edge of one chunk, or one edge that so many chunks in a row have. Edges count elements of the array, from 1 to
/// 18446744073709551615.
///
/// Source: the `rectilinear` extension of zarr-extensions.
#[derive(Clone, Copy, Debug, PartialEq, Eq)]
pub enum RunLengthElement {
    /// The edge of one chunk.
    Single(NonZeroU64),
    /// An edge, and after it how many chunks have it: `[edge, count]`.
    Repeated([NonZeroU64; 2]),
}

impl RunLengthElement {
    ghost use Rattle.std.specs.Prelude.{◌≡◌, Ok};

    /// The same element. It never fails: the answer has the form of every part's `clone`.
    pub fn clone(&self) -> Result<RunLengthElement, AllocError>
        ensures { result ≡ Ok self.now }
    {
        Ok(*self)
    }
}

/// An edge as its number, a repeated one as `[5, 3]`.
impl fmt::Display for RunLengthElement {
    fn fmt<W: fmt::Write>(&self, f: &mut fmt::Formatter<W>) -> fmt::Result {
        match self {
            RunLengthElement::Single(edge) => write!(f, "{edge}"),
            RunLengthElement::Repeated([edge, count]) => write!(f, "[{edge}, {count}]"),
        }
    }
}
