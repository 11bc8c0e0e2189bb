//! Which bytes of an uncompressed chunk hold the elements of a box.
//!
//! | Module | What it holds |
//! |---|---|
//! | `range_starts` | where byte ranges begin, one after another |
//! | `ranges` | `byte_ranges`: which bytes of an uncompressed chunk hold the elements of a box |

pub(crate) mod range_starts;
pub(crate) mod ranges;
