//! Reading a box of elements.
//!
//! | Module | What it holds |
//! |---|---|
//! | `clipping` | `clip`: a box of elements without those that the array doesn't have |
//! | `numbered_parts` | `some_parts`: some of the parts of that plan, from any one on |
//! | `plan` | `parts`: the plan of reading a box of elements |
//! | `walk` | the walk over the parts |

pub(crate) mod clipping;
pub(crate) mod numbered_parts;
pub(crate) mod plan;
pub(crate) mod walk;
