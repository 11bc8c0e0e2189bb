//! The boxes of a copy from one array to another, and what of it is stored.
//!
//! | Module | What it holds |
//! |---|---|
//! | `array_chunks` | the chunks that hold elements of an array |
//! | `chunk_elements` | the elements of an array that chunks hold |
//! | `moved` | whether a box lies in an array; boxes that are shifted |
//! | `region` | where the copy of a region goes |
//! | `region_error` | why a region can't be copied |
//! | `stored_chunks` | which chunks of the target a store has already, by the keys that it lists |

pub(crate) mod array_chunks;
pub(crate) mod chunk_elements;
pub(crate) mod moved;
pub(crate) mod region;
pub(crate) mod region_error;
pub(crate) mod stored_chunks;
