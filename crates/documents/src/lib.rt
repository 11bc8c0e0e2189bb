//! Documents of an array: what they have in common, and the program that answers one, over any reader and writers.
//!
//! | Module | What it holds |
//! |---|---|
//! | `chunkwhere` | where the elements of an array are stored |
//! | `document`, `document_fault` | a document's object, and the members that say what an array is |
//! | `storage_metadata` | how an array is stored: the grid and the encoding that its metadata give |
#![tactic(auto)]

pub mod chunkwhere;
mod document;
mod document_fault;
mod storage_metadata;

pub use document::{
    check_members, optional_member, read_object, read_shape, required_member, take_stored,
};
pub use document_fault::DocumentFault;
pub use storage_metadata::{CreateFault, StorageMetadata};
