//! Chunk key encodings: under which key each chunk of an array is stored.
//!
//! [`ChunkKeyEncodingTraits`] says what every encoding answers, the key of a chunk and the chunk of a key; each proves that equal keys of
//! equally long lists of chunk numbers come from equal lists. A call that needs memory can answer that there is none. It takes the allocator,
//! except for a few that `docs/MEMORY.md` lists, as `clone`. `CALLING.md` has callers.
//!
//! | Encoding | Separator | Key of the chunk `[3, 2, 16]` |
//! |---|---|---|
//! | [`DefaultChunkKeyEncoding`] | `/` | `c/3/2/16` |
//! | [`V2ChunkKeyEncoding`] | `.` | `3.2.16` |
//! | [`DefaultSuffixChunkKeyEncoding`], suffix `.tiff` | `.` | `c.3.2.16.tiff` |
//!
//! | Module | What it holds |
//! |---|---|
//! | `chunk_key_encoding` | the trait of all encodings |
//! | `chunk_key_encoding::default`, `v2`, `default_suffix` | the encodings |
//! | `chunk_key_encoding::of_kind` | what all of these answer |
//! | `chunk_key_encoding::named` | an encoding of any of these kinds, by its extension's name |
//! | `chunk_key_suffix_error` | a text that is no suffix |
//! | `cut_back` | how a failed append leaves a text |
//! | `numerals` | numbers as decimal text |
//! | `read_numerals` | numbers that are read from decimal text |
//! | `laws` | what holds of the encodings |
#![tactic(auto)]

mod chunk_key_encoding;
mod chunk_key_suffix_error;
mod cut_back;
pub mod laws;
mod numerals;
mod read_numerals;

pub use chunk_key_encoding::ChunkKeyEncodingTraits;
pub use chunk_key_encoding::default::DefaultChunkKeyEncoding;
pub use chunk_key_encoding::default_suffix::DefaultSuffixChunkKeyEncoding;
pub use chunk_key_encoding::named::ChunkKeyEncoding;
pub use chunk_key_encoding::of_kind::EncodingOfKind;
pub use chunk_key_encoding::v2::V2ChunkKeyEncoding;
pub use chunk_key_suffix_error::ChunkKeySuffixError;
pub use numerals::{append_joined, append_numerals};
