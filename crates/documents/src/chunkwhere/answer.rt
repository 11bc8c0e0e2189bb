//! The text that answers a document.
ghost use Rattle.std.specs.Prelude.{◌≡◌, ◌≢◌, ◌⊎◌, ℕ, List, ◌++◌, codes, length, map, IfOk, MatchOption, MatchResult, OnOk, string_bytes};
ghost use Rattle.std.specs.List.{AllByRecursion};
ghost use Rattle.zarrs_chunk_base.specs.Refusal.{OrMemory, TellsLengths};
ghost use Rattle.zarrs_chunk_keys.specs.Numeral.{IsNumerals};
ghost use Rattle.documents.specs.Reading.{IsReadOr};
ghost use Rattle.documents.specs.chunkwhere.Answer.{HasLengthOf, IsIndexFault, answer_of};
ghost use Rattle.documents.specs.chunkwhere.Document.{document_of, lists_in};
ghost use Rattle.documents.specs.chunkwhere.Output.{AreLines, IsKeyLine, IsKeyOf, IsLine};
ghost use Rattle.documents.specs.declared.chunkwhere.run_fault.RunFault.TheVariants.{Memory};

use crate::chunkwhere::RunFault;
use crate::chunkwhere::document::Document;
use serde_json::Value;
use std::alloc::{AllocError, Global};
use zarrs_chunk_base::{
    ArrayIndices, IncompatibleDimensionalityError, Refusal, StoreKey, read_list,
};
use zarrs_chunk_keys::{ChunkKeyEncodingTraits, append_joined, append_numerals};
use zarrs_chunks::{ChunkGridTraits, Home};

/// The whole text that answers a document, or the first fault.
pub(crate) fn answer(alloc: Global, document: Document) -> Result<String, RunFault>
    ensures { IsReadOr Memory string_bytes (answer_of (document_of document)) result }
{
    let Document {
        shape,
        stored,
        indices,
        keys,
    } = document;
    let array = stored.open(alloc, &shape)?;
    let mut text = lines(alloc, &array.grid, &array.encoding, indices)?;
    let dimensionality = array.grid.dimensionality();
    append_key_lines(alloc, &mut text, &array.encoding, dimensionality, keys)?;
    Ok(text)
}

/// A line for each index list, which is given back once it is read.
fn lines<G: ChunkGridTraits, E: ChunkKeyEncodingTraits>(
    alloc: Global,
    grid: &G,
    encoding: &E,
    indices: Vec<Value>,
) -> Result<String, RunFault>
    ensures { MatchResult result
        (λ text. AllByRecursion (HasLengthOf (G.dimensions grid.now)) (lists_in indices.items)
        × AreLines (IsLine (G.dimensions grid.now) (E.is_key encoding.now))
        (lists_in indices.items) (string_bytes text))
        (λ fault. (fault ≡ Memory)
        ⊎ IsIndexFault (G.dimensions grid.now) (lists_in indices.items) fault) }
{
    let mut text = String::new(alloc);
    let mut index = Vec::new(alloc);
    let mut home = Home::new(alloc);
    for (position, list) in indices.into_iter().enumerate() {
        index.clear();
        // It is a list of sizes, as its document has seen.
        read_list(alloc, &list, &mut index)?;
        drop(list);
        match append_line(&mut text, grid, encoding, &index, &mut home) {
            Ok(()) => {}
            Err(Refusal::Refused(error)) => return Err(RunFault::Index(position, error)),
            Err(Refusal::Memory(_)) => return Err(RunFault::Memory),
        }
    }
    Ok(text)
}

/// Appends the line of an index list: the key of its chunk and its place there, or `-` where no
/// chunk holds it. `home` is for its memory alone.
fn append_line<G: ChunkGridTraits, E: ChunkKeyEncodingTraits>(
    text: &mut String,
    grid: &G,
    encoding: &E,
    index: &[u64],
    home: &mut Home,
) -> Result<(), Refusal<IncompatibleDimensionalityError>>
    ensures { MatchResult result
        (λ _. HasLengthOf (G.dimensions grid.now) index.now
        × (line : List ℕ) × IsLine (G.dimensions grid.now) (E.is_key encoding.now) index.now line
        × (string_bytes text.new ≡ string_bytes text.old ++ line))
        (OrMemory (λ e. (length index.now ≢ length (G.dimensions grid.now))
        × TellsLengths (length index.now) (length (G.dimensions grid.now)) e)) }
{
    if !grid.find_home(index, home)? {
        text.push_str("-\n")?;
        return Ok(());
    }
    append_key_and_place(text, encoding, home)?;
    Ok(())
}

/// Appends the key of a chunk and a place in it.
fn append_key_and_place<E: ChunkKeyEncodingTraits>(
    text: &mut String,
    encoding: &E,
    home: &Home,
) -> Result<(), AllocError>
    ensures { OnOk result ((key : List ℕ) × (numbers : List ℕ)
        × E.is_key encoding.now home.now.chunk.items key
        × IsNumerals 32 home.now.element.items numbers × (string_bytes text.new
        ≡ string_bytes text.old ++ (key ++ numbers ++ codes "\n"))) }
{
    encoding.append_key(text, &home.chunk)?;
    append_numerals(text, ' ', &home.element)?;
    text.push_str("\n")?;
    Ok(())
}

/// Appends a line for each key: the numbers of its chunk, or `-` if no chunk with this many numbers has it.
fn append_key_lines<E: ChunkKeyEncodingTraits>(
    alloc: Global,
    text: &mut String,
    encoding: &E,
    dimensionality: usize,
    keys: Vec<String>,
) -> Result<(), AllocError>
    ensures { OnOk result ((lines : List ℕ)
        × AreLines (IsKeyLine dimensionality (E.is_key encoding.now))
        (map string_bytes keys.items) lines
        × (string_bytes text.new ≡ string_bytes text.old ++ lines)) }
{
    for key in keys {
        append_key_line(alloc, text, encoding, dimensionality, key)?;
    }
    Ok(())
}

/// Appends the line of a key.
fn append_key_line<E: ChunkKeyEncodingTraits>(
    alloc: Global,
    text: &mut String,
    encoding: &E,
    dimensionality: usize,
    key: String,
) -> Result<(), AllocError>
    ensures { OnOk result ((line : List ℕ)
        × IsKeyLine dimensionality (E.is_key encoding.now) (string_bytes key) line
        × (string_bytes text.new ≡ string_bytes text.old ++ line)) }
{
    match chunk_of_key(alloc, encoding, dimensionality, key)? {
        Some(chunk) => append_joined(text, ' ', &chunk)?,
        None => text.push_str("-")?,
    }
    text.push_str("\n")?;
    Ok(())
}

/// The chunk with this many numbers whose key a text is; `None` if there is none. A text that is no store key is the key of none.
fn chunk_of_key<E: ChunkKeyEncodingTraits>(
    alloc: Global,
    encoding: &E,
    dimensionality: usize,
    key: String,
) -> Result<Option<ArrayIndices>, AllocError>
    ensures { IfOk result (λ found. MatchOption found
        ((chunk : List ℕ) → ¬ IsKeyOf (E.is_key encoding.now) dimensionality (string_bytes key) chunk)
        (λ chunk. IsKeyOf (E.is_key encoding.now) dimensionality (string_bytes key) chunk.items)) }
{
    match StoreKey::new(key) {
        Ok(key) => encoding.decode(alloc, dimensionality, &key),
        Err(_) => Ok(None),
    }
}
