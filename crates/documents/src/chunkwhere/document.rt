//! The program's document.
ghost use Rattle.std.specs.Prelude.{◌≡◌, IfOk, map, option_map, string_bytes};
ghost use Rattle.serde_json.specs.View.{view};
ghost use Rattle.documents.specs.Reading.{IsReadOr};
ghost use Rattle.documents.specs.chunkwhere.Document.{document_in, document_of, form_in, indices_in, keys_in, lists_in};
ghost use Rattle.documents.specs.declared.document_fault.DocumentFault.TheVariants.{Memory};

use crate::document::{check_members, read_object, read_shape, required_member, take_stored};
use crate::document_fault::DocumentFault;
use crate::storage_metadata::StorageMetadata;
use serde_json::Value;
use std::alloc::{AllocError, Global};
use zarrs_chunk_base::{TreeForm, read_list};

/// How an array is stored, the indices of the elements to look up, and the keys to read back.
#[derive(Drop)]
pub(crate) struct Document {
    pub(crate) shape: Vec<u64>,
    pub(crate) stored: StorageMetadata,
    /// The index lists, as they stand in the tree of the document.
    pub(crate) indices: Vec<Value>,
    /// The texts that may be keys of chunks.
    pub(crate) keys: Vec<String>,
}

/// The document that an input is the text of, or the first fault.
pub(crate) fn parse(alloc: Global, input: &[u8]) -> Result<Document, DocumentFault>
    ensures { IsReadOr Memory document_of (document_in input.now) result }
{
    let tree = read_object(alloc, input)?;
    document_from(alloc, tree)
}

/// The document that an object stands for, or the first fault.
fn document_from(alloc: Global, mut tree: Value) -> Result<Document, DocumentFault>
    ensures { IsReadOr Memory document_of (form_in (view tree)) result }
{
    check_members(&tree)?;
    required_member(&tree, "indices", "indices")?;
    let shape = read_shape(alloc, &tree, "shape")?;
    let stored = take_stored(alloc, &mut tree, "chunk_grid", "chunk_key_encoding")?;
    let keys = read_keys(alloc, &tree)?;
    let Some(indices) = take_indices(alloc, tree)? else {
        return Err(DocumentFault::WrongValue("indices"));
    };
    let Some(keys) = keys else {
        return Err(DocumentFault::WrongValue("keys"));
    };
    Ok(Document {
        shape,
        stored,
        indices,
        keys,
    })
}

/// The keys of a document's tree, which may have no such member; `None` where that isn't a list of texts.
fn read_keys(alloc: Global, tree: &Value) -> Result<Option<Vec<String>>, AllocError>
    ensures { IfOk result (λ o. option_map (λ keys. map string_bytes keys.items) o
        ≡ keys_in (view tree.now)) }
{
    match tree.get("keys") {
        Some(keys) => Vec::from_tree(alloc, keys),
        None => Ok(Some(Vec::new(alloc))),
    }
}

/// The index lists of a document's tree; `None` where they aren't lists of sizes.
fn take_indices(alloc: Global, mut tree: Value) -> Result<Option<Vec<Value>>, AllocError>
    ensures { IfOk result (λ o. option_map (λ lists. lists_in lists.items) o
        ≡ indices_in (view tree)) }
{
    let Some(indices) = tree.get_mut("indices") else {
        return Ok(None);
    };
    let Value::Array(lists) = indices.take() else {
        return Ok(None);
    };
    let mut numbers = Vec::new(alloc);
    for list in &lists {
        numbers.clear();
        if !read_list::<u64>(alloc, list, &mut numbers)? {
            return Ok(None);
        }
    }
    Ok(Some(lists))
}
