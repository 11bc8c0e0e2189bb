//! What the documents of the programs have in common.
ghost use Rattle.std.specs.Prelude.{◌≡◌, ◌≢◌, ℕ, List, IfOk, None, codes, option_map};
ghost use Rattle.serde_json.specs.Find.{get};
ghost use Rattle.serde_json.specs.View.{view};
ghost use Rattle.zarrs_chunk_base.specs.Metadata.{extension_of};
ghost use Rattle.documents.specs.Document.{extension_in, in_form as form_in, members_in, object_in, optional_in, required, shape_in, stored_in};
ghost use Rattle.documents.specs.Reading.{IsRead, IsReadOr};
ghost use Rattle.documents.specs.StorageMetadata.{stored_of};
ghost use Rattle.documents.specs.declared.document_fault.DocumentFault.TheVariants.{Memory};

use crate::document_fault::DocumentFault;
use crate::storage_metadata::StorageMetadata;
use serde_json::Value;
use std::alloc::Global;
use zarrs_chunk_base::{MetadataV3, Refusal, TreeForm, read_json, take_member};

/// The object that an input is the text of.
///
/// # Errors
/// The input is no JSON, or no object; or out of memory.
pub fn read_object(alloc: Global, input: &[u8]) -> Result<Value, DocumentFault>
    ensures { IsReadOr Memory view (object_in input.now) result }
{
    match read_json(alloc, input)? {
        Some(tree) if tree.is_object() => Ok(tree),
        Some(_) => Err(DocumentFault::NotObject),
        None => Err(DocumentFault::NotJson),
    }
}

/// A member that has to be there. A fault calls it by the name that is given.
///
/// # Errors
/// It is missing.
pub fn required_member<'t>(
    tree: &'t Value,
    field: &str,
    name: &'static str,
) -> Result<&'t Value, DocumentFault>
    ensures { IsRead (λ value. view value.now) (required field.now name.now (view tree.now)) result }
{
    tree.get(field).ok_or(DocumentFault::Missing(name))
}

/// Refuses a tree without one of the members that say what an array is: `shape`, `chunk_grid` and `chunk_key_encoding`.
///
/// # Errors
/// The first of them that is missing.
pub fn check_members(tree: &Value) -> Result<(), DocumentFault>
    ensures { IsRead (λ done. done) (members_in (view tree.now)) result }
{
    required_member(tree, "shape", "shape")?;
    required_member(tree, "chunk_grid", "chunk_grid")?;
    required_member(tree, "chunk_key_encoding", "chunk_key_encoding")?;
    Ok(())
}

/// A value of a form. A fault calls it by the name that is given.
///
/// # Errors
/// It isn't of the form; or out of memory.
fn in_form<T: TreeForm>(alloc: Global, tree: &Value, name: &'static str) -> Result<T, DocumentFault>
    ensures { IsReadOr Memory T.seen (form_in T.form name.now (view tree.now)) result }
{
    match T::from_tree(alloc, tree)? {
        Some(value) => Ok(value),
        None => Err(DocumentFault::WrongValue(name)),
    }
}

/// The value of a member, if there is one.
///
/// # Errors
/// It isn't of the form; or out of memory.
pub fn optional_member<T: TreeForm>(
    alloc: Global,
    tree: &Value,
    field: &'static str,
) -> Result<Option<T>, DocumentFault>
    ensures { IsReadOr Memory (option_map T.seen)
        (optional_in T.form field.now (view tree.now)) result }
{
    match tree.get(field) {
        Some(member) => Ok(Some(in_form(alloc, member, field)?)),
        None => Ok(None),
    }
}

/// The shape of a tree's array, its member `shape`. A fault calls it by the name that is given.
///
/// # Errors
/// `shape` is missing, or no list of sizes; or out of memory.
pub fn read_shape(
    alloc: Global,
    tree: &Value,
    name: &'static str,
) -> Result<Vec<u64>, DocumentFault>
    ensures { IsReadOr Memory (λ shape. shape.items) (shape_in name.now (view tree.now)) result }
{
    in_form(alloc, required_member(tree, "shape", name)?, name)
}

/// The chunk grid and the chunk key encoding of a tree, which are taken out of it. Their faults call them by the names that are given.
///
/// # Errors
/// The grid is missing; then, the encoding; then the first of the two that is no extension's metadata; or out of memory.
pub fn take_stored(
    alloc: Global,
    tree: &mut Value,
    grid_name: &'static str,
    encoding_name: &'static str,
) -> Result<StorageMetadata, DocumentFault>
    ensures stored { IsReadOr Memory stored_of
        (stored_in grid_name.now encoding_name.now (view tree.old)) result }
    ensures grid_gone { IfOk result (λ _. get (codes "chunk_grid") (view tree.new) ≡ None) }
    ensures encoding_gone { IfOk result
        (λ _. get (codes "chunk_key_encoding") (view tree.new) ≡ None) }
    ensures others { IfOk result (λ _. (other : List ℕ) → other ≢ codes "chunk_grid"
        → other ≢ codes "chunk_key_encoding"
        → get other (view tree.new) ≡ get other (view tree.old)) }
{
    let chunk_grid = take_required(tree, "chunk_grid", grid_name)?;
    let chunk_key_encoding = take_required(tree, "chunk_key_encoding", encoding_name)?;
    Ok(StorageMetadata {
        chunk_grid: metadata_of(alloc, chunk_grid, grid_name)?,
        chunk_key_encoding: metadata_of(alloc, chunk_key_encoding, encoding_name)?,
    })
}

/// A member that has to be there, which is taken out of the tree, so that a long list of edges isn't copied. A fault calls it by the name that is
/// given.
///
/// # Errors
/// It is missing.
fn take_required(tree: &mut Value, field: &str, name: &'static str) -> Result<Value, DocumentFault>
    ensures value { IsRead view (required field.now name.now (view tree.old)) result }
    ensures gone { get field.now (view tree.new) ≡ None }
    ensures others { (other : List ℕ) → other ≢ field.now
        → get other (view tree.new) ≡ get other (view tree.old) }
{
    take_member(tree, field).ok_or(DocumentFault::Missing(name))
}

/// A value as an extension's metadata. A fault calls it by the name that is given.
///
/// # Errors
/// The first fault of its tree; or out of memory.
fn metadata_of(alloc: Global, value: Value, name: &'static str) -> Result<MetadataV3, DocumentFault>
    ensures { IsReadOr Memory extension_of (extension_in name.now (view value)) result }
{
    match MetadataV3::from_value(alloc, value) {
        Ok(metadata) => Ok(metadata),
        Err(Refusal::Refused(error)) => Err(DocumentFault::Metadata(name, error)),
        Err(Refusal::Memory(_)) => Err(DocumentFault::Memory),
    }
}
