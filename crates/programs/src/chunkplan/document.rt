//! The program's document.
ghost use Rattle.std.specs.Prelude.{◌≡◌};
ghost use Rattle.programs.specs.chunkplan.Common.{option_map, view, IsRead, IsReadOr, stored_of, Memory, Unknown, UnknownOfTarget};
ghost use Rattle.documents.specs.declared.document_fault.DocumentFault.TheVariants.{Memory as DocumentMemory};
ghost use Rattle.programs.specs.chunkplan.Document.{checked_in, copying_in, document_in, document_of, form_in, known_in, object_of, of_array};
ghost use Rattle.programs.specs.chunkplan.Document.{into_box, of_type, rechunking_in, region_in, selection_of, target_stored_in, task_in, task_of};
ghost use Rattle.programs.specs.chunkplan.Document.{wanted_in, wanted_of};
ghost use Rattle.programs.specs.chunkplan.Known.{known_members, zarr_json_members};

use crate::chunkplan::RunFault;
use crate::chunkplan::known_members::{DOCUMENT, ZARR_JSON, agree, check_known};
use crate::chunkplan::member_rules::check_rules;
use crate::chunkplan::members::{member_box, member_flag, member_numbers, member_share, read_box};
use crate::chunkplan::ranges::{RangesAsked, member_ranges};
use crate::chunkplan::task_choice::{TaskChoice, member_choice};
use documents::{
    DocumentFault, StorageMetadata, check_members, read_object, read_shape, take_stored,
};
use serde_json::Value;
use std::alloc::Global;
use zarrs_chunk_base::{ArraySubset, Refusal, take_member};
use zarrs_chunk_plan::Share;

/// What a document asks for.
#[derive(Drop)]
pub(crate) enum Task {
    /// A read of a box of elements, or of the whole array, whether the box is clipped to the array, and the byte ranges that are wanted.
    Read {
        subset: Option<ArraySubset>,
        clip: bool,
        ranges: Option<RangesAsked>,
    },
    /// A copy to an array that is to be stored so.
    Copy(StorageMetadata, Copying),
    /// A resize to this shape, and whether the chunks are wanted too that stay as they are stored.
    Resize {
        shape: Vec<u64>,
        include_unchanged: bool,
    },
}

/// What is copied to another array, and by which tasks.
#[derive(Drop)]
pub(crate) struct Copying {
    pub(crate) choice: TaskChoice,
    pub(crate) selection: Selection,
}

/// Which elements are copied to another array.
#[derive(Drop)]
pub(crate) enum Selection {
    /// All.
    All,
    /// Those that go into the chunks of a box of the target's chunk numbers.
    Chunks(ArraySubset),
    /// A region.
    Region(RegionAsked),
}

/// A region that is copied to another array.
#[derive(Drop)]
pub(crate) struct RegionAsked {
    /// The shape of the other array.
    pub(crate) shape: Vec<u64>,
    /// The elements that are copied.
    pub(crate) elements: ArraySubset,
    /// The index at which they begin in the other array: 0 in each dimension, if none is given.
    pub(crate) at: Option<Vec<u64>>,
}

/// What is wanted of a plan.
#[derive(Drop)]
pub(crate) enum Wanted {
    /// The lines of a share of it.
    Lines(Share),
    /// How much it copies.
    Counts,
}

/// An array's metadata, and what is asked of it.
#[derive(Drop)]
pub(crate) struct Document {
    pub(crate) shape: Vec<u64>,
    pub(crate) wanted: Wanted,
    /// Whether keys of the target's store stand behind the document, in lines of their own.
    pub(crate) keys: bool,
    pub(crate) stored: StorageMetadata,
    pub(crate) task: Task,
}

/// The document that an input is the text of.
///
/// # Errors
/// The first that applies: the input is no JSON, or no object; a member isn't known; one is missing; one doesn't go with the others; one isn't of its
/// form, of `shape`, `counts`, `share`, `keys`, `chunk_grid`, `chunk_key_encoding`, and of `resize` and `include_unchanged`, of `subset`, `clip` and byte ranges,
/// of `target`, the tasks and `chunks`, or of `target`, `subset`, `at` and the tasks; before its own members, the target has one that
/// isn't known, or is of another array, or for a region of another data type. Or out of memory.
pub(crate) fn parse(alloc: Global, input: &[u8]) -> Result<Document, RunFault>
    ensures { IsReadOr Memory document_of (document_in input.now) result }
{
    let tree = read_object(alloc, input)?;
    document_from(alloc, tree)
}

/// The document that an object stands for.
fn document_from(alloc: Global, mut tree: Value) -> Result<Document, RunFault>
    ensures { IsReadOr Memory document_of (form_in (view tree)) result }
{
    check_document(alloc, &tree)?;
    let shape = read_shape(alloc, &tree, "shape")?;
    let wanted = wanted_from(alloc, &tree)?;
    let keys = member_flag(&tree, "keys")?;
    let stored = take_stored(alloc, &mut tree, "chunk_grid", "chunk_key_encoding")?;
    let target = take_member(&mut tree, "target");
    let task = task_from(alloc, &tree, target)?;
    Ok(Document {
        shape,
        wanted,
        keys,
        stored,
        task,
    })
}

/// Refuses a member that isn't known, then that one is missing, then one that doesn't go with the others.
fn check_document(alloc: Global, tree: &Value) -> Result<(), RunFault>
    ensures { IsReadOr Memory (λ done. done) (checked_in (view tree.now)) result }
{
    check_known_document(alloc, tree)?;
    check_members(tree)?;
    check_rules(tree)
}

/// Refuses a member that isn't known.
fn check_known_document(alloc: Global, tree: &Value) -> Result<(), RunFault>
    ensures { IsReadOr Memory (λ done. done)
        (known_in Unknown known_members (view tree.now)) result }
{
    match check_known(alloc, tree, &DOCUMENT) {
        Ok(()) => Ok(()),
        Err(Refusal::Refused(member)) => Err(RunFault::Unknown(member)),
        Err(Refusal::Memory(_)) => Err(RunFault::Memory),
    }
}

/// What a document wants of its plan: its counts, where `counts` is true, and else the lines of a share.
fn wanted_from(alloc: Global, tree: &Value) -> Result<Wanted, DocumentFault>
    ensures { IsReadOr DocumentMemory wanted_of (wanted_in (view tree.now)) result }
{
    if member_flag(tree, "counts")? {
        return Ok(Wanted::Counts);
    }
    Ok(Wanted::Lines(member_share(alloc, tree)?))
}

/// Refuses a target that has a member that isn't known, or another shape or data type than the array.
fn check_target(alloc: Global, tree: &Value, target: &Value) -> Result<(), RunFault>
    ensures { IsReadOr Memory (λ done. done) (of_array (view tree.now) (view target.now)) result }
{
    check_known_target(alloc, target)?;
    if !agree(alloc, tree, target, "shape")? {
        return Err(RunFault::OtherShape);
    }
    if !agree(alloc, tree, target, "data_type")? {
        return Err(RunFault::OtherDataType);
    }
    Ok(())
}

/// Refuses a target that has a member that isn't known, or another data type than the array.
fn check_type(alloc: Global, tree: &Value, target: &Value) -> Result<(), RunFault>
    ensures { IsReadOr Memory (λ done. done) (of_type (view tree.now) (view target.now)) result }
{
    check_known_target(alloc, target)?;
    if !agree(alloc, tree, target, "data_type")? {
        return Err(RunFault::OtherDataType);
    }
    Ok(())
}

/// Refuses a target that has a member that isn't known.
fn check_known_target(alloc: Global, target: &Value) -> Result<(), RunFault>
    ensures { IsReadOr Memory (λ done. done)
        (known_in UnknownOfTarget zarr_json_members (view target.now)) result }
{
    match check_known(alloc, target, &DOCUMENT[..ZARR_JSON]) {
        Ok(()) => Ok(()),
        Err(Refusal::Refused(member)) => Err(RunFault::UnknownOfTarget(member)),
        Err(Refusal::Memory(_)) => Err(RunFault::Memory),
    }
}

/// What a tree asks for, of which the target was taken out.
fn task_from(alloc: Global, tree: &Value, target: Option<Value>) -> Result<Task, RunFault>
    ensures { IsReadOr Memory task_of
        (task_in (view tree.now) (option_map view target)) result }
{
    match member_numbers(alloc, tree, "resize")? {
        Some(shape) => {
            let include_unchanged = member_flag(tree, "include_unchanged")?;
            Ok(Task::Resize {
                shape,
                include_unchanged,
            })
        }
        None => copying_from(alloc, tree, target),
    }
}

/// What is copied, as a tree asks for it: a read, a rechunking or a region.
fn copying_from(alloc: Global, tree: &Value, target: Option<Value>) -> Result<Task, RunFault>
    ensures { IsReadOr Memory task_of
        (copying_in (view tree.now) (option_map view target)) result }
{
    let Some(target) = target else {
        let subset = member_box(alloc, tree, "subset")?;
        let clip = member_flag(tree, "clip")?;
        let ranges = member_ranges(alloc, tree)?;
        return Ok(Task::Read {
            subset,
            clip,
            ranges,
        });
    };
    check_object(&target)?;
    match tree.get("subset") {
        Some(subset) => region_to(alloc, tree, target, subset),
        None => rechunking_to(alloc, tree, target),
    }
}

/// Refuses a target that is no object.
fn check_object(target: &Value) -> Result<(), DocumentFault>
    ensures { IsRead (λ done. done) (object_of (view target.now)) result }
{
    if target.is_object() {
        Ok(())
    } else {
        Err(DocumentFault::WrongValue("target"))
    }
}

/// The rechunking that a tree asks for with this target.
fn rechunking_to(alloc: Global, tree: &Value, mut target: Value) -> Result<Task, RunFault>
    ensures { IsReadOr Memory task_of (rechunking_in (view tree.now) (view target)) result }
{
    check_target(alloc, tree, &target)?;
    let stored = take_target(alloc, &mut target)?;
    let choice = member_choice(alloc, tree)?;
    let chunks = member_box(alloc, tree, "chunks")?;
    let selection = into_box(chunks);
    Ok(Task::Copy(stored, Copying { choice, selection }))
}

/// The elements that go into the chunks of a box, or all without a box.
fn into_box(chunks: Option<ArraySubset>) -> Selection
    ensures { selection_of result ≡ into_box chunks }
{
    match chunks {
        Some(chunks) => Selection::Chunks(chunks),
        None => Selection::All,
    }
}

/// The copy of a region that a tree asks for with this target, of which this is the `subset`.
fn region_to(
    alloc: Global,
    tree: &Value,
    mut target: Value,
    subset: &Value,
) -> Result<Task, RunFault>
    ensures { IsReadOr Memory task_of
        (region_in (view tree.now) (view target) (view subset.now)) result }
{
    check_type(alloc, tree, &target)?;
    let shape = read_shape(alloc, &target, "target.shape")?;
    let target = take_target(alloc, &mut target)?;
    let elements = read_box(alloc, subset, "subset")?;
    let at = member_numbers(alloc, tree, "at")?;
    let choice = member_choice(alloc, tree)?;
    let selection = Selection::Region(RegionAsked {
        shape,
        elements,
        at,
    });
    Ok(Task::Copy(target, Copying { choice, selection }))
}

/// How a target says that it is stored, which is taken out of it.
fn take_target(alloc: Global, target: &mut Value) -> Result<StorageMetadata, DocumentFault>
    ensures { IsReadOr DocumentMemory stored_of (target_stored_in (view target.old)) result }
{
    take_stored(
        alloc,
        target,
        "target.chunk_grid",
        "target.chunk_key_encoding",
    )
}
