//! What members of a document say, each in the form in which a document writes it.
ghost use Rattle.programs.specs.chunkplan.Common.{option_map, view, list_of, size_of, optional_in, IsRead, IsReadOr, Memory};
ghost use Rattle.documents.specs.declared.document_fault.DocumentFault.TheVariants.{Memory as DocumentMemory};
ghost use Rattle.programs.specs.chunkplan.Document.{box_in, box_of, flag_in, line_order_in, share_in};

use crate::chunkplan::RunFault;
use documents::{DocumentFault, optional_member};
use serde_json::Value;
use std::alloc::Global;
use zarrs_chunk_base::{ArraySubset, TreeForm};
use zarrs_chunk_plan::Share;
use zarrs_chunk_tasks::Order;

/// What a flag of a document says; false where it is absent.
pub(crate) fn member_flag(tree: &Value, field: &'static str) -> Result<bool, DocumentFault>
    ensures { IsRead (λ flag. flag) (flag_in field.now (view tree.now)) result }
{
    let Some(member) = tree.get(field) else {
        return Ok(false);
    };
    match member.as_bool() {
        Some(flag) => Ok(flag),
        None => Err(DocumentFault::WrongValue(field)),
    }
}

/// The order that a document asks for: the target's, if it says nothing.
pub(crate) fn member_order(tree: &Value) -> Result<Order, DocumentFault>
    ensures { IsRead (λ order. order) (line_order_in (view tree.now)) result }
{
    let Some(member) = tree.get("order") else {
        return Ok(Order::Target);
    };
    match member.as_str() {
        Some("target") => Ok(Order::Target),
        Some("source") => Ok(Order::Source),
        _ => Err(DocumentFault::WrongValue("order")),
    }
}

/// The share that a document asks for: the whole plan, if it says nothing.
pub(crate) fn member_share(alloc: Global, tree: &Value) -> Result<Share, DocumentFault>
    ensures { IsReadOr DocumentMemory (λ share. share) (share_in (view tree.now)) result }
{
    let Some(member) = tree.get("share") else {
        return Ok(Share::whole());
    };
    let Some((number, of)) = <(u64, u64)>::from_tree(alloc, member)? else {
        return Err(DocumentFault::WrongValue("share"));
    };
    match Share::new(number, of) {
        Some(share) => Ok(share),
        None => Err(DocumentFault::WrongValue("share")),
    }
}

/// The box that a member of a document stands for, if there is one.
pub(crate) fn member_box(
    alloc: Global,
    tree: &Value,
    field: &'static str,
) -> Result<Option<ArraySubset>, RunFault>
    ensures { IsReadOr Memory (λ subset. subset) (box_in field.now (view tree.now)) result }
{
    match tree.get(field) {
        Some(member) => Ok(Some(read_box(alloc, member, field)?)),
        None => Ok(None),
    }
}

/// The list of sizes that a member of a document is, if there is one.
pub(crate) fn member_numbers(
    alloc: Global,
    tree: &Value,
    field: &'static str,
) -> Result<Option<Vec<u64>>, DocumentFault>
    ensures { IsReadOr DocumentMemory (option_map (λ v. v.items))
        (optional_in (list_of size_of) field.now (view tree.now)) result }
{
    match optional_member(alloc, tree, field)? {
        Some(numbers) => Ok(Some(numbers)),
        None => Ok(None),
    }
}

/// The box that a tree stands for.
pub(crate) fn read_box(
    alloc: Global,
    tree: &Value,
    field: &'static str,
) -> Result<ArraySubset, RunFault>
    ensures { IsReadOr Memory (λ subset. subset) (box_of field.now (view tree.now)) result }
{
    let Some((start, shape)) = <(Vec<u64>, Vec<u64>)>::from_tree(alloc, tree)? else {
        return Err(RunFault::WrongValue(field));
    };
    match ArraySubset::new_with_start_shape(start, shape) {
        Ok(subset) => Ok(subset),
        Err(error) => Err(RunFault::Box(field, error)),
    }
}
