//! The trees that the parts of a plan and of tasks are written as.
ghost use Rattle.std.specs.Prelude.{◌≡◌, false, IfOk, map, true};
ghost use Rattle.serde_json.specs.Data.{no_members};
ghost use Rattle.serde_json.specs.View.{members_view, view};
ghost use Rattle.zarrs_chunk_questions.specs.Pages.{part_tree as tree_of_part};
ghost use Rattle.zarrs_chunk_questions.specs.Tasks.{overlap_members as members_of_overlap, overlap_tree as tree_of_overlap, task_tree as tree_of_task};

use serde_json::{Map, Value};
use std::alloc::{AllocError, Global};
use zarrs_chunk_base::{write_box, write_list};
use zarrs_chunk_plan::Part;
use zarrs_chunk_tasks::Task;

/// The tree of a part of a read: `{"chunk":[..],"in_chunk":[start,shape],"in_selection":[start,shape],"key":".."}`.
pub(crate) fn part_tree(alloc: Global, part: &Part) -> Result<Value, AllocError>
    ensures { IfOk result (λ tree. view tree ≡ tree_of_part part.now) }
{
    let chunk = write_list(alloc, part.chunk.as_slice())?;
    let in_chunk = write_box(alloc, &part.in_chunk)?;
    let in_selection = write_box(alloc, &part.in_selection)?;
    let key = Value::try_from_str(alloc, part.key.as_str())?;
    let mut members = Map::new(alloc);
    serde_json::put(&mut members, alloc, "chunk", chunk)?;
    serde_json::put(&mut members, alloc, "in_chunk", in_chunk)?;
    serde_json::put(&mut members, alloc, "in_selection", in_selection)?;
    serde_json::put(&mut members, alloc, "key", key)?;
    Ok(Value::Object(members))
}

/// What a chunk and the buffer of a task share: `{"chunk":[..],"in_buffer":[start,shape],"in_chunk":[start,shape],"key":"..","shape":[..]}`.
fn overlap_members(alloc: Global, part: &Part) -> Result<Map<String, Value>, AllocError>
    ensures { IfOk result (λ members. members_view members.entries ≡ members_of_overlap part.now no_members) }
{
    let chunk = write_list(alloc, part.chunk.as_slice())?;
    let in_buffer = write_box(alloc, &part.in_selection)?;
    let in_chunk = write_box(alloc, &part.in_chunk)?;
    let key = Value::try_from_str(alloc, part.key.as_str())?;
    let shape = write_list(alloc, part.shape.as_slice())?;
    let mut members = Map::new(alloc);
    serde_json::put(&mut members, alloc, "chunk", chunk)?;
    serde_json::put(&mut members, alloc, "in_buffer", in_buffer)?;
    serde_json::put(&mut members, alloc, "in_chunk", in_chunk)?;
    serde_json::put(&mut members, alloc, "key", key)?;
    serde_json::put(&mut members, alloc, "shape", shape)?;
    Ok(members)
}

/// The tree of what a task reads of a chunk.
fn read_tree(alloc: Global, part: &Part) -> Result<Value, AllocError>
    ensures { IfOk result (λ tree. view tree ≡ tree_of_overlap false part.now) }
{
    let members = overlap_members(alloc, part)?;
    Ok(Value::Object(members))
}

/// The tree of what a task writes of a chunk: `whole` too.
fn written_tree(alloc: Global, part: &Part) -> Result<Value, AllocError>
    ensures { IfOk result (λ tree. view tree ≡ tree_of_overlap true part.now) }
{
    let mut members = overlap_members(alloc, part)?;
    serde_json::put(&mut members, alloc, "whole", Value::from(part.whole))?;
    Ok(Value::Object(members))
}

/// The tree of what a task reads of a chunk, or of what it writes.
fn overlap_tree(alloc: Global, part: &Part, written: bool) -> Result<Value, AllocError>
    ensures { IfOk result (λ tree. view tree ≡ tree_of_overlap written part.now) }
{
    if written {
        written_tree(alloc, part)
    } else {
        read_tree(alloc, part)
    }
}

/// The trees of what a task reads, or of what it writes.
fn overlap_trees(alloc: Global, parts: &[Part], written: bool) -> Result<Vec<Value>, AllocError>
    ensures { IfOk result (λ trees.
        map view trees.items ≡ map (tree_of_overlap written) parts.now) }
{
    let mut trees = Vec::new(alloc);
    for part in parts {
        trees.push(overlap_tree(alloc, part, written)?)?;
    }
    Ok(trees)
}

/// The tree of a task: `{"buffer":[..],"from":[..],"to":[..]}`.
pub(crate) fn task_tree(
    alloc: Global,
    task: &Task,
    read: &[Part],
    written: &[Part],
) -> Result<Value, AllocError>
    ensures { IfOk result (λ tree. view tree ≡ tree_of_task (task.now, (read.now, written.now))) }
{
    let buffer = write_list(alloc, task.source.shape())?;
    let from = overlap_trees(alloc, read, false)?;
    let into = overlap_trees(alloc, written, true)?;
    let mut members = Map::new(alloc);
    serde_json::put(&mut members, alloc, "buffer", buffer)?;
    serde_json::put(&mut members, alloc, "from", Value::Array(from))?;
    serde_json::put(&mut members, alloc, "to", Value::Array(into))?;
    Ok(Value::Object(members))
}
