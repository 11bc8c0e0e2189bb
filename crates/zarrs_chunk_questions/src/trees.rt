//! The trees that answers are written as.
ghost use Rattle.std.specs.Prelude.{◌≡◌, IfErr, IfOk, Option, Ok};
ghost use Rattle.serde_json.specs.View.{view};
ghost use Rattle.zarrs_chunk_base.specs.ArraySubset.{Box};
ghost use Rattle.zarrs_chunk_base.specs.Refusal.{OrMemory};
ghost use Rattle.zarrs_chunk_questions.specs.Answers.{items_tree, located_tree as tree_of_located};
ghost use Rattle.zarrs_chunk_questions.specs.Trees.{box_tree, or_null};
ghost use Rattle.zarrs_chunk_questions.specs.seen.Found.{TellsError};

use crate::line_fault::LineFault;
use serde_json::{Map, Value};
use std::alloc::{AllocError, Global};
use zarrs_chunk_base::{
    ArrayIndices, ArraySubset, IncompatibleDimensionalityError, Refusal, TreeForm, write_box,
};
use zarrs_chunks::Located;

/// What a look-up found; its refusal as that of a line.
pub(crate) fn found<T>(
    answer: Result<Option<T>, Refusal<IncompatibleDimensionalityError>>,
) -> Result<Option<T>, Refusal<LineFault>>
    ensures found { IfOk result (λ found. answer ≡ Ok found) }
    ensures refused { IfErr result (OrMemory (TellsError answer)) }
{
    match answer {
        Ok(found) => Ok(found),
        Err(Refusal::Refused(error)) => Err(Refusal::Refused(LineFault::Lengths(error))),
        Err(Refusal::Memory(error)) => Err(Refusal::Memory(error)),
    }
}

/// The tree of an answer that is a list, or `null` where there is none.
pub(crate) fn list_or_null<T: TreeForm>(
    alloc: Global,
    answer: Result<Option<T>, Refusal<IncompatibleDimensionalityError>>,
) -> Result<Value, Refusal<LineFault>>
    ensures tree { IfOk result (λ tree. (found : Option T) × (answer ≡ Ok found)
        × (view tree ≡ or_null (λ x. T.written (T.seen x)) found)) }
    ensures refused { IfErr result (OrMemory (TellsError answer)) }
{
    match found(answer)? {
        Some(list) => Ok(list.to_tree(alloc)?),
        None => Ok(Value::Null),
    }
}

/// The tree of an answer that is a box, or `null` where there is none.
pub(crate) fn box_or_null(
    alloc: Global,
    answer: Result<Option<ArraySubset>, Refusal<IncompatibleDimensionalityError>>,
) -> Result<Value, Refusal<LineFault>>
    ensures tree { IfOk result (λ tree. (found : Option Box) × (answer ≡ Ok found)
        × (view tree ≡ or_null box_tree found)) }
    ensures refused { IfErr result (OrMemory (TellsError answer)) }
{
    match found(answer)? {
        Some(subset) => Ok(write_box(alloc, &subset)?),
        None => Ok(Value::Null),
    }
}

/// The tree of where an element is stored: `{"chunk":[..],"element":[..],"key":".."}`.
pub(crate) fn located_tree(alloc: Global, located: &Located) -> Result<Value, AllocError>
    ensures { IfOk result (λ tree. view tree ≡ tree_of_located located.now) }
{
    let mut members = Map::new(alloc);
    serde_json::put(&mut members, alloc, "chunk", located.chunk.to_tree(alloc)?)?;
    serde_json::put(
        &mut members,
        alloc,
        "element",
        located.element.to_tree(alloc)?,
    )?;
    let key = Value::try_from_str(alloc, located.key.as_str())?;
    serde_json::put(&mut members, alloc, "key", key)?;
    Ok(Value::Object(members))
}
