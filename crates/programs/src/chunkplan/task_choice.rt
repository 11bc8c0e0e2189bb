//! The tasks that a document wants.
ghost use Rattle.programs.specs.chunkplan.Common.{codes, in_form_or, option_map, size_of};
ghost use Rattle.programs.specs.chunkplan.Common.{view, IsReadOr};
ghost use Rattle.documents.specs.declared.document_fault.DocumentFault.TheVariants.{Memory};
ghost use Rattle.programs.specs.chunkplan.Document.{choice_in, choice_of};
ghost use Rattle.programs.specs.chunkplan.Document.{usual_read_elements};

use crate::chunkplan::members::member_order;
use documents::{DocumentFault, optional_member};
use serde_json::Value;
use std::alloc::Global;
use std::num::NonZeroU64;
use zarrs_chunk_tasks::Order;

/// What one read is worth, in elements, if a document doesn't say: ten megabytes of elements of four bytes.
const READ_ELEMENTS: u64 = 2500000;

/// Which tasks a copy is made of.
#[derive(Drop)]
pub(crate) enum TaskChoice {
    /// How many neighbouring chunks of the target a task takes along each dimension, or of the source. One, if nothing is given.
    Given(Order, Option<Vec<NonZeroU64>>),
    /// The cheapest tasks, by how many elements a buffer and a largest chunk may have together, and by how many one read is worth. Perhaps the lines of one
    /// stage are asked for, by its number from 1 on.
    Cheapest(u64, u64, Option<NonZeroU64>),
}

impl TaskChoice {
    ghost use Rattle.std.specs.Prelude.{◌≡◌};
    ghost use Rattle.programs.specs.chunkplan.Common.{non_zero_u64_get};
    ghost use Rattle.programs.specs.chunkplan.Stages.{number_asked};

    /// The number of the stage whose lines are asked for.
    pub(crate) fn stage(&self) -> Option<NonZeroU64>
        ensures { option_map non_zero_u64_get result ≡ number_asked (choice_of self.now) }
    {
        match self {
            TaskChoice::Given(..) => None,
            TaskChoice::Cheapest(_, _, stage) => *stage,
        }
    }
}

/// The tasks that a document asks for.
///
/// # Errors
/// The first that applies: `max_elements`, `read_elements` or `stage` isn't of its form; or, without `max_elements`, `task_chunks` or `order` isn't. Or out of
/// memory.
pub(crate) fn member_choice(alloc: Global, tree: &Value) -> Result<TaskChoice, DocumentFault>
    ensures { IsReadOr Memory choice_of (choice_in (view tree.now)) result }
{
    match optional_member(alloc, tree, "max_elements")? {
        Some(most) => {
            let read = member_read(alloc, tree)?;
            let stage = optional_member(alloc, tree, "stage")?;
            Ok(TaskChoice::Cheapest(most, read, stage))
        }
        None => {
            let each = optional_member(alloc, tree, "task_chunks")?;
            let order = member_order(tree)?;
            Ok(TaskChoice::Given(order, each))
        }
    }
}

/// What one read is worth, in elements.
fn member_read(alloc: Global, tree: &Value) -> Result<u64, DocumentFault>
    ensures { IsReadOr Memory (λ read. read)
        (in_form_or usual_read_elements size_of (codes "read_elements") (view tree.now)) result }
{
    Ok(optional_member(alloc, tree, "read_elements")?.unwrap_or(READ_ELEMENTS))
}
