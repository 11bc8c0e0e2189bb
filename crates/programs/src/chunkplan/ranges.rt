//! The byte ranges that a document wants in the lines of a read.
ghost use Rattle.programs.specs.chunkplan.Common.{codes, option_map, view, order_in, in_form_or, IsReadOr};
ghost use Rattle.zarrs_chunk_plan.specs.declared.bytes.ranges.MemoryOrder.TheVariants.{C};
ghost use Rattle.documents.specs.declared.document_fault.DocumentFault.TheVariants.{Memory};
ghost use Rattle.programs.specs.chunkplan.Document.{most_of, ranges_asked_of, ranges_in};

use documents::{DocumentFault, optional_member};
use serde_json::Value;
use std::alloc::Global;
use std::num::NonZeroU64;
use zarrs_chunk_plan::MemoryOrder;
use zarrs_chunk_questions::StoredIn;

/// How many ranges are listed in a line, at most.
const MOST_RANGES: u64 = 1 << 20;

/// How byte ranges are wanted.
#[derive(Clone, Copy, Drop)]
pub(crate) struct RangesAsked {
    /// How many bytes an element has.
    pub(crate) item_size: NonZeroU64,
    /// The order in which a chunk's elements are stored.
    pub(crate) order: MemoryOrder,
    /// Up to how many ranges are listed in a line.
    pub(crate) most: u64,
}

/// How a document wants byte ranges, if it does.
pub(crate) fn member_ranges(
    alloc: Global,
    tree: &Value,
) -> Result<Option<RangesAsked>, DocumentFault>
    ensures { IsReadOr Memory (option_map ranges_asked_of) (ranges_in (view tree.now)) result }
{
    let Some(item_size) = optional_member(alloc, tree, "item_size")? else {
        return Ok(None);
    };
    let order = member_memory_order(alloc, tree)?;
    let most = member_most(alloc, tree)?;
    Ok(Some(RangesAsked {
        item_size,
        order,
        most,
    }))
}

/// The order in which a document says that elements are stored; `C`, where it says none.
fn member_memory_order(alloc: Global, tree: &Value) -> Result<MemoryOrder, DocumentFault>
    ensures { IsReadOr Memory (λ order. order)
        (in_form_or C order_in (codes "memory_order") (view tree.now)) result }
{
    let stored: Option<StoredIn> = optional_member(alloc, tree, "memory_order")?;
    match stored {
        Some(stored) => Ok(stored.0),
        None => Ok(MemoryOrder::C),
    }
}

/// Up to how many ranges a document wants to have listed; 0, where it doesn't say.
fn member_most(alloc: Global, tree: &Value) -> Result<u64, DocumentFault>
    ensures { IsReadOr Memory (λ most. most)
        (in_form_or 0 most_of (codes "max_ranges") (view tree.now)) result }
{
    let most = optional_member(alloc, tree, "max_ranges")?.unwrap_or(0);
    if most > MOST_RANGES {
        return Err(DocumentFault::WrongValue("max_ranges"));
    }
    Ok(most)
}
