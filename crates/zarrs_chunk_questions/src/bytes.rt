//! Which bytes of an uncompressed chunk hold the elements of a box.
ghost use Rattle.std.specs.Prelude.{◌≡◌, IfOk, MatchResult};
ghost use Rattle.serde_json.specs.View.{view};
ghost use Rattle.zarrs_chunk_base.specs.Refusal.{OrMemory};
ghost use Rattle.zarrs_chunk_plan.specs.declared.bytes.ranges.MemoryOrder.{MemoryOrder};
ghost use Rattle.zarrs_chunk_questions.specs.Bytes.{IsBytesAnswer, ranges_tree as tree_of_ranges};
ghost use Rattle.zarrs_chunk_questions.specs.Order.{order_in, order_tree};
ghost use Rattle.zarrs_chunk_questions.specs.Question.{bytes_in, order_or_c};
ghost use Rattle.zarrs_chunk_questions.specs.Refused.{IsBytesRefusal};
ghost use Rattle.zarrs_chunk_questions.specs.seen.Read.{IsRead, bytes_of};

use crate::asked::{Lists, lists};
use crate::extensions::box_of;
use crate::line_fault::LineFault;
use crate::reading::{optional_in, required_in};
use crate::unreadable::Unreadable;
use serde_json::{Map, Value};
use std::alloc::{AllocError, Global};
use std::num::NonZeroU64;
use zarrs_chunk_base::{Refusal, TreeForm, write_list};
use zarrs_chunk_plan::{ByteRanges, MemoryOrder as Order, byte_ranges};

/// The order in which a chunk is stored, as a JSON text gives it: `C` or `F`.
#[derive(Clone, Copy, Drop)]
pub struct StoredIn(pub Order);

impl TreeForm for StoredIn {
    ghost Seen = { MemoryOrder };

    ghost seen = { λ stored. stored.0 };

    ghost form = { order_in };

    ghost written = { order_tree };

    fn from_tree(_alloc: Global, tree: &Value) -> Result<Option<StoredIn>, AllocError> {
        Ok(match tree.as_str() {
            Some("C") => Some(StoredIn(Order::C)),
            Some("F") => Some(StoredIn(Order::F)),
            _ => None,
        })
    }

    fn to_tree(&self, alloc: Global) -> Result<Value, AllocError> {
        Value::try_from_str(
            alloc,
            match self.0 {
                Order::C => "C",
                Order::F => "F",
            },
        )
    }
}

/// A box of a chunk of which the bytes are asked for.
#[derive(Drop)]
pub(crate) struct BytesAsked {
    /// The chunk's edges.
    pub(crate) edges: Vec<u64>,
    /// The box, counted from the chunk's first element.
    pub(crate) elements: Lists,
    /// How many bytes an element has.
    pub(crate) item_size: NonZeroU64,
    /// The order in which the chunk is stored.
    pub(crate) order: Order,
}

impl BytesAsked {
    /// What a line asks of a chunk's bytes.
    ///
    /// # Errors
    /// The first that applies: `chunk_shape` is missing, or no list of sizes; `of` is missing, or isn't two lists of sizes; `item_size` is missing,
    /// or no size from 1 on; `memory_order` is neither `C` nor `F`. Or out of memory.
    pub(crate) fn from_tree(alloc: Global, tree: &Value) -> Result<BytesAsked, Refusal<Unreadable>>
        ensures { IsRead bytes_of (bytes_in (view tree.now)) result }
    {
        let edges = required_in(alloc, "chunk_shape", tree)?;
        let elements = lists(alloc, "of", tree)?;
        let item_size = required_in(alloc, "item_size", tree)?;
        let order = memory_order(alloc, tree)?;
        Ok(BytesAsked {
            edges,
            elements,
            item_size,
            order,
        })
    }
}

/// The order that a line gives; `C`, where it gives none.
fn memory_order(alloc: Global, tree: &Value) -> Result<Order, Refusal<Unreadable>>
    ensures { IsRead (λ order. order) (order_or_c (view tree.now)) result }
{
    let given: Option<StoredIn> = optional_in(alloc, "memory_order", tree)?;
    match given {
        Some(stored) => Ok(stored.0),
        None => Ok(Order::C),
    }
}

/// The byte ranges of the box that is asked for; `null`, where it ends past the chunk, or isn't empty and the chunk's object would be too long.
///
/// # Errors
/// The first that applies: the start and the shape make no box; the box has another number of dimensions than the chunk. Or out of memory.
pub(crate) fn answer_bytes(alloc: Global, asked: BytesAsked) -> Result<Value, Refusal<LineFault>>
    ensures { MatchResult result
        (λ tree. IsBytesAnswer (bytes_of asked) (view tree))
        (OrMemory (IsBytesRefusal (bytes_of asked))) }
{
    let BytesAsked {
        edges,
        elements,
        item_size,
        order,
    } = asked;
    let elements = match box_of(elements) {
        Ok(elements) => elements,
        Err(fault) => return Err(Refusal::Refused(fault)),
    };
    match byte_ranges(alloc, &edges, &elements, item_size, order) {
        Ok(Some(ranges)) => Ok(ranges_tree(alloc, &ranges)?),
        Ok(None) => Ok(Value::Null),
        Err(refusal) => Err(refusal.map(LineFault::Lengths)),
    }
}

/// The tree of ranges: `{"counts":[..],"first":..,"length":..,"strides":[..]}`.
fn ranges_tree(alloc: Global, ranges: &ByteRanges) -> Result<Value, AllocError>
    ensures { IfOk result (λ tree. view tree ≡ tree_of_ranges ranges.now) }
{
    let counts = write_list(alloc, &ranges.counts)?;
    let strides = write_list(alloc, &ranges.strides)?;
    let mut members = Map::new(alloc);
    serde_json::put(&mut members, alloc, "counts", counts)?;
    serde_json::put(&mut members, alloc, "first", Value::from(ranges.first))?;
    serde_json::put(&mut members, alloc, "length", Value::from(ranges.length))?;
    serde_json::put(&mut members, alloc, "strides", strides)?;
    Ok(Value::Object(members))
}
