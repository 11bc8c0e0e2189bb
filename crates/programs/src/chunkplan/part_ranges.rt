//! The byte ranges of a part, as a line has them.
ghost use Rattle.std.specs.Prelude.{◌≡◌, ◌∷◌};
ghost use Rattle.programs.specs.chunkplan.Common.{IfOk, IfSome, OnOk, Some, codes, length, option_map, non_zero_u64_get, array, key, json_tokens};
ghost use Rattle.programs.specs.chunkplan.Common.{order_text};
ghost use Rattle.json.specs.Token.{string};
ghost use Rattle.zarrs_chunk_plan.specs.Bytes.{HasPast, begins};
ghost use Rattle.zarrs_chunk_plan.specs.Strided.{form_of, ranges_of};
ghost use Rattle.programs.specs.chunkplan.Document.{ranges_asked_of};
ghost use Rattle.programs.specs.chunkplan.Line.{list_json, numbers_json, part_ranges_json, range_items, strided_json};
ghost use Rattle.programs.specs.chunkplan.seen.Added.{Adds};

use crate::chunkplan::line::{write_count, write_list, write_null, write_numbers};
use crate::chunkplan::ranges::RangesAsked;
use json::Writer;
use std::alloc::{AllocError, Global};
use zarrs_chunk_base::Refusal;
use zarrs_chunk_plan::{ByteRanges, MemoryOrder, Part, byte_ranges};

/// Writes the member `ranges`: the byte ranges of a part's box in its chunk.
///
/// # Errors
/// Out of memory.
pub(crate) fn write_ranges(
    alloc: Global,
    json: &mut Writer,
    wanted: &RangesAsked,
    part: &Part,
) -> Result<(), AllocError>
    ensures { OnOk result (Adds json.old json.new (key (codes "ranges")
        ∷ json_tokens (part_ranges_json (ranges_asked_of wanted.now) part.now))) }
{
    match part_ranges(alloc, wanted, part)? {
        Some(ranges) => write_strided(alloc, json, &ranges, wanted.order, wanted.most),
        None => write_null(json, "ranges"),
    }
}

/// The byte ranges of a part's box in its chunk.
///
/// # Errors
/// Out of memory.
fn part_ranges(
    alloc: Global,
    wanted: &RangesAsked,
    part: &Part,
) -> Result<Option<ByteRanges>, AllocError>
    ensures form { IfOk result (λ found. option_map form_of found
        ≡ ranges_of (non_zero_u64_get wanted.now.item_size) wanted.now.order part.now.shape.items
        part.now.in_chunk.start part.now.in_chunk.shape) }
    ensures fit { IfOk result (λ found. IfSome found (λ ranges.
        ¬ HasPast (begins ranges.first ranges.counts.items ranges.strides.items))) }
    ensures lists { IfOk result (λ found. IfSome found (λ ranges.
        length ranges.counts.items ≡ length ranges.strides.items)) }
{
    let edges = part.shape.as_slice();
    match byte_ranges(alloc, edges, &part.in_chunk, wanted.item_size, wanted.order) {
        Ok(found) => Ok(found),
        // A box of other dimensions has no ranges either; a part's box has the chunk's.
        Err(Refusal::Refused(_)) => Ok(None),
        Err(Refusal::Memory(error)) => Err(error),
    }
}

/// Writes the member `ranges`: byte ranges in their strided form, the list of them, where they are at most so many, and the order in which a chunk's
/// elements are stored.
fn write_strided(
    alloc: Global,
    json: &mut Writer,
    ranges: &ByteRanges,
    order: MemoryOrder,
    most: u64,
) -> Result<(), AllocError>
    requires fit { ¬ HasPast (begins ranges.now.first ranges.now.counts.items
        ranges.now.strides.items) }
    requires lists { length ranges.now.counts.items ≡ length ranges.now.strides.items }
    ensures { OnOk result (Adds json.old json.new (key (codes "ranges")
        ∷ json_tokens (strided_json most order (Some (form_of ranges.now))))) }
{
    json.key("ranges")?;
    json.begin_object()?;
    write_numbers(json, "counts", &ranges.counts)?;
    write_count(json, "first", Some(ranges.first))?;
    write_count(json, "length", Some(ranges.length))?;
    write_range_list(alloc, json, ranges, most)?;
    write_order_and_strides(json, order, &ranges.strides)?;
    json.end_object()?;
    Ok(())
}

/// Writes the members `memory_order` and `strides`.
fn write_order_and_strides(
    json: &mut Writer,
    order: MemoryOrder,
    strides: &[u64],
) -> Result<(), AllocError>
    ensures { OnOk result (Adds json.old json.new (key (codes "memory_order")
        ∷ string (order_text order) ∷ key (codes "strides")
        ∷ json_tokens (numbers_json strides.now))) }
{
    json.key("memory_order")?;
    json.string(text_of(order))?;
    write_numbers(json, "strides", strides)?;
    Ok(())
}

/// An order as the document names it.
fn text_of(order: MemoryOrder) -> &'static str
    ensures { result.now ≡ order_text order }
{
    match order {
        MemoryOrder::C => "C",
        MemoryOrder::F => "F",
    }
}

/// Writes the member `list`: the byte ranges, one after another, where they are at most so many.
fn write_range_list(
    alloc: Global,
    json: &mut Writer,
    ranges: &ByteRanges,
    most: u64,
) -> Result<(), AllocError>
    requires fit { ¬ HasPast (begins ranges.now.first ranges.now.counts.items
        ranges.now.strides.items) }
    requires lists { length ranges.now.counts.items ≡ length ranges.now.strides.items }
    ensures { OnOk result (Adds json.old json.new (key (codes "list")
        ∷ json_tokens (list_json most ranges.now.length (begins ranges.now.first
        ranges.now.counts.items ranges.now.strides.items)))) }
{
    match ranges.starts(alloc, most)? {
        Some(starts) => write_listed(json, &starts, ranges.length),
        None => write_null(json, "list"),
    }
}

/// Writes the member `list`: byte ranges of one length, each as where it begins and how long it is.
fn write_listed(json: &mut Writer, starts: &[u64], length: u64) -> Result<(), AllocError>
    ensures { OnOk result (Adds json.old json.new (key (codes "list")
        ∷ json_tokens (array (range_items length starts.now)))) }
{
    json.key("list")?;
    json.begin_array()?;
    for start in starts {
        write_list(json, &[*start, length])?;
    }
    json.end_array()?;
    Ok(())
}
