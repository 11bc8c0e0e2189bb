//! The text of a line of a plan.
ghost use Rattle.std.specs.Prelude.{◌≡◌, ◌++◌, ◌∷◌};
ghost use Rattle.programs.specs.chunkplan.Common.{[], codes, option_map, IfOk, OnOk, print, boolean, key, json_tokens};
ghost use Rattle.json.specs.Token.{null, string};
ghost use Rattle.programs.specs.chunkplan.Document.{ranges_asked_of};
ghost use Rattle.programs.specs.chunkplan.Keys.{unexpected_json};
ghost use Rattle.programs.specs.chunkplan.Line.{box_json, change_line, change_word, count_json, held_json, held_shape_json, line_of, numbers_json};
ghost use Rattle.programs.specs.chunkplan.Line.{overlap_json, part_json};
ghost use Rattle.programs.specs.chunkplan.seen.Added.{Adds};
ghost use Rattle.programs.specs.chunkplan.seen.Pieces.{begin_of_task, comma_before, end_of_task, item_text, middle_of_task, ranges_tokens, text_as};
ghost use Rattle.programs.specs.chunkplan.seen.Pieces.{whole_if_tokens};
ghost use Rattle.streams.specs.OneLine.{line_of as one_line_of};

use crate::chunkplan::part_ranges::write_ranges;
use crate::chunkplan::ranges::RangesAsked;
use json::{Token, Writer};
use std::alloc::{AllocError, Global};
use streams::{one_line, unbroken};
use zarrs_chunk_base::{ArraySubset, StoreKey};
use zarrs_chunk_plan::{Change, ChunkChange, ChunkContents, Part};

/// How many bytes a line is given room for at first.
const LINE_LEN: usize = 192;

/// How a part is written.
#[derive(Clone, Copy)]
pub(crate) enum Form {
    /// As a line of a read, of so many lines, with the byte ranges that are wanted.
    Line(Option<u64>, Option<RangesAsked>),
    /// As what a chunk and the buffer of a task share, which the task reads or, if this is `true`, writes.
    Overlap(bool),
}

/// The text of a part, by its number in its walk.
///
/// # Errors
/// Out of memory.
pub(crate) fn part_text(
    alloc: Global,
    part: &Part,
    number: Option<u64>,
    form: Form,
) -> Result<Vec<u8>, AllocError>
    ensures { IfOk result (λ text. text.items ≡ text_as form number part.now) }
{
    match form {
        Form::Line(of, ranges) => part_line(alloc, part, number, of, &ranges),
        Form::Overlap(written) => overlap_text(alloc, part, number, written),
    }
}

/// The line of a part of a read.
fn part_line(
    alloc: Global,
    part: &Part,
    number: Option<u64>,
    of: Option<u64>,
    ranges: &Option<RangesAsked>,
) -> Result<Vec<u8>, AllocError>
    ensures { IfOk result (λ line. line.items ≡ line_of (part_json number of
        (option_map ranges_asked_of ranges.now) part.now)) }
{
    let mut json = Writer::new(Vec::with_capacity(alloc, LINE_LEN)?);
    json.begin_object()?;
    write_numbers(&mut json, "chunk", part.chunk.as_slice())?;
    write_box(&mut json, "in_chunk", &part.in_chunk)?;
    write_box(&mut json, "in_selection", &part.in_selection)?;
    write_key(&mut json, &part.key)?;
    write_count(&mut json, "number", number)?;
    write_count(&mut json, "of", of)?;
    write_wanted(alloc, &mut json, ranges, part)?;
    write_numbers(&mut json, "shape", part.shape.as_slice())?;
    write_whole(&mut json, part.whole)?;
    json.end_object()?;
    ended(alloc, json)
}

/// Writes the member `ranges`, where it is wanted.
fn write_wanted(
    alloc: Global,
    json: &mut Writer,
    wanted: &Option<RangesAsked>,
    part: &Part,
) -> Result<(), AllocError>
    ensures { OnOk result (Adds json.old json.new
        (ranges_tokens (option_map ranges_asked_of wanted.now) part.now)) }
{
    match wanted {
        Some(wanted) => write_ranges(alloc, json, wanted, part),
        None => Ok(()),
    }
}

/// What a chunk and the buffer of a task share, as an item of a list, with a comma before it where it isn't the first.
fn overlap_text(
    alloc: Global,
    part: &Part,
    number: Option<u64>,
    written: bool,
) -> Result<Vec<u8>, AllocError>
    ensures { IfOk result (λ text. text.items
        ≡ item_text (overlap_json written) number part.now) }
{
    let mut json = Writer::new(begin_item(alloc, number)?);
    json.begin_object()?;
    write_numbers(&mut json, "chunk", part.chunk.as_slice())?;
    write_box(&mut json, "in_buffer", &part.in_selection)?;
    write_box(&mut json, "in_chunk", &part.in_chunk)?;
    write_key(&mut json, &part.key)?;
    write_numbers(&mut json, "shape", part.shape.as_slice())?;
    write_whole_if(&mut json, written, part)?;
    json.end_object()?;
    unbroken(alloc, json.into_inner())
}

/// Writes the member `whole` of what a task writes.
fn write_whole_if(json: &mut Writer, written: bool, part: &Part) -> Result<(), AllocError>
    ensures { OnOk result (Adds json.old json.new (whole_if_tokens written part.now)) }
{
    if written {
        return write_whole(json, part.whole);
    }
    Ok(())
}

/// The beginning of the line of a task, before what it reads.
///
/// # Errors
/// Out of memory.
pub(crate) fn task_begin(alloc: Global, buffer: &[u64]) -> Result<Vec<u8>, AllocError>
    ensures { IfOk result (λ text. text.items ≡ begin_of_task buffer.now) }
{
    let mut json = Writer::new(Vec::with_capacity(alloc, LINE_LEN)?);
    json.begin_object()?;
    write_numbers(&mut json, "buffer", buffer)?;
    json.key("from")?;
    json.begin_array()?;
    unbroken(alloc, json.into_inner())
}

/// What stands in the line of a task between what it reads and what it writes.
///
/// # Errors
/// Out of memory.
pub(crate) fn task_middle(
    alloc: Global,
    number: Option<u64>,
    of: Option<u64>,
) -> Result<Vec<u8>, AllocError>
    ensures { IfOk result (λ text. text.items ≡ middle_of_task number of) }
{
    let mut json = Writer::new(Vec::with_capacity(alloc, LINE_LEN)?);
    json.end_array()?;
    write_count(&mut json, "number", number)?;
    write_count(&mut json, "of", of)?;
    json.key("to")?;
    json.begin_array()?;
    unbroken(alloc, json.into_inner())
}

/// The end of the line of a task.
///
/// # Errors
/// Out of memory.
pub(crate) fn task_end(alloc: Global) -> Result<Vec<u8>, AllocError>
    ensures { IfOk result (λ text. text.items ≡ end_of_task) }
{
    let mut json = Writer::new(Vec::with_capacity(alloc, LINE_LEN)?);
    json.end_array()?;
    json.end_object()?;
    ended(alloc, json)
}

/// Returns a comma, or nothing before the first item of a list.
fn begin_item(alloc: Global, number: Option<u64>) -> Result<Vec<u8>, AllocError>
    ensures { IfOk result (λ text. text.items ≡ comma_before number) }
{
    let mut text = Vec::with_capacity(alloc, LINE_LEN)?;
    if number != Some(0) {
        text.push(b',')?;
    }
    Ok(text)
}

/// The line of the change of a chunk, by its number in its walk.
///
/// # Errors
/// Out of memory.
pub(crate) fn change_line(
    alloc: Global,
    change: &ChunkChange,
    number: Option<u64>,
    of: Option<u64>,
) -> Result<Vec<u8>, AllocError>
    ensures { IfOk result (λ line. line.items ≡ change_line number of change.now) }
{
    let mut json = Writer::new(Vec::with_capacity(alloc, LINE_LEN)?);
    json.begin_object()?;
    write_numbers(&mut json, "chunk", change.chunk.as_slice())?;
    write_key(&mut json, &change.key)?;
    write_held(&mut json, "now", &change.after)?;
    write_held_shape(&mut json, "now_shape", &change.after)?;
    write_count(&mut json, "number", number)?;
    write_count(&mut json, "of", of)?;
    write_held(&mut json, "was", &change.before)?;
    write_held_shape(&mut json, "was_shape", &change.before)?;
    write_what(&mut json, change.what)?;
    json.end_object()?;
    ended(alloc, json)
}

/// The line of a key that is none of the target's.
///
/// # Errors
/// Out of memory.
pub(crate) fn unexpected_line(alloc: Global, key: &str) -> Result<Vec<u8>, AllocError>
    ensures { IfOk result (λ line. line.items ≡ line_of (unexpected_json key.now)) }
{
    let mut json = Writer::new(Vec::with_capacity(alloc, LINE_LEN)?);
    json.begin_object()?;
    json.key("unexpected")?;
    json.string(key)?;
    json.end_object()?;
    ended(alloc, json)
}

/// Writes a member of this name: what a chunk holds of its array, as a box of it, or `null` where that is nothing.
fn write_held(json: &mut Writer, name: &str, held: &Option<ChunkContents>) -> Result<(), AllocError>
    ensures { OnOk result (Adds json.old json.new (key name.now
        ∷ json_tokens (held_json held.now))) }
{
    match held {
        Some(held) => write_box(json, name, &held.elements),
        None => write_null(json, name),
    }
}

/// Writes a member of this name: the shape of a chunk that holds something, or `null` where it holds nothing.
fn write_held_shape(
    json: &mut Writer,
    name: &str,
    held: &Option<ChunkContents>,
) -> Result<(), AllocError>
    ensures { OnOk result (Adds json.old json.new (key name.now
        ∷ json_tokens (held_shape_json held.now))) }
{
    match held {
        Some(held) => write_numbers(json, name, held.shape.as_slice()),
        None => write_null(json, name),
    }
}

/// Writes a member of this name: `null`.
pub(crate) fn write_null(json: &mut Writer, name: &str) -> Result<(), AllocError>
    ensures { OnOk result (Adds json.old json.new (key name.now ∷ null ∷ [])) }
{
    json.key(name)?;
    json.token(Token::Null)
}

/// Writes the member `what`.
fn write_what(json: &mut Writer, what: Change) -> Result<(), AllocError>
    ensures { OnOk result (Adds json.old json.new (key (codes "what")
        ∷ string (change_word what) ∷ [])) }
{
    json.key("what")?;
    json.string(word_of(what))?;
    Ok(())
}

/// What becomes of a chunk, in a word.
fn word_of(what: Change) -> &'static str
    ensures { result.now ≡ change_word what }
{
    match what {
        Change::Keep => "keep",
        Change::Rewrite => "rewrite",
        Change::Delete => "delete",
        Change::Create => "create",
    }
}

/// The line of what a writer has.
fn ended(alloc: Global, json: Writer) -> Result<Vec<u8>, AllocError>
    ensures { IfOk result (λ line. line.items ≡ one_line_of (json.before ++ print json.tokens)) }
{
    one_line(alloc, json.into_inner())
}

/// Writes a member of this name: how many there are, or `null` where no number says it.
pub(crate) fn write_count(
    json: &mut Writer,
    name: &str,
    count: Option<u64>,
) -> Result<(), AllocError>
    ensures { OnOk result (Adds json.old json.new (key name.now ∷ json_tokens (count_json count))) }
{
    json.key(name)?;
    match count {
        Some(count) => json.u64(count),
        None => json.token(Token::Null),
    }
}

/// Writes the member `whole`.
fn write_whole(json: &mut Writer, whole: bool) -> Result<(), AllocError>
    ensures { OnOk result (Adds json.old json.new (key (codes "whole") ∷ boolean whole ∷ [])) }
{
    json.key("whole")?;
    json.token(Token::Bool(whole))
}

/// Writes the member `key`.
fn write_key(json: &mut Writer, store_key: &StoreKey) -> Result<(), AllocError>
    ensures { OnOk result (Adds json.old json.new (key (codes "key")
        ∷ string store_key.now ∷ [])) }
{
    json.key("key")?;
    json.string(store_key.as_str())?;
    Ok(())
}

/// Writes a member of this name: a box, as its start and its shape.
fn write_box(json: &mut Writer, name: &str, subset: &ArraySubset) -> Result<(), AllocError>
    ensures { OnOk result (Adds json.old json.new (key name.now
        ∷ json_tokens (box_json subset.now))) }
{
    json.key(name)?;
    json.begin_array()?;
    write_list(json, subset.start())?;
    write_list(json, subset.shape())?;
    json.end_array()?;
    Ok(())
}

/// Writes a member of this name: a list of numbers.
pub(crate) fn write_numbers(
    json: &mut Writer,
    name: &str,
    numbers: &[u64],
) -> Result<(), AllocError>
    ensures { OnOk result (Adds json.old json.new (key name.now
        ∷ json_tokens (numbers_json numbers.now))) }
{
    json.key(name)?;
    write_list(json, numbers)?;
    Ok(())
}

/// Writes a list of numbers.
pub(crate) fn write_list(json: &mut Writer, numbers: &[u64]) -> Result<(), AllocError>
    ensures { OnOk result (Adds json.old json.new (json_tokens (numbers_json numbers.now))) }
{
    json.begin_array()?;
    for number in numbers {
        json.u64(*number)?;
    }
    json.end_array()?;
    Ok(())
}
