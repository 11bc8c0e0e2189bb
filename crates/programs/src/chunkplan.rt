//! `chunkplan` writes the plan of a read of a Zarr array, a line for each chunk. It writes the plan of a rechunking or of the copy of a region, a line for
//! each task, or for each that a store lacks. And it writes the plan of a resize, a line for each chunk that must be created, rewritten or deleted.
//!
//! | Module | What it holds |
//! |---|---|
//! | `document` | the document that a JSON tree stands for |
//! | `keys` | the keys behind a document |
//! | `known_members` | the members that a document may have |
//! | `member_rules` | which members go together |
//! | `members` | what a member says, in the form in which a document writes it |
//! | `ranges` | the byte ranges that a document wants in the lines of a read |
//! | `opened` | the arrays that a document stores, and the walks over them |
//! | `plan` | the plan that a document asks for |
//! | `task_choice` | the tasks that a document wants |
//! | `route` | the arrays by way of which a copy is made, and its stages |
//! | `stages` | the elements of a copy, and its stages |
//! | `task_lines` | the lines of tasks, sent as they are made |
//! | `copying` | parts and changes of chunks, sent as they are made |
//! | `line` | one line |
//! | `part_ranges` | the byte ranges of a part, as a line has them |
//! | `counting` | the counts of a plan, and the counts of all stages of a copy by tasks, as one line |
//! | `resume` | what is left of a plan beside keys |
//! | `product` | products of numbers, in decimal digits |
//! | `run_fault` | why a run stops |
ghost use Rattle.std.specs.Prelude.{◌≡◌, ◌≤◌, ◌⊎◌, [], ℕ, false, IfErr, IfOk, IfSome, List, MatchResult, Err, OnErr, OnOk, Some, codes, true};
ghost use Rattle.streams.specs.Told.{TellsError};
ghost use Rattle.streams.specs.Watched.{has_failed, is_flushed, watched};
ghost use Rattle.documents.specs.Reading.{IsReadOr};
ghost use Rattle.programs.specs.chunkplan.Document.{document_in, document_of};
ghost use Rattle.programs.specs.chunkplan.Keys.{HasKeysBehind, first_line};
ghost use Rattle.programs.specs.chunkplan.Planned.{IsPlanOf, IsWholeFault, text_of_line, whole_in};
ghost use Rattle.streams.specs.seen.Lines.{left};
ghost use Rattle.programs.specs.chunkplan.Run.{FailsAfterDocument, RunEndsWith, RunLeaves};
ghost use Rattle.programs.specs.chunkplan.seen.Reads.{ReadFailsAfter};
ghost use Rattle.programs.specs.chunkplan.seen.Steps.{InputStepLeaves, Leaves, ReadLeaves};
ghost use Rattle.programs.specs.chunkplan.RunFault.{is_not_json};
ghost use Rattle.programs.specs.declared.chunkplan.run_fault.RunFault.TheVariants.{Memory, Read as ReadFailed};
ghost use Rattle.streams.specs.Streams.{streams_of};
ghost use Rattle.streams.specs.seen.Sent.{HoldsAll, watched_in, written};

mod copying;
mod counting;
mod document;
mod keys;
mod known_members;
mod line;
mod member_rules;
mod members;
mod opened;
mod part_ranges;
mod plan;
mod product;
mod ranges;
mod resume;
mod route;
mod run_fault;
mod stages;
mod task_choice;
mod task_lines;

use document::{Document, parse};
use keys::{closed_lines, has_keys_behind};
pub use known_members::UnknownMember;
pub use member_rules::MemberRule;
use plan::write_plan;
use resume::write_beside_keys;
pub use run_fault::RunFault;
use std::alloc::{AllocError, Global};
use std::io::{Read, Write};
use streams::Lines;
pub use streams::{Sink, Watched};

/// Runs the program, tells its fault in one line, if it had one, and answers the status to end with:
/// 0 where the run succeeded, and 1 after a fault.
pub fn run_to_status<R: Read, W: Write, E: Write>(
    alloc: Global,
    reader: &mut Watched<R>,
    sink: &mut Sink<W>,
    errors: &mut Watched<E>,
) -> u8
    ensures outcome { IfSome (R.remaining (watched reader.old)) (λ input. (held : List ℕ)
        → HoldsAll held (written W.contents sink.old)
        → has_failed reader.old ≡ false → (written W.contents sink.old).failed ≡ false
        → RunEndsWith input held result
        (streams_of R.remaining W.contents reader.new sink.new)) }
    ensures flushed { result ≡ 0 → is_flushed (watched_in sink.new) ≡ true }
    ensures silent { result ≡ 0 → errors.new ≡ errors.old }
    ensures told { result ≡ 1 → IfSome (E.contents (watched errors.old)) (λ held.
        TellsError (codes "chunkplan") held (E.contents (watched errors.new))
        (has_failed errors.old) (has_failed errors.new)) }
    ensures told_is_flushed { result ≡ 1 → has_failed errors.new ≡ false
        → is_flushed errors.new ≡ true }
    ensures zero_or_one { result ≤ 1 }
{
    let outcome = run(alloc, reader, sink);
    finish(alloc, &outcome, errors)
}

/// Reads a document to its end, and writes the plan that it asks for, line by line as the lines are made. Where `keys` is true in a document that is
/// the first line, the lines behind it are keys of the target's store: they are read to their end, and then what the store hasn't is written.
///
/// # Errors
/// The first fault: a failed read; a text that is no JSON, or no object; a member that isn't known, then one that is missing, then one that
/// doesn't go with the others, then one that isn't of its form; a grid or an encoding that can't be made, then those of the target; a box with
/// another number of dimensions; a box of elements that has no cover, where it isn't clipped to the array; a region that doesn't lie in the array, or
/// in the target's; no tasks that fit, no such stage, or several stages; a grid of the new shape that can't be made. If keys follow the document, then more lines than there are bits for, and then a failed read or a line that isn't UTF-8,
/// whichever comes first. If keys follow a document of several lines, this is the fault in place of no JSON. Nothing has been written then. After a
/// failed write, or where memory runs out, a beginning of the plan may have been written.
pub fn run<R: Read, W: Write>(
    alloc: Global,
    reader: &mut Watched<R>,
    sink: &mut Sink<W>,
) -> Result<(), RunFault>
    ensures leaves { IfSome (R.remaining (watched reader.old)) (λ input. (held : List ℕ)
        → HoldsAll held (written W.contents sink.old)
        → has_failed reader.old ≡ false → (written W.contents sink.old).failed ≡ false
        → RunLeaves input held result (streams_of R.remaining W.contents reader.new sink.new)) }
    ensures flushed { OnOk result (is_flushed (watched_in sink.new) ≡ true) }
{
    answer_input(alloc, reader, sink)?;
    sink.flush()?;
    Ok(())
}

/// Reads an input, and sends the plan that it asks for.
fn answer_input<R: Read, W: Write>(
    alloc: Global,
    reader: &mut Watched<R>,
    sink: &mut Sink<W>,
) -> Result<(), RunFault>
    ensures leaves { IfSome (R.remaining (watched reader.old)) (λ input.
        has_failed reader.old ≡ false
        → InputStepLeaves input result (has_failed reader.new) (R.remaining (watched reader.new))
        (written W.contents sink.old) (written W.contents sink.new)) }
    ensures read { IfErr result (λ fault. fault ≡ ReadFailed
        → IfSome (R.remaining (watched reader.old))
        (λ input. FailsAfterDocument input (R.remaining (watched reader.new)))) }
{
    let mut lines = Lines::new(alloc);
    let mut input = Vec::new(alloc);
    let ended = lines.read_line(reader, &mut input)?;
    if has_keys_behind(alloc, &input)? {
        return answer_beside_keys(alloc, input, &mut lines, reader, sink);
    }
    if ended {
        lines.read_rest(reader, &mut input)?;
    }
    answer(alloc, input, sink)
}

/// Sends what is left of the plan that a first line asks for, of a store with the keys behind it.
fn answer_beside_keys<R: Read, W: Write>(
    alloc: Global,
    line: Vec<u8>,
    lines: &mut Lines,
    reader: &mut Watched<R>,
    sink: &mut Sink<W>,
) -> Result<(), RunFault>
    requires { HasKeysBehind line.items }
    ensures leaves { (bytes : List ℕ)
        → left lines.old (R.remaining (watched reader.old)) ≡ Some bytes
        → ReadLeaves (text_of_line line.items bytes) result
        (has_failed reader.old) (has_failed reader.new) (R.remaining (watched reader.new))
        (written W.contents sink.old) (written W.contents sink.new) }
    ensures keys_last { ReadFailsAfter (text_of_line line.items []) result }
{
    let document = parse(alloc, &line)?;
    drop(line);
    write_beside_keys(alloc, document, lines, reader, sink)
}

/// Sends the plan that an input asks for, which is all a document.
fn answer<W: Write>(alloc: Global, input: Vec<u8>, sink: &mut Sink<W>) -> Result<(), RunFault>
    ensures { (¬ HasKeysBehind (first_line input.items))
        → Leaves (IsPlanOf input.items) result
        (written W.contents sink.old) (written W.contents sink.new) }
{
    let document = parse_whole(alloc, &input)?;
    drop(input);
    if document.keys {
        return Err(RunFault::KeysOfLongDocument);
    }
    write_plan(alloc, document, sink)
}

/// Returns the document that an input is the text of, if its first line has no keys after it.
///
/// # Errors
/// As of `parse`. An input that is no JSON, but a document of several lines with keys after it, isn't one line.
fn parse_whole(alloc: Global, input: &[u8]) -> Result<Document, RunFault>
    ensures { IsReadOr Memory document_of (whole_in input.now) result }
{
    match parse(alloc, input) {
        Ok(document) => Ok(document),
        Err(fault) => Err(whole_fault(alloc, input, fault)?),
    }
}

/// Returns the fault of an input that is no document, by what is wrong with its text.
///
/// # Errors
/// Out of memory.
fn whole_fault(alloc: Global, input: &[u8], fault: RunFault) -> Result<RunFault, AllocError>
    requires { (fault ≡ Memory) ⊎ document_in input.now (Err fault) }
    ensures { IfOk result (λ told. (told ≡ Memory) ⊎ IsWholeFault input.now told) }
{
    if !is_not_json(&fault) {
        return Ok(fault);
    }
    if has_keys_behind(alloc, closed_lines(input))? {
        return Ok(RunFault::KeysOfLongDocument);
    }
    Ok(RunFault::NotJson)
}

/// Whether a fault is that the input is no text of JSON.
fn is_not_json(fault: &RunFault) -> bool
    ensures { result ≡ is_not_json fault.now }
{
    matches!(fault, RunFault::NotJson)
}

/// Writes a run's error in one line, if the run had one, and returns the status to end with: 0, or 1
/// after an error. If the line can't be written, the status is the same.
pub fn finish<W: Write>(
    alloc: Global,
    outcome: &Result<(), RunFault>,
    errors: &mut Watched<W>,
) -> u8
    ensures status { MatchResult outcome.now (λ _. result ≡ 0) (λ _. result ≡ 1) }
    ensures silent { OnOk outcome.now (errors.new ≡ errors.old) }
    ensures told { OnErr outcome.now (IfSome (W.contents (watched errors.old)) (λ held.
        TellsError (codes "chunkplan") held (W.contents (watched errors.new))
        (has_failed errors.old) (has_failed errors.new))) }
    ensures flushed { OnErr outcome.now (has_failed errors.new ≡ false
        → is_flushed errors.new ≡ true) }
{
    streams::finish(alloc, "chunkplan", outcome, errors)
}
