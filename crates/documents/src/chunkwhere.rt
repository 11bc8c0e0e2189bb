//! `chunkwhere` tells where the elements of a Zarr array are stored.
//!
//! | Module | What it holds |
//! |---|---|
//! | `document`, `answer` | the two steps between reading and writing: understand, answer |
//! | `run_fault` | why a run stops |
ghost use Rattle.std.specs.Prelude.{◌≡◌, ◌≤◌, false, IfSome, MatchResult, OnErr, OnOk, codes, string_bytes, true};
ghost use Rattle.streams.specs.Told.{TellsError};
ghost use Rattle.streams.specs.Watched.{watched, has_failed, is_flushed};
ghost use Rattle.documents.specs.Reading.{IsReadOr};
ghost use Rattle.documents.specs.chunkwhere.Run.{RunEndsWith, RunLeaves, text_of};
ghost use Rattle.documents.specs.declared.chunkwhere.run_fault.RunFault.TheVariants.{Memory};

mod answer;
mod document;
mod run_fault;

use answer::answer;
use document::parse;
pub use run_fault::RunFault;
use std::alloc::Global;
use std::io::{Read, Write};
pub use streams::Watched;
use streams::{read_to_end, write_all};

/// Runs the program, tells its fault in one line, if it had one, and answers the status to end with:
/// 0 where the run succeeded, and 1 after a fault.
pub fn run_to_status<R: Read, W: Write, E: Write>(
    alloc: Global,
    reader: &mut Watched<R>,
    writer: &mut Watched<W>,
    errors: &mut Watched<E>,
) -> u8
    ensures outcome { IfSome (R.remaining (watched reader.old)) (λ input.
        IfSome (W.contents (watched writer.old)) (λ held.
        has_failed reader.old ≡ false → has_failed writer.old ≡ false
        → RunEndsWith input held result (record {
          left = R.remaining (watched reader.new);
          read_failed = has_failed reader.new;
          holds = W.contents (watched writer.new);
          write_failed = has_failed writer.new;
        }))) }
    ensures flushed { result ≡ 0 → is_flushed writer.new ≡ true }
    ensures silent { result ≡ 0 → errors.new ≡ errors.old }
    ensures told { result ≡ 1 → IfSome (E.contents (watched errors.old)) (λ held.
        TellsError (codes "chunkwhere") held (E.contents (watched errors.new))
        (has_failed errors.old) (has_failed errors.new)) }
    ensures told_is_flushed { result ≡ 1 → has_failed errors.new ≡ false
        → is_flushed errors.new ≡ true }
    ensures zero_or_one { result ≤ 1 }
{
    let outcome = run(alloc, reader, writer);
    finish(alloc, &outcome, errors)
}

/// Reads a document to its end and writes where the elements of its `indices` are stored: a line
/// for each, in order, with the key of the chunk and the place in the chunk, or `-` where no chunk
/// holds the element. Behind them stands a line for each of its `keys`, if it has any: the numbers of
/// the chunk that has the key, or `-`. Nothing is written before the whole text stands.
///
/// # Errors
/// The first fault; or out of memory. A failed read comes first, then a text that is no JSON, then
/// a document that isn't of its form (all members have to be there before the form of one is looked
/// at, in the order `shape`, `chunk_grid`, `chunk_key_encoding`, `indices`, `keys`), then a grid or an
/// encoding that can't be made, then an index list of a wrong length, then a failed write.
pub fn run<R: Read, W: Write>(
    alloc: Global,
    reader: &mut Watched<R>,
    writer: &mut Watched<W>,
) -> Result<(), RunFault>
    ensures leaves { IfSome (R.remaining (watched reader.old))
        (λ input. IfSome (W.contents (watched writer.old)) (λ held.
        has_failed reader.old ≡ false → has_failed writer.old ≡ false
        → RunLeaves input held result (record {
          left = R.remaining (watched reader.new);
          read_failed = has_failed reader.new;
          holds = W.contents (watched writer.new);
          write_failed = has_failed writer.new;
        }))) }
    ensures flushed { OnOk result (is_flushed writer.new ≡ true) }
{
    let input = read_to_end(alloc, reader)?;
    let text = answer_input(alloc, input)?;
    write_all(writer, text.as_bytes())?;
    Ok(())
}

/// The text that answers an input, or the first fault.
fn answer_input(alloc: Global, input: Vec<u8>) -> Result<String, RunFault>
    ensures { IsReadOr Memory string_bytes (text_of input.items) result }
{
    let document = parse(alloc, &input)?;
    drop(input);
    answer(alloc, document)
}

/// Writes a run's error in one line, if the run had one, and returns the status to end with: 0, or 1
/// after an error. If the line can't be written, the status is the same.
pub fn finish<W: Write>(
    alloc: Global,
    outcome: &Result<(), RunFault>,
    errors: &mut Watched<W>,
) -> u8
    ensures status { MatchResult outcome.now (λ _. result ≡ 0) (λ _. result ≡ 1) }
    ensures silent { OnOk outcome.now (errors.new ≡ errors.old) }
    ensures told { OnErr outcome.now (IfSome (W.contents (watched errors.old)) (λ held.
        TellsError (codes "chunkwhere") held (W.contents (watched errors.new))
        (has_failed errors.old) (has_failed errors.new))) }
    ensures flushed { OnErr outcome.now (has_failed errors.new ≡ false
        → is_flushed errors.new ≡ true) }
{
    streams::finish(alloc, "chunkwhere", outcome, errors)
}
