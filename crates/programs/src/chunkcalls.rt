//! `chunkcalls` tells what grids and encodings answer, a call a line.
//!
//! | Module | What it holds |
//! |---|---|
//! | `answering` | the lines that answer what is read |
ghost use Rattle.std.specs.Prelude.{◌≡◌, ◌≤◌, ℕ, List, false, IfErr, IfSome, MatchResult, OnErr, OnOk, codes, true};
ghost use Rattle.streams.specs.Told.{TellsError};
ghost use Rattle.streams.specs.declared.stream_fault.StreamFault.TheVariants.{Read as ReadFailed};
ghost use Rattle.streams.specs.Streams.{streams_of};
ghost use Rattle.streams.specs.Watched.{has_failed, is_flushed, watched};
ghost use Rattle.streams.specs.seen.Sent.{HoldsAll, watched_in, written};
ghost use Rattle.programs.specs.chunkcalls.Lines.{HasAnswered, HasAnsweredRead, HasBegunAnswers, HoldsAnswers};
ghost use Rattle.programs.specs.chunkcalls.Run.{RunEndsWith, TellsFailure};

mod answering;

use answering::answer_lines;
use std::alloc::Global;
use std::io::{Read, Write};
pub use streams::{Sink, StreamFault as RunFault, Watched};

/// Runs the program, tells its fault in one line, if it had one, and answers the status to end
/// with: 0 where the run succeeded, and 1 after a fault.
pub fn run_to_status<R: Read, W: Write, E: Write>(
    alloc: Global,
    reader: &mut Watched<R>,
    sink: &mut Sink<W>,
    errors: &mut Watched<E>,
) -> u8
    ensures outcome { IfSome (R.remaining (watched reader.old)) (λ input. (held : List ℕ)
        → HoldsAll held (written W.contents sink.old)
        → has_failed reader.old ≡ false → (written W.contents sink.old).failed ≡ false
        → RunEndsWith input held result
        (streams_of R.remaining W.contents reader.new sink.new)) }
    ensures flushed { result ≡ 0 → is_flushed (watched_in sink.new) ≡ true }
    ensures silent { result ≡ 0 → errors.new ≡ errors.old }
    ensures told { result ≡ 1 → IfSome (E.contents (watched errors.old)) (λ held.
        TellsError (codes "chunkcalls") held (E.contents (watched errors.new))
        (has_failed errors.old) (has_failed errors.new)) }
    ensures told_is_flushed { result ≡ 1 → has_failed errors.new ≡ false
        → is_flushed errors.new ≡ true }
    ensures zero_or_one { result ≤ 1 }
{
    let outcome = run(alloc, reader, sink);
    finish(alloc, &outcome, errors)
}

/// Reads lines to the end, and writes the answer to each, in order. Whoever asks a line at a time gets each answer before asking again.
///
/// # Errors
/// A read or a write failed, or memory ran out. What has been answered by then is written, if it can be.
pub fn run<R: Read, W: Write>(
    alloc: Global,
    reader: &mut Watched<R>,
    sink: &mut Sink<W>,
) -> Result<(), RunFault>
    ensures answered { OnOk result (IfSome (R.remaining (watched reader.old)) (λ input.
        (held : List ℕ) → HoldsAll held (written W.contents sink.old)
        → HasAnswered input held (written W.contents sink.new).holds)) }
    ensures says { OnOk result (IfSome (R.remaining (watched reader.old)) (λ input.
        (held : List ℕ) → HoldsAll held (written W.contents sink.old)
        → HoldsAnswers input held (written W.contents sink.new).holds)) }
    ensures no_read_failed { OnOk result (has_failed reader.new ≡ has_failed reader.old) }
    ensures no_write_failed { OnOk result ((written W.contents sink.new).failed
        ≡ (written W.contents sink.old).failed) }
    ensures flushed { OnOk result (is_flushed (watched_in sink.new) ≡ true) }
    ensures failed { IfErr result (λ fault. TellsFailure fault
        (has_failed reader.old) (has_failed reader.new) (written W.contents sink.new).failed) }
    ensures begun { OnErr result (IfSome (R.remaining (watched reader.old)) (λ input.
        (held : List ℕ) → HoldsAll held (written W.contents sink.old)
        → HasBegunAnswers input held (written W.contents sink.new).holds)) }
    ensures read { IfErr result (λ fault. fault ≡ ReadFailed
        → IfSome (R.remaining (watched reader.old)) (λ input.
        (held : List ℕ) → HoldsAll held (written W.contents sink.old)
        → HasAnsweredRead input held (R.remaining (watched reader.new))
        (written W.contents sink.new).holds)) }
{
    match answer_lines(alloc, reader, sink) {
        Ok(()) => sink.flush(),
        Err(RunFault::Write) => Err(RunFault::Write),
        Err(fault) => {
            // What has been answered by then is written, if it can be.
            let _ = sink.flush();
            Err(fault)
        }
    }
}

/// Writes a run's error in one line, if the run had one, and returns the status to end with: 0, or 1
/// after an error. If the line can't be written, the status is the same.
pub fn finish<W: Write>(
    alloc: Global,
    outcome: &Result<(), RunFault>,
    errors: &mut Watched<W>,
) -> u8
    ensures status { MatchResult outcome.now (λ _. result ≡ 0) (λ _. result ≡ 1) }
    ensures silent { OnOk outcome.now (errors.new ≡ errors.old) }
    ensures told { OnErr outcome.now (IfSome (W.contents (watched errors.old)) (λ held.
        TellsError (codes "chunkcalls") held (W.contents (watched errors.new))
        (has_failed errors.old) (has_failed errors.new))) }
    ensures flushed { OnErr outcome.now (has_failed errors.new ≡ false
        → is_flushed errors.new ≡ true) }
{
    streams::finish(alloc, "chunkcalls", outcome, errors)
}
