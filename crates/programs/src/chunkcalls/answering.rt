//! The lines that answer what is read.
ghost use Rattle.std.specs.Prelude.{◌≡◌, ◌≢◌, ◌<◌, ◌++◌, ◌∷◌, [], ℕ, List, IfErr, IfOk, IfSome, MatchResult, OnErr, OnOk, length};
ghost use Rattle.streams.specs.OneLine.{IsOneLine};
ghost use Rattle.streams.specs.declared.stream_fault.StreamFault.TheVariants.{Read as ReadFailed};
ghost use Rattle.streams.specs.Watched.{IsWriteFailure, has_failed, watched};
ghost use Rattle.programs.specs.chunkcalls.Lines.{AreAnswers, IsReply, IsReplyTo};
ghost use Rattle.programs.specs.chunkcalls.Run.{TellsFailure};
ghost use Rattle.programs.specs.chunkcalls.seen.Answered.{HasAnsweredBefore, HasAnsweredPiece, HasStopped, HasStoppedAt, HasStoppedIn, IsBegun};
ghost use Rattle.streams.specs.seen.Sent.{IsSent, written};

use crate::chunkcalls::RunFault;
use std::alloc::{AllocError, Global};
use std::io::{Read, Write};
use streams::{BUFFER_LEN, Sink, Watched};
use zarrs_chunk_questions::answer_within;

/// How many bytes a line may have.
const LONGEST_LINE: usize = 1 << 24;

/// How many bytes the items of an answer may take, if each number counts as one digit and a byte after it, and each item as a byte more.
const ROOM: usize = 1 << 18;

const LONG_LINE: &[u8] = b"unreadable: line is longer than 16777216 bytes\n";

const LONG_ANSWER: &[u8] =
    b"refused: answer is too long: ask for fewer `items`, and for the others by `first`\n";

/// Sends the answer to each line that a reader has left, in order. What was read is answered before more is asked for.
///
/// # Errors
/// A read or a write failed; or out of memory.
pub(crate) fn answer_lines<R: Read, W: Write>(
    alloc: Global,
    reader: &mut Watched<R>,
    sink: &mut Sink<W>,
) -> Result<(), RunFault>
    ensures answered { OnOk result (IfSome (R.remaining (watched reader.old)) (λ input.
        (answers : List ℕ) × AreAnswers input answers
        × IsSent (written W.contents sink.old) (written W.contents sink.new) answers)) }
    ensures no_read_failed { OnOk result (has_failed reader.new ≡ has_failed reader.old) }
    ensures no_write_failed { OnOk result ((written W.contents sink.new).failed
        ≡ (written W.contents sink.old).failed) }
    ensures failed { IfErr result (λ fault. TellsFailure fault
        (has_failed reader.old) (has_failed reader.new) (written W.contents sink.new).failed) }
    ensures stopped { IfErr result (λ fault. IfSome (R.remaining (watched reader.old)) (λ input.
        HasStopped input fault (written W.contents sink.old) (written W.contents sink.new))) }
    ensures read { IfErr result (λ fault. fault ≡ ReadFailed
        → IfSome (R.remaining (watched reader.old)) (λ input.
        HasAnsweredBefore input (R.remaining (watched reader.new))
        (written W.contents sink.old) (written W.contents sink.new))) }
{
    let mut buffer = [0; BUFFER_LEN];
    let mut line = Vec::new(alloc);
    for _ in 0..u64::MAX {
        let Ok(count) = reader.read(&mut buffer) else {
            return Err(RunFault::Read);
        };
        if count == 0 {
            return answer_rest(alloc, &line, sink);
        }
        answer_piece(alloc, &buffer[..count], &mut line, sink)?;
        sink.flush()?;
    }
    // No input is so long.
    Err(RunFault::Memory)
}

/// Sends the answer to each line that ends in a piece of the input, of which the first begins with the bytes of `line`. What comes behind the last
/// of them is in `line` then, as far as it isn't too long.
///
/// # Errors
/// A write failed; or out of memory.
fn answer_piece<W: Write>(
    alloc: Global,
    piece: &[u8],
    line: &mut Vec<u8>,
    sink: &mut Sink<W>,
) -> Result<(), RunFault>
    ensures answered { OnOk result ((whole : List ℕ) → IsBegun whole line.old.items
        → HasAnsweredPiece whole piece.now line.new.items
        (written W.contents sink.old) (written W.contents sink.new)) }
    ensures failed { MatchResult result
        (λ _. (written W.contents sink.new).failed ≡ (written W.contents sink.old).failed)
        (λ fault. IsWriteFailure fault (written W.contents sink.old).failed
        (written W.contents sink.new).failed) }
    ensures stopped { IfErr result (λ fault. (whole : List ℕ) → IsBegun whole line.old.items
        → HasStoppedIn whole piece.now fault (written W.contents sink.old) (written W.contents sink.new)) }
{
    for byte in piece {
        if *byte != b'\n' {
            push_within(line, *byte)?;
            continue;
        }
        answer_line(alloc, line, sink)?;
        line.clear();
    }
    Ok(())
}

/// Appends a byte to a line that isn't too long yet.
///
/// # Errors
/// Out of memory.
fn push_within(line: &mut Vec<u8>, byte: u8) -> Result<(), AllocError>
    ensures { OnOk result ((whole : List ℕ) → byte ≢ 10 → IsBegun whole line.old.items
        → IsBegun (whole ++ byte ∷ []) line.new.items) }
{
    if line.len() <= LONGEST_LINE {
        line.push(byte)?;
    }
    Ok(())
}

/// Sends the answer to a last line that no line feed ends, if there is one.
///
/// # Errors
/// A write failed; or out of memory.
fn answer_rest<W: Write>(alloc: Global, line: &[u8], sink: &mut Sink<W>) -> Result<(), RunFault>
    ensures answered { OnOk result ((whole : List ℕ) → IsBegun whole line.now
        → (answers : List ℕ) × AreAnswers whole answers
        × IsSent (written W.contents sink.old) (written W.contents sink.new) answers) }
    ensures failed { MatchResult result
        (λ _. (written W.contents sink.new).failed ≡ (written W.contents sink.old).failed)
        (λ fault. IsWriteFailure fault (written W.contents sink.old).failed
        (written W.contents sink.new).failed) }
    ensures stopped { IfErr result (λ fault. HasStoppedAt line.now fault
        (written W.contents sink.old) (written W.contents sink.new)) }
    ensures some { OnErr result (0 < length line.now) }
{
    if line.is_empty() {
        return Ok(());
    }
    answer_line(alloc, line, sink)
}

/// Sends the answer to a line.
///
/// # Errors
/// A write failed; or out of memory.
fn answer_line<W: Write>(alloc: Global, line: &[u8], sink: &mut Sink<W>) -> Result<(), RunFault>
    ensures answered { OnOk result ((answer : List ℕ) × IsReplyTo line.now answer
        × IsSent (written W.contents sink.old) (written W.contents sink.new) answer) }
    ensures failed { MatchResult result
        (λ _. (written W.contents sink.new).failed ≡ (written W.contents sink.old).failed)
        (λ fault. IsWriteFailure fault (written W.contents sink.old).failed
        (written W.contents sink.new).failed) }
    ensures stopped { IfErr result (λ fault. HasStoppedAt line.now fault
        (written W.contents sink.old) (written W.contents sink.new)) }
{
    let reply = reply_to(alloc, line)?;
    sink.send(&reply)
}

/// What is written for a line.
///
/// # Errors
/// Out of memory.
fn reply_to(alloc: Global, line: &[u8]) -> Result<Vec<u8>, AllocError>
    ensures one { IfOk result (λ reply. IsOneLine reply.items) }
    ensures says { IfOk result (λ reply. IsReply line.now reply.items) }
{
    if line.len() > LONGEST_LINE {
        let reply = Vec::from_slice(alloc, LONG_LINE)?;
        return Ok(reply);
    }
    if let Some(answer) = answer_within(alloc, line, ROOM)? {
        return Ok(answer);
    }
    let reply = Vec::from_slice(alloc, LONG_ANSWER)?;
    Ok(reply)
}
