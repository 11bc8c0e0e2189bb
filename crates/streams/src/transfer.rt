//! Bytes from a reader and to a writer, and how a run that moved them ends.
ghost use Rattle.std.specs.Prelude.{◌≡◌, [], ◌++◌, ℕ, List, IfErr, IfOk, IfSome, MatchResult, OnErr, OnOk, Some, codes, false, true};
ghost use Rattle.streams.specs.OneLine.{IsOneLine, line_of};
ghost use Rattle.streams.specs.Told.{TellsError};
ghost use Rattle.streams.specs.Watched.{watched, has_failed, is_flushed, IsReadFailure};
ghost use Rattle.streams.specs.declared.stream_fault.StreamFault.TheVariants.{Write as WriteFailed};

use crate::line_text::one_line;
use crate::stream_fault::StreamFault;
use crate::watched::Watched;
use std::alloc::{AllocError, Global};
use std::fmt::Display;
use std::io::{Read, Write};

/// How many bytes are asked for at once.
pub const BUFFER_LEN: usize = 16384;

/// The line about an error that there is no memory to write about.
const NO_MEMORY: &[u8] = b"out of memory\n";

/// All that a reader has left. A reader that never ends is answered with `Memory`.
///
/// # Errors
/// A read failed; or out of memory.
pub fn read_to_end<R: Read>(alloc: Global, reader: &mut Watched<R>) -> Result<Vec<u8>, StreamFault>
    ensures bytes { IfOk result (λ bytes. IfSome (R.remaining (watched reader.old)) (λ input.
        (bytes.items ≡ input) × (R.remaining (watched reader.new) ≡ Some []))) }
    ensures failed { MatchResult result (λ _. has_failed reader.new ≡ has_failed reader.old)
        (λ fault. IsReadFailure fault (has_failed reader.old) (has_failed reader.new)) }
{
    let mut buffer = [0; BUFFER_LEN];
    let mut bytes = Vec::new(alloc);
    loop {
        let Ok(count) = reader.read(&mut buffer) else {
            return Err(StreamFault::Read);
        };
        if count == 0 {
            return Ok(bytes);
        }
        bytes.extend_from_slice(&buffer[..count])?;
    }
}

/// Writes all bytes, in order, and flushes.
///
/// # Errors
/// A write or the flush failed, or a write took nothing. A beginning of the bytes may have been written.
pub fn write_all<W: Write>(writer: &mut Watched<W>, bytes: &[u8]) -> Result<(), StreamFault>
    ensures ok { OnOk result (IfSome (W.contents (watched writer.old)) (λ held.
        W.contents (watched writer.new) ≡ Some (held ++ bytes.now))) }
    ensures unfailed { OnOk result (has_failed writer.new ≡ has_failed writer.old) }
    ensures flushed { OnOk result (is_flushed writer.new ≡ true) }
    ensures err { OnErr result (IfSome (W.contents (watched writer.old)) (λ held. (written : List ℕ)
        × (rest : List ℕ)
        × (bytes.now ≡ written ++ rest) × (W.contents (watched writer.new)
        ≡ Some (held ++ written)))) }
    ensures failed { IfErr result (λ fault. (fault ≡ WriteFailed) × (has_failed writer.new ≡ true)) }
{
    write_bytes(writer, bytes)?;
    match writer.flush() {
        Ok(()) => Ok(()),
        Err(_) => Err(StreamFault::Write),
    }
}

/// Writes all bytes, in order.
///
/// # Errors
/// A write failed, or took nothing. A beginning of the bytes may have been written.
pub(crate) fn write_bytes<W: Write>(
    writer: &mut Watched<W>,
    bytes: &[u8],
) -> Result<(), StreamFault>
    ensures ok { OnOk result (IfSome (W.contents (watched writer.old)) (λ held.
        W.contents (watched writer.new) ≡ Some (held ++ bytes.now))) }
    ensures unfailed { OnOk result (has_failed writer.new ≡ has_failed writer.old) }
    ensures err { OnErr result (IfSome (W.contents (watched writer.old)) (λ held. (written : List ℕ)
        × (rest : List ℕ)
        × (bytes.now ≡ written ++ rest) × (W.contents (watched writer.new)
        ≡ Some (held ++ written)))) }
    ensures failed { IfErr result (λ fault. (fault ≡ WriteFailed) × (has_failed writer.new ≡ true)) }
{
    let mut rest = bytes;
    while !rest.is_empty() {
        match writer.write(rest) {
            Ok(count) if count > 0 => (_, rest) = rest.split_at(count),
            _ => return Err(StreamFault::Write),
        }
    }
    Ok(())
}

/// Writes a run's error in one line after the program's name, if the run had one, and returns the status to end with: 0, or 1 after an error. What the error
/// displays is escaped as in [`one_line`]. If the line can't be written, the status is the same.
pub fn finish<F: Display, W: Write>(
    alloc: Global,
    program: &str,
    outcome: &Result<(), F>,
    errors: &mut Watched<W>,
) -> u8
    ensures status { MatchResult outcome.now (λ _. result ≡ 0) (λ _. result ≡ 1) }
    ensures silent { OnOk outcome.now (errors.new ≡ errors.old) }
    ensures told { OnErr outcome.now (IfSome (W.contents (watched errors.old)) (λ held.
        TellsError program.now held (W.contents (watched errors.new))
        (has_failed errors.old) (has_failed errors.new))) }
    ensures flushed { OnErr outcome.now (has_failed errors.new ≡ false
        → is_flushed errors.new ≡ true) }
{
    match outcome {
        Ok(()) => 0,
        Err(fault) => {
            tell(alloc, program, fault, errors);
            1
        }
    }
}

/// Writes an error in one line after the program's name, as far as it can be written.
fn tell<F: Display, W: Write>(alloc: Global, program: &str, fault: &F, errors: &mut Watched<W>)
    ensures told { IfSome (W.contents (watched errors.old)) (λ held.
        TellsError program.now held (W.contents (watched errors.new))
        (has_failed errors.old) (has_failed errors.new)) }
    ensures flushed { has_failed errors.new ≡ false → is_flushed errors.new ≡ true }
{
    let _ = match error_line(alloc, program, fault) {
        Ok(line) => write_all(errors, &line),
        Err(_) => write_all(errors, NO_MEMORY),
    };
}

/// Returns the line about an error: the program's name, a colon and what the error displays.
///
/// # Errors
/// Out of memory.
fn error_line<F: Display>(alloc: Global, program: &str, fault: &F) -> Result<Vec<u8>, AllocError>
    ensures one { IfOk result (λ line. IsOneLine line.items) }
    ensures says { IfOk result (λ line. (words : List ℕ)
        × (line.items ≡ line_of (program.now ++ (codes ": " ++ words)))) }
{
    let words = format!(in alloc; "{fault}")?;
    let text = format!(in alloc; "{program}: {words}")?;
    one_line(alloc, text.into_bytes())
}
