//! The words of a program's command line.
ghost use Rattle.std.specs.Prelude.{◌≡◌, ◌++◌, ◌≤◌, IfErr, IfSome, None, OnErr, OnOk, Some, codes, false, true};
ghost use Rattle.std.specs.Result.{result_map_both};
ghost use Rattle.streams.specs.Told.{HasBegunText, TellsError};
ghost use Rattle.streams.specs.Watched.{has_failed, is_flushed, watched};
ghost use Rattle.streams.specs.declared.stream_fault.StreamFault.TheVariants.{Write as WriteFailed};
ghost use Rattle.programs.specs.Words.{AnswersWords, asked_by};
ghost use Rattle.programs.specs.declared.words.Asked.TheVariants.{Unknown};
ghost use Rattle.programs.specs.declared.words.WordsFault.TheVariants.{Output};

use std::alloc::Global;
use std::env::{Env, FillError};
use std::io::Write;
use streams::{StreamFault, Watched, finish, write_all};
use thiserror::Error;

/// The version of this library and of its programs.
const VERSION: &str = "0.1.0";

/// Room for the longest word that a program takes.
const LONGEST: usize = 16;

/// What a command line asks a program for.
#[derive(Clone, Copy, Debug, PartialEq, Eq)]
pub enum Asked {
    /// There are no words: the program is to run.
    Run,
    /// `--help` alone.
    Help,
    /// `--version` alone.
    Version,
    /// Any other word, or more than one.
    Unknown,
}

/// Why a command line has no answer.
#[derive(Debug, Drop, Error)]
enum WordsFault {
    /// There is a word that the program doesn't take, or a second one.
    #[error("it takes `--help` or `--version`, or no word")]
    Unknown,
    /// The text can't be written.
    #[error(transparent)]
    Output(StreamFault),
}

impl From<StreamFault> for WordsFault {
    ghost from_gives = { λ told fault. fault ≡ Output told };

    fn from(told: StreamFault) -> WordsFault {
        WordsFault::Output(told)
    }
}

/// Returns what the words after the program's name ask for.
pub fn read_words<R: Env>(rt: &R) -> Asked {
    let mut word = [0; LONGEST];
    let first = match rt.arg(1, &mut word) {
        Ok(length) => Ok(&word[..length]),
        Err(why) => Err(why),
    };
    let second = rt.arg(2, &mut [0; LONGEST]);
    asked_by(first, matches!(second, Err(FillError::NotPresent)))
}

/// Returns what words ask for, by the first, or by why it wasn't read, and by whether it is alone.
fn asked_by(first: Result<&[u8], FillError>, alone: bool) -> Asked
    ensures { result
        ≡ asked_by (result_map_both (λ word. word.now) (λ why. why) first.entry) alone }
{
    match first {
        Err(FillError::NotPresent) => Asked::Run,
        Ok(word) if alone && word == b"--help".as_slice() => Asked::Help,
        Ok(word) if alone && word == b"--version".as_slice() => Asked::Version,
        _ => Asked::Unknown,
    }
}

/// Answers what the words of a command line ask for, and gives the status to end with; `None` where the program is to run. `--help` is answered by the
/// text that is given, `--version` by the version. Any other word is a fault, which is told in one line. The status is 0, or 1 after a fault.
pub fn answer_words<W: Write, E: Write>(
    alloc: Global,
    asked: Asked,
    program: &str,
    help: &str,
    writer: &mut Watched<W>,
    errors: &mut Watched<E>,
) -> Option<u8>
    ensures answered { IfSome (W.contents (watched writer.old)) (λ held.
        AnswersWords asked help.now result held (W.contents (watched writer.new))
        (has_failed writer.new)) }
    ensures unfailed { result ≡ Some 0 → has_failed writer.new ≡ has_failed writer.old }
    ensures flushed { result ≡ Some 0 → is_flushed writer.new ≡ true }
    ensures silent { result ≡ Some 0 → errors.new ≡ errors.old }
    ensures told { result ≡ Some 1 → IfSome (E.contents (watched errors.old)) (λ held.
        TellsError program.now held (E.contents (watched errors.new))
        (has_failed errors.old) (has_failed errors.new)) }
    ensures told_is_flushed { result ≡ Some 1 → has_failed errors.new ≡ false
        → is_flushed errors.new ≡ true }
    ensures unknown_unwritten { asked ≡ Unknown → writer.new ≡ writer.old }
    ensures none_written { result ≡ None → writer.new ≡ writer.old }
    ensures none_told { result ≡ None → errors.new ≡ errors.old }
    ensures zero_or_one { IfSome result (λ status. status ≤ 1) }
{
    let outcome = match asked {
        Asked::Run => return None,
        Asked::Help => write_line(writer, help),
        Asked::Version => write_line(writer, VERSION),
        Asked::Unknown => Err(WordsFault::Unknown),
    };
    Some(finish(alloc, program, &outcome, errors))
}

/// Writes a text and a line feed, and flushes.
///
/// # Errors
/// A write or the flush failed. A beginning of the text and its line feed may have been written.
fn write_line<W: Write>(writer: &mut Watched<W>, text: &str) -> Result<(), WordsFault>
    ensures written { OnOk result (IfSome (W.contents (watched writer.old)) (λ held.
        W.contents (watched writer.new) ≡ Some (held ++ (text.now ++ codes "\n")))) }
    ensures unfailed { OnOk result (has_failed writer.new ≡ has_failed writer.old) }
    ensures flushed { OnOk result (is_flushed writer.new ≡ true) }
    ensures begun { OnErr result (IfSome (W.contents (watched writer.old)) (λ held.
        HasBegunText (text.now ++ codes "\n") held (W.contents (watched writer.new)))) }
    ensures failed { IfErr result (λ fault. (fault ≡ Output WriteFailed)
        × (has_failed writer.new ≡ true)) }
{
    write_all(writer, text.as_bytes())?;
    write_all(writer, b"\n")?;
    Ok(())
}
