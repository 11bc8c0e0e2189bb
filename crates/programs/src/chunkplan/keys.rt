//! The keys behind a document, a line each.
ghost use Rattle.std.specs.Prelude.{◌≡◌, ◌↔◌, ◌⊎◌, ◌++◌, ◌+◌, ◌<◌, ◌≤◌, ◌^◌, ◌∷◌};
ghost use Rattle.programs.specs.chunkplan.Common.{[], length, ℕ, IfErr, IfOk, IfSome, IsTrue, List, OnOk, Some, IsUtf8, has_failed, watched};
ghost use Rattle.programs.specs.chunkplan.Common.{KeyNotText, Memory, left};
ghost use Rattle.std.specs.Io.BufRead.{take_through};
ghost use Rattle.programs.specs.chunkplan.Keys.{AreKeys, HasKeysBehind, IsKeyOfTarget, braces_after, closed_length, closed_lines, unended};
ghost use Rattle.programs.specs.chunkplan.seen.Resume.{HaveMarked, HaveNoted, IsKeysStop, with_line};
ghost use Rattle.programs.specs.chunkplan.seen.Opened.{dimensions_of, key_of};

use crate::chunkplan::RunFault;
use crate::chunkplan::line::unexpected_line;
use crate::chunkplan::opened::OpenedArray;
use std::alloc::{AllocError, Global};
use std::io::Read;
use streams::{Lines, Watched};
use zarrs_chunk_base::{StoreKey, read_json};
use zarrs_chunk_plan::StoredChunks;

/// Whether a first line is a document in which `keys` is true.
///
/// # Errors
/// Out of memory.
pub(crate) fn has_keys_behind(alloc: Global, line: &[u8]) -> Result<bool, AllocError>
    ensures { IfOk result (λ has. IsTrue has ↔ HasKeysBehind line.now) }
{
    let Some(tree) = read_json(alloc, line)? else {
        return Ok(false);
    };
    match tree.get("keys") {
        Some(keys) => Ok(keys.as_bool() == Some(true)),
        None => Ok(false),
    }
}

/// Returns the lines of an input up to the first one at whose end no brace is open.
pub(crate) fn closed_lines(input: &[u8]) -> &[u8]
    ensures { result.now ≡ closed_lines input.now }
{
    &input[..closed_length(input)]
}

/// Returns how many bytes these lines have.
fn closed_length(input: &[u8]) -> usize
    ensures says { result ≡ closed_length 0 input.now }
    ensures within { result ≤ length input.now }
{
    let mut braces = 0;
    let mut length = 0;
    let mut rest = input;
    while let Some((byte, behind)) = rest.split_first() {
        length += 1;
        if *byte == b'\n' && braces == 0 {
            return length;
        }
        braces = braces_after(braces, *byte);
        rest = behind;
    }
    length
}

/// Returns how many braces are open after a byte.
fn braces_after(braces: usize, byte: u8) -> usize
    requires { braces + 1 < 2 ^ 64 }
    ensures { result ≡ braces_after braces byte }
{
    match byte {
        b'{' => braces + 1,
        b'}' => braces.saturating_sub(1),
        _ => braces,
    }
}

/// Notes each key in the lines that a reader has left: marks the target's chunk of that key, or appends the line of a key that is none of the
/// target's.
///
/// # Errors
/// A read failed; a key is no text; or out of memory.
pub(crate) fn note_keys<R: Read>(
    alloc: Global,
    target: &OpenedArray,
    stored: &mut StoredChunks,
    unexpected: &mut Vec<u8>,
    lines: &mut Lines,
    reader: &mut Watched<R>,
) -> Result<(), RunFault>
    ensures noted { OnOk result ((bytes : List ℕ) (targets : List (List ℕ))
        → left lines.old (R.remaining (watched reader.old)) ≡ Some bytes
        → HaveNoted (dimensions_of target.now) (key_of target.now) targets []
        stored.old unexpected.old.items
        → (keys : List (List ℕ)) × AreKeys bytes keys
        × HaveNoted (dimensions_of target.now) (key_of target.now) targets keys
        stored.new unexpected.new.items) }
    ensures end { OnOk result (IfSome (left lines.old (R.remaining (watched reader.old)))
        (λ _. R.remaining (watched reader.new) ≡ Some [])) }
    ensures refused { IfErr result (λ fault. IsKeysStop fault
        (left lines.old (R.remaining (watched reader.old)))
        (has_failed reader.old) (has_failed reader.new)) }
    ensures failed { OnOk result (has_failed reader.new ≡ has_failed reader.old) }
{
    let mut line = Vec::new(alloc);
    // The document is line 1.
    for number in 2..u64::MAX {
        let ended = lines.read_line(reader, &mut line)?;
        note_line(
            alloc,
            target,
            stored,
            unexpected,
            without_feed(&line),
            number,
        )?;
        if !ended {
            return Ok(());
        }
        line.clear();
    }
    // No input has so many lines.
    Err(RunFault::Memory)
}

/// Notes the key in the line with this number, if the line isn't empty.
///
/// # Errors
/// The key is no text; or out of memory.
fn note_line(
    alloc: Global,
    target: &OpenedArray,
    stored: &mut StoredChunks,
    unexpected: &mut Vec<u8>,
    line: &[u8],
    number: u64,
) -> Result<(), RunFault>
    ensures text { OnOk result (IsUtf8 line.now) }
    ensures noted { OnOk result ((targets keys : List (List ℕ))
        → HaveNoted (dimensions_of target.now) (key_of target.now) targets keys
        stored.old unexpected.old.items
        → HaveNoted (dimensions_of target.now) (key_of target.now) targets
        (with_line keys line.now) stored.new unexpected.new.items) }
    ensures refused { IfErr result (λ fault. (fault ≡ Memory)
        ⊎ ((fault ≡ KeyNotText number) × (¬ IsUtf8 line.now))) }
{
    if line.is_empty() {
        return Ok(());
    }
    let Ok(key) = str::from_utf8(line) else {
        return Err(RunFault::KeyNotText(number));
    };
    if note_key(alloc, target, stored, key)? {
        return Ok(());
    }
    let line = unexpected_line(alloc, key)?;
    unexpected.extend_from_slice(&line)?;
    Ok(())
}

/// Marks the chunk of a key, and tells whether the key is that of a chunk that holds elements of the target's array.
///
/// # Errors
/// Out of memory.
fn note_key(
    alloc: Global,
    target: &OpenedArray,
    stored: &mut StoredChunks,
    key: &str,
) -> Result<bool, AllocError>
    ensures noted { OnOk result ((targets keys : List (List ℕ))
        → HaveMarked (dimensions_of target.now) (key_of target.now) targets keys
        stored.old
        → HaveMarked (dimensions_of target.now) (key_of target.now) targets
        (keys ++ key.now ∷ []) stored.new) }
    ensures of_target { IfOk result (λ is. (targets keys : List (List ℕ))
        → HaveMarked (dimensions_of target.now) (key_of target.now) targets keys
        stored.old
        → IsTrue is ↔ IsKeyOfTarget (dimensions_of target.now) (key_of target.now)
        key.now) }
{
    match StoreKey::new(String::from_str(alloc, key)?) {
        Ok(key) => stored.note(alloc, target, &key),
        // No chunk has a key that ends in a slash.
        Err(_) => Ok(false),
    }
}

/// A line without its line feed.
fn without_feed(line: &[u8]) -> &[u8]
    ensures { (bytes : List ℕ) → line.now ≡ take_through 10 bytes → result.now ≡ unended bytes }
{
    match line.split_last() {
        Some((last, front)) if *last == b'\n' => front,
        _ => line,
    }
}
