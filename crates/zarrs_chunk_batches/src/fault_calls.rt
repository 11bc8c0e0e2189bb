//! The calls that say in words why another call is refused.
ghost use Rattle.std.specs.Prelude.{◌≡◌, ◌⊎◌, IfErr, IfOk, IsOk, MatchResult, OnOk, drop, string_bytes};
ghost use Rattle.zarrs_chunk_batches.specs.Calls.{IsEndOf, IsKeptIfShort};
ghost use Rattle.zarrs_chunk_batches.specs.FaultCalls.{AreWordsOf, IsTold, encoding_fault_call, grid_fault_call, words_call};
ghost use Rattle.zarrs_chunk_batches.specs.declared.codes.Fault.TheVariants.{Memory};

use crate::buffers::{write_front, write_text};
use crate::codes::{Fault, words_of};
use crate::metadata::{encoding_of, grid_of};
use std::alloc::{AllocError, Global};

/// Ends as the making of the grid does, and writes why there is none.
///
/// # Errors
/// The grid can't be made; or out of memory.
pub fn grid_fault(
    alloc: Global,
    shape: &[u64],
    chunk_grid: &[u8],
    words: &mut [u8],
    needed: &mut usize,
) -> Result<(), Fault>
    ensures ends { IsEndOf (grid_fault_call shape.now chunk_grid.now needed.new) result }
    ensures told { IfErr result (λ fault. (fault ≡ Memory)
        ⊎ IsTold fault words.old words.new needed.new) }
    ensures kept_behind { drop needed.new words.new ≡ drop needed.new words.old }
{
    tell(alloc, grid_of(alloc, shape, chunk_grid), words, needed)
}

/// Ends as the making of the encoding does, and writes why there is none.
///
/// # Errors
/// The encoding can't be made; or out of memory.
pub fn encoding_fault(
    alloc: Global,
    chunk_key_encoding: &[u8],
    words: &mut [u8],
    needed: &mut usize,
) -> Result<(), Fault>
    ensures ends { IsEndOf (encoding_fault_call chunk_key_encoding.now needed.new) result }
    ensures told { IfErr result (λ fault. (fault ≡ Memory)
        ⊎ IsTold fault words.old words.new needed.new) }
    ensures kept_behind { drop needed.new words.new ≡ drop needed.new words.old }
{
    tell(alloc, encoding_of(alloc, chunk_key_encoding), words, needed)
}

/// Writes what a code says.
///
/// # Errors
/// The words are longer than their buffer.
pub fn code_words(code: i32, words: &mut [u8], needed: &mut usize) -> Result<(), Fault>
    ensures ends { IsEndOf (words_call code words.new needed.new) result }
    ensures kept_if_short { IsKeptIfShort words.old words.new result }
    ensures kept_behind { drop needed.new words.new ≡ drop needed.new words.old }
{
    write_text(words_of(code), words, needed)
}

/// Ends as the making of something did, and writes in words why it failed; where it didn't, that there are none. Words that are longer than their
/// buffer aren't written.
///
/// # Errors
/// That of the making; or out of memory.
fn tell<T: Drop>(
    alloc: Global,
    made: Result<T, Fault>,
    words: &mut [u8],
    needed: &mut usize,
) -> Result<(), Fault>
    ensures ends { MatchResult made (λ _. IsOk result)
        (λ fault. MatchResult result (λ _. ⊥) (λ told. (told ≡ Memory) ⊎ (told ≡ fault))) }
    ensures none { OnOk result (needed.new ≡ 0) }
    ensures told { IfErr result (λ fault. (fault ≡ Memory)
        ⊎ IsTold fault words.old words.new needed.new) }
    ensures kept_behind { drop needed.new words.new ≡ drop needed.new words.old }
{
    match made {
        Ok(_) => {
            *needed = 0;
            Ok(())
        }
        Err(fault) => {
            let text = words_of_fault(alloc, &fault)?;
            let _ = write_front(text.as_bytes(), words, needed);
            Err(fault)
        }
    }
}

/// What a fault says, in words: of metadata, what it lacks.
///
/// # Errors
/// Out of memory.
fn words_of_fault(alloc: Global, fault: &Fault) -> Result<String, AllocError>
    ensures { IfOk result (λ text. AreWordsOf fault.now (string_bytes text)) }
{
    match fault {
        Fault::Extension(error) => format!(in alloc; "{error}"),
        other => String::from_str(alloc, words_of(other.code())),
    }
}
