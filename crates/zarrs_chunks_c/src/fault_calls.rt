//! The calls that say in words why another call is refused.
ghost use Rattle.std.specs.Prelude.{◌≡◌, ◌⊎◌, IfErr, drop};
ghost use Rattle.zarrs_chunk_batches.specs.Calls.{IsEndOf, IsKeptIfShort};
ghost use Rattle.zarrs_chunk_batches.specs.Codes.{Ends};
ghost use Rattle.zarrs_chunk_batches.specs.FaultCalls.{IsTold, encoding_fault_call, grid_fault_call, words_call};
ghost use Rattle.zarrs_chunk_batches.specs.declared.codes.Fault.TheVariants.{Memory};

use std::alloc::Global;
use zarrs_chunk_batches::{code_of, code_words, encoding_fault, grid_fault};

/// Writes why metadata says no grid of an array of this shape, in words, and ends with the code of `zarrs_prepare_grid`. If it says a grid, there are
/// no words.
#[unsafe(no_mangle)]
pub extern "C" fn zarrs_grid_fault(
    alloc: Global,
    shape: &[u64],
    chunk_grid: &[u8],
    words: &mut [u8],
    needed: &mut usize,
) -> i32
    ensures ends { Ends (λ end. IsEndOf (grid_fault_call
        shape.now chunk_grid.now needed.new) end
        × IfErr end (λ fault. (fault ≡ Memory)
        ⊎ IsTold fault words.old words.new needed.new)) result }
    ensures kept_behind { drop needed.new words.new ≡ drop needed.new words.old }
{
    code_of(grid_fault(alloc, shape, chunk_grid, words, needed))
}

/// Writes why metadata says no encoding, in words, and ends with the code of `zarrs_prepare_encoding`. If it says an encoding, there are no words.
#[unsafe(no_mangle)]
pub extern "C" fn zarrs_encoding_fault(
    alloc: Global,
    chunk_key_encoding: &[u8],
    words: &mut [u8],
    needed: &mut usize,
) -> i32
    ensures ends { Ends (λ end. IsEndOf (encoding_fault_call
        chunk_key_encoding.now needed.new) end
        × IfErr end (λ fault. (fault ≡ Memory)
        ⊎ IsTold fault words.old words.new needed.new)) result }
    ensures kept_behind { drop needed.new words.new ≡ drop needed.new words.old }
{
    code_of(encoding_fault(alloc, chunk_key_encoding, words, needed))
}

/// What a code says, in words.
#[unsafe(no_mangle)]
pub extern "C" fn zarrs_code_words(code: i32, words: &mut [u8], needed: &mut usize) -> i32
    ensures ends { Ends (IsEndOf (words_call code words.new needed.new)) result }
    ensures kept_if_short { Ends (IsKeptIfShort words.old words.new) result }
    ensures kept_behind { drop needed.new words.new ≡ drop needed.new words.old }
{
    code_of(code_words(code, words, needed))
}
