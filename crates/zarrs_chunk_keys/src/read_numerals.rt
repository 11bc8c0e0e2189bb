//! Numbers that are read from decimal text.
ghost use Rattle.std.specs.Prelude.{◌≡◌, ◌≢◌, ◌∷◌, ◌++◌, ◌<◌, ◌≤◌, ◌+◌, ◌*◌, ℕ, IfOk, List, MatchOption};
ghost use Rattle.zarrs_chunk_base.specs.ChunkKeySeparator.{separator_byte};
ghost use Rattle.zarrs_chunk_base.specs.Greatest.{greatest};
ghost use Rattle.zarrs_chunk_keys.specs.Decoded.{IsDecoded};
ghost use Rattle.zarrs_chunk_keys.specs.Numeral.{IsNumeral, IsNumerals, digit};
ghost use Rattle.zarrs_chunk_keys.specs.lemmas.Parts.{EndsBefore};

use std::alloc::{AllocError, Global};
use zarrs_chunk_base::{ArrayIndices, ChunkKeySeparator};

/// The numbers whose numerals stand in a text, each after the separator: `[3, 2, 16]` of `/3/2/16`. `None` if they aren't this many 64-bit
/// numbers.
///
/// # Errors
/// Out of memory. Of a text that is too short for this many numbers it needs none.
pub(crate) fn read_numerals(
    alloc: Global,
    separator: ChunkKeySeparator,
    count: usize,
    text: &[u8],
) -> Result<Option<ArrayIndices>, AllocError>
    ensures { IfOk result (IsDecoded (λ numbers. IsNumerals (separator_byte separator) numbers text.now)
        count) }
{
    let Some((first, numerals)) = text.split_first() else {
        return Ok(if count == 0 {
            Some(Vec::new(alloc))
        } else {
            None
        });
    };
    if *first != separator.as_char() as u8 {
        return Ok(None);
    }
    read_numbers(alloc, separator, count, numerals)
}

/// The numbers whose numerals stand in a text with the separator between them: `[3, 2, 16]` of `3/2/16`. `None` if they aren't this many
/// 64-bit numbers, and of no numbers. A numeral has no leading zero.
///
/// # Errors
/// Out of memory. Of a text that is too short for this many numbers it needs none.
///
/// Source: Zarr V3 core, chunk key encodings.
pub(crate) fn read_numbers(
    alloc: Global,
    separator: ChunkKeySeparator,
    count: usize,
    text: &[u8],
) -> Result<Option<ArrayIndices>, AllocError>
    ensures { IfOk result (IsDecoded (λ numbers. IsNumerals (separator_byte separator) numbers
        (separator_byte separator ∷ text.now)) count) }
{
    // Each number has a digit.
    if count > text.len() {
        return Ok(None);
    }
    let mut numbers = Vec::with_capacity(alloc, count)?;
    let byte = separator.as_char() as u8;
    let mut rest = text;
    while numbers.len() < count {
        let Some((number, behind)) = first_number(rest, byte) else {
            return Ok(None);
        };
        numbers.push_reserved(number);
        let Some((_, others)) = behind.split_first() else {
            return Ok(if numbers.len() == count {
                Some(numbers)
            } else {
                None
            });
        };
        rest = others;
    }
    Ok(None)
}

/// The number whose numeral a text begins with, up to a separator or the end, and what stands behind the numeral; `None` where no 64-bit
/// number has it.
fn first_number(text: &[u8], separator: u8) -> Option<(u64, &[u8])>
    requires { separator < 48 }
    ensures { MatchOption result
        ((n : ℕ) (numeral rest : List ℕ) → n ≤ greatest → IsNumeral n numeral
        → text.now ≡ numeral ++ rest → ¬ EndsBefore separator rest)
        (λ found. (found.0 ≤ greatest) × ((numeral : List ℕ) × IsNumeral found.0 numeral
        × (text.now ≡ numeral ++ found.1.now) × EndsBefore separator found.1.now)) }
{
    let (first, others) = text.split_first()?;
    let mut number = digit_of(*first)?;
    for (i, byte) in others.iter().enumerate() {
        if *byte == separator {
            return Some((number, &others[i..]));
        }
        // No numeral of more than one digit begins with 0.
        if number == 0 {
            return None;
        }
        number = with_digit(number, *byte)?;
    }
    Some((number, &others[others.len()..]))
}

/// The number of which the numeral has one more digit, this byte; `None` where the byte is no digit or the number would be
/// past 64 bits.
fn with_digit(number: u64, byte: u8) -> Option<u64>
    ensures { MatchOption result
        ((d : ℕ) → d < 10 → byte ≡ digit d → greatest < 10 * number + d)
        (λ longer. (longer ≤ greatest)
        × ((d : ℕ) × (d < 10) × (byte ≡ digit d) × (longer ≡ 10 * number + d))) }
{
    number.checked_mul(10)?.checked_add(digit_of(byte)?)
}

/// The number below ten of which this byte is the digit.
fn digit_of(byte: u8) -> Option<u64>
    ensures { MatchOption result ((d : ℕ) → d < 10 → byte ≢ digit d)
        (λ d. (d < 10) × (byte ≡ digit d)) }
{
    if byte.is_ascii_digit() {
        Some(u64::from(byte - b'0'))
    } else {
        None
    }
}
