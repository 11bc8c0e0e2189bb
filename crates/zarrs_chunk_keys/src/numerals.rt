//! Numbers as decimal text.
ghost use Rattle.std.specs.Prelude.{◌≡◌, ◌++◌, ◌<◌, List, ℕ, OnErr, OnOk, string_bytes};
ghost use Rattle.zarrs_chunk_keys.specs.Numeral.{AreJoined, IsNumeral, IsNumerals};

use crate::cut_back::or_cut_back;
use std::alloc::AllocError;

/// The most bytes that a number and a character before it take up.
const LONGEST: usize = 21;

/// Room for the numerals of numbers, each after a character, and so many other bytes.
pub(crate) fn room_for(numbers: &[u64], other_bytes: usize) -> usize {
    numbers
        .len()
        .saturating_mul(LONGEST)
        .saturating_add(other_bytes)
}

/// Appends a number's digits to a text.
///
/// # Errors
/// Out of memory.
fn append_numeral(text: &mut String, number: u64) -> Result<(), AllocError>
    ensures appended { OnOk result ((numeral : List ℕ) × IsNumeral number numeral
        × (string_bytes text.new ≡ string_bytes text.old ++ numeral)) }
    ensures unchanged { OnErr result (string_bytes text.new ≡ string_bytes text.old) }
{
    text.push_str(itoa::Buffer::new().format(number))?;
    Ok(())
}

/// Appends to a text, for each number, the ASCII character and the number's digits.
///
/// # Errors
/// Out of memory; the text is then what it was.
pub fn append_numerals(text: &mut String, before: char, numbers: &[u64]) -> Result<(), AllocError>
    requires { before < 128 }
    ensures appended { OnOk result ((numerals : List ℕ) × IsNumerals before numbers.now numerals
        × (string_bytes text.new ≡ string_bytes text.old ++ numerals)) }
    ensures kept { (rest : List ℕ) × (string_bytes text.new ≡ string_bytes text.old ++ rest) }
    ensures unchanged { OnErr result (string_bytes text.new ≡ string_bytes text.old) }
{
    let length = text.len();
    let written = write_numerals(text, before, numbers);
    or_cut_back(text, length, written)
}

/// As [`append_numerals`], but where memory runs out, what was written by then stays behind the text.
pub(crate) fn write_numerals(
    text: &mut String,
    before: char,
    numbers: &[u64],
) -> Result<(), AllocError>
    requires { before < 128 }
    ensures appended { OnOk result ((numerals : List ℕ) × IsNumerals before numbers.now numerals
        × (string_bytes text.new ≡ string_bytes text.old ++ numerals)) }
    ensures kept { (rest : List ℕ) × (string_bytes text.new ≡ string_bytes text.old ++ rest) }
{
    let mut buffer = itoa::Buffer::new();
    for number in numbers {
        text.push(before)?;
        text.push_str(buffer.format(*number))?;
    }
    Ok(())
}

/// Appends to a text the digits of each number, with the ASCII character between them.
///
/// # Errors
/// Out of memory; the text is then what it was.
pub fn append_joined(text: &mut String, between: char, numbers: &[u64]) -> Result<(), AllocError>
    requires { between < 128 }
    ensures appended { OnOk result ((joined : List ℕ) × AreJoined between numbers.now joined
        × (string_bytes text.new ≡ string_bytes text.old ++ joined)) }
    ensures kept { (rest : List ℕ) × (string_bytes text.new ≡ string_bytes text.old ++ rest) }
    ensures unchanged { OnErr result (string_bytes text.new ≡ string_bytes text.old) }
{
    let length = text.len();
    let written = write_joined(text, between, numbers);
    or_cut_back(text, length, written)
}

/// As [`append_joined`], but where memory runs out, what was written by then stays behind the text.
pub(crate) fn write_joined(
    text: &mut String,
    between: char,
    numbers: &[u64],
) -> Result<(), AllocError>
    requires { between < 128 }
    ensures appended { OnOk result ((joined : List ℕ) × AreJoined between numbers.now joined
        × (string_bytes text.new ≡ string_bytes text.old ++ joined)) }
    ensures kept { (rest : List ℕ) × (string_bytes text.new ≡ string_bytes text.old ++ rest) }
{
    if let Some((first, others)) = numbers.split_first() {
        append_numeral(text, *first)?;
        write_numerals(text, between, others)?;
    }
    Ok(())
}
