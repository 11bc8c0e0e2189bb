//! Products of numbers, in decimal digits, however large they are.
ghost use Rattle.std.specs.Prelude.{◌≡◌, ◌+◌, ◌*◌, ◌<◌, ◌≤◌};
ghost use Rattle.programs.specs.chunkplan.Common.{ℕ, IfOk, OnOk, IsNumeral, in_all, product};
ghost use Rattle.programs.specs.chunkplan.seen.Digits.{AreDigits, HasText, value};
ghost use Rattle.zarrs_chunk_tasks.specs.Counts.{count_along};

use std::alloc::{AllocError, Global};
use zarrs_chunk_tasks::{Count, CountsAlong};

/// How many digits a number of 128 bits has at most.
const LONGEST: usize = 39;

/// The digits of a product, the first one first.
///
/// # Errors
/// Out of memory.
pub(crate) fn product_text(alloc: Global, factors: &[u64]) -> Result<Vec<u8>, AllocError>
    ensures { IfOk result (λ text. IsNumeral (product factors.now) text.items) }
{
    let mut digits = Vec::with_capacity(alloc, 1)?;
    digits.push(1)?;
    for factor in factors {
        digits = times(alloc, &digits, *factor as u128)?;
    }
    numeral(alloc, &digits)
}

/// The digits of a count of all tasks, which is the product of the counts along each dimension.
///
/// # Errors
/// Out of memory.
pub(crate) fn count_text(
    alloc: Global,
    along: &[CountsAlong],
    count: Count,
) -> Result<Vec<u8>, AllocError>
    ensures { IfOk result (λ text. IsNumeral (in_all (count_along count) along.now) text.items) }
{
    let mut digits = Vec::with_capacity(alloc, 1)?;
    digits.push(1)?;
    for counts in along {
        digits = times(alloc, &digits, count.along(counts))?;
    }
    numeral(alloc, &digits)
}

/// So many times a number, as its digits, of which the last one comes first. Where it is 0, they may be several zeros.
///
/// # Errors
/// Out of memory.
fn times(alloc: Global, digits: &[u8], factor: u128) -> Result<Vec<u8>, AllocError>
    requires { AreDigits digits.now }
    ensures digits { IfOk result (λ more. AreDigits more.items) }
    ensures value { IfOk result (λ more. value more.items ≡ factor * value digits.now) }
{
    let mut more = Vec::with_capacity(alloc, digits.len() + LONGEST)?;
    let mut carry = 0;
    for digit in digits {
        let (one, tens) = digit_times(*digit, factor, carry);
        more.push(one)?;
        carry = tens;
    }
    while carry > 0 {
        more.push((carry % 10) as u8)?;
        carry /= 10;
    }
    Ok(more)
}

/// The last digit of a factor times a digit and what was carried, and what is carried on.
fn digit_times(digit: u8, factor: u128, carry: u128) -> (u8, u128)
    requires digit { digit < 10 }
    requires carry { carry ≤ factor }
    ensures last { result.0 < 10 }
    ensures carried { result.1 ≤ factor }
    ensures value { result.0 + 10 * result.1 ≡ carry + digit * factor }
{
    let digit = digit as u128;
    let ones = carry % 10 + digit * (factor % 10);
    let tens = carry / 10 + digit * (factor / 10);
    ((ones % 10) as u8, tens + ones / 10)
}

/// The numeral of a number, of whose digits the last one comes first.
///
/// # Errors
/// Out of memory.
fn numeral(alloc: Global, digits: &[u8]) -> Result<Vec<u8>, AllocError>
    requires { AreDigits digits.now }
    ensures { IfOk result (λ text. IsNumeral (value digits.now) text.items) }
{
    let mut text = Vec::with_capacity(alloc, digits.len() + 1)?;
    for place in (0..digits.len()).rev() {
        append_digit(&mut text, digits[place])?;
    }
    or_zero(text)
}

/// Appends a digit, unless it is a 0 that no other comes before.
///
/// # Errors
/// Out of memory.
fn append_digit(text: &mut Vec<u8>, digit: u8) -> Result<(), AllocError>
    requires { digit < 10 }
    ensures { (n : ℕ) → HasText n text.old.items
        → OnOk result (HasText (digit + 10 * n) text.new.items) }
{
    if digit == 0 && text.is_empty() {
        return Ok(());
    }
    text.push(b'0' + digit)?;
    Ok(())
}

/// The digits, or the digit 0 where there are none.
///
/// # Errors
/// Out of memory.
fn or_zero(mut text: Vec<u8>) -> Result<Vec<u8>, AllocError>
    ensures { (n : ℕ) → HasText n text.items → IfOk result (λ digits. IsNumeral n digits.items) }
{
    if !text.is_empty() {
        return Ok(text);
    }
    text.push(b'0')?;
    Ok(text)
}
