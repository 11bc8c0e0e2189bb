//! Texts as one line.
ghost use Rattle.std.specs.Prelude.{◌≡◌, ◌≤◌, ◌++◌, ◌^◌, ◌<◌, IfOk, IfSome, IsTrue, OnOk, length};
ghost use Rattle.std.specs.List.{AllByRecursion};
ghost use Rattle.std.specs.Char.{digit_char};
ghost use Rattle.streams.specs.OneLine.{IsOneLine, escape, is_control as is_a_control, line_break as break_at, line_of, long_break as long_break_at};
ghost use Rattle.streams.specs.OneLine.{unbroken as unbroken_text, written};

use std::alloc::{AllocError, Global};

/// Returns a text of UTF-8 as one line that a line feed ends. Each control character in it, and each line or paragraph separator, is escaped as in
/// JSON: so no reader takes the line for two.
///
/// # Errors
/// Out of memory.
pub fn one_line(alloc: Global, text: Vec<u8>) -> Result<Vec<u8>, AllocError>
    ensures one { IfOk result (λ line. IsOneLine line.items) }
    ensures says { IfOk result (λ line. line.items ≡ line_of text.items) }
{
    let mut line = unbroken(alloc, text)?;
    line.push(b'\n')?;
    Ok(line)
}

/// Returns a text of UTF-8 with the same characters escaped, and without a line feed.
///
/// # Errors
/// Out of memory.
pub fn unbroken(alloc: Global, text: Vec<u8>) -> Result<Vec<u8>, AllocError>
    ensures { IfOk result (λ line. line.items ≡ unbroken_text text.items) }
{
    if are_printable(&text) {
        return Ok(text);
    }
    let mut line = Vec::with_capacity(alloc, text.len())?;
    let mut rest = text.as_slice();
    while let Some((first, behind)) = rest.split_first() {
        let more = push_first(&mut line, *first, behind)?;
        rest = &behind[more..];
    }
    Ok(line)
}

/// Whether all bytes of a text are printable characters of ASCII. They stay as they are.
fn are_printable(text: &[u8]) -> bool
    ensures { IsTrue result → AllByRecursion (λ b. (32 ≤ b) × (b < 127)) text.now }
{
    // The compiler takes many bytes at once, since no byte ends the loop.
    let mut printable = true;
    for byte in text {
        printable = printable & (0x20 <= *byte) & (*byte < 0x7F);
    }
    printable
}

/// Appends the first byte of a text, or the escape of the character that it begins. Returns how many of the bytes behind it belong to that character.
///
/// # Errors
/// Out of memory.
fn push_first(line: &mut Vec<u8>, first: u8, behind: &[u8]) -> Result<usize, AllocError>
    ensures text { OnOk result (line.new.items
        ≡ line.old.items ++ (written first (break_at first behind.now)).0) }
    ensures more { IfOk result (λ more. more ≡ (written first (break_at first behind.now)).1) }
    ensures within { IfOk result (λ more. more ≤ length behind.now) }
{
    match line_break(first, behind) {
        Some((code, more)) => {
            push_escape(line, code)?;
            Ok(more)
        }
        None => {
            line.push(first)?;
            Ok(0)
        }
    }
}

/// The code of the character that breaks a line and begins with a byte, and how many of the bytes behind belong to it.
fn line_break(first: u8, behind: &[u8]) -> Option<(u32, usize)>
    ensures says { result ≡ break_at first behind.now }
    ensures within { IfSome result (λ found. (found.0 < 2 ^ 16) × (found.1 ≤ length behind.now)) }
{
    if is_control(first) {
        return Some((first as u32, 0));
    }
    long_break(first, behind)
}

/// The same of a character of more than one byte.
fn long_break(first: u8, behind: &[u8]) -> Option<(u32, usize)>
    ensures says { result ≡ long_break_at first behind.now }
    ensures within { IfSome result (λ found. (found.0 < 2 ^ 16) × (found.1 ≤ length behind.now)) }
{
    let (second, last) = behind.split_first()?;
    if first == 0xC2 && 0x80 <= *second && *second < 0xA0 {
        return Some((*second as u32, 1));
    }
    let (third, _) = last.split_first()?;
    if first == 0xE2 && *second == 0x80 && (*third == 0xA8 || *third == 0xA9) {
        return Some((0x1F80 + *third as u32, 2));
    }
    None
}

/// Whether a byte is a control character of ASCII.
fn is_control(byte: u8) -> bool
    ensures { result ≡ is_a_control byte }
{
    byte < 0x20 || byte == 0x7F
}

/// Appends the escape of a character with this code: `\u` and four hexadecimal digits.
///
/// # Errors
/// Out of memory.
fn push_escape(line: &mut Vec<u8>, code: u32) -> Result<(), AllocError>
    requires { code < 2 ^ 16 }
    ensures { OnOk result (line.new.items ≡ line.old.items ++ escape code) }
{
    line.extend_from_slice(b"\\u")?;
    line.push(hexadecimal(code >> 12))?;
    line.push(hexadecimal(code >> 8 & 15))?;
    line.push(hexadecimal(code >> 4 & 15))?;
    line.push(hexadecimal(code & 15))?;
    Ok(())
}

/// The digit of a number below 16.
fn hexadecimal(number: u32) -> u8
    requires { number < 16 }
    ensures { result ≡ digit_char number }
{
    let number = number as u8;
    if number < 10 {
        b'0' + number
    } else {
        b'a' + (number - 10)
    }
}
