//! A chunk key encoding as numbers.
ghost use Rattle.std.specs.Prelude.{◌≡◌, ◌≢◌, ◌++◌, IfOk, IfSome, IsUtf8, MatchOption, OnOk};
ghost use Rattle.zarrs_chunk_base.specs.ChunkKeySeparator.{separator_byte};
ghost use Rattle.zarrs_chunk_base.specs.StoreKey.{EndsInSlash};
ghost use Rattle.zarrs_chunk_base.specs.declared.chunk_key_separator.ChunkKeySeparator.{ChunkKeySeparator as AnySeparator};
ghost use Rattle.zarrs_chunk_keys.specs.ChunkKey.{Encoding, suffixed_keys};
ghost use Rattle.zarrs_chunk_keys.specs.seen.Encodings.{encoding_in};
ghost use Rattle.zarrs_chunk_prepared.specs.PreparedEncoding.{AreBytes, IsPreparedEncoding, kind_number};

use std::alloc::{AllocError, Global};
use zarrs_chunk_base::ChunkKeySeparator;
use zarrs_chunk_keys::{
    ChunkKeyEncoding, DefaultChunkKeyEncoding, DefaultSuffixChunkKeyEncoding, V2ChunkKeyEncoding,
};

/// The number by which those of an encoding are told from others: `zarrkeys` in ASCII.
const ENCODING_MARK: u64 = 0x7a61_7272_6b65_7973;

/// The numbers of an encoding, by which [`read_encoding`] makes it again. There are three, and one for each byte of the suffix.
///
/// # Errors
/// Out of memory.
pub fn prepare_encoding(alloc: Global, encoding: &ChunkKeyEncoding) -> Result<Vec<u64>, AllocError>
    ensures { IfOk result (λ numbers. IsPreparedEncoding numbers.items (encoding_in encoding.now)) }
{
    let mut numbers = Vec::new(alloc);
    numbers.push(ENCODING_MARK)?;
    numbers.push(number_of_kind(encoding))?;
    numbers.push(byte_of(encoding.separator()))?;
    append_bytes(&mut numbers, encoding.suffix().as_bytes())?;
    Ok(numbers)
}

/// The encoding that numbers tell; `None` where they aren't the numbers of one.
///
/// # Errors
/// Out of memory.
pub fn read_encoding(alloc: Global, numbers: &[u64]) -> Result<Option<ChunkKeyEncoding>, AllocError>
    ensures encoding { IfOk result (λ found. (encoding : Encoding)
        → IsPreparedEncoding numbers.now encoding
        → MatchOption found ⊥ (λ read. encoding_in read ≡ encoding)) }
    ensures numbers { IfOk result (λ found. IfSome found (λ read.
        IsPreparedEncoding numbers.now (encoding_in read))) }
{
    let Some((head, suffix)) = numbers.split_at_checked(3) else {
        return Ok(None);
    };
    if head[0] != ENCODING_MARK {
        return Ok(None);
    }
    let Some(separator) = separator_with_byte(head[2]) else {
        return Ok(None);
    };
    match head[1] {
        0 if suffix.is_empty() => {
            Ok(Some(ChunkKeyEncoding::Default(DefaultChunkKeyEncoding::new(separator))))
        }
        1 if suffix.is_empty() => Ok(Some(ChunkKeyEncoding::V2(V2ChunkKeyEncoding::new(
            separator,
        )))),
        2 => read_suffixed(alloc, separator, suffix),
        _ => Ok(None),
    }
}

/// The encoding with a suffix whose bytes are these numbers; `None` where they are no text, or one that ends in a slash.
///
/// # Errors
/// Out of memory.
fn read_suffixed(
    alloc: Global,
    separator: ChunkKeySeparator,
    numbers: &[u64],
) -> Result<Option<ChunkKeyEncoding>, AllocError>
    ensures { IfOk result (λ found. MatchOption found
        (¬ (AreBytes numbers.now × IsUtf8 numbers.now × ¬ EndsInSlash numbers.now))
        (λ read. (AreBytes numbers.now × IsUtf8 numbers.now × ¬ EndsInSlash numbers.now)
        × (encoding_in read ≡ suffixed_keys separator numbers.now))) }
{
    let Some(bytes) = bytes_of(alloc, numbers)? else {
        return Ok(None);
    };
    let Ok(suffix) = str::from_utf8(&bytes) else {
        return Ok(None);
    };
    let suffix = String::from_str(alloc, suffix)?;
    match DefaultSuffixChunkKeyEncoding::new(separator, suffix) {
        Ok(encoding) => Ok(Some(ChunkKeyEncoding::DefaultSuffix(encoding))),
        Err(_) => Ok(None),
    }
}

/// Numbers as bytes; `None` where one is above 255.
///
/// # Errors
/// Out of memory.
fn bytes_of(alloc: Global, numbers: &[u64]) -> Result<Option<Vec<u8>>, AllocError>
    ensures { IfOk result (λ found. MatchOption found (¬ AreBytes numbers.now)
        (λ bytes. AreBytes numbers.now × (bytes.items ≡ numbers.now))) }
{
    let mut bytes = Vec::new(alloc);
    for number in numbers {
        let Ok(byte) = u8::try_from(*number) else {
            return Ok(None);
        };
        bytes.push(byte)?;
    }
    Ok(Some(bytes))
}

/// Appends a number for each byte.
///
/// # Errors
/// Out of memory.
fn append_bytes(numbers: &mut Vec<u64>, bytes: &[u8]) -> Result<(), AllocError>
    ensures appended { OnOk result (numbers.new.items ≡ numbers.old.items ++ bytes.now) }
    ensures fit { AreBytes bytes.now }
{
    for byte in bytes {
        numbers.push(u64::from(*byte))?;
    }
    Ok(())
}

/// By which number a kind of keys is told.
fn number_of_kind(encoding: &ChunkKeyEncoding) -> u64
    ensures { result ≡ kind_number (encoding_in encoding.now) }
{
    match encoding {
        ChunkKeyEncoding::Default(_) => 0,
        ChunkKeyEncoding::V2(_) => 1,
        ChunkKeyEncoding::DefaultSuffix(_) => 2,
    }
}

/// The ASCII byte of a separator.
fn byte_of(separator: ChunkKeySeparator) -> u64
    ensures { result ≡ separator_byte separator }
{
    match separator {
        ChunkKeySeparator::Slash => 47,
        ChunkKeySeparator::Dot => 46,
    }
}

/// The separator with this ASCII byte, if there is one.
fn separator_with_byte(byte: u64) -> Option<ChunkKeySeparator>
    ensures { MatchOption result ((separator : AnySeparator) → separator_byte separator ≢ byte)
        (λ separator. separator_byte separator ≡ byte) }
{
    match byte {
        47 => Some(ChunkKeySeparator::Slash),
        46 => Some(ChunkKeySeparator::Dot),
        _ => None,
    }
}
