//! Buffers that are longer than what is written to them.
ghost use Rattle.std.specs.Prelude.{◌≡◌, ◌<◌, ◌≤◌, IfErr, OnErr, OnOk, drop, length, take};
ghost use Rattle.zarrs_chunk_batches.specs.Calls.{IsEndOf, IsKeptIfShort};
ghost use Rattle.zarrs_chunk_batches.specs.FaultCalls.{text_call};
ghost use Rattle.zarrs_chunk_batches.specs.declared.codes.Fault.TheVariants.{Short};

use crate::codes::Fault;

/// Writes items to the front of a buffer, and how many they are, even where the buffer is shorter.
///
/// # Errors
/// The buffer is shorter. Nothing is written to it.
pub(crate) fn write_front<T: Copy>(
    items: &[T],
    buffer: &mut [T],
    needed: &mut usize,
) -> Result<(), Fault>
    ensures told { needed.new ≡ length items.now }
    ensures fits { OnOk result (length items.now ≤ length buffer.new) }
    ensures written { OnOk result (take (length items.now) buffer.new ≡ items.now) }
    ensures short { IfErr result (λ fault. (fault ≡ Short)
        × (length buffer.new < length items.now)) }
    ensures untouched { OnErr result (buffer.new ≡ buffer.old) }
    ensures behind { drop needed.new buffer.new ≡ drop needed.new buffer.old }
{
    *needed = items.len();
    if items.len() > buffer.len() {
        return Err(Fault::Short);
    }
    buffer[..items.len()].copy_from_slice(items);
    Ok(())
}

/// Writes a text to the front of a buffer, and how long it is.
///
/// # Errors
/// The buffer is shorter. Nothing is written to it.
pub fn write_text(text: &str, buffer: &mut [u8], needed: &mut usize) -> Result<(), Fault>
    ensures ends { IsEndOf (text_call text.now buffer.new needed.new) result }
    ensures kept_if_short { IsKeptIfShort buffer.old buffer.new result }
    ensures kept_behind { drop needed.new buffer.new ≡ drop needed.new buffer.old }
{
    write_front(text.as_bytes(), buffer, needed)
}
