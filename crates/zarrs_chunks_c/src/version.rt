//! Which version of the interface this is, and of the library.
ghost use Rattle.std.specs.Prelude.{◌≡◌, drop};
ghost use Rattle.zarrs_chunk_batches.specs.Calls.{IsEndOf, IsKeptIfShort};
ghost use Rattle.zarrs_chunk_batches.specs.Codes.{Ends, abi_version, library_version};
ghost use Rattle.zarrs_chunk_batches.specs.FaultCalls.{text_call};

use zarrs_chunk_batches::{code_of, write_text};

/// The version of the library, as the file `VERSION` has it.
const VERSION: &str = "0.1.0";

/// The version of the interface, as the header `zarrs_chunks.h` that goes with it has it. It grows where a call changes what it takes or writes.
#[unsafe(no_mangle)]
pub extern "C" fn zarrs_abi_version() -> i32
    ensures { result ≡ abi_version }
{
    3
}

/// The version of the library.
#[unsafe(no_mangle)]
pub extern "C" fn zarrs_version(version: &mut [u8], needed: &mut usize) -> i32
    ensures ends { Ends (IsEndOf (text_call library_version version.new needed.new)) result }
    ensures kept_if_short { Ends (IsKeptIfShort version.old version.new) result }
    ensures kept_behind { drop needed.new version.new ≡ drop needed.new version.old }
{
    code_of(write_text(VERSION, version, needed))
}
