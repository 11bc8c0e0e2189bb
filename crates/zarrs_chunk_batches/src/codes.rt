//! Why a call is refused, the code of it, and its words.
ghost use Rattle.std.specs.Prelude.{◌≡◌};
ghost use Rattle.zarrs_chunk_base.specs.Refusal.{MatchRefusal};
ghost use Rattle.zarrs_chunk_batches.specs.Codes.{code_words, end_code, fault_code};
ghost use Rattle.zarrs_chunk_batches.specs.declared.codes.Fault.TheVariants.{Extension, Length, Memory};

use std::alloc::AllocError;
use zarrs_chunk_base::{ExtensionError, IncompatibleDimensionalityError, Refusal};

/// Why a call is refused. The header `zarrs_chunks.h` names the codes.
#[derive(Drop)]
pub enum Fault {
    /// Out of memory.
    Memory,
    /// A buffer is longer or shorter than the others demand.
    Length,
    /// The metadata is no text of JSON.
    NotJson,
    /// The metadata is JSON, and no extension's; or the grid or the encoding that it asks for can't be made.
    Extension(ExtensionError),
    /// A start and a shape are those of no box: it ends past 18446744073709551615.
    NotBox,
    /// Offsets descend, or lie past the text.
    Offsets,
    /// The answer is longer than its buffer. How long it is, is told.
    Short,
    /// Numbers aren't those of a prepared grid, or of a prepared encoding.
    NotPrepared,
}

impl Fault {
    /// The code of the fault.
    pub(crate) fn code(&self) -> i32
        ensures { result ≡ fault_code self.now }
    {
        match self {
            Fault::Memory => -1,
            Fault::Length => -2,
            Fault::NotJson => -3,
            Fault::Extension(ExtensionError::Metadata(_)) => -4,
            Fault::Extension(ExtensionError::Create(_)) => -5,
            Fault::NotBox => -6,
            Fault::Offsets => -7,
            Fault::Short => -8,
            Fault::NotPrepared => -9,
        }
    }
}

/// The code that a call ends with: 0, or that of its fault.
pub fn code_of(ended: Result<(), Fault>) -> i32
    ensures { result ≡ end_code ended }
{
    match ended {
        Ok(()) => 0,
        Err(fault) => fault.code(),
    }
}

/// What a code says, in words: of those that no call ends with, that they are none.
pub(crate) fn words_of(code: i32) -> &'static str
    ensures { result.now ≡ code_words code }
{
    match code {
        0 => "the call has answered",
        -1 => "out of memory",
        -2 => "an array has more or fewer items than the others demand",
        -3 => "the metadata is not JSON",
        -4 => "the metadata is no extension's",
        -5 => "the grid or the encoding is refused",
        -6 => "a box ends past 18446744073709551615",
        -7 => "offsets descend, or lie past the text",
        -8 => "the text of the answer is longer than its buffer",
        -9 => "the numbers are not those of a prepared grid or encoding",
        _ => "no call ends with this code",
    }
}

impl From<AllocError> for Fault {
    ghost from_gives = { λ _ fault. fault ≡ Memory };

    fn from(_error: AllocError) -> Fault {
        Fault::Memory
    }
}

impl From<Refusal<ExtensionError>> for Fault {
    ghost from_gives = { λ refusal fault. MatchRefusal refusal (λ error. fault ≡ Extension error) (λ _. fault ≡ Memory) };

    fn from(refusal: Refusal<ExtensionError>) -> Fault {
        match refusal {
            Refusal::Refused(error) => Fault::Extension(error),
            Refusal::Memory(_) => Fault::Memory,
        }
    }
}

/// A look-up is refused for the length of its list alone.
impl From<IncompatibleDimensionalityError> for Fault {
    ghost from_gives = { λ _ fault. fault ≡ Length };

    fn from(_error: IncompatibleDimensionalityError) -> Fault {
        Fault::Length
    }
}

/// The same, or out of memory.
impl From<Refusal<IncompatibleDimensionalityError>> for Fault {
    ghost from_gives = { λ refusal fault. MatchRefusal refusal (λ _. fault ≡ Length) (λ _. fault ≡ Memory) };

    fn from(refusal: Refusal<IncompatibleDimensionalityError>) -> Fault {
        match refusal {
            Refusal::Refused(_) => Fault::Length,
            Refusal::Memory(_) => Fault::Memory,
        }
    }
}
