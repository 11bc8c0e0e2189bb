//! Why a call that takes memory gives no answer.
ghost use Rattle.std.specs.Prelude.{◌≡◌};
ghost use Rattle.zarrs_chunk_base.specs.declared.refusal.Refusal.TheVariants.{Memory};

use std::alloc::{AllocError, AllocFailed};
use std::error::Error;
use std::fmt;
use std::fmt::{Debug, Display};

/// A call's own refusal, or out of memory.
#[derive(Debug, Drop)]
pub enum Refusal<E> {
    /// The call's own refusal.
    Refused(E),
    /// Out of memory.
    Memory(AllocError),
}

impl<E> Refusal<E> {
    ghost use Rattle.std.specs.Prelude.{◌≡◌, Err, Ok};
    ghost use Rattle.zarrs_chunk_base.specs.Refusal.{IsRefusedAnd, MatchRefusal, OrMemory};
    ghost use Rattle.zarrs_chunk_base.specs.declared.refusal.Refusal.TheVariants.{Memory};

    /// The refusal that `op` makes of the call's own; that it is out of memory stays.
    pub fn map<F, O: FnOnce(E) -> F>(self, op: O) -> Refusal<F>
        requires { OrMemory (O.pre op) self }
        ensures { MatchRefusal self
            (λ error. IsRefusedAnd result (O.post op error))
            (λ error. result ≡ Memory error) }
    {
        match self {
            Refusal::Refused(error) => Refusal::Refused(op(error)),
            Refusal::Memory(error) => Refusal::Memory(error),
        }
    }

    /// The same where `op` takes memory; where it finds none, that there was none.
    pub fn try_map<F, O: FnOnce(E) -> Result<F, AllocError>>(self, op: O) -> Refusal<F>
        requires { OrMemory (O.pre op) self }
        ensures { MatchRefusal self
            (λ error. MatchRefusal result (λ made. O.post op error (Ok made))
            (λ memory. O.post op error (Err memory)))
            (λ error. result ≡ Memory error) }
    {
        match self {
            Refusal::Refused(error) => match op(error) {
                Ok(made) => Refusal::Refused(made),
                Err(memory) => Refusal::Memory(memory),
            },
            Refusal::Memory(error) => Refusal::Memory(error),
        }
    }
}

impl<E> From<AllocError> for Refusal<E> {
    ghost from_gives = { λ e r. r ≡ Memory e };

    fn from(error: AllocError) -> Refusal<E> {
        Refusal::Memory(error)
    }
}

impl<E, T: Drop> From<AllocFailed<T>> for Refusal<E> {
    ghost use Rattle.std.specs.Prelude.{alloc_error};

    ghost from_gives = { λ _ r. r ≡ Memory alloc_error };

    fn from(_failed: AllocFailed<T>) -> Refusal<E> {
        Refusal::Memory(AllocError)
    }
}

impl<E: Display> Display for Refusal<E> {
    fn fmt<W: fmt::Write>(&self, f: &mut fmt::Formatter<W>) -> fmt::Result {
        match self {
            Refusal::Refused(error) => write!(f, "{error}"),
            Refusal::Memory(_) => f.write_str("out of memory"),
        }
    }
}

impl<E: Debug + Display + Drop> Error for Refusal<E> {}
