//! Why the members of an object are no configuration.
use std::alloc::AllocError;
use thiserror::Error;

/// Why members are no configuration of their kind, in the order in which faults are looked for.
#[derive(Debug, Drop, Error)]
pub enum ConfigurationFault {
    /// A member that the configuration doesn't have; of several the first by name.
    #[error("unknown field `{field}`, expected {expected}")]
    UnknownField {
        /// The member's name.
        field: String,
        /// The names that are known, as `` `chunk_shape` ``.
        expected: &'static str,
    },
    /// A member that has to be there; of several the first by name.
    #[error("missing field `{field}`")]
    MissingField {
        /// The member's name.
        field: &'static str,
    },
    /// A member whose value isn't of its form; of several the first by name.
    #[error("wrong value in field `{field}`")]
    WrongValue {
        /// The member's name.
        field: &'static str,
    },
}

impl ConfigurationFault {
    ghost use Rattle.std.specs.Prelude.{IfOk};
    ghost use Rattle.zarrs_chunk_base.specs.Copies.{IsSameConfigurationFault};

    /// The same fault, of equal texts.
    ///
    /// # Errors
    /// Out of memory.
    pub fn clone(&self) -> Result<ConfigurationFault, AllocError>
        ensures { IfOk result (λ fault. IsSameConfigurationFault fault self.now) }
    {
        Ok(match self {
            ConfigurationFault::UnknownField { field, expected } => {
                ConfigurationFault::UnknownField {
                    field: field.clone()?,
                    expected: *expected,
                }
            }
            ConfigurationFault::MissingField { field } => {
                ConfigurationFault::MissingField { field: *field }
            }
            ConfigurationFault::WrongValue { field } => {
                ConfigurationFault::WrongValue { field: *field }
            }
        })
    }
}
