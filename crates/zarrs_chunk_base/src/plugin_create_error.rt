//! Why no extension is made of its metadata.
use crate::configuration_fault::ConfigurationFault;
use std::alloc::AllocError;
use thiserror::Error;

/// Why a chunk grid or a chunk key encoding can't be made of its metadata.
#[derive(Debug, Drop, Error)]
pub enum PluginCreateError {
    /// There is no such extension.
    #[error("name `{0}` is not supported")]
    NameUnsupported(String),
    /// The configuration isn't of the extension's form.
    #[error("configuration is unsupported: {0}")]
    ConfigurationUnsupported(ConfigurationFault),
    /// The extension refuses what the configuration says.
    #[error("{0}")]
    Other(String),
}

impl PluginCreateError {
    ghost use Rattle.std.specs.Prelude.{IfOk};
    ghost use Rattle.zarrs_chunk_base.specs.Copies.{IsSamePluginCreateError};

    /// The same refusal, of equal texts.
    ///
    /// # Errors
    /// Out of memory.
    pub fn clone(&self) -> Result<PluginCreateError, AllocError>
        ensures { IfOk result (λ error. IsSamePluginCreateError error self.now) }
    {
        Ok(match self {
            PluginCreateError::NameUnsupported(name) => {
                PluginCreateError::NameUnsupported(name.clone()?)
            }
            PluginCreateError::ConfigurationUnsupported(fault) => {
                PluginCreateError::ConfigurationUnsupported(fault.clone()?)
            }
            PluginCreateError::Other(text) => PluginCreateError::Other(text.clone()?),
        })
    }
}
