//! Why a JSON tree is no extension's metadata.
use thiserror::Error;

/// Why a JSON tree is no extension's metadata, in the order in which faults are looked for.
#[derive(Clone, Copy, Debug, PartialEq, Eq, Error)]
pub enum MetadataError {
    /// Neither a text nor an object.
    #[error("not an extension")]
    NotAnExtension,
    /// An object without a member `name`.
    #[error("name is missing")]
    NameMissing,
    /// A `name` that is no text.
    #[error("name is not a text")]
    NameNotText,
    /// A `configuration` that is no object.
    #[error("configuration is not an object")]
    ConfigurationNotObject,
    /// A `must_understand` that is no truth value.
    #[error("must_understand is not a truth value")]
    MustUnderstandNotBool,
}
